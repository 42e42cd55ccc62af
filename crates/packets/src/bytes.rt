// What has bytes: it is put behind others, and taken off their front.
ghost use Rattle.std.specs.Prelude.{◌≡◌, map};
ghost use Rattle.packets.specs.Codecs.{Codec, Gives, Puts};

use crate::fault::*;
use std::alloc::Global;

pub trait Bytes: Sized {
    ghost View: { Type 0 };

    ghost view: { Self → View };

    ghost codec: { Codec View };

    // Puts its bytes behind what `out` holds.
    fn put(&self, out: &mut Vec<u8>) -> Result<(), Unsent>
        ensures { Puts codec (view self.now) out.old.items out.new.items result };

    // What these bytes begin with, and what follows it.
    fn take(heap: Global, bytes: &[u8]) -> Result<(Self, &[u8]), Unread>
        ensures { Gives (λ x. (view x.0, x.1.now)) result (codec.read bytes.now) };
}
