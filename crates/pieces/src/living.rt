// Which volumes live.
ghost use Rattle.std.specs.Prelude.{◌≡◌};
ghost use Rattle.volumes.specs.Service.{is_living};

use volumes::head::Head;
use volumes::living::is_living;
use wire::number::*;

// By the next volume's number and the heads of volumes: what the directory has of others is free.
#[derive(Clone, Copy)]
pub struct Living<'a> {
    pub next: u64,
    pub heads: &'a [Head],
}

impl Living<'_> {
    pub fn has(self, volume: Volume) -> bool
        ensures { result ≡ is_living self.entry.next self.entry.heads.now volume.0 }
    {
        is_living(self.next, self.heads, volume)
    }
}
