// What goes under a customer's number: a call or an answer, as in a frame on a line.
ghost use Rattle.std.specs.Prelude.{◌≡◌, ◌+◌, length};
ghost use Rattle.packets.specs.Codecs.{Gives, Puts};
ghost use Rattle.packets.specs.Formats.{framed};

use crate::bytes::Bytes;
use crate::fault::*;
use crate::text::Text;
use std::alloc::Global;

pub(crate) fn put_frame(id: u64, body: &[u8], most: u16, out: &mut Vec<u8>) -> Result<(), Unsent>
    ensures { Puts (framed most) (id, body.now) out.old.items out.new.items result }
{
    if body.len() > most as usize {
        return Err(Unsent::TooMuch);
    }
    let length = 8 + body.len() as u32;
    length.put(out)?;
    id.put(out)?;
    out.extend_from_slice(body)?;
    Ok(())
}

#[tactic(auto, unfolding(crate::specs::Codecs::frame_at))]
pub(crate) fn take_frame(
    heap: Global,
    most: u16,
    bytes: &[u8],
) -> Result<((u64, Text), &[u8]), Unread>
    ensures { Gives (λ x. (x.0, x.1.now)) result ((framed most).read bytes.now) }
{
    let (length, rest) = u32::take(heap, bytes)?;
    if length < 8 || length - 8 > u32::from(most) {
        return Err(Unread::Fault(Fault::Range));
    }
    let (id, rest) = u64::take(heap, rest)?;
    let (body, rest) = rest
        .split_at_checked((length - 8) as usize)
        .ok_or(Unread::Fault(Fault::Short))?;
    let text = Text::new(Vec::from_slice(heap, body)?);
    Ok(((id, text), rest))
}
