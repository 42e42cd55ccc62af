// All of a value's bytes, and the value that all bytes are.
ghost use Rattle.std.specs.Prelude.{◌≡◌};
ghost use Rattle.packets.specs.Codecs.{Gives, Encodes, whole};

use crate::bytes::Bytes;
use crate::fault::*;
use std::alloc::Global;

pub fn encode<T: Bytes>(value: &T, heap: Global) -> Result<Vec<u8>, Unsent>
    ensures { Encodes T.codec (T.view value.now) result }
{
    let mut out = Vec::new(heap);
    value.put(&mut out)?;
    Ok(out)
}

pub fn decode<T: Bytes + Drop>(heap: Global, bytes: &[u8]) -> Result<T, Unread>
    ensures { Gives T.view result (whole T.codec bytes.now) }
{
    let (value, rest) = T::take(heap, bytes)?;
    if !rest.is_empty() {
        return Err(Unread::Fault(Fault::Left));
    }
    Ok(value)
}
