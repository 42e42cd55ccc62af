// Several of one kind: each behind the one before it, and with their count in front.
ghost use Rattle.std.specs.Prelude.{◌≡◌, map, length};
ghost use Rattle.packets.specs.Codecs.{Codec, Gives, Puts, many, listed};

use crate::bytes::Bytes;
use crate::fault::*;
use std::alloc::Global;

pub(crate) fn put_all<T: Bytes>(items: &[T], out: &mut Vec<u8>) -> Result<(), Unsent>
    ensures { Puts (many T.codec (length items.now)) (map T.view items.now) out.old.items out.new.items result }
{
    for item in items {
        item.put(out)?;
    }
    Ok(())
}

pub(crate) fn take_all<T: Bytes + Drop>(
    heap: Global,
    count: u16,
    bytes: &[u8],
) -> Result<(Vec<T>, &[u8]), Unread>
    ensures { Gives (λ x. (map T.view x.0.items, x.1.now)) result ((many T.codec count).read bytes.now) }
{
    let mut all = Vec::new(heap);
    let mut rest = bytes;
    for _ in 0..count {
        let (one, after) = T::take(heap, rest)?;
        all.push(one)?;
        rest = after;
    }
    Ok((all, rest))
}

// With a count of one byte.
pub(crate) fn put_few<T: Bytes>(items: &[T], most: u8, out: &mut Vec<u8>) -> Result<(), Unsent>
    ensures { Puts (listed 1 most T.codec) (map T.view items.now) out.old.items out.new.items result }
{
    if items.len() > most as usize {
        return Err(Unsent::TooMuch);
    }
    let count = items.len() as u8;
    count.put(out)?;
    put_all(items, out)
}

pub(crate) fn take_few<T: Bytes + Drop>(
    heap: Global,
    most: u8,
    bytes: &[u8],
) -> Result<(Vec<T>, &[u8]), Unread>
    ensures { Gives (λ x. (map T.view x.0.items, x.1.now)) result ((listed 1 most T.codec).read bytes.now) }
{
    let (count, rest) = u8::take(heap, bytes)?;
    if count > most {
        return Err(Unread::Fault(Fault::Range));
    }
    take_all(heap, u16::from(count), rest)
}

// With a count of two bytes.
pub(crate) fn put_many<T: Bytes>(items: &[T], most: u16, out: &mut Vec<u8>) -> Result<(), Unsent>
    ensures { Puts (listed 2 most T.codec) (map T.view items.now) out.old.items out.new.items result }
{
    if items.len() > most as usize {
        return Err(Unsent::TooMuch);
    }
    let count = items.len() as u16;
    count.put(out)?;
    put_all(items, out)
}

pub(crate) fn take_many<T: Bytes + Drop>(
    heap: Global,
    most: u16,
    bytes: &[u8],
) -> Result<(Vec<T>, &[u8]), Unread>
    ensures { Gives (λ x. (map T.view x.0.items, x.1.now)) result ((listed 2 most T.codec).read bytes.now) }
{
    let (count, rest) = u16::take(heap, bytes)?;
    if count > most {
        return Err(Unread::Fault(Fault::Range));
    }
    take_all(heap, count, rest)
}
