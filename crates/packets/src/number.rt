// Numbers of a fixed width.
ghost use Rattle.std.specs.Prelude.{◌≡◌, ℕ};
ghost use Rattle.packets.specs.Codecs.{Gives, Puts, number, number_at};

use crate::bytes::Bytes;
use crate::fault::*;
use octets::reader;
use octets::writer::Number;
use std::alloc::Global;

impl Bytes for u8 {
    ghost View = { ℕ };

    ghost view = { λ n. n };

    ghost codec = { number 1 };

    fn put(&self, out: &mut Vec<u8>) -> Result<(), Unsent> {
        out.push(*self)?;
        Ok(())
    }

    fn take(_heap: Global, bytes: &[u8]) -> Result<(u8, &[u8]), Unread> {
        let (first, rest) = bytes.split_first().ok_or(Unread::Fault(Fault::Short))?;
        Ok((*first, rest))
    }
}

impl Bytes for u16 {
    ghost View = { ℕ };

    ghost view = { λ n. n };

    ghost codec = { number 2 };

    fn put(&self, out: &mut Vec<u8>) -> Result<(), Unsent> {
        let two = self.to_be_bytes();
        out.extend_from_slice(&two)?;
        Ok(())
    }

    fn take(_heap: Global, bytes: &[u8]) -> Result<(u16, &[u8]), Unread> {
        let (first, rest) = bytes
            .split_first_chunk::<2>()
            .ok_or(Unread::Fault(Fault::Short))?;
        Ok((u16::from_be_bytes(*first), rest))
    }
}

impl Bytes for u32 {
    ghost View = { ℕ };

    ghost view = { λ n. n };

    ghost codec = { number 4 };

    fn put(&self, out: &mut Vec<u8>) -> Result<(), Unsent> {
        Number::put(*self, out)?;
        Ok(())
    }

    fn take(_heap: Global, bytes: &[u8]) -> Result<(u32, &[u8]), Unread> {
        let (first, rest) = bytes
            .split_first_chunk::<4>()
            .ok_or(Unread::Fault(Fault::Short))?;
        Ok((u32::from_be_bytes(*first), rest))
    }
}

impl Bytes for u64 {
    ghost View = { ℕ };

    ghost view = { λ n. n };

    ghost codec = { number 8 };

    fn put(&self, out: &mut Vec<u8>) -> Result<(), Unsent> {
        Number::put(*self, out)?;
        Ok(())
    }

    fn take(_heap: Global, bytes: &[u8]) -> Result<(u64, &[u8]), Unread> {
        reader::number(bytes).ok_or(Unread::Fault(Fault::Short))
    }
}

// How many values the lower half of 16 bytes has.
const HALF: u128 = 1 << 64;

impl Bytes for u128 {
    ghost View = { ℕ };

    ghost view = { λ n. n };

    ghost codec = { number 16 };

    #[tactic(auto, using(crate::proofs::NumberBytes::sixteen_put))]
    fn put(&self, out: &mut Vec<u8>) -> Result<(), Unsent> {
        let high = (*self / HALF) as u64;
        let low = (*self % HALF) as u64;
        high.put(out)?;
        low.put(out)?;
        Ok(())
    }

    #[tactic(auto, using(crate::proofs::NumberBytes::sixteen_at))]
    fn take(heap: Global, bytes: &[u8]) -> Result<(u128, &[u8]), Unread> {
        let (high, rest) = u64::take(heap, bytes)?;
        let (low, rest) = u64::take(heap, rest)?;
        Ok((u128::from(high) * HALF + u128::from(low), rest))
    }
}
