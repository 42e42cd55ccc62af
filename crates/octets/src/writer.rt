// A message as bytes: its first byte, then numbers of 8 bytes each.
ghost use Rattle.std.specs.Prelude.{ℕ, ◌+◌, ◌*◌, ◌<◌, ◌≤◌, length, take, vec_len, ◌≡◌, ◌∷◌, ◌++◌, is_ok, IfOk, MatchOption, if◌then◌else◌};
ghost use Rattle.octets.specs.Numbers.{bytes_of, numbers_bytes};

use std::alloc::{AllocError, Global};

// A number of a fixed width.
pub trait Number {
    // how many bytes it has
    ghost width: { ℕ };

    ghost value: { Self → ℕ };

    // Puts the number's bytes behind what `out` holds.
    fn put(self, out: &mut Vec<u8>) -> Result<(), AllocError>
        ensures { out.new.items ≡ (if is_ok result then out.old.items ++ bytes_of width (value self) else out.old.items) };
}

// Two impls of one shape, since no macro may write an impl.
impl Number for u64 {
    ghost width = { 8 };

    ghost value = { λ n. n };

    fn put(self, out: &mut Vec<u8>) -> Result<(), AllocError> {
        let eight = self.to_be_bytes();
        out.extend_from_slice(&eight)
    }
}

impl Number for u32 {
    ghost width = { 4 };

    ghost value = { λ n. n };

    fn put(self, out: &mut Vec<u8>) -> Result<(), AllocError> {
        let four = self.to_be_bytes();
        out.extend_from_slice(&four)
    }
}

// A message of a first byte and numbers.
pub fn message(heap: Global, first: u8, numbers: &[u64]) -> Result<Vec<u8>, AllocError>
    ensures bytes { IfOk result (λ v. v.items ≡ first ∷ numbers_bytes numbers.now) }
    ensures len { IfOk result (λ v. vec_len v ≡ 1 + 8 * length numbers.now) }
{
    let mut out = Vec::new(heap);
    out.push(first)?;
    for n in numbers {
        n.put(&mut out)?;
    }
    Ok(out)
}

// Copies a message to the front of `out`, and says how many bytes; 0 for none, or where it does not fit. It is for functions that C calls, which hand out a number and no `Option`.
pub fn hand_out(message: Option<Vec<u8>>, out: &mut [u8]) -> usize
    ensures bytes { MatchOption message (result ≡ 0) (λ v. 0 < result → take result out.new ≡ v.items) }
    ensures within { result ≤ length out.new }
{
    let Some(bytes) = message else {
        return 0;
    };
    let n = bytes.len();
    if n > out.len() {
        return 0;
    }
    out[0..n].copy_from_slice(&bytes);
    n
}

#[cfg(test)]
mod tests {
    use super::*;
    use std::test::Fail;

    #[test]
    fn put_writes_the_high_byte_first(rt: HostRuntime) -> Result<(), Fail> {
        let mut out = Vec::new(rt.alloc());
        0x0102_0304_u32.put(&mut out)?;
        0x0506_0708_090a_0b0c_u64.put(&mut out)?;
        assert_eq!(rt;
            out.as_slice(),
            [1, 2, 3, 4, 5, 6, 7, 8, 9, 10, 11, 12].as_slice()
        );
        Ok(())
    }

    #[test]
    fn a_message_is_its_first_byte_and_its_numbers(rt: HostRuntime) -> Result<(), Fail> {
        let out = message(rt.alloc(), 7, &[1, 258])?;
        assert_eq!(rt;
            out.as_slice(),
            [7, 0, 0, 0, 0, 0, 0, 0, 1, 0, 0, 0, 0, 0, 0, 1, 2].as_slice()
        );
        Ok(())
    }
}
