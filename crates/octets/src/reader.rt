// Numbers and sectors off the front of a byte string.
ghost use Rattle.std.specs.Prelude.{◌≡◌, ◌*◌, ◌<◌, length, take, MatchOption, ◌≢◌};
ghost use Rattle.octets.specs.Numbers.{big, fields, Behind};

use crate::SECTOR_BYTES;

// The number in the first 8 bytes, and what follows them.
pub fn number(bytes: &[u8]) -> Option<(u64, &[u8])>
    ensures { MatchOption result (length bytes.now < 8) (λ p. (p.0 ≡ big (take 8 bytes.now)) × Behind 8 bytes.now p.1.now) }
{
    let (first, rest) = bytes.split_first_chunk::<8>()?;
    Some((u64::from_be_bytes(*first), rest))
}

// Fills `out` with numbers from the front, and says what follows them.
fn fill<'a>(out: &mut [u64], bytes: &'a [u8]) -> Option<&'a [u8]>
    ensures { MatchOption result (length bytes.now < 8 * length out.old) (λ rest. (out.new ≡ fields (length out.old) bytes.now) × Behind (8 * length out.old) bytes.now rest.now) }
{
    let mut rest = bytes;
    for slot in out.iter_mut() {
        let (n, after) = number(rest)?;
        *slot = n;
        rest = after;
    }
    Some(rest)
}

// The `N` numbers that these bytes begin with, and what follows them.
pub fn numbers<const N: usize>(bytes: &[u8]) -> Option<([u64; N], &[u8])>
    ensures { MatchOption result (length bytes.now < 8 * N) (λ p. (p.0 ≡ fields N bytes.now) × Behind (8 * N) bytes.now p.1.now) }
{
    let mut out = [0; N];
    let rest = fill(&mut out, bytes)?;
    Some((out, rest))
}

// The `N` numbers that these bytes are.
pub fn exactly<const N: usize>(bytes: &[u8]) -> Option<[u64; N]>
    ensures { MatchOption result (length bytes.now ≢ 8 * N) (λ ns. (length bytes.now ≡ 8 * N) × (ns ≡ fields N bytes.now)) }
{
    let mut out = [0; N];
    let rest = fill(&mut out, bytes)?;
    if !rest.is_empty() {
        return None;
    }
    Some(out)
}

// The sector that these bytes are.
pub fn sector(bytes: &[u8]) -> Option<&[u8; SECTOR_BYTES]>
    ensures { MatchOption result (length bytes.now ≢ 512) (λ s. (length bytes.now ≡ 512) × (s.now ≡ bytes.now)) }
{
    bytes.as_array()
}
