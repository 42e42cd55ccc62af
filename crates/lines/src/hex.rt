// Bytes in hexadecimal digits.
ghost use Rattle.std.specs.Prelude.{◌≡◌, ◌<◌, ◌≤◌, ◌*◌, length, IfOk, Some, vec_items};
ghost use Rattle.std.specs.Option.{option_map};
ghost use Rattle.lines.specs.Hexes.{digit_of, digit_for, byte_in, bytes_in, hex_of, HexRoundTrip};

use std::alloc::{AllocError, Global};
use std::{fmt, str};

// How many bytes are displayed at a time.
const RUN: usize = 32;

// What a digit stands for.
fn value(digit: u8) -> Option<u8>
    ensures { result ≡ digit_of digit }
{
    // A letter's lower four bits count from 1, and of digits only letters are 64 or more. By `to_digit` reading took up to half as long again.
    let n = digit % 16 + digit / 64 * 9;
    digit.is_ascii_hexdigit().then_some(n)
}

// The byte that two digits spell.
fn byte(high: u8, low: u8) -> Option<u8>
    ensures { result ≡ byte_in (digit_of high) (digit_of low) }
{
    Some(value(high)? * 16 + value(low)?)
}

// The bytes that these digits spell, if they spell any.
pub fn decode(heap: Global, text: &[u8]) -> Result<Option<Vec<u8>>, AllocError>
    ensures { IfOk result (λ o. option_map vec_items o ≡ bytes_in text.now) }
{
    let (pairs, odd) = text.as_chunks::<2>();
    if !odd.is_empty() {
        return Ok(None);
    }
    let mut out = Vec::new(heap);
    for [high, low] in pairs {
        let Some(b) = byte(*high, *low) else {
            return Ok(None);
        };
        out.push(b)?;
    }
    Ok(Some(out))
}

// The digits that spell these bytes, in lower case.
#[tactic(auto, using(crate::proofs::Steps::hex_round_trip))]
pub fn encode(heap: Global, bytes: &[u8]) -> Result<Vec<u8>, AllocError>
    ensures made { IfOk result (λ v. v.items ≡ hex_of bytes.now) }
    ensures back { HexRoundTrip }
{
    Ok(format!(in heap; "{}", Hex(bytes))?.into_bytes())
}

// The digit for a number below 16.
fn digit(n: u8) -> u8
    requires { n < 16 }
    ensures { result ≡ digit_for n }
{
    if n < 10 { b'0' + n } else { b'a' + (n - 10) }
}

// The digits that spell these bytes, written at the front of that room.
fn spell<'a>(bytes: &[u8], room: &'a mut [u8]) -> &'a str
    requires { 2 * length bytes.now ≤ length room.old }
    ensures { result.now ≡ hex_of bytes.now }
{
    for (i, b) in bytes.iter().enumerate() {
        room[2 * i] = digit(*b / 16);
        room[2 * i + 1] = digit(*b % 16);
    }
    str::from_utf8(&room[..2 * bytes.len()]).unwrap()
}

// Bytes that are displayed as their digits, in lower case.
#[derive(Clone, Copy)]
pub struct Hex<'a>(pub &'a [u8]);

impl fmt::Display for Hex<'_> {
    ghost output = { λ h. Some (hex_of h.0.now) };

    fn fmt<W: fmt::Write>(&self, f: &mut fmt::Formatter<W>) -> fmt::Result {
        // Run by run: digit by digit, by `write_char`, took fifteen times as many instructions.
        let mut digits = [0; 2 * RUN];
        for run in self.0.chunks(RUN) {
            f.write_str(spell(run, &mut digits))?;
        }
        Ok(())
    }
}

#[cfg(test)]
mod tests {
    use super::*;
    use std::test::Fail;

    #[test]
    fn bytes_are_spelled_in_lower_case(rt: HostRuntime) -> Result<(), Fail> {
        let out = encode(rt.alloc(), &[0, 255, 16])?;
        assert_eq!(rt; out.as_slice(), b"00ff10".as_slice());
        Ok(())
    }
}
