// A line that drives a house: `ask N HEX`, `from J HEX` or `tick`.
ghost use Rattle.std.specs.Prelude.{◌≡◌, Some, None, MatchResult};
ghost use Rattle.std.specs.Option.{option_map};
ghost use Rattle.std.specs.Str.{bytes_eq};
ghost use Rattle.lines.specs.Lines.{cut_at, the_parts, argued, line_of, the_line};
ghost use Rattle.lines.specs.declared.line.LineError.TheVariants.{Malformed, Memory};

use crate::decimal::decimal;
use crate::hex;
use std::alloc::{AllocError, Global};
use wire::number::*;

// What a house is told.
#[derive(Drop)]
pub enum Line {
    // a customer's call, as bytes
    Ask(Customer, Vec<u8>),
    // a packet from another house
    From(House, Vec<u8>),
    Tick,
}

// Why a line is not taken. An enum of its own: an error with a type parameter for the other cause would want a unit struct for it, and two
// names in each match in place of one.
#[derive(Clone, Copy, PartialEq, Eq)]
pub enum LineError {
    Malformed,
    Memory,
}

impl From<AllocError> for LineError {
    ghost from_gives = { λ _ r. r ≡ Memory };

    fn from(_e: AllocError) -> LineError {
        LineError::Memory
    }
}

// What stands before the first space, and what behind it.
fn cut(text: &[u8]) -> Option<(&[u8], &[u8])>
    ensures { option_map the_parts result ≡ cut_at text.now }
{
    let i = text.iter().position(|&b| b == b' ')?;
    Some((&text[..i], &text[i + 1..]))
}

// The line that this text is, at a house among so many.
pub fn parse(heap: Global, text: &[u8], houses: u8) -> Result<Line, LineError>
    ensures { MatchResult result (λ l. line_of houses text.now ≡ Some (the_line l)) (λ e. e ≡ Malformed → line_of houses text.now ≡ None) }
{
    if text == b"tick".as_slice() {
        return Ok(Line::Tick);
    }
    let (word, rest) = cut(text).ok_or(LineError::Malformed)?;
    command(heap, word, rest, houses)
}

// The line of this first word and the rest.
fn command(heap: Global, word: &[u8], rest: &[u8], houses: u8) -> Result<Line, LineError>
    ensures { MatchResult result (λ l. argued houses word.now (cut_at rest.now) ≡ Some (the_line l)) (λ e. e ≡ Malformed → argued houses word.now (cut_at rest.now) ≡ None) }
{
    let (digits, text) = cut(rest).ok_or(LineError::Malformed)?;
    let n = decimal(digits).ok_or(LineError::Malformed)?;
    let bytes = hex::decode(heap, text)?.ok_or(LineError::Malformed)?;
    match (word, u8::try_from(n)) {
        (b"ask", _) => Ok(Line::Ask(Customer(n), bytes)),
        (b"from", Ok(house)) if house < houses => Ok(Line::From(House(house), bytes)),
        _ => Err(LineError::Malformed),
    }
}
