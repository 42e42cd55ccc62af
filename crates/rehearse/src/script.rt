// A script's lines, in words.
ghost use Rattle.std.specs.Prelude.{◌≡◌, IfOk, IfSome, Some};
ghost use Rattle.rehearse.specs.Scripts.{InRange, error_text};
ghost use Rattle.rehearse.specs.declared.script.ScriptError.TheVariants.{Memory};

use lines::decimal::decimal;
use lines::hex;
use octets::SECTOR_BYTES;
use octets::writer::{Number, message};
use std::alloc::{AllocError, Global};
use std::fmt;
use std::str::SplitWhitespace;
use wire::kind::Kind;

// How many houses a rehearsal may have, and how many sectors each device.
pub const LEAST_HOUSES: u64 = 3;

pub const MOST_HOUSES: u64 = 16;

pub const LEAST_SECTORS: u64 = 65_536;

pub const MOST_SECTORS: u64 = 1_099_511_627_776;

// What a line tells to do.
#[derive(Drop)]
pub enum Step {
    // so many houses, each with a device of so many sectors
    Houses(u64, u64),
    // a call at a house, as bytes
    At(u64, Vec<u8>),
    // what happens to packets, clocks and power: not played yet
    Network,
}

// Why a line tells no step. `LineError` would be no plainer: what a rehearsal prints of its lines would stand in the crate of a house's
// lines, which prints nothing.
#[derive(Clone, Copy)]
pub enum ScriptError {
    Unknown,
    Memory,
}

impl fmt::Display for ScriptError {
    ghost output = { λ e. Some (error_text e) };

    fn fmt<W: fmt::Write>(&self, f: &mut fmt::Formatter<W>) -> fmt::Result {
        f.write_str(match self {
            ScriptError::Unknown => "not understood",
            ScriptError::Memory => "no memory",
        })
    }
}

impl From<AllocError> for ScriptError {
    ghost from_gives = { λ _ r. r ≡ Memory };

    fn from(_e: AllocError) -> ScriptError {
        Self::Memory
    }
}

// The step that a line tells, if it has any word.
pub fn parse(heap: Global, line: &str) -> Result<Option<Step>, ScriptError>
    ensures { IfOk result (λ step. IfSome step InRange) }
{
    let mut words = Words {
        heap,
        left: line.split_whitespace(),
    };
    let Some(first) = words.left.next() else {
        return Ok(None);
    };
    let step = match first {
        "houses" => words.houses()?,
        "at" => Step::At(words.number()?, words.call()?),
        "pass" | "lose" | "twice" | "tick" | "cut" | "up" | "seed" => return Ok(Some(
            Step::Network,
        )),
        _ => return Err(ScriptError::Unknown),
    };
    if words.left.next().is_some() {
        return Err(ScriptError::Unknown);
    }
    Ok(Some(step))
}

// What is left of a line.
#[derive(Drop)]
struct Words<'a> {
    heap: Global,
    left: SplitWhitespace<'a>,
}

impl<'a> Words<'a> {
    fn next(&mut self) -> Result<&'a str, ScriptError> {
        self.left.next().ok_or(ScriptError::Unknown)
    }

    // The next word as a number.
    fn number(&mut self) -> Result<u64, ScriptError> {
        decimal(self.next()?.as_bytes()).ok_or(ScriptError::Unknown)
    }

    fn houses(&mut self) -> Result<Step, ScriptError>
        ensures { IfOk result InRange }
    {
        match (self.number()?, self.number()?) {
            (houses @ LEAST_HOUSES..=MOST_HOUSES, sectors @ LEAST_SECTORS..=MOST_SECTORS) => Ok(
                Step::Houses(houses, sectors),
            ),
            _ => Err(ScriptError::Unknown),
        }
    }

    // The call that the next words tell, as bytes.
    fn call(&mut self) -> Result<Vec<u8>, ScriptError> {
        match self.next()? {
            "make" => self.of_numbers(Kind::Make, 1),
            "attach" => self.of_numbers(Kind::Attach, 1),
            "read" => self.of_numbers(Kind::Read, 3),
            "write" => {
                let mut bytes = self.of_numbers(Kind::Write, 3)?;
                bytes.extend_from_slice(self.content()?.as_slice())?;
                Ok(bytes)
            }
            "sync" => self.of_numbers(Kind::Sync, 2),
            "picture" => self.of_numbers(Kind::Picture, 2),
            "copy" => self.of_numbers(Kind::Copy, 1),
            "drop" => self.of_numbers(Kind::Drop, 2),
            "drop-picture" => self.of_numbers(Kind::DropPicture, 1),
            _ => Err(ScriptError::Unknown),
        }
    }

    // A call's kind and so many numbers.
    fn of_numbers(&mut self, kind: Kind, count: u8) -> Result<Vec<u8>, ScriptError> {
        let mut bytes = message(self.heap, u8::from(kind), &[])?;
        for _ in 0..count {
            self.number()?.put(&mut bytes)?;
        }
        Ok(bytes)
    }

    // A sector of one byte, in two digits, or a whole one.
    fn content(&mut self) -> Result<Vec<u8>, ScriptError> {
        let digits = self.next()?.as_bytes();
        let bytes = hex::decode(self.heap, digits)?.ok_or(ScriptError::Unknown)?;
        match bytes.as_slice() {
            [byte] => Ok(Vec::from_elem(self.heap, *byte, SECTOR_BYTES)?),
            whole if whole.len() == SECTOR_BYTES => Ok(bytes),
            _ => Err(ScriptError::Unknown),
        }
    }
}
