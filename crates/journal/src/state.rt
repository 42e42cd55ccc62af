// What the journal keeps in memory, what it is asked to write, and why it refuses.
ghost use Rattle.std.specs.Prelude.{◌≡◌, ◌<◌, take, drop};
ghost use Rattle.journal.specs.Format.{numbers_end};
ghost use Rattle.journal.specs.Programs.{base, other, in_order, ready, after_put, in_area, all_in_area, named, apart, allowed, refusal};

use crate::part::HALF_BYTES;
use crate::scan::Scan;
use crate::{GUARDED, MOST_WRITES, NUMBERS_END, Place, SLOT_SECTORS};
use octets::SECTOR_BYTES;

// One sector of a transaction.
#[derive(Clone, Copy)]
pub struct Write {
    pub target: Place,
    pub bytes: [u8; SECTOR_BYTES],
}

// The two places of a record, used in turn.
#[derive(Clone, Copy)]
pub enum Slot {
    First,
    Second,
}

// What the two slots were found to hold, in the order in which it is done again: older is the slot of a.
#[derive(Clone, Copy)]
pub struct InOrder {
    pub older: Slot,
    pub a: Scan,
    pub b: Scan,
}

// size: the device's sectors; next: the number of the next record; slot: where it goes.
#[derive(Clone, Copy)]
pub struct Journal {
    pub size: u64,
    pub next: u64,
    pub slot: Slot,
}

// Why the journal refuses, with the number that stands for it in an answer.
#[derive(Clone, Copy, Debug, PartialEq, Eq)]
pub enum Refused {
    // no writes or too many, a sector outside the guarded area, or one twice
    OutOfRange = 1,
    // the numbers of records are used up
    NumbersUsedUp = 8,
}

impl From<Refused> for u8 {
    ghost from_gives = { λ e n. n ≡ refusal e };

    fn from(e: Refused) -> u8 {
        e as u8
    }
}

impl Write {
    // Both halves of its bytes.
    pub fn halves(&self) -> (&[u8; HALF_BYTES], &[u8; HALF_BYTES])
        ensures first { result.0.now ≡ take 256 self.now.bytes }
        ensures second { result.1.now ≡ drop 256 self.now.bytes }
    {
        let first = self.bytes.first_chunk::<HALF_BYTES>().unwrap();
        let second = self.bytes.last_chunk::<HALF_BYTES>().unwrap();
        (first, second)
    }
}

impl Slot {
    // Where the slot begins.
    pub fn first_sector(self) -> u64
        ensures { result ≡ base self }
    {
        match self {
            Slot::First => 0,
            Slot::Second => SLOT_SECTORS,
        }
    }

    // The slot that is used next.
    pub fn opposite(self) -> Slot
        ensures { result ≡ other self }
    {
        match self {
            Slot::First => Slot::Second,
            Slot::Second => Slot::First,
        }
    }
}

impl InOrder {
    // The lower number is the older record's; a slot without a record comes before one with a record.
    // tried as `second.redo_number() < first.redo_number()`: `returns-then-lt` stayed open, since `in_order` takes the number 0, which no
    // sound part has but a `Scan` can hold, for no record, and the order of `Option` doesn't.
    pub fn of(first: Scan, second: Scan) -> InOrder
        ensures { result ≡ in_order first second }
    {
        if second.redo_number().unwrap_or(0) < first.redo_number().unwrap_or(0) {
            InOrder {
                older: Slot::Second,
                a: second,
                b: first,
            }
        } else {
            InOrder {
                older: Slot::First,
                a: first,
                b: second,
            }
        }
    }
}

impl Journal {
    // As it is opened: the next number is above all that the two slots hold.
    pub fn ready(size: u64, found: InOrder) -> Journal
        ensures { result ≡ ready size found.older found.a found.b }
    {
        let highest = found.a.highest.max(found.b.highest);
        Journal {
            size,
            next: highest.saturating_add(1).min(NUMBERS_END),
            slot: found.older,
        }
    }

    // As it is with one record more.
    pub fn after_put(self) -> Journal
        requires { self.next < numbers_end }
        ensures { result ≡ after_put self }
    {
        Journal {
            next: self.next + 1,
            slot: self.slot.opposite(),
            ..self
        }
    }
}

// Whether the journal guards this sector, on a device of so many sectors.
pub fn is_guarded(size: u64, at: Place) -> bool
    ensures { result ≡ in_area size at.0 }
{
    (GUARDED..size).contains(&at.0)
}

// Whether these writes can be one transaction.
pub fn is_allowed(size: u64, writes: &[Write]) -> bool
    ensures { result ≡ allowed size writes.now }
{
    (1..=MOST_WRITES).contains(&writes.len()) && are_guarded(size, writes) && are_apart(writes)
}

// Whether the journal guards each sector that is written.
fn are_guarded(size: u64, writes: &[Write]) -> bool
    ensures { result ≡ all_in_area size writes.now }
{
    writes.iter().all(|write| is_guarded(size, write.target))
}

// Whether no sector is written twice.
fn are_apart(writes: &[Write]) -> bool
    ensures { result ≡ apart writes.now }
{
    writes
        .iter()
        .enumerate()
        .all(|(i, write)| !is_written(write.target, &writes[i + 1..]))
}

// Whether one of these writes is to this sector.
fn is_written(at: Place, writes: &[Write]) -> bool
    ensures { result ≡ named at.0 writes.now }
{
    writes.iter().any(|write| write.target == at)
}
