// What is known of a slot while its sectors are read, first to last.
ghost use Rattle.std.specs.Prelude.{◌≡◌};
ghost use Rattle.journal.specs.Scans.{scan_start, scan_part, scan_next, redo_number, redo_count};

use crate::SLOT_SECTORS;
use crate::part::{Foreign, Part};
use octets::SECTOR_BYTES;

// Which record a part is of.
#[derive(Clone, Copy, PartialEq, Eq)]
pub struct Record {
    pub number: u64,
    pub length: u64,
}

// whole: the record that the slot begins with, while all its sectors so far are its own; highest: the highest number of any sector.
#[derive(Clone, Copy)]
pub struct Scan {
    pub whole: Option<Record>,
    pub highest: u64,
}

impl Scan {
    // Before the first sector is read.
    pub fn start() -> Scan
        ensures { result ≡ scan_start }
    {
        Scan {
            whole: None,
            highest: 0,
        }
    }

    // With one sector more, which stands at this index of the slot.
    #[tactic(auto, unfolding(crate::specs::Scans::scan_found, crate::specs::Scans::scan_blank))]
    pub fn next(self, size: u64, index: u64, sector: &[u8; SECTOR_BYTES]) -> Result<Scan, Foreign>
        ensures { result ≡ scan_next size index sector.now self }
    {
        match Part::found(size, index, sector)? {
            None => Ok(Scan {
                whole: self.whole.filter(|r| r.length <= index),
                ..self
            }),
            Some(part) => Ok(self.with_part(index, part)),
        }
    }

    // The first part says which record it is; those after it, up to its length, must say the same.
    #[tactic(auto, unfolding(crate::specs::Scans::scan_part))]
    fn with_part(self, index: u64, part: Part) -> Scan
        ensures { result ≡ scan_part index part self }
    {
        let said = Record {
            number: part.number,
            length: part.length,
        };
        if index == 0 {
            return Scan {
                whole: Some(said),
                highest: part.number,
            };
        }
        Scan {
            whole: self.whole.filter(|r| r.length <= index || *r == said),
            highest: self.highest.max(part.number),
        }
    }

    // The number of the record that is to be done again, if there is one.
    pub fn redo_number(self) -> Option<u64>
        ensures { result ≡ redo_number self }
    {
        self.whole.map(|r| r.number)
    }

    // How many writes the record has that is to be done again.
    pub fn redo_count(self) -> u64
        ensures { result ≡ redo_count self }
    {
        match self.whole {
            Some(r) if r.length <= SLOT_SECTORS => r.length / 2,
            _ => 0,
        }
    }
}
