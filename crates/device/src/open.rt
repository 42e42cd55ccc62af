// Opening: both slots of the journal are read, and what they hold is done again.
ghost use Rattle.device.specs.Does.{Act, Does};
ghost use Rattle.device.specs.Told.{told};
ghost use Rattle.journal.specs.Programs.{scan_io, slots_io, open_io};

use crate::disk::{Disk, Failed, Fault};
use crate::recover::recover;
use journal::part::Foreign;
use journal::scan::Scan;
use journal::state::{Journal, Slot};
use journal::{GUARDED, Place, SLOT_SECTORS};
use octets::BLANK_SECTOR;

// Reads a slot, first sector to last.
// The disk and its size stay two parameters, here and in `recover`: the disk is lent and the journal keeps the size, so that a struct of both
// would be made in `open` alone, and taken apart again for the journal.
#[tactic(auto, using(crate::proofs::Steps::does, crate::proofs::Turns::scanning))]
fn scan<D: Disk>(disk: &mut D, size: u64, slot: Slot) -> Result<Result<Scan, Foreign>, Fault>
    ensures { Does D.did (scan_io size slot) disk.old result disk.new }
{
    let at = slot.first_sector();
    let mut sector = BLANK_SECTOR;
    let mut found = Ok(Scan::start());
    for i in 0..SLOT_SECTORS {
        disk.read(Place(at + i), &mut sector)?;
        // By `and_then` a run of `cut_trial` took an eighth to a third longer.
        if let Ok(f) = found {
            found = f.next(size, i, &sector);
        }
    }
    Ok(found)
}

// Both slots are read, and what they hold is done again.
#[tactic(auto, using(crate::proofs::Steps::does, crate::proofs::Tells::tells))]
fn open_slots<D: Disk>(disk: &mut D, size: u64) -> Result<Journal, Failed<Foreign>>
    ensures { Does D.did (slots_io size) disk.old (told result) disk.new }
{
    let a = scan(disk, size, Slot::First)?;
    let b = scan(disk, size, Slot::Second)?;
    recover(disk, size, a, b)
}

// The journal of a disk with so many sectors, once everything that was put stands in its place.
#[tactic(auto, using(crate::proofs::Steps::does), unfolding(journal::specs::Programs::open_io))]
pub fn open<D: Disk>(disk: &mut D, size: u64) -> Result<Journal, Failed<Foreign>>
    ensures { Does D.did (open_io size) disk.old (told result) disk.new }
{
    if size < GUARDED {
        return Err(Failed::Refused(Foreign));
    }
    open_slots(disk, size)
}
