// Putting a transaction: its record into a slot of the journal, a sync, then its sectors in place.
ghost use Rattle.std.specs.Prelude.{◌≡◌, ◌+◌, ◌*◌, ◌^◌, ◌<◌, ◌≤◌, true, length, is_err};
ghost use Rattle.device.specs.Does.{Act, Does, write_io};
ghost use Rattle.journal.specs.Format.{most_writes, part_bytes};
ghost use Rattle.device.specs.Told.{told, leaving};
ghost use Rattle.journal.specs.Programs.{write_all_io, record_of, transact_io, put_io};

use crate::disk::{Disk, Failed, Fault};
use journal::part::{HALF_BYTES, Part};
use journal::state::{Journal, Refused, Write, is_allowed};
use journal::{NUMBERS_END, Place};
use octets::BLANK_SECTOR;

// Writes one part of the record that begins at this sector, with this half of its target's bytes. The disk and the sector stay two
// parameters, here, in `write_record` and in `replay`, each with a bound of its own on what is counted from there: a struct would lend the
// disk with a sector that only the call knows.
fn write_part<D: Disk>(
    disk: &mut D,
    at: u64,
    part: Part,
    half: &[u8; HALF_BYTES],
) -> Result<(), Fault>
    requires { at + part.index < 2 ^ 64 }
    ensures { Does D.did (write_io (at + part.index) (part_bytes part half.now)) disk.old result disk.new }
{
    let mut sector = BLANK_SECTOR;
    part.fill(half, &mut sector);
    disk.write(Place(at + part.index), &sector)
}

// Writes a record of these writes into the slot that begins there, two sectors for each write.
#[tactic(auto, using(crate::proofs::Steps::does, crate::proofs::Turns::writing))]
fn write_record<D: Disk>(disk: &mut D, at: u64, number: u64, writes: &[Write]) -> Result<(), Fault>
    requires { at + 2 * length writes.now < 2 ^ 64 }
    ensures { Does D.did (write_all_io (record_of at number writes.now)) disk.old result disk.new }
{
    // `u64` has no `From<usize>`.
    let length = 2 * writes.len() as u64;
    // tried as `(0u64..).zip(writes)`: a loop over it knows no index, and `overflow_mul-part` stayed open.
    for (i, write) in writes.iter().enumerate() {
        let (first, second) = write.halves();
        let part = Part {
            number,
            index: 2 * i as u64,
            length,
            target: write.target,
        };
        write_part(disk, at, part, first)?;
        let behind = Part {
            index: part.index + 1,
            ..part
        };
        write_part(disk, at, behind, second)?;
    }
    Ok(())
}

// Writes the sectors of a transaction to where they belong.
#[tactic(auto, using(crate::proofs::Steps::does, crate::proofs::Turns::writing))]
fn write_in_place<D: Disk>(disk: &mut D, writes: &[Write]) -> Result<(), Fault>
    ensures { Does D.did (write_all_io writes.now) disk.old result disk.new }
{
    for write in writes {
        disk.write(write.target, &write.bytes)?;
    }
    Ok(())
}

// The record, then the sync: from there on the record is whole, and opening does it again. Only then the sectors themselves.
#[tactic(auto, using(crate::proofs::Steps::does), unfolding(journal::specs::Programs::transact_io))]
fn transact<D: Disk>(journal: &Journal, disk: &mut D, writes: &[Write]) -> Result<(), Fault>
    requires { length writes.now ≤ most_writes }
    ensures { Does D.did (transact_io journal.now writes.now) disk.old result disk.new }
{
    write_record(disk, journal.slot.first_sector(), journal.next, writes)?;
    disk.sync()?;
    write_in_place(disk, writes)
}

// Writes these sectors together: whenever the power fails, opening finds all of them written or none.
// Here and in `get` the disk is lent, and no struct keeps it with the journal: its owner uses it between calls, and opens it again after a
// fault. Nor do the disk and the writes make a struct, as each of the functions above asks the disk for something else, and `transact` would
// take it apart for both.
#[tactic(auto, using(crate::proofs::Steps::does, crate::proofs::Tells::tells), unfolding(journal::specs::Programs::put_io))]
pub fn put<D: Disk>(
    journal: &mut Journal,
    disk: &mut D,
    writes: &[Write],
) -> Result<(), Failed<Refused>>
    ensures done { Does D.did (put_io journal.old writes.now) disk.old (leaving (told result) journal.new) disk.new }
    ensures kept { is_err result ≡ true → journal.new ≡ journal.old }
{
    if !is_allowed(journal.size, writes) {
        return Err(Failed::Refused(Refused::OutOfRange));
    }
    if journal.next >= NUMBERS_END {
        return Err(Failed::Refused(Refused::NumbersUsedUp));
    }
    transact(journal, disk, writes)?;
    *journal = journal.after_put();
    Ok(())
}
