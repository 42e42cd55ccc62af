// Recovery: the complete records of both slots are done again, the older first, and then synced.
ghost use Rattle.std.specs.Prelude.{◌+◌, ◌*◌, ◌^◌, ◌<◌};
ghost use Rattle.device.specs.Does.{Act, Does};
ghost use Rattle.device.specs.Told.{told};
ghost use Rattle.journal.specs.Programs.{replay_from, redo_io, recover_io};

use crate::disk::{Disk, Failed, Fault};
use journal::Place;
use journal::part::{Foreign, Part, join_halves};
use journal::scan::Scan;
use journal::state::{InOrder, Journal};
use octets::BLANK_SECTOR;

// Does the first so many writes again of the record in the slot that begins there.
#[tactic(auto, using(crate::proofs::Steps::does, crate::proofs::Turns::replaying))]
fn replay<D: Disk>(disk: &mut D, at: u64, count: u64) -> Result<(), Fault>
    requires { at + 2 * count < 2 ^ 64 }
    ensures { Does D.did (replay_from at 0 count) disk.old result disk.new }
{
    let mut first = BLANK_SECTOR;
    let mut second = BLANK_SECTOR;
    let mut whole = BLANK_SECTOR;
    for i in 0..count {
        disk.read(Place(at + 2 * i), &mut first)?;
        disk.read(Place(at + (2 * i + 1)), &mut second)?;
        join_halves(&first, &second, &mut whole);
        disk.write(Part::read(&first).target, &whole)?;
    }
    Ok(())
}

// Does both records again, the older one first.
#[tactic(auto, using(crate::proofs::Steps::does), unfolding(journal::specs::Programs::redo_io))]
fn redo<D: Disk>(disk: &mut D, found: InOrder) -> Result<(), Fault>
    ensures { Does D.did (redo_io found.older found.a found.b) disk.old result disk.new }
{
    replay(disk, found.older.first_sector(), found.a.redo_count())?;
    replay(
        disk,
        found.older.opposite().first_sector(),
        found.b.redo_count(),
    )?;
    disk.sync()
}

// Brings the sectors up to what was put, a and b being what the two slots were found to hold.
pub(crate) fn recover<D: Disk>(
    disk: &mut D,
    size: u64,
    a: Result<Scan, Foreign>,
    b: Result<Scan, Foreign>,
) -> Result<Journal, Failed<Foreign>>
    ensures { Does D.did (recover_io size a b) disk.old (told result) disk.new }
{
    // A pattern for both, since `Failed<E>` can't be made from any `E` beside `Fault`, and `map_err` for each would be no shorter.
    let (Ok(a), Ok(b)) = (a, b) else {
        return Err(Failed::Refused(Foreign));
    };
    let found = InOrder::of(a, b);
    redo(disk, found)?;
    Ok(Journal::ready(size, found))
}
