// One transaction, or none where nothing is to be stored.
ghost use Rattle.std.specs.Prelude.{◌≡◌};
ghost use Rattle.device.specs.Does.{Act, Does};
ghost use Rattle.device.specs.Told.{told, leaving};
ghost use Rattle.houses.specs.Stores.{store_io};
ghost use Rattle.houses.specs.Stops.{broken};

use crate::house::Stopped;
use device::disk::{Disk, Failed};
use device::put::put;
use journal::state::{Journal, Refused, Write};

#[tactic(auto, using(device::proofs::Steps::does, crate::proofs::Transacts::storing))]
pub(crate) fn stored<D: Disk>(
    journal: &mut Journal,
    disk: &mut D,
    writes: &[Write],
) -> Result<(), Failed<Refused>>
    ensures { Does D.did (store_io journal.old writes.now) disk.old (leaving (told result) journal.new) disk.new }
{
    if writes.is_empty() {
        return Ok(());
    }
    put(journal, disk, writes)
}

// A journal that refuses what a house stores has nothing left that the house could do.
pub(crate) fn broken(failed: Failed<Refused>) -> Failed<Stopped>
    ensures { result ≡ broken failed }
{
    match failed {
        Failed::Disk(fault) => Failed::Disk(fault),
        Failed::Refused(_) => Failed::Refused(Stopped::Broken),
    }
}
