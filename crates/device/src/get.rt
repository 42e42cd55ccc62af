// Getting one sector: one read.
ghost use Rattle.device.specs.Does.{Act, Does};
ghost use Rattle.device.specs.Told.{told};
ghost use Rattle.journal.specs.Programs.{get_io};

use crate::disk::{Disk, Failed};
use journal::Place;
use journal::state::{Journal, Refused, is_guarded};
use octets::{BLANK_SECTOR, SECTOR_BYTES};

// The sector as it was last put.
#[tactic(auto, using(crate::proofs::Steps::does, crate::proofs::Tells::tells), unfolding(journal::specs::Programs::get_io))]
pub fn get<D: Disk>(
    journal: &Journal,
    disk: &mut D,
    at: Place,
) -> Result<[u8; SECTOR_BYTES], Failed<Refused>>
    ensures { Does D.did (get_io journal.now at) disk.old (told result) disk.new }
{
    if !is_guarded(journal.size, at) {
        return Err(Failed::Refused(Refused::OutOfRange));
    }
    let mut sector = BLANK_SECTOR;
    disk.read(at, &mut sector)?;
    Ok(sector)
}
