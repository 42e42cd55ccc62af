// Reading sectors of a disk, and giving up.
ghost use Rattle.std.specs.Prelude.{◌+◌, ◌<◌, ◌^◌, [], vec_items};
ghost use Rattle.device.specs.Does.{Act, Does, giving, over};
ghost use Rattle.houses.specs.Stops.{GivesUp};
ghost use Rattle.houses.specs.Gathers.{gather_io, gathers, places_from, the_places};

use crate::house::Stopped;
use device::disk::{Disk, Failed, Fault};
use journal::Place;
use octets::{BLANK_SECTOR, SECTOR_BYTES};
use std::alloc::Global;

// A sector more.
#[tactic(auto, using(device::proofs::Steps::does))]
fn read_one<D: Disk>(
    disk: &mut D,
    at: Place,
    all: &mut Vec<[u8; SECTOR_BYTES]>,
) -> Result<(), Fault>
    ensures { Does D.did (gather_io at.0 (vec_items all.old)) disk.old (giving result (vec_items all.new)) disk.new }
{
    let mut sector = BLANK_SECTOR;
    disk.read(at, &mut sector)?;
    match all.push(sector) {
        Ok(()) => Ok(()),
        Err(_) => Err(disk.give_up()),
    }
}

// So many sectors from one on.
#[tactic(auto, using(device::proofs::Steps::does, crate::proofs::Gathering::gathering))]
pub fn read_range<D: Disk>(
    disk: &mut D,
    heap: Global,
    first: u64,
    count: u64,
) -> Result<Vec<[u8; SECTOR_BYTES]>, Fault>
    requires { first + count < 2 ^ 64 }
    ensures { Does D.did (gathers (places_from first count) []) disk.old (over vec_items result) disk.new }
{
    let mut all = Vec::new(heap);
    for i in 0..count {
        read_one(disk, Place(first + i), &mut all)?;
    }
    Ok(all)
}

// The sectors at these places, in their order.
#[tactic(auto, using(device::proofs::Steps::does, crate::proofs::Gathering::gathering))]
pub fn read_all<D: Disk>(
    disk: &mut D,
    heap: Global,
    places: &[Place],
) -> Result<Vec<[u8; SECTOR_BYTES]>, Fault>
    ensures { Does D.did (gathers (the_places places.now) []) disk.old (over vec_items result) disk.new }
{
    let mut all = Vec::new(heap);
    for place in places {
        read_one(disk, *place, &mut all)?;
    }
    Ok(all)
}

// Want of memory counts as the power failing.
#[tactic(auto, unfolding(crate::specs::Stops::GivesUp))]
pub(crate) fn stops<D: Disk>(disk: &mut D, stopped: Stopped) -> Failed<Stopped>
    ensures { GivesUp D.did disk.old stopped result disk.new }
{
    match stopped {
        Stopped::NoMemory => Failed::Disk(disk.give_up()),
        other => Failed::Refused(other),
    }
}
