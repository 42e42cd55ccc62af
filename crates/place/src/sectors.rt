// What the sectors of volumes hold: those that were written take memory, the others are blank.
ghost use Rattle.std.specs.Prelude.{◌≡◌, ℕ, OnOk};
ghost use Rattle.disks.specs.Device.{zeros};
ghost use Rattle.volumes.specs.Service.{puts, forgets};
ghost use Rattle.volumes.specs.Simulation.{changed_by};
ghost use Rattle.place.specs.Places.{the_sectors, held_by};

use octets::{BLANK_SECTOR, SECTOR_BYTES};
use std::alloc::{AllocError, Global};
use std::collections::BTreeMap;
use wire::number::*;

// The sectors of one volume, by their numbers.
pub(crate) type Written = BTreeMap<u64, Box<[u8; SECTOR_BYTES]>>;

#[derive(Drop)]
pub(crate) struct Sectors {
    // by the volumes' numbers
    written: BTreeMap<u64, Written>,
}

impl Sectors {
    pub(crate) fn new(heap: Global) -> Sectors
        ensures { (v n : ℕ) → the_sectors result.written v n ≡ zeros 512 }
    {
        Sectors {
            written: BTreeMap::new(heap),
        }
    }

    #[tactic(auto, unfolding(disks::specs::Device::zeros))]
    pub(crate) fn read(&self, at: Address) -> [u8; SECTOR_BYTES]
        ensures { result ≡ the_sectors self.now.written at.volume.0 at.sector.0 }
    {
        match self.written.get(&at.volume.0) {
            Some(written) => read_of(written, at.sector),
            None => BLANK_SECTOR,
        }
    }

    // Where memory fails nothing is said of what is left.
    pub(crate) fn put(
        &mut self,
        heap: Global,
        at: Address,
        content: &[u8; SECTOR_BYTES],
    ) -> Result<(), AllocError>
        ensures { OnOk result ((v n : ℕ) → the_sectors self.new.written v n ≡ changed_by (puts at.volume.0 at.sector.0 content.now) (the_sectors self.old.written) v n) }
    {
        let content = Box::new(heap, *content)?;
        let written = self
            .written
            .entry(at.volume.0)?
            .or_insert_with(|| BTreeMap::new(heap));
        written.insert(at.sector.0, content)?;
        Ok(())
    }

    // The volume is gone, and all its sectors.
    pub(crate) fn forget(&mut self, volume: Volume)
        ensures { (v n : ℕ) → the_sectors self.new.written v n ≡ changed_by (forgets volume.0) (the_sectors self.old.written) v n }
    {
        self.written.remove(&volume.0);
    }
}

#[tactic(auto, unfolding(disks::specs::Device::zeros))]
fn read_of(written: &Written, sector: Sector) -> [u8; SECTOR_BYTES]
    ensures { result ≡ held_by written.now sector.0 }
{
    match written.get(&sector.0) {
        Some(content) => **content,
        None => BLANK_SECTOR,
    }
}
