// The sectors of a disk in memory: only those that were written take memory, the others are blank.
ghost use Rattle.std.specs.Prelude.{◌≡◌, ℕ, false, ◌&&◌, if◌then◌else◌, MatchResult, OnErr, nat_eq};
ghost use Rattle.std.specs.BTreeMap.{btree_map_len};
ghost use Rattle.disks.specs.Device.{zeros};
ghost use Rattle.memory_disk.specs.Contents.{kept_at, shown_at, present, SameKept, SameShown, Wrote, Alike, Settled, Lost};

use crate::chance::Chance;
use journal::Place;
use journal::state::Write;
use octets::{BLANK_SECTOR, SECTOR_BYTES};
use std::alloc::{AllocError, Global};
use std::collections::BTreeMap;
use std::collections::btree_map::Entry;

// kept: what the sector held at the last sync; shown: what it reads as.
#[derive(Drop)]
pub struct Sector {
    kept: [u8; SECTOR_BYTES],
    shown: [u8; SECTOR_BYTES],
}

#[derive(Drop)]
pub struct Sectors {
    heap: Global,
    written: BTreeMap<u64, Box<Sector>>,
}

impl Sectors {
    pub fn new(heap: Global) -> Sectors
        ensures kept { (n : ℕ) → kept_at result.written n ≡ zeros 512 }
        ensures shown { (n : ℕ) → shown_at result.written n ≡ zeros 512 }
        ensures count { btree_map_len result.written ≡ 0 }
    {
        Sectors {
            heap,
            written: BTreeMap::new(heap),
        }
    }

    // How many sectors take memory.
    pub fn count(&self) -> usize
        ensures { result ≡ btree_map_len self.now.written }
    {
        self.written.len()
    }

    #[tactic(auto, unfolding(disks::specs::Device::zeros))]
    pub fn read(&self, at: Place, buf: &mut [u8; SECTOR_BYTES])
        ensures { buf.new ≡ shown_at self.now.written at.0 }
    {
        match self.written.get(&at.0) {
            Some(sector) => *buf = sector.shown,
            None => *buf = BLANK_SECTOR,
        }
    }

    #[tactic(auto, unfolding(disks::specs::Device::zeros))]
    pub fn write(&mut self, at: Place, bytes: &[u8; SECTOR_BYTES]) -> Result<(), AllocError>
        ensures wrote { MatchResult result (λ _. Wrote at.0 bytes.now self.old.written self.new.written) (λ _. Alike self.old.written self.new.written) }
        ensures refused { OnErr result (present self.old.written at.0 ≡ false) }
    {
        match self.written.entry(at.0)? {
            Entry::Occupied(mut entry) => entry.get_mut().shown = *bytes,
            Entry::Vacant(entry) => {
                let sector = Box::new(
                    self.heap,
                    Sector {
                        kept: BLANK_SECTOR,
                        shown: *bytes,
                    },
                )?;
                entry.insert(sector);
            }
        }
        Ok(())
    }

    // What the sector shows stays.
    // This and the next two are an assignment each, and prove alone. Tried as one function over a closure: its proof didn't close, at what it
    // ensures where the sector is there.
    pub fn settle(&mut self, at: Place)
        ensures kept { (n : ℕ) → kept_at self.new.written n ≡ (if nat_eq n at.0 then shown_at self.old.written n else kept_at self.old.written n) }
        ensures shown { SameShown self.old.written self.new.written }
    {
        if let Some(sector) = self.written.get_mut(&at.0) {
            sector.kept = sector.shown;
        }
    }

    // The sector, if it is there, keeps these bytes.
    fn keep(&mut self, at: Place, bytes: &[u8; SECTOR_BYTES])
        ensures kept { (n : ℕ) → kept_at self.new.written n ≡ (if nat_eq n at.0 && present self.old.written at.0 then bytes.now else kept_at self.old.written n) }
        ensures shown { SameShown self.old.written self.new.written }
    {
        if let Some(sector) = self.written.get_mut(&at.0) {
            sector.kept = *bytes;
        }
    }

    // The sector shows what it keeps.
    fn revert(&mut self, at: Place)
        ensures kept { SameKept self.old.written self.new.written }
        ensures shown { (n : ℕ) → shown_at self.new.written n ≡ (if nat_eq n at.0 then kept_at self.old.written n else shown_at self.old.written n) }
    {
        if let Some(sector) = self.written.get_mut(&at.0) {
            sector.shown = sector.kept;
        }
    }

    // All that was written stays.
    pub fn settle_all(&mut self, log: &[Write])
        ensures { Settled log.now self.old.written self.new.written }
    {
        for w in log {
            self.settle(w.target);
        }
    }

    // The power fails: of each sector stays what was kept or anything that was written to it, by chance.
    pub fn cut_all(&mut self, log: &[Write], seed: u64)
        ensures { Lost log.now self.old.written self.new.written }
    {
        let mut chance = Chance::new(seed);
        for w in log {
            if chance.stays() {
                self.keep(w.target, &w.bytes);
            }
            self.revert(w.target);
        }
    }
}
