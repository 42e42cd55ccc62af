// The disk: sector n is the bytes from 512 n on. After a fault it answers no more, since a file may forget that a write or a sync failed.
ghost use Rattle.std.specs.Prelude.{◌≡◌, ◌*◌, true, false, ◌⊎◌, MatchResult, OnErr};
ghost use Rattle.device.specs.Does.{broke, Does, read_io, write_io, sync_io, giving};
ghost use Rattle.file_disk.specs.Files.{wrote_at};
ghost use Rattle.file_disk.specs.Disks.{disk_did, DiskHolds, Ended, Outside, Failed};
ghost use Rattle.file_disk.specs.Models.{disk_models};

use crate::places::Places;
use device::disk::{Disk, Fault};
use journal::Place;
use octets::SECTOR_BYTES;
use std::io;

// broken: a flag beside the file and no Option of it, since a file that failed still holds what it held, and contracts say so.
#[derive(Drop)]
pub struct FileDisk<F> {
    file: F,
    broken: bool,
}

impl<F> FileDisk<F> {
    pub fn new(file: F) -> FileDisk<F>
        ensures file { result.file ≡ file }
        ensures broken { result.broken ≡ false }
    {
        FileDisk {
            file,
            broken: false,
        }
    }
}

impl<F: Places> FileDisk<F> {
    // Where a sector begins, if the disk answers; else it answers no more.
    fn start(&mut self, at: Place) -> Result<u64, Fault>
        ensures { MatchResult result (λ p. (self.old.broken ≡ false) × (p ≡ at.0 * 512) × (self.new ≡ self.old)) (λ _. ((self.old.broken ≡ true) ⊎ Outside at.0) × (self.new.broken ≡ true) × (self.new.file ≡ self.old.file)) }
    {
        // `u64` has no `From<usize>`.
        match at.0.checked_mul(SECTOR_BYTES as u64) {
            Some(place) if !self.broken => Ok(place),
            _ => Err(self.give_up()),
        }
    }

    // What came of a request to the file; if it failed, the disk answers no more.
    fn answer(&mut self, done: io::Result<()>) -> Result<(), Fault>
        ensures { Ended done self.old result self.new }
    {
        // Tried with `map_err`: the proof doesn't close where the file answered, since nothing says that a closure that isn't called leaves the disk as it was.
        match done {
            Ok(()) => Ok(()),
            Err(_) => Err(self.give_up()),
        }
    }
}

impl<F: Places> Disk for FileDisk<F> {
    ghost did = { disk_did F.Places.made };

    ghost holds = { DiskHolds F.Places.holds };

    ghost models = { disk_models F.Places.made F.Places.holds F.Places.models };

    #[tactic(auto, using(device::proofs::Steps::disks, device::proofs::Steps::failed, device::proofs::Steps::giving_err))]
    fn read(&mut self, at: Place, buf: &mut [u8; SECTOR_BYTES]) -> Result<(), Fault>
        ensures does { Does (disk_did F.Places.made) (read_io at.0) self.old (giving result buf.new) self.new }
        ensures refused { OnErr result (Outside at.0 ⊎ Failed F.Places.made self.old self.new) }
    {
        let place = self.start(at)?;
        let done = self.file.read_at(place, buf);
        self.answer(done)
    }

    #[tactic(auto, using(device::proofs::Steps::disks, device::proofs::Steps::failed))]
    fn write(&mut self, at: Place, bytes: &[u8; SECTOR_BYTES]) -> Result<(), Fault>
        ensures does { Does (disk_did F.Places.made) (write_io at.0 bytes.now) self.old result self.new }
        ensures refused { OnErr result (Outside at.0 ⊎ (Failed F.Places.made self.old self.new ⊎ F.Places.made self.old.file (wrote_at (at.0 * 512) bytes.now) self.new.file)) }
    {
        let place = self.start(at)?;
        let done = self.file.write_at(place, bytes);
        self.answer(done)
    }

    #[tactic(auto, using(device::proofs::Steps::disks, device::proofs::Steps::failed, crate::proofs::Broken::flushes))]
    fn sync(&mut self) -> Result<(), Fault>
        ensures does { Does (disk_did F.Places.made) sync_io self.old result self.new }
        ensures refused { OnErr result (Failed F.Places.made self.old self.new) }
    {
        if self.broken {
            return Err(self.give_up());
        }
        let done = self.file.flush_all();
        self.answer(done)
    }

    // The disk answers no more.
    fn give_up(&mut self) -> Fault
        ensures broke { disk_did F.Places.made self.old broke self.new }
        ensures file { self.new.file ≡ self.old.file }
    {
        self.broken = true;
        Fault
    }
}
