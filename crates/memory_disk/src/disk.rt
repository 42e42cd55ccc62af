// What the disk answers.
ghost use Rattle.std.specs.Prelude.{◌≡◌, true, false, ◌&&◌, ◌⊎◌, [], ◌∷◌, ◌++◌, is_ok, MatchResult, OnErr, nat_lt};
ghost use Rattle.device.specs.Does.{Does, read_io, write_io, sync_io, giving};
ghost use Rattle.memory_disk.specs.Disks.{MemoryDid, MemoryHolds, answers, Counted, Broke, Noted, MayGrow};
ghost use Rattle.memory_disk.specs.Models.{memory_models};

use crate::MemoryDisk;
use device::disk::{Disk, Fault};
use journal::Place;
use journal::state::Write;
use octets::SECTOR_BYTES;
use std::alloc::AllocError;

impl MemoryDisk {
    // Counts a request; if it isn't answered, the disk gives up.
    fn count(&mut self, within: bool) -> Result<(), Fault>
        ensures answered { is_ok result ≡ (within && answers self.old.left) }
        ensures counted { MatchResult result (λ _. Counted self.old within true self.new) (λ _. Broke self.old self.new) }
    {
        match self.left {
            None if within => Ok(()),
            Some(n) if within && n > 0 => {
                self.left = Some(n - 1);
                Ok(())
            }
            _ => Err(self.give_up()),
        }
    }

    // Takes over a write.
    fn note(&mut self, at: Place, bytes: &[u8; SECTOR_BYTES]) -> Result<(), AllocError>
        ensures refused { OnErr result (MayGrow self.old at.0) }
        ensures noted { MatchResult result (λ _. Noted self.old (self.old.log.items ++ record { target = at; bytes = bytes.now } ∷ []) self.new) (λ _. Noted self.old self.old.log.items self.new) }
    {
        self.log.reserve(1)?;
        self.sectors.write(at, bytes)?;
        self.log.push_reserved(Write {
            target: at,
            bytes: *bytes,
        });
        Ok(())
    }
}

impl Disk for MemoryDisk {
    ghost did = { MemoryDid };

    ghost holds = { MemoryHolds };

    ghost models = { memory_models };

    #[tactic(auto, using(device::proofs::Steps::disks, device::proofs::Steps::failed, device::proofs::Steps::giving_err, crate::proofs::Requests::it_gives))]
    fn read(&mut self, at: Place, buf: &mut [u8; SECTOR_BYTES]) -> Result<(), Fault>
        ensures does { Does MemoryDid (read_io at.0) self.old (giving result buf.new) self.new }
        ensures answered { is_ok result ≡ (nat_lt at.0 self.old.size && answers self.old.left) }
    {
        self.count(at.0 < self.size)?;
        self.sectors.read(at, buf);
        Ok(())
    }

    #[tactic(auto, using(device::proofs::Steps::disks, device::proofs::Steps::failed, crate::proofs::Requests::broke_noting))]
    fn write(&mut self, at: Place, bytes: &[u8; SECTOR_BYTES]) -> Result<(), Fault>
        ensures does { Does MemoryDid (write_io at.0 bytes.now) self.old result self.new }
        ensures refused { OnErr result (((nat_lt at.0 self.old.size && answers self.old.left) ≡ false) ⊎ MayGrow self.old at.0) }
    {
        self.count(at.0 < self.size)?;
        // Tried with `map_err`: the proof of `does` doesn't close where the write was noted, since nothing says that a closure that isn't called leaves the disk as it was.
        match self.note(at, bytes) {
            Ok(()) => Ok(()),
            Err(_) => Err(self.give_up()),
        }
    }

    #[tactic(auto, using(device::proofs::Steps::disks, device::proofs::Steps::failed))]
    fn sync(&mut self) -> Result<(), Fault>
        ensures does { Does MemoryDid sync_io self.old result self.new }
        ensures answered { is_ok result ≡ answers self.old.left }
    {
        self.count(true)?;
        self.sectors.settle_all(self.log.as_slice());
        self.log.clear();
        Ok(())
    }

    // The disk answers no more, until the next cut.
    fn give_up(&mut self) -> Fault {
        self.left = Some(0);
        Fault
    }
}
