// The plain array that the journal is compared with: a few sectors of the device. And the transactions that are played, by chance.
ghost use Rattle.std.specs.Prelude.{◌≡◌, ℕ, ◌<◌, ◌≤◌, ◌↔◌, IfOk, IsTrue, replicate, length, slice_index_or, vec_len};
ghost use Rattle.disks.specs.Device.{zeros};
ghost use Rattle.cut_trial.specs.Models.{placed, after_writes, Chosen};

use journal::state::Write;
use journal::{GUARDED, Place};
use memory_disk::random::Random;
use octets::{BLANK_SECTOR, SECTOR_BYTES};
use std::alloc::{AllocError, Global};

// How many sectors are played with; they stand apart from one another on the device.
pub const PLAYED: usize = 48;

const APART: u64 = 37;

#[derive(Drop)]
pub struct Model {
    pub sectors: Vec<[u8; SECTOR_BYTES]>,
}

// What a sector holds after these writes.
fn latest(writes: &[Write], at: Place, before: [u8; SECTOR_BYTES]) -> [u8; SECTOR_BYTES]
    ensures { result ≡ after_writes writes.now at.0 before }
{
    match writes.iter().rev().find(|w| w.target == at) {
        Some(w) => w.bytes,
        None => before,
    }
}

impl Model {
    pub fn new(heap: Global) -> Result<Model, AllocError>
        ensures { IfOk result (λ m. m.sectors.items ≡ replicate 48 (zeros 512)) }
    {
        let sectors = vec![in heap; BLANK_SECTOR; PLAYED]?;
        Ok(Model { sectors })
    }

    pub fn place(i: usize) -> Place
        ensures { result.0 ≡ placed i }
    {
        // `u64` has no `From<usize>`.
        Place(GUARDED + APART * (i % PLAYED) as u64)
    }

    // Takes over a transaction.
    pub fn put(&mut self, writes: &[Write])
        ensures count { vec_len self.new.sectors ≡ vec_len self.old.sectors }
        ensures each { (k : ℕ) → k < vec_len self.old.sectors → slice_index_or self.new.sectors.items k (zeros 512) ≡ after_writes writes.now (placed k) (slice_index_or self.old.sectors.items k (zeros 512)) }
    {
        // By index. Tried over iter_mut().enumerate(): the clause `each` was not proved, since nothing is known of the elements afterwards.
        for i in 0..self.sectors.len() {
            self.sectors[i] = latest(writes, Model::place(i), self.sectors[i]);
        }
    }

    // Whether the sector holds this, with these writes done or not.
    #[tactic(auto, unfolding(disks::specs::Device::zeros))]
    pub fn holds(&self, i: usize, writes: &[Write], bytes: &[u8; SECTOR_BYTES]) -> bool
        ensures { IsTrue result ↔ (after_writes writes.now (placed i) (slice_index_or self.now.sectors.items i (zeros 512)) ≡ bytes.now) }
    {
        let before = self.sectors.get(i).copied().unwrap_or(BLANK_SECTOR);
        latest(writes, Model::place(i), before) == *bytes
    }
}

// A sector by chance: eight bytes, each 64 times.
fn sector(random: &mut Random) -> [u8; SECTOR_BYTES] {
    let eight = random.next().to_be_bytes();
    let mut bytes = BLANK_SECTOR;
    for (part, b) in bytes.chunks_exact_mut(64).zip(eight) {
        part.fill(b);
    }
    bytes
}

// Some of the sectors, each once, with new bytes.
pub fn transaction(heap: Global, random: &mut Random) -> Result<Vec<Write>, AllocError>
    ensures { IfOk result (λ v. Chosen 48 v.items) }
{
    let mut writes = Vec::new(heap);
    let share = 1 + random.below(8);
    for i in 0..PLAYED {
        if random.below(12) < share {
            writes.push(Write {
                target: Model::place(i),
                bytes: sector(random),
            })?;
        }
    }
    Ok(writes)
}
