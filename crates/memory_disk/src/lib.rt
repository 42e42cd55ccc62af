// A disk in memory, for rehearsals and tests: it can be told to fail, and at a cut it loses what was not synced.
#![tactic(auto)]

ghost use Rattle.std.specs.Prelude.{◌≡◌, ℕ};
ghost use Rattle.disks.specs.Device.{latest};
ghost use Rattle.memory_disk.specs.Contents.{kept_at, shown_at, since_in};

use journal::state::Write;
use sectors::Sectors;

mod chance;
mod control;
pub mod disk;
pub mod random;
mod sectors;

// size: how many sectors it has; log: the writes since the last sync, in order; left: how many more requests it answers, if that is limited.
#[derive(Drop)]
pub struct MemoryDisk {
    size: u64,
    sectors: Sectors,
    log: Vec<Write>,
    left: Option<u64>,
    ghost shows: { (n : ℕ) → shown_at sectors.written n ≡ latest (kept_at sectors.written n) (since_in log.items n) },
}
