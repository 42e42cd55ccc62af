// Sectors that are drawn by chance, and set.
ghost use Rattle.std.specs.Prelude.{◌≡◌, ◌<◌};

use crate::trial::{Trial, WRONG};
use anyhow::anyhow;
use memory_disk::random::Random;
use std::alloc::Global;
use wire::number::*;

// How many volumes live at a time.
pub(crate) const VOLUMES: u64 = 4;

pub(crate) fn address(volume: Volume, sector: u64) -> Address
    ensures { result ≡ record { volume = volume; sector = record { 0 = sector } } }
{
    Address {
        volume,
        sector: Sector(sector),
    }
}

// A sector, of a few that stand close, or of many that stand apart.
fn drawn(random: &mut Random) -> u64 {
    let near = random.below(24);
    if random.below(2) == 0 {
        near
    } else {
        random.below(200).wrapping_mul(8192).wrapping_add(near)
    }
}

// Which of the volumes.
pub(crate) fn index(random: &mut Random) -> usize
    ensures { result < 4 }
{
    random.below(VOLUMES) as usize
}

impl Trial {
    // With as many volumes as live at a time.
    pub(crate) fn with_volumes(heap: Global) -> anyhow::Result<Trial> {
        let mut trial = Trial::new(heap)?;
        for _ in 0..VOLUMES {
            trial.make()?;
        }
        Ok(trial)
    }

    // A sector is set; there is room.
    pub(crate) fn change(&mut self, random: &mut Random) -> anyhow::Result<()> {
        let volume = self
            .heads
            .get(index(random))
            .ok_or(anyhow!("{WRONG}"))?
            .number;
        let at = address(volume, drawn(random));
        let byte = (random.below(4) & 0xff) as u8;
        if !self.set(at, byte)? {
            return Err(anyhow!("there is room, but it wasn't found"));
        }
        self.shows(at)
    }
}
