// The directory beside the map: each sector that was written, and the blocks that changed.
use crate::part::FIRST;
use crate::trial::{Trial, count};
use anyhow::anyhow;
use pieces::entry::{Block, Stamp};
use wire::number::*;

impl Trial {
    // All that was written, and is there still.
    pub(crate) fn compare(&mut self) -> anyhow::Result<()> {
        let keys: Vec<(u64, u64)> = self.model.keys().copied().collect(self.heap)?;
        for (volume, sector) in keys {
            self.shows(Address {
                volume: Volume(volume),
                sector: Sector(sector),
            })?;
        }
        Ok(())
    }

    // How many blocks are listed as changed after a version; each with the stamp that it has.
    fn listed(&self, since: u64) -> anyhow::Result<u64> {
        let mut from = FIRST;
        let mut blocks = 0u64;
        for _ in 0..u64::MAX {
            let part = self
                .pieces
                .changed(self.heap, Some(Stamp(since)), from, 16)?;
            for entry in part.blocks.as_slice() {
                let stamp = self.stamps.get(&(entry.volume.0, entry.block.0)).copied();
                if stamp != Some(entry.stamp.0) {
                    return Err(anyhow!("a block is listed that didn't change"));
                }
                count(&mut blocks);
            }
            match part.next {
                Some(next) => from = next,
                None => break,
            }
        }
        Ok(blocks)
    }

    // None that changed behind the floor is missing.
    pub(crate) fn compare_listed(&self, since: u64) -> anyhow::Result<u64> {
        let listed = self.listed(since)?;
        let changed = self.stamps.values().filter(|stamp| **stamp > since).count();
        if since >= self.floor.0 && listed != changed as u64 {
            return Err(anyhow!("a block that changed isn't listed"));
        }
        Ok(listed)
    }
    // In each sector of this map both hold the same, and of no block the other knows an older change. How many sectors these are.
    pub(crate) fn matches(&self, other: &Trial) -> anyhow::Result<u64> {
        let mut compared = 0u64;
        for key in self.model.keys() {
            let at = Address {
                volume: Volume(key.0),
                sector: Sector(key.1),
            };
            if self.read(at)? != other.read(at)? {
                return Err(anyhow!("what was taken over isn't the same"));
            }
            count(&mut compared);
        }
        for (key, stamp) in self.stamps.iter() {
            let known = other.pieces.stamp(Volume(key.0), Block(key.1));
            if known.0.max(other.floor.0) < *stamp {
                return Err(anyhow!("a block that was taken over is older than it was"));
            }
        }
        Ok(compared)
    }
}
