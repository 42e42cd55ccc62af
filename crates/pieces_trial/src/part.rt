// What one directory hands on of a range, and what becomes of another that takes it over: on its device, and in its map.
ghost use Rattle.std.specs.Prelude.{◌≡◌, ℕ, ◌<◌, ◌+◌, ◌*◌, ◌^◌, true, false, List, None, IfOk};
ghost use Rattle.pieces.specs.Kept.{the_kept};
ghost use Rattle.pieces.specs.Changes.{listed};
ghost use Rattle.pieces.specs.Replaces.{is_in};
ghost use Rattle.pieces.specs.Replacing.{Comes, DoesAll};
ghost use Rattle.pieces.specs.declared.filled.Replaced.{Replaced};
ghost use Rattle.pieces_trial.specs.Parts.{takes};

use crate::trial::{Trial, WRONG};
use anyhow::anyhow;
use octets::{BLANK_SECTOR, SECTOR_BYTES};
use pieces::changed::Key;
use pieces::entry::{BLOCK_SECTORS, Block, Entry, Stamp, VOLUME_BLOCKS};
use pieces::filled::{Filled, Replaced};
use pieces::replace::{Range, Taking};
use pieces::set::Unset;
use wire::number::*;

// Where the blocks of all volumes begin.
pub(crate) const FIRST: Key = Key {
    volume: Volume(0),
    block: Block(0),
};

// How many blocks are handed on at a time, and how many entries may be given up for them.
const PART_BLOCKS: usize = 16;

const MOST_GIVEN_UP: usize = 256;

// A range, and the whole of it, or what changed.
#[derive(Drop)]
pub(crate) struct Part {
    pub whole: bool,
    pub range: Range,
    pub floor: Stamp,
    pub blocks: Vec<Filled>,
}

fn sector_of(block: Block, slot: usize) -> Sector
    requires block { block.0 < 2 ^ 37 }
    requires slot { slot < 8 }
    ensures { result.0 ≡ 8 * block.0 + slot }
{
    Sector(BLOCK_SECTORS as u64 * block.0 + slot as u64)
}

fn is_in(range: Range, volume: u64, block: u64) -> bool
    ensures { result ≡ is_in range.from range.next volume block }
{
    let key = Key {
        volume: Volume(volume),
        block: Block(block),
    };
    !key.is_before(range.from)
        && match range.next {
            Some(next) => key.is_before(next),
            None => true,
        }
}

impl Trial {
    // A block as it is handed on.
    fn block(&self, entry: &Entry) -> anyhow::Result<Filled>
        ensures volume { IfOk result (λ b. b.volume ≡ entry.now.volume) }
        ensures block { IfOk result (λ b. b.block ≡ entry.now.block) }
        ensures stamp { IfOk result (λ b. b.stamp ≡ entry.now.stamp) }
    {
        if entry.block.0 >= VOLUME_BLOCKS {
            return Err(anyhow!("{WRONG}"));
        }
        let mut sectors = vec![in self.heap; BLANK_SECTOR; BLOCK_SECTORS]?;
        for slot in 0..BLOCK_SECTORS {
            let byte = self.read(Address {
                volume: entry.volume,
                sector: sector_of(entry.block, slot),
            })?;
            sectors[slot] = [byte; SECTOR_BYTES];
        }
        Ok(Filled {
            volume: entry.volume,
            block: entry.block,
            stamp: entry.stamp,
            sectors,
        })
    }

    // The first blocks from a key on that changed after a version, or all.
    pub(crate) fn part(&self, since: Option<u64>, from: Key) -> anyhow::Result<Part>
        ensures from { IfOk result (λ p. p.range.from ≡ from) }
        ensures all { IfOk result (λ p. since ≡ None → (p.whole ≡ true) × (p.range.next ≡ (listed 16 None from (the_kept self.now.pieces).entries).next)) }
        ensures floor { IfOk result (λ p. p.floor ≡ self.now.pieces.floor) }
    {
        let changed = self
            .pieces
            .changed(self.heap, since.map(Stamp), from, PART_BLOCKS)?;
        let mut blocks = Vec::new(self.heap);
        for entry in changed.blocks.as_slice() {
            blocks.push(self.block(entry)?)?;
        }
        Ok(Part {
            whole: since.is_none(),
            range: Range {
                from,
                next: changed.next,
            },
            floor: self.pieces.floor(),
            blocks,
        })
    }

    // A part is taken over: what is to be written for that.
    fn replace(&mut self, part: &Part) -> Result<Replaced, Unset>
        ensures kept { DoesAll (takes part.now) (the_kept self.old.pieces) result (the_kept self.new.pieces) }
        ensures layout { self.new.pieces.layout ≡ self.old.pieces.layout }
    {
        let taking = Taking {
            whole: part.whole,
            most: MOST_GIVEN_UP,
            floor: part.floor,
            blocks: part.blocks.as_slice(),
        };
        self.pieces.replace(self.heap, part.range, taking)
    }

    // So it is, and is written. Whether there is room.
    pub(crate) fn take(&mut self, part: &Part) -> anyhow::Result<bool>
        ensures taken { IfOk result (λ ok. ok ≡ true → (r : Replaced) × Comes (takes part.now) (the_kept self.old.pieces) (the_kept self.new.pieces) r) }
        ensures full { IfOk result (λ ok. ok ≡ false → (d : ℕ → List ℕ) → takes part.now (record { kept = the_kept self.old.pieces; data' = d }) ≡ None) }
        ensures layout { self.new.pieces.layout ≡ self.old.pieces.layout }
    {
        match self.replace(part) {
            Ok(replaced) => {
                self.write_replaced(&replaced)?;
                self.learn(part)?;
                Ok(true)
            }
            Err(Unset::NoRoom) => Ok(false),
            Err(Unset::NoMemory) => Err(anyhow!("no memory")),
        }
    }

    fn write_replaced(&mut self, replaced: &Replaced) -> anyhow::Result<()>
        ensures { self.new.pieces ≡ self.old.pieces }
    {
        for entry in replaced.entries.as_slice() {
            self.write_entry(*entry)?;
        }
        for written in replaced.sectors.as_slice() {
            let byte = written.bytes[0];
            if written.bytes != [byte; SECTOR_BYTES] {
                return Err(anyhow!("{WRONG}"));
            }
            self.write_data(written.place, byte)?;
        }
        self.floor = self.pieces.floor();
        Ok(())
    }

    // The map is as the part says.
    fn learn(&mut self, part: &Part) -> anyhow::Result<()>
        ensures { self.new.pieces ≡ self.old.pieces }
    {
        if part.whole {
            let range = part.range;
            self.model.retain(|key, _| !is_in(range, key.0, key.1 / BLOCK_SECTORS as u64));
            self.stamps.retain(|key, _| !is_in(range, key.0, key.1));
        }
        for block in part.blocks.as_slice() {
            self.learn_block(block)?;
        }
        Ok(())
    }

    fn learn_block(&mut self, block: &Filled) -> anyhow::Result<()>
        ensures { self.new.pieces ≡ self.old.pieces }
    {
        for slot in 0..BLOCK_SECTORS {
            let sector = sector_of(block.block, slot);
            self.model
                .insert((block.volume.0, sector.0), block.sectors[slot][0])?;
        }
        self.stamps
            .insert((block.volume.0, block.block.0), block.stamp.0)?;
        Ok(())
    }
}
