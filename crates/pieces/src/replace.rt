// What becomes of a range of blocks when another copy's take their place: where they are the whole of it all that was there is given up, then
// they are set sector by sector, and the floor rises to the other copy's. What is to be written for that is listed.
ghost use Rattle.std.specs.Prelude.{◌≡◌, length, IfOk, OnOk};
ghost use Rattle.std.specs.List.{count_by};
ghost use Rattle.pieces.specs.Kept.{the_kept};
ghost use Rattle.pieces.specs.Changes.{is_below};
ghost use Rattle.pieces.specs.Ranges.{is_within};
ghost use Rattle.pieces.specs.Replaces.{sets_held, fills, fills_all, replaces, ReplaceMeans};
ghost use Rattle.pieces.specs.Replacing.{the_filled, indices_where, with_entry, with_sector, the_blocks, gives_up, begins, DoesHeld, DoesAll};

use crate::changed::Key;
use crate::entry::{BLOCK_SECTORS, Entry, Stamp};
use crate::filled::{Filled, Replaced, Written};
use crate::forget::Choice;
use crate::set::{Unset, Writes};
use crate::state::Pieces;
use octets::SECTOR_BYTES;
use std::alloc::{AllocError, Global};
use wire::number::*;

impl Entry {
    // Whether it is in use, and its block in the range from a key up to another, or to the end.
    #[tactic(auto, unfolding(crate::specs::Ranges::is_within))]
    fn is_within(&self, from: Key, next: Option<Key>) -> bool
        ensures { result ≡ is_within from next self.now }
    {
        self.volume.0 != 0 && !self.key().is_before(from) && self.key().is_below(next)
    }
}

impl Key {
    fn is_below(self, next: Option<Key>) -> bool
        ensures { result ≡ is_below self next }
    {
        match next {
            Some(end) => self.is_before(end),
            None => true,
        }
    }
}

// From a key up to another, or to the end.
#[derive(Clone, Copy)]
pub struct Range {
    pub from: Key,
    pub next: Option<Key>,
}

impl Choice for Range {
    ghost chosen = { λ r e. is_within r.from r.next e };

    fn chooses(&self, entry: &Entry) -> bool {
        entry.is_within(self.from, self.next)
    }
}

// What another copy has of a range: of the whole of it, or only of what changed. So many entries may be given up for it.
#[derive(Clone, Copy)]
pub struct Taking<'a> {
    pub whole: bool,
    pub most: usize,
    pub floor: Stamp,
    pub blocks: &'a [Filled],
}

// How many blocks of a range are in use, and which entries these have.
fn count_within(entries: &[Entry], range: Range) -> usize
    ensures { result ≡ count_by (is_within range.from range.next) entries.now }
{
    entries
        .iter()
        .filter(|entry| entry.is_within(range.from, range.next))
        .count()
}

fn indices_within(heap: Global, entries: &[Entry], range: Range) -> Result<Vec<usize>, AllocError>
    ensures { IfOk result (λ v. v.items ≡ indices_where (is_within range.from range.next) (length entries.now) entries.now) }
{
    let mut indices = Vec::new(heap);
    for index in 0..entries.len() {
        if range.chooses(&entries[index]) {
            indices.push(index)?;
        }
    }
    Ok(indices)
}

impl Replaced {
    // What is to be written for a sector comes last.
    fn note(&mut self, writes: Writes, sector: &[u8; SECTOR_BYTES]) -> Result<(), AllocError>
        ensures entries { OnOk result (self.new.entries.items ≡ with_entry writes.entry self.old.entries.items) }
        ensures sectors { OnOk result (self.new.sectors.items ≡ with_sector writes.place sector.now self.old.sectors.items) }
    {
        if let Some(index) = writes.entry {
            self.entries.push(index)?;
        }
        if let Some(place) = writes.place {
            self.sectors.push(Written {
                place,
                bytes: *sector,
            })?;
        }
        Ok(())
    }
}

impl Pieces {
    // A sector is set, and what is to be written for it listed.
    #[tactic(auto, unfolding(crate::specs::Replaces::sets_held))]
    fn set_listed(
        &mut self,
        heap: Global,
        at: Address,
        sector: &[u8; SECTOR_BYTES],
        stamp: Stamp,
        replaced: &mut Replaced,
    ) -> Result<(), Unset>
        ensures kept { DoesHeld (sets_held at.volume.0 at.sector.0 sector.now stamp.0) (the_kept self.old) replaced.old result (the_kept self.new) replaced.new }
        ensures layout { self.new.layout ≡ self.old.layout }
    {
        let writes = self.set(heap, at, sector, stamp)?;
        replaced.note(writes, sector)?;
        Ok(())
    }

    // So are all of a block.
    fn fill(&mut self, heap: Global, block: &Filled, replaced: &mut Replaced) -> Result<(), Unset>
        ensures kept { DoesHeld (fills (the_filled block.now)) (the_kept self.old) replaced.old result (the_kept self.new) replaced.new }
        ensures layout { self.new.layout ≡ self.old.layout }
    {
        for slot in 0..BLOCK_SECTORS {
            let at = Address {
                volume: block.volume,
                sector: Sector(BLOCK_SECTORS as u64 * block.block.0 + slot as u64),
            };
            self.set_listed(heap, at, &block.sectors[slot], block.stamp, replaced)?;
        }
        Ok(())
    }

    fn fill_all(
        &mut self,
        heap: Global,
        blocks: &[Filled],
        replaced: &mut Replaced,
    ) -> Result<(), Unset>
        ensures kept { DoesHeld (fills_all (the_blocks blocks.now)) (the_kept self.old) replaced.old result (the_kept self.new) replaced.new }
        ensures layout { self.new.layout ≡ self.old.layout }
    {
        for block in blocks {
            self.fill(heap, block, replaced)?;
        }
        Ok(())
    }

    // All of a range is given up, if that isn't more than may be written.
    fn give_up(&mut self, heap: Global, range: Range, most: usize) -> Result<Replaced, Unset>
        ensures kept { DoesAll (gives_up range.from range.next most) (the_kept self.old) result (the_kept self.new) }
        ensures layout { self.new.layout ≡ self.old.layout }
    {
        if count_within(self.entries.as_slice(), range) > most {
            return Err(Unset::NoRoom);
        }
        let entries = indices_within(heap, self.entries.as_slice(), range)?;
        self.vacate_where(&range);
        Ok(Replaced {
            entries,
            sectors: Vec::new(heap),
        })
    }

    // So it is first, where another copy's is the whole of it.
    fn begin(&mut self, heap: Global, range: Range, taking: Taking<'_>) -> Result<Replaced, Unset>
        ensures kept { DoesAll (begins range.from range.next taking.entry.whole taking.entry.most) (the_kept self.old) result (the_kept self.new) }
        ensures layout { self.new.layout ≡ self.old.layout }
    {
        if taking.whole {
            self.give_up(heap, range, taking.most)
        } else {
            Ok(Replaced {
                entries: Vec::new(heap),
                sectors: Vec::new(heap),
            })
        }
    }

    // A range holds what another copy has of it: what is to be written for that. Nothing is said of what is left where there is no room.
    pub fn replace(
        &mut self,
        heap: Global,
        range: Range,
        taking: Taking<'_>,
    ) -> Result<Replaced, Unset>
        ensures kept { DoesAll (replaces range.from range.next taking.entry.whole taking.entry.most taking.entry.floor.0 (the_blocks taking.entry.blocks.now)) (the_kept self.old) result (the_kept self.new) }
        ensures layout { self.new.layout ≡ self.old.layout }
        ensures means { ReplaceMeans }
    {
        let mut replaced = self.begin(heap, range, taking)?;
        self.fill_all(heap, taking.blocks, &mut replaced)?;
        self.raise_floor(taking.floor);
        Ok(replaced)
    }
}
