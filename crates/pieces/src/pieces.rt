// Where things are, and how an entry of the directory changes.
ghost use Rattle.std.specs.Prelude.{◌≡◌, ◌<◌, ◌/◌, ◌%◌, length, min, cond, not, IfOk, OnOk, OnErr, None, position, slice_set, slice_index_or};
ghost use Rattle.pieces.specs.Entries.{is_block, is_empty, is_free, free_entry};
ghost use Rattle.pieces.specs.Meaning.{BlankMeans, PlacesApart};
ghost use Rattle.pieces.specs.Kept.{the_kept, blank_kept, index_of, vacant, free_place, place_of, found, stamp_of, puts_place, frees_place, with_place};
ghost use Rattle.pieces.specs.Layouts.{entries_of, places_of};
ghost use Rattle.pieces.specs.Hints.{AllTaken, NoneFree};

use crate::entry::{BLOCK_SECTORS, Block, Entry, Stamp};
use crate::layout::Layout;
use crate::state::Pieces;
use crate::table::Table;
use std::alloc::{AllocError, Global};
use wire::number::*;

impl Pieces {
    // No blocks yet.
    #[tactic(auto, using(crate::proofs::Blank::blank_means))]
    pub fn new(heap: Global, layout: Layout) -> Result<Pieces, AllocError>
        ensures means { BlankMeans }
        ensures blank { IfOk result (λ p. (the_kept p ≡ blank_kept layout.size) × (p.layout ≡ layout)) }
    {
        let entries = vec![in heap; Entry::free(); layout.entries() as usize]?;
        let mut taken = vec![in heap; false; layout.places() as usize + 1]?;
        taken[0] = true;
        Ok(Pieces {
            layout,
            entries,
            taken,
            floor: Stamp(0),
            table: Table::new(heap),
            entry_hint: 0,
            place_hint: 0,
        })
    }

    // Which entry a block has. No volume has the number 0; what it would find is what the entries say.
    pub(crate) fn index_of(&self, volume: Volume, block: Block) -> Option<usize>
        ensures { result ≡ index_of volume.0 block.0 self.now.entries.items }
    {
        if volume.0 == 0 {
            return position(self.entries.as_slice(), volume, block);
        }
        let word = self.table.get(volume, block);
        if word == 0 {
            None
        } else {
            Some(word as usize - 1)
        }
    }

    // Where a sector lies; None if it is zeros.
    #[tactic(auto, using(crate::proofs::Apart::places_apart))]
    pub fn find(&self, at: Address) -> Option<u64>
        ensures apart { PlacesApart }
        ensures place { result ≡ found (place_of at.volume.0 at.sector.0 (the_kept self.now)) }
    {
        let index = self.index_of(at.volume, block_of(at.sector))?;
        let place = self.entries[index].places[slot_of(at.sector)];
        (place != 0).then_some(place)
    }

    // The version at which a block last changed; 0 if nothing is known of it.
    pub fn stamp(&self, volume: Volume, block: Block) -> Stamp
        ensures { result.0 ≡ stamp_of volume.0 block.0 (the_kept self.now) }
    {
        match self.index_of(volume, block) {
            Some(index) => self.entries[index].stamp,
            None => Stamp(0),
        }
    }

    // The first entry that is free; the next search begins there.
    fn unused(&mut self) -> Option<usize>
        ensures index { result ≡ position is_free self.old.entries.items }
        ensures kept { the_kept self.new ≡ the_kept self.old }
        ensures layout { self.new.layout ≡ self.old.layout }
    {
        let found = unused_behind(self.entries.as_slice(), self.entry_hint);
        self.entry_hint = match found {
            Some(index) => index,
            None => self.entries.len(),
        };
        found
    }

    // An entry that may be used: one that is free, else a marker.
    pub(crate) fn vacant(&mut self) -> Option<usize>
        ensures index { result ≡ vacant self.old.entries.items }
        ensures kept { the_kept self.new ≡ the_kept self.old }
        ensures layout { self.new.layout ≡ self.old.layout }
    {
        match self.unused() {
            Some(index) => Some(index),
            None => marker(self.entries.as_slice()),
        }
    }

    // The first place that isn't taken; the next search begins there.
    pub(crate) fn untaken(&mut self) -> Option<usize>
        ensures place { result ≡ free_place self.old.taken.items }
        ensures kept { the_kept self.new ≡ the_kept self.old }
        ensures layout { self.new.layout ≡ self.old.layout }
    {
        let found = untaken_behind(self.taken.as_slice(), self.place_hint);
        self.place_hint = match found {
            Some(place) => place,
            None => self.taken.len(),
        };
        found
    }

    // One place of an entry changes, and its stamp.
    fn change(&mut self, index: usize, slot: usize, place: u64, stamp: Stamp)
        requires index { index < length self.old.entries.items }
        requires slot { slot < 8 }
        ensures entries { self.new.entries.items ≡ slice_set self.old.entries.items index (with_place slot place stamp.0 (slice_index_or self.old.entries.items index free_entry)) }
        ensures taken { self.new.taken ≡ self.old.taken }
        ensures floor { self.new.floor ≡ self.old.floor }
        ensures layout { self.new.layout ≡ self.old.layout }
    {
        let entry = &mut self.entries[index];
        change(entry, slot, place, stamp);
        self.entry_hint = lowered(self.entry_hint, index, entry);
    }

    // An entry is a block's that had none.
    pub(crate) fn place_entry(
        &mut self,
        heap: Global,
        index: usize,
        entry: Entry,
    ) -> Result<(), AllocError>
        requires index { index < length self.old.entries.items }
        requires fresh { index_of entry.volume.0 entry.block.0 self.old.entries.items ≡ None }
        ensures entries { OnOk result (self.new.entries.items ≡ slice_set self.old.entries.items index entry) }
        ensures same { OnErr result (self.new.entries.items ≡ self.old.entries.items) }
        ensures taken { self.new.taken ≡ self.old.taken }
        ensures floor { self.new.floor ≡ self.old.floor }
        ensures layout { self.new.layout ≡ self.old.layout }
    {
        self.table
            .put(heap, entry.volume, entry.block, index as u64 + 1)?;
        let old = self.entries[index];
        self.table.clear(old.volume, old.block);
        self.entries[index] = entry;
        self.entry_hint = lowered(self.entry_hint, index, &entry);
        Ok(())
    }

    // An entry without places is free.
    pub(crate) fn free_entry(&mut self, index: usize)
        requires index { index < length self.old.entries.items }
        ensures entries { self.new.entries.items ≡ slice_set self.old.entries.items index free_entry }
        ensures taken { self.new.taken ≡ self.old.taken }
        ensures floor { self.new.floor ≡ self.old.floor }
        ensures layout { self.new.layout ≡ self.old.layout }
    {
        let old = self.entries[index];
        self.table.clear(old.volume, old.block);
        self.entries[index] = Entry::free();
        self.entry_hint = self.entry_hint.min(index);
    }

    #[tactic(auto, unfolding(crate::specs::Kept::puts_place))]
    // A sector of this entry's block lies at this place from now on.
    pub(crate) fn put_place(&mut self, index: usize, slot: usize, place: u64, stamp: Stamp)
        requires index { index < length self.old.entries.items }
        requires slot { slot < 8 }
        ensures kept { the_kept self.new ≡ puts_place index slot place stamp.0 (the_kept self.old) }
        ensures layout { self.new.layout ≡ self.old.layout }
    {
        self.change(index, slot, place, stamp);
        mark(self.taken.as_mut_slice(), place, true);
    }

    #[tactic(auto, unfolding(crate::specs::Kept::frees_place))]
    // A sector of this entry's block is zeros from now on.
    pub(crate) fn free_place(&mut self, index: usize, slot: usize, stamp: Stamp)
        requires index { index < length self.old.entries.items }
        requires slot { slot < 8 }
        ensures kept { the_kept self.new ≡ frees_place index slot stamp.0 (the_kept self.old) }
        ensures layout { self.new.layout ≡ self.old.layout }
    {
        let place = self.entries[index].places[slot];
        self.change(index, slot, 0, stamp);
        if place != 0 {
            mark(self.taken.as_mut_slice(), place, false);
            self.place_hint = self.place_hint.min(place as usize);
        }
    }
}

// The block that a sector is of, and its place within.
pub fn block_of(sector: Sector) -> Block
    ensures { result.0 ≡ sector.0 / 8 }
{
    Block(sector.0 / BLOCK_SECTORS as u64)
}

pub fn slot_of(sector: Sector) -> usize
    ensures { result ≡ sector.0 % 8 }
{
    (sector.0 % BLOCK_SECTORS as u64) as usize
}

// Which entry a block has.
pub(crate) fn position(entries: &[Entry], volume: Volume, block: Block) -> Option<usize>
    ensures { result ≡ index_of volume.0 block.0 entries.now }
{
    entries.iter().position(|entry| entry.is_of(volume, block))
}

fn unused(entries: &[Entry]) -> Option<usize>
    ensures { result ≡ position is_free entries.now }
{
    entries.iter().position(|entry| entry.is_free())
}

// The same, where none is below the hint.
#[tactic(auto, using(crate::proofs::Hints::within_hints))]
fn unused_behind(entries: &[Entry], hint: usize) -> Option<usize>
    requires { NoneFree hint entries.now }
    ensures { result ≡ position is_free entries.now }
{
    match unused(&entries[hint..]) {
        Some(at) => Some(hint + at),
        None => None,
    }
}

// The hint where an entry changed to this.
fn lowered(hint: usize, index: usize, entry: &Entry) -> usize
    ensures { result ≡ cond (is_free entry.now) (min hint index) hint }
{
    if entry.is_free() {
        hint.min(index)
    } else {
        hint
    }
}

fn marker(entries: &[Entry]) -> Option<usize>
    ensures { result ≡ position is_empty entries.now }
{
    entries.iter().position(|entry| entry.is_empty())
}

fn untaken(taken: &[bool]) -> Option<usize>
    ensures { result ≡ free_place taken.now }
{
    taken.iter().position(|taken| !*taken)
}

// The same, where all below the hint are taken.
#[tactic(auto, using(crate::proofs::Hints::within_hints))]
fn untaken_behind(taken: &[bool], hint: usize) -> Option<usize>
    requires { AllTaken hint taken.now }
    ensures { result ≡ free_place taken.now }
{
    match untaken(&taken[hint..]) {
        Some(at) => Some(hint + at),
        None => None,
    }
}

fn change(entry: &mut Entry, slot: usize, place: u64, stamp: Stamp)
    requires { slot < 8 }
    ensures { entry.new ≡ with_place slot place stamp.0 entry.old }
{
    entry.places[slot] = place;
    entry.stamp = stamp;
}

fn mark(taken: &mut [bool], place: u64, now: bool)
    ensures { taken.new ≡ slice_set taken.old place now }
{
    if place < taken.len() as u64 {
        taken[place as usize] = now;
    }
}
