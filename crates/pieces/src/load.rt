// The directory as it is on the device: sectors of seven entries each, behind their generation.
ghost use Rattle.std.specs.Prelude.{◌≡◌, ◌+◌, ◌*◌, ◌≤◌, ◌<◌, length, Some, None, IfOk, OnOk, take, drop, MatchOption, OnErr, IfErr};
ghost use Rattle.pieces.specs.declared.load.Unloaded.TheVariants.{NoMemory, Broken};
ghost use Rattle.pieces.specs.Loading.{LoadMeans, LoadSame, LoadsSectors, StaysInRange, StaysOnDevice};
ghost use Rattle.volumes.specs.Service.{is_living};
ghost use Rattle.pieces.specs.Kept.{the_kept, index_of, raised};
ghost use Rattle.pieces.specs.Layouts.{directory_sectors_of};
ghost use Rattle.pieces.specs.Loads.{sector_bytes, sector_entries, take_new, take_all, restores, load_entry, load_entries, entries_in};

use crate::entry::{ENTRY_BYTES, Entry, Stamp, VOLUME_BLOCKS};
use crate::generation::Generation;
use crate::layout::SECTOR_ENTRIES;
use crate::living::Living;
use crate::state::Pieces;
use octets::{BLANK_SECTOR, SECTOR_BYTES};
use std::alloc::{AllocError, Global};
use wire::number::*;

// Where a sector's entries begin, behind the generation and 56 zeros.
const ENTRIES_START: usize = 64;

// Why a directory isn't loaded.
#[derive(Clone, Copy, Debug, PartialEq, Eq)]
pub enum Unloaded {
    // it contradicts itself: a place or a block twice, or a place that the device hasn't, or a block that no volume has
    Broken,
    NoMemory,
}

impl From<AllocError> for Unloaded {
    ghost from_gives = { λ e n. n ≡ NoMemory };

    fn from(_: AllocError) -> Unloaded {
        Unloaded::NoMemory
    }
}

impl Pieces {
    // An entry comes back from the device.
    #[tactic(auto, unfolding(crate::specs::Loads::restores))]
    fn restore(&mut self, heap: Global, index: usize, entry: Entry) -> Result<(), Unloaded>
        requires { index < length self.old.entries.items }
        ensures kept { IfOk result (λ u. restores index entry (the_kept self.old) ≡ Some (the_kept self.new)) }
        ensures broken { IfErr result (λ e. e ≡ Broken → restores index entry (the_kept self.old) ≡ None) }
        ensures layout { self.new.layout ≡ self.old.layout }
    {
        if entry.block.0 >= VOLUME_BLOCKS || self.index_of(entry.volume, entry.block).is_some() {
            return Err(Unloaded::Broken);
        }
        // where a place is refused nothing is known of those that are taken
        self.place_hint = 0;
        take_places(self.taken.as_mut_slice(), &entry.places)?;
        self.place_entry(heap, index, entry)?;
        Ok(())
    }

    // So if its volume lives; else it is free.
    fn load_entry(
        &mut self,
        heap: Global,
        index: usize,
        entry: Entry,
        living: Living<'_>,
    ) -> Result<(), Unloaded>
        requires { index < length self.old.entries.items }
        ensures kept { IfOk result (λ u. load_entry (is_living living.entry.next living.entry.heads.now) index entry (the_kept self.old) ≡ Some (the_kept self.new)) }
        ensures broken { IfErr result (λ e. e ≡ Broken → load_entry (is_living living.entry.next living.entry.heads.now) index entry (the_kept self.old) ≡ None) }
        ensures layout { self.new.layout ≡ self.old.layout }
    {
        if living.has(entry.volume) {
            self.restore(heap, index, entry)
        } else {
            Ok(())
        }
    }

    // The entries of a sector of the present generation.
    fn load_present(
        &mut self,
        heap: Global,
        number: u64,
        sector: &[u8; SECTOR_BYTES],
        living: Living<'_>,
    ) -> Result<(), Unloaded>
        requires { number < directory_sectors_of self.old.layout.size }
        ensures kept { IfOk result (λ u. load_entries (is_living living.entry.next living.entry.heads.now) (7 * number) (entries_in 7 (drop 64 sector.now)) (the_kept self.old) ≡ Some (the_kept self.new)) }
        ensures broken { IfErr result (λ e. e ≡ Broken → load_entries (is_living living.entry.next living.entry.heads.now) (7 * number) (entries_in 7 (drop 64 sector.now)) (the_kept self.old) ≡ None) }
        ensures layout { self.new.layout ≡ self.old.layout }
    {
        let first = (SECTOR_ENTRIES * number) as usize;
        for i in 0..SECTOR_ENTRIES as usize {
            let start = ENTRIES_START + ENTRY_BYTES * i;
            let entry = Entry::read(&sector[start..start + ENTRY_BYTES]);
            self.load_entry(heap, first + i, entry, living)?;
        }
        Ok(())
    }

    #[tactic(auto, using(crate::proofs::Promised::load_promised))]
    // A sector of the directory, as it is on the device, when this is the generation and these volumes live. The sectors are loaded into a new
    // directory, one after the other; where one is broken nothing is said of what is left.
    pub fn load_sector(
        &mut self,
        heap: Global,
        number: u64,
        sector: &[u8; SECTOR_BYTES],
        generation: Generation,
        living: Living<'_>,
    ) -> Result<(), Unloaded>
        requires { number < directory_sectors_of self.old.layout.size }
        ensures kept { IfOk result (λ u. load_entries (is_living living.entry.next living.entry.heads.now) (7 * number) (sector_entries generation.0 sector.now) (the_kept self.old) ≡ Some (the_kept self.new)) }
        ensures broken { IfErr result (λ e. e ≡ Broken → load_entries (is_living living.entry.next living.entry.heads.now) (7 * number) (sector_entries generation.0 sector.now) (the_kept self.old) ≡ None) }
        ensures means { LoadMeans }
        ensures same { LoadSame }
        ensures sectors { LoadsSectors }
        ensures range { StaysInRange }
        ensures stays { StaysOnDevice }
        ensures layout { self.new.layout ≡ self.old.layout }
    {
        if Generation::of(sector) == generation {
            self.load_present(heap, number, sector, living)
        } else {
            Ok(())
        }
    }

    // No stamp that is given up is above the floor.
    pub fn raise_floor(&mut self, floor: Stamp)
        ensures kept { the_kept self.new ≡ raised floor.0 (the_kept self.old) }
        ensures layout { self.new.layout ≡ self.old.layout }
    {
        self.floor = Stamp(self.floor.0.max(floor.0));
    }

    // How a sector of the directory is to be.
    pub fn directory_sector(&self, number: u64, generation: Generation) -> [u8; SECTOR_BYTES]
        requires { number < directory_sectors_of self.now.layout.size }
        ensures { result ≡ sector_bytes generation.0 number (the_kept self.now) }
    {
        let first = (SECTOR_ENTRIES * number) as usize;
        let mut sector = BLANK_SECTOR;
        sector[0..8].copy_from_slice(&generation.0.to_be_bytes());
        for i in 0..SECTOR_ENTRIES as usize {
            let start = ENTRIES_START + ENTRY_BYTES * i;
            self.entries[first + i].fill(&mut sector[start..start + ENTRY_BYTES]);
        }
        sector
    }
}

// Takes a place that wasn't taken.
#[tactic(auto, unfolding(crate::specs::Loads::take_all))]
fn take_one(taken: &mut [bool], place: u64) -> Result<(), Unloaded>
    ensures ok { IfOk result (λ u. take_new place taken.old ≡ Some taken.new) }
    ensures err { OnErr result (take_new place taken.old ≡ None) }
{
    if place == 0 {
        return Ok(());
    }
    if place >= taken.len() as u64 || taken[place as usize] {
        return Err(Unloaded::Broken);
    }
    taken[place as usize] = true;
    Ok(())
}

fn take_places(taken: &mut [bool], places: &[u64]) -> Result<(), Unloaded>
    ensures ok { IfOk result (λ u. take_all places.now taken.old ≡ Some taken.new) }
    ensures err { OnErr result (take_all places.now taken.old ≡ None) }
{
    for place in places {
        take_one(taken, *place)?;
    }
    Ok(())
}
