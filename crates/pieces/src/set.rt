// What becomes of the directory when a sector is written.
ghost use Rattle.std.specs.Prelude.{◌≡◌, ◌<◌, length, Some, None, true, false, OnOk, OnErr};
ghost use Rattle.disks.specs.Disks.{all_zero};
ghost use Rattle.pieces.specs.declared.set.Unset.TheVariants.{NoMemory};
ghost use Rattle.pieces.specs.Meaning.{SetMeans, AlwaysRoom, ZerosNeedNone};
ghost use Rattle.pieces.specs.Kept.{the_kept, index_of, floor_after, claims_entry, WasClaimed, place_for, sets, was_set, DoesSet};

use crate::entry::{BLOCK_SECTORS, Block, Entry, Stamp};
use crate::pieces::{block_of, slot_of};
use crate::state::Pieces;
use octets::SECTOR_BYTES;
use std::alloc::{AllocError, Global};
use volumes::weigh::is_blank;
use wire::number::*;

// What is to be written on the device: the sector itself to a place, the entry to its sector of the directory, the floor to its.
#[derive(Clone, Copy)]
pub struct Writes {
    pub place: Option<u64>,
    pub entry: Option<usize>,
    pub floor: bool,
}

// Why a sector isn't set.
#[derive(Clone, Copy, Debug, PartialEq, Eq)]
pub enum Unset {
    // no place or no entry is left
    NoRoom,
    // for a piece in the table
    NoMemory,
}

impl From<AllocError> for Unset {
    ghost from_gives = { λ e n. n ≡ NoMemory };

    fn from(_: AllocError) -> Unset {
        Unset::NoMemory
    }
}

// The floor where this entry is given up: no lower than its stamp, if it is a marker.
fn floor_above(floor: Stamp, old: &Entry) -> Stamp
    ensures { result.0 ≡ floor_after floor.0 old.now }
{
    if old.is_free() {
        floor
    } else {
        Stamp(floor.0.max(old.stamp.0))
    }
}

impl Pieces {
    // This entry is a block's from now on, that had none.
    #[tactic(auto, unfolding(crate::specs::Kept::claims_entry))]
    fn take(
        &mut self,
        heap: Global,
        index: usize,
        volume: Volume,
        block: Block,
        stamp: Stamp,
    ) -> Result<(), AllocError>
        requires index { index < length self.old.entries.items }
        requires fresh { index_of volume.0 block.0 self.old.entries.items ≡ None }
        ensures kept { OnOk result (the_kept self.new ≡ claims_entry volume.0 block.0 stamp.0 index (the_kept self.old)) }
        ensures same { OnErr result (the_kept self.new ≡ the_kept self.old) }
        ensures layout { self.new.layout ≡ self.old.layout }
    {
        let floor = floor_above(self.floor, &self.entries[index]);
        let entry = Entry {
            volume,
            block,
            stamp,
            places: [0; BLOCK_SECTORS],
        };
        self.place_entry(heap, index, entry)?;
        self.floor = floor;
        Ok(())
    }

    // The entry of a block, which is made if it has none.
    #[tactic(auto, using(crate::proofs::Places::in_range), unfolding(crate::specs::Kept::claims))]
    fn claim(
        &mut self,
        heap: Global,
        volume: Volume,
        block: Block,
        stamp: Stamp,
    ) -> Result<Option<usize>, AllocError>
        ensures kept { WasClaimed volume.0 block.0 stamp.0 (the_kept self.old) result (the_kept self.new) }
        ensures layout { self.new.layout ≡ self.old.layout }
    {
        if let Some(index) = self.index_of(volume, block) {
            return Ok(Some(index));
        }
        let Some(index) = self.vacant() else {
            return Ok(None);
        };
        self.take(heap, index, volume, block, stamp)?;
        Ok(Some(index))
    }

    // A sector is zeros from now on: there is always room for that.
    #[tactic(auto, unfolding(crate::specs::Kept::sets))]
    fn set_blank(&mut self, heap: Global, at: Address, stamp: Stamp) -> Result<Writes, Unset>
        ensures kept { DoesSet at.volume.0 at.sector.0 true stamp.0 (the_kept self.old) result (the_kept self.new) }
        ensures layout { self.new.layout ≡ self.old.layout }
    {
        let floor = self.floor;
        match self.claim(heap, at.volume, block_of(at.sector), stamp) {
            Ok(Some(index)) => {
                self.free_place(index, slot_of(at.sector), stamp);
                Ok(Writes {
                    place: None,
                    entry: Some(index),
                    floor: self.floor != floor,
                })
            }
            Ok(None) => {
                self.floor = Stamp(floor.0.max(stamp.0));
                Ok(Writes {
                    place: None,
                    entry: None,
                    floor: self.floor != floor,
                })
            }
            Err(_) => Err(Unset::NoMemory),
        }
    }

    // The place that a sector has, or one that is free.
    fn place_for(&mut self, at: Address) -> Option<u64>
        ensures place { result ≡ place_for at.volume.0 at.sector.0 (the_kept self.old) }
        ensures kept { the_kept self.new ≡ the_kept self.old }
        ensures layout { self.new.layout ≡ self.old.layout }
    {
        match self.find(at) {
            Some(place) => Some(place),
            None => match self.untaken() {
                Some(place) => Some(place as u64),
                None => None,
            },
        }
    }

    // A sector has bytes from now on.
    #[tactic(auto, unfolding(crate::specs::Kept::sets))]
    fn set_bytes(&mut self, heap: Global, at: Address, stamp: Stamp) -> Result<Writes, Unset>
        ensures kept { DoesSet at.volume.0 at.sector.0 false stamp.0 (the_kept self.old) result (the_kept self.new) }
        ensures layout { self.new.layout ≡ self.old.layout }
    {
        let floor = self.floor;
        let Some(place) = self.place_for(at) else {
            return Err(Unset::NoRoom);
        };
        match self.claim(heap, at.volume, block_of(at.sector), stamp) {
            Ok(Some(index)) => {
                self.put_place(index, slot_of(at.sector), place, stamp);
                Ok(Writes {
                    place: Some(place),
                    entry: Some(index),
                    floor: self.floor != floor,
                })
            }
            Ok(None) => Err(Unset::NoRoom),
            Err(_) => Err(Unset::NoMemory),
        }
    }

    // A sector holds this from now on, by a change of that version: what is to be written for it. Where there is no room nothing changes.
    #[tactic(auto, using(crate::proofs::Always::zeros_need_none))]
    pub fn set(
        &mut self,
        heap: Global,
        at: Address,
        sector: &[u8; SECTOR_BYTES],
        stamp: Stamp,
    ) -> Result<Writes, Unset>
        ensures kept { DoesSet at.volume.0 at.sector.0 (all_zero sector.now) stamp.0 (the_kept self.old) result (the_kept self.new) }
        ensures layout { self.new.layout ≡ self.old.layout }
        ensures means { SetMeans }
        ensures room { AlwaysRoom }
        ensures zeros { ZerosNeedNone }
    {
        if is_blank(sector) {
            self.set_blank(heap, at, stamp)
        } else {
            self.set_bytes(heap, at, stamp)
        }
    }
}
