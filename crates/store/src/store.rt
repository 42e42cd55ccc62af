// Heads and directory of a house, with what an event has read of its data and is to write.
ghost use Rattle.std.specs.Prelude.{◌≡◌, ◌++◌, map, IfOk, OnOk, MatchResult};
ghost use Rattle.store.specs.declared.store.Unserved.TheVariants as unserved;
ghost use Rattle.pieces.specs.declared.set.Unset.TheVariants as unset;
ghost use Rattle.pieces.specs.Replaces.{sets_held};
ghost use Rattle.pieces.specs.Replacing.{with_entry};
ghost use Rattle.volumes.specs.Service.{the_service};
ghost use Rattle.packets.specs.Seen.{see_rest};
ghost use Rattle.pieces.specs.Kept.{the_kept};
ghost use Rattle.pieces.specs.Layouts.{data_place};
ghost use Rattle.store.specs.Known.{noted};
ghost use Rattle.store.specs.Stores.{the_held, the_stored, sector_of, DoesHeld, no_place, SameBut, Clear, unknown, DoesReplace, Wipes, IsPlace};

use crate::known::Known;
use copies::number::Version;
use journal::Place;
use octets::{BLANK_SECTOR, SECTOR_BYTES};
use packets::rest::Rest;
use pieces::entry::Stamp;
use pieces::generation::Generation;
use pieces::set::Unset;
use pieces::state::Pieces;
use std::alloc::{AllocError, AllocFailed, Global};
use volumes::volumes::Volumes;
use wire::number::*;

// Why something isn't done: the house that is told so comes up anew.
#[derive(Clone, Copy, Debug, PartialEq, Eq)]
pub enum Unserved {
    NoMemory,
    // no place or no entry is left for what is written, which is never so while all weighs no more than the room
    NoRoom,
    // heads that contradict themselves
    Broken,
}

// version: the one at which blocks change; entries: those of the directory that are to be written; rest, directory: whether the heads, or
// generation and floor, are to be written.
#[derive(Drop)]
pub struct Store {
    pub(crate) heap: Global,
    pub(crate) size: u64,
    pub(crate) volumes: Volumes,
    pub(crate) pieces: Pieces,
    pub(crate) generation: Generation,
    pub(crate) version: Version,
    pub(crate) known: Known,
    pub(crate) entries: Vec<usize>,
    pub(crate) rest: bool,
    pub(crate) directory: bool,
}

impl From<AllocError> for Unserved {
    ghost from_gives = { λ e n. n ≡ unserved.NoMemory };

    fn from(_: AllocError) -> Unserved {
        Unserved::NoMemory
    }
}

impl<T: Drop> From<AllocFailed<T>> for Unserved {
    ghost from_gives = { λ e n. n ≡ unserved.NoMemory };

    fn from(_: AllocFailed<T>) -> Unserved {
        Unserved::NoMemory
    }
}

impl From<Unset> for Unserved {
    ghost from_gives = { λ e n. n ≡ no_place e };

    fn from(e: Unset) -> Unserved {
        match e {
            Unset::NoRoom => Unserved::NoRoom,
            Unset::NoMemory => Unserved::NoMemory,
        }
    }
}

fn push_some(entries: &mut Vec<usize>, entry: Option<usize>) -> Result<(), AllocError>
    ensures { OnOk result (entries.new.items ≡ with_entry entry entries.old.items) }
{
    if let Some(entry) = entry {
        entries.push(entry)?;
    }
    Ok(())
}

impl Store {
    // Nothing is known of places, and nothing is to be written.
    pub fn new(
        heap: Global,
        size: u64,
        volumes: Volumes,
        pieces: Pieces,
        generation: Generation,
    ) -> Store
        ensures stored { the_stored result ≡ record { room = volumes.room; version = 0; rest = the_service volumes; held = unknown (the_kept pieces) } }
        ensures clear { Clear result }
        ensures size { result.size ≡ size }
        ensures generation { result.generation ≡ generation }
        ensures layout { result.pieces.layout ≡ pieces.layout }
    {
        Store {
            heap,
            size,
            volumes,
            pieces,
            generation,
            version: Version(0),
            known: Known::new(heap),
            entries: Vec::new(heap),
            rest: false,
            directory: false,
        }
    }

    // A new event: nothing is known and nothing to be written; blocks that change do so at this version.
    pub fn begins(mut self, version: Version) -> Store
        ensures stored { the_stored result ≡ record { room = self.volumes.room; version = version.0; rest = the_service self.volumes; held = unknown (the_kept self.pieces) } }
        ensures clear { Clear result }
        ensures size { result.size ≡ self.size }
        ensures generation { result.generation ≡ self.generation }
        ensures layout { result.pieces.layout ≡ self.pieces.layout }
    {
        self.version = version;
        self.known = Known::new(self.heap);
        self.entries = Vec::new(self.heap);
        self.rest = false;
        self.directory = false;
        self
    }

    // What places hold was read.
    pub fn knows(
        &mut self,
        places: &[u64],
        sectors: &[[u8; SECTOR_BYTES]],
    ) -> Result<(), AllocError>
        ensures read { OnOk result (self.new.known.read.items ≡ self.old.known.read.items ++ noted places.now sectors.now) }
        ensures written { self.new.known.written ≡ self.old.known.written }
        ensures pieces { self.new.pieces ≡ self.old.pieces }
        ensures entries { self.new.entries ≡ self.old.entries }
        ensures flags { (self.new.rest ≡ self.old.rest) × (self.new.directory ≡ self.old.directory) }
        ensures same { SameBut self.old self.new }
    {
        self.known.note_all(places, sectors)
    }

    // What a sector of a volume holds.
    #[tactic(auto, using(crate::proofs::Reading::content_none, crate::proofs::Reading::content_some), unfolding(disks::specs::Device::zeros))]
    pub(crate) fn sector(&self, at: Address) -> [u8; SECTOR_BYTES]
        ensures { result ≡ sector_of (the_held self.now) at.volume.0 at.sector.0 }
    {
        match self.pieces.find(at) {
            Some(place) => self.known.get(place),
            None => BLANK_SECTOR,
        }
    }

    // A sector holds this from now on.
    #[tactic(auto, using(crate::proofs::Setting::set_none, crate::proofs::Setting::memory_is_not_room))]
    pub(crate) fn put(&mut self, at: Address, bytes: &[u8; SECTOR_BYTES]) -> Result<(), Unserved>
        ensures held { DoesHeld (sets_held at.volume.0 at.sector.0 bytes.now self.old.version.0) (the_held self.old) result (the_held self.new) }
        ensures same { SameBut self.old self.new }
    {
        let writes = self
            .pieces
            .set(self.heap, at, bytes, Stamp(self.version.0))?;
        self.known.put_some(writes.place, *bytes)?;
        push_some(&mut self.entries, writes.entry)?;
        self.directory = self.directory || writes.floor;
        Ok(())
    }

    // Which volumes may still be asked for.
    pub fn rest(&self, heap: Global) -> Result<Rest, AllocError>
        ensures { IfOk result (λ r. see_rest r ≡ the_service self.now.volumes) }
    {
        let heads = Vec::from_slice(heap, self.volumes.heads())?;
        Ok(Rest {
            next: self.volumes.next(),
            weight: self.volumes.weight(),
            heads,
        })
    }

    // The heads are another copy's from now on.
    pub fn replaces(&mut self, rest: &Rest) -> Result<(), Unserved>
        ensures { DoesReplace (see_rest rest.now) self.old result self.new }
    {
        let restored = Volumes::restored(
            self.heap,
            self.size,
            rest.next,
            rest.weight,
            &rest.heads,
        )?;
        let Some(volumes) = restored else {
            return Err(Unserved::Broken);
        };
        self.pieces.forget_gone(rest.next, &rest.heads);
        self.volumes = volumes;
        self.rest = true;
        Ok(())
    }

    // All blocks are forgotten.
    pub fn wipes(&mut self) -> Result<(), Unserved>
        ensures { OnOk result (Wipes self.old self.new) }
    {
        let blank = Pieces::new(self.heap, self.pieces.layout())?;
        self.pieces = blank;
        let next = self.generation.0.checked_add(1).ok_or(Unserved::Broken)?;
        self.generation = Generation(next);
        self.known = Known::new(self.heap);
        self.entries = Vec::new(self.heap);
        self.directory = true;
        Ok(())
    }

    // Where places of data are on the device.
    pub fn data_places(&self, heap: Global, places: &[u64]) -> Result<Vec<Place>, Unserved>
        ensures { IfOk result (λ v. map (λ p. p.0) v.items ≡ map (data_place self.now.pieces.layout.size) places.now) }
    {
        let mut found = Vec::new(heap);
        for place in places {
            found.push(self.data_place(*place)?)?;
        }
        Ok(found)
    }

    pub(crate) fn data_place(&self, place: u64) -> Result<Place, Unserved>
        ensures { MatchResult result (λ p. IsPlace self.now.pieces.layout.size place × (p.0 ≡ data_place self.now.pieces.layout.size place)) (λ e. IsPlace self.now.pieces.layout.size place → ⊥) }
    {
        let layout = self.pieces.layout();
        if place >= 1 && place <= layout.places() {
            Ok(layout.data_place(place))
        } else {
            Err(Unserved::Broken)
        }
    }
}
