// What places of data hold, as far as an event has read them or is to write them.
ghost use Rattle.std.specs.Prelude.{◌≡◌, ◌∷◌, [], ◌++◌, Some, IfOk, OnOk, position};
ghost use Rattle.disks.specs.Device.{zeros};
ghost use Rattle.pieces.specs.Meaning.{stored_at};
ghost use Rattle.pieces.specs.Replacing.{overlaid};
ghost use Rattle.store.specs.Known.{is_at, written_at, bytes_at, put_at, noted, the_data};

use octets::{BLANK_SECTOR, SECTOR_BYTES};
use pieces::filled::Written;
use std::alloc::{AllocError, Global};

// What is to be written counts before what was read.
#[derive(Drop)]
pub struct Known {
    read: Vec<Written>,
    written: Vec<Written>,
}

fn find(all: &[Written], place: u64) -> Option<usize>
    ensures { result ≡ position (is_at place) all.now }
{
    all.iter().position(|one| one.place == place)
}

fn bytes_at(all: &[Written], place: u64, other: [u8; SECTOR_BYTES]) -> [u8; SECTOR_BYTES]
    ensures { result ≡ bytes_at all.now place other }
{
    match find(all, place) {
        Some(i) => all[i].bytes,
        None => other,
    }
}

// A place holds this, in the stead of what it was to hold.
fn put_at(all: &mut Vec<Written>, place: u64, bytes: [u8; SECTOR_BYTES]) -> Result<(), AllocError>
    ensures { OnOk result (all.new.items ≡ put_at place bytes all.old.items) }
{
    match find(all, place) {
        Some(i) => all[i].bytes = bytes,
        None => all.push(Written { place, bytes })?,
    }
    Ok(())
}

#[tactic(auto, unfolding(disks::specs::Device::zeros))]
fn blank() -> [u8; SECTOR_BYTES]
    ensures { result ≡ zeros 512 }
{
    BLANK_SECTOR
}

impl Known {
    pub fn new(heap: Global) -> Known
        ensures read { result.read.items ≡ [] }
        ensures written { result.written.items ≡ [] }
    {
        Known {
            read: Vec::new(heap),
            written: Vec::new(heap),
        }
    }

    // What a place holds; zeros where nothing is known of it.
    pub fn get(&self, place: u64) -> [u8; SECTOR_BYTES]
        ensures { result ≡ the_data self.now place }
    {
        let read = bytes_at(&self.read, place, blank());
        bytes_at(&self.written, place, read)
    }

    // This was read.
    pub fn note(&mut self, place: u64, bytes: [u8; SECTOR_BYTES]) -> Result<(), AllocError>
        ensures read { OnOk result (self.new.read.items ≡ self.old.read.items ++ written_at place bytes ∷ []) }
        ensures written { self.new.written ≡ self.old.written }
    {
        self.read.push(Written { place, bytes })?;
        Ok(())
    }

    pub fn note_all(
        &mut self,
        places: &[u64],
        sectors: &[[u8; SECTOR_BYTES]],
    ) -> Result<(), AllocError>
        ensures read { OnOk result (self.new.read.items ≡ self.old.read.items ++ noted places.now sectors.now) }
        ensures written { self.new.written ≡ self.old.written }
    {
        for i in 0..places.len().min(sectors.len()) {
            self.note(places[i], sectors[i])?;
        }
        Ok(())
    }

    // This is to be written.
    pub fn put(&mut self, place: u64, bytes: [u8; SECTOR_BYTES]) -> Result<(), AllocError>
        ensures read { self.new.read ≡ self.old.read }
        ensures written { OnOk result (self.new.written.items ≡ put_at place bytes self.old.written.items) }
        ensures data { OnOk result (the_data self.new ≡ stored_at (Some place) bytes (the_data self.old)) }
    {
        put_at(&mut self.written, place, bytes)?;
        Ok(())
    }

    // This is, if a place is said.
    pub fn put_some(
        &mut self,
        place: Option<u64>,
        bytes: [u8; SECTOR_BYTES],
    ) -> Result<(), AllocError>
        ensures read { self.new.read ≡ self.old.read }
        ensures data { OnOk result (the_data self.new ≡ stored_at place bytes (the_data self.old)) }
    {
        if let Some(place) = place {
            self.put(place, bytes)?;
        }
        Ok(())
    }

    // So is all of these, one after the other.
    pub fn put_all(&mut self, all: &[Written]) -> Result<(), AllocError>
        ensures read { self.new.read ≡ self.old.read }
        ensures data { OnOk result (the_data self.new ≡ overlaid all.now (the_data self.old)) }
    {
        for one in all {
            self.put(one.place, one.bytes)?;
        }
        Ok(())
    }

    pub fn written(&self) -> &[Written]
        ensures { result.now ≡ self.now.written.items }
    {
        &self.written
    }
}
