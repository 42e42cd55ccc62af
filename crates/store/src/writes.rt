// What an event leaves to be written of blocks and heads.
ghost use Rattle.std.specs.Prelude.{◌≡◌, ◌++◌, ◌+◌, ◌<◌, ◌^◌, length, map, OnOk};
ghost use Rattle.packets.specs.Areas.{to_sectors};
ghost use Rattle.pieces.specs.Kept.{the_kept};
ghost use Rattle.store.specs.Writes.{has_target, data_write, with_sector_of, with_sectors_of, table_from, with_table, heads_written, floor_written, all_written};

use crate::store::{Store, Unserved};
use journal::Place;
use journal::state::Write;
use octets::SECTOR_BYTES;
use packets::area::Area;
use packets::areas::{KEPT, REST};
use packets::bytes::Bytes;
use packets::directory::Directory;
use packets::fault::Unsent;
use packets::lay::to_sectors;
use packets::whole::encode;
use pieces::layout::SECTOR_ENTRIES;
use std::alloc::{AllocError, Global};

impl From<Unsent> for Unserved {
    fn from(e: Unsent) -> Unserved {
        match e {
            Unsent::Memory => Unserved::NoMemory,
            Unsent::TooMuch => Unserved::Broken,
        }
    }
}

fn put_sectors(
    first: u64,
    sectors: &[[u8; SECTOR_BYTES]],
    out: &mut Vec<Write>,
) -> Result<(), AllocError>
    requires { first + length sectors.now < 2 ^ 64 }
    ensures { OnOk result (out.new.items ≡ out.old.items ++ table_from first sectors.now) }
{
    for i in 0..sectors.len() {
        out.push(Write {
            target: Place(first + i as u64),
            bytes: sectors[i],
        })?;
    }
    Ok(())
}

// A table's value, on the sectors of its area.
pub fn put_table<T: Bytes>(
    heap: Global,
    value: &T,
    area: Area,
    out: &mut Vec<Write>,
) -> Result<(), Unserved>
    ensures { OnOk result (out.new.items ≡ with_table area (T.codec.bytes (T.view value.now)) out.old.items) }
{
    let bytes = encode(value, heap)?;
    let sectors = to_sectors(&bytes, heap)?;
    let count = sectors.len() as u64;
    if count > area.count || area.first > u64::MAX - count - 1 {
        return Err(Unserved::Broken);
    }
    put_sectors(area.first, &sectors, out)?;
    Ok(())
}

impl Store {
    fn put_data(&self, out: &mut Vec<Write>) -> Result<(), Unserved>
        ensures { OnOk result (out.new.items ≡ out.old.items ++ map (data_write self.now.pieces.layout.size) self.now.known.written.items) }
    {
        for written in self.known.written() {
            let target = self.data_place(written.place)?;
            out.push(Write {
                target,
                bytes: written.bytes,
            })?;
        }
        Ok(())
    }

    fn put_entry(&self, entry: usize, out: &mut Vec<Write>) -> Result<(), Unserved>
        ensures { OnOk result (out.new.items ≡ with_sector_of self.now.generation.0 (the_kept self.now.pieces) entry out.old.items) }
    {
        let layout = self.pieces.layout();
        if entry as u64 >= layout.entries() {
            return Err(Unserved::Broken);
        }
        let target = layout.directory_place(entry as u64);
        if !has_target(out, target) {
            let number = entry as u64 / SECTOR_ENTRIES;
            let bytes = self.pieces.directory_sector(number, self.generation);
            out.push(Write { target, bytes })?;
        }
        Ok(())
    }

    fn put_entries(&self, out: &mut Vec<Write>) -> Result<(), Unserved>
        ensures { OnOk result (out.new.items ≡ with_sectors_of self.now.generation.0 (the_kept self.now.pieces) self.now.entries.items out.old.items) }
    {
        for entry in &self.entries {
            self.put_entry(*entry, out)?;
        }
        Ok(())
    }

    fn put_heads(&self, heap: Global, out: &mut Vec<Write>) -> Result<(), Unserved>
        ensures { OnOk result (out.new.items ≡ heads_written self.now out.old.items) }
    {
        if self.rest {
            put_table(heap, &self.rest(heap)?, REST, out)?;
        }
        Ok(())
    }

    fn put_floor(&self, heap: Global, out: &mut Vec<Write>) -> Result<(), Unserved>
        ensures { OnOk result (out.new.items ≡ floor_written self.now out.old.items) }
    {
        if self.directory {
            let directory = Directory {
                generation: self.generation.0,
                floor: self.pieces.floor().0,
            };
            put_table(heap, &directory, KEPT, out)?;
        }
        Ok(())
    }

    // All that is to be written. Of the directory no sector is listed twice, nor of the data.
    pub fn writes(&self, heap: Global, out: &mut Vec<Write>) -> Result<(), Unserved>
        ensures { OnOk result (out.new.items ≡ all_written self.now out.old.items) }
    {
        self.put_data(out)?;
        self.put_entries(out)?;
        self.put_heads(heap, out)?;
        self.put_floor(heap, out)?;
        Ok(())
    }
}

fn has_target(writes: &[Write], target: Place) -> bool
    ensures { result ≡ has_target target.0 writes.now }
{
    writes.iter().any(|write| write.target == target)
}
