// The directory in memory and on a device, beside a plain map of what each sector holds.
ghost use Rattle.std.specs.Prelude.{◌≡◌, IfOk, None};
ghost use Rattle.pieces.specs.Kept.{the_kept, raised, place_of, found};

use anyhow::anyhow;
use octets::{BLANK_SECTOR, SECTOR_BYTES};
use pieces::changed::Key;
use pieces::entry::{Block, Stamp};
use pieces::generation::Generation;
use pieces::layout::{LEAST_SIZE, Layout, SECTOR_ENTRIES};
use pieces::living::Living;
use pieces::pieces::block_of;
use pieces::set::{Unset, Writes};
use pieces::state::Pieces;
use std::alloc::Global;
use std::collections::BTreeMap;
use std::fmt;
use volumes::head::Head;
use wire::number::*;

pub(crate) const WRONG: &str = "the directory isn't what the map is";

#[derive(Clone, Copy, Default)]
pub struct Counts {
    sets: u64,
    pub(crate) forgotten: u64,
    opened: u64,
    begun: u64,
    compared: u64,
}

impl fmt::Display for Counts {
    fn fmt<W: fmt::Write>(&self, f: &mut fmt::Formatter<W>) -> fmt::Result {
        write!(
            f,
            "sectors set {}, volumes forgotten {}, opened {}, begun again {}, sectors compared {}",
            self.sets, self.forgotten, self.opened, self.begun, self.compared
        )
    }
}

pub(crate) fn count(n: &mut u64) {
    *n = n.saturating_add(1);
}

// By volume and sector: the byte that a sector is filled with.
type Model = BTreeMap<(u64, u64), u8>;

#[derive(Drop)]
pub(crate) struct Trial {
    pub(crate) heap: Global,
    pub(crate) pieces: Pieces,
    // what is on the device: the directory's sectors, and by their places what data's sectors are filled with
    directory: Vec<[u8; SECTOR_BYTES]>,
    data: Vec<u8>,
    pub(crate) model: Model,
    // by volume and block: when it last changed
    pub(crate) stamps: BTreeMap<(u64, u64), u64>,
    generation: u64,
    // the next volume's number, and those that live
    pub(crate) next: u64,
    pub(crate) heads: Vec<Head>,
    pub(crate) version: u64,
    pub(crate) floor: Stamp,
    pub(crate) counts: Counts,
}

pub(crate) fn head(volume: u64) -> Head {
    Head {
        number: Volume(volume),
        size: Size(LEAST_SIZE),
        token: Token(0),
        used: 0,
    }
}

fn layout() -> anyhow::Result<Layout>
    ensures { IfOk result (λ l. l.size ≡ 65536) }
{
    Layout::of(LEAST_SIZE).ok_or(anyhow!("no such device"))
}

impl Trial {
    pub(crate) fn new(heap: Global) -> anyhow::Result<Trial>
        ensures { IfOk result (λ t. t.pieces.layout.size ≡ 65536) }
    {
        let layout = layout()?;
        let directory = vec![in heap; BLANK_SECTOR; layout.directory_sectors() as usize]?;
        let data = vec![in heap; 0u8; layout.places() as usize + 1]?;
        Ok(Trial {
            heap,
            pieces: Pieces::new(heap, layout)?,
            directory,
            data,
            model: BTreeMap::new(heap),
            stamps: BTreeMap::new(heap),
            generation: 0,
            next: 1,
            heads: Vec::new(heap),
            version: 0,
            floor: Stamp(0),
            counts: Counts::default(),
        })
    }

    // A sector of data goes to the device.
    pub(crate) fn write_data(&mut self, place: u64, byte: u8) -> anyhow::Result<()>
        ensures { self.new.pieces ≡ self.old.pieces }
    {
        let at = self.data.get_mut(place as usize).ok_or(anyhow!("{WRONG}"))?;
        *at = byte;
        Ok(())
    }

    // So does the sector of the directory that has this entry.
    pub(crate) fn write_entry(&mut self, entry: usize) -> anyhow::Result<()>
        ensures { self.new.pieces ≡ self.old.pieces }
    {
        let number = entry as u64 / SECTOR_ENTRIES;
        if number >= self.pieces.layout().directory_sectors() {
            return Err(anyhow!("{WRONG}"));
        }
        let rendered = self
            .pieces
            .directory_sector(number, Generation(self.generation));
        let at = self
            .directory
            .get_mut(number as usize)
            .ok_or(anyhow!("{WRONG}"))?;
        *at = rendered;
        Ok(())
    }

    // What is to be written for a sector goes to the device.
    fn write(&mut self, writes: Writes, byte: u8) -> anyhow::Result<()> {
        if let Some(place) = writes.place {
            self.write_data(place, byte)?;
        }
        if let Some(entry) = writes.entry {
            self.write_entry(entry)?;
        }
        if writes.floor {
            self.floor = self.pieces.floor();
        }
        Ok(())
    }

    // A sector is filled with a byte. None if there is no room.
    pub(crate) fn set(&mut self, at: Address, byte: u8) -> anyhow::Result<bool> {
        self.version = self.version.saturating_add(1);
        let sector = [byte; SECTOR_BYTES];
        let heap = self.heap;
        match self.pieces.set(heap, at, &sector, Stamp(self.version)) {
            Ok(writes) => {
                self.write(writes, byte)?;
                self.model.insert((at.volume.0, at.sector.0), byte)?;
                self.stamps
                    .insert((at.volume.0, block_of(at.sector).0), self.version)?;
                count(&mut self.counts.sets);
                Ok(true)
            }
            Err(Unset::NoRoom) => Ok(false),
            Err(Unset::NoMemory) => Err(anyhow!("no memory")),
        }
    }

    // What a sector is filled with, as it is read.
    pub(crate) fn read(&self, at: Address) -> anyhow::Result<u8>
        ensures { found (place_of at.volume.0 at.sector.0 (the_kept self.now.pieces)) ≡ None → IfOk result (λ b. b ≡ 0) }
    {
        match self.pieces.find(at) {
            Some(place) => self
                .data
                .get(place as usize)
                .copied()
                .ok_or(anyhow!("{WRONG}")),
            None => Ok(0),
        }
    }

    pub(crate) fn shows(&mut self, at: Address) -> anyhow::Result<()> {
        let found = self.read(at)?;
        let wanted = self
            .model
            .get(&(at.volume.0, at.sector.0))
            .copied()
            .unwrap_or(0);
        count(&mut self.counts.compared);
        if found == wanted {
            Ok(())
        } else {
            Err(anyhow!("{WRONG}"))
        }
    }

    // All blocks of zeros that changed up to now may be missing.
    pub(crate) fn raise_floor(&mut self)
        ensures kept { the_kept self.new.pieces ≡ raised self.old.version (the_kept self.old.pieces) }
    {
        self.pieces.raise_floor(Stamp(self.version));
        self.floor = self.pieces.floor();
    }

    // It is loaded from the device.
    pub(crate) fn open(&mut self) -> anyhow::Result<()> {
        let heap = self.heap;
        let mut pieces = Pieces::new(heap, layout()?)?;
        pieces.raise_floor(self.floor);
        let living = Living {
            next: self.next,
            heads: self.heads.as_slice(),
        };
        for number in 0..pieces.layout().directory_sectors() {
            let sector = self
                .directory
                .get(number as usize)
                .ok_or(anyhow!("{WRONG}"))?;
            if number < pieces.layout().directory_sectors()
                && pieces
                    .load_sector(heap, number, sector, Generation(self.generation), living)
                    .is_err()
            {
                return Err(anyhow!("what was written isn't loaded"));
            }
        }
        self.pieces = pieces;
        count(&mut self.counts.opened);
        Ok(())
    }

    // All begins again from nothing, under the next generation; nothing is written.
    pub(crate) fn begin_again(&mut self) -> anyhow::Result<()> {
        self.generation = self.generation.saturating_add(1);
        self.pieces = Pieces::new(self.heap, layout()?)?;
        self.model = BTreeMap::new(self.heap);
        self.stamps = BTreeMap::new(self.heap);
        self.floor = Stamp(0);
        count(&mut self.counts.begun);
        self.open()
    }
}
