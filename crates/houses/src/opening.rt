// A house comes up from its device.
use crate::house::{House, Setup, Stopped};
use crate::reading::{read_range, stops};
use crate::tables::{COUNT, FIRST, Tables};
use copies::memory::Memory;
use copies::turn::House as Copy;
use device::disk::{Disk, Failed};
use device::open as open_journal;
use device::put::put;
use journal::state::{Journal, Write};
use octets::SECTOR_BYTES;
use packets::areas::IDENTITY;
use packets::identity::Identity;
use pieces::entry::Stamp;
use pieces::generation::Generation;
use pieces::layout::{FIXED_SECTORS, Layout};
use pieces::living::Living;
use pieces::state::Pieces;
use std::alloc::Global;
use store::store::Store;
use store::writes::put_table;

// The directory, from its sectors.
fn load(
    heap: Global,
    layout: Layout,
    floor: Stamp,
    generation: Generation,
    living: Living<'_>,
    sectors: &[[u8; SECTOR_BYTES]],
) -> Result<Pieces, Stopped> {
    let mut pieces = Pieces::new(heap, layout)?;
    pieces.raise_floor(floor);
    for (number, sector) in sectors.iter().enumerate() {
        if (number as u64) < pieces.layout().directory_sectors() {
            pieces.load_sector(heap, number as u64, sector, generation, living)?;
        }
    }
    Ok(pieces)
}

// A house as its tables and its directory say, one incarnation on.
fn raised(
    heap: Global,
    setup: Setup,
    journal: Journal,
    layout: Layout,
    tables: &[[u8; SECTOR_BYTES]],
    directory: &[[u8; SECTOR_BYTES]],
) -> Result<House, Stopped> {
    let tables = Tables {
        heap,
        sectors: tables,
    };
    let found = tables.identity(setup)?;
    let incarnation = found.incarnation.checked_add(1).ok_or(Stopped::Broken)?;
    let identity = Identity {
        incarnation,
        ..found
    };
    let copy = Copy {
        agreeing: tables.agreeing()?,
        sessions: tables.sessions()?,
        memory: Memory::new(heap, setup.me, incarnation),
    };
    let volumes = tables.volumes(setup.size)?;
    let kept = tables.directory()?;
    let generation = Generation(kept.generation);
    let living = Living {
        next: volumes.next(),
        heads: volumes.heads(),
    };
    let pieces = load(
        heap,
        layout,
        Stamp(kept.floor),
        generation,
        living,
        directory,
    )?;
    Ok(House {
        journal,
        identity,
        copy,
        store: Store::new(heap, setup.size, volumes, pieces, generation),
    })
}

// That it has come up once more is stored before anything is sent.
pub fn open<D: Disk>(disk: &mut D, heap: Global, setup: Setup) -> Result<House, Failed<Stopped>> {
    let Some(layout) = Layout::of(setup.size) else {
        return Err(Failed::Refused(Stopped::Size));
    };
    let journal = match open_journal::open(disk, setup.size) {
        Ok(journal) => journal,
        Err(Failed::Disk(fault)) => return Err(Failed::Disk(fault)),
        Err(Failed::Refused(_)) => return Err(Failed::Refused(Stopped::Foreign)),
    };
    let tables = read_range(disk, heap, FIRST, COUNT)?;
    let directory = read_range(disk, heap, FIXED_SECTORS, layout.directory_sectors())?;
    match raised(heap, setup, journal, layout, &tables, &directory) {
        Ok(house) => house.stores_identity(disk, heap),
        Err(stopped) => Err(stops(disk, stopped)),
    }
}

impl House {
    fn stores_identity<D: Disk>(
        mut self,
        disk: &mut D,
        heap: Global,
    ) -> Result<House, Failed<Stopped>> {
        let mut writes: Vec<Write> = Vec::new(heap);
        match put_table(heap, &self.identity, IDENTITY, &mut writes) {
            Ok(()) => {}
            Err(unserved) => return Err(stops(disk, Stopped::from(unserved))),
        }
        match put(&mut self.journal, disk, &writes) {
            Ok(()) => Ok(self),
            Err(Failed::Disk(fault)) => Err(Failed::Disk(fault)),
            Err(Failed::Refused(_)) => Err(Failed::Refused(Stopped::Broken)),
        }
    }
}
