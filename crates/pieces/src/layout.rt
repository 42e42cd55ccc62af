// How a device is divided: journal and tables, the directory, sectors for data.
ghost use Rattle.std.specs.Prelude.{◌≡◌, ◌≤◌, ◌<◌, ◌^◌, MatchOption, IsTrue, not};
ghost use Rattle.pieces.specs.Layouts.{is_size, places_of, directory_sectors_of, entries_of, directory_place, data_place, FitsDevices};

use journal::Place;

// A device's least and largest size, in sectors.
pub const LEAST_SIZE: u64 = 65_536;

pub const MOST_SIZE: u64 = 1 << 40;

// Journal and tables: the journal's two slots have 6,400 sectors, and a house's tables the next 1,200 or so; the rest is for tables to come,
// such as those of pictures.
pub const FIXED_SECTORS: u64 = 16_384;

// How many entries a sector of the directory has, behind its generation.
pub const SECTOR_ENTRIES: u64 = 7;

// Of a device, what isn't room for volumes, and into how many shares the rest is divided: a share is what may be held, and data has two,
// since a copy that catches up has sectors of the old state and of the new side by side.
// On the least device: fixed 16,384, data 2 x 15,872 = 31,744, directory 31,744 / 7 = 4,535, together 52,663 of 65,536.
const KEPT_BACK: u64 = 2048;

const SHARES: u64 = 4;

// A device's division, by its size.
#[derive(Clone, Copy)]
pub struct Layout {
    size: u64,
    ghost least: { 65536 ≤ size },
    ghost most: { size ≤ 2 ^ 40 },
}

impl Layout {
    // None if a device can't have this size. Directory and data fit every device that it can be, with as many entries as places.
    pub fn of(size: u64) -> Option<Layout>
        ensures fits { FitsDevices }
        ensures size { MatchOption result (IsTrue (not (is_size size))) (λ l. IsTrue (is_size size) × (l.size ≡ size)) }
    {
        if (LEAST_SIZE..=MOST_SIZE).contains(&size) {
            Some(Layout { size })
        } else {
            None
        }
    }

    // How many sectors there are for data. Their places are the numbers from 1 to this.
    pub fn places(self) -> u64
        ensures { result ≡ places_of self.size }
    {
        2 * ((self.size - KEPT_BACK) / SHARES)
    }

    // How many sectors the directory has: an entry for each place.
    pub fn directory_sectors(self) -> u64
        ensures { result ≡ directory_sectors_of self.size }
    {
        self.places().div_ceil(SECTOR_ENTRIES)
    }

    // How many entries the directory has.
    pub fn entries(self) -> u64
        ensures { result ≡ entries_of self.size }
    {
        SECTOR_ENTRIES * self.directory_sectors()
    }

    // The sector of the directory that has this entry.
    pub fn directory_place(self, entry: u64) -> Place
        requires { entry < entries_of self.size }
        ensures { result.0 ≡ directory_place entry }
    {
        Place(FIXED_SECTORS + entry / SECTOR_ENTRIES)
    }

    // The sector of data that has this place.
    pub fn data_place(self, place: u64) -> Place
        requires low { 1 ≤ place }
        requires high { place ≤ places_of self.size }
        ensures { result.0 ≡ data_place self.size place }
    {
        Place(FIXED_SECTORS + self.directory_sectors() + (place - 1))
    }
}
