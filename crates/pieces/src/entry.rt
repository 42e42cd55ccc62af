// An entry of the directory: a block of a volume, when it changed, and where its sectors lie.
ghost use Rattle.std.specs.Prelude.{◌≡◌, length, ◌==◌, ◌&&◌};
ghost use Rattle.octets.specs.Numbers.{big};
ghost use Rattle.pieces.specs.Entries.{entry_bytes, entry_of, five_bytes, places_in, free_entry, is_block, is_empty, is_free, EntryReadBack};

use octets::reader;
use wire::number::*;

// How many sectors a block has.
pub const BLOCK_SECTORS: usize = 8;

// How many bytes an entry has: volume, block and stamp at eight, places at five.
pub const ENTRY_BYTES: usize = 64;

// Where its places begin.
const PLACES_START: usize = 24;

// How many bytes a place has.
const PLACE_BYTES: usize = 5;

// How many blocks a volume can have: its sectors are at most 2^40.
pub const VOLUME_BLOCKS: u64 = 1 << 37;

// A block of a volume: its sector's number divided by eight.
#[derive(Clone, Copy, PartialEq, Eq)]
pub struct Block(pub u64);

// The version at which a block last changed.
#[derive(Clone, Copy, PartialEq, Eq, PartialOrd, Ord)]
pub struct Stamp(pub u64);

// Volume 0, which no volume has, is for an entry that isn't used. A place of 0 is for a sector of zeros.
#[derive(Clone, Copy)]
pub struct Entry {
    pub volume: Volume,
    pub block: Block,
    pub stamp: Stamp,
    pub places: [u64; BLOCK_SECTORS],
}

// The last five bytes of a place.
fn put_five(place: u64, out: &mut [u8])
    requires { length out.old ≡ 5 }
    ensures { out.new ≡ five_bytes place }
{
    out.copy_from_slice(&place.to_be_bytes()[3..8]);
}

// The number that five bytes are.
fn read_five(bytes: &[u8]) -> u64
    requires { length bytes.now ≡ 5 }
    ensures { result ≡ big bytes.now }
{
    let mut eight = [0; 8];
    eight[3..8].copy_from_slice(bytes);
    u64::from_be_bytes(eight)
}

fn read_places(bytes: &[u8]) -> [u64; BLOCK_SECTORS]
    requires { length bytes.now ≡ 40 }
    ensures { result ≡ places_in 8 bytes.now }
{
    let mut places = [0; BLOCK_SECTORS];
    for i in 0..BLOCK_SECTORS {
        let start = PLACE_BYTES * i;
        places[i] = read_five(&bytes[start..start + PLACE_BYTES]);
    }
    places
}

impl Entry {
    // One that isn't used.
    pub fn free() -> Entry
        ensures { result ≡ free_entry }
    {
        Entry {
            volume: Volume(0),
            block: Block(0),
            stamp: Stamp(0),
            places: [0; BLOCK_SECTORS],
        }
    }

    pub fn is_of(&self, volume: Volume, block: Block) -> bool
        ensures { result ≡ is_block volume.0 block.0 self.now }
    {
        self.volume == volume && self.block == block
    }

    // Whether all its sectors are zeros.
    pub fn is_empty(&self) -> bool
        ensures { result ≡ is_empty self.now }
    {
        self.places.iter().all(|place| *place == 0)
    }

    pub fn is_free(&self) -> bool
        ensures { result ≡ is_free self.now }
    {
        self.volume == Volume(0) && self.is_empty()
    }

    // Writes the entry into its part of a sector of the directory.
    pub fn fill(&self, out: &mut [u8])
        requires { length out.old ≡ 64 }
        ensures { out.new ≡ entry_bytes self.now }
    {
        out[0..8].copy_from_slice(&self.volume.0.to_be_bytes());
        out[8..16].copy_from_slice(&self.block.0.to_be_bytes());
        out[16..PLACES_START].copy_from_slice(&self.stamp.0.to_be_bytes());
        for i in 0..BLOCK_SECTORS {
            let start = PLACES_START + PLACE_BYTES * i;
            put_five(self.places[i], &mut out[start..start + PLACE_BYTES]);
        }
    }

    // What such a part says.
    pub fn read(bytes: &[u8]) -> Entry
        requires { length bytes.now ≡ 64 }
        ensures value { result ≡ entry_of bytes.now }
        ensures back { EntryReadBack }
    {
        let (numbers, rest) = reader::numbers::<3>(bytes).unwrap();
        Entry {
            volume: Volume(numbers[0]),
            block: Block(numbers[1]),
            stamp: Stamp(numbers[2]),
            places: read_places(rest),
        }
    }
}
