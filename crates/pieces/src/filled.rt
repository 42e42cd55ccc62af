// Blocks as another copy has them, and what is to be written when they are taken over.
ghost use Rattle.std.specs.Prelude.{◌≡◌, ◌<◌, ◌^◌, vec_len};

use crate::entry::{Block, Stamp};
use octets::SECTOR_BYTES;
use wire::number::*;

// A block, when it last changed, and its eight sectors. Sectors of a volume are below 2^40.
#[derive(Drop)]
pub struct Filled {
    pub volume: Volume,
    pub block: Block,
    pub stamp: Stamp,
    pub sectors: Vec<[u8; SECTOR_BYTES]>,
    ghost small: { block.0 < 2 ^ 37 },
    ghost eight: { vec_len sectors ≡ 8 },
}

// Bytes of a sector, for a place.
#[derive(Clone, Copy)]
pub struct Written {
    pub place: u64,
    pub bytes: [u8; SECTOR_BYTES],
}

// What is to be written for a range: sectors of the directory that these entries are in, and data in this order.
#[derive(Drop)]
pub struct Replaced {
    pub entries: Vec<usize>,
    pub sectors: Vec<Written>,
}
