// Numbers and sectors as bytes, high byte first.
#![tactic(auto)]

pub mod reader;
pub mod writer;

// How many bytes a sector has.
pub const SECTOR_BYTES: usize = 512;

// What a sector holds that nobody wrote to.
pub const BLANK_SECTOR: [u8; SECTOR_BYTES] = [0; SECTOR_BYTES];
