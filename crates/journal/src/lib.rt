// The journal's format: how a transaction is written down before it is done, so that it is done whole or not at all.
// A record is spread over sectors that each carry its number, so that it is complete exactly when all of them do.
#![tactic(auto)]

pub mod part;
pub mod scan;
pub mod state;

// What each sector of the journal begins with: "kindovas".
pub const MARK: u64 = 0x6b69_6e64_6f76_6173;

// The most sectors that one transaction writes. A command's 392 calls, eight of each of 49 houses, change at most 392 data sectors, 392
// directory sectors, the heads (257), the replies kept for 49 houses at ten sectors each (490) and a copy's own state (3): 1,534.
pub const MOST_WRITES: usize = 1600;

// A slot of the journal holds one record: two sectors for each write.
pub const SLOT_SECTORS: u64 = 3200;

// The first sector behind the two slots; from there on all is guarded by the journal. On the smallest device, of 65,536 sectors, 59,136 are
// left, and a house needs 37,459 of them: twice the room for data (31,744), the directory (4,535) and its tables (1,180).
pub const GUARDED: u64 = 6400;

// Numbers of records stay below this.
pub const NUMBERS_END: u64 = 1 << 62;

// A sector of a house's device, from 0.
#[derive(Clone, Copy, PartialEq, Eq)]
pub struct Place(pub u64);
