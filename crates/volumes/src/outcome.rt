// What a call comes to: an answer, and what becomes of sectors, if any change.
use octets::SECTOR_BYTES;
use wire::answer::Answer;
use wire::number::*;

// What becomes of sectors.
#[derive(Clone, Copy)]
pub enum Change<'a> {
    Put(Address, &'a [u8; SECTOR_BYTES]),
    // the volume is gone, and all its sectors
    Forget(Volume),
}

#[derive(Clone, Copy)]
pub struct Outcome<'a> {
    pub answer: Answer<'a>,
    pub change: Option<Change<'a>>,
}
