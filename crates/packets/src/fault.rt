// Why bytes are not read, and why something has no bytes.
ghost use Rattle.std.specs.Prelude.{◌≡◌};
ghost use Rattle.packets.specs.declared.fault.Unread.TheVariants as unread;
ghost use Rattle.packets.specs.declared.fault.Unsent.TheVariants as unsent;

use std::alloc::{AllocError, AllocFailed};

// What is wrong with bytes: the first fault from left to right.
#[derive(Clone, Copy, Debug, PartialEq, Eq)]
pub enum Fault {
    // a byte is missing
    Short,
    // bytes are left over
    Left,
    // a count, a length, a kind or a flag is none that there is, or a sector that is said to hold something is blank
    Range,
}

#[derive(Clone, Copy, Debug, PartialEq, Eq)]
pub enum Unread {
    Memory,
    Fault(Fault),
}

// Why something can't be sent or stored.
#[derive(Clone, Copy, Debug, PartialEq, Eq)]
pub enum Unsent {
    Memory,
    // there is more of something than a count or a length may say
    TooMuch,
}

impl From<AllocError> for Unread {
    ghost from_gives = { λ _ r. r ≡ unread.Memory };

    fn from(_e: AllocError) -> Unread {
        Unread::Memory
    }
}

impl<T: Drop> From<AllocFailed<T>> for Unread {
    ghost from_gives = { λ _ r. r ≡ unread.Memory };

    fn from(_e: AllocFailed<T>) -> Unread {
        Unread::Memory
    }
}

impl From<AllocError> for Unsent {
    ghost from_gives = { λ _ r. r ≡ unsent.Memory };

    fn from(_e: AllocError) -> Unsent {
        Unsent::Memory
    }
}

impl<T: Drop> From<AllocFailed<T>> for Unsent {
    ghost from_gives = { λ _ r. r ≡ unsent.Memory };

    fn from(_e: AllocFailed<T>) -> Unsent {
        Unsent::Memory
    }
}
