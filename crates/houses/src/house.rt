// A house that has come up.
use copies::number::HouseNumber;
use copies::turn::House as Copy;
use journal::state::Journal;
use packets::fault::{Unread, Unsent};
use packets::identity::Identity;
use packets::text::Text;
use pieces::load::Unloaded;
use std::alloc::{AllocError, AllocFailed};
use store::store::{Store, Unserved};

// copy: what it stores and remembers of the agreement; store: what it keeps of volumes.
#[derive(Drop)]
pub struct House {
    pub(crate) journal: Journal,
    pub(crate) identity: Identity,
    pub(crate) copy: Copy<Text, Text>,
    pub(crate) store: Store,
}

// Which house it is, of how many, on a device of so many sectors.
#[derive(Clone, Copy, PartialEq, Eq)]
pub struct Setup {
    pub me: HouseNumber,
    pub houses: u64,
    pub size: u64,
}

// Why a house doesn't come up, or doesn't go on: it is dropped then, and comes up anew from its device.
#[derive(Clone, Copy, Debug, PartialEq, Eq)]
pub enum Stopped {
    NoMemory,
    // no device has this size
    Size,
    // the device has something else's records or tables
    Foreign,
    // the device is another house's, or of another number of houses, or of another size
    Other,
    // what is stored contradicts itself
    Broken,
}

impl From<AllocError> for Stopped {
    fn from(_: AllocError) -> Stopped {
        Stopped::NoMemory
    }
}

impl<T: Drop> From<AllocFailed<T>> for Stopped {
    fn from(_: AllocFailed<T>) -> Stopped {
        Stopped::NoMemory
    }
}

impl From<Unread> for Stopped {
    fn from(e: Unread) -> Stopped {
        match e {
            Unread::Memory => Stopped::NoMemory,
            Unread::Fault(_) => Stopped::Broken,
        }
    }
}

impl From<Unsent> for Stopped {
    fn from(e: Unsent) -> Stopped {
        match e {
            Unsent::Memory => Stopped::NoMemory,
            Unsent::TooMuch => Stopped::Broken,
        }
    }
}

impl From<Unserved> for Stopped {
    fn from(e: Unserved) -> Stopped {
        match e {
            Unserved::NoMemory => Stopped::NoMemory,
            Unserved::NoRoom | Unserved::Broken => Stopped::Broken,
        }
    }
}

impl From<Unloaded> for Stopped {
    fn from(e: Unloaded) -> Stopped {
        match e {
            Unloaded::NoMemory => Stopped::NoMemory,
            Unloaded::Broken => Stopped::Broken,
        }
    }
}
