// The houses that have copies.
ghost use Rattle.std.specs.Prelude.{◌≡◌, ◌%◌, ◌==◌, IfOk, filter, not, map};
ghost use Rattle.std.specs.List.{list_any};
ghost use Rattle.copies.specs.Copy.{is_copy};
ghost use Rattle.copies.specs.Views.{the_first, the_house, copy_of};

use crate::number::*;
use std::alloc::{AllocError, Global};

// The houses of the three copies, in the order in which ballots belong to them.
#[derive(Clone, Copy)]
pub struct Group {
    copies: [HouseNumber; 3],
}

impl Group {
    pub fn first() -> Group
        ensures { result.copies ≡ the_first }
    {
        Group {
            copies: [HouseNumber(0), HouseNumber(1), HouseNumber(2)],
        }
    }

    pub fn has(&self, house: HouseNumber) -> bool
        ensures { result ≡ list_any (λ h. house.0 == h.0) self.now.copies }
    {
        self.copies.iter().any(|copy| house == *copy)
    }

    pub fn owner(&self, ballot: Ballot) -> HouseNumber
        ensures { result ≡ copy_of ballot.0 self.now.copies }
    {
        self.copies[(ballot.0 % 3) as usize]
    }

    // All but one.
    pub fn others(&self, me: HouseNumber, heap: Global) -> Result<Vec<HouseNumber>, AllocError>
        ensures { IfOk result (λ hs. hs.items ≡ filter (λ h. not (h.0 == me.0)) self.now.copies) }
    {
        self.copies
            .iter()
            .copied()
            .filter(|house| *house != me)
            .collect(heap)
    }
}

impl HouseNumber {
    pub(crate) fn has_copy(self) -> bool
        ensures { result ≡ is_copy self.0 }
    {
        Group::first().has(self)
    }
}

impl Ballot {
    pub(crate) fn owner(self) -> HouseNumber
        ensures { result.0 ≡ self.0 % 3 }
    {
        Group::first().owner(self)
    }
}
