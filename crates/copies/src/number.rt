// Numbers that must not be mixed, each a type of its own.
ghost use Rattle.std.specs.Prelude.{◌≡◌, ◌<◌, ◌^◌, suc, min, max};
ghost use Rattle.copies.specs.Messages.{above};

// A house, from 0. Houses 0, 1 and 2 have copies.
#[derive(Clone, Copy, PartialEq, Eq)]
pub struct HouseNumber(pub u64);

// A ballot belongs to the copy that is its rest by three.
#[derive(Clone, Copy, PartialEq, Eq, PartialOrd, Ord)]
pub struct Ballot(pub u64);

// How many commands a state has seen.
#[derive(Clone, Copy, PartialEq, Eq, PartialOrd, Ord)]
pub struct Version(pub u64);

// Where a block stands among the state's blocks.
#[derive(Clone, Copy, PartialEq, Eq)]
pub struct Key(pub u128);

// The number under which a customer made a call.
#[derive(Clone, Copy, PartialEq, Eq)]
pub struct CallNumber(pub u64);

// A bundle's number: how often its house had come up, and which bundle since.
#[derive(Clone, Copy, PartialEq, Eq, PartialOrd, Ord)]
pub struct Number {
    pub incarnation: u64,
    pub counter: u64,
}

impl Ballot {
    pub(crate) fn higher(self, other: Ballot) -> Ballot
        ensures { result.0 ≡ max self.0 other.0 }
    {
        Ballot(self.0.max(other.0))
    }
}

impl Version {
    pub(crate) fn next(self) -> Version
        requires { self.0 < 2 ^ 62 }
        ensures { result.0 ≡ suc self.0 }
    {
        Version(self.0 + 1)
    }

    pub(crate) fn lower(self, other: Version) -> Version
        ensures { result.0 ≡ min self.0 other.0 }
    {
        Version(self.0.min(other.0))
    }

    pub(crate) fn higher(self, other: Version) -> Version
        ensures { result.0 ≡ max self.0 other.0 }
    {
        Version(self.0.max(other.0))
    }
}

impl Number {
    pub(crate) fn is_above(self, other: Number) -> bool
        ensures { result ≡ above self.incarnation self.counter other.incarnation other.counter }
    {
        self > other
    }
}
