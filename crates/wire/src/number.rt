// Numbers that must not be mixed, each a type of its own, and those of them that go together. One type with a parameter
// for what is numbered would be no plainer: it would want a name for each as well.
ghost use Rattle.std.specs.Prelude.{◌≡◌};

// A volume's number, given once.
#[derive(Clone, Copy, PartialEq, Eq)]
pub struct Volume(pub u64);

// The number under which a volume may be used; the last one given counts, and 0 is nobody's.
#[derive(Clone, Copy, PartialEq, Eq)]
pub struct Token(pub u64);

// A sector of a volume, from 0.
#[derive(Clone, Copy, PartialEq, Eq)]
pub struct Sector(pub u64);

// A picture's number, from the same row as volumes' numbers.
#[derive(Clone, Copy, PartialEq, Eq)]
pub struct Picture(pub u64);

// A volume's size in sectors.
#[derive(Clone, Copy, PartialEq, Eq, PartialOrd, Ord)]
pub struct Size(pub u64);

// The number under which a customer made a call, used once.
#[derive(Clone, Copy, PartialEq, Eq)]
pub struct Customer(pub u64);

// A house, from 0.
#[derive(Clone, Copy, PartialEq, Eq)]
pub struct House(pub u8);

// A volume, and the token that its customer shows for it.
#[derive(Clone, Copy, PartialEq, Eq)]
pub struct Hold {
    pub volume: Volume,
    pub token: Token,
}

impl Hold {
    pub fn new(volume: u64, token: u64) -> Hold
        ensures { result ≡ record { volume = record { 0 = volume }; token = record { 0 = token } } }
    {
        Hold {
            volume: Volume(volume),
            token: Token(token),
        }
    }

    // This sector of the volume that is held.
    pub fn at(self, sector: Sector) -> Address
        ensures { result ≡ record { volume = self.volume; sector = sector } }
    {
        Address {
            volume: self.volume,
            sector,
        }
    }
}

// One sector of one volume.
#[derive(Clone, Copy, PartialEq, Eq)]
pub struct Address {
    pub volume: Volume,
    pub sector: Sector,
}

// A number that no kind of call, no case of an answer or no refusal has.
#[derive(Clone, Copy, PartialEq, Eq)]
pub struct Unknown(pub u8);
