// What is known of a volume besides its sectors.
ghost use Rattle.std.specs.Prelude.{◌≡◌, nat_lt};

use wire::number::*;

#[derive(Clone, Copy, PartialEq, Eq)]
pub struct Head {
    pub number: Volume,
    pub size: Size,
    pub token: Token,
    // how many of its sectors hold a byte other than zero
    pub used: u64,
}

impl Head {
    pub(crate) fn has(&self, sector: Sector) -> bool
        ensures { result ≡ nat_lt sector.0 self.now.size.0 }
    {
        sector.0 < self.size.0
    }
}
