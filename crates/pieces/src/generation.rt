// Under which generation a sector of the directory was written: all that others left there is forgotten.
ghost use Rattle.std.specs.Prelude.{◌≡◌, ◌==◌};
ghost use Rattle.octets.specs.Numbers.{field};

use octets::{SECTOR_BYTES, reader};

// A house has one at a time, and keeps its number elsewhere. To begin again from nothing it takes the next, and no sector is written for that.
#[derive(Clone, Copy, PartialEq, Eq)]
pub struct Generation(pub u64);

impl Generation {
    // What a sector begins with.
    pub(crate) fn of(sector: &[u8; SECTOR_BYTES]) -> Generation
        ensures { result.0 ≡ field 0 sector.now }
    {
        let (numbers, _) = reader::numbers::<1>(sector).unwrap();
        Generation(numbers[0])
    }
}
