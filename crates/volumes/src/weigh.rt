// Does a sector weigh anything?
ghost use Rattle.std.specs.Prelude.{◌≡◌};
ghost use Rattle.disks.specs.Disks.{all_zero};

use octets::SECTOR_BYTES;

// Holds the sector nothing but zeros? Looks no further than the first byte that isn't zero.
pub fn is_blank(sector: &[u8; SECTOR_BYTES]) -> bool
    ensures { result ≡ all_zero sector.now }
{
    sector.iter().all(|b| *b == 0)
}
