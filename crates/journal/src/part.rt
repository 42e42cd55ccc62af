// One sector of a record: which record, where in it, how long the record is, the sector that is to be written, and half of its bytes.
ghost use Rattle.std.specs.Prelude.{◌≡◌, ◌++◌};
ghost use Rattle.journal.specs.Format.{part_bytes, part_of, half_of, is_sound, found};
ghost use Rattle.journal.specs.Programs.{foreign_refusal};

use crate::state::is_guarded;
use crate::{MARK, NUMBERS_END, Place, SLOT_SECTORS};
use octets::{BLANK_SECTOR, SECTOR_BYTES, reader};

// Half of a sector.
pub const HALF_BYTES: usize = SECTOR_BYTES / 2;

// Where a part has its half: behind five numbers.
const HALF_START: usize = 40;

// Where it ends.
const HALF_END: usize = HALF_START + HALF_BYTES;

#[derive(Clone, Copy)]
pub struct Part {
    pub number: u64,
    pub index: u64,
    pub length: u64,
    pub target: Place,
}

// The device's journal isn't ours.
#[derive(Clone, Copy, Debug, PartialEq, Eq)]
pub struct Foreign;

// The number that stands for it in an answer.
impl From<Foreign> for u8 {
    ghost from_gives = { λ e n. n ≡ foreign_refusal e };

    fn from(_: Foreign) -> u8 {
        16
    }
}

impl Part {
    // Writes the part with this half of the target's bytes into a sector's buffer.
    pub fn fill(&self, half: &[u8; HALF_BYTES], sector: &mut [u8; SECTOR_BYTES])
        ensures { sector.new ≡ part_bytes self.now half.now }
    {
        *sector = BLANK_SECTOR;
        sector[0..8].copy_from_slice(&MARK.to_be_bytes());
        sector[8..16].copy_from_slice(&self.number.to_be_bytes());
        sector[16..24].copy_from_slice(&self.index.to_be_bytes());
        sector[24..32].copy_from_slice(&self.length.to_be_bytes());
        sector[32..40].copy_from_slice(&self.target.0.to_be_bytes());
        sector[HALF_START..HALF_END].copy_from_slice(half);
    }

    // What a sector's numbers say, whether they make sense or not.
    pub fn read(sector: &[u8; SECTOR_BYTES]) -> Part
        ensures { result ≡ part_of sector.now }
    {
        let [number, index, length, target] = reader::exactly::<4>(&sector[8..HALF_START]).unwrap();
        Part {
            number,
            index,
            length,
            target: Place(target),
        }
    }

    // The part that this sector holds, if it isn't blank, at this index of a slot, on a device of so many sectors.
    // size and index stay two numbers, here, in `is_sound` and in `Scan::next`: the size is one for all the device, the index another for
    // each sector, so that a struct of both would be made anew at each sector.
    #[tactic(auto, using(crate::proofs::Sectors::finding))]
    pub fn found(
        size: u64,
        index: u64,
        sector: &[u8; SECTOR_BYTES],
    ) -> Result<Option<Part>, Foreign>
        ensures { result ≡ found size index sector.now }
    {
        let (mark, _) = reader::number(sector).unwrap();
        if mark == 0 {
            return Ok(None);
        }
        if mark != MARK {
            return Err(Foreign);
        }
        let part = Part::read(sector);
        if part.is_sound(size, index) {
            Ok(Some(part))
        } else {
            Err(Foreign)
        }
    }

    // Whether it can stand at this index of a slot, on a device of so many sectors.
    #[tactic(auto, unfolding(crate::specs::Format::is_sound))]
    fn is_sound(&self, size: u64, index: u64) -> bool
        ensures { result ≡ is_sound size index self.now }
    {
        let numbered = (1..NUMBERS_END).contains(&self.number);
        let placed = self.index == index
            && index < self.length
            && self.length <= SLOT_SECTORS
            && self.length % 2 == 0;
        numbered && placed && is_guarded(size, self.target)
    }
}

// The sector whose halves these two sectors of a record carry.
#[tactic(auto, using(crate::proofs::Sectors::two_laid))]
pub fn join_halves(a: &[u8; SECTOR_BYTES], b: &[u8; SECTOR_BYTES], out: &mut [u8; SECTOR_BYTES])
    ensures { out.new ≡ half_of a.now ++ half_of b.now }
{
    out[0..HALF_BYTES].copy_from_slice(&a[HALF_START..HALF_END]);
    out[HALF_BYTES..SECTOR_BYTES].copy_from_slice(&b[HALF_START..HALF_END]);
}
