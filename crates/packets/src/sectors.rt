// The bytes of a block: a mask of its sectors that hold anything, and these sectors.
ghost use Rattle.std.specs.Prelude.{◌≡◌, ◌<◌, ◌≤◌, ◌^◌, ◌++◌, ◌==◌, T, not, length, OnOk};
ghost use Rattle.std.specs.List.{list_all};
ghost use Rattle.disks.specs.Disks.{all_zero, one};
ghost use Rattle.packets.specs.Codecs.{Gives, Puts};
ghost use Rattle.packets.specs.Formats.{Sectors, mask_of, held_of, sector_at, sectors_at, block};
ghost use Rattle.packets.specs.Seen.{see_block};

use crate::block::Block;
use crate::bytes::Bytes;
use crate::fault::*;
use octets::{BLANK_SECTOR, SECTOR_BYTES};
use std::alloc::{AllocError, Global};
use volumes::weigh::is_blank;

// How many sectors a block has.
pub const BLOCK_SECTORS: u8 = 8;

// Which sectors hold anything.
#[tactic(auto, using(crate::proofs::Blocks::pow_eight, crate::proofs::Blocks::pow_more))]
fn mask(sectors: &[[u8; SECTOR_BYTES]]) -> u16
    requires { length sectors.now ≤ 8 }
    ensures is { result ≡ mask_of sectors.now }
    ensures small { result < 2 ^ length sectors.now }
{
    match sectors {
        [] => 0,
        [first, rest @ ..] => bit(first) + 2 * mask(rest),
    }
}

#[tactic(auto, unfolding(disks::specs::Disks::one))]
fn bit(sector: &[u8; SECTOR_BYTES]) -> u16
    ensures is { result ≡ one (not (all_zero sector.now)) }
    ensures small { result < 2 }
{
    if is_blank(sector) { 0 } else { 1 }
}

fn put_held(sectors: &[[u8; SECTOR_BYTES]], out: &mut Vec<u8>) -> Result<(), AllocError>
    ensures done { OnOk result (out.new.items ≡ out.old.items ++ held_of sectors.now) }
    ensures full { T (list_all (λ s. length s == 512) sectors.now) }
{
    for sector in sectors {
        if !is_blank(sector) {
            out.extend_from_slice(sector)?;
        }
    }
    Ok(())
}

// A sector that holds something, or a blank one.
#[tactic(auto, unfolding(disks::specs::Device::zeros))]
fn take_sector(held: bool, bytes: &[u8]) -> Result<([u8; SECTOR_BYTES], &[u8]), Unread>
    ensures { Gives (λ x. (x.0, x.1.now)) result (sector_at held bytes.now) }
{
    if !held {
        return Ok((BLANK_SECTOR, bytes));
    }
    let (sector, rest) = bytes
        .split_first_chunk::<SECTOR_BYTES>()
        .ok_or(Unread::Fault(Fault::Short))?;
    if is_blank(sector) {
        return Err(Unread::Fault(Fault::Range));
    }
    Ok((*sector, rest))
}

fn take_sectors(
    heap: Global,
    mask: u8,
    bytes: &[u8],
) -> Result<(Vec<[u8; SECTOR_BYTES]>, &[u8]), Unread>
    ensures { Gives (λ x. (x.0.items, x.1.now)) result (sectors_at 8 mask bytes.now) }
{
    let mut sectors = Vec::new(heap);
    let mut left = mask;
    let mut rest = bytes;
    for _ in 0..BLOCK_SECTORS {
        let (sector, after) = take_sector(left % 2 == 1, rest)?;
        sectors.push(sector)?;
        left /= 2;
        rest = after;
    }
    Ok((sectors, rest))
}

impl Bytes for Block {
    ghost View = { Sectors };

    ghost view = { see_block };

    ghost codec = { block };

    #[tactic(auto, unfolding(crate::specs::Formats::block))]
    fn put(&self, out: &mut Vec<u8>) -> Result<(), Unsent> {
        let mask = mask(&self.sectors) as u8;
        mask.put(out)?;
        put_held(&self.sectors, out)?;
        Ok(())
    }

    #[tactic(auto, unfolding(crate::specs::Formats::block))]
    fn take(heap: Global, bytes: &[u8]) -> Result<(Block, &[u8]), Unread> {
        let (mask, rest) = u8::take(heap, bytes)?;
        let (sectors, rest) = take_sectors(heap, mask, rest)?;
        Ok((Block { sectors }, rest))
    }
}
