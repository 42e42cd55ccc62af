// Byte strings on sectors: the length in 8 bytes, then the bytes, filled with zeros to whole sectors.
ghost use Rattle.std.specs.Prelude.{◌≡◌, length, take, drop, IfOk};
ghost use Rattle.std.specs.List.{flat_map};
ghost use Rattle.packets.specs.Codecs.{Gives};
ghost use Rattle.packets.specs.Areas.{sectors_for, padded, cut, to_sectors, from_sectors, SectorsSound};

use crate::fault::*;
use octets::reader::number;
use octets::writer::Number;
use octets::{BLANK_SECTOR, SECTOR_BYTES};
use std::alloc::{AllocError, Global};

// How many sectors so many bytes take.
pub fn sectors_for(length: usize) -> usize
    ensures { result ≡ sectors_for length }
{
    let whole = length / SECTOR_BYTES;
    if length % SECTOR_BYTES == 0 {
        whole
    } else {
        whole + 1
    }
}

// The first of the sectors that bytes take.
fn first_sector(bytes: &[u8]) -> [u8; SECTOR_BYTES]
    ensures { result ≡ padded (take 512 bytes.now) }
{
    let mut sector = BLANK_SECTOR;
    let length = bytes.len().min(SECTOR_BYTES);
    sector[..length].copy_from_slice(&bytes[..length]);
    sector
}

// And the bytes that are left for others.
#[tactic(auto, using(crate::proofs::OnSectors::others_are))]
fn other_sectors(bytes: &[u8]) -> &[u8]
    ensures { result.now ≡ drop 512 bytes.now }
{
    let length = bytes.len().min(SECTOR_BYTES);
    &bytes[length..]
}

fn cut(bytes: &[u8], heap: Global) -> Result<Vec<[u8; SECTOR_BYTES]>, AllocError>
    ensures { IfOk result (λ v. v.items ≡ cut (sectors_for (length bytes.now)) bytes.now) }
{
    let count = sectors_for(bytes.len());
    let mut sectors = Vec::new(heap);
    let mut rest = bytes;
    for _ in 0..count {
        sectors.push(first_sector(rest))?;
        rest = other_sectors(rest);
    }
    Ok(sectors)
}

#[tactic(auto, using(crate::proofs::OnSectors::sectors_sound))]
pub fn to_sectors(bytes: &[u8], heap: Global) -> Result<Vec<[u8; SECTOR_BYTES]>, AllocError>
    ensures value { IfOk result (λ v. v.items ≡ to_sectors bytes.now) }
    ensures sound { SectorsSound }
{
    let length = bytes.len() as u64;
    let mut out = Vec::new(heap);
    length.put(&mut out)?;
    out.extend_from_slice(bytes)?;
    cut(&out, heap)
}

fn joined(sectors: &[[u8; SECTOR_BYTES]], heap: Global) -> Result<Vec<u8>, AllocError>
    ensures { IfOk result (λ v. v.items ≡ flat_map (λ s. s) sectors.now) }
{
    let mut all = Vec::new(heap);
    for sector in sectors {
        all.extend_from_slice(sector)?;
    }
    Ok(all)
}

pub fn from_sectors(sectors: &[[u8; SECTOR_BYTES]], heap: Global) -> Result<Vec<u8>, Unread>
    ensures { Gives (λ v. v.items) result (from_sectors sectors.now) }
{
    let all = joined(sectors, heap)?;
    let (length, rest) = number(&all).ok_or(Unread::Fault(Fault::Short))?;
    let (bytes, _) = rest
        .split_at_checked(length as usize)
        .ok_or(Unread::Fault(Fault::Short))?;
    Ok(Vec::from_slice(heap, bytes)?)
}
