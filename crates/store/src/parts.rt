// Blocks for another copy.
ghost use Rattle.std.specs.Prelude.{◌≡◌, ◌<◌, ◌^◌, ◌++◌, map, IfOk, OnOk, IsTrue};
ghost use Rattle.std.specs.List.{list_all};
ghost use Rattle.std.specs.Option.{option_map};
ghost use Rattle.pieces.specs.Kept.{the_kept};
ghost use Rattle.pieces.specs.Meaning.{content};
ghost use Rattle.pieces.specs.Counts.{number_of};
ghost use Rattle.keeping.specs.Keeping.{key_at, since_of};
ghost use Rattle.store.specs.Known.{the_data};
ghost use Rattle.store.specs.Parts.{is_key, is_heard, HeardFit, is_all, key_number, Lists, place_in, places_with, places_of, given, the_stamped};

use crate::store::Store;
use copies::message::{Message, Stamped, Tail, Want};
use copies::number::{Key, Version};
use octets::{BLANK_SECTOR, SECTOR_BYTES};
use packets::block::Block;
use packets::packet::Packet;
use pieces::changed;
use pieces::entry::{self, Entry, Stamp};
use std::alloc::{AllocError, Global};
use wire::number::*;

// How many blocks go into one packet.
pub const MOST_BLOCKS: usize = 16;

// How many blocks a volume may have: it has at most 2^40 sectors. A block's key is its volume times this and its number.
const VOLUME_BLOCKS: u128 = 1 << 37;

fn key_of(at: changed::Key) -> Key
    ensures { result.0 ≡ number_of at }
{
    Key(at.volume.0 as u128 * VOLUME_BLOCKS + at.block.0 as u128)
}

// What isn't one has some volume.
#[tactic(auto, using(crate::proofs::Giving::key_fits))]
pub(crate) fn at_key(key: Key) -> changed::Key
    ensures key { IsTrue (is_key key.0) → result ≡ key_at key.0 }
    ensures small { result.block.0 < 2 ^ 37 }
{
    changed::Key {
        volume: Volume((key.0 / VOLUME_BLOCKS).min(u64::MAX as u128) as u64),
        block: entry::Block((key.0 % VOLUME_BLOCKS) as u64),
    }
}

// Keys of volumes whose number has 64 bits.
fn is_key(key: Key) -> bool
    ensures { result ≡ is_key key.0 }
{
    key.0 / VOLUME_BLOCKS <= u64::MAX as u128
}

fn since(whole: bool, base: Version) -> Option<Stamp>
    ensures { result ≡ since_of whole base.0 }
{
    if whole { None } else { Some(Stamp(base.0)) }
}

fn next_key(next: Option<changed::Key>) -> Option<Key>
    ensures { key_number result ≡ option_map number_of next }
{
    match next {
        Some(at) => Some(key_of(at)),
        None => None,
    }
}

// The places that an entry has.
#[tactic(auto, unfolding(crate::specs::Parts::places_with))]
fn push_places(entry: &Entry, places: &mut Vec<u64>) -> Result<(), AllocError>
    ensures { OnOk result (places.new.items ≡ places.old.items ++ places_with entry.now) }
{
    for place in &entry.places {
        push_place(*place, places)?;
    }
    Ok(())
}

fn push_place(place: u64, places: &mut Vec<u64>) -> Result<(), AllocError>
    ensures { OnOk result (places.new.items ≡ places.old.items ++ place_in place) }
{
    if place != 0 {
        places.push(place)?;
    }
    Ok(())
}

// Which blocks are to be given, and the key to go on from.
#[derive(Drop)]
pub struct Portion {
    pub whole: bool,
    pub entries: Vec<Entry>,
    pub next: Option<Key>,
}

impl Store {
    // All, where the base is below the floor, or the top above the version.
    pub fn portion(&self, heap: Global, want: Want, version: Version) -> Result<Portion, AllocError>
        ensures { IsTrue (is_key want.key.0) → IfOk result (λ p. Lists (is_all want.base.0 want.top.0 self.now.pieces.floor.0 version.0) want.base.0 want.key.0 (the_kept self.now.pieces) p) }
    {
        let whole = want.base < self.floor() || version < want.top;
        let since = since(whole, want.base);
        let listed = self
            .pieces
            .changed(heap, since, at_key(want.key), MOST_BLOCKS)?;
        Ok(Portion {
            whole,
            entries: listed.blocks,
            next: next_key(listed.next),
        })
    }

    // Which places are to be read for them.
    pub fn places_of(&self, heap: Global, portion: &Portion) -> Result<Vec<u64>, AllocError>
        ensures { IfOk result (λ v. v.items ≡ places_of portion.now.entries.items) }
    {
        let mut places = Vec::new(heap);
        for entry in &portion.entries {
            push_places(entry, &mut places)?;
        }
        Ok(places)
    }

    // What a place holds, or where there is none.
    #[tactic(auto, unfolding(disks::specs::Device::zeros))]
    fn content(&self, place: u64) -> [u8; SECTOR_BYTES]
        ensures { result ≡ content (the_data self.now.known) place }
    {
        if place == 0 {
            BLANK_SECTOR
        } else {
            self.known.get(place)
        }
    }

    #[tactic(auto, using(crate::proofs::Giving::eight_mapped))]
    fn block(&self, heap: Global, entry: &Entry) -> Result<Block, AllocError>
        ensures { IfOk result (λ b. b.sectors.items ≡ map (content (the_data self.now.known)) entry.now.places) }
    {
        let mut sectors = Vec::new(heap);
        for place in &entry.places {
            sectors.push(self.content(*place))?;
        }
        Ok(Block { sectors })
    }

    fn given(&self, heap: Global, entry: &Entry) -> Result<Stamped<Block>, AllocError>
        ensures { IfOk result (λ b. the_stamped b ≡ given (the_data self.now.known) entry.now) }
    {
        let block = self.block(heap, entry)?;
        let at = changed::Key {
            volume: entry.volume,
            block: entry.block,
        };
        Ok(Stamped {
            key: key_of(at),
            stamp: Version(entry.stamp.0),
            block,
        })
    }

    // The blocks with their sectors.
    pub fn blocks(&self, heap: Global, portion: &Portion) -> Result<Vec<Stamped<Block>>, AllocError>
        ensures { IfOk result (λ v. map the_stamped v.items ≡ map (given (the_data self.now.known)) portion.now.entries.items) }
    {
        let mut blocks = Vec::new(heap);
        for entry in &portion.entries {
            blocks.push(self.given(heap, entry)?)?;
        }
        Ok(blocks)
    }

    pub fn floor(&self) -> Version
        ensures { result.0 ≡ self.now.pieces.floor.0 }
    {
        Version(self.pieces.floor().0)
    }
}

fn are_keys(blocks: &[Stamped<Block>]) -> bool
    ensures { result ≡ list_all (λ b. is_key b.key.0) blocks.now }
{
    blocks.iter().all(|stamped| is_key(stamped.key))
}

// May the keys of a message be keys of blocks?
#[tactic(auto, using(crate::proofs::Hearing::heard_fit))]
pub fn may_hear(message: &Packet) -> bool
    ensures value { result ≡ is_heard message.now }
    ensures fit { HeardFit }
{
    match message {
        Message::Want(want) => is_key(want.key),
        Message::Part(part) => {
            let tail = match &part.tail {
                Tail::More(key) => is_key(*key),
                Tail::Ends(..) => true,
            };
            tail && are_keys(&part.blocks)
        }
        _ => true,
    }
}
