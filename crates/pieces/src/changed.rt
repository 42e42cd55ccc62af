// Blocks that changed, in the order of volumes and blocks: what a copy that is behind is told.
ghost use Rattle.std.specs.Prelude.{◌≡◌, ◌+◌, IfOk, not, ◌&&◌, cond, nat_lt, Some, vec_items};
ghost use Rattle.pieces.specs.Kept.{the_kept};
ghost use Rattle.pieces.specs.Changes.{is_before, is_newer, is_wanted, is_nearer, nearest_of, nearest, next_number, key_behind, listed, ListMeans, ListEnds};

use crate::entry::{Block, Entry, Stamp};
use crate::state::Pieces;
use std::alloc::{AllocError, Global};
use wire::number::*;

// A block of a volume, by which blocks are in order.
#[derive(Clone, Copy)]
pub struct Key {
    pub volume: Volume,
    pub block: Block,
}

// Entries of blocks, and the key to go on from; none if there are no more.
#[derive(Drop)]
pub struct Changed {
    pub blocks: Vec<Entry>,
    pub next: Option<Key>,
}

impl Key {
    #[tactic(auto, unfolding(crate::specs::Changes::is_before))]
    pub fn is_before(self, other: Key) -> bool
        ensures { result ≡ is_before self other }
    {
        self.volume.0 < other.volume.0
            || (self.volume.0 == other.volume.0 && self.block.0 < other.block.0)
    }
}

impl Entry {
    pub(crate) fn key(&self) -> Key
        ensures { result ≡ record { volume = self.now.volume; block = self.now.block } }
    {
        Key {
            volume: self.volume,
            block: self.block,
        }
    }

    // The next key behind its own.
    fn key_behind(&self) -> Key
        ensures { result ≡ key_behind self.now }
    {
        let block = self.block.0;
        Key {
            volume: self.volume,
            block: Block(if block < u64::MAX { block + 1 } else { block }),
        }
    }

    fn is_newer(&self, since: Option<Stamp>) -> bool
        ensures { result ≡ is_newer since self.now.stamp.0 }
    {
        match since {
            Some(base) => base.0 < self.stamp.0,
            None => true,
        }
    }

    #[tactic(auto, unfolding(crate::specs::Changes::is_wanted))]
    fn is_wanted(&self, since: Option<Stamp>, from: Key) -> bool
        ensures { result ≡ is_wanted since from self.now }
    {
        self.volume.0 != 0 && !self.key().is_before(from) && self.is_newer(since)
    }

    fn is_nearer(&self, best: Option<Entry>) -> bool
        ensures { result ≡ is_nearer self.now best }
    {
        match best {
            Some(entry) => self.key().is_before(entry.key()),
            None => true,
        }
    }
}

fn nearest_of(since: Option<Stamp>, from: Key, best: Option<Entry>, entry: &Entry) -> Option<Entry>
    ensures { result ≡ nearest_of since from best entry.now }
{
    if entry.is_wanted(since, from) && entry.is_nearer(best) {
        Some(*entry)
    } else {
        best
    }
}

impl Pieces {
    // The entry with the least key of those that changed after a version, from a key on. Looks through all.
    #[tactic(auto, unfolding(crate::specs::Changes::nearest))]
    fn nearest(&self, since: Option<Stamp>, from: Key) -> Option<Entry>
        ensures { result ≡ nearest since from (the_kept self.now).entries }
    {
        let mut best = None;
        for entry in self.entries.as_slice() {
            best = nearest_of(since, from, best, entry);
        }
        best
    }

    #[tactic(auto, using(crate::proofs::ListMeaning::list_means, crate::proofs::ListEnding::list_ends))]
    // The first blocks, at most so many, at or behind a key that changed after a version, or all; markers too.
    pub fn changed(
        &self,
        heap: Global,
        since: Option<Stamp>,
        from: Key,
        most: usize,
    ) -> Result<Changed, AllocError>
        ensures listed { IfOk result (λ c. (c.blocks.items ≡ (listed most since from (the_kept self.now).entries).blocks) × (c.next ≡ (listed most since from (the_kept self.now).entries).next)) }
        ensures means { ListMeans }
        ensures ends { ListEnds }
    {
        let mut blocks = Vec::new(heap);
        let mut at = from;
        for i in 0..most {
            match self.nearest(since, at) {
                None => {
                    return Ok(Changed { blocks, next: None });
                }
                Some(entry) => {
                    blocks.push(entry)?;
                    at = entry.key_behind();
                }
            }
        }
        Ok(Changed {
            blocks,
            next: Some(at),
        })
    }
}
