// The table of pieces: of each block of a piece, which entry of the directory it has.
ghost use Rattle.std.specs.Prelude.{◌≡◌, ℕ, ◌≤◌, IfOk, ◌+◌, ◌*◌, ◌/◌, ◌%◌, ◌<◌, ◌^◌, suc, length, vec_len, vec_items, Some, None, OnOk, OnErr, position, slice_index_or, slice_set, insert, replicate, ◌≢◌};
ghost use Rattle.pieces.specs.Tables.{is_piece, word_of, slot_in, SlotPut, SlotsSame};

use crate::entry::Block;
use crate::piece::{PIECE_BLOCKS, Piece};
use std::alloc::{AllocError, Global};
use wire::number::*;

// Pieces in the order of volume and number.
#[derive(Drop)]
pub struct Table {
    pub(crate) pieces: Vec<Piece>,
}

// Where a piece stands. Looks through all.
fn position(pieces: &[Piece], volume: Volume, number: u64) -> Option<usize>
    ensures { result ≡ position (is_piece volume.0 number) pieces.now }
{
    pieces
        .iter()
        .position(|piece| piece.volume == volume && piece.number == number)
}

// Where a new piece is to stand.
fn place_for(pieces: &[Piece], volume: Volume, number: u64) -> usize
    ensures { result ≤ length pieces.now }
{
    let behind = pieces.iter().position(|piece| {
        volume.0 < piece.volume.0 || (volume == piece.volume && number < piece.number)
    });
    behind.unwrap_or(pieces.len())
}

fn number_of(block: Block) -> u64
    ensures { result ≡ block.0 / 1024 }
{
    block.0 / PIECE_BLOCKS as u64
}

// The word of a block in its piece's part.
fn word_at(words: &[u64], block: Block) -> u64
    ensures { result ≡ slice_index_or words.now (block.0 % 1024) 0 }
{
    let at = (block.0 % PIECE_BLOCKS as u64) as usize;
    if at < words.len() { words[at] } else { 0 }
}

fn put_word(words: &mut [u64], block: Block, word: u64)
    ensures { words.new ≡ slice_set words.old (block.0 % 1024) word }
{
    let at = (block.0 % PIECE_BLOCKS as u64) as usize;
    if at < words.len() {
        words[at] = word;
    }
}

impl Table {
    pub fn new(heap: Global) -> Table
        ensures { (v b : ℕ) → slot_in result.pieces.items v b ≡ 0 }
    {
        Table {
            pieces: Vec::new(heap),
        }
    }

    // A piece more, none of whose blocks has an entry. Its block has none either.
    fn add(&mut self, heap: Global, volume: Volume, block: Block) -> Result<(), AllocError>
        requires { position (is_piece volume.0 (block.0 / 1024)) self.old.pieces.items ≡ None }
        ensures slots { SlotsSame self.old.pieces.items self.new.pieces.items }
        ensures there { OnOk result (position (is_piece volume.0 (block.0 / 1024)) self.new.pieces.items ≢ None) }
    {
        let number = number_of(block);
        let piece = Piece::new(heap, volume, number)?;
        let at = place_for(self.pieces.as_slice(), volume, number);
        self.pieces.insert(at, piece)?;
        Ok(())
    }

    // A block's entry and one, or 0.
    pub fn get(&self, volume: Volume, block: Block) -> u64
        ensures { result ≡ slot_in self.now.pieces.items volume.0 block.0 }
    {
        match position(self.pieces.as_slice(), volume, number_of(block)) {
            Some(at) => word_at(self.pieces[at].words.as_slice(), block),
            None => 0,
        }
    }

    // A block has this word from now on, if it has a piece.
    fn put_there(&mut self, volume: Volume, block: Block, word: u64)
        ensures some { position (is_piece volume.0 (block.0 / 1024)) self.old.pieces.items ≢ None → SlotPut volume.0 block.0 word self.old.pieces.items self.new.pieces.items }
        ensures none { position (is_piece volume.0 (block.0 / 1024)) self.old.pieces.items ≡ None → SlotPut volume.0 block.0 0 self.old.pieces.items self.new.pieces.items }
    {
        if let Some(at) = position(self.pieces.as_slice(), volume, number_of(block)) {
            put_word(self.pieces[at].words.as_mut_slice(), block, word);
        }
    }

    // A block's piece is there.
    fn ensure(&mut self, heap: Global, volume: Volume, block: Block) -> Result<(), AllocError>
        ensures slots { SlotsSame self.old.pieces.items self.new.pieces.items }
        ensures there { OnOk result (position (is_piece volume.0 (block.0 / 1024)) self.new.pieces.items ≢ None) }
    {
        match position(self.pieces.as_slice(), volume, number_of(block)) {
            Some(_) => Ok(()),
            None => self.add(heap, volume, block),
        }
    }

    // A block has this word from now on. Takes memory for its piece, if it has none; where there is none nothing changes.
    pub fn put(
        &mut self,
        heap: Global,
        volume: Volume,
        block: Block,
        word: u64,
    ) -> Result<(), AllocError>
        ensures put { OnOk result (SlotPut volume.0 block.0 word self.old.pieces.items self.new.pieces.items) }
        ensures same { OnErr result (SlotsSame self.old.pieces.items self.new.pieces.items) }
    {
        self.ensure(heap, volume, block)?;
        self.put_there(volume, block, word);
        Ok(())
    }

    // A block has no entry from now on.
    pub fn clear(&mut self, volume: Volume, block: Block)
        ensures { SlotPut volume.0 block.0 0 self.old.pieces.items self.new.pieces.items }
    {
        self.put_there(volume, block, 0);
    }
}
