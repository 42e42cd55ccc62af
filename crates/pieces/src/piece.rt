// The part of memory that one piece has: a word for each of its blocks.
ghost use Rattle.std.specs.Prelude.{◌≡◌, vec_len, replicate, IfOk};

use std::alloc::{AllocError, Global};
use wire::number::*;

// A piece is so many blocks of a volume: 8,192 sectors.
pub const PIECE_BLOCKS: usize = 1024;

// In words, for each of its blocks: the index of its entry and one, or 0. A piece takes 8 KiB, and 40 bytes.
#[derive(Drop)]
pub struct Piece {
    pub(crate) volume: Volume,
    pub(crate) number: u64,
    pub(crate) words: Vec<u64>,
    ghost whole: { vec_len words ≡ 1024 },
}

impl Piece {
    // None of its blocks has an entry.
    pub(crate) fn new(heap: Global, volume: Volume, number: u64) -> Result<Piece, AllocError>
        ensures volume { IfOk result (λ p. p.volume ≡ volume) }
        ensures number { IfOk result (λ p. p.number ≡ number) }
        ensures words { IfOk result (λ p. p.words.items ≡ replicate 1024 0) }
    {
        let words = vec![in heap; 0u64; PIECE_BLOCKS]?;
        Ok(Piece {
            volume,
            number,
            words,
        })
    }
}
