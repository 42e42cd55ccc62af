// What becomes of the directory when blocks are given up: entries that a choice holds of are free, and their places. Where a volume is gone
// nothing is written for that, since an entry of a volume that doesn't live is free.
ghost use Rattle.std.specs.Prelude.{◌≡◌, ◌<◌, ◌==◌, length, Bool};
ghost use Rattle.pieces.specs.Meaning.{ForgetMeans};
ghost use Rattle.pieces.specs.Kept.{the_kept, vacated, forgotten};
ghost use Rattle.pieces.specs.Replaces.{vacates_at, vacates_where, is_gone, tidied, VacateMeans, TidyMeans};

use crate::entry::{BLOCK_SECTORS, Entry, Stamp};
use crate::state::Pieces;
use volumes::head::Head;
use volumes::living::is_living;
use wire::number::*;

// Which entries are given up.
pub(crate) trait Choice {
    ghost use Rattle.pieces.specs.declared.entry.Entry.{Entry};

    ghost chosen: { Self → Entry → Bool };

    fn chooses(&self, entry: &Entry) -> bool
        ensures { result ≡ chosen self.now entry.now };
}

// Those of a volume.
#[derive(Clone, Copy)]
struct OfVolume(Volume);

impl Choice for OfVolume {
    ghost chosen = { λ v e. e.volume.0 == v.0.0 };

    fn chooses(&self, entry: &Entry) -> bool {
        entry.volume == self.0
    }
}

// Those of volumes that aren't living, where these have heads and the next has this number.
#[derive(Clone, Copy)]
struct Gone<'a> {
    next: u64,
    heads: &'a [Head],
}

impl<'a> Choice for Gone<'a> {
    ghost chosen = { λ g e. is_gone g.next g.heads.now e };

    fn chooses(&self, entry: &Entry) -> bool {
        entry.volume.0 != 0 && !is_living(self.next, self.heads, entry.volume)
    }
}

impl Pieces {
    // An entry is free from now on, and its places.
    #[tactic(auto, unfolding(crate::specs::Kept::vacated))]
    pub(crate) fn vacate(&mut self, index: usize)
        requires { index < length self.old.entries.items }
        ensures kept { the_kept self.new ≡ vacated index (the_kept self.old) }
        ensures layout { self.new.layout ≡ self.old.layout }
    {
        for slot in 0..BLOCK_SECTORS {
            self.free_place(index, slot, Stamp(0));
        }
        self.free_entry(index);
    }

    // So if it is chosen.
    #[tactic(auto, unfolding(crate::specs::Replaces::vacates_at))]
    fn vacate_at<C: Choice>(&mut self, choice: &C, index: usize)
        requires { index < length self.old.entries.items }
        ensures kept { the_kept self.new ≡ vacates_at (C.chosen choice.now) index (the_kept self.old) }
        ensures layout { self.new.layout ≡ self.old.layout }
    {
        if choice.chooses(&self.entries[index]) {
            self.vacate(index);
        }
    }

    // All that are chosen are free from now on.
    pub(crate) fn vacate_where<C: Choice>(&mut self, choice: &C)
        ensures kept { the_kept self.new ≡ vacates_where (C.chosen choice.now) (length self.old.entries.items) (the_kept self.old) }
        ensures layout { self.new.layout ≡ self.old.layout }
        ensures means { VacateMeans }
    {
        for index in 0..self.entries.len() {
            self.vacate_at(choice, index);
        }
    }

    // A volume is gone: from now on its sectors are zeros, and their places are free.
    #[tactic(auto, using(crate::proofs::Forgetting::forgotten_of))]
    pub fn forget(&mut self, volume: Volume)
        ensures kept { the_kept self.new ≡ forgotten volume.0 (length self.old.entries.items) (the_kept self.old) }
        ensures layout { self.new.layout ≡ self.old.layout }
        ensures means { ForgetMeans }
    {
        self.vacate_where(&OfVolume(volume));
    }

    // So are all volumes that aren't living, where these have heads and the next has this number.
    pub fn forget_gone(&mut self, next: u64, heads: &[Head])
        ensures kept { the_kept self.new ≡ tidied next heads.now (the_kept self.old) }
        ensures layout { self.new.layout ≡ self.old.layout }
        ensures means { TidyMeans }
    {
        self.vacate_where(&Gone { next, heads });
    }
}
