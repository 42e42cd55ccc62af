// What a house knows of its directory.
ghost use Rattle.std.specs.Prelude.{◌≡◌, length};
ghost use Rattle.pieces.specs.Layouts.{entries_of};
ghost use Rattle.pieces.specs.Agreements.{Agrees, IsSingle};
ghost use Rattle.pieces.specs.Hints.{AllTaken, NoneFree};

use crate::entry::{Entry, Stamp};
use crate::layout::Layout;
use crate::table::Table;

// entries: the directory by index, so that a sector of it can be rendered again; taken: of each place, whether a sector lies there; place 0
// is none, and counts as taken; floor: no stamp of a marker that was given up is above it; table: where each block's entry is; entry_hint and
// place_hint: where the search of one that is free begins, since none is below.
#[derive(Drop)]
pub struct Pieces {
    pub(crate) layout: Layout,
    pub(crate) entries: Vec<Entry>,
    pub(crate) taken: Vec<bool>,
    pub(crate) floor: Stamp,
    pub(crate) table: Table,
    pub(crate) entry_hint: usize,
    pub(crate) place_hint: usize,
    ghost agrees: { Agrees table.pieces.items entries.items },
    ghost single: { IsSingle entries.items },
    ghost sized: { length entries.items ≡ entries_of layout.size },
    ghost none_free: { NoneFree entry_hint entries.items },
    ghost all_taken: { AllTaken place_hint taken.items },
}

impl Pieces {
    // How its device is divided.
    pub fn layout(&self) -> Layout
        ensures { result ≡ self.now.layout }
    {
        self.layout
    }

    // Up to which version blocks of zeros may be missing.
    pub fn floor(&self) -> Stamp
        ensures { result ≡ self.now.floor }
    {
        self.floor
    }
}
