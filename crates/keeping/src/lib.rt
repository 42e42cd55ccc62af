// How a house keeps the volumes' blocks on its directory: what is done on what is kept, as a keeper.
#![tactic(auto)]

ghost use Rattle.keeping.specs.Keeper.{AlwaysGood, AlwaysTidy, DoesAsBare, RoomFits};
ghost use Rattle.keeping.specs.Single.{WritesOne};

// What always holds of what is kept stays so, and nothing that is gone is kept; the keeper does what is done on what is kept; and there are
// more places than there is room for.
pub fn blocks_stay_good()
    ensures good { AlwaysGood }
    ensures tidy { AlwaysTidy }
    ensures bare { DoesAsBare }
    ensures room { RoomFits }
{}

// Where a call changes one sector, one sector is set, if there is room; where it changes none, what is gone goes, and nothing else is done.
#[tactic(auto, using(crate::proofs::Single::writes_one))]
pub fn one_sector_is_set()
    ensures one { WritesOne }
{}
