// What is promised of how many sectors are held.
ghost use Rattle.pieces.specs.Fits.{FewerInRange, FitsStay, ReplacesStaysClean};
ghost use Rattle.pieces.specs.Counts.{HeldWithin, HeldFits, FitsWithin, HeldByBlocks, HeldUsed, HeldByNumbers, SetStaysClean, ThinnedStaysClean};

// A directory that holds no sector that another one doesn't holds no more, so it has room for each that the other holds.
#[tactic(auto, using(crate::proofs::Within::held_within, crate::proofs::Fitting::held_fits, crate::proofs::Fitting::fits_within))]
pub fn held_within()
    ensures within { HeldWithin }
    ensures fits { HeldFits }
    ensures room { FitsWithin }
{}

// What is held is held by distinct blocks, and is what isn't zeros where no sector that is held is zeros; which stays so.
#[tactic(auto, using(crate::proofs::Blocks::held_by_blocks, crate::proofs::Used::held_used, crate::proofs::Numbered::held_by_numbers, crate::proofs::SetClean::set_stays_clean, crate::proofs::Thinning::thinned_stays_clean))]
pub fn held_by_blocks()
    ensures blocks { HeldByBlocks }
    ensures used { HeldUsed }
    ensures numbers { HeldByNumbers }
    ensures set { SetStaysClean }
    ensures thinned { ThinnedStaysClean }
{}

// What another directory holds, and no less than this one, is taken over: there is room for it.
#[tactic(auto, using(crate::proofs::InUse::fewer_in_range, crate::proofs::Filling::fits_stay, crate::proofs::FillSteps::replaces_stays_clean))]
pub fn fits_in()
    ensures range { FewerInRange }
    ensures stays { FitsStay }
    ensures clean { ReplacesStaysClean }
{}
