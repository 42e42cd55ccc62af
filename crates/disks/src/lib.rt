// The meaning of the whole and what is promised of it are in specs/; here is what is proved of volumes.
#![tactic(auto)]

ghost use Rattle.disks.specs.Worked.{WorkedCases, CopySynced};
ghost use Rattle.disks.specs.Promise.{OldTokensNothing, OldTokensRefused, Apart, ApartAll, PicturesStand, IsADevice, CutAsADevice};

// What is promised of volumes as if in one place, for every run of calls and cuts.
pub fn volumes_promised()
    ensures tokens { OldTokensNothing }
    ensures refused { OldTokensRefused }
    ensures apart { Apart }
    ensures wider { ApartAll }
    ensures pictures { PicturesStand }
    ensures device { IsADevice }
    ensures cut { CutAsADevice }
    ensures worked { WorkedCases }
    ensures synced { CopySynced }
{}
