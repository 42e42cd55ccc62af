// Houses with copies of the volumes, whose blocks lie on directories: what is promised of them together.
#![tactic(auto)]

ghost use Rattle.blocks_kept.specs.Held.{BlocksKept};
ghost use Rattle.blocks_kept.specs.Volumes.{VolumesAsOne, VolumesAnswer};

// On a device with more places than there is room for, what is written is looked up again and is as young as its version, a portion says of
// each block in its range what it is, one that was taken over is as it says, and a pass comes to its end and fits a copy that begins again.
pub fn blocks_are_kept()
    ensures { BlocksKept }
{}

// The houses are as one place in which nothing is ever cut; and with any one out, calls at the others can be answered.
pub fn volumes_are_as_one()
    ensures as_one { VolumesAsOne }
    ensures answer { VolumesAnswer }
{}
