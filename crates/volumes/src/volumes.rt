// The volumes' heads, in the order of making, with the next number and what all weigh.
ghost use Rattle.std.specs.Prelude.{◌≡◌, ◌^◌, ◌<◌, ◌≤◌, vec_capacity};
ghost use Rattle.volumes.specs.Weights.{weighs};

use crate::head::Head;

#[derive(Drop)]
pub struct Volumes {
    pub(crate) heads: Vec<Head>,
    pub(crate) next: u64,
    pub(crate) weight: u64,
    // in sectors: what may be held in all
    pub(crate) room: u64,
    ghost reserved: { 4096 ≤ vec_capacity heads },
    ghost counted: { weight ≡ weighs heads.items },
    ghost within: { weight ≤ room },
    ghost limited: { room < 2 ^ 62 },
}
