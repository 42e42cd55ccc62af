// Volumes as they were stored, or as another copy has them.
ghost use Rattle.std.specs.Prelude.{◌≡◌, ◌≤◌, ◌<◌, ◌^◌, ◌&&◌, ◌==◌, true, false, IfOk, MatchOption, nat_le};
ghost use Rattle.volumes.specs.Weights.{weighs};
ghost use Rattle.volumes.specs.Restored.{is_right};
ghost use Rattle.volumes.specs.Service.{the_service};
ghost use Rattle.volumes.specs.Simulation.{room_left};

use crate::head::Head;
use crate::service::{MOST_VOLUMES, VOLUME_WEIGHT, room_of};
use crate::volumes::Volumes;
use std::alloc::{AllocError, Global};

// What all volumes weigh, if 64 bits have it.
fn weigh(heads: &[Head]) -> Option<u64>
    ensures { MatchOption result (2 ^ 64 ≤ weighs heads.now) (λ w. w ≡ weighs heads.now) }
{
    match heads {
        [] => Some(0),
        [first, rest @ ..] => weigh(rest)?
            .checked_add(VOLUME_WEIGHT)?
            .checked_add(first.used),
    }
}

fn is_right(room: u64, weight: u64, heads: &[Head]) -> bool
    requires { room < 2 ^ 62 }
    ensures { result ≡ is_right room weight heads.now }
{
    heads.len() <= MOST_VOLUMES && weight <= room && weigh(heads) == Some(weight)
}

impl Volumes {
    // None if they don't weigh what is said, if there isn't room for them, or if they are too many.
    // Takes memory as `new` does.
    pub fn restored(
        heap: Global,
        sectors: u64,
        next: u64,
        weight: u64,
        heads: &[Head],
    ) -> Result<Option<Volumes>, AllocError>
        ensures { IfOk result (λ o. MatchOption o (is_right (room_left sectors) weight heads.now ≡ false) (λ v. (is_right (room_left sectors) weight heads.now ≡ true) × (the_service v ≡ record { next = next; heads = heads.now; weight = weight }) × (v.room ≡ room_left sectors))) }
    {
        let room = room_of(sectors);
        if !is_right(room, weight, heads) {
            return Ok(None);
        }
        let mut all = Vec::with_capacity(heap, MOST_VOLUMES)?;
        all.extend_from_slice(heads)?;
        Ok(Some(Volumes {
            heads: all,
            next,
            weight,
            room,
        }))
    }

    pub fn next(&self) -> u64
        ensures { result ≡ self.now.next }
    {
        self.next
    }

    pub fn heads(&self) -> &[Head]
        ensures { result.now ≡ self.now.heads.items }
    {
        &self.heads
    }
}
