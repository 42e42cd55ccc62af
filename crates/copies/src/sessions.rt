// What was done last of each house.
ghost use Rattle.std.specs.Prelude.{◌≡◌, vec_len};

use crate::message::Session;

// How many houses there may be.
pub const MOST_HOUSES: u64 = 49;

// Each house's last bundle that was done.
#[derive(Drop)]
pub struct Sessions<A> {
    pub(crate) each: Vec<Session<A>>,
    ghost all: { vec_len each ≡ 49 },
}
