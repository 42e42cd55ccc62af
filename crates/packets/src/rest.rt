// What a state is besides its blocks.
use volumes::head::Head;

// The next number, what all volumes weigh, and their heads.
#[derive(Drop)]
pub struct Rest {
    pub next: u64,
    pub weight: u64,
    pub heads: Vec<Head>,
}
