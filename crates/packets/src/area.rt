// Where a house's tables are on its device: behind the journal, each in an area of its own.
#[derive(Clone, Copy, PartialEq, Eq)]
pub struct Area {
    pub first: u64,
    // how many sectors it has
    pub count: u64,
}
