// What a house stores of its directory besides the directory's sectors.

// generation: sectors of the directory that have another one count as blank; floor: up to which version blocks of zeros may be missing.
#[derive(Clone, Copy, PartialEq, Eq)]
pub struct Directory {
    pub generation: u64,
    pub floor: u64,
}
