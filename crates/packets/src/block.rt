// A block of a volume: eight sectors, of which those that hold nothing but zeros have no bytes.
ghost use Rattle.std.specs.Prelude.{◌≡◌, vec_len};

use octets::SECTOR_BYTES;

#[derive(Drop)]
pub struct Block {
    pub sectors: Vec<[u8; SECTOR_BYTES]>,
    ghost eight: { vec_len sectors ≡ 8 },
}
