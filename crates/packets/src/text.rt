// The bytes of a call or of an answer, as one value: two with the same bytes are the same.
ghost use Rattle.std.specs.Prelude.{◌≡◌, ℕ, List, vec_items};

use copies::service::Copied;
use std::alloc::{AllocError, Global};
use std::marker::Model;

#[derive(Drop)]
pub struct Text {
    bytes: Vec<u8>,
}

impl Model for Text {
    ghost Value = { List ℕ };

    ghost view = { λ t. vec_items t.bytes };
}

impl Text {
    pub fn new(bytes: Vec<u8>) -> Text
        ensures { result ≡ bytes.items }
    {
        Text { bytes }
    }

    pub fn as_bytes(&self) -> &[u8]
        ensures { result.now ≡ self.now }
    {
        &self.bytes
    }
}

impl Copied for Text {
    fn copied(&self, heap: Global) -> Result<Text, AllocError> {
        let bytes = Vec::from_slice(heap, &self.bytes)?;
        Ok(Text { bytes })
    }
}
