// What goes over a line: frames, each with a customer's number and a call or an answer.
ghost use Rattle.std.specs.Prelude.{◌≡◌, ◌+◌, ◌≤◌, length, MatchResult};
ghost use Rattle.wire.specs.declared.frame.FrameError.TheVariants.{TooLong, Memory};
ghost use Rattle.wire.specs.Frames.{frame_bytes, framed, the_frames};
ghost use Rattle.wire.specs.Promises.{FrameBytesSound};

use crate::number::Customer;
use octets::reader::number;
use octets::writer::Number;
use std::alloc::{AllocError, Global};

#[derive(Clone, Copy)]
pub struct Frame<'a> {
    pub customer: Customer,
    pub body: &'a [u8],
}

// Why bytes begin with no frame.
#[derive(Clone, Copy, PartialEq, Eq)]
pub enum NoFrame {
    // less than a frame: more must come
    Short,
    // too short for a customer's number: nothing that follows can be read
    Broken,
}

// Why no frame can be made. This and the errors of the same shape in crates above stay enums of their own: one error with a type parameter
// for the other cause would want a unit struct for it, and two names in each match in place of one.
#[derive(Clone, Copy, PartialEq, Eq)]
pub enum FrameError {
    // its length does not fit 4 bytes
    TooLong,
    Memory,
}

impl From<AllocError> for FrameError {
    ghost from_gives = { λ _ r. r ≡ Memory };

    fn from(_e: AllocError) -> FrameError {
        FrameError::Memory
    }
}

impl<'a> Frame<'a> {
    // The frame that these bytes begin with, and what follows it.
    #[tactic(auto, using(crate::proofs::FrameBytes::frames_sound))]
    pub fn decode(bytes: &'a [u8]) -> Result<(Frame<'a>, &'a [u8]), NoFrame>
        ensures value { the_frames result ≡ framed bytes.now }
        ensures sound { FrameBytesSound }
    {
        let (first, rest) = bytes.split_first_chunk::<4>().ok_or(NoFrame::Short)?;
        // `usize` has no `From<u32>`, and `try_from` would add an error that never comes.
        let length = u32::from_be_bytes(*first) as usize;
        let (frame, after) = rest.split_at_checked(length).ok_or(NoFrame::Short)?;
        let (customer, body) = number(frame).ok_or(NoFrame::Broken)?;
        let customer = Customer(customer);
        Ok((Frame { customer, body }, after))
    }

    pub fn encode(&self, heap: Global) -> Result<Vec<u8>, FrameError>
        ensures { MatchResult result (λ v. v.items ≡ frame_bytes self.now.customer.0 self.now.body.now) (λ e. e ≡ TooLong → 4294967296 ≤ 8 + length self.now.body.now) }
    {
        let length = u32::try_from(self.body.len()).map_err(|_| FrameError::TooLong)?;
        let length = length.checked_add(8).ok_or(FrameError::TooLong)?;
        let mut out = Vec::new(heap);
        length.put(&mut out)?;
        self.customer.0.put(&mut out)?;
        out.extend_from_slice(self.body)?;
        Ok(out)
    }
}
