// What is sent to a customer: an answer under the number of its call.
ghost use Rattle.std.specs.Prelude.{◌≡◌, IfErr, IfOk};
ghost use Rattle.wire.specs.Answers.{the_reply, answer_bytes};
ghost use Rattle.wire.specs.Frames.{frame_bytes};

use crate::answer::Answer;
use crate::frame::{Frame, FrameError};
use crate::number::Customer;
use std::alloc::Global;

#[derive(Clone, Copy)]
pub struct Response<'a> {
    pub customer: Customer,
    pub answer: Answer<'a>,
}

impl Response<'_> {
    // The frame that carries it; an answer is never too long for one.
    pub fn encode(&self, heap: Global) -> Result<Vec<u8>, FrameError>
        ensures bytes { IfOk result (λ v. v.items ≡ frame_bytes self.now.customer.0 (answer_bytes (the_reply self.now.answer))) }
        ensures memory { IfErr result (λ e. e ≡ FrameError.Memory) }
    {
        let body = self.answer.encode(heap)?;
        let frame = Frame {
            customer: self.customer,
            body: body.as_slice(),
        };
        frame.encode(heap)
    }
}
