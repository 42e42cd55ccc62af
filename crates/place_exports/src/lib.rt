// `place` for programs in other languages: a list of calls in, a list of answers out, by which tests compare it with a second
// implementation. What it calls is proved below; here only that it stays within `out`.
#![tactic(auto)]

ghost use Rattle.std.specs.Prelude.{◌≤◌, length};

use octets::writer::hand_out;
use place::one_place::OnePlace;
use std::alloc::Global;
use wire::frame::{Frame, FrameError};
use wire::number::Customer;

// Plays the frames of `calls` one after the other on blank volumes. For each the answer's frame follows, with what all weigh then in
// the place of the customer's number. Says how many bytes are in `out`: 0 where they don't fit or memory fails, since C takes a number
// and no Option.
#[unsafe(no_mangle)]
pub extern "C" fn place_play(heap: Global, sectors: u64, calls: &[u8], out: &mut [u8]) -> usize
    ensures { result ≤ length out.new }
{
    hand_out(play_all(heap, sectors, calls).ok(), out)
}

fn play_all(heap: Global, sectors: u64, calls: &[u8]) -> Result<Vec<u8>, FrameError> {
    let mut place = OnePlace::new(heap, sectors)?;
    let mut answers = Vec::new(heap);
    let mut left = calls;
    while let Ok((frame, rest)) = Frame::decode(left) {
        play_one(heap, &mut place, frame.body, &mut answers)?;
        left = rest;
    }
    Ok(answers)
}

fn play_one(
    heap: Global,
    place: &mut OnePlace,
    call: &[u8],
    answers: &mut Vec<u8>,
) -> Result<(), FrameError> {
    let body = place.answer(heap, call)?;
    let frame = Frame {
        customer: Customer(place.weight()),
        body: body.as_slice(),
    };
    let bytes = frame.encode(heap)?;
    answers.extend_from_slice(bytes.as_slice())?;
    Ok(())
}
