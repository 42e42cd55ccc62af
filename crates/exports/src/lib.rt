// `wire` for programs in other languages: functions on numbers and byte strings, by which tests compare it with a second decoder.
#![tactic(auto)]

ghost use Rattle.std.specs.Prelude.{◌≡◌, ◌<◌, [], ◌∷◌, Some, take, slice_index, IfSome};
ghost use Rattle.std.specs.Option.{option_map};
ghost use Rattle.wire.specs.Answers.{answered_by, the_reply};
ghost use Rattle.wire.specs.Calls.{decoded, is_call, the_call};
ghost use Rattle.wire.specs.Cases.{case_number};
ghost use Rattle.wire.specs.Frames.{framed, frame_bytes};
ghost use Rattle.wire.specs.Kinds.{is_built, number_of};
ghost use Rattle.exports.specs.Parts.{call_parts, answer_parts, frame_parts, call_from, PutCall, answer_from, PutAnswer, Again};

use octets::SECTOR_BYTES;
use octets::reader::sector;
use octets::writer::hand_out;
use std::alloc::Global;
use wire::answer::Answer;
use wire::call::Call;
use wire::case::Case;
use wire::frame::{Frame, NoFrame};
use wire::kind::Kind;
use wire::number::*;
use wire::refusal::Refusal;

// What bytes decode to: a refusal's number, or 0, the kind and the numbers of a call. The C interface has no enum with values, so numbers say which it is, here and below.
#[repr(C)]
#[derive(Clone, Copy, Default)]
pub struct CallParts {
    pub refusal: u64,
    pub kind: u64,
    pub first: u64,
    pub second: u64,
    pub third: u64,
}

fn parts(kind: Kind, numbers: [u64; 3]) -> CallParts
    ensures { result ≡ record { refusal = 0; kind = number_of kind; first = slice_index numbers 0; second = slice_index numbers 1; third = slice_index numbers 2 } }
{
    let [first, second, third] = numbers;
    CallParts {
        refusal: 0,
        kind: u64::from(u8::from(kind)),
        first,
        second,
        third,
    }
}

#[unsafe(no_mangle)]
pub extern "C" fn wire_call(bytes: &[u8]) -> CallParts
    ensures { result ≡ call_parts (decoded is_built bytes.now) }
{
    match Call::decode(bytes) {
        Ok(call) => of_call(&call),
        Err(refusal) => CallParts {
            refusal: u64::from(u8::from(refusal)),
            ..CallParts::default()
        },
    }
}

fn of_call(call: &Call) -> CallParts
    ensures { result ≡ call_parts (is_call (the_call call.now)) }
{
    let kind = call.kind();
    match *call {
        Call::Make(size) => parts(kind, [size.0, 0, 0]),
        Call::Attach(volume) => parts(kind, [volume.0, 0, 0]),
        Call::Read(hold, sector) | Call::Write(hold, sector, _) => parts(
            kind,
            [hold.volume.0, hold.token.0, sector.0],
        ),
        Call::Sync(hold) | Call::Picture(hold) | Call::Drop(hold) => parts(
            kind,
            [hold.volume.0, hold.token.0, 0],
        ),
        Call::Copy(picture) | Call::DropPicture(picture) => parts(kind, [picture.0, 0, 0]),
    }
}

// What bytes decode to as an answer: its case and its numbers, or case 6 where they are none.
#[repr(C)]
#[derive(Clone, Copy, Default)]
pub struct AnswerParts {
    pub case: u64,
    pub first: u64,
    pub second: u64,
}

#[unsafe(no_mangle)]
pub extern "C" fn wire_answer(bytes: &[u8]) -> AnswerParts
    ensures { result ≡ answer_parts (answered_by bytes.now) }
{
    match Answer::decode(bytes) {
        Some(answer) => of_answer(&answer),
        None => AnswerParts {
            case: 6,
            ..AnswerParts::default()
        },
    }
}

fn of_answer(answer: &Answer) -> AnswerParts
    ensures { result ≡ answer_parts (Some (the_reply answer.now)) }
{
    let (first, second) = match *answer {
        Answer::Refused(refusal) => (u64::from(u8::from(refusal)), 0),
        Answer::Number(n) => (n, 0),
        Answer::Token(token, size) => (token.0, size.0),
        Answer::Yes | Answer::Sector(_) | Answer::Full => (0, 0),
    };
    AnswerParts {
        case: u64::from(u8::from(answer.case())),
        first,
        second,
    }
}

// What bytes begin with: state 0 for a frame, 1 for less than one, 2 for none.
#[repr(C)]
#[derive(Clone, Copy, Default)]
pub struct FrameParts {
    pub state: u64,
    pub customer: u64,
    pub body: u64,
    pub after: u64,
}

fn no_frame(state: u64) -> FrameParts
    ensures { result ≡ record { state = state; customer = 0; body = 0; after = 0 } }
{
    FrameParts {
        state,
        ..FrameParts::default()
    }
}

#[unsafe(no_mangle)]
pub extern "C" fn wire_frame(bytes: &[u8]) -> FrameParts
    ensures { result ≡ frame_parts (framed bytes.now) }
{
    match Frame::decode(bytes) {
        // `u64` has no `From<usize>`, and `try_from` would add an error that never comes.
        Ok((frame, after)) => FrameParts {
            state: 0,
            customer: frame.customer.0,
            body: frame.body.len() as u64,
            after: after.len() as u64,
        },
        Err(NoFrame::Short) => no_frame(1),
        Err(NoFrame::Broken) => no_frame(2),
    }
}

// The call of a kind with these numbers and, where it is a write, this sector.
fn call_from<'a>(kind: Kind, numbers: [u64; 3], content: &'a [u8; SECTOR_BYTES]) -> Call<'a>
    ensures { the_call result ≡ call_from kind numbers content.now }
{
    let [first, second, third] = numbers;
    let hold = Hold::new(first, second);
    match kind {
        Kind::Make => Call::Make(Size(first)),
        Kind::Attach => Call::Attach(Volume(first)),
        Kind::Read => Call::Read(hold, Sector(third)),
        Kind::Write => Call::Write(hold, Sector(third), content),
        Kind::Sync => Call::Sync(hold),
        Kind::Picture => Call::Picture(hold),
        Kind::Copy => Call::Copy(Picture(first)),
        Kind::Drop => Call::Drop(hold),
        Kind::DropPicture => Call::DropPicture(Picture(first)),
    }
}

// That call's bytes, if there is such a kind and the content is a sector.
fn encoded_call(heap: Global, kind: u8, numbers: [u64; 3], content: &[u8]) -> Option<Vec<u8>>
    ensures { IfSome result (λ v. PutCall kind numbers content.now v.items) }
{
    let kind = Kind::try_from(kind).ok()?;
    let content = sector(content)?;
    call_from(kind, numbers, content).encode(heap).ok()
}

// Puts a call's bytes at the front of `out`, and says how many; 0 for no such kind, content that is no sector, or no room. The C interface passes the parts of a call or an answer one by one.
#[unsafe(no_mangle)]
pub extern "C" fn wire_put_call(
    heap: Global,
    kind: u8,
    first: u64,
    second: u64,
    third: u64,
    content: &[u8],
    out: &mut [u8],
) -> usize
    ensures { 0 < result → PutCall kind (first ∷ second ∷ third ∷ []) content.now (take result out.new) }
{
    hand_out(
        encoded_call(heap, kind, [first, second, third], content),
        out,
    )
}

// The answer of a case with these numbers and, where it is one, this sector.
fn answer_from<'a>(case: Case, numbers: [u64; 2], content: &'a [u8]) -> Option<Answer<'a>>
    ensures { option_map the_reply result ≡ answer_from (case_number case) numbers content.now }
{
    let [first, second] = numbers;
    match case {
        Case::Refused => {
            let number = u8::try_from(first).ok()?;
            let refusal = Refusal::try_from(number).ok()?;
            Some(Answer::Refused(refusal))
        }
        Case::Yes => Some(Answer::Yes),
        Case::Number => Some(Answer::Number(first)),
        Case::Token => Some(Answer::Token(Token(first), Size(second))),
        Case::Sector => Some(Answer::Sector(sector(content)?)),
        Case::Full => Some(Answer::Full),
    }
}

// That answer's bytes, if there is such an answer.
#[tactic(auto, using(wire::proofs::AnswerBytes::case_back))]
fn encoded_answer(heap: Global, case: u8, numbers: [u64; 2], content: &[u8]) -> Option<Vec<u8>>
    ensures { IfSome result (λ v. PutAnswer case numbers content.now v.items) }
{
    let case = Case::try_from(case).ok()?;
    answer_from(case, numbers, content)?.encode(heap).ok()
}

// Puts an answer's bytes at the front of `out`, and says how many; 0 for no such answer or no room.
#[unsafe(no_mangle)]
pub extern "C" fn wire_put_answer(
    heap: Global,
    case: u8,
    first: u64,
    second: u64,
    content: &[u8],
    out: &mut [u8],
) -> usize
    ensures { 0 < result → PutAnswer case (first ∷ second ∷ []) content.now (take result out.new) }
{
    hand_out(encoded_answer(heap, case, [first, second], content), out)
}

// Puts a frame's bytes at the front of `out`, and says how many; 0 for no room.
#[unsafe(no_mangle)]
pub extern "C" fn wire_put_frame(heap: Global, customer: u64, body: &[u8], out: &mut [u8]) -> usize
    ensures { 0 < result → take result out.new ≡ frame_bytes customer body.now }
{
    let frame = Frame {
        customer: Customer(customer),
        body,
    };
    hand_out(frame.encode(heap).ok(), out)
}

// The bytes that a call encodes to after it was decoded.
fn again(heap: Global, bytes: &[u8]) -> Option<Vec<u8>>
    ensures { IfSome result (λ v. Again (decoded is_built bytes.now) v.items) }
{
    Call::decode(bytes).ok()?.encode(heap).ok()
}

// Decodes a call and puts the bytes that it encodes to at the front of `out`; 0 for no call or no room.
#[unsafe(no_mangle)]
pub extern "C" fn wire_call_again(heap: Global, bytes: &[u8], out: &mut [u8]) -> usize
    ensures { 0 < result → Again (decoded is_built bytes.now) (take result out.new) }
{
    hand_out(again(heap, bytes), out)
}
