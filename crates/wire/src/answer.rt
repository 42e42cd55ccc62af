// What a customer is answered, and its bytes.
ghost use Rattle.std.specs.Prelude.{◌≡◌, ◌≤◌, vec_len, IfOk};
ghost use Rattle.std.specs.Option.{option_map};
ghost use Rattle.wire.specs.Answers.{the_reply, case_for, answer_bytes, answered_by, answered_as, refused_by};
ghost use Rattle.wire.specs.Cases.{case_number};
ghost use Rattle.wire.specs.Promises.{AnswerBytesSound};

use crate::case::Case;
use crate::number::*;
use crate::refusal::Refusal;
use octets::SECTOR_BYTES;
use octets::reader::*;
use octets::writer::message;
use std::alloc::{AllocError, Global};

#[derive(Clone, Copy)]
pub enum Answer<'a> {
    Refused(Refusal),
    Yes,
    // the number of what was made
    Number(u64),
    Token(Token, Size),
    Sector(&'a [u8; SECTOR_BYTES]),
    // there is no room for it
    Full,
}

impl<'a> Answer<'a> {
    // The answer that these bytes are.
    #[tactic(auto, using(crate::proofs::AnswerBytes::answers_sound, crate::proofs::AnswerBytes::case_back, crate::proofs::AnswerBytes::caseless))]
    pub fn decode(bytes: &'a [u8]) -> Option<Answer<'a>>
        ensures value { option_map the_reply result ≡ answered_by bytes.now }
        ensures sound { AnswerBytesSound }
    {
        let (first, rest) = bytes.split_first()?;
        let case = Case::try_from(*first).ok()?;
        parse(case, rest)
    }

    pub fn encode(&self, heap: Global) -> Result<Vec<u8>, AllocError>
        ensures bytes { IfOk result (λ v. v.items ≡ answer_bytes (the_reply self.now)) }
        ensures short { IfOk result (λ v. vec_len v ≤ 513) }
    {
        let case = u8::from(self.case());
        match *self {
            Answer::Refused(refusal) => {
                let mut out = message(heap, case, &[])?;
                out.push(u8::from(refusal))?;
                Ok(out)
            }
            Answer::Yes | Answer::Full => message(heap, case, &[]),
            Answer::Number(n) => message(heap, case, &[n]),
            Answer::Token(token, size) => message(heap, case, &[token.0, size.0]),
            Answer::Sector(content) => {
                let mut out = message(heap, case, &[])?;
                out.extend_from_slice(content)?;
                Ok(out)
            }
        }
    }

    pub fn case(&self) -> Case
        ensures { result ≡ case_for (the_reply self.now) }
    {
        match *self {
            Answer::Refused(_) => Case::Refused,
            Answer::Yes => Case::Yes,
            Answer::Number(_) => Case::Number,
            Answer::Token(_, _) => Case::Token,
            Answer::Sector(_) => Case::Sector,
            Answer::Full => Case::Full,
        }
    }
}

// The answer of this case that the bytes behind its number spell.
fn parse<'a>(case: Case, bytes: &'a [u8]) -> Option<Answer<'a>>
    ensures { option_map the_reply result ≡ answered_as (case_number case) bytes.now }
{
    match case {
        Case::Refused => refused(bytes),
        Case::Yes => bytes.is_empty().then_some(Answer::Yes),
        Case::Number => {
            let [n] = exactly::<1>(bytes)?;
            Some(Answer::Number(n))
        }
        Case::Token => {
            let [token, size] = exactly::<2>(bytes)?;
            Some(Answer::Token(Token(token), Size(size)))
        }
        Case::Sector => Some(Answer::Sector(sector(bytes)?)),
        Case::Full => bytes.is_empty().then_some(Answer::Full),
    }
}

// The refusal whose number these bytes are.
fn refused<'a>(bytes: &[u8]) -> Option<Answer<'a>>
    ensures { option_map the_reply result ≡ refused_by bytes.now }
{
    let [number] = *bytes.as_array::<1>()?;
    let refusal = Refusal::try_from(number).ok()?;
    Some(Answer::Refused(refusal))
}
