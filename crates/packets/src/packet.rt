// A message as bytes, by its kind.
ghost use Rattle.std.specs.Prelude.{◌≡◌};
ghost use Rattle.packets.specs.Codecs.{Gives, Puts, SoundWhole, whole};
ghost use Rattle.packets.specs.Formats.{message, Said};
ghost use Rattle.packets.specs.Seen.{see_message};

use crate::block::Block;
use crate::bytes::Bytes;
use crate::fault::*;
use crate::rest::Rest;
use crate::text::Text;
use crate::whole::decode;
use copies::message::*;
use std::alloc::Global;

// What one house sends another.
pub type Packet = Message<Rest, Block, Text, Text>;

const BUNDLE: u8 = 1;

const REPLIES: u8 = 2;

const STATUS: u8 = 3;

const WANT: u8 = 4;

const PART: u8 = 5;

impl Bytes for Message<Rest, Block, Text, Text> {
    ghost View = { Said };

    ghost view = { see_message };

    ghost codec = { message };

    #[tactic(auto, unfolding(crate::specs::Formats::message))]
    fn put(&self, out: &mut Vec<u8>) -> Result<(), Unsent> {
        match self {
            Message::Bundle(bundle) => {
                BUNDLE.put(out)?;
                bundle.put(out)
            }
            Message::Replies(session) => {
                REPLIES.put(out)?;
                session.put(out)
            }
            Message::Status(status) => {
                STATUS.put(out)?;
                status.put(out)
            }
            Message::Want(want) => {
                WANT.put(out)?;
                want.put(out)
            }
            Message::Part(part) => {
                PART.put(out)?;
                part.put(out)
            }
        }
    }

    #[tactic(auto, unfolding(crate::specs::Formats::message))]
    fn take(heap: Global, bytes: &[u8]) -> Result<(Packet, &[u8]), Unread> {
        let (kind, rest) = u8::take(heap, bytes)?;
        match kind {
            BUNDLE => {
                let (bundle, rest) = Bundle::take(heap, rest)?;
                Ok((Message::Bundle(bundle), rest))
            }
            REPLIES => {
                let (session, rest) = Session::take(heap, rest)?;
                Ok((Message::Replies(session), rest))
            }
            STATUS => {
                let (status, rest) = Status::take(heap, rest)?;
                Ok((Message::Status(status), rest))
            }
            WANT => {
                let (want, rest) = Want::take(heap, rest)?;
                Ok((Message::Want(want), rest))
            }
            PART => {
                let (part, rest) = Part::take(heap, rest)?;
                Ok((Message::Part(part), rest))
            }
            _ => Err(Unread::Fault(Fault::Range)),
        }
    }
}

#[tactic(auto, using(crate::proofs::Formats::messages))]
pub fn decode_message(heap: Global, bytes: &[u8]) -> Result<Packet, Unread>
    ensures value { Gives see_message result (whole message bytes.now) }
    ensures sound { SoundWhole message }
{
    decode(heap, bytes)
}
