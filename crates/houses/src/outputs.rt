// What a house sends and answers when all is stored, as bytes.
ghost use Rattle.std.specs.Prelude.{◌≡◌, ◌∷◌, [], map, IfOk};
ghost use Rattle.disks.specs.Disks.{No};
ghost use Rattle.wire.specs.Answers.{answer_bytes};
ghost use Rattle.houses.specs.Sent.{answer, the_output};

use crate::event::Output;
use crate::house::Stopped;
use crate::turning::Turning;
use copies::message::{Message, Part, Tail};
use copies::number::CallNumber;
use copies::turn::Serve;
use packets::block::Block;
use packets::packet::Packet;
use packets::rest::Rest;
use packets::text::Text;
use packets::whole::encode;
use std::alloc::Global;
use store::parts::Portion;
use store::store::Store;
use wire::answer::Answer;
use wire::refusal::Refusal;

// Eight calls wait already.
pub fn busy(heap: Global, id: CallNumber) -> Result<Vec<Output>, Stopped>
    ensures { IfOk result (λ v. map the_output v.items ≡ answer id.0 (answer_bytes (No 11)) ∷ []) }
{
    let bytes = Answer::Refused(Refusal::Busy).encode(heap)?;
    let mut outputs = Vec::new(heap);
    outputs.push(Output::Answer(id, bytes))?;
    Ok(outputs)
}

// Blocks that another copy wants; with the last of them heads and sessions.
fn part_of(
    heap: Global,
    turn: &Turning,
    store: &Store,
    serve: Serve,
    portion: &Portion,
) -> Result<Part<Rest, Block, Text>, Stopped> {
    let blocks = store.blocks(heap, portion)?;
    let tail = match portion.next {
        Some(key) => Tail::More(key),
        None => Tail::Ends(store.rest(heap)?, turn.house.sessions.copied_all(heap)?),
    };
    Ok(Part {
        asked: serve.want,
        promised: turn.house.agreeing.promised,
        version: turn.house.agreeing.version,
        last: turn.house.agreeing.last,
        whole: portion.whole,
        floor: store.floor(),
        blocks,
        tail,
    })
}

fn add_answers(heap: Global, turn: &Turning, outputs: &mut Vec<Output>) -> Result<(), Stopped> {
    for told in turn.told.iter().rev() {
        let bytes = Vec::from_slice(heap, told.reply.as_bytes())?;
        outputs.push(Output::Answer(told.id, bytes))?;
    }
    Ok(())
}

fn add_posts(heap: Global, turn: &Turning, outputs: &mut Vec<Output>) -> Result<(), Stopped> {
    for post in turn.posts(heap)? {
        let bytes = encode(&post.what, heap)?;
        outputs.push(Output::Packet(post.to, bytes))?;
    }
    Ok(())
}

fn add_part(
    heap: Global,
    turn: &Turning,
    store: &Store,
    portion: Option<Portion>,
    outputs: &mut Vec<Output>,
) -> Result<(), Stopped> {
    if let (Some(serve), Some(portion)) = (turn.sends.serves, portion) {
        let part = part_of(heap, turn, store, serve, &portion)?;
        let message: Packet = Message::Part(part);
        let bytes = encode(&message, heap)?;
        outputs.push(Output::Packet(serve.to, bytes))?;
    }
    Ok(())
}

pub(crate) fn outputs(
    heap: Global,
    turn: &Turning,
    store: &Store,
    portion: Option<Portion>,
) -> Result<Vec<Output>, Stopped> {
    let mut outputs = Vec::new(heap);
    add_answers(heap, turn, &mut outputs)?;
    add_posts(heap, turn, &mut outputs)?;
    add_part(heap, turn, store, portion, &mut outputs)?;
    Ok(outputs)
}
