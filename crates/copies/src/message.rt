// What houses say to each other.
use crate::agreeing::Proposal;
use crate::number::*;
use crate::sessions::Sessions;

// A customer's call.
#[derive(Drop)]
pub struct Item<C> {
    pub id: CallNumber,
    pub call: C,
}

// The calls that a house sends together.
#[derive(Drop)]
pub struct Bundle<C> {
    pub house: HouseNumber,
    pub number: Number,
    pub calls: Vec<Item<C>>,
}

#[derive(Drop)]
pub struct Reply<A> {
    pub id: CallNumber,
    pub reply: A,
}

// The last bundle of a house that was done: its number, and the replies.
#[derive(Drop)]
pub struct Session<A> {
    pub number: Number,
    pub replies: Vec<Reply<A>>,
}

// What a copy says of itself.
#[derive(Drop)]
pub struct Status<C> {
    pub promised: Ballot,
    pub version: Version,
    pub last: Ballot,
    pub proposal: Option<Proposal<C>>,
    pub recovering: bool,
}

// Blocks are asked for, from a key on, by a copy that recovers.
#[derive(Clone, Copy, PartialEq, Eq)]
pub struct Want {
    pub base: Version,
    pub top: Version,
    pub key: Key,
}

// A block as it is kept: with the version at which it last changed.
#[derive(Drop)]
pub struct Stamped<B> {
    pub key: Key,
    pub stamp: Version,
    pub block: B,
}

// How a part ends: the rest of the blocks is to be asked for from a key on, or it was the last, and the state's rest comes with it.
#[derive(Drop)]
pub enum Tail<X, A> {
    More(Key),
    Ends(X, Sessions<A>),
}

// The blocks that were asked for, as they are at a version. Whole: what stands in the range and isn't among them is empty.
#[derive(Drop)]
pub struct Part<X, B, A> {
    pub asked: Want,
    pub promised: Ballot,
    pub version: Version,
    pub last: Ballot,
    pub whole: bool,
    pub floor: Version,
    pub blocks: Vec<Stamped<B>>,
    pub tail: Tail<X, A>,
}

#[derive(Drop)]
pub enum Message<X, B, C, A> {
    Bundle(Bundle<C>),
    Replies(Session<A>),
    Status(Status<C>),
    Want(Want),
    Part(Part<X, B, A>),
}
