// A customer's call, and its bytes.
ghost use Rattle.std.specs.Prelude.{◌≡◌, ◌≢◌, length, IfOk, MatchOption};
ghost use Rattle.octets.specs.Numbers.{field};
ghost use Rattle.wire.specs.Calls.{the_call, call_bytes, decoded, outcome, kind_for, parsed, parsed_as};
ghost use Rattle.wire.specs.Kinds.{is_built};
ghost use Rattle.wire.specs.Promises.{CallBytesSound};

use crate::kind::{Kind, Tagged};
use crate::number::*;
use crate::refusal::Refusal;
use octets::SECTOR_BYTES;
use octets::reader::*;
use octets::writer::message;
use std::alloc::{AllocError, Global};

#[derive(Clone, Copy)]
pub enum Call<'a> {
    Make(Size),
    Attach(Volume),
    Read(Hold, Sector),
    Write(Hold, Sector, &'a [u8; SECTOR_BYTES]),
    Sync(Hold),
    Picture(Hold),
    Copy(Picture),
    Drop(Hold),
    DropPicture(Picture),
}

impl<'a> Call<'a> {
    // The call that these bytes are, or why they are refused. A write's sector is handed on as a part of the bytes.
    #[tactic(auto, using(crate::proofs::CallBytes::calls_sound))]
    pub fn decode(bytes: &'a [u8]) -> Result<Call<'a>, Refusal>
        ensures value { outcome result ≡ decoded is_built bytes.now }
        ensures sound { CallBytesSound }
    {
        let Tagged { kind, rest } = Tagged::read(bytes).ok_or(Refusal::Malformed)?;
        if !kind.is_built() {
            return Err(Refusal::NotBuilt);
        }
        parse(kind, rest).ok_or(Refusal::Malformed)
    }

    pub fn encode(&self, heap: Global) -> Result<Vec<u8>, AllocError>
        ensures { IfOk result (λ v. v.items ≡ call_bytes (the_call self.now)) }
    {
        let kind = u8::from(self.kind());
        match *self {
            Call::Make(size) => message(heap, kind, &[size.0]),
            Call::Attach(volume) => message(heap, kind, &[volume.0]),
            Call::Read(hold, sector) => message(
                heap,
                kind,
                &[hold.volume.0, hold.token.0, sector.0],
            ),
            Call::Write(hold, sector, content) => {
                let mut out = message(heap, kind, &[hold.volume.0, hold.token.0, sector.0])?;
                out.extend_from_slice(content)?;
                Ok(out)
            }
            Call::Sync(hold) | Call::Picture(hold) | Call::Drop(hold) => message(
                heap,
                kind,
                &[hold.volume.0, hold.token.0],
            ),
            Call::Copy(picture) | Call::DropPicture(picture) => message(heap, kind, &[picture.0]),
        }
    }

    pub fn kind(&self) -> Kind
        ensures { result ≡ kind_for (the_call self.now) }
    {
        match *self {
            Call::Make(_) => Kind::Make,
            Call::Attach(_) => Kind::Attach,
            Call::Read(_, _) => Kind::Read,
            Call::Write(_, _, _) => Kind::Write,
            Call::Sync(_) => Kind::Sync,
            Call::Picture(_) => Kind::Picture,
            Call::Copy(_) => Kind::Copy,
            Call::Drop(_) => Kind::Drop,
            Call::DropPicture(_) => Kind::DropPicture,
        }
    }
}

// The volume and the token that these bytes are.
fn held(bytes: &[u8]) -> Option<Hold>
    ensures { MatchOption result (length bytes.now ≢ 16) (λ h. (length bytes.now ≡ 16) × (h ≡ record { volume = record { 0 = field 0 bytes.now }; token = record { 0 = field 1 bytes.now } })) }
{
    let [volume, token] = exactly::<2>(bytes)?;
    Some(Hold::new(volume, token))
}

// The call of this kind that the bytes behind it spell.
fn parse<'a>(kind: Kind, bytes: &'a [u8]) -> Option<Call<'a>>
    ensures { parsed result ≡ parsed_as kind bytes.now }
{
    match kind {
        Kind::Make => {
            let [size] = exactly::<1>(bytes)?;
            Some(Call::Make(Size(size)))
        }
        Kind::Attach => {
            let [volume] = exactly::<1>(bytes)?;
            Some(Call::Attach(Volume(volume)))
        }
        Kind::Read => {
            let [volume, token, sector] = exactly::<3>(bytes)?;
            Some(Call::Read(Hold::new(volume, token), Sector(sector)))
        }
        Kind::Write => {
            let ([volume, token, at], rest) = numbers::<3>(bytes)?;
            let content = sector(rest)?;
            Some(Call::Write(Hold::new(volume, token), Sector(at), content))
        }
        Kind::Sync => Some(Call::Sync(held(bytes)?)),
        Kind::Picture => Some(Call::Picture(held(bytes)?)),
        Kind::Copy => {
            let [picture] = exactly::<1>(bytes)?;
            Some(Call::Copy(Picture(picture)))
        }
        Kind::Drop => Some(Call::Drop(held(bytes)?)),
        Kind::DropPicture => {
            let [picture] = exactly::<1>(bytes)?;
            Some(Call::DropPicture(Picture(picture)))
        }
    }
}
