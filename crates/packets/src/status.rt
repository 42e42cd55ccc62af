// What a copy says of itself, and what it stores of the agreement.
ghost use Rattle.std.specs.Prelude.{◌≡◌, Bool, map};
ghost use Rattle.copies.specs.Messages.{Recovery as RecoverySaid};
ghost use Rattle.copies.specs.Views.{the_proposal, the_status, the_recovery, the_agreeing};
ghost use Rattle.packets.specs.Codecs.{Gives, Puts};
ghost use Rattle.packets.specs.Formats.{flag, proposal, status, recovery, agreeing, CallProposal, CallStatus, CallAgreeing};

use crate::bytes::Bytes;
use crate::fault::*;
use crate::list::*;
use crate::text::Text;
use copies::agreeing::*;
use copies::message::*;
use copies::number::*;
use std::alloc::Global;

// How many bundles a command has at most: one of each house.
pub const MOST_BUNDLES: u8 = 49;

// What a byte says of whether something holds or is there.
pub(crate) const NO: u8 = 0;

pub(crate) const YES: u8 = 1;

impl Bytes for bool {
    ghost View = { Bool };

    ghost view = { λ b. b };

    ghost codec = { flag };

    #[tactic(auto, unfolding(crate::specs::Formats::flag))]
    fn put(&self, out: &mut Vec<u8>) -> Result<(), Unsent> {
        if *self { YES.put(out) } else { NO.put(out) }
    }

    #[tactic(auto, unfolding(crate::specs::Formats::flag))]
    fn take(heap: Global, bytes: &[u8]) -> Result<(bool, &[u8]), Unread> {
        let (kind, rest) = u8::take(heap, bytes)?;
        match kind {
            NO => Ok((false, rest)),
            YES => Ok((true, rest)),
            _ => Err(Unread::Fault(Fault::Range)),
        }
    }
}

impl Bytes for Option<Proposal<Text>> {
    ghost View = { CallProposal };

    ghost view = { the_proposal };

    ghost codec = { proposal };

    #[tactic(auto, unfolding(crate::specs::Formats::proposal))]
    fn put(&self, out: &mut Vec<u8>) -> Result<(), Unsent> {
        match self {
            None => NO.put(out),
            Some(proposal) => {
                YES.put(out)?;
                proposal.ballot.0.put(out)?;
                put_few(&proposal.command.0, MOST_BUNDLES, out)
            }
        }
    }

    #[tactic(auto, unfolding(crate::specs::Formats::proposal))]
    fn take(heap: Global, bytes: &[u8]) -> Result<(Option<Proposal<Text>>, &[u8]), Unread> {
        let (kind, rest) = u8::take(heap, bytes)?;
        match kind {
            NO => Ok((None, rest)),
            YES => {
                let (ballot, rest) = u64::take(heap, rest)?;
                let (bundles, rest) = take_few(heap, MOST_BUNDLES, rest)?;
                let proposal = Proposal {
                    ballot: Ballot(ballot),
                    command: Command(bundles),
                };
                Ok((Some(proposal), rest))
            }
            _ => Err(Unread::Fault(Fault::Range)),
        }
    }
}

impl Bytes for Status<Text> {
    ghost View = { CallStatus };

    ghost view = { the_status };

    ghost codec = { status };

    #[tactic(auto, unfolding(crate::specs::Formats::status))]
    fn put(&self, out: &mut Vec<u8>) -> Result<(), Unsent> {
        self.promised.0.put(out)?;
        self.version.0.put(out)?;
        self.last.0.put(out)?;
        self.recovering.put(out)?;
        self.proposal.put(out)
    }

    #[tactic(auto, unfolding(crate::specs::Formats::status))]
    fn take(heap: Global, bytes: &[u8]) -> Result<(Status<Text>, &[u8]), Unread> {
        let (promised, rest) = u64::take(heap, bytes)?;
        let (version, rest) = u64::take(heap, rest)?;
        let (last, rest) = u64::take(heap, rest)?;
        let (recovering, rest) = bool::take(heap, rest)?;
        let (proposal, rest) = Bytes::take(heap, rest)?;
        let status = Status {
            promised: Ballot(promised),
            version: Version(version),
            last: Ballot(last),
            proposal,
            recovering,
        };
        Ok((status, rest))
    }
}

impl Bytes for Recovery {
    ghost View = { RecoverySaid };

    ghost view = { the_recovery };

    ghost codec = { recovery };

    #[tactic(auto, unfolding(crate::specs::Formats::recovery))]
    fn put(&self, out: &mut Vec<u8>) -> Result<(), Unsent> {
        match *self {
            Recovery::Level => NO.put(out),
            Recovery::Recovers { base, top } => {
                YES.put(out)?;
                base.0.put(out)?;
                top.0.put(out)
            }
        }
    }

    #[tactic(auto, unfolding(crate::specs::Formats::recovery))]
    fn take(heap: Global, bytes: &[u8]) -> Result<(Recovery, &[u8]), Unread> {
        let (kind, rest) = u8::take(heap, bytes)?;
        match kind {
            NO => Ok((Recovery::Level, rest)),
            YES => {
                let (base, rest) = u64::take(heap, rest)?;
                let (top, rest) = u64::take(heap, rest)?;
                let recovery = Recovery::Recovers {
                    base: Version(base),
                    top: Version(top),
                };
                Ok((recovery, rest))
            }
            _ => Err(Unread::Fault(Fault::Range)),
        }
    }
}

impl Bytes for Agreeing<Text> {
    ghost View = { CallAgreeing };

    ghost view = { the_agreeing };

    ghost codec = { agreeing };

    #[tactic(auto, unfolding(crate::specs::Formats::agreeing))]
    fn put(&self, out: &mut Vec<u8>) -> Result<(), Unsent> {
        self.promised.0.put(out)?;
        self.version.0.put(out)?;
        self.last.0.put(out)?;
        self.recovery.put(out)?;
        self.proposal.put(out)
    }

    #[tactic(auto, unfolding(crate::specs::Formats::agreeing))]
    fn take(heap: Global, bytes: &[u8]) -> Result<(Agreeing<Text>, &[u8]), Unread> {
        let (promised, rest) = u64::take(heap, bytes)?;
        let (version, rest) = u64::take(heap, rest)?;
        let (last, rest) = u64::take(heap, rest)?;
        let (recovery, rest) = Recovery::take(heap, rest)?;
        let (proposal, rest) = Bytes::take(heap, rest)?;
        let agreeing = Agreeing {
            promised: Ballot(promised),
            version: Version(version),
            last: Ballot(last),
            proposal,
            recovery,
        };
        Ok((agreeing, rest))
    }
}
