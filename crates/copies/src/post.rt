// What is sent when all is stored: messages, each to a house.
ghost use Rattle.std.specs.Prelude.{◌≡◌, ℕ, ◌++◌, ◌∷◌, [], map, IfOk, OnOk, vec_items};
ghost use Rattle.copies.specs.Messages.{Told, Bundled};
ghost use Rattle.copies.specs.Posts.{post_of, others_of, want_in, status_of, whom_of, to_all, bundle_of, reply_to, want_to, posts_of, the_post, the_posts};
ghost use Rattle.copies.specs.Views.{the_house, the_message, the_proposal, the_agreeing, the_status, the_session, the_sessions, the_recovery, the_wants, the_whom, the_way, the_turn, the_bundle, the_command, the_bundles};

use crate::agreeing::{Agreeing, Command, Proposal, Recovery};
use crate::group::Group;
use crate::message::*;
use crate::number::*;
use crate::service::{Copied, all_copied};
use crate::sessions::Sessions;
use crate::turn::{Turn, Whom};
use std::alloc::{AllocError, Global};

#[derive(Drop)]
pub struct Post<X, B, C, A> {
    pub to: HouseNumber,
    pub what: Message<X, B, C, A>,
}

impl<C: Copied> Command<C> {
    fn copied(&self, heap: Global) -> Result<Command<C>, AllocError>
        ensures { IfOk result (λ k. the_command k ≡ the_command self.now) }
    {
        let mut bundles = Vec::new(heap);
        for bundle in &self.0 {
            bundles.push(bundle.copied(heap)?)?;
        }
        Ok(Command(bundles))
    }
}

impl<C: Copied> Agreeing<C> {
    fn proposal_copied(&self, heap: Global) -> Result<Option<Proposal<C>>, AllocError>
        ensures { IfOk result (λ v. the_proposal v ≡ (the_agreeing self.now).proposal) }
    {
        match &self.proposal {
            None => Ok(None),
            Some(proposal) => {
                let command = proposal.command.copied(heap)?;
                Ok(Some(Proposal {
                    ballot: proposal.ballot,
                    command,
                }))
            }
        }
    }

    // What a copy says of itself.
    pub fn status(&self, heap: Global) -> Result<Status<C>, AllocError>
        ensures { IfOk result (λ x. the_status x ≡ status_of (the_agreeing self.now)) }
    {
        let proposal = self.proposal_copied(heap)?;
        Ok(Status {
            promised: self.promised,
            version: self.version,
            last: self.last,
            proposal,
            recovering: self.recovery != Recovery::Level,
        })
    }
}

type Posts<X, B, C, A> = Vec<Post<X, B, C, A>>;

fn add<X: Drop, B: Drop, C: Drop, A: Drop>(
    posts: &mut Posts<X, B, C, A>,
    to: HouseNumber,
    what: Message<X, B, C, A>,
) -> Result<(), AllocError>
    ensures { OnOk result (the_posts (vec_items posts.new) ≡ the_posts (vec_items posts.old) ++ post_of (the_message what) to.0 ∷ []) }
{
    posts.push(Post { to, what })?;
    Ok(())
}

impl<A: Copied> Session<A> {
    fn copied(&self, heap: Global) -> Result<Session<A>, AllocError>
        ensures { IfOk result (λ s. the_session s ≡ the_session self.now) }
    {
        let replies = all_copied(self.replies.as_slice(), heap)?;
        Ok(Session {
            number: self.number,
            replies,
        })
    }
}

impl<A: Copied> Sessions<A> {
    fn copied(&self, house: HouseNumber, heap: Global) -> Result<Session<A>, AllocError>
        ensures { IfOk result (λ s. the_session s ≡ the_sessions self.now house.0) }
    {
        match self.of(house) {
            Some(session) => session.copied(heap),
            None => Ok(Session {
                number: Number {
                    incarnation: 0,
                    counter: 0,
                },
                replies: Vec::new(heap),
            }),
        }
    }
}

impl<A: Copied> Sessions<A> {
    // All of them.
    pub fn copied_all(&self, heap: Global) -> Result<Sessions<A>, AllocError>
        ensures { IfOk result (λ s. (h : ℕ) → the_sessions s h ≡ the_sessions self.now h) }
    {
        let mut each = Vec::new(heap);
        for session in &self.each {
            each.push(session.copied(heap)?)?;
        }
        Ok(Sessions { each })
    }
}

impl Whom {
    fn houses(self, me: HouseNumber, heap: Global) -> Result<Vec<HouseNumber>, AllocError>
        ensures { IfOk result (λ hs. map the_house hs.items ≡ whom_of me.0 (the_whom self)) }
    {
        match self {
            Whom::Nobody => Ok(Vec::new(heap)),
            Whom::One(to) => Ok(vec![in heap; to; 1]?),
            Whom::Others => Group::first().others(me, heap),
        }
    }
}

impl<X: Drop, B: Drop, C: Copied, A: Copied> Turn<X, B, C, A> {
    fn post_status(&self, heap: Global, posts: &mut Posts<X, B, C, A>) -> Result<(), AllocError>
        ensures { OnOk result (the_posts (vec_items posts.new) ≡ the_posts (vec_items posts.old) ++ to_all (Told (status_of (the_turn self.now).agreeing)) (whom_of (the_turn self.now).memory.me (the_turn self.now).sends.status)) }
    {
        let houses = self.sends.status.houses(self.house.memory.me, heap)?;
        for to in &houses {
            let status = self.house.agreeing.status(heap)?;
            add(posts, *to, Message::Status(status))?;
        }
        Ok(())
    }

    // The bundle under way.
    fn post_bundle(&self, heap: Global, posts: &mut Posts<X, B, C, A>) -> Result<(), AllocError>
        ensures { OnOk result (the_posts (vec_items posts.new) ≡ the_posts (vec_items posts.old) ++ bundle_of (the_turn self.now).memory.me (the_turn self.now).sends.bundle (the_turn self.now).memory.way) }
    {
        match &self.house.memory.way {
            Some(bundle) if self.sends.bundle => { self.post_to_others(heap, bundle, posts) }
            _ => Ok(()),
        }
    }

    fn post_to_others(
        &self,
        heap: Global,
        bundle: &Bundle<C>,
        posts: &mut Posts<X, B, C, A>,
    ) -> Result<(), AllocError>
        ensures { OnOk result (the_posts (vec_items posts.new) ≡ the_posts (vec_items posts.old) ++ to_all (Bundled (the_bundle bundle.now)) (others_of self.now.house.memory.me.0)) }
    {
        let houses = Group::first().others(self.house.memory.me, heap)?;
        for to in &houses {
            let bundle = bundle.copied(heap)?;
            add(posts, *to, Message::Bundle(bundle))?;
        }
        Ok(())
    }

    fn post_replies(&self, heap: Global, posts: &mut Posts<X, B, C, A>) -> Result<(), AllocError>
        ensures { OnOk result (the_posts (vec_items posts.new) ≡ the_posts (vec_items posts.old) ++ map (reply_to (the_turn self.now).sessions) (the_turn self.now).sends.replies) }
    {
        for to in &self.sends.replies {
            let session = self.house.sessions.copied(*to, heap)?;
            add(posts, *to, Message::Replies(session))?;
        }
        Ok(())
    }

    fn post_want(&self, posts: &mut Posts<X, B, C, A>) -> Result<(), AllocError>
        ensures { OnOk result (the_posts (vec_items posts.new) ≡ the_posts (vec_items posts.old) ++ want_to (the_turn self.now).memory.pass.key (the_turn self.now).agreeing.recovery (the_turn self.now).sends.wants) }
    {
        match (self.sends.wants, self.house.agreeing.recovery) {
            (Some(of), Recovery::Recovers { base, top }) => {
                let want = Want {
                    base,
                    top,
                    key: self.house.memory.pass.key,
                };
                add(posts, of, Message::Want(want))
            }
            _ => Ok(()),
        }
    }

    // What is to be sent when all is stored, but for blocks that another copy wants.
    #[tactic(auto, unfolding(crate::specs::Posts::posts_of))]
    pub fn posts(&self, heap: Global) -> Result<Vec<Post<X, B, C, A>>, AllocError>
        ensures { IfOk result (λ ps. the_posts ps.items ≡ posts_of (the_turn self.now)) }
    {
        let mut posts = Vec::new(heap);
        self.post_status(heap, &mut posts)?;
        self.post_bundle(heap, &mut posts)?;
        self.post_replies(heap, &mut posts)?;
        self.post_want(&mut posts)?;
        Ok(posts)
    }
}
