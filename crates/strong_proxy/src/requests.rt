//! The requests of a call's phases.

ghost use Rattle.std.specs.Prelude.{◌≡◌, ◌<◌, IfOk};
ghost use Rattle.call_phase.specs.Best.{lent_found};
ghost use Rattle.strong_proxy.specs.Rule.{first_posts, repair_posts, store_posts, confirm_posts, lookup_posts};
ghost use Rattle.strong_proxy.specs.Parts.{posts_for};

use crate::next::Next;
use crate::progress::{Leg, Progress};
use crate::state::Work;
use call_phase::{Lent, Request, send_to_each};
use span_base::KeyId;
use std::alloc::{AllocError, Global};
use wire_msg::{Message, Post, Tag, ask_directory};

impl Progress {
    /// What is sent, with the number of the next phase.
    pub(crate) fn posts(
        &self,
        alloc: Global,
        next: &Next,
        work: &Work,
        best: Option<Lent>,
    ) -> Result<Vec<Post>, AllocError>
        requires { self.now.phase.tag.phase < 255 }
        ensures { IfOk result (λ posts. posts.items ≡ posts_for next.now work.now (lent_found best.entry) self.now) }
    {
        match next {
            Next::Repair => self.repair_posts(alloc, best),
            Next::Store => self.store_posts(alloc, work),
            Next::Stored => self.confirm_posts(alloc),
            Next::Look | Next::Moved => self.lookup_posts(alloc),
            Next::Enter(leg) => first_posts(alloc, work, self.key, self.phase.next_tag(), leg),
            Next::Wait
            | Next::Value
            | Next::Fenced
            | Next::Unsure
            | Next::Outside
            | Next::NumbersOut => Ok(Vec::new(alloc)),
        }
    }

    fn repair_posts(&self, alloc: Global, best: Option<Lent>) -> Result<Vec<Post>, AllocError>
        requires { self.now.phase.tag.phase < 255 }
        ensures { IfOk result (λ posts. posts.items ≡ repair_posts (lent_found best.entry) self.now) }
    {
        match best {
            Some(found) => send_to_each(
                alloc,
                self.leg.writes,
                self.phase.next_tag(),
                &Request::Repair {
                    key: self.key,
                    epoch: self.leg.epoch,
                    stamp: found.stamp,
                    value: found.value,
                },
            ),
            None => Ok(Vec::new(alloc)),
        }
    }

    fn store_posts(&self, alloc: Global, work: &Work) -> Result<Vec<Post>, AllocError>
        requires { self.now.phase.tag.phase < 255 }
        ensures { IfOk result (λ posts. posts.items ≡ store_posts work.now self.now) }
    {
        match work {
            Work::ToWrite(value) => send_to_each(
                alloc,
                self.leg.writes,
                self.phase.next_tag(),
                &Request::Store {
                    key: self.key,
                    stamp: self.leg.ticket,
                    value,
                },
            ),
            Work::ToRead => Ok(Vec::new(alloc)),
        }
    }

    fn confirm_posts(&self, alloc: Global) -> Result<Vec<Post>, AllocError>
        requires { self.now.phase.tag.phase < 255 }
        ensures { IfOk result (λ posts. posts.items ≡ confirm_posts self.now) }
    {
        send_to_each(
            alloc,
            self.leg.writes,
            self.phase.next_tag(),
            &Request::Confirm {
                key: self.key,
                stamp: self.leg.ticket,
            },
        )
    }

    fn lookup_posts(&self, alloc: Global) -> Result<Vec<Post>, AllocError>
        requires { self.now.phase.tag.phase < 255 }
        ensures { IfOk result (λ posts. posts.items ≡ lookup_posts self.now) }
    {
        let lookup = Message::Lookup {
            tag: self.phase.next_tag(),
            key: self.key,
        };
        Ok(ask_directory(alloc, lookup)?.into_vec())
    }
}

/// The first phase of a leg.
pub(crate) fn first_posts(
    alloc: Global,
    work: &Work,
    key: KeyId,
    tag: Tag,
    leg: &Leg,
) -> Result<Vec<Post>, AllocError>
    ensures { IfOk result (λ posts. posts.items ≡ first_posts work.now key tag leg.now) }
{
    match work {
        Work::ToRead => send_to_each(
            alloc,
            leg.reads,
            tag,
            &Request::Read {
                key,
                epoch: leg.epoch,
            },
        ),
        Work::ToWrite(_) => send_to_each(
            alloc,
            leg.writes,
            tag,
            &Request::Ask {
                key,
                stamp: leg.ticket,
            },
        ),
    }
}
