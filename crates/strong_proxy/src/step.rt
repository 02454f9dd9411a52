//! What a call does with an answer that counts.

ghost use Rattle.std.specs.Prelude.{◌≡◌, ◌<◌, OnOk, OnErr};
ghost use Rattle.wire_msg.specs.Outputs.{nothing_out};
ghost use Rattle.wire_msg.specs.Lawful.{IsLawful};
ghost use Rattle.wire_msg.specs.Sizes.{bulk_of};
ghost use Rattle.strong_proxy.specs.Counting.{counted};
ghost use Rattle.strong_proxy.specs.Rule.{done, next_of};

use crate::best::{best_after, keep_best, stamp_of};
use crate::phases::{end_for, ticket_for};
use crate::state::CallState;
use span_base::Listed;
use std::alloc::{AllocError, Global};
use wire_msg::{Bulk, Message, Outputs, View};

impl CallState {
    /// Takes an answer that counts.
    #[tactic(auto, using(crate::proofs::Rows::done_parts))]
    pub(crate) fn take_answer(
        &mut self,
        alloc: Global,
        message: &Message,
        view: &View,
        seen: u64,
        out: &mut Outputs,
    ) -> Result<(), AllocError>
        requires lawful { IsLawful message.now }
        requires phases { self.old.progress.phase.tag.phase < 255 }
        requires lookups { self.old.progress.lookups < 255 }
        requires empty { out.old ≡ nothing_out }
        ensures ok { OnOk result (record { state = self.new; out = out.new } ≡ done (next_of (counted self.old message.now) view.now seen) (counted self.old message.now)) }
        ensures err { OnErr result ((self.new ≡ self.old) × (out.new ≡ out.old)) }
    {
        let progress = self.progress.after(message);
        let best = best_after(&self.best, message);
        let next = progress.verdict(&self.work, stamp_of(best), view, seen);
        let posts = progress.posts(alloc, &next, &self.work, best)?;
        keep_best(&mut self.best, message)?;
        self.progress = progress.with_next(&next, &self.work);
        out.posts = Listed::from_vec(posts);
        out.ticket = ticket_for(&next, &self.work);
        out.end = end_for(&next, &mut self.best, &progress);
        Ok(())
    }

    /// How much `take_answer` puts out.
    pub(crate) fn answer_bulk(&self, message: &Message, view: &View, seen: u64) -> Bulk
        requires { IsLawful message.now }
        ensures { result ≡ bulk_of (done (next_of (counted self.now message.now) view.now seen) (counted self.now message.now)).out.posts }
    {
        let progress = self.progress.after(message);
        let best = best_after(&self.best, message);
        let next = progress.verdict(&self.work, stamp_of(best), view, seen);
        progress.bulk(&next, &self.work, best)
    }
}
