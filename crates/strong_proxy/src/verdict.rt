ghost use Rattle.std.specs.Prelude.{◌≡◌};
ghost use Rattle.span_base.specs.PolicyParts.{member_of};
ghost use Rattle.strong_proxy.specs.Rule.{decided, go_over, answer_or_repair, first_verdict, second_verdict, enter_as, enter, verdict};

use crate::next::Next;
use crate::progress::{Leg, Progress, Stage};
use crate::state::Work;
use span_base::Quorum;
use ticket_rules::{Stamp, next_ticket};
use wire_msg::View;

/// How often a call looks its key up at most.
const LOOKUPS: u8 = 4;

impl Progress {
    /// What a call does next, which has this greatest version: `view` is what its proxy knows of
    /// its key, and `seen` the greatest number that the proxy saw.
    pub(crate) fn verdict(&self, work: &Work, best: Option<Stamp>, view: &View, seen: u64) -> Next
        ensures { result ≡ verdict work.now best self.now view.now seen }
    {
        match self.stage {
            Stage::First => self.first_verdict(work, best),
            Stage::Second => self.second_verdict(work),
            Stage::Looking => {
                if self.leg.epoch < view.epoch {
                    self.enter(work, view, seen)
                } else {
                    self.go_over()
                }
            }
            Stage::Ended => Next::Wait,
        }
    }

    fn first_verdict(&self, work: &Work, best: Option<Stamp>) -> Next
        ensures { result ≡ first_verdict work.now best self.now }
    {
        match work {
            Work::ToRead => self.decided(answer_or_repair(&self.top_mark, best), self.go_over()),
            Work::ToWrite(_) => {
                let lost = if self.had_gone {
                    self.go_over()
                } else {
                    Next::Fenced
                };
                self.decided(Next::Store, lost)
            }
        }
    }

    fn second_verdict(&self, work: &Work) -> Next
        ensures { result ≡ second_verdict work.now self.now }
    {
        match work {
            Work::ToRead => self.decided(Next::Value, self.go_over()),
            Work::ToWrite(_) => self.decided(Next::Stored, Next::Unsure),
        }
    }

    /// `good`, where all but `f` replicas of the phase are; `lost`, where more than `f` refused.
    fn decided(&self, good: Next, lost: Next) -> Next
        ensures { result ≡ decided self.now good lost }
    {
        if self.phase.has_quorum(self.leg.f) {
            good
        } else if self.phase.is_lost(self.leg.f) {
            lost
        } else {
            Next::Wait
        }
    }

    /// What a call does whose leg ended.
    fn go_over(&self) -> Next
        ensures { result ≡ go_over self.now }
    {
        if self.lookups < LOOKUPS {
            Next::Look
        } else {
            Next::Moved
        }
    }

    /// A new leg, where there can be one.
    fn enter(&self, work: &Work, view: &View, seen: u64) -> Next
        ensures { result ≡ enter (member_of view.now.policy self.now.at.0) work.now self.now view.now seen }
    {
        match view.policy.member(self.at) {
            Some(member) => self.enter_as(work, member, view, seen),
            None => Next::Outside,
        }
    }

    fn enter_as(&self, work: &Work, member: Quorum, view: &View, seen: u64) -> Next
        ensures { result ≡ enter_as work.now member self.now view.now seen }
    {
        let call = self.phase.tag.call;
        match work {
            Work::ToRead => Next::Enter(Leg::under(view, member, Stamp::zero())),
            Work::ToWrite(_) => match next_ticket(view.epoch, seen, call.proxy, call.seq) {
                Ok(ticket) => Next::Enter(Leg::under(view, member, ticket)),
                Err(_) => Next::NumbersOut,
            },
        }
    }
}

/// A read's answer is sure where a mark says that it is stored at a whole write quorum.
fn answer_or_repair(mark: &Stamp, best: Option<Stamp>) -> Next
    ensures { result ≡ answer_or_repair mark.now best }
{
    match best {
        Some(version) => {
            if *mark >= version {
                Next::Value
            } else {
                Next::Repair
            }
        }
        None => Next::Wait,
    }
}
