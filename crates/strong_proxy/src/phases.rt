//! How far a call is once it did what came next, and how it ends.

ghost use Rattle.std.specs.Prelude.{◌≡◌, ◌<◌};
ghost use Rattle.std.specs.Option.{option_map};
ghost use Rattle.strong_proxy.specs.Rule.{value_reply, first_set, leg_ticket, seconded, looking, entered};
ghost use Rattle.strong_proxy.specs.Parts.{ticket_for, progress_for, end_for, best_for};

use crate::next::Next;
use crate::progress::{Leg, Progress, Stage};
use crate::state::Work;
use call_phase::{Found, Phase};
use span_base::DcSet;
use ticket_rules::Stamp;
use wire_msg::Reply;

impl Progress {
    /// How far the call is once it did what came next.
    pub(crate) fn with_next(&self, next: &Next, work: &Work) -> Progress
        requires tag { self.now.phase.tag.phase < 255 }
        requires lookups { self.now.lookups < 255 }
        ensures { result ≡ progress_for next.now work.now self.now }
    {
        match next {
            Next::Wait => *self,
            Next::Repair | Next::Store => self.seconded(),
            Next::Look => self.looking(),
            Next::Enter(leg) => self.entered(work, leg),
            Next::Value
            | Next::Stored
            | Next::Fenced
            | Next::Unsure
            | Next::Moved
            | Next::Outside
            | Next::NumbersOut => Progress {
                stage: Stage::Ended,
                ..*self
            },
        }
    }

    fn seconded(&self) -> Progress
        requires { self.now.phase.tag.phase < 255 }
        ensures { result ≡ seconded self.now }
    {
        Progress {
            stage: Stage::Second,
            phase: Phase::open(self.phase.next_tag(), self.leg.writes),
            had_gone: false,
            ..*self
        }
    }

    fn looking(&self) -> Progress
        requires tag { self.now.phase.tag.phase < 255 }
        requires lookups { self.now.lookups < 255 }
        ensures { result ≡ looking self.now }
    {
        Progress {
            stage: Stage::Looking,
            phase: Phase::open(self.phase.next_tag(), DcSet::empty()),
            lookups: self.lookups + 1,
            had_gone: false,
            ..*self
        }
    }

    fn entered(&self, work: &Work, leg: &Leg) -> Progress
        requires { self.now.phase.tag.phase < 255 }
        ensures { result ≡ entered work.now leg.now self.now }
    {
        Progress {
            leg: *leg,
            stage: Stage::First,
            phase: Phase::open(self.phase.next_tag(), first_set(work, leg)),
            top_mark: Stamp::zero(),
            had_gone: false,
            top_held: Stamp::zero(),
            ..*self
        }
    }
}

/// Whom the first phase of a leg asks.
pub(crate) fn first_set(work: &Work, leg: &Leg) -> DcSet
    ensures { result ≡ first_set work.now leg.now }
{
    match work {
        Work::ToRead => leg.reads,
        Work::ToWrite(_) => leg.writes,
    }
}

/// The ticket that is made, where a write begins a leg.
pub(crate) fn ticket_for(next: &Next, work: &Work) -> Option<Stamp>
    ensures { result ≡ ticket_for next.now work.now }
{
    match next {
        Next::Enter(leg) => leg_ticket(work, leg),
        _ => None,
    }
}

fn leg_ticket(work: &Work, leg: &Leg) -> Option<Stamp>
    ensures { result ≡ leg_ticket work.now leg.now }
{
    match work {
        Work::ToRead => None,
        Work::ToWrite(_) => Some(leg.ticket),
    }
}

/// How the call ends, where it does. The greatest version moves into a read's reply, and it is
/// dropped where a new leg begins.
pub(crate) fn end_for(next: &Next, best: &mut Option<Found>, progress: &Progress) -> Option<Reply>
    ensures end { result ≡ end_for next.now best.old progress.now }
    ensures best { best.new ≡ best_for next.now best.old }
{
    match next {
        Next::Value => value_reply(best.take()),
        Next::Enter(_) => {
            *best = None;
            None
        }
        Next::Stored => Some(Reply::Stored {
            stamp: progress.leg.ticket,
        }),
        Next::Fenced => Some(Reply::Fenced {
            held: progress.top_held,
        }),
        Next::Unsure => Some(Reply::Unsure),
        Next::Moved => Some(Reply::Moved {
            epoch: progress.top_gone,
        }),
        Next::Outside => Some(Reply::Outside),
        Next::NumbersOut => Some(Reply::NumbersOut),
        Next::Wait | Next::Repair | Next::Store | Next::Look => None,
    }
}

fn value_reply(best: Option<Found>) -> Option<Reply>
    ensures { result ≡ option_map value_reply best }
{
    match best {
        Some(Found { stamp, value }) => Some(Reply::Value { stamp, value }),
        None => None,
    }
}
