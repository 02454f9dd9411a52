//! Which answers a call counts, and what it keeps of them.

ghost use Rattle.std.specs.Prelude.{◌≡◌, ◌<◌, max};
ghost use Rattle.wire_msg.specs.Lawful.{IsLawful};
ghost use Rattle.call_phase.specs.Counting.{with_good, with_bad};
ghost use Rattle.strong_proxy.specs.Counting.{takes_have, takes_yes, takes_held, takes_gone, takes_here, is_counted, held_after, progress_after};

use crate::progress::{Progress, Stage};
use crate::state::{CallState, Work};
use call_phase::Phase;
use span_base::{CENTRES, DcId};
use std::cmp::max;
use ticket_rules::{Stamp, greater};
use wire_msg::Message;

impl CallState {
    /// Whether the message is an answer that counts.
    pub(crate) fn counts(&self, message: &Message) -> bool
        ensures { result ≡ is_counted self.now message.now }
    {
        let stage = self.progress.stage;
        let phase = &self.progress.phase;
        match message {
            Message::Have { tag, replica, .. } => {
                takes_have(&self.work, stage) && phase.counts(tag, *replica)
            }
            Message::Yes { tag, replica } => {
                takes_yes(&self.work, stage) && phase.counts(tag, *replica)
            }
            Message::Held { tag, replica, .. } => {
                takes_held(&self.work, stage) && phase.counts(tag, *replica)
            }
            Message::Gone { tag, replica, .. } => takes_gone(stage) && phase.counts(tag, *replica),
            Message::Here { tag, .. } => takes_here(stage) && phase.has_tag(tag),
            _ => false,
        }
    }
}

fn takes_have(work: &Work, stage: Stage) -> bool
    ensures { result ≡ takes_have work.now stage }
{
    match work {
        Work::ToRead => match stage {
            Stage::First => true,
            Stage::Second | Stage::Looking | Stage::Ended => false,
        },
        Work::ToWrite(_) => false,
    }
}

fn takes_yes(work: &Work, stage: Stage) -> bool
    ensures { result ≡ takes_yes work.now stage }
{
    match stage {
        Stage::First => match work {
            Work::ToRead => false,
            Work::ToWrite(_) => true,
        },
        Stage::Second => true,
        Stage::Looking | Stage::Ended => false,
    }
}

fn takes_held(work: &Work, stage: Stage) -> bool
    ensures { result ≡ takes_held work.now stage }
{
    match work {
        Work::ToRead => false,
        Work::ToWrite(_) => takes_gone(stage),
    }
}

fn takes_gone(stage: Stage) -> bool
    ensures { result ≡ takes_gone stage }
{
    match stage {
        Stage::First | Stage::Second => true,
        Stage::Looking | Stage::Ended => false,
    }
}

fn takes_here(stage: Stage) -> bool
    ensures { result ≡ takes_here stage }
{
    match stage {
        Stage::Looking => true,
        Stage::First | Stage::Second | Stage::Ended => false,
    }
}

impl Progress {
    /// What is kept of an answer that counts, but for a version's value.
    pub(crate) fn after(&self, message: &Message) -> Progress
        requires { IsLawful message.now }
        ensures { result ≡ progress_after self.now message.now }
    {
        match message {
            Message::Have { replica, mark, .. } => Progress {
                phase: with_good(self.phase, *replica),
                top_mark: greater(&self.top_mark, mark),
                ..*self
            },
            Message::Yes { replica, .. } => Progress {
                phase: with_good(self.phase, *replica),
                ..*self
            },
            Message::Held { replica, stamp, .. } => Progress {
                phase: with_bad(self.phase, *replica),
                top_held: held_after(self.stage, self.top_held, *stamp),
                ..*self
            },
            Message::Gone { replica, epoch, .. } => Progress {
                phase: with_bad(self.phase, *replica),
                had_gone: true,
                top_gone: max(self.top_gone, *epoch),
                ..*self
            },
            _ => *self,
        }
    }
}

fn with_good(phase: Phase, replica: DcId) -> Phase
    requires { replica.0 < CENTRES }
    ensures { result ≡ with_good phase replica }
{
    let mut with = phase;
    with.take_good(replica);
    with
}

fn with_bad(phase: Phase, replica: DcId) -> Phase
    requires { replica.0 < CENTRES }
    ensures { result ≡ with_bad phase replica }
{
    let mut with = phase;
    with.take_bad(replica);
    with
}

/// The greatest Held stamp of the first phase.
fn held_after(stage: Stage, top: Stamp, stamp: Stamp) -> Stamp
    ensures { result ≡ held_after stage top stamp }
{
    match stage {
        Stage::First => greater(&top, &stamp),
        Stage::Second | Stage::Looking | Stage::Ended => top,
    }
}
