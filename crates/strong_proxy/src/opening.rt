ghost use Rattle.std.specs.Prelude.{◌≡◌, IfOk, OnErr, Some, IsSome};
ghost use Rattle.wire_msg.specs.Outputs.{nothing_out};
ghost use Rattle.std.specs.Option.{option_map};
ghost use Rattle.span_base.specs.PolicyParts.{member_of};
ghost use Rattle.strong_proxy.specs.Rule.{leg_under, begun, opened_as};

use crate::phases::first_set;
use crate::progress::{Leg, Progress, Stage};
use crate::requests::first_posts;
use crate::state::{CallState, Work};
use call_phase::Phase;
use span_base::{DcId, KeyId, Listed};
use std::alloc::{AllocError, Global};
use ticket_rules::Stamp;
use wire_msg::{Outputs, Tag, View};

impl CallState {
    /// A call that begins, under the view of its key.
    #[tactic(auto, unfolding(crate::specs::Rule::opened_as))]
    pub(crate) fn open(
        alloc: Global,
        work: Work,
        ticket: Stamp,
        tag: Tag,
        at: DcId,
        view: &View,
        out: &mut Outputs,
    ) -> Result<CallState, AllocError>
        requires member { IsSome (member_of view.now.policy at.0) }
        requires empty { out.old ≡ nothing_out }
        ensures ok { IfOk result (λ call. opened_as work ticket tag at view.now ≡ Some (record { state = call; out = out.new })) }
        ensures err { OnErr result (out.new ≡ out.old) }
    {
        let leg = first_leg(view, at, ticket);
        let posts = first_posts(alloc, &work, view.key, tag, &leg)?;
        out.posts = Listed::from_vec(posts);
        let progress = begun(&work, tag, at, view.key, leg);
        Ok(CallState {
            work,
            best: None,
            progress,
        })
    }
}

fn first_leg(view: &View, at: DcId, ticket: Stamp) -> Leg
    requires { IsSome (member_of view.now.policy at.0) }
    ensures { option_map (λ member. leg_under view.now member ticket) (member_of view.now.policy at.0) ≡ Some result }
{
    match view.policy.member(at) {
        Some(member) => Leg::under(view, member, ticket),
        None => unreachable!(),
    }
}

fn begun(work: &Work, tag: Tag, at: DcId, key: KeyId, leg: Leg) -> Progress
    ensures { result ≡ begun work.now tag at key leg }
{
    Progress {
        key,
        at,
        leg,
        stage: Stage::First,
        phase: Phase::open(tag, first_set(work, &leg)),
        lookups: 0,
        top_mark: Stamp::zero(),
        had_gone: false,
        top_gone: 0,
        top_held: Stamp::zero(),
    }
}
