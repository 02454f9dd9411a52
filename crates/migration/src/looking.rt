ghost use Rattle.std.specs.Prelude.{◌≡◌, ◌≤◌, ℕ, OnOk, OnErr, IfOk};
ghost use Rattle.span_base.specs.declared.policy.Policy.{Policy};
ghost use Rattle.span_base.specs.Policy.{IsSoundPolicy};
ghost use Rattle.wire_msg.specs.Outputs.{nothing_out, IsMade};
ghost use Rattle.wire_msg.specs.Sizes.{bulk_of};
ghost use Rattle.migration.specs.Move.{epoch_at, on_here};
ghost use Rattle.migration.specs.Sound.{PutsOut};

use crate::move_call::MoveCall;
use crate::rule::MoveRule;
use crate::stage::{Epoch, Stage};
use call_phase::{Phase, Request, send_to_each};
use span_base::{Listed, Policy};
use std::alloc::{AllocError, Global};
use wire_msg::sizes::FREEZE_BYTES;
use wire_msg::{Bulk, Outputs, Reply, Tag};

/// An epoch that the directory told, counted from 1, and its policy, which is lent.
#[derive(Clone, Copy)]
pub(crate) struct Told<'a> {
    pub(crate) number: u32,
    pub(crate) policy: &'a Policy,
}

impl Told<'_> {
    fn keep(&self) -> Result<Epoch, AllocError>
        ensures { IfOk result (λ epoch. epoch ≡ epoch_at self.now.number self.now.policy.now) }
    {
        Ok(Epoch {
            number: self.number,
            policy: self.policy.clone()?,
        })
    }
}

impl<R: MoveRule> MoveCall<R> {
    /// Takes the key's current and latest epoch.
    pub(crate) fn take_here(
        &mut self,
        alloc: Global,
        tag: &Tag,
        current: Told,
        latest: Told,
        out: &mut Outputs,
    ) -> Result<(), AllocError>
        requires current { 1 ≤ current.number }
        requires latest { 1 ≤ latest.number }
        requires sound { IsSoundPolicy latest.policy.now }
        requires empty { out.old ≡ nothing_out }
        ensures ok { let told = epoch_at current.entry.number current.entry.policy.now in
            let last = epoch_at latest.entry.number latest.entry.policy.now in
            OnOk result (IsMade (on_here self.old self.old.stage tag.now told last) self.new out.new) }
        ensures err { OnErr result ((self.new ≡ self.old) × (out.new ≡ out.old)) }
        ensures out { OnOk result (PutsOut self.new out.new) }
    {
        let Stage::Looking = &self.stage else {
            return Ok(());
        };
        if !self.phase.has_tag(tag) {
            return Ok(());
        }
        if current.number == latest.number {
            self.stage = Stage::Ended;
            out.end = Some(Reply::Current {
                epoch: current.number,
            });
            return Ok(());
        }
        let next = self.phase.next_tag();
        let asked = current.policy.replicas();
        let request = Request::Freeze {
            key: self.key,
            epoch: current.number,
        };
        let posts = send_to_each(alloc, asked, next, &request)?;
        let old = current.keep()?;
        let new = latest.keep()?;
        self.phase = Phase::open(next, asked);
        self.stage = Stage::Freezing {
            old,
            new,
            best: None,
        };
        out.posts = Listed::from_vec(posts);
        Ok(())
    }

    /// How much `take_here` sends.
    pub(crate) fn bulk_of_here(
        &self,
        tag: &Tag,
        epoch: u32,
        policy: &Policy,
        latest_epoch: u32,
    ) -> Bulk
        ensures { (latest : Policy) →
            let told = epoch_at epoch policy.now in
            let last = epoch_at latest_epoch latest in
            result ≡ bulk_of (on_here self.now self.now.stage tag.now told last).out.posts }
    {
        let Stage::Looking = &self.stage else {
            return Bulk::none();
        };
        if !self.phase.has_tag(tag) || epoch == latest_epoch {
            return Bulk::none();
        }
        Bulk::to_each(policy.replicas(), FREEZE_BYTES)
    }
}
