ghost use Rattle.std.specs.Prelude.{◌≡◌, ◌≤◌, ℕ, OnOk, OnErr};
ghost use Rattle.wire_msg.specs.Outputs.{nothing_out, IsMade};
ghost use Rattle.wire_msg.specs.Sizes.{bulk_of};
ghost use Rattle.migration.specs.Move.{on_yes, on_gone};
ghost use Rattle.migration.specs.Sound.{PutsOut};

use crate::move_call::MoveCall;
use crate::rule::MoveRule;
use crate::stage::Stage;
use call_phase::Phase;
use span_base::{DcId, DcSet};
use std::alloc::{AllocError, Global};
use wire_msg::sizes::{LOOKUP_BYTES, SWITCH_BYTES};
use wire_msg::{Bulk, Message, Outputs, Tag, ask_directory};

impl<R: MoveRule> MoveCall<R> {
    /// Takes that a replica stored the version under the new epoch.
    pub(crate) fn take_yes(
        &mut self,
        alloc: Global,
        tag: &Tag,
        replica: DcId,
        out: &mut Outputs,
    ) -> Result<(), AllocError>
        requires empty { out.old ≡ nothing_out }
        ensures ok { let step = on_yes R.rule self.old self.old.stage tag.now replica in
            OnOk result (IsMade step self.new out.new) }
        ensures err { OnErr result ((self.new ≡ self.old) × (out.new ≡ out.old)) }
        ensures out { OnOk result (PutsOut self.new out.new) }
    {
        let Stage::Seeding { old, new, .. } = &self.stage else {
            return Ok(());
        };
        if !self.phase.counts(tag, replica) {
            return Ok(());
        }
        let mut phase = self.phase;
        phase.take_good(replica);
        if !R::is_seeded(&new.policy, &phase) {
            self.phase = phase;
            return Ok(());
        }
        let next = self.phase.next_tag();
        let switch = Message::Switch {
            tag: next,
            key: self.key,
            closing: *old,
            opening: new.number,
        };
        out.posts = ask_directory(alloc, switch)?;
        self.stage.begin_switching();
        self.phase = Phase::open(next, DcSet::empty());
        Ok(())
    }

    /// How much `take_yes` sends.
    pub(crate) fn bulk_of_yes(&self, tag: &Tag, replica: DcId) -> Bulk
        ensures { result ≡ bulk_of (on_yes R.rule self.now self.now.stage tag.now replica).out.posts }
    {
        let Stage::Seeding { new, .. } = &self.stage else {
            return Bulk::none();
        };
        if !self.phase.counts(tag, replica) {
            return Bulk::none();
        }
        let mut phase = self.phase;
        phase.take_good(replica);
        if R::is_seeded(&new.policy, &phase) {
            Bulk::one(SWITCH_BYTES)
        } else {
            Bulk::none()
        }
    }

    /// Takes that the new epoch is over at a replica, which is frozen up to `epoch`.
    pub(crate) fn take_gone(
        &mut self,
        alloc: Global,
        tag: &Tag,
        replica: DcId,
        epoch: u32,
        out: &mut Outputs,
    ) -> Result<(), AllocError>
        requires empty { out.old ≡ nothing_out }
        ensures ok { let step = on_gone R.rule self.old self.old.stage tag.now replica epoch in
            OnOk result (IsMade step self.new out.new) }
        ensures err { OnErr result ((self.new ≡ self.old) × (out.new ≡ out.old)) }
        ensures out { OnOk result (PutsOut self.new out.new) }
    {
        let Stage::Seeding { new, top_gone, .. } = &mut self.stage else {
            return Ok(());
        };
        if !self.phase.counts(tag, replica) {
            return Ok(());
        }
        let top = (*top_gone).max(epoch);
        let mut phase = self.phase;
        phase.take_bad(replica);
        if !R::is_lost(&new.policy, &phase) {
            *top_gone = top;
            self.phase = phase;
            return Ok(());
        }
        self.fall_behind(alloc, top, out)
    }

    /// How much `take_gone` sends.
    pub(crate) fn bulk_of_gone(&self, tag: &Tag, replica: DcId) -> Bulk
        ensures { (epoch : ℕ) →
            let step = on_gone R.rule self.now self.now.stage tag.now replica epoch in
            result ≡ bulk_of step.out.posts }
    {
        let Stage::Seeding { new, .. } = &self.stage else {
            return Bulk::none();
        };
        if !self.phase.counts(tag, replica) {
            return Bulk::none();
        }
        let mut phase = self.phase;
        phase.take_bad(replica);
        if R::is_lost(&new.policy, &phase) {
            Bulk::one(LOOKUP_BYTES)
        } else {
            Bulk::none()
        }
    }
}
