ghost use Rattle.std.specs.Prelude.{◌≡◌, ℕ, OnOk, OnErr};
ghost use Rattle.wire_msg.specs.Outputs.{nothing_out, IsMade};
ghost use Rattle.wire_msg.specs.Sizes.{bulk_of};
ghost use Rattle.migration.specs.Move.{on_switched};
ghost use Rattle.migration.specs.Sound.{PutsOut};

use crate::move_call::MoveCall;
use crate::rule::MoveRule;
use crate::stage::Stage;
use std::alloc::{AllocError, Global};
use std::mem::replace;
use wire_msg::sizes::LOOKUP_BYTES;
use wire_msg::{Bulk, Outputs, Reply, Tag, View};

impl<R: MoveRule> MoveCall<R> {
    /// Takes whether the directory switched, and the current epoch after it.
    pub(crate) fn take_switched(
        &mut self,
        alloc: Global,
        tag: &Tag,
        done: bool,
        epoch: u32,
        out: &mut Outputs,
    ) -> Result<(), AllocError>
        requires empty { out.old ≡ nothing_out }
        ensures ok { let step = on_switched self.old self.old.stage tag.now done epoch in
            OnOk result (IsMade step self.new out.new) }
        ensures err { OnErr result ((self.new ≡ self.old) × (out.new ≡ out.old)) }
        ensures out { OnOk result (PutsOut self.new out.new) }
    {
        let Stage::Switching { .. } = &self.stage else {
            return Ok(());
        };
        if !self.phase.has_tag(tag) {
            return Ok(());
        }
        if !done {
            return self.fall_behind(alloc, epoch, out);
        }
        if let Stage::Switching { new, .. } = replace(&mut self.stage, Stage::Ended) {
            out.end = Some(Reply::At { epoch: new.number });
            out.view = Some(View {
                key: self.key,
                epoch: new.number,
                policy: new.policy,
            });
        }
        Ok(())
    }

    /// How much `take_switched` sends.
    pub(crate) fn bulk_of_switched(&self, tag: &Tag, done: bool) -> Bulk
        ensures { (epoch : ℕ) →
            let step = on_switched self.now self.now.stage tag.now done epoch in
            result ≡ bulk_of step.out.posts }
    {
        let Stage::Switching { .. } = &self.stage else {
            return Bulk::none();
        };
        if !self.phase.has_tag(tag) || done {
            return Bulk::none();
        }
        Bulk::one(LOOKUP_BYTES)
    }
}
