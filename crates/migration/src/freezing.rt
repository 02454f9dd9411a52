ghost use Rattle.std.specs.Prelude.{◌≡◌, ◌≤◌, OnOk, OnErr, length};
ghost use Rattle.wire_msg.specs.Lawful.{IsLawfulStamp};
ghost use Rattle.wire_msg.specs.Outputs.{nothing_out, IsMade};
ghost use Rattle.wire_msg.specs.Sizes.{bulk_of};
ghost use Rattle.migration.specs.Move.{on_have};
ghost use Rattle.migration.specs.Sound.{PutsOut};

use crate::move_call::MoveCall;
use crate::rule::MoveRule;
use crate::stage::Stage;
use call_phase::{Phase, Request, greatest, send_to_each};
use span_base::{DcId, Listed, VALUE_LIMIT, Value};
use std::alloc::{AllocError, Global};
use ticket_rules::Stamp;
use wire_msg::sizes::SEED_BYTES;
use wire_msg::{Bulk, Outputs, Tag};

impl<R: MoveRule> MoveCall<R> {
    /// Takes the version of a replica that is frozen now.
    pub(crate) fn take_have(
        &mut self,
        alloc: Global,
        tag: &Tag,
        replica: DcId,
        stamp: &Stamp,
        value: &Value,
        out: &mut Outputs,
    ) -> Result<(), AllocError>
        requires stamp { IsLawfulStamp stamp.now }
        requires value { length value.now ≤ VALUE_LIMIT }
        requires empty { out.old ≡ nothing_out }
        ensures ok { let step = on_have R.rule self.old self.old.stage tag.now replica stamp.now value.now in
            OnOk result (IsMade step self.new out.new) }
        ensures err { OnErr result ((self.new ≡ self.old) × (out.new ≡ out.old)) }
        ensures out { OnOk result (PutsOut self.new out.new) }
    {
        let Stage::Freezing { old, new, best } = &self.stage else {
            return Ok(());
        };
        if !self.phase.counts(tag, replica) {
            return Ok(());
        }
        let mut phase = self.phase;
        phase.take_good(replica);
        if !R::is_frozen(&old.policy, &phase) {
            self.stage.keep_better(stamp, value)?;
            self.phase = phase;
            return Ok(());
        }
        let found = greatest(best, stamp, value);
        let seeded = found.stamp;
        let next = self.phase.next_tag();
        let asked = R::seed_set(&new.policy);
        let request = Request::Seed {
            key: self.key,
            epoch: new.number,
            stamp: seeded,
            value: found.value,
        };
        out.posts = Listed::from_vec(send_to_each(alloc, asked, next, &request)?);
        self.stage.begin_seeding(phase.good, seeded);
        self.phase = Phase::open(next, asked);
        Ok(())
    }

    /// How much `take_have` sends.
    pub(crate) fn bulk_of_have(
        &self,
        tag: &Tag,
        replica: DcId,
        stamp: &Stamp,
        value: &Value,
    ) -> Bulk
        ensures { let step = on_have R.rule self.now self.now.stage tag.now replica stamp.now value.now in
            result ≡ bulk_of step.out.posts }
    {
        let Stage::Freezing { old, new, best } = &self.stage else {
            return Bulk::none();
        };
        if !self.phase.counts(tag, replica) {
            return Bulk::none();
        }
        let mut phase = self.phase;
        phase.take_good(replica);
        if R::is_frozen(&old.policy, &phase) {
            let found = greatest(best, stamp, value);
            let bytes = SEED_BYTES + found.value.len() as u32;
            Bulk::to_each(R::seed_set(&new.policy), bytes)
        } else {
            Bulk::none()
        }
    }
}
