//! The epoch is over at a replica: that moves a put on at once, and a get once it is so at every
//! replica that was asked.

ghost use Rattle.std.specs.Prelude.{◌≡◌, ◌<◌, ℕ, OnErr, OnOk, IfSome};
ghost use Rattle.wire_msg.specs.Lawful.{IsLawfulReply, AreLawful};
ghost use Rattle.wire_msg.specs.Outputs.{nothing_out, IsMade};
ghost use Rattle.wire_msg.specs.Sizes.{bulk_of};
ghost use Rattle.call_phase.specs.Counting.{with_bad};
ghost use Rattle.relay_proxy.specs.Rule.{moves, refused_at, on_gone, moves_by, all_refused};

use crate::call::EventualCall;
use crate::counting::all_refused;
use crate::stage::Stage;
use span_base::{CENTRES, DcId};
use std::alloc::{AllocError, Global};
use std::cmp::max;
use wire_msg::sizes::LOOKUP_BYTES;
use wire_msg::{Bulk, Message, Outputs, Reply, Tag, ask_directory};

impl EventualCall {
    /// The epoch is over at a replica.
    pub(crate) fn take_gone(
        &mut self,
        alloc: Global,
        tag: &Tag,
        replica: DcId,
        epoch: u32,
        out: &mut Outputs,
    ) -> Result<(), AllocError>
        requires { out.old ≡ nothing_out }
        ensures ok { OnOk result (IsMade (on_gone self.old.stage self.old tag.now replica epoch) self.new out.new) }
        ensures err { OnErr result ((self.new ≡ self.old) × (out.new ≡ out.old)) }
        ensures lawful { OnOk result (AreLawful out.new.posts) }
        ensures reply { OnOk result (IfSome out.new.end IsLawfulReply) }
    {
        match self.stage {
            Stage::Getting => {
                if self.phase.counts(tag, replica) {
                    return self.refuse_at(alloc, replica, epoch, out);
                }
                Ok(())
            }
            Stage::Putting { .. } => {
                if self.phase.counts(tag, replica) {
                    return self.move_on(alloc, epoch, out);
                }
                Ok(())
            }
            Stage::Ended => Ok(()),
        }
    }

    /// The replica has no answer for a get any more.
    fn refuse_at(
        &mut self,
        alloc: Global,
        replica: DcId,
        epoch: u32,
        out: &mut Outputs,
    ) -> Result<(), AllocError>
        requires empty { out.old ≡ nothing_out }
        requires limit { replica.0 < CENTRES }
        ensures ok { OnOk result (IsMade (refused_at self.old replica epoch) self.new out.new) }
        ensures err { OnErr result ((self.new ≡ self.old) × (out.new ≡ out.old)) }
        ensures lawful { OnOk result (AreLawful out.new.posts) }
        ensures reply { OnOk result (IfSome out.new.end IsLawfulReply) }
    {
        let mut phase = self.phase;
        phase.take_bad(replica);
        let gone = max(self.gone, epoch);
        if all_refused(&phase) {
            return self.move_on(alloc, gone, out);
        }
        self.phase = phase;
        self.gone = gone;
        Ok(())
    }

    /// The call is over since the key moved on, and the key is looked up.
    fn move_on(&mut self, alloc: Global, epoch: u32, out: &mut Outputs) -> Result<(), AllocError>
        requires { out.old ≡ nothing_out }
        ensures ok { OnOk result (IsMade (moves self.old epoch) self.new out.new) }
        ensures err { OnErr result ((self.new ≡ self.old) × (out.new ≡ out.old)) }
        ensures lawful { OnOk result (AreLawful out.new.posts) }
        ensures reply { OnOk result (IfSome out.new.end IsLawfulReply) }
    {
        let message = Message::Lookup {
            tag: self.phase.next_tag(),
            key: self.key,
        };
        out.posts = ask_directory(alloc, message)?;
        self.end(Reply::Moved { epoch }, out);
        Ok(())
    }

    /// How much is put out as the epoch is over at a replica.
    pub(crate) fn bulk_of_gone(&self, tag: &Tag, replica: DcId) -> Bulk
        ensures { (epoch : ℕ) → result ≡ bulk_of (on_gone self.now.stage self.now tag.now replica epoch).out.posts }
    {
        if self.moves_on(tag, replica) {
            Bulk::one(LOOKUP_BYTES)
        } else {
            Bulk::none()
        }
    }

    /// Whether the call moves on where the epoch is over at this replica.
    fn moves_on(&self, tag: &Tag, replica: DcId) -> bool
        ensures { result ≡ moves_by self.now.stage self.now tag.now replica }
    {
        match self.stage {
            Stage::Getting => self.phase.counts(tag, replica) && self.refuses_all(replica),
            Stage::Putting { .. } => self.phase.counts(tag, replica),
            Stage::Ended => false,
        }
    }

    /// Whether every replica refused once this one does.
    fn refuses_all(&self, replica: DcId) -> bool
        requires { replica.0 < CENTRES }
        ensures { result ≡ all_refused (with_bad self.now.phase replica) }
    {
        let mut phase = self.phase;
        phase.take_bad(replica);
        all_refused(&phase)
    }
}
