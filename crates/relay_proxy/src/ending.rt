//! How a call ends: a get by a version, a put by `f + 1` replicas that stored its value.

ghost use Rattle.std.specs.Prelude.{◌≡◌, ◌<◌, ◌≤◌, OnErr, OnOk, IfSome, Some, length};
ghost use Rattle.wire_msg.specs.Lawful.{IsLawfulStamp, IsLawfulReply};
ghost use Rattle.wire_msg.specs.Outputs.{nothing_out, IsMade};
ghost use Rattle.relay_proxy.specs.Rule.{ended, stored_at, on_have, on_yes};

use crate::call::EventualCall;
use crate::counting::is_stored;
use crate::stage::Stage;
use span_base::{CENTRES, DcId, VALUE_LIMIT, Value};
use std::alloc::AllocError;
use ticket_rules::Stamp;
use wire_msg::{Outputs, Reply, Tag};

impl EventualCall {
    /// A version that counts ends a get.
    pub(crate) fn take_have(
        &mut self,
        tag: &Tag,
        replica: DcId,
        version: Stamp,
        value: &Value,
        out: &mut Outputs,
    ) -> Result<(), AllocError>
        requires empty { out.old ≡ nothing_out }
        requires version { IsLawfulStamp version }
        requires value { length value.now ≤ VALUE_LIMIT }
        ensures ok { OnOk result (IsMade (on_have self.old.stage self.old tag.now replica version value.now) self.new out.new) }
        ensures err { OnErr result ((self.new ≡ self.old) × (out.new ≡ out.old)) }
        ensures reply { OnOk result (IfSome out.new.end IsLawfulReply) }
    {
        match self.stage {
            Stage::Getting => {
                if self.phase.counts(tag, replica) {
                    let value = value.clone()?;
                    self.end(
                        Reply::Value {
                            stamp: version,
                            value,
                        },
                        out,
                    );
                }
                Ok(())
            }
            Stage::Putting { .. } | Stage::Ended => Ok(()),
        }
    }

    /// Yes of `f + 1` replicas end a put.
    pub(crate) fn take_yes(&mut self, tag: &Tag, replica: DcId, out: &mut Outputs)
        requires { out.old ≡ nothing_out }
        ensures made { IsMade (on_yes self.old.stage self.old tag.now replica) self.new out.new }
        ensures reply { IfSome out.new.end IsLawfulReply }
    {
        match self.stage {
            Stage::Putting { stamp } => {
                if self.phase.counts(tag, replica) {
                    self.store_at(replica, stamp, out);
                }
            }
            Stage::Getting | Stage::Ended => {}
        }
    }

    /// The replica stored the value.
    fn store_at(&mut self, replica: DcId, stamp: Stamp, out: &mut Outputs)
        requires empty { out.old ≡ nothing_out }
        requires limit { replica.0 < CENTRES }
        requires stamp { IsLawfulStamp stamp }
        ensures made { IsMade (stored_at self.old replica stamp) self.new out.new }
        ensures reply { IfSome out.new.end IsLawfulReply }
    {
        let mut phase = self.phase;
        phase.take_good(replica);
        if is_stored(self.f, &phase) {
            self.end(Reply::Stored { stamp }, out);
        } else {
            self.phase = phase;
        }
    }

    /// The call is over with this reply.
    pub(crate) fn end(&mut self, reply: Reply, out: &mut Outputs)
        ensures state { self.new ≡ ended self.old }
        ensures out { out.new ≡ record { posts = out.old.posts; ticket = out.old.ticket; view = out.old.view; end = Some reply } }
    {
        self.stage = Stage::Ended;
        out.end = Some(reply);
    }
}
