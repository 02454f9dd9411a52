ghost use Rattle.std.specs.Prelude.{◌≡◌, ◌+◌, ◌<◌, ◌≤◌, ◌↔◌, ◌||◌, ℕ, Bool, false, IsTrue, length, IfSome, OnOk, OnErr, IsErrOf};
ghost use Rattle.span_base.specs.Counts.{Rose};
ghost use Rattle.wire_msg.specs.Lawful.{IsLawful, AreLawful};
ghost use Rattle.wire_msg.specs.Outputs.{nothing_out, only_posts, IsMade};
ghost use Rattle.wire_msg.specs.Posts.{AreAnswersTo};
ghost use Rattle.wire_msg.specs.Sizes.{bulk_of};
ghost use Rattle.replica_core.specs.Rule.{request_key, step};
ghost use Rattle.replica_core.specs.Taking.{IsLogged, IsRefusal, IsTooMuch, is_disk_fault, record_size};
ghost use Rattle.replica_journal.specs.Taken.{LeavesEither, Logs, Takes, place_after};

use crate::disk::Disk;
use crate::kept_replica::KeptReplica;
use crate::record::is_logged;
use replica_core::{TakeFault, Taker};
use std::alloc::Global;
use wire_msg::{Bulk, Message, Outputs, frame_len};

/// The most bytes that a journal may have.
const LIMIT: u64 = 4_294_967_295;

impl<D: Disk> Taker for KeptReplica<D> {
    ghost use Rattle.std.proofs.Common.{arith};
    ghost use Rattle.replica_journal.specs.Fitting.{IsSmall};

    ghost state = { λ k. k.state };

    ghost faults = { λ k. D.faults k.disk };

    ghost shut = { λ k. k.shut };

    ghost calm = { λ k. D.calm k.disk };

    ghost size = { λ k. k.place.gate };

    ghost leaves = { λ k. LeavesEither (D.told k.disk) };

    fn take(&mut self, alloc: Global, message: &Message, out: &mut Outputs) -> Result<(), TakeFault>
        requires lawful { IsLawful message.now }
        requires empty { out.old ≡ nothing_out }
        requires key { IfSome (request_key message.now) (λ key. key.0 < length self.old.state.kept) }

        ensures ok { OnOk result (IsMade (step self.old.state message.now) self.new.state out.new) }
        ensures lawful { OnOk result (AreLawful out.new.posts) }
        ensures posts { OnOk result (AreAnswersTo message.now out.new.posts) }
        ensures only { OnOk result (out.new ≡ only_posts out.new.posts) }
        ensures grows { OnOk result ((self.old.place.gate ≤ self.new.place.gate) × (self.new.place.gate ≤ self.old.place.gate + record_size message.now)) }
        ensures number { self.new.state.number ≡ self.old.state.number }
        ensures keys { length self.new.state.kept ≡ length self.old.state.kept }
        ensures faults_stay { D.faults self.old.disk ≤ D.faults self.new.disk }
        ensures shut { IsErrOf result TakeFault.Shut ↔ IsTrue self.old.shut }
        ensures full { (bytes : ℕ) → IsErrOf result (TakeFault.Full bytes) ↔ ((self.old.shut ≡ false) × IsTooMuch self.old.place.gate message.now bytes) }
        ensures disk_fault { IsErrOf result TakeFault.DiskFault → Rose (D.faults self.old.disk) (D.faults self.new.disk) × (self.new.state ≡ self.old.state) × (self.new.place ≡ self.old.place) }
        ensures leaves { IsErrOf result TakeFault.DiskFault → LeavesEither (D.told self.new.disk) self.old.state (step self.old.state message.now).state }
        ensures shuts { self.new.shut ≡ (self.old.shut || is_disk_fault result) }
        ensures calm { IsTrue (D.calm self.old.disk) → (IsErrOf result TakeFault.DiskFault → ⊥) × IsTrue (D.calm self.new.disk) }
        ensures refused { IsRefusal result → (self.new.state ≡ self.old.state) × (D.faults self.new.disk ≡ D.faults self.old.disk) × (D.calm self.new.disk ≡ D.calm self.old.disk) × (self.new.place ≡ self.old.place) }
        ensures err { OnErr result (out.new ≡ out.old) }

        ensures shut_stays { IsTrue self.old.shut → self.new ≡ self.old }
        ensures unlogged_stays { ¬ IsLogged message.now → self.new ≡ self.old }
        ensures logged { IsLogged message.now → OnOk result (self.new.place ≡ place_after self.old.place message.now) }
        // Whatever moment the machine stops at.
        ensures takes { self.old.shut ≡ false → Takes (D.told self.old.disk) (D.told self.new.disk) self.old.state message.now result }
        // The calls of the disk.
        ensures calls { self.old.shut ≡ false → IsLogged message.now → self.old.place.gate + record_size message.now ≤ 4294967295 → Logs D.write_does D.sync_does self.old.place.gate message.now self.old.disk self.new.disk result }
    {
        if self.is_shut {
            return Err(TakeFault::Shut);
        }
        if !is_logged(message) {
            self.answer(alloc, message, out)?;
            return Ok(());
        }
        let bytes = self.size() + 3 + u64::from(frame_len(message));
        if bytes > LIMIT {
            return Err(TakeFault::Full { bytes });
        }
        self.log(alloc, message, out)
    }

    fn bulk(&self, message: &Message) -> Bulk {
        self.replica.bulk(message)
    }

    ghost fits = { let small : IsSmall D.row = D.small in Prim.omega arith };
}
