//! A message is in the journal before it is answered.

ghost use Rattle.std.specs.Prelude.{◌≡◌, ◌+◌, ◌<◌, ◌≤◌, ℕ, false, length, IfSome, OnOk, OnErr, IsErrOf};
ghost use Rattle.wire_msg.specs.Lawful.{IsLawful, AreLawful};
ghost use Rattle.wire_msg.specs.Outputs.{nothing_out, only_posts, IsMade};
ghost use Rattle.wire_msg.specs.Posts.{AreAnswersTo};
ghost use Rattle.replica_core.specs.Rule.{request_key, step};
ghost use Rattle.replica_core.specs.Taking.{IsLogged, record_size, is_disk_fault};
ghost use Rattle.replica_journal.specs.Counting.{Counts};
ghost use Rattle.replica_journal.specs.Taken.{Logs, Takes, place_after};

use crate::disk::Disk;
use crate::journal::append;
use crate::kept_replica::KeptReplica;
use crate::spelling::spell;
use replica_core::TakeFault;
use span_base::DeviceFault;
use std::alloc::{AllocError, Global};
use wire_msg::{Message, Outputs};

impl<D: Disk> KeptReplica<D> {
    /// Takes a message that changes nothing that is kept.
    pub(crate) fn answer(
        &mut self,
        alloc: Global,
        message: &Message,
        out: &mut Outputs,
    ) -> Result<(), AllocError>
        requires lawful { IsLawful message.now }
        requires empty { out.old ≡ nothing_out }
        requires key { IfSome (request_key message.now) (λ key. key.0 < length self.old.state.kept) }
        requires unlogged { ¬ IsLogged message.now }
        ensures ok { OnOk result (IsMade (step self.old.state message.now) self.old.state out.new) }
        ensures err { OnErr result (out.new ≡ out.old) }
        ensures lawful { OnOk result (AreLawful out.new.posts) }
        ensures posts { OnOk result (AreAnswersTo message.now out.new.posts) }
        ensures only { OnOk result (out.new ≡ only_posts out.new.posts) }
        ensures stays { self.new ≡ self.old }
    {
        self.replica.take(alloc, message, out)
    }

    /// Writes a message to the journal, and then takes it.
    pub(crate) fn log(
        &mut self,
        alloc: Global,
        message: &Message,
        out: &mut Outputs,
    ) -> Result<(), TakeFault>
        requires lawful { IsLawful message.now }
        requires empty { out.old ≡ nothing_out }
        requires key { IfSome (request_key message.now) (λ key. key.0 < length self.old.state.kept) }
        requires logged { IsLogged message.now }
        requires open { self.old.shut ≡ false }
        requires room { self.old.place.gate + record_size message.now ≤ 4294967295 }
        ensures ok { OnOk result (IsMade (step self.old.state message.now) self.new.state out.new) }
        ensures lawful { OnOk result (AreLawful out.new.posts) }
        ensures posts { OnOk result (AreAnswersTo message.now out.new.posts) }
        ensures only { OnOk result (out.new ≡ only_posts out.new.posts) }
        ensures place { OnOk result (self.new.place ≡ place_after self.old.place message.now) }
        ensures err { OnErr result ((self.new.state ≡ self.old.state) × (self.new.place ≡ self.old.place) × (out.new ≡ out.old)) }
        ensures number { self.new.state.number ≡ self.old.state.number }
        ensures keys { length self.new.state.kept ≡ length self.old.state.kept }
        ensures shuts { self.new.shut ≡ is_disk_fault result }
        ensures never_shut { IsErrOf result TakeFault.Shut → ⊥ }
        ensures never_full { (bytes : ℕ) → IsErrOf result (TakeFault.Full bytes) → ⊥ }
        ensures counts { Counts (D.faults self.old.disk) (D.faults self.new.disk) (D.calm self.old.disk) (D.calm self.new.disk) (is_disk_fault result) }
        ensures takes { Takes (D.told self.old.disk) (D.told self.new.disk) self.old.state message.now result }
        ensures calls { Logs D.write_does D.sync_does self.old.place.gate message.now self.old.disk self.new.disk result }
    {
        let prepared = self.replica.prepare(alloc, message)?;
        spell(&mut self.piece, message)?;
        match append(&mut self.disk, self.place.gate, self.piece.as_slice()) {
            Ok(()) => {
                self.place.gate += self.piece.len() as u64;
                self.place.records += 1;
                self.replica.commit(message, prepared, out);
                Ok(())
            }
            Err(DeviceFault::Failed) => {
                self.is_shut = true;
                Err(TakeFault::DiskFault)
            }
            Err(DeviceFault::NoMemory) => Err(TakeFault::NoMemory(AllocError)),
        }
    }
}
