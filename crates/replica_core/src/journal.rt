ghost use Rattle.std.specs.Prelude.{◌≡◌, ◌+◌, ◌<◌, ◌≤◌, ◌↔◌, ◌||◌, ℕ, Bool, false, IsTrue, length, IfSome, OnOk, OnErr, IsErrOf};
ghost use Rattle.span_base.specs.Counts.{Rose};
ghost use Rattle.wire_msg.specs.Lawful.{IsLawful, AreLawful};
ghost use Rattle.wire_msg.specs.Outputs.{nothing_out, only_posts, IsMade};
ghost use Rattle.wire_msg.specs.Posts.{AreAnswersTo};
ghost use Rattle.wire_msg.specs.Sizes.{bulk_of};
ghost use Rattle.replica_core.specs.Rule.{State, request_key, step};

use crate::replica::Replica;
use std::alloc::{AllocError, Global};
use wire_msg::{Bulk, Message, Outputs};

/// Why a message isn't taken.
#[derive(Clone, Copy, Debug, PartialEq, Eq)]
pub enum TakeFault {
    /// Memory ran out: nothing changed.
    NoMemory(AllocError),
    /// The disk failed. Nothing is taken from now on.
    DiskFault,
    /// The disk failed before.
    Shut,
    /// The journal would have this many bytes, which is too many.
    Full { bytes: u64 },
}

impl From<AllocError> for TakeFault {
    ghost use Rattle.replica_core.specs.declared.journal.TakeFault.TheVariants.{NoMemory};

    ghost from_gives = { λ error fault. fault ≡ NoMemory error };

    fn from(error: AllocError) -> TakeFault {
        TakeFault::NoMemory(error)
    }
}

/// What takes the messages of a replica. It may write a journal of them to a disk.
pub trait Taker {
    ghost use Rattle.std.specs.Mem.{FitsInMemory};
    ghost use Rattle.replica_core.specs.Taking.{record_size, IsTooMuch, is_disk_fault, IsRefusal};

    /// The replica's state.
    ghost state: { Self → State };

    /// How often the disk failed. It stands still at the end of a `u64`.
    ghost faults: { Self → ℕ };

    /// Whether it takes nothing any more, after a fault of the disk.
    ghost shut: { Self → Bool };

    /// Whether its disk never fails.
    ghost calm: { Self → Bool };

    /// The bytes of the journal.
    ghost size: { Self → ℕ };

    /// Whatever a crash leaves keeps one of two states.
    ghost leaves: { Self → State → State → Type 0 };

    /// Takes a message: changes what is kept, and puts out the answer.
    fn take(&mut self, alloc: Global, message: &Message, out: &mut Outputs) -> Result<(), TakeFault>
        requires lawful { IsLawful message.now }
        requires empty { out.old ≡ nothing_out }
        requires key { IfSome (request_key message.now) (λ key. key.0 < length (state self.old).kept) }

        ensures ok { OnOk result (IsMade (step (state self.old) message.now) (state self.new) out.new) }
        ensures lawful { OnOk result (AreLawful out.new.posts) }
        ensures posts { OnOk result (AreAnswersTo message.now out.new.posts) }
        ensures only { OnOk result (out.new ≡ only_posts out.new.posts) }
        ensures grows { OnOk result ((size self.old ≤ size self.new) × (size self.new ≤ size self.old + record_size message.now)) }
        ensures number { (state self.new).number ≡ (state self.old).number }
        ensures keys { length (state self.new).kept ≡ length (state self.old).kept }
        ensures faults_stay { faults self.old ≤ faults self.new }
        ensures shut { IsErrOf result TakeFault.Shut ↔ IsTrue (shut self.old) }
        ensures full { (bytes : ℕ) → IsErrOf result (TakeFault.Full bytes) ↔ ((shut self.old ≡ false) × IsTooMuch (size self.old) message.now bytes) }
        ensures disk_fault { IsErrOf result TakeFault.DiskFault → Rose (faults self.old) (faults self.new) × (state self.new ≡ state self.old) × (size self.new ≡ size self.old) }
        ensures leaves { IsErrOf result TakeFault.DiskFault → leaves self.new (state self.old) (step (state self.old) message.now).state }
        ensures shuts { shut self.new ≡ (shut self.old || is_disk_fault result) }
        ensures calm { IsTrue (calm self.old) → (IsErrOf result TakeFault.DiskFault → ⊥) × IsTrue (calm self.new) }
        ensures refused { IsRefusal result → (state self.new ≡ state self.old) × (faults self.new ≡ faults self.old) × (calm self.new ≡ calm self.old) × (size self.new ≡ size self.old) }
        ensures err { OnErr result (out.new ≡ out.old) };

    /// How much an Ok of `take` puts out for this message. It takes no memory.
    fn bulk(&self, message: &Message) -> Bulk
        requires { IfSome (request_key message.now) (λ key. key.0 < length (state self.now).kept) }
        ensures { result ≡ bulk_of (step (state self.now) message.now).out.posts };

    /// A value takes at most 9,223,372,036,854,775,807 bytes, so a list of takers can be kept.
    ghost fits: { FitsInMemory Self.row };
}

impl Taker for Replica {
    ghost use Rattle.std.specs.Prelude.{⊤, true, false};
    ghost use Rattle.std.proofs.Common.{rules};

    ghost state = { λ s. s };

    ghost faults = { λ _. 0 };

    ghost shut = { λ _. false };

    ghost calm = { λ _. true };

    ghost size = { λ _. 0 };

    ghost leaves = { λ _ _ _. ⊤ };

    fn take(
        &mut self,
        alloc: Global,
        message: &Message,
        out: &mut Outputs,
    ) -> Result<(), TakeFault> {
        self.take(alloc, message, out)?;
        Ok(())
    }

    fn bulk(&self, message: &Message) -> Bulk {
        self.bulk(message)
    }

    ghost fits = { Prim.search rules };
}
