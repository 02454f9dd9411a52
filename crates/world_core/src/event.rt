use epoch_directory::SetPolicy;
use replica_core::TakeFault;
use run_marks::Work;
use span_base::{DcId, Listed, Policy, SetId, What};
use std::alloc::AllocError;

/// What a store begins with.
#[derive(Debug, PartialEq, Eq, Drop)]
pub struct Header {
    /// How many replicas there are: 0 to `replicas - 1`.
    pub replicas: u8,
    /// The first policy of each set: that of epoch 1.
    pub sets: Listed<Policy>,
    /// The set of each key.
    pub keys: Listed<SetId>,
    /// The centre of each proxy.
    pub proxies: Listed<DcId>,
}

/// What happens next.
#[derive(Debug, PartialEq, Eq, Drop)]
pub enum Event {
    /// A client calls at a proxy.
    Start { proxy: u32, key: u32, work: Work },
    /// A message that was sent comes to its actor. Messages are numbered from 0 in the order in
    /// which they were sent; each may come late, more than once or never.
    Deliver { message: u32 },
    /// A replica takes nothing from now on.
    StopReplica { replica: u32 },
    /// A proxy takes nothing from now on, and begins nothing.
    StopProxy { proxy: u32 },
    /// A client waits no longer for its call of this number.
    GiveUp { proxy: u32, seq: u32 },
    /// The next epoch is to have these policies for these sets.
    Publish { table: Listed<SetPolicy> },
}

/// Why an event isn't taken: it is refused, or there is no means to take it.
#[derive(Clone, Copy, Debug)]
pub enum StepFault {
    /// There is no proxy or replica of this number.
    NoActor,
    /// There is no key of this number.
    NoKey,
    /// Keys of this mode have no such work.
    WrongMode,
    /// No message of this number was sent: `sent` were.
    NoMessage { sent: u32 },
    /// The proxy has no such live call, or one that may not be given up.
    NoCall,
    /// The event would make this number of them, which is too many.
    Limit { what: What, number: u128 },
    /// The replica that the event asks took nothing, by a fault of its journal.
    Taker(TakeFault),
    /// Memory ran out: nothing changed.
    NoMemory(AllocError),
}

impl From<AllocError> for StepFault {
    ghost use Rattle.std.specs.Prelude.{◌≡◌};
    ghost use Rattle.world_core.specs.declared.event.StepFault.TheVariants.{NoMemory};

    ghost from_gives = { λ error fault. fault ≡ NoMemory error };

    fn from(error: AllocError) -> StepFault {
        StepFault::NoMemory(error)
    }
}
