ghost use Rattle.std.specs.Prelude.{◌≡◌};
ghost use Rattle.planner.specs.Ends.{end_with};

use span_base::{DeviceFault, SetId};
use std::alloc::AllocError;

/// How planning a set ends. Costs are in pico-dollars.
#[derive(Clone, Copy, Debug, PartialEq, Eq)]
pub enum SetEnd {
    /// The set has its least policy, at this cost.
    Complete { cost: u128 },
    /// No policy is allowed for the set.
    NoPolicy,
    /// The search was cut off at the budget, with the cost of the best policy found, if one was.
    Budget { best: Option<u128> },
}

/// How planning a world ends. The plan is written in each case.
#[derive(Clone, Copy, Debug, PartialEq, Eq)]
pub enum PlanEnd {
    /// Every set has its least policy.
    Complete,
    /// This is the first set of which no policy is allowed, and no search was cut off.
    NoPolicy { set: SetId },
    /// This is the first set whose search was cut off at the budget.
    Budget { set: SetId },
}

/// Why a plan isn't written whole. The sink has taken a front of it.
#[derive(Clone, Copy, Debug, PartialEq, Eq)]
pub enum PlanFault {
    /// The sink failed.
    WriteFault,
    /// There was no memory.
    NoMemory,
}

impl From<AllocError> for PlanFault {
    ghost use Rattle.std.specs.Prelude.{◌≡◌};
    ghost use Rattle.planner.specs.declared.ends.PlanFault.TheVariants.{NoMemory};

    ghost from_gives = { λ _ fault. fault ≡ NoMemory };

    fn from(_: AllocError) -> PlanFault {
        PlanFault::NoMemory
    }
}

impl From<DeviceFault> for PlanFault {
    ghost use Rattle.std.specs.Prelude.{◌≡◌};
    ghost use Rattle.planner.specs.Ends.{fault_of};

    ghost from_gives = { λ device fault. fault ≡ fault_of device };

    fn from(device: DeviceFault) -> PlanFault {
        match device {
            DeviceFault::Failed => PlanFault::WriteFault,
            DeviceFault::NoMemory => PlanFault::NoMemory,
        }
    }
}

impl PlanEnd {
    /// How planning ends with one more set.
    pub(crate) fn with(self, set: SetId, end: SetEnd) -> PlanEnd
        ensures { result ≡ end_with self set end }
    {
        match (self, end) {
            (PlanEnd::Complete, SetEnd::NoPolicy) => PlanEnd::NoPolicy { set },
            (PlanEnd::Complete, SetEnd::Budget { .. }) => PlanEnd::Budget { set },
            (PlanEnd::NoPolicy { .. }, SetEnd::Budget { .. }) => PlanEnd::Budget { set },
            (end, _) => end,
        }
    }
}
