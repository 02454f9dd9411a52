ghost use Rattle.std.specs.Prelude.{◌≡◌};

use joint_placement::JointFault as ProgramFault;
use plan_check::CheckFault;
use planner::PlanFault;
use span_base::What;
use std::alloc::AllocError;

/// Why a joint plan isn't written whole. The sink has taken a front of it.
#[derive(Clone, Copy, Debug, PartialEq, Eq)]
pub enum JointFault {
    /// The joint program would pass a limit: on its variables, else on its rows, else on their
    /// weight. Nothing is written.
    Limit { what: What, number: u128 },
    /// The sink failed.
    WriteFault,
    /// There was no memory.
    NoMemory,
}

impl From<AllocError> for JointFault {
    ghost use Rattle.std.specs.Prelude.{◌≡◌};
    ghost use Rattle.joint_plan.specs.declared.fault.JointFault.TheVariants.{NoMemory};

    ghost from_gives = { λ _ fault. fault ≡ NoMemory };

    fn from(_: AllocError) -> JointFault {
        JointFault::NoMemory
    }
}

impl From<PlanFault> for JointFault {
    ghost use Rattle.std.specs.Prelude.{◌≡◌};
    ghost use Rattle.joint_plan.specs.Faults.{writing_fault};

    ghost from_gives = { λ writing fault. fault ≡ writing_fault writing };

    fn from(fault: PlanFault) -> JointFault {
        match fault {
            PlanFault::WriteFault => JointFault::WriteFault,
            PlanFault::NoMemory => JointFault::NoMemory,
        }
    }
}

impl From<ProgramFault> for JointFault {
    ghost use Rattle.std.specs.Prelude.{◌≡◌};
    ghost use Rattle.joint_plan.specs.Faults.{program_fault};

    ghost from_gives = { λ program fault. fault ≡ program_fault program };

    fn from(fault: ProgramFault) -> JointFault {
        match fault {
            ProgramFault::Limit { what, number } => JointFault::Limit { what, number },
            ProgramFault::NoMemory(_) => JointFault::NoMemory,
        }
    }
}

/// Why a joint plan isn't accepted. The first thing that is met decides; the joint program comes
/// before the file.
#[derive(Clone, Copy, Debug, PartialEq, Eq)]
pub enum JointCheckFault {
    /// The joint program would pass a limit: on its variables, else on its rows, else on their
    /// weight.
    Limit { what: What, number: u128 },
    /// The file isn't that of an accepted joint plan, or wasn't read, or nothing could be told.
    Check(CheckFault),
}

impl From<ProgramFault> for JointCheckFault {
    ghost use Rattle.std.specs.Prelude.{◌≡◌};
    ghost use Rattle.joint_plan.specs.Faults.{limit_fault};

    ghost from_gives = { λ program fault. fault ≡ limit_fault program };

    fn from(fault: ProgramFault) -> JointCheckFault {
        match fault {
            ProgramFault::Limit { what, number } => JointCheckFault::Limit { what, number },
            ProgramFault::NoMemory(_) => JointCheckFault::Check(CheckFault::NoMemory),
        }
    }
}

impl From<CheckFault> for JointCheckFault {
    ghost use Rattle.std.specs.Prelude.{◌≡◌};
    ghost use Rattle.joint_plan.specs.declared.fault.JointCheckFault.TheVariants.{Check};

    ghost from_gives = { λ check fault. fault ≡ Check check };

    fn from(fault: CheckFault) -> JointCheckFault {
        JointCheckFault::Check(fault)
    }
}
