ghost use Rattle.cloud_law.specs.Taken.{StoresOpen, StepsTake, RefusalsTakeNone, TakenKeepRegisters};

/// A store that takes events step by step has the state and the marks of the run of just those
/// events that `Cloud::step` answered with `Ok`, whatever wire carries its messages and whatever
/// keeps its replicas: each `Ok` takes one event more, and nothing else takes any, also where a
/// replica's disk failed. So what holds of every run holds of its marks, and the history of each
/// strong key in them is that of one register.
pub fn steps_keep_registers()
    ensures opens { StoresOpen }
    ensures takes { StepsTake }
    ensures refuses { RefusalsTakeNone }
    ensures registers { TakenKeepRegisters }
{}
