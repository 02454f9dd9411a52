//! What is true of every generated run.

ghost use Rattle.std.specs.Prelude.{ℕ};
ghost use Rattle.world_core.specs.State.{opening};
ghost use Rattle.world_core.specs.Run.{IsHeader, MayRun};
ghost use Rattle.run_generator.specs.Header.{header};
ghost use Rattle.run_generator.specs.Chosen.{events_of};

/// Each event may happen where the run comes to it: so what holds of every run holds of these.
#[tactic(auto, using(crate::proofs::Header::is_header, crate::proofs::MayRun::may_run))]
pub fn generated_runs_may_run()
    ensures header { IsHeader header }
    ensures events { (n : ℕ) → MayRun (events_of n) (opening header) }
{}
