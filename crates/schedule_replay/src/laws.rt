//! What is true of every run of a schedule.

ghost use Rattle.std.specs.Prelude.{◌≡◌, ℕ, List, Ok};
ghost use Rattle.world_core.specs.State.{opening};
ghost use Rattle.world_core.specs.Run.{IsHeader, MayRun};
ghost use Rattle.schedule_text.specs.declared.setting.Form.TheVariants.{Plain};
ghost use Rattle.schedule_text.specs.Schedules.{Schedule, schedule_of};
ghost use Rattle.schedule_text.specs.Rows.{strong_schedule};
ghost use Rattle.schedule_replay.specs.Rows.{StopsSo, strong_told, three_sent};

use schedule_text::laws::schedules_may_happen;

/// The header of a schedule that is read opens a store, and each event may happen where the run
/// comes to it: so what holds of every run holds of those that are replayed.
pub fn replayed_runs_may_run()
    ensures header { (text : List ℕ) (schedule : Schedule) → schedule_of Plain text ≡ Ok schedule → IsHeader schedule.header }
    ensures events { (text : List ℕ) (schedule : Schedule) → schedule_of Plain text ≡ Ok schedule → MayRun schedule.events (opening schedule.header) }
{
    schedules_may_happen();
}

/// The run of a small schedule is told as it was worked by hand.
#[tactic(auto, using(crate::proofs::Worked::strong_stops))]
pub fn worked_run_is_told()
    ensures { StopsSo strong_schedule strong_told 10 three_sent }
{}
