//! What is true of every schedule that is read.

ghost use Rattle.std.specs.Prelude.{◌≡◌, Ok, Err};
ghost use Rattle.span_base.specs.declared.words.Cause.TheVariants as cause;
ghost use Rattle.schedule_text.specs.declared.setting.Form.TheVariants.{Plain, Script};
ghost use Rattle.schedule_text.specs.declared.fault.ScheduleFault.TheVariants.{Bad};
ghost use Rattle.schedule_text.specs.Schedules.{schedule_of};
ghost use Rattle.schedule_text.specs.Rows.{strong_text, strong_schedule, eventual_text, eventual_schedule};
ghost use Rattle.schedule_text.specs.Laws.{SchedulesMayHappen};
ghost use Rattle.schedule_text.specs.KeptLaws.{KeptSchedulesMayHappen, SchedulesAreRestartRuns};
ghost use Rattle.schedule_text.specs.Spellable.{SchedulesAreReadBack};

/// The header of a schedule opens a store, and each of its events may happen there at any time.
pub fn schedules_may_happen()
    ensures { SchedulesMayHappen }
{}

/// The header of a restart run opens a store, and each of its events may happen there at any time.
pub fn kept_schedules_may_happen()
    ensures { KeptSchedulesMayHappen }
{}

/// The text of a schedule is that of a restart run without crashes, of the same events.
pub fn schedules_are_restart_runs()
    ensures { SchedulesAreRestartRuns }
{}

/// What is printed of a schedule that the grammar spells says that schedule.
pub fn schedules_are_read_back()
    ensures { SchedulesAreReadBack }
{}

/// Small texts say what was worked by hand: a schedule of a strong key, which is no script, and
/// one of eventual keys.
#[tactic(auto, using(crate::proofs::Worked::strong_says_so, crate::proofs::Worked::script_says, crate::proofs::Worked::eventual_says))]
pub fn worked_texts_are_read()
    ensures strong { schedule_of Plain strong_text ≡ Ok strong_schedule }
    ensures script { schedule_of Script strong_text ≡ Err (Bad 10 cause.Syntax) }
    ensures eventual { schedule_of Plain eventual_text ≡ Ok eventual_schedule }
{}
