//! What `plan` and `check` are to each other, as a law over all worlds.

ghost use Rattle.span_top.specs.PlanLaws.{WrittenPlansAreAccepted};

/// What `plan` wrote at 0 or 5 `check` ends 0 on, where the file is within its limit and neither
/// memory lacks nor the files or the output fail. That these failed a count of theirs tells.
pub fn written_plans_are_accepted()
    ensures { WrittenPlansAreAccepted }
{}
