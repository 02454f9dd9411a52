//! What an accepted plan says, and which plans are accepted, as laws over all worlds.

ghost use Rattle.plan_check.specs.Laws.{AcceptedPartsAreTrue, PlanFilesAreAccepted, WholePlansAreAccepted};

/// A part that is accepted for a set shows what it says: its policy is allowed and none costs less,
/// or the set has no policy.
pub fn accepted_parts_are_true()
    ensures { AcceptedPartsAreTrue }
{}

/// A check of the file of an accepted plan of at most 4,294,967,295 bytes, whose policies have no
/// sets but of the 16 centres, is never refused.
pub fn plan_files_are_accepted()
    ensures { PlanFilesAreAccepted }
{}

/// What was planned and not cut off is such a plan.
pub fn whole_plans_are_accepted()
    ensures { WholePlansAreAccepted }
{}
