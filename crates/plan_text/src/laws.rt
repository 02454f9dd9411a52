//! What the text of a plan says, as a law over all worlds.

ghost use Rattle.plan_text.specs.PlanLaws.{PlanTextsAreToldApart};

/// A text is a plan of a world with at most one list of accepted parts.
pub fn plan_texts_are_told_apart()
    ensures { PlanTextsAreToldApart }
{}
