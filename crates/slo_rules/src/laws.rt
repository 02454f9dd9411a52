//! What printing and reading the lines of policies give together, as laws over all worlds.

ghost use Rattle.slo_rules.specs.LineGrammar.{FormsAreTold};
ghost use Rattle.slo_rules.specs.PolicyLaws.{PrintedPoliciesAreRead, ReadLinesArePrinted, PolicyTextsAreToldApart};

/// Reading the lines that are printed of an allowed policy of a set gives that policy.
pub fn printed_policies_are_read()
    ensures { PrintedPoliciesAreRead }
{}

/// Lines from which a policy is read are those that are printed of it.
pub fn read_lines_are_printed()
    ensures { ReadLinesArePrinted }
{}

/// Texts that begin with allowed policies of one set are equal only where the policies are equal,
/// and what follows them.
pub fn policy_texts_are_told_apart()
    ensures { PolicyTextsAreToldApart }
{}

/// A line that says something has one of the four forms, and one of no form is told with the first
/// byte at which it can't go on as any of them.
pub fn forms_are_told()
    ensures { FormsAreTold }
{}
