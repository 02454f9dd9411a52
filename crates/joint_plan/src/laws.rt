//! Texts of joint plans that can be written by hand.
ghost use Rattle.std.specs.Prelude.{◌≡◌, [], ◌∷◌, ◌++◌, codes};
ghost use Rattle.slo_rules.specs.Examples.{two_centres};
ghost use Rattle.joint_placement.specs.Examples.{large_machines};
ghost use Rattle.joint_plan.specs.Endings.{none_there};
ghost use Rattle.joint_plan.specs.JointText.{begun_text, ending_text};
ghost use Rattle.joint_plan.specs.Examples.{ending_in_x, text_in_x};

/// The first lines of a joint plan of two centres, the lines of one with all in one centre, and those
/// of a search that found none.
pub fn worked_texts()
    ensures begun { begun_text two_centres large_machines [] ≡ codes "span-joint 1\njoint 10\n" }
    ensures in_x { ending_text two_centres 1 ending_in_x ≡ text_in_x }
    ensures none { ending_text two_centres 1 none_there ≡ codes "result none\n" }
{}
