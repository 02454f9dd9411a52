//! Costs and texts of policies of small worlds, reckoned by hand, and policies that break each rule.
ghost use Rattle.std.specs.Prelude.{◌≡◌, [], ◌∷◌, codes};
ghost use Rattle.slo_rules.specs.Rules.{first_broken_rule, fits_set};
ghost use Rattle.slo_rules.specs.Cost.{policy_cost};
ghost use Rattle.slo_rules.specs.PolicyText.{policy_text};
ghost use Rattle.slo_rules.specs.Examples.{dc, member, only, both, all_of, hop, two_centres, two_centres_with, at, at_both, read_elsewhere, both_for_one, at_third, one_writer, one_direct_writer, through_b, written_straight, through, out_of_order, three_equal, three_equal_with, at_all, with_quorums, written_apart, largest};

use crate::rules::Rule;

/// What policies of small worlds cost.
pub fn worked_costs()
    ensures at_x { policy_cost two_centres 0 (at 0) ≡ 1078 }
    ensures at_y { policy_cost two_centres 0 (at 1) ≡ 262 }
    ensures at_both { policy_cost two_centres 0 at_both ≡ 1230 }
    ensures relay { policy_cost one_writer 0 through_b ≡ 102 }
    ensures straight { policy_cost one_direct_writer 0 written_straight ≡ 182 }
    ensures strong { policy_cost three_equal 0 at_all ≡ 104 }
    ensures largest { policy_cost largest 0 (at 0) ≡ 201002000000000000000000 }
{}

/// Policies that break no rule.
pub fn worked_policies()
    ensures at_x { first_broken_rule two_centres 0 (at 0) ≡ None }
    ensures at_y { first_broken_rule two_centres 0 (at 1) ≡ None }
    ensures relay { first_broken_rule one_writer 0 through_b ≡ None }
    ensures straight { first_broken_rule one_direct_writer 0 written_straight ≡ None }
    ensures strong { first_broken_rule three_equal 0 at_all ≡ None }
    ensures two_providers { first_broken_rule (two_centres_with 0 30 30 2) 0 at_both ≡ None }
    ensures at_the_goals { first_broken_rule (two_centres_with 1 20 20 1) 0 both_for_one ≡ None }
    ensures largest { first_broken_rule largest 0 (at 0) ≡ None }
{}

/// The rule that each of these policies breaks first.
pub fn worked_faults()
    ensures other_mode { first_broken_rule two_centres 0 through_b ≡ Some Rule.Mode }
    ensures other_failures { first_broken_rule two_centres 0 both_for_one ≡ Some Rule.Mode }
    ensures unknown_centre { first_broken_rule two_centres 0 at_third ≡ Some Rule.Shape }
    ensures members_out_of_order { first_broken_rule one_writer 0 out_of_order ≡ Some Rule.Shape }
    ensures hops_out_of_order { first_broken_rule one_writer 0 (through (hop 0 2 1 ∷ hop 0 1 1 ∷ [])) ≡ Some Rule.Shape }
    ensures primary_elsewhere { first_broken_rule two_centres 0 read_elsewhere ≡ Some (Rule.Primary (dc 0)) }
    ensures far_primary { first_broken_rule (two_centres_with 0 19 30 1) 0 (at 1) ≡ Some (Rule.Primary (dc 0)) }
    ensures goals_of_zero { first_broken_rule (two_centres_with 0 0 0 1) 0 (at 0) ≡ Some (Rule.Primary (dc 0)) }
    ensures few_to_read { first_broken_rule (two_centres_with 1 19 30 1) 0 both_for_one ≡ Some (Rule.ReadSlo (dc 0)) }
    ensures few_to_write { first_broken_rule (two_centres_with 1 30 19 1) 0 both_for_one ≡ Some (Rule.WriteSlo (dc 0)) }
    ensures indirect_parent { first_broken_rule one_writer 0 (through (hop 0 1 2 ∷ hop 0 2 1 ∷ [])) ≡ Some (Rule.Parent (dc 0) (dc 1)) }
    ensures parent_elsewhere { first_broken_rule one_writer 0 (through (hop 0 1 1 ∷ hop 0 2 0 ∷ [])) ≡ Some (Rule.Parent (dc 0) (dc 2)) }
    ensures replica_unused { first_broken_rule three_equal 0 (with_quorums (both 0 1) (both 0 1)) ≡ Some Rule.Union }
    ensures far_to_read { first_broken_rule (three_equal_with 1 19 40 1 (member 0 5 2 ∷ [])) 0 at_all ≡ Some (Rule.ReadSlo (dc 0)) }
    ensures far_to_write { first_broken_rule (three_equal_with 1 20 39 1 (member 0 5 2 ∷ [])) 0 at_all ≡ Some (Rule.WriteSlo (dc 0)) }
    ensures meet_in_two { first_broken_rule three_equal 0 (with_quorums (both 0 1) (all_of 0 1 2)) ≡ Some (Rule.Meet (dc 0) (dc 0)) }
    ensures writes_apart { first_broken_rule (three_equal_with 0 20 40 1 (member 0 5 2 ∷ member 1 5 2 ∷ [])) 0 written_apart ≡ Some (Rule.MeetWrites (dc 0) (dc 1)) }
    ensures one_provider { first_broken_rule (two_centres_with 0 30 30 2) 0 (at 0) ≡ Some Rule.Providers }
    ensures one_of_three { first_broken_rule (three_equal_with 1 20 40 2 (member 0 5 2 ∷ [])) 0 at_all ≡ Some Rule.Providers }
{}

/// How policies are written, one of each mode.
pub fn worked_texts()
    ensures direct { policy_text two_centres (at 1) ≡ codes "replicas y\nprimary x y\n" }
    ensures relay { policy_text one_writer through_b ≡ codes "replicas b c\nprimary a b\nprimary b b\nprimary c c\nparent a b b\nparent a c b\nparent b b b\nparent b c c\nparent c b b\nparent c c c\n" }
    ensures strong { policy_text three_equal at_all ≡ codes "replicas x y z\nquorum x read x y z ; write x y z\n" }
{}
