ghost use Rattle.std.specs.Prelude.{◌≡◌, ℕ, Bool, true, List, [], ◌∷◌, ◌++◌, length};
ghost use Rattle.span_base.specs.declared.policy.Policy.{Policy};
ghost use Rattle.workload.specs.World.{Lists};
ghost use Rattle.slo_rules.specs.Rules.{IsAllowed};
ghost use Rattle.slo_rules.specs.Cost.{IsLeast, HasNoPolicy};
ghost use Rattle.slo_rules.specs.Examples.{two_centres, two_centres_with, one_writer, largest, at, at_both, through_b};
ghost use Rattle.zero_one.specs.Program.{IsFeasible, value_of};
ghost use Rattle.placement_relay.specs.Programs.{set_program, set_costs, set_rows};
ghost use Rattle.placement_relay.specs.Placed.{placed, decoded};
ghost use Rattle.placement_relay.specs.Examples.{two_centres_program, two_providers_program, relayed, relayed_program, choice_of_x, choice_of_y, choice_of_both, choice_of_all};
ghost use Rattle.placement_relay.specs.Laws.{IsEventualSet, IsPlaced, IsDecoded, IsLeastChoice};

/// Every allowed policy is a choice that meets the program, at the policy's cost.
pub fn allowed_policies_are_placed()
    ensures { (w : Lists) (set : ℕ) → IsEventualSet w set → (q : Policy) → IsAllowed w set q → IsPlaced w set q }
{}

/// Every choice that meets the program is an allowed policy, which costs at most the choice's
/// value.
pub fn feasible_choices_are_decoded()
    ensures { (w : Lists) (set : ℕ) → IsEventualSet w set → (x : List Bool) → IsFeasible (set_program w set) x → IsDecoded w set x }
{}

/// A least choice is a least policy.
pub fn least_choices_are_least_policies()
    ensures { (w : Lists) (set : ℕ) → IsEventualSet w set → (x : List Bool) → IsLeastChoice w set x → IsLeast w set (decoded w set x) }
{}

/// Where no choice meets the program, no policy is allowed.
pub fn no_choice_is_no_policy()
    ensures { (w : Lists) (set : ℕ) → IsEventualSet w set → ((x : List Bool) → ¬ (IsFeasible (set_program w set) x)) → HasNoPolicy w set }
{}

/// A world of two centres that can be reckoned by hand: its programs, and its policies as choices.
pub fn worked_two_centres()
    ensures set { IsEventualSet two_centres 0 }
    ensures program { set_program two_centres 0 ≡ two_centres_program }
    ensures at_x { placed two_centres 0 (at 0) ≡ choice_of_x }
    ensures at_y { placed two_centres 0 (at 1) ≡ choice_of_y }
    ensures at_both { placed two_centres 0 at_both ≡ choice_of_both }
    ensures from_y { decoded two_centres 0 choice_of_y ≡ at 1 }
    ensures from_both { decoded two_centres 0 choice_of_both ≡ at_both }
    ensures least_read { decoded two_centres 0 choice_of_all ≡ at_both }
    ensures two_providers { set_program (two_centres_with 0 30 30 2) 0 ≡ two_providers_program }
    ensures at_both_providers { placed (two_centres_with 0 30 30 2) 0 at_both ≡ choice_of_both ++ true ∷ true ∷ [] }
    ensures apart { value_of (set_costs (two_centres_with 0 30 30 2) 0) (choice_of_both ++ true ∷ true ∷ []) ≡ 1230 }
    ensures largest { value_of (set_costs largest 0) (placed largest 0 (at 0)) ≡ 201002000000000000000000 }
{}

/// The two centres with a relay set, and a writer whose writes one replica passes on to another.
pub fn worked_relay()
    ensures program { set_program relayed 0 ≡ relayed_program }
    ensures variables { length (set_costs one_writer 0) ≡ 39 }
    ensures rows { length (set_rows one_writer 0) ≡ 54 }
    ensures value { value_of (set_costs one_writer 0) (placed one_writer 0 through_b) ≡ 102 }
    ensures back { decoded one_writer 0 (placed one_writer 0 through_b) ≡ through_b }
{}
