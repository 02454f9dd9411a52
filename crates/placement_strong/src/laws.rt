ghost use Rattle.std.specs.Prelude.{◌≡◌, ℕ, Bool, true, List, [], ◌∷◌, length, drop, replicate};
ghost use Rattle.span_base.specs.declared.policy.Policy.{Policy};
ghost use Rattle.workload.specs.World.{Lists};
ghost use Rattle.slo_rules.specs.Rules.{IsAllowed};
ghost use Rattle.slo_rules.specs.Cost.{IsLeast, HasNoPolicy};
ghost use Rattle.slo_rules.specs.Examples.{three_equal, at_all};
ghost use Rattle.zero_one.specs.Program.{IsFeasible, value_of};
ghost use Rattle.placement_strong.specs.Variables.{pairs};
ghost use Rattle.placement_strong.specs.Programs.{set_program, set_costs, set_rows};
ghost use Rattle.placement_strong.specs.Placed.{placed, decoded};
ghost use Rattle.placement_strong.specs.Examples.{three_equal_program, two_members, two_members_program, written_to_both, written_to_both_choice, one_apart, one_apart_provider_rows, written_apart_too, idle_replica, eight_centres, in_three};
ghost use Rattle.placement_strong.specs.Laws.{IsStrongSet, IsPlaced, IsDecoded, IsLeastChoice};

/// Every allowed policy is a choice that meets the program, at the policy's cost.
pub fn allowed_policies_are_placed()
    ensures { (w : Lists) (set : ℕ) → IsStrongSet w set → (q : Policy) → IsAllowed w set q → IsPlaced w set q }
{}

/// Every choice that meets the program is an allowed policy, which costs at most the choice's
/// value.
pub fn feasible_choices_are_decoded()
    ensures { (w : Lists) (set : ℕ) → IsStrongSet w set → (x : List Bool) → IsFeasible (set_program w set) x → IsDecoded w set x }
{}

/// A least choice is a least policy.
pub fn least_choices_are_least_policies()
    ensures { (w : Lists) (set : ℕ) → IsStrongSet w set → (x : List Bool) → IsLeastChoice w set x → IsLeast w set (decoded w set x) }
{}

/// Where no choice meets the program, no policy is allowed.
pub fn no_choice_is_no_policy()
    ensures { (w : Lists) (set : ℕ) → IsStrongSet w set → ((x : List Bool) → ¬ (IsFeasible (set_program w set) x)) → HasNoPolicy w set }
{}

/// Programs of small worlds that can be reckoned by hand, and their policies as choices.
pub fn worked_worlds()
    ensures set { IsStrongSet three_equal 0 }
    ensures pairs { pairs 4 ≡ (0, 1) ∷ (0, 2) ∷ (0, 3) ∷ (1, 2) ∷ (1, 3) ∷ (2, 3) ∷ [] }
    ensures equal { set_program three_equal 0 ≡ three_equal_program }
    ensures at_all { placed three_equal 0 at_all ≡ replicate 12 true }
    ensures from_all { decoded three_equal 0 (replicate 12 true) ≡ at_all }
    ensures members { set_program two_members 0 ≡ two_members_program }
    ensures written { placed two_members 0 written_to_both ≡ written_to_both_choice }
    ensures value { value_of (set_costs two_members 0) written_to_both_choice ≡ 1355 }
    ensures far_left_out { decoded two_members 0 (replicate 20 true) ≡ written_to_both }
    ensures providers { drop 18 (set_rows one_apart 0) ≡ one_apart_provider_rows }
    ensures variables { length (set_costs one_apart 0) ≡ 18 }
    ensures idle_dropped { decoded one_apart 0 idle_replica ≡ at_all }
    ensures apart { value_of (set_costs one_apart 0) (placed one_apart 0 written_apart_too) ≡ 516 }
{}

/// A world of eight centres and three members.
pub fn worked_eight_centres()
    ensures allowed { IsAllowed eight_centres 0 in_three }
    ensures variables { length (set_costs eight_centres 0) ≡ 152 }
    ensures rows { length (set_rows eight_centres 0) ≡ 255 }
    ensures value { value_of (set_costs eight_centres 0) (placed eight_centres 0 in_three) ≡ 398050 }
    ensures back { decoded eight_centres 0 (placed eight_centres 0 in_three) ≡ in_three }
{}
