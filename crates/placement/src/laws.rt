ghost use Rattle.std.specs.Prelude.{ℕ, Bool, List};
ghost use Rattle.span_base.specs.declared.policy.Policy.{Policy};
ghost use Rattle.workload.specs.World.{Lists};
ghost use Rattle.slo_rules.specs.Rules.{IsAllowed};
ghost use Rattle.slo_rules.specs.Cost.{IsLeast, HasNoPolicy};
ghost use Rattle.zero_one.specs.Program.{IsFeasible};
ghost use Rattle.placement.specs.Placement.{IsSet, program_of, decoded, IsPlaced, IsDecoded, IsLeastChoice};

/// Every allowed policy is a choice that meets the program, at the policy's cost.
pub fn allowed_policies_are_placed()
    ensures { (w : Lists) (set : ℕ) → IsSet w set → (q : Policy) → IsAllowed w set q → IsPlaced w set q }
{}

/// Every choice that meets the program is an allowed policy, which costs at most the choice's
/// value.
pub fn feasible_choices_are_decoded()
    ensures { (w : Lists) (set : ℕ) → IsSet w set → (x : List Bool) → IsFeasible (program_of w set) x → IsDecoded w set x }
{}

/// A least choice is a least policy.
pub fn least_choices_are_least_policies()
    ensures { (w : Lists) (set : ℕ) → IsSet w set → (x : List Bool) → IsLeastChoice w set x → IsLeast w set (decoded w set x) }
{}

/// Where no choice meets the program, no policy is allowed.
pub fn no_choice_is_no_policy()
    ensures { (w : Lists) (set : ℕ) → IsSet w set → ((x : List Bool) → ¬ (IsFeasible (program_of w set) x)) → HasNoPolicy w set }
{}
