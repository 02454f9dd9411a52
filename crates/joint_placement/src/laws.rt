ghost use Rattle.std.specs.Prelude.{◌≡◌, ℕ, Bool, List, [], ◌∷◌, ◌≤◌};
ghost use Rattle.workload.specs.World.{Lists, IsComplete, IsNamed};
ghost use Rattle.zero_one.specs.Program.{IsFeasible, value_of};
ghost use Rattle.slo_rules.specs.Examples.{two_centres};
ghost use Rattle.machine_text.specs.Machines.{Fleet};
ghost use Rattle.joint_placement.specs.JointPlans.{JointPlan, IsJointPlan, MeetsCapacity, IsLeastJoint, HasNoJointPlan, joint_cost, load_on};
ghost use Rattle.joint_placement.specs.Programs.{joint_program};
ghost use Rattle.joint_placement.specs.Placed.{placed, decoded};
ghost use Rattle.joint_placement.specs.Laws.{IsPlaced, IsDecoded, IsLeastChoice};
ghost use Rattle.joint_placement.specs.Examples.{large_machines, small_machines, in_units, all_in_x, all_in_y, program_of_large, choice_of_x};

/// Every joint plan that meets capacity is a choice that meets the program, at the plan's cost.
pub fn joint_plans_are_placed()
    ensures { (w : Lists) (fleet : Fleet) → IsComplete w → IsNamed w → (plan : JointPlan) → IsJointPlan w fleet plan → MeetsCapacity w fleet plan → IsPlaced w fleet plan }
{}

/// Every choice that meets the program is a joint plan that meets capacity, and costs at most the
/// choice's value.
pub fn feasible_choices_are_decoded()
    ensures { (w : Lists) (fleet : Fleet) → IsComplete w → IsNamed w → (x : List Bool) → IsFeasible (joint_program w fleet) x → IsDecoded w fleet x }
{}

/// A least choice is a least joint plan.
pub fn least_choices_are_least_plans()
    ensures { (w : Lists) (fleet : Fleet) → IsComplete w → IsNamed w → (x : List Bool) → IsLeastChoice w fleet x → IsLeastJoint w fleet (decoded w fleet x) }
{}

/// Where no choice meets the program, no joint plan meets capacity.
pub fn no_choice_is_no_plan()
    ensures { (w : Lists) (fleet : Fleet) → IsComplete w → IsNamed w → ((x : List Bool) → ¬ (IsFeasible (joint_program w fleet) x)) → HasNoJointPlan w fleet }
{}

/// Loads and costs of joint plans of two centres that can be reckoned by hand.
pub fn worked_plans()
    ensures load_of_x { load_on two_centres large_machines all_in_x 0 ≡ 14 }
    ensures load_of_y { load_on two_centres large_machines all_in_x 1 ≡ 0 }
    ensures load_in_fives { load_on two_centres (in_units 5) all_in_x 0 ≡ 3 }
    ensures cost_in_x { joint_cost two_centres large_machines all_in_x ≡ 1178 }
    ensures cost_in_y { joint_cost two_centres large_machines all_in_y ≡ 1262 }
    ensures small_in_y { joint_cost two_centres (small_machines 14) all_in_y ≡ 1262 }
{}

/// The joint program of two centres, and a plan as a choice of it.
pub fn worked_program()
    ensures program { joint_program two_centres large_machines ≡ program_of_large }
    ensures placed { placed two_centres large_machines all_in_x ≡ choice_of_x }
    ensures decoded { decoded two_centres large_machines choice_of_x ≡ all_in_x }
    ensures value { value_of program_of_large.costs choice_of_x ≡ 1178 }
{}
