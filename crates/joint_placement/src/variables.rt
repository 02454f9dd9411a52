//! How many variables a joint program has.
ghost use Rattle.std.specs.Prelude.{◌≡◌, ◌<◌, ◌≤◌, length};
ghost use Rattle.joint_placement.specs.Variables.{variables_of, first_of, joint_costs};

use machine_text::Machines;
use span_base::{DcId, SetId};
use workload::World;

/// How many variables a set has, at most 4,096.
#[tactic(auto, unfolding(crate::specs::Variables::variables_of))]
pub(crate) fn variables_of(world: &World, set: SetId) -> usize
    requires { set.0 < length world.now.sets }
    ensures count { result ≡ variables_of world.now set.0 }
    ensures few { result ≤ 4096 }
{
    let _centres = world.centre_count();
    placement::variable_count(world, set)
}

/// How many variables the sets have.
#[tactic(auto, using(crate::proofs::Counting::counting))]
pub(crate) fn set_variables(world: &World) -> usize
    ensures count { result ≡ first_of world.now (length world.now.sets) }
    ensures few { result ≤ 4_096_000 }
{
    let _centres = world.centre_count();
    let mut count = 0;
    for set in 0..world.sets() {
        count += variables_of(world, SetId(set));
    }
    count
}

/// How many variables the joint program has: at most 4,096 where `encode_joint` gives it.
#[tactic(auto, using(crate::proofs::Counting::all_counted))]
pub fn variable_count(world: &World, machines: &Machines) -> usize
    ensures count { result ≡ length (joint_costs world.now machines.now) }
    ensures few { result ≤ 4_096_160 }
{
    let mut count = set_variables(world);
    for d in 0..world.centre_count() {
        count += usize::from(machines.machine(DcId(d)).digits);
    }
    count
}
