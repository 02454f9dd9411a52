//! Which sets have a program here, and its variables.
ghost use Rattle.std.specs.Prelude.{◌≡◌, ◌+◌, ◌*◌, ◌<◌, ◌≤◌, ◌↔◌, IsTrue, length};
ghost use Rattle.workload.specs.World.{centre_count, members_of};
ghost use Rattle.placement_relay.specs.Relay.{q};
ghost use Rattle.placement_relay.specs.Programs.{mode_costs, set_costs};
ghost use Rattle.placement_relay.specs.Laws.{IsEventualSet};

use placement_rows::{FirstCentres, provider_variables};
use span_base::SetId;
use workload::{Mode, World};

/// Whether a set is direct or relay.
pub fn is_eventual_set(world: &World, set: SetId) -> bool
    requires { set.0 < length world.now.sets }
    ensures { IsTrue result ↔ IsEventualSet world.now set.0 }
{
    let _count = world.centre_count();
    world.rule(set).mode != Mode::Strong
}

/// The first of the variables that say where a member reads; the member is counted from 0. At 8 it
/// is at most 144.
pub(crate) fn first_read(world: &World, a: usize) -> u16
    requires { a ≤ 8 }
    ensures variable { result ≡ centre_count world.now + a * centre_count world.now }
    ensures small { result ≤ 144 }
{
    let centres = u16::from(world.centre_count());
    centres + a as u16 * centres
}

/// The first of the variables that say from where a member's writes come to each centre; the member
/// is counted from 0.
pub(crate) fn first_hop(world: &World, set: SetId, a: usize) -> u16
    requires set { set.0 < length world.now.sets }
    requires number { a ≤ 8 }
    ensures variable { result ≡ centre_count world.now + length (members_of world.now set.0) * centre_count world.now + a * centre_count world.now * centre_count world.now }
    ensures small { result ≤ 2192 }
{
    let centres = u16::from(world.centre_count());
    first_read(world, world.members(set).len()) + a as u16 * centres * centres
}

/// The variable that says that a member's writes come to centre `d` from centre `p`; the member is
/// counted from 0.
pub(crate) fn hop(world: &World, set: SetId, a: usize, p: u8, d: u8) -> u16
    requires set { set.0 < length world.now.sets }
    requires number { a < 8 }
    requires from { p < centre_count world.now }
    requires to { d < centre_count world.now }
    ensures variable { result ≡ q world.now set.0 a p d }
{
    let centres = u16::from(world.centre_count());
    first_hop(world, set, a) + u16::from(p) * centres + u16::from(d)
}

/// The first of the variables of providers, at most 2,192: they follow the mode's own.
pub(crate) fn first_provider(world: &World, set: SetId) -> u16
    requires { IsEventualSet world.now set.0 }
    ensures variable { result ≡ length (mode_costs world.now set.0) }
    ensures small { result ≤ 2192 }
{
    let members = world.members(set).len();
    match world.rule(set).mode {
        Mode::Direct => first_read(world, members),
        Mode::Relay => first_hop(world, set, members),
        Mode::Strong => unreachable!(),
    }
}

/// Room for all variables: a provider is one of a centre.
pub(crate) fn most_variables(world: &World, set: SetId) -> usize
    requires { IsEventualSet world.now set.0 }
    ensures { length (set_costs world.now set.0) ≤ result }
{
    usize::from(first_provider(world, set)) + usize::from(world.centre_count())
}

/// How many variables the program of a direct or relay set has, at most 2,208.
pub fn variable_count(world: &World, set: SetId) -> usize
    requires { IsEventualSet world.now set.0 }
    ensures count { result ≡ length (set_costs world.now set.0) }
    ensures few { result ≤ 2208 }
{
    let firsts = FirstCentres::find(world, set);
    usize::from(first_provider(world, set) + provider_variables(world, set, &firsts))
}
