//! Where the blocks of variables of a strong set's program begin.
ghost use Rattle.std.specs.Prelude.{◌≡◌, ◌+◌, ◌*◌, ◌<◌, ◌≤◌, length};
ghost use Rattle.workload.specs.World.{centre_count};
ghost use Rattle.placement_rows.specs.FirstCentres.{AreFound};
ghost use Rattle.placement_strong.specs.Variables.{member_count, pairs, strong_costs, g_var, w_var, u_var, v_var};
ghost use Rattle.placement_strong.specs.Programs.{set_costs};
ghost use Rattle.placement_strong.specs.Laws.{IsStrongSet};

use crate::members::{member_count, pair_count};
use placement_rows::{FirstCentres, provider_variables};
use span_base::SetId;
use workload::World;

/// The first of a member's variables that say what its read set has.
pub(crate) fn first_read(world: &World, set: SetId, a: u16) -> u16
    requires strong { IsStrongSet world.now set.0 }
    requires number { a < member_count world.now set.0 }
    ensures variable { result ≡ g_var world.now a 0 }
    ensures small { result ≤ 2000 }
{
    let n = u16::from(world.centre_count());
    n + a * n
}

/// The first of a member's variables that say what its write set has.
pub(crate) fn first_write(world: &World, set: SetId, a: u16) -> u16
    requires strong { IsStrongSet world.now set.0 }
    requires number { a < member_count world.now set.0 }
    ensures variable { result ≡ w_var world.now set.0 a 0 }
    ensures small { result ≤ 2000 }
{
    let n = u16::from(world.centre_count());
    n + member_count(world, set) * n + a * n
}

/// The first of the variables that say where a reader's and a writer's sets meet.
pub(crate) fn first_meeting(world: &World, set: SetId, a: u16, b: u16) -> u16
    requires strong { IsStrongSet world.now set.0 }
    requires reader { a < member_count world.now set.0 }
    requires writer { b < member_count world.now set.0 }
    ensures variable { result ≡ u_var world.now set.0 a b 0 }
    ensures small { result ≤ 2000 }
{
    let n = u16::from(world.centre_count());
    let k = member_count(world, set);
    n + 2 * k * n + (a * k + b) * n
}

/// The first of the variables that say where two write sets meet, which are the pair of a number.
pub(crate) fn first_write_meeting(world: &World, set: SetId, pair: u16) -> u16
    requires strong { IsStrongSet world.now set.0 }
    requires pair { pair ≤ 28 }
    ensures variable { result ≡ v_var world.now set.0 pair 0 }
    ensures small { result ≤ 2000 }
{
    let n = u16::from(world.centre_count());
    let k = member_count(world, set);
    n + 2 * k * n + k * k * n + pair * n
}

/// How many variables say where quorums meet.
pub(crate) fn meeting_variables(world: &World, set: SetId) -> u16
    requires { IsStrongSet world.now set.0 }
    ensures count { let k = member_count world.now set.0 in result ≡ (k * k + length (pairs k)) * centre_count world.now }
    ensures small { result ≤ 1472 }
{
    let k = member_count(world, set);
    (k * k + pair_count(k)) * u16::from(world.centre_count())
}

/// The first of the variables of providers, at most 1,744.
#[tactic(auto, using(crate::proofs::Sizes::variables))]
pub(crate) fn first_provider(world: &World, set: SetId) -> u16
    requires { IsStrongSet world.now set.0 }
    ensures variable { result ≡ length (strong_costs world.now set.0) }
    ensures small { result ≤ 1744 }
{
    let n = u16::from(world.centre_count());
    let k = member_count(world, set);
    n + 2 * k * n + meeting_variables(world, set)
}

/// How many variables the program has, whose first centres of providers are found.
pub(crate) fn variables(world: &World, set: SetId, firsts: &FirstCentres) -> usize
    requires strong { IsStrongSet world.now set.0 }
    requires found { AreFound world.now set.0 firsts.now }
    ensures variables { result ≡ length (set_costs world.now set.0) }
    ensures few { result ≤ 1760 }
{
    usize::from(first_provider(world, set) + provider_variables(world, set, firsts))
}

/// How many variables the program of a strong set has, at most 1,760.
pub fn variable_count(world: &World, set: SetId) -> usize
    requires { IsStrongSet world.now set.0 }
    ensures variables { result ≡ length (set_costs world.now set.0) }
    ensures few { result ≤ 1760 }
{
    variables(world, set, &FirstCentres::find(world, set))
}
