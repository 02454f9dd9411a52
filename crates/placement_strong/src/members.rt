//! The members of a strong set, by their numbers from 0.
ghost use Rattle.std.specs.Prelude.{◌≡◌, ◌<◌, ◌≤◌, ◌↔◌, IsTrue, length, All, IfOk, OnOk, ◌++◌, map, ◌+◌, ◌-◌};
ghost use Rattle.std.specs.List.{range_with_len};
ghost use Rattle.workload.specs.World.{IsDemandWithin, centre_count};
ghost use Rattle.placement_strong.specs.Variables.{member_count, member_at, pairs};
ghost use Rattle.placement_strong.specs.Laws.{IsStrongSet};

use span_base::SetId;
use std::alloc::{AllocError, Global};
use workload::{Demand, Mode, World};

/// Whether a set is strong.
pub fn is_strong_set(world: &World, set: SetId) -> bool
    requires { set.0 < length world.now.sets }
    ensures { IsTrue result ↔ IsStrongSet world.now set.0 }
{
    let _count = world.centre_count();
    world.rule(set).mode == Mode::Strong
}

/// How many members a set has, 1 to 8.
pub(crate) fn member_count(world: &World, set: SetId) -> u16
    requires { IsStrongSet world.now set.0 }
    ensures count { result ≡ member_count world.now set.0 }
    ensures few { result ≤ 8 }
{
    world.members(set).len() as u16
}

/// The member of a number.
pub(crate) fn member_at(world: &World, set: SetId, a: u16) -> Demand
    requires strong { IsStrongSet world.now set.0 }
    requires number { a < member_count world.now set.0 }
    ensures member { result ≡ member_at world.now set.0 a }
    ensures within { IsDemandWithin (centre_count world.now) result }
{
    world.members(set)[usize::from(a)]
}

/// Puts the pairs of a member with each later one at the end.
#[tactic(auto, using(crate::proofs::Steps::later))]
fn push_pairs_of(pairs: &mut Vec<(u16, u16)>, a: u16, count: u16) -> Result<(), AllocError>
    requires { a < count }
    ensures { OnOk result (pairs.new.items ≡ pairs.old.items ++ map (λ b. (a, b)) (range_with_len (a + 1) (count - (a + 1)))) }
{
    for b in a + 1..count {
        pairs.push((a, b))?;
    }
    Ok(())
}

/// The pairs of `count` members, the earlier one first, in lexicographic order.
#[tactic(auto, using(placement_rows::proofs::Loops::pieces))]
pub(crate) fn pairs(alloc: Global, count: u16) -> Result<Vec<(u16, u16)>, AllocError>
    requires { count ≤ 8 }
    ensures pairs { IfOk result (λ list. list.items ≡ pairs count) }
{
    let mut list = Vec::with_capacity(alloc, usize::from(pair_count(count)))?;
    for a in 0..count {
        push_pairs_of(&mut list, a, count)?;
    }
    Ok(list)
}

/// How many pairs of `count` members there are.
#[tactic(auto, using(crate::proofs::Pairs::counts))]
pub(crate) fn pair_count(count: u16) -> u16
    requires { count ≤ 8 }
    ensures count { result ≡ length (pairs count) }
    ensures few { result ≤ 28 }
{
    (count * count - count) / 2
}
