//! The centres that members read and write within the goals of their set.
ghost use Rattle.std.specs.Prelude.{◌≡◌, ◌<◌, length, IfOk};
ghost use Rattle.span_base.specs.DcSet.{centres_of};
ghost use Rattle.placement_rows.specs.Centres.{read_near, write_near, set_of_centres};
ghost use Rattle.placement_rows.specs.NearSets.{read_near_sets, write_near_sets};

use slo_rules::{is_read_near, is_write_near};
use span_base::{DcId, DcSet, SetId};
use std::alloc::{AllocError, Global};
use workload::{Demand, World};

/// The centres that are read-near to a member.
#[tactic(auto, using(crate::proofs::Collected::collects))]
pub fn read_near(world: &World, set: SetId, member: &Demand) -> DcSet
    requires { set.0 < length world.now.sets }
    ensures set { result ≡ set_of_centres (read_near world.now set.0 member.now) }
    ensures centres { centres_of result ≡ read_near world.now set.0 member.now }
{
    let rule = world.rule(set);
    let mut near = DcSet::empty();
    for d in 0..world.centre_count() {
        if is_read_near(world, &rule, member.dc, DcId(d)) {
            near = near.with(DcId(d));
        }
    }
    near
}

/// The centres that are write-near to a member.
#[tactic(auto, using(crate::proofs::Collected::collects))]
pub fn write_near(world: &World, set: SetId, member: &Demand) -> DcSet
    requires { set.0 < length world.now.sets }
    ensures set { result ≡ set_of_centres (write_near world.now set.0 member.now) }
    ensures centres { centres_of result ≡ write_near world.now set.0 member.now }
{
    let rule = world.rule(set);
    let mut near = DcSet::empty();
    for d in 0..world.centre_count() {
        if is_write_near(world, &rule, member.dc, DcId(d)) {
            near = near.with(DcId(d));
        }
    }
    near
}

/// The centres that are read-near to each member, in the members' order.
pub fn read_near_sets(alloc: Global, world: &World, set: SetId) -> Result<Vec<DcSet>, AllocError>
    requires { set.0 < length world.now.sets }
    ensures { IfOk result (λ sets. sets.items ≡ read_near_sets world.now set.0) }
{
    let members = world.members(set);
    let mut sets = Vec::with_capacity(alloc, members.len())?;
    for member in members {
        sets.push(read_near(world, set, member))?;
    }
    Ok(sets)
}

/// The centres that are write-near to each member, in the members' order.
pub fn write_near_sets(alloc: Global, world: &World, set: SetId) -> Result<Vec<DcSet>, AllocError>
    requires { set.0 < length world.now.sets }
    ensures { IfOk result (λ sets. sets.items ≡ write_near_sets world.now set.0) }
{
    let members = world.members(set);
    let mut sets = Vec::with_capacity(alloc, members.len())?;
    for member in members {
        sets.push(write_near(world, set, member))?;
    }
    Ok(sets)
}
