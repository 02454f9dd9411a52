//! With how many providers the replicas lie.
ghost use Rattle.std.specs.Prelude.{◌≡◌, ◌+◌, ◌<◌, true, length};
ghost use Rattle.std.specs.List.{list_any};
ghost use Rattle.workload.specs.World.{centre_count};
ghost use Rattle.slo_rules.specs.Centres.{centres_from};
ghost use Rattle.slo_rules.specs.Rules.{breach_of_providers, providers_of, lies_below, same_provider};
ghost use Rattle.span_base.specs.DcSet.{has, centres_of};
ghost use Rattle.span_base.specs.PolicyParts.{replicas_of};

use crate::rules::Rule;
use span_base::{CENTRES, DcId, DcSet, Policy, SetId};
use workload::World;

/// Whether one of the replicas after `dc` lies with the same provider.
#[tactic(auto, using(crate::proofs::ProviderNames::later_providers))]
fn is_shared_later(world: &World, replicas: &DcSet, dc: DcId) -> bool
    requires replica { has replicas.now dc.0 ≡ true }
    requires below { lies_below (centre_count world.now) replicas.now ≡ true }
    ensures { result ≡ list_any (same_provider world.now dc.0) (centres_from replicas.now (dc.0 + 1)) }
{
    for d in dc.0 + 1..CENTRES {
        if replicas.has(DcId(d)) && world.provider(dc) == world.provider(DcId(d)) {
            return true;
        }
    }
    false
}

#[tactic(auto, using(crate::proofs::ProviderNames::provider_counts))]
fn provider_count(world: &World, replicas: &DcSet) -> u8
    requires { lies_below (centre_count world.now) replicas.now ≡ true }
    ensures { result ≡ length (providers_of world.now (centres_of replicas.now)) }
{
    let mut count = 0;
    for d in 0..CENTRES {
        if replicas.has(DcId(d)) && !is_shared_later(world, replicas, DcId(d)) {
            count += 1;
        }
    }
    count
}

pub(crate) fn breach_of_providers(world: &World, set: SetId, policy: &Policy) -> Option<Rule>
    requires known { set.0 < length world.now.sets }
    requires below { lies_below (centre_count world.now) (replicas_of policy.now) ≡ true }
    ensures { result ≡ breach_of_providers world.now set.0 policy.now }
{
    if provider_count(world, &policy.replicas()) >= world.rule(set).providers {
        None
    } else {
        Some(Rule::Providers)
    }
}
