ghost use Rattle.std.specs.Prelude.{◌≡◌, ◌<◌, length};
ghost use Rattle.slo_rules.specs.Rules.{first_broken_rule, fits_set, has_mode, has_shape, breach_of_mode};

use crate::direct::breach_of_direct;
use crate::providers::breach_of_providers;
use crate::relay::breach_of_relay;
use crate::shape::has_shape;
use crate::strong::breach_of_strong;
use span_base::{DcId, Policy, SetId};
use workload::{Mode, SetRule, World};

/// What a policy breaks, in the order in which the rules are tried.
#[derive(Clone, Copy, Debug, PartialEq, Eq)]
pub enum Rule {
    /// The policy isn't of the set's mode, or stands another number of failures.
    Mode,
    /// The centres and members that the policy names aren't the world's and the set's.
    Shape,
    /// The primary isn't a replica, or isn't read-near.
    Primary { member: DcId },
    /// Fewer than `f + 1` replicas are read-near; in strong mode, a centre of the read set isn't.
    ReadSlo { member: DcId },
    /// The hop's parent isn't a replica to which the member writes itself.
    Parent { member: DcId, child: DcId },
    /// Fewer than `f + 1` replicas that the member writes to itself are write-near; in strong
    /// mode, a centre of the write set isn't.
    WriteSlo { member: DcId },
    /// The replicas aren't the centres of all quorums.
    Union,
    /// A read set and a write set meet in fewer than `2f + 1` centres.
    Meet { reader: DcId, writer: DcId },
    /// Two write sets, or one with itself, meet in fewer than `2f + 1` centres.
    MeetWrites { first: DcId, second: DcId },
    /// The replicas lie with fewer providers than the set asks.
    Providers,
}

/// Whether the policy is of the set's mode, and stands as many failures.
fn has_mode(rule: &SetRule, policy: &Policy) -> bool
    ensures { result ≡ has_mode rule.now policy.now }
{
    let mode = match policy {
        Policy::Direct { .. } => Mode::Direct,
        Policy::Relay { .. } => Mode::Relay,
        Policy::Strong { .. } => Mode::Strong,
    };
    mode == rule.mode && policy.faults() == rule.f
}

/// The first rule of its mode that a policy of that mode and shape breaks.
fn breach_of_mode(world: &World, set: SetId, policy: &Policy) -> Option<Rule>
    requires { set.0 < length world.now.sets }
    ensures { result ≡ breach_of_mode world.now set.0 policy.now }
{
    match policy {
        Policy::Direct {
            replicas,
            primary,
            ..
        } => breach_of_direct(world, set, replicas, primary.as_slice()),
        Policy::Relay {
            replicas,
            primary,
            parent,
            ..
        } => breach_of_relay(world, set, replicas, primary.as_slice(), parent.as_slice()),
        Policy::Strong {
            f,
            replicas,
            members,
        } => breach_of_strong(world, set, *f, replicas, members.as_slice()),
    }
}

/// The first rule that a policy of a set breaks, in the order of `Rule`; none exactly where the
/// policy is allowed.
#[tactic(auto, unfolding(crate::specs::Rules::first_broken_rule))]
pub fn fault_of(world: &World, set: SetId, policy: &Policy) -> Option<Rule>
    requires { set.0 < length world.now.sets }
    ensures { result ≡ first_broken_rule world.now set.0 policy.now }
{
    if !has_mode(&world.rule(set), policy) {
        return Some(Rule::Mode);
    }
    if !has_shape(world, set, policy) {
        return Some(Rule::Shape);
    }
    breach_of_mode(world, set, policy).or_else(|| breach_of_providers(world, set, policy))
}

/// Whether a policy is of the set's mode and has its shape, so that it has a cost.
pub fn fits(world: &World, set: SetId, policy: &Policy) -> bool
    requires { set.0 < length world.now.sets }
    ensures { result ≡ fits_set world.now set.0 policy.now }
{
    has_mode(&world.rule(set), policy) && has_shape(world, set, policy)
}
