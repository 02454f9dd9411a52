//! The first centre of each centre's provider, by which a program tells providers apart.
ghost use Rattle.std.specs.Prelude.{◌≡◌, ◌<◌, length};
ghost use Rattle.workload.specs.World.{centre_count};
ghost use Rattle.slo_rules.specs.Rules.{same_provider};
ghost use Rattle.placement_rows.specs.Providers.{asks_providers};
ghost use Rattle.placement_rows.specs.FirstCentres.{IsFirstOf, AreFound, is_first, is_same};

use span_base::{DcId, SetId};
use workload::World;

/// Whether a set asks for more than one provider.
pub fn asks_providers(world: &World, set: SetId) -> bool
    requires { set.0 < length world.now.sets }
    ensures { result ≡ asks_providers world.now set.0 }
{
    world.rule(set).providers > 1
}

/// Whether two centres are of one provider.
fn is_same_provider(world: &World, a: u8, b: u8) -> bool
    requires a { a < centre_count world.now }
    requires b { b < centre_count world.now }
    ensures { result ≡ same_provider world.now a b }
{
    world.provider(DcId(a)) == world.provider(DcId(b))
}

/// The first centre of a centre's provider.
#[tactic(auto, using(crate::proofs::ProviderLoops::earlier))]
fn first_of_provider(world: &World, dc: u8) -> u8
    requires { dc < centre_count world.now }
    ensures first { IsFirstOf world.now dc result }
    ensures centre { result < centre_count world.now }
{
    for d in 0..dc {
        if is_same_provider(world, dc, d) {
            return d;
        }
    }
    dc
}

/// For each centre the first one of its provider, which names the provider: found once for a
/// program, so that all its rows compare small numbers. A set that asks for one provider needs
/// none of them, and they are all 0 there.
#[derive(Clone, Copy)]
pub struct FirstCentres {
    firsts: [u8; 16],
}

impl FirstCentres {
    /// Finds them for a set's program.
    pub fn find(world: &World, set: SetId) -> FirstCentres
        requires { set.0 < length world.now.sets }
        ensures { AreFound world.now set.0 result }
    {
        let mut firsts = [0; 16];
        if !asks_providers(world, set) {
            return FirstCentres { firsts };
        }
        for d in 0..world.centre_count() {
            firsts[usize::from(d)] = first_of_provider(world, d);
        }
        FirstCentres { firsts }
    }

    /// Whether a centre is the first of its provider.
    pub(crate) fn is_first(&self, dc: u8) -> bool
        requires { dc < 16 }
        ensures { result ≡ is_first self.now dc }
    {
        self.firsts[usize::from(dc)] == dc
    }

    /// Whether two centres are of one provider.
    pub(crate) fn is_same(&self, a: u8, b: u8) -> bool
        requires a { a < 16 }
        requires b { b < 16 }
        ensures { result ≡ is_same self.now a b }
    {
        self.firsts[usize::from(a)] == self.firsts[usize::from(b)]
    }
}
