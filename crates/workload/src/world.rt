ghost use Rattle.std.specs.Prelude.{◌≡◌, ◌<◌, ◌≤◌, IfOk, IfErr, OnOk, length, All};
ghost use Rattle.price_tables.specs.Limits.{IsPriceWithin, IsFareWithin};
ghost use Rattle.price_tables.specs.Tables.{count_of, AreAllLinked};
ghost use Rattle.workload.specs.Limits.{IsRuleWithin};
ghost use Rattle.workload.specs.World.{world_of, fare_or_none, IsComplete, IsNamed, IsDemandWithin, centre_count, centre_of, price_of, fare_of, set_of, rule_of, members_of};
ghost use Rattle.workload.specs.Gaps.{AreInCentres, HaveMembersBefore, IsFirstGap};

use crate::fault::Gap;
use crate::load::Workload;
use crate::rules::{Demand, SetRule};
use price_tables::{DcPrice, Fare, NO_FARE, NO_PRICE, Pair, Tables};
use span_base::{DcId, SetId, Word};
use std::marker::Model;

/// Prices, latencies and workloads: centres and sets in file order, a fare for every ordered pair
/// of centres, and 1 to 8 members in every set.
#[derive(Debug, Drop)]
pub struct World {
    tables: Tables,
    load: Workload,
}

impl Model for World {
    ghost use Rattle.price_tables.specs.Tables.{AreAllLinked};
    ghost use Rattle.workload.specs.World.{Lists, IsComplete, world_of};

    ghost Value = { Lists };

    ghost view = { λ w. world_of w.tables w.load };

    ghost invariant = { λ w. AreAllLinked w.tables × IsComplete (world_of w.tables w.load) };
}

impl World {
    /// The world of these tables and sets. Refused is the first pair of centres without a link,
    /// then the first set without a member. It takes no memory; a refusal drops both.
    pub fn make(tables: Tables, load: Workload) -> Result<World, Gap>
        requires { AreInCentres (count_of tables) load }
        ensures world { IfOk result (λ world. world ≡ world_of tables load) }
        ensures linked { OnOk result (AreAllLinked tables) }
        ensures used { OnOk result (HaveMembersBefore load (length load)) }
        ensures gap { IfErr result (IsFirstGap tables load) }
    {
        if let Some(Pair { from, to }) = tables.first_missing() {
            return Err(Gap::NoLink { from, to });
        }
        if let Some(set) = load.first_empty() {
            return Err(Gap::NoMember { set });
        }
        Ok(World { tables, load })
    }

    /// How many centres there are, at most 16.
    pub fn centre_count(&self) -> u8
        ensures count { result ≡ centre_count self.now }
        ensures complete { IsComplete self.now }
        ensures named { IsNamed self.now }
    {
        let _sets = self.load.sets();
        self.tables.count()
    }

    /// The name of a centre.
    pub fn name(&self, dc: DcId) -> &Word
        requires { dc.0 < centre_count self.now }
        ensures { result.now ≡ (centre_of self.now dc.0).name }
    {
        self.tables.name(dc)
    }

    /// The name of the provider that runs a centre.
    pub fn provider(&self, dc: DcId) -> &Word
        requires { dc.0 < centre_count self.now }
        ensures { result.now ≡ (centre_of self.now dc.0).provider }
    {
        self.tables.provider(dc)
    }

    /// What a centre asks: nothing where there is no such centre.
    #[tactic(auto, using(crate::proofs::Worlds::price_within))]
    pub fn price(&self, dc: DcId) -> DcPrice
        ensures price { result ≡ price_of self.now dc.0 }
        ensures within { IsPriceWithin result }
    {
        if dc.0 < self.centre_count() {
            self.tables.price(dc)
        } else {
            NO_PRICE
        }
    }

    /// What the link from one centre to another asks: nothing where one of them isn't in the world.
    #[tactic(auto, using(crate::proofs::Worlds::fare_within))]
    pub fn fare(&self, from: DcId, to: DcId) -> Fare
        ensures fare { result ≡ fare_of self.now from.0 to.0 }
        ensures within { IsFareWithin result }
    {
        fare_or_none(self.tables.link(from, to))
    }

    /// How many sets there are, at most 1,000.
    pub fn sets(&self) -> u16
        ensures { result ≡ length self.now.sets }
    {
        self.load.sets()
    }

    /// The name of a set.
    pub fn set_name(&self, set: SetId) -> &Word
        requires { set.0 < length self.now.sets }
        ensures { result.now ≡ (set_of self.now set.0).name }
    {
        self.load.set_name(set)
    }

    /// What a set asks of its policy.
    pub fn rule(&self, set: SetId) -> SetRule
        requires { set.0 < length self.now.sets }
        ensures rule { result ≡ rule_of self.now set.0 }
        ensures within { IsRuleWithin result }
    {
        self.load.rule(set)
    }

    /// The members of a set, in file order.
    pub fn members(&self, set: SetId) -> &[Demand]
        requires { set.0 < length self.now.sets }
        ensures members { result.now ≡ members_of self.now set.0 }
        ensures few { length result.now ≤ 8 }
        ensures within { All (IsDemandWithin (centre_count self.now)) result.now }
    {
        self.load.members(set)
    }

    /// The centres with their links, of which none is missing.
    pub fn tables(&self) -> &Tables
        ensures world { world_of result.now self.now.sets ≡ self.now }
        ensures linked { AreAllLinked result.now }
    {
        &self.tables
    }
}

/// The fare of a link, nothing where there is none.
fn fare_or_none(link: Option<Fare>) -> Fare
    ensures { result ≡ fare_or_none link }
{
    match link {
        Some(fare) => fare,
        None => NO_FARE,
    }
}
