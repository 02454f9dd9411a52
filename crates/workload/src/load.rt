ghost use Rattle.std.specs.Prelude.{◌≡◌, ◌<◌, ◌≤◌, ◌++◌, ◌∷◌, [], ◌≢◌, ℕ, false, None, Some, IfOk, IfErr, IfSome, IfNone, IsTrue, ◌↔◌, All, OnOk, OnErr, length, option_map};
ghost use Rattle.std.specs.Prelude.{nat_eq};
ghost use Rattle.std.specs.List.{list_any};
ghost use Rattle.std.specs.Cmp.Lexicographic.{pointwise};
ghost use Rattle.span_base.specs.Name.{IsName};
ghost use Rattle.workload.specs.Limits.{IsRuleWithin, AreCountsWithin};
ghost use Rattle.workload.specs.Load.{set_at, set_number, with_set, with_demand, with_member, AreLoaded};
ghost use Rattle.workload.specs.Kept.{AreNames};
ghost use Rattle.workload.specs.Gaps.{AreInCentres};
ghost use Rattle.workload.specs.Faults.{set_fault, demand_fault, has_member, IsDue};

use crate::fault::LoadFault;
use crate::limits::{demand_over, rule_over};
use crate::rules::{AccessSet, Demand, SetRule};
use indexmap::IndexSet;
use span_base::{DcId, Listed, MEMBERS, SetId, What, Word};
use std::alloc::{AllocError, Global};
use std::marker::Model;

/// The greatest number of sets.
const MAX_SETS: usize = 1000;

/// The access sets in the order in which they were named, each with its members in the order in
/// which they were added.
#[derive(Debug, Drop)]
pub struct Workload {
    /// The name of each set, at its number.
    names: IndexSet<Vec<u8>>,
    sets: Vec<AccessSet>,
}

impl Model for Workload {
    ghost use Rattle.std.specs.Prelude.{List};
    ghost use Rattle.workload.specs.declared.rules.AccessSet.{AccessSet};
    ghost use Rattle.workload.specs.Load.{AreLoaded};
    ghost use Rattle.workload.specs.Kept.{AreNames};

    ghost Value = { List AccessSet };

    ghost view = { λ w. w.sets.items };

    ghost invariant = { λ w. AreNames w.names.keys w.sets.items × AreLoaded w.sets.items };
}

impl Workload {
    /// A workload of no set.
    pub fn make(alloc: Global) -> Workload
        ensures { result ≡ [] }
    {
        Workload {
            names: IndexSet::new(alloc),
            sets: Vec::new(alloc),
        }
    }

    /// Adds a set without a member, and gives its number: how many there were before, at most 999.
    pub fn add_set(&mut self, alloc: Global, name: &Word, rule: SetRule) -> Result<SetId, LoadFault>
        requires name { IsName name.now }
        requires providers { 1 ≤ rule.providers }
        ensures ok { IfOk result (λ set. (set_fault self.old name.now rule ≡ None) × (set.0 ≡ length self.old)) }
        ensures added { OnOk result (self.new ≡ with_set self.old name.now rule) }
        ensures fault { IfErr result (IsDue (set_fault self.old name.now rule)) }
        ensures unchanged { OnErr result (self.new ≡ self.old) }
    {
        if let Some(fault) = rule_over(&rule) {
            return Err(fault);
        }
        if self.find(name.as_bytes()).is_some() {
            return Err(LoadFault::Twice);
        }
        if self.sets.len() == MAX_SETS {
            return Err(LoadFault::Limit {
                what: What::Sets,
                number: MAX_SETS as u128 + 1,
            });
        }
        self.put(alloc, name, rule).map_err(LoadFault::NoMemory)
    }

    /// Adds a set that nothing speaks against.
    fn put(&mut self, alloc: Global, name: &Word, rule: SetRule) -> Result<SetId, AllocError>
        requires name { IsName name.now }
        requires rule { IsRuleWithin rule }
        requires new { set_number self.old name.now ≡ None }
        requires room { length self.old < 1000 }
        ensures number { IfOk result (λ set. set.0 ≡ length self.old) }
        ensures added { OnOk result (self.new ≡ with_set self.old name.now rule) }
        ensures unchanged { OnErr result (self.new ≡ self.old) }
    {
        let number = self.sets.len() as u16;
        let key = Vec::from_slice(alloc, name.as_bytes())?;
        let set = AccessSet {
            name: name.clone()?,
            rule,
            members: Listed::new(alloc),
        };
        insert_new(&mut self.names, &mut self.sets, key, set)?;
        Ok(SetId(number))
    }

    /// Adds a member to a set, with its demand.
    pub fn add_demand(&mut self, set: &Word, demand: Demand) -> Result<(), LoadFault>
        ensures ok { IfOk result (λ _. demand_fault self.old set.now demand ≡ None) }
        ensures added { OnOk result ((s : ℕ) → set_number self.old set.now ≡ Some s → self.new ≡ with_demand self.old s demand) }
        ensures fault { IfErr result (IsDue (demand_fault self.old set.now demand)) }
        ensures unchanged { OnErr result (self.new ≡ self.old) }
    {
        if let Some(fault) = demand_over(&demand) {
            return Err(fault);
        }
        let Some(set) = self.find(set.as_bytes()) else {
            return Err(LoadFault::Unknown);
        };
        let members = self.members(set);
        if has_member(members, demand.dc) {
            return Err(LoadFault::Twice);
        }
        if members.len() == MEMBERS {
            return Err(LoadFault::Limit {
                what: What::Members,
                number: MEMBERS as u128 + 1,
            });
        }
        self.put_member(set, demand).map_err(LoadFault::NoMemory)
    }

    /// Adds a member that nothing speaks against.
    fn put_member(&mut self, set: SetId, demand: Demand) -> Result<(), AllocError>
        requires set { set.0 < length self.old }
        requires counts { AreCountsWithin demand }
        requires new { has_member (set_at self.old set.0).members demand.dc.0 ≡ false }
        requires room { length (set_at self.old set.0).members < 8 }
        ensures added { OnOk result (self.new ≡ with_demand self.old set.0 demand) }
        ensures unchanged { OnErr result (self.new ≡ self.old) }
    {
        push_member(&mut self.sets, set, demand)?;
        Ok(())
    }

    /// The number of the set of this name.
    pub fn find(&self, name: &[u8]) -> Option<SetId>
        ensures number { option_map (λ set. set.0) result ≡ set_number self.now name.now }
        ensures below { IfSome result (λ set. set.0 < length self.now) }
    {
        match self.names.get_index_of(name) {
            Some(place) => Some(SetId(place as u16)),
            None => None,
        }
    }

    /// How many sets there are, at most 1,000.
    pub fn sets(&self) -> u16
        ensures count { result ≡ length self.now }
        ensures few { result ≤ 1000 }
        ensures loaded { AreLoaded self.now }
    {
        self.sets.len() as u16
    }

    /// The name of a set.
    pub fn set_name(&self, set: SetId) -> &Word
        requires { set.0 < length self.now }
        ensures { result.now ≡ (set_at self.now set.0).name }
    {
        &self.sets[set.0 as usize].name
    }

    /// What a set asks for, and what it stores.
    pub fn rule(&self, set: SetId) -> SetRule
        requires { set.0 < length self.now }
        ensures rule { result ≡ (set_at self.now set.0).rule }
        ensures within { IsRuleWithin result }
    {
        self.sets[set.0 as usize].rule
    }

    /// The members of a set, in the order in which they were added, at most 8.
    pub fn members(&self, set: SetId) -> &[Demand]
        requires { set.0 < length self.now }
        ensures members { result.now ≡ (set_at self.now set.0).members }
        ensures few { length result.now ≤ 8 }
    {
        self.sets[set.0 as usize].members.as_slice()
    }

    /// Whether each demand's centre is one of the first `count`.
    pub fn are_in_centres(&self, count: u8) -> bool
        ensures { IsTrue result ↔ AreInCentres count self.now }
    {
        self.sets
            .iter()
            .all(|set| are_in_centres(set.members.as_slice(), count))
    }

    /// The first set that has no member.
    pub fn first_empty(&self) -> Option<SetId>
        ensures empty { IfSome result (λ set. (set.0 < length self.now) × ((set_at self.now set.0).members ≡ [])) }
        ensures first { IfSome result (λ set. (s : ℕ) → s < set.0 → (set_at self.now s).members ≢ []) }
        ensures none { IfNone result ((s : ℕ) → s < length self.now → (set_at self.now s).members ≢ []) }
    {
        for set in 0..self.sets() {
            if self.members(SetId(set)).is_empty() {
                return Some(SetId(set));
            }
        }
        None
    }
}

/// Whether the centre of each member is one of the first `count`.
fn are_in_centres(members: &[Demand], count: u8) -> bool
    ensures { IsTrue result ↔ All (λ demand. demand.dc.0 < count) members.now }
{
    members.iter().all(|member| member.dc.0 < count)
}

/// Whether the centre is one of the members'.
fn has_member(members: &[Demand], dc: DcId) -> bool
    ensures { result ≡ has_member members.now dc.0 }
{
    members.iter().any(|member| member.dc.0 == dc.0)
}

/// Puts a set under its name, which is new, after the others.
fn insert_new(
    names: &mut IndexSet<Vec<u8>>,
    sets: &mut Vec<AccessSet>,
    name: Vec<u8>,
    set: AccessSet,
) -> Result<(), AllocError>
    requires name { name.items ≡ set.name }
    requires names { AreNames names.old.keys sets.old.items }
    requires new { set_number sets.old.items set.name ≡ None }
    ensures names { OnOk result (names.new.keys ≡ names.old.keys ++ name ∷ []) }
    ensures sets { OnOk result (sets.new.items ≡ sets.old.items ++ set ∷ []) }
    ensures no_names { OnErr result (names.new.keys ≡ names.old.keys) }
    ensures no_sets { OnErr result (sets.new.items ≡ sets.old.items) }
{
    sets.push(set)?;
    if let Err(error) = insert_name(names, name) {
        sets.pop();
        return Err(error);
    }
    Ok(())
}

/// Puts a new name after the others.
fn insert_name(names: &mut IndexSet<Vec<u8>>, name: Vec<u8>) -> Result<(), AllocError>
    requires { list_any (λ k. pointwise nat_eq name.items k.items) names.old.keys ≡ false }
    ensures ok { OnOk result (names.new.keys ≡ names.old.keys ++ name ∷ []) }
    ensures err { OnErr result (names.new.keys ≡ names.old.keys) }
{
    match names.insert(name) {
        Ok(_) => Ok(()),
        Err(_) => Err(AllocError),
    }
}

/// Puts a member of a set after the others.
fn push_member(sets: &mut Vec<AccessSet>, set: SetId, demand: Demand) -> Result<(), AllocError>
    requires { set.0 < length sets.old.items }
    ensures ok { OnOk result (sets.new.items ≡ with_demand sets.old.items set.0 demand) }
    ensures err { OnErr result (sets.new.items ≡ sets.old.items) }
{
    sets[set.0 as usize].members.push(demand)
}
