//! How a table opens the next epoch.

ghost use Rattle.std.specs.Prelude.{◌≡◌, ◌≢◌, ℕ, ◌+◌, ◌<◌, ◌++◌, ◌∷◌, [], IfOk, OnOk, OnErr};
ghost use Rattle.epoch_directory.specs.State.{latest, set_count, table_in, is_strong_set, IsTable};
ghost use Rattle.epoch_directory.specs.Tables.{IsNextTable, is_quorum_policy, fault_at, table_fault, PublishEnds, listed, policy_after, table_after, after_publish};

use crate::directory::Directory;
use crate::table::{PublishFault, SetPolicy, listed, take_listed};
use span_base::{Listed, Policy, SetId, is_quorum};
use std::alloc::{AllocError, Global};

/// The greatest number of epochs.
pub const EPOCHS: u32 = 1000;

impl Directory {
    /// Opens the next epoch, whose number is answered: a set that is listed has the listed policy
    /// there, another set keeps the one before. Each key stays in its epoch.
    pub fn publish(&mut self, alloc: Global, table: Vec<SetPolicy>) -> Result<u32, PublishFault>
        requires { IsNextTable self.old table.items }
        ensures ends { PublishEnds self.old table.items result }
        ensures ok { OnOk result (self.new ≡ after_publish self.old table.items) }
        ensures err { OnErr result (self.new ≡ self.old) }
    {
        let latest = self.epochs();
        let number = latest + 1;
        if latest == EPOCHS {
            return Err(PublishFault::Limit { number });
        }
        if let Some(fault) = self.table_fault(table.as_slice()) {
            return Err(fault);
        }
        let next = self.next_table(alloc, table)?;
        self.open(next)?;
        Ok(number)
    }

    /// What is wrong with a table, at the least set at which something is.
    #[tactic(auto, using(crate::proofs::LeastFault::fault_found, crate::proofs::LeastFault::no_fault))]
    fn table_fault(&self, table: &[SetPolicy]) -> Option<PublishFault>
        ensures { result ≡ table_fault self.now table.now }
    {
        for number in 0..self.set_count() {
            if let Some(fault) = self.fault_at(table, SetId(number)) {
                return Some(fault);
            }
        }
        None
    }

    /// What is wrong with a table at a set.
    fn fault_at(&self, table: &[SetPolicy], set: SetId) -> Option<PublishFault>
        requires { set.0 < set_count self.now }
        ensures { result ≡ fault_at self.now table.now set.0 }
    {
        if !self.is_strong_set(set) {
            return None;
        }
        match listed(table, set) {
            None => Some(PublishFault::MissingSet { set }),
            Some(policy) if is_quorum_policy(policy) => None,
            Some(_) => Some(PublishFault::NotQuorum { set }),
        }
    }

    /// Whether the first policy of the set is strong.
    pub(crate) fn is_strong_set(&self, set: SetId) -> bool
        requires { set.0 < set_count self.now }
        ensures { result ≡ is_strong_set self.now set.0 }
    {
        matches!(self.policy_in(1, set), Policy::Strong { .. })
    }

    /// The policies of the sets in the next epoch.
    fn next_table(
        &self,
        alloc: Global,
        mut table: Vec<SetPolicy>,
    ) -> Result<Listed<Policy>, AllocError>
        ensures { IfOk result (λ next. next ≡ table_after self.now table.items) }
    {
        let mut policies = Vec::with_capacity(alloc, usize::from(self.set_count()))?;
        for number in 0..self.set_count() {
            policies.push(self.next_policy(&mut table, SetId(number))?)?;
        }
        Ok(Listed::from_vec(policies))
    }

    /// The policy of a set in the next epoch. A listed one is taken out of the table.
    fn next_policy(&self, table: &mut Vec<SetPolicy>, set: SetId) -> Result<Policy, AllocError>
        requires { set.0 < set_count self.now }
        ensures policy { IfOk result (λ policy. policy ≡ policy_after self.now table.old.items set.0) }
        ensures rest { (other : ℕ) → other ≢ set.0 → listed table.new.items other ≡ listed table.old.items other }
    {
        match take_listed(table, set) {
            Some(policy) => Ok(policy),
            None => self.policy_in(self.epochs(), set).clone(),
        }
    }

    /// Makes these the policies of the sets in the next epoch.
    fn open(&mut self, policies: Listed<Policy>) -> Result<(), AllocError>
        requires room { latest self.old < EPOCHS }
        requires table { IsTable (table_in self.old 1) policies }
        ensures ok { OnOk result (self.new ≡ record self.old { tables = self.old.tables ++ policies ∷ [] }) }
        ensures err { OnErr result (self.new ≡ self.old) }
    {
        self.tables.push(policies)?;
        Ok(())
    }
}

/// Whether the policy is strong and its quorums meet, as the definition of faults tests it.
fn is_quorum_policy(policy: &Policy) -> bool
    ensures { result ≡ is_quorum_policy policy.now }
{
    is_quorum(policy)
}
