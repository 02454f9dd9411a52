ghost use Rattle.std.specs.Prelude.{◌≡◌, ◌^◌, ◌≤◌, None, IfNone};
ghost use Rattle.workload.specs.declared.fault.LoadFault.TheVariants.{Limit};
ghost use Rattle.workload.specs.Faults.{over, rule_over, demand_over};
ghost use Rattle.workload.specs.Limits.{IsRuleWithin, AreCountsWithin};

use crate::fault::LoadFault;
use crate::rules::{Demand, SetRule};
use price_tables::MAX_LATENCY;
use span_base::What;

/// The greatest number of failures that a set can stand.
pub const MAX_FAILURES: u64 = 3;
/// The greatest number of KiB stored.
pub const MAX_STORED: u64 = 1_000_000_000_000;
/// The greatest size of an object, in KiB.
pub const MAX_OBJECT: u64 = 100_000;
/// The greatest number of providers that a set asks for.
pub const MAX_PROVIDERS: u64 = 16;
/// The greatest count of gets or puts in a billing period.
pub const MAX_COUNT: u64 = 1_000_000_000;

/// The first number of a rule that is above its limit.
pub(crate) fn rule_over(rule: &SetRule) -> Option<LoadFault>
    requires { 1 ≤ rule.now.providers }
    ensures first { result ≡ rule_over rule.now None }
    ensures within { IfNone result (IsRuleWithin rule.now) }
{
    if let Some(fault) = over(What::F, MAX_FAILURES, u64::from(rule.f)) {
        return Some(fault);
    }
    if let Some(fault) = over(What::Latency, MAX_LATENCY, u64::from(rule.read_slo)) {
        return Some(fault);
    }
    if let Some(fault) = over(What::Latency, MAX_LATENCY, u64::from(rule.write_slo)) {
        return Some(fault);
    }
    if let Some(fault) = over(What::Stored, MAX_STORED, rule.stored) {
        return Some(fault);
    }
    if let Some(fault) = over(What::Object, MAX_OBJECT, rule.object) {
        return Some(fault);
    }
    over(What::Providers, MAX_PROVIDERS, u64::from(rule.providers))
}

/// The first count of a demand that is above its limit.
pub(crate) fn demand_over(demand: &Demand) -> Option<LoadFault>
    ensures first { result ≡ demand_over demand.now None }
    ensures within { IfNone result (AreCountsWithin demand.now) }
{
    if demand.gets > MAX_COUNT {
        return Some(limit(What::Count, demand.gets));
    }
    over(What::Count, MAX_COUNT, demand.puts)
}

/// The number where it is above its limit.
fn over(what: What, most: u64, number: u64) -> Option<LoadFault>
    ensures first { result ≡ over what most number None }
    ensures within { IfNone result (number ≤ most) }
{
    if number > most {
        Some(limit(what, number))
    } else {
        None
    }
}

/// The refusal of a number.
fn limit(what: What, number: u64) -> LoadFault
    ensures { result ≡ Limit what number }
{
    LoadFault::Limit {
        what,
        number: u128::from(number),
    }
}
