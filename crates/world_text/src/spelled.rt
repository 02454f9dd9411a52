//! What the fields of a record spell, or the first fault from left to right.

ghost use Rattle.std.specs.Prelude.{◌≡◌, ◌≤◌, IfOk};
ghost use Rattle.span_base.specs.Name.{IsName};
ghost use Rattle.price_tables.specs.Limits.{IsPriceWithin, IsFareWithin};
ghost use Rattle.workload.specs.Limits.{IsRuleWithin};
ghost use Rattle.world_text.specs.Steps.{Gives};
ghost use Rattle.world_text.specs.Spelled.{name_of, number_up_to, providers_of, price_of, fare_of, rule_of, counts_of};

use crate::fault::{Fault, Refusal, bad};
use crate::kinds::mode_of;
use price_tables::{DcPrice, Fare, MAX_LATENCY, MAX_PRICE};
use span_base::{Cause, NumberFault, What, Word, read_name, read_number};
use std::alloc::Global;
use std::str;
use workload::{MAX_COUNT, MAX_FAILURES, MAX_OBJECT, MAX_PROVIDERS, MAX_STORED, SetRule};

/// The text as a name.
#[tactic(auto, unfolding(crate::specs::Spelled::name_of))]
pub(crate) fn name_of(alloc: Global, text: &[u8]) -> Result<Word, Refusal>
    ensures name { Gives (name_of text.now) result }
    ensures spelled { IfOk result (λ word. IsName word) }
{
    if read_name(text).is_err() {
        return Err(bad(Cause::Name));
    }
    match str::from_utf8(text) {
        Ok(text) => Ok(Word::from_string(String::from_str(alloc, text)?)),
        Err(_) => Err(bad(Cause::Name)),
    }
}

/// The text as a number of at most `most`.
#[tactic(auto, unfolding(crate::specs::Spelled::number_up_to))]
fn number_up_to(most: u64, what: What, text: &[u8]) -> Result<u64, Fault>
    ensures number { result ≡ number_up_to most what text.now }
    ensures within { IfOk result (λ n. n ≤ most) }
{
    match read_number(text, u128::from(most)) {
        Ok(number) => Ok(number as u64),
        Err(NumberFault::Limit { number }) => Err(Fault::Limit { what, number }),
        Err(NumberFault::Bad { .. }) => Err(Fault::Bad(Cause::Number)),
    }
}

/// The text as a number of providers, 1 to 16.
#[tactic(auto, unfolding(crate::specs::Spelled::providers_of))]
fn providers_of(text: &[u8]) -> Result<u64, Fault>
    ensures number { result ≡ providers_of text.now }
    ensures some { IfOk result (λ n. 1 ≤ n) }
    ensures within { IfOk result (λ n. n ≤ 16) }
{
    let number = number_up_to(MAX_PROVIDERS, What::Providers, text)?;
    if number == 0 {
        return Err(Fault::Bad(Cause::Number));
    }
    Ok(number)
}

/// The prices of a centre.
#[tactic(auto, unfolding(crate::specs::Spelled::price_of))]
pub(crate) fn price_of(store: &[u8], get: &[u8], put: &[u8]) -> Result<DcPrice, Fault>
    ensures price { result ≡ price_of store.now get.now put.now }
    ensures within { IfOk result (λ price. IsPriceWithin price) }
{
    Ok(DcPrice {
        store: number_up_to(MAX_PRICE, What::Price, store)?,
        get: number_up_to(MAX_PRICE, What::Price, get)?,
        put: number_up_to(MAX_PRICE, What::Price, put)?,
    })
}

/// The fare of a link.
#[tactic(auto, unfolding(crate::specs::Spelled::fare_of))]
pub(crate) fn fare_of(transfer: &[u8], latency: &[u8]) -> Result<Fare, Fault>
    ensures fare { result ≡ fare_of transfer.now latency.now }
    ensures within { IfOk result (λ fare. IsFareWithin fare) }
{
    Ok(Fare {
        transfer: number_up_to(MAX_PRICE, What::Price, transfer)?,
        latency: number_up_to(MAX_LATENCY, What::Latency, latency)? as u32,
    })
}

/// The rule of a set.
#[tactic(auto, unfolding(crate::specs::Spelled::rule_of))]
pub(crate) fn rule_of(
    mode: &[u8],
    f: &[u8],
    read_slo: &[u8],
    write_slo: &[u8],
    stored: &[u8],
    object: &[u8],
    providers: &[u8],
) -> Result<SetRule, Fault>
    ensures rule { result ≡ rule_of mode.now f.now read_slo.now write_slo.now stored.now object.now providers.now }
    ensures within { IfOk result (λ rule. IsRuleWithin rule) }
{
    Ok(SetRule {
        mode: mode_of(mode)?,
        f: number_up_to(MAX_FAILURES, What::F, f)? as u8,
        read_slo: number_up_to(MAX_LATENCY, What::Latency, read_slo)? as u32,
        write_slo: number_up_to(MAX_LATENCY, What::Latency, write_slo)? as u32,
        stored: number_up_to(MAX_STORED, What::Stored, stored)?,
        object: number_up_to(MAX_OBJECT, What::Object, object)?,
        providers: providers_of(providers)? as u8,
    })
}

/// The gets and puts of a member of a set.
#[tactic(auto, unfolding(crate::specs::Spelled::counts_of))]
pub(crate) fn counts_of(gets: &[u8], puts: &[u8]) -> Result<(u64, u64), Fault>
    ensures counts { result ≡ counts_of gets.now puts.now }
    ensures gets { IfOk result (λ counts. counts.0 ≤ 1_000_000_000) }
    ensures puts { IfOk result (λ counts. counts.1 ≤ 1_000_000_000) }
{
    let gets = number_up_to(MAX_COUNT, What::Count, gets)?;
    let puts = number_up_to(MAX_COUNT, What::Count, puts)?;
    Ok((gets, puts))
}
