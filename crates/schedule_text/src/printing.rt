//! The one text of a header and of an event.

ghost use Rattle.std.specs.Prelude.{◌≡◌, ◌++◌, OnOk, string_bytes};
ghost use Rattle.std.specs.List.{flat_map};
ghost use Rattle.run_marks.specs.Text.{value_text};
ghost use Rattle.schedule_text.specs.Printed.{line_text, call_words, event_words, event_text, first_text, set_text, key_text, proxy_text, header_text};

use crate::policy_printing::{push_policy, push_table};
use run_marks::Work;
use span_base::{DcId, Policy, SetId, Value};
use std::alloc::AllocError;
use world_core::{Event, Header};

/// Puts the lines of a header at the end, each with its line feed, up to `begin`. Where memory
/// lacks, the text may have a front of them.
pub fn push_header(text: &mut String, header: &Header) -> Result<(), AllocError>
    ensures { OnOk result (string_bytes text.new ≡ string_bytes text.old ++ header_text header.now) }
{
    push_first(text, header.replicas)?;
    push_sets(text, header.sets.as_slice())?;
    push_keys(text, header.keys.as_slice())?;
    push_proxies(text, header.proxies.as_slice())?;
    write!(text, "begin\n")
}

#[tactic(auto, unfolding(crate::specs::Printed::first_text))]
fn push_first(text: &mut String, replicas: u8) -> Result<(), AllocError>
    ensures { OnOk result (string_bytes text.new ≡ string_bytes text.old ++ first_text replicas) }
{
    write!(text, "span-schedule 1\nreplicas {replicas}\n")
}

#[tactic(auto, unfolding(crate::specs::Printed::set_text, crate::specs::Printed::joined))]
fn push_set(text: &mut String, policy: &Policy) -> Result<(), AllocError>
    ensures { OnOk result (string_bytes text.new ≡ string_bytes text.old ++ set_text policy.now) }
{
    write!(text, "set")?;
    push_policy(text, policy)?;
    write!(text, "\n")
}

fn push_sets(text: &mut String, sets: &[Policy]) -> Result<(), AllocError>
    ensures { OnOk result (string_bytes text.new ≡ string_bytes text.old ++ flat_map set_text sets.now) }
{
    for policy in sets {
        push_set(text, policy)?;
    }
    Ok(())
}

#[tactic(auto, unfolding(crate::specs::Printed::key_text, crate::specs::Printed::joined))]
fn push_key(text: &mut String, set: SetId) -> Result<(), AllocError>
    ensures { OnOk result (string_bytes text.new ≡ string_bytes text.old ++ key_text set) }
{
    let set = set.0;
    write!(text, "key {set}\n")
}

fn push_keys(text: &mut String, keys: &[SetId]) -> Result<(), AllocError>
    ensures { OnOk result (string_bytes text.new ≡ string_bytes text.old ++ flat_map key_text keys.now) }
{
    for set in keys {
        push_key(text, *set)?;
    }
    Ok(())
}

#[tactic(auto, unfolding(crate::specs::Printed::proxy_text, crate::specs::Printed::joined))]
fn push_proxy(text: &mut String, at: DcId) -> Result<(), AllocError>
    ensures { OnOk result (string_bytes text.new ≡ string_bytes text.old ++ proxy_text at) }
{
    let at = at.0;
    write!(text, "proxy {at}\n")
}

fn push_proxies(text: &mut String, proxies: &[DcId]) -> Result<(), AllocError>
    ensures { OnOk result (string_bytes text.new ≡ string_bytes text.old ++ flat_map proxy_text proxies.now) }
{
    for at in proxies {
        push_proxy(text, *at)?;
    }
    Ok(())
}

/// Puts the line of an event at the end, without its line feed. Where memory lacks, the text may
/// have a front of it.
#[tactic(auto, unfolding(crate::specs::Printed::event_words, crate::specs::Printed::joined))]
pub fn push_event(text: &mut String, event: &Event) -> Result<(), AllocError>
    ensures { OnOk result (string_bytes text.new ≡ string_bytes text.old ++ event_text event.now) }
{
    match event {
        Event::Start { proxy, key, work } => push_call(text, *proxy, *key, work),
        Event::Deliver { message } => write!(text, "deliver {message}"),
        Event::StopReplica { replica } => write!(text, "stop replica {replica}"),
        Event::StopProxy { proxy } => write!(text, "stop proxy {proxy}"),
        Event::GiveUp { proxy, seq } => write!(text, "give-up {proxy} {seq}"),
        Event::Publish { table } => {
            write!(text, "publish")?;
            push_table(text, table.as_slice())
        }
    }
}

#[tactic(auto, unfolding(crate::specs::Printed::call_words, crate::specs::Printed::joined))]
fn push_call(text: &mut String, proxy: u32, key: u32, work: &Work) -> Result<(), AllocError>
    ensures { OnOk result (string_bytes text.new ≡ string_bytes text.old ++ line_text (call_words proxy key work.now)) }
{
    match work {
        Work::Read => write!(text, "read {proxy} {key}"),
        Work::Write(value) => {
            write!(text, "write {proxy} {key} ")?;
            push_value(text, value)
        }
        Work::Get => write!(text, "get {proxy} {key}"),
        Work::GetAny => write!(text, "getany {proxy} {key}"),
        Work::Put(value) => {
            write!(text, "put {proxy} {key} ")?;
            push_value(text, value)
        }
        Work::Move => write!(text, "move {proxy} {key}"),
    }
}

fn push_value(text: &mut String, value: &Value) -> Result<(), AllocError>
    ensures { OnOk result (string_bytes text.new ≡ string_bytes text.old ++ value_text value.now) }
{
    if value.is_empty() {
        return write!(text, "-");
    }
    let alloc = *text.allocator();
    let digits = hex::encode(alloc, value.as_slice())?;
    text.push_str(digits.as_str())
}
