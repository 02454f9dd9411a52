//! The words of a policy and of a table, each behind a space.

ghost use Rattle.std.specs.Prelude.{◌≡◌, ◌∷◌, ◌++◌, ◌||◌, IfOk, OnOk, codes, map, string_bytes};
ghost use Rattle.std.specs.List.{flat_map};
ghost use Rattle.std.specs.Fmt.{decimal};
ghost use Rattle.span_base.specs.DcSet.{has};
ghost use Rattle.schedule_text.specs.Printed.{spaced, replicas_text, next_text, quorum_text, near_text, parents_text, lane_text, lane_words, policy_words, entry_words, table_words};

use epoch_directory::SetPolicy;
use span_base::{CENTRES, DcId, DcSet, Hop, Near, Policy, Quorum};
use std::alloc::AllocError;

/// Puts the words of a policy at the end, each behind a space.
#[tactic(auto, unfolding(crate::specs::Printed::policy_words))]
pub(crate) fn push_policy(text: &mut String, policy: &Policy) -> Result<(), AllocError>
    ensures { OnOk result (string_bytes text.new ≡ string_bytes text.old ++ spaced (policy_words policy.now)) }
{
    match policy {
        Policy::Strong { f, members, .. } => {
            write!(text, " strong {f}")?;
            push_quorums(text, members.as_slice())
        }
        Policy::Direct {
            f,
            replicas,
            primary,
        } => {
            write!(text, " direct {f} ")?;
            push_replicas(text, *replicas)?;
            push_nears(text, primary.as_slice())
        }
        Policy::Relay {
            f,
            replicas,
            primary,
            parent,
        } => {
            write!(text, " relay {f} ")?;
            push_replicas(text, *replicas)?;
            let count = replicas.count() as usize;
            push_lanes(text, count, parent.as_slice(), primary.as_slice())
        }
    }
}

/// The members of a strong policy, each behind a space.
fn push_quorums(text: &mut String, members: &[Quorum]) -> Result<(), AllocError>
    ensures { OnOk result (string_bytes text.new ≡ string_bytes text.old ++ spaced (map quorum_text members.now)) }
{
    for quorum in members {
        push_quorum(text, *quorum)?;
    }
    Ok(())
}

#[tactic(auto, unfolding(crate::specs::Printed::quorum_text, crate::specs::Printed::joined))]
fn push_quorum(text: &mut String, quorum: Quorum) -> Result<(), AllocError>
    ensures { OnOk result (string_bytes text.new ≡ string_bytes text.old ++ 32 ∷ quorum_text quorum) }
{
    let member = quorum.dc.0;
    write!(text, " {member}/")?;
    push_replicas(text, quorum.read)?;
    write!(text, "/")?;
    push_replicas(text, quorum.write)
}

/// The members of a direct policy, each behind a space.
fn push_nears(text: &mut String, primary: &[Near]) -> Result<(), AllocError>
    ensures { OnOk result (string_bytes text.new ≡ string_bytes text.old ++ spaced (map near_text primary.now)) }
{
    for near in primary {
        push_near(text, *near)?;
    }
    Ok(())
}

#[tactic(auto, unfolding(crate::specs::Printed::near_text, crate::specs::Printed::joined))]
fn push_near(text: &mut String, near: Near) -> Result<(), AllocError>
    ensures { OnOk result (string_bytes text.new ≡ string_bytes text.old ++ 32 ∷ near_text near) }
{
    let member = near.member.0;
    let at = near.at.0;
    write!(text, " {member}>{at}")
}

/// The members of a relay policy, each behind a space; each has so many of the hops.
fn push_lanes(
    text: &mut String,
    count: usize,
    hops: &[Hop],
    primary: &[Near],
) -> Result<(), AllocError>
    ensures { OnOk result (string_bytes text.new ≡ string_bytes text.old ++ spaced (lane_words count hops.now primary.now)) }
{
    let mut rest = hops;
    for near in primary {
        let (own, others) = rest.split_at(count.min(rest.len()));
        push_lane(text, *near, own)?;
        rest = others;
    }
    Ok(())
}

#[tactic(auto, unfolding(crate::specs::Printed::lane_text, crate::specs::Printed::joined))]
fn push_lane(text: &mut String, near: Near, hops: &[Hop]) -> Result<(), AllocError>
    ensures { OnOk result (string_bytes text.new ≡ string_bytes text.old ++ 32 ∷ lane_text near hops.now) }
{
    let member = near.member.0;
    let at = near.at.0;
    write!(text, " {member}>{at}>")?;
    push_parents(text, hops)
}

/// The parents of hops, joined by commas.
#[tactic(auto, unfolding(crate::specs::Printed::joined), using(crate::proofs::Joining::parents_over))]
fn push_parents(text: &mut String, hops: &[Hop]) -> Result<(), AllocError>
    ensures { OnOk result (string_bytes text.new ≡ string_bytes text.old ++ parents_text hops.now) }
{
    let Some((first, rest)) = hops.split_first() else {
        return Ok(());
    };
    let parent = first.parent.0;
    write!(text, "{parent}")?;
    push_later(text, rest)
}

/// The parents of hops, each behind a comma.
fn push_later(text: &mut String, hops: &[Hop]) -> Result<(), AllocError>
    ensures { OnOk result (string_bytes text.new ≡ string_bytes text.old ++ flat_map (λ hop. 44 ∷ decimal hop.parent.0) hops.now) }
{
    for hop in hops {
        let parent = hop.parent.0;
        write!(text, ",{parent}")?;
    }
    Ok(())
}

/// The replicas of a set in rising order, joined by commas.
#[tactic(auto, using(crate::proofs::Joining::replicas_none, crate::proofs::Joining::none_below, crate::proofs::Joining::replicas_more, crate::proofs::Joining::some_more, crate::proofs::Joining::replicas_all))]
fn push_replicas(text: &mut String, set: DcSet) -> Result<(), AllocError>
    ensures { OnOk result (string_bytes text.new ≡ string_bytes text.old ++ replicas_text set) }
{
    let mut some = false;
    for d in 0..CENTRES {
        some = push_next(text, some, set, d)?;
    }
    Ok(())
}

/// The next centre, where it is in the set: whether there was one so far.
#[tactic(auto, unfolding(crate::specs::Printed::next_text))]
fn push_next(text: &mut String, some: bool, set: DcSet, d: u8) -> Result<bool, AllocError>
    ensures text { OnOk result (string_bytes text.new ≡ string_bytes text.old ++ next_text some (has set d) d) }
    ensures some { IfOk result (λ now. now ≡ (some || has set d)) }
{
    if !set.has(DcId(d)) {
        return Ok(some);
    }
    if !some {
        write!(text, "{d}")?;
        return Ok(true);
    }
    write!(text, ",{d}")?;
    Ok(true)
}

/// Puts the words of a table at the end, each behind a space.
#[tactic(auto, unfolding(crate::specs::Printed::joined), using(crate::proofs::Joining::entries_over))]
pub(crate) fn push_table(text: &mut String, table: &[SetPolicy]) -> Result<(), AllocError>
    ensures { OnOk result (string_bytes text.new ≡ string_bytes text.old ++ spaced (table_words table.now)) }
{
    let Some((first, rest)) = table.split_first() else {
        return Ok(());
    };
    push_entry(text, first)?;
    push_entries(text, rest)
}

/// The words of entries that follow another one.
fn push_entries(text: &mut String, table: &[SetPolicy]) -> Result<(), AllocError>
    ensures { OnOk result (string_bytes text.new ≡ string_bytes text.old ++ flat_map (λ entry. codes " ;" ++ spaced (entry_words entry)) table.now) }
{
    for entry in table {
        write!(text, " ;")?;
        push_entry(text, entry)?;
    }
    Ok(())
}

/// The words of an entry.
#[tactic(auto, unfolding(crate::specs::Printed::entry_words))]
fn push_entry(text: &mut String, entry: &SetPolicy) -> Result<(), AllocError>
    ensures { OnOk result (string_bytes text.new ≡ string_bytes text.old ++ spaced (entry_words entry.now)) }
{
    let set = entry.set.0;
    write!(text, " {set}")?;
    push_policy(text, &entry.policy)
}
