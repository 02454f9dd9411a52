//! The entries of a table that is to be published.

ghost use Rattle.std.specs.Prelude.{◌≡◌, ◌≤◌, ◌==◌, [], ◌∷◌, Ok, not, map, length};
ghost use Rattle.std.specs.List.{list_all, list_any};
ghost use Rattle.wire_msg.specs.Sound.{are_distinct};
ghost use Rattle.epoch_directory.specs.Tables.{is_line_of};
ghost use Rattle.schedule_text.specs.Flaws.{judged, Gives};
ghost use Rattle.schedule_text.specs.Pieces.{pieces, entry, beyond};
ghost use Rattle.schedule_text.specs.Tables.{entry_says, with_entry, entries_from, may_publish, fits_set, fitting, table_says};

use crate::flaw::{Flaw, both};
use crate::modes::{is_mode, mode_of};
use crate::numbers::set_of;
use crate::policies::{is_whole, policy_of};
use crate::setting::{Mode, Setting};
use crate::words::Words;
use epoch_directory::SetPolicy;
use span_base::{Listed, Policy, Quorum, SetId};
use std::alloc::{AllocError, Global};

/// An entry, as `SET POLICY`.
#[tactic(auto, unfolding(crate::specs::Tables::entry_says))]
fn entry_of(
    alloc: Global,
    setting: &Setting,
    words: &mut Words<'_>,
) -> Result<Result<SetPolicy, Flaw>, AllocError>
    requires { length setting.now.modes ≤ 64 }
    ensures entry { Gives (entry_says setting.now (entry words.old)) result }
    ensures beyond { beyond words.new ≡ beyond words.old }
{
    let Some(set) = words.next() else {
        return Ok(Err(Flaw::Syntax));
    };
    let policy = policy_of(alloc, setting.replicas, words)?;
    match both(set_of(set, setting.modes.len()), policy) {
        Ok((set, policy)) => Ok(Ok(SetPolicy {
            set: SetId(set as u16),
            policy,
        })),
        Err(flaw) => Ok(Err(flaw)),
    }
}

/// Whether the table lists the set.
fn lists(table: &[SetPolicy], set: SetId) -> bool
    ensures { result ≡ list_any (is_line_of set.0) table.now }
{
    table.iter().any(|line| line.set.0 == set.0)
}

/// One entry more, of a set that isn't listed yet.
fn with_entry(
    table: Result<Listed<SetPolicy>, Flaw>,
    entry: Result<SetPolicy, Flaw>,
) -> Result<Result<Listed<SetPolicy>, Flaw>, AllocError>
    ensures { Gives (with_entry table entry) result }
{
    match both(table, entry) {
        Ok((mut table, entry)) => {
            if lists(table.as_slice(), entry.set) {
                return Ok(Err(Flaw::Range));
            }
            table.push(entry)?;
            Ok(Ok(table))
        }
        Err(flaw) => Ok(Err(flaw)),
    }
}

/// The entries to the end of the line.
#[tactic(auto, unfolding(crate::specs::Tables::entries_from))]
fn entries_of(
    alloc: Global,
    setting: &Setting,
    words: &mut Words<'_>,
) -> Result<Result<Listed<SetPolicy>, Flaw>, AllocError>
    requires { length setting.now.modes ≤ 64 }
    ensures { Gives (entries_from setting.now (Ok []) (entry words.old ∷ beyond words.old)) result }
{
    let mut table = Ok(Listed::new(alloc));
    loop {
        let entry = entry_of(alloc, setting, words)?;
        table = with_entry(table, entry)?;
        if !words.next_entry() {
            return Ok(table);
        }
    }
}

/// Whether none of the members is this centre.
fn is_none_of(centre: u8, members: &[Quorum]) -> bool
    ensures { result ≡ list_all (λ d. not (centre == d)) (map (λ q. q.dc.0) members.now) }
{
    for member in members {
        if centre == member.dc.0 {
            return false;
        }
    }
    true
}

/// Whether no two members are one.
fn are_distinct(members: &[Quorum]) -> bool
    ensures { result ≡ are_distinct (map (λ q. q.dc.0) members.now) }
{
    for (at, member) in members.iter().enumerate() {
        if !is_none_of(member.dc.0, &members[at + 1..]) {
            return false;
        }
    }
    true
}

/// Whether an eventual policy is sound; whether the members of a strong one are distinct.
fn may_publish(policy: &Policy) -> bool
    ensures { result ≡ may_publish policy.now }
{
    match policy {
        Policy::Direct { .. } => is_whole(policy),
        Policy::Relay { .. } => is_whole(policy),
        Policy::Strong { members, .. } => are_distinct(members.as_slice()),
    }
}

/// Whether the policy has its set's mode, and may be published.
fn fits_set(modes: &[Mode], entry: &SetPolicy) -> bool
    ensures { result ≡ fits_set modes.now entry.now }
{
    let mode = match modes.get(usize::from(entry.set.0)) {
        Some(mode) => *mode,
        None => Mode::Direct,
    };
    is_mode(mode, mode_of(&entry.policy)) && may_publish(&entry.policy)
}

/// Whether each policy of a table has its set's mode, and may be published.
fn all_fit(modes: &[Mode], table: &[SetPolicy]) -> bool
    ensures { result ≡ list_all (fits_set modes.now) table.now }
{
    table.iter().all(|entry| fits_set(modes, entry))
}

/// The table, where its policies may be published.
fn fitting(
    modes: &[Mode],
    table: Result<Listed<SetPolicy>, Flaw>,
) -> Result<Listed<SetPolicy>, Flaw>
    ensures { result ≡ judged table (fitting modes.now) }
{
    match table {
        Ok(table) => {
            if all_fit(modes, table.as_slice()) {
                Ok(table)
            } else {
                Err(Flaw::Policy)
            }
        }
        Err(flaw) => Err(flaw),
    }
}

/// The table behind the word `publish`.
#[tactic(auto, unfolding(crate::specs::Tables::table_says))]
pub(crate) fn table_of(
    alloc: Global,
    setting: &Setting,
    rest: Option<&[u8]>,
) -> Result<Result<Listed<SetPolicy>, Flaw>, AllocError>
    requires { length setting.now.modes ≤ 64 }
    ensures { Gives (table_says setting.now (pieces 32 rest.entry)) result }
{
    if rest.is_none() {
        return Ok(Ok(Listed::new(alloc)));
    }
    let mut words = Words { rest, joined: true };
    let table = entries_of(alloc, setting, &mut words)?;
    Ok(fitting(setting.modes.as_slice(), table))
}
