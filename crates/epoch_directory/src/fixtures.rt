//! A small directory, tables for it, and what it answers.
ghost use Rattle.std.specs.Prelude.{◌≡◌, ◌<◌, ◌+◌, length, IfOk, IsTrue, ◌↔◌};
ghost use Rattle.std.specs.List.{All};
ghost use Rattle.span_base.specs.Policy.{IsSoundPolicy};
ghost use Rattle.wire_msg.specs.Lawful.{IsLawful};
ghost use Rattle.epoch_directory.specs.State.{HasSameMode};
ghost use Rattle.epoch_directory.specs.Tables.{IsNextTable};
ghost use Rattle.epoch_directory.specs.Step.{HasItsKey};

use crate::directory::Directory;
use crate::table::{KeySet, PublishFault, SetPolicy};
use span_base::{DcId, DcSet, KeyId, Listed, Near, Policy, Quorum, SetId, is_sound};
use std::alloc::{AllocError, Global};
use std::process::Abort;
use store_fixtures::tag;
use wire_msg::{Actor, Message, Outputs, Post};

/// What a table says of a set.
#[derive(Clone, Copy)]
pub(crate) enum Line {
    Unlisted,
    /// A quorum policy whose one replica stands in this centre, below 16.
    Strong(u8),
    /// A strong policy that reads at one replica and writes to another one.
    Apart,
    /// A sound direct policy whose one replica stands in this centre, below 16.
    Direct(u8),
}

fn only(rt: &impl Abort, centre: u8) -> DcSet {
    assert!(rt; centre < 16);
    DcSet::empty().with(DcId(centre))
}

/// A strong policy of one member.
fn of_quorum(
    alloc: Global,
    replicas: DcSet,
    read: DcSet,
    write: DcSet,
) -> Result<Policy, AllocError> {
    let dc = DcId(0);
    Ok(Policy::Strong {
        f: 0,
        replicas,
        members: Listed::from_vec(vec![in alloc; Quorum { dc, read, write }]?),
    })
}

pub(crate) fn strong(rt: &impl Abort, alloc: Global, centre: u8) -> Result<Policy, AllocError> {
    let at = only(rt, centre);
    of_quorum(alloc, at, at, at)
}

fn apart(rt: &impl Abort, alloc: Global) -> Result<Policy, AllocError> {
    let read = only(rt, 0);
    let write = only(rt, 1);
    of_quorum(alloc, read.join(&write), read, write)
}

pub(crate) fn direct(rt: &impl Abort, alloc: Global, centre: u8) -> Result<Policy, AllocError> {
    let near = Near {
        member: DcId(0),
        at: DcId(centre),
    };
    Ok(Policy::Direct {
        f: 0,
        replicas: only(rt, centre),
        primary: Listed::from_vec(vec![in alloc; near]?),
    })
}

fn policy_of(rt: &impl Abort, alloc: Global, line: Line) -> Result<Option<Policy>, AllocError> {
    Ok(match line {
        Line::Unlisted => None,
        Line::Strong(centre) => Some(strong(rt, alloc, centre)?),
        Line::Apart => Some(apart(rt, alloc)?),
        Line::Direct(centre) => Some(direct(rt, alloc, centre)?),
    })
}

fn add_sound(rt: &impl Abort, policies: &mut Vec<Policy>, policy: Policy) -> Result<(), AllocError>
    requires { All IsSoundPolicy policies.old.items }
    ensures { All IsSoundPolicy policies.new.items }
{
    assert!(rt; is_sound(&policy));
    policies.push(policy)?;
    Ok(())
}

fn first_policies(rt: &impl Abort, alloc: Global) -> Result<Vec<Policy>, AllocError>
    ensures { IfOk result (λ policies. All IsSoundPolicy policies.items) }
{
    let mut policies = Vec::new(alloc);
    add_sound(rt, &mut policies, strong(rt, alloc, 0)?)?;
    add_sound(rt, &mut policies, strong(rt, alloc, 1)?)?;
    add_sound(rt, &mut policies, direct(rt, alloc, 2)?)?;
    Ok(policies)
}

fn add_key(
    rt: &impl Abort,
    keys: &mut Vec<KeySet>,
    set: SetId,
    policies: &[Policy],
) -> Result<(), AllocError>
    requires { All (λ key. key.set.0 < length policies.now) keys.old.items }
    ensures { All (λ key. key.set.0 < length policies.now) keys.new.items }
{
    assert!(rt; usize::from(set.0) < policies.len());
    keys.push(KeySet { set })?;
    Ok(())
}

/// Two strong sets and a direct one; each key is of the set of its own number.
pub(crate) fn directory(rt: &impl Abort, alloc: Global) -> Result<Directory, AllocError> {
    let first = first_policies(rt, alloc)?;
    let mut keys = Vec::new(alloc);
    for set in 0..3 {
        add_key(rt, &mut keys, SetId(set), first.as_slice())?;
    }
    assert!(rt; first.len() <= 64);
    assert!(rt; keys.len() <= 1000);
    Directory::make(alloc, keys, first)
}

/// A directory of no keys and one direct set.
pub(crate) fn direct_directory(rt: &impl Abort, alloc: Global) -> Result<Directory, AllocError> {
    let mut first = Vec::new(alloc);
    add_sound(rt, &mut first, direct(rt, alloc, 0)?)?;
    assert!(rt; first.len() <= 64);
    Directory::make(alloc, Vec::new(alloc), first)
}

fn have_same_mode(one: &Policy, other: &Policy) -> bool
    ensures { IsTrue result ↔ HasSameMode one.now other.now }
{
    match one {
        Policy::Direct { .. } => matches!(other, Policy::Direct { .. }),
        Policy::Relay { .. } => matches!(other, Policy::Relay { .. }),
        Policy::Strong { .. } => matches!(other, Policy::Strong { .. }),
    }
}

/// Adds a line after those of lesser sets.
fn add_line(
    rt: &impl Abort,
    directory: &Directory,
    table: &mut Vec<SetPolicy>,
    set: SetId,
    policy: Policy,
) -> Result<(), AllocError>
    requires next { IsNextTable directory.now table.old.items }
    requires below { All (λ line. line.set.0 < set.0) table.old.items }
    ensures next { IsNextTable directory.now table.new.items }
    ensures below { All (λ line. line.set.0 < set.0 + 1) table.new.items }
{
    assert!(rt; set.0 < directory.set_count());
    assert!(rt; have_same_mode(directory.policy_in(1, set), &policy));
    assert!(rt; directory.is_strong_set(set) || is_sound(&policy));
    table.push(SetPolicy { set, policy })?;
    Ok(())
}

fn table_of(
    rt: &impl Abort,
    alloc: Global,
    directory: &Directory,
    lines: &[Line],
) -> Result<Vec<SetPolicy>, AllocError>
    requires { length lines.now < 100 }
    ensures { IfOk result (λ table. IsNextTable directory.now table.items) }
{
    let mut table = Vec::new(alloc);
    for set in 0..lines.len() {
        if let Some(policy) = policy_of(rt, alloc, lines[set])? {
            add_line(rt, directory, &mut table, SetId(set as u16), policy)?;
        }
    }
    Ok(table)
}

/// Publishes a table that says this of the sets, from the first one on.
pub(crate) fn publish(
    rt: &impl Abort,
    alloc: Global,
    directory: &mut Directory,
    lines: &[Line],
) -> Result<u32, PublishFault>
    requires { length lines.now < 100 }
{
    let table = table_of(rt, alloc, directory, lines)?;
    directory.publish(alloc, table)
}

/// The answer to a message: one post to the tag's proxy.
fn answer_to(
    rt: &impl Abort,
    alloc: Global,
    directory: &mut Directory,
    message: &Message,
) -> Result<Message, AllocError>
    requires lawful { IsLawful message.now }
    requires key { HasItsKey directory.old message.now }
{
    let mut out = Outputs::make(alloc);
    directory.take(alloc, message, &mut out)?;
    let mut posts = out.posts.into_vec();
    let Some(Post { to, message }) = posts.pop() else {
        panic!(rt; "no answer")
    };
    assert_eq!(rt; to, Actor::Proxy(3));
    Ok(message)
}

pub(crate) fn look_up(
    rt: &impl Abort,
    alloc: Global,
    directory: &mut Directory,
    key: u16,
) -> Result<Message, AllocError> {
    assert!(rt; key < directory.keys());
    let message = Message::Lookup {
        tag: tag(1),
        key: KeyId(key),
    };
    answer_to(rt, alloc, directory, &message)
}

/// The answer to a Switch of key 0.
pub(crate) fn switch(
    rt: &impl Abort,
    alloc: Global,
    directory: &mut Directory,
    closing: u32,
    opening: u32,
) -> Result<Message, AllocError> {
    assert!(rt; 1 <= closing && 1 <= opening && directory.keys() > 0);
    let message = Message::Switch {
        tag: tag(1),
        key: KeyId(0),
        closing,
        opening,
    };
    answer_to(rt, alloc, directory, &message)
}
