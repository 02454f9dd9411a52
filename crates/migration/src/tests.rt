ghost use Rattle.std.specs.Prelude.{IfOk};
ghost use Rattle.span_base.specs.Policy.{IsSoundPolicy};
ghost use Rattle.wire_msg.specs.Lawful.{IsLawful};

use crate::{EventualMove, MoveCall, MoveRule, StrongMove};
use span_base::{Policy, Value};
use std::alloc::{AllocError, Global};
use std::test::Fail;
use store_fixtures::{KEY, direct_policy, gone, have, here, quorum_policy, tag, yes};
use ticket_rules::Stamp;
use wire_msg::{Message, Outputs, Reply};

/// What a move takes.
#[derive(Clone, Copy, Debug)]
enum Step {
    /// A new move begins.
    Start,
    /// The directory tells epoch 1 and this latest one.
    Here(u32),
    /// A replica is frozen.
    Have(u8),
    /// A replica has the seed.
    Yes(u8),
    /// A replica is frozen up to this epoch already.
    Gone(u8, u32),
    /// The directory switched or not.
    Switched(bool),
}

/// The posts: what the first one is, by its letter, and their number; and how the move ends.
#[derive(Clone, Copy, Debug, PartialEq, Eq)]
struct Outcome {
    first: u8,
    posts: usize,
    end: u8,
}

/// One member and the replicas 0, 1 and 2, of which one may fail.
fn policy(alloc: Global, is_strong: bool) -> Result<Policy, AllocError>
    ensures { IfOk result IsSoundPolicy }
{
    if is_strong {
        quorum_policy(alloc, 0)
    } else {
        direct_policy(alloc)
    }
}

/// The message of a step; a frozen replica has the empty value that it opened with.
fn message(alloc: Global, is_strong: bool, step: Step) -> Result<Message, AllocError>
    ensures { IfOk result IsLawful }
{
    Ok(match step {
        Step::Start => Message::Lookup {
            tag: tag(1),
            key: KEY,
        },
        Step::Here(latest) => {
            let current = policy(alloc, is_strong)?;
            here(1, 1, current, latest, policy(alloc, is_strong)?)
        }
        Step::Have(replica) => {
            have(
                2,
                replica,
                Stamp::zero(),
                Stamp::zero(),
                Value::empty(alloc),
            )
        }
        Step::Yes(replica) => yes(3, replica),
        Step::Gone(replica, epoch) => gone(3, replica, epoch),
        Step::Switched(done) => Message::Switched {
            tag: tag(4),
            key: KEY,
            done,
            epoch: 3,
        },
    })
}

fn outcome_of(out: &Outputs) -> Outcome {
    let posts = out.posts.as_slice();
    Outcome {
        first: posts.first().map_or(b'-', |post| letter(&post.message)),
        posts: posts.len(),
        end: match &out.end {
            Some(Reply::At { .. }) => b'A',
            Some(Reply::Current { .. }) => b'C',
            Some(Reply::Stale { .. }) => b'S',
            Some(_) => b'?',
            None => b'-',
        },
    }
}

fn letter(message: &Message) -> u8 {
    match message {
        Message::Lookup { .. } => b'L',
        Message::Freeze { .. } => b'F',
        Message::Seed { .. } => b'S',
        Message::Switch { .. } => b'W',
        _ => b'?',
    }
}

/// What a move puts out in a step. A new one takes the place of the old one.
fn take<R: MoveRule + Drop>(
    alloc: Global,
    call: &mut MoveCall<R>,
    is_strong: bool,
    step: Step,
) -> Result<Outcome, AllocError> {
    let mut out = Outputs::make(alloc);
    if let Step::Start = step {
        *call = MoveCall::start(alloc, tag(1), KEY, &mut out)?;
    } else {
        call.take(alloc, &message(alloc, is_strong, step)?, &mut out)?;
    }
    Ok(outcome_of(&out))
}

#[test]
fn strong_moves_go_their_ways(rt: HostRuntime) -> Result<(), Fail> {
    let alloc = rt.alloc();
    let mut call = StrongMove::start(alloc, tag(1), KEY, &mut Outputs::make(alloc))?;
    for (step, first, posts, end) in [
        (Step::Start, b'L', 1, b'-'),
        (Step::Here(1), b'-', 0, b'C'),
        (Step::Start, b'L', 1, b'-'),
        (Step::Here(2), b'F', 3, b'-'),
        (Step::Have(0), b'-', 0, b'-'),
        (Step::Have(2), b'S', 3, b'-'),
        (Step::Gone(1, 4), b'-', 0, b'-'),
        (Step::Yes(2), b'-', 0, b'-'),
        (Step::Yes(0), b'W', 1, b'-'),
        (Step::Switched(true), b'-', 0, b'A'),
        (Step::Start, b'L', 1, b'-'),
        (Step::Here(2), b'F', 3, b'-'),
        (Step::Have(1), b'-', 0, b'-'),
        (Step::Have(0), b'S', 3, b'-'),
        (Step::Gone(0, 4), b'-', 0, b'-'),
        (Step::Gone(1, 3), b'L', 1, b'S'),
    ] {
        let wanted = Outcome { first, posts, end };
        assert_eq!(rt; take(alloc, &mut call, true, step)?, wanted, "{step:?}");
    }
    Ok(())
}

#[test]
fn eventual_moves_go_their_ways(rt: HostRuntime) -> Result<(), Fail> {
    let alloc = rt.alloc();
    let mut call = EventualMove::start(alloc, tag(1), KEY, &mut Outputs::make(alloc))?;
    for (step, first, posts, end) in [
        (Step::Here(2), b'F', 3, b'-'),
        (Step::Have(0), b'-', 0, b'-'),
        (Step::Have(2), b'-', 0, b'-'),
        (Step::Have(1), b'S', 3, b'-'),
        (Step::Yes(2), b'-', 0, b'-'),
        (Step::Yes(0), b'W', 1, b'-'),
        (Step::Switched(false), b'L', 1, b'S'),
        (Step::Start, b'L', 1, b'-'),
        (Step::Here(2), b'F', 3, b'-'),
        (Step::Have(0), b'-', 0, b'-'),
        (Step::Have(2), b'-', 0, b'-'),
        (Step::Have(1), b'S', 3, b'-'),
        (Step::Gone(1, 3), b'L', 1, b'S'),
    ] {
        let wanted = Outcome { first, posts, end };
        assert_eq!(rt; take(alloc, &mut call, false, step)?, wanted, "{step:?}");
    }
    Ok(())
}
