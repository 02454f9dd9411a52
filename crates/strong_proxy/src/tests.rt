//! How calls go, by hand: what a call puts out for the last of its answers. Its replicas are 0, 1
//! and 2, of which one may stop; its write stores 65 under the ticket of number 4.

ghost use Rattle.wire_msg.specs.Lawful.{IsLawful, IsLawfulView};

use super::fixtures::*;
use super::*;
use span_base::{DcId, Listed};
use std::alloc::{AllocError, Global};
use std::process::Abort;
use std::test::Fail;
use store_fixtures::{KEY, other_stamp, tag, ticket, value};
use wire_msg::{Actor, Message, Outputs, Post, Reply, View};

/// What is put out: to each replica, or to the directory.
#[derive(Clone, Copy)]
enum Sent {
    Nothing,
    /// The phase and the epoch.
    Read(u8, u32),
    /// The phase, and the epoch and number of the ticket.
    Ask(u8, u32, u64),
    Repair(u8),
    Store,
    Confirm,
    /// The phase.
    Lookup(u8),
}

/// How the call ends.
#[derive(Clone, Copy)]
enum End {
    Not,
    Value(u8),
    Stored,
    Fenced(u8),
    Unsure,
    Moved(u32),
    Outside,
}

fn message_of(alloc: Global, sent: Sent) -> Result<Option<Message>, AllocError> {
    Ok(Some(match sent {
        Sent::Nothing => return Ok(None),
        Sent::Read(phase, epoch) => Message::Read {
            tag: tag(phase),
            key: KEY,
            epoch,
        },
        Sent::Ask(phase, epoch, number) => Message::Ask {
            tag: tag(phase),
            key: KEY,
            stamp: ticket(epoch, number),
        },
        Sent::Repair(number) => Message::Repair {
            tag: tag(2),
            key: KEY,
            epoch: 1,
            stamp: other_stamp(number),
            value: value(alloc, number)?,
        },
        Sent::Store => Message::Store {
            tag: tag(2),
            key: KEY,
            stamp: ticket(1, 4),
            value: value(alloc, 65)?,
        },
        Sent::Confirm => Message::Confirm {
            tag: tag(3),
            key: KEY,
            stamp: ticket(1, 4),
        },
        Sent::Lookup(phase) => Message::Lookup {
            tag: tag(phase),
            key: KEY,
        },
    }))
}

fn reply_of(alloc: Global, end: End) -> Result<Option<Reply>, AllocError> {
    Ok(Some(match end {
        End::Not => return Ok(None),
        End::Value(number) => Reply::Value {
            stamp: other_stamp(number),
            value: value(alloc, number)?,
        },
        End::Stored => Reply::Stored {
            stamp: ticket(1, 4),
        },
        End::Fenced(number) => Reply::Fenced {
            held: other_stamp(number),
        },
        End::Unsure => Reply::Unsure,
        End::Moved(epoch) => Reply::Moved { epoch },
        End::Outside => Reply::Outside,
    }))
}

/// Whether the message, where there is one, goes to the directory or to each of the replicas, in
/// this order, and nothing else is put out.
fn are(posts: &Listed<Post>, sent: &Option<Message>) -> bool {
    match sent {
        Some(message) => match posts.as_slice() {
            [post] => post.to == Actor::Directory && post.message == *message,
            [first, second, third] => {
                first.to == Actor::Replica(0)
                    && second.to == Actor::Replica(1)
                    && third.to == Actor::Replica(2)
                    && first.message == *message
                    && second.message == *message
                    && third.message == *message
            }
            _ => false,
        },
        None => posts.is_empty(),
    }
}

fn begin(
    rt: &impl Abort,
    alloc: Global,
    is_read: bool,
    out: &mut Outputs,
) -> Result<StrongCall, AllocError> {
    let view = view_of(alloc, 1, 0)?;
    assert!(rt; view.policy.member(DcId(0)).is_some());
    *out = Outputs::make(alloc);
    if is_read {
        StrongCall::read(alloc, tag(1), DcId(0), &view, out)
    } else {
        let written = value(alloc, 65)?;
        StrongCall::write(alloc, tag(1), DcId(0), &view, ticket(1, 4), &written, out)
    }
}

/// What the call puts out for a message, where 10 is the greatest number that the proxy saw.
fn take(
    rt: &impl Abort,
    alloc: Global,
    call: &mut StrongCall,
    message: &Message,
    view: &View,
) -> Result<Outputs, AllocError>
    requires message { IsLawful message.now }
    requires view { IsLawfulView view.now }
{
    assert!(rt; view.key.0 == call.key().0);
    let bulk = call.bulk(message, view, 10);
    let mut out = Outputs::make(alloc);
    call.take(alloc, message, view, 10, &mut out)?;
    assert!(rt; bulk.posts as usize == out.posts.len());
    Ok(out)
}

fn tell(
    rt: &impl Abort,
    alloc: Global,
    call: &mut StrongCall,
    heard: Heard,
) -> Result<Outputs, AllocError> {
    let view = match heard {
        Heard::Here(_, epoch, member) => view_of(alloc, epoch, member)?,
        _ => view_of(alloc, 1, 0)?,
    };
    take(rt, alloc, call, &answer(alloc, heard)?, &view)
}

/// Whether the last of the answers makes the call put out this, and end so.
fn goes(
    rt: &impl Abort,
    alloc: Global,
    is_read: bool,
    answers: [Heard; 6],
    sent: Sent,
    end: End,
) -> Result<bool, AllocError> {
    let mut out = Outputs::make(alloc);
    let mut call = begin(rt, alloc, is_read, &mut out)?;
    for heard in answers {
        out = tell(rt, alloc, &mut call, heard)?;
    }
    Ok(are(&out.posts, &message_of(alloc, sent)?) && out.end == reply_of(alloc, end)?)
}

#[test]
fn reads_go_so(rt: HostRuntime) -> Result<(), Fail> {
    use Heard::*;
    let rows = [
        // A mark at the greatest version spares the repair.
        (
            [STRAY, STRAY, STRAY, STRAY, Have(0, 6, 0), Have(2, 8, 8)],
            Sent::Nothing,
            End::Value(8),
        ),
        (
            [STRAY, STRAY, STRAY, STRAY, Have(0, 8, 0), Have(1, 6, 6)],
            Sent::Repair(8),
            End::Not,
        ),
        (
            [
                STRAY,
                STRAY,
                Have(0, 8, 0),
                Have(1, 6, 6),
                Yes(2, 2),
                Yes(2, 0),
            ],
            Sent::Nothing,
            End::Value(8),
        ),
        // A second answer, a replica that was not asked, another kind, a later phase.
        (
            [
                STRAY,
                Have(0, 6, 6),
                Have(0, 6, 6),
                Have(3, 6, 6),
                Yes(1, 1),
                Gone(2, 1, 1),
            ],
            Sent::Nothing,
            End::Not,
        ),
        (
            [
                STRAY,
                STRAY,
                STRAY,
                Gone(1, 1, 1),
                Gone(1, 0, 1),
                Here(2, 2, 0),
            ],
            Sent::Read(3, 2),
            End::Not,
        ),
        (
            [
                STRAY,
                STRAY,
                STRAY,
                Gone(1, 1, 1),
                Gone(1, 0, 1),
                Here(2, 2, 1),
            ],
            Sent::Nothing,
            End::Outside,
        ),
        (
            [
                Gone(1, 1, 5),
                Gone(1, 0, 3),
                Here(2, 1, 0),
                Here(3, 1, 0),
                Here(4, 1, 0),
                Here(5, 1, 0),
            ],
            Sent::Lookup(6),
            End::Moved(5),
        ),
    ];
    for (answers, sent, end) in rows {
        assert!(rt; goes(&rt, rt.alloc(), true, answers, sent, end)?);
    }
    Ok(())
}

#[test]
fn writes_go_so(rt: HostRuntime) -> Result<(), Fail> {
    use Heard::*;
    let rows = [
        (
            [STRAY, STRAY, STRAY, STRAY, Yes(1, 0), Yes(1, 1)],
            Sent::Store,
            End::Not,
        ),
        (
            [STRAY, STRAY, Yes(1, 0), Yes(1, 1), Yes(2, 1), Yes(2, 2)],
            Sent::Confirm,
            End::Stored,
        ),
        // A call that has ended takes nothing.
        (
            [STRAY, Yes(1, 0), Yes(1, 1), Yes(2, 1), Yes(2, 2), Yes(2, 0)],
            Sent::Nothing,
            End::Not,
        ),
        (
            [STRAY, STRAY, STRAY, STRAY, Held(1, 2, 9), Held(1, 0, 5)],
            Sent::Nothing,
            End::Fenced(9),
        ),
        (
            [
                STRAY,
                STRAY,
                Yes(1, 0),
                Yes(1, 1),
                Held(2, 0, 9),
                Gone(2, 1, 1),
            ],
            Sent::Nothing,
            End::Unsure,
        ),
        (
            [STRAY, STRAY, STRAY, STRAY, Held(1, 0, 9), Gone(1, 1, 1)],
            Sent::Lookup(2),
            End::Not,
        ),
        // The epoch that the directory tells has to be a later one.
        (
            [
                STRAY,
                STRAY,
                STRAY,
                Held(1, 0, 9),
                Gone(1, 1, 1),
                Here(2, 1, 0),
            ],
            Sent::Lookup(3),
            End::Not,
        ),
        (
            [
                STRAY,
                STRAY,
                Held(1, 0, 9),
                Gone(1, 1, 1),
                Here(2, 1, 0),
                Here(3, 2, 0),
            ],
            Sent::Ask(4, 2, 11),
            End::Not,
        ),
    ];
    for (answers, sent, end) in rows {
        assert!(rt; goes(&rt, rt.alloc(), false, answers, sent, end)?);
    }
    Ok(())
}
