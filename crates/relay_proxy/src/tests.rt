//! How calls go, by hand: what a call puts out for the second of two answers.

ghost use Rattle.std.specs.Prelude.{◌≡◌, IfOk, IsSome};
ghost use Rattle.span_base.specs.PolicyParts.{primary_of};
ghost use Rattle.wire_msg.specs.Lawful.{IsLawful, IsLawfulView};

use crate::EventualCall;
use span_base::{DcId, DcSet, Hop, Listed, Near, Policy, Value, is_sound};
use std::alloc::{AllocError, Global};
use std::process::Abort;
use std::test::Fail;
use store_fixtures::{KEY, gone, have, tag, ticket, yes};
use wire_msg::{Actor, Message, Outputs, Post, Reply, View};

/// Replicas 1 and 2, of which none may stop. The member 0 reads at 1 and writes to 1, which passes
/// its writes on to 2.
fn two_replicas(alloc: Global, rt: &impl Abort) -> Result<View, AllocError>
    ensures lawful { IfOk result (λ view. IsLawfulView view) }
    ensures member { IfOk result (λ view. IsSome (primary_of view.policy 0)) }
{
    let hop = Hop {
        member: DcId(0),
        child: DcId(1),
        parent: DcId(1),
    };
    let onward = Hop {
        member: DcId(0),
        child: DcId(2),
        parent: DcId(1),
    };
    let near = Near {
        member: DcId(0),
        at: DcId(1),
    };
    let policy = Policy::Relay {
        f: 0,
        replicas: DcSet::from_bits(0b110),
        primary: Listed::from_vec(Vec::from_array(alloc, [near])?),
        parent: Listed::from_vec(Vec::from_array(alloc, [hop, onward])?),
    };
    assert!(rt; is_sound(&policy));
    Ok(View {
        key: KEY,
        epoch: 4,
        policy,
    })
}

/// A call at the member 0. A put stores the empty value.
#[derive(Clone, Copy)]
enum Work {
    Get,
    GetAny,
    Put,
}

/// An answer: its replica, and the epoch that is over.
#[derive(Clone, Copy)]
enum Heard {
    /// The empty value, from the replica 1.
    Have,
    Yes(u8),
    Gone(u8, u32),
}

#[derive(Clone, Copy)]
enum End {
    Not,
    Value,
    Stored,
    /// The epoch that is over; the key is looked up.
    Moved(u32),
}

fn begin(alloc: Global, view: &View, work: Work) -> Result<EventualCall, AllocError>
    requires lawful { IsLawfulView view.now }
    requires member { IsSome (primary_of view.now.policy 0) }
{
    let at = DcId(0);
    let mut out = Outputs::make(alloc);
    match work {
        Work::Get => EventualCall::get(alloc, tag(1), at, view, false, &mut out),
        Work::GetAny => EventualCall::get(alloc, tag(1), at, view, true, &mut out),
        Work::Put => {
            let value = Value::empty(alloc);
            EventualCall::put(alloc, tag(1), at, view, ticket(4, 9), &value, &mut out)
        }
    }
}

fn message(alloc: Global, heard: Heard) -> Message
    ensures { IsLawful result }
{
    match heard {
        Heard::Have => have(1, 1, ticket(4, 9), ticket(4, 9), Value::empty(alloc)),
        Heard::Yes(replica) => yes(1, replica),
        Heard::Gone(replica, epoch) => gone(1, replica, epoch),
    }
}

/// What the call puts out as it takes the answer.
fn taken(alloc: Global, call: &mut EventualCall, heard: Heard) -> Result<Outputs, AllocError> {
    let mut out = Outputs::make(alloc);
    call.take(alloc, &message(alloc, heard), &mut out)?;
    Ok(out)
}

fn outputs(alloc: Global, end: End) -> Result<Outputs, AllocError> {
    let mut out = Outputs::make(alloc);
    out.end = match end {
        End::Not => None,
        End::Value => Some(Reply::Value {
            stamp: ticket(4, 9),
            value: Value::empty(alloc),
        }),
        End::Stored => Some(Reply::Stored {
            stamp: ticket(4, 9),
        }),
        End::Moved(epoch) => {
            out.posts.push(Post {
                to: Actor::Directory,
                message: Message::Lookup {
                    tag: tag(2),
                    key: KEY,
                },
            })?;
            Some(Reply::Moved { epoch })
        }
    };
    Ok(out)
}

#[test]
fn the_second_answer_has_this_end(rt: HostRuntime) -> Result<(), Fail> {
    use Heard::*;
    let alloc = rt.alloc();
    let view = two_replicas(alloc, &rt)?;
    let rows = [
        (Work::Get, Gone(2, 4), Have, End::Value),
        (Work::Get, Yes(1), Gone(1, 5), End::Moved(5)),
        (Work::GetAny, Gone(2, 4), Have, End::Value),
        (Work::GetAny, Yes(1), Gone(2, 6), End::Not),
        (Work::GetAny, Gone(2, 6), Gone(1, 5), End::Moved(6)),
        (Work::GetAny, Have, Have, End::Not),
        (Work::Put, Have, Yes(2), End::Stored),
        (Work::Put, Have, Gone(2, 4), End::Moved(4)),
        (Work::Put, Gone(2, 4), Yes(1), End::Not),
    ];
    for (work, first, second, end) in rows {
        let mut call = begin(alloc, &view, work)?;
        let _first = taken(alloc, &mut call, first)?;
        assert_eq!(rt; taken(alloc, &mut call, second)?, outputs(alloc, end)?);
    }
    Ok(())
}
