//! What replica 5 answers once it took two messages, by hand.

ghost use Rattle.std.specs.Prelude.{◌≡◌, length, IfOk};

use super::fixtures::*;
use super::*;
use span_base::{DcSet, Listed};
use std::alloc::Global;
use std::test::Fail;
use store_fixtures::yes;
use wire_msg::{Actor, Message, Post};

/// The replica after two messages.
fn after(alloc: Global, first: Asked, second: Asked) -> Result<Replica, TakeFault>
    ensures { IfOk result (λ replica. length replica.kept ≡ 1) }
{
    let mut replica = Replica::make(alloc, 5, 1)?;
    let _first = tell(alloc, &mut replica, &message(alloc, first)?)?;
    let _second = tell(alloc, &mut replica, &message(alloc, second)?)?;
    Ok(replica)
}

/// Whether the posts are this answer and nothing else.
fn are(posts: &Listed<Post>, told: &Option<Message>) -> bool {
    match told {
        Some(answer) => match posts.as_slice() {
            [post] => post.to == Actor::Proxy(3) && post.message == *answer,
            _ => false,
        },
        None => posts.is_empty(),
    }
}

fn answers_so(
    alloc: Global,
    mut replica: Replica,
    third: Asked,
    told: Told,
) -> Result<bool, TakeFault>
    requires { length replica.kept ≡ 1 }
{
    let posts = tell(alloc, &mut replica, &message(alloc, third)?)?;
    Ok(are(&posts, &answer(alloc, told)?))
}

#[test]
fn the_third_message_is_answered_so(rt: HostRuntime) -> Result<(), Fail> {
    use Asked::*;
    let rows = [
        (Other, Other, Ask(5), Told::Yes),
        (Ask(5), Other, Ask(4), Told::Held(5)),
        (Ask(5), Other, Store(4, b'a'), Told::Held(5)),
        (Ask(5), Store(7, b'b'), Read(2), Told::Have(7, b'b', 0)),
        (Ask(5), Store(7, b'b'), Ask(5), Told::Yes),
        (Ask(5), Store(7, b'b'), Ask(6), Told::Held(7)),
        (
            Repair(8, b'r'),
            Store(7, b'b'),
            Read(2),
            Told::Have(8, b'r', 0),
        ),
        (
            Seed(8, b's'),
            Repair(8, b'r'),
            Read(2),
            Told::Have(8, b's', 0),
        ),
        (
            Push(8, b'p'),
            Seed(9, b's'),
            Read(2),
            Told::Have(9, b's', 0),
        ),
        (Freeze(2), Freeze(1), Read(2), Told::Gone(2)),
        (Freeze(2), Repair(8, b'r'), Read(3), Told::Empty(0)),
        (Freeze(2), Other, Ask(5), Told::Gone(2)),
        (Freeze(2), Other, Store(5, b'a'), Told::Gone(2)),
        (Freeze(2), Other, Repair(5, b'a'), Told::Gone(2)),
        (Freeze(2), Other, Seed(5, b'a'), Told::Gone(2)),
        (Freeze(2), Other, Push(5, b'a'), Told::Gone(2)),
        (Confirm(9), Confirm(8), Freeze(1), Told::Empty(9)),
        (Other, Other, Repair(5, b'a'), Told::Yes),
        (Other, Other, Seed(5, b'a'), Told::Yes),
        (Other, Other, Confirm(5), Told::Nothing),
        (Other, Other, Other, Told::Nothing),
    ];
    for (first, second, third, told) in rows {
        let replica = after(rt.alloc(), first, second)?;
        assert!(rt; answers_so(rt.alloc(), replica, third, told)?);
    }
    Ok(())
}

fn is_post(post: &Post, to: Actor, message: &Message) -> bool {
    post.to == to && post.message == *message
}

/// What is put out for a push that is to go on to replicas 2 and 9. The bytes are those of a Yes,
/// 13, and twice those of a push of one byte, 36.
fn pushes_on(alloc: Global) -> Result<bool, TakeFault> {
    let mut replica = Replica::make(alloc, 5, 1)?;
    let to_two = push(alloc, 8, b'p', DcSet::from_bits(0b10_0000_0100))?;
    let bulk = replica.bulk(&to_two);
    let posts = tell(alloc, &mut replica, &to_two)?;
    let onward = message(alloc, Asked::Push(8, b'p'))?;
    match posts.as_slice() {
        [first, second, third] => Ok(
            is_post(first, Actor::Proxy(3), &yes(4, 5))
                && is_post(second, Actor::Replica(2), &onward)
                && is_post(third, Actor::Replica(9), &onward)
                && bulk.posts == 3
                && bulk.bytes == 85,
        ),
        _ => Ok(false),
    }
}

#[test]
fn a_push_goes_on(rt: HostRuntime) -> Result<(), Fail> {
    assert!(rt; pushes_on(rt.alloc())?);
    Ok(())
}
