use crate::{FrameWire, ListWire, Wire};
use std::alloc::Global;
use std::process::Abort;
use std::test::Fail;
use wire_msg::{Actor, Post, decode};

// A Lookup, a Push whose value is "hi", a Seed of no value, and a Here of two epochs with a direct
// policy each.
const FRAMES: [&[u8]; 4] = [
    &[9, 1, 2, 0, 0, 0, 3, 0, 0, 0, 4, 5, 0, 6],
    &[
        8, 1, 2, 0, 0, 0, 3, 0, 0, 0, 4, 5, 1, 2, 0, 0, 0, 7, 0, 0, 0, 0, 0, 0, 0, 8, 9, 0, 0, 0,
        10, 0, 3, 0, 2, 104, 105,
    ],
    &[
        7, 1, 2, 0, 0, 0, 3, 0, 0, 0, 4, 5, 1, 2, 0, 0, 0, 9, 0, 0, 0, 7, 0, 0, 0, 0, 0, 0, 0, 8,
        9, 0, 0, 0, 10, 0, 0,
    ],
    &[
        15, 1, 2, 0, 0, 0, 3, 0, 0, 0, 4, 5, 1, 2, 0, 0, 0, 9, 1, 0, 0, 8, 1, 1, 3, 0, 0, 0, 10, 1,
        0, 0, 16, 1, 1, 4,
    ],
];

// Who takes the message of this number: each has another one.
fn taker(n: u8) -> Actor {
    match n {
        0 => Actor::Directory,
        1 => Actor::Replica(1),
        _ => Actor::Proxy(n),
    }
}

// Pushes the frames' messages, and picks each again by its number.
fn gives_them_back<W: Wire>(rt: &impl Abort, alloc: Global, wire: &mut W) -> Result<(), Fail> {
    for n in 0..4 {
        let message = decode(alloc, FRAMES[usize::from(n)])?;
        assert!(rt; wire.sent() < 4_000_000);
        wire.push(alloc, taker(n), &message)?;
    }
    for n in 0..4 {
        let message = decode(alloc, FRAMES[usize::from(n)])?;
        let post = Post {
            to: taker(n),
            message,
        };
        assert!(rt; wire.pick(alloc, u32::from(n))? == Some(post));
    }
    Ok(())
}

// What was sent is counted, and there is no message past the last.
fn counts<W: Wire>(rt: &impl Abort, alloc: Global, wire: &W) -> Result<(), Fail> {
    assert_eq!(rt; wire.sent(), 4);
    assert_eq!(rt; wire.bytes(), 124);
    assert!(rt; wire.pick(alloc, 4)?.is_none());
    Ok(())
}

#[test]
fn both_wires_give_the_same_messages_back(rt: HostRuntime) -> Result<(), Fail> {
    let alloc = rt.alloc();
    let mut frames = FrameWire::new(alloc);
    gives_them_back(&rt, alloc, &mut frames)?;
    counts(&rt, alloc, &frames)?;
    let mut list = ListWire::new(alloc);
    gives_them_back(&rt, alloc, &mut list)?;
    counts(&rt, alloc, &list)
}

#[test]
fn messages_come_where_room_is_reserved(rt: HostRuntime) -> Result<(), Fail> {
    let alloc = rt.alloc();
    let mut frames = FrameWire::new(alloc);
    frames.reserve(alloc, 4, 124)?;
    gives_them_back(&rt, alloc, &mut frames)?;
    let mut list = ListWire::new(alloc);
    list.reserve(alloc, 4, 124)?;
    gives_them_back(&rt, alloc, &mut list)
}
