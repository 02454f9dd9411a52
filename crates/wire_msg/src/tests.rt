use crate::{FrameFault, Message, Tag, decode, encode, frame_len};
use span_base::{Call, DcId, DcSet, Hop, KeyId, Listed, Near, Policy, Quorum, Value};
use std::alloc::{AllocError, Global};
use std::process::Abort;
use std::test::Fail;
use ticket_rules::Stamp;

// Proxy 1, slot 2, generation 3, seq 4, phase 5.
const TAG: [u8; 11] = [1, 2, 0, 0, 0, 3, 0, 0, 0, 4, 5];

const KEY: [u8; 2] = [0x01, 0x02];

const EPOCH: [u8; 4] = [0, 0, 0, 9];

// Epoch 7, proxy 9, seq 10.
const STAMP: [u8; 17] = [0, 0, 0, 7, 1, 2, 3, 4, 5, 6, 7, 8, 9, 0, 0, 0, 10];

const VALUE: [u8; 4] = [0, 2, b'h', b'i'];

// f is 0, replicas are in centre 3, and centre 1 reads there.
const DIRECT: [u8; 7] = [1, 0, 0, 8, 1, 1, 3];

// f is 1, replicas are in centres 0 and 1; centre 2 reads at 0, which passes its writes on to 1.
const RELAY: [u8; 9] = [2, 1, 0, 3, 1, 2, 0, 0, 0];

// f is 1; centre 5 reads from 0 to 2 and writes to 0 to 3.
const STRONG: [u8; 10] = [3, 1, 0, 15, 1, 5, 0, 7, 0, 15];

// f is 1; centres 0 to 7 read from 0 to 2 and write to 0 to 3.
const STRONG_OF_EIGHT: [u8; 45] = [
    3, 1, 0, 15, 8, 0, 0, 7, 0, 15, 1, 0, 7, 0, 15, 2, 0, 7, 0, 15, 3, 0, 7, 0, 15, 4, 0, 7, 0, 15,
    5, 0, 7, 0, 15, 6, 0, 7, 0, 15, 7, 0, 7, 0, 15,
];

// f is 1, replicas are in centres 0 and 1; centres 0 to 7 read at 0, which passes their writes on.
const RELAY_OF_EIGHT: [u8; 37] = [
    2, 1, 0, 3, 8, 0, 0, 0, 0, 1, 0, 0, 0, 2, 0, 0, 0, 3, 0, 0, 0, 4, 0, 0, 0, 5, 0, 0, 0, 6, 0, 0,
    0, 7, 0, 0, 0,
];

fn tag() -> Tag {
    Tag {
        call: Call { proxy: 1, seq: 4 },
        slot: 2,
        generation: 3,
        phase: 5,
    }
}

fn stamp() -> Stamp {
    Stamp {
        epoch: 7,
        number: 0x0102_0304_0506_0708,
        proxy: 9,
        seq: 10,
    }
}

const THE_KEY: KeyId = KeyId(258);

fn value(alloc: Global) -> Result<Value, AllocError> {
    Ok(Value::from_vec(Vec::from_slice(alloc, b"hi")?))
}

fn direct(alloc: Global) -> Result<Policy, AllocError> {
    let mut primary = Listed::new(alloc);
    primary.push(Near {
        member: DcId(1),
        at: DcId(3),
    })?;
    Ok(Policy::Direct {
        f: 0,
        replicas: DcSet::from_bits(8),
        primary,
    })
}

fn hop(child: u8, parent: u8) -> Hop {
    Hop {
        member: DcId(2),
        child: DcId(child),
        parent: DcId(parent),
    }
}

fn relay(alloc: Global) -> Result<Policy, AllocError> {
    let mut primary = Listed::new(alloc);
    primary.push(Near {
        member: DcId(2),
        at: DcId(0),
    })?;
    let mut parent = Listed::new(alloc);
    parent.push(hop(0, 0))?;
    parent.push(hop(1, 0))?;
    Ok(Policy::Relay {
        f: 1,
        replicas: DcSet::from_bits(3),
        primary,
        parent,
    })
}

fn strong(alloc: Global) -> Result<Policy, AllocError> {
    let mut members = Listed::new(alloc);
    members.push(Quorum {
        dc: DcId(5),
        read: DcSet::from_bits(7),
        write: DcSet::from_bits(15),
    })?;
    Ok(Policy::Strong {
        f: 1,
        replicas: DcSet::from_bits(15),
        members,
    })
}

fn joined(alloc: Global, pieces: &[&[u8]]) -> Result<Vec<u8>, AllocError> {
    let mut all = Vec::new(alloc);
    for piece in pieces {
        all.extend_from_slice(piece)?;
    }
    Ok(all)
}

// The message of the pieces, which has this frame again, and its length.
fn comes_back(rt: &impl Abort, alloc: Global, pieces: &[&[u8]]) -> Result<Message, Fail> {
    let frame = joined(alloc, pieces)?;
    let message = decode(alloc, frame.as_slice())?;
    assert_eq!(rt; frame_len(&message) as usize, frame.len());
    assert_eq!(rt; encode(alloc, &message)?.as_slice(), frame.as_slice());
    Ok(message)
}

// The pieces are the frame of the message.
fn is_frame(
    rt: &impl Abort,
    alloc: Global,
    pieces: &[&[u8]],
    expected: Message,
) -> Result<(), Fail> {
    let message = comes_back(rt, alloc, pieces)?;
    assert!(rt; message == expected);
    Ok(())
}

// The first fault of the pieces stands there.
fn has_fault(rt: &impl Abort, alloc: Global, pieces: &[&[u8]], place: usize) -> Result<(), Fail> {
    let frame = joined(alloc, pieces)?;
    let fault = decode(alloc, frame.as_slice()).err();
    assert_eq!(rt; fault, Some(FrameFault::BadFrame { at: place }));
    Ok(())
}

#[test]
fn a_lookup_has_14_bytes_and_no_others(rt: HostRuntime) -> Result<(), Fail> {
    let alloc = rt.alloc();
    let frame = [9, 1, 2, 0, 0, 0, 3, 0, 0, 0, 4, 5, 0, 6];
    let message = Message::Lookup {
        tag: tag(),
        key: KeyId(6),
    };
    is_frame(&rt, alloc, &[&frame], message)?;
    has_fault(&rt, alloc, &[&frame, &[0]], 14)?;
    has_fault(&rt, alloc, &[&frame[..13]], 13)?;
    has_fault(&rt, alloc, &[&[0x11], &frame[1..]], 0)?;
    has_fault(&rt, alloc, &[], 0)
}

#[test]
fn a_yes_has_13_bytes(rt: HostRuntime) -> Result<(), Fail> {
    let frame = [0x0c, 0, 0, 0, 0, 0, 1, 0, 0, 0, 1, 1, 2];
    let message = Message::Yes {
        tag: Tag {
            call: Call { proxy: 0, seq: 1 },
            slot: 0,
            generation: 1,
            phase: 1,
        },
        replica: DcId(2),
    };
    is_frame(&rt, rt.alloc(), &[&frame], message)?;
    has_fault(&rt, rt.alloc(), &[&frame[..3], &[0; 4], &frame[7..]], 3)?;
    has_fault(&rt, rt.alloc(), &[&frame[..7], &[0; 4], &frame[11..]], 7)
}

#[test]
fn requests_without_values_come_back(rt: HostRuntime) -> Result<(), Fail> {
    let alloc = rt.alloc();
    let (tag, key, stamp, epoch) = (tag(), THE_KEY, stamp(), 9);
    let read = Message::Read { tag, key, epoch };
    is_frame(&rt, alloc, &[&[1], &TAG, &KEY, &EPOCH], read)?;
    let ask = Message::Ask { tag, key, stamp };
    is_frame(&rt, alloc, &[&[2], &TAG, &KEY, &STAMP], ask)?;
    let confirm = Message::Confirm { tag, key, stamp };
    is_frame(&rt, alloc, &[&[5], &TAG, &KEY, &STAMP], confirm)?;
    let freeze = Message::Freeze { tag, key, epoch };
    is_frame(&rt, alloc, &[&[6], &TAG, &KEY, &EPOCH], freeze)?;
    let switch = Message::Switch {
        tag,
        key,
        closing: 1,
        opening: 9,
    };
    is_frame(
        &rt,
        alloc,
        &[&[10], &TAG, &KEY, &[0, 0, 0, 1], &EPOCH],
        switch,
    )
}

#[test]
fn requests_with_values_come_back(rt: HostRuntime) -> Result<(), Fail> {
    let alloc = rt.alloc();
    let store = Message::Store {
        tag: tag(),
        key: THE_KEY,
        stamp: stamp(),
        value: value(alloc)?,
    };
    is_frame(&rt, alloc, &[&[3], &TAG, &KEY, &STAMP, &VALUE], store)?;
    let push = Message::Push {
        tag: tag(),
        key: THE_KEY,
        stamp: stamp(),
        onward: DcSet::from_bits(0x0304),
        value: Value::empty(alloc),
    };
    is_frame(&rt, alloc, &[&[8], &TAG, &KEY, &STAMP, &[3, 4, 0, 0]], push)
}

#[test]
fn requests_of_epochs_with_values_come_back(rt: HostRuntime) -> Result<(), Fail> {
    let alloc = rt.alloc();
    let repair = Message::Repair {
        tag: tag(),
        key: THE_KEY,
        epoch: 9,
        stamp: stamp(),
        value: value(alloc)?,
    };
    is_frame(
        &rt,
        alloc,
        &[&[4], &TAG, &KEY, &EPOCH, &STAMP, &VALUE],
        repair,
    )?;
    let seed = Message::Seed {
        tag: tag(),
        key: THE_KEY,
        epoch: 9,
        stamp: stamp(),
        value: value(alloc)?,
    };
    is_frame(
        &rt,
        alloc,
        &[&[7], &TAG, &KEY, &EPOCH, &STAMP, &VALUE],
        seed,
    )
}

#[test]
fn answers_of_replicas_come_back(rt: HostRuntime) -> Result<(), Fail> {
    let alloc = rt.alloc();
    let replica = DcId(15);
    let have = Message::Have {
        tag: tag(),
        replica,
        version: Stamp::zero(),
        mark: stamp(),
        value: value(alloc)?,
    };
    is_frame(
        &rt,
        alloc,
        &[&[11], &TAG, &[15], &[0; 17], &STAMP, &VALUE],
        have,
    )?;
    let held = Message::Held {
        tag: tag(),
        replica,
        stamp: stamp(),
    };
    is_frame(&rt, alloc, &[&[13], &TAG, &[15], &STAMP], held)?;
    let gone = Message::Gone {
        tag: tag(),
        replica,
        epoch: 0,
    };
    is_frame(&rt, alloc, &[&[14], &TAG, &[15], &[0; 4]], gone)
}

#[test]
fn answers_of_the_directory_come_back(rt: HostRuntime) -> Result<(), Fail> {
    let alloc = rt.alloc();
    let here = Message::Here {
        tag: tag(),
        key: THE_KEY,
        epoch: 9,
        policy: relay(alloc)?,
        latest_epoch: 9,
        latest_policy: strong(alloc)?,
    };
    is_frame(
        &rt,
        alloc,
        &[&[15], &TAG, &KEY, &EPOCH, &RELAY, &EPOCH, &STRONG],
        here,
    )?;
    let switched = Message::Switched {
        tag: tag(),
        key: THE_KEY,
        done: true,
        epoch: 9,
    };
    is_frame(&rt, alloc, &[&[16], &TAG, &KEY, &[1], &EPOCH], switched)
}

// The longest value, and policies of as many members as there may be.
#[test]
fn long_frames_come_back(rt: HostRuntime) -> Result<(), Fail> {
    let alloc = rt.alloc();
    let value = [0xa5; 4096];
    comes_back(
        &rt,
        alloc,
        &[&[7], &TAG, &KEY, &EPOCH, &STAMP, &[0x10, 0x00], &value],
    )?;
    comes_back(
        &rt,
        alloc,
        &[
            &[15],
            &TAG,
            &KEY,
            &EPOCH,
            &STRONG_OF_EIGHT,
            &EPOCH,
            &RELAY_OF_EIGHT,
        ],
    )?;
    Ok(())
}

#[test]
fn the_first_number_out_of_its_range_is_told(rt: HostRuntime) -> Result<(), Fail> {
    let alloc = rt.alloc();
    has_fault(&rt, alloc, &[&[9, 1, 64], &TAG[2..], &[0x03, 0xe8]], 2)?;
    has_fault(&rt, alloc, &[&[9], &TAG, &[0x03, 0xe8]], 12)?;
    has_fault(&rt, alloc, &[&[3], &TAG, &KEY, &STAMP, &[0x10, 0x01]], 31)?;
    has_fault(&rt, alloc, &[&[3], &TAG, &KEY, &STAMP, &[0, 3, 1]], 34)?;
    has_fault(&rt, alloc, &[&[16], &TAG, &KEY, &[2]], 14)
}

#[test]
fn faults_of_policies_are_told(rt: HostRuntime) -> Result<(), Fail> {
    let alloc = rt.alloc();
    has_fault(&rt, alloc, &[&[15], &TAG, &KEY, &EPOCH, &[0, 4]], 18)?;
    has_fault(&rt, alloc, &[&[15], &TAG, &KEY, &EPOCH, &[1, 4, 0]], 19)?;
    has_fault(
        &rt,
        alloc,
        &[&[15], &TAG, &KEY, &EPOCH, &[1, 0, 0, 8, 9]],
        22,
    )?;
    has_fault(
        &rt,
        alloc,
        &[&[15], &TAG, &KEY, &EPOCH, &[1, 0, 0, 8, 2, 1, 3, 1, 3]],
        18,
    )?;
    has_fault(
        &rt,
        alloc,
        &[&[15], &TAG, &KEY, &EPOCH, &[1, 0, 0, 8, 2, 1, 3, 1]],
        26,
    )
}

// Policies just sound, and policies just not.
#[test]
fn only_sound_policies_are_read(rt: HostRuntime) -> Result<(), Fail> {
    let alloc = rt.alloc();
    let here = Message::Here {
        tag: tag(),
        key: THE_KEY,
        epoch: 9,
        policy: direct(alloc)?,
        latest_epoch: 9,
        latest_policy: direct(alloc)?,
    };
    is_frame(
        &rt,
        alloc,
        &[&[15], &TAG, &KEY, &EPOCH, &DIRECT, &EPOCH, &DIRECT],
        here,
    )?;
    has_fault(
        &rt,
        alloc,
        &[&[15], &TAG, &KEY, &EPOCH, &[1, 1], &DIRECT[2..]],
        18,
    )?;
    has_fault(
        &rt,
        alloc,
        &[&[15], &TAG, &KEY, &EPOCH, &RELAY[..7], &[1, 0]],
        18,
    )?;
    has_fault(
        &rt,
        alloc,
        &[&[15], &TAG, &KEY, &EPOCH, &STRONG[..7], &[3], &STRONG[8..]],
        18,
    )
}
