ghost use Rattle.std.specs.Prelude.{◌≡◌, [], IfOk};
ghost use Rattle.world_core.specs.Run.{IsHeader, MayHappen};

use super::*;
use message_wire::{FrameWire, ListWire, Wire};
use replica_core::Replica;
use run_marks::Work;
use span_base::{DcId, DcSet, Listed, Policy, Quorum, SetId, Value, is_sound};
use std::alloc::Global;
use std::test::Fail;

/// One strong key, and a proxy for each of two members, who ask three replicas.
fn header(alloc: Global) -> Result<Header, Fail>
    ensures { IfOk result (λ header. IsHeader header) }
{
    let three = DcSet::from_bits(7);
    let members = vec![in alloc; member(0, three), member(1, three)]?;
    let policy = Policy::Strong {
        f: 1,
        replicas: three,
        members: Listed::from_vec(members),
    };
    if !is_sound(&policy) {
        return Err("the policy isn't sound".into());
    }
    Ok(Header {
        replicas: 3,
        sets: Listed::from_vec(vec![in alloc; policy]?),
        keys: Listed::from_vec(vec![in alloc; SetId(0)]?),
        proxies: Listed::from_vec(vec![in alloc; DcId(0), DcId(1)]?),
    })
}

fn member(at: u8, asked: DcSet) -> Quorum {
    Quorum {
        dc: DcId(at),
        read: asked,
        write: asked,
    }
}

/// An event that has to be taken: how many marks it leaves.
fn happen<W: Wire>(
    cloud: &mut Cloud<W, Replica>,
    alloc: Global,
    event: &Event,
) -> Result<usize, Fail>
    requires { MayHappen cloud.old.store event.now }
{
    if cloud.events() >= 1_000_000 {
        return Err("too many events".into());
    }
    match cloud.step(alloc, event) {
        Ok(marks) => Ok(marks.len()),
        Err(_) => Err("an event is refused".into()),
    }
}

/// These messages are delivered: how many marks that leaves.
fn deliver<W: Wire>(
    cloud: &mut Cloud<W, Replica>,
    alloc: Global,
    messages: &[u32],
) -> Result<usize, Fail> {
    let mut marks: usize = 0;
    for message in messages {
        let event = Event::Deliver { message: *message };
        marks = marks.saturating_add(happen(cloud, alloc, &event)?);
    }
    Ok(marks)
}

/// A write, and then a read by the other proxy: how many marks they leave, and how many messages
/// and bytes of frames they send.
fn run<W: Wire + Drop>(alloc: Global, wire: W) -> Result<(usize, u32, u64), Fail>
    requires { W.pushed wire ≡ [] }
{
    let mut cloud = Cloud::make(alloc, header(alloc)?, wire)?;
    let work = Work::Write(Value::from_vec(vec![in alloc; 104, 105]?));
    let write = Event::Start {
        proxy: 0,
        key: 0,
        work,
    };
    let read = Event::Start {
        proxy: 1,
        key: 0,
        work: Work::Read,
    };
    let begun = happen(&mut cloud, alloc, &write)?;
    let written = deliver(&mut cloud, alloc, &[0, 1, 3, 4, 5, 6, 8, 9])?;
    let begun_too = happen(&mut cloud, alloc, &read)?;
    let told = deliver(&mut cloud, alloc, &[14, 15, 16, 17, 19, 20, 21, 22])?;
    let marks = begun
        .saturating_add(written)
        .saturating_add(begun_too)
        .saturating_add(told);
    Ok((marks, cloud.wire().sent(), cloud.wire().bytes()))
}

#[test]
fn a_write_and_a_read_over_both_wires(rt: HostRuntime) -> Result<(), Fail> {
    let alloc = rt.alloc();
    let listed = run(alloc, ListWire::new(alloc))?;
    assert_eq!(rt; (listed.0, listed.1), (5, 23));
    let framed = run(alloc, FrameWire::new(alloc))?;
    assert_eq!(rt; listed, framed);
    Ok(())
}
