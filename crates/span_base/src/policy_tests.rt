use crate::{DcId, DcSet, Hop, Listed, Near, Policy, Quorum, is_quorum, is_sound};
use std::alloc::{AllocError, Global};
use std::test::Fail;

// A member's centre with its read set and its write set.
type Sets = (u8, u16, u16);

// A member's centre, and a replica with the one that it has the member's writes from.
type Lane = (u8, u8, u8);

fn quorum(member: Sets) -> Quorum {
    Quorum {
        dc: DcId(member.0),
        read: DcSet::from_bits(member.1),
        write: DcSet::from_bits(member.2),
    }
}

fn strong(alloc: Global, f: u8, replicas: u16, members: [Sets; 2]) -> Result<Policy, AllocError> {
    let [first, second] = members;
    Ok(Policy::Strong {
        f,
        replicas: DcSet::from_bits(replicas),
        members: Listed::from_vec(vec![in alloc; quorum(first), quorum(second)]?),
    })
}

fn near(member: u8, at: u8) -> Near {
    Near {
        member: DcId(member),
        at: DcId(at),
    }
}

fn hop(lane: Lane) -> Hop {
    Hop {
        member: DcId(lane.0),
        child: DcId(lane.1),
        parent: DcId(lane.2),
    }
}

// Member 0 reads at the replica 1, and member 1 at the replica 2.
fn relay(alloc: Global, lanes: &[Lane]) -> Result<Policy, AllocError> {
    let mut parent = Listed::new(alloc);
    for lane in lanes {
        parent.push(hop(*lane))?;
    }
    Ok(Policy::Relay {
        f: 1,
        replicas: DcSet::from_bits(0b110),
        primary: Listed::from_vec(vec![in alloc; near(0, 1), near(1, 2)]?),
        parent,
    })
}

fn direct(alloc: Global, f: u8, replicas: u16, first: (u8, u8)) -> Result<Policy, AllocError> {
    Ok(Policy::Direct {
        f,
        replicas: DcSet::from_bits(replicas),
        primary: Listed::from_vec(vec![in alloc; near(first.0, first.1), near(1, 2)]?),
    })
}

// Two replicas of three are no quorum where one may fail, and write sets have to meet too.
#[test]
fn quorums_of_a_strong_policy_meet(rt: HostRuntime) -> Result<(), Fail> {
    for (f, replicas, members, meets) in [
        (1, 0b111, [(0, 0b111, 0b111), (1, 0b111, 0b111)], true),
        (3, 0x7f, [(5, 0x7f, 0x7f), (15, 0x7f, 0x7f)], true),
        (1, 0b111, [(0, 0b111, 0b111), (1, 0b111, 0b011)], false),
        (1, 0b111, [(0, 0b111, 0b111), (1, 0b011, 0b111)], false),
        (0, 0b011, [(0, 0b011, 0b001), (1, 0b011, 0b010)], false),
        (1, 0b1111, [(0, 0b111, 0b111), (1, 0b111, 0b111)], false),
        (1, 0b111, [(0, 0b111, 0b111), (0, 0b111, 0b111)], false),
        (1, 0b111, [(0, 0b111, 0b111), (16, 0b111, 0b111)], false),
        (4, 0x1ff, [(0, 0x1ff, 0x1ff), (1, 0x1ff, 0x1ff)], false),
    ] {
        let policy = strong(rt.alloc(), f, replicas, members)?;
        assert_eq!(rt; (is_quorum(&policy), is_sound(&policy)), (meets, meets));
    }
    Ok(())
}

#[test]
fn a_direct_policy_has_replicas_and_primaries(rt: HostRuntime) -> Result<(), Fail> {
    for (f, replicas, first, sound) in [
        (1, 0b110, (0, 1), true),
        (3, 0xffff, (15, 0), true),
        (2, 0b110, (0, 1), false),
        (4, 0xffff, (0, 1), false),
        (1, 0b110, (0, 3), false),
        (1, 0b110, (1, 1), false),
        (1, 0b110, (16, 1), false),
    ] {
        let policy = direct(rt.alloc(), f, replicas, first)?;
        assert_eq!(rt; (is_quorum(&policy), is_sound(&policy)), (false, sound));
    }
    Ok(())
}

// Each member's lanes stand in its turn, one to each replica, and a parent is one that the
// member itself writes to.
#[test]
fn a_relay_policy_has_a_direct_parent_for_each_replica(rt: HostRuntime) -> Result<(), Fail> {
    for (lanes, sound) in [
        ([(0, 1, 1), (0, 2, 1), (1, 1, 1), (1, 2, 2)], true),
        ([(0, 1, 2), (0, 2, 1), (1, 1, 1), (1, 2, 2)], false),
        ([(0, 1, 2), (0, 2, 2), (1, 1, 1), (1, 2, 3)], false),
        ([(0, 2, 2), (0, 1, 2), (1, 1, 1), (1, 2, 2)], false),
        ([(1, 1, 1), (1, 2, 2), (0, 1, 1), (0, 2, 1)], false),
    ] {
        let policy = relay(rt.alloc(), lanes.as_slice())?;
        assert_eq!(rt; is_sound(&policy), sound);
    }
    Ok(())
}

#[test]
fn a_policy_has_an_equal_copy(rt: HostRuntime) -> Result<(), Fail> {
    let alloc = rt.alloc();
    let relayed = relay(alloc, &[(0, 1, 1)])?;
    assert!(rt; relayed.clone()? == relayed);
    let quorums = strong(alloc, 1, 0b111, [(0, 0b111, 0b111), (1, 0b111, 0b11)])?;
    assert!(rt; quorums.clone()? == quorums);
    assert!(rt; relayed != quorums);
    Ok(())
}
