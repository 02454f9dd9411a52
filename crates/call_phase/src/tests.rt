use crate::{Found, Phase, Request, send_to_each, take_better};
use span_base::{Call, DcId, DcSet, KeyId, Value};
use std::test::Fail;
use ticket_rules::Stamp;
use wire_msg::{Actor, Tag};

const TAG: Tag = Tag {
    call: Call { proxy: 1, seq: 4 },
    slot: 2,
    generation: 3,
    phase: 1,
};

#[test]
fn an_answer_counts_once(rt: HostRuntime) {
    let asked = DcSet::empty().with(DcId(0)).with(DcId(2));
    let mut phase = Phase::open(TAG, asked);
    assert_eq!(rt; phase.counts(&TAG, DcId(1)), false);
    assert_eq!(rt; phase.counts(&TAG, DcId(2)), true);
    phase.take_good(DcId(2));
    assert_eq!(rt; phase.counts(&TAG, DcId(2)), false);
    assert_eq!(rt; phase.has_quorum(1), true);
    assert_eq!(rt; phase.is_lost(0), false);
}

#[test]
fn requests_go_out_in_rising_order(rt: HostRuntime) -> Result<(), Fail> {
    let alloc = rt.alloc();
    let set = DcSet::empty().with(DcId(2)).with(DcId(0));
    let request = Request::Read {
        key: KeyId(7),
        epoch: 1,
    };
    let posts = send_to_each(alloc, set, TAG, &request)?;
    assert_eq!(rt; posts.len(), 2);
    for (place, to) in [(0, 0), (1, 2)] {
        assert_eq!(rt; posts[place].to, Actor::Replica(to));
    }
    Ok(())
}

#[test]
fn the_first_of_equal_versions_stays(rt: HostRuntime) -> Result<(), Fail> {
    let alloc = rt.alloc();
    let mut best = None;
    let first = Value::from_vec(vec![in alloc; 7]?);
    take_better(&mut best, &Stamp::zero(), &first)?;
    take_better(&mut best, &Stamp::zero(), &Value::empty(alloc))?;
    let found = Found {
        stamp: Stamp::zero(),
        value: first,
    };
    assert_eq!(rt; best, Some(found));
    Ok(())
}
