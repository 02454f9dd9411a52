//! What a directory of two strong sets and a direct one answers, and how tables end.
use crate::fixtures::{Line, direct_directory, directory, look_up, publish, strong, switch};
use crate::table::PublishFault;
use span_base::{KeyId, SetId};
use std::test::Fail;
use store_fixtures::tag;
use wire_msg::Message;

fn missing(number: u16) -> Result<u32, PublishFault> {
    Err(PublishFault::MissingSet { set: SetId(number) })
}

fn not_quorum(number: u16) -> Result<u32, PublishFault> {
    Err(PublishFault::NotQuorum { set: SetId(number) })
}

#[test]
fn tables_end_so(rt: HostRuntime) -> Result<(), Fail> {
    use Line::*;
    let rows = [
        ([Strong(3), Strong(4), Direct(5)], Ok(2)),
        ([Strong(3), Strong(4), Unlisted], Ok(2)),
        ([Unlisted, Apart, Direct(5)], missing(0)),
        ([Apart, Unlisted, Direct(5)], not_quorum(0)),
        ([Strong(3), Unlisted, Direct(5)], missing(1)),
        ([Strong(3), Apart, Unlisted], not_quorum(1)),
    ];
    for (lines, end) in rows {
        let mut directory = directory(&rt, rt.alloc())?;
        assert_eq!(rt; publish(&rt, rt.alloc(), &mut directory, &lines), end);
    }
    Ok(())
}

#[test]
fn a_key_is_looked_up_and_switched(rt: HostRuntime) -> Result<(), Fail> {
    let alloc = rt.alloc();
    let mut directory = directory(&rt, alloc)?;
    let lines = [Line::Strong(3), Line::Strong(4)];
    assert_eq!(rt; publish(&rt, alloc, &mut directory, &lines), Ok(2));
    let told = Message::Here {
        tag: tag(1),
        key: KeyId(0),
        epoch: 1,
        policy: strong(&rt, alloc, 0)?,
        latest_epoch: 2,
        latest_policy: strong(&rt, alloc, 3)?,
    };
    assert_eq!(rt; look_up(&rt, alloc, &mut directory, 0)?, told);
    // The first of two equal switches is done; epoch 3 isn't published.
    for (closing, opening, done, epoch) in [(1, 3, false, 1), (1, 2, true, 2), (1, 2, false, 2)] {
        let told = Message::Switched {
            tag: tag(1),
            key: KeyId(0),
            done,
            epoch,
        };
        assert_eq!(rt; switch(&rt, alloc, &mut directory, closing, opening)?, told);
    }
    Ok(())
}

#[test]
fn a_thousand_epochs_can_be_published(rt: HostRuntime) -> Result<(), Fail> {
    let mut directory = direct_directory(&rt, rt.alloc())?;
    for number in 2..1001 {
        assert_eq!(rt; publish(&rt, rt.alloc(), &mut directory, &[]), Ok(number));
    }
    let limit = Err(PublishFault::Limit { number: 1001 });
    assert_eq!(rt; publish(&rt, rt.alloc(), &mut directory, &[]), limit);
    Ok(())
}
