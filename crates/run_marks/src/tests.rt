use crate::{Mark, NoEpochCause, Work, mark_text};
use span_base::{Call, KeyId, SetId, Value};
use std::test::Fail;
use ticket_rules::Stamp;
use wire_msg::Reply;

const CALL: Call = Call { proxy: 1, seq: 12 };

const STAMP: Stamp = Stamp {
    epoch: 2,
    number: 7,
    proxy: 1,
    seq: 12,
};

#[test]
fn each_mark_has_its_line(rt: HostRuntime) -> Result<(), Fail> {
    let alloc = rt.alloc();
    let written = Value::from_vec(vec![in alloc; 10, 255]?);
    let begin = Mark::Begin {
        call: CALL,
        key: KeyId(30),
        work: Work::Write(written),
    };
    let line = mark_text(alloc, &begin)?;
    assert_eq!(rt; line.as_slice(), b"begin 1.12 write 30 0aff".as_slice());
    let end = Mark::End {
        call: CALL,
        reply: Reply::Value {
            stamp: STAMP,
            value: Value::empty(alloc),
        },
    };
    let line = mark_text(alloc, &end)?;
    assert_eq!(rt; line.as_slice(), b"end 1.12 ok 2.7.1.12 -".as_slice());
    let none = Mark::NoEpoch {
        cause: NoEpochCause::NotQuorum { set: SetId(3) },
    };
    let line = mark_text(alloc, &none)?;
    assert_eq!(rt; line.as_slice(), b"no-epoch quorum 3".as_slice());
    Ok(())
}
