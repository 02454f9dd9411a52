use crate::{Events, Form, Opening, ScheduleFault, read_schedule};
use run_marks::Work;
use span_base::{Cause, Value, What};
use std::alloc::{AllocError, Global};
use std::test::Fail;
use world_core::Event;

/// A strong set, a key and two proxies.
const H3: &[u8] =
    b"span-schedule 1\nreplicas 3\nset strong 1 0/0,1,2/0,1,2 1/0,1,2/0,1,2\nkey 0\nproxy 0\nproxy 1\nbegin\n";

/// Whole texts that are refused for their header, the line and the cause.
const HEADERS: [(&[u8], u64, Cause); 14] = [
    (b"", 1, Cause::Syntax),
    (b"span-schedule 2\n", 1, Cause::Syntax),
    (b"span-schedule 1\n", 2, Cause::Syntax),
    (b"span-schedule 1\nreplicas 0\n", 2, Cause::Number),
    (b"span-schedule 1\nreplicas 3\nkey 0\n", 3, Cause::Syntax),
    (
        b"span-schedule 1\nreplicas 3\nreplicas 3\n",
        3,
        Cause::Syntax,
    ),
    (
        b"span-schedule 1\nreplicas 3\nset strong 1\n",
        3,
        Cause::Policy,
    ),
    (
        b"span-schedule 1\nreplicas 3\nset strong ;\n",
        3,
        Cause::Number,
    ),
    (
        b"span-schedule 1\nreplicas 3\nset direct 0 0 0>3\n",
        3,
        Cause::Policy,
    ),
    (
        b"span-schedule 1\nreplicas 3\nset direct 0 3 0>3\n",
        3,
        Cause::Range,
    ),
    (
        b"span-schedule 1\nreplicas 3\nset direct 0 0 0>0>0\n",
        3,
        Cause::Syntax,
    ),
    (
        b"span-schedule 1\nreplicas 3\nset relay 0 0,2 0>0>0\n",
        3,
        Cause::Syntax,
    ),
    (
        b"span-schedule 1\nreplicas 3\nset strong 0 0/0/0\nkey 1\n",
        4,
        Cause::Range,
    ),
    (
        b"span-schedule 1\nreplicas 3\nset strong 0 0/0/0\nkey 0\nbegin\n",
        5,
        Cause::Syntax,
    ),
];

/// Lines behind H3 that are refused, the line and the cause.
const REFUSED: [(&[u8], u64, Cause); 26] = [
    (b"write 0 0 a\n", 8, Cause::Syntax),
    (b"write 0 0 AA", 8, Cause::Syntax),
    (b"write x 0 a", 8, Cause::Syntax),
    (b"deliver 01", 8, Cause::Number),
    (b"deliver 99999999999 x", 8, Cause::Syntax),
    (b"deliver 0\n\ndeliver 0\n", 9, Cause::Syntax),
    (b"deliver  0\n", 8, Cause::Syntax),
    (b"deliver 0 \n", 8, Cause::Syntax),
    (b"read 99999999999 x\n", 8, Cause::Number),
    (b"stop actor 0", 8, Cause::Syntax),
    (b"give-up 0", 8, Cause::Syntax),
    (b"crash 5 4 new", 8, Cause::Syntax),
    (b"begin", 8, Cause::Syntax),
    (b"publish ", 8, Cause::Syntax),
    (b"publish ;", 8, Cause::Syntax),
    (b"publish 0 strong 1 ;", 8, Cause::Syntax),
    (b"publish 0 strong 1 0/0,0/1", 8, Cause::Syntax),
    (b"publish 0 strong 1 0/x,0/1", 8, Cause::Number),
    (b"publish 0 strong 1 0/0/1/2", 8, Cause::Syntax),
    (b"publish 0 strong 1 0/,0/1", 8, Cause::Syntax),
    (b"publish 1 strong 1 0/0/0", 8, Cause::Range),
    (b"publish 0 strong 1 0/0/3", 8, Cause::Range),
    (b"publish 0 strong 1 ; 0 strong 1", 8, Cause::Range),
    (b"publish 0 strong 1 0/0/0 0/0/0", 8, Cause::Policy),
    (b"publish 0 direct 0 0,2 0>0", 8, Cause::Policy),
    (b"publish 0 direct 0 0 0>0 ; 0 strong 1", 8, Cause::Range),
];

/// Lines behind H3 in which a number passes a limit: the limit and the number.
const ABOVE: [(&[u8], What, u128); 8] = [
    (b"deliver 4294967296", What::Number, 4_294_967_296),
    (b"read 4294967296 4294967297", What::Number, 4_294_967_296),
    (b"publish 4294967296 strong 4", What::Number, 4_294_967_296),
    (b"publish 1 strong 4", What::F, 4),
    (b"publish 0 strong 1 16/17/3", What::Centres, 16),
    (b"publish 0 strong 1 0/3,17/18", What::Centres, 17),
    (
        b"publish 0 strong 0 0/0/0 1/0/0 2/0/0 3/0/0 4/0/0 5/0/0 6/0/0 7/0/3 16/16/16",
        What::Members,
        9,
    ),
    (b"publish 0 strong 5 ; 0 strong 4", What::F, 5),
];

fn joined(alloc: Global, head: &[u8], tail: &[u8]) -> Result<Vec<u8>, AllocError> {
    let mut text = Vec::from_slice(alloc, head)?;
    text.extend_from_slice(tail)?;
    Ok(text)
}

fn fault_of(alloc: Global, tail: &[u8], form: Form) -> Result<Option<ScheduleFault>, AllocError> {
    let text = joined(alloc, H3, tail)?;
    match read_schedule(alloc, text.as_slice(), form) {
        Ok(_) => Ok(None),
        Err(fault) => Ok(Some(fault)),
    }
}

#[test]
fn bad_headers_are_refused(rt: HostRuntime) -> Result<(), Fail> {
    for (text, line, cause) in HEADERS {
        let fault = match read_schedule(rt.alloc(), text, Form::Plain) {
            Ok(_) => None,
            Err(fault) => Some(fault),
        };
        assert_eq!(rt;
            fault,
            Some(ScheduleFault::Bad { line, cause }),
            "{}",
            text.len()
        );
    }
    Ok(())
}

#[test]
fn bad_lines_are_refused(rt: HostRuntime) -> Result<(), Fail> {
    for (tail, line, cause) in REFUSED {
        let fault = fault_of(rt.alloc(), tail, Form::Plain)?;
        assert_eq!(rt;
            fault,
            Some(ScheduleFault::Bad { line, cause }),
            "{}",
            tail.len()
        );
    }
    Ok(())
}

#[test]
fn great_numbers_are_refused(rt: HostRuntime) -> Result<(), Fail> {
    for (tail, what, number) in ABOVE {
        let fault = fault_of(rt.alloc(), tail, Form::Plain)?;
        assert_eq!(rt;
            fault,
            Some(ScheduleFault::Limit {
                line: 8,
                what,
                number
            }),
            "{}",
            tail.len()
        );
    }
    Ok(())
}

#[test]
fn scripts_deliver_nothing(rt: HostRuntime) -> Result<(), Fail> {
    let fault = fault_of(rt.alloc(), b"deliver 0", Form::Script)?;
    assert_eq!(rt;
        fault,
        Some(ScheduleFault::Bad {
            line: 8,
            cause: Cause::Syntax
        })
    );
    Ok(())
}

#[test]
fn events_are_given_one_by_one(rt: HostRuntime) -> Result<(), Fail> {
    let text = joined(rt.alloc(), H3, b"write 1 0 -\ngive-up 1 1")?;
    let Opening { place, .. } = read_schedule(rt.alloc(), text.as_slice(), Form::Plain)?;
    let mut events = Events::make(place, text.as_slice());
    let write = Event::Start {
        proxy: 1,
        key: 0,
        work: Work::Write(Value::empty(rt.alloc())),
    };
    assert_eq!(rt; events.next(rt.alloc())?, Some(write));
    assert_eq!(rt; events.line(), 8);
    assert_eq!(rt;
        events.next(rt.alloc())?,
        Some(Event::GiveUp { proxy: 1, seq: 1 })
    );
    assert_eq!(rt; events.next(rt.alloc())?, None);
    assert_eq!(rt; events.line(), 9);
    Ok(())
}

#[test]
fn counts_are_limited(rt: HostRuntime) -> Result<(), Fail> {
    let cases: [(&[u8], &[u8], usize, What, u64, u128); 4] = [
        (
            b"span-schedule 1\nreplicas 3\nset strong 0 0/0/0\nkey 0\n",
            b"proxy 0\n",
            65,
            What::Proxies,
            69,
            65,
        ),
        (
            b"span-schedule 1\nreplicas 3\nset strong 0 0/0/0\n",
            b"key 0\n",
            1001,
            What::Keys,
            1004,
            1001,
        ),
        (
            b"span-schedule 1\nreplicas 3\n",
            b"set strong 0 0/0/0\n",
            65,
            What::Sets,
            67,
            65,
        ),
        (
            b"span-schedule 1\n",
            b"replicas 17\n",
            1,
            What::Replicas,
            2,
            17,
        ),
    ];
    for (head, line, times, what, at, number) in cases {
        let mut text = Vec::from_slice(rt.alloc(), head)?;
        for _ in 0..times {
            text.extend_from_slice(line)?;
        }
        let fault = match read_schedule(rt.alloc(), text.as_slice(), Form::Plain) {
            Ok(_) => None,
            Err(fault) => Some(fault),
        };
        assert_eq!(rt;
            fault,
            Some(ScheduleFault::Limit {
                line: at,
                what,
                number
            })
        );
    }
    Ok(())
}
