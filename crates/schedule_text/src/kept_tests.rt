use crate::{KeptEvent, KeptEvents, Opening, ScheduleFault, read_kept_schedule};
use run_marks::Work;
use span_base::Cause;
use std::alloc::AllocError;
use std::test::Fail;
use world_core::Event;

/// A crash at the third call of the disk, and a call; the next crash is of another form.
const RUN: &[u8] =
    b"span-schedule 1\nreplicas 1\nset strong 0 0/0/0\nkey 0\nproxy 0\nbegin\ncrash 7 3 new\nread 0 0\n";

/// Lines that are no crash, and why.
const REFUSED: [(&[u8], Cause); 6] = [
    (b"crash 7 3", Cause::Syntax),
    (b"crash 7 3 newer", Cause::Syntax),
    (b"crash 7 0 new", Cause::Number),
    (b"crash 7 5 old", Cause::Number),
    (b"crash 07 4 old", Cause::Number),
    (b"crash 7  old", Cause::Syntax),
];

#[test]
fn crashes_are_read(rt: HostRuntime) -> Result<(), Fail> {
    let Opening { place, .. } = read_kept_schedule(rt.alloc(), RUN)?;
    let mut events = KeptEvents::make(place, RUN);
    let crash = KeptEvent::Crash {
        message: 7,
        call: 3,
        is_new: true,
    };
    let read = KeptEvent::Event(Event::Start {
        proxy: 0,
        key: 0,
        work: Work::Read,
    });
    assert_eq!(rt; events.next(rt.alloc())?, Some(crash));
    assert_eq!(rt; events.line(), 7);
    assert_eq!(rt; events.next(rt.alloc())?, Some(read));
    assert_eq!(rt; events.next(rt.alloc())?, None);
    Ok(())
}

#[test]
fn other_crashes_are_refused(rt: HostRuntime) -> Result<(), AllocError> {
    for (line, cause) in REFUSED {
        let mut text = Vec::from_slice(rt.alloc(), RUN)?;
        text.extend_from_slice(line)?;
        let told = read_kept_schedule(rt.alloc(), text.as_slice()).err();
        assert_eq!(rt; told, Some(ScheduleFault::Bad { line: 9, cause }));
    }
    Ok(())
}
