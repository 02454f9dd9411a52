use crate::run_loop;
use frame_link::CalmLink;
use span_base::MemSink;
use std::test::Fail;

#[test]
fn a_write_and_a_read(rt: HostRuntime) -> Result<(), Fail> {
    let alloc = rt.alloc();
    let text =
        b"span-schedule 1\nreplicas 3\nset strong 1 0/0,1,2/0,1,2 1/0,1,2/0,1,2\nkey 0\nproxy 0\nproxy 1\nbegin\nwrite 0 0 6869\nread 1 0\n";
    let told =
        b"begin 0.1 write 0 6869\nticket 0.1 1.1.0.1\nend 0.1 ok 1.1.0.1\nbegin 1.1 read 0\nend 1.1 ok 1.1.0.1 6869\nmessages 21\n";
    let mut link = CalmLink::make(alloc);
    let mut out = MemSink::make(alloc, Vec::new(alloc));
    assert_eq!(rt; run_loop(alloc, text, &mut link, &mut out), Ok(21));
    assert_eq!(rt; out.bytes(), told.as_slice());
    Ok(())
}
