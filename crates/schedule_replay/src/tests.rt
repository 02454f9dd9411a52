use crate::replay;
use span_base::MemSink;
use std::test::Fail;

#[test]
fn a_write_and_a_read(rt: HostRuntime) -> Result<(), Fail> {
    let alloc = rt.alloc();
    let text =
        b"span-schedule 1\nreplicas 3\nset strong 1 0/0,1,2/0,1,2 1/0,1,2/0,1,2\nkey 0\nproxy 0\nproxy 1\nbegin\nwrite 0 0 6869\ndeliver 0\ndeliver 1\ndeliver 3\ndeliver 4\ndeliver 5\ndeliver 6\ndeliver 8\ndeliver 9\nread 1 0\ndeliver 14\ndeliver 15\ndeliver 16\ndeliver 17\ndeliver 19\ndeliver 20\ndeliver 21\ndeliver 22\n";
    let told =
        b"begin 0.1 write 0 6869\nticket 0.1 1.1.0.1\nend 0.1 ok 1.1.0.1\nbegin 1.1 read 0\nend 1.1 ok 1.1.0.1 6869\nmessages 23\n";
    let mut out = MemSink::make(alloc, Vec::new(alloc));
    assert_eq!(rt; replay(alloc, text, &mut out), Ok(23));
    assert_eq!(rt; out.bytes(), told.as_slice());
    Ok(())
}
