use crate::replay_kept;
use span_base::MemSink;
use std::test::Fail;

#[test]
fn a_crash_that_keeps_a_write(rt: HostRuntime) -> Result<(), Fail> {
    let alloc = rt.alloc();
    let text =
        b"span-schedule 1\nreplicas 3\nset strong 1 0/0,1,2/0,1,2 1/0,1,2/0,1,2\nkey 0\nproxy 0\nproxy 1\nbegin\nwrite 0 0 aa\ndeliver 0\ndeliver 1\ndeliver 3\ndeliver 4\ncrash 5 4 new\nstop proxy 0\nread 1 0\ndeliver 8\ndeliver 9\ndeliver 11\ndeliver 12\ndeliver 13\ndeliver 14\ndeliver 16\ndeliver 17\n";
    let told =
        b"begin 0.1 write 0 aa\nticket 0.1 1.1.0.1\nbegin 1.1 read 0\nend 1.1 ok 1.1.0.1 aa\nmessages 18\n";
    let mut out = MemSink::make(alloc, Vec::new(alloc));
    assert_eq!(rt; replay_kept(alloc, text, &mut out), Ok(18));
    assert_eq!(rt; out.bytes(), told.as_slice());
    Ok(())
}
