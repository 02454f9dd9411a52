use crate::SinkBuffer;
use span_base::MemSink;
use std::test::Fail;

#[test]
fn pieces_reach_the_sink_in_order(rt: HostRuntime) -> Result<(), Fail> {
    let alloc = rt.alloc();
    let mut out = MemSink::make(alloc, Vec::new(alloc));
    let mut buffer = SinkBuffer::make(alloc)?;
    let large = vec![in alloc; b'x'; 65_536]?;
    for piece in [b"ab".as_slice(), large.as_slice(), b"cd".as_slice()] {
        assert!(rt; buffer.put(&mut out, piece).is_ok());
    }
    assert!(rt; buffer.flush(&mut out).is_ok());
    let taken = out.bytes();
    assert_eq!(rt; taken.len(), 65_540);
    assert!(rt; taken.starts_with(b"abxx") && taken.ends_with(b"xxcd"));
    Ok(())
}
