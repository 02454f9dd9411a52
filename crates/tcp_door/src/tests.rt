use super::TcpDoor;
use replica_core::Replica;
use span_service::{Door, serve};
use std::io::{Read, Write};
use std::net::{Ipv4Addr, Shutdown, TcpStream};
use std::test::Fail;

/// A read of key 1 in epoch 1: of call 0.1, in phase 1.
const REQUEST: [u8; 20] = [0, 18, 1, 0, 0, 0, 0, 0, 1, 0, 0, 0, 1, 1, 0, 0, 0, 0, 0, 1];

// The client is done before its connection is accepted.
#[test]
fn a_request_is_answered(rt: HostRuntime) -> Result<(), Fail> {
    let mut door = TcpDoor::make(&rt, 0);
    door.bind()?;
    let mut client = TcpStream::connect(&rt, (Ipv4Addr::LOCALHOST, door.port().unwrap_or(0)))?;
    client.write_all(&REQUEST)?;
    client.shutdown(Shutdown::Write)?;
    let mut replica = Replica::make(rt.alloc(), 2, 7)?;
    door.accept()?;
    assert!(rt; serve(rt.alloc(), &mut replica, 7, &mut door) == Ok(1));
    let mut answer = [0; 53];
    client.read_exact(&mut answer)?;
    let head = &answer[..5];
    assert_eq!(rt; head, [0, 32, 0, 49, 11].as_slice());
    Ok(())
}
