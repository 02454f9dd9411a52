ghost use Rattle.std.specs.Prelude.{◌≡◌, ◌≤◌, length};

use frame_link::{Arrival, Link};
use span_base::DeviceFault;
use std::collections::VecDeque;
use std::io::{self, Read, Write};
use std::net::{Ipv4Addr, TcpListener, TcpStream};

/// A link over TCP in one thread, from a free port of 127.0.0.1 to itself: each frame is read as
/// soon as it is written. It tells no content; what fails is counted.
#[derive(Drop)]
pub struct TcpLink<'a> {
    rt: &'a HostRuntime,
    /// The connection, from the first frame on. It ends where a frame fails.
    ends: Option<Ends>,
    arrived: VecDeque<Framed>,
    faults: u64,
}

/// The ends of a connection to itself.
#[derive(Drop)]
struct Ends {
    near: TcpStream,
    far: TcpStream,
}

/// A frame that was read, with its destination.
#[derive(Drop)]
struct Framed {
    to: u16,
    frame: Vec<u8>,
    ghost short: { length frame.items ≤ 8192 },
}

impl<'a> TcpLink<'a> {
    /// A link that opens no port before its first frame.
    pub fn new(rt: &'a HostRuntime) -> TcpLink<'a> {
        TcpLink {
            rt,
            ends: None,
            arrived: VecDeque::new(rt.alloc()),
            faults: 0,
        }
    }
}

impl Link for TcpLink<'_> {
    ghost use Rattle.std.specs.Prelude.{None};

    ghost sent = { λ _. None };

    ghost answers = { λ _. None };

    ghost honest = { λ _. None };

    ghost faithful = { λ _. None };

    ghost faults = { λ l. l.faults };

    fn send(&mut self, to: u16, frame: &[u8]) -> Result<(), DeviceFault> {
        match carry(self.rt, &mut self.ends, &mut self.arrived, to, frame) {
            Ok(()) => Ok(()),
            Err(error) if error.kind() == io::ErrorKind::OutOfMemory => Err(DeviceFault::NoMemory),
            Err(_) => {
                self.faults = self.faults.saturating_add(1);
                Err(DeviceFault::Failed)
            }
        }
    }

    fn next(&mut self, buf: &mut [u8]) -> Result<Arrival, DeviceFault> {
        let Some(Framed { to, frame }) = self.arrived.pop_front() else {
            return Ok(Arrival::Nothing);
        };
        let len = frame.len();
        buf[..len].copy_from_slice(frame.as_slice());
        Ok(Arrival::Frame { to, len })
    }
}

// Writes a frame at the near end with its destination and length, and reads it at the far end.
fn carry(
    rt: &HostRuntime,
    ends: &mut Option<Ends>,
    arrived: &mut VecDeque<Framed>,
    to: u16,
    frame: &[u8],
) -> io::Result<()>
    requires { length frame.now ≤ 8192 }
{
    // The memory is taken first, so that nothing is written where there is none.
    let mut read = Vec::new(rt.alloc());
    read.resize(frame.len(), 0)?;
    arrived.reserve(1)?;
    let mut both = match ends.take() {
        Some(both) => both,
        None => connect(rt)?,
    };
    both.near.write_all(&to.to_be_bytes())?;
    both.near.write_all(&(frame.len() as u16).to_be_bytes())?;
    both.near.write_all(frame)?;
    let to = read_number(&mut both.far)?;
    if read_number(&mut both.far)? as usize != read.len() {
        return Err(io::Error::from(io::ErrorKind::InvalidData));
    }
    both.far.read_exact(read.as_mut_slice())?;
    *ends = Some(both);
    arrived.push_back(Framed { to, frame: read })?;
    Ok(())
}

fn read_number(far: &mut TcpStream) -> io::Result<u16> {
    let mut bytes = [0; 2];
    far.read_exact(&mut bytes)?;
    Ok(u16::from_be_bytes(bytes))
}

// A connection to itself. Where another came before it, that fails.
fn connect(rt: &HostRuntime) -> io::Result<Ends> {
    let listener = TcpListener::bind(rt, (Ipv4Addr::LOCALHOST, 0))?;
    let near = TcpStream::connect(rt, listener.local_addr()?)?;
    let (far, peer) = listener.accept()?;
    if peer != near.local_addr()? {
        return Err(io::Error::from(io::ErrorKind::ConnectionRefused));
    }
    // Without this, a short frame waits for an acknowledgement.
    near.set_nodelay(true)?;
    Ok(Ends { near, far })
}

#[cfg(test)]
mod tests {
    use super::*;
    use std::net::Shutdown;
    use std::test::Fail;

    // Frames of no byte to 8,189 bytes.
    #[test]
    fn frames_come_back_in_order(rt: HostRuntime) -> Result<(), Fail> {
        let mut link = TcpLink::new(&rt);
        let mut frame = Vec::new(rt.alloc());
        for to in 0..20u16 {
            frame.resize(usize::from(to) * 431, to as u8)?;
            link.send(to, &frame)?;
        }
        let mut buf = Vec::new(rt.alloc());
        buf.resize(8_192, 0)?;
        frame.clear();
        for node in 0..20u16 {
            frame.resize(usize::from(node) * 431, node as u8)?;
            let arrival = link.next(&mut buf)?;
            assert_eq!(rt;
                arrival,
                Arrival::Frame {
                    to: node,
                    len: frame.len()
                }
            );
            assert!(rt; buf[..frame.len()] == frame[..]);
        }
        assert_eq!(rt; link.next(&mut buf), Ok(Arrival::Nothing));
        Ok(())
    }

    #[test]
    fn an_end_that_closes_early_has_failed(rt: HostRuntime) -> Result<(), Fail> {
        let mut link = TcpLink::new(&rt);
        link.send(1, b"a")?;
        if let Some(ends) = &link.ends {
            ends.far.shutdown(Shutdown::Both)?;
        }
        assert_eq!(rt; link.send(2, b"b"), Err(DeviceFault::Failed));
        assert_eq!(rt; link.faults, 1);
        Ok(())
    }
}
