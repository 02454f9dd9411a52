ghost use Rattle.std.specs.Prelude.{◌≡◌, ◌≤◌, length, IfOk, IsTrue, is_err};
ghost use Rattle.span_base.specs.Counts.{Rose};

use replica_journal::Failed;
use span_base::DeviceFault;
use span_service::{Door, Stream};
use std::io::{self, ErrorKind, Read, Write};
use std::net::{Ipv4Addr, TcpListener, TcpStream};

/// A port of 127.0.0.1. It tells no content; what fails is counted.
#[derive(Drop)]
pub struct TcpDoor<'a> {
    rt: &'a HostRuntime,
    port: u16,
    /// The port's listener, from the time on when it was bound.
    listener: Option<TcpListener>,
    /// The present connection.
    stream: Option<TcpStream>,
    faults: u64,
    refusals: u64,
}

impl<'a> TcpDoor<'a> {
    /// A door at this port, which isn't bound yet. Port 0 stands for a free one.
    pub fn make(rt: &'a HostRuntime, port: u16) -> TcpDoor<'a> {
        TcpDoor {
            rt,
            port,
            listener: None,
            stream: None,
            faults: 0,
            refusals: 0,
        }
    }

    /// Binds the port, unless it is bound. From then on connections may come.
    pub fn bind(&mut self) -> Result<(), Failed>
        ensures stays { self.old.refusals ≤ self.new.refusals }
        ensures faults_same { self.new.faults ≡ self.old.faults }
        ensures refused { IsTrue (is_err result) → Rose self.old.refusals self.new.refusals }
    {
        match bind_to(self.rt, self.port, &mut self.listener) {
            Ok(()) => Ok(()),
            Err(_) => {
                self.refusals = self.refusals.saturating_add(1);
                Err(Failed)
            }
        }
    }

    /// The port that was bound.
    pub fn port(&self) -> Option<u16> {
        match &self.listener {
            Some(listener) => Some(listener.local_addr().ok()?.port()),
            None => None,
        }
    }
}

impl Stream for TcpDoor<'_> {
    ghost use Rattle.std.specs.Prelude.{None};

    ghost coming = { λ _. None };

    ghost taken = { λ _. None };

    ghost faults = { λ d. d.faults };

    ghost around = { λ d. record { told = None; refusals = d.refusals } };

    fn read(&mut self, buf: &mut [u8]) -> Result<usize, Failed> {
        match read_from(&mut self.stream, buf) {
            Ok(count) => Ok(count),
            Err(_) => {
                self.faults = self.faults.saturating_add(1);
                Err(Failed)
            }
        }
    }

    fn write(&mut self, piece: &[u8]) -> Result<usize, DeviceFault> {
        match write_to(&mut self.stream, piece) {
            Ok(count) if count > 0 => Ok(count),
            Err(error) if error.kind() == ErrorKind::OutOfMemory => Err(DeviceFault::NoMemory),
            _ => {
                self.faults = self.faults.saturating_add(1);
                Err(DeviceFault::Failed)
            }
        }
    }
}

impl Door for TcpDoor<'_> {
    fn accept(&mut self) -> Result<(), Failed> {
        match accept_next(self.rt, self.port, &mut self.listener) {
            Ok(stream) => {
                self.stream = Some(stream);
                Ok(())
            }
            Err(_) => {
                self.refusals = self.refusals.saturating_add(1);
                Err(Failed)
            }
        }
    }
}

fn read_from(stream: &mut Option<TcpStream>, buf: &mut [u8]) -> io::Result<usize>
    ensures { IfOk result (λ count. count ≤ length buf.new) }
{
    match stream {
        Some(stream) => stream.read(buf),
        None => Ok(0),
    }
}

fn write_to(stream: &mut Option<TcpStream>, piece: &[u8]) -> io::Result<usize>
    ensures { IfOk result (λ count. count ≤ length piece.now) }
{
    match stream {
        Some(stream) => stream.write(piece),
        None => Err(io::Error::from(ErrorKind::NotConnected)),
    }
}

fn bind_to(rt: &HostRuntime, port: u16, listener: &mut Option<TcpListener>) -> io::Result<()> {
    if listener.is_none() {
        *listener = Some(TcpListener::bind(rt, (Ipv4Addr::LOCALHOST, port))?);
    }
    Ok(())
}

fn accept_next(
    rt: &HostRuntime,
    port: u16,
    listener: &mut Option<TcpListener>,
) -> io::Result<TcpStream> {
    bind_to(rt, port, listener)?;
    match listener {
        Some(listener) => {
            let (stream, _) = listener.accept()?;
            // Without this, a short answer waits for an acknowledgement.
            stream.set_nodelay(true)?;
            Ok(stream)
        }
        None => Err(io::Error::from(ErrorKind::NotConnected)),
    }
}
