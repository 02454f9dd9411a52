ghost use Rattle.std.specs.Prelude.{◌≡◌, ◌≤◌, [], ◌∷◌, ◌++◌, Some, true, length, slice_get, IfOk, IsErrOf, OnErr, OnOk};
ghost use Rattle.frame_link.specs.Frames.{IsShort, answer_of, arrived, with_frame};

use crate::dealt_link::DealtLink;
use crate::{Arrival, Link};
use span_base::DeviceFault;
use std::alloc::Global;
use std::marker::Model;

/// A link in memory that never fails. It gives each frame once and in order, or finds no memory
/// for what it must keep.
#[derive(Debug, Drop)]
pub struct CalmLink {
    link: DealtLink,
}

impl Model for CalmLink {
    ghost use Rattle.std.specs.Prelude.{◌≡◌, true};
    ghost use Rattle.frame_link.specs.Memory.{HeldFrames};

    ghost Value = { HeldFrames };

    ghost view = { λ l. record { sent = l.link.sent; answers = l.link.answers } };

    ghost invariant = { λ l. l.link.faithful ≡ true };
}

impl CalmLink {
    /// A link on which nothing was sent. It takes no memory.
    pub fn make(alloc: Global) -> CalmLink
        ensures { result ≡ record { sent = []; answers = [] } }
    {
        CalmLink {
            link: DealtLink::new(alloc, Vec::new(alloc)),
        }
    }
}

impl Link for CalmLink {
    ghost use Rattle.std.specs.Prelude.{Some, true};

    ghost sent = { λ l. Some l.sent };

    ghost answers = { λ l. Some l.answers };

    ghost honest = { λ _. Some true };

    ghost faithful = { λ _. Some true };

    ghost faults = { λ _. 0 };

    fn send(&mut self, to: u16, frame: &[u8]) -> Result<(), DeviceFault>
        requires { length frame.now ≤ 8192 }

        ensures ok { OnOk result (self.new ≡ record self.old { sent = with_frame self.old.sent to frame.now }) }
        ensures err { OnErr result (self.new ≡ self.old) }
        ensures never_fails { IsErrOf result DeviceFault.Failed → ⊥ }
    {
        match self.link.send(to, frame) {
            Ok(()) => Ok(()),
            Err(_) => Err(DeviceFault::NoMemory),
        }
    }

    fn next(&mut self, buf: &mut [u8]) -> Result<Arrival, DeviceFault>
        requires { 8192 ≤ length buf.old }

        ensures short { IfOk result IsShort }
        ensures answer { IfOk result (λ arrival. answer_of buf.new arrival ≡ slice_get self.old.sent (length (arrived self.old.answers))) }
        ensures ok { IfOk result (λ arrival. self.new ≡ record self.old { answers = self.old.answers ++ answer_of buf.new arrival ∷ [] }) }
        ensures err { OnErr result (self.new ≡ self.old) }
        ensures never_fails { IsErrOf result DeviceFault.Failed → ⊥ }
    {
        match self.link.next(buf) {
            Ok(arrival) => Ok(arrival),
            Err(_) => Err(DeviceFault::NoMemory),
        }
    }
}
