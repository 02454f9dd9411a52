ghost use Rattle.std.specs.Prelude.{◌≡◌, ◌≤◌, ◌↔◌, [], All, Some, length, IfOk, IsErrOf};
ghost use Rattle.span_base.specs.Calls.{NextFails};
ghost use Rattle.frame_link.specs.Frames.{IsShort, IsHonest, IsFaithful, answer_of};
ghost use Rattle.frame_link.specs.Deals.{IsShortDeal, are_honest, are_faithful};
ghost use Rattle.frame_link.specs.Memory.{next_of, after_send, after_next};

use crate::dealt_link::DealtLink;
use crate::{Arrival, Deal, Link};
use span_base::{DeviceFault, FailingCalls};
use std::alloc::Global;
use std::marker::Model;

/// A link in memory that goes by deals, and of which given calls fail. A call that fails, or finds
/// no memory for what it must keep, uses up no deal.
#[derive(Debug, Drop)]
pub struct MemLink {
    link: DealtLink,
    calls: FailingCalls,
}

impl Model for MemLink {
    ghost use Rattle.frame_link.specs.Memory.{HeldLink};

    ghost Value = { HeldLink };

    ghost view = { λ l. record { frames = l.link; calls = l.calls } };
}

impl MemLink {
    /// A link on which nothing was sent. It gives the next frame where no deal is left. `failing`
    /// are the numbers of the calls that fail, counted from 1. Calls past the end of a `u64` all
    /// have its last number.
    pub fn make(alloc: Global, deals: Vec<Deal>, failing: Vec<u64>) -> MemLink
        requires { All IsShortDeal deals.items }
        ensures { result ≡ record {
          frames = record { sent = []; answers = []; passed = 0; left = deals.items; honest = are_honest deals.items; faithful = are_faithful deals.items };
          calls = record { failing = failing.items; made = 0; faults = 0 };
        } }
    {
        MemLink {
            link: DealtLink::new(alloc, deals),
            calls: FailingCalls::make(failing),
        }
    }
}

impl Link for MemLink {
    ghost use Rattle.std.specs.Prelude.{Some};

    ghost sent = { λ l. Some l.frames.sent };

    ghost answers = { λ l. Some l.frames.answers };

    ghost honest = { λ l. Some l.frames.honest };

    ghost faithful = { λ l. Some l.frames.faithful };

    ghost faults = { λ l. l.calls.faults };

    fn send(&mut self, to: u16, frame: &[u8]) -> Result<(), DeviceFault>
        requires { length frame.now ≤ 8192 }

        ensures after { self.new ≡ after_send self.old to frame.now result }
        ensures fails { IsErrOf result DeviceFault.Failed ↔ NextFails self.old.calls }
    {
        if self.calls.next_fails() {
            return Err(DeviceFault::Failed);
        }
        match self.link.send(to, frame) {
            Ok(()) => Ok(()),
            Err(_) => Err(DeviceFault::NoMemory),
        }
    }

    fn next(&mut self, buf: &mut [u8]) -> Result<Arrival, DeviceFault>
        requires { 8192 ≤ length buf.old }

        ensures short { IfOk result IsShort }
        ensures answer { IfOk result (λ arrival. answer_of buf.new arrival ≡ (next_of self.old.frames).answer) }
        ensures after { self.new ≡ after_next self.old result }
        ensures fails { IsErrOf result DeviceFault.Failed ↔ NextFails self.old.calls }
        ensures honestly { IfOk result (λ arrival. IsHonest (Some self.old.frames.honest) (Some self.old.frames.sent) (answer_of buf.new arrival)) }
        ensures faithfully { IfOk result (λ arrival. IsFaithful (Some self.old.frames.faithful) (Some self.old.frames.sent) (Some self.old.frames.answers) (answer_of buf.new arrival)) }
    {
        if self.calls.next_fails() {
            return Err(DeviceFault::Failed);
        }
        match self.link.next(buf) {
            Ok(arrival) => Ok(arrival),
            Err(_) => Err(DeviceFault::NoMemory),
        }
    }
}
