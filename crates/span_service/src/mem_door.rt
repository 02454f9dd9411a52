ghost use Rattle.std.specs.Prelude.{◌≡◌, ◌+◌, ◌<◌, ◌≤◌, ◌⊎◌, ◌↔◌, [], None, Some, All, length, map, option_map, slice_index_or, vec_capacity, IfOk, IsTrue, is_err};
ghost use Rattle.std.specs.VecDeque.{deque_len};
ghost use Rattle.std.specs.Vec.{vec_len};
ghost use Rattle.span_base.specs.Counts.{Rose};
ghost use Rattle.span_base.specs.Taken.{Takes};
ghost use Rattle.span_service.specs.Coming.{Gives};
ghost use Rattle.span_service.specs.MemDoors.{IsUnused, coming_here, taken_here, present_here, count_here, had_of, past_with, tells};
ghost use Rattle.span_service.specs.Doors.{Accepts};
ghost use Rattle.span_base.specs.Calls.{NextFails};
ghost use Rattle.span_service.specs.declared.mem_door.Here.{Here};
ghost use Rattle.span_service.specs.declared.mem_door.Past.{Past};

use crate::mem_stream::MemStream;
use crate::{Door, Stream};
use replica_journal::Failed;
use span_base::{DeviceFault, FailingCalls};
use std::alloc::{AllocError, Global};
use std::collections::VecDeque;

/// A door in memory, to which given connections come. An accept fails where its number is given,
/// and where no connection is left; a read or a write fails where it does on the present stream.
#[derive(Debug, Drop)]
pub struct MemDoor {
    waiting: VecDeque<MemStream>,
    ended: Vec<Past>,
    here: Option<Here>,
    faults: u64,
    refusals: u64,
    accepts: FailingCalls,
    ghost unused: { All IsUnused waiting.items },
    ghost room: { vec_len ended + (count_here here + deque_len waiting) ≤ vec_capacity ended },
}

/// The present connection, with the count of faults when it came.
#[derive(Debug, Drop)]
pub(crate) struct Here {
    pub stream: MemStream,
    pub before: u64,
}

/// A connection that ended, with the count of faults when it came and when it went.
#[derive(Debug, Drop)]
pub(crate) struct Past {
    pub stream: MemStream,
    pub before: u64,
    pub after: u64,
}

impl MemDoor {
    /// A door to which these connections come, of which nothing was taken yet. `failing` are the
    /// numbers of the accepts that fail, counted from 1.
    pub fn make(
        alloc: Global,
        conns: Vec<MemStream>,
        failing: Vec<u64>,
    ) -> Result<MemDoor, AllocError>
        requires { All IsUnused conns.items }
        ensures tells { IfOk result (λ door. tells door.waiting.items door.ended.items door.here ≡ record { waiting = map had_of conns.items; ended = []; present = None }) }
        ensures calls { IfOk result (λ door. door.accepts ≡ record { failing = failing.items; made = 0; faults = 0 }) }
        ensures counts { IfOk result (λ door. (door.faults ≡ 0) × (door.refusals ≡ 0)) }
    {
        let ended = Vec::with_capacity(alloc, conns.len())?;
        Ok(MemDoor {
            waiting: VecDeque::from(conns),
            ended,
            here: None,
            faults: 0,
            refusals: 0,
            accepts: FailingCalls::make(failing),
        })
    }

    /// The bytes that the connection of this number took, where it came. The first has number 0.
    pub fn taken(&self, number: usize) -> Option<&[u8]>
        ensures ended { (past : Past) → number < vec_len self.now.ended → option_map (λ bytes. bytes.now) result ≡ Some (slice_index_or self.now.ended.items number past).stream.taken }
        ensures present { (here : Here) → self.now.here ≡ Some here → number ≡ vec_len self.now.ended → option_map (λ bytes. bytes.now) result ≡ Some here.stream.taken }
        ensures none { vec_len self.now.ended + count_here self.now.here ≤ number → result ≡ None }
    {
        if number < self.ended.len() {
            return Some(self.ended[number].stream.taken());
        }
        match &self.here {
            Some(here) if number == self.ended.len() => Some(here.stream.taken()),
            _ => None,
        }
    }
}

impl Stream for MemDoor {
    ghost use Rattle.std.specs.Prelude.{Some};
    ghost use Rattle.span_service.specs.MemDoors.{coming_here, taken_here, tells};

    ghost coming = { λ d. Some (coming_here d.here) };

    ghost taken = { λ d. Some (taken_here d.here) };

    ghost faults = { λ d. d.faults };

    ghost around = { λ d. record { told = Some (tells d.waiting.items d.ended.items d.here); refusals = d.refusals } };

    fn read(&mut self, buf: &mut [u8]) -> Result<usize, Failed> {
        match read_here(&mut self.here, buf) {
            Ok(count) => Ok(count),
            Err(_) => {
                self.faults = self.faults.saturating_add(1);
                Err(Failed)
            }
        }
    }

    fn write(&mut self, piece: &[u8]) -> Result<usize, DeviceFault> {
        match write_here(&mut self.here, piece) {
            Ok(count) => Ok(count),
            Err(DeviceFault::NoMemory) => Err(DeviceFault::NoMemory),
            Err(DeviceFault::Failed) => {
                self.faults = self.faults.saturating_add(1);
                Err(DeviceFault::Failed)
            }
        }
    }
}

impl Door for MemDoor {
    fn accept(&mut self) -> Result<(), Failed>
        ensures accepts { Accepts (Some (tells self.old.waiting.items self.old.ended.items self.old.here)) (Some (coming_here self.old.here)) (Some (taken_here self.old.here)) self.old.faults (Some (coming_here self.new.here)) (Some (taken_here self.new.here)) (Some (tells self.new.waiting.items self.new.ended.items self.new.here)) result }
        ensures faults_same { self.new.faults ≡ self.old.faults }
        ensures refusals_stay { self.old.refusals ≤ self.new.refusals }
        ensures refused { IsTrue (is_err result) → Rose self.old.refusals self.new.refusals }
        ensures fails { IsTrue (is_err result) ↔ (NextFails self.old.accepts ⊎ (self.old.waiting.items ≡ [])) }
    {
        if self.accepts.next_fails() {
            self.refusals = self.refusals.saturating_add(1);
            return Err(Failed);
        }
        match self.waiting.pop_front() {
            Some(stream) => {
                end_here(&mut self.ended, &mut self.here, self.faults);
                self.here = Some(Here {
                    stream,
                    before: self.faults,
                });
                Ok(())
            }
            None => {
                self.refusals = self.refusals.saturating_add(1);
                Err(Failed)
            }
        }
    }
}

// Reads from the present connection. There is nothing before the first one.
fn read_here(here: &mut Option<Here>, buf: &mut [u8]) -> Result<usize, Failed>
    requires { 0 < length buf.old }
    ensures within { IfOk result (λ n. n ≤ length buf.new) }
    ensures gives { Gives (Some (coming_here here.old)) (Some (coming_here here.new)) buf.new result }
    ensures taken_stays { taken_here here.new ≡ taken_here here.old }
    ensures present_stays { present_here here.new ≡ present_here here.old }
    ensures count_stays { count_here here.new ≡ count_here here.old }
{
    match here {
        Some(here) => here.stream.read(buf),
        None => Ok(0),
    }
}

// Writes to the present connection. It fails before the first one.
fn write_here(here: &mut Option<Here>, piece: &[u8]) -> Result<usize, DeviceFault>
    requires { 0 < length piece.now }
    ensures some { IfOk result (λ n. (1 ≤ n) × (n ≤ length piece.now)) }
    ensures takes { Takes (Some (taken_here here.old)) (Some (taken_here here.new)) piece.now result }
    ensures coming_stays { coming_here here.new ≡ coming_here here.old }
    ensures present_stays { present_here here.new ≡ present_here here.old }
    ensures count_stays { count_here here.new ≡ count_here here.old }
{
    match here {
        Some(here) => here.stream.write(piece),
        None => Err(DeviceFault::Failed),
    }
}

// Ends the present connection.
fn end_here(ended: &mut Vec<Past>, here: &mut Option<Here>, faults: u64)
    requires { vec_len ended.old + count_here here.old ≤ vec_capacity ended.old }
    ensures ended { ended.new.items ≡ past_with ended.old.items here.old faults }
    ensures here { here.new ≡ None }
    ensures room { vec_capacity ended.old ≤ vec_capacity ended.new }
    ensures count { vec_len ended.new ≡ vec_len ended.old + count_here here.old }
{
    if let Some(Here { stream, before }) = here.take() {
        ended
            .push(Past {
                stream,
                before,
                after: faults,
            })
            .unwrap();
    }
}
