ghost use Rattle.std.specs.Prelude.{◌≡◌, ◌+◌, ◌≤◌, ◌<◌, [], length, take, IfOk, IfErr, OnOk, IsErrOf};
ghost use Rattle.span_base.specs.Counts.{Rose};
ghost use Rattle.span_node.specs.Carried.{carried};
ghost use Rattle.span_node.specs.Traffic.{Goes, seen};
ghost use Rattle.span_node.specs.Mail.{IsMail, Places, Comes, IsOfLink};

use crate::fault::{LoopFault, strange, uncarried};
use crate::index::FrameIndex;
use crate::link_wire::LinkWire;
use crate::searching::find;
use frame_link::{Arrival, Link};
use message_wire::Wire;
use std::alloc::{AllocError, Global};

/// The most bytes that a frame may have.
const FRAME_LIMIT: usize = 8192;

/// What goes over the link, and comes.
#[derive(Drop)]
pub(crate) struct Mail {
    /// How many of the store's messages the link was given: the first ones.
    pub(crate) sent: u32,
    pub(crate) index: FrameIndex,
    /// Room for a frame of the store's.
    pub(crate) frame: Vec<u8>,
    /// Room for a frame that comes.
    pub(crate) buffer: Vec<u8>,
}

impl Mail {
    pub(crate) fn make(alloc: Global) -> Result<Mail, AllocError>
        ensures mail { IfOk result (λ mail. IsMail mail []) }
        ensures none { IfOk result (λ mail. mail.sent ≡ 0) }
    {
        Ok(Mail {
            sent: 0,
            index: FrameIndex::new(alloc),
            frame: Vec::with_capacity(alloc, FRAME_LIMIT)?,
            buffer: vec![in alloc; 0; FRAME_LIMIT]?,
        })
    }

    /// Gives the link each message that it wasn't given yet.
    #[tactic(auto, using(crate::proofs::Sending::goes_nowhere, crate::proofs::Sending::goes_on))]
    pub(crate) fn send_all<L: Link>(
        &mut self,
        alloc: Global,
        wire: &LinkWire,
        link: &mut L,
    ) -> Result<(), LoopFault>
        requires mail { IsMail self.old wire.now.posts }
        ensures mail { OnOk result (IsMail self.new wire.now.posts) }
        ensures all { OnOk result (self.new.sent ≡ length wire.now.posts) }
        ensures goes { Goes (seen (L.sent link.old) (L.answers link.old) (L.honest link.old) (L.faithful link.old)) (seen (L.sent link.new) (L.answers link.new) (L.honest link.new) (L.faithful link.new)) (take self.old.sent (carried wire.now.posts)) (take self.new.sent (carried wire.now.posts)) }
        ensures of_link { IfErr result IsOfLink }

        ensures faults_stay { L.faults link.old ≤ L.faults link.new }
        ensures failed { IsErrOf result LoopFault.LinkFault → Rose (L.faults link.old) (L.faults link.new) }
    {
        for number in self.sent..wire.sent() {
            self.send(alloc, wire, number, link)?;
        }
        Ok(())
    }

    /// Gives the link the next message.
    #[tactic(auto, using(crate::proofs::Sending::goes_nowhere, crate::proofs::Sending::goes_one, crate::proofs::Sending::goes_none))]
    fn send<L: Link>(
        &mut self,
        alloc: Global,
        wire: &LinkWire,
        number: u32,
        link: &mut L,
    ) -> Result<(), LoopFault>
        requires mail { IsMail self.old wire.now.posts }
        requires next { number ≡ self.old.sent }
        requires sent { number < length wire.now.posts }
        requires fits { number < 4294967295 }
        ensures mail { OnOk result (IsMail self.new wire.now.posts) }
        ensures one { OnOk result (self.new.sent ≡ number + 1) }
        ensures goes { Goes (seen (L.sent link.old) (L.answers link.old) (L.honest link.old) (L.faithful link.old)) (seen (L.sent link.new) (L.answers link.new) (L.honest link.new) (L.faithful link.new)) (take self.old.sent (carried wire.now.posts)) (take self.new.sent (carried wire.now.posts)) }
        ensures of_link { IfErr result IsOfLink }

        ensures faults_stay { L.faults link.old ≤ L.faults link.new }
        ensures failed { IsErrOf result LoopFault.LinkFault → Rose (L.faults link.old) (L.faults link.new) }
    {
        let to = wire.frame(alloc, number, &mut self.frame)?;
        self.index.add(to, self.frame.as_slice(), number)?;
        match link.send(to, self.frame.as_slice()) {
            Ok(()) => {
                self.sent = number + 1;
                Ok(())
            }
            Err(fault) => Err(uncarried(fault)),
        }
    }

    /// The message that arrives next, by its number; None where nothing arrives.
    pub(crate) fn next<L: Link>(
        &mut self,
        alloc: Global,
        wire: &LinkWire,
        link: &mut L,
    ) -> Result<Option<u32>, LoopFault>
        requires mail { IsMail self.old wire.now.posts }
        requires all { self.old.sent ≡ length wire.now.posts }
        ensures mail { OnOk result (IsMail self.new wire.now.posts) }
        ensures sent { self.new.sent ≡ self.old.sent }
        ensures comes { Comes (carried wire.now.posts) (seen (L.sent link.old) (L.answers link.old) (L.honest link.old) (L.faithful link.old)) (seen (L.sent link.new) (L.answers link.new) (L.honest link.new) (L.faithful link.new)) result }

        ensures faults_stay { L.faults link.old ≤ L.faults link.new }
        ensures failed { IsErrOf result LoopFault.LinkFault → Rose (L.faults link.old) (L.faults link.new) }
    {
        match link.next(self.buffer.as_mut_slice()) {
            Ok(Arrival::Nothing) => Ok(None),
            Ok(Arrival::Frame { to, len }) => {
                let number = self.place(alloc, wire, to, len)?;
                Ok(Some(number))
            }
            Err(fault) => Err(uncarried(fault)),
        }
    }

    /// The number of the first message that a frame in the buffer can be.
    #[tactic(auto, using(crate::proofs::Sending::all_told))]
    fn place(
        &mut self,
        alloc: Global,
        wire: &LinkWire,
        to: u16,
        len: usize,
    ) -> Result<u32, LoopFault>
        requires mail { IsMail self.old wire.now.posts }
        requires all { self.old.sent ≡ length wire.now.posts }
        requires short { len ≤ 8192 }
        ensures mail { IsMail self.new wire.now.posts }
        ensures sent { self.new.sent ≡ self.old.sent }
        ensures places { Places (carried wire.now.posts) (record { to = to; frame = take len self.old.buffer.items }) result }
    {
        let frame = &self.buffer.as_slice()[..len];
        match find(alloc, wire, &self.index, to, frame, &mut self.frame)? {
            Some(number) => Ok(number),
            None => Err(strange(alloc, to, frame)),
        }
    }
}
