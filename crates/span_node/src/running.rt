ghost use Rattle.std.specs.Prelude.{◌≡◌, ◌<◌, ◌≤◌, List, length, IfOk, IfErr, IfSome, OnOk, IsErrOf};
ghost use Rattle.span_base.specs.Counts.{Rose};
ghost use Rattle.span_base.specs.declared.words.What.TheVariants as what;
ghost use Rattle.run_marks.specs.declared.mark.Mark.{Mark};
ghost use Rattle.world_core.specs.Run.{MayHappen};
ghost use Rattle.schedule_text.specs.Schedules.{Schedule};
ghost use Rattle.span_node.specs.Traffic.{Traffic, seen};
ghost use Rattle.span_node.specs.declared.fault.LoopFault.TheVariants.{Limit};
ghost use Rattle.span_node.specs.Faults.{IsOfStore};
ghost use Rattle.span_node.specs.Standing.{IsReady, Stands, IsResting, IsNext, Opens, Arrives, Takes, GoesOn};

use crate::fault::LoopFault;
use crate::link_wire::LinkWire;
use crate::mail::Mail;
use frame_link::Link;
use message_wire::Wire;
use replica_core::Replica;
use schedule_replay::refused_at;
use schedule_text::laws::schedules_may_happen;
use schedule_text::{Events, Form, Opening, read_schedule};
use span_base::What;
use std::alloc::Global;
use world_core::{Cloud, Event, Marks};

/// The most events, deliveries among them.
const EVENT_LIMIT: u32 = 1_000_000;

/// The loop of a script under way: the store, the script's events that are left, and what goes
/// over the link.
#[derive(Drop)]
pub(crate) struct Running<'a> {
    cloud: Cloud<LinkWire, Replica>,
    script: Events<'a>,
    mail: Mail,
    /// An event was taken, behind which the link is asked.
    begun: bool,
}

impl<'a> Running<'a> {
    /// The loop of a text's script before its first event. The whole text is read for it.
    pub(crate) fn open(alloc: Global, text: &'a [u8]) -> Result<Running<'a>, LoopFault>
        ensures opens { (link : Traffic) → Opens text.now link result }
        ensures ready { IfOk result IsReady }
        ensures no_write { IsErrOf result LoopFault.WriteFault → ⊥ }
        ensures no_link { IsErrOf result LoopFault.LinkFault → ⊥ }
    {
        let Opening { header, place } = read_schedule(alloc, text, Form::Script)?;
        schedules_may_happen();
        let script = Events::make(place, text);
        let cloud = Cloud::make(alloc, header, LinkWire::new(alloc))?;
        let mail = Mail::make(alloc)?;
        Ok(Running {
            cloud,
            script,
            mail,
            begun: false,
        })
    }

    /// The marks of the next event, or None behind the last: the delivery of what arrives, or the
    /// script's next event where nothing does. Behind a fault it isn't asked again.
    pub(crate) fn next<L: Link>(
        &mut self,
        alloc: Global,
        link: &mut L,
    ) -> Result<Option<Marks>, LoopFault>
        requires ready { IsReady self.old }
        ensures goes { (schedule : Schedule) (marks : List Mark) (from : Traffic) → Stands schedule marks from (seen (L.sent link.old) (L.answers link.old) (L.honest link.old) (L.faithful link.old)) self.old → GoesOn schedule marks from (seen (L.sent link.new) (L.answers link.new) (L.honest link.new) (L.faithful link.new)) self.new result }
        ensures ready { IfOk result (λ _. IsReady self.new) }
        ensures more { IfOk result (λ next. IfSome next (λ _. self.old.cloud.events < self.new.cloud.events)) }
        ensures no_write { IsErrOf result LoopFault.WriteFault → ⊥ }

        ensures faults_stay { L.faults link.old ≤ L.faults link.new }
        ensures failed { IsErrOf result LoopFault.LinkFault → Rose (L.faults link.old) (L.faults link.new) }
    {
        match self.arrival(alloc, link)? {
            Some(message) => {
                let marks = self.take(alloc, &Event::Deliver { message })?;
                Ok(Some(marks))
            }
            None => self.next_of_script(alloc),
        }
    }

    /// The message that arrives, by its number, once the link was given all; None where nothing
    /// does, or no event was taken yet.
    fn arrival<L: Link>(&mut self, alloc: Global, link: &mut L) -> Result<Option<u32>, LoopFault>
        requires ready { IsReady self.old }
        ensures arrives { (schedule : Schedule) (marks : List Mark) (from : Traffic) → Stands schedule marks from (seen (L.sent link.old) (L.answers link.old) (L.honest link.old) (L.faithful link.old)) self.old → Arrives schedule marks from (seen (L.sent link.new) (L.answers link.new) (L.honest link.new) (L.faithful link.new)) self.new result }
        ensures ready { IfOk result (λ _. IsReady self.new) }
        ensures cloud { self.new.cloud ≡ self.old.cloud }
        ensures no_write { IsErrOf result LoopFault.WriteFault → ⊥ }

        ensures faults_stay { L.faults link.old ≤ L.faults link.new }
        ensures failed { IsErrOf result LoopFault.LinkFault → Rose (L.faults link.old) (L.faults link.new) }
    {
        if !self.begun {
            return Ok(None);
        }
        self.mail.send_all(alloc, self.cloud.wire(), link)?;
        self.mail.next(alloc, self.cloud.wire(), link)
    }

    /// The marks of the script's next event, or None behind the last.
    fn next_of_script(&mut self, alloc: Global) -> Result<Option<Marks>, LoopFault>
        requires ready { IsReady self.old }
        ensures goes { (schedule : Schedule) (marks : List Mark) (from now : Traffic) → IsResting schedule marks from now self.old → GoesOn schedule marks from now self.new result }
        ensures ready { IfOk result (λ _. IsReady self.new) }
        ensures more { IfOk result (λ next. IfSome next (λ _. self.old.cloud.events < self.new.cloud.events)) }
        ensures of_store { IfErr result IsOfStore }
    {
        let Some(event) = self.script.next(alloc)? else {
            return Ok(None);
        };
        let marks = self.take(alloc, &event)?;
        Ok(Some(marks))
    }

    /// The marks of the next event, whichever it is.
    fn take(&mut self, alloc: Global, event: &Event) -> Result<Marks, LoopFault>
        requires ready { IsReady self.old }
        requires event { MayHappen self.old.cloud.store event.now }
        ensures takes { (schedule : Schedule) (marks : List Mark) (from now : Traffic) → IsNext schedule marks from now self.old event.now → Takes schedule marks from now self.new result }
        ensures ready { IfOk result (λ _. IsReady self.new) }
        ensures more { OnOk result (self.old.cloud.events < self.new.cloud.events) }
        ensures of_store { IfErr result IsOfStore }
    {
        if self.cloud.events() >= EVENT_LIMIT {
            return Err(full(self.script.line()));
        }
        match self.cloud.step_in_memory(alloc, event) {
            Ok(marks) => {
                self.begun = true;
                Ok(marks)
            }
            Err(fault) => Err(refused_at(self.script.line(), fault).into()),
        }
    }

    /// How many messages were sent.
    pub(crate) fn messages(&self) -> u32
        ensures { result ≡ length self.now.cloud.store.sent }
    {
        self.cloud.wire().sent()
    }
}

/// What is told of an event that would be one too many.
fn full(line: u64) -> LoopFault
    ensures { result ≡ Limit line what.Events 1000001 }
{
    LoopFault::Limit {
        line,
        what: What::Events,
        number: u128::from(EVENT_LIMIT) + 1,
    }
}
