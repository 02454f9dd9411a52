ghost use Rattle.std.specs.Prelude.{◌≡◌, ◌<◌, List, length, IfOk, IfSome, IsErrOf};
ghost use Rattle.run_marks.specs.declared.mark.Mark.{Mark};
ghost use Rattle.schedule_text.specs.Kept.{KeptSchedule};
ghost use Rattle.restart_replay.specs.Standing.{IsReady, Stands, Opens, Goes};

use crate::store::KeptStore;
use schedule_replay::{ReplayFault, refused_at};
use schedule_text::laws::kept_schedules_may_happen;
use schedule_text::{KeptEvents, Opening, read_kept_schedule};
use std::alloc::Global;
use world_core::Marks;

/// A restart run under way: the store, and the events that are left.
#[derive(Drop)]
pub(crate) struct Running<'a> {
    store: KeptStore,
    events: KeptEvents<'a>,
}

impl<'a> Running<'a> {
    /// The run of a text's schedule before its first event. The whole text is read for it.
    pub(crate) fn open(alloc: Global, text: &'a [u8]) -> Result<Running<'a>, ReplayFault>
        ensures opens { Opens text.now result }
        ensures ready { IfOk result (λ running. IsReady running) }
    {
        let Opening { header, place } = read_kept_schedule(alloc, text)?;
        kept_schedules_may_happen();
        let events = KeptEvents::make(place, text);
        let store = KeptStore::make(alloc, header)?;
        Ok(Running { store, events })
    }

    /// The marks of the next event, or None behind the last. Behind an event that wasn't taken it
    /// isn't asked again.
    pub(crate) fn next(&mut self, alloc: Global) -> Result<Option<Marks>, ReplayFault>
        requires ready { IsReady self.old }
        ensures goes { (schedule : KeptSchedule) (marks : List Mark) → Stands schedule self.old marks → Goes schedule marks self.new result }
        ensures ready { IfOk result (λ _. IsReady self.new) }
        ensures fewer { IfOk result (λ next. IfSome next (λ _. length self.new.events.events < length self.old.events.events)) }
        ensures no_write { IsErrOf result ReplayFault.WriteFault → ⊥ }
    {
        let Some(event) = self.events.next(alloc)? else {
            return Ok(None);
        };
        match self.store.take(alloc, &event) {
            Ok(marks) => Ok(Some(marks)),
            Err(fault) => Err(refused_at(self.events.line(), fault)),
        }
    }

    /// How many messages were sent.
    pub(crate) fn messages(&self) -> u32
        ensures { result ≡ length self.now.store.cloud.store.sent }
    {
        self.store.messages()
    }
}
