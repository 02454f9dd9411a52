ghost use Rattle.wire_msg.specs.Gives.{GivesKind};

use crate::fault::Fault;
use crate::message::Message;
use crate::reader::Reader;
use std::alloc::Global;

impl Reader<'_> {
    #[tactic(auto, unfolding(crate::specs::Faults::kind_at, crate::specs::Faults::fields_at, crate::specs::Faults::field_at))]
    pub(crate) fn read(&mut self) -> Result<Message, Fault>
        ensures { GivesKind 1 result self.new.rest.now self.old.rest.now }
    {
        Ok(Message::Read {
            tag: self.tag()?,
            key: self.key()?,
            epoch: self.word(1)?,
        })
    }

    #[tactic(auto, unfolding(crate::specs::Faults::kind_at, crate::specs::Faults::fields_at, crate::specs::Faults::field_at))]
    pub(crate) fn ask(&mut self) -> Result<Message, Fault>
        ensures { GivesKind 2 result self.new.rest.now self.old.rest.now }
    {
        Ok(Message::Ask {
            tag: self.tag()?,
            key: self.key()?,
            stamp: self.stamp()?,
        })
    }

    #[tactic(auto, unfolding(crate::specs::Faults::kind_at, crate::specs::Faults::fields_at, crate::specs::Faults::field_at))]
    pub(crate) fn store(&mut self, alloc: Global) -> Result<Message, Fault>
        ensures { GivesKind 3 result self.new.rest.now self.old.rest.now }
    {
        Ok(Message::Store {
            tag: self.tag()?,
            key: self.key()?,
            stamp: self.stamp()?,
            value: self.value(alloc)?,
        })
    }

    #[tactic(auto, unfolding(crate::specs::Faults::kind_at, crate::specs::Faults::fields_at, crate::specs::Faults::field_at))]
    pub(crate) fn repair(&mut self, alloc: Global) -> Result<Message, Fault>
        ensures { GivesKind 4 result self.new.rest.now self.old.rest.now }
    {
        Ok(Message::Repair {
            tag: self.tag()?,
            key: self.key()?,
            epoch: self.word(1)?,
            stamp: self.stamp()?,
            value: self.value(alloc)?,
        })
    }

    #[tactic(auto, unfolding(crate::specs::Faults::kind_at, crate::specs::Faults::fields_at, crate::specs::Faults::field_at))]
    pub(crate) fn confirm(&mut self) -> Result<Message, Fault>
        ensures { GivesKind 5 result self.new.rest.now self.old.rest.now }
    {
        Ok(Message::Confirm {
            tag: self.tag()?,
            key: self.key()?,
            stamp: self.stamp()?,
        })
    }

    #[tactic(auto, unfolding(crate::specs::Faults::kind_at, crate::specs::Faults::fields_at, crate::specs::Faults::field_at))]
    pub(crate) fn freeze(&mut self) -> Result<Message, Fault>
        ensures { GivesKind 6 result self.new.rest.now self.old.rest.now }
    {
        Ok(Message::Freeze {
            tag: self.tag()?,
            key: self.key()?,
            epoch: self.word(1)?,
        })
    }

    #[tactic(auto, unfolding(crate::specs::Faults::kind_at, crate::specs::Faults::fields_at, crate::specs::Faults::field_at))]
    pub(crate) fn seed(&mut self, alloc: Global) -> Result<Message, Fault>
        ensures { GivesKind 7 result self.new.rest.now self.old.rest.now }
    {
        Ok(Message::Seed {
            tag: self.tag()?,
            key: self.key()?,
            epoch: self.word(1)?,
            stamp: self.stamp()?,
            value: self.value(alloc)?,
        })
    }

    #[tactic(auto, unfolding(crate::specs::Faults::kind_at, crate::specs::Faults::fields_at, crate::specs::Faults::field_at))]
    pub(crate) fn push(&mut self, alloc: Global) -> Result<Message, Fault>
        ensures { GivesKind 8 result self.new.rest.now self.old.rest.now }
    {
        Ok(Message::Push {
            tag: self.tag()?,
            key: self.key()?,
            stamp: self.stamp()?,
            onward: self.set()?,
            value: self.value(alloc)?,
        })
    }

    #[tactic(auto, unfolding(crate::specs::Faults::kind_at, crate::specs::Faults::fields_at, crate::specs::Faults::field_at))]
    pub(crate) fn lookup(&mut self) -> Result<Message, Fault>
        ensures { GivesKind 9 result self.new.rest.now self.old.rest.now }
    {
        Ok(Message::Lookup {
            tag: self.tag()?,
            key: self.key()?,
        })
    }

    #[tactic(auto, unfolding(crate::specs::Faults::kind_at, crate::specs::Faults::fields_at, crate::specs::Faults::field_at))]
    pub(crate) fn switch(&mut self) -> Result<Message, Fault>
        ensures { GivesKind 10 result self.new.rest.now self.old.rest.now }
    {
        Ok(Message::Switch {
            tag: self.tag()?,
            key: self.key()?,
            closing: self.word(1)?,
            opening: self.word(1)?,
        })
    }
}
