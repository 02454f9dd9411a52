ghost use Rattle.wire_msg.specs.Gives.{GivesKind};

use crate::fault::Fault;
use crate::message::Message;
use crate::reader::Reader;
use std::alloc::Global;

impl Reader<'_> {
    #[tactic(auto, unfolding(crate::specs::Faults::kind_at, crate::specs::Faults::fields_at, crate::specs::Faults::field_at))]
    pub(crate) fn have(&mut self, alloc: Global) -> Result<Message, Fault>
        ensures { GivesKind 11 result self.new.rest.now self.old.rest.now }
    {
        Ok(Message::Have {
            tag: self.tag()?,
            replica: self.replica()?,
            version: self.stamp()?,
            mark: self.stamp()?,
            value: self.value(alloc)?,
        })
    }

    #[tactic(auto, unfolding(crate::specs::Faults::kind_at, crate::specs::Faults::fields_at, crate::specs::Faults::field_at))]
    pub(crate) fn yes(&mut self) -> Result<Message, Fault>
        ensures { GivesKind 12 result self.new.rest.now self.old.rest.now }
    {
        Ok(Message::Yes {
            tag: self.tag()?,
            replica: self.replica()?,
        })
    }

    #[tactic(auto, unfolding(crate::specs::Faults::kind_at, crate::specs::Faults::fields_at, crate::specs::Faults::field_at))]
    pub(crate) fn held(&mut self) -> Result<Message, Fault>
        ensures { GivesKind 13 result self.new.rest.now self.old.rest.now }
    {
        Ok(Message::Held {
            tag: self.tag()?,
            replica: self.replica()?,
            stamp: self.stamp()?,
        })
    }

    #[tactic(auto, unfolding(crate::specs::Faults::kind_at, crate::specs::Faults::fields_at, crate::specs::Faults::field_at))]
    pub(crate) fn gone(&mut self) -> Result<Message, Fault>
        ensures { GivesKind 14 result self.new.rest.now self.old.rest.now }
    {
        Ok(Message::Gone {
            tag: self.tag()?,
            replica: self.replica()?,
            epoch: self.word(0)?,
        })
    }

    #[tactic(auto, unfolding(crate::specs::Faults::kind_at, crate::specs::Faults::fields_at, crate::specs::Faults::field_at))]
    pub(crate) fn here(&mut self, alloc: Global) -> Result<Message, Fault>
        ensures { GivesKind 15 result self.new.rest.now self.old.rest.now }
    {
        Ok(Message::Here {
            tag: self.tag()?,
            key: self.key()?,
            epoch: self.word(1)?,
            policy: self.policy(alloc)?,
            latest_epoch: self.word(1)?,
            latest_policy: self.policy(alloc)?,
        })
    }

    #[tactic(auto, unfolding(crate::specs::Faults::kind_at, crate::specs::Faults::fields_at, crate::specs::Faults::field_at))]
    pub(crate) fn switched(&mut self) -> Result<Message, Fault>
        ensures { GivesKind 16 result self.new.rest.now self.old.rest.now }
    {
        Ok(Message::Switched {
            tag: self.tag()?,
            key: self.key()?,
            done: self.flag()?,
            epoch: self.word(1)?,
        })
    }
}
