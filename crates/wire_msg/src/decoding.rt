ghost use Rattle.wire_msg.specs.Gives.{GivesKind, GivesMessage};
ghost use Rattle.wire_msg.specs.Laws.{Decodes};

use crate::fault::{Fault, FrameFault};
use crate::message::Message;
use crate::reader::Reader;
use std::alloc::Global;

/// The message that a frame is. A frame that is no message's is told by its first fault.
pub fn decode(alloc: Global, frame: &[u8]) -> Result<Message, FrameFault>
    ensures { Decodes frame.now result }
{
    match whole(alloc, frame) {
        Ok(message) => Ok(message),
        Err(Fault::Wrong { left }) => Err(FrameFault::BadFrame {
            at: frame.len() - left,
        }),
        Err(Fault::NoMemory(error)) => Err(FrameFault::NoMemory(error)),
    }
}

#[tactic(auto, unfolding(crate::specs::Faults::frame_at))]
fn whole(alloc: Global, frame: &[u8]) -> Result<Message, Fault>
    ensures { GivesMessage result frame.now }
{
    match frame {
        [] => Err(Fault::Wrong { left: 0 }),
        [kind, rest @ ..] => {
            let mut reader = Reader { rest };
            let message = reader.message(alloc, *kind)?;
            if !reader.rest.is_empty() {
                return Err(Fault::Wrong {
                    left: reader.rest.len(),
                });
            }
            Ok(message)
        }
    }
}

impl Reader<'_> {
    /// The fields of a message of this kind.
    #[tactic(auto, unfolding(crate::specs::Faults::kind_at))]
    fn message(&mut self, alloc: Global, kind: u8) -> Result<Message, Fault>
        ensures { GivesKind kind result self.new.rest.now self.old.rest.now }
    {
        match kind {
            1 => self.read(),
            2 => self.ask(),
            3 => self.store(alloc),
            4 => self.repair(alloc),
            5 => self.confirm(),
            6 => self.freeze(),
            7 => self.seed(alloc),
            8 => self.push(alloc),
            9 => self.lookup(),
            10 => self.switch(),
            11 => self.have(alloc),
            12 => self.yes(),
            13 => self.held(),
            14 => self.gone(),
            15 => self.here(alloc),
            16 => self.switched(),
            _ => Err(Fault::Wrong {
                left: self.rest.len() + 1,
            }),
        }
    }
}
