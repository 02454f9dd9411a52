//! How a message that was sent comes to its actor.

ghost use Rattle.std.specs.Prelude.{◌≡◌, ◌<◌, length};
ghost use Rattle.wire_msg.specs.Lawful.{IsLawful};
ghost use Rattle.wire_msg.specs.declared.actor.Actor.TheVariants as to;
ghost use Rattle.world_core.specs.declared.event.Event.TheVariants.{Deliver};
ghost use Rattle.world_core.specs.Step.{deliver_to};
ghost use Rattle.world_core.specs.Ends.{StepEnds, EndsAs, taken_by_replica};
ghost use Rattle.world_core.specs.Proxies.{IsOfKeyBelow};

use crate::cloud::Cloud;
use crate::event::StepFault;
use crate::handing::{hand_to_directory, hand_to_proxy, hand_to_replica};
use crate::marks::Marks;
use message_wire::Wire;
use replica_core::Taker;
use std::alloc::Global;
use wire_msg::{Actor, Message, Post};

impl<W: Wire, T: Taker> Cloud<W, T> {
    /// The message of this number comes to its actor.
    pub(crate) fn deliver(&mut self, alloc: Global, number: u32) -> Result<Marks, StepFault>
        requires { self.old.events < 1000000 }
        ensures { StepEnds self.old self.new (Deliver number) result }
    {
        let Some(post) = self.wire.pick(alloc, number)? else {
            return Err(StepFault::NoMessage {
                sent: self.wire.sent(),
            });
        };
        self.hand_over(alloc, &post)
    }

    fn hand_over(&mut self, alloc: Global, post: &Post) -> Result<Marks, StepFault>
        requires few { self.old.events < 1000000 }
        requires lawful { IsLawful post.now.message }
        requires key { IsOfKeyBelow (length self.old.store.directory.sets) post.now.message }
        ensures { EndsAs self.old self.new (taken_by_replica self.old.store post.now.to post.now.message) (deliver_to self.old.store post.now.to post.now.message) result }
    {
        match post.to {
            Actor::Replica(replica) => self.deliver_to_replica(alloc, replica, &post.message),
            Actor::Directory => self.deliver_to_directory(alloc, &post.message),
            Actor::Proxy(proxy) => self.deliver_to_proxy(alloc, proxy, &post.message),
        }
    }

    fn deliver_to_replica(
        &mut self,
        alloc: Global,
        number: u8,
        message: &Message,
    ) -> Result<Marks, StepFault>
        requires few { self.old.events < 1000000 }
        requires lawful { IsLawful message.now }
        requires key { IsOfKeyBelow (length self.old.store.directory.sets) message.now }
        ensures { EndsAs self.old self.new (taken_by_replica self.old.store (to.Replica number) message.now) (deliver_to self.old.store (to.Replica number) message.now) result }
    {
        let place = usize::from(number);
        if place >= self.replicas.len() || self.replicas[place].stopped {
            self.events += 1;
            return Ok(Marks::none());
        }
        let taker = &mut self.replicas[place].taker;
        match hand_to_replica(taker, &mut self.wire, alloc, message) {
            Ok(marks) => {
                self.events += 1;
                Ok(marks)
            }
            Err(fault) => Err(fault),
        }
    }

    fn deliver_to_directory(&mut self, alloc: Global, message: &Message) -> Result<Marks, StepFault>
        requires few { self.old.events < 1000000 }
        requires lawful { IsLawful message.now }
        requires key { IsOfKeyBelow (length self.old.store.directory.sets) message.now }
        ensures { EndsAs self.old self.new (taken_by_replica self.old.store to.Directory message.now) (deliver_to self.old.store to.Directory message.now) result }
    {
        match hand_to_directory(&mut self.directory, &mut self.wire, alloc, message) {
            Ok(marks) => {
                self.events += 1;
                Ok(marks)
            }
            Err(fault) => Err(fault),
        }
    }

    fn deliver_to_proxy(
        &mut self,
        alloc: Global,
        number: u8,
        message: &Message,
    ) -> Result<Marks, StepFault>
        requires few { self.old.events < 1000000 }
        requires lawful { IsLawful message.now }
        requires key { IsOfKeyBelow (length self.old.store.directory.sets) message.now }
        ensures { EndsAs self.old self.new (taken_by_replica self.old.store (to.Proxy number) message.now) (deliver_to self.old.store (to.Proxy number) message.now) result }
    {
        let place = usize::from(number);
        if place >= self.proxies.len() || self.proxies[place].is_stopped() {
            self.events += 1;
            return Ok(Marks::none());
        }
        let proxy = &mut self.proxies[place];
        match hand_to_proxy(proxy, &mut self.wire, alloc, message) {
            Ok(marks) => {
                self.events += 1;
                Ok(marks)
            }
            Err(fault) => Err(fault),
        }
    }
}
