//! The lines of a policy, read one after another.
ghost use Rattle.std.specs.Prelude.{◌≡◌, ◌++◌, ◌∷◌, ◌<◌, ◌≤◌, [], length, IfOk};
ghost use Rattle.workload.specs.World.{members_of};
ghost use Rattle.slo_rules.specs.PolicyReading.{blank, due_of, filled, FillsIn, next_of, TakesLine, policy_of};

use crate::entry::{hop_in, primary_in, quorum_in, replicas_in};
use crate::policy_line::{PolicyFault, PolicyLine, read_policy_line};
use crate::turn::{Due, due_hop, due_primary, due_quorum};
use span_base::{DcSet, Hop, Listed, Near, Policy, Quorum, SetId};
use std::alloc::{AllocError, Global};
use std::marker::Model;
use workload::{Mode, World};

/// Whether more lines are due.
#[derive(Clone, Copy, Debug, PartialEq, Eq)]
pub enum Next {
    /// The policy lacks a line.
    More,
    /// The policy is whole.
    Done,
}

/// The greatest number of members of a set.
const MEMBERS: usize = 8;
/// The greatest number of hops: one for each member and centre.
const HOPS: usize = 128;

/// Reads the lines of a set's policy, one after another, and keeps none of them.
#[derive(Debug, Drop)]
pub struct PolicyReader {
    set: SetId,
    replicas: Option<DcSet>,
    primary: Vec<Near>,
    hops: Vec<Hop>,
    quorums: Vec<Quorum>,
}

impl Model for PolicyReader {
    ghost use Rattle.std.specs.Prelude.{◌≤◌, vec_capacity};
    ghost use Rattle.slo_rules.specs.PolicyReading.{Draft};
    ghost use Rattle.slo_rules.specs.Rooms.{HasRoom};

    ghost Value = { Draft };

    ghost view = { λ r. record {
      set = r.set.0;
      replicas = r.replicas;
      primary = r.primary.items;
      hops = r.hops.items;
      quorums = r.quorums.items;
    } };

    ghost invariant = { λ r. HasRoom (vec_capacity r.primary) (vec_capacity r.hops) (vec_capacity r.quorums) };
}

fn next_of(due: Option<Due>) -> Next
    ensures { result ≡ next_of due }
{
    match due {
        Some(_) => Next::More,
        None => Next::Done,
    }
}

impl PolicyReader {
    /// A reader of the policy of a set, with room for all that its lines say. Past this it takes
    /// no memory.
    pub fn make(alloc: Global, set: SetId) -> Result<PolicyReader, AllocError>
        ensures { IfOk result (λ r. r ≡ blank set.0) }
    {
        Ok(PolicyReader {
            set,
            replicas: None,
            primary: Vec::with_capacity(alloc, MEMBERS)?,
            hops: Vec::with_capacity(alloc, HOPS)?,
            quorums: Vec::with_capacity(alloc, MEMBERS)?,
        })
    }

    /// The line that comes next; none where the policy is whole.
    fn due(&self, world: &World) -> Option<Due>
        requires { self.now.set < length world.now.sets }
        ensures due { result ≡ due_of world.now self.now }
        ensures few { length (members_of world.now self.now.set) ≤ 8 }
    {
        let members = world.members(self.set);
        let Some(replicas) = self.replicas else {
            return Some(Due::Replicas);
        };
        match world.rule(self.set).mode {
            Mode::Direct => due_primary(members, self.primary.len()),
            Mode::Relay => match due_primary(members, self.primary.len()) {
                Some(due) => Some(due),
                None => due_hop(members, &replicas, self.hops.len()),
            },
            Mode::Strong => due_quorum(members, self.quorums.len()),
        }
    }

    fn push_primary(&mut self, near: Near)
        requires { length self.old.primary < 8 }
        ensures { self.new ≡ record self.old { primary = self.old.primary ++ near ∷ [] } }
    {
        // There is room for all.
        let Ok(()) = self.primary.push(near) else {
            unreachable!()
        };
    }

    fn push_hop(&mut self, hop: Hop)
        requires { length self.old.hops < 128 }
        ensures { self.new ≡ record self.old { hops = self.old.hops ++ hop ∷ [] } }
    {
        let Ok(()) = self.hops.push(hop) else {
            unreachable!()
        };
    }

    fn push_quorum(&mut self, quorum: Quorum)
        requires { length self.old.quorums < 8 }
        ensures { self.new ≡ record self.old { quorums = self.old.quorums ++ quorum ∷ [] } }
    {
        let Ok(()) = self.quorums.push(quorum) else {
            unreachable!()
        };
    }

    /// Takes what a line says, by the line that is due.
    fn fill(&mut self, world: &World, said: PolicyLine) -> Result<(), PolicyFault>
        requires { self.old.set < length world.now.sets }
        ensures filled { FillsIn self.new self.old result (filled self.old said (due_of world.now self.old)) }
        ensures set { self.new.set ≡ self.old.set }
    {
        match self.due(world) {
            Some(Due::Replicas) => {
                self.replicas = Some(replicas_in(said)?);
                Ok(())
            }
            Some(Due::Primary(turn)) => {
                self.push_primary(primary_in(turn, said)?);
                Ok(())
            }
            Some(Due::Hop { member, child }) => {
                self.push_hop(hop_in(member, child, said)?);
                Ok(())
            }
            Some(Due::Quorum(turn)) => {
                self.push_quorum(quorum_in(turn, said)?);
                Ok(())
            }
            None => Err(PolicyFault::Kind),
        }
    }

    /// Takes the next line, without its line feed, and tells whether more lines are due. The first
    /// fault is told: the line's form comes first, and then what it says from left to right. A
    /// line that is refused changes nothing. Past the last line each is refused.
    #[tactic(auto, unfolding(crate::specs::PolicyReading::step))]
    pub fn take(&mut self, world: &World, line: &[u8]) -> Result<Next, PolicyFault>
        requires { self.old.set < length world.now.sets }
        ensures takes { TakesLine world.now self.old line.now self.new result }
        ensures set { self.new.set ≡ self.old.set }
    {
        let said = read_policy_line(world, line)?;
        self.fill(world, said)?;
        Ok(next_of(self.due(world)))
    }

    /// The policy, where no line is due any more. It takes no memory.
    pub fn into_policy(self, world: &World) -> Option<Policy>
        requires { self.set < length world.now.sets }
        ensures { result ≡ policy_of world.now self }
    {
        if self.due(world).is_some() {
            return None;
        }
        let rule = world.rule(self.set);
        let PolicyReader {
            replicas,
            primary,
            hops,
            quorums,
            ..
        } = self;
        let replicas = replicas?;
        let f = rule.f;
        Some(match rule.mode {
            Mode::Direct => Policy::Direct {
                f,
                replicas,
                primary: Listed::from_vec(primary),
            },
            Mode::Relay => Policy::Relay {
                f,
                replicas,
                primary: Listed::from_vec(primary),
                parent: Listed::from_vec(hops),
            },
            Mode::Strong => Policy::Strong {
                f,
                replicas,
                members: Listed::from_vec(quorums),
            },
        })
    }
}
