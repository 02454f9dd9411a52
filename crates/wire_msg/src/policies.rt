ghost use Rattle.span_base.specs.DcSet.{centres_of};
ghost use Rattle.wire_msg.specs.Faults.{hops_at, lane_at, many_at, near_at, quorum_at, direct_at, relay_at, strong_at, members_at, policy_at};
ghost use Rattle.wire_msg.specs.Gives.{Gives, GivesMore, GivesLanes};

use crate::fault::Fault;
use crate::reader::Reader;
use span_base::{CENTRES, DcId, DcSet, Hop, Listed, Near, Policy, Quorum, is_sound};
use std::alloc::Global;

impl Reader<'_> {
    /// A sound policy. One that isn't is faulty at its first byte.
    #[tactic(auto, using(crate::proofs::SoundTest::sound_is), unfolding(crate::specs::Faults::policy_at))]
    pub(crate) fn policy(&mut self, alloc: Global) -> Result<Policy, Fault>
        ensures { Gives result self.new.rest.now (policy_at self.old.rest.now) }
    {
        let left = self.rest.len();
        let mode = self.byte(1, 3)?;
        let f = self.byte(0, 3)?;
        let replicas = self.set()?;
        let count = self.byte(1, 8)?;
        let policy = self.members(alloc, mode, f, replicas, count)?;
        if !is_sound(&policy) {
            return Err(Fault::Wrong { left });
        }
        Ok(policy)
    }

    #[tactic(auto, unfolding(crate::specs::Faults::members_at))]
    fn members(
        &mut self,
        alloc: Global,
        mode: u8,
        f: u8,
        replicas: DcSet,
        count: u8,
    ) -> Result<Policy, Fault>
        ensures { Gives result self.new.rest.now (members_at mode f replicas count self.old.rest.now) }
    {
        if mode == 1 {
            self.direct(alloc, f, replicas, count)
        } else if mode == 2 {
            self.relay(alloc, f, replicas, count)
        } else {
            self.strong(alloc, f, replicas, count)
        }
    }

    #[tactic(auto, unfolding(crate::specs::Faults::direct_at))]
    fn direct(&mut self, alloc: Global, f: u8, replicas: DcSet, count: u8) -> Result<Policy, Fault>
        ensures { Gives result self.new.rest.now (direct_at f replicas count self.old.rest.now) }
    {
        let primary = self.nears(alloc, count)?;
        Ok(Policy::Direct {
            f,
            replicas,
            primary,
        })
    }

    #[tactic(auto, unfolding(crate::specs::Faults::relay_at))]
    fn relay(&mut self, alloc: Global, f: u8, replicas: DcSet, count: u8) -> Result<Policy, Fault>
        ensures { Gives result self.new.rest.now (relay_at f replicas count self.old.rest.now) }
    {
        let mut parent = Listed::new(alloc);
        let primary = self.lanes(alloc, replicas, count, &mut parent)?;
        Ok(Policy::Relay {
            f,
            replicas,
            primary,
            parent,
        })
    }

    #[tactic(auto, unfolding(crate::specs::Faults::strong_at))]
    fn strong(&mut self, alloc: Global, f: u8, replicas: DcSet, count: u8) -> Result<Policy, Fault>
        ensures { Gives result self.new.rest.now (strong_at f replicas count self.old.rest.now) }
    {
        let members = self.quorums(alloc, count)?;
        Ok(Policy::Strong {
            f,
            replicas,
            members,
        })
    }

    #[tactic(auto, using(crate::proofs::Loops::loops))]
    fn nears(&mut self, alloc: Global, count: u8) -> Result<Listed<Near>, Fault>
        ensures { Gives result self.new.rest.now (many_at near_at count self.old.rest.now) }
    {
        let mut nears = Listed::new(alloc);
        for _ in 0..count {
            let near = self.near()?;
            nears.push(near)?;
        }
        Ok(nears)
    }

    #[tactic(auto, using(crate::proofs::Loops::loops))]
    fn quorums(&mut self, alloc: Global, count: u8) -> Result<Listed<Quorum>, Fault>
        ensures { Gives result self.new.rest.now (many_at quorum_at count self.old.rest.now) }
    {
        let mut quorums = Listed::new(alloc);
        for _ in 0..count {
            let quorum = self.quorum()?;
            quorums.push(quorum)?;
        }
        Ok(quorums)
    }

    /// The members with their primaries. Their hops come to the end of `hops`.
    #[tactic(auto, using(crate::proofs::Loops::loops))]
    fn lanes(
        &mut self,
        alloc: Global,
        replicas: DcSet,
        count: u8,
        hops: &mut Listed<Hop>,
    ) -> Result<Listed<Near>, Fault>
        ensures { GivesLanes hops.old hops.new result self.new.rest.now (many_at (lane_at replicas) count self.old.rest.now) }
    {
        let mut nears = Listed::new(alloc);
        for _ in 0..count {
            let near = self.near()?;
            self.hops(replicas, near.member, hops)?;
            nears.push(near)?;
        }
        Ok(nears)
    }

    /// Puts a member's hops to the replicas, in rising order, at the end of `hops`.
    fn hops(&mut self, replicas: DcSet, member: DcId, hops: &mut Listed<Hop>) -> Result<(), Fault>
        ensures { GivesMore hops.old hops.new result self.new.rest.now (hops_at member.0 (centres_of replicas) self.old.rest.now) }
    {
        for centre in 0..CENTRES {
            let child = DcId(centre);
            if replicas.has(child) {
                let parent = DcId(self.byte(0, 255)?);
                hops.push(Hop {
                    member,
                    child,
                    parent,
                })?;
            }
        }
        Ok(())
    }

    #[tactic(auto, unfolding(crate::specs::Faults::near_at))]
    fn near(&mut self) -> Result<Near, Fault>
        ensures { Gives result self.new.rest.now (near_at self.old.rest.now) }
    {
        let member = DcId(self.byte(0, 255)?);
        let at = DcId(self.byte(0, 255)?);
        Ok(Near { member, at })
    }

    #[tactic(auto, unfolding(crate::specs::Faults::quorum_at))]
    fn quorum(&mut self) -> Result<Quorum, Fault>
        ensures { Gives result self.new.rest.now (quorum_at self.old.rest.now) }
    {
        let dc = DcId(self.byte(0, 255)?);
        let read = self.set()?;
        let write = self.set()?;
        Ok(Quorum { dc, read, write })
    }
}
