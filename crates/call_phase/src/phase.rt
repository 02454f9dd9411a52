ghost use Rattle.std.specs.Prelude.{◌≡◌, ◌<◌, ◌≤◌, ◌+◌, IsTrue, ◌↔◌};
ghost use Rattle.call_phase.specs.Counting.{opened, counts, counts_without_replica, with_good, with_bad, has_quorum, is_lost, next_tag};

use span_base::{CENTRES, DcId, DcSet};
use wire_msg::Tag;

/// A phase of a call: the tag that its requests carry, the replicas that it asked, and those
/// whose answers counted so far, by what they answered.
#[derive(Clone, Copy, Debug, PartialEq, Eq)]
pub struct Phase {
    pub tag: Tag,
    pub asked: DcSet,
    /// Did as they were asked.
    pub good: DcSet,
    /// Refused.
    pub bad: DcSet,
}

impl Phase {
    /// A phase in which no answer counted yet.
    pub fn open(tag: Tag, asked: DcSet) -> Phase
        ensures { result ≡ opened tag asked }
    {
        Phase {
            tag,
            asked,
            good: DcSet::empty(),
            bad: DcSet::empty(),
        }
    }

    /// Whether an answer with this tag from this replica counts: its whole tag is the phase's, the
    /// replica was asked, and no answer of it counted in this phase.
    pub fn counts(&self, tag: &Tag, replica: DcId) -> bool
        ensures counts { result ≡ counts self.now tag.now replica }
        ensures limit { IsTrue result → replica.0 < CENTRES }
    {
        self.has_tag(tag)
            && self.asked.has(replica)
            && !self.good.has(replica)
            && !self.bad.has(replica)
    }

    /// Whether an answer of the directory counts, which has no replica: its whole tag is the
    /// phase's.
    pub fn has_tag(&self, tag: &Tag) -> bool
        ensures { result ≡ counts_without_replica self.now tag.now }
    {
        self.tag.call.proxy == tag.call.proxy
            && self.tag.call.seq == tag.call.seq
            && self.tag.slot == tag.slot
            && self.tag.generation == tag.generation
            && self.tag.phase == tag.phase
    }

    /// A good answer of the replica counts from now on.
    pub fn take_good(&mut self, replica: DcId)
        requires { replica.0 < CENTRES }
        ensures { self.new ≡ with_good self.old replica }
    {
        self.good = self.good.with(replica);
    }

    /// A refusal of the replica counts from now on.
    pub fn take_bad(&mut self, replica: DcId)
        requires { replica.0 < CENTRES }
        ensures { self.new ≡ with_bad self.old replica }
    {
        self.bad = self.bad.with(replica);
    }

    /// Whether all but at most `f` of the replicas asked did as they were asked.
    pub fn has_quorum(&self, f: u8) -> bool
        ensures { result ≡ has_quorum f self.now }
    {
        self.asked.count() <= self.good.count() + u32::from(f)
    }

    /// Whether more than `f` replicas refused.
    pub fn is_lost(&self, f: u8) -> bool
        ensures { result ≡ is_lost f self.now }
    {
        self.bad.count() > u32::from(f)
    }

    /// The tag of the phase that follows.
    pub fn next_tag(&self) -> Tag
        requires { self.now.tag.phase < 255 }
        ensures { result ≡ next_tag self.now.tag }
    {
        Tag {
            phase: self.tag.phase + 1,
            ..self.tag
        }
    }
}
