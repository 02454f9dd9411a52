//! A line of a policy, read from left to right.
ghost use Rattle.std.specs.Prelude.{◌≡◌, ◌<◌, ◌≤◌, length, IfOk, IfErr, IfSome, OnOk};
ghost use Rattle.span_base.specs.Name.{is_name_byte};
ghost use Rattle.slo_rules.specs.PolicyLines.{name_len, centre_named, behind, name_at, centre_at, with_centre, is_over, list_at, replicas_at, primary_at, parent_at, quorum_at, form_at};
ghost use Rattle.slo_rules.specs.Gives.{Gives, Passes};

use crate::policy_line::{PolicyFault, PolicyLine};
use crate::shape::lies_below;
use span_base::{CENTRES, DcId, DcSet, NAME_BYTES, read_name};
use workload::World;

fn fits_name(byte: u8) -> bool
    ensures { result ≡ is_name_byte byte }
{
    read_name(&[byte]).is_ok()
}

/// How many of the first 32 bytes a name takes from the front on.
#[tactic(auto, using(crate::proofs::NameLens::name_lens))]
fn name_len(text: &[u8]) -> usize
    ensures len { result ≡ name_len text.now }
    ensures within { result ≤ length text.now }
{
    for (at, byte) in text.iter().enumerate() {
        if at == NAME_BYTES {
            return at;
        }
        if !fits_name(*byte) {
            return at;
        }
    }
    text.len()
}

/// The centres so far and one more, which has to stand behind them in the world.
fn with_centre(
    so_far: Result<DcSet, PolicyFault>,
    centre: Option<DcId>,
) -> Result<DcSet, PolicyFault>
    requires { IfSome centre (λ dc. dc.0 < CENTRES) }
    ensures { result ≡ with_centre so_far centre }
{
    let set = so_far?;
    let dc = centre.ok_or(PolicyFault::Unknown)?;
    if lies_below(dc.0, &set) {
        Ok(set.with(dc))
    } else {
        Err(PolicyFault::Order)
    }
}

/// Reads a line from left to right. A fault is the number of bytes that are left where the line
/// can't go on.
#[derive(Drop)]
pub(crate) struct LineReader<'a> {
    /// What isn't read yet.
    pub(crate) rest: &'a [u8],
}

impl LineReader<'_> {
    /// A word that has to stand here.
    #[tactic(auto, unfolding(crate::specs::PolicyLines::behind))]
    fn pass(&mut self, word: &[u8]) -> Result<(), usize>
        ensures passes { Passes result self.new.rest.now (behind word.now self.old.rest.now) }
        ensures within { length self.new.rest.now ≤ length self.old.rest.now }
        ensures left { IfErr result (λ left. left ≤ length self.old.rest.now) }
    {
        for byte in word {
            let Some((first, rest)) = self.rest.split_first() else {
                return Err(0);
            };
            if first != byte {
                return Err(self.rest.len());
            }
            self.rest = rest;
        }
        Ok(())
    }

    /// The name of a centre.
    #[tactic(auto, unfolding(crate::specs::PolicyLines::name_at))]
    fn name(&mut self, world: &World) -> Result<Option<DcId>, usize>
        ensures gives { Gives result self.new.rest.now (name_at world.now self.old.rest.now) }
        ensures known { IfOk result (λ centre. IfSome centre (λ dc. dc.0 < CENTRES)) }
        ensures within { length self.new.rest.now ≤ length self.old.rest.now }
        ensures shorter { OnOk result (length self.new.rest.now < length self.old.rest.now) }
        ensures left { IfErr result (λ left. left ≤ length self.old.rest.now) }
    {
        let len = name_len(self.rest);
        if len == 0 {
            return Err(self.rest.len());
        }
        let (name, rest) = self.rest.split_at(len);
        self.rest = rest;
        Ok(find(world, name))
    }

    /// A space and the name of a centre.
    #[tactic(auto, unfolding(crate::specs::PolicyLines::centre_at))]
    fn centre(&mut self, world: &World) -> Result<Option<DcId>, usize>
        ensures gives { Gives result self.new.rest.now (centre_at world.now self.old.rest.now) }
        ensures known { IfOk result (λ centre. IfSome centre (λ dc. dc.0 < CENTRES)) }
        ensures within { length self.new.rest.now ≤ length self.old.rest.now }
        ensures shorter { OnOk result (length self.new.rest.now < length self.old.rest.now) }
        ensures left { IfErr result (λ left. left ≤ length self.old.rest.now) }
    {
        self.pass(b" ")?;
        self.name(world)
    }

    /// Whether a list ends here: where a semicolon follows, or else at the end of the line.
    fn is_over(&self, closed: bool) -> bool
        ensures { result ≡ is_over closed self.now.rest.now }
    {
        if closed {
            self.rest.starts_with(b" ;")
        } else {
            self.rest.is_empty()
        }
    }

    /// A list of centres, of which there is one at least.
    #[tactic(auto, using(crate::proofs::CentreLists::centre_lists))]
    fn list(&mut self, world: &World, closed: bool) -> Result<Result<DcSet, PolicyFault>, usize>
        ensures gives { Gives result self.new.rest.now (list_at world.now closed self.old.rest.now) }
        ensures within { length self.new.rest.now ≤ length self.old.rest.now }
        ensures left { IfErr result (λ left. left ≤ length self.old.rest.now) }
    {
        let mut so_far = Ok(DcSet::empty());
        loop {
            let centre = self.centre(world)?;
            so_far = with_centre(so_far, centre);
            if self.is_over(closed) {
                return Ok(so_far);
            }
        }
    }

    #[tactic(auto, unfolding(crate::specs::PolicyLines::replicas_at))]
    fn replicas(&mut self, world: &World) -> Result<PolicyLine, usize>
        ensures gives { Gives result self.new.rest.now (replicas_at world.now self.old.rest.now) }
        ensures within { length self.new.rest.now ≤ length self.old.rest.now }
        ensures left { IfErr result (λ left. left ≤ length self.old.rest.now) }
    {
        self.pass(b"replicas")?;
        let list = self.list(world, false)?;
        Ok(PolicyLine::Replicas(list))
    }

    #[tactic(auto, unfolding(crate::specs::PolicyLines::primary_at))]
    fn primary(&mut self, world: &World) -> Result<PolicyLine, usize>
        ensures gives { Gives result self.new.rest.now (primary_at world.now self.old.rest.now) }
        ensures within { length self.new.rest.now ≤ length self.old.rest.now }
        ensures left { IfErr result (λ left. left ≤ length self.old.rest.now) }
    {
        self.pass(b"primary")?;
        let member = self.centre(world)?;
        let at = self.centre(world)?;
        Ok(PolicyLine::Primary { member, at })
    }

    #[tactic(auto, unfolding(crate::specs::PolicyLines::parent_at))]
    fn parent(&mut self, world: &World) -> Result<PolicyLine, usize>
        ensures gives { Gives result self.new.rest.now (parent_at world.now self.old.rest.now) }
        ensures within { length self.new.rest.now ≤ length self.old.rest.now }
        ensures left { IfErr result (λ left. left ≤ length self.old.rest.now) }
    {
        self.pass(b"parent")?;
        let member = self.centre(world)?;
        let child = self.centre(world)?;
        let parent = self.centre(world)?;
        Ok(PolicyLine::Parent {
            member,
            child,
            parent,
        })
    }

    #[tactic(auto, unfolding(crate::specs::PolicyLines::quorum_at))]
    fn quorum(&mut self, world: &World) -> Result<PolicyLine, usize>
        ensures gives { Gives result self.new.rest.now (quorum_at world.now self.old.rest.now) }
        ensures within { length self.new.rest.now ≤ length self.old.rest.now }
        ensures left { IfErr result (λ left. left ≤ length self.old.rest.now) }
    {
        self.pass(b"quorum")?;
        let member = self.centre(world)?;
        self.pass(b" read")?;
        let read = self.list(world, true)?;
        self.pass(b" ; write")?;
        let write = self.list(world, false)?;
        Ok(PolicyLine::Quorum {
            member,
            read,
            write,
        })
    }

    /// The form that the line begins as. What begins as none can't go on as a primary either.
    #[tactic(auto, unfolding(crate::specs::PolicyLines::form_at))]
    pub(crate) fn form(&mut self, world: &World) -> Result<PolicyLine, usize>
        ensures gives { Gives result self.new.rest.now (form_at world.now self.old.rest.now) }
        ensures within { length self.new.rest.now ≤ length self.old.rest.now }
        ensures left { IfErr result (λ left. left ≤ length self.old.rest.now) }
    {
        if self.rest.starts_with(b"r") {
            self.replicas(world)
        } else if self.rest.starts_with(b"q") {
            self.quorum(world)
        } else if self.rest.starts_with(b"pa") {
            self.parent(world)
        } else {
            self.primary(world)
        }
    }
}

/// The centre of this name, where the world has it.
fn find(world: &World, name: &[u8]) -> Option<DcId>
    ensures centre { result ≡ centre_named world.now name.now }
    ensures below { IfSome result (λ dc. dc.0 < CENTRES) }
{
    let tables = world.tables();
    let _few = tables.count();
    tables.find(name)
}
