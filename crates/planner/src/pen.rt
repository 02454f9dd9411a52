ghost use Rattle.std.specs.Prelude.{◌≡◌, ◌≤◌, ◌<◌, ◌++◌, [], ℕ, List, Option, Some, None, codes, length, IfOk, IsErrOf, MatchResult};
ghost use Rattle.span_base.specs.Counts.{Rose};
ghost use Rattle.span_base.specs.Taken.{Appends};
ghost use Rattle.sink_buffer.specs.Said.{IsSaid, IsFrontTaken};
ghost use Rattle.slo_rules.specs.PolicyText.{policy_text, NamesCentres};
ghost use Rattle.plan_text.specs.PlanText.{set_line, tree_line, cost_line, cut_line};
ghost use Rattle.planner.specs.Writes.{Tells};

use crate::PlanFault;
use bound_cert::Line;
use plan_text::{push_begin, push_cost, push_cut, push_end, push_none, push_set, push_tree_line};
use sink_buffer::SinkBuffer;
use slo_rules::push_policy;
use span_base::{Policy, SetId, Sink};
use std::alloc::{AllocError, Global};
use std::marker::Model;
use workload::World;

/// Writes a plan line by line, through a buffer. A line's memory serves the next.
#[derive(Debug, Drop)]
pub struct Pen {
    buffer: SinkBuffer,
    line: String,
}

impl Model for Pen {
    ghost use Rattle.std.specs.Prelude.{List, ℕ};

    ghost Value = { List ℕ };

    ghost view = { λ p. p.buffer };
}

impl Pen {
    /// A pen that wrote nothing.
    pub fn make(alloc: Global) -> Result<Pen, AllocError>
        ensures { IfOk result (λ pen. pen ≡ []) }
    {
        Ok(Pen {
            buffer: SinkBuffer::make(alloc)?,
            line: String::new(alloc),
        })
    }

    /// Puts the first line of a plan.
    pub(crate) fn put_begin<K: Sink>(&mut self, out: &mut K) -> Result<(), PlanFault>
        ensures tells { (from : Option (List ℕ)) (text : List ℕ) → IsSaid from (K.taken out.old) self.old text
            → Tells from (K.taken out.new) self.new (text ++ codes "span-plan 1\n") result }

        ensures faults_stay { K.faults out.old ≤ K.faults out.new }
        ensures failed { IsErrOf result PlanFault.WriteFault → Rose (K.faults out.old) (K.faults out.new) }
    {
        self.line.clear();
        push_begin(&mut self.line)?;
        put_line(&mut self.buffer, out, &self.line)
    }

    /// Puts the line that begins the part of a set, whose program has so many variables.
    pub(crate) fn put_set<K: Sink>(
        &mut self,
        out: &mut K,
        world: &World,
        set: SetId,
        variables: usize,
    ) -> Result<(), PlanFault>
        requires { set.0 < length world.now.sets }
        ensures tells { (from : Option (List ℕ)) (text : List ℕ) → IsSaid from (K.taken out.old) self.old text
            → Tells from (K.taken out.new) self.new (text ++ set_line world.now set.0 variables) result }

        ensures faults_stay { K.faults out.old ≤ K.faults out.new }
        ensures failed { IsErrOf result PlanFault.WriteFault → Rose (K.faults out.old) (K.faults out.new) }
    {
        self.line.clear();
        push_set(&mut self.line, world, set, variables)?;
        put_line(&mut self.buffer, out, &self.line)
    }

    /// Puts a line of a tree.
    pub fn put_tree_line<K: Sink>(&mut self, out: &mut K, line: &Line) -> Result<(), PlanFault>
        ensures tells { (from : Option (List ℕ)) (text : List ℕ) → IsSaid from (K.taken out.old) self.old text
            → Tells from (K.taken out.new) self.new (text ++ tree_line line.now) result }

        ensures faults_stay { K.faults out.old ≤ K.faults out.new }
        ensures failed { IsErrOf result PlanFault.WriteFault → Rose (K.faults out.old) (K.faults out.new) }
    {
        self.line.clear();
        push_tree_line(&mut self.line, line)?;
        put_line(&mut self.buffer, out, &self.line)
    }

    /// Puts the result of a set that has no policy.
    pub(crate) fn put_none<K: Sink>(&mut self, out: &mut K) -> Result<(), PlanFault>
        ensures tells { (from : Option (List ℕ)) (text : List ℕ) → IsSaid from (K.taken out.old) self.old text
            → Tells from (K.taken out.new) self.new (text ++ codes "result none\n") result }

        ensures faults_stay { K.faults out.old ≤ K.faults out.new }
        ensures failed { IsErrOf result PlanFault.WriteFault → Rose (K.faults out.old) (K.faults out.new) }
    {
        self.line.clear();
        push_none(&mut self.line)?;
        put_line(&mut self.buffer, out, &self.line)
    }

    /// Puts the result of a set that has its least policy, with the policy.
    pub(crate) fn put_complete<K: Sink>(
        &mut self,
        out: &mut K,
        world: &World,
        cost: u128,
        policy: &Policy,
    ) -> Result<(), PlanFault>
        requires { NamesCentres world.now policy.now }
        ensures tells { (from : Option (List ℕ)) (text : List ℕ) → IsSaid from (K.taken out.old) self.old text
            → Tells from (K.taken out.new) self.new (text ++ (cost_line cost ++ policy_text world.now policy.now)) result }

        ensures faults_stay { K.faults out.old ≤ K.faults out.new }
        ensures failed { IsErrOf result PlanFault.WriteFault → Rose (K.faults out.old) (K.faults out.new) }
    {
        self.line.clear();
        push_cost(&mut self.line, cost)?;
        push_policy(&mut self.line, world, policy)?;
        put_line(&mut self.buffer, out, &self.line)
    }

    /// Puts the result of a set whose search was cut off behind so many lines, where a policy was found,
    /// with the policy.
    pub(crate) fn put_cut<K: Sink>(
        &mut self,
        out: &mut K,
        world: &World,
        lines: u64,
        cost: u128,
        policy: &Policy,
    ) -> Result<(), PlanFault>
        requires { NamesCentres world.now policy.now }
        ensures tells { (from : Option (List ℕ)) (text : List ℕ) → IsSaid from (K.taken out.old) self.old text
            → Tells from (K.taken out.new) self.new (text ++ (cut_line lines (Some cost) ++ policy_text world.now policy.now)) result }

        ensures faults_stay { K.faults out.old ≤ K.faults out.new }
        ensures failed { IsErrOf result PlanFault.WriteFault → Rose (K.faults out.old) (K.faults out.new) }
    {
        self.line.clear();
        push_cut(&mut self.line, lines, Some(cost))?;
        push_policy(&mut self.line, world, policy)?;
        put_line(&mut self.buffer, out, &self.line)
    }

    /// Puts the result of a set whose search was cut off behind so many lines, where none was found.
    pub(crate) fn put_cut_without<K: Sink>(
        &mut self,
        out: &mut K,
        lines: u64,
    ) -> Result<(), PlanFault>
        ensures tells { (from : Option (List ℕ)) (text : List ℕ) → IsSaid from (K.taken out.old) self.old text
            → Tells from (K.taken out.new) self.new (text ++ cut_line lines None) result }

        ensures faults_stay { K.faults out.old ≤ K.faults out.new }
        ensures failed { IsErrOf result PlanFault.WriteFault → Rose (K.faults out.old) (K.faults out.new) }
    {
        self.line.clear();
        push_cut(&mut self.line, lines, None)?;
        put_line(&mut self.buffer, out, &self.line)
    }

    /// Puts the last line of a plan.
    pub(crate) fn put_end<K: Sink>(&mut self, out: &mut K) -> Result<(), PlanFault>
        ensures tells { (from : Option (List ℕ)) (text : List ℕ) → IsSaid from (K.taken out.old) self.old text
            → Tells from (K.taken out.new) self.new (text ++ codes "end\n") result }

        ensures faults_stay { K.faults out.old ≤ K.faults out.new }
        ensures failed { IsErrOf result PlanFault.WriteFault → Rose (K.faults out.old) (K.faults out.new) }
    {
        self.line.clear();
        push_end(&mut self.line)?;
        put_line(&mut self.buffer, out, &self.line)
    }

    /// Puts a text.
    pub fn put_text<K: Sink>(&mut self, out: &mut K, piece: &str) -> Result<(), PlanFault>
        ensures tells { (from : Option (List ℕ)) (text : List ℕ) → IsSaid from (K.taken out.old) self.old text
            → Tells from (K.taken out.new) self.new (text ++ piece.now) result }

        ensures faults_stay { K.faults out.old ≤ K.faults out.new }
        ensures failed { IsErrOf result PlanFault.WriteFault → Rose (K.faults out.old) (K.faults out.new) }
    {
        put_line(&mut self.buffer, out, piece)
    }

    /// Hands all that is kept to the sink.
    pub fn flush<K: Sink>(&mut self, out: &mut K) -> Result<(), PlanFault>
        ensures flushes { (from : Option (List ℕ)) (text : List ℕ) → IsSaid from (K.taken out.old) self.old text
            → MatchResult result (λ _. Appends from (K.taken out.new) text) (λ _. IsFrontTaken from (K.taken out.new) text) }

        ensures faults_stay { K.faults out.old ≤ K.faults out.new }
        ensures failed { IsErrOf result PlanFault.WriteFault → Rose (K.faults out.old) (K.faults out.new) }
    {
        Ok(self.buffer.flush(out)?)
    }
}

// Puts a line that is written.
fn put_line<K: Sink>(buffer: &mut SinkBuffer, out: &mut K, line: &str) -> Result<(), PlanFault>
    ensures tells { (from : Option (List ℕ)) (text : List ℕ) → IsSaid from (K.taken out.old) buffer.old text
        → Tells from (K.taken out.new) buffer.new (text ++ line.now) result }

    ensures faults_stay { K.faults out.old ≤ K.faults out.new }
    ensures failed { IsErrOf result PlanFault.WriteFault → Rose (K.faults out.old) (K.faults out.new) }
{
    Ok(buffer.put(out, line.as_bytes())?)
}
