ghost use Rattle.std.specs.Prelude.{◌≡◌, ◌<◌, ◌≤◌, ◌++◌, ℕ, List, Option, IfOk, IfErr, IsErrOf, length, string_bytes};
ghost use Rattle.span_base.specs.Counts.{Rose};
ghost use Rattle.sink_buffer.specs.Said.{IsSaid};
ghost use Rattle.plan_check.specs.Plans.{told_line, write_fault, Tells, HandsOver, IsWanting, is_wanting};

use crate::fault::CheckFault;
use sink_buffer::SinkBuffer;
use span_base::{DeviceFault, SetId, Sink};
use std::alloc::{AllocError, Global};
use workload::World;

/// The line of a set whose part is accepted, by the cost that the part tells.
fn told_line(
    alloc: Global,
    world: &World,
    set: SetId,
    cost: Option<u128>,
) -> Result<String, AllocError>
    requires { set.0 < length world.now.sets }
    ensures { IfOk result (λ line. string_bytes line ≡ told_line world.now set.0 cost) }
{
    let name = world.set_name(set).as_str();
    let mut line = String::new(alloc);
    match cost {
        Some(cost) => {
            write!(line, "set {name} least {cost}\n")?;
            Ok(line)
        }
        None => {
            write!(line, "set {name} none\n")?;
            Ok(line)
        }
    }
}

fn fault_of(fault: DeviceFault) -> CheckFault
    ensures { result ≡ write_fault fault }
{
    match fault {
        DeviceFault::Failed => CheckFault::WriteFault,
        DeviceFault::NoMemory => CheckFault::NoMemory,
    }
}

/// Whether a fault says nothing of the plan: the sink failed, or memory lacked.
pub fn is_wanting(fault: CheckFault) -> bool
    ensures { result ≡ is_wanting fault }
{
    match fault {
        CheckFault::WriteFault => true,
        CheckFault::NoMemory => true,
        _ => false,
    }
}

/// Passes a piece on to the sink.
pub fn say<K: Sink>(told: &mut SinkBuffer, out: &mut K, piece: &[u8]) -> Result<(), CheckFault>
    ensures says { (from : Option (List ℕ)) (text : List ℕ) → IsSaid from (K.taken out.old) told.old text
        → Tells from (K.taken out.new) told.new (text ++ piece.now) result }

    ensures faults_stay { K.faults out.old ≤ K.faults out.new }
    ensures failed { IsErrOf result CheckFault.WriteFault → Rose (K.faults out.old) (K.faults out.new) }
    ensures wants { IfErr result IsWanting }
{
    match told.put(out, piece) {
        Ok(()) => Ok(()),
        Err(fault) => Err(fault_of(fault)),
    }
}

/// Passes the line of a set on to the sink.
pub(crate) fn tell<K: Sink>(
    alloc: Global,
    world: &World,
    set: SetId,
    cost: Option<u128>,
    told: &mut SinkBuffer,
    out: &mut K,
) -> Result<(), CheckFault>
    requires { set.0 < length world.now.sets }
    ensures tells { (from : Option (List ℕ)) (text : List ℕ) → IsSaid from (K.taken out.old) told.old text
        → Tells from (K.taken out.new) told.new (text ++ told_line world.now set.0 cost) result }

    ensures faults_stay { K.faults out.old ≤ K.faults out.new }
    ensures failed { IsErrOf result CheckFault.WriteFault → Rose (K.faults out.old) (K.faults out.new) }
    ensures wants { IfErr result IsWanting }
{
    let line = told_line(alloc, world, set, cost)?;
    say(told, out, line.as_bytes())
}

/// Hands all that was said to the sink.
pub fn hand_over<K: Sink>(told: &mut SinkBuffer, out: &mut K) -> Result<(), CheckFault>
    ensures hands { (from : Option (List ℕ)) (text : List ℕ) → IsSaid from (K.taken out.old) told.old text
        → HandsOver from (K.taken out.new) text result }

    ensures faults_stay { K.faults out.old ≤ K.faults out.new }
    ensures failed { IsErrOf result CheckFault.WriteFault → Rose (K.faults out.old) (K.faults out.new) }
    ensures wants { IfErr result IsWanting }
{
    match told.flush(out) {
        Ok(()) => Ok(()),
        Err(fault) => Err(fault_of(fault)),
    }
}
