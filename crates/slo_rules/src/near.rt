//! Which centres a member reads and writes within the goals of its set.
ghost use Rattle.std.specs.Prelude.{◌≡◌};
ghost use Rattle.slo_rules.specs.Rules.{is_read_near, is_write_near, write_trips};

use span_base::DcId;
use workload::{Mode, SetRule, World};

/// Whether a read by a member at a centre is within the goal of reads, both in ms.
pub fn is_read_near(world: &World, rule: &SetRule, member: DcId, dc: DcId) -> bool
    ensures { result ≡ is_read_near world.now rule.now member.0 dc.0 }
{
    world.fare(member, dc).latency <= rule.read_slo
}

/// How many round trips a write waits for.
fn write_trips(mode: Mode) -> u32
    ensures { result ≡ write_trips mode }
{
    match mode {
        Mode::Direct | Mode::Relay => 1,
        Mode::Strong => 2,
    }
}

/// Whether a write by a member to a centre is within the goal of writes, both in ms. In strong mode
/// it takes two round trips, else one.
pub fn is_write_near(world: &World, rule: &SetRule, member: DcId, dc: DcId) -> bool
    ensures { result ≡ is_write_near world.now rule.now member.0 dc.0 }
{
    write_trips(rule.mode) * world.fare(member, dc).latency <= rule.write_slo
}
