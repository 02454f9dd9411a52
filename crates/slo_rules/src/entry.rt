//! What a line adds to a policy, where it is the one that is due.
ghost use Rattle.std.specs.Prelude.{◌≡◌};
ghost use Rattle.slo_rules.specs.PolicyReading.{known, expected, replicas_in, primary_in, hop_in, quorum_in};

use crate::policy_line::{PolicyFault, PolicyLine};
use span_base::{DcId, DcSet, Hop, Near, Quorum};

fn known(centre: Option<DcId>) -> Result<DcId, PolicyFault>
    ensures { result ≡ known centre }
{
    centre.ok_or(PolicyFault::Unknown)
}

/// The centre whose turn it is; another is a fault.
fn expected(turn: DcId, fault: PolicyFault, centre: Option<DcId>) -> Result<DcId, PolicyFault>
    ensures { result ≡ expected turn fault centre }
{
    match centre {
        Some(dc) if dc.0 == turn.0 => Ok(dc),
        Some(_) => Err(fault),
        None => Err(PolicyFault::Unknown),
    }
}

pub(crate) fn replicas_in(line: PolicyLine) -> Result<DcSet, PolicyFault>
    ensures { result ≡ replicas_in line }
{
    match line {
        PolicyLine::Replicas(list) => list,
        _ => Err(PolicyFault::Kind),
    }
}

pub(crate) fn primary_in(turn: DcId, line: PolicyLine) -> Result<Near, PolicyFault>
    ensures { result ≡ primary_in turn line }
{
    match line {
        PolicyLine::Primary { member, at } => {
            let member = expected(turn, PolicyFault::Member, member)?;
            let at = known(at)?;
            Ok(Near { member, at })
        }
        _ => Err(PolicyFault::Kind),
    }
}

pub(crate) fn hop_in(turn: DcId, replica: DcId, line: PolicyLine) -> Result<Hop, PolicyFault>
    ensures { result ≡ hop_in turn replica line }
{
    match line {
        PolicyLine::Parent {
            member,
            child,
            parent,
        } => {
            let member = expected(turn, PolicyFault::Member, member)?;
            let child = expected(replica, PolicyFault::Order, child)?;
            let parent = known(parent)?;
            Ok(Hop {
                member,
                child,
                parent,
            })
        }
        _ => Err(PolicyFault::Kind),
    }
}

pub(crate) fn quorum_in(turn: DcId, line: PolicyLine) -> Result<Quorum, PolicyFault>
    ensures { result ≡ quorum_in turn line }
{
    match line {
        PolicyLine::Quorum {
            member,
            read,
            write,
        } => {
            let dc = expected(turn, PolicyFault::Member, member)?;
            let read = read?;
            let write = write?;
            Ok(Quorum { dc, read, write })
        }
        _ => Err(PolicyFault::Kind),
    }
}
