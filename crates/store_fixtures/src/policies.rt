ghost use Rattle.std.specs.Prelude.{IfOk};
ghost use Rattle.span_base.specs.Policy.{IsSoundPolicy};

use span_base::{DcId, DcSet, Listed, Near, Policy, Quorum, is_sound};
use std::alloc::{AllocError, Global};

/// The strong policy under which `member` reads from and writes to centres 0, 1 and 2, of which
/// one may fail.
pub fn quorum_policy(alloc: Global, member: u8) -> Result<Policy, AllocError>
    ensures { IfOk result IsSoundPolicy }
{
    let all = DcSet::from_bits(0b111);
    let quorum = Quorum {
        dc: DcId(member),
        read: all,
        write: all,
    };
    sound(Policy::Strong {
        f: 1,
        replicas: all,
        members: Listed::from_vec(Vec::from_array(alloc, [quorum])?),
    })
}

/// The direct policy of member 0 with replicas in centres 0, 1 and 2, of which one may fail.
pub fn direct_policy(alloc: Global) -> Result<Policy, AllocError>
    ensures { IfOk result IsSoundPolicy }
{
    let near = Near {
        member: DcId(0),
        at: DcId(0),
    };
    sound(Policy::Direct {
        f: 1,
        replicas: DcSet::from_bits(0b111),
        primary: Listed::from_vec(Vec::from_array(alloc, [near])?),
    })
}

/// The policy. One that isn't sound would be told as want of memory, which fails the test.
fn sound(policy: Policy) -> Result<Policy, AllocError>
    ensures { IfOk result IsSoundPolicy }
{
    if is_sound(&policy) {
        Ok(policy)
    } else {
        Err(AllocError)
    }
}
