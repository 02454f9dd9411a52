//! The store that the run begins with.

ghost use Rattle.std.specs.Prelude.{◌≡◌, IfOk};
ghost use Rattle.run_generator.specs.Header.{policy, header, table, member};

use epoch_directory::SetPolicy;
use span_base::{DcId, DcSet, Listed, Policy, Quorum, SetId};
use std::alloc::{AllocError, Global};
use world_core::{Event, Header};

/// A member that reads from and writes to the centres whose bits are set.
fn member(at: u8, asked: u16) -> Quorum
    ensures { result ≡ member at asked }
{
    Quorum {
        dc: DcId(at),
        read: DcSet::from_bits(asked),
        write: DcSet::from_bits(asked),
    }
}

/// Three members, who ask four of five replicas, one of which may stop.
fn policy(alloc: Global) -> Result<Policy, AllocError>
    ensures { IfOk result (λ made. made ≡ policy) }
{
    let members = vec![in alloc; member(0, 15), member(2, 15), member(4, 30)]?;
    Ok(Policy::Strong {
        f: 1,
        replicas: DcSet::from_bits(31),
        members: Listed::from_vec(members),
    })
}

/// Eight keys of one strong set, and two proxies for each of its members.
#[tactic(auto, unfolding(crate::specs::Header::header))]
pub(crate) fn header(alloc: Global) -> Result<Header, AllocError>
    ensures { IfOk result (λ made. made ≡ header) }
{
    let sets = vec![in alloc; policy(alloc)?]?;
    let keys = vec![in alloc; SetId(0); 8]?;
    let proxies = vec![in alloc; DcId(0), DcId(2), DcId(4), DcId(0), DcId(2), DcId(4)]?;
    Ok(Header {
        replicas: 5,
        sets: Listed::from_vec(sets),
        keys: Listed::from_vec(keys),
        proxies: Listed::from_vec(proxies),
    })
}

/// A table in which the set keeps its policy.
pub(crate) fn table(alloc: Global) -> Result<Listed<SetPolicy>, AllocError>
    ensures { IfOk result (λ made. made ≡ table) }
{
    let line = SetPolicy {
        set: SetId(0),
        policy: policy(alloc)?,
    };
    Ok(Listed::from_vec(vec![in alloc; line]?))
}
