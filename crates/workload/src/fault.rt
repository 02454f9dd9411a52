use span_base::{DcId, SetId, What};
use std::alloc::AllocError;

/// Why a set or a demand is refused.
#[derive(Clone, Copy, Debug, PartialEq, Eq)]
pub enum LoadFault {
    /// This number passes the limit.
    Limit { what: What, number: u128 },
    /// No set has the name.
    Unknown,
    /// The name stands already, or the centre in this set.
    Twice,
    /// There was no memory for the set or the demand.
    NoMemory(AllocError),
}

/// What a world lacks.
#[derive(Clone, Copy, Debug, PartialEq, Eq)]
pub enum Gap {
    /// The first ordered pair of centres, in lexicographic order, that has no link.
    NoLink { from: DcId, to: DcId },
    /// The first set that has no member.
    NoMember { set: SetId },
}
