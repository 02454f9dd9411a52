use span_base::What;
use std::alloc::AllocError;

/// Why a centre or a link is refused.
#[derive(Clone, Copy, Debug, PartialEq, Eq)]
pub enum TableFault {
    /// This number passes the limit.
    Limit { what: What, number: u128 },
    /// The name, or the pair, stands already.
    Twice,
    /// No centre has the name that the link comes from.
    UnknownFrom,
    /// No centre has the name that the link goes to.
    UnknownTo,
    /// There was no memory for the centre.
    NoMemory(AllocError),
}
