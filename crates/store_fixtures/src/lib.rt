//! What the tests of the store's actors share, written short: the tags of one call, stamps, a
//! value, policies of three replicas, and answers. No program stands on it.
#![tactic(auto)]

mod answers;
mod policies;
mod tags;

pub use answers::{gone, have, held, here, yes};
pub use policies::{direct_policy, quorum_policy};
pub use tags::{KEY, centre, other_stamp, tag, ticket, value};
