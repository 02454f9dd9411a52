use crate::dc_set::DcSet;
use crate::ids::DcId;
use crate::listed::Listed;
use std::alloc::AllocError;

/// Where the clients of the centre `member` read and write: at the replica in centre `at`.
#[derive(Clone, Copy, Debug, PartialEq, Eq)]
pub struct Near {
    /// The centre of the clients.
    pub member: DcId,
    /// The centre of the replica.
    pub at: DcId,
}

/// A write of the clients of `member` comes to the replica `child` from the replica `parent`.
/// Where both are one, it comes from the clients themselves.
#[derive(Clone, Copy, Debug, PartialEq, Eq)]
pub struct Hop {
    /// The centre of the clients.
    pub member: DcId,
    /// The centre of the replica that gets the write.
    pub child: DcId,
    /// The centre of the replica that passes it on, or `child` itself.
    pub parent: DcId,
}

/// The replicas that the clients of the centre `dc` ask when they read, and those that they
/// write to.
#[derive(Clone, Copy, Debug, PartialEq, Eq)]
pub struct Quorum {
    /// The centre of the clients.
    pub dc: DcId,
    /// The replicas that they ask when they read.
    pub read: DcSet,
    /// The replicas that they write to.
    pub write: DcSet,
}

/// Where the keys of a set are kept, and how each member centre reads and writes them, so that
/// `f` replicas may stop.
#[derive(Debug, PartialEq, Eq, Drop)]
pub enum Policy {
    /// Eventual: a member reads at its primary, and writes to each replica itself.
    Direct {
        f: u8,
        replicas: DcSet,
        primary: Listed<Near>,
    },
    /// Eventual: as `Direct`, but replicas may pass a member's writes on to others.
    Relay {
        f: u8,
        replicas: DcSet,
        primary: Listed<Near>,
        parent: Listed<Hop>,
    },
    /// Strong: a member reads from its read set, and writes to its write set.
    Strong {
        f: u8,
        replicas: DcSet,
        members: Listed<Quorum>,
    },
}

impl Clone for Policy {
    ghost use Rattle.std.specs.Prelude.{◌≡◌};

    ghost is_clone = { λ policy copy. copy ≡ policy };

    fn clone(&self) -> Result<Policy, AllocError> {
        match self {
            Policy::Direct {
                f,
                replicas,
                primary,
            } => Ok(Policy::Direct {
                f: *f,
                replicas: *replicas,
                primary: primary.clone()?,
            }),
            Policy::Relay {
                f,
                replicas,
                primary,
                parent,
            } => Ok(Policy::Relay {
                f: *f,
                replicas: *replicas,
                primary: primary.clone()?,
                parent: parent.clone()?,
            }),
            Policy::Strong {
                f,
                replicas,
                members,
            } => Ok(Policy::Strong {
                f: *f,
                replicas: *replicas,
                members: members.clone()?,
            }),
        }
    }
}
