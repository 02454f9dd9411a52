use span_base::{DcId, Listed, Word};

/// How the replicas of a set are written and read.
#[derive(Clone, Copy, Debug, PartialEq, Eq)]
pub enum Mode {
    /// Eventual: each member writes to every replica itself.
    Direct,
    /// Eventual: a write may reach a replica through another one.
    Relay,
    /// One register: reads and writes go to quorums.
    Strong,
}

impl Mode {
    ghost use Rattle.std.specs.Prelude.{◌≡◌};
    ghost use Rattle.workload.specs.Modes.{word_of};

    /// The word of a mode in worlds and in plans. It is lent as long as the mode, so that it can
    /// stand beside other borrowed fields.
    pub fn word(&self) -> &str
        ensures { result.now ≡ word_of self.now }
    {
        match self {
            Mode::Direct => "direct",
            Mode::Relay => "relay",
            Mode::Strong => "strong",
        }
    }
}

/// What a set asks of its policy.
#[derive(Clone, Copy, Debug, PartialEq, Eq)]
pub struct SetRule {
    /// How its replicas are written and read.
    pub mode: Mode,
    /// Failures to stand, at most 3.
    pub f: u8,
    /// Goal of a read, in ms, at most 10^6.
    pub read_slo: u32,
    /// Goal of a write, in ms, at most 10^6.
    pub write_slo: u32,
    /// KiB stored, at most 10^12.
    pub stored: u64,
    /// KiB of one object, at most 10^5.
    pub object: u64,
    /// Providers that the replicas must lie with, 1 to 16.
    pub providers: u8,
}

/// What one member of a set asks for in a billing period.
#[derive(Clone, Copy, Debug, PartialEq, Eq)]
pub struct Demand {
    /// The centre from which it reads and writes.
    pub dc: DcId,
    /// How many objects it reads, at most 10^9.
    pub gets: u64,
    /// How many it writes, at most 10^9.
    pub puts: u64,
}

/// A set of objects that the same centres access.
#[derive(Debug, Drop)]
pub struct AccessSet {
    /// Its name, apart from those of the other sets.
    pub name: Word,
    /// What it asks of its policy.
    pub rule: SetRule,
    /// In file order, 1 to 8, each in a centre of its own.
    pub members: Listed<Demand>,
}
