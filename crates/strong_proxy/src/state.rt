use crate::progress::Progress;
use call_phase::Found;
use span_base::Value;

/// What a call does for its client.
#[derive(Debug, PartialEq, Eq, Drop)]
pub enum Work {
    /// It reads the key.
    ToRead,
    /// It writes this value, of at most 4,096 bytes, which is kept for the legs that have yet to store it.
    ToWrite(Value),
}

/// A strong call, as it stands between two messages.
#[derive(Debug, PartialEq, Eq, Drop)]
pub struct CallState {
    /// What it does.
    pub work: Work,
    /// A read's greatest version in the present leg, from its first answer to its reply.
    pub best: Option<Found>,
    /// How far it is.
    pub progress: Progress,
}
