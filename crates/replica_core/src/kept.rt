ghost use Rattle.std.specs.Prelude.{◌≡◌};
ghost use Rattle.replica_core.specs.Keeping.{opening, is_over};

use span_base::Value;
use std::alloc::Global;
use ticket_rules::Stamp;

/// What a replica keeps of a key.
#[derive(Debug, Drop)]
pub struct Kept {
    /// The stamp of the value, zero where none was stored yet.
    pub version: Stamp,
    /// Empty where none was stored yet; at most 4,096 bytes.
    pub value: Value,
    /// The greatest stamp whose value is known to be stored at a whole write quorum.
    pub mark: Stamp,
    /// The ticket that was granted last.
    pub fence: Stamp,
    /// The last epoch that is over, 0 where none is.
    pub frozen: u32,
}

impl Kept {
    /// What is kept of a key at first. It takes no memory.
    pub(crate) fn opening(alloc: Global) -> Kept
        ensures { result ≡ opening }
    {
        Kept {
            version: Stamp::zero(),
            value: Value::empty(alloc),
            mark: Stamp::zero(),
            fence: Stamp::zero(),
            frozen: 0,
        }
    }

    /// Whether this epoch is over.
    pub(crate) fn is_over(&self, epoch: u32) -> bool
        ensures { result ≡ is_over self.now epoch }
    {
        epoch <= self.frozen
    }
}
