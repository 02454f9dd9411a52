ghost use Rattle.std.specs.Prelude.{◌≡◌, ◌↔◌, IsTrue};
ghost use Rattle.span_base.specs.Calls.{NextFails, after_call};

use std::marker::Model;

/// The calls of an object in memory: which fail, how many there were, and how many failed.
#[derive(Debug, Drop)]
pub struct FailingCalls {
    failing: Vec<u64>,
    made: u64,
    faults: u64,
}

impl Model for FailingCalls {
    ghost use Rattle.span_base.specs.Calls.{CallRecord};

    ghost Value = { CallRecord };

    ghost view = { λ c. record { failing = c.failing.items; made = c.made; faults = c.faults } };
}

impl FailingCalls {
    /// No calls so far. `failing` are the numbers of those that fail, counted from 1. Calls past
    /// the end of a `u64` all have its last number.
    pub fn make(failing: Vec<u64>) -> FailingCalls
        ensures { result ≡ record { failing = failing.items; made = 0; faults = 0 } }
    {
        FailingCalls {
            failing,
            made: 0,
            faults: 0,
        }
    }

    /// Counts one more call, and answers whether it fails.
    pub fn next_fails(&mut self) -> bool
        ensures fails { IsTrue result ↔ NextFails self.old }
        ensures counted { self.new ≡ after_call self.old result }
    {
        self.made = self.made.saturating_add(1);
        let fails = self.failing.contains(&self.made);
        if fails {
            self.faults = self.faults.saturating_add(1);
        }
        fails
    }
}
