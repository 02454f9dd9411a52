ghost use Rattle.std.specs.Prelude.{◌≡◌, ◌==◌};
ghost use Rattle.std.specs.List.{list_any};
ghost use Rattle.replica_journal.specs.Calls.{next_fails, after_call, no_calls, stop_in};

use std::marker::Model;

// The calls of a disk in memory: which fail, how many there were, and how many failed.
#[derive(Debug, Drop)]
pub(crate) struct Calls {
    failing: Vec<u64>,
    // One more call that fails, counted from now, or 0.
    stop: u64,
    made: u64,
    faults: u64,
}

impl Model for Calls {
    ghost use Rattle.replica_journal.specs.Calls.{CallPlan};

    ghost Value = { CallPlan };

    ghost view = { λ c. record { failing = c.failing.items; stop = c.stop; made = c.made; faults = c.faults } };
}

impl Calls {
    // No calls so far. `failing` are the numbers of those that fail, counted from 1.
    pub(crate) fn make(failing: Vec<u64>) -> Calls
        ensures { result ≡ record { failing = failing.items; stop = 0; made = 0; faults = 0 } }
    {
        Calls {
            failing,
            stop: 0,
            made: 0,
            faults: 0,
        }
    }

    #[tactic(auto, unfolding(crate::specs::Calls::next_fails))]
    pub(crate) fn next_fails(&self) -> bool
        ensures { result ≡ next_fails self.now }
    {
        let next = self.made.saturating_add(1);
        let is_listed = lists(&self.failing, next);
        let is_stop = self.stop == 1;
        is_listed || is_stop
    }

    // Counts one more call, that failed or didn't.
    pub(crate) fn count(&mut self, failed: bool)
        ensures { self.new ≡ after_call self.old failed }
    {
        self.made = self.made.saturating_add(1);
        self.stop = self.stop.saturating_sub(1);
        if failed {
            self.faults = self.faults.saturating_add(1);
        }
    }

    // Makes a call fail by its number, counted from now.
    pub(crate) fn stop_in(&mut self, calls: u64)
        ensures { self.new ≡ stop_in self.old calls }
    {
        self.stop = calls;
    }

    // The same memory for calls of which none was made and none fails.
    pub(crate) fn forget(self) -> Calls
        ensures { result ≡ no_calls }
    {
        let Calls { mut failing, .. } = self;
        failing.clear();
        Calls::make(failing)
    }
}

fn lists(numbers: &[u64], number: u64) -> bool
    ensures { result ≡ list_any (λ n. n == number) numbers.now }
{
    numbers.iter().any(|n| *n == number)
}
