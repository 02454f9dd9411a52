//! What a table has to be before it may be published.

ghost use Rattle.std.specs.Prelude.{◌≢◌, ◌↔◌, IsTrue};
ghost use Rattle.std.specs.List.{All};
ghost use Rattle.epoch_directory.specs.State.{HasSameMode};
ghost use Rattle.epoch_directory.specs.Tables.{IsNextTable};
ghost use Rattle.epoch_directory.specs.NextLines.{IsNextLine};

use crate::directory::Directory;
use crate::table::SetPolicy;
use span_base::{Policy, SetId, is_sound};

impl Directory {
    /// Whether `publish` may be asked to publish the table. It takes time by the square of the
    /// table's length, and no memory.
    pub fn is_next_table(&self, table: &[SetPolicy]) -> bool
        ensures { IsTrue result ↔ IsNextTable self.now table.now }
    {
        for (place, line) in table.iter().enumerate() {
            if !self.may_list(line, &table[place + 1..]) {
                return false;
            }
        }
        true
    }

    /// Whether a table may have this line before these.
    fn may_list(&self, line: &SetPolicy, later: &[SetPolicy]) -> bool
        ensures { IsTrue result ↔ (IsNextLine self.now line.now × All (λ other. line.now.set.0 ≢ other.set.0) later.now) }
    {
        self.is_next_line(line) && leaves_out(later, line.set)
    }

    fn is_next_line(&self, line: &SetPolicy) -> bool
        ensures { IsTrue result ↔ IsNextLine self.now line.now }
    {
        line.set.0 < self.set_count()
            && has_same_mode(self.policy_in(1, line.set), &line.policy)
            && (self.is_strong_set(line.set) || is_sound(&line.policy))
    }
}

/// Whether the table doesn't list the set.
fn leaves_out(table: &[SetPolicy], set: SetId) -> bool
    ensures { IsTrue result ↔ All (λ line. set.0 ≢ line.set.0) table.now }
{
    table.iter().all(|line| set.0 != line.set.0)
}

/// Whether both are direct, both are relay, or both are strong.
fn has_same_mode(first: &Policy, next: &Policy) -> bool
    ensures { IsTrue result ↔ HasSameMode first.now next.now }
{
    match first {
        Policy::Direct { .. } => matches!(next, Policy::Direct { .. }),
        Policy::Relay { .. } => matches!(next, Policy::Relay { .. }),
        Policy::Strong { .. } => matches!(next, Policy::Strong { .. }),
    }
}
