//! A stretch of rounds between two restarts, and when it is over.

ghost use Rattle.std.specs.Prelude.{◌≡◌, ◌≤◌};

/// A stretch.
#[derive(Clone, Copy)]
pub(crate) struct Stretch {
    // Its first round.
    begin: u32,
    // How far a step went at the first check and at the last one; none before the first.
    errors: Option<(u128, u128)>,
}

/// A stretch is over only after so many rounds, if its steps don't become short.
const PATIENCE: u32 = 40;

impl Stretch {
    /// The stretch that begins with this round.
    pub(crate) fn new(begin: u32) -> Stretch
        ensures { result.begin ≡ begin }
    {
        Stretch {
            begin,
            errors: None,
        }
    }

    /// The share of a point that is kept in this round, in units of 2^-32: all but the share of
    /// one round of the stretch, as Halpern's iteration has it.
    pub(crate) fn pull(&self, round: u32) -> u32
        requires { self.now.begin ≤ round }
    {
        let rounds = u64::from(self.rounds(round)) + 2;
        u32::MAX - (u64::from(u32::MAX) / rounds) as u32
    }

    /// The rounds of the stretch before this one.
    fn rounds(&self, round: u32) -> u32
        requires { self.now.begin ≤ round }
    {
        round - self.begin
    }

    /// Whether the stretch has done what it can: its steps became five times shorter in square, or
    /// grow again after a good stretch, or it takes up a fifth of all rounds.
    pub(crate) fn is_over(&self, error: u128, round: u32) -> bool
        requires { self.now.begin ≤ round }
    {
        let Some((first, last)) = self.errors else {
            return false;
        };
        let rounds = self.rounds(round);
        error <= first / 5
            || (error <= first / 25 * 16 && error > last)
            || (rounds > PATIENCE && rounds >= round / 5)
    }

    /// Notes how far the last step went.
    pub(crate) fn note(&mut self, error: u128)
        ensures { self.new.begin ≡ self.old.begin }
    {
        self.errors = match self.errors {
            None => Some((error, error)),
            Some((first, _)) => Some((first, error)),
        };
    }
}
