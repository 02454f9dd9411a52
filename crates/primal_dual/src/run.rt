//! A run: rounds round the anchors, a check every ten, until the leaf closes or likely none will.

ghost use Rattle.primal_dual.specs.Engines.{IsWeight};

use crate::engine::{Engine, Outcome};
use crate::forces::{pull_multipliers, pull_variables};
use crate::stop::{asked, cost_of, is_below, lack_of_all, left, note_values};
use crate::stretch::Stretch;
use crate::units::Units;
use bound_cert::{Goal, MAX_SCALE, closes};
use zero_one::{Fixed, Program};

/// What a run is to close, and how long it may take.
#[derive(Clone, Copy)]
pub(crate) struct Task<'a> {
    pub(crate) program: &'a Program,
    pub(crate) fixed: &'a Fixed,
    pub(crate) goal: Goal,
    pub(crate) rounds: u32,
    pub(crate) is_patient: bool,
}

/// How far a run has come.
#[derive(Clone, Copy)]
struct Progress {
    stretch: Stretch,
    // The last check saw that likely no leaf will close.
    was_hopeless: bool,
}

/// Rounds between two checks.
const CHECK_EVERY: u32 = 10;
/// No run is given up before this round: earlier signs are often wrong, and then a tree grows.
const FIRST_STOP: u32 = 40;
/// The balance of a run without costs, in which nothing says how to choose one; as an exponent.
const NO_COSTS: u32 = 40;
/// What a row may lack of its bound where the variables meet the rows nearly: 1/64 for each unit
/// of its size, in units of 2^-20.
const SLACK: u32 = 1 << 14;

impl Engine {
    ghost use Rattle.std.specs.Prelude.{◌≡◌, ◌+◌, ◌<◌, ◌≤◌};
    ghost use Rattle.primal_dual.specs.Engines.{IsTask, KeepsRoom};

    /// Puts the anchors where the run begins.
    pub(crate) fn begin(&mut self, task: &Task)
        requires { IsTask task.now.program.now task.now.fixed.now self.old }
        ensures { KeepsRoom self.old self.new }
    {
        self.weight = scale_of(task.goal);
        let balance = match task.goal {
            Goal::Cost(_) => self.units.balance,
            Goal::Nothing => NO_COSTS,
        };
        self.units = Units::new(balance, self.first.fine);
        self.variables
            .fix(task.fixed.as_slice(), self.units.of_variables());
        match task.goal {
            Goal::Cost(_) => self.multipliers.free(self.units.of_multipliers()),
            Goal::Nothing => self.multipliers.clear(),
        }
        self.pull(task);
        self.localize();
    }

    /// Works out what pulls at the anchors.
    fn pull(&mut self, task: &Task)
        requires { IsTask task.now.program.now task.now.fixed.now self.old }
        ensures { self.new ≡ self.old }
    {
        pull_variables(
            &mut self.variables,
            task.program.costs(),
            self.weight,
            self.multipliers.places(),
        );
        pull_multipliers(
            &mut self.multipliers,
            task.program.rows(),
            self.variables.places(),
        );
    }

    /// Goes on for as many rounds as the task allows.
    pub(crate) fn go(&mut self, task: &Task) -> Outcome
        requires { IsTask task.now.program.now task.now.fixed.now self.old }
        ensures { KeepsRoom self.old self.new }
    {
        let mut progress = Progress {
            stretch: Stretch::new(0),
            was_hopeless: false,
        };
        for round in 0..task.rounds {
            self.sweep(progress.stretch.pull(round));
            if round % CHECK_EVERY == 0 {
                if let Some(outcome) = self.check(task, round, &mut progress) {
                    return outcome;
                }
            }
        }
        Outcome::Cap
    }

    /// A round.
    fn sweep(&mut self, pull: u32)
        ensures { self.new ≡ self.old }
    {
        self.variables.sweep(self.multipliers.shown(), pull);
        self.multipliers.sweep(self.variables.shown(), pull);
    }

    /// Looks whether the run is over, or its stretch.
    fn check(&mut self, task: &Task, round: u32, progress: &mut Progress) -> Option<Outcome>
        requires task { IsTask task.now.program.now task.now.fixed.now self.old }
        requires round { round < task.now.rounds }
        requires begun { progress.old.stretch.begin ≤ round }
        ensures room { KeepsRoom self.old self.new }
        ensures begun { progress.new.stretch.begin ≤ round + 1 }
    {
        self.note_targets();
        if self.closes(task) {
            return Some(Outcome::Closed);
        }
        let is_hopeless = round >= FIRST_STOP && !task.is_patient && self.may_stop(task);
        if is_hopeless && progress.was_hopeless {
            return Some(Outcome::Open);
        }
        progress.was_hopeless = is_hopeless;
        let error = self.variables.error() + self.multipliers.error();
        if progress.stretch.is_over(error, round) && task.rounds - round > 1 {
            self.restart(task.goal);
            progress.stretch = Stretch::new(round + 1);
        } else {
            progress.stretch.note(error);
        }
        None
    }

    /// Whether the leaf of where the multipliers stand closes, as far as the forces tell.
    fn closes(&self, task: &Task) -> bool
        requires { IsTask task.now.program.now task.now.fixed.now self.now }
    {
        let shift = self.units.of_multipliers();
        let asked = asked(&self.multipliers, shift, task.program.rows());
        let left = left(
            &self.variables,
            shift,
            task.fixed.as_slice(),
            self.multipliers.targets(),
        );
        closes(asked + left, self.weight, task.goal)
    }

    /// Whether the variables meet the rows nearly and cost less than the goal, so that no leaf
    /// will close.
    fn may_stop(&mut self, task: &Task) -> bool
        requires { IsTask task.now.program.now task.now.fixed.now self.old }
        ensures { self.new ≡ self.old }
    {
        note_values(
            &self.variables,
            self.units.of_variables(),
            self.values.as_mut_slice(),
        );
        let values = self.values.as_slice();
        let slack = match task.goal {
            Goal::Cost(_) => SLACK,
            Goal::Nothing => SLACK / 16,
        };
        let lack = lack_of_all(
            &self.multipliers,
            self.units.of_multipliers(),
            task.program.rows(),
            values,
            slack,
        );
        match (lack, task.goal) {
            (None, _) => false,
            (Some(_), Goal::Nothing) => true,
            (Some(lack), Goal::Cost(goal)) => {
                is_below(lack + cost_of(task.program.costs(), values), goal)
            }
        }
    }
}

/// How often the leaves against the goal take the costs.
fn scale_of(goal: Goal) -> u32
    ensures { IsWeight result }
{
    match goal {
        Goal::Cost(_) => MAX_SCALE,
        Goal::Nothing => 0,
    }
}
