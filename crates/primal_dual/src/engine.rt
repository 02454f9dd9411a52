//! The engine, as its callers see it.

use crate::run::Task;
use crate::side::Side;
use crate::table::Table;
use crate::units::{Units, first_units, greatest_change};
use bound_cert::{Goal, MAX_MULTIPLIER, MAX_SCALE};
use std::alloc::{AllocError, Global};
use std::marker::Model;
use zero_one::{Fixed, Program};

/// How a run ends.
#[derive(Clone, Copy, Debug, PartialEq, Eq)]
pub enum Outcome {
    /// The multipliers and the weight are likely those of a leaf that closes.
    Closed,
    /// Likely no leaf closes.
    Open,
    /// The rounds were used up.
    Cap,
}

/// A restarted primal-dual method for the nodes of a search over one program. From run to run it
/// goes on from where it stands.
#[derive(Drop)]
pub struct Engine {
    pub(crate) variables: Side,
    pub(crate) multipliers: Side,
    pub(crate) units: Units,
    /// The units of the first run.
    pub(crate) first: Units,
    /// Where the variables stand, for the test for a stop.
    pub(crate) values: Vec<u32>,
    /// How often the leaf takes the costs.
    pub(crate) weight: u32,
    kept_weight: u32,
    kept_balance: u32,
}

impl Model for Engine {
    ghost use Rattle.std.specs.Prelude.{length};
    ghost use Rattle.primal_dual.specs.Engines.{State, IsEngine};

    ghost Value = { State };

    ghost view = { λ e. record { variables = e.variables.sizes.lines; rows = e.multipliers.sizes.lines; multipliers = e.multipliers.places; weight = e.weight; kept = e.multipliers.kept; kept_weight = e.kept_weight } };

    ghost invariant = { λ e. IsEngine e.variables e.multipliers (length e.values.items) e.weight e.kept_weight e.kept_balance e.first.balance e.first.fine };
}

impl Engine {
    ghost use Rattle.std.specs.Prelude.{◌≡◌, ◌^◌, ◌<◌, ◌≤◌, ◌≤ℤ◌, pos, length, IfOk};
    ghost use Rattle.primal_dual.specs.Engines.{IsFor, HasRanges, KeepsRoom};

    /// Takes all memory that the engine ever needs.
    pub fn make(alloc: Global, program: &Program) -> Result<Engine, AllocError>
        ensures room { IfOk result (IsFor program.now) }
        ensures ranges { IfOk result HasRanges }
    {
        let rows = Table::of_rows(alloc, program)?;
        let columns = Table::of_columns(alloc, program, &rows)?;
        let limit = greatest_change(rows.size().max(columns.size()));
        let first = first_units(program.costs(), limit);
        let engine = Engine {
            variables: Side::make(alloc, columns, limit, ONE, true)?,
            multipliers: Side::make(alloc, rows, limit, MAX_MULTIPLIER, false)?,
            units: first,
            first,
            values: vec![in alloc; 0; program.costs().len()]?,
            weight: MAX_SCALE,
            kept_weight: MAX_SCALE,
            kept_balance: first.balance,
        };
        engine.ranges();
        Ok(engine)
    }

    /// Seeks a leaf that closes against the goal where these variables are fixed, for at most so
    /// many rounds, from where the last run led. Against a cost the leaf has the weight 10^6,
    /// against nothing 0. A patient run isn't given up before its rounds are used up. Takes no
    /// memory.
    ///
    /// The outcome is a guess: whether the leaf closes is for `bound_cert` to say.
    pub fn run(
        &mut self,
        program: &Program,
        fixed: &Fixed,
        goal: Goal,
        rounds: u32,
        is_patient: bool,
    ) -> Outcome
        requires room { IsFor program.now self.old }
        requires vars { length fixed.now ≡ length program.now.costs }
        ensures room { KeepsRoom self.old self.new }
        ensures ranges { HasRanges self.new }
    {
        let balance = self.units.balance;
        let task = Task {
            program,
            fixed,
            goal,
            rounds,
            is_patient,
        };
        self.begin(&task);
        let outcome = self.go(&task);
        self.rebase();
        self.settle(goal, balance);
        self.ranges();
        outcome
    }

    /// The multipliers of the leaf, by row, each at most 10^30.
    pub fn multipliers(&self) -> &[u128]
        ensures multipliers { result.now ≡ self.now.multipliers }
        ensures ranges { HasRanges self.now }
    {
        self.ranges();
        self.multipliers.places()
    }

    /// How often the leaf takes the costs: a million times, or not at all.
    pub fn weight(&self) -> u32
        ensures weight { result ≡ self.now.weight }
        ensures ranges { HasRanges self.now }
    {
        self.ranges();
        self.weight
    }

    /// Where a variable stands between 0 and 1, in units of 2^-40.
    pub fn place(&self, var: usize) -> i64
        requires { var < self.now.variables }
        ensures low { pos 0 ≤ℤ result }
        ensures high { result ≤ℤ pos (2 ^ 40) }
    {
        (self.variables.places()[var] >> 56) as i64
    }

    /// Keeps where the engine stands, over what was kept. Takes no memory.
    pub fn keep(&mut self)
        ensures { self.new ≡ record self.old { kept = self.old.multipliers; kept_weight = self.old.weight } }
    {
        self.variables.keep();
        self.multipliers.keep();
        self.kept_weight = self.weight;
        self.kept_balance = self.units.balance;
    }

    /// Goes back to where the engine was kept: at first, where it was made. Takes no memory.
    pub fn restore(&mut self)
        ensures { self.new ≡ record self.old { multipliers = self.old.kept; weight = self.old.kept_weight } }
    {
        self.variables.restore();
        self.multipliers.restore();
        self.weight = self.kept_weight;
        self.units = Units::new(self.kept_balance, self.first.fine);
    }

    /// That the numbers are within their ranges.
    fn ranges(&self)
        ensures { HasRanges self.now }
    {
        let _places = self.multipliers.places();
    }
}

/// A whole variable in the units of its anchor.
const ONE: u128 = 1 << 96;
