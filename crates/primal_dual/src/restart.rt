//! Restarts: the anchors move to where the last round led, and the units are chosen anew. This is
//! iterative refinement too: what is left is worked out exactly, and in a finer unit.

use crate::anchors::Measure;
use crate::engine::Engine;
use crate::units::Units;
use bound_cert::Goal;

impl Engine {
    ghost use Rattle.std.specs.Prelude.{◌≡◌, ◌≤◌};
    ghost use Rattle.primal_dual.specs.Engines.{KeepsRoom};

    /// Moves the anchors, and chooses the units anew.
    pub(crate) fn restart(&mut self, goal: Goal)
        ensures { KeepsRoom self.old self.new }
    {
        self.rebase();
        let balance = match goal {
            Goal::Cost(_) => self.units.balance_after(
                self.first.balance,
                self.variables.way(),
                self.multipliers.way(),
            ),
            Goal::Nothing => self.units.balance,
        };
        let farthest = self.variables.farthest().max(self.multipliers.farthest());
        let fine = self
            .units
            .fine_after(self.first.fine, self.variables.limit(), farthest);
        self.units = Units::new(balance, fine);
        self.localize();
    }

    /// Moves the anchors to where the last round led.
    pub(crate) fn rebase(&mut self)
        ensures { KeepsRoom self.old self.new }
    {
        self.note_targets();
        let of_variables = self.units.of_variables();
        let of_multipliers = self.units.of_multipliers();
        self.variables
            .rebase(of_variables, self.multipliers.targets(), of_multipliers);
        self.multipliers
            .rebase(of_multipliers, self.variables.targets(), of_variables);
    }

    /// Goes back to the balance from before a run without costs.
    pub(crate) fn settle(&mut self, goal: Goal, balance: u32)
        requires { balance ≤ 100 }
        ensures { self.new ≡ self.old }
    {
        if goal == Goal::Nothing {
            self.units = Units::new(balance, self.first.fine);
        }
    }

    /// Begins the local problem at the anchors.
    pub(crate) fn localize(&mut self)
        ensures { self.new ≡ self.old }
    {
        let of_variables = self.units.of_variables();
        let of_multipliers = self.units.of_multipliers();
        self.variables.localize(Measure {
            place_shift: of_variables,
            force_shift: of_multipliers,
        });
        self.multipliers.localize(Measure {
            place_shift: of_multipliers,
            force_shift: of_variables,
        });
    }

    /// Notes where the last round led.
    pub(crate) fn note_targets(&mut self)
        ensures { self.new ≡ self.old }
    {
        self.variables.note_targets();
        self.multipliers.note_targets();
    }
}
