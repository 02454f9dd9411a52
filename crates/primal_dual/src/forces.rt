//! What pulls the coordinates at their anchors, worked out exactly.

ghost use Rattle.std.specs.Prelude.{◌≡◌, ◌^◌, ◌<◌, ◌≤◌, unsigned_abs, length, All};
ghost use Rattle.zero_one.specs.Rows.{weight_of};
ghost use Rattle.primal_dual.specs.Places.{AreWithin};

use crate::side::Side;
use zero_one::Row;

/// A whole variable in the units of its anchor.
const ONE: i128 = 1 << 96;

/// Pulls each variable by its cost, taken so often, less what the multipliers give for it.
pub(crate) fn pull_variables(side: &mut Side, costs: &[u128], scale: u32, multipliers: &[u128])
    requires costs { All (λ cost. cost < 10 ^ 24) costs.now }
    requires count { length costs.now ≡ side.old.sizes.lines }
    requires scale { scale ≤ 10 ^ 6 }
    requires others { length multipliers.now ≡ side.old.sizes.others }
    requires places { AreWithin (2 ^ 100) multipliers.now }
    ensures { side.new ≡ side.old }
{
    for (var, cost) in costs.iter().enumerate() {
        side.pull(var, -scaled(*cost, scale), multipliers);
    }
}

fn scaled(cost: u128, scale: u32) -> i128
    requires cost { cost < 10 ^ 24 }
    requires scale { scale ≤ 10 ^ 6 }
    ensures { unsigned_abs result ≤ 2 ^ 100 }
{
    (u128::from(scale) * cost) as i128
}

/// Pulls each multiplier by what its row asks for, less what the variables give.
pub(crate) fn pull_multipliers(side: &mut Side, rows: &[Row], variables: &[u128])
    requires light { weight_of rows.now ≤ 10 ^ 7 }
    requires count { length rows.now ≡ side.old.sizes.lines }
    requires others { length variables.now ≡ side.old.sizes.others }
    requires places { AreWithin (2 ^ 100) variables.now }
    ensures { side.new ≡ side.old }
{
    for (line, row) in rows.iter().enumerate() {
        side.pull(line, i128::from(row.bound) * ONE, variables);
    }
}
