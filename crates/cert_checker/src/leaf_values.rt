ghost use Rattle.std.specs.Prelude.{◌≡◌, ◌<◌, ◌≤◌, length, MatchResult, MatchBool, All, Any};
ghost use Rattle.bound_cert.specs.Leaves.{leaf_bound};
ghost use Rattle.cert_checker.specs.Lines.{IsTakenUnder, IsRefusedUnder};

use crate::faults::CertFault;
use bound_cert::{Leaf, Line, leaf_fits, leaf_value_in};
use zero_one::{Fixed, Program};

/// The value of a leaf, at the end of a path that fixes these variables; `line` is its number.
pub(crate) fn value_of_leaf(
    program: &Program,
    fixed: &Fixed,
    leaf: &Leaf,
    scratch: &mut [i128],
    line: u64,
) -> Result<i128, CertFault>
    requires vars { length fixed.now ≡ length program.now.costs }
    requires scratch { length scratch.old ≡ length program.now.costs }
    ensures { MatchResult result
        (λ value. IsTakenUnder program.now fixed.now (Line.Close leaf.now)
        × (value ≡ leaf_bound program.now fixed.now leaf.now))
        (λ fault. IsRefusedUnder program.now fixed.now line (Line.Close leaf.now) fault) }
{
    if !knows_its_rows(leaf, program.rows().len()) {
        return Err(CertFault::RowUnknown);
    }
    if !leaf_fits(program, leaf) {
        return Err(CertFault::Range);
    }
    let value = leaf_value_in(program, fixed, leaf, scratch);
    if leaf.s == 0 && value <= 0 {
        return Err(CertFault::NotClosed { line });
    }
    Ok(value)
}

/// Whether the leaf takes only rows of the first `count`.
fn knows_its_rows(leaf: &Leaf, count: usize) -> bool
    ensures { MatchBool result (All (λ pair. pair.row < count) leaf.now.pairs)
        (Any (λ pair. count ≤ pair.row) leaf.now.pairs) }
{
    leaf.pairs
        .as_slice()
        .iter()
        .all(|pair| usize::from(pair.row) < count)
}
