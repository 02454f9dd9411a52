//! Whether an assignment answers a node: it is feasible and agrees with the fixed variables.

ghost use Rattle.std.specs.Prelude.{◌≡◌, Bool, IsTrue, length};
ghost use Rattle.zero_one.specs.Rows.{Agrees};
ghost use Rattle.dual_ascent.specs.Short.{IsSolution};

use zero_one::{Bits, Fixed, Program};

/// Whether the assignment is feasible and gives each fixed variable its bit.
pub(crate) fn is_solution(program: &Program, fixed: &Fixed, x: &Bits) -> bool
    requires vars { length fixed.now ≡ length program.now.costs }
    requires bits { length x.now ≡ length program.now.costs }
    ensures { IsTrue result → IsSolution program.now fixed.now x.now }
{
    program.broken_row(x).is_none() && agrees(fixed.as_slice(), x.as_slice())
}

fn agrees(fixed: &[Option<bool>], x: &[bool]) -> bool
    requires { length x.now ≡ length fixed.now }
    ensures { IsTrue result → Agrees fixed.now x.now }
{
    for (i, bit) in fixed.iter().enumerate() {
        if !allows(*bit, x[i]) {
            return false;
        }
    }
    true
}

/// Whether a variable that is fixed to this, or free, can have the bit.
fn allows(fixed: Option<bool>, bit: bool) -> bool
    ensures { IsTrue result → ((wanted : Bool) → fixed ≡ Some wanted → bit ≡ wanted) }
{
    match fixed {
        Some(wanted) => bit == wanted,
        None => true,
    }
}

/// Writes the bits over others.
pub fn copy_bits(to: &mut Bits, from: &Bits)
    requires { length to.old ≡ length from.now }
    ensures { to.new ≡ from.now }
{
    let bits = from.as_slice();
    for i in 0..bits.len() {
        to.set(i, bits[i]);
    }
}
