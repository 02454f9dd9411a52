ghost use Rattle.std.specs.Prelude.{◌≡◌, IfOk};
ghost use Rattle.placement_strong.specs.Programs.{set_program};
ghost use Rattle.placement_strong.specs.Laws.{IsStrongSet};

use crate::costs::set_costs;
use crate::rows::set_rows;
use placement_rows::FirstCentres;
use span_base::SetId;
use std::alloc::{AllocError, Global};
use workload::World;
use zero_one::Program;

/// The program of a strong set. It keeps the limits of programs, so that only memory can lack.
pub fn encode(alloc: Global, world: &World, set: SetId) -> Result<Program, AllocError>
    requires { IsStrongSet world.now set.0 }
    ensures { IfOk result (λ program. program ≡ set_program world.now set.0) }
{
    let firsts = FirstCentres::find(world, set);
    let costs = set_costs(alloc, world, set, &firsts)?;
    let rows = set_rows(alloc, world, set, &firsts)?;
    let Ok(program) = Program::make(costs, rows) else {
        unreachable!()
    };
    Ok(program)
}
