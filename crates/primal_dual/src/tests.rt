use crate::{Engine, Outcome};
use bound_cert::{Goal, Leaf, Pair, closes, leaf_fits, leaf_value};
use span_base::Listed;
use std::alloc::{AllocError, Global};
use std::test::Fail;
use zero_one::{Entry, Fixed, Program, Row};

/// Costs from here on are refused by `make`.
const COST_LIMIT: u128 = 1_000_000_000_000_000_000_000_000;

fn entry(var: u16, coef: i32) -> Entry {
    Entry { var, coef }
}

/// A program with rows of two entries.
fn program(
    alloc: Global,
    costs: &[u128],
    pairs: &[(Entry, Entry, i32)],
) -> Result<Option<Program>, AllocError> {
    let costs = Vec::from_slice(alloc, costs)?;
    let mut rows = Vec::new(alloc);
    for (first, second, bound) in pairs {
        let entries = Listed::from_vec(vec![in alloc; *first, *second]?);
        rows.push(Row {
            entries,
            bound: *bound,
        })?;
    }
    if !costs.iter().all(|cost| *cost < COST_LIMIT) {
        return Ok(None);
    }
    Ok(Program::make(costs, rows).ok())
}

/// How a run from the start ends with every variable free, and whether the leaf that it leaves
/// closes.
fn end_of(alloc: Global, program: &Program, goal: Goal) -> Result<(Outcome, bool), AllocError> {
    let free = Fixed::from_vec(vec![in alloc; None; program.costs().len()]?);
    let mut engine = Engine::make(alloc, program)?;
    let outcome = engine.run(program, &free, goal, 5_000, false);
    let mut pairs = Vec::new(alloc);
    for (row, mult) in engine.multipliers().iter().enumerate() {
        if let Ok(row) = u16::try_from(row) {
            if *mult > 0 {
                pairs.push(Pair { row, mult: *mult })?;
            }
        }
    }
    let leaf = Leaf {
        s: engine.weight(),
        pairs: Listed::from_vec(pairs),
    };
    let fits = leaf_fits(program, &leaf);
    let is_closed = fits && closes(leaf_value(program, &free, &leaf), leaf.s, goal);
    Ok((outcome, is_closed))
}

/// Two centres and one member that may read from either: the variables say which centre is a
/// replica (0 and 1) and which is read (2 and 3). The least cost is 262.
const TWO_CENTRES: [(Entry, Entry, i32); 4] = [
    (Entry { var: 2, coef: 1 }, Entry { var: 3, coef: 1 }, 1),
    (Entry { var: 0, coef: 1 }, Entry { var: 2, coef: -1 }, 0),
    (Entry { var: 1, coef: 1 }, Entry { var: 3, coef: -1 }, 0),
    (Entry { var: 0, coef: 1 }, Entry { var: 1, coef: 1 }, 1),
];

#[test]
fn runs_close_up_to_the_least_cost(rt: HostRuntime) -> Result<(), Fail> {
    let alloc = rt.alloc();
    let program = program(alloc, &[1028, 152, 50, 110], &TWO_CENTRES)?.expect(&rt, "it is one");
    for (goal, outcome, is_closed) in [
        (Goal::Cost(0), Outcome::Closed, true),
        (Goal::Cost(262), Outcome::Closed, true),
        (Goal::Cost(264), Outcome::Open, false),
        (Goal::Nothing, Outcome::Open, false),
    ] {
        let end = end_of(alloc, &program, goal)?;
        assert_eq!(rt; end, (outcome, is_closed), "{goal:?}");
    }
    Ok(())
}

#[test]
fn what_was_kept_comes_back(rt: HostRuntime) -> Result<(), Fail> {
    let alloc = rt.alloc();
    // Both variables can't make 3.
    let program = program(
        alloc,
        &[COST_LIMIT - 1, 0],
        &[(entry(0, 1), entry(1, 1), 3)],
    )?
    .expect(&rt, "it is one");
    let free = Fixed::from_vec(vec![in alloc; None; 2]?);
    let mut engine = Engine::make(alloc, &program)?;
    assert_eq!(rt; program.costs().len(), 2);
    let outcome = engine.run(&program, &free, Goal::Nothing, 5_000, false);
    assert_eq!(rt; (outcome, engine.weight()), (Outcome::Closed, 0));
    engine.keep();
    let kept = Vec::from_slice(alloc, engine.multipliers())?;
    let outcome = engine.run(&program, &free, Goal::Cost(COST_LIMIT), 5_000, false);
    assert_eq!(rt; (outcome, engine.weight()), (Outcome::Closed, 1_000_000));
    engine.restore();
    assert_eq!(rt; engine.weight(), 0);
    assert_eq!(rt; engine.multipliers(), kept.as_slice());
    Ok(())
}
