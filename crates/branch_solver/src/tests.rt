ghost use Rattle.std.specs.Prelude.{◌≤◌, ◌^◌};

use crate::{LineBuf, Progress, Search};
use bound_cert::Goal;
use cert_checker::{CertFault, Checker};
use span_base::Listed;
use std::alloc::{AllocError, Global};
use std::test::Fail;
use zero_one::{Entry, Program, Row};

/// Costs from here on are refused by `make`.
const COST_LIMIT: u128 = 1_000_000_000_000_000_000_000_000;

fn make(costs: Vec<u128>, rows: Vec<Row>) -> Option<Program> {
    if !costs.iter().all(|cost| *cost < COST_LIMIT) {
        return None;
    }
    Program::make(costs, rows).ok()
}

/// Triangles apart from one another, whose corners cost 1000 each; at least one end of each edge is
/// to be chosen. Half of each corner would do, so no leaf shows more than 1500 of a triangle of
/// which nothing is fixed.
fn triangles(alloc: Global, count: u16) -> Result<Option<Program>, AllocError> {
    let mut costs = Vec::new(alloc);
    let mut rows = Vec::new(alloc);
    for triangle in 0..count.min(100) {
        for (corner, next) in [(0, 1), (1, 2), (2, 0)] {
            let one = 3 * triangle + corner;
            let other = 3 * triangle + next;
            rows.push(edge(alloc, one.min(other), one.max(other))?)?;
            costs.push(1000)?;
        }
    }
    Ok(make(costs, rows))
}

fn edge(alloc: Global, one: u16, other: u16) -> Result<Row, AllocError> {
    let one = Entry { var: one, coef: 1 };
    let other = Entry {
        var: other,
        coef: 1,
    };
    Ok(Row {
        entries: Listed::from_vec(vec![in alloc; one, other]?),
        bound: 1,
    })
}

/// A program of variables of one cost, all with one coefficient in its only row, if there is one;
/// and how its search ends.
#[derive(Clone, Copy, Debug)]
struct Case {
    variables: u16,
    cost: u128,
    coef: i32,
    bound: Option<i32>,
    end: Progress,
}

const CASES: [Case; 9] = [
    // Nothing is asked, or nothing can be.
    Case {
        variables: 0,
        cost: 0,
        coef: 1,
        bound: None,
        end: Progress::Found { cost: 0 },
    },
    Case {
        variables: 0,
        cost: 0,
        coef: 1,
        bound: Some(1),
        end: Progress::NoneThere,
    },
    Case {
        variables: 2,
        cost: 5,
        coef: 1,
        bound: None,
        end: Progress::Found { cost: 0 },
    },
    // More is asked than there is.
    Case {
        variables: 2,
        cost: 5,
        coef: 1,
        bound: Some(3),
        end: Progress::NoneThere,
    },
    // Every choice costs nothing.
    Case {
        variables: 2,
        cost: 0,
        coef: 1,
        bound: Some(1),
        end: Progress::Found { cost: 0 },
    },
    // At most one may be chosen.
    Case {
        variables: 2,
        cost: 5,
        coef: -3,
        bound: Some(-5),
        end: Progress::Found { cost: 0 },
    },
    // The greatest cost, and the greatest weight.
    Case {
        variables: 2,
        cost: COST_LIMIT - 1,
        coef: 1,
        bound: Some(1),
        end: Progress::Found {
            cost: COST_LIMIT - 1,
        },
    },
    Case {
        variables: 1,
        cost: 7,
        coef: 5_000_000,
        bound: Some(5_000_000),
        end: Progress::Found { cost: 7 },
    },
    // Half of all are needed.
    Case {
        variables: 40,
        cost: 1,
        coef: 1,
        bound: Some(20),
        end: Progress::Found { cost: 20 },
    },
];

fn of_equals(alloc: Global, case: Case) -> Result<Option<Program>, AllocError> {
    let mut rows = Vec::new(alloc);
    if let Some(bound) = case.bound {
        let mut entries = Listed::new(alloc);
        for var in 0..case.variables {
            entries.push(Entry {
                var,
                coef: case.coef,
            })?;
        }
        rows.push(Row { entries, bound })?;
    }
    let costs = vec![in alloc; case.cost; usize::from(case.variables)]?;
    Ok(make(costs, rows))
}

/// How a search ended: after how many lines, what it said then and says again, and what a checker
/// finds in its lines.
#[derive(Clone, Copy, Debug)]
struct Ended {
    lines: u64,
    end: Progress,
    again: Progress,
    verdict: Result<(), CertFault>,
}

/// Searches, and has each line checked as it comes. Nothing where a search doesn't end past its
/// budget.
fn search(alloc: Global, program: &Program, budget: u64) -> Result<Option<Ended>, AllocError>
    requires { budget ≤ 10 ^ 9 }
{
    let mut search = Search::make(alloc, program, budget)?;
    let mut line = LineBuf::make(alloc, program)?;
    let mut checker = Checker::make(alloc, program)?;
    for lines in 0..=budget {
        let end = search.step(program, &mut line);
        if end != Progress::Line {
            let again = search.step(program, &mut line);
            let verdict = checker.finish(goal_of(end));
            return Ok(Some(Ended {
                lines,
                end,
                again,
                verdict,
            }));
        }
        if let Err(fault) = checker.feed(program, line.line()) {
            return Ok(Some(Ended {
                lines,
                end,
                again: end,
                verdict: Err(fault),
            }));
        }
    }
    Ok(None)
}

/// What a search that ended so has shown.
fn goal_of(end: Progress) -> Goal {
    match end {
        Progress::Found { cost } | Progress::Budget { best: Some(cost) } => Goal::Cost(cost),
        Progress::Line | Progress::NoneThere | Progress::Budget { best: None } => Goal::Nothing,
    }
}

/// A budget that every tree of the program fits into is never used up; a smaller one is, to the
/// line.
#[test]
fn triangles_are_searched_within_a_budget(rt: HostRuntime) -> Result<(), Fail> {
    let alloc = rt.alloc();
    for (count, budget, cost) in [
        (1, 1, None),
        (1, 15, Some(2000)),
        (4, 8191, Some(8000)),
        (6, 1, None),
        (6, 2, None),
        (6, 3, None),
        (6, 100, None),
    ] {
        let program = triangles(alloc, count)?.expect(&rt, "the limits are kept");
        let ended = search(alloc, &program, budget)?.expect(&rt, "a search ends");
        assert_eq!(rt; ended.end, ended.again);
        match (cost, ended.end) {
            (Some(cost), end) => assert_eq!(rt;
                (end, ended.verdict),
                (Progress::Found { cost }, Ok(()))
            ),
            (None, Progress::Budget { .. }) => assert_eq!(rt;
                (ended.lines, ended.verdict),
                (budget, Err(CertFault::TooShort))
            ),
            (None, _) => assert!(rt; false, "{ended:?}"),
        }
    }
    Ok(())
}

/// One short leaf closes each of these at the root.
#[test]
fn equals_are_searched_in_one_line(rt: HostRuntime) -> Result<(), Fail> {
    let alloc = rt.alloc();
    for case in CASES {
        let program = of_equals(alloc, case)?.expect(&rt, "the limits are kept");
        let ended = search(alloc, &program, 1)?.expect(&rt, "a search ends");
        assert_eq!(rt;
            (ended.lines, ended.end, ended.verdict),
            (1, case.end, Ok(())),
            "{case:?}"
        );
    }
    Ok(())
}
