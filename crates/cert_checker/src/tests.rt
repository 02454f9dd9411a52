use crate::{CertFault, Checker};
use bound_cert::{Goal, Leaf, Line, Pair};
use span_base::Listed;
use std::alloc::{AllocError, Global};
use std::test::Fail;
use zero_one::{Entry, Program, Row};

/// Costs from here on are refused by `make`.
const COST_LIMIT: u128 = 1_000_000_000_000_000_000_000_000;

fn row(
    alloc: Global,
    first: (u16, i32),
    second: (u16, i32),
    bound: i32,
) -> Result<Row, AllocError> {
    let first = Entry {
        var: first.0,
        coef: first.1,
    };
    let second = Entry {
        var: second.0,
        coef: second.1,
    };
    Ok(Row {
        entries: Listed::from_vec(vec![in alloc; first, second]?),
        bound,
    })
}

fn make(costs: Vec<u128>, rows: Vec<Row>) -> Option<Program> {
    if !costs.iter().all(|cost| *cost < COST_LIMIT) {
        return None;
    }
    Program::make(costs, rows).ok()
}

/// Two centres and one member that may read from either: the variables say which centre is a
/// replica (0 and 1) and which is read (2 and 3).
fn two_centres(alloc: Global) -> Result<Option<Program>, AllocError> {
    let costs = vec![in alloc; 1028, 152, 50, 110]?;
    let mut rows = Vec::new(alloc);
    rows.push(row(alloc, (2, 1), (3, 1), 1)?)?;
    rows.push(row(alloc, (0, 1), (2, -1), 0)?)?;
    rows.push(row(alloc, (1, 1), (3, -1), 0)?)?;
    rows.push(row(alloc, (0, 1), (1, 1), 1)?)?;
    rows.push(row(alloc, (0, 1), (1, 1), 1)?)?;
    Ok(make(costs, rows))
}

fn leaf(alloc: Global, s: u32, pairs: &[(u16, u128)]) -> Result<Line, AllocError> {
    let mut taken = Vec::new(alloc);
    for (row, mult) in pairs {
        taken.push(Pair {
            row: *row,
            mult: *mult,
        })?;
    }
    Ok(Line::Close(Leaf {
        s,
        pairs: Listed::from_vec(taken),
    }))
}

/// Feeds the lines up to the first that is refused, and tries what they prove.
fn verdict(
    alloc: Global,
    program: &Program,
    lines: &[Line],
    goal: Goal,
) -> Result<Result<(), CertFault>, AllocError> {
    let mut checker = Checker::make(alloc, program)?;
    for line in lines {
        if let Err(fault) = checker.feed(program, line) {
            return Ok(Err(fault));
        }
    }
    Ok(checker.finish(goal))
}

#[test]
fn trees_of_two_centres_prove_their_cost(rt: HostRuntime) -> Result<(), Fail> {
    let alloc = rt.alloc();
    let program = two_centres(alloc)?.expect(&rt, "the limits are kept");
    let leaf_alone = [leaf(alloc, 1, &[(0, 262), (1, 212), (2, 152)])?];
    assert_eq!(rt;
        verdict(alloc, &program, &leaf_alone, Goal::Cost(262))?,
        Ok(())
    );
    let split = [
        Line::Branch { var: 1 },
        leaf(alloc, 1, &[(0, 1078), (1, 1028), (2, 968)])?,
        leaf(alloc, 1, &[(0, 110), (1, 60)])?,
    ];
    for (goal, said) in [
        (Goal::Cost(262), Ok(())),
        (Goal::Cost(263), Err(CertFault::NotClosed { line: 3 })),
        (Goal::Nothing, Err(CertFault::Bounded { line: 2 })),
    ] {
        assert_eq!(rt; verdict(alloc, &program, &split, goal)?, said);
    }
    Ok(())
}

#[test]
fn lines_of_no_tree_are_refused(rt: HostRuntime) -> Result<(), Fail> {
    let alloc = rt.alloc();
    let program = two_centres(alloc)?.expect(&rt, "the limits are kept");
    let lines = [
        Line::Branch { var: 1 },
        Line::Branch { var: 1 },
        Line::Branch { var: 4 },
        leaf(alloc, 1, &[(5, 1)])?,
        leaf(alloc, 1, &[(0, 261), (1, 212), (2, 152)])?,
        leaf(alloc, 1, &[(0, 261), (1, 212), (2, 152)])?,
    ];
    for (from, to, said) in [
        (0, 1, CertFault::TooShort),
        (0, 2, CertFault::VarTwice),
        (2, 3, CertFault::NoSuchVar),
        (3, 4, CertFault::RowUnknown),
        (4, 5, CertFault::NotClosed { line: 1 }),
        (4, 6, CertFault::TooLong),
    ] {
        let part = lines.get(from..to).ok_or("no such lines")?;
        assert_eq!(rt; verdict(alloc, &program, part, Goal::Cost(262))?, Err(said));
    }
    Ok(())
}

#[test]
fn leaves_without_costs_refute(rt: HostRuntime) -> Result<(), Fail> {
    let alloc = rt.alloc();
    let program = two_centres(alloc)?.expect(&rt, "the limits are kept");
    let open = [
        Line::Branch { var: 2 },
        leaf(alloc, 1, &[])?,
        leaf(alloc, 0, &[(0, 1)])?,
    ];
    let said = Err(CertFault::NotClosed { line: 3 });
    assert_eq!(rt; verdict(alloc, &program, &open, Goal::Nothing)?, said);
    let never = Row {
        entries: Listed::new(alloc),
        bound: 1,
    };
    let program = make(vec![in alloc; 1028]?, vec![in alloc; never]?).expect(
        &rt,
        "the limits are kept",
    );
    assert_eq!(rt;
        verdict(
            alloc,
            &program,
            &[leaf(alloc, 0, &[(0, 1)])?],
            Goal::Nothing
        )?,
        Ok(())
    );
    Ok(())
}

#[test]
fn leaves_out_of_range_are_refused(rt: HostRuntime) -> Result<(), Fail> {
    let alloc = rt.alloc();
    let program = two_centres(alloc)?.expect(&rt, "the limits are kept");
    for out in [
        leaf(alloc, 1_000_001, &[(0, 1)])?,
        leaf(alloc, 1, &[(0, 0)])?,
        leaf(alloc, 1, &[(1, 5), (0, 5)])?,
    ] {
        let said = verdict(alloc, &program, &[out], Goal::Cost(262))?;
        assert_eq!(rt; said, Err(CertFault::Range));
    }
    Ok(())
}

#[test]
fn where_all_is_free_the_cost_is_nought(rt: HostRuntime) -> Result<(), Fail> {
    let alloc = rt.alloc();
    let program = make(vec![in alloc; 0, 0]?, Vec::new(alloc)).expect(&rt, "the limits are kept");
    let said = verdict(alloc, &program, &[leaf(alloc, 1, &[])?], Goal::Cost(0))?;
    assert_eq!(rt; said, Ok(()));
    Ok(())
}
