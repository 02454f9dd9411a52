use crate::{Bits, Entry, Fixed, Program, ProgramFault, Row};
use span_base::Listed;
use std::alloc::{AllocError, Global};
use std::test::Fail;

/// Costs from here on are refused by `make`.
const COST_LIMIT: u128 = 1_000_000_000_000_000_000_000_000;

fn make(costs: Vec<u128>, rows: Vec<Row>) -> Option<Result<Program, ProgramFault>> {
    if costs.iter().all(|cost| *cost < COST_LIMIT) {
        Some(Program::make(costs, rows))
    } else {
        None
    }
}

fn row(alloc: Global, first: Entry, second: Entry, bound: i32) -> Result<Row, AllocError> {
    Ok(Row {
        entries: Listed::from_vec(vec![in alloc; first, second]?),
        bound,
    })
}

fn entry(var: u16, coef: i32) -> Entry {
    Entry { var, coef }
}

/// Two centres and one member that may read from either: the variables say which centre is a
/// replica (0 and 1) and which is read (2 and 3).
fn two_centres(alloc: Global) -> Result<(Vec<u128>, Vec<Row>), AllocError> {
    let costs = vec![in alloc; 1028, 152, 50, 110]?;
    let mut rows = Vec::new(alloc);
    rows.push(row(alloc, entry(2, 1), entry(3, 1), 1)?)?;
    rows.push(row(alloc, entry(0, 1), entry(2, -1), 0)?)?;
    rows.push(row(alloc, entry(1, 1), entry(3, -1), 0)?)?;
    rows.push(row(alloc, entry(0, 1), entry(1, 1), 1)?)?;
    rows.push(row(alloc, entry(0, 1), entry(1, 1), 1)?)?;
    Ok((costs, rows))
}

#[test]
fn values_and_rows_of_two_centres(rt: HostRuntime) -> Result<(), Fail> {
    let alloc = rt.alloc();
    let (costs, rows) = two_centres(alloc)?;
    let program = make(costs, rows)
        .expect(&rt, "the costs are small")
        .expect(&rt, "the limits are kept");
    assert_eq!(rt; program.costs().len(), 4);
    assert_eq!(rt; program.rows().len(), 5);
    let second = Bits::from_vec(vec![in alloc; false, true, false, true]?);
    assert_eq!(rt; program.value(&second), 262);
    assert_eq!(rt; program.broken_row(&second), None);
    let unread = Bits::from_vec(vec![in alloc; false, true, true, false]?);
    assert_eq!(rt; program.broken_row(&unread), Some(1));
    let mut fixed = Fixed::from_vec(vec![in alloc; Some(false), None, None, None]?);
    assert_eq!(rt; program.row_can_hold(&fixed, 1), true);
    assert_eq!(rt; program.row_can_hold(&fixed, 3), true);
    fixed.set(1, Some(false));
    assert_eq!(rt; program.row_can_hold(&fixed, 3), false);
    Ok(())
}
