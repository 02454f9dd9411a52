use crate::{Goal, Leaf, Line, LineFault, Pair, leaf_fits, leaf_value, push_line, read_line};
use span_base::Listed;
use std::alloc::{AllocError, Global};
use std::test::Fail;
use zero_one::{Entry, Fixed, Program, Row};

/// Costs from here on are refused by `make`.
const COST_LIMIT: u128 = 1_000_000_000_000_000_000_000_000;

fn entry(var: u16, coef: i32) -> Entry {
    Entry { var, coef }
}

/// Two centres and one member that may read from either: the variables say which centre is a
/// replica (0 and 1) and which is read (2 and 3).
fn two_centres(alloc: Global) -> Result<Option<Program>, AllocError> {
    let costs = vec![in alloc; 1028, 152, 50, 110]?;
    let mut rows = Vec::new(alloc);
    for (first, second, bound) in [
        (entry(2, 1), entry(3, 1), 1),
        (entry(0, 1), entry(2, -1), 0),
        (entry(1, 1), entry(3, -1), 0),
        (entry(0, 1), entry(1, 1), 1),
    ] {
        let entries = Listed::from_vec(vec![in alloc; first, second]?);
        rows.push(Row { entries, bound })?;
    }
    if !costs.iter().all(|cost| *cost < COST_LIMIT) {
        return Ok(None);
    }
    Ok(Program::make(costs, rows).ok())
}

/// The value of the leaf in a line, if it has one that fits.
fn value(program: &Program, fixed: &Fixed, line: &Line) -> Option<i128> {
    let Line::Close(leaf) = line else {
        return None;
    };
    if leaf_fits(program, leaf) && fixed.as_slice().len() == program.costs().len() {
        Some(leaf_value(program, fixed, leaf))
    } else {
        None
    }
}

#[test]
fn leaves_are_read_and_have_their_values(rt: HostRuntime) -> Result<(), Fail> {
    let alloc = rt.alloc();
    let program = two_centres(alloc)?.expect(&rt, "the limits are kept");
    let second = Fixed::from_vec(vec![in alloc; None, Some(true), None, None]?);
    for (text, bound) in [
        (b"l 1 0:262 1:212 2:152".as_slice(), Some(262)),
        (b"l 1".as_slice(), Some(152)),
        (b"l 0 0:1".as_slice(), Some(-1)),
        (b"l 1 3:0".as_slice(), None),
        (b"b 1".as_slice(), None),
    ] {
        let line = read_line(alloc, text)?;
        assert_eq!(rt; value(&program, &second, &line), bound);
    }
    Ok(())
}

/// Whether the line that a text says is printed as that text.
fn comes_back(alloc: Global, text: &[u8]) -> Result<bool, LineFault> {
    let line = read_line(alloc, text)?;
    let mut again = String::new(alloc);
    push_line(&mut again, &line)?;
    Ok(again.as_bytes() == text)
}

#[test]
fn lines_come_back(rt: HostRuntime) -> Result<(), Fail> {
    let alloc = rt.alloc();
    for (text, said) in [
        (b"b 65535".as_slice(), Ok(true)),
        (b"l 1 0:262 65535:152".as_slice(), Ok(true)),
        (b"b 65536x".as_slice(), Err(LineFault::Bad { at: 2 })),
        (b"l 1 5:1 ".as_slice(), Err(LineFault::Bad { at: 8 })),
    ] {
        assert_eq!(rt; comes_back(alloc, text), said);
    }
    Ok(())
}
