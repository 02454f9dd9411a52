use crate::Ascent;
use bound_cert::Goal;
use span_base::Listed;
use std::alloc::{AllocError, Global};
use std::test::Fail;
use zero_one::{Bits, Entry, Fixed, Program, Row};

/// Two variables, of costs 1 and 4: at least one of them is to be chosen, and the second is.
fn second_of_two(alloc: Global) -> Result<Option<Program>, AllocError> {
    let first = Entry { var: 0, coef: 1 };
    let second = Entry { var: 1, coef: 1 };
    let either = Row {
        entries: Listed::from_vec(vec![in alloc; first, second]?),
        bound: 1,
    };
    let wanted = Row {
        entries: Listed::from_vec(vec![in alloc; second]?),
        bound: 1,
    };
    let rows = vec![in alloc; either, wanted]?;
    Ok(Program::make(vec![in alloc; 1, 4]?, rows).ok())
}

/// The cheaper variable is raised for the first row, and lowered again once the other is raised.
#[test]
fn a_rounding_raises_and_lowers(rt: HostRuntime) -> Result<(), Fail> {
    let alloc = rt.alloc();
    let program = second_of_two(alloc)?.expect(&rt, "the limits are kept");
    let mut found = Bits::from_vec(vec![in alloc; true, false]?);
    assert!(rt; found.len() == program.costs().len());
    let mut ascent = Ascent::make(alloc, &program)?;
    assert!(rt; ascent.explore(&program, &mut found));
    let best = [false, true];
    assert_eq!(rt; found.as_slice(), best.as_slice());
    Ok(())
}

/// A variable that is fixed to 1 stays, and one that is fixed to 0 can't be raised.
#[test]
fn a_rounding_keeps_what_is_fixed(rt: HostRuntime) -> Result<(), Fail> {
    let alloc = rt.alloc();
    let program = second_of_two(alloc)?.expect(&rt, "the limits are kept");
    for (fixed, is_found) in [([Some(true), None], true), ([None, Some(false)], false)] {
        let fixed = Fixed::from_vec(Vec::from_array(alloc, fixed)?);
        let mut ascent = Ascent::make(alloc, &program)?;
        let mut found = Bits::from_vec(vec![in alloc; false; 2]?);
        assert!(rt; fixed.len() == program.costs().len() && found.len() == fixed.len());
        assert_eq!(rt; ascent.round(&program, &fixed, None, &mut found), is_found);
    }
    Ok(())
}

fn row(
    alloc: Global,
    first: (u16, i32),
    second: (u16, i32),
    bound: i32,
) -> Result<Row, AllocError> {
    let first = Entry {
        var: first.0,
        coef: first.1,
    };
    let second = Entry {
        var: second.0,
        coef: second.1,
    };
    Ok(Row {
        entries: Listed::from_vec(vec![in alloc; first, second]?),
        bound,
    })
}

/// Two centres and one member that may read from either: the variables say which centre is a
/// replica (0 and 1) and which is read (2 and 3). The least cost is 262.
fn two_centres(alloc: Global) -> Result<Option<Program>, AllocError> {
    let read = row(alloc, (2, 1), (3, 1), 1)?;
    let first = row(alloc, (0, 1), (2, -1), 0)?;
    let second = row(alloc, (1, 1), (3, -1), 0)?;
    let kept = row(alloc, (0, 1), (1, 1), 1)?;
    let rows = vec![in alloc; read, first, second, kept]?;
    Ok(Program::make(vec![in alloc; 1028, 152, 50, 110]?, rows).ok())
}

/// The last row by the cost 152 shows that nothing is below it, and no leaf shows what isn't so.
/// The read that is raised first makes its centre a replica.
#[test]
fn two_centres_are_bounded_and_rounded(rt: HostRuntime) -> Result<(), Fail> {
    let alloc = rt.alloc();
    let program = two_centres(alloc)?.expect(&rt, "the limits are kept");
    let free = Fixed::from_vec(vec![in alloc; None; 4]?);
    let mut found = Bits::from_vec(vec![in alloc; false; 4]?);
    assert!(rt; free.len() == program.costs().len() && found.len() == free.len());
    let mut ascent = Ascent::make(alloc, &program)?;
    assert!(rt; ascent.improve(&program, &free, Goal::Cost(152)));
    assert!(rt; !ascent.improve(&program, &free, Goal::Cost(263)));
    assert!(rt; ascent.explore(&program, &mut found));
    Ok(())
}
