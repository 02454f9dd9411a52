use crate::{print_csv, read_csv};
use std::test::Fail;

/// A world of each version, as it is printed.
const WORLDS: [&str; 2] = [
    "span,1
dc,x,north,10,5,7
link,x,x,3,20
set,s,direct,0,30,40,100,2
set,t,strong,3,1,2,5,6
use,s,x,10,4
use,t,x,0,1
",
    "span,2
dc,x,north,10,5,7
link,x,x,3,20
set,s,relay,1,30,40,100,2,1
set,t,direct,2,1,2,5,6,16
use,s,x,10,4
use,t,x,0,1
",
];

#[test]
fn prints_a_world_as_it_was_read(rt: HostRuntime) -> Result<(), Fail> {
    for text in WORLDS {
        let world = read_csv(rt.alloc(), text.as_bytes())?;
        let printed = print_csv(rt.alloc(), &world)?;
        assert_eq!(rt; printed.as_slice(), text.as_bytes());
    }
    Ok(())
}
