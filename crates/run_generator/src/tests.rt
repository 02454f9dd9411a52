use crate::generate;
use std::test::Fail;

#[test]
fn the_first_runs(rt: HostRuntime) -> Result<(), Fail> {
    let alloc = rt.alloc();
    for (n, told) in [(0, (0, 0, 0)), (1, (0, 0, 4))] {
        let made = generate(alloc, n)?;
        assert_eq!(rt; (made.ok, made.ended, made.messages), told);
    }
    Ok(())
}
