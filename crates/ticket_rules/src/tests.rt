use super::*;

#[test]
fn tickets_and_their_numbers(rt: HostRuntime) {
    assert_eq!(rt;
        next_ticket(1, u64::MAX, 0, 1),
        Err(NumbersOut {
            top: 18_446_744_073_709_551_615
        })
    );
    let first = next_ticket(1, 0, 0, 1);
    assert_eq!(rt;
        first,
        Ok(Stamp {
            epoch: 1,
            number: 1,
            proxy: 0,
            seq: 1
        })
    );
}
