use crate::{AuditFault, Clause, Summary, audit};
use std::test::Fail;

/// A log, and the line and the clause that it breaks first.
const BROKEN: [(&[u8], u64, Clause); 15] = [
    (b"begin 0.2 read 0\nmessages 0\n", 1, Clause::Call),
    (
        b"begin 0.1 read 0\nend 0.1 full\nend 0.1 full\nmessages 0\n",
        3,
        Clause::Call,
    ),
    (b"ticket 0.1 1.1.0.1\nmessages 0\n", 1, Clause::Call),
    (
        b"begin 0.1 read 0\nticket 0.1 1.1.0.1\nmessages 0\n",
        2,
        Clause::Kind,
    ),
    (
        b"begin 0.1 read 0\nend 0.1 unsure\nmessages 0\n",
        2,
        Clause::Kind,
    ),
    (
        b"begin 0.1 write 0 aa\nticket 0.1 1.0.0.1\nmessages 0\n",
        2,
        Clause::Stamp,
    ),
    (
        b"begin 0.1 write 0 aa\nticket 0.1 1.1.0.1\nticket 0.1 1.1.0.1\nmessages 0\n",
        3,
        Clause::Stamp,
    ),
    (
        b"begin 0.1 write 0 aa\nend 0.1 ok 1.1.0.1\nmessages 0\n",
        2,
        Clause::Stamp,
    ),
    (
        b"begin 1.1 read 0\nend 1.1 ok 1.1.0.1 aa\nbegin 0.1 write 0 aa\nticket 0.1 1.1.0.1\nmessages 0\n",
        2,
        Clause::Value,
    ),
    (
        b"begin 1.1 read 0\nend 1.1 ok 0.0.0.0 aa\nmessages 0\n",
        2,
        Clause::Value,
    ),
    (
        b"begin 0.1 write 0 aa\nticket 0.1 1.1.0.1\nend 0.1 full\nbegin 1.1 read 0\nend 1.1 ok 1.1.0.1 aa\nmessages 0\n",
        5,
        Clause::Dead,
    ),
    (
        b"begin 0.1 write 0 aa\nticket 0.1 1.1.0.1\nbegin 1.1 read 0\nend 1.1 ok 1.1.0.1 aa\nend 0.1 moved 1\nmessages 0\n",
        5,
        Clause::Dead,
    ),
    (
        b"begin 0.1 write 0 aa\nticket 0.1 1.1.0.1\nend 0.1 ok 1.1.0.1\nbegin 1.1 read 0\nend 1.1 ok 0.0.0.0 -\nmessages 0\n",
        5,
        Clause::Order,
    ),
    (
        b"begin 0.1 write 0 aa\nticket 0.1 1.1.0.1\nbegin 1.1 read 0\nbegin 2.1 read 0\nend 1.1 ok 1.1.0.1 aa\nticket 0.1 2.1.0.1\nend 2.1 ok 2.1.0.1 aa\nmessages 0\n",
        7,
        Clause::Order,
    ),
    (
        b"begin 0.1 write 0 aa\nticket 0.1 1.5.0.1\nbegin 1.1 read 0\nend 1.1 ok 1.5.0.1 aa\nbegin 2.1 write 0 bb\nticket 2.1 1.4.2.1\nend 2.1 ok 1.4.2.1\nmessages 0\n",
        7,
        Clause::Order,
    ),
];

#[test]
fn each_clause_is_told_where_it_breaks_first(rt: HostRuntime) -> Result<(), Fail> {
    for (log, line, clause) in BROKEN {
        assert_eq!(rt;
            audit(rt.alloc(), log),
            Err(AuditFault::Broken { line, clause })
        );
    }
    Ok(())
}

#[test]
fn a_register_is_summed_up(rt: HostRuntime) -> Result<(), Fail> {
    let log =
        b"begin 0.1 write 0 aa\nticket 0.1 1.1.0.1\nend 0.1 unsure\nbegin 1.1 read 0\nend 1.1 ok 1.1.0.1 aa\nbegin 1.2 get 7\nend 1.2 ok 3.3.3.3 bb\nbegin 2.1 read 1\nmessages 9".as_slice();
    let summary = Summary {
        calls: 3,
        counted: 2,
        keys: 2,
    };
    assert_eq!(rt; audit(rt.alloc(), log), Ok(summary));
    Ok(())
}
