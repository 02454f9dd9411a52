ghost use Rattle.world_core.specs.Rows.{Leaves, two_proxies, relayed, write_then_read, write_then_read_marks, two_writes, two_writes_marks, given_up, given_up_marks, faulty_tables, faulty_tables_marks, move_then_write, move_then_write_marks, two_moves, two_moves_marks, put_then_get, put_then_get_marks, eventual_move, eventual_move_marks};

/// Small schedules leave the marks, and send as many messages, as were reckoned by hand.
#[tactic(auto, using(crate::proofs::Rows::write_then_read_leaves, crate::proofs::Rows::two_writes_leave, crate::proofs::Rows::given_up_leaves, crate::proofs::Rows::faulty_tables_leave, crate::proofs::Rows::move_then_write_leaves, crate::proofs::Rows::two_moves_leave, crate::proofs::Rows::put_then_get_leaves, crate::proofs::Rows::eventual_move_leaves))]
pub fn schedules_run_as_reckoned()
    ensures write_then_read { Leaves two_proxies write_then_read write_then_read_marks 23 }
    ensures two_writes { Leaves two_proxies two_writes two_writes_marks 18 }
    ensures given_up { Leaves two_proxies given_up given_up_marks 8 }
    ensures faulty_tables { Leaves two_proxies faulty_tables faulty_tables_marks 0 }
    ensures move_then_write { Leaves two_proxies move_then_write move_then_write_marks 34 }
    ensures two_moves { Leaves two_proxies two_moves two_moves_marks 29 }
    ensures put_then_get { Leaves relayed put_then_get put_then_get_marks 6 }
    ensures eventual_move { Leaves relayed eventual_move eventual_move_marks 18 }
{}
