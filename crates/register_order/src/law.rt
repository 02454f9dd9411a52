ghost use Rattle.std.specs.Prelude.{◌≡◌};
ghost use Rattle.run_marks.specs.History.{history_of};
ghost use Rattle.run_marks.specs.Register.{IsRegisterOrder};
ghost use Rattle.register_order.specs.Order.{order_of};
ghost use Rattle.register_order.specs.Clauses.{IsInOrder, KeepsValue};
ghost use Rattle.register_order.specs.Rows.{overlapping, overlapping_order, other_order, stale, early_front, early_end};
ghost use Rattle.register_order.specs.Laws.{AgreeingCallsAreARegister, BreaksNoneExactly, RegisterCallsAgree, UnbrokenLogsAreRegisters};

/// A history is that of one register exactly where its calls agree with each other, and they then
/// take effect in the order of their stamps.
pub fn agreeing_calls_are_a_register()
    ensures register { AgreeingCallsAreARegister }
    ensures agree { RegisterCallsAgree }
{}

/// A log breaks no clause of the audit exactly where each of its lines is well formed and up to
/// each of them the history of each key is that of one register.
pub fn unbroken_logs_are_registers()
    ensures register { UnbrokenLogsAreRegisters }
    ensures exactly { BreaksNoneExactly }
{}

/// Small logs are judged as was reckoned by hand: calls that overlap have the order of their
/// stamps, a read that gives what was there before a write that had ended is no register's, and
/// one that gives a ticket of which no line speaks yet breaks a clause.
#[tactic(auto, using(crate::proofs::Rows::overlapping_calls_stand_so, crate::proofs::Rows::the_other_key_has_one, crate::proofs::Rows::stale_read_is_refused, crate::proofs::Rows::stale_read_breaks_order, crate::proofs::Rows::early_read_breaks_value))]
pub fn worked_logs_are_judged()
    ensures overlapping { order_of (history_of 0 overlapping) ≡ overlapping_order }
    ensures other_key { order_of (history_of 1 overlapping) ≡ other_order }
    ensures no_register { IsRegisterOrder (history_of 0 stale) → ⊥ }
    ensures not_in_order { IsInOrder (history_of 0 stale) → ⊥ }
    ensures early { KeepsValue early_front early_end → ⊥ }
{}
