ghost use Rattle.world_core.specs.Laws.{RegistersAreKept};
ghost use Rattle.register_law.specs.Waiting.{IsWaiting, UnansweredWait};
ghost use Rattle.register_law.specs.WaitingPhases.{AnswersCount, PhasesLast};
ghost use Rattle.register_law.specs.WaitingRows.{one_yes, two_gone, two_yes};
ghost use Rattle.run_marks.specs.declared.mark.Work.TheVariants as w;
ghost use Rattle.world_core.specs.Run.{run_of};
ghost use Rattle.world_core.specs.Rows.{call, cc_value, hi, key, two_proxies};

/// For every header with sound policies and every list of events, the history of each strong key
/// is that of one register, whatever is lost, repeated, reordered, stopped, given up, published or
/// moved, also where the run stops at a refused event.
pub fn registers_are_kept()
    ensures { RegistersAreKept }
{}

/// For every header with sound policies and every list of events, a read or a write of a strong
/// key that was begun and has no end waits for answers of its phase, of which fewer than all but
/// f are good and at most f refused, or for the answer to its look-up; and what waits so has no end.
pub fn unanswered_calls_wait()
    ensures { UnansweredWait }
{}

/// At each event after every run, a read or a write of a strong key stays in its phase while fewer
/// than all but f answers are good and at most f refused, and leaves it at the answer with which
/// that fails, or at the answer to its look-up, or as it is given up.
pub fn phases_last_until_decided()
    ensures { PhasesLast }
{}

/// Each answer that is to count for a read or a write of a strong key does, in the event that
/// delivers it to a proxy that isn't stopped: it leaves the phase open or ends it.
pub fn answers_count()
    ensures { AnswersCount }
{}

/// Small runs leave a write that waits: for a second replica's grant, for all its stores, and for
/// the answer to its look-up.
#[tactic(auto, using(crate::proofs::WaitingRows::waits_for_a_second, crate::proofs::WaitingRows::waits_for_its_stores, crate::proofs::WaitingRows::waits_for_a_here))]
pub fn worked_calls_wait()
    ensures second { IsWaiting (key 0) (run_of two_proxies one_yes).store (call 0 1) (w.Write hi) }
    ensures stores { IsWaiting (key 0) (run_of two_proxies two_yes).store (call 0 1) (w.Write hi) }
    ensures here { IsWaiting (key 0) (run_of two_proxies two_gone).store (call 1 1) (w.Write cc_value) }
{}
