//! The judgement of the lines so far.

ghost use Rattle.std.specs.Prelude.{◌≡◌, ◌+◌, ℕ, List, [], ◌∷◌, ◌++◌, OnOk, Ok, length};
ghost use Rattle.history_audit.specs.Audited.{AuditEnds, Stands};
ghost use Rattle.history_audit.specs.Texts.{log_says};

use crate::fault::{AuditFault, Clause};
use crate::judge::Judge;
use crate::summary::Summary;
use run_marks::Mark;
use std::alloc::{AllocError, Global};

/// Judges line after line. After the first that breaks a clause no other is judged.
#[derive(Debug, Drop)]
pub(crate) struct Auditor {
    pub(crate) judge: Judge,
    /// The first line that breaks a clause, and the clause.
    pub(crate) broken: Option<(u64, Clause)>,
}

impl Auditor {
    /// No line was judged. It takes no memory.
    pub(crate) fn new(alloc: Global) -> Auditor
        ensures { Stands [] result }
    {
        Auditor {
            judge: Judge::new(alloc),
            broken: None,
        }
    }

    /// Judges the mark of this line.
    pub(crate) fn take(&mut self, line: u64, mark: Mark) -> Result<(), AllocError>
        ensures { (front : List Mark) → line ≡ length front + 1 → Stands front self.old → OnOk result (Stands (front ++ mark ∷ []) self.new) }
    {
        if self.broken.is_some() {
            return Ok(());
        }
        match self.judge.take(mark)? {
            Some(clause) => {
                self.broken = Some((line, clause));
                Ok(())
            }
            None => Ok(()),
        }
    }

    /// What the lines are, after the last.
    pub(crate) fn finish(self) -> Result<Summary, AuditFault>
        ensures { (text : List ℕ) (front : List Mark) → log_says text ≡ Ok front → Stands front self → AuditEnds text result }
    {
        match self.broken {
            Some((line, clause)) => Err(AuditFault::Broken { line, clause }),
            None => Ok(self.judge.summary),
        }
    }
}
