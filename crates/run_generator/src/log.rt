ghost use Rattle.std.specs.Prelude.{◌≡◌, ◌+◌, ◌≤◌, if◌then◌else◌, List, [], ◌∷◌, ◌++◌, OnOk};
ghost use Rattle.run_marks.specs.declared.mark.Mark.{Mark};
ghost use Rattle.run_generator.specs.Told.{is_ok, ends_ok, ends_otherwise};
ghost use Rattle.run_generator.specs.Standing.{IsLogOf};

use run_marks::{Mark, push_mark};
use std::alloc::{AllocError, Global};
use wire_msg::Reply;
use world_core::Marks;

/// The lines of a run's marks, and how many calls ended.
#[derive(Drop)]
pub(crate) struct Log {
    pub(crate) text: String,
    /// How many ends are ok.
    pub(crate) ok: u32,
    /// How many are something else.
    pub(crate) ended: u32,
}

impl Log {
    /// A log of no mark.
    pub(crate) fn new(alloc: Global) -> Log
        ensures marks { IsLogOf result [] }
        ensures none { result.ok + result.ended ≡ 0 }
    {
        Log {
            text: String::new(alloc),
            ok: 0,
            ended: 0,
        }
    }

    /// The marks of one event come behind the others.
    pub(crate) fn add_all(&mut self, marks: &Marks) -> Result<(), AllocError>
        requires { self.old.ok + self.old.ended ≤ 2000000 }
        ensures marks { OnOk result ((before : List Mark) → IsLogOf self.old before → IsLogOf self.new (before ++ marks.now)) }
        ensures few { OnOk result (self.new.ok + self.new.ended ≤ self.old.ok + self.old.ended + 2) }
    {
        for number in 0..marks.len() {
            if let Some(mark) = marks.get(number) {
                self.add(mark)?;
            }
        }
        Ok(())
    }

    #[tactic(auto, using(crate::proofs::Logs::one_more))]
    fn add(&mut self, mark: &Mark) -> Result<(), AllocError>
        requires { self.old.ok + self.old.ended ≤ 2000002 }
        ensures marks { OnOk result ((before : List Mark) → IsLogOf self.old before → IsLogOf self.new (before ++ mark.now ∷ [])) }
        ensures few { OnOk result (self.new.ok + self.new.ended ≤ self.old.ok + self.old.ended + 1) }
    {
        push_mark(&mut self.text, mark)?;
        self.text.push('\n')?;
        self.count(mark);
        Ok(())
    }

    fn count(&mut self, mark: &Mark)
        requires { self.old.ok + self.old.ended ≤ 2000002 }
        ensures text { self.new.text ≡ self.old.text }
        ensures ok { self.new.ok ≡ self.old.ok + (if ends_ok mark.now then 1 else 0) }
        ensures ended { self.new.ended ≡ self.old.ended + (if ends_otherwise mark.now then 1 else 0) }
    {
        match mark {
            Mark::End { reply, .. } => {
                if is_ok(reply) {
                    self.ok += 1;
                } else {
                    self.ended += 1;
                }
            }
            _ => {}
        }
    }
}

/// Whether the reply is written with the word `ok`.
fn is_ok(reply: &Reply) -> bool
    ensures { result ≡ is_ok reply.now }
{
    matches!(
        reply,
        Reply::Value { .. } | Reply::Stored { .. } | Reply::At { .. }
    )
}
