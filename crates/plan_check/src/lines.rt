ghost use Rattle.std.specs.Prelude.{◌≡◌, ℕ, ◌+◌, ◌<◌, ◌≤◌, List, [], Option, IfOk, IsErrOf, OnOk, length};
ghost use Rattle.span_base.specs.Counts.{Rose};

use crate::fault::CheckFault;
use shelf_lines::{Found, LinesFault, ShelfLines};
use span_base::{Cause, Shelf, What};
use std::alloc::{AllocError, Global};

/// The greatest number of bytes of a line, its line feed not counted.
const LINE_LIMIT: u64 = 1_048_576;
/// The greatest number of bytes of a plan file.
const FILE_LIMIT: u64 = 4_294_967_295;

/// Gives the lines of a plan file, one after another, and counts them.
#[derive(Drop)]
pub struct PlanLines {
    pub lines: ShelfLines,
    /// The number of the line last given, counted from 1.
    pub number: u64,
    ghost few: { number ≤ lines.given },
    ghost small: { lines.given ≤ 4294967295 },
    ghost line_limit: { lines.line_limit ≡ 1048576 },
    ghost file_limit: { lines.file_limit ≡ 4294967295 },
}

impl PlanLines {
    ghost use Rattle.span_base.specs.Files.{Files};
    ghost use Rattle.plan_check.specs.Reading.{HasRead, ReadsNext, Ends};

    pub fn make(alloc: Global) -> Result<PlanLines, AllocError>
        ensures { IfOk result (λ reader. (files : Option Files) (name : List ℕ) → HasRead files name [] reader) }
    {
        Ok(PlanLines {
            lines: ShelfLines::make(alloc, LINE_LIMIT, FILE_LIMIT)?,
            number: 0,
        })
    }

    /// The line last given, without its line feed.
    pub fn line(&self) -> &[u8]
        ensures { result.now ≡ self.now.lines.line }
    {
        self.lines.line()
    }

    /// Reads the next line, which has to be there.
    pub fn next<S: Shelf>(&mut self, shelf: &mut S, name: &str) -> Result<(), CheckFault>
        ensures reads { (text : List ℕ) → HasRead (S.files shelf.old) name.now text self.old
            → ReadsNext (S.files shelf.old) name.now text self.new result }
        ensures more { OnOk result (self.old.lines.given < self.new.lines.given) }
        ensures counts { OnOk result (self.new.number ≡ self.old.number + 1) }
        ensures files_stay { S.files shelf.new ≡ S.files shelf.old }

        ensures faults_stay { S.faults shelf.old ≤ S.faults shelf.new }
        ensures absences_stay { S.absences shelf.old ≤ S.absences shelf.new }
        ensures failed { IsErrOf result CheckFault.ReadFault → Rose (S.faults shelf.old) (S.faults shelf.new) }
        ensures absent { IsErrOf result CheckFault.Absent → Rose (S.absences shelf.old) (S.absences shelf.new) }
        ensures unwritten { ¬ IsErrOf result CheckFault.WriteFault }
    {
        let line = self.number + 1;
        match self.lines.next(shelf, name) {
            Ok(Found::Line) => {
                self.number = line;
                Ok(())
            }
            Ok(Found::Cut) => Err(CheckFault::Bad {
                line,
                cause: Cause::Syntax,
            }),
            Ok(Found::End) => Err(CheckFault::Bad {
                line,
                cause: Cause::End,
            }),
            Err(LinesFault::Absent) => Err(CheckFault::Absent),
            Err(LinesFault::ReadFault) => Err(CheckFault::ReadFault),
            Err(LinesFault::LineTooLong) => Err(CheckFault::TooLarge {
                line,
                what: What::Line,
                number: 1_048_577,
            }),
            Err(LinesFault::FileTooLarge) => Err(CheckFault::TooLarge {
                line: 0,
                what: What::Bytes,
                number: 4_294_967_296,
            }),
            Err(LinesFault::NoMemory) => Err(CheckFault::NoMemory),
        }
    }

    /// Makes sure that no byte is left.
    pub fn end<S: Shelf>(&mut self, shelf: &mut S, name: &str) -> Result<(), CheckFault>
        ensures ends { (text : List ℕ) → HasRead (S.files shelf.old) name.now text self.old
            → Ends (S.files shelf.old) name.now text result }
        ensures files_stay { S.files shelf.new ≡ S.files shelf.old }

        ensures faults_stay { S.faults shelf.old ≤ S.faults shelf.new }
        ensures absences_stay { S.absences shelf.old ≤ S.absences shelf.new }
        ensures failed { IsErrOf result CheckFault.ReadFault → Rose (S.faults shelf.old) (S.faults shelf.new) }
        ensures absent { IsErrOf result CheckFault.Absent → Rose (S.absences shelf.old) (S.absences shelf.new) }
        ensures unwritten { ¬ IsErrOf result CheckFault.WriteFault }
    {
        let goes_on = CheckFault::Bad {
            line: self.number + 1,
            cause: Cause::End,
        };
        match self.lines.next(shelf, name) {
            Ok(Found::End) => Ok(()),
            Ok(Found::Line) => Err(goes_on),
            Ok(Found::Cut) => Err(goes_on),
            Err(LinesFault::Absent) => Err(CheckFault::Absent),
            Err(LinesFault::ReadFault) => Err(CheckFault::ReadFault),
            Err(LinesFault::LineTooLong) => Err(goes_on),
            Err(LinesFault::FileTooLarge) => Err(goes_on),
            Err(LinesFault::NoMemory) => Err(CheckFault::NoMemory),
        }
    }
}
