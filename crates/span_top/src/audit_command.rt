//! The command `audit`.
ghost use Rattle.std.specs.Prelude.{◌≡◌, ◌≢◌, ◌≤◌, ◌++◌, OnOk, string_bytes};
ghost use Rattle.span_base.specs.Counts.{Rose};
ghost use Rattle.history_audit.specs.Audited.{IsUnbroken};
ghost use Rattle.span_top.specs.Audited.{AuditEnds, BytesAudited, summary_text, cause_of};

use crate::status::Status;
use crate::whole_file::read_file;
use history_audit::{AuditFault, Clause, Summary, audit};
use span_base::{Bytes, Cause, DeviceFault, Shelf, Sink, What, write_all};
use std::alloc::{AllocError, Global};

/// The greatest number of bytes of a log's file.
const LOG_BYTES: u64 = 268_435_456;
/// The number that a log with too many lines is told with.
const LINES_AND_ONE: u128 = 4_000_001;

/// Audits the log in the named file, and writes what it has where it breaks no clause.
#[tactic(auto, using(crate::proofs::Auditing::ends))]
pub fn audit_log<S: Shelf, K: Sink>(alloc: Global, name: &str, shelf: &mut S, out: &mut K) -> Status
    ensures ends { AuditEnds (S.files shelf.old) name.now (K.taken out.old) (K.taken out.new) result }
    ensures read_fault { result ≡ Status.ReadFault → Rose (S.faults shelf.old) (S.faults shelf.new) }
    ensures absent { result ≡ Status.Absent 0 → Rose (S.absences shelf.old) (S.absences shelf.new) }
    ensures write_fault { result ≡ Status.WriteFault → Rose (K.faults out.old) (K.faults out.new) }
    ensures faults_stay { S.faults shelf.old ≤ S.faults shelf.new }
    ensures absences_stay { S.absences shelf.old ≤ S.absences shelf.new }
    ensures write_faults_stay { K.faults out.old ≤ K.faults out.new }
{
    match read_file(alloc, name, LOG_BYTES, shelf) {
        Ok(bytes) => audit_bytes(alloc, &bytes, out),
        Err(status) => status,
    }
}

// Audits a log, and writes what it has where it breaks no clause.
#[tactic(auto, using(crate::proofs::Auditing::judged))]
fn audit_bytes<K: Sink>(alloc: Global, bytes: &Bytes, out: &mut K) -> Status
    ensures ends { BytesAudited bytes.now (K.taken out.old) (K.taken out.new) result }
    ensures no_read_fault { result ≢ Status.ReadFault }
    ensures no_absent { result ≢ Status.Absent 0 }
    ensures write_fault { result ≡ Status.WriteFault → Rose (K.faults out.old) (K.faults out.new) }
    ensures write_faults_stay { K.faults out.old ≤ K.faults out.new }
{
    match audit(alloc, bytes.as_slice()) {
        Ok(summary) => write_summary(alloc, bytes, &summary, out),
        Err(AuditFault::Bad { line }) => Status::BadInput {
            file: 0,
            line,
            cause: Cause::Syntax,
        },
        Err(AuditFault::Limit { line }) => Status::TooLarge {
            file: 0,
            line,
            what: What::Lines,
            number: LINES_AND_ONE,
        },
        Err(AuditFault::Broken { line, clause }) => Status::Refused {
            line,
            cause: cause_of(clause),
        },
        Err(AuditFault::NoMemory(_)) => Status::NoMemory,
    }
}

// Writes what a log has that breaks no clause.
#[tactic(auto, using(crate::proofs::Auditing::written))]
fn write_summary<K: Sink>(alloc: Global, bytes: &Bytes, summary: &Summary, out: &mut K) -> Status
    requires { IsUnbroken bytes.now summary.now }
    ensures ends { BytesAudited bytes.now (K.taken out.old) (K.taken out.new) result }
    ensures no_read_fault { result ≢ Status.ReadFault }
    ensures no_absent { result ≢ Status.Absent 0 }
    ensures write_fault { result ≡ Status.WriteFault → Rose (K.faults out.old) (K.faults out.new) }
    ensures write_faults_stay { K.faults out.old ≤ K.faults out.new }
{
    let mut text = String::new(alloc);
    let Ok(()) = push_summary(&mut text, summary) else {
        return Status::NoMemory;
    };
    match write_all(out, text.as_bytes()) {
        Ok(()) => Status::Done,
        Err(DeviceFault::Failed) => Status::WriteFault,
        Err(DeviceFault::NoMemory) => Status::NoMemory,
    }
}

fn push_summary(text: &mut String, summary: &Summary) -> Result<(), AllocError>
    ensures { OnOk result (string_bytes text.new ≡ string_bytes text.old ++ summary_text summary.now) }
{
    let calls = summary.calls;
    let counted = summary.counted;
    let keys = summary.keys;
    write!(
        text,
        "calls {calls}\ncounted {counted}\nkeys {keys}\nregister ok\n"
    )
}

// The cause that a clause is told as.
fn cause_of(clause: Clause) -> Cause
    ensures { result ≡ cause_of clause }
{
    match clause {
        Clause::Call => Cause::Call,
        Clause::Kind => Cause::Kind,
        Clause::Stamp => Cause::Stamp,
        Clause::Value => Cause::Value,
        Clause::Dead => Cause::Dead,
        Clause::Order => Cause::Order,
    }
}
