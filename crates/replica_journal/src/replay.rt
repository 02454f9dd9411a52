//! A journal is read from its first record to its last.

ghost use Rattle.std.specs.Prelude.{◌≡◌, ◌<◌, ◌≤◌, length, IfOk, IfSome, OnOk};
ghost use Rattle.wire_msg.specs.Lawful.{IsLawful};
ghost use Rattle.replica_core.specs.Rule.{request_key, step};
ghost use Rattle.replica_journal.specs.Counting.{Counts};
ghost use Rattle.replica_journal.specs.Opening.{open_failed};
ghost use Rattle.replica_journal.specs.Replaying.{IsEnd, ReplaysOf};

use crate::disk::Disk;
use crate::open_fault::OpenCause;
use crate::record::AtGate;
use crate::window::Window;
use replica_core::Replica;
use std::alloc::{AllocError, Global};
use wire_msg::{Message, Outputs};

/// Where a journal ends.
#[derive(Clone, Copy, Debug, PartialEq, Eq)]
pub struct Place {
    /// The place of the first gate that isn't open.
    pub gate: u64,
    /// How many records stand before it.
    pub records: u64,
}

/// Has the replica take the messages of all open records, and drops what it puts out. The disk has
/// `end` bytes, one at least.
pub(crate) fn replay<D: Disk>(
    alloc: Global,
    disk: &mut D,
    end: u64,
    replica: &mut Replica,
    keys: u16,
) -> Result<Place, OpenCause>
    requires some { 0 < end }
    requires limit { end ≤ 9223372036854775807 }
    requires end { IsEnd (D.told disk.old) end }
    requires keys { length replica.old.kept ≡ keys }
    ensures replays { ReplaysOf (D.told disk.old) keys replica.old replica.new result }
    ensures place { IfOk result (λ place. (place.records ≤ place.gate) × (place.gate ≤ 9223372036854775807)) }
    ensures stays { D.told disk.new ≡ D.told disk.old }
    ensures number { replica.new.number ≡ replica.old.number }
    ensures keys { length replica.new.kept ≡ length replica.old.kept }
    ensures counts { Counts (D.faults disk.old) (D.faults disk.new) (D.calm disk.old) (D.calm disk.new) (open_failed result) }
{
    let mut window = Window::open(alloc, disk)?;
    let mut gate = 0;
    let mut records = 0;
    loop {
        match window.record_at(alloc, disk, gate, keys)? {
            AtGate::Closed => return Ok(Place { gate, records }),
            AtGate::Damaged => return Err(OpenCause::Damaged { at: gate }),
            AtGate::Record { message, size } => {
                if size as u64 >= end - gate {
                    return Err(OpenCause::Damaged { at: gate });
                }
                retake(alloc, replica, message)?;
                gate += size as u64;
                records += 1;
            }
        }
    }
}

/// Has the replica take a message again. What it puts out is dropped.
fn retake(alloc: Global, replica: &mut Replica, message: Message) -> Result<(), AllocError>
    requires lawful { IsLawful message }
    requires key { IfSome (request_key message) (λ key. key.0 < length replica.old.kept) }
    ensures state { OnOk result (replica.new ≡ (step replica.old message).state) }
    ensures number { replica.new.number ≡ replica.old.number }
    ensures keys { length replica.new.kept ≡ length replica.old.kept }
{
    replica.take(alloc, &message, &mut Outputs::make(alloc))
}
