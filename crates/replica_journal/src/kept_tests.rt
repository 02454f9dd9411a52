//! Replicas on journals in memory, by hand.

ghost use Rattle.std.specs.Prelude.{◌≡◌, ◌≤◌, false, IsTrue, IfOk, IfSome, length};
ghost use Rattle.wire_msg.specs.Lawful.{IsLawful};
ghost use Rattle.replica_core.specs.Rule.{request_key};
ghost use Rattle.replica_journal.specs.Calls.{is_calm};

use super::*;
use replica_core::{TakeFault, Taker};
use span_base::{Call, KeyId};
use std::alloc::{AllocError, Global};
use std::test::Fail;
use wire_msg::{Message, Outputs, Tag};

/// A Freeze of key 5 in epoch 7: of call 1 of proxy 3, in its slot 2 of generation 1, in phase 4.
fn freeze() -> Message
    ensures lawful { IsLawful result }
    ensures key { IfSome (request_key result) (λ key. key.0 ≡ 5) }
{
    Message::Freeze {
        tag: Tag {
            call: Call { proxy: 3, seq: 1 },
            slot: 2,
            generation: 1,
            phase: 4,
        },
        key: KeyId(5),
        epoch: 7,
    }
}

/// Replica 5 with 6 keys, on an empty disk that doesn't fail.
fn empty(alloc: Global) -> Result<KeptReplica<MemDisk>, Fail>
    ensures keys { IfOk result (λ kept. length kept.state.kept ≡ 6) }
    ensures open { IfOk result (λ kept. kept.shut ≡ false) }
    ensures calm { IfOk result (λ kept. IsTrue (is_calm kept.disk.calls)) }
{
    let disk = MemDisk::make(alloc, Vec::new(alloc)).crash(true);
    match KeptReplica::open(alloc, disk, 5, 6) {
        Ok(kept) => Ok(kept),
        Err(_) => Err(Fail::new("an empty disk")),
    }
}

/// How many records a journal has after a message was stopped in a call of the disk.
fn records_after(alloc: Global, call: u8, new: bool) -> Result<u64, Fail>
    requires first { 1 ≤ call }
    requires last { call ≤ 4 }
{
    let kept = empty(alloc)?;
    if kept.size() > 1_000 {
        return Err(Fail::new("an empty journal"));
    }
    Ok(kept.stop_in(alloc, &freeze(), call, new)?.records())
}

#[test]
fn a_message_is_kept_from_the_third_call_on(rt: HostRuntime) -> Result<(), Fail> {
    for call in 1..5 {
        let kept = u64::from(call > 2);
        assert_eq!(rt; records_after(rt.alloc(), call, true)?, kept, "{call}");
        assert_eq!(rt; records_after(rt.alloc(), call, false)?, 0, "{call}");
    }
    Ok(())
}

#[test]
fn nothing_is_taken_after_a_fault(rt: HostRuntime) -> Result<(), Fail> {
    let alloc = rt.alloc();
    let mut disk = MemDisk::make(alloc, Vec::new(alloc));
    disk.fail_in(8);
    let Ok(mut kept) = KeptReplica::open(alloc, disk, 5, 6) else {
        return Err(Fail::new("an empty disk"));
    };
    let mut out = Outputs::make(alloc);
    let fault = kept.take(alloc, &freeze(), &mut out);
    assert_eq!(rt; fault, Err(TakeFault::DiskFault));
    assert_eq!(rt; kept.take(alloc, &freeze(), &mut out), Err(TakeFault::Shut));
    Ok(())
}
