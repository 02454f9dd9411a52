//! The round of one request: it is asked, taken and answered.

ghost use Rattle.std.specs.Prelude.{◌≡◌, ◌<◌, ◌≤◌, ℕ, length, IsTrue, IsErrOf, IfSome, ◌||◌};
ghost use Rattle.span_base.specs.Counts.{Rose};
ghost use Rattle.wire_msg.specs.Lawful.{IsLawful};
ghost use Rattle.replica_core.specs.Rule.{request_key};
ghost use Rattle.span_service.specs.Inputs.{ahead};
ghost use Rattle.span_service.specs.Serving.{TellsMore, AsksNext, Replies, disk_failed};

use crate::Stream;
use crate::asking::{NoRequest, has_more, next_request};
use crate::input::Input;
use crate::serve_fault::ServeFault;
use crate::spelling::spell;
use crate::writing::write_whole;
use replica_core::{TakeFault, Taker};
use span_base::DeviceFault;
use std::alloc::{AllocError, Global};
use wire_msg::{Message, Outputs};

/// Whether there is one more byte, where so many requests were answered.
pub(crate) fn is_more<S: Stream>(
    input: &mut Input,
    stream: &mut S,
    answered: u64,
) -> Result<bool, ServeFault>
    ensures more { TellsMore (S.coming stream.old) (S.coming stream.new) input.old input.new answered result }
    ensures taken_stays { S.taken stream.new ≡ S.taken stream.old }
    ensures around_stays { S.around stream.new ≡ S.around stream.old }
    ensures faults_stay { S.faults stream.old ≤ S.faults stream.new }
    ensures failed { (n : ℕ) → IsErrOf result (ServeFault.ReadFault n) → Rose (S.faults stream.old) (S.faults stream.new) }
{
    match has_more(input, stream) {
        Ok(more) => Ok(more),
        Err(_) => Err(ServeFault::ReadFault { answered }),
    }
}

/// The next request, where so many were answered.
pub(crate) fn ask<S: Stream>(
    alloc: Global,
    input: &mut Input,
    stream: &mut S,
    keys: u16,
    answered: u64,
) -> Result<Message, ServeFault>
    requires some { 0 < length input.old }
    requires few { answered < 1000000 }
    ensures asks { AsksNext keys (ahead input.old (S.coming stream.old)) (ahead input.new (S.coming stream.new)) answered result }
    ensures taken_stays { S.taken stream.new ≡ S.taken stream.old }
    ensures around_stays { S.around stream.new ≡ S.around stream.old }
    ensures faults_stay { S.faults stream.old ≤ S.faults stream.new }
    ensures failed { (n : ℕ) → IsErrOf result (ServeFault.ReadFault n) → Rose (S.faults stream.old) (S.faults stream.new) }
{
    let frame = answered + 1;
    match next_request(alloc, input, stream, keys) {
        Ok(message) => Ok(message),
        Err(NoRequest::Bad { at }) => Err(ServeFault::Bad { frame, at }),
        Err(NoRequest::Torn) => Err(ServeFault::Torn { frame }),
        Err(NoRequest::Failed) => Err(ServeFault::ReadFault { answered }),
        Err(NoRequest::NoMemory(error)) => Err(ServeFault::NoMemory(error)),
    }
}

/// Takes a request and writes the answer, where so many were answered before.
pub(crate) fn reply<T: Taker, S: Stream>(
    alloc: Global,
    taker: &mut T,
    request: &Message,
    answer: &mut Vec<u8>,
    stream: &mut S,
    answered: u64,
) -> Result<(), ServeFault>
    requires lawful { IsLawful request.now }
    requires key { IfSome (request_key request.now) (λ key. key.0 < length (T.state taker.old).kept) }
    ensures replies { Replies (T.size taker.new) (T.state taker.old) (T.state taker.new) (S.taken stream.old) (S.taken stream.new) request.now answered result }
    ensures coming_stays { S.coming stream.new ≡ S.coming stream.old }
    ensures keys { length (T.state taker.new).kept ≡ length (T.state taker.old).kept }
    ensures around_stays { S.around stream.new ≡ S.around stream.old }
    ensures faults_stay { S.faults stream.old ≤ S.faults stream.new }
    ensures failed { (n : ℕ) → IsErrOf result (ServeFault.WriteFault n) → Rose (S.faults stream.old) (S.faults stream.new) }
    ensures disk_faults_stay { T.faults taker.old ≤ T.faults taker.new }
    ensures disk_fault { IsErrOf result (ServeFault.Taker TakeFault.DiskFault) → Rose (T.faults taker.old) (T.faults taker.new) }
    ensures shut { IsErrOf result (ServeFault.Taker TakeFault.Shut) → IsTrue (T.shut taker.old) }
    ensures number { (T.state taker.new).number ≡ (T.state taker.old).number }
    ensures shuts { T.shut taker.new ≡ (T.shut taker.old || disk_failed result) }
{
    let mut out = Outputs::make(alloc);
    match taker.take(alloc, request, &mut out) {
        Ok(()) => {}
        Err(TakeFault::NoMemory(error)) => return Err(ServeFault::NoMemory(error)),
        Err(TakeFault::DiskFault) => return Err(ServeFault::Taker(TakeFault::DiskFault)),
        Err(TakeFault::Shut) => return Err(ServeFault::Taker(TakeFault::Shut)),
        Err(TakeFault::Full { bytes }) => return Err(ServeFault::Taker(TakeFault::Full { bytes })),
    }
    spell(answer, out.posts.as_slice())?;
    match write_whole(stream, answer) {
        Ok(()) => Ok(()),
        Err(DeviceFault::Failed) => Err(ServeFault::WriteFault { answered }),
        Err(DeviceFault::NoMemory) => Err(ServeFault::NoMemory(AllocError)),
    }
}
