//! A replica answers the requests of a stream, one after another.

ghost use Rattle.std.specs.Prelude.{◌≡◌, ◌<◌, ◌≤◌, ◌||◌, ℕ, length, IfOk, IsTrue, IsErrOf};
ghost use Rattle.span_base.specs.Counts.{Rose};
ghost use Rattle.span_service.specs.Inputs.{ahead};
ghost use Rattle.span_service.specs.Serving.{Moment, Served, Ends, GoesOn, disk_failed};

use crate::Stream;
use crate::input::Input;
use crate::serve_fault::ServeFault;
use crate::serving::{ask, is_more, reply};
use replica_core::{TakeFault, Taker};
use std::alloc::Global;

/// The most requests that one stream is served.
const REQUESTS: u64 = 1_000_000;

/// The most bytes that an answer has: of 17 posts, with 4 bytes in front of each frame.
const ANSWER: usize = 66_196;

/// Answers the requests of a stream to a replica, one after another, and answers how many there
/// were where the input ended after a whole one. A request may speak of the first `keys` keys. The
/// answer to a request is written before more is read.
pub fn serve<T: Taker, S: Stream>(
    alloc: Global,
    taker: &mut T,
    keys: u16,
    stream: &mut S,
) -> Result<u64, ServeFault>
    requires { keys ≤ length (T.state taker.old).kept }

    ensures ends { Ends keys (T.size taker.new) (record { state = T.state taker.old; coming = S.coming stream.old; taken = S.taken stream.old }) (T.state taker.new) (S.taken stream.new) result }
    ensures number { (T.state taker.new).number ≡ (T.state taker.old).number }
    ensures keys { length (T.state taker.new).kept ≡ length (T.state taker.old).kept }
    ensures around_stays { S.around stream.new ≡ S.around stream.old }
    ensures faults_stay { S.faults stream.old ≤ S.faults stream.new }
    ensures read_fault { (n : ℕ) → IsErrOf result (ServeFault.ReadFault n) → Rose (S.faults stream.old) (S.faults stream.new) }
    ensures write_fault { (n : ℕ) → IsErrOf result (ServeFault.WriteFault n) → Rose (S.faults stream.old) (S.faults stream.new) }
    ensures disk_faults_stay { T.faults taker.old ≤ T.faults taker.new }
    ensures disk_fault { IsErrOf result (ServeFault.Taker TakeFault.DiskFault) → Rose (T.faults taker.old) (T.faults taker.new) }
    ensures shut { IsErrOf result (ServeFault.Taker TakeFault.Shut) → IsTrue (T.shut taker.old) }
    ensures shuts { T.shut taker.new ≡ (T.shut taker.old || disk_failed result) }
{
    let mut input = Input::make(alloc)?;
    let mut answer = Vec::with_capacity(alloc, ANSWER)?;
    let mut answered = 0;
    while answer_next(
        alloc,
        taker,
        keys,
        &mut input,
        stream,
        &mut answer,
        answered,
    )? {
        answered += 1;
    }
    Ok(answered)
}

// Answers one more request, and answers whether there was one, where so many were answered before.
fn answer_next<T: Taker, S: Stream>(
    alloc: Global,
    taker: &mut T,
    keys: u16,
    input: &mut Input,
    stream: &mut S,
    answer: &mut Vec<u8>,
    answered: u64,
) -> Result<bool, ServeFault>
    requires keys { keys ≤ length (T.state taker.old).kept }
    requires few { answered ≤ 1000000 }

    ensures goes_on { (start : Moment) → Served keys start (record { state = T.state taker.old; coming = ahead input.old (S.coming stream.old); taken = S.taken stream.old }) answered
        → GoesOn keys (T.size taker.new) start (record { state = T.state taker.new; coming = ahead input.new (S.coming stream.new); taken = S.taken stream.new }) answered result }
    ensures few { IfOk result (λ more. IsTrue more → answered < 1000000) }
    ensures number { (T.state taker.new).number ≡ (T.state taker.old).number }
    ensures keys { length (T.state taker.new).kept ≡ length (T.state taker.old).kept }
    ensures around_stays { S.around stream.new ≡ S.around stream.old }
    ensures faults_stay { S.faults stream.old ≤ S.faults stream.new }
    ensures read_fault { (n : ℕ) → IsErrOf result (ServeFault.ReadFault n) → Rose (S.faults stream.old) (S.faults stream.new) }
    ensures write_fault { (n : ℕ) → IsErrOf result (ServeFault.WriteFault n) → Rose (S.faults stream.old) (S.faults stream.new) }
    ensures disk_faults_stay { T.faults taker.old ≤ T.faults taker.new }
    ensures disk_fault { IsErrOf result (ServeFault.Taker TakeFault.DiskFault) → Rose (T.faults taker.old) (T.faults taker.new) }
    ensures shut { IsErrOf result (ServeFault.Taker TakeFault.Shut) → IsTrue (T.shut taker.old) }
    ensures shuts { T.shut taker.new ≡ (T.shut taker.old || disk_failed result) }
{
    if !is_more(input, stream, answered)? {
        return Ok(false);
    }
    if answered == REQUESTS {
        return Err(ServeFault::Limit {
            number: REQUESTS + 1,
        });
    }
    let request = ask(alloc, input, stream, keys, answered)?;
    reply(alloc, taker, &request, answer, stream, answered)?;
    Ok(true)
}
