//! The next request of a stream.

ghost use Rattle.std.specs.Prelude.{◌≡◌, ◌<◌, ◌≤◌, length, IsTrue, is_err, IsErrOf};
ghost use Rattle.span_base.specs.Counts.{Rose};
ghost use Rattle.span_service.specs.Inputs.{ahead};
ghost use Rattle.span_service.specs.Asking.{HasMore, Asks};

use crate::Stream;
use crate::front::{Front, read_front};
use crate::input::Input;
use replica_journal::Failed;
use std::alloc::{AllocError, Global};
use wire_msg::Message;

/// Why there is no next request.
#[derive(Debug, Drop)]
pub(crate) enum NoRequest {
    /// The bytes are no request's. The first fault stands at this place of the frame.
    Bad { at: usize },
    /// The input ended inside a request.
    Torn,
    /// The stream failed.
    Failed,
    NoMemory(AllocError),
}

impl From<AllocError> for NoRequest {
    ghost use Rattle.span_service.specs.declared.asking.NoRequest.TheVariants.{NoMemory};

    ghost from_gives = { λ error fault. fault ≡ NoMemory error };

    fn from(error: AllocError) -> NoRequest {
        NoRequest::NoMemory(error)
    }
}

impl From<Failed> for NoRequest {
    ghost use Rattle.span_service.specs.declared.asking.NoRequest.TheVariants as none;

    ghost from_gives = { λ _ fault. fault ≡ none.Failed };

    fn from(_: Failed) -> NoRequest {
        NoRequest::Failed
    }
}

/// Whether there is one more byte.
pub(crate) fn has_more<S: Stream>(input: &mut Input, stream: &mut S) -> Result<bool, Failed>
    ensures more { HasMore (S.coming stream.old) (S.coming stream.new) input.old input.new result }
    ensures taken_stays { S.taken stream.new ≡ S.taken stream.old }
    ensures around_stays { S.around stream.new ≡ S.around stream.old }
    ensures faults_stay { S.faults stream.old ≤ S.faults stream.new }
    ensures failed { IsTrue (is_err result) → Rose (S.faults stream.old) (S.faults stream.new) }
{
    if input.rest().is_empty() {
        return input.read(stream);
    }
    Ok(true)
}

/// The next request to a replica with so many keys, where there is one more byte.
#[tactic(auto, using(crate::proofs::Ahead::bad_ahead, crate::proofs::Ahead::torn_ahead, crate::proofs::Ahead::request_ahead, crate::proofs::Ahead::request_fits, crate::proofs::Ahead::short_small))]
pub(crate) fn next_request<S: Stream>(
    alloc: Global,
    input: &mut Input,
    stream: &mut S,
    keys: u16,
) -> Result<Message, NoRequest>
    requires { 0 < length input.old }
    ensures asks { Asks keys (ahead input.old (S.coming stream.old)) (ahead input.new (S.coming stream.new)) result }
    ensures taken_stays { S.taken stream.new ≡ S.taken stream.old }
    ensures around_stays { S.around stream.new ≡ S.around stream.old }
    ensures faults_stay { S.faults stream.old ≤ S.faults stream.new }
    ensures failed { IsErrOf result NoRequest.Failed → Rose (S.faults stream.old) (S.faults stream.new) }
{
    loop {
        match read_front(alloc, input.rest(), keys)? {
            Front::Request { message, size } => {
                input.pass(size);
                return Ok(message);
            }
            Front::Bad { at } => return Err(NoRequest::Bad { at }),
            Front::Short => {}
        }
        if !input.read(stream)? {
            return Err(NoRequest::Torn);
        }
    }
}
