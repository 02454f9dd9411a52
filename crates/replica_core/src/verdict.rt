ghost use Rattle.std.specs.Prelude.{◌≡◌};
ghost use Rattle.replica_core.specs.Verdict.{judged, unless_over, if_taken, is_refusal};

use crate::kept::Kept;
use ticket_rules::{may_grant, may_store};
use wire_msg::Message;

/// What a replica makes of a message, named for the answer.
#[derive(Clone, Copy, Debug, PartialEq, Eq)]
pub(crate) enum Verdict {
    /// The epoch of the request is over: nothing changes.
    Gone,
    /// A greater stamp stands against the request: nothing changes.
    Held,
    /// The replica does as it is asked.
    Yes,
    /// It tells what it kept before.
    Have,
    /// It says nothing. Of these messages only a Confirm changes anything.
    Silent,
}

impl Verdict {
    pub(crate) fn is_refusal(self) -> bool
        ensures { result ≡ is_refusal self }
    {
        match self {
            Verdict::Gone | Verdict::Held => true,
            Verdict::Yes | Verdict::Have | Verdict::Silent => false,
        }
    }
}

impl Kept {
    /// The verdict on a message, by which it is answered and changes what is kept.
    pub(crate) fn judge(&self, message: &Message) -> Verdict
        ensures { result ≡ judged self.now message.now }
    {
        match message {
            Message::Read { epoch, .. } => self.unless_over(*epoch, Verdict::Have),
            Message::Ask { stamp, .. } => {
                let granted = may_grant(stamp, &self.fence, &self.version);
                self.unless_over(stamp.epoch, if_taken(granted))
            }
            Message::Store { stamp, .. } => {
                let stored = may_store(stamp, &self.fence);
                self.unless_over(stamp.epoch, if_taken(stored))
            }
            Message::Repair { epoch, .. } | Message::Seed { epoch, .. } => {
                self.unless_over(*epoch, Verdict::Yes)
            }
            Message::Freeze { .. } => Verdict::Have,
            Message::Push { stamp, .. } => self.unless_over(stamp.epoch, Verdict::Yes),
            _ => Verdict::Silent,
        }
    }

    fn unless_over(&self, epoch: u32, verdict: Verdict) -> Verdict
        ensures { result ≡ unless_over self.now epoch verdict }
    {
        if self.is_over(epoch) {
            Verdict::Gone
        } else {
            verdict
        }
    }
}

fn if_taken(taken: bool) -> Verdict
    ensures { result ≡ if_taken taken }
{
    if taken { Verdict::Yes } else { Verdict::Held }
}
