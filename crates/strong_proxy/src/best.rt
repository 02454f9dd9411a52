//! The greatest version among the answers of a read's first phase.

ghost use Rattle.std.specs.Prelude.{◌≡◌, OnOk, OnErr};
ghost use Rattle.call_phase.specs.Best.{lent_found};
ghost use Rattle.strong_proxy.specs.Counting.{best_after};
ghost use Rattle.strong_proxy.specs.Rule.{best_stamp};

use call_phase::{Found, Lent, greatest, lend, take_better};
use std::alloc::AllocError;
use ticket_rules::Stamp;
use wire_msg::Message;

/// The greatest version, once the message counted.
pub(crate) fn best_after<'a>(best: &'a Option<Found>, message: &'a Message) -> Option<Lent<'a>>
    ensures { lent_found result ≡ best_after best.now message.now }
{
    match message {
        Message::Have { version, value, .. } => Some(greatest(best, version, value)),
        _ => lend(best),
    }
}

/// The stamp of a version that may be there.
pub(crate) fn stamp_of(best: Option<Lent>) -> Option<Stamp>
    ensures { result ≡ best_stamp (lent_found best.entry) }
{
    match best {
        Some(found) => Some(found.stamp),
        None => None,
    }
}

/// Keeps the version of a message that counted, where it is the greatest one.
pub(crate) fn keep_best(best: &mut Option<Found>, message: &Message) -> Result<(), AllocError>
    ensures ok { OnOk result (best.new ≡ best_after best.old message.now) }
    ensures err { OnErr result (best.new ≡ best.old) }
{
    match message {
        Message::Have { version, value, .. } => take_better(best, version, value),
        _ => Ok(()),
    }
}
