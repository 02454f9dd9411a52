use crate::progress::Leg;

/// What a call does once an answer counted. A case in which the call ends has its reply's name.
#[derive(Clone, Copy, Debug, PartialEq, Eq)]
pub enum Next {
    /// It waits for more answers.
    Wait,
    /// A read ends with the greatest version.
    Value,
    /// A read stores the greatest version at the write set first.
    Repair,
    /// A write, whose ticket is granted, stores its value.
    Store,
    /// A write ends, and confirms its stamp to the write set.
    Stored,
    /// A write ends at greater stamps.
    Fenced,
    /// A write ends, and may be stored or not.
    Unsure,
    /// The leg is over, and the call looks its key up.
    Look,
    /// The leg is over, and the call ends, since it looked its key up often enough.
    Moved,
    /// The call ends, since the proxy's centre is no member any more.
    Outside,
    /// A write ends, since no number is left for a ticket.
    NumbersOut,
    /// The call begins this leg.
    Enter(Leg),
}
