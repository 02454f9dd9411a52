use ticket_rules::Stamp;

/// What an eventual call does.
#[derive(Clone, Copy, Debug, PartialEq, Eq)]
pub enum Stage {
    /// Waits for the first version.
    Getting,
    /// Stores its value with this stamp.
    Putting { stamp: Stamp },
    /// It takes nothing more.
    Ended,
}
