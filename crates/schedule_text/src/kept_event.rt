use world_core::Event;

/// What happens next in a restart run.
#[derive(Debug, PartialEq, Eq, Drop)]
pub enum KeptEvent {
    /// An event of the store.
    Event(Event),
    /// The replica that this message comes to crashes at a call of its disk, 1 to 4, while it takes
    /// the message. The disk has the new bytes of that call, or the old ones.
    Crash {
        message: u32,
        call: u8,
        is_new: bool,
    },
}
