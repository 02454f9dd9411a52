use crate::effects::Effects;
use crate::live::LiveCall;

/// A call that is begun and that its proxy doesn't have yet: what limits are tested on.
#[derive(Drop)]
pub struct Beginning {
    /// The call, where it doesn't end at once.
    pub call: Option<LiveCall>,
    /// The greatest number that the proxy saw, a new ticket counted.
    pub seen: u64,
    pub effects: Effects,
}
