use span_base::Call;

/// Ties an answer to the phase of the call that asked for it. An answer carries the tag of its
/// request.
#[derive(Clone, Copy, Debug, PartialEq, Eq)]
pub struct Tag {
    /// The call: its proxy is below 64, its number at least 1.
    pub call: Call,
    /// Where the proxy keeps the call, below 64.
    pub slot: u8,
    /// How many calls had this slot, this one counted: at least 1.
    pub generation: u32,
    /// The phase of the call, counted from 1.
    pub phase: u8,
}
