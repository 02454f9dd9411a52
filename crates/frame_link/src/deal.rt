use span_base::Bytes;

/// What a link in memory gives next.
#[derive(Debug, Drop)]
pub enum Deal {
    /// The oldest frame that it hasn't passed yet, which passes it; nothing where there is none.
    Next,
    /// What the following deal gives. It passes one frame before that, where there is one.
    Drop,
    /// The frame that was sent as number `n`, counted from 0; as `Next` where there is none.
    Again { n: u32 },
    /// This frame, whether it was sent or not.
    Forge { to: u16, frame: Bytes },
}
