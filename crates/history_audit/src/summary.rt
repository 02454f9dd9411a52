/// What a log without a break has.
#[derive(Clone, Copy, Debug, PartialEq, Eq)]
pub struct Summary {
    /// How many reads and writes begin.
    pub calls: u32,
    /// How many of them count: the reads that were answered, and the writes that were, or one of
    /// whose tickets such a read gives.
    pub counted: u32,
    /// How many keys have a read or a write.
    pub keys: u32,
}
