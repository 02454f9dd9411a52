//! What a pool's calls take and give.

/// Names an item of one pool: the number of its slot, and the slot's generation.
#[derive(Clone, Copy, Debug, PartialEq, Eq)]
pub struct Handle {
    /// From 0 on, below the pool's capacity.
    pub slot: u32,
    /// At least the pool's first generation.
    pub generation: u32,
}

/// No slot is free. The item that was to be put is handed back.
#[derive(Debug, Drop, PartialEq, Eq)]
pub struct Full<T> {
    /// The item, as it was given to `put`.
    pub item: T,
}
