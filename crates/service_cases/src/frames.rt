//! Requests, with their lengths.

/// A read of key 0 in epoch 1: of call 0.0, in its slot 1 of generation 1, in phase 1.
pub const READ: [u8; 20] = [0, 18, 1, 0, 0, 0, 0, 0, 1, 0, 0, 0, 1, 1, 0, 0, 0, 0, 0, 1];

/// A store of `aa` under stamp 1.1.0.1, of the same call.
pub const STORE: [u8; 36] = [
    0, 34, 3, 0, 0, 0, 0, 0, 1, 0, 0, 0, 1, 1, 0, 0, 0, 0, 0, 1, 0, 0, 0, 0, 0, 0, 0, 1, 0, 0, 0,
    0, 1, 0, 1, 170,
];

/// A lookup of key 5, which a directory answers.
pub const LOOKUP: [u8; 16] = [0, 14, 9, 1, 2, 0, 0, 0, 3, 0, 0, 0, 4, 5, 0, 6];

/// The most bytes that a frame has, and one more.
pub const LONG: [u8; 2] = [32, 1];

/// A length of nothing.
pub const NOTHING: [u8; 2] = [0, 0];
