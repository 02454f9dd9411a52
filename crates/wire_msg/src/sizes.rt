//! How many bytes the frames of each kind have, without the bytes of a value and of policies, so
//! that an actor can tell the bytes of messages that it hasn't made yet.

/// A Read.
pub const READ_BYTES: u32 = 18;

/// An Ask.
pub const ASK_BYTES: u32 = 31;

/// A Store, without its value.
pub const STORE_BYTES: u32 = 33;

/// A Repair, without its value.
pub const REPAIR_BYTES: u32 = 37;

/// A Confirm.
pub const CONFIRM_BYTES: u32 = 31;

/// A Freeze.
pub const FREEZE_BYTES: u32 = 18;

/// A Seed, without its value.
pub const SEED_BYTES: u32 = 37;

/// A Push, without its value.
pub const PUSH_BYTES: u32 = 35;

/// A Lookup.
pub const LOOKUP_BYTES: u32 = 14;

/// A Switch.
pub const SWITCH_BYTES: u32 = 22;

/// A Have, without its value.
pub const HAVE_BYTES: u32 = 49;

/// A Yes.
pub const YES_BYTES: u32 = 13;

/// A Held.
pub const HELD_BYTES: u32 = 30;

/// A Gone.
pub const GONE_BYTES: u32 = 17;

/// A Here, without its two policies.
pub const HERE_BYTES: u32 = 22;

/// A Switched.
pub const SWITCHED_BYTES: u32 = 19;
