//! What a registration waits for, and what changes are events of (Win32 registry reference, `RegNotifyChangeKeyValue`).

/// A subkey was made or deleted.
pub const NAME: u32 = 1;

/// A value was set or deleted.
pub const LAST_SET: u32 = 4;

/// The security descriptor was set: it is one of the key's attributes (2), and its security (8).
pub const SECURITY: u32 = 10;

/// Bits of which a filter has one at least: 1, attributes (2), 4 and security (8).
pub const EVENTS: u32 = 15;

/// Bits that no filter has: those outside [`EVENTS`] and 0x10000000, by which a registration outlives its thread, as each does here.
pub const NO_FILTER: u32 = 0xEFFF_FFF0;
