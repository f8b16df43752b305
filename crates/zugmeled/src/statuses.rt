//! Statuses that no call of the rules answers (Win32 registry reference, "System Error Codes").

/// Handles are open.
pub const BUSY: u32 = 170;

/// There is a hive already.
pub const ALREADY_EXISTS: u32 = 183;

/// The bytes are no hive.
pub const NOT_REGISTRY_FILE: u32 = 1017;
