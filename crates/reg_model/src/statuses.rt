//! The statuses of refusals (Win32 registry reference, "System Error Codes").

/// No such key, or no such value.
pub const FILE_NOT_FOUND: u32 = 2;

/// The handle lacks the right, or the key may not be deleted.
pub const ACCESS_DENIED: u32 = 5;

/// The session has no such handle.
pub const INVALID_HANDLE: u32 = 6;

/// Memory was refused.
pub const NOT_ENOUGH_MEMORY: u32 = 8;

/// A name, a path, a mask, data or a descriptor that no call may have.
pub const INVALID_PARAMETER: u32 = 87;

/// The room that was given is too short for the descriptor.
pub const INSUFFICIENT_BUFFER: u32 = 122;

/// The room that was given is too short for the answer.
pub const MORE_DATA: u32 = 234;

/// No subkey, or no value, has that index.
pub const NO_MORE_ITEMS: u32 = 259;

/// The share is not current: its session has no seat at the hive, or its count isn't the session's row there.
pub const BAD_DATABASE: u32 = 1009;

/// The handle's key was deleted.
pub const KEY_DELETED: u32 = 1018;

/// A count is at its limit, or the bins have no room.
pub const NO_SYSTEM_RESOURCES: u32 = 1450;
