//! The rights that calls want of a handle's mask (Win32 registry reference, "Registry Key Security and Access Rights").

/// Bits that no mask has: those outside 0xF003F.
pub const NO_RIGHTS: u32 = 0xFFF0_FFC0;

/// To ask for values, and for what a key has.
pub const QUERY_VALUE: u32 = 1;

/// To set and to delete values.
pub const SET_VALUE: u32 = 2;

/// To list subkeys.
pub const ENUMERATE_SUB_KEYS: u32 = 8;

/// To be notified of changes.
pub const NOTIFY: u32 = 0x10;

/// To delete a key with all keys below it: DELETE, ENUMERATE_SUB_KEYS and QUERY_VALUE.
pub const DELETE_TREE: u32 = 0x1_0009;

/// To delete all keys below a key, and its values: these and SET_VALUE.
pub const DELETE_CONTENTS: u32 = 0x1_000B;

/// To ask for the security descriptor.
pub const READ_CONTROL: u32 = 0x2_0000;

/// To set the security descriptor.
pub const WRITE_DAC: u32 = 0x4_0000;
