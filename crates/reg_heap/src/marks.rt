//! Marks of a key: flags of its key node that every format gives.

/// The mark of a key that is never deleted.
///
/// Suhanov, Windows registry file format specification, section "Key node", flag `KEY_NO_DELETE`.
pub const NO_DELETE: u16 = 0x08;
