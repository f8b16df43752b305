//! What a script's hive has at first.

/// The root's descriptor: a self-relative security descriptor with nothing in it.
pub const FRESH_DESCRIPTOR: [u8; 20] = [
    0x01, 0x00, 0x04, 0x80, 0, 0, 0, 0, 0, 0, 0, 0, 0, 0, 0, 0, 0, 0, 0, 0,
];
