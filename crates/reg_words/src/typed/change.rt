//! What is changed.

/// A value's type and data.
#[derive(Drop)]
pub struct Contents {
    /// The type's number.
    pub kind: u32,
    pub bytes: Vec<u8>,
}

/// A change of one key. Its path leads from the root; the empty one is the root's.
#[derive(Drop)]
pub enum KeyChange {
    /// The key is made, where it isn't there.
    CreateKey {
        path: Vec<u8>,
        /// Whether the keys above it are made, too, where they are missing.
        makes_parents: bool,
    },
    /// A value is set.
    SetValue {
        path: Vec<u8>,
        /// Whether the key is made, and those above it, where they are missing.
        makes_parents: bool,
        /// The empty name is the default value's.
        name: Vec<u8>,
        contents: Contents,
    },
    /// A value is taken away.
    DeleteValue {
        path: Vec<u8>,
        /// The empty name is the default value's.
        name: Vec<u8>,
    },
    /// The key is taken away.
    DeleteKey {
        path: Vec<u8>,
        /// Whether all keys below it go too; else it has none.
        is_tree: bool,
    },
}
