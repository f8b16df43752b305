use reg_index::Place;

/// A key of a tree, as [`Tree::root`](crate::Tree::root), [`Tree::resolve`](crate::Tree::resolve) and others find it. It stays good
/// until that key is deleted.
#[derive(Clone, Copy, Debug, PartialEq, Eq)]
pub struct Node {
    /// The offset of its key node, counted from the start of the bins.
    pub offset: u32,
    /// How many names lead to it from the root, at most 512.
    pub depth: u32,
}

/// A key right below another one, as [`Tree::first_subkey`](crate::Tree::first_subkey) and
/// [`Tree::next_subkey`](crate::Tree::next_subkey) tell it. It stays good until the tree changes.
#[derive(Clone, Copy, Debug, PartialEq, Eq)]
pub struct Subkey {
    /// The key.
    pub node: Node,
    /// Where it stands among the other one's subkeys.
    pub place: Place,
}

/// The last key of a path whose missing keys were made.
#[derive(Clone, Copy, Debug, PartialEq, Eq)]
pub struct Created {
    /// The key.
    pub node: Node,
    /// Whether a key was made.
    pub is_new: bool,
}

/// How far a path from a key leads, as [`Tree::reach`](crate::Tree::reach) finds it. It stays good until the tree changes.
#[derive(Clone, Copy, Debug)]
pub struct Reached<'a> {
    /// The last key on the path that is there.
    pub node: Node,
    /// The names behind it as a path, of which the first is missing; empty where all keys are there.
    pub missing: &'a [u8],
    /// Where the first missing name belongs among that key's subkeys; where none is missing, where the key stands among its
    /// parent's. The first place of an empty path.
    pub place: Place,
}
