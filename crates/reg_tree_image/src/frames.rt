//! The keys on the present path, with what is left of their lists of subkeys.

use crate::list_part::ListPart;
use reg_tree::Node;

/// A key on the present path.
#[derive(Clone, Copy)]
pub struct KeyFrame<'a> {
    /// The offset of its key node in the bins that are loaded.
    pub offset: u32,
    /// The key in the tree that is built.
    pub node: Node,
    /// How many of its subkeys were named.
    pub count: u32,
    /// What is left of the present list of keys.
    pub leaf: ListPart<'a>,
    /// What is left of the index root's lists, if it has one.
    pub lists: ListPart<'a>,
}
