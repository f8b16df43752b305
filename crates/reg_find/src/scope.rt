//! Where a tree is searched.

/// Which texts of a tree are searched. Where none is, nothing is found.
#[derive(Clone, Copy, Debug, PartialEq, Eq)]
pub struct Scope {
    /// The keys' own names, of the root, too.
    pub keys: bool,
    /// The values' names, of which that of a default value is empty.
    pub names: bool,
    /// The values' data, each told as a line ([`reg_tree_text::value_text`]).
    pub texts: bool,
    /// The keys' paths, as their lines have them, but not escaped; the root's is empty.
    pub paths: bool,
    /// The values' data as bytes, for a text in UTF-16 that they hold.
    pub bytes: bool,
}
