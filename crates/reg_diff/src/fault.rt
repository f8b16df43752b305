//! Why keys weren't compared.

use reg_tree_text::DumpFault;

/// Why it wasn't written how two trees differ at a path, or not to the end.
#[derive(Clone, Copy, Debug, PartialEq, Eq)]
pub enum BranchFault {
    /// The old tree has no key there, or the text is no path.
    NoOldKey,
    /// The new tree has none there, and the old one has.
    NoNewKey,
    /// A write or memory failed on the way.
    Stopped(DumpFault),
}
