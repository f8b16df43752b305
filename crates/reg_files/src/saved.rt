//! What is saved of a hive: its bins as they stand, or bins that were built anew.

ghost use Rattle.std.specs.Prelude.{◌≡◌, true, IfOk, IfErr};
ghost use Rattle.reg_tree_image.specs.FreeBytes.{are_sparse};
ghost use Rattle.reg_files.specs.Saves.{saved_keys, IsTreeToSave, IsNotRebuilt};

use crate::fault::Fault;
use reg_tree::Tree;
use reg_tree_image::{is_sparse, rebuild};
use std::alloc::Global;

/// The tree whose bins are saved of a hive.
#[derive(Drop)]
pub enum SavedTree<'a> {
    /// The hive's own.
    Own(&'a Tree),
    /// One that was built anew of the hive's keys.
    Anew(Tree),
}

/// What is saved: the bins of a tree, with their image's moment, in units of 100 ns since 1601, and sequence number.
#[derive(Drop)]
pub struct Saved<'a> {
    pub tree: SavedTree<'a>,
    pub moment: u64,
    pub sequence: u32,
}

impl SavedTree<'_> {
    /// The tree, whosever it is.
    pub fn tree(&self) -> &Tree
        ensures { result.now ≡ saved_keys self.now }
    {
        match self {
            SavedTree::Own(tree) => tree,
            SavedTree::Anew(tree) => tree,
        }
    }
}

/// The tree to save of a hive's: built anew where more than half of the bytes of the bins are free, else itself. Only where it is to be
/// built anew, and there is no memory for that or no room in the new bins, is there a fault.
pub fn tree_to_save(alloc: Global, tree: &Tree) -> Result<SavedTree<'_>, Fault>
    ensures ok { IfOk result (λ saved. IsTreeToSave tree.now saved) }
    ensures err { IfErr result (λ fault. (are_sparse tree.now.bins.bytes ≡ true) × IsNotRebuilt fault) }
{
    if !is_sparse(tree) {
        return Ok(SavedTree::Own(tree));
    }
    match rebuild(alloc, tree) {
        Ok(anew) => Ok(SavedTree::Anew(anew)),
        Err(fault) => Err(Fault::Rebuild(fault)),
    }
}
