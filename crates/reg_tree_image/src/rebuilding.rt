//! A tree built anew, in bins that hold just its keys.

ghost use Rattle.std.specs.Prelude.{◌≡◌, ◌⊎◌, false, IfOk, IfErr};
ghost use Rattle.reg_tree_image.specs.CrowdedBins.{AreCrowded};

use crate::LoadFault;
use crate::block::BaseBlock;
use crate::loading::build_keys;
use crate::writing::push_bins;
use reg_arena::Arena;
use reg_tree::Tree;
use std::alloc::{AllocError, Global};

/// A copy of the bytes of all bins.
fn copy_bins(alloc: Global, arena: &Arena) -> Result<Vec<u8>, AllocError>
    ensures { IfOk result (λ bytes. bytes.items ≡ arena.now.bytes) }
{
    let mut bytes = Vec::with_capacity(alloc, arena.bins_size() as usize)?;
    push_bins(&mut bytes, arena)?;
    Ok(bytes)
}

/// The tree built anew, as [`load_tree`](crate::load_tree) builds the one of its image: with the same keys, in bins of its own. Meanwhile
/// there is a copy of the bins besides both trees, and a third tree where it is built twice.
///
/// `Limit` only where the new bins have no room for one of the keys, `Memory` where it lacks; there is no other fault.
pub fn rebuild(alloc: Global, tree: &Tree) -> Result<Tree, LoadFault>
    ensures ok { IfOk result (λ new. new.tree ≡ tree.now.tree) }
    ensures err { IfErr result (λ fault. (fault ≡ LoadFault.Memory)
        ⊎ ((fault ≡ LoadFault.Limit) × AreCrowded false tree.now.bins.bytes 5 tree.now.root)) }
{
    let arena = tree.arena();
    let Ok(bins) = copy_bins(alloc, arena) else {
        return Err(LoadFault::Memory);
    };
    let block = BaseBlock {
        minor: 5,
        root: tree.root().offset,
        size: arena.bins_size(),
    };
    build_keys(alloc, bins.as_slice(), block)
}
