//! A copy of a value's bytes, for an answer.
ghost use Rattle.std.specs.Prelude.{◌≡◌, ◌≢◌, ◌<◌, ◌≤◌, [], Some, length, slice_get, IfOk, OnErr};
ghost use Rattle.reg_heap.specs.Paths.{Path, Member};
ghost use Rattle.reg_heap.specs.Edits.{values_at};
ghost use Rattle.reg_model.specs.declared.bytes.TheConstants.{INLINE_BYTES};
ghost use Rattle.reg_tree.specs.TreeKeys.{IsAt};

use reg_model::{Bytes, INLINE_BYTES};
use reg_tree::{Node, Tree};
use std::alloc::{AllocError, Global};

/// The same of a value of few bytes.
fn copy_few(
    alloc: Global,
    tree: &Tree,
    node: Node,
    index: u32,
    size: usize,
) -> Result<Bytes, AllocError>
    requires value { (p : Path) × IsAt tree.now p node × (index < length (values_at tree.now.tree p)) }
    requires size { (p : Path) → IsAt tree.now p node → (member : Member) →
        slice_get (values_at tree.now.tree p) index ≡ Some member → size ≡ length member.bytes }
    requires few { size ≤ INLINE_BYTES }
    ensures told { (p : Path) → IsAt tree.now p node → IfOk result (λ bytes. (member : Member)
        × (slice_get (values_at tree.now.tree p) index ≡ Some member) × (bytes ≡ member.bytes)) }
    ensures empty { (p : Path) → IsAt tree.now p node →
        OnErr result ((member : Member) → slice_get (values_at tree.now.tree p) index ≡ Some member → member.bytes ≢ []) }
{
    let mut room = [0; INLINE_BYTES];
    tree.fill_value(node, index, &mut room);
    match Bytes::from_slice(alloc, &room[..size]) {
        Ok(copy) => Ok(copy),
        Err(lack) => Err(lack),
    }
}

/// A copy of the bytes of a key's value at an index, counted from 0, which has so many. Few are read to the stack, without a vector.
pub fn copy_value(
    alloc: Global,
    tree: &Tree,
    node: Node,
    index: u32,
    size: u32,
) -> Result<Bytes, AllocError>
    requires value { (p : Path) × IsAt tree.now p node × (index < length (values_at tree.now.tree p)) }
    requires size { (p : Path) → IsAt tree.now p node → (member : Member) →
        slice_get (values_at tree.now.tree p) index ≡ Some member → size ≡ length member.bytes }
    ensures told { (p : Path) → IsAt tree.now p node → IfOk result (λ bytes. (member : Member)
        × (slice_get (values_at tree.now.tree p) index ≡ Some member) × (bytes ≡ member.bytes)) }
    ensures empty { (p : Path) → IsAt tree.now p node →
        OnErr result ((member : Member) → slice_get (values_at tree.now.tree p) index ≡ Some member → member.bytes ≢ []) }
{
    if size as usize <= INLINE_BYTES {
        return copy_few(alloc, tree, node, index, size as usize);
    }
    match tree.value_bytes(alloc, node, index) {
        Ok(bytes) => Ok(Bytes::from_vec(bytes)),
        Err(lack) => Err(lack),
    }
}
