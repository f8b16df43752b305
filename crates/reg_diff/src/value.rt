//! Values read and compared.
ghost use Rattle.std.specs.Prelude.{◌≡◌, ◌<◌, length, slice_get, true, Some, IfOk};
ghost use Rattle.reg_names.specs.Names.{folded};
ghost use Rattle.reg_heap.specs.Members.{index_named};
ghost use Rattle.reg_heap.specs.Paths.{Path, Member};
ghost use Rattle.reg_heap.specs.Edits.{values_at};
ghost use Rattle.reg_tree.specs.TreeKeys.{IsAt, IsThere};
ghost use Rattle.reg_diff.specs.Differences.{same_member, same_members};
ghost use Rattle.reg_diff.specs.Internal.Parts.{member_of};

use reg_names::same_name;
use reg_tree::{Node, Tree};
use std::alloc::{AllocError, Global};

/// A value with a copy of its bytes.
#[derive(Drop)]
pub struct Copied<'a> {
    pub name: &'a [u8],
    pub kind: u32,
    pub bytes: Vec<u8>,
}

/// The value of a key at an index.
pub fn read_value<'a>(
    alloc: Global,
    tree: &'a Tree,
    node: Node,
    index: u32,
) -> Result<Copied<'a>, AllocError>
    requires { (p : Path) × IsAt tree.now p node × (index < length (values_at tree.now.tree p)) }
    ensures { (p : Path) → IsAt tree.now p node → (member : Member) → slice_get (values_at tree.now.tree p) index ≡ Some member →
        IfOk result (λ value. member_of value ≡ member) }
{
    let Some(value) = tree.value(node, index) else {
        unreachable!()
    };
    let bytes = tree.value_bytes(alloc, node, index)?;
    Ok(Copied {
        name: value.name,
        kind: value.kind,
        bytes,
    })
}

/// Whether a key's value at an index has that name, after folding.
fn has_name_at(tree: &Tree, node: Node, index: u32, name: &[u8]) -> bool
    requires { IsThere tree.now node }
    ensures { result ≡ true → (p : Path) → IsAt tree.now p node →
        (member : Member) × (slice_get (values_at tree.now.tree p) index ≡ Some member) × (folded member.name ≡ folded name.now) }
{
    match tree.value(node, index) {
        Some(value) => same_name(value.name, name),
        None => false,
    }
}

/// The index of a key's value of that name, after folding, if it has one. Where it stands at one of two places that are likely, no other
/// is looked at.
pub fn index_near(tree: &Tree, node: Node, name: &[u8], front: u32, back: u32) -> Option<u32>
    requires { IsThere tree.now node }
    ensures { (p : Path) → IsAt tree.now p node → result ≡ index_named name.now (values_at tree.now.tree p) }
{
    // No two of a key's values have one name, as this call's contract says: what has it is the value of that name.
    let _root = tree.root();
    if has_name_at(tree, node, front, name) {
        return Some(front);
    }
    if has_name_at(tree, node, back, name) {
        return Some(back);
    }
    tree.value_index(node, name)
}

/// Whether two values have the same name, as it is spelt, the same type and the same bytes.
pub fn is_same(value: &Copied<'_>, other: &Copied<'_>) -> bool
    ensures { result ≡ same_member (member_of value.now) (member_of other.now) }
{
    value.name == other.name && value.kind == other.kind && value.bytes == other.bytes
}

/// Whether two keys' lists of values are the same.
pub fn are_same(
    alloc: Global,
    tree: &Tree,
    node: Node,
    other: &Tree,
    found: Node,
) -> Result<bool, AllocError>
    requires node { IsThere tree.now node }
    requires found { IsThere other.now found }
    ensures { (p q : Path) → IsAt tree.now p node → IsAt other.now q found →
        IfOk result (λ same. same ≡ same_members (values_at tree.now.tree p) (values_at other.now.tree q)) }
{
    let count = tree.values(node);
    if count != other.values(found) {
        return Ok(false);
    }
    for index in 0..count {
        let value = read_value(alloc, tree, node, index)?;
        let like = read_value(alloc, other, found, index)?;
        if !is_same(&value, &like) {
            return Ok(false);
        }
    }
    Ok(true)
}
