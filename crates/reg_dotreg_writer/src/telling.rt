//! Which values of a key are told against the other tree's.
ghost use Rattle.std.specs.Prelude.{◌≡◌, ◌&&◌, ◌||◌, not, Some, IfOk};
ghost use Rattle.std.specs.FinMap.{get};
ghost use Rattle.std.specs.List.{list_all, list_any};
ghost use Rattle.reg_heap.specs.Paths.{Path};
ghost use Rattle.reg_heap.specs.Edits.{values_at};
ghost use Rattle.reg_tree.specs.TreeKeys.{IsAt, IsThere, IsResolved};
ghost use Rattle.reg_diff.specs.Internal.Parts.{member_of};
ghost use Rattle.reg_dotreg_writer.specs.Changes.{is_kept as is_kept_there, is_told as is_told_of};
ghost use Rattle.reg_dotreg_writer.specs.Entries.{is_line_name as is_name_on_line};
ghost use Rattle.reg_dotreg_writer.specs.Internal.ChangePieces.{is_fine};

use crate::side::Side;
use crate::writable::is_line_name;
use reg_diff::{Copied, index_near, is_same, read_value};
use reg_tree::{Node, Tree};
use std::alloc::{AllocError, Global};

/// What was seen of a key's values.
#[derive(Clone, Copy, Debug)]
pub struct Seen {
    /// Whether one is told.
    pub is_any: bool,
    /// Whether the names of those that are stand on one line.
    pub are_fine: bool,
}

/// Whether a value stands in the other tree too, where this one has its name there.
fn is_kept(side: Side, value: &Copied<'_>, other: &Copied<'_>) -> bool
    ensures { result ≡ is_kept_there (Some (member_of other.now)) side (member_of value.now) }
{
    match side {
        Side::Old => value.name == other.name,
        Side::New => is_same(value, other),
    }
}

/// Whether a value is told, where the other tree has this key or none. There its name may stand at one of two places.
pub fn is_told(
    alloc: Global,
    side: Side,
    value: &Copied<'_>,
    other: &Tree,
    found: Option<Node>,
    front: u32,
    back: u32,
) -> Result<bool, AllocError>
    requires { (q : Path) × IsResolved other.now q found }
    ensures { (q : Path) → IsResolved other.now q found →
        IfOk result (λ told. told ≡ is_told_of (get other.now.tree q) side (member_of value.now)) }
{
    let Some(node) = found else {
        return Ok(side.is_new());
    };
    let Some(index) = index_near(other, node, value.name, front, back) else {
        return Ok(true);
    };
    let like = read_value(alloc, other, node, index)?;
    Ok(!is_kept(side, value, &like))
}

/// How many values the other tree has at this key more than this one, modulo 2^32.
pub fn shift(tree: &Tree, node: Node, other: &Tree, found: Option<Node>) -> u32
    requires node { IsThere tree.now node }
    requires found { (q : Path) × IsResolved other.now q found }
{
    match found {
        Some(like) => other.values(like).wrapping_sub(tree.values(node)),
        None => 0,
    }
}

/// What is seen with one value more.
fn with_value(seen: Seen, told: bool, name: &[u8]) -> Seen
    ensures any { result.is_any ≡ (seen.is_any || told) }
    ensures fine { result.are_fine ≡ (seen.are_fine && (not told || is_name_on_line name.now)) }
{
    Seen {
        is_any: seen.is_any | told,
        are_fine: seen.are_fine & (!told | is_line_name(name)),
    }
}

/// Whether a value of a key is told against the other tree's, and whether the names of all that are stand on one line.
pub fn look_over(
    alloc: Global,
    side: Side,
    tree: &Tree,
    node: Node,
    other: &Tree,
    found: Option<Node>,
) -> Result<Seen, AllocError>
    requires node { IsThere tree.now node }
    requires found { (q : Path) × IsResolved other.now q found }
    ensures any { (p q : Path) → IsAt tree.now p node → IsResolved other.now q found →
        IfOk result (λ seen. seen.is_any ≡ list_any (is_told_of (get other.now.tree q) side) (values_at tree.now.tree p)) }
    ensures fine { (p q : Path) → IsAt tree.now p node → IsResolved other.now q found →
        IfOk result (λ seen. seen.are_fine ≡ list_all (is_fine (get other.now.tree q) side) (values_at tree.now.tree p)) }
{
    let mut seen = Seen {
        is_any: false,
        are_fine: true,
    };
    let more = shift(tree, node, other, found);
    for index in 0..tree.values(node) {
        let value = read_value(alloc, tree, node, index)?;
        let back = index.wrapping_add(more);
        let told = is_told(alloc, side, &value, other, found, index, back)?;
        seen = with_value(seen, told, value.name);
    }
    Ok(seen)
}
