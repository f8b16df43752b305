//! Names of changes that can't be written.
ghost use Rattle.std.specs.Prelude.{◌≡◌, ℕ, List, true, not, find, is_some, ◌&&◌, ◌||◌, Some, IfOk, []};
ghost use Rattle.std.specs.FinMap.{get};
ghost use Rattle.std.specs.List.{list_all};
ghost use Rattle.std.specs.Option.{option_map};
ghost use Rattle.reg_names.specs.Names.{is_path};
ghost use Rattle.reg_heap.specs.Paths.{Path, Rec};
ghost use Rattle.reg_heap.specs.Edits.{folded_path};
ghost use Rattle.reg_tree.specs.TreeKeys.{IsAt, IsThere};
ghost use Rattle.reg_tree_text.specs.DumpTexts.{name_of};
ghost use Rattle.reg_dotreg_writer.specs.Entries.{is_line_name as is_name_on_line};
ghost use Rattle.reg_dotreg_writer.specs.Changes.{Change, change_here, changes_of, rooted, is_writable_change, unwritable_change};

use crate::side::Side;
use crate::telling::look_over;
use crate::writable::is_line_name;
use reg_tree::{Node, Tree};
use reg_tree_text::Walk;
use std::alloc::{AllocError, Global};

/// The names that lead to a key, the root's first, joined by backslashes.
fn rooted_text(alloc: Global, root: &[u8], path: &[u8]) -> Result<Vec<u8>, AllocError>
    ensures { IfOk result (λ text. text.items ≡ rooted root.now path.now) }
{
    let mut text = Vec::new(alloc);
    text.extend_from_slice(root)?;
    if path.is_empty() {
        return Ok(text);
    }
    text.push(b'\\')?;
    text.extend_from_slice(path)?;
    Ok(text)
}

/// Whether the names that lead to a key stand on one line.
fn is_line_path(root: &[u8], path: &[u8]) -> bool
    ensures { result ≡ is_name_on_line (rooted root.now path.now) }
{
    is_line_name(root) & is_line_name(path)
}

/// Whether what changes of a key can be written, if something does. Names lead to it below the root, and the other tree has it at their
/// end, or lacks it.
fn can_write_change(
    alloc: Global,
    side: Side,
    tree: &Tree,
    node: Node,
    other: &Tree,
    root: &[u8],
    path: &[u8],
) -> Result<bool, AllocError>
    requires node { IsThere tree.now node }
    requires path { is_path path.now ≡ true }
    ensures { (p : Path) → IsAt tree.now p node → (key : Rec) → get tree.now.tree p ≡ Some key →
        IfOk result (λ can. can ≡ list_all (is_writable_change root.now) (change_here side path.now key (get other.now.tree (folded_path path.now)))) }
{
    let found = other.resolve(other.root(), path);
    let seen = look_over(alloc, side, tree, node, other, found)?;
    let is_told = found.is_none() | seen.is_any;
    Ok(!is_told | (is_line_path(root, path) & seen.are_fine))
}

/// The names that lead to the first key of one tree of which a change can't be written.
fn find_in_side(
    alloc: Global,
    side: Side,
    tree: &Tree,
    other: &Tree,
    root: &[u8],
) -> Result<Option<Vec<u8>>, AllocError>
    ensures { IfOk result (λ key. option_map (λ v. v.items) key ≡ option_map (λ (change : Change). rooted root.now change.path)
        (find (λ change. not (is_writable_change root.now change)) (changes_of side tree.now.tree other.now.tree))) }
{
    let mut walk = Walk::new(alloc, tree.root());
    // No tree has so many keys: the bound only shows that the walk ends.
    for _key in 0..u64::MAX {
        if !can_write_change(alloc, side, tree, walk.node, other, root, &walk.path)? {
            return Ok(Some(rooted_text(alloc, root, &walk.path)?));
        }
        if !walk.advance(tree)? {
            return Ok(None);
        }
    }
    Err(AllocError)
}

/// The names that lead to the first key of which a change can't be written; `None` where each can be.
pub fn find_unwritable_change(
    alloc: Global,
    old: &Tree,
    new: &Tree,
) -> Result<Option<Vec<u8>>, AllocError>
    ensures { IfOk result (λ key. option_map (λ v. v.items) key ≡ option_map (λ (change : Change). rooted (name_of (get old.now.tree [])) change.path)
        (unwritable_change old.now.tree new.now.tree)) }
{
    let root = old.name(old.root());
    if let Some(key) = find_in_side(alloc, Side::Old, old, new, root)? {
        return Ok(Some(key));
    }
    find_in_side(alloc, Side::New, new, old, root)
}
