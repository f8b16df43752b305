//! Fronts and names that can't be written.
ghost use Rattle.std.specs.Prelude.{◌≡◌, ℕ, List, not, find, Some, option_copied, IfOk};
ghost use Rattle.std.specs.FinMap.{get};
ghost use Rattle.std.specs.List.{list_all};
ghost use Rattle.std.specs.Option.{option_map};
ghost use Rattle.reg_names.specs.Names.{text_of, is_value_name_byte};
ghost use Rattle.reg_heap.specs.Paths.{Path, Member};
ghost use Rattle.reg_heap.specs.Edits.{values_at};
ghost use Rattle.reg_tree.specs.TreeKeys.{IsAt, IsThere};
ghost use Rattle.reg_tree_text.specs.DumpTexts.{Told};
ghost use Rattle.reg_tree_text.specs.Internal.Walking.{Goes};
ghost use Rattle.reg_dotreg_writer.specs.EntryTexts.{is_line_unit as stands_on_line};
ghost use Rattle.reg_dotreg_writer.specs.Entries.{is_line_name as is_name_on_line, begins_path as begins_path_shown, is_front as is_front_shown, can_stand as can_be_shown, is_writable};

use reg_tree::{Node, Tree};
use reg_tree_text::Walk;
use std::alloc::{AllocError, Global};

/// Whether a character is neither CR nor LF.
fn is_line_unit(character: u8) -> bool
    ensures { result ≡ stands_on_line character }
{
    character != 13 && character != 10
}

/// Whether a name, or names joined by backslashes, stand on one line.
pub fn is_line_name(name: &[u8]) -> bool
    ensures { result ≡ is_name_on_line name.now }
{
    name.iter().all(|character| is_line_unit(*character))
}

/// Whether a character is one of the profile.
fn is_allowed(character: u8) -> bool
    ensures { result ≡ is_value_name_byte character }
{
    character >= 0x01 && character <= 0x7F
}

/// Whether each character is one of the profile.
fn are_allowed(text: &[u8]) -> bool
    ensures { result ≡ list_all is_value_name_byte text.now }
{
    text.iter().all(|character| is_allowed(*character))
}

/// Whether a front has characters, of which the first is no `-`, which would say that a key is gone, and the last no backslash.
fn begins_path(front: &[u8]) -> bool
    ensures { result ≡ begins_path_shown front.now }
{
    let (Some(first), Some(last)) = (front.first(), front.last()) else {
        return false;
    };
    *first != b'-' && *last != b'\\'
}

/// Whether a front can stand for the root's name.
fn is_front(front: &[u8]) -> bool
    ensures { result ≡ is_front_shown front.now }
{
    begins_path(front) && (are_allowed(front) && is_line_name(front))
}

/// Whether a front can stand for the root's name, where one is given.
pub fn can_stand(front: Option<&[u8]>) -> bool
    ensures { result ≡ can_be_shown (option_copied front.entry) }
{
    match front {
        Some(front) => is_front(front),
        None => true,
    }
}

/// Whether the name of each value of a key stands on one line.
fn are_line_names(tree: &Tree, node: Node) -> bool
    requires { IsThere tree.now node }
    ensures { (p : Path) → IsAt tree.now p node →
        result ≡ list_all (λ (value : Member). is_name_on_line value.name) (values_at tree.now.tree p) }
{
    for index in 0..tree.values(node) {
        let Some(value) = tree.value(node, index) else {
            unreachable!()
        };
        if !is_line_name(value.name) {
            return false;
        }
    }
    true
}

/// Whether a key can be written, to which these names lead from the root on.
fn can_write(tree: &Tree, node: Node, path: &[u8]) -> bool
    requires { IsThere tree.now node }
    ensures { (p : Path) → IsAt tree.now p node → (told : Told) → get tree.now.tree p ≡ Some told.key → path.now ≡ text_of told.names →
        result ≡ is_writable told }
{
    is_line_name(path) & are_line_names(tree, node)
}

/// A copy of some bytes.
fn copied(alloc: Global, bytes: &[u8]) -> Result<Vec<u8>, AllocError>
    ensures { IfOk result (λ v. v.items ≡ bytes.now) }
{
    let mut copy = Vec::new(alloc);
    copy.extend_from_slice(bytes)?;
    Ok(copy)
}

/// The names that lead to the first key on a walk that can't be written, joined by backslashes; `None` where each can be.
pub fn find_unwritable(
    alloc: Global,
    tree: &Tree,
    walk: &mut Walk,
) -> Result<Option<Vec<u8>>, AllocError>
    requires { (all : List Told) × Goes tree.now walk.old all }
    ensures { (all : List Told) → Goes tree.now walk.old all →
        IfOk result (λ key. option_map (λ v. v.items) key ≡ option_map (λ (told : Told). text_of told.names) (find (λ told. not (is_writable told)) all)) }
{
    // No tree has so many keys: the bound only shows that the walk ends.
    for _key in 0..u64::MAX {
        if !can_write(tree, walk.node, &walk.path) {
            return Ok(Some(copied(alloc, &walk.path)?));
        }
        if !walk.advance(tree)? {
            return Ok(None);
        }
    }
    Err(AllocError)
}
