//! The key that a path leads to, with the names on the way.
ghost use Rattle.std.specs.Prelude.{◌≡◌, ◌<◌, true, ◌∷◌, ◌++◌, length, IsSome, OnOk, IfOk};
ghost use Rattle.std.specs.FinMap.{get};
ghost use Rattle.reg_names.specs.Names.{is_path, text_of};
ghost use Rattle.reg_heap.specs.Edits.{folded_path};
ghost use Rattle.reg_tree.specs.TreeKeys.{IsAt};
ghost use Rattle.reg_tree_text.specs.Internal.Walking.{Goes};
ghost use Rattle.reg_dotreg_writer.specs.Entries.{names_to, keys_from};

use reg_names::first_name;
use reg_tree::{Node, Tree};
use reg_tree_text::Walk;
use std::alloc::{AllocError, Global};

/// Goes on with one name more in the text of a path.
fn push_below(text: &mut Vec<u8>, name: &[u8]) -> Result<(), AllocError>
    ensures { OnOk result (text.new.items ≡ text.old.items ++ 92 ∷ name.now) }
{
    text.push(b'\\')?;
    text.extend_from_slice(name)?;
    Ok(())
}

/// What stands for the root's name, and the names of the keys on the path to one, as given, joined by backslashes.
fn names_text(alloc: Global, tree: &Tree, root: &[u8], path: &[u8]) -> Result<Vec<u8>, AllocError>
    requires path { is_path path.now ≡ true }
    requires there { IsSome (get tree.now.tree (folded_path path.now)) }
    ensures { IfOk result (λ text. text.items ≡ text_of (names_to root.now tree.now.tree (folded_path path.now))) }
{
    let mut node = tree.root();
    let mut text = Vec::new(alloc);
    text.extend_from_slice(root)?;
    let mut rest = path;
    while let Some((name, behind)) = first_name(rest) {
        let Some(below) = tree.resolve(node, name) else {
            unreachable!()
        };
        push_below(&mut text, tree.name(below))?;
        node = below;
        rest = behind;
    }
    Ok(text)
}

/// A walk that begins at the key that a path leads to, and tells with each key the names from the root on, for whose name something
/// stands.
pub fn start(
    alloc: Global,
    tree: &Tree,
    root: &[u8],
    path: &[u8],
    node: Node,
) -> Result<Walk, AllocError>
    requires root { 0 < length root.now }
    requires path { is_path path.now ≡ true }
    requires there { IsSome (get tree.now.tree (folded_path path.now)) }
    requires at { IsAt tree.now (folded_path path.now) node }
    ensures { IfOk result (λ walk. Goes tree.now walk (keys_from root.now tree.now.tree (folded_path path.now))) }
{
    let mut walk = Walk::new(alloc, node);
    walk.path = names_text(alloc, tree, root, path)?;
    Ok(walk)
}
