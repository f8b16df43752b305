//! A key found by its path, from where a walk begins with the names that lead to it as they are spelt.
ghost use Rattle.std.specs.Prelude.{◌≡◌, length, IfOk, OnOk, Some};
ghost use Rattle.reg_heap.specs.Paths.{Path};
ghost use Rattle.reg_tree_text.specs.PathQueries.{key_at};
ghost use Rattle.reg_tree_text.specs.Internal.Walking.{Goes, text_below};
ghost use Rattle.reg_diff.specs.Branches.{keys_from};

use reg_names::first_name;
use reg_tree::{Node, Tree};
use reg_tree_text::Walk;
use std::alloc::{AllocError, Global};

/// Puts a name behind a path's text. No name is empty, so only the root's text is.
fn push_name(text: &mut Vec<u8>, name: &[u8]) -> Result<(), AllocError>
    ensures { OnOk result (text.new.items ≡ text_below (length text.old.items) text.old.items name.now) }
{
    if !text.is_empty() {
        text.push(b'\\')?;
    }
    text.extend_from_slice(name)?;
    Ok(())
}

/// A walk that begins at the key that a path leads to, with the names that lead there.
pub fn walk_from(alloc: Global, tree: &Tree, path: &[u8]) -> Result<Walk, AllocError>
    requires { (p : Path) × (key_at tree.now.tree path.now ≡ Some p) }
    ensures { (p : Path) → key_at tree.now.tree path.now ≡ Some p → IfOk result (λ walk. Goes tree.now walk (keys_from tree.now.tree p)) }
{
    let mut walk = Walk::new(alloc, tree.root());
    let mut rest = path;
    while let Some((name, behind)) = first_name(rest) {
        let Some(node) = tree.resolve(walk.node, name) else {
            unreachable!()
        };
        push_name(&mut walk.path, tree.name(node))?;
        walk.node = node;
        rest = behind;
    }
    Ok(walk)
}
