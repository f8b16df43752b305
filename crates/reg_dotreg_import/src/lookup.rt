//! What is there already.
ghost use Rattle.std.specs.Prelude.{◌≡◌, ◌==◌, ◌&&◌, length, not, true, is_some};
ghost use Rattle.std.specs.FinMap.{get};
ghost use Rattle.reg_names.specs.Names.{is_path};
ghost use Rattle.reg_heap.specs.Edits.{folded_path, values_at};
ghost use Rattle.reg_heap.specs.Members.{value_named};

use reg_names::check_path;
use reg_tree::Tree;

/// Whether no key is at the end of a path from the root. Of the empty path, and of a text that is no path, this isn't said.
pub fn lacks_key(tree: &Tree, path: &[u8]) -> bool
    ensures { result ≡ (not (length path.now == 0) && is_path path.now && not (is_some (get tree.now.tree (folded_path path.now)))) }
{
    if path.is_empty() || check_path(path).is_err() {
        return false;
    }
    tree.resolve(tree.root(), path).is_none()
}

/// Whether the key at a path has no value of that name.
pub fn lacks_value(tree: &Tree, path: &[u8], name: &[u8]) -> bool
    ensures { is_path path.now ≡ true → result ≡ not (is_some (value_named name.now (values_at tree.now.tree (folded_path path.now)))) }
{
    if check_path(path).is_err() {
        return true;
    }
    let Some(node) = tree.resolve(tree.root(), path) else {
        return true;
    };
    tree.find_value(node, name).is_none()
}
