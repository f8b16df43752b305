//! What hinders a change before it is made.

ghost use Rattle.std.specs.Prelude.{◌≡◌, ◌<◌, is_some};
ghost use Rattle.reg_edits.specs.KeyChanges.{has_key as has_key_at, has_subkeys as has_subkeys_at, has_value as has_value_at, parent_of};
ghost use Rattle.reg_edits.specs.KeyChanges.{hinders_path, hinders_name, hinders_data, hinders_by_itself};
ghost use Rattle.reg_edits.specs.KeyChanges.{hinders_key, hinders_value, hinders_going_value, hinders_going_key, hinders_in, hindrance_of};

use reg_heap::limits::DATA_LIMIT;
use reg_names::{check_path, check_value_name};
use reg_tree::Tree;
use reg_words::KeyChange;

/// Why none of the calls of a change is made.
#[derive(Clone, Copy, Debug, PartialEq, Eq)]
pub enum Hindrance {
    /// The path is none.
    NoPath,
    /// The value's name is none.
    NoName,
    /// The data has more bytes than a value may have.
    TooLong,
    /// There is no such key, and none is to be made.
    NoKey,
    /// The key above the one that is to be made isn't there, and isn't to be made.
    NoParent,
    /// The key has no such value.
    NoValue,
    /// The key has keys below it, which aren't to go.
    HasSubkeys,
    /// The root would go.
    IsRoot,
}

/// Whether a key is at the end of a path from the root.
fn has_key(tree: &Tree, path: &[u8]) -> bool
    ensures { result ≡ has_key_at tree.now.tree path.now }
{
    if check_path(path).is_err() {
        return false;
    }
    tree.resolve(tree.root(), path).is_some()
}

/// Whether a key is there, and has keys below it.
fn has_subkeys(tree: &Tree, path: &[u8]) -> bool
    ensures { result ≡ has_subkeys_at tree.now.tree path.now }
{
    if check_path(path).is_err() {
        return false;
    }
    let Some(node) = tree.resolve(tree.root(), path) else {
        return false;
    };
    tree.subkeys(node) > 0
}

/// Whether a key is there, and has a value of that name.
fn has_value(tree: &Tree, path: &[u8], name: &[u8]) -> bool
    ensures { result ≡ has_value_at tree.now.tree path.now name.now }
{
    if check_path(path).is_err() {
        return false;
    }
    let Some(node) = tree.resolve(tree.root(), path) else {
        return false;
    };
    tree.find_value(node, name).is_some()
}

/// The path of the key above: what stands before the last backslash.
#[tactic(auto, using(crate::proofs::ParentPaths::parents))]
fn parent(path: &[u8]) -> &[u8]
    ensures { result.now ≡ parent_of path.now }
{
    let mut rest = path;
    while let Some((last, front)) = rest.split_last() {
        if *last == b'\\' {
            return front;
        }
        rest = front;
    }
    rest
}

/// A path that is none.
fn at_path(path: &[u8]) -> Option<Hindrance>
    ensures { result ≡ hinders_path path.now }
{
    if check_path(path).is_err() {
        return Some(Hindrance::NoPath);
    }
    None
}

/// A value's name that is none.
fn at_name(name: &[u8]) -> Option<Hindrance>
    ensures { result ≡ hinders_name name.now }
{
    if check_value_name(name).is_err() {
        return Some(Hindrance::NoName);
    }
    None
}

/// Data that no value may have.
fn at_data(bytes: &[u8]) -> Option<Hindrance>
    ensures { result ≡ hinders_data bytes.now }
{
    if bytes.len() > DATA_LIMIT {
        return Some(Hindrance::TooLong);
    }
    None
}

/// What hinders a change whatever the tree has.
fn by_itself(change: &KeyChange) -> Option<Hindrance>
    ensures { result ≡ hinders_by_itself change.now }
{
    match change {
        KeyChange::CreateKey { path, .. } | KeyChange::DeleteKey { path, .. } => {
            at_path(path.as_slice())
        }
        KeyChange::SetValue {
            path,
            name,
            contents,
            ..
        } => at_path(path.as_slice())
            .or(at_name(name.as_slice()))
            .or(at_data(contents.bytes.as_slice())),
        KeyChange::DeleteValue { path, name } => {
            at_path(path.as_slice()).or(at_name(name.as_slice()))
        }
    }
}

/// What hinders a key to be made.
fn at_new_key(tree: &Tree, path: &[u8], makes_parents: bool) -> Option<Hindrance>
    ensures { result ≡ hinders_key tree.now.tree path.now makes_parents }
{
    if makes_parents || has_key(tree, parent(path)) {
        return None;
    }
    Some(Hindrance::NoParent)
}

/// What hinders a value to be set.
fn at_value(tree: &Tree, path: &[u8], makes_parents: bool) -> Option<Hindrance>
    ensures { result ≡ hinders_value tree.now.tree path.now makes_parents }
{
    if makes_parents || has_key(tree, path) {
        return None;
    }
    Some(Hindrance::NoKey)
}

/// What hinders a value to be taken away.
fn at_going_value(tree: &Tree, path: &[u8], name: &[u8]) -> Option<Hindrance>
    ensures { result ≡ hinders_going_value tree.now.tree path.now name.now }
{
    if !has_key(tree, path) {
        return Some(Hindrance::NoKey);
    }
    if has_value(tree, path, name) {
        return None;
    }
    Some(Hindrance::NoValue)
}

/// What hinders a key to be taken away.
fn at_going_key(tree: &Tree, path: &[u8], is_tree: bool) -> Option<Hindrance>
    ensures { result ≡ hinders_going_key tree.now.tree path.now is_tree }
{
    if path.is_empty() {
        return Some(Hindrance::IsRoot);
    }
    if !has_key(tree, path) {
        return Some(Hindrance::NoKey);
    }
    if is_tree || !has_subkeys(tree, path) {
        return None;
    }
    Some(Hindrance::HasSubkeys)
}

/// What hinders a change by what the tree has.
fn in_tree(tree: &Tree, change: &KeyChange) -> Option<Hindrance>
    ensures { result ≡ hinders_in tree.now.tree change.now }
{
    match change {
        KeyChange::CreateKey {
            path,
            makes_parents,
        } => at_new_key(tree, path.as_slice(), *makes_parents),
        KeyChange::SetValue {
            path,
            makes_parents,
            ..
        } => at_value(tree, path.as_slice(), *makes_parents),
        KeyChange::DeleteValue { path, name } => {
            at_going_value(tree, path.as_slice(), name.as_slice())
        }
        KeyChange::DeleteKey { path, is_tree } => at_going_key(tree, path.as_slice(), *is_tree),
    }
}

/// What hinders a change of a tree, if anything does.
pub fn what_hinders(tree: &Tree, change: &KeyChange) -> Option<Hindrance>
    ensures { result ≡ hindrance_of tree.now.tree change.now }
{
    match by_itself(change) {
        Some(why) => Some(why),
        None => in_tree(tree, change),
    }
}
