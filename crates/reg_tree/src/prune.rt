//! Whole trees deleted: a key with all keys below it, or the keys below one alone.
//!
//! One key after another goes, each the first subkey of its parent and without subkeys of its own. So no memory is taken and no call
//! nests, however deep the tree is; what was removed leaves no trace in the time of a key that goes later.
//!
//! Win32 registry reference, `RegDeleteTree`.

ghost use Rattle.std.specs.Prelude.{true, ◌≡◌, ◌≢◌, ◌⊎◌, ◌↔◌, [], length, Err, OnOk, OnErr, IfErr};
ghost use Rattle.reg_heap.specs.Edits.{any_kept_within, any_kept_under, is_marked as is_marked_in};
ghost use Rattle.reg_arena.specs.Arena.{heap_of};
ghost use Rattle.reg_tree.specs.TreeKeys.{tree_in};
ghost use Rattle.reg_tree.specs.Internal.TreeInvariant.{IsHere, IsChanged};
ghost use Rattle.reg_tree.specs.Internal.LengthChanges.{LengthsStay};
ghost use Rattle.reg_tree.specs.Internal.KeyDeletion.{IsPruned, IsEmptied};
ghost use Rattle.reg_tree.specs.Internal.KeyOrder.{HasTop, IsAbove, IsNextKey, TellsMarks};
ghost use Rattle.reg_tree.specs.Internal.TreeDeletion.{IsFirstSubkey, IsBared, if_valued};

use crate::key::{fields, note_values, subkeys_list, values_list};
use crate::read::{subkey, subkey_behind};
use crate::unmake::{delete_at, has_children, is_kept, place_of};
use crate::{Node, Place, TreeFault};
use reg_arena::Arena;
use reg_heap::limits::NONE;
use reg_heap::marks::NO_DELETE;
use reg_index::{PlacedKey, at_place};
use reg_security::SecurityTable;
use reg_values::{ValuesList, clear};

/// Whether a key is marked so that it may not be deleted.
fn is_marked(arena: &Arena, key: u32) -> bool
    requires { IsHere arena.now.bytes key }
    ensures { (t : IsHere arena.now.bytes key) → result ≡ is_marked_in (tree_in arena.now.bytes t.root) t.path }
{
    fields(arena, key).flags & NO_DELETE != 0
}

/// The key above one, which isn't the top. Depths count from the top.
fn parent_of(arena: &Arena, node: Node) -> Node
    requires top { HasTop arena.now.bytes node }
    requires below { node.depth ≢ 0 }
    ensures { (t : HasTop arena.now.bytes node) → IsAbove arena.now.bytes t.here.root t.here.path node result }
{
    Node {
        offset: fields(arena, node.offset).parent,
        depth: node.depth - 1,
    }
}

/// The key behind one in the order of paths, of those at or below the top: its first subkey, or else the sibling behind it or behind
/// the nearest key above it that has one. Depths count from the top.
fn next_key(arena: &Arena, from: Node) -> Option<Node>
    requires { HasTop arena.now.bytes from }
    ensures { (t : HasTop arena.now.bytes from) → IsNextKey arena.now.bytes t.here.root t.top t.names result }
{
    if let Some(first) = subkey(arena, from, 0) {
        return Some(first);
    }
    let mut node = from;
    while node.depth != 0 {
        let above = parent_of(arena, node);
        let place = place_of(arena, node.offset);
        if let Some(beside) = subkey_behind(arena, above, place) {
            return Some(beside);
        }
        node = above;
    }
    None
}

/// Whether a key, or one behind it of those at or below the top, is marked so that it may not be deleted.
fn is_kept_from(arena: &Arena, first: Node) -> bool
    requires { HasTop arena.now.bytes first }
    ensures { (t : HasTop arena.now.bytes first) → TellsMarks (tree_in arena.now.bytes t.here.root) t.top t.names result }
{
    let mut node = first;
    loop {
        if is_marked(arena, node.offset) {
            return true;
        }
        let Some(next) = next_key(arena, node) else {
            return false;
        };
        node = next;
    }
}

/// Whether a key, or one below it, is marked so that it may not be deleted.
pub fn is_kept_within(arena: &Arena, key: u32) -> bool
    requires { IsHere arena.now.bytes key }
    ensures { (t : IsHere arena.now.bytes key) → result ≡ any_kept_within (tree_in arena.now.bytes t.root) t.path }
{
    is_kept_from(
        arena,
        Node {
            offset: key,
            depth: 0,
        },
    )
}

/// Whether a key below one is marked so that it may not be deleted.
pub fn is_kept_under(arena: &Arena, key: u32) -> bool
    requires { IsHere arena.now.bytes key }
    ensures { (t : IsHere arena.now.bytes key) → result ≡ any_kept_under (tree_in arena.now.bytes t.root) t.path }
{
    let top = Node {
        offset: key,
        depth: 0,
    };
    let Some(first) = next_key(arena, top) else {
        return false;
    };
    is_kept_from(arena, first)
}

/// The first of a key's subkeys, and where it stands; `None` where it has none.
fn first_subkey(arena: &Arena, key: u32) -> Option<PlacedKey>
    requires { IsHere arena.now.bytes key }
    ensures { (t : IsHere arena.now.bytes key) → IsFirstSubkey arena.now.bytes t.root t.path result }
{
    let list = subkeys_list(arena, key);
    if list.count == 0 {
        return None;
    }
    let place = Place { list: 0, index: 0 };
    Some(PlacedKey {
        place,
        key: at_place(arena, list, place),
    })
}

/// Deletes all keys below a key, with their values, and sets the key's time where it had any. It takes no memory.
fn delete_under(arena: &mut Arena, securities: &mut SecurityTable, top: u32, moment: u64)
    requires { (t : IsHere arena.old.bytes top) × (t.table ≡ securities.old) }
    ensures bared { (t : IsHere arena.old.bytes top) → t.table ≡ securities.old →
        IsBared arena.old.bytes arena.new.bytes t.root securities.new t.path moment }
    ensures lengths { (t : IsHere arena.old.bytes top) → LengthsStay (heap_of arena.old) (heap_of arena.new) t.root }
    ensures long { length arena.new.bytes ≡ length arena.old.bytes }
{
    let mut node = Node {
        offset: top,
        depth: 0,
    };
    loop {
        let Some(first) = first_subkey(arena, node.offset) else {
            if node.depth == 0 {
                return;
            }
            node = parent_of(arena, node);
            continue;
        };
        if has_children(arena, first.key) {
            node = Node {
                offset: first.key,
                depth: node.depth + 1,
            };
        } else {
            delete_at(arena, securities, first.key, first.place, moment);
        }
    }
}

/// Removes all values of a key, and sets its time where it had any.
fn drop_values(arena: &mut Arena, key: u32, moment: u64)
    requires { IsHere arena.old.bytes key }
    ensures changed { (t : IsHere arena.old.bytes key) → IsChanged arena.old.bytes arena.new.bytes t.root t.table t.path (if_valued moment) }
    ensures lengths { (t : IsHere arena.old.bytes key) → LengthsStay (heap_of arena.old) (heap_of arena.new) t.root }
    ensures long { length arena.new.bytes ≡ length arena.old.bytes }
{
    let values = values_list(arena, key);
    if values.count == 0 {
        return;
    }
    clear(arena, values);
    let none = ValuesList {
        count: 0,
        offset: NONE,
    };
    note_values(arena, key, none, 0, 0, moment);
}

/// Deletes a key that isn't the root, with all keys below it and their values, and sets its parent's time. It takes no memory. Its
/// place is found when nothing is left below it.
pub fn delete_tree_at(arena: &mut Arena, securities: &mut SecurityTable, key: u32, moment: u64)
    requires here { (t : IsHere arena.old.bytes key) × (t.table ≡ securities.old) × (t.path ≢ []) }
    ensures pruned { (t : IsHere arena.old.bytes key) → t.table ≡ securities.old → t.path ≢ [] →
        IsPruned arena.old.bytes arena.new.bytes t.root securities.new t.path moment }
    ensures lengths { (t : IsHere arena.old.bytes key) → t.path ≢ [] → LengthsStay (heap_of arena.old) (heap_of arena.new) t.root }
    ensures long { length arena.new.bytes ≡ length arena.old.bytes }
{
    delete_under(arena, securities, key, moment);
    let place = place_of(arena, key);
    delete_at(arena, securities, key, place, moment);
}

/// Deletes all keys below a key, with their values, and the key's own values, and sets its time where it lost any of them. It takes
/// no memory.
pub fn empty(arena: &mut Arena, securities: &mut SecurityTable, key: u32, moment: u64)
    requires { (t : IsHere arena.old.bytes key) × (t.table ≡ securities.old) }
    ensures emptied { (t : IsHere arena.old.bytes key) → t.table ≡ securities.old →
        IsEmptied arena.old.bytes arena.new.bytes t.root securities.new t.path moment }
    ensures lengths { (t : IsHere arena.old.bytes key) → LengthsStay (heap_of arena.old) (heap_of arena.new) t.root }
    ensures long { length arena.new.bytes ≡ length arena.old.bytes }
{
    delete_under(arena, securities, key, moment);
    drop_values(arena, key, moment);
}

/// Deletes a key with all keys below it and their values, and sets its parent's time: `delete_tree_at`. `NoDelete` where the key is
/// the root, or it or one below it is marked so; then the arena is as before.
pub fn delete_tree(
    arena: &mut Arena,
    securities: &mut SecurityTable,
    key: u32,
    moment: u64,
) -> Result<(), TreeFault>
    requires { (t : IsHere arena.old.bytes key) × (t.table ≡ securities.old) }
    ensures ok { (t : IsHere arena.old.bytes key) → t.table ≡ securities.old →
        OnOk result (IsPruned arena.old.bytes arena.new.bytes t.root securities.new t.path moment) }
    ensures lengths { (t : IsHere arena.old.bytes key) → OnOk result (LengthsStay (heap_of arena.old) (heap_of arena.new) t.root) }
    ensures kept { (t : IsHere arena.old.bytes key) →
        ((result ≡ Err TreeFault.NoDelete) ↔ ((t.path ≡ []) ⊎ (any_kept_within (tree_in arena.old.bytes t.root) t.path ≡ true))) }
    ensures others { IfErr result (λ fault. fault ≡ TreeFault.NoDelete) }
    ensures err { OnErr result (arena.new ≡ arena.old) }
    ensures table { OnErr result (securities.new ≡ securities.old) }
    ensures long { OnOk result (length arena.new.bytes ≡ length arena.old.bytes) }
{
    if is_kept(arena, key) {
        return Err(TreeFault::NoDelete);
    }
    if is_kept_within(arena, key) {
        return Err(TreeFault::NoDelete);
    }
    delete_tree_at(arena, securities, key, moment);
    Ok(())
}
