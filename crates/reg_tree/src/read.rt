//! What is told of a key.
ghost use Rattle.std.specs.Prelude.{◌≡◌, ◌≤◌, ◌+◌, ℕ, Some, length, max};
ghost use Rattle.std.specs.List.{fold};
ghost use Rattle.std.specs.FinMap.{get};
ghost use Rattle.reg_names.specs.declared.TheConstants.{KEY_NAME_LIMIT, PATH_LIMIT};
ghost use Rattle.reg_heap.specs.declared.limits.TheConstants.{DESCRIPTOR_LIMIT};
ghost use Rattle.reg_heap.specs.Paths.{Path, Rec, children_of};
ghost use Rattle.reg_arena.specs.Arena.{heap_of};
ghost use Rattle.reg_tree.specs.SubkeyWalk.{name_length};
ghost use Rattle.reg_tree.specs.TreeKeys.{tree_in};
ghost use Rattle.reg_tree.specs.Internal.TreeInvariant.{IsHere};
ghost use Rattle.reg_tree.specs.Internal.PathWalks.{IsSubkey};
ghost use Rattle.reg_tree.specs.Internal.KeyNodeChanges.{HasSubkeysList};
ghost use Rattle.reg_tree.specs.Internal.ReachedPlaces.{IsPlaceAt, IsPlaceOf, IsPlacedSubkey, place_index};

use crate::key::{fields, subkeys_list};
use crate::{Node, Place, Subkey};
use reg_arena::Arena;
use reg_index::{SubkeysIndex, at, at_place, behind, key_behind, len, longest_name, place_at};
use reg_records::nk_name;
use reg_security::descriptor as descriptor_in;

/// The flags of a key node that are the key's marks.
const MARKS: u16 = 0xFFD8;

/// A key's name, as it was given.
pub fn name(arena: &Arena, key: u32) -> &[u8]
    requires { IsHere arena.now.bytes key }
    ensures told { (t : IsHere arena.now.bytes key) → (r : Rec) → get (tree_in arena.now.bytes t.root) t.path ≡ Some r → result.now ≡ r.name }
    ensures short { length result.now ≤ KEY_NAME_LIMIT }
{
    nk_name(arena.content(key))
}

/// A key's last write time, in 100 ns ticks since 1601.
pub fn time(arena: &Arena, key: u32) -> u64
    requires { IsHere arena.now.bytes key }
    ensures { (t : IsHere arena.now.bytes key) → (r : Rec) → get (tree_in arena.now.bytes t.root) t.path ≡ Some r → result ≡ r.time }
{
    fields(arena, key).time
}

/// A key's marks: its flags without those for volatile, hive exit, hive entry and the form of the name.
pub fn marks(arena: &Arena, key: u32) -> u16
    requires { IsHere arena.now.bytes key }
    ensures { (t : IsHere arena.now.bytes key) → (r : Rec) → get (tree_in arena.now.bytes t.root) t.path ≡ Some r → result ≡ r.marks }
{
    fields(arena, key).flags & MARKS
}

/// The bytes of a key's security descriptor.
pub fn descriptor(arena: &Arena, key: u32) -> &[u8]
    requires { IsHere arena.now.bytes key }
    ensures told { (t : IsHere arena.now.bytes key) → (r : Rec) → get (tree_in arena.now.bytes t.root) t.path ≡ Some r → result.now ≡ r.descriptor }
    ensures short { length result.now ≤ DESCRIPTOR_LIMIT }
{
    descriptor_in(arena, fields(arena, key).security)
}

/// The bytes of a key's class.
pub fn class(arena: &Arena, key: u32) -> &[u8]
    requires { IsHere arena.now.bytes key }
    ensures told { (t : IsHere arena.now.bytes key) → (r : Rec) → get (tree_in arena.now.bytes t.root) t.path ≡ Some r → result.now ≡ r.class }
    ensures short { length result.now ≤ 65535 }
{
    let fields = fields(arena, key);
    if fields.class_length == 0 {
        return &[];
    }
    &arena.content(fields.class)[..usize::from(fields.class_length)]
}

/// How many keys are right below a key.
pub fn subkeys(arena: &Arena, key: u32) -> u32
    requires { IsHere arena.now.bytes key }
    ensures { (t : IsHere arena.now.bytes key) → result ≡ length (children_of (tree_in arena.now.bytes t.root) t.path) }
{
    len(subkeys_list(arena, key))
}

/// The length of the longest name among the keys right below a key; 0 of none.
pub fn longest_subkey_name(arena: &Arena, key: u32) -> u32
    requires { IsHere arena.now.bytes key }
    ensures { (t : IsHere arena.now.bytes key) → result ≡
        fold (λ a (q : Path). max a (name_length (get (tree_in arena.now.bytes t.root) q))) 0 (children_of (tree_in arena.now.bytes t.root) t.path) }
{
    longest_name(arena, subkeys_list(arena, key))
}

/// The key at an index among those right below a key, in the order of their folded names, if there are so many.
pub fn subkey(arena: &Arena, node: Node, index: u32) -> Option<Node>
    requires here { IsHere arena.now.bytes node.offset }
    requires depth { node.depth ≤ PATH_LIMIT }
    ensures { (t : IsHere arena.now.bytes node.offset) →
        IsSubkey (heap_of arena.now) t.root t.path
        (children_of (tree_in arena.now.bytes t.root) t.path) node index result }
{
    let list = subkeys_list(arena, node.offset);
    if index >= len(list) {
        return None;
    }
    Some(Node {
        offset: at(arena, list, index),
        depth: node.depth + 1,
    })
}

/// The key behind the one at a place among those right below a key, in the order of their folded names, if there is one.
pub fn subkey_behind(arena: &Arena, node: Node, place: Place) -> Option<Node>
    requires here { IsHere arena.now.bytes node.offset }
    requires depth { node.depth ≤ PATH_LIMIT }
    requires place { IsPlaceOf (heap_of arena.now) node.offset place }
    ensures { (t : IsHere arena.now.bytes node.offset) →
        IsSubkey (heap_of arena.now) t.root t.path
        (children_of (tree_in arena.now.bytes t.root) t.path) node (place_index (heap_of arena.now) node.offset place + 1) result }
{
    let list = subkeys_list(arena, node.offset);
    let Some(offset) = behind(arena, list, place) else {
        return None;
    };
    Some(Node {
        offset,
        depth: node.depth + 1,
    })
}

/// The subkey of a key at a place.
fn subkey_at(arena: &Arena, node: Node, list: SubkeysIndex, place: Place) -> Subkey
    requires here { IsHere arena.now.bytes node.offset }
    requires depth { node.depth ≤ PATH_LIMIT }
    requires list { HasSubkeysList (heap_of arena.now) node.offset list.count list.offset }
    requires place { IsPlaceOf (heap_of arena.now) node.offset place }
    ensures { (t : IsHere arena.now.bytes node.offset) → (index : ℕ) → IsPlaceAt (heap_of arena.now) node.offset index place →
        IsPlacedSubkey (heap_of arena.now) t.root t.path
        (children_of (tree_in arena.now.bytes t.root) t.path) node index (Some result) }
{
    Subkey {
        node: Node {
            offset: at_place(arena, list, place),
            depth: node.depth + 1,
        },
        place,
    }
}

/// The key at an index among those right below a key, in the order of their folded names, with its place, if there are so many.
pub fn subkey_from(arena: &Arena, node: Node, index: u32) -> Option<Subkey>
    requires here { IsHere arena.now.bytes node.offset }
    requires depth { node.depth ≤ PATH_LIMIT }
    ensures { (t : IsHere arena.now.bytes node.offset) →
        IsPlacedSubkey (heap_of arena.now) t.root t.path
        (children_of (tree_in arena.now.bytes t.root) t.path) node index result }
{
    let list = subkeys_list(arena, node.offset);
    if index >= len(list) {
        return None;
    }
    Some(subkey_at(arena, node, list, place_at(arena, list, index)))
}

/// The first of the keys right below a key, in the order of their folded names, if there is one.
pub fn first_subkey(arena: &Arena, node: Node) -> Option<Subkey>
    requires here { IsHere arena.now.bytes node.offset }
    requires depth { node.depth ≤ PATH_LIMIT }
    ensures { (t : IsHere arena.now.bytes node.offset) →
        IsPlacedSubkey (heap_of arena.now) t.root t.path
        (children_of (tree_in arena.now.bytes t.root) t.path) node 0 result }
{
    let list = subkeys_list(arena, node.offset);
    if list.count == 0 {
        return None;
    }
    Some(subkey_at(arena, node, list, Place { list: 0, index: 0 }))
}

/// The key behind the one at a place among those right below a key, in the order of their folded names, if there is one, with its
/// place.
pub fn next_subkey(arena: &Arena, node: Node, place: Place) -> Option<Subkey>
    requires here { IsHere arena.now.bytes node.offset }
    requires depth { node.depth ≤ PATH_LIMIT }
    requires place { IsPlaceOf (heap_of arena.now) node.offset place }
    ensures { (t : IsHere arena.now.bytes node.offset) →
        IsPlacedSubkey (heap_of arena.now) t.root t.path
        (children_of (tree_in arena.now.bytes t.root) t.path) node (place_index (heap_of arena.now) node.offset place + 1) result }
{
    let list = subkeys_list(arena, node.offset);
    let Some(next) = key_behind(arena, list, place) else {
        return None;
    };
    Some(Subkey {
        node: Node {
            offset: next.key,
            depth: node.depth + 1,
        },
        place: next.place,
    })
}
