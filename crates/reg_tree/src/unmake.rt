//! Keys deleted.
//!
//! Win32 registry reference, `RegDeleteKey`.

ghost use Rattle.std.specs.Prelude.{◌≡◌, ◌≢◌, ◌⊎◌, ◌↔◌, ◌==◌, not, true, ℕ, List, [], length, Some, Err, IsSome, OnOk, OnErr, IfErr};
ghost use Rattle.reg_heap.specs.Paths.{children_of};
ghost use Rattle.reg_heap.specs.Edits.{IsKept};
ghost use Rattle.reg_heap.specs.Heaps.{CellFrame};
ghost use Rattle.reg_heap.specs.Kinds.{owned};
ghost use Rattle.reg_arena.specs.Arena.{heap_of};
ghost use Rattle.reg_records.specs.KeyNodes.{KeyRecord, key_at};
ghost use Rattle.reg_records.specs.SubkeyLists.{Entry};
ghost use Rattle.reg_shape.specs.Nodes.{Node as KeyWithCells, look};
ghost use Rattle.reg_index.specs.declared.Place.{Place};
ghost use Rattle.reg_index.specs.Subkeys.{StandsIn, flat, index_of};
ghost use Rattle.reg_values.specs.Internal.ValueListParts.{Owns, GivesUpRead};
ghost use Rattle.reg_tree.specs.TreeKeys.{tree_in};
ghost use Rattle.reg_tree.specs.Internal.TreeInvariant.{IsHere};
ghost use Rattle.reg_tree.specs.Internal.LengthChanges.{LengthsStay};
ghost use Rattle.reg_tree.specs.Internal.KeyDeletion.{IsListed, IsUnlinked, IsSole, IsLone, IsDeleted, class_at};
ghost use Rattle.reg_tree.specs.Internal.ReachedPlaces.{StandsAt};

use crate::key::{fields, note_subkeys, subkeys_list, values_list};
use crate::{Place, TreeFault};
use reg_arena::Arena;
use reg_heap::marks::NO_DELETE;
use reg_index::{find, remove};
use reg_records::{KeyFields, read_nk};
use reg_security::SecurityTable;
use reg_values::clear;

/// The mark of a hive's root.
const HIVE_ENTRY: u16 = 0x04;

/// The name of a key, as its key node has it.
fn name_of(arena: &Arena, key: u32) -> &[u8]
    requires { IsSome (key_at (heap_of arena.now) key) }
    ensures { (record_is : KeyRecord) → key_at (heap_of arena.now) key ≡ Some record_is → result.now ≡ record_is.name }
{
    match read_nk(arena.content(key)) {
        Ok(node) => node.name,
        Err(_) => unreachable!(),
    }
}

/// Where a key stands among its parent's subkeys, found by its name.
pub fn place_of(arena: &Arena, key: u32) -> Place
    requires { (place : Place) × StandsAt (heap_of arena.now) key place }
    ensures { StandsAt (heap_of arena.now) key result }
{
    let list = subkeys_list(arena, fields(arena, key).parent);
    let Ok(place) = find(arena, list, name_of(arena, key)) else {
        unreachable!()
    };
    place
}

/// Takes the key at a place out of its parent's subkeys, and notes that with the time.
fn unlink(arena: &mut Arena, parent: u32, place: Place, moment: u64)
    requires { (key : ℕ) × (above : KeyRecord) × (entries : List Entry)
        × IsListed (heap_of arena.old) parent key above entries (flat (heap_of arena.old) above.fields.subkeys above.fields.subkeys_list place)
        × StandsIn (index_of (heap_of arena.old) above.fields.subkeys above.fields.subkeys_list) place }
    ensures unlinks { (key : ℕ) → (above : KeyRecord) → (entries : List Entry) →
        IsListed (heap_of arena.old) parent key above entries (flat (heap_of arena.old) above.fields.subkeys above.fields.subkeys_list place) →
        IsUnlinked (heap_of arena.old) (heap_of arena.new) parent above entries
        (flat (heap_of arena.old) above.fields.subkeys above.fields.subkeys_list place) moment }
    ensures long { length arena.new.bytes ≡ length arena.old.bytes }
{
    let list = subkeys_list(arena, parent);
    let after = remove(arena, list, place);
    note_subkeys(arena, parent, after, 0, moment);
}

/// Frees a key's class, where it has one.
fn free_class(arena: &mut Arena, fields: KeyFields)
    requires { Owns (class_at fields) (heap_of arena.old) }
    ensures gone { GivesUpRead (class_at fields) (heap_of arena.old) (heap_of arena.new) }
    ensures long { length arena.new.bytes ≡ length arena.old.bytes }
{
    if fields.class_length == 0 {
        return;
    }
    arena.free(fields.class);
}

/// Frees a key's values, its class and its key node.
fn free_key(arena: &mut Arena, key: u32)
    requires { IsSole (heap_of arena.old) key }
    ensures gone { (node : KeyWithCells) → look (heap_of arena.old) key ≡ Some node →
        CellFrame (heap_of arena.old) (heap_of arena.new) (λ offset. owned offset node.cells) (λ offset. 0) }
    ensures long { length arena.new.bytes ≡ length arena.old.bytes }
{
    let head = fields(arena, key);
    let values = values_list(arena, key);
    clear(arena, values);
    free_class(arena, head);
    arena.free(key);
}

/// Whether a key has subkeys.
pub fn has_children(arena: &Arena, key: u32) -> bool
    requires { IsHere arena.now.bytes key }
    ensures { (t : IsHere arena.now.bytes key) → result ≡ not (length (children_of (tree_in arena.now.bytes t.root) t.path) == 0) }
{
    fields(arena, key).subkeys != 0
}

/// Whether a key may not be deleted: the root, and one marked so.
pub fn is_kept(arena: &Arena, key: u32) -> bool
    requires { IsHere arena.now.bytes key }
    ensures { (t : IsHere arena.now.bytes key) → ((result ≡ true) ↔ IsKept (tree_in arena.now.bytes t.root) t.path) }
{
    let flags = fields(arena, key).flags;
    flags & HIVE_ENTRY != 0 || flags & NO_DELETE != 0
}

/// Deletes a key that isn't the root and has no subkeys, and that stands at a place among its parent's, with its values, and sets
/// its parent's time. It takes no memory.
pub fn delete_at(
    arena: &mut Arena,
    securities: &mut SecurityTable,
    key: u32,
    place: Place,
    moment: u64,
)
    requires here { (t : IsHere arena.old.bytes key) × (t.table ≡ securities.old) × IsLone arena.old.bytes key t }
    requires place { StandsAt (heap_of arena.old) key place }
    ensures deleted { (t : IsHere arena.old.bytes key) → t.table ≡ securities.old → IsLone arena.old.bytes key t →
        IsDeleted arena.old.bytes arena.new.bytes t.root securities.new t.path moment }
    ensures lengths { (t : IsHere arena.old.bytes key) → IsLone arena.old.bytes key t → LengthsStay (heap_of arena.old) (heap_of arena.new) t.root }
    ensures long { length arena.new.bytes ≡ length arena.old.bytes }
{
    let head = fields(arena, key);
    unlink(arena, head.parent, place, moment);
    free_key(arena, key);
    securities.release(arena, head.security);
}

/// Deletes a key with its values, and sets its parent's time. It takes no memory. `HasChildren` where the key has subkeys,
/// and `NoDelete` where it has none, and is the root or is marked; then the arena is as before.
pub fn delete(
    arena: &mut Arena,
    securities: &mut SecurityTable,
    key: u32,
    moment: u64,
) -> Result<(), TreeFault>
    requires { (t : IsHere arena.old.bytes key) × (t.table ≡ securities.old) }
    ensures ok { (t : IsHere arena.old.bytes key) → t.table ≡ securities.old →
        OnOk result (IsDeleted arena.old.bytes arena.new.bytes t.root securities.new t.path moment) }
    ensures lengths { (t : IsHere arena.old.bytes key) → OnOk result (LengthsStay (heap_of arena.old) (heap_of arena.new) t.root) }
    ensures children { (t : IsHere arena.old.bytes key) → ((result ≡ Err TreeFault.HasChildren) ↔ (children_of (tree_in arena.old.bytes t.root) t.path ≢ [])) }
    ensures kept { (t : IsHere arena.old.bytes key) →
        ((result ≡ Err TreeFault.NoDelete) ↔ ((children_of (tree_in arena.old.bytes t.root) t.path ≡ [])
        × IsKept (tree_in arena.old.bytes t.root) t.path)) }
    ensures others { IfErr result (λ fault. (fault ≡ TreeFault.HasChildren) ⊎ (fault ≡ TreeFault.NoDelete)) }
    ensures err { OnErr result (arena.new ≡ arena.old) }
    ensures table { OnErr result (securities.new ≡ securities.old) }
    ensures long { OnOk result (length arena.new.bytes ≡ length arena.old.bytes) }
{
    if has_children(arena, key) {
        return Err(TreeFault::HasChildren);
    }
    if is_kept(arena, key) {
        return Err(TreeFault::NoDelete);
    }
    let place = place_of(arena, key);
    delete_at(arena, securities, key, place, moment);
    Ok(())
}
