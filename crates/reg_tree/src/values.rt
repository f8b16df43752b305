//! A key's values, in its cells.
ghost use Rattle.std.specs.Prelude.{true, false, ◌≡◌, ◌↔◌, ◌⊎◌, ◌≤◌, ◌<◌, ◌+◌, ◌++◌, ◌≢◌, ℕ, List, [], length, drop, Err, Some, None, OnOk, OnErr, IfOk, IfErr};
ghost use Rattle.std.specs.Prelude.{MatchOption, IfSome, max, slice_get};
ghost use Rattle.std.specs.List.{fold};
ghost use Rattle.reg_names.specs.declared.TheConstants.{VALUE_NAME_LIMIT};
ghost use Rattle.reg_names.specs.Names.{is_value_name};
ghost use Rattle.reg_heap.specs.declared.limits.TheConstants.{BINS_LIMIT, DATA_LIMIT, GROWTH_BOUND, VALUES_LIMIT};
ghost use Rattle.reg_heap.specs.Paths.{Member};
ghost use Rattle.reg_heap.specs.Members.{value_named, index_named};
ghost use Rattle.reg_heap.specs.Edits.{with_value, without_value, values_at};
ghost use Rattle.reg_arena.specs.Arena.{heap_of};
ghost use Rattle.reg_arena.specs.EachCell.{GrowsFor};
ghost use Rattle.reg_values.specs.ValueLists.{KeepsSizes, Makes, Tells};
ghost use Rattle.reg_tree.specs.CellSizes.{value_sizes, LacksRoom};
ghost use Rattle.reg_tree.specs.TreeKeys.{tree_in};
ghost use Rattle.reg_tree.specs.Internal.TreeInvariant.{IsHere, IsChanged};
ghost use Rattle.reg_tree.specs.KeyLengths.{with_value_lengths};
ghost use Rattle.reg_tree.specs.Internal.LengthChanges.{LengthsChange, LengthsStay};
ghost use Rattle.reg_tree.specs.ValueAnswers.{IsFound, fitted_by, without_value_at};

use crate::key::{note_values, values_list};
use crate::{TreeFault, ValueFound};
use reg_arena::{Arena, ArenaFault};
use reg_heap::limits::VALUES_LIMIT;
use reg_values::{LargestValues, Value};
use std::alloc::{AllocError, Global};

/// How many values a key has.
pub fn count(arena: &Arena, key: u32) -> u32
    requires { IsHere arena.now.bytes key }
    ensures { (t : IsHere arena.now.bytes key) → result ≡ length (values_at (tree_in arena.now.bytes t.root) t.path) }
{
    values_list(arena, key).count
}

/// The index of the value of that name, after folding, counted from 0, if the key has one.
pub fn index(arena: &Arena, key: u32, name: &[u8]) -> Option<u32>
    requires { IsHere arena.now.bytes key }
    ensures { (t : IsHere arena.now.bytes key) → result ≡ index_named name.now (values_at (tree_in arena.now.bytes t.root) t.path) }
{
    reg_values::find(arena, values_list(arena, key), name)
}

/// The value of that name, after folding, with its index, if the key has one. Its data is copied over the front of a room that has place
/// for it; the rest of the room stays as it was, and so does a room that has none. It takes no memory.
pub fn find_into(arena: &Arena, key: u32, name: &[u8], room: &mut [u8]) -> Option<ValueFound>
    requires { IsHere arena.now.bytes key }
    ensures found { (t : IsHere arena.now.bytes key) →
        IsFound (values_at (tree_in arena.now.bytes t.root) t.path)
        (value_named name.now (values_at (tree_in arena.now.bytes t.root) t.path)) result }
    ensures room { (t : IsHere arena.now.bytes key) →
        room.new ≡ fitted_by (value_named name.now (values_at (tree_in arena.now.bytes t.root) t.path)) room.old }
{
    let list = values_list(arena, key);
    let Some(index) = reg_values::find(arena, list, name) else {
        return None;
    };
    let value = reg_values::at_into(arena, list, index, room);
    Some(ValueFound {
        index,
        kind: value.kind,
        size: value.size,
    })
}

/// A copy of the data of a key's value at an index, counted from 0. Its one fault is that memory was refused, and never of a
/// value without data.
pub fn bytes(alloc: Global, arena: &Arena, key: u32, index: u32) -> Result<Vec<u8>, AllocError>
    requires { (t : IsHere arena.now.bytes key) × (index < length (values_at (tree_in arena.now.bytes t.root) t.path)) }
    ensures told { (t : IsHere arena.now.bytes key) →
        IfOk result (λ bytes. (member : Member)
        × (slice_get (values_at (tree_in arena.now.bytes t.root) t.path) index ≡ Some member)
        × (bytes.items ≡ member.bytes)) }
    ensures empty { (t : IsHere arena.now.bytes key) →
        OnErr result ((member : Member) → slice_get (values_at (tree_in arena.now.bytes t.root) t.path) index ≡ Some member →
        member.bytes ≢ []) }
{
    reg_values::bytes_of(alloc, arena, values_list(arena, key), index)
}

/// Copies the data of a key's value at an index, counted from 0, over the front of a room that has place for it. The rest of the room
/// stays as it was. It takes no memory.
pub fn fill(arena: &Arena, key: u32, index: u32, room: &mut [u8])
    requires value { (t : IsHere arena.now.bytes key) × (index < length (values_at (tree_in arena.now.bytes t.root) t.path)) }
    requires room { (t : IsHere arena.now.bytes key) ×
        ((member : Member) → slice_get (values_at (tree_in arena.now.bytes t.root) t.path) index ≡ Some member →
        length member.bytes ≤ length room.old) }
    ensures { (t : IsHere arena.now.bytes key) → (member : Member)
        × (slice_get (values_at (tree_in arena.now.bytes t.root) t.path) index ≡ Some member)
        × (room.new ≡ member.bytes ++ drop (length member.bytes) room.old) }
{
    reg_values::fill_bytes(arena, values_list(arena, key), index, room);
}

/// A key's value at an index, counted from 0, without its data; `None` where there are not so many.
pub fn at(arena: &Arena, key: u32, index: u32) -> Option<Value<'_>>
    requires { IsHere arena.now.bytes key }
    ensures told { (t : IsHere arena.now.bytes key) →
        MatchOption result (length (values_at (tree_in arena.now.bytes t.root) t.path) ≤ index) (λ value. (member : Member)
        × (slice_get (values_at (tree_in arena.now.bytes t.root) t.path) index ≡ Some member)
        × Tells member value.name.now value.kind value.size) }
    ensures short { IfSome result (λ value. length value.name.now ≤ VALUE_NAME_LIMIT) }
{
    let list = values_list(arena, key);
    if index >= list.count {
        return None;
    }
    Some(reg_values::at(arena, list, index))
}

/// What is largest among a key's values: the longest name, and the largest data.
pub fn largest(arena: &Arena, key: u32) -> LargestValues
    requires { IsHere arena.now.bytes key }
    ensures name { (t : IsHere arena.now.bytes key) →
        result.name ≡ fold (λ a (m : Member). max a (length m.name)) 0 (values_at (tree_in arena.now.bytes t.root) t.path) }
    ensures size { (t : IsHere arena.now.bytes key) →
        result.size ≡ fold (λ a (m : Member). max a (length m.bytes)) 0 (values_at (tree_in arena.now.bytes t.root) t.path) }
{
    reg_values::largest(arena, values_list(arena, key))
}

/// Whether there are as many values as there may be, and a new one has no place.
pub fn is_full(arena: &Arena, key: u32, place: Option<u32>) -> bool
    requires { IsHere arena.now.bytes key }
    ensures full { (t : IsHere arena.now.bytes key) → result ≡ true →
        (VALUES_LIMIT ≤ length (values_at (tree_in arena.now.bytes t.root) t.path)) × (place ≡ None) }
    ensures room { (t : IsHere arena.now.bytes key) → result ≡ false → place ≡ None →
        length (values_at (tree_in arena.now.bytes t.root) t.path) < VALUES_LIMIT }
{
    place.is_none() && count(arena, key) >= VALUES_LIMIT
}

/// Sets a value of a key at the place that `index` told for its name, or at the end: the cells of its list and data first, which
/// may fail, then the key's own node, which notes the list and the time. The faults are those of `reg_values::set_at`. After one
/// the arena is as before.
pub fn set_at(
    alloc: Global,
    arena: &mut Arena,
    key: u32,
    place: Option<u32>,
    name: &[u8],
    kind: u32,
    bytes: &[u8],
    moment: u64,
) -> Result<(), ArenaFault>
    requires place { (t : IsHere arena.old.bytes key) × (place ≡ index_named name.now (values_at (tree_in arena.old.bytes t.root) t.path)) }
    requires room { (t : IsHere arena.old.bytes key) × (place ≡ None → length (values_at (tree_in arena.old.bytes t.root) t.path) < VALUES_LIMIT) }
    requires name { is_value_name name.now ≡ true }
    requires bytes { length bytes.now ≤ DATA_LIMIT }
    ensures ok { (t : IsHere arena.old.bytes key) →
        OnOk result (IsChanged arena.old.bytes arena.new.bytes t.root t.table t.path (with_value name.now kind bytes.now moment)) }
    ensures cells { OnOk result (Makes (heap_of arena.old) (heap_of arena.new) (value_sizes (heap_of arena.old) key name.now (length bytes.now))) }
    ensures stay { OnOk result (KeepsSizes (heap_of arena.old) (heap_of arena.new)) }
    ensures lengths { (t : IsHere arena.old.bytes key) →
        OnOk result (LengthsChange (heap_of arena.old) (heap_of arena.new) t.root t.path (with_value_lengths (length name.now) (length bytes.now))) }
    ensures full { (result ≡ Err ArenaFault.Full) → BINS_LIMIT < length arena.old.bytes + GROWTH_BOUND }
    ensures space { IfErr result (λ fault. fault ≡ ArenaFault.Full →
        LacksRoom arena.old (value_sizes (heap_of arena.old) key name.now (length bytes.now))) }
    ensures err { OnErr result (arena.new ≡ arena.old) }
    ensures grows { OnOk result (length arena.new.bytes ≤ length arena.old.bytes + GROWTH_BOUND) }
    ensures growth { OnOk result (GrowsFor arena.old.bytes arena.new.bytes (value_sizes (heap_of arena.old) key name.now (length bytes.now))) }
    ensures kept { OnOk result (length arena.old.bytes ≤ length arena.new.bytes) }
{
    let old = values_list(arena, key);
    let list = reg_values::set_at(alloc, arena, old, place, name, kind, bytes)?;
    note_values(
        arena,
        key,
        list,
        name.len() as u32,
        bytes.len() as u32,
        moment,
    );
    Ok(())
}

/// Removes the value of a key at an index, counted from 0, and notes the list that is left and the time in the key's own node.
pub fn remove_at(arena: &mut Arena, key: u32, index: u32, moment: u64)
    requires { (t : IsHere arena.old.bytes key) × (index < length (values_at (tree_in arena.old.bytes t.root) t.path)) }
    ensures changed { (t : IsHere arena.old.bytes key) → IsChanged arena.old.bytes arena.new.bytes t.root t.table t.path (without_value_at index moment) }
    ensures lengths { (t : IsHere arena.old.bytes key) → LengthsStay (heap_of arena.old) (heap_of arena.new) t.root }
    ensures long { length arena.new.bytes ≡ length arena.old.bytes }
{
    let old = values_list(arena, key);
    let list = reg_values::remove_at(arena, old, index);
    note_values(arena, key, list, 0, 0, moment);
}

/// Removes a value of a key: a search for its name, and then `remove_at`. `NotFound` just where there is none of that name, its
/// one fault; then the arena is as before.
pub fn delete(arena: &mut Arena, key: u32, name: &[u8], moment: u64) -> Result<(), TreeFault>
    requires { IsHere arena.old.bytes key }
    ensures ok { (t : IsHere arena.old.bytes key) → OnOk result (IsChanged arena.old.bytes arena.new.bytes t.root t.table t.path (without_value name.now moment)) }
    ensures lengths { (t : IsHere arena.old.bytes key) → OnOk result (LengthsStay (heap_of arena.old) (heap_of arena.new) t.root) }
    ensures absent { (t : IsHere arena.old.bytes key) →
        ((result ≡ Err TreeFault.NotFound) ↔ (value_named name.now (values_at (tree_in arena.old.bytes t.root) t.path) ≡ None)) }
    ensures others { IfErr result (λ fault. fault ≡ TreeFault.NotFound) }
    ensures err { OnErr result (arena.new ≡ arena.old) }
    ensures long { OnOk result (length arena.new.bytes ≡ length arena.old.bytes) }
{
    let Some(place) = index(arena, key, name) else {
        return Err(TreeFault::NotFound);
    };
    remove_at(arena, key, place, moment);
    Ok(())
}
