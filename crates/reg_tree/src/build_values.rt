//! All values of a key built at once, as they are told.
//!
//! Suhanov, Windows registry file format specification, "Key node", "Key values list".
ghost use Rattle.std.specs.Prelude.{◌≡◌, ◌<◌, ◌≤◌, ◌+◌, ℕ, List, [], Err, IsSome, length, OnOk, OnErr};
ghost use Rattle.std.specs.List.{AllByRecursion};
ghost use Rattle.reg_names.specs.declared.TheConstants.{VALUE_NAME_LIMIT};
ghost use Rattle.reg_heap.specs.declared.limits.TheConstants.{VALUES_LIMIT};
ghost use Rattle.reg_heap.specs.Paths.{Member};
ghost use Rattle.reg_heap.specs.Edits.{values_at};
ghost use Rattle.reg_heap.specs.Trees.{IsSmallValue};
ghost use Rattle.reg_arena.specs.Arena.{heap_of};
ghost use Rattle.reg_arena.specs.declared.TheConstants.{CARVE_LIMIT};
ghost use Rattle.reg_arena.specs.EachCell.{GrowsFor};
ghost use Rattle.reg_arena.specs.NewCells.{total_of};
ghost use Rattle.reg_records.specs.KeyNodes.{key_at};
ghost use Rattle.reg_values.specs.ValueLists.{KeepsSizes, Makes};
ghost use Rattle.reg_values.specs.NewValues.{all_told, all_value_sizes, each_value_sizes, MayFollow};
ghost use Rattle.reg_tree.specs.BuiltKeys.{with_values};
ghost use Rattle.reg_tree.specs.CellSizes.{LacksRoom};
ghost use Rattle.reg_tree.specs.KeyLengths.{largest, with_lengths_of};
ghost use Rattle.reg_tree.specs.MoreValues.{with_more_values, HasListRoom, MayExtend};
ghost use Rattle.reg_tree.specs.TreeKeys.{tree_in};
ghost use Rattle.reg_tree.specs.Internal.KeyNodeChanges.{Notes, SameSizes, noted};
ghost use Rattle.reg_tree.specs.Internal.LengthChanges.{LengthsChange};
ghost use Rattle.reg_tree.specs.Internal.TreeInvariant.{IsHere, IsChanged};

use crate::key::{note_values, values_list};
use reg_arena::{Arena, ArenaFault};
use reg_values::{NewValue, ValuesList};
use std::alloc::Global;

/// The length of the longest of the values' names, in characters.
fn longest_name(values: &[NewValue<'_>]) -> u32
    requires { AllByRecursion IsSmallValue (all_told values.now) }
    ensures is { result ≡ largest (λ (m : Member). length m.name) (all_told values.now) }
    ensures short { result ≤ VALUE_NAME_LIMIT }
{
    let mut longest = 0;
    for value in values {
        longest = longest.max(value.name.len() as u32);
    }
    longest
}

/// The size of the largest of the values' data, in bytes.
fn largest_data(values: &[NewValue<'_>]) -> u32
    requires { AllByRecursion IsSmallValue (all_told values.now) }
    ensures { result ≡ largest (λ (m : Member). length m.bytes) (all_told values.now) }
{
    let mut most = 0;
    for value in values {
        most = most.max(value.bytes.len() as u32);
    }
    most
}

/// Notes a key's list in its key node, with the time, and the largest lengths where these values have longer names or data.
fn note(arena: &mut Arena, key: u32, list: ValuesList, values: &[NewValue<'_>], moment: u64)
    requires exists { IsSome (key_at (heap_of arena.old) key) }
    requires small { AllByRecursion IsSmallValue (all_told values.now) }
    ensures notes { Notes (heap_of arena.old) (heap_of arena.new) key (noted list.count list.offset
        (largest (λ (m : Member). length m.name) (all_told values.now))
        (largest (λ (m : Member). length m.bytes) (all_told values.now)) moment) }
    ensures long { length arena.new.bytes ≡ length arena.old.bytes }
    ensures sizes { SameSizes (heap_of arena.old) (heap_of arena.new) }
{
    note_values(
        arena,
        key,
        list,
        longest_name(values),
        largest_data(values),
        moment,
    );
}

/// Puts values as all that a key has that had none: their list, with room for so many, and cells first, which may fail, then the
/// key's own node, which notes the list and the time. The faults are those of `reg_values::make`. After one the arena is as before.
pub fn build(
    alloc: Global,
    arena: &mut Arena,
    key: u32,
    values: &[NewValue<'_>],
    room: usize,
    moment: u64,
) -> Result<(), ArenaFault>
    requires bare { (t : IsHere arena.old.bytes key) × (values_at (tree_in arena.old.bytes t.root) t.path ≡ []) }
    requires room { length values.now ≤ room }
    requires few { room ≤ VALUES_LIMIT }
    requires new { MayFollow [] (all_told values.now) }
    requires fits { total_of (all_value_sizes room (all_told values.now)) ≤ CARVE_LIMIT }
    ensures ok { (t : IsHere arena.old.bytes key) →
        OnOk result (IsChanged arena.old.bytes arena.new.bytes t.root t.table t.path (with_values (all_told values.now) moment)) }
    ensures room { OnOk result (0 < length values.now → HasListRoom (heap_of arena.new) key room) }
    ensures cells { OnOk result (Makes (heap_of arena.old) (heap_of arena.new) (all_value_sizes room (all_told values.now))) }
    ensures stay { OnOk result (KeepsSizes (heap_of arena.old) (heap_of arena.new)) }
    ensures lengths { (t : IsHere arena.old.bytes key) →
        OnOk result (LengthsChange (heap_of arena.old) (heap_of arena.new) t.root t.path (with_lengths_of (all_told values.now))) }
    ensures space { result ≡ Err ArenaFault.Full → LacksRoom arena.old (all_value_sizes room (all_told values.now)) }
    ensures err { OnErr result (arena.new ≡ arena.old) }
    ensures grows { OnOk result (length arena.new.bytes ≤ length arena.old.bytes + 4127 + total_of (all_value_sizes room (all_told values.now))) }
    ensures growth { OnOk result (GrowsFor arena.old.bytes arena.new.bytes (all_value_sizes room (all_told values.now))) }
    ensures kept { OnOk result (length arena.old.bytes ≤ length arena.new.bytes) }
{
    let list = reg_values::make(alloc, arena, values, room)?;
    note(arena, key, list, values, moment);
    Ok(())
}

/// Puts values behind those that a key has, whose list has room for them: their cells first, which may fail, then the key's own
/// node, which notes their number and the time. The faults are those of `reg_values::extend`. After one the arena is as before.
pub fn extend(
    alloc: Global,
    arena: &mut Arena,
    key: u32,
    values: &[NewValue<'_>],
    moment: u64,
) -> Result<(), ArenaFault>
    requires more { (t : IsHere arena.old.bytes key)
        × MayExtend (heap_of arena.old) key (values_at (tree_in arena.old.bytes t.root) t.path) (all_told values.now) }
    requires fits { total_of (each_value_sizes (all_told values.now)) ≤ CARVE_LIMIT }
    ensures ok { (t : IsHere arena.old.bytes key) →
        OnOk result (IsChanged arena.old.bytes arena.new.bytes t.root t.table t.path (with_more_values (all_told values.now) moment)) }
    ensures room { (room : ℕ) → HasListRoom (heap_of arena.old) key room → OnOk result (HasListRoom (heap_of arena.new) key room) }
    ensures cells { OnOk result (Makes (heap_of arena.old) (heap_of arena.new) (each_value_sizes (all_told values.now))) }
    ensures stay { OnOk result (KeepsSizes (heap_of arena.old) (heap_of arena.new)) }
    ensures lengths { (t : IsHere arena.old.bytes key) →
        OnOk result (LengthsChange (heap_of arena.old) (heap_of arena.new) t.root t.path (with_lengths_of (all_told values.now))) }
    ensures space { result ≡ Err ArenaFault.Full → LacksRoom arena.old (each_value_sizes (all_told values.now)) }
    ensures err { OnErr result (arena.new ≡ arena.old) }
    ensures grows { OnOk result (length arena.new.bytes ≤ length arena.old.bytes + 4127 + total_of (each_value_sizes (all_told values.now))) }
    ensures growth { OnOk result (GrowsFor arena.old.bytes arena.new.bytes (each_value_sizes (all_told values.now))) }
    ensures kept { OnOk result (length arena.old.bytes ≤ length arena.new.bytes) }
{
    let old = values_list(arena, key);
    let list = reg_values::extend(alloc, arena, old, values)?;
    note(arena, key, list, values, moment);
    Ok(())
}
