//! A key's list of subkeys, given room for entries to come.
//!
//! Its last list is moved into a cell that was carved for it, of the size that it is to have; the others stay. Then the key's own node
//! notes where its subkeys are listed, and nothing else of it changes.
//!
//! Suhanov, Windows registry file format specification, "Cell", "Key node", "Subkeys list".

ghost use Rattle.std.specs.Prelude.{◌≡◌, ◌≤◌, ◌<◌, ◌%◌, ℕ, [], ◌∷◌, Err, IsSome, length, IfOk, OnOk, OnErr};
ghost use Rattle.reg_heap.specs.Heaps.{AreNew};
ghost use Rattle.reg_heap.specs.declared.limits.TheConstants.{LEAF_LIMIT};
ghost use Rattle.reg_arena.specs.Arena.{heap_of};
ghost use Rattle.reg_arena.specs.EachCell.{GrowsFor};
ghost use Rattle.reg_records.specs.KeyNodes.{key_at};
ghost use Rattle.reg_values.specs.ValueLists.{KeepsSizes, Makes};
ghost use Rattle.reg_index.specs.Subkeys.{list_size};
ghost use Rattle.reg_tree.specs.CellSizes.{LacksRoom, planned_sizes};
ghost use Rattle.reg_tree.specs.LongerLists.{HasSubkeyRoom, longer_sizes};
ghost use Rattle.reg_tree.specs.Internal.KeyNodeChanges.{Notes, SameSizes};
ghost use Rattle.reg_tree.specs.Internal.LengthChanges.{LengthsStay};
ghost use Rattle.reg_tree.specs.Internal.ListLengthening.{IsLengthenable, IsLengthened, as_it_was, listed_at};
ghost use Rattle.reg_tree.specs.Internal.TreeInvariant.{IsHere, IsChanged};

use crate::key::subkeys_list;
use reg_arena::{Arena, ArenaFault};
use reg_index::plan_longer;
use reg_records::set_subkeys_list;
use std::alloc::Global;

/// The size of the cell that the last list of a key's subkeys takes, to have room for so many more: none where it has room, and where
/// there are no subkeys.
fn plan(arena: &Arena, key: u32, more: u32) -> Option<u32>
    requires { IsHere arena.now.bytes key }
    ensures { planned_sizes result ≡ longer_sizes (heap_of arena.now) key more }
{
    let list = subkeys_list(arena, key);
    if list.count == 0 {
        return None;
    }
    plan_longer(arena, list, more)
}

/// Carves a cell for a list. After a fault the arena is as before.
fn carve_for(alloc: Global, arena: &mut Arena, size: u32) -> Result<u32, ArenaFault>
    requires eights { size % 8 ≡ 0 }
    requires some { 0 < size }
    requires small { size ≤ list_size LEAF_LIMIT }
    ensures ok { IfOk result (λ cell. AreNew (heap_of arena.old) (heap_of arena.new) (cell ∷ []) (size ∷ [])) }
    ensures growth { OnOk result (GrowsFor arena.old.bytes arena.new.bytes (size ∷ [])) }
    ensures space { result ≡ Err ArenaFault.Full → LacksRoom arena.old (size ∷ []) }
    ensures err { OnErr result (arena.new ≡ arena.old) }
    ensures kept { OnOk result (length arena.old.bytes ≤ length arena.new.bytes) }
{
    let mut cells = Vec::new(alloc);
    match arena.carve_change(&[size], &mut cells) {
        Ok(()) => Ok(cells[0]),
        Err(fault) => Err(fault),
    }
}

/// Notes in a key's key node where its subkeys are listed.
fn note_list(arena: &mut Arena, key: u32, list: u32)
    requires { IsSome (key_at (heap_of arena.old) key) }
    ensures notes { Notes (heap_of arena.old) (heap_of arena.new) key (listed_at list) }
    ensures long { length arena.new.bytes ≡ length arena.old.bytes }
    ensures sizes { SameSizes (heap_of arena.old) (heap_of arena.new) }
{
    set_subkeys_list(arena, key, list);
}

/// Moves the last list of a key's subkeys into a cell, and notes that in the key's key node. It takes no memory.
fn move_last(arena: &mut Arena, key: u32, cell: u32)
    requires { IsLengthenable (heap_of arena.old) key cell }
    ensures lengthened { (l : IsLengthenable (heap_of arena.old) key cell) →
        IsLengthened (heap_of arena.old) (heap_of arena.new) key cell l.record_is l.entries }
    ensures long { length arena.new.bytes ≡ length arena.old.bytes }
{
    let list = subkeys_list(arena, key);
    let longer = reg_index::lengthen(arena, list, cell);
    note_list(arena, key, longer.offset);
}

/// Sees to it that the last list of a key's subkeys has room for so many more, or for 500 in all: where it hasn't, it is moved into a
/// cell that has. `Full`, `Memory`: then the arena is as before.
pub fn lengthen(alloc: Global, arena: &mut Arena, key: u32, more: u32) -> Result<(), ArenaFault>
    requires { IsHere arena.old.bytes key }
    ensures ok { (t : IsHere arena.old.bytes key) →
        OnOk result (IsChanged arena.old.bytes arena.new.bytes t.root t.table t.path as_it_was) }
    ensures room { OnOk result (HasSubkeyRoom (heap_of arena.new) key more) }
    ensures cells { OnOk result (Makes (heap_of arena.old) (heap_of arena.new) (longer_sizes (heap_of arena.old) key more)) }
    ensures stay { OnOk result (KeepsSizes (heap_of arena.old) (heap_of arena.new)) }
    ensures lengths { (t : IsHere arena.old.bytes key) → OnOk result (LengthsStay (heap_of arena.old) (heap_of arena.new) t.root) }
    ensures growth { OnOk result (GrowsFor arena.old.bytes arena.new.bytes (longer_sizes (heap_of arena.old) key more)) }
    ensures space { result ≡ Err ArenaFault.Full → LacksRoom arena.old (longer_sizes (heap_of arena.old) key more) }
    ensures err { OnErr result (arena.new ≡ arena.old) }
    ensures kept { OnOk result (length arena.old.bytes ≤ length arena.new.bytes) }
{
    let Some(size) = plan(arena, key, more) else {
        return Ok(());
    };
    let cell = match carve_for(alloc, arena, size) {
        Ok(cell) => cell,
        Err(fault) => return Err(fault),
    };
    move_last(arena, key, cell);
    Ok(())
}
