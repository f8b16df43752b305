//! A value removed.
//!
//! Win32 registry reference, `RegDeleteValue`; Suhanov, Windows registry file format specification, section "Key values list".

ghost use Rattle.std.specs.Prelude.{◌≡◌, ◌<◌, ◌≤◌, ◌+◌, ◌++◌, ℕ, List, Some, length, take, drop};
ghost use Rattle.reg_heap.specs.declared.limits.TheConstants.{VALUES_LIMIT};
ghost use Rattle.reg_heap.specs.Paths.{Member};
ghost use Rattle.reg_heap.specs.Heaps.{CellFrame};
ghost use Rattle.reg_heap.specs.Kinds.{Found, owned};
ghost use Rattle.reg_heap.specs.Members.{values_without};
ghost use Rattle.reg_arena.specs.Arena.{heap_of};
ghost use Rattle.reg_shape.specs.Nodes.{member_at, members_at};
ghost use Rattle.reg_values.specs.ValueLists.{AreValues, IsNamed, Became, OfRead};
ghost use Rattle.reg_values.specs.Internal.ValueListParts.{list_at, Owns, GivesUpRead, BecameList};

use crate::ValuesList;
use crate::data::free_data;
use crate::finding::{cell_of, find, record_at};
use reg_arena::Arena;
use reg_heap::limits::NONE;

/// Frees a value's record and its data.
fn free_value(arena: &mut Arena, cell: u32)
    requires { Owns (member_at cell) (heap_of arena.old) }
    ensures gone { GivesUpRead (member_at cell) (heap_of arena.old) (heap_of arena.new) }
    ensures long { length arena.new.bytes ≡ length arena.old.bytes }
{
    let fields = record_at(arena, cell).fields;
    free_data(arena, fields);
    arena.free(cell);
}

/// Takes the offset at an index out of the list; the later ones close up. A list of one is freed.
fn take_out(arena: &mut Arena, list: ValuesList, index: u32) -> ValuesList
    requires few { list.count ≤ VALUES_LIMIT }
    requires index { index < list.count }
    requires list { Owns (list_at list.count list.offset) (heap_of arena.old) }
    ensures list { OfRead (list_at list.count list.offset) (heap_of arena.old)
        (λ row met. BecameList (heap_of arena.old) (heap_of arena.new)
        (λ offset. owned offset met) result.count result.offset (take index row ++ drop (index + 1) row)) }
    ensures count { result.count + 1 ≡ list.count }
    ensures none { result.count ≡ 0 → result.offset ≡ NONE }
    ensures long { length arena.new.bytes ≡ length arena.old.bytes }
{
    if list.count == 1 {
        arena.free(list.offset);
        return ValuesList {
            count: 0,
            offset: NONE,
        };
    }
    let at = 4 * index;
    arena.shift(list.offset, at + 4, at, 4 * (list.count - 1 - index));
    ValuesList {
        count: list.count - 1,
        offset: list.offset,
    }
}

/// Removes the value at an index, counted from 0, and frees its cells; the values behind it close up. Answers the list as it
/// is then. A list without values is freed too. It takes no memory.
pub fn remove_at(arena: &mut Arena, list: ValuesList, index: u32) -> ValuesList
    requires values { AreValues (heap_of arena.old) list.count list.offset }
    requires index { index < list.count }
    ensures list { OfRead (members_at list.count list.offset) (heap_of arena.old)
        (λ members met. Became (heap_of arena.old) (heap_of arena.new) met result.count result.offset
        (take index members ++ drop (index + 1) members)) }
    ensures long { length arena.new.bytes ≡ length arena.old.bytes }
{
    let cell = cell_of(arena, list, index);
    let after = take_out(arena, list, index);
    free_value(arena, cell);
    after
}

/// Removes the value of that name, after folding, as [`remove_at`] does with the one at an index: it is a search for the name
/// and then that. Answers the list as it is then.
pub fn remove(arena: &mut Arena, list: ValuesList, name: &[u8]) -> ValuesList
    requires values { AreValues (heap_of arena.old) list.count list.offset }
    requires named { IsNamed (heap_of arena.old) list.count list.offset name.now }
    ensures list { OfRead (members_at list.count list.offset) (heap_of arena.old)
        (λ members met. Became (heap_of arena.old) (heap_of arena.new) met result.count result.offset
        (values_without name.now members)) }
    ensures long { length arena.new.bytes ≡ length arena.old.bytes }
{
    let Some(index) = find(arena, list, name) else {
        unreachable!()
    };
    remove_at(arena, list, index)
}

/// Frees a list of values with all that it names: each value's cells, and then the list's own. It takes no memory.
pub fn clear(arena: &mut Arena, list: ValuesList)
    requires { AreValues (heap_of arena.old) list.count list.offset }
    ensures gone { OfRead (members_at list.count list.offset) (heap_of arena.old)
        (λ members met. CellFrame (heap_of arena.old) (heap_of arena.new) (λ offset. owned offset met) (λ offset. 0)) }
    ensures long { length arena.new.bytes ≡ length arena.old.bytes }
{
    for index in 0..list.count {
        let cell = cell_of(arena, list, index);
        free_value(arena, cell);
    }
    if list.count == 0 {
        return;
    }
    arena.free(list.offset);
}
