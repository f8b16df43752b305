//! A value more.

ghost use Rattle.std.specs.Prelude.{◌≡◌, ◌≢◌, true, ◌≤◌, ◌<◌, ◌+◌, ◌*◌, ◌==◌, ◌++◌, ◌∷◌, [], if◌then◌else◌, ℕ, List, Some, None, Err, length, IfOk, OnOk, OnErr};
ghost use Rattle.reg_names.specs.declared.TheConstants.{VALUE_NAME_LIMIT};
ghost use Rattle.reg_names.specs.Names.{is_value_name};
ghost use Rattle.reg_heap.specs.declared.limits.TheConstants.{DATA_LIMIT, GROWTH_BOUND, VALUES_LIMIT};
ghost use Rattle.reg_heap.specs.Paths.{Member};
ghost use Rattle.reg_heap.specs.Heaps.{AreNew};
ghost use Rattle.reg_heap.specs.Kinds.{Found, times, owned};
ghost use Rattle.reg_heap.specs.Members.{index_named};
ghost use Rattle.reg_arena.specs.Arena.{heap_of};
ghost use Rattle.reg_arena.specs.NewCells.{total_of, AreSizes};
ghost use Rattle.reg_arena.specs.Carves.{NoFit};
ghost use Rattle.reg_arena.specs.EachCell.{GrowsFor};
ghost use Rattle.reg_arena.specs.NewBin.{PassesLimit};
ghost use Rattle.reg_records.specs.RecordCells.{HasRoom};
ghost use Rattle.reg_shape.specs.Nodes.{members_at};
ghost use Rattle.reg_values.specs.ValueLists.{AreValues, Became, KeepsSizes, Makes, OfRead, UnusedAreZero};
ghost use Rattle.reg_values.specs.Internal.ValueListParts.{list_at, Owns, OwnsBeside, BecameList, Fills, HaveRoom, HoldsValue};
ghost use Rattle.reg_arena.specs.NewCells.{cell_size};
ghost use Rattle.reg_values.specs.ValueSizes.{data_sizes, sizes_by};

use crate::ValuesList;
use crate::data::put_data;
use crate::plan::{has_room, plan_add};
use reg_arena::{Arena, ArenaFault};
use reg_records::{ValueFields, put_offset, put_vk};
use std::alloc::Global;

/// New cells of these sizes, those of one change.
pub(crate) fn carve(alloc: Global, arena: &mut Arena, sizes: &[u32]) -> Result<Vec<u32>, ArenaFault>
    requires sizes { AreSizes sizes.now }
    requires total { total_of sizes.now ≤ 1306592 }
    ensures ok { IfOk result (λ cells. AreNew (heap_of arena.old) (heap_of arena.new) cells.items sizes.now) }
    ensures err { OnErr result (arena.new ≡ arena.old) }
    ensures some { result ≡ Err ArenaFault.Full → 0 < length sizes.now }
    ensures full { result ≡ Err ArenaFault.Full → NoFit arena.old.bytes (total_of sizes.now) }
    ensures limit { result ≡ Err ArenaFault.Full → PassesLimit arena.old.bytes (total_of sizes.now) }
    ensures grows { OnOk result (length arena.new.bytes ≤ length arena.old.bytes + GROWTH_BOUND) }
    ensures growth { OnOk result (GrowsFor arena.old.bytes arena.new.bytes sizes.now) }
    ensures kept { OnOk result (length arena.old.bytes ≤ length arena.new.bytes) }
{
    let mut cells = Vec::new(alloc);
    arena.carve_change(sizes, &mut cells)?;
    Ok(cells)
}

/// The flags of a value's record: 1 where it has a name.
fn flags_of(name: &[u8]) -> u16
    ensures { result ≡ (if length name.now == 0 then 0 else 1) }
{
    if name.is_empty() { 0 } else { 1 }
}

/// Writes a value's data and its record into new cells.
pub(crate) fn put_value(
    arena: &mut Arena,
    cell: u32,
    cells: &[u32],
    name: &[u8],
    kind: u32,
    bytes: &[u8],
)
    requires name { length name.now ≤ VALUE_NAME_LIMIT }
    requires small { length bytes.now ≤ DATA_LIMIT }
    requires cells { HaveRoom (heap_of arena.old) (cell ∷ cells.now) (cell_size (20 + length name.now) ∷ data_sizes (length bytes.now)) }
    ensures fills { Fills (heap_of arena.old) (heap_of arena.new) (cell ∷ cells.now) }
    ensures holds { HoldsValue (heap_of arena.new) cell (record { name = name.now; kind = kind; bytes = bytes.now }) (cell ∷ cells.now) }
    ensures long { length arena.new.bytes ≡ length arena.old.bytes }
{
    let data = put_data(arena, cells, bytes);
    let fields = ValueFields {
        size: data.size,
        offset: data.offset,
        kind,
        flags: flags_of(name),
    };
    put_vk(arena, cell, &fields, name);
}

/// Puts an offset behind those of a list, whose cell has room for it.
fn grow(arena: &mut Arena, list: ValuesList, cell: u32)
    requires few { list.count < VALUES_LIMIT }
    requires owns { Owns (list_at list.count list.offset) (heap_of arena.old) }
    requires room { HasRoom (heap_of arena.old) list.offset (4 * list.count + 4) }
    requires some { 0 < list.count }
    ensures list { OfRead (list_at list.count list.offset) (heap_of arena.old)
        (λ row met. BecameList (heap_of arena.old) (heap_of arena.new) (λ offset. owned offset met)
        (list.count + 1) list.offset (row ++ cell ∷ [])) }
    ensures sizes { KeepsSizes (heap_of arena.old) (heap_of arena.new) }
    ensures long { length arena.new.bytes ≡ length arena.old.bytes }
{
    put_offset(arena, list.offset, list.count, cell);
}

/// Puts an offset behind those of a list in a new cell, and frees the list's own.
fn move_list(arena: &mut Arena, list: ValuesList, fresh: u32, cell: u32)
    requires few { list.count < VALUES_LIMIT }
    requires owns { OwnsBeside (list_at list.count list.offset) (heap_of arena.old) (fresh ∷ []) }
    requires room { HasRoom (heap_of arena.old) fresh (4 * list.count + 4) }
    requires zeros { UnusedAreZero (heap_of arena.old) 0 fresh }
    ensures list { OfRead (list_at list.count list.offset) (heap_of arena.old)
        (λ row met. BecameList (heap_of arena.old) (heap_of arena.new)
        (λ offset. owned offset met + times offset (fresh ∷ [])) (list.count + 1) fresh (row ++ cell ∷ [])) }
    ensures unused { UnusedAreZero (heap_of arena.new) (list.count + 1) fresh }
    ensures sizes { KeepsSizes (heap_of arena.old) (heap_of arena.new) }
    ensures long { length arena.new.bytes ≡ length arena.old.bytes }
{
    if list.count == 0 {
        put_offset(arena, fresh, 0, cell);
        return;
    }
    arena.copy(list.offset, 0, fresh, 0, 4 * list.count);
    put_offset(arena, fresh, list.count, cell);
    arena.free(list.offset);
}

/// Adds a value of a new name at the end.
pub(crate) fn add(
    alloc: Global,
    arena: &mut Arena,
    list: ValuesList,
    name: &[u8],
    kind: u32,
    bytes: &[u8],
) -> Result<ValuesList, ArenaFault>
    requires values { AreValues (heap_of arena.old) list.count list.offset }
    requires name { is_value_name name.now ≡ true }
    requires bytes { length bytes.now ≤ DATA_LIMIT }
    requires few { list.count < VALUES_LIMIT }
    requires new { OfRead (members_at list.count list.offset) (heap_of arena.old) (λ members met. None ≡ index_named name.now members) }
    ensures ok { IfOk result (λ after. OfRead (members_at list.count list.offset) (heap_of arena.old)
        (λ members met. Became (heap_of arena.old) (heap_of arena.new) met after.count after.offset
        (members ++ record { name = name.now; kind = kind; bytes = bytes.now } ∷ []))) }
    ensures unused { IfOk result (λ after. after.offset ≢ list.offset → UnusedAreZero (heap_of arena.new) after.count after.offset) }
    ensures cells { OnOk result (Makes (heap_of arena.old) (heap_of arena.new)
        (sizes_by (heap_of arena.old) list.count list.offset (length name.now) (length bytes.now) None)) }
    ensures stay { OnOk result (KeepsSizes (heap_of arena.old) (heap_of arena.new)) }
    ensures err { OnErr result (arena.new ≡ arena.old) }
    ensures some { result ≡ Err ArenaFault.Full →
        0 < length (sizes_by (heap_of arena.old) list.count list.offset (length name.now) (length bytes.now) None) }
    ensures full { result ≡ Err ArenaFault.Full →
        NoFit arena.old.bytes (total_of (sizes_by (heap_of arena.old) list.count list.offset (length name.now)
        (length bytes.now) None)) }
    ensures limit { result ≡ Err ArenaFault.Full →
        PassesLimit arena.old.bytes
        (total_of (sizes_by (heap_of arena.old) list.count list.offset (length name.now) (length bytes.now) None)) }
    ensures grows { OnOk result (length arena.new.bytes ≤ length arena.old.bytes + GROWTH_BOUND) }
    ensures growth { OnOk result (GrowsFor arena.old.bytes arena.new.bytes
        (sizes_by (heap_of arena.old) list.count list.offset (length name.now) (length bytes.now) None)) }
    ensures kept { OnOk result (length arena.old.bytes ≤ length arena.new.bytes) }
{
    let Ok(sizes) = plan_add(alloc, arena, list, name.len(), bytes.len()) else {
        return Err(ArenaFault::Memory);
    };
    let room = has_room(arena, list);
    let cells = carve(alloc, arena, &sizes)?;
    let all = cells.as_slice();
    let cell = all[0];
    if room {
        put_value(arena, cell, &all[1..], name, kind, bytes);
        grow(arena, list, cell);
        return Ok(ValuesList {
            count: list.count + 1,
            offset: list.offset,
        });
    }
    let fresh = all[1];
    put_value(arena, cell, &all[2..], name, kind, bytes);
    move_list(arena, list, fresh, cell);
    Ok(ValuesList {
        count: list.count + 1,
        offset: fresh,
    })
}
