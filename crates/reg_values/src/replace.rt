//! Other data for a value.

ghost use Rattle.std.specs.Prelude.{◌≡◌, true, ◌≤◌, ◌<◌, ◌+◌, ℕ, List, Some, Err, [], length, OnOk, OnErr};
ghost use Rattle.reg_heap.specs.declared.limits.TheConstants.{DATA_LIMIT, GROWTH_BOUND};
ghost use Rattle.reg_heap.specs.Paths.{Member};
ghost use Rattle.reg_heap.specs.Kinds.{Found, times, owned};
ghost use Rattle.reg_arena.specs.Arena.{heap_of};
ghost use Rattle.reg_arena.specs.NewCells.{total_of};
ghost use Rattle.reg_arena.specs.Carves.{NoFit};
ghost use Rattle.reg_arena.specs.EachCell.{GrowsFor};
ghost use Rattle.reg_arena.specs.NewBin.{PassesLimit};
ghost use Rattle.reg_records.specs.KeyValues.{value_record_at};
ghost use Rattle.reg_shape.specs.Nodes.{member_at};
ghost use Rattle.reg_shape.specs.Written.{IsWrittenValue};
ghost use Rattle.reg_values.specs.ValueLists.{KeepsSizes, Makes, OfRead};
ghost use Rattle.reg_values.specs.Internal.ValueListParts.{Owns, OwnsBeside, HaveRoom, BecameValue, Keeps};
ghost use Rattle.reg_values.specs.ValueSizes.{data_sizes, stays as stays_of, new_data_sizes};

use crate::add::carve;
use crate::data::{free_data, put_data};
use crate::finding::record_at;
use crate::plan::{plan_replace, stays};
use reg_arena::{Arena, ArenaFault};
use reg_records::{ValueFields, set_data};
use std::alloc::Global;

/// Writes other data into the one cell that a value's data has.
fn rewrite(arena: &mut Arena, cell: u32, old: ValueFields, kind: u32, bytes: &[u8])
    requires owns { Owns (member_at cell) (heap_of arena.old) }
    requires written { IsWrittenValue (heap_of arena.old) cell }
    requires record_is { (name : List ℕ) × (value_record_at (heap_of arena.old) cell ≡ Some (record { fields = old; name = name })) }
    requires stays { stays_of (heap_of arena.old) old (length bytes.now) ≡ true }
    requires bytes { length bytes.now ≤ DATA_LIMIT }
    ensures value { OfRead (member_at cell) (heap_of arena.old)
        (λ m met. BecameValue (heap_of arena.old) (heap_of arena.new) (λ offset. owned offset met) cell
        (record { name = m.name; kind = kind; bytes = bytes.now })) }
    ensures cells { Makes (heap_of arena.old) (heap_of arena.new) [] }
    ensures stay { KeepsSizes (heap_of arena.old) (heap_of arena.new) }
    ensures long { length arena.new.bytes ≡ length arena.old.bytes }
{
    arena.write(old.offset, 0, bytes);
    set_data(arena, cell, bytes.len() as u32, old.offset, kind);
}

/// Writes other data into new cells, and frees those that a value's data has.
fn exchange(arena: &mut Arena, cell: u32, cells: &[u32], old: ValueFields, kind: u32, bytes: &[u8])
    requires owns { OwnsBeside (member_at cell) (heap_of arena.old) cells.now }
    requires written { IsWrittenValue (heap_of arena.old) cell }
    requires record_is { (name : List ℕ) × (value_record_at (heap_of arena.old) cell ≡ Some (record { fields = old; name = name })) }
    requires bytes { length bytes.now ≤ DATA_LIMIT }
    requires cells { HaveRoom (heap_of arena.old) cells.now (data_sizes (length bytes.now)) }
    ensures value { OfRead (member_at cell) (heap_of arena.old)
        (λ m met. BecameValue (heap_of arena.old) (heap_of arena.new)
        (λ offset. owned offset met + times offset cells.now) cell
        (record { name = m.name; kind = kind; bytes = bytes.now })) }
    ensures keeps { Keeps (heap_of arena.old) (heap_of arena.new) cells.now }
    ensures stay { KeepsSizes (heap_of arena.old) (heap_of arena.new) }
    ensures long { length arena.new.bytes ≡ length arena.old.bytes }
{
    let data = put_data(arena, cells, bytes);
    set_data(arena, cell, data.size, data.offset, kind);
    free_data(arena, old);
}

/// Gives the value whose record is in a cell another type and other data, and frees what it had.
pub(crate) fn replace(
    alloc: Global,
    arena: &mut Arena,
    cell: u32,
    kind: u32,
    bytes: &[u8],
) -> Result<(), ArenaFault>
    requires owns { Owns (member_at cell) (heap_of arena.old) }
    requires written { IsWrittenValue (heap_of arena.old) cell }
    requires bytes { length bytes.now ≤ DATA_LIMIT }
    ensures value { OnOk result
        (OfRead (member_at cell) (heap_of arena.old)
        (λ m met. BecameValue (heap_of arena.old) (heap_of arena.new) (λ offset. owned offset met) cell
        (record { name = m.name; kind = kind; bytes = bytes.now }))) }
    ensures cells { OnOk result (Makes (heap_of arena.old) (heap_of arena.new)
        (new_data_sizes (heap_of arena.old) (length bytes.now) (value_record_at (heap_of arena.old) cell))) }
    ensures stay { OnOk result (KeepsSizes (heap_of arena.old) (heap_of arena.new)) }
    ensures err { OnErr result (arena.new ≡ arena.old) }
    ensures some { result ≡ Err ArenaFault.Full →
        0 < length (new_data_sizes (heap_of arena.old) (length bytes.now) (value_record_at (heap_of arena.old) cell)) }
    ensures full { result ≡ Err ArenaFault.Full →
        NoFit arena.old.bytes (total_of (new_data_sizes (heap_of arena.old) (length bytes.now)
        (value_record_at (heap_of arena.old) cell))) }
    ensures limit { result ≡ Err ArenaFault.Full →
        PassesLimit arena.old.bytes
        (total_of (new_data_sizes (heap_of arena.old) (length bytes.now)
        (value_record_at (heap_of arena.old) cell))) }
    ensures grows { OnOk result (length arena.new.bytes ≤ length arena.old.bytes + GROWTH_BOUND) }
    ensures growth { OnOk result (GrowsFor arena.old.bytes arena.new.bytes
        (new_data_sizes (heap_of arena.old) (length bytes.now) (value_record_at (heap_of arena.old) cell))) }
    ensures kept { OnOk result (length arena.old.bytes ≤ length arena.new.bytes) }
{
    let old = record_at(arena, cell).fields;
    if stays(arena, old, bytes.len()) {
        rewrite(arena, cell, old, kind, bytes);
        return Ok(());
    }
    let Ok(sizes) = plan_replace(alloc, arena, old, bytes.len()) else {
        return Err(ArenaFault::Memory);
    };
    let cells = carve(alloc, arena, &sizes)?;
    exchange(arena, cell, &cells, old, kind, bytes);
    Ok(())
}
