//! All values of a key made at once.
//!
//! Suhanov, Windows registry file format specification, sections "Cell", "Key values list", "Key value" and "Big data".

ghost use Rattle.std.specs.Prelude.{◌≡◌, ◌≤◌, ◌<◌, ◌+◌, ◌*◌, ◌∷◌, [], ℕ, List, Err, length, take, IfOk, OnOk, OnErr};
ghost use Rattle.std.specs.List.{AllByRecursion};
ghost use Rattle.reg_heap.specs.declared.limits.TheConstants.{VALUES_LIMIT};
ghost use Rattle.reg_heap.specs.Paths.{Member};
ghost use Rattle.reg_heap.specs.Trees.{IsSmallValue};
ghost use Rattle.reg_heap.specs.Kinds.{times};
ghost use Rattle.reg_arena.specs.declared.TheConstants.{CARVE_LIMIT};
ghost use Rattle.reg_arena.specs.Arena.{heap_of};
ghost use Rattle.reg_arena.specs.NewCells.{total_of};
ghost use Rattle.reg_arena.specs.Carves.{NoFit};
ghost use Rattle.reg_arena.specs.EachCell.{GrowsFor};
ghost use Rattle.reg_arena.specs.NewBin.{PassesLimit};
ghost use Rattle.reg_records.specs.RecordCells.{HasRoom, held};
ghost use Rattle.reg_records.specs.OffsetRows.{offset_in, offsets_at};
ghost use Rattle.reg_values.specs.ValueLists.{Became, KeepsSizes, Makes, UnusedAreZero};
ghost use Rattle.reg_values.specs.NewValues.{all_told, MayFollow, each_value_sizes, all_value_sizes};
ghost use Rattle.reg_values.specs.Internal.ValueListParts.{Fills, HaveRoom, StandBehind};

use crate::ValuesList;
use crate::add::put_value;
use crate::plan::{data_cells, plan_all, value_size};
use reg_arena::{Arena, ArenaFault, CARVE_LIMIT, cell_size};
use reg_heap::limits::NONE;
use reg_records::put_offset;
use std::alloc::Global;

/// A value to be made.
#[derive(Clone, Copy, Debug)]
pub struct NewValue<'a> {
    /// Its name.
    pub name: &'a [u8],
    /// The type of its data.
    pub kind: u32,
    /// Its data, at most 1,048,576 bytes.
    pub bytes: &'a [u8],
}

/// No values, and no list.
const NO_VALUES: ValuesList = ValuesList {
    count: 0,
    offset: NONE,
};

/// How many of these values, counted from the first, have cells of at most so many bytes together.
fn front_within(most: u32, values: &[NewValue<'_>]) -> usize
    requires { AllByRecursion IsSmallValue (all_told values.now) }
    ensures within { result ≤ length values.now }
    ensures fits { total_of (each_value_sizes (take result (all_told values.now))) ≤ most }
    ensures longest { result < length values.now →
        most < total_of (each_value_sizes (take (result + 1) (all_told values.now))) }
{
    let mut left = most;
    for (index, value) in values.iter().enumerate() {
        let size = value_size(value);
        if size > left {
            return index;
        }
        left -= size;
    }
    values.len()
}

/// How many of these values, counted from the first, [`make`] may be called with where their list is to have room for all of
/// them: the most whose cells and list have at most 16,777,216 bytes together, their size fields counted. Of one value or more it
/// is at least one.
pub fn front_of_one_carve(values: &[NewValue<'_>]) -> usize
    requires few { length values.now ≤ VALUES_LIMIT }
    requires new { MayFollow [] (all_told values.now) }
    ensures within { result ≤ length values.now }
    ensures some { 0 < length values.now → 0 < result }
    ensures fits { total_of (all_value_sizes (length values.now) (take result (all_told values.now))) ≤ CARVE_LIMIT }
    ensures longest { result < length values.now →
        CARVE_LIMIT < total_of (all_value_sizes (length values.now) (take (result + 1) (all_told values.now))) }
{
    front_within(CARVE_LIMIT - cell_size(4 * values.len() as u32), values)
}

/// How many of these values, counted from the first, [`extend`](crate::extend) may be called with: the most whose cells have at
/// most 16,777,216 bytes together, their size fields counted. Of one value or more it is at least one.
pub fn front_of_one_more_carve(values: &[NewValue<'_>]) -> usize
    requires { AllByRecursion IsSmallValue (all_told values.now) }
    ensures within { result ≤ length values.now }
    ensures some { 0 < length values.now → 0 < result }
    ensures fits { total_of (each_value_sizes (take result (all_told values.now))) ≤ CARVE_LIMIT }
    ensures longest { result < length values.now →
        CARVE_LIMIT < total_of (each_value_sizes (take (result + 1) (all_told values.now))) }
{
    front_within(CARVE_LIMIT, values)
}

/// Writes values into new cells of their sizes, and the offsets of these into a list's cell, from the place `first` on.
pub(crate) fn fill(arena: &mut Arena, list: u32, first: u32, cells: &[u32], values: &[NewValue<'_>])
    requires few { first + length values.now ≤ VALUES_LIMIT }
    requires small { AllByRecursion IsSmallValue (all_told values.now) }
    requires list { HasRoom (heap_of arena.old) list (4 * (first + length values.now)) }
    requires cells { HaveRoom (heap_of arena.old) cells.now (each_value_sizes (all_told values.now)) }
    requires apart { times list cells.now ≡ 0 }
    ensures fills { Fills (heap_of arena.old) (heap_of arena.new) (list ∷ cells.now) }
    ensures stand { StandBehind (heap_of arena.new) list first (all_told values.now) cells.now }
    ensures front { offsets_at first 0 (held (heap_of arena.new) list) ≡ offsets_at first 0 (held (heap_of arena.old) list) }
    ensures behind { (n : ℕ) → first + length values.now ≤ n →
        offset_in (held (heap_of arena.new) list) n ≡ offset_in (held (heap_of arena.old) list) n }
    ensures long { length arena.new.bytes ≡ length arena.old.bytes }
{
    let mut from = 0;
    for (index, value) in values.iter().enumerate() {
        let cell = cells[from];
        let behind = from + 1 + data_cells(value.bytes.len());
        put_value(
            arena,
            cell,
            &cells[from + 1..behind],
            value.name,
            value.kind,
            value.bytes,
        );
        put_offset(arena, list, first + index as u32, cell);
        from = behind;
    }
}

/// Makes values in cells of these sizes, one or more, with a list that has room for so many.
fn make_sized(
    alloc: Global,
    arena: &mut Arena,
    values: &[NewValue<'_>],
    room: usize,
    sizes: &[u32],
) -> Result<ValuesList, ArenaFault>
    requires some { 0 < length values.now }
    requires room { length values.now ≤ room }
    requires few { room ≤ VALUES_LIMIT }
    requires new { MayFollow [] (all_told values.now) }
    requires sizes { sizes.now ≡ all_value_sizes room (all_told values.now) }
    requires fits { total_of sizes.now ≤ CARVE_LIMIT }
    ensures ok { IfOk result (λ after. Became (heap_of arena.old) (heap_of arena.new) [] after.count after.offset (all_told values.now)) }
    ensures room { IfOk result (λ after. HasRoom (heap_of arena.new) after.offset (4 * room)) }
    ensures unused { IfOk result (λ after. UnusedAreZero (heap_of arena.new) after.count after.offset) }
    ensures cells { OnOk result (Makes (heap_of arena.old) (heap_of arena.new) sizes.now) }
    ensures stay { OnOk result (KeepsSizes (heap_of arena.old) (heap_of arena.new)) }
    ensures growth { OnOk result (GrowsFor arena.old.bytes arena.new.bytes sizes.now) }
    ensures err { OnErr result (arena.new ≡ arena.old) }
    ensures space { result ≡ Err ArenaFault.Full →
        (0 < length sizes.now) × NoFit arena.old.bytes (total_of sizes.now) × PassesLimit arena.old.bytes (total_of sizes.now) }
    ensures grows { OnOk result (length arena.new.bytes ≤ length arena.old.bytes + 4127 + total_of sizes.now) }
    ensures kept { OnOk result (length arena.old.bytes ≤ length arena.new.bytes) }
{
    let Ok(mut cells) = Vec::with_capacity(alloc, sizes.len()) else {
        return Err(ArenaFault::Memory);
    };
    arena.carve(sizes, &mut cells)?;
    let all = cells.as_slice();
    let list = all[0];
    fill(arena, list, 0, &all[1..], values);
    Ok(ValuesList {
        count: values.len() as u32,
        offset: list,
    })
}

/// Makes values, in their order, as all that a key has that had none, and answers their list, whose cell has room for `room`
/// values, from their number to 16,384; of no values there is none. So many can be had before the list moves, and each offset that
/// no value uses yet is 0. One [`carve`](reg_arena::Arena::carve) takes all cells side by side, so that they may have at most
/// 16,777,216 bytes together, as [`front_of_one_carve`] tells. The time that it takes grows with how much there is to write.
/// The bins grow by at most 4,127 bytes and those of the cells, and only where no free cell has room for all of them.
///
/// [`ArenaFault::Full`]: no free cell has room for all cells together, and with a bin more for them there would be more than
/// 268,435,456 bytes of bins. [`ArenaFault::Memory`]: a growth was refused. After either the arena is as before.
pub fn make(
    alloc: Global,
    arena: &mut Arena,
    values: &[NewValue<'_>],
    room: usize,
) -> Result<ValuesList, ArenaFault>
    requires room { length values.now ≤ room }
    requires few { room ≤ VALUES_LIMIT }
    requires new { MayFollow [] (all_told values.now) }
    requires fits { total_of (all_value_sizes room (all_told values.now)) ≤ CARVE_LIMIT }
    ensures ok { IfOk result (λ after. Became (heap_of arena.old) (heap_of arena.new) [] after.count after.offset (all_told values.now)) }
    ensures room { IfOk result (λ after. 0 < after.count → HasRoom (heap_of arena.new) after.offset (4 * room)) }
    ensures unused { IfOk result (λ after. 0 < after.count → UnusedAreZero (heap_of arena.new) after.count after.offset) }
    ensures cells { OnOk result (Makes (heap_of arena.old) (heap_of arena.new) (all_value_sizes room (all_told values.now))) }
    ensures stay { OnOk result (KeepsSizes (heap_of arena.old) (heap_of arena.new)) }
    ensures growth { OnOk result (GrowsFor arena.old.bytes arena.new.bytes (all_value_sizes room (all_told values.now))) }
    ensures err { OnErr result (arena.new ≡ arena.old) }
    ensures space { result ≡ Err ArenaFault.Full →
        (0 < length (all_value_sizes room (all_told values.now)))
        × NoFit arena.old.bytes (total_of (all_value_sizes room (all_told values.now)))
        × PassesLimit arena.old.bytes (total_of (all_value_sizes room (all_told values.now))) }
    ensures grows { OnOk result (length arena.new.bytes ≤ length arena.old.bytes + 4127 + total_of (all_value_sizes room (all_told values.now))) }
    ensures kept { OnOk result (length arena.old.bytes ≤ length arena.new.bytes) }
{
    if values.is_empty() {
        return Ok(NO_VALUES);
    }
    let Ok(sizes) = plan_all(alloc, values, room) else {
        return Err(ArenaFault::Memory);
    };
    make_sized(alloc, arena, values, room, &sizes)
}
