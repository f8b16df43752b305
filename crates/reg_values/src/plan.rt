//! The sizes of the cells that a change takes.
//!
//! Suhanov, Windows registry file format specification, sections "Cell", "Key values list", "Key value" and "Big data".

ghost use Rattle.std.specs.Prelude.{◌≡◌, true, ◌≤◌, ◌<◌, ◌+◌, ◌*◌, ◌++◌, [], length, IfOk, OnOk, IsSome, None, if◌then◌else◌};
ghost use Rattle.std.specs.List.{AllByRecursion};
ghost use Rattle.reg_names.specs.declared.TheConstants.{VALUE_NAME_LIMIT};
ghost use Rattle.reg_names.specs.Names.{is_value_name};
ghost use Rattle.reg_heap.specs.declared.limits.TheConstants.{DATA_LIMIT, VALUES_LIMIT};
ghost use Rattle.reg_heap.specs.Trees.{IsSmallValue};
ghost use Rattle.reg_arena.specs.Arena.{heap_of};
ghost use Rattle.reg_arena.specs.NewCells.{total_of};
ghost use Rattle.reg_values.specs.ValueLists.{AreValues};
ghost use Rattle.reg_values.specs.NewValues.{told, all_told, one_value_sizes, each_value_sizes, all_value_sizes};
ghost use Rattle.reg_values.specs.ValueSizes.{data_sizes, segment_sizes, list_sizes, room_for as room_of, has_room as has_room_of};
ghost use Rattle.reg_values.specs.ValueSizes.{stays as stays_of, sizes_by, set_sizes};

use crate::big::segments_for;
use crate::finding::{cell_of, find, record_at};
use crate::making::NewValue;
use crate::{INLINE_LIMIT, ValuesList};
use reg_arena::{Arena, cell_size};
use reg_heap::limits::VALUES_LIMIT;
use reg_records::{SEGMENT_SIZE, ValueFields};
use std::alloc::{AllocError, Global};

/// The length of a value's record before its name, in bytes.
const HEAD: u32 = 20;

/// The length of a big data record, in bytes.
const BIG_HEAD: u32 = 8;

/// Up to how many values a list that moves is made for just these.
const EXACT: u32 = 64;

/// Puts the sizes of the cells of data of a size behind those of `sizes`.
#[tactic(auto, unfolding(crate::specs::ValueSizes::data_sizes, reg_records::specs::BigData::segment_size))]
pub(crate) fn plan_data(sizes: &mut Vec<u32>, size: usize) -> Result<(), AllocError>
    requires { size ≤ DATA_LIMIT }
    ensures { OnOk result (sizes.new.items ≡ sizes.old.items ++ data_sizes size) }
{
    if size <= INLINE_LIMIT {
        return Ok(());
    }
    if size <= SEGMENT_SIZE {
        sizes.push(cell_size(size as u32))?;
        return Ok(());
    }
    let count = segments_for(size);
    sizes.push(cell_size(BIG_HEAD))?;
    sizes.push(cell_size(4 * count as u32))?;
    plan_segments(sizes, count, size)
}

/// Puts the sizes of the cells of so many segments behind those of `sizes`.
fn plan_segments(sizes: &mut Vec<u32>, count: usize, size: usize) -> Result<(), AllocError>
    requires size { size ≤ DATA_LIMIT }
    requires all { SEGMENT_SIZE * count < size + SEGMENT_SIZE }
    ensures { OnOk result (sizes.new.items ≡ sizes.old.items ++ segment_sizes count size) }
{
    for index in 0..count {
        sizes.push(cell_size((size - SEGMENT_SIZE * index).min(SEGMENT_SIZE) as u32))?;
    }
    Ok(())
}

/// Whether the list's cell has room for one value more.
pub(crate) fn has_room(arena: &Arena, list: ValuesList) -> bool
    requires few { list.count ≤ VALUES_LIMIT }
    requires list { 0 < list.count → IsSome (heap_of arena.now list.offset) }
    ensures { result ≡ has_room_of (heap_of arena.now) list.count list.offset }
{
    list.count != 0 && 4 * list.count as usize + 4 <= arena.content(list.offset).len()
}

/// Whether new data stays in the old data's one cell, which has the size that it needs.
#[tactic(auto, unfolding(crate::specs::ValueSizes::stays, reg_records::specs::BigData::segment_size))]
pub(crate) fn stays(arena: &Arena, old: ValueFields, size: usize) -> bool
    requires { old.size ≤ SEGMENT_SIZE → IsSome (heap_of arena.now old.offset) }
    ensures { result ≡ stays_of (heap_of arena.now) old size }
{
    size > INLINE_LIMIT
        && size <= SEGMENT_SIZE
        && old.size as usize <= SEGMENT_SIZE
        && cell_size(size as u32) as usize == arena.content(old.offset).len() + 4
}

/// For how many values a list is made that moves and then holds so many: from the 65th on for a quarter more, at most for 16,384, so that
/// a key's values, set one by one, carve cells for their list that grow with their number alone.
#[tactic(auto, unfolding(crate::specs::ValueSizes::room_for))]
fn room_for(count: u32) -> u32
    requires { count ≤ VALUES_LIMIT + 1 }
    ensures is { result ≡ room_of count }
    ensures most { result ≤ VALUES_LIMIT + 1 }
{
    if count <= EXACT {
        return count;
    }
    (count + count / 4).min(VALUES_LIMIT)
}

/// Puts the size of the cell that a list moves to for one value more, if it moves, behind those of `sizes`.
#[tactic(auto, unfolding(crate::specs::ValueSizes::list_sizes))]
fn plan_list(sizes: &mut Vec<u32>, arena: &Arena, list: ValuesList) -> Result<(), AllocError>
    requires few { list.count ≤ VALUES_LIMIT }
    requires list { 0 < list.count → IsSome (heap_of arena.now list.offset) }
    ensures { OnOk result (sizes.new.items ≡ sizes.old.items ++ list_sizes (heap_of arena.now) list.count list.offset) }
{
    if has_room(arena, list) {
        return Ok(());
    }
    sizes.push(cell_size(4 * room_for(list.count + 1)))?;
    Ok(())
}

/// The sizes of the cells of one value more.
#[tactic(auto, using(crate::proofs::ValueChanges::PlannedSizes::added_sizes))]
pub(crate) fn plan_add(
    alloc: Global,
    arena: &Arena,
    list: ValuesList,
    name: usize,
    size: usize,
) -> Result<Vec<u32>, AllocError>
    requires few { list.count ≤ VALUES_LIMIT }
    requires list { 0 < list.count → IsSome (heap_of arena.now list.offset) }
    requires name { name ≤ VALUE_NAME_LIMIT }
    requires size { size ≤ DATA_LIMIT }
    ensures { IfOk result (λ sizes. sizes.items ≡ sizes_by (heap_of arena.now) list.count list.offset name size None) }
{
    let mut sizes = Vec::new(alloc);
    sizes.push(cell_size(HEAD + name as u32))?;
    plan_list(&mut sizes, arena, list)?;
    plan_data(&mut sizes, size)?;
    Ok(sizes)
}

/// Puts the sizes of the cells of a value, its record's and its data's, behind those of `sizes`.
fn plan_value(sizes: &mut Vec<u32>, value: &NewValue<'_>) -> Result<(), AllocError>
    requires { IsSmallValue (told value.now) }
    ensures { OnOk result (sizes.new.items ≡ sizes.old.items ++ one_value_sizes (told value.now)) }
{
    sizes.push(cell_size(HEAD + value.name.len() as u32))?;
    plan_data(sizes, value.bytes.len())
}

/// Puts the sizes of the cells of values, those of each in their order, behind those of `sizes`.
fn plan_values(sizes: &mut Vec<u32>, values: &[NewValue<'_>]) -> Result<(), AllocError>
    requires { AllByRecursion IsSmallValue (all_told values.now) }
    ensures { OnOk result (sizes.new.items ≡ sizes.old.items ++ each_value_sizes (all_told values.now)) }
{
    for value in values {
        plan_value(sizes, value)?;
    }
    Ok(())
}

/// The sizes of the cells of all values of a key, with that of their list, which is to have room for so many values.
pub(crate) fn plan_all(
    alloc: Global,
    values: &[NewValue<'_>],
    room: usize,
) -> Result<Vec<u32>, AllocError>
    requires some { 0 < length values.now }
    requires room { length values.now ≤ room }
    requires few { room ≤ VALUES_LIMIT }
    requires small { AllByRecursion IsSmallValue (all_told values.now) }
    ensures { IfOk result (λ sizes. sizes.items ≡ all_value_sizes room (all_told values.now)) }
{
    let mut sizes = Vec::with_capacity(alloc, 2 * values.len() + 1)?;
    sizes.push(cell_size(4 * room as u32))?;
    plan_values(&mut sizes, values)?;
    Ok(sizes)
}

/// The sizes of the cells of values that come behind those of a list, which has room for them.
pub(crate) fn plan_more(alloc: Global, values: &[NewValue<'_>]) -> Result<Vec<u32>, AllocError>
    requires few { length values.now ≤ VALUES_LIMIT }
    requires small { AllByRecursion IsSmallValue (all_told values.now) }
    ensures { IfOk result (λ sizes. sizes.items ≡ each_value_sizes (all_told values.now)) }
{
    let mut sizes = Vec::with_capacity(alloc, 2 * values.len())?;
    plan_values(&mut sizes, values)?;
    Ok(sizes)
}

/// How many cells data of a size takes.
pub(crate) fn data_cells(size: usize) -> usize
    requires { size ≤ DATA_LIMIT }
    ensures { result ≡ length (data_sizes size) }
{
    if size <= INLINE_LIMIT {
        return 0;
    }
    if size <= SEGMENT_SIZE {
        return 1;
    }
    segments_for(size) + 2
}

/// The sizes of the cells of data of a size, added up.
#[tactic(auto, unfolding(reg_records::specs::BigData::segment_size))]
fn data_size(size: usize) -> u32
    requires { size ≤ DATA_LIMIT }
    ensures { result ≡ total_of (data_sizes size) }
{
    if size <= INLINE_LIMIT {
        return 0;
    }
    if size <= SEGMENT_SIZE {
        return cell_size(size as u32);
    }
    let count = segments_for(size) as u32;
    let last = size as u32 - SEGMENT_SIZE as u32 * (count - 1);
    cell_size(BIG_HEAD)
        + cell_size(4 * count)
        + cell_size(SEGMENT_SIZE as u32) * (count - 1)
        + cell_size(last)
}

/// The sizes of a value's cells, its record's and its data's, added up.
pub(crate) fn value_size(value: &NewValue<'_>) -> u32
    requires { IsSmallValue (told value.now) }
    ensures { result ≡ total_of (one_value_sizes (told value.now)) }
{
    cell_size(HEAD + value.name.len() as u32) + data_size(value.bytes.len())
}

/// The sizes of the cells of other data for a value.
pub(crate) fn plan_replace(
    alloc: Global,
    arena: &Arena,
    old: ValueFields,
    size: usize,
) -> Result<Vec<u32>, AllocError>
    requires old { old.size ≤ SEGMENT_SIZE → IsSome (heap_of arena.now old.offset) }
    requires size { size ≤ DATA_LIMIT }
    ensures { IfOk result (λ sizes. sizes.items ≡ (if stays_of (heap_of arena.now) old size then [] else data_sizes size)) }
{
    let mut sizes = Vec::new(alloc);
    if !stays(arena, old, size) {
        plan_data(&mut sizes, size)?;
    }
    Ok(sizes)
}

/// The sizes of the cells that a set of a value of that name, with so many bytes of data, takes, in their order: for a new
/// value its record, a list where the old one has no room, and its data; for one that is there its data, or nothing where
/// that stays in its cell. [`set`](crate::set) carves just these.
///
/// Its one fault is that memory was refused.
pub fn plan_set(
    alloc: Global,
    arena: &Arena,
    list: ValuesList,
    name: &[u8],
    size: u32,
) -> Result<Vec<u32>, AllocError>
    requires values { AreValues (heap_of arena.now) list.count list.offset }
    requires name { is_value_name name.now ≡ true }
    requires size { size ≤ DATA_LIMIT }
    ensures { IfOk result (λ sizes. sizes.items ≡ set_sizes (heap_of arena.now) list.count list.offset name.now size) }
{
    match find(arena, list, name) {
        Some(index) => {
            let old = record_at(arena, cell_of(arena, list, index)).fields;
            plan_replace(alloc, arena, old, size as usize)
        }
        None => plan_add(alloc, arena, list, name.len(), size as usize),
    }
}
