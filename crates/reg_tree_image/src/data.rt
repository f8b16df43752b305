//! Classes, and the data of values.
//!
//! Suhanov, Windows registry file format specification, sections "Key node", "Key value" and "Big data".

ghost use Rattle.std.specs.Prelude.{◌≡◌, ◌≢◌, ◌≤◌, ◌==◌, ◌||◌, ℕ, List, true, nat_le, IfErr, length as byte_count, take, IfOk};
ghost use Rattle.reg_heap.specs.declared.limits.TheConstants.{DATA_LIMIT};
ghost use Rattle.reg_heap.specs.Heaps.{Heap};
ghost use Rattle.reg_arena.specs.Cells.{cell_at};
ghost use Rattle.reg_records.specs.BigData.{segment_size, is_inline};
ghost use Rattle.reg_tree_image.specs.declared.LoadFault.{LoadFault};
ghost use Rattle.reg_tree_image.specs.LoadingWalk.{class_from as class_step, far_from as far_step, big_from as big_step, data_by as data_step};
ghost use Rattle.reg_tree_image.specs.Internal.CellStates.{unnamed};
ghost use Rattle.reg_tree_image.specs.Internal.NamedRecords.{data_in};
ghost use Rattle.reg_tree_image.specs.Internal.ReaderOutcomes.{Gives, Follows};

use crate::LoadFault;
use crate::big_data::big_from;
use crate::cells::bytes_from;
use crate::table::CellTable;
use reg_heap::limits::DATA_LIMIT;
use reg_records::SEGMENT_SIZE;
use std::alloc::Global;

/// The bit of a size field that says that the data stands in the field of its offset.
pub const INLINE: u32 = 0x8000_0000;

/// How many bytes of data stand in that field at most.
const INLINE_LIMIT: u32 = 4;

/// The data of a value, where it stands.
#[derive(Drop)]
pub enum ReadData<'a> {
    /// The bytes of one cell.
    Held(&'a [u8]),
    /// The first bytes of the field of its offset, so many.
    Inline { field: [u8; 4], count: usize },
    /// A copy of the bytes of several cells, one behind the other.
    Copied(Vec<u8>),
}

impl ReadData<'_> {
    /// Its bytes.
    pub fn as_slice(&self) -> &[u8]
        ensures value { result.now ≡ data_in self.now }
    {
        match self {
            ReadData::Held(bytes) => bytes,
            ReadData::Inline { field, count } => front(field, *count),
            ReadData::Copied(bytes) => bytes.as_slice(),
        }
    }
}

/// The first bytes of a field, at most so many.
fn front(field: &[u8], count: usize) -> &[u8]
    ensures { result.now ≡ take count field.now }
{
    &field[..field.len().min(count)]
}

/// Names a key's class, unless its length is 0, and reads it.
pub fn class_from<'a>(
    bins: &'a [u8],
    table: &mut CellTable,
    length: u16,
    offset: u32,
) -> Result<&'a [u8], LoadFault>
    ensures follows { (path : List ℕ) →
        Follows (cell_at bins.now) path (λ held. held.now) (class_step (cell_at bins.now) path length offset)
        table.old.states.items table.new.states.items result }
    ensures short { IfOk result (λ held. byte_count held.now ≤ 65535) }
    ensures no_more { unnamed table.new.states.items ≤ unnamed table.old.states.items }
    ensures ample { IfErr result (λ fault. fault ≢ LoadFault.Memory) }
{
    if length == 0 {
        return Ok(&[]);
    }
    bytes_from(bins, table, offset, usize::from(length))
}

/// Names the one cell that data stands in, unless its size is 0, and reads it.
pub fn single_from<'a>(
    bins: &'a [u8],
    table: &mut CellTable,
    size: u32,
    offset: u32,
) -> Result<&'a [u8], LoadFault>
    ensures follows { (path : List ℕ) →
        Follows (cell_at bins.now) path (λ held. held.now) (far_step (cell_at bins.now) path true size offset)
        table.old.states.items table.new.states.items result }
    ensures short { IfOk result (λ held. byte_count held.now ≤ size) }
    ensures no_more { unnamed table.new.states.items ≤ unnamed table.old.states.items }
    ensures ample { IfErr result (λ fault. fault ≢ LoadFault.Memory) }
{
    if size == 0 {
        return Ok(&[]);
    }
    bytes_from(bins, table, offset, size as usize)
}

/// The data that stands in the field of its offset: the field's first bytes, at most four.
fn inline_data<'a>(size: u32, offset: u32) -> Result<ReadData<'a>, LoadFault>
    requires { INLINE ≤ size }
    ensures gives { (heap : Heap) → (minor : ℕ) → (path : List ℕ) →
        Gives data_in (data_step heap minor path true size offset) result }
    ensures short { IfOk result (λ held. byte_count (data_in held) ≤ 4) }
{
    let count = size - INLINE;
    if count > INLINE_LIMIT {
        return Err(LoadFault::Record);
    }
    Ok(ReadData::Inline {
        field: offset.to_le_bytes(),
        count: count as usize,
    })
}

/// Whether one cell holds data of a size that isn't 0: up to the size of a segment, and in minor version 3 always.
#[tactic(auto, unfolding(reg_records::specs::BigData::segment_size))]
fn is_single(minor: u32, size: u32) -> bool
    ensures { result ≡ (nat_le size segment_size || (minor == 3)) }
{
    size as usize <= SEGMENT_SIZE || minor == 3
}

/// The data that stands in one cell.
fn single_data<'a>(
    bins: &'a [u8],
    table: &mut CellTable,
    size: u32,
    offset: u32,
) -> Result<ReadData<'a>, LoadFault>
    ensures follows { (path : List ℕ) →
        Follows (cell_at bins.now) path data_in (far_step (cell_at bins.now) path true size offset)
        table.old.states.items table.new.states.items result }
    ensures short { IfOk result (λ held. byte_count (data_in held) ≤ size) }
    ensures no_more { unnamed table.new.states.items ≤ unnamed table.old.states.items }
{
    let held = single_from(bins, table, size, offset)?;
    Ok(ReadData::Held(held))
}

/// The data that stands behind a big data record.
fn big_data<'a>(
    alloc: Global,
    bins: &[u8],
    table: &mut CellTable,
    size: u32,
    offset: u32,
) -> Result<ReadData<'a>, LoadFault>
    ensures follows { (path : List ℕ) →
        Follows (cell_at bins.now) path data_in (big_step (cell_at bins.now) path size offset)
        table.old.states.items table.new.states.items result }
    ensures short { IfOk result (λ held. byte_count (data_in held) ≤ size) }
    ensures no_more { unnamed table.new.states.items ≤ unnamed table.old.states.items }
{
    let bytes = big_from(alloc, bins, table, size, offset)?;
    Ok(ReadData::Copied(bytes))
}

/// Names the cells of a value's data, and reads it; that of several cells is copied. `size` and `offset` are those fields of the value's
/// record, as they stand.
///
/// With the top bit of `size` the data stands in `offset`: more than 4 bytes are `Record`. Else more than 1,048,576 are `Limit`,
/// before anything is named. Of size 0 nothing is named. Up to 16,344 bytes, and in minor version 3 data of any size, stand in
/// one cell, and else behind a big data record: `Record` where a record doesn't read or is too short, and the faults of naming.
/// `Memory` where there is none for the copy.
pub fn data_from<'a>(
    alloc: Global,
    bins: &'a [u8],
    table: &mut CellTable,
    minor: u32,
    size: u32,
    offset: u32,
) -> Result<ReadData<'a>, LoadFault>
    ensures follows { (path : List ℕ) →
        Follows (cell_at bins.now) path data_in (data_step (cell_at bins.now) minor path (is_inline size) size offset)
        table.old.states.items table.new.states.items result }
    ensures short { IfOk result (λ held. byte_count (data_in held) ≤ DATA_LIMIT) }
    ensures no_more { unnamed table.new.states.items ≤ unnamed table.old.states.items }
{
    if size >= INLINE {
        return inline_data(size, offset);
    }
    if size as usize > DATA_LIMIT {
        return Err(LoadFault::Limit);
    }
    if is_single(minor, size) {
        return single_data(bins, table, size, offset);
    }
    big_data(alloc, bins, table, size, offset)
}
