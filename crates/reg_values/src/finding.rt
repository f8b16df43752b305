//! Values, found and read.
//!
//! Suhanov, Windows registry file format specification, sections "Key values list" and "Key value".

ghost use Rattle.std.specs.Prelude.{◌≡◌, ◌<◌, ◌+◌, ◌*◌, ◌≤◌, ℕ, List, Ok, Some, IsSome, max, slice_get, length, if◌then◌else◌};
ghost use Rattle.std.specs.List.{fold};
ghost use Rattle.reg_heap.specs.Paths.{Member};
ghost use Rattle.reg_heap.specs.Kinds.{Found};
ghost use Rattle.reg_heap.specs.Members.{index_named};
ghost use Rattle.reg_arena.specs.Arena.{heap_of};
ghost use Rattle.reg_records.specs.RecordCells.{held};
ghost use Rattle.reg_records.specs.OffsetRows.{offset_in};
ghost use Rattle.reg_records.specs.KeyValues.{KeyValueRecord, value_record_at, vk_of};
ghost use Rattle.reg_records.specs.BigData.{is_inline, inline_size};
ghost use Rattle.reg_shape.specs.Nodes.{members_at};
ghost use Rattle.reg_values.specs.ValueLists.{AreValues, Tells, OfRead};

use crate::{INLINE, ValuesList};
use reg_arena::{Arena, Stretch};
use reg_names::same_name;
use reg_records::{ValueRecord, offset_at, read_vk, vk_lengths, vk_name};

/// A value, without its bytes.
#[derive(Clone, Copy, Debug)]
pub struct Value<'a> {
    /// The bytes of its name, as it was first given.
    pub name: &'a [u8],
    /// The type of its data.
    pub kind: u32,
    /// The size of its data in bytes.
    pub size: u32,
}

/// What is largest among the values of a list.
#[derive(Clone, Copy, Debug, PartialEq, Eq)]
pub struct LargestValues {
    /// The length of the longest name, in bytes; 0 of no values.
    pub name: u32,
    /// The size of the largest data, in bytes; 0 of no values.
    pub size: u32,
}

/// The value's record in a cell.
pub(crate) fn record_at(arena: &Arena, cell: u32) -> ValueRecord<'_>
    requires { IsSome (value_record_at (heap_of arena.now) cell) }
    ensures { value_record_at (heap_of arena.now) cell ≡ Some (record { fields = result.fields; name = result.name.now }) }
{
    match read_vk(arena.content(cell)) {
        Ok(record) => record,
        Err(_) => unreachable!(),
    }
}

/// The offset of the value's record at an index of a list, counted from 0.
pub(crate) fn cell_of(arena: &Arena, list: ValuesList, index: u32) -> u32
    requires list { IsSome (heap_of arena.now list.offset) }
    requires index { 4 * index + 4 ≤ length (held (heap_of arena.now) list.offset) }
    ensures { result ≡ offset_in (held (heap_of arena.now) list.offset) index }
{
    offset_at(arena.content(list.offset), index)
}

/// The name in the value's record in a cell. A search reads no more of a record than this.
fn name_at(arena: &Arena, cell: u32) -> &[u8]
    requires { IsSome (value_record_at (heap_of arena.now) cell) }
    ensures { (record_is : KeyValueRecord) → value_record_at (heap_of arena.now) cell ≡ Some record_is → result.now ≡ record_is.name }
{
    vk_name(arena.content(cell))
}

/// The index of the first value of that name, after folding, counted from 0; `None` where there is none.
pub fn find(arena: &Arena, list: ValuesList, name: &[u8]) -> Option<u32>
    requires { AreValues (heap_of arena.now) list.count list.offset }
    ensures { OfRead (members_at list.count list.offset) (heap_of arena.now) (λ members met. result ≡ index_named name.now members) }
{
    if list.count == 0 {
        return None;
    }
    let row = arena.content(list.offset);
    for index in 0..list.count {
        let cell = offset_at(row, index);
        if same_name(name_at(arena, cell), name) {
            return Some(index);
        }
    }
    None
}

/// The size of data, from a size field.
pub(crate) fn size_in(size: u32) -> u32
    ensures { result ≡ (if is_inline size then inline_size size else size) }
{
    if size >= INLINE { size - INLINE } else { size }
}

/// The value at an index of the list, counted from 0.
pub fn at(arena: &Arena, list: ValuesList, index: u32) -> Value<'_>
    requires values { AreValues (heap_of arena.now) list.count list.offset }
    requires index { index < list.count }
    ensures { OfRead (members_at list.count list.offset) (heap_of arena.now) (λ members met. (member : Member)
        × (slice_get members index ≡ Some member) × Tells member result.name.now result.kind result.size) }
{
    let record = record_at(arena, cell_of(arena, list, index));
    Value {
        name: record.name,
        kind: record.fields.kind,
        size: size_in(record.fields.size),
    }
}

/// The larger of both lengths, and the larger of both sizes.
fn larger(a: LargestValues, b: LargestValues) -> LargestValues
    ensures name { result.name ≡ max a.name b.name }
    ensures size { result.size ≡ max a.size b.size }
{
    LargestValues {
        name: a.name.max(b.name),
        size: a.size.max(b.size),
    }
}

/// The length of one value's name and the size of its data, by what its record's cell holds. It reads no more than these two numbers.
fn lengths_in(content: &[u8]) -> LargestValues
    requires { (record_is : KeyValueRecord) × (vk_of content.now ≡ Ok record_is) }
    ensures name { (record_is : KeyValueRecord) → vk_of content.now ≡ Ok record_is → result.name ≡ length record_is.name }
    ensures size { (record_is : KeyValueRecord) → vk_of content.now ≡ Ok record_is →
        result.size ≡ (if is_inline record_is.fields.size then inline_size record_is.fields.size else record_is.fields.size) }
{
    let lengths = vk_lengths(content);
    LargestValues {
        name: u32::from(lengths.name),
        size: size_in(lengths.size),
    }
}

/// What is largest among the values of a list. It goes once over their records, and reads two numbers of each. Most records of a list
/// stand behind one another in few bins, so a bin is looked up only where it is another than the last record's.
pub fn largest(arena: &Arena, list: ValuesList) -> LargestValues
    requires { AreValues (heap_of arena.now) list.count list.offset }
    ensures name { OfRead (members_at list.count list.offset) (heap_of arena.now)
        (λ members met. result.name ≡ fold (λ a (m : Member). max a (length m.name)) 0 members) }
    ensures size { OfRead (members_at list.count list.offset) (heap_of arena.now)
        (λ members met. result.size ≡ fold (λ a (m : Member). max a (length m.bytes)) 0 members) }
{
    let mut largest = LargestValues { name: 0, size: 0 };
    if list.count == 0 {
        return largest;
    }
    let row = arena.content(list.offset);
    let mut stretch = Stretch::empty();
    for index in 0..list.count {
        let cell = arena.content_by(stretch, offset_at(row, index));
        stretch = cell.stretch;
        largest = larger(largest, lengths_in(cell.content));
    }
    largest
}
