//! A value's data: in its record, in one cell, or behind a big data record.
//!
//! Suhanov, Windows registry file format specification, sections "Key value" and "Big data".

ghost use Rattle.std.specs.Prelude.{◌≡◌, ◌≢◌, ◌<◌, ◌≤◌, ℕ, List, Some, IsSome, IfOk, OnErr, slice_get, slice_index, length, drop, [], ◌∷◌, ◌++◌};
ghost use Rattle.byteorder.specs.Endian.{little_bytes};
ghost use Rattle.reg_heap.specs.declared.limits.TheConstants.{DATA_LIMIT};
ghost use Rattle.reg_heap.specs.Paths.{Member};
ghost use Rattle.reg_heap.specs.Kinds.{Found};
ghost use Rattle.reg_arena.specs.Arena.{heap_of};
ghost use Rattle.reg_shape.specs.Nodes.{members_at, data_at};
ghost use Rattle.reg_values.specs.ValueLists.{AreValues, OfRead, Tells, fitted};
ghost use Rattle.reg_values.specs.Internal.ValueListParts.{Owns, GivesUpRead, Fills, HaveRoom, HoldsData};
ghost use Rattle.reg_values.specs.ValueSizes.{data_sizes};

use crate::big::{big_bytes, fill_big, free_big, put_big};
use crate::finding::{cell_of, record_at, size_in};
use crate::{INLINE, INLINE_LIMIT, Value, ValuesList};
use reg_arena::Arena;
use reg_records::{SEGMENT_SIZE, ValueFields};
use std::alloc::{AllocError, Global};

/// What a value's record says of its data: the size with its top bit, and the offset or the data itself.
#[derive(Clone, Copy)]
pub(crate) struct DataFields {
    pub size: u32,
    pub offset: u32,
}

/// A copy of the data of the value at an index of the list, counted from 0.
///
/// Its one fault is that memory was refused, and never of a value without data: for that no memory is taken.
pub fn bytes_of(
    alloc: Global,
    arena: &Arena,
    list: ValuesList,
    index: u32,
) -> Result<Vec<u8>, AllocError>
    requires values { AreValues (heap_of arena.now) list.count list.offset }
    requires index { index < list.count }
    ensures told { IfOk result (λ bytes. OfRead (members_at list.count list.offset) (heap_of arena.now)
        (λ members met. (member : Member) × (slice_get members index ≡ Some member) × (bytes.items ≡ member.bytes))) }
    ensures empty { OnErr result (OfRead (members_at list.count list.offset) (heap_of arena.now)
        (λ members met. (member : Member) → slice_get members index ≡ Some member → member.bytes ≢ [])) }
{
    let fields = record_at(arena, cell_of(arena, list, index)).fields;
    data_bytes(alloc, arena, fields)
}

/// A copy of the data that a record tells of. Where there is none, no memory is taken.
fn data_bytes(alloc: Global, arena: &Arena, fields: ValueFields) -> Result<Vec<u8>, AllocError>
    requires { IsSome (data_at fields (heap_of arena.now)) }
    ensures told { IfOk result (λ bytes. (all : List ℕ) → (met : List Found) → data_at fields (heap_of arena.now) ≡ Some (all, met) → bytes.items ≡ all) }
    ensures empty { OnErr result ((all : List ℕ) → (met : List Found) → data_at fields (heap_of arena.now) ≡ Some (all, met) → all ≢ []) }
{
    if size_in(fields.size) == 0 {
        return Ok(Vec::new(alloc));
    }
    if fields.size >= INLINE {
        let bytes = fields.offset.to_le_bytes();
        return Vec::from_slice(alloc, &bytes[..(fields.size - INLINE) as usize]);
    }
    let size = fields.size as usize;
    if size > SEGMENT_SIZE {
        return big_bytes(alloc, arena, size, fields.offset);
    }
    Vec::from_slice(alloc, &arena.content(fields.offset)[..size])
}

/// Copies the data of the value at an index of the list, counted from 0, over the front of a room that has place for it. The rest of
/// the room stays as it was. It takes no memory.
pub fn fill_bytes(arena: &Arena, list: ValuesList, index: u32, room: &mut [u8])
    requires values { AreValues (heap_of arena.now) list.count list.offset }
    requires index { index < list.count }
    requires room { OfRead (members_at list.count list.offset) (heap_of arena.now)
        (λ members met. (member : Member) → slice_get members index ≡ Some member → length member.bytes ≤ length room.old) }
    ensures { OfRead (members_at list.count list.offset) (heap_of arena.now)
        (λ members met. (member : Member) × (slice_get members index ≡ Some member)
        × (room.new ≡ member.bytes ++ drop (length member.bytes) room.old)) }
{
    let fields = record_at(arena, cell_of(arena, list, index)).fields;
    fill_data(arena, fields, room);
}

/// The value at an index of the list, counted from 0, with its data copied over the front of a room that has place for it. The rest of
/// the room stays as it was, and so does a room that has no place for it. It takes no memory.
pub fn at_into<'a>(arena: &'a Arena, list: ValuesList, index: u32, room: &mut [u8]) -> Value<'a>
    requires values { AreValues (heap_of arena.now) list.count list.offset }
    requires index { index < list.count }
    ensures { OfRead (members_at list.count list.offset) (heap_of arena.now) (λ members met. (member : Member)
        × (slice_get members index ≡ Some member) × Tells member result.name.now result.kind result.size
        × (room.new ≡ fitted member.bytes room.old)) }
{
    let record = record_at(arena, cell_of(arena, list, index));
    let value = Value {
        name: record.name,
        kind: record.fields.kind,
        size: size_in(record.fields.size),
    };
    if room.len() < value.size as usize {
        return value;
    }
    fill_data(arena, record.fields, room);
    value
}

/// Copies bytes over the front of a room that has place for them. The rest of the room stays as it was.
fn fill_front(room: &mut [u8], bytes: &[u8])
    requires { length bytes.now ≤ length room.old }
    ensures { room.new ≡ bytes.now ++ drop (length bytes.now) room.old }
{
    room[..bytes.len()].copy_from_slice(bytes);
}

/// Copies the data that a record tells of over the front of a room that has place for it.
fn fill_data(arena: &Arena, fields: ValueFields, room: &mut [u8])
    requires data { IsSome (data_at fields (heap_of arena.now)) }
    requires room { OfRead (data_at fields) (heap_of arena.now) (λ all met. length all ≤ length room.old) }
    ensures { OfRead (data_at fields) (heap_of arena.now) (λ all met. room.new ≡ all ++ drop (length all) room.old) }
{
    if fields.size >= INLINE {
        let bytes = fields.offset.to_le_bytes();
        fill_front(room, &bytes[..(fields.size - INLINE) as usize]);
        return;
    }
    if fields.size == 0 {
        return;
    }
    let size = fields.size as usize;
    if size > SEGMENT_SIZE {
        fill_big(arena, size, fields.offset, room);
        return;
    }
    fill_front(room, &arena.content(fields.offset)[..size]);
}

fn byte_or_zero(bytes: &[u8], index: usize) -> u8
    ensures { result ≡ slice_index bytes.now index }
{
    if index < bytes.len() { bytes[index] } else { 0 }
}

/// Up to four bytes as a number, the lowest first; bytes that are missing are 0.
fn packed(bytes: &[u8]) -> u32
    ensures { little_bytes 4 result ≡ slice_index bytes.now 0 ∷ slice_index bytes.now 1 ∷ slice_index bytes.now 2 ∷ slice_index bytes.now 3 ∷ [] }
{
    u32::from_le_bytes([
        byte_or_zero(bytes, 0),
        byte_or_zero(bytes, 1),
        byte_or_zero(bytes, 2),
        byte_or_zero(bytes, 3),
    ])
}

/// Writes a value's data into new cells of its sizes.
pub(crate) fn put_data(arena: &mut Arena, cells: &[u32], bytes: &[u8]) -> DataFields
    requires small { length bytes.now ≤ DATA_LIMIT }
    requires cells { HaveRoom (heap_of arena.old) cells.now (data_sizes (length bytes.now)) }
    ensures fills { Fills (heap_of arena.old) (heap_of arena.new) cells.now }
    ensures holds { HoldsData (heap_of arena.new) result.size result.offset bytes.now cells.now }
    ensures long { length arena.new.bytes ≡ length arena.old.bytes }
{
    let size = bytes.len() as u32;
    if bytes.len() <= INLINE_LIMIT {
        return DataFields {
            size: INLINE + size,
            offset: packed(bytes),
        };
    }
    let head = cells[0];
    if bytes.len() > SEGMENT_SIZE {
        put_big(arena, head, cells[1], &cells[2..], bytes);
        return DataFields { size, offset: head };
    }
    arena.write(head, 0, bytes);
    DataFields { size, offset: head }
}

/// Frees the cells of a value's data.
pub(crate) fn free_data(arena: &mut Arena, fields: ValueFields)
    requires { Owns (data_at fields) (heap_of arena.old) }
    ensures gone { GivesUpRead (data_at fields) (heap_of arena.old) (heap_of arena.new) }
    ensures long { length arena.new.bytes ≡ length arena.old.bytes }
{
    if fields.size >= INLINE || fields.size == 0 {
        return;
    }
    if fields.size as usize > SEGMENT_SIZE {
        free_big(arena, fields.size as usize, fields.offset);
        return;
    }
    arena.free(fields.offset);
}
