//! Data above 16,344 bytes: a big data record, a list, and segments.
//!
//! Suhanov, Windows registry file format specification, section "Big data".

ghost use Rattle.std.specs.Prelude.{◌≡◌, ◌<◌, ◌≤◌, ◌*◌, ◌+◌, ℕ, List, Some, IsSome, IfOk, length, get_or, take, drop, [], ◌∷◌, ◌++◌};
ghost use Rattle.reg_heap.specs.declared.limits.TheConstants.{DATA_LIMIT};
ghost use Rattle.reg_heap.specs.Heaps.{GivesUp, allocated};
ghost use Rattle.reg_heap.specs.Kinds.{Found, times};
ghost use Rattle.reg_arena.specs.Arena.{heap_of};
ghost use Rattle.reg_records.specs.RecordCells.{HasRoom, held};
ghost use Rattle.reg_records.specs.OffsetRows.{offsets_at};
ghost use Rattle.reg_records.specs.BigData.{segments_for as segments_for_of, segments as segments_of, db_of};
ghost use Rattle.reg_shape.specs.Nodes.{pieces_at, big_at as big_data_at};
ghost use Rattle.reg_values.specs.Internal.ValueListParts.{segments_at, Owns, GivesUpRead, Fills, HoldsData};
ghost use Rattle.reg_values.specs.ValueLists.{OfRead};

use reg_arena::Arena;
use reg_records::{BigFields, SEGMENT_SIZE, offset_at, put_db, put_offset, read_db};
use std::alloc::{AllocError, Global};

/// How many segments data of a size has.
#[tactic(auto, unfolding(reg_records::specs::BigData::segment_size))]
pub(crate) fn segments_for(size: usize) -> usize
    requires { size < 4294967296 }
    ensures { result ≡ segments_for_of size }
{
    (size + (SEGMENT_SIZE - 1)) / SEGMENT_SIZE
}

/// The big data record in a cell.
fn big_at(arena: &Arena, cell: u32) -> BigFields
    requires exists { IsSome (heap_of arena.now cell) }
    requires big { IsSome (db_of (held (heap_of arena.now) cell)) }
    ensures { db_of (held (heap_of arena.now) cell) ≡ Some (record { count = result.count; list = result.list }) }
{
    match read_db(arena.content(cell)) {
        Ok(big) => big,
        Err(_) => unreachable!(),
    }
}

/// A copy of the bytes behind a big data record.
pub(crate) fn big_bytes(
    alloc: Global,
    arena: &Arena,
    size: usize,
    cell: u32,
) -> Result<Vec<u8>, AllocError>
    requires size { size < 4294967296 }
    requires big { IsSome (big_data_at size cell (heap_of arena.now)) }
    ensures { IfOk result (λ bytes. OfRead (big_data_at size cell) (heap_of arena.now) (λ all met. bytes.items ≡ all)) }
{
    let list = big_at(arena, cell).list;
    joined(alloc, arena, size, list)
}

/// The bytes of the segment at an index, counted from 0, of data of a size, where a list names its segments.
fn segment_at(arena: &Arena, size: usize, list: u32, index: usize) -> &[u8]
    requires size { size < 4294967296 }
    requires exists { IsSome (heap_of arena.now list) }
    requires long { 4 * segments_for_of size ≤ length (held (heap_of arena.now) list) }
    requires pieces { IsSome (segments_at size (held (heap_of arena.now) list) (heap_of arena.now)) }
    requires index { index < segments_for_of size }
    ensures { OfRead (segments_at size (held (heap_of arena.now) list)) (heap_of arena.now)
        (λ all met. result.now ≡ take SEGMENT_SIZE (drop (SEGMENT_SIZE * index) all)) }
{
    let segment = offset_at(arena.content(list), index as u32);
    let count = (size - SEGMENT_SIZE * index).min(SEGMENT_SIZE);
    &arena.content(segment)[..count]
}

/// A copy of the bytes of the segments that a list names.
fn joined(alloc: Global, arena: &Arena, size: usize, list: u32) -> Result<Vec<u8>, AllocError>
    requires size { size < 4294967296 }
    requires exists { IsSome (heap_of arena.now list) }
    requires long { 4 * segments_for_of size ≤ length (held (heap_of arena.now) list) }
    requires pieces { IsSome (segments_at size (held (heap_of arena.now) list) (heap_of arena.now)) }
    ensures { IfOk result (λ bytes. OfRead (segments_at size (held (heap_of arena.now) list)) (heap_of arena.now) (λ all met. bytes.items ≡ all)) }
{
    let mut bytes = Vec::with_capacity(alloc, size)?;
    for index in 0..segments_for(size) {
        bytes.extend_from_slice(segment_at(arena, size, list, index))?;
    }
    Ok(bytes)
}

/// Copies bytes into a room behind its first few. The rest of the room stays as it was.
fn fill_behind(room: &mut [u8], done: usize, bytes: &[u8])
    requires { done + length bytes.now ≤ length room.old }
    ensures { room.new ≡ take done room.old ++ bytes.now ++ drop (done + length bytes.now) room.old }
{
    room[done..done + bytes.len()].copy_from_slice(bytes);
}

/// Copies the bytes of the segments that a list names over the front of a room that has place for them.
fn fill_segments(arena: &Arena, size: usize, list: u32, room: &mut [u8])
    requires size { size < 4294967296 }
    requires exists { IsSome (heap_of arena.now list) }
    requires long { 4 * segments_for_of size ≤ length (held (heap_of arena.now) list) }
    requires pieces { IsSome (segments_at size (held (heap_of arena.now) list) (heap_of arena.now)) }
    requires room { size ≤ length room.old }
    ensures { OfRead (segments_at size (held (heap_of arena.now) list)) (heap_of arena.now)
        (λ all met. room.new ≡ all ++ drop (length all) room.old) }
{
    for index in 0..segments_for(size) {
        fill_behind(
            room,
            SEGMENT_SIZE * index,
            segment_at(arena, size, list, index),
        );
    }
}

/// Copies the bytes behind a big data record over the front of a room that has place for them.
pub(crate) fn fill_big(arena: &Arena, size: usize, cell: u32, room: &mut [u8])
    requires size { size < 4294967296 }
    requires big { IsSome (big_data_at size cell (heap_of arena.now)) }
    requires room { size ≤ length room.old }
    ensures { OfRead (big_data_at size cell) (heap_of arena.now) (λ all met. room.new ≡ all ++ drop (length all) room.old) }
{
    let list = big_at(arena, cell).list;
    fill_segments(arena, size, list, room);
}

/// The bytes of one segment.
fn piece(bytes: &[u8], index: usize) -> &[u8]
    requires within { SEGMENT_SIZE * index ≤ length bytes.now }
    requires small { length bytes.now ≤ DATA_LIMIT }
    ensures { result.now ≡ take SEGMENT_SIZE (drop (SEGMENT_SIZE * index) bytes.now) }
{
    let from = SEGMENT_SIZE * index;
    &bytes[from..bytes.len().min(from + SEGMENT_SIZE)]
}

/// Writes the offsets of segments into their list.
fn put_row(arena: &mut Arena, list: u32, segments: &[u32])
    requires few { length segments.now < 1073741824 }
    requires room { HasRoom (heap_of arena.old) list (4 * length segments.now) }
    ensures fills { Fills (heap_of arena.old) (heap_of arena.new) (list ∷ []) }
    ensures row { offsets_at (length segments.now) 0 (held (heap_of arena.new) list) ≡ segments.now }
    ensures long { length arena.new.bytes ≡ length arena.old.bytes }
{
    for index in 0..segments.len() {
        put_offset(arena, list, index as u32, segments[index]);
    }
}

/// Writes data into its segments.
fn put_pieces(arena: &mut Arena, segments: &[u32], bytes: &[u8])
    requires small { length bytes.now ≤ DATA_LIMIT }
    requires all { length bytes.now ≤ SEGMENT_SIZE * length segments.now }
    requires none_over { SEGMENT_SIZE * length segments.now < length bytes.now + SEGMENT_SIZE }
    requires once { (offset : ℕ) → times offset segments.now ≤ 1 }
    requires room { (index : ℕ) → index < length segments.now →
        HasRoom (heap_of arena.old) (get_or segments.now index 0)
        (length (take SEGMENT_SIZE (drop (SEGMENT_SIZE * index) bytes.now))) }
    ensures fills { Fills (heap_of arena.old) (heap_of arena.new) segments.now }
    ensures reads { (met : List Found) × (pieces_at (segments_of (length bytes.now) segments.now) (heap_of arena.new) ≡ Some (bytes.now, met)) }
    ensures long { length arena.new.bytes ≡ length arena.old.bytes }
{
    for index in 0..segments.len() {
        arena.write(segments[index], 0, piece(bytes, index));
    }
}

/// Writes data into new cells: a big data record's, its list's, and the segments'.
pub(crate) fn put_big(arena: &mut Arena, head: u32, list: u32, segments: &[u32], bytes: &[u8])
    requires size { (SEGMENT_SIZE < length bytes.now) × (length bytes.now ≤ DATA_LIMIT) }
    requires count { length segments.now ≡ segments_for_of (length bytes.now) }
    requires once { (offset : ℕ) → times offset (head ∷ list ∷ segments.now) ≤ 1 }
    requires head { HasRoom (heap_of arena.old) head 8 }
    requires list { HasRoom (heap_of arena.old) list (4 * length segments.now) }
    requires room { (index : ℕ) → index < length segments.now →
        HasRoom (heap_of arena.old) (get_or segments.now index 0)
        (length (take SEGMENT_SIZE (drop (SEGMENT_SIZE * index) bytes.now))) }
    ensures fills { Fills (heap_of arena.old) (heap_of arena.new) (head ∷ list ∷ segments.now) }
    ensures holds { HoldsData (heap_of arena.new) (length bytes.now) head bytes.now (head ∷ list ∷ segments.now) }
    ensures long { length arena.new.bytes ≡ length arena.old.bytes }
{
    let fields = BigFields {
        count: segments.len() as u16,
        list,
    };
    put_db(arena, head, &fields);
    put_row(arena, list, segments);
    put_pieces(arena, segments, bytes);
}

/// Frees the segments that a list names.
fn free_segments(arena: &mut Arena, list: u32, count: usize)
    requires few { count < 1073741824 }
    requires exists { IsSome (heap_of arena.old list) }
    requires long { 4 * count ≤ length (held (heap_of arena.old) list) }
    requires once { (offset : ℕ) → times offset (offsets_at count 0 (held (heap_of arena.old) list)) + times offset
        (list ∷ []) ≤ allocated (heap_of arena.old) offset }
    ensures gone { GivesUp (heap_of arena.old) (heap_of arena.new) (offsets_at count 0 (held (heap_of arena.old) list)) }
    ensures long { length arena.new.bytes ≡ length arena.old.bytes }
{
    for index in 0..count {
        let segment = offset_at(arena.content(list), index as u32);
        arena.free(segment);
    }
}

/// Frees a big data record, its list and its segments.
pub(crate) fn free_big(arena: &mut Arena, size: usize, cell: u32)
    requires size { size < 4294967296 }
    requires big { Owns (big_data_at size cell) (heap_of arena.old) }
    ensures gone { GivesUpRead (big_data_at size cell) (heap_of arena.old) (heap_of arena.new) }
    ensures long { length arena.new.bytes ≡ length arena.old.bytes }
{
    let list = big_at(arena, cell).list;
    free_segments(arena, list, segments_for(size));
    arena.free(list);
    arena.free(cell);
}
