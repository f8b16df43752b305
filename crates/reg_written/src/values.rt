//! A key's values.
//!
//! Suhanov, Windows registry file format specification, sections "Key values list", "Key value" and "Big data".

ghost use Rattle.std.specs.Prelude.{◌≡◌, ◌<◌, ◌≤◌, ◌==◌, nat_le, true, false, IsSome, length, drop};
ghost use Rattle.std.specs.List.{list_all};
ghost use Rattle.reg_arena.specs.Cells.{cell_at};
ghost use Rattle.reg_records.specs.BigData.{db_of, segments_for, inline_size, is_inline};
ghost use Rattle.reg_written.specs.Internal.KeyCells.{HasValue, HasValues};
ghost use Rattle.reg_written.specs.Internal.KeyTests.{has_zeros, has_segments, is_far, is_data, data_size as size_of, is_record, is_within, is_value, is_value_at, has_values};

use crate::content::{content, half_at};
use reg_records::{KeyFields, SEGMENT_SIZE, ValueFields, ValueRecord, offset_at, read_db, read_vk};

/// The bit of a size field that says that the data stands in the field of its offset.
const INLINE: u32 = 0x8000_0000;

/// How many bytes of data stand in that field at most.
const INLINE_LIMIT: u32 = 4;

/// Whether a byte is 0.
fn is_zero(byte: u8) -> bool
    ensures { result ≡ (byte == 0) }
{
    byte == 0
}

/// Whether all bytes are 0.
pub(crate) fn are_zero(bytes: &[u8]) -> bool
    ensures { result ≡ list_all (λ b. b == 0) bytes.now }
{
    bytes.iter().all(|byte| is_zero(*byte))
}

/// Whether the bytes of an offset's field that aren't data are 0.
fn is_padded(count: u32, offset: u32) -> bool
    requires { count ≤ 4 }
    ensures { result ≡ has_zeros count offset }
{
    let field = offset.to_le_bytes();
    are_zero(&field[count as usize..])
}

/// How many segments data of a size has.
#[tactic(auto, unfolding(reg_records::specs::BigData::segment_size))]
fn segments_of(size: u32) -> u32
    requires { size < 2147483648 }
    ensures { result ≡ segments_for size }
{
    let segment = SEGMENT_SIZE as u32;
    (size + (segment - 1)) / segment
}

/// Whether a big data record has just the segments that data of a size needs.
#[tactic(auto, unfolding(reg_records::specs::BigData::db_of))]
fn has_just_segments(cell: &[u8], size: u32) -> bool
    requires { size < 2147483648 }
    ensures { result ≡ has_segments (segments_for size) (db_of cell.now) }
{
    match read_db(cell) {
        Ok(big) => u32::from(big.count) == segments_of(size),
        Err(_) => false,
    }
}

/// Whether data that doesn't stand in its value has more than 4 bytes, and, where it has more than 16,344, just the segments that they
/// need.
#[tactic(auto, unfolding(reg_records::specs::BigData::segment_size))]
fn is_written_far(bins: &[u8], value: &ValueFields) -> bool
    requires small { value.now.size < 2147483648 }
    requires big { 16344 < value.now.size → IsSome (cell_at bins.now value.now.offset) }
    ensures { result ≡ is_far (cell_at bins.now) value.now }
{
    if value.size <= INLINE_LIMIT {
        return false;
    }
    if value.size as usize <= SEGMENT_SIZE {
        return true;
    }
    has_just_segments(content(bins, value.offset), value.size)
}

/// Whether a value's data is as this project writes it.
fn is_written_data(bins: &[u8], value: &ValueFields) -> bool
    requires inline { is_inline value.now.size ≡ true → nat_le (inline_size value.now.size) 4 ≡ true }
    requires big { is_inline value.now.size ≡ false → 16344 < value.now.size → IsSome (cell_at bins.now value.now.offset) }
    ensures { result ≡ is_data (cell_at bins.now) value.now }
{
    if value.size >= INLINE {
        return is_padded(value.size - INLINE, value.offset);
    }
    is_written_far(bins, value)
}

/// How many bytes of data a value has, by its size field.
fn data_size(size: u32) -> u32
    ensures { result ≡ size_of size }
{
    if size >= INLINE { size - INLINE } else { size }
}

/// Whether a value's record has 0 in its spare bytes, and says rightly whether it has a name.
fn is_written_record(cell: &[u8], value: &ValueRecord<'_>) -> bool
    requires { 20 ≤ length cell.now }
    ensures { result ≡ is_record cell.now (record { fields = value.now.fields; name = value.now.name.now }) }
{
    let flags = if value.name.is_empty() { 0 } else { 1 };
    half_at(cell, 18) == 0 && value.fields.flags == flags
}

/// Whether a value has no longer name, and no more data, than its key says that its values have.
fn is_within_largest(key: &KeyFields, value: &ValueRecord<'_>) -> bool
    ensures { result ≡ is_within key.now (record { fields = value.now.fields; name = value.now.name.now }) }
{
    value.name.len() <= key.largest_value_name as usize / 2
        && data_size(value.fields.size) <= key.largest_value_data
}

/// Whether a value, told with what its cell holds, is as this project writes it, and within what its key says of its values.
fn is_written_value(bins: &[u8], key: &KeyFields, cell: &[u8], value: &ValueRecord<'_>) -> bool
    requires long { 20 ≤ length cell.now }
    requires inline { is_inline value.now.fields.size ≡ true → nat_le (inline_size value.now.fields.size) 4 ≡ true }
    requires big { is_inline value.now.fields.size ≡ false → 16344 < value.now.fields.size →
        IsSome (cell_at bins.now value.now.fields.offset) }
    ensures { result ≡ is_value (cell_at bins.now) key.now cell.now (record { fields = value.now.fields; name = value.now.name.now }) }
{
    is_written_record(cell, value)
        && is_within_largest(key, value)
        && is_written_data(bins, &value.fields)
}

/// The same of the value at an offset.
fn is_written_at(bins: &[u8], key: &KeyFields, offset: u32) -> bool
    requires { HasValue (cell_at bins.now) offset }
    ensures { result ≡ is_value_at (cell_at bins.now) key.now offset }
{
    let cell = content(bins, offset);
    match read_vk(cell) {
        Ok(value) => is_written_value(bins, key, cell, &value),
        Err(_) => false,
    }
}

/// Whether each of a key's values is as this project writes it, and within what the key says of them.
pub fn are_written_values(bins: &[u8], key: &KeyFields) -> bool
    requires { HasValues (cell_at bins.now) key.now }
    ensures { result ≡ has_values (cell_at bins.now) key.now }
{
    if key.values == 0 {
        return true;
    }
    let row = content(bins, key.values_list);
    for index in 0..key.values {
        if !is_written_at(bins, key, offset_at(row, index)) {
            return false;
        }
    }
    true
}
