//! Key values.
//!
//! Suhanov, Windows registry file format specification, section "Key value".

ghost use Rattle.std.specs.Prelude.{◌≡◌, ◌+◌, ◌<◌, ◌^◌, ◌++◌, length, Ok, IsSome, MatchResult};
ghost use Rattle.byteorder.specs.Endian.{little_bytes};
ghost use Rattle.reg_arena.specs.Arena.{heap_of};
ghost use Rattle.reg_records.specs.RecordCells.{held, HasRoom, WritesRecord, WritesPart, Rereads};
ghost use Rattle.reg_records.specs.KeyValues.{FitValue, KeyValueRecord, vk_of, vk_head, vk_bytes, value_record_at, IsPlainValue};

use crate::cells::{write_part, write_record};
use crate::{RecordFault, half_at, half_bytes, is_signed, word_at, word_bytes};
use reg_arena::Arena;

/// The length of a key value before its name, in bytes.
const HEAD: usize = 20;

/// What a key value holds beside its name.
#[derive(Clone, Copy, Debug, PartialEq, Eq)]
pub struct ValueFields {
    /// The size of the data in bytes; with the top bit 0x80000000 the data stands in `offset`.
    pub size: u32,
    /// The offset of the data, or the data itself.
    pub offset: u32,
    /// The type of the data.
    pub kind: u32,
    /// The flags.
    pub flags: u16,
}

/// A key value as it is read.
#[derive(Clone, Copy, Debug)]
pub struct ValueRecord<'a> {
    /// Its fixed part.
    pub fields: ValueFields,
    /// The bytes of its name.
    pub name: &'a [u8],
}

/// How long the parts of a key value are.
#[derive(Clone, Copy, Debug, PartialEq, Eq)]
pub struct ValueLengths {
    /// The length of its name in bytes.
    pub name: u16,
    /// The size of its data in bytes; with the top bit 0x80000000 the data stands in the record.
    pub size: u32,
}

/// Reads a key value from the start of what a cell holds. The spare bytes are not looked at.
///
/// `Short` is for less than 20 bytes, `Signature` where they don't begin with `vk`, and `Length`
/// where the name would pass the end.
#[tactic(auto, unfolding(crate::specs::KeyValues::vk_of))]
pub fn read_vk(content: &[u8]) -> Result<ValueRecord<'_>, RecordFault>
    ensures { MatchResult result (λ read. vk_of content.now ≡ Ok (record { fields = read.fields; name = read.name.now }))
        (λ fault. vk_of content.now ≡ Err fault) }
{
    if content.len() < HEAD {
        return Err(RecordFault::Short);
    }
    if !is_signed(content, b'v', b'k') {
        return Err(RecordFault::Signature);
    }
    let length = usize::from(half_at(content, 2));
    if content.len() < HEAD + length {
        return Err(RecordFault::Length);
    }
    Ok(ValueRecord {
        fields: ValueFields {
            size: word_at(content, 4),
            offset: word_at(content, 8),
            kind: word_at(content, 12),
            flags: half_at(content, 16),
        },
        name: &content[HEAD..HEAD + length],
    })
}

/// The name of a key value, from the start of what a cell holds that is known to read as one: nothing but its length is looked at.
pub fn vk_name(content: &[u8]) -> &[u8]
    requires { (record_is : KeyValueRecord) × (vk_of content.now ≡ Ok record_is) }
    ensures { (record_is : KeyValueRecord) → vk_of content.now ≡ Ok record_is → result.now ≡ record_is.name }
{
    let length = usize::from(half_at(content, 2));
    &content[HEAD..HEAD + length]
}

/// How long the parts of a key value are, from the start of what a cell holds that is known to read as one: nothing else is looked at.
pub fn vk_lengths(content: &[u8]) -> ValueLengths
    requires { (record_is : KeyValueRecord) × (vk_of content.now ≡ Ok record_is) }
    ensures name { (record_is : KeyValueRecord) → vk_of content.now ≡ Ok record_is → result.name ≡ length record_is.name }
    ensures size { (record_is : KeyValueRecord) → vk_of content.now ≡ Ok record_is → result.size ≡ record_is.fields.size }
{
    let name = half_at(content, 2);
    let size = word_at(content, 4);
    ValueLengths { name, size }
}

/// The fixed part as it is written.
fn head(fields: &ValueFields, name_length: u16) -> [u8; HEAD]
    ensures bytes { result ≡ vk_head fields.now name_length }
    ensures fits { FitValue fields.now }
{
    let [n0, n1] = half_bytes(name_length);
    let [s0, s1, s2, s3] = word_bytes(fields.size);
    let [p0, p1, p2, p3] = word_bytes(fields.offset);
    let [k0, k1, k2, k3] = word_bytes(fields.kind);
    let [f0, f1] = half_bytes(fields.flags);
    [
        b'v', b'k', n0, n1, s0, s1, s2, s3, p0, p1, p2, p3, k0, k1, k2, k3, f0, f1, 0, 0,
    ]
}

/// Writes a key value at the start of what a cell holds. What follows it there stays.
///
/// The spare bytes are written as 0.
pub fn put_vk(arena: &mut Arena, cell: u32, fields: &ValueFields, name: &[u8])
    requires room { HasRoom (heap_of arena.old) cell (20 + length name.now) }
    requires name { length name.now < 2 ^ 16 }
    ensures written { WritesRecord arena.old arena.new cell (20 + length name.now) (vk_bytes fields.now name.now) }
    ensures reads { value_record_at (heap_of arena.new) cell ≡ Some (record { fields = fields.now; name = name.now }) }
    ensures plain { IsPlainValue (held (heap_of arena.new) cell) }
{
    let head = head(fields, name.len() as u16);
    write_record(arena, cell, &head, name);
}

/// Writes the size of a key value's data with its top bit, the offset of the data or the data
/// itself, and its type.
pub fn set_data(arena: &mut Arena, cell: u32, size: u32, offset: u32, kind: u32)
    requires { IsSome (value_record_at (heap_of arena.old) cell) }
    ensures written { WritesPart arena.old arena.new cell 4 (little_bytes 4 size ++ little_bytes 4 offset ++ little_bytes 4 kind) }
    ensures reads { Rereads value_record_at arena.old arena.new cell
        (λ r. record r { fields = record r.fields { size = size; offset = offset; kind = kind } }) }
    ensures plain { IsPlainValue (held (heap_of arena.old) cell) → IsPlainValue (held (heap_of arena.new) cell) }
{
    let [s0, s1, s2, s3] = word_bytes(size);
    let [p0, p1, p2, p3] = word_bytes(offset);
    let [k0, k1, k2, k3] = word_bytes(kind);
    let bytes = [s0, s1, s2, s3, p0, p1, p2, p3, k0, k1, k2, k3];
    write_part(arena, cell, 4, &bytes);
}
