//! Key nodes.
//!
//! Suhanov, Windows registry file format specification, section "Key node".

ghost use Rattle.std.specs.Prelude.{◌≡◌, ◌+◌, ◌<◌, ◌≤◌, ◌^◌, ◌++◌, length, Ok, IsSome, MatchResult, IsTrue};
ghost use Rattle.byteorder.specs.Endian.{little_bytes};
ghost use Rattle.reg_arena.specs.Arena.{heap_of};
ghost use Rattle.reg_records.specs.RecordCells.{held, HasRoom, WritesRecord, WritesPart, Rereads};
ghost use Rattle.reg_records.specs.KeyNodes.{FitKey, KeyRecord, is_in_profile, nk_of, nk_fields_of, nk_head, nk_bytes, key_at, IsPlainKey};

use crate::cells::{write_part, write_record};
use crate::{
    RecordFault, half_at, half_bytes, is_signed, long_at, long_bytes, word_at, word_bytes,
};
use reg_arena::Arena;

/// The length of a key node before its name, in bytes.
const HEAD: usize = 76;

/// The flag of a key node that stands for a predefined handle; such a node isn't read.
const PREDEFINED: u16 = 0x40;

/// What a key node holds beside its name. Lengths and sizes are in bytes.
#[derive(Clone, Copy, Debug, PartialEq, Eq)]
pub struct KeyFields {
    /// The flags.
    pub flags: u16,
    /// The last write time, in units of 100 nanoseconds since 1601.
    pub time: u64,
    /// The offset of the parent's key node.
    pub parent: u32,
    /// How many subkeys there are.
    pub subkeys: u32,
    /// The offset of the list of subkeys.
    pub subkeys_list: u32,
    /// How many values there are.
    pub values: u32,
    /// The offset of the list of values.
    pub values_list: u32,
    /// The offset of the key security.
    pub security: u32,
    /// The offset of the class name.
    pub class: u32,
    /// The length of the class name.
    pub class_length: u16,
    /// The largest length of a subkey's name.
    pub largest_subkey_name: u32,
    /// The largest length of a subkey's class name.
    pub largest_subkey_class: u32,
    /// The largest length of a value's name.
    pub largest_value_name: u32,
    /// The largest size of a value's data.
    pub largest_value_data: u32,
}

/// A key node as it is read.
#[derive(Clone, Copy, Debug)]
pub struct KeyNode<'a> {
    /// Its fixed part.
    pub fields: KeyFields,
    /// The bytes of its name.
    pub name: &'a [u8],
}

/// The fields of a key node's fixed part.
fn fields_at(content: &[u8]) -> KeyFields
    requires { 76 ≤ length content.now }
    ensures { result ≡ nk_fields_of content.now }
{
    KeyFields {
        flags: half_at(content, 2),
        time: long_at(content, 4),
        parent: word_at(content, 16),
        subkeys: word_at(content, 20),
        subkeys_list: word_at(content, 28),
        values: word_at(content, 36),
        values_list: word_at(content, 40),
        security: word_at(content, 44),
        class: word_at(content, 48),
        class_length: half_at(content, 74),
        largest_subkey_name: word_at(content, 52),
        largest_subkey_class: word_at(content, 56),
        largest_value_name: word_at(content, 60),
        largest_value_data: word_at(content, 64),
    }
}

/// Reads a key node from the start of what a cell holds.
///
/// The access bits, the number and list of volatile subkeys and WorkVar are not looked at.
///
/// `Short` is for less than 76 bytes, `Signature` where they don't begin with `nk`, `Length` where
/// the name would pass the end, and `NotInProfile` where the flags have 0x40.
#[tactic(auto, unfolding(crate::specs::KeyNodes::nk_of))]
pub fn read_nk(content: &[u8]) -> Result<KeyNode<'_>, RecordFault>
    ensures { MatchResult result (λ read. nk_of content.now ≡ Ok (record { fields = read.fields; name = read.name.now }))
        (λ fault. nk_of content.now ≡ Err fault) }
{
    if content.len() < HEAD {
        return Err(RecordFault::Short);
    }
    if !is_signed(content, b'n', b'k') {
        return Err(RecordFault::Signature);
    }
    let length = usize::from(half_at(content, 72));
    if content.len() < HEAD + length {
        return Err(RecordFault::Length);
    }
    let fields = fields_at(content);
    if fields.flags & PREDEFINED != 0 {
        return Err(RecordFault::NotInProfile);
    }
    let name = &content[HEAD..HEAD + length];
    Ok(KeyNode { fields, name })
}

/// The fixed part of a key node, from the start of what a cell holds that is known to read as one: nothing is tested.
pub fn nk_fields(content: &[u8]) -> KeyFields
    requires { (record_is : KeyRecord) × (nk_of content.now ≡ Ok record_is) }
    ensures { (record_is : KeyRecord) → nk_of content.now ≡ Ok record_is → result ≡ record_is.fields }
{
    fields_at(content)
}

/// The name of a key node, from the start of what a cell holds that is known to read as one: nothing but its length is looked at.
pub fn nk_name(content: &[u8]) -> &[u8]
    requires { (record_is : KeyRecord) × (nk_of content.now ≡ Ok record_is) }
    ensures { (record_is : KeyRecord) → nk_of content.now ≡ Ok record_is → result.now ≡ record_is.name }
{
    let length = usize::from(half_at(content, 72));
    &content[HEAD..HEAD + length]
}

/// The length of a key node's name, from the start of what a cell holds that is known to read as one: nothing else is looked at.
pub fn nk_name_length(content: &[u8]) -> u16
    requires { (record_is : KeyRecord) × (nk_of content.now ≡ Ok record_is) }
    ensures { (record_is : KeyRecord) → nk_of content.now ≡ Ok record_is → result ≡ length record_is.name }
{
    half_at(content, 72)
}

/// The fixed part as it is written.
fn head(fields: &KeyFields, name_length: u16) -> [u8; HEAD]
    ensures bytes { result ≡ nk_head fields.now name_length }
    ensures fits { FitKey fields.now }
{
    let [f0, f1] = half_bytes(fields.flags);
    let [t0, t1, t2, t3, t4, t5, t6, t7] = long_bytes(fields.time);
    let [p0, p1, p2, p3] = word_bytes(fields.parent);
    let [k0, k1, k2, k3] = word_bytes(fields.subkeys);
    let [l0, l1, l2, l3] = word_bytes(fields.subkeys_list);
    let [v0, v1, v2, v3] = word_bytes(fields.values);
    let [w0, w1, w2, w3] = word_bytes(fields.values_list);
    let [s0, s1, s2, s3] = word_bytes(fields.security);
    let [c0, c1, c2, c3] = word_bytes(fields.class);
    let [a0, a1, a2, a3] = word_bytes(fields.largest_subkey_name);
    let [b0, b1, b2, b3] = word_bytes(fields.largest_subkey_class);
    let [d0, d1, d2, d3] = word_bytes(fields.largest_value_name);
    let [e0, e1, e2, e3] = word_bytes(fields.largest_value_data);
    let [n0, n1] = half_bytes(name_length);
    let [g0, g1] = half_bytes(fields.class_length);
    [
        b'n', b'k', f0, f1, t0, t1, t2, t3, t4, t5, t6, t7, 0, 0, 0, 0, p0, p1, p2, p3, k0, k1, k2,
        k3, 0, 0, 0, 0, l0, l1, l2, l3, 255, 255, 255, 255, v0, v1, v2, v3, w0, w1, w2, w3, s0, s1,
        s2, s3, c0, c1, c2, c3, a0, a1, a2, a3, b0, b1, b2, b3, d0, d1, d2, d3, e0, e1, e2, e3, 0,
        0, 0, 0, n0, n1, g0, g1,
    ]
}

/// Writes a key node at the start of what a cell holds. What follows it there stays.
///
/// The access bits, the number of volatile subkeys and WorkVar are written as 0, and the list of
/// volatile subkeys as 0xFFFFFFFF. Flags with 0x40 would not be read back, so they can't be
/// written.
pub fn put_nk(arena: &mut Arena, cell: u32, fields: &KeyFields, name: &[u8])
    requires room { HasRoom (heap_of arena.old) cell (76 + length name.now) }
    requires name { length name.now < 2 ^ 16 }
    requires profile { IsTrue (is_in_profile fields.now.flags) }
    ensures written { WritesRecord arena.old arena.new cell (76 + length name.now) (nk_bytes fields.now name.now) }
    ensures reads { key_at (heap_of arena.new) cell ≡ Some (record { fields = fields.now; name = name.now }) }
    ensures plain { IsPlainKey (held (heap_of arena.new) cell) }
{
    let head = head(fields, name.len() as u16);
    write_record(arena, cell, &head, name);
}

/// Writes the last write time of a key node, in units of 100 nanoseconds since 1601.
pub fn set_time(arena: &mut Arena, cell: u32, time: u64)
    requires { IsSome (key_at (heap_of arena.old) cell) }
    ensures written { WritesPart arena.old arena.new cell 4 (little_bytes 8 time) }
    ensures reads { Rereads key_at arena.old arena.new cell (λ r. record r { fields = record r.fields { time = time } }) }
    ensures plain { IsPlainKey (held (heap_of arena.old) cell) → IsPlainKey (held (heap_of arena.new) cell) }
{
    write_part(arena, cell, 4, &long_bytes(time));
}

/// Writes how many subkeys a key node has.
pub fn set_subkeys(arena: &mut Arena, cell: u32, subkeys: u32)
    requires { IsSome (key_at (heap_of arena.old) cell) }
    ensures written { WritesPart arena.old arena.new cell 20 (little_bytes 4 subkeys) }
    ensures reads { Rereads key_at arena.old arena.new cell (λ r. record r { fields = record r.fields { subkeys = subkeys } }) }
    ensures plain { IsPlainKey (held (heap_of arena.old) cell) → IsPlainKey (held (heap_of arena.new) cell) }
{
    write_part(arena, cell, 20, &word_bytes(subkeys));
}

/// Writes the offset of the list of a key node's subkeys.
pub fn set_subkeys_list(arena: &mut Arena, cell: u32, list: u32)
    requires { IsSome (key_at (heap_of arena.old) cell) }
    ensures written { WritesPart arena.old arena.new cell 28 (little_bytes 4 list) }
    ensures reads { Rereads key_at arena.old arena.new cell (λ r. record r { fields = record r.fields { subkeys_list = list } }) }
    ensures plain { IsPlainKey (held (heap_of arena.old) cell) → IsPlainKey (held (heap_of arena.new) cell) }
{
    write_part(arena, cell, 28, &word_bytes(list));
}

/// Writes the largest length of a subkey's name, as the key node counts it: two for each character.
pub fn set_largest_subkey_name(arena: &mut Arena, cell: u32, largest: u32)
    requires { IsSome (key_at (heap_of arena.old) cell) }
    ensures written { WritesPart arena.old arena.new cell 52 (little_bytes 4 largest) }
    ensures reads { Rereads key_at arena.old arena.new cell (λ r. record r { fields = record r.fields { largest_subkey_name = largest } }) }
    ensures plain { IsPlainKey (held (heap_of arena.old) cell) → IsPlainKey (held (heap_of arena.new) cell) }
{
    write_part(arena, cell, 52, &word_bytes(largest));
}

/// Writes how many values a key node has, and the offset of their list.
pub fn set_values(arena: &mut Arena, cell: u32, values: u32, values_list: u32)
    requires { IsSome (key_at (heap_of arena.old) cell) }
    ensures written { WritesPart arena.old arena.new cell 36 (little_bytes 4 values ++ little_bytes 4 values_list) }
    ensures reads { Rereads key_at arena.old arena.new cell (λ r. record r { fields = record r.fields { values = values; values_list = values_list } }) }
    ensures plain { IsPlainKey (held (heap_of arena.old) cell) → IsPlainKey (held (heap_of arena.new) cell) }
{
    let [v0, v1, v2, v3] = word_bytes(values);
    let [l0, l1, l2, l3] = word_bytes(values_list);
    write_part(arena, cell, 36, &[v0, v1, v2, v3, l0, l1, l2, l3]);
}

/// Writes the offset of the key security that a key node names.
pub fn set_security(arena: &mut Arena, cell: u32, security: u32)
    requires { IsSome (key_at (heap_of arena.old) cell) }
    ensures written { WritesPart arena.old arena.new cell 44 (little_bytes 4 security) }
    ensures reads { Rereads key_at arena.old arena.new cell (λ r. record r { fields = record r.fields { security = security } }) }
    ensures plain { IsPlainKey (held (heap_of arena.old) cell) → IsPlainKey (held (heap_of arena.new) cell) }
{
    write_part(arena, cell, 44, &word_bytes(security));
}

/// Writes the largest length of a value's name, in bytes.
pub fn set_largest_value_name(arena: &mut Arena, cell: u32, largest: u32)
    requires { IsSome (key_at (heap_of arena.old) cell) }
    ensures written { WritesPart arena.old arena.new cell 60 (little_bytes 4 largest) }
    ensures reads { Rereads key_at arena.old arena.new cell (λ r. record r { fields = record r.fields { largest_value_name = largest } }) }
    ensures plain { IsPlainKey (held (heap_of arena.old) cell) → IsPlainKey (held (heap_of arena.new) cell) }
{
    write_part(arena, cell, 60, &word_bytes(largest));
}

/// Writes the largest size of a value's data, in bytes.
pub fn set_largest_value_data(arena: &mut Arena, cell: u32, largest: u32)
    requires { IsSome (key_at (heap_of arena.old) cell) }
    ensures written { WritesPart arena.old arena.new cell 64 (little_bytes 4 largest) }
    ensures reads { Rereads key_at arena.old arena.new cell (λ r. record r { fields = record r.fields { largest_value_data = largest } }) }
    ensures plain { IsPlainKey (held (heap_of arena.old) cell) → IsPlainKey (held (heap_of arena.new) cell) }
{
    write_part(arena, cell, 64, &word_bytes(largest));
}
