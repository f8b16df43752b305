//! The records of a registry hive: key nodes, key values, key securities, big data records, lists of subkeys and rows of
//! offsets, one at a time.
//!
//! Its one contract: what is put reads back as itself, a field writer changes its one field, and a reader tells the first fault
//! that holds. What records say of one another is reg_shape's. It stands on reg_arena: a record stands at the start of what its
//! cell holds, and the cell may be longer than the record. All numbers are little endian.
//!
//! Its main types are [`KeyNode`], [`ValueRecord`], [`SecurityRecord`], [`BigFields`], [`ListForm`] and [`RecordFault`].
//!
//! Suhanov, Windows registry file format specification, sections "Key node", "Key value", "Key security", "Subkeys list",
//! "Key values list" and "Big data".
#![tactic(auto)]

ghost use Rattle.std.specs.Prelude.{◌≡◌, ◌+◌, ◌^◌, ◌<◌, ◌≤◌, length};
ghost use Rattle.byteorder.specs.Endian.{little_bytes};
ghost use Rattle.reg_heap.specs.ByteWords.{half, word, long};
ghost use Rattle.reg_records.specs.Letters.{is_signed as is_signed_of};

use byteorder::{ByteOrder, LittleEndian};
use thiserror::Error;

mod cells;
mod db;
mod lists;
mod nk;
mod rows;
mod sk;
mod vk;

pub use db::{BigFields, SEGMENT_SIZE, put_db, read_db};
pub use lists::{
    ListEntry, ListForm, ListHead, entry_at, put_entry, put_head, put_list, read_list,
};
pub use nk::{
    KeyFields, KeyNode, nk_fields, nk_name, nk_name_length, put_nk, read_nk,
    set_largest_subkey_name, set_largest_value_data, set_largest_value_name, set_security,
    set_subkeys, set_subkeys_list, set_time, set_values,
};
pub use rows::{offset_at, put_offset};
pub use sk::{
    SecurityFields, SecurityRecord, put_sk, read_sk, set_blink, set_flink, set_security_count,
};
pub use vk::{
    ValueFields, ValueLengths, ValueRecord, put_vk, read_vk, set_data, vk_lengths, vk_name,
};

/// Why the content of a cell is no record: the first that holds, in this order.
#[derive(Clone, Copy, Debug, PartialEq, Eq, Error)]
pub enum RecordFault {
    /// The content is shorter than the record's fixed part.
    #[error("the cell is too short for the record")]
    Short,
    /// The content doesn't begin with the record's two letters.
    #[error("the record has another signature")]
    Signature,
    /// A length in the record passes the end of the content.
    #[error("a length in the record passes the end of its cell")]
    Length,
    /// A key node has the flag 0x40, of a key on a predefined handle.
    #[error("the key node has a flag that is not supported")]
    NotInProfile,
}

/// Whether the content begins with these two letters.
fn is_signed(content: &[u8], first: u8, second: u8) -> bool
    requires { 2 ≤ length content.now }
    ensures { result ≡ is_signed_of first second content.now }
{
    content[0] == first && content[1] == second
}

/// The 16-bit number at an offset.
#[tactic(auto, unfolding(reg_heap::specs::ByteWords::half))]
fn half_at(content: &[u8], at: usize) -> u16
    requires { at + 2 ≤ length content.now }
    ensures { result ≡ half content.now at }
{
    LittleEndian::read_u16(&content[at..])
}

/// The 32-bit number at an offset.
#[tactic(auto, unfolding(reg_heap::specs::ByteWords::word))]
fn word_at(content: &[u8], at: usize) -> u32
    requires { at + 4 ≤ length content.now }
    ensures { result ≡ word content.now at }
{
    LittleEndian::read_u32(&content[at..])
}

/// The 64-bit number at an offset.
#[tactic(auto, unfolding(reg_heap::specs::ByteWords::long))]
fn long_at(content: &[u8], at: usize) -> u64
    requires { at + 8 ≤ length content.now }
    ensures { result ≡ long content.now at }
{
    LittleEndian::read_u64(&content[at..])
}

/// The bytes of a 16-bit number, the lowest first.
fn half_bytes(number: u16) -> [u8; 2]
    ensures bytes { result ≡ little_bytes 2 number }
    ensures fits { number < 2 ^ 16 }
{
    number.to_le_bytes()
}

/// The bytes of a 32-bit number, the lowest first.
fn word_bytes(number: u32) -> [u8; 4]
    ensures bytes { result ≡ little_bytes 4 number }
    ensures fits { number < 2 ^ 32 }
{
    number.to_le_bytes()
}

/// The bytes of a 64-bit number, the lowest first.
fn long_bytes(number: u64) -> [u8; 8]
    ensures bytes { result ≡ little_bytes 8 number }
    ensures fits { number < 2 ^ 64 }
{
    number.to_le_bytes()
}
