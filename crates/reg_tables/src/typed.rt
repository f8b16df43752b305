//! A value told with its type.
ghost use Rattle.std.specs.Prelude.{◌≡◌, IfOk, string_bytes};
ghost use Rattle.std.specs.Option.{option_map};
ghost use Rattle.reg_tables.specs.TypedValues.{type_word as word_of, type_text as text_of_type, number_of, hex_told, typed_told};

use crate::form::{BIG_NUMBER, LONG_NUMBER, NUMBER};
use crate::time::number_text;
use crate::told_form::told_form;
use byteorder::{BigEndian, ByteOrder, LittleEndian};
use reg_tree_text::value_text;
use std::alloc::{AllocError, Global};

/// The word by which a change names a type; `None` of a type that it names by its number.
#[tactic(auto, unfolding(crate::specs::TypedValues::type_word))]
fn type_word(kind: u32) -> Option<&'static str>
    ensures { option_map (λ word. word.now) result ≡ word_of kind }
{
    if kind == 0 {
        return Some("none");
    }
    if kind == 1 {
        return Some("sz");
    }
    if kind == 2 {
        return Some("expand");
    }
    if kind == 3 {
        return Some("binary");
    }
    if kind == 4 {
        return Some("dword");
    }
    if kind == 7 {
        return Some("multi");
    }
    if kind == 11 {
        return Some("qword");
    }
    None
}

/// A type by its word, or by its number.
fn type_text(alloc: Global, kind: u32) -> Result<String, AllocError>
    ensures { IfOk result (λ text. string_bytes text ≡ text_of_type kind) }
{
    match type_word(kind) {
        Some(word) => String::from_str(alloc, word),
        None => number_text(alloc, u64::from(kind)),
    }
}

/// The number that data are; `None` where they aren't in the form of one.
#[tactic(auto, unfolding(crate::specs::TypedValues::number_of))]
fn number_in(kind: u32, bytes: &[u8]) -> Option<u64>
    ensures { result ≡ number_of kind bytes.now }
{
    if kind == NUMBER && bytes.len() == 4 {
        return Some(u64::from(LittleEndian::read_u32(bytes)));
    }
    if kind == BIG_NUMBER && bytes.len() == 4 {
        return Some(u64::from(BigEndian::read_u32(bytes)));
    }
    if kind == LONG_NUMBER && bytes.len() == 8 {
        return Some(LittleEndian::read_u64(bytes));
    }
    None
}

/// A number in hexadecimal, behind the same one in decimal.
fn hex_text(alloc: Global, number: Option<u64>) -> Result<String, AllocError>
    ensures { IfOk result (λ text. string_bytes text ≡ hex_told number) }
{
    match number {
        Some(number) => format!(in alloc; " 0x{number:x}"),
        None => Ok(String::new(alloc)),
    }
}

/// The type of a value, the form of its data, and these.
#[tactic(auto, unfolding(crate::specs::TypedValues::typed_told))]
pub fn typed_text(alloc: Global, kind: u32, bytes: &[u8]) -> Result<String, AllocError>
    ensures { IfOk result (λ text. string_bytes text ≡ typed_told kind bytes.now) }
{
    let word = type_text(alloc, kind)?;
    let form = told_form(alloc, kind, bytes)?;
    let data = value_text(alloc, kind, bytes)?;
    let hex = hex_text(alloc, number_in(kind, bytes))?;
    format!(in alloc; "{word} {form} {data}{hex}")
}
