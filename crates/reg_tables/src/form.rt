//! The data of a value in the form of its type.
ghost use Rattle.std.specs.Prelude.{◌≡◌, IfOk, OnOk, Some};
ghost use Rattle.std.specs.Fmt.{decimal};
ghost use Rattle.std.specs.Option.{option_map};
ghost use Rattle.reg_tables.specs.ValueForms.{string_form, strings_form, form_data, data_of};
ghost use Rattle.serde_json.specs.Data.{string};
ghost use Rattle.serde_json.specs.Events.{SendsValue};
ghost use Rattle.reg_tables.specs.Internal.Entries.{texts_view, form_view};

use crate::time::number_text;
use crate::units::{spell_string, spell_strings, units_of};
use byteorder::{BigEndian, ByteOrder, LittleEndian};
use serde::{Described, Serialize, Serializer};
use std::alloc::{AllocError, Global};

/// The type of a string (Win32, `REG_SZ`).
pub const STRING: u32 = 1;

/// The type of a string with names of variables (Win32, `REG_EXPAND_SZ`).
pub const EXPANDABLE: u32 = 2;

/// The type of a number of 4 bytes, the low one first (Win32, `REG_DWORD`).
pub const NUMBER: u32 = 4;

/// The type of a number of 4 bytes, the high one first (Win32, `REG_DWORD_BIG_ENDIAN`).
pub const BIG_NUMBER: u32 = 5;

/// The type of a link's target (Win32, `REG_LINK`).
pub const LINK: u32 = 6;

/// The type of several strings (Win32, `REG_MULTI_SZ`).
pub const STRINGS: u32 = 7;

/// The type of a number of 8 bytes, the low one first (Win32, `REG_QWORD`).
pub const LONG_NUMBER: u32 = 11;

/// The data of a value: a string, or a long number's digits; several strings; a number; or bytes as two digits each.
#[derive(Drop)]
pub enum ValueForm {
    Text(String),
    Texts(Vec<String>),
    Number(u64),
    Bytes(String),
}

/// Texts as a sequence.
fn send_texts<S: Serializer>(texts: &Vec<String>, out: &mut S) -> Result<(), S::Error>
    ensures { OnOk result (SendsValue (texts_view texts.now.items) (S.written out.old) (S.written out.new)) }
{
    texts.serialize(out)
}

impl Described for ValueForm {
    ghost writes = { λ f. SendsValue (form_view f) };
}

impl Serialize for ValueForm {
    fn serialize<S: Serializer>(&self, out: &mut S) -> Result<(), S::Error> {
        match self {
            ValueForm::Text(text) => out.str(text.as_str()),
            ValueForm::Texts(texts) => send_texts(texts, out),
            ValueForm::Number(number) => out.u64(*number),
            ValueForm::Bytes(digits) => {
                out.begin_map(Some(1))?;
                out.key("hex")?;
                out.str(digits.as_str())?;
                out.end_map()
            }
        }
    }
}

/// A string's data; `None` where its bytes aren't in its form.
fn string_of(alloc: Global, bytes: &[u8]) -> Result<Option<ValueForm>, AllocError>
    ensures { IfOk result (λ form. option_map form_view form ≡ string_form bytes.now) }
{
    let Some(units) = units_of(alloc, bytes)? else {
        return Ok(None);
    };
    match spell_string(alloc, &units)? {
        Some(text) => Ok(Some(ValueForm::Text(text))),
        None => Ok(None),
    }
}

/// The data of several strings; `None` where the bytes aren't in their form.
fn strings_of(alloc: Global, bytes: &[u8]) -> Result<Option<ValueForm>, AllocError>
    ensures { IfOk result (λ form. option_map form_view form ≡ strings_form bytes.now) }
{
    let Some(units) = units_of(alloc, bytes)? else {
        return Ok(None);
    };
    match spell_strings(alloc, &units)? {
        Some(texts) => Ok(Some(ValueForm::Texts(texts))),
        None => Ok(None),
    }
}

/// A number as a string of its digits.
fn digits_of(alloc: Global, number: u64) -> Result<Option<ValueForm>, AllocError>
    ensures { IfOk result (λ form. option_map form_view form ≡ Some (string (decimal number))) }
{
    Ok(Some(ValueForm::Text(number_text(alloc, number)?)))
}

/// Data in the form of its type; `None` of data in another form, and of a type that has none.
#[tactic(auto, unfolding(crate::specs::ValueForms::form_data))]
fn formed(alloc: Global, kind: u32, bytes: &[u8]) -> Result<Option<ValueForm>, AllocError>
    ensures { IfOk result (λ form. option_map form_view form ≡ form_data kind bytes.now) }
{
    if kind == STRING || kind == EXPANDABLE || kind == LINK {
        return string_of(alloc, bytes);
    }
    if kind == STRINGS {
        return strings_of(alloc, bytes);
    }
    if kind == NUMBER && bytes.len() == 4 {
        return Ok(Some(ValueForm::Number(u64::from(LittleEndian::read_u32(bytes)))));
    }
    if kind == BIG_NUMBER && bytes.len() == 4 {
        return Ok(Some(ValueForm::Number(u64::from(BigEndian::read_u32(bytes)))));
    }
    if kind == LONG_NUMBER && bytes.len() == 8 {
        return digits_of(alloc, LittleEndian::read_u64(bytes));
    }
    Ok(None)
}

/// The data of a value of a type: in the form of its type, or all of its bytes.
pub fn form_of(alloc: Global, kind: u32, bytes: &[u8]) -> Result<ValueForm, AllocError>
    ensures { IfOk result (λ form. form_view form ≡ data_of kind bytes.now) }
{
    match formed(alloc, kind, bytes)? {
        Some(form) => Ok(form),
        None => Ok(ValueForm::Bytes(hex::encode(alloc, bytes)?)),
    }
}
