//! A value's data told as a line.
ghost use Rattle.std.specs.Prelude.{◌≡◌, ◌++◌, IfOk, Some, codes, string_bytes};
ghost use Rattle.std.specs.Fmt.{decimal};
ghost use Rattle.std.specs.Option.{option_map, option_and_then};
ghost use Rattle.reg_text.specs.Texts.{digits_text};
ghost use Rattle.reg_tree_text.specs.ValueTexts.{units_of as units_in, unended as without_end, string_text, strings_text, form_text, value_told};

use crate::units::{spell_string, spell_strings, unended, units_of};
use byteorder::{BigEndian, ByteOrder, LittleEndian};
use reg_text::write_digits;
use std::alloc::{AllocError, Global};

/// The type of a string (Win32, `REG_SZ`).
pub const STRING: u32 = 1;

/// The type of a string with names of variables (Win32, `REG_EXPAND_SZ`).
pub const EXPANDABLE: u32 = 2;

/// The type of a number of 4 bytes, the low one first (Win32, `REG_DWORD`).
pub const NUMBER: u32 = 4;

/// The type of a number of 4 bytes, the high one first (Win32, `REG_DWORD_BIG_ENDIAN`).
pub const BIG_NUMBER: u32 = 5;

/// The type of a link's target (Win32, `REG_LINK`).
pub const LINK: u32 = 6;

/// The type of several strings (Win32, `REG_MULTI_SZ`).
pub const STRINGS: u32 = 7;

/// The type of a number of 8 bytes, the low one first (Win32, `REG_QWORD`).
pub const LONG_NUMBER: u32 = 11;

/// A number in decimal.
fn number_text(alloc: Global, number: u64) -> Result<Option<String>, AllocError>
    ensures { IfOk result (λ text. option_map string_bytes text ≡ Some (decimal number)) }
{
    let mut text = String::new(alloc);
    write!(text, "{number}")?;
    Ok(Some(text))
}

/// The text of a string's bytes.
fn string_of(alloc: Global, bytes: &[u8]) -> Result<Option<String>, AllocError>
    ensures { IfOk result (λ text. option_map string_bytes text ≡ option_and_then (λ units. string_text (without_end units)) (units_in bytes.now)) }
{
    match units_of(alloc, bytes)? {
        Some(units) => spell_string(alloc, unended(&units)),
        None => Ok(None),
    }
}

/// The text of the bytes of several strings.
fn strings_of(alloc: Global, bytes: &[u8]) -> Result<Option<String>, AllocError>
    ensures { IfOk result (λ text. option_map string_bytes text ≡ option_and_then (λ units. strings_text (without_end (without_end units))) (units_in bytes.now)) }
{
    match units_of(alloc, bytes)? {
        Some(units) => spell_strings(alloc, unended(unended(&units))),
        None => Ok(None),
    }
}

/// The text of data in the form of its type; `None` of data in another form, and of a type that has none.
#[tactic(auto, unfolding(crate::specs::ValueTexts::form_text))]
fn text_in_form(alloc: Global, kind: u32, bytes: &[u8]) -> Result<Option<String>, AllocError>
    ensures { IfOk result (λ text. option_map string_bytes text ≡ form_text kind bytes.now) }
{
    if kind == STRING || kind == EXPANDABLE || kind == LINK {
        return string_of(alloc, bytes);
    }
    if kind == STRINGS {
        return strings_of(alloc, bytes);
    }
    if kind == NUMBER && bytes.len() == 4 {
        return number_text(alloc, u64::from(LittleEndian::read_u32(bytes)));
    }
    if kind == BIG_NUMBER && bytes.len() == 4 {
        return number_text(alloc, u64::from(BigEndian::read_u32(bytes)));
    }
    if kind == LONG_NUMBER && bytes.len() == 8 {
        return number_text(alloc, LittleEndian::read_u64(bytes));
    }
    Ok(None)
}

/// Bytes as `hex:` and two digits each, in lower case.
fn hex_text(alloc: Global, bytes: &[u8]) -> Result<String, AllocError>
    ensures { IfOk result (λ text. string_bytes text ≡ codes "hex:" ++ digits_text bytes.now) }
{
    let mut text = String::new(alloc);
    text.push_str("hex:")?;
    write_digits(alloc, &mut text, bytes)?;
    Ok(text)
}

/// The data of a value of a type as one line, without its LF: a string's text, with the zero at its end left out; several strings
/// with a tab between each two; a number in decimal; and of each other type, or of data that isn't in the form of its type, `hex:` and
/// two digits a byte, in lower case. A text that isn't well-formed UTF-16 or has a control character isn't in its form. The one fault
/// is that memory was refused.
pub fn value_text(alloc: Global, kind: u32, bytes: &[u8]) -> Result<String, AllocError>
    ensures { IfOk result (λ text. string_bytes text ≡ value_told kind bytes.now) }
{
    match text_in_form(alloc, kind, bytes)? {
        Some(text) => Ok(text),
        None => hex_text(alloc, bytes),
    }
}
