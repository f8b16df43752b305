//! A value's entry.
ghost use Rattle.std.specs.Prelude.{◌≡◌, ◌<◌, false, [], ◌∷◌, ◌++◌, length, reverse, flat_map, codes, slice_index, string_bytes, OnOk, IfOk};
ghost use Rattle.std.specs.Fmt.{digits};
ghost use Rattle.std.specs.Option.{option_map};
ghost use Rattle.hex.specs.Hex.{lower_digits};
ghost use Rattle.reg_text.specs.Texts.{digits_text};
ghost use Rattle.reg_dotreg_writer.specs.EntryTexts.{quoted_unit, name_told, hex_rows, hex_head, plain_data, text_of_data};
ghost use Rattle.reg_dotreg_writer.specs.Internal.Pieces.{plain, comma_told, room_behind, text_pieces, data_pieces, entry_pieces};

use crate::encoding::{push_character, push_plain, push_units};
use crate::units::{quoted_units, string_text};
use std::alloc::{AllocError, Global};

/// The type of a string (Win32, `REG_SZ`).
pub const STRING: u32 = 1;

/// The type of bytes (Win32, `REG_BINARY`).
pub const BINARY: u32 = 3;

/// The type of a number of 4 bytes, the low one first (Win32, `REG_DWORD`).
pub const NUMBER: u32 = 4;

/// Appends a character between quotes, with a backslash before a backslash or a quote.
fn push_quoted_character(
    bytes: &mut Vec<u8>,
    is_utf8: bool,
    character: u8,
) -> Result<(), AllocError>
    ensures { OnOk result (bytes.new.items ≡ bytes.old.items ++ plain is_utf8 (quoted_unit character)) }
{
    if character == b'\\' || character == b'"' {
        push_character(bytes, is_utf8, b'\\')?;
    }
    push_character(bytes, is_utf8, character)
}

/// Appends characters between quotes, without these.
fn push_between(bytes: &mut Vec<u8>, is_utf8: bool, text: &[u8]) -> Result<(), AllocError>
    ensures { OnOk result (bytes.new.items ≡ bytes.old.items ++ plain is_utf8 (flat_map quoted_unit text.now)) }
{
    for character in text {
        push_quoted_character(bytes, is_utf8, *character)?;
    }
    Ok(())
}

/// Appends the name of a value.
pub fn push_name(bytes: &mut Vec<u8>, is_utf8: bool, name: &[u8]) -> Result<(), AllocError>
    ensures { OnOk result (bytes.new.items ≡ bytes.old.items ++ plain is_utf8 (name_told name.now)) }
{
    if name.is_empty() {
        return push_character(bytes, is_utf8, b'@');
    }
    push_character(bytes, is_utf8, b'"')?;
    push_between(bytes, is_utf8, name)?;
    push_character(bytes, is_utf8, b'"')
}

/// A hexadecimal digit, in lower case.
fn digit(number: u8) -> u8
    requires { number < 16 }
    ensures { result ≡ slice_index lower_digits number }
{
    if number < 10 {
        b'0' + number
    } else {
        b'a' - 10 + number
    }
}

/// Appends a byte as two digits.
fn push_digits(bytes: &mut Vec<u8>, is_utf8: bool, byte: u8) -> Result<(), AllocError>
    ensures { OnOk result (bytes.new.items ≡ bytes.old.items ++ plain is_utf8 (digits_text (byte ∷ []))) }
{
    push_character(bytes, is_utf8, digit(byte / 16))?;
    push_character(bytes, is_utf8, digit(byte % 16))
}

/// Appends what stands behind a byte that others follow, and answers how many more may stand in the row of the next one.
fn push_comma(bytes: &mut Vec<u8>, is_utf8: bool, room: u8) -> Result<u8, AllocError>
    ensures bytes { OnOk result (bytes.new.items ≡ bytes.old.items ++ plain is_utf8 (comma_told room)) }
    ensures room { IfOk result (λ more. more ≡ room_behind room) }
{
    if room == 0 {
        push_plain(bytes, is_utf8, b",\\\r\n  ")?;
        return Ok(24);
    }
    push_character(bytes, is_utf8, b',')?;
    Ok(room - 1)
}

/// Appends bytes in rows of 25.
fn push_rows(bytes: &mut Vec<u8>, is_utf8: bool, content: &[u8]) -> Result<(), AllocError>
    ensures { OnOk result (bytes.new.items ≡ bytes.old.items ++ plain is_utf8 (hex_rows content.now)) }
{
    let mut room = 24;
    let mut rest = content;
    while let Some((byte, behind)) = rest.split_first() {
        push_digits(bytes, is_utf8, *byte)?;
        if behind.is_empty() {
            return Ok(());
        }
        room = push_comma(bytes, is_utf8, room)?;
        rest = behind;
    }
    Ok(())
}

/// What stands before the bytes of data of a type other than [`BINARY`].
fn head_text(alloc: Global, kind: u32) -> Result<String, AllocError>
    ensures { IfOk result (λ text. string_bytes text ≡ codes "hex(" ++ (digits 16 false kind ++ codes "):")) }
{
    let mut text = String::new(alloc);
    write!(text, "hex({kind:x}):")?;
    Ok(text)
}

/// Appends what stands before the bytes of data of a type.
fn push_head(alloc: Global, bytes: &mut Vec<u8>, is_utf8: bool, kind: u32) -> Result<(), AllocError>
    ensures { OnOk result (bytes.new.items ≡ bytes.old.items ++ plain is_utf8 (hex_head kind)) }
{
    if kind == BINARY {
        return push_plain(bytes, is_utf8, b"hex:");
    }
    let text = head_text(alloc, kind)?;
    push_plain(bytes, is_utf8, text.as_bytes())
}

/// Appends a number of 4 bytes, the low one first, as its digits.
fn push_number(bytes: &mut Vec<u8>, is_utf8: bool, content: &[u8]) -> Result<(), AllocError>
    requires { length content.now ≡ 4 }
    ensures { OnOk result (bytes.new.items ≡ bytes.old.items ++ plain is_utf8 (digits_text (reverse content.now))) }
{
    push_digits(bytes, is_utf8, content[3])?;
    push_digits(bytes, is_utf8, content[2])?;
    push_digits(bytes, is_utf8, content[1])?;
    push_digits(bytes, is_utf8, content[0])
}

/// Appends data that isn't told as a string.
fn push_plain_data(
    alloc: Global,
    bytes: &mut Vec<u8>,
    is_utf8: bool,
    kind: u32,
    content: &[u8],
) -> Result<(), AllocError>
    ensures { OnOk result (bytes.new.items ≡ bytes.old.items ++ plain is_utf8 (plain_data kind content.now)) }
{
    if (kind == NUMBER) & (content.len() == 4) {
        push_plain(bytes, is_utf8, b"dword:")?;
        return push_number(bytes, is_utf8, content);
    }
    push_head(alloc, bytes, is_utf8, kind)?;
    push_rows(bytes, is_utf8, content)
}

/// The text of data of a type, if it is told as a string.
fn text_of(alloc: Global, kind: u32, content: &[u8]) -> Result<Option<Vec<u16>>, AllocError>
    ensures { IfOk result (λ text. option_map (λ v. v.items) text ≡ text_of_data kind content.now) }
{
    if kind == STRING {
        return string_text(alloc, content);
    }
    Ok(None)
}

/// Appends the text of a string between quotes.
#[tactic(auto, unfolding(crate::specs::Internal::Pieces::text_pieces))]
fn push_text(
    alloc: Global,
    bytes: &mut Vec<u8>,
    is_utf8: bool,
    text: &[u16],
) -> Result<(), AllocError>
    ensures { OnOk result (bytes.new.items ≡ bytes.old.items ++ text_pieces is_utf8 text.now) }
{
    push_character(bytes, is_utf8, b'"')?;
    let units = quoted_units(alloc, text)?;
    push_units(alloc, bytes, is_utf8, &units)?;
    push_character(bytes, is_utf8, b'"')
}

/// Appends data of a type.
fn push_data(
    alloc: Global,
    bytes: &mut Vec<u8>,
    is_utf8: bool,
    kind: u32,
    content: &[u8],
) -> Result<(), AllocError>
    ensures { OnOk result (bytes.new.items ≡ bytes.old.items ++ data_pieces is_utf8 (text_of_data kind content.now) kind content.now) }
{
    match text_of(alloc, kind, content)? {
        Some(text) => push_text(alloc, bytes, is_utf8, &text),
        None => push_plain_data(alloc, bytes, is_utf8, kind, content),
    }
}

/// Appends the entry of a value of that name, type and data.
pub fn push_entry(
    alloc: Global,
    bytes: &mut Vec<u8>,
    is_utf8: bool,
    name: &[u8],
    kind: u32,
    content: &[u8],
) -> Result<(), AllocError>
    ensures { OnOk result (bytes.new.items ≡ bytes.old.items ++ entry_pieces is_utf8 name.now kind content.now) }
{
    push_name(bytes, is_utf8, name)?;
    push_character(bytes, is_utf8, b'=')?;
    push_data(alloc, bytes, is_utf8, kind, content)?;
    push_plain(bytes, is_utf8, b"\r\n")
}
