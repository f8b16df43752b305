//! A file's bytes as units.
ghost use Rattle.std.specs.Prelude.{◌≡◌, ◌++◌, Some, option_map, option_copied, flat_map, OnOk, IfOk, IfErr};
ghost use Rattle.std.specs.Str.{chars};
ghost use Rattle.std.specs.Char.Escape.{encode_utf16};
ghost use Rattle.reg_dotreg_reader.specs.EntryWords.{behind_word};
ghost use Rattle.reg_dotreg_reader.specs.FileUnits.{wide_units, narrow_units, front_units, units_of, IsUnread};

use crate::fault::ReadFault;
use byteorder::{ByteOrder, LittleEndian};
use std::alloc::{AllocError, Global};

/// Units of two bytes each, the low byte first; `None` where a last byte is alone.
fn wide_units(alloc: Global, bytes: &[u8]) -> Result<Option<Vec<u16>>, AllocError>
    ensures { IfOk result (λ units. option_map (λ v. v.items) units ≡ wide_units bytes.now) }
{
    if bytes.len() % 2 != 0 {
        return Ok(None);
    }
    let mut units = vec![in alloc; 0; bytes.len() / 2]?;
    LittleEndian::read_u16_into(bytes, units.as_mut_slice());
    Ok(Some(units))
}

/// Appends the units of a character.
fn push_units(units: &mut Vec<u16>, character: char) -> Result<(), AllocError>
    ensures { OnOk result (units.new.items ≡ units.old.items ++ encode_utf16 character) }
{
    let code = character as u32;
    if code < 0x1_0000 {
        units.push(code as u16)?;
        return Ok(());
    }
    let above = code - 0x1_0000;
    units.push((0xD800 + above / 0x400) as u16)?;
    units.push((0xDC00 + above % 0x400) as u16)?;
    Ok(())
}

/// The units of a text.
fn text_units(alloc: Global, text: &str) -> Result<Vec<u16>, AllocError>
    ensures { IfOk result (λ units. units.items ≡ flat_map encode_utf16 (chars text.now)) }
{
    let mut units = Vec::with_capacity(alloc, text.len())?;
    let mut rest = text.chars();
    while let Some(character) = rest.next() {
        push_units(&mut units, character)?;
    }
    Ok(units)
}

/// Bytes as units, as those of ASCII are: each byte is one.
fn ascii_units(alloc: Global, bytes: &[u8]) -> Result<Vec<u16>, AllocError>
    ensures { IfOk result (λ units. units.items ≡ bytes.now) }
{
    let mut units = vec![in alloc; 0; bytes.len()]?;
    for index in 0..bytes.len() {
        units[index] = u16::from(bytes[index]);
    }
    Ok(units)
}

/// The units of the characters that bytes spell in UTF-8; `None` where they are no UTF-8.
#[tactic(auto, using(crate::proofs::CharacterUnits::narrow_plain, crate::proofs::CharacterUnits::narrow_some, crate::proofs::CharacterUnits::narrow_none))]
fn narrow_units(alloc: Global, bytes: &[u8]) -> Result<Option<Vec<u16>>, AllocError>
    ensures { IfOk result (λ units. option_map (λ v. v.items) units ≡ narrow_units bytes.now) }
{
    if bytes.is_ascii() {
        return Ok(Some(ascii_units(alloc, bytes)?));
    }
    match str::from_utf8(bytes) {
        Ok(text) => Ok(Some(text_units(alloc, text)?)),
        Err(_) => Ok(None),
    }
}

/// The units of a front that is given in UTF-8. Bytes that are no UTF-8 are units themselves. Its one fault is that memory was refused.
#[tactic(auto, unfolding(crate::specs::FileUnits::front_units))]
pub fn front_units(alloc: Global, front: &[u8]) -> Result<Vec<u16>, AllocError>
    ensures { IfOk result (λ units. units.items ≡ front_units front.now) }
{
    match narrow_units(alloc, front)? {
        Some(units) => Ok(units),
        None => ascii_units(alloc, front),
    }
}

/// What stands behind a mark, where some bytes begin with it.
#[tactic(auto, using(crate::proofs::WordEnds::words))]
fn behind_mark<'a>(mark: &[u8], bytes: &'a [u8]) -> Option<&'a [u8]>
    ensures { option_copied result ≡ behind_word mark.now bytes.now }
{
    let mut rest = bytes;
    for byte in mark {
        let (first, others) = rest.split_first()?;
        if *first != *byte {
            return None;
        }
        rest = others;
    }
    Some(rest)
}

/// A file's units, by its mark.
#[tactic(auto, using(crate::proofs::CharacterUnits::marks))]
fn marked_units(alloc: Global, bytes: &[u8]) -> Result<Option<Vec<u16>>, AllocError>
    ensures { IfOk result (λ units. option_map (λ v. v.items) units ≡ units_of bytes.now) }
{
    if let Some(rest) = behind_mark(b"\xFF\xFE", bytes) {
        return wide_units(alloc, rest);
    }
    match behind_mark(b"\xEF\xBB\xBF", bytes) {
        Some(rest) => narrow_units(alloc, rest),
        None => narrow_units(alloc, bytes),
    }
}

/// The units of a file's bytes: UTF-16, the low byte first, behind its mark, else UTF-8, with its mark or without. The mark is none of
/// them.
///
/// `Encoding` where bytes are no UTF-8, or behind the mark of UTF-16 their number is odd; `Memory` where memory was refused. It
/// answers no other fault.
pub fn units_in(alloc: Global, bytes: &[u8]) -> Result<Vec<u16>, ReadFault>
    ensures ok { IfOk result (λ units. units_of bytes.now ≡ Some units.items) }
    ensures err { IfErr result (λ fault. IsUnread (units_of bytes.now) fault) }
{
    match marked_units(alloc, bytes)? {
        Some(units) => Ok(units),
        None => Err(ReadFault::Encoding),
    }
}
