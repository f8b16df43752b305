//! Strings in UTF-16, the low byte of each unit first.
ghost use Rattle.std.specs.Prelude.{◌≡◌, ◌==◌, ◌&&◌, not, map, IfOk, if◌then◌else◌, string_bytes};
ghost use Rattle.std.specs.List.{list_any};
ghost use Rattle.std.specs.Option.{option_map};
ghost use Rattle.reg_tree_text.specs.ValueTexts.{units_of, unended, is_control, spelt, string_text, strings_text};

use std::alloc::{AllocError, Global};

/// Bytes as units; `None` where a last byte is alone.
pub fn units_of(alloc: Global, bytes: &[u8]) -> Result<Option<Vec<u16>>, AllocError>
    ensures { IfOk result (λ units. option_map (λ v. v.items) units ≡ units_of bytes.now) }
{
    let mut units = Vec::new(alloc);
    let mut rest = bytes;
    while rest.len() >= 2 {
        units.push(u16::from(rest[0]) + 256 * u16::from(rest[1]))?;
        rest = &rest[2..];
    }
    if !rest.is_empty() {
        return Ok(None);
    }
    Ok(Some(units))
}

/// Units without the zero at their end, if there is one.
pub fn unended(units: &[u16]) -> &[u16]
    ensures { result.now ≡ unended units.now }
{
    let Some((last, front)) = units.split_last() else {
        return units;
    };
    if *last == 0 {
        return front;
    }
    units
}

/// Whether a unit is a control character: below U+0020, or from U+007F to U+009F.
fn is_control(unit: u16) -> bool
    ensures { result ≡ is_control unit }
{
    unit < 0x20 || (unit >= 0x7F && unit <= 0x9F)
}

/// Whether one of some units is a control character.
fn has_control(units: &[u16]) -> bool
    ensures { result ≡ list_any is_control units.now }
{
    units.iter().any(|unit| is_control(*unit))
}

/// Whether one of some units is a control character, but for zeros.
fn has_other_control(units: &[u16]) -> bool
    ensures { result ≡ list_any (λ unit. not (unit == 0) && is_control unit) units.now }
{
    units.iter().any(|unit| *unit != 0 && is_control(*unit))
}

/// Units with a tab in the place of each zero.
fn tabbed(alloc: Global, units: &[u16]) -> Result<Vec<u16>, AllocError>
    ensures { IfOk result (λ v. v.items ≡ map (λ unit. if unit == 0 then 9 else unit) units.now) }
{
    units
        .iter()
        .map(|unit| if *unit == 0 { 9 } else { *unit })
        .collect(alloc)
}

/// The text that units spell; `None` where a surrogate has no partner.
fn spell(alloc: Global, units: &[u16]) -> Result<Option<String>, AllocError>
    ensures { IfOk result (λ text. option_map string_bytes text ≡ spelt units.now) }
{
    match String::from_utf16(alloc, units)? {
        Ok(text) => Ok(Some(text)),
        Err(_) => Ok(None),
    }
}

/// The text of a string; `None` where it has a control character or isn't well-formed.
pub fn spell_string(alloc: Global, units: &[u16]) -> Result<Option<String>, AllocError>
    ensures { IfOk result (λ text. option_map string_bytes text ≡ string_text units.now) }
{
    if has_control(units) {
        return Ok(None);
    }
    spell(alloc, units)
}

/// The texts of strings of which a zero parts each two, with a tab for each zero; `None` where there is another control character, or
/// one isn't well-formed.
pub fn spell_strings(alloc: Global, units: &[u16]) -> Result<Option<String>, AllocError>
    ensures { IfOk result (λ text. option_map string_bytes text ≡ strings_text units.now) }
{
    if has_other_control(units) {
        return Ok(None);
    }
    let tabbed = tabbed(alloc, units)?;
    spell(alloc, &tabbed)
}
