//! Strings in UTF-16, the low byte of each unit first, that may stand between quotes.
ghost use Rattle.std.specs.Prelude.{◌≡◌, true, not, ◌∷◌, ◌++◌, flat_map, MatchOption, IfOk, OnOk};
ghost use Rattle.std.specs.Char.Utf16.{utf16_chars, lone_unit_char, has_unpaired_surrogate, is_high_surrogate, is_low_surrogate};
ghost use Rattle.std.specs.List.{list_all};
ghost use Rattle.std.specs.Option.{option_map};
ghost use Rattle.reg_tree_text.specs.ValueTexts.{units_of as units_in};
ghost use Rattle.reg_dotreg_writer.specs.EntryTexts.{is_text_unit as may_stand, is_line_text as may_stand_between, string_text as text_of_string, quoted_unit};
ghost use Rattle.reg_dotreg_writer.specs.Internal.Pieces.{IsBehind};

use std::alloc::{AllocError, Global};

/// Bytes as units; `None` where a last byte is alone.
fn units_of(alloc: Global, bytes: &[u8]) -> Result<Option<Vec<u16>>, AllocError>
    ensures { IfOk result (λ units. option_map (λ v. v.items) units ≡ units_in bytes.now) }
{
    let mut units = Vec::with_capacity(alloc, bytes.len() / 2)?;
    let mut rest = bytes;
    while rest.len() >= 2 {
        units.push(u16::from(rest[0]) + 256 * u16::from(rest[1]))?;
        rest = &rest[2..];
    }
    if !rest.is_empty() {
        return Ok(None);
    }
    Ok(Some(units))
}

/// Whether a unit is the first one of a pair.
fn is_high(unit: u16) -> bool
    ensures { result ≡ is_high_surrogate unit }
{
    unit >= 0xD800 && unit < 0xDC00
}

/// Whether a unit is the second one of a pair.
fn is_low(unit: u16) -> bool
    ensures { result ≡ is_low_surrogate unit }
{
    unit >= 0xDC00 && unit < 0xE000
}

/// The units behind one that is in no pair; `None` where it is a surrogate.
fn behind_lone(first: u16, rest: &[u16]) -> Option<&[u16]>
    requires { utf16_chars (first ∷ rest.now) ≡ lone_unit_char first ∷ utf16_chars rest.now }
    ensures { MatchOption result (has_unpaired_surrogate (first ∷ rest.now) ≡ true) (λ behind. IsBehind first rest.now behind.now) }
{
    if is_high(first) | is_low(first) {
        return None;
    }
    Some(rest)
}

/// The units behind the first character; `None` where that is a surrogate without its partner.
fn behind_first(first: u16, rest: &[u16]) -> Option<&[u16]>
    ensures { MatchOption result (has_unpaired_surrogate (first ∷ rest.now) ≡ true) (λ behind. IsBehind first rest.now behind.now) }
{
    let Some((next, behind)) = rest.split_first() else {
        return behind_lone(first, rest);
    };
    if is_high(first) & is_low(*next) {
        return Some(behind);
    }
    behind_lone(first, rest)
}

/// Whether each surrogate has its partner.
fn is_well_formed(units: &[u16]) -> bool
    ensures { result ≡ not (has_unpaired_surrogate units.now) }
{
    let mut rest = units;
    while let Some((first, behind)) = rest.split_first() {
        match behind_first(*first, behind) {
            Some(more) => rest = more,
            None => return false,
        }
    }
    true
}

/// Whether a unit may stand between quotes.
fn is_text_unit(unit: u16) -> bool
    ensures { result ≡ may_stand unit }
{
    unit != 0 && unit != 13 && unit != 10
}

/// Whether each unit of a text may stand between quotes.
fn are_text_units(text: &[u16]) -> bool
    ensures { result ≡ list_all may_stand text.now }
{
    text.iter().all(|unit| is_text_unit(*unit))
}

/// Whether a text may stand between quotes.
fn is_line_text(text: &[u16]) -> bool
    ensures { result ≡ may_stand_between text.now }
{
    are_text_units(text) && is_well_formed(text)
}

/// The text of data that is a string on one line; `None` where it is none.
pub fn string_text(alloc: Global, bytes: &[u8]) -> Result<Option<Vec<u16>>, AllocError>
    ensures { IfOk result (λ text. option_map (λ v. v.items) text ≡ text_of_string bytes.now) }
{
    let Some(mut units) = units_of(alloc, bytes)? else {
        return Ok(None);
    };
    let Some(last) = units.pop() else {
        return Ok(None);
    };
    if last != 0 {
        return Ok(None);
    }
    if !is_line_text(&units) {
        return Ok(None);
    }
    Ok(Some(units))
}

/// Appends a unit as it stands between quotes.
fn push_quoted(units: &mut Vec<u16>, unit: u16) -> Result<(), AllocError>
    ensures { OnOk result (units.new.items ≡ units.old.items ++ quoted_unit unit) }
{
    if unit == 92 || unit == 34 {
        units.push(92)?;
    }
    units.push(unit)?;
    Ok(())
}

/// Units as they stand between quotes.
pub fn quoted_units(alloc: Global, text: &[u16]) -> Result<Vec<u16>, AllocError>
    ensures { IfOk result (λ v. v.items ≡ flat_map quoted_unit text.now) }
{
    let mut units = Vec::with_capacity(alloc, text.len())?;
    for unit in text {
        push_quoted(&mut units, *unit)?;
    }
    Ok(units)
}
