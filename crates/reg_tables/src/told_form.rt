//! In which form a value's data are told in a row.
ghost use Rattle.std.specs.Prelude.{◌≡◌, ◌==◌, ◌&&◌, not, is_some, map, IfOk, if◌then◌else◌};
ghost use Rattle.std.specs.List.{list_any};
ghost use Rattle.std.specs.Option.{option_and_then};
ghost use Rattle.reg_tree_text.specs.ValueTexts.{units_of as units_in, unended, is_control, spelt, string_text, strings_text, form_text};
ghost use Rattle.reg_tables.specs.FormsTold.{form_told};

use crate::form::{BIG_NUMBER, EXPANDABLE, LINK, LONG_NUMBER, NUMBER, STRING, STRINGS};
use crate::units::{spell, units_of};
use std::alloc::{AllocError, Global};

/// Units without the zero at their end, if there is one.
fn unended(units: &[u16]) -> &[u16]
    ensures { result.now ≡ unended units.now }
{
    let Some((last, front)) = units.split_last() else {
        return units;
    };
    if *last == 0 {
        return front;
    }
    units
}

/// Whether a unit is a control character: below U+0020, or from U+007F to U+009F.
fn is_control(unit: u16) -> bool
    ensures { result ≡ is_control unit }
{
    unit < 0x20 || (unit >= 0x7F && unit <= 0x9F)
}

/// Whether one of some units is a control character.
fn has_control(units: &[u16]) -> bool
    ensures { result ≡ list_any is_control units.now }
{
    units.iter().any(|unit| is_control(*unit))
}

/// Whether one of some units is a control character, but for zeros.
fn has_other_control(units: &[u16]) -> bool
    ensures { result ≡ list_any (λ unit. not (unit == 0) && is_control unit) units.now }
{
    units.iter().any(|unit| *unit != 0 && is_control(*unit))
}

/// Units with a tab in the place of each zero.
fn tabbed(alloc: Global, units: &[u16]) -> Result<Vec<u16>, AllocError>
    ensures { IfOk result (λ v. v.items ≡ map (λ unit. if unit == 0 then 9 else unit) units.now) }
{
    units
        .iter()
        .map(|unit| if *unit == 0 { 9 } else { *unit })
        .collect(alloc)
}

/// Whether units spell a text: each surrogate has its partner.
fn is_spelt(alloc: Global, units: &[u16]) -> Result<bool, AllocError>
    ensures { IfOk result (λ told. told ≡ is_some (spelt units.now)) }
{
    match spell(alloc, units)? {
        Some(_) => Ok(true),
        None => Ok(false),
    }
}

/// Whether the text of a string is told.
fn is_string(alloc: Global, units: &[u16]) -> Result<bool, AllocError>
    ensures { IfOk result (λ told. told ≡ is_some (string_text units.now)) }
{
    if has_control(units) {
        return Ok(false);
    }
    is_spelt(alloc, units)
}

/// Whether the texts of several strings are told.
fn are_strings(alloc: Global, units: &[u16]) -> Result<bool, AllocError>
    ensures { IfOk result (λ told. told ≡ is_some (strings_text units.now)) }
{
    if has_other_control(units) {
        return Ok(false);
    }
    let tabbed = tabbed(alloc, units)?;
    is_spelt(alloc, &tabbed)
}

/// Whether the text of a string's bytes is told.
fn is_string_of(alloc: Global, bytes: &[u8]) -> Result<bool, AllocError>
    ensures { IfOk result (λ told. told ≡ is_some (option_and_then (λ units. string_text (unended units)) (units_in bytes.now))) }
{
    match units_of(alloc, bytes)? {
        Some(units) => is_string(alloc, unended(&units)),
        None => Ok(false),
    }
}

/// Whether the text of the bytes of several strings is told.
fn are_strings_of(alloc: Global, bytes: &[u8]) -> Result<bool, AllocError>
    ensures { IfOk result (λ told. told ≡ is_some (option_and_then (λ units. strings_text (unended (unended units))) (units_in bytes.now))) }
{
    match units_of(alloc, bytes)? {
        Some(units) => are_strings(alloc, unended(unended(&units))),
        None => Ok(false),
    }
}

/// Whether data are told in the form of their type.
#[tactic(auto, unfolding(reg_tree_text::specs::ValueTexts::form_text))]
fn is_in_form(alloc: Global, kind: u32, bytes: &[u8]) -> Result<bool, AllocError>
    ensures { IfOk result (λ told. told ≡ is_some (form_text kind bytes.now)) }
{
    if kind == STRING || kind == EXPANDABLE || kind == LINK {
        return is_string_of(alloc, bytes);
    }
    if kind == STRINGS {
        return are_strings_of(alloc, bytes);
    }
    if kind == NUMBER && bytes.len() == 4 {
        return Ok(true);
    }
    if kind == BIG_NUMBER && bytes.len() == 4 {
        return Ok(true);
    }
    if kind == LONG_NUMBER && bytes.len() == 8 {
        return Ok(true);
    }
    Ok(false)
}

/// The form in which the data of a value of a type are told.
#[tactic(auto, unfolding(crate::specs::FormsTold::form_told))]
pub fn told_form(alloc: Global, kind: u32, bytes: &[u8]) -> Result<&'static str, AllocError>
    ensures { IfOk result (λ form. form.now ≡ form_told kind bytes.now) }
{
    if !is_in_form(alloc, kind, bytes)? {
        return Ok("hex");
    }
    if kind == NUMBER || kind == BIG_NUMBER || kind == LONG_NUMBER {
        return Ok("number");
    }
    Ok("text")
}
