//! Strings in UTF-16, the low byte of each unit first.
ghost use Rattle.std.specs.Prelude.{◌≡◌, ◌==◌, ◌≤◌, ◌<◌, ◌∷◌, [], length, MatchOption, IfSome, IfOk, map, string_bytes};
ghost use Rattle.std.specs.Option.{option_map};
ghost use Rattle.std.specs.List.{position_or_len};
ghost use Rattle.reg_tree_text.specs.ValueTexts.{units_of, spelt};
ghost use Rattle.reg_tables.specs.ValueForms.{parts_of, string_in, strings_in};

use std::alloc::{AllocError, Global};

/// Bytes as units; `None` where a last byte is alone.
pub fn units_of(alloc: Global, bytes: &[u8]) -> Result<Option<Vec<u16>>, AllocError>
    ensures { IfOk result (λ units. option_map (λ v. v.items) units ≡ units_of bytes.now) }
{
    let mut units = Vec::with_capacity(alloc, bytes.len() / 2)?;
    let mut rest = bytes;
    while rest.len() >= 2 {
        units.push(u16::from(rest[0]) + 256 * u16::from(rest[1]))?;
        rest = &rest[2..];
    }
    if !rest.is_empty() {
        return Ok(None);
    }
    Ok(Some(units))
}

/// The text that units spell; `None` where a surrogate has no partner.
pub fn spell(alloc: Global, units: &[u16]) -> Result<Option<String>, AllocError>
    ensures { IfOk result (λ text. option_map string_bytes text ≡ spelt units.now) }
{
    match String::from_utf16(alloc, units)? {
        Ok(text) => Ok(Some(text)),
        Err(_) => Ok(None),
    }
}

/// Where the first zero is, or how many units there are.
fn zero_place(units: &[u16]) -> usize
    ensures place { result ≡ position_or_len (λ unit. unit == 0) units.now }
    ensures within { result ≤ length units.now }
{
    units
        .iter()
        .position(|unit| *unit == 0)
        .unwrap_or(units.len())
}

/// The units before the first zero, and those behind it; `None` where there is no zero.
fn first_part(units: &[u16]) -> Option<(&[u16], &[u16])>
    ensures parts { MatchOption result (parts_of units.now ≡ units.now ∷ []) (λ p. parts_of units.now ≡ p.0.now ∷ parts_of p.1.now) }
    ensures shorter { IfSome result (λ p. length p.1.now < length units.now) }
{
    let place = zero_place(units);
    if place == units.len() {
        return None;
    }
    Some((&units[..place], &units[place + 1..]))
}

/// The text of a string; `None` where it doesn't end with its one zero or isn't well-formed.
pub fn spell_string(alloc: Global, units: &[u16]) -> Result<Option<String>, AllocError>
    ensures { IfOk result (λ text. option_map string_bytes text ≡ string_in (parts_of units.now)) }
{
    let Some((part, behind)) = first_part(units) else {
        return Ok(None);
    };
    if !behind.is_empty() {
        return Ok(None);
    }
    spell(alloc, part)
}

/// The texts that were spelt, where nothing is behind the last zero.
fn ended(texts: Vec<String>, behind: &[u16]) -> Option<Vec<String>>
    ensures { MatchOption result (0 < length behind.now) (λ v. (v ≡ texts) × (length behind.now ≡ 0)) }
{
    if behind.is_empty() {
        return Some(texts);
    }
    None
}

/// The texts of several strings; `None` where one doesn't end with a zero, is empty or isn't well-formed, or where not just one zero
/// is behind them.
pub fn spell_strings(alloc: Global, units: &[u16]) -> Result<Option<Vec<String>>, AllocError>
    ensures { IfOk result (λ texts. option_map (λ v. map string_bytes v.items) texts ≡ strings_in (parts_of units.now)) }
{
    let mut texts = Vec::new(alloc);
    let mut rest = units;
    while let Some((part, behind)) = first_part(rest) {
        if part.is_empty() {
            return Ok(ended(texts, behind));
        }
        let Some(text) = spell(alloc, part)? else {
            return Ok(None);
        };
        texts.push(text)?;
        rest = behind;
    }
    Ok(None)
}
