//! Texts in UTF-16 that bytes hold.
ghost use Rattle.std.specs.Prelude.{◌≡◌, ◌&&◌, drop, string_bytes, IfOk};
ghost use Rattle.reg_find.specs.Findings.{is_held, unit_or_end, units_in as units_held, wide_text as text_held};

use crate::Pattern;
use std::alloc::{AllocError, Global};

/// A unit of UTF-16, with a line end in the place of a zero.
fn unit_or_line_end(unit: u16) -> u16
    ensures { result ≡ unit_or_end unit }
{
    if unit == 0 { 10 } else { unit }
}

/// Bytes as units, the low byte first, with a line end for each zero; a last byte that is alone is passed over.
fn units_in(alloc: Global, bytes: &[u8]) -> Result<Vec<u16>, AllocError>
    ensures { IfOk result (λ units. units.items ≡ units_held bytes.now) }
{
    let mut units = Vec::new(alloc);
    let mut rest = bytes;
    while rest.len() >= 2 {
        units.push(unit_or_line_end(u16::from(rest[0]) + 256 * u16::from(rest[1])))?;
        rest = &rest[2..];
    }
    Ok(units)
}

/// The text that bytes are in UTF-16, with a line end for each zero, and U+FFFD for each surrogate without its partner.
fn wide_text(alloc: Global, bytes: &[u8]) -> Result<String, AllocError>
    ensures { IfOk result (λ text. string_bytes text ≡ text_held bytes.now) }
{
    let units = units_in(alloc, bytes)?;
    String::from_utf16_lossy(alloc, &units)
}

/// Bytes without the first one, if there is one.
fn behind_first(bytes: &[u8]) -> &[u8]
    ensures { result.now ≡ drop 1 bytes.now }
{
    match bytes.split_first() {
        Some((_, rest)) => rest,
        None => bytes,
    }
}

/// Whether the text that bytes are in UTF-16 matches.
fn is_match_at_first<P: Pattern>(
    alloc: Global,
    pattern: &mut P,
    bytes: &[u8],
) -> Result<bool, AllocError>
    ensures answer { IfOk result (λ found. found ≡ P.matches pattern.old (text_held bytes.now)) }
    ensures same { P.matches pattern.new ≡ P.matches pattern.old }
{
    let text = wide_text(alloc, bytes)?;
    Ok(pattern.is_match(text.as_bytes()))
}

/// Whether bytes are searched, and hold a match as a text in UTF-16 that begins at the first of them or at the second.
pub fn is_match_held<P: Pattern>(
    alloc: Global,
    pattern: &mut P,
    is_searched: bool,
    bytes: &[u8],
) -> Result<bool, AllocError>
    ensures answer { IfOk result (λ found. found ≡ (is_searched && is_held (P.matches pattern.old) bytes.now)) }
    ensures same { P.matches pattern.new ≡ P.matches pattern.old }
{
    if !is_searched {
        return Ok(false);
    }
    if is_match_at_first(alloc, pattern, bytes)? {
        return Ok(true);
    }
    is_match_at_first(alloc, pattern, behind_first(bytes))
}
