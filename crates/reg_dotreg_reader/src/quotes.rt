//! Texts in quotes, names and units as bytes.
ghost use Rattle.std.specs.Prelude.{◌≡◌, ◌<◌, ◌∷◌, [], ◌++◌, length, not, if◌then◌else◌, codes, option_map, IfOk, Some, None, MatchOption};
ghost use Rattle.std.specs.List.{list_all};
ghost use Rattle.reg_names.specs.Names.{is_value_name_byte};
ghost use Rattle.reg_dotreg_reader.specs.EntryLines.{is_feed};
ghost use Rattle.reg_dotreg_reader.specs.EntryMeanings.{is_line_name};
ghost use Rattle.reg_dotreg_reader.specs.EntryWords.{is_escaped as is_escaped_of, behind_word as behind_word_of, quoted, with_unit, unit_bytes, is_plain as is_plain_of, plain_bytes};
ghost use Rattle.reg_dotreg_reader.specs.Internal.ReadSoFar.{Reads};

use crate::fault::LineFault;
use crate::words::behind_word;
use reg_names::VALUE_NAME_LIMIT;
use std::alloc::{AllocError, Global};

/// Whether a unit may stand behind a backslash in quotes.
pub fn is_escaped(unit: u16) -> bool
    ensures { result ≡ is_escaped_of unit }
{
    unit == 34 || unit == 92
}

/// The unit that stands next in a quoted text, behind a backslash or alone, and what follows; `None` where a quote or a backslash before
/// another unit ends it.
#[tactic(auto, using(crate::proofs::QuotedUnits::stops))]
fn next_unit(text: &[u16]) -> Option<(u16, &[u16])>
    ensures { MatchOption result (quoted text.now ≡ option_map (λ rest. ([], rest)) (behind_word_of (codes "\"") text.now))
        (λ p. (quoted text.now ≡ with_unit p.0 (quoted p.1.now)) × (length p.1.now < length text.now)) }
{
    let (unit, rest) = text.split_first()?;
    match *unit {
        34 => None,
        92 => {
            let (unit, rest) = rest.split_first()?;
            if is_escaped(*unit) {
                Some((*unit, rest))
            } else {
                None
            }
        }
        unit => Some((unit, rest)),
    }
}

/// A quoted text behind the quote that opens it: its units, and what stands behind the quote that closes it.
#[tactic(auto, using(crate::proofs::QuotedUnits::texts))]
pub fn quoted(alloc: Global, text: &[u16]) -> Result<(Vec<u16>, &[u16]), LineFault>
    ensures { Reads (λ r. (r.0.items, r.1.now)) (quoted text.now) result }
{
    let mut units = Vec::with_capacity(alloc, text.len())?;
    let mut rest = text;
    while let Some((unit, others)) = next_unit(rest) {
        units.push(unit)?;
        rest = others;
    }
    match behind_word(b"\"", rest) {
        Some(rest) => Ok((units, rest)),
        None => Err(LineFault::Form),
    }
}

/// Whether a unit is one that names may have.
pub fn is_name_unit(unit: u16) -> bool
    ensures { result ≡ is_value_name_byte unit }
{
    unit >= 1 && unit <= 0x7F
}

/// Units as bytes, where each is one that names may have.
#[tactic(auto, using(crate::proofs::QuotedUnits::names))]
pub fn narrowed(alloc: Global, units: &[u16]) -> Result<Vec<u8>, LineFault>
    ensures { Reads (λ v. v.items) (if list_all is_value_name_byte units.now then Some units.now else None) result }
{
    let mut bytes = Vec::with_capacity(alloc, units.len())?;
    for unit in units {
        if !is_name_unit(*unit) {
            return Err(LineFault::Form);
        }
        bytes.push(*unit as u8)?;
    }
    Ok(bytes)
}

/// Whether units stand on one line.
pub fn are_on_one_line(units: &[u16]) -> bool
    ensures { result ≡ list_all (λ u. not (is_feed u)) units.now }
{
    units.iter().all(|unit| *unit != 10)
}

/// The name of a value.
pub fn value_name(alloc: Global, units: &[u16]) -> Result<Vec<u8>, LineFault>
    ensures { Reads (λ v. v.items) (if is_line_name units.now then Some units.now else None) result }
{
    if units.len() > VALUE_NAME_LIMIT || !are_on_one_line(units) {
        return Err(LineFault::Form);
    }
    narrowed(alloc, units)
}

/// Units and a zero as bytes, the low byte of each first.
#[tactic(auto, using(crate::proofs::QuotedUnits::bytes_more, crate::proofs::QuotedUnits::bytes_end))]
pub fn ended_bytes(alloc: Global, units: &[u16]) -> Result<Vec<u8>, AllocError>
    ensures { IfOk result (λ v. v.items ≡ unit_bytes (units.now ++ 0 ∷ [])) }
{
    let mut bytes = Vec::with_capacity(alloc, 2 * units.len() + 2)?;
    for unit in units {
        bytes.push((*unit % 256) as u8)?;
        bytes.push((*unit / 256) as u8)?;
    }
    bytes.push(0)?;
    bytes.push(0)?;
    Ok(bytes)
}

/// Whether a byte is a character.
fn is_plain(byte: u8) -> bool
    ensures { result ≡ is_plain_of byte }
{
    byte <= 0x7F
}

/// Characters of one byte, as the bytes of their units; none may be above 0x7F.
#[tactic(auto, using(crate::proofs::QuotedUnits::plain_more, crate::proofs::QuotedUnits::plain_not, crate::proofs::QuotedUnits::plain_end))]
pub fn plain_bytes(alloc: Global, bytes: &[u8]) -> Result<Vec<u8>, LineFault>
    ensures { Reads (λ v. v.items) (plain_bytes bytes.now) result }
{
    let mut units = Vec::with_capacity(alloc, bytes.len().saturating_mul(2))?;
    for byte in bytes {
        if !is_plain(*byte) {
            return Err(LineFault::Form);
        }
        units.push(*byte)?;
        units.push(0)?;
    }
    Ok(units)
}
