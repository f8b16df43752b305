//! SIDs.
ghost use Rattle.std.specs.Prelude.{◌≡◌, ◌+◌, ◌*◌, ◌≤◌, length, slice_index, IfOk, string_bytes};
ghost use Rattle.std.specs.Option.{option_map};
ghost use Rattle.reg_tables.specs.SecurityTexts.{is_sid, authority_text, parts_text, numbers_text, nt_name, short_name, sid_of};

use crate::sddl::fields::{behind, long_at};
use byteorder::{BigEndian, ByteOrder};
use std::alloc::{AllocError, Global};

/// Whether the bytes begin with a SID.
fn is_sid(bytes: &[u8]) -> bool
    ensures { result ≡ is_sid bytes.now }
{
    if bytes.len() < 2 {
        return false;
    }
    bytes[0] == 1 && bytes[1] <= 15 && 8 + 4 * usize::from(bytes[1]) <= bytes.len()
}

/// An authority: in decimal, or where it has more than 32 bits in hexadecimal digits.
#[tactic(auto, unfolding(crate::specs::SecurityTexts::authority_text))]
fn authority_text(alloc: Global, bytes: &[u8]) -> Result<String, AllocError>
    requires { 6 ≤ length bytes.now }
    ensures { IfOk result (λ text. string_bytes text ≡ authority_text bytes.now) }
{
    let authority = BigEndian::read_u48(bytes);
    if authority < 0x1_0000_0000 {
        return format!(in alloc; "{authority}");
    }
    let digits = hex::encode(alloc, &bytes[..6])?;
    format!(in alloc; "0x{digits}")
}

/// So many sub-authorities.
fn parts_text(alloc: Global, count: u8, bytes: &[u8]) -> Result<String, AllocError>
    requires { 4 * count ≤ length bytes.now }
    ensures { IfOk result (λ text. string_bytes text ≡ parts_text count bytes.now) }
{
    let mut text = String::new(alloc);
    let mut rest = bytes;
    for _part in 0..count {
        let part = long_at(rest, 0);
        write!(text, "-{part}")?;
        rest = behind(rest, 4);
    }
    Ok(text)
}

/// A SID in numbers.
fn numbers_text(alloc: Global, bytes: &[u8]) -> Result<String, AllocError>
    requires { 8 + 4 * slice_index bytes.now 1 ≤ length bytes.now }
    ensures { IfOk result (λ text. string_bytes text ≡ numbers_text bytes.now) }
{
    let authority = authority_text(alloc, &bytes[2..])?;
    let parts = parts_text(alloc, bytes[1], &bytes[8..])?;
    format!(in alloc; "S-1-{authority}{parts}")
}

/// The letters that stand for a SID of the NT authority, or its numbers.
#[tactic(auto, unfolding(crate::specs::SecurityTexts::nt_name))]
fn nt_name(numbers: &str) -> &str
    ensures { result.now ≡ nt_name numbers.now }
{
    if numbers == "S-1-5-18" {
        return "SY";
    }
    if numbers == "S-1-5-32-544" {
        return "BA";
    }
    if numbers == "S-1-5-32-545" {
        return "BU";
    }
    if numbers == "S-1-5-19" {
        return "LS";
    }
    if numbers == "S-1-5-20" {
        return "NS";
    }
    if numbers == "S-1-5-11" {
        return "AU";
    }
    if numbers == "S-1-5-12" {
        return "RC";
    }
    numbers
}

/// The letters that stand for a SID, or its numbers.
#[tactic(auto, unfolding(crate::specs::SecurityTexts::short_name))]
fn short_name(numbers: &str) -> &str
    ensures { result.now ≡ short_name numbers.now }
{
    if numbers == "S-1-1-0" {
        return "WD";
    }
    if numbers == "S-1-3-0" {
        return "CO";
    }
    if numbers == "S-1-15-2-1" {
        return "AC";
    }
    if numbers == "S-1-3-4" {
        return "OW";
    }
    nt_name(numbers)
}

/// The SID that the bytes begin with.
#[tactic(auto, unfolding(crate::specs::SecurityTexts::sid_of))]
pub fn sid_text(alloc: Global, bytes: &[u8]) -> Result<Option<String>, AllocError>
    ensures { IfOk result (λ text. option_map string_bytes text ≡ sid_of bytes.now) }
{
    if !is_sid(bytes) {
        return Ok(None);
    }
    let numbers = numbers_text(alloc, bytes)?;
    Ok(Some(String::from_str(alloc, short_name(numbers.as_str()))?))
}
