//! The lines of values.
ghost use Rattle.std.specs.Prelude.{◌≡◌, position, codes};
ghost use Rattle.std.specs.Str.{bytes_eq};
ghost use Rattle.reg_dotreg_reader.specs.EntryMeanings.{is_close, name_read, text_data, number_data};
ghost use Rattle.reg_dotreg_reader.specs.EntryMeanings.{is_text_kind, stored, typed_bytes, kind_data, bytes_data};
ghost use Rattle.reg_dotreg_reader.specs.EntryMeanings.{data_of, valued, value_said};
ghost use Rattle.reg_dotreg_reader.specs.Internal.ReadSoFar.{Reads};

use crate::entry::Entry;
use crate::fault::LineFault;
use crate::numbers::{list_bytes, number};
use crate::quotes::{ended_bytes, plain_bytes, quoted, value_name};
use crate::words::{behind_blanks, behind_word};
use reg_model::Bytes;
use std::alloc::Global;

/// The name that a value's line begins with, and what stands behind it.
#[tactic(auto, using(crate::proofs::EntryReadings::names))]
pub fn name_read(alloc: Global, line: &[u16]) -> Result<(Vec<u8>, &[u16]), LineFault>
    ensures { Reads (λ r. (r.0.items, r.1.now)) (name_read line.now) result }
{
    if let Some(rest) = behind_word(b"@", line) {
        return Ok((Vec::new(alloc), rest));
    }
    let Some(rest) = behind_word(b"\"", line) else {
        return Err(LineFault::Form);
    };
    let (units, rest) = quoted(alloc, rest)?;
    Ok((value_name(alloc, &units)?, rest))
}

/// A text, behind the quote that opens it.
#[tactic(auto, using(crate::proofs::EntryReadings::text_open, crate::proofs::EntryReadings::text_is, crate::proofs::EntryReadings::text_behind))]
fn text_data(alloc: Global, rest: &[u16]) -> Result<(u32, Vec<u8>), LineFault>
    ensures { Reads (λ r. (r.0, r.1.items)) (text_data rest.now) result }
{
    let (units, behind) = quoted(alloc, rest)?;
    if behind.is_empty() {
        Ok((1, ended_bytes(alloc, &units)?))
    } else {
        Err(LineFault::Form)
    }
}

/// A number of 32 bits.
#[tactic(auto, using(crate::proofs::EntryReadings::dword_is, crate::proofs::EntryReadings::dword_not))]
fn number_data(alloc: Global, digits: &[u16]) -> Result<(u32, Vec<u8>), LineFault>
    ensures { Reads (λ r. (r.0, r.1.items)) (number_data digits.now) result }
{
    let number = number(8, digits)?;
    Ok((4, Vec::from_slice(alloc, &number.to_le_bytes())?))
}

pub fn first_close(text: &[u16]) -> Option<usize>
    ensures { result ≡ position is_close text.now }
{
    text.iter().position(|unit| *unit == 41)
}

/// Whether a type is of texts.
fn is_text_kind(kind: u32) -> bool
    ensures { result ≡ is_text_kind kind }
{
    kind == 1 || kind == 2 || kind == 7
}

/// What some bytes of a type stand for: in a narrow text those of a text are characters of one byte.
fn stored(alloc: Global, is_narrow: bool, kind: u32, bytes: Vec<u8>) -> Result<Vec<u8>, LineFault>
    ensures { Reads (λ v. v.items) (stored is_narrow kind bytes.items) result }
{
    if is_narrow && is_text_kind(kind) {
        plain_bytes(alloc, &bytes)
    } else {
        Ok(bytes)
    }
}

/// Bytes of a type.
fn typed_bytes(
    alloc: Global,
    is_narrow: bool,
    kind: u32,
    list: &[u16],
) -> Result<(u32, Vec<u8>), LineFault>
    ensures { Reads (λ r. (r.0, r.1.items)) (typed_bytes is_narrow kind list.now) result }
{
    let bytes = list_bytes(alloc, list)?;
    Ok((kind, stored(alloc, is_narrow, kind, bytes)?))
}

/// A type in digits, closed by `)`, then a colon and the bytes.
#[tactic(auto, using(crate::proofs::EntryReadings::kinds))]
fn kind_data(alloc: Global, is_narrow: bool, text: &[u16]) -> Result<(u32, Vec<u8>), LineFault>
    ensures { Reads (λ r. (r.0, r.1.items)) (kind_data is_narrow text.now) result }
{
    let Some(close) = first_close(text) else {
        return Err(LineFault::Form);
    };
    let kind = number(8, &text[..close])?;
    match behind_word(b":", &text[close + 1..]) {
        Some(list) => typed_bytes(alloc, is_narrow, kind, list),
        None => Err(LineFault::Form),
    }
}

/// What stands behind `hex`: a colon and the bytes, or a type in parentheses.
#[tactic(auto, using(crate::proofs::EntryReadings::bytes_colon, crate::proofs::EntryReadings::bytes_kind, crate::proofs::EntryReadings::bytes_not))]
fn bytes_data(alloc: Global, is_narrow: bool, rest: &[u16]) -> Result<(u32, Vec<u8>), LineFault>
    ensures { Reads (λ r. (r.0, r.1.items)) (bytes_data is_narrow rest.now) result }
{
    if let Some(list) = behind_word(b":", rest) {
        return typed_bytes(alloc, is_narrow, 3, list);
    }
    match behind_word(b"(", rest) {
        Some(text) => kind_data(alloc, is_narrow, text),
        None => Err(LineFault::Form),
    }
}

/// A value's type and bytes: a text in quotes, a number, or bytes.
#[tactic(auto, using(crate::proofs::EntryReadings::all_data))]
fn data_of(alloc: Global, is_narrow: bool, text: &[u16]) -> Result<(u32, Vec<u8>), LineFault>
    ensures { Reads (λ r. (r.0, r.1.items)) (data_of is_narrow text.now) result }
{
    if let Some(rest) = behind_word(b"\"", text) {
        return text_data(alloc, rest);
    }
    if let Some(digits) = behind_word(b"dword:", text) {
        return number_data(alloc, digits);
    }
    match behind_word(b"hex", text) {
        Some(rest) => bytes_data(alloc, is_narrow, rest),
        None => Err(LineFault::Form),
    }
}

/// Whether the text is just `-`.
fn is_hyphen(text: &[u16]) -> bool
    ensures { result ≡ bytes_eq text.now (codes "-") }
{
    text.len() == 1 && text[0] == 45
}

/// What stands behind a value's `=`: `-`, or its type and bytes.
#[tactic(auto, using(crate::proofs::EntrySteps::value_goes, crate::proofs::EntrySteps::value_is, crate::proofs::EntrySteps::value_not))]
fn valued(alloc: Global, is_narrow: bool, name: Vec<u8>, text: &[u16]) -> Result<Entry, LineFault>
    ensures { Reads (λ e. e) (valued is_narrow name.items text.now) result }
{
    let name = Bytes::from_vec(name);
    if is_hyphen(text) {
        return Ok(Entry::GoneValue(name));
    }
    let (kind, bytes) = data_of(alloc, is_narrow, text)?;
    Ok(Entry::Value {
        name,
        kind,
        bytes: Bytes::from_vec(bytes),
    })
}

/// A value's line.
#[tactic(auto, using(crate::proofs::EntrySteps::line_named, crate::proofs::EntrySteps::line_no_equals, crate::proofs::EntrySteps::line_no_name))]
pub fn value_said(alloc: Global, is_narrow: bool, line: &[u16]) -> Result<Entry, LineFault>
    ensures { Reads (λ e. e) (value_said is_narrow line.now) result }
{
    let (name, rest) = name_read(alloc, line)?;
    match behind_word(b"=", behind_blanks(rest)) {
        Some(text) => valued(alloc, is_narrow, name, behind_blanks(text)),
        None => Err(LineFault::Form),
    }
}
