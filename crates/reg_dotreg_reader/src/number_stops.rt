//! Where numbers and bytes that aren't understood stop.
ghost use Rattle.std.specs.Prelude.{◌≡◌, ◌≤◌, length};
ghost use Rattle.std.specs.List.{list_any, slice_split, position, position_or_len, before_first, after_first};
ghost use Rattle.reg_dotreg_reader.specs.EntryMeanings.{is_close};
ghost use Rattle.reg_dotreg_reader.specs.EntryWords.{behind_blanks as behind_blanks_of, is_comma};
ghost use Rattle.reg_dotreg_reader.specs.LineStops.{is_no_digit, few_digits, behind_stop, begins_blank, is_whole, counted_stop, number_stop};
ghost use Rattle.reg_dotreg_reader.specs.LineStops.{left_from_bad, list_stop, behind_kind, kind_stop, bytes_stop};

use crate::expected::Expected;
use crate::numbers::{digit, first_comma, is_byte_to, number};
use crate::values::first_close;
use crate::words::{behind_blanks, behind_word, is_blank};

fn first_other(units: &[u16]) -> Option<usize>
    ensures { result ≡ position is_no_digit units.now }
{
    units.iter().position(|unit| digit(*unit).is_none())
}

/// How many digits stand at the start of some units.
#[tactic(auto, using(crate::proofs::StopPlaces::digit_places))]
fn digits_at_start(units: &[u16]) -> usize
    ensures count { result ≡ position_or_len is_no_digit units.now }
    ensures within { result ≤ length units.now }
{
    match first_other(units) {
        Some(end) => end,
        None => units.len(),
    }
}

/// How many digits stand at the start of some units, at most eight.
#[tactic(auto, using(crate::proofs::StopPlaces::few_at_start), unfolding(crate::specs::LineStops::few_digits))]
fn few_digits(units: &[u16]) -> usize
    ensures count { result ≡ few_digits units.now }
    ensures within { result ≤ length units.now }
{
    if units.len() < 8 {
        return digits_at_start(units);
    }
    digits_at_start(&units[..8])
}

/// Where a value stops that is whole, by what stands behind it.
pub fn behind_stop(rest: &[u16]) -> (Expected, usize)
    ensures { result ≡ behind_stop rest.now }
{
    (Expected::Comment, behind_blanks(rest).len())
}

/// Whether a blank stands at the start of some units.
fn begins_blank(units: &[u16]) -> bool
    ensures { result ≡ begins_blank units.now }
{
    match units.first() {
        Some(unit) => is_blank(*unit),
        None => false,
    }
}

/// Whether a number of so many digits is whole before some units.
fn is_whole(count: usize, rest: &[u16]) -> bool
    ensures { result ≡ is_whole count rest.now }
{
    count == 8 || (count > 0 && begins_blank(rest))
}

/// Where a number of 32 bits stops, by how many digits it has and what stands behind them.
fn counted_stop(count: usize, rest: &[u16]) -> (Expected, usize)
    ensures { result ≡ counted_stop count rest.now }
{
    if is_whole(count, rest) {
        behind_stop(rest)
    } else {
        (Expected::Number, rest.len())
    }
}

/// Where a number of 32 bits stops.
#[tactic(auto, using(crate::proofs::StopPlaces::number_counted))]
pub fn number_stop(digits: &[u16]) -> (Expected, usize)
    ensures { result ≡ number_stop digits.now }
{
    let count = few_digits(digits);
    counted_stop(count, &digits[count..])
}

/// How many units are left without the blanks at their start.
#[tactic(auto, using(crate::proofs::StopPlaces::blanks_within))]
fn left_behind_blanks(units: &[u16]) -> usize
    ensures count { result ≡ length (behind_blanks_of units.now) }
    ensures within { result ≤ length units.now }
{
    behind_blanks(units).len()
}

/// How many units are left from the first piece of a list on that is no byte of at most so much, without the blanks before it.
#[tactic(auto, using(crate::proofs::StopPlaces::pieces_left))]
fn left_from_bad(most: u32, list: &[u16]) -> Option<usize>
    ensures { result ≡ left_from_bad most (slice_split is_comma list.now) }
{
    let mut rest = list;
    while let Some(comma) = first_comma(rest) {
        let piece = &rest[..comma];
        if !is_byte_to(most, piece) {
            return Some(left_behind_blanks(piece) + (rest.len() - comma));
        }
        rest = &rest[comma + 1..];
    }
    let last = left_behind_blanks(rest);
    if last == 0 {
        return None;
    }
    if is_byte_to(most, rest) {
        return None;
    }
    Some(last)
}

/// Where a list of bytes stops: at the first that is none, or else at the first that is above 0x7F.
#[tactic(auto, unfolding(crate::specs::LineStops::list_stop))]
pub fn list_stop(list: &[u16]) -> (Expected, usize)
    ensures { result ≡ list_stop list.now }
{
    if let Some(left) = left_from_bad(0xFF, list) {
        return (Expected::Byte, left);
    }
    match left_from_bad(0x7F, list) {
        Some(left) => (Expected::PlainBytes, left),
        None => (Expected::PlainBytes, 0),
    }
}

/// What stands before the first `)`, or all, and what behind it, or nothing.
fn around_close(text: &[u16]) -> (&[u16], &[u16])
    ensures before { result.0.now ≡ before_first is_close text.now }
    ensures behind { result.1.now ≡ after_first is_close text.now }
{
    match first_close(text) {
        Some(close) => (&text[..close], &text[close + 1..]),
        None => (text, &text[text.len()..]),
    }
}

/// Whether a `)` stands in a text.
fn has_close(text: &[u16]) -> bool
    ensures { result ≡ list_any is_close text.now }
{
    text.iter().any(|unit| *unit == 41)
}

/// What was expected behind a type: a colon, and `)` before it where none stands.
fn behind_kind(text: &[u16]) -> Expected
    ensures { result ≡ behind_kind text.now }
{
    if has_close(text) {
        Expected::Colon
    } else {
        Expected::Close
    }
}

/// Where a type and bytes stop, behind `hex(`.
#[tactic(auto, using(crate::proofs::StopSteps::kind_stops))]
fn kind_stop(text: &[u16]) -> (Expected, usize)
    ensures { result ≡ kind_stop text.now }
{
    let (digits, behind) = around_close(text);
    let Ok(_kind) = number(8, digits) else {
        return (Expected::Kind, text.len() - few_digits(text));
    };
    match behind_word(b":", behind) {
        Some(list) => list_stop(list),
        None => (behind_kind(text), behind.len()),
    }
}

/// Where bytes stop, behind `hex`.
#[tactic(auto, using(crate::proofs::StopSteps::bytes_stops))]
pub fn bytes_stop(rest: &[u16]) -> (Expected, usize)
    ensures { result ≡ bytes_stop rest.now }
{
    if let Some(list) = behind_word(b":", rest) {
        return list_stop(list);
    }
    match behind_word(b"(", rest) {
        Some(text) => kind_stop(text),
        None => (Expected::Bytes, rest.len()),
    }
}
