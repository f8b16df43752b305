//! Where names and texts in quotes that aren't understood stop.
ghost use Rattle.std.specs.Prelude.{◌≡◌, ◌<◌, ◌+◌, length, not, false, IfOk};
ghost use Rattle.std.specs.List.{list_all, position, before_first, after_first};
ghost use Rattle.reg_names.specs.Names.{is_value_name_byte};
ghost use Rattle.reg_dotreg_reader.specs.EntryLines.{is_feed, lines_of};
ghost use Rattle.reg_dotreg_reader.specs.LineStops.{left_from, behind_after, has_quote, lacks_quote, unclosed, first_stop, several_stop, is_open};
ghost use Rattle.reg_dotreg_reader.specs.LineStops.{text_stop, bad_name, name_stop};

use crate::expected::Expected;
use crate::fault::LineFault;
use crate::lines::{first_feed, first_line};
use crate::number_stops::behind_stop;
use crate::quotes::{is_escaped, is_name_unit, quoted};
use crate::rows::is_value_line;
use std::alloc::{AllocError, Global};

/// How many units are left from the first LF on.
#[tactic(auto, using(crate::proofs::StopPlaces::places_left))]
fn left_from_feed(units: &[u16]) -> usize
    ensures { result ≡ left_from is_feed units.now }
{
    match first_feed(units) {
        Some(at) => units.len() - at,
        None => 0,
    }
}

fn first_other(units: &[u16]) -> Option<usize>
    ensures { result ≡ position (λ u. not (is_value_name_byte u)) units.now }
{
    units.iter().position(|unit| !is_name_unit(*unit))
}

/// How many units are left from the first one on that names may not have.
#[tactic(auto, using(crate::proofs::StopPlaces::places_left))]
pub fn left_from_other(units: &[u16]) -> usize
    ensures { result ≡ left_from (λ u. not (is_value_name_byte u)) units.now }
{
    match first_other(units) {
        Some(at) => units.len() - at,
        None => 0,
    }
}

/// Whether names may have all of some units.
pub fn are_name_units(units: &[u16]) -> bool
    ensures { result ≡ list_all is_value_name_byte units.now }
{
    units.iter().all(|unit| is_name_unit(*unit))
}

/// Whether what stands behind a unit stands behind a backslash; `None` where the unit does, and may not.
fn behind_after(is_behind_backslash: bool, unit: u16) -> Option<bool>
    ensures { result ≡ behind_after is_behind_backslash unit }
{
    if !is_behind_backslash {
        return Some(unit == 92);
    }
    if is_escaped(unit) { Some(false) } else { None }
}

/// Whether a quote stands in a line.
fn has_quote(line: &[u16]) -> bool
    ensures { result ≡ has_quote line.now }
{
    line.iter().any(|unit| *unit == 34)
}

/// Whether a quote seems to lack before a text: the next one begins a value's line, or there is none.
#[tactic(auto, using(crate::proofs::StopSteps::quotes_lack))]
pub fn lacks_quote(text: &[u16]) -> bool
    ensures { result ≡ lacks_quote (lines_of text.now) }
{
    let mut rest = text;
    while let Some((line, others)) = first_line(rest) {
        if has_quote(line) {
            return is_value_line(line);
        }
        rest = others;
    }
    true
}

/// Where a quoted text stops that no quote closes, with so many units left behind it.
#[tactic(auto, using(crate::proofs::StopPlaces::quotes_left))]
fn unclosed(left: usize, text: &[u16]) -> (Expected, usize)
    requires { left + length text.now < 18446744073709551616 }
    ensures { result ≡ unclosed left false text.now }
{
    let mut rest = text;
    let mut is_behind_backslash = false;
    while let Some((unit, others)) = rest.split_first() {
        let Some(then) = behind_after(is_behind_backslash, *unit) else {
            return (Expected::Escaped, left + rest.len());
        };
        is_behind_backslash = then;
        rest = others;
    }
    (Expected::Quote, left)
}

/// A text's first line, and what stands behind its LF, or nothing.
fn around_feed(text: &[u16]) -> (&[u16], &[u16])
    ensures before { result.0.now ≡ before_first is_feed text.now }
    ensures behind { result.1.now ≡ after_first is_feed text.now }
{
    match first_feed(text) {
        Some(at) => (&text[..at], &text[at + 1..]),
        None => (text, &text[text.len()..]),
    }
}

/// Where a text stops that its first line was expected to close.
#[tactic(auto, using(crate::proofs::StopPlaces::feed_within), unfolding(crate::specs::LineStops::first_stop))]
fn first_stop(text: &[u16]) -> (Expected, usize)
    ensures { result ≡ first_stop text.now }
{
    let (first, _behind) = around_feed(text);
    unclosed(left_from_feed(text), first)
}

/// Where a text stops that may go over several lines.
#[tactic(auto, using(crate::proofs::StopSteps::several_stops))]
fn several_stop(alloc: Global, text: &[u16]) -> Result<(Expected, usize), AllocError>
    ensures { IfOk result (λ stop. stop ≡ several_stop text.now) }
{
    match quoted(alloc, text) {
        Ok((_units, behind)) => Ok(behind_stop(behind)),
        Err(LineFault::Form) => Ok(unclosed(0, text)),
        Err(LineFault::Memory) => Err(AllocError),
    }
}

/// Whether a text isn't closed in its first line, and a quote seems to lack there.
#[tactic(auto, using(crate::proofs::StopSteps::opens))]
fn is_open(alloc: Global, text: &[u16]) -> Result<bool, AllocError>
    ensures { IfOk result (λ b. b ≡ is_open text.now) }
{
    let (first, behind) = around_feed(text);
    match quoted(alloc, first) {
        Ok(_read) => Ok(false),
        Err(LineFault::Form) => Ok(lacks_quote(behind)),
        Err(LineFault::Memory) => Err(AllocError),
    }
}

/// Where a value's text stops, behind the quote that opens it.
#[tactic(auto, using(crate::proofs::StopSteps::text_stops))]
pub fn text_stop(alloc: Global, text: &[u16]) -> Result<(Expected, usize), AllocError>
    ensures { IfOk result (λ stop. stop ≡ text_stop text.now) }
{
    if is_open(alloc, text)? {
        return Ok(first_stop(text));
    }
    several_stop(alloc, text)
}

/// Where a name stops that is none, by its units.
fn bad_name(text: &[u16], units: &[u16]) -> (Expected, usize)
    ensures { result ≡ bad_name text.now units.now }
{
    if are_name_units(units) {
        return (Expected::ShortName, text.len());
    }
    (Expected::NameCharacter, left_from_other(text))
}

/// Where a value's name stops, behind the quote that opens it.
#[tactic(auto, using(crate::proofs::StopSteps::name_stops))]
pub fn name_stop(alloc: Global, text: &[u16]) -> Result<(Expected, usize), AllocError>
    ensures { IfOk result (λ stop. stop ≡ name_stop text.now) }
{
    let (first, _behind) = around_feed(text);
    match quoted(alloc, first) {
        Ok((units, _behind)) => Ok(bad_name(text, &units)),
        Err(LineFault::Form) => Ok(first_stop(text)),
        Err(LineFault::Memory) => Err(AllocError),
    }
}
