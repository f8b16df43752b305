//! Where lines that aren't understood stop.
ghost use Rattle.std.specs.Prelude.{◌≡◌, IfOk};
ghost use Rattle.reg_dotreg_reader.specs.LineStops.{data_stop, behind_name_stop, unnamed_stop, value_stop, way_stop, long_stop};
ghost use Rattle.reg_dotreg_reader.specs.LineStops.{below_stop, between_stop, behind_bracket, open_stop, key_stop, line_stop};

use crate::expected::Expected;
use crate::fault::LineFault;
use crate::number_stops::{behind_stop, bytes_stop, number_stop};
use crate::path_stops::path_stop;
use crate::quote_stops::{name_stop, text_stop};
use crate::roots::{behind_root, lengthened};
use crate::values::name_read;
use crate::words::{before_mark, behind_blanks, behind_word};
use std::alloc::{AllocError, Global};

/// Where the text, the number or the bytes of a value stop.
#[tactic(auto, using(crate::proofs::StopSteps::data_stops))]
fn data_stop(alloc: Global, text: &[u16]) -> Result<(Expected, usize), AllocError>
    ensures { IfOk result (λ stop. stop ≡ data_stop text.now) }
{
    if let Some(rest) = behind_word(b"-", text) {
        return Ok(behind_stop(rest));
    }
    if let Some(rest) = behind_word(b"\"", text) {
        return text_stop(alloc, rest);
    }
    if let Some(digits) = behind_word(b"dword:", text) {
        return Ok(number_stop(digits));
    }
    match behind_word(b"hex", text) {
        Some(rest) => Ok(bytes_stop(rest)),
        None => Ok((Expected::Value, text.len())),
    }
}

/// Where what stands behind a value's name stops.
#[tactic(auto, using(crate::proofs::StopSteps::equals_stops))]
fn behind_name_stop(alloc: Global, rest: &[u16]) -> Result<(Expected, usize), AllocError>
    ensures { IfOk result (λ stop. stop ≡ behind_name_stop rest.now) }
{
    match behind_word(b"=", rest) {
        Some(text) => data_stop(alloc, behind_blanks(text)),
        None => Ok((Expected::Equals, rest.len())),
    }
}

/// Where a value's line stops in its name.
fn unnamed_stop(alloc: Global, line: &[u16]) -> Result<(Expected, usize), AllocError>
    ensures { IfOk result (λ stop. stop ≡ unnamed_stop line.now) }
{
    match behind_word(b"\"", line) {
        Some(text) => name_stop(alloc, text),
        None => Ok((Expected::Line, line.len())),
    }
}

/// Where a value's line stops.
#[tactic(auto, using(crate::proofs::StopSteps::value_stops))]
fn value_stop(alloc: Global, line: &[u16]) -> Result<(Expected, usize), AllocError>
    ensures { IfOk result (λ stop. stop ≡ value_stop line.now) }
{
    match name_read(alloc, line) {
        Ok((_name, rest)) => behind_name_stop(alloc, behind_blanks(rest)),
        Err(LineFault::Form) => unnamed_stop(alloc, line),
        Err(LineFault::Memory) => Err(AllocError),
    }
}

/// Where what stands behind the root's name stops, of a key of so many units.
fn way_stop(whole: usize, rest: &[u16]) -> (Expected, usize)
    ensures { result ≡ way_stop whole rest.now }
{
    let Some((first, path)) = rest.split_first() else {
        return (Expected::Root, whole);
    };
    if *first == 92 {
        path_stop(path)
    } else {
        (Expected::Root, whole)
    }
}

/// Where a key without its brackets stops, by its units in the long form.
fn long_stop(whole: usize, root: &[u16], long: &[u16]) -> (Expected, usize)
    ensures { result ≡ long_stop whole root.now long.now }
{
    match behind_root(root, long) {
        Some(rest) => way_stop(whole, rest),
        None => (Expected::Root, whole),
    }
}

/// Where a key without its brackets stops.
#[tactic(auto, using(crate::proofs::StopSteps::below_stops))]
fn below_stop(alloc: Global, root: &[u16], units: &[u16]) -> Result<(Expected, usize), AllocError>
    ensures { IfOk result (λ stop. stop ≡ below_stop root.now units.now) }
{
    match lengthened(alloc, units)? {
        Some(long) => Ok(long_stop(units.len(), root, &long)),
        None => Ok(long_stop(units.len(), root, units)),
    }
}

/// Where what stands between brackets stops.
fn between_stop(alloc: Global, root: &[u16], units: &[u16]) -> Result<(Expected, usize), AllocError>
    ensures { IfOk result (λ stop. stop ≡ between_stop root.now units.now) }
{
    match behind_word(b"-", units) {
        Some(rest) => below_stop(alloc, root, rest),
        None => below_stop(alloc, root, units),
    }
}

/// What stands behind the last bracket that closes, or all.
#[tactic(auto, using(crate::proofs::StopPlaces::bracket_is))]
fn behind_bracket(line: &[u16]) -> &[u16]
    ensures { result.now ≡ behind_bracket line.now }
{
    let mut end = line.len();
    while end > 0 && line[end - 1] != 93 {
        end -= 1;
    }
    &line[end..]
}

/// Where a key stops that no bracket closes at its line's end, by what stands behind the last one.
fn open_stop(behind: &[u16], line: &[u16]) -> (Expected, usize)
    ensures { result ≡ open_stop behind.now line.now }
{
    if behind.len() == line.len() {
        (Expected::Bracket, 0)
    } else {
        (Expected::End, behind_blanks(behind).len())
    }
}

/// Where a key's line stops, behind the bracket that opens it.
#[tactic(auto, using(crate::proofs::StopSteps::key_stops))]
fn key_stop(alloc: Global, root: &[u16], line: &[u16]) -> Result<(Expected, usize), AllocError>
    ensures { IfOk result (λ stop. stop ≡ key_stop root.now line.now) }
{
    let Some(units) = before_mark(93, line) else {
        return Ok(open_stop(behind_bracket(line), line));
    };
    let (expected, left) = between_stop(alloc, root, units)?;
    if left < line.len() {
        Ok((expected, left + 1))
    } else {
        Ok((expected, line.len()))
    }
}

/// Where a line without blanks at both ends stops, which isn't understood below a root in its long form.
#[tactic(auto, using(crate::proofs::StopSteps::line_stops))]
pub fn line_stop(alloc: Global, root: &[u16], line: &[u16]) -> Result<(Expected, usize), AllocError>
    ensures { IfOk result (λ stop. stop ≡ line_stop root.now line.now) }
{
    let Some((first, rest)) = line.split_first() else {
        return Ok((Expected::Line, 0));
    };
    match *first {
        91 => key_stop(alloc, root, rest),
        34 | 64 => value_stop(alloc, line),
        _ => Ok((Expected::Line, line.len())),
    }
}
