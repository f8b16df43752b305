//! The places of what isn't understood.
ghost use Rattle.std.specs.Prelude.{◌≡◌, ◌<◌, ◌≤◌, ◌+◌, length, IfOk};
ghost use Rattle.reg_dotreg_reader.specs.declared.rows.Place.TheVariants.{Outside};
ghost use Rattle.reg_dotreg_reader.specs.EntryLines.{lines_of};
ghost use Rattle.reg_dotreg_reader.specs.BadLines.{is_second, place_after, place_behind_units, lines_to, before_stop, from_stop, bad_line};
ghost use Rattle.reg_dotreg_reader.specs.LineStops.{found_at};

use crate::expected::{BadLine, Expected};
use crate::lines::first_line;
use crate::rows::{Place, carried, passed};
use crate::units::Units;
use crate::words::{before_mark, behind_blanks, trimmed};
use std::alloc::{AllocError, Global};

/// Whether a unit is the second one of a pair of surrogates.
fn is_second(unit: u16) -> bool
    ensures { result ≡ is_second unit }
{
    unit >= 0xDC00 && unit <= 0xDFFF
}

/// The row and the column behind a unit.
fn place_after(row: usize, column: usize, unit: u16) -> (usize, usize)
    requires row { row < 18446744073709551615 }
    requires column { column < 18446744073709551615 }
    ensures place { result ≡ place_after row column unit }
    ensures row { result.0 ≤ row + 1 }
    ensures column { result.1 ≤ column + 1 }
{
    if unit == 10 {
        return (row + 1, 1);
    }
    if is_second(unit) {
        return (row, column);
    }
    (row, column + 1)
}

/// The row and the column behind some units.
#[tactic(auto, using(crate::proofs::LinePlaces::places))]
fn place_behind(units: &[u16]) -> (usize, usize)
    ensures { result ≡ place_behind_units units.now }
{
    let mut rest = units;
    let mut row: usize = 0;
    let mut column: usize = 1;
    while let Some((unit, others)) = rest.split_first() {
        let (row_after, column_after) = place_after(row, column, *unit);
        row = row_after;
        column = column_after;
        rest = others;
    }
    (row, column)
}

/// How many lines behind a value's first row so many rows later begin.
#[tactic(auto, using(crate::proofs::LinePlaces::rows_later))]
fn lines_to(line: &[u16], rows: usize, behind: &[u16]) -> usize
    ensures count { result ≡ lines_to Outside line.now rows (lines_of behind.now) }
    ensures within { result ≤ length behind.now }
{
    let mut place = Place::Outside;
    let mut row = line;
    let mut left = rows;
    let mut rest = behind;
    let mut taken = 0;
    while left > 0 {
        let Some((_front, then)) = carried(place, row) else {
            return taken;
        };
        let (comments, lines) = passed(then, rest);
        let Some((next, others)) = first_line(lines) else {
            return taken + comments;
        };
        place = then;
        row = next;
        rest = others;
        taken += comments + 1;
        left -= 1;
    }
    taken
}

/// How many of a line's units stand before a stop.
fn before_stop(units: &[u16], left: usize) -> usize
    ensures count { result ≡ before_stop units.now left }
    ensures within { result ≤ length units.now }
{
    let blanks = behind_blanks(units)
        .len()
        .saturating_sub(trimmed(units).len());
    units.len().saturating_sub(blanks).saturating_sub(left)
}

/// What stands from a stop on.
fn from_stop(units: &[u16], left: usize) -> &[u16]
    ensures { result.now ≡ from_stop units.now left }
{
    let line = trimmed(units);
    &line[line.len().saturating_sub(left)..]
}

/// What stands where the root's name was expected.
fn found_at(alloc: Global, expected: Expected, rest: &[u16]) -> Result<Units, AllocError>
    ensures { IfOk result (λ found. found ≡ found_at expected rest.now) }
{
    if !expected.is_root() {
        return Units::from_slice(alloc, &[]);
    }
    match before_mark(93, rest) {
        Some(front) => Units::from_slice(alloc, front),
        None => Units::from_slice(alloc, rest),
    }
}

/// A line that isn't understood at a stop, with that number: its first row, the text behind that, and its units, those of all its rows.
#[tactic(auto, unfolding(crate::specs::BadLines::bad_line))]
pub fn bad_line(
    alloc: Global,
    number: u64,
    row: &[u16],
    behind: &[u16],
    units: &[u16],
    stop: (Expected, usize),
) -> Result<BadLine, AllocError>
    requires { number + length behind.now < 18446744073709551616 }
    ensures { IfOk result (λ bad. bad ≡ bad_line number row.now (lines_of behind.now) units.now stop) }
{
    let (expected, left) = stop;
    let (rows, column) = place_behind(&units[..before_stop(units, left)]);
    let found = found_at(alloc, expected, from_stop(units, left))?;
    Ok(BadLine {
        line: number,
        at: number + lines_to(row, rows, behind) as u64,
        column: column as u64,
        expected,
        found,
    })
}
