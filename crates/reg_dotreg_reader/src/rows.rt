//! The rows of a value: its lines, without comments, and joined.
ghost use Rattle.std.specs.Prelude.{◌≡◌, ◌≤◌, ◌+◌, ◌==◌, ◌&&◌, ◌++◌, length, drop, option_copied, option_map, IfOk};
ghost use Rattle.std.specs.List.{prefix_len};
ghost use Rattle.reg_dotreg_reader.specs.EntryLines.{lines_of, is_value_line, whole_of, goes_on, place_behind, is_outside as is_outside_of, cut};
ghost use Rattle.reg_dotreg_reader.specs.EntryLines.{kept, is_comment, passed, carried, joined};
ghost use Rattle.reg_dotreg_reader.specs.BadLines.{ends_quoted};
ghost use Rattle.reg_dotreg_reader.specs.declared.rows.Place.TheVariants.{Outside};

use crate::lines::{first_line, without_return};
use crate::words::{before_blanks, before_mark, behind_blanks};
use std::alloc::{AllocError, Global};

/// Where a unit of a value stands.
#[derive(Clone, Copy)]
pub enum Place {
    /// Outside of quotes.
    Outside,
    /// In quotes.
    Quoted,
    /// In quotes, behind a backslash.
    Escaped,
}

impl Place {
    /// Whether it is outside of quotes.
    fn is_outside(self) -> bool
        ensures { result ≡ is_outside_of self }
    {
        match self {
            Place::Outside => true,
            Place::Quoted | Place::Escaped => false,
        }
    }

    /// Whether a comment begins with a unit there.
    fn begins_comment(self, unit: u16) -> bool
        ensures { result ≡ (is_outside_of self && unit == 59) }
    {
        self.is_outside() && unit == 59
    }

    /// The place behind a unit.
    fn behind(self, unit: u16) -> Place
        ensures { result ≡ place_behind self unit }
    {
        match self {
            Place::Outside if unit == 34 => Place::Quoted,
            Place::Outside => Place::Outside,
            Place::Quoted if unit == 34 => Place::Outside,
            Place::Quoted if unit == 92 => Place::Escaped,
            Place::Quoted | Place::Escaped => Place::Quoted,
        }
    }
}

/// Whether a line is a value's.
pub fn is_value_line(line: &[u16]) -> bool
    ensures { result ≡ is_value_line line.now }
{
    match behind_blanks(line).first() {
        Some(unit) => *unit == 34 || *unit == 64,
        None => false,
    }
}

/// Whether a line is a comment alone.
fn is_comment(line: &[u16]) -> bool
    ensures { result ≡ is_comment line.now }
{
    match behind_blanks(line).first() {
        Some(unit) => *unit == 59,
        None => false,
    }
}

/// What stands before a comment, from a place on, and the place there.
#[tactic(auto, using(crate::proofs::ValueRows::cuts))]
fn cut(place: Place, row: &[u16]) -> (&[u16], Place)
    ensures kept { result.0.now ≡ (cut place row.now).0 }
    ensures place { result.1 ≡ (cut place row.now).1 }
{
    let mut at = place;
    for (end, unit) in row.iter().enumerate() {
        if at.begins_comment(*unit) {
            return (&row[..end], at);
        }
        at = at.behind(*unit);
    }
    (row, at)
}

/// What a row that goes on in the next one says itself.
#[tactic(auto, unfolding(crate::specs::EntryLines::goes_on))]
fn goes_on(row: &[u16]) -> Option<&[u16]>
    ensures { option_copied result ≡ goes_on row.now }
{
    before_mark(92, before_blanks(row))
}

/// A row of a value.
#[derive(Drop)]
pub struct Row<'a> {
    /// What is kept of it.
    pub kept: &'a [u16],
    /// What it says itself where it goes on in the next one, and the place at which that begins.
    pub carried: Option<(&'a [u16], Place)>,
}

/// A row that begins at a place. One that ends in quotes stands for itself, with the CR at its end.
#[tactic(auto, using(crate::proofs::ValueRows::carries))]
pub fn row_at(place: Place, line: &[u16]) -> Row<'_>
    ensures kept { result.kept.now ≡ kept place line.now }
    ensures carried { option_map (λ p. (p.0.now, p.1)) result.carried ≡ carried place line.now }
{
    let (kept, end) = cut(place, without_return(line));
    if !end.is_outside() {
        return Row {
            kept,
            carried: Some((line, Place::Quoted)),
        };
    }
    match goes_on(kept) {
        Some(front) => Row {
            kept,
            carried: Some((front, Place::Outside)),
        },
        None => Row {
            kept,
            carried: None,
        },
    }
}

/// What is kept of a row.
fn kept(place: Place, row: &[u16]) -> &[u16]
    ensures { result.now ≡ kept place row.now }
{
    row_at(place, row).kept
}

/// What a row that goes on in the next one says itself.
pub fn carried(place: Place, row: &[u16]) -> Option<(&[u16], Place)>
    ensures { option_map (λ p. (p.0.now, p.1)) result ≡ carried place row.now }
{
    row_at(place, row).carried
}

/// How many lines at a text's start are comments alone, and the text behind them.
#[tactic(auto, using(crate::proofs::ValueRows::comments))]
fn behind_comments(text: &[u16]) -> (usize, &[u16])
    ensures count { result.0 ≡ prefix_len is_comment (lines_of text.now) }
    ensures rest { lines_of result.1.now ≡ drop result.0 (lines_of text.now) }
    ensures within { result.0 + length result.1.now ≤ length text.now }
{
    let mut count = 0;
    let mut rest = text;
    while let Some((line, others)) = first_line(rest) {
        if !is_comment(line) {
            return (count, rest);
        }
        count += 1;
        rest = others;
    }
    (count, rest)
}

/// The comments that stand before the next row, where it may have some.
pub fn passed(place: Place, text: &[u16]) -> (usize, &[u16])
    ensures count { result.0 ≡ passed place (lines_of text.now) }
    ensures rest { lines_of result.1.now ≡ drop result.0 (lines_of text.now) }
    ensures within { result.0 + length result.1.now ≤ length text.now }
{
    if place.is_outside() {
        behind_comments(text)
    } else {
        (0, text)
    }
}

/// A value's rows, joined.
#[derive(Drop)]
pub struct WholeValue<'a> {
    /// Their units.
    pub units: Vec<u16>,
    /// How many lines there are besides the first.
    pub taken: usize,
    /// The text behind them.
    pub rest: &'a [u16],
}

/// The rows before the last one with that.
fn ended<'a>(
    mut units: Vec<u16>,
    last: &[u16],
    taken: usize,
    rest: &'a [u16],
) -> Result<WholeValue<'a>, AllocError>
    ensures units { IfOk result (λ j. j.units.items ≡ units.items ++ last.now) }
    ensures taken { IfOk result (λ j. j.taken ≡ taken) }
    ensures rest { IfOk result (λ j. j.rest.now ≡ rest.now) }
{
    units.extend_from_slice(last)?;
    Ok(WholeValue { units, taken, rest })
}

/// A value's first row with those that it goes on in, of the text behind it.
pub fn joined<'a>(
    alloc: Global,
    line: &'a [u16],
    behind: &'a [u16],
) -> Result<WholeValue<'a>, AllocError>
    ensures units { IfOk result (λ j. j.units.items ≡ (joined Outside line.now (lines_of behind.now)).0) }
    ensures taken { IfOk result (λ j. j.taken ≡ (joined Outside line.now (lines_of behind.now)).1) }
    ensures rest { IfOk result (λ j. lines_of j.rest.now ≡ drop j.taken (lines_of behind.now)) }
    ensures within { IfOk result (λ j. j.taken + length j.rest.now ≤ length behind.now) }
{
    // Most have a few more lines, as long as the first.
    let mut units = Vec::with_capacity(alloc, line.len().saturating_mul(4))?;
    let mut place = Place::Outside;
    let mut row = line;
    let mut rest = behind;
    let mut taken = 0;
    while let Some((front, then)) = carried(place, row) {
        let (comments, left) = passed(then, rest);
        let Some((next, others)) = first_line(left) else {
            return ended(units, kept(place, row), taken + comments, left);
        };
        units.extend_from_slice(front)?;
        units.push(10)?;
        place = then;
        row = next;
        rest = others;
        taken += comments + 1;
    }
    ended(units, kept(place, row), taken, rest)
}

/// A line with those that it goes on in, of the text behind it.
#[tactic(auto, using(crate::proofs::ValueRows::whole_joined, crate::proofs::ValueRows::whole_other))]
pub fn whole_row<'a>(
    alloc: Global,
    line: &'a [u16],
    behind: &'a [u16],
) -> Result<WholeValue<'a>, AllocError>
    ensures units { IfOk result (λ j. j.units.items ≡ (whole_of line.now (lines_of behind.now)).0) }
    ensures taken { IfOk result (λ j. j.taken ≡ (whole_of line.now (lines_of behind.now)).1) }
    ensures rest { IfOk result (λ j. lines_of j.rest.now ≡ drop j.taken (lines_of behind.now)) }
    ensures within { IfOk result (λ j. j.taken + length j.rest.now ≤ length behind.now) }
{
    if is_value_line(line) {
        return joined(alloc, line, behind);
    }
    Ok(WholeValue {
        units: Vec::from_slice(alloc, without_return(line))?,
        taken: 0,
        rest: behind,
    })
}

/// Whether a line is a value's and ends in quotes.
pub fn ends_quoted(line: &[u16]) -> bool
    ensures { result ≡ ends_quoted line.now }
{
    let (_kept, end) = cut(Place::Outside, without_return(line));
    is_value_line(line) && !end.is_outside()
}
