//! The lines of a text that aren't understood.
ghost use Rattle.std.specs.Prelude.{◌≡◌, ◌<◌, ◌≤◌, ◌+◌, ◌++◌, ◌∷◌, [], length, drop, true, false, IfOk, OnOk};
ghost use Rattle.reg_dotreg_reader.specs.EntryLines.{lines_of, whole_of};
ghost use Rattle.reg_dotreg_reader.specs.EntryMeanings.{entries_in};
ghost use Rattle.reg_dotreg_reader.specs.declared.expected.Expected.TheVariants as wanted;
ghost use Rattle.reg_dotreg_reader.specs.EntryWords.{trimmed};
ghost use Rattle.reg_dotreg_reader.specs.LineStops.{line_stop};
ghost use Rattle.reg_dotreg_reader.specs.Internal.ReadSoFar.{IsStep};
ghost use Rattle.reg_dotreg_reader.specs.BadLines.{bad_line, step_not, step_said, step, is_key_line, one_or_none, bad_from, bad_title, bad_lines_in, told, Tells};

use crate::entry::Entry;
use crate::expected::{BadLine, Expected};
use crate::fault::LineFault;
use crate::line_stops::line_stop;
use crate::lines::{first_line, without_return};
use crate::places::bad_line;
use crate::quote_stops::lacks_quote;
use crate::reading::{is_narrow_by, said};
use crate::roots::long_root;
use crate::rows::{WholeValue, ends_quoted, whole_row};
use crate::units::Units;
use crate::words::{before_blanks, behind_blanks, trimmed};
use std::alloc::{AllocError, Global};

/// What a line gives.
#[derive(Drop)]
struct LineStep<'a> {
    /// It, where it isn't understood.
    bad: Option<BadLine>,
    /// Whether values may stand behind it.
    is_open: bool,
    /// How many lines behind it belong to it.
    taken: usize,
    /// The text behind them.
    rest: &'a [u16],
}

/// Whether a line is one of keys.
fn is_key_line(line: &[u16]) -> bool
    ensures { result ≡ is_key_line line.now }
{
    match behind_blanks(line).first() {
        Some(unit) => *unit == 91,
        None => false,
    }
}

/// A line that isn't understood, with those that it goes on in.
fn bad_row(
    alloc: Global,
    root: &[u16],
    number: u64,
    line: &[u16],
    behind: &[u16],
    units: &[u16],
) -> Result<BadLine, AllocError>
    requires { number + length behind.now < 18446744073709551616 }
    ensures { IfOk result (λ bad. bad ≡ bad_line number line.now (lines_of behind.now) units.now (line_stop root.now (trimmed units.now))) }
{
    let stop = line_stop(alloc, root, trimmed(units))?;
    bad_line(alloc, number, line, behind, units, stop)
}

/// What a line gives that isn't understood.
fn step_not<'a>(
    alloc: Global,
    root: &[u16],
    number: u64,
    is_open: bool,
    line: &'a [u16],
    behind: &'a [u16],
    whole: WholeValue<'a>,
) -> Result<LineStep<'a>, AllocError>
    requires number { number + length behind.now < 18446744073709551616 }
    requires units { whole.units.items ≡ (whole_of line.now (lines_of behind.now)).0 }
    requires taken { whole.taken ≡ (whole_of line.now (lines_of behind.now)).1 }
    requires rest { lines_of whole.rest.now ≡ drop whole.taken (lines_of behind.now) }
    requires within { whole.taken + length whole.rest.now ≤ length behind.now }
    ensures step { IfOk result (λ s. IsStep (step_not root.now number is_open line.now (lines_of behind.now)) s.bad s.is_open s.taken) }
    ensures rest { IfOk result (λ s. lines_of s.rest.now ≡ drop s.taken (lines_of behind.now)) }
    ensures within { IfOk result (λ s. s.taken + length s.rest.now ≤ length behind.now) }
{
    let bad = bad_row(alloc, root, number, line, behind, &whole.units)?;
    let open_then = is_open || is_key_line(line);
    if ends_quoted(line) && lacks_quote(behind) {
        return Ok(LineStep {
            bad: Some(bad),
            is_open: open_then,
            taken: 0,
            rest: behind,
        });
    }
    Ok(LineStep {
        bad: Some(bad),
        is_open: open_then,
        taken: whole.taken,
        rest: whole.rest,
    })
}

/// A value that stands where none may.
fn homeless(
    alloc: Global,
    number: u64,
    line: &[u16],
    behind: &[u16],
    units: &[u16],
) -> Result<BadLine, AllocError>
    requires { number + length behind.now < 18446744073709551616 }
    ensures { IfOk result (λ bad. bad ≡ bad_line number line.now (lines_of behind.now) units.now (wanted.Key, length (trimmed units.now))) }
{
    let stop = (Expected::Key, trimmed(units).len());
    bad_line(alloc, number, line, behind, units, stop)
}

/// What a line gives that says nothing or an entry.
fn step_said<'a>(
    alloc: Global,
    number: u64,
    is_open: bool,
    line: &'a [u16],
    behind: &'a [u16],
    whole: WholeValue<'a>,
    entry: Option<Entry>,
) -> Result<LineStep<'a>, AllocError>
    requires number { number + length behind.now < 18446744073709551616 }
    requires units { whole.units.items ≡ (whole_of line.now (lines_of behind.now)).0 }
    requires taken { whole.taken ≡ (whole_of line.now (lines_of behind.now)).1 }
    requires rest { lines_of whole.rest.now ≡ drop whole.taken (lines_of behind.now) }
    requires within { whole.taken + length whole.rest.now ≤ length behind.now }
    ensures step { IfOk result (λ s. IsStep (step_said number is_open line.now (lines_of behind.now) entry) s.bad s.is_open s.taken) }
    ensures rest { IfOk result (λ s. lines_of s.rest.now ≡ drop s.taken (lines_of behind.now)) }
    ensures within { IfOk result (λ s. s.taken + length s.rest.now ≤ length behind.now) }
{
    let Some(entry) = entry else {
        return Ok(LineStep {
            bad: None,
            is_open,
            taken: whole.taken,
            rest: whole.rest,
        });
    };
    let open_then = entry.takes_values(is_open);
    if entry.is_key() || is_open {
        return Ok(LineStep {
            bad: None,
            is_open: open_then,
            taken: whole.taken,
            rest: whole.rest,
        });
    }
    let bad = homeless(alloc, number, line, behind, &whole.units)?;
    Ok(LineStep {
        bad: Some(bad),
        is_open: open_then,
        taken: whole.taken,
        rest: whole.rest,
    })
}

/// What a line gives, with those that it goes on in, of the text behind it.
fn line_step<'a>(
    alloc: Global,
    root: &[u16],
    is_narrow: bool,
    is_open: bool,
    number: u64,
    line: &'a [u16],
    behind: &'a [u16],
) -> Result<LineStep<'a>, AllocError>
    requires { number + length behind.now < 18446744073709551616 }
    ensures step { IfOk result (λ s. IsStep (step root.now is_narrow is_open number line.now (lines_of behind.now)) s.bad s.is_open s.taken) }
    ensures rest { IfOk result (λ s. lines_of s.rest.now ≡ drop s.taken (lines_of behind.now)) }
    ensures within { IfOk result (λ s. s.taken + length s.rest.now ≤ length behind.now) }
{
    let whole = whole_row(alloc, line, behind)?;
    match said(alloc, root, is_narrow, &whole.units) {
        Ok(entry) => step_said(alloc, number, is_open, line, behind, whole, entry),
        Err(LineFault::Form) => step_not(alloc, root, number, is_open, line, behind, whole),
        Err(LineFault::Memory) => Err(AllocError),
    }
}

/// Appends a line, where there is one.
fn push_one(lines: &mut Vec<BadLine>, bad: Option<BadLine>) -> Result<(), AllocError>
    ensures { OnOk result (lines.new.items ≡ lines.old.items ++ one_or_none bad) }
{
    let Some(bad) = bad else {
        return Ok(());
    };
    lines.push(bad)?;
    Ok(())
}

/// Whether the first alone is told, and it was found.
fn is_done(tells_all: bool, bad: &[BadLine]) -> bool
    ensures done { result ≡ true → (tells_all ≡ false) × (length bad.now ≡ 0 → ⊥) }
    ensures goes_on { result ≡ false → tells_all ≡ false → length bad.now ≡ 0 }
{
    if tells_all {
        return false;
    }
    !bad.is_empty()
}

/// The lines behind the first that aren't understood, behind those that are given: all, or the first alone.
#[tactic(auto, using(crate::proofs::BadSteps::bad_so_far))]
fn bad_behind(
    alloc: Global,
    root: &[u16],
    is_narrow: bool,
    may_stand: bool,
    tells_all: bool,
    first: Vec<BadLine>,
    behind: &[u16],
) -> Result<Vec<BadLine>, AllocError>
    requires { tells_all ≡ false → length first.items ≤ 1 }
    ensures { IfOk result (λ bad. bad.items ≡ told tells_all (first.items ++ bad_from root.now is_narrow may_stand 0 2 (lines_of behind.now))) }
{
    let mut bad = first;
    let mut rest = behind;
    let mut taken: usize = 1;
    let mut is_open = may_stand;
    while let Some((line, behind)) = first_line(rest) {
        if is_done(tells_all, &bad) {
            return Ok(bad);
        }
        let number = taken as u64 + 1;
        let step = line_step(alloc, root, is_narrow, is_open, number, line, behind)?;
        let LineStep {
            bad: one,
            is_open: open_then,
            taken: more,
            rest: others,
        } = step;
        push_one(&mut bad, one)?;
        is_open = open_then;
        rest = others;
        taken += 1 + more;
    }
    Ok(bad)
}

/// Line 1, which is no title.
fn no_title(alloc: Global) -> Result<Vec<BadLine>, AllocError>
    ensures { IfOk result (λ bad. bad.items ≡ bad_title ∷ []) }
{
    let found = Units::from_slice(alloc, &[])?;
    let mut bad = Vec::new(alloc);
    bad.push(BadLine {
        line: 1,
        at: 1,
        column: 1,
        expected: Expected::Title,
        found,
    })?;
    Ok(bad)
}

/// The lines of a text that aren't understood, of keys below a root of that name.
#[tactic(auto, using(crate::proofs::BadSteps::titles))]
fn find_bad(
    alloc: Global,
    root: &[u16],
    text: &[u16],
    tells_all: bool,
) -> Result<Vec<BadLine>, AllocError>
    ensures { IfOk result (λ bad. bad.items ≡ told tells_all (bad_lines_in root.now text.now)) }
{
    let Some((line, behind)) = first_line(text) else {
        return no_title(alloc);
    };
    let long = long_root(alloc, root)?;
    match is_narrow_by(before_blanks(without_return(line))) {
        Some(is_narrow) => {
            let none = Vec::new(alloc);
            bad_behind(alloc, &long, is_narrow, false, tells_all, none, behind)
        }
        None => {
            let first = no_title(alloc)?;
            bad_behind(alloc, &long, false, true, tells_all, first, behind)
        }
    }
}

/// The lines of a text that aren't understood, in their order: all, or the first alone. The text is of keys below a root of that name, or
/// of a front that stands for it, as for [`crate::read_entries`]; where that answers entries there are none, and else the first of them has
/// the number that it tells.
///
/// Behind one, reading goes on with the next line as if it weren't there, but for three: behind a line of keys values may stand; so they
/// may behind a first line that is no title, and the others are read as those of version 5.00; and where a quote seems to lack at the end
/// of a value's line, the next line is one of its own. One seems to lack where the next quote begins a value's line, or there is none.
///
/// Its one fault is that memory was refused.
#[tactic(auto, using(crate::proofs::BadSteps::told_first))]
pub fn bad_lines(
    alloc: Global,
    root: &[u16],
    text: &[u16],
    tells_all: bool,
) -> Result<Vec<BadLine>, AllocError>
    ensures lines { IfOk result (λ bad. bad.items ≡ told tells_all (bad_lines_in root.now text.now)) }
    ensures first { IfOk result (λ bad. Tells (entries_in root.now text.now) bad.items) }
{
    let bad = find_bad(alloc, root, text, tells_all)?;
    Ok(bad)
}
