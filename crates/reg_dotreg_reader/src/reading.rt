//! A text's entries, line by line.
ghost use Rattle.std.specs.Prelude.{◌≡◌, ◌<◌, ◌≤◌, ◌+◌, Bool, length, drop, option_map, IfSome, IfOk, IfErr};
ghost use Rattle.reg_dotreg_reader.specs.EntryLines.{lines_of, whole_of};
ghost use Rattle.reg_dotreg_reader.specs.EntryMeanings.{is_narrow_by, untitled, said_by, said, Reading, with_entries, one_read, entries_behind, entries_in, IsRefused};
ghost use Rattle.reg_dotreg_reader.specs.Internal.ReadSoFar.{Reads};

use crate::entry::{Entry, Numbered};
use crate::fault::{LineFault, ReadFault};
use crate::keys::key_said;
use crate::lines::{first_line, without_return};
use crate::roots::long_root;
use crate::rows::{Place, is_value_line, joined, row_at};
use crate::values::value_said;
use crate::words::{before_blanks, is_word, trimmed};
use std::alloc::Global;

/// What a line without blanks at both ends says; nothing where it is empty or a comment.
#[tactic(auto, using(crate::proofs::EntrySteps::says))]
fn said_by(
    alloc: Global,
    root: &[u16],
    is_narrow: bool,
    line: &[u16],
) -> Result<Option<Entry>, LineFault>
    ensures { Reads (λ e. e) (said_by root.now is_narrow line.now) result }
{
    let Some((first, rest)) = line.split_first() else {
        return Ok(None);
    };
    match *first {
        59 => Ok(None),
        91 => Ok(Some(key_said(alloc, root, rest)?)),
        34 | 64 => Ok(Some(value_said(alloc, is_narrow, line)?)),
        _ => Err(LineFault::Form),
    }
}

/// What a line says.
#[tactic(auto, unfolding(crate::specs::EntryMeanings::said))]
pub fn said(
    alloc: Global,
    root: &[u16],
    is_narrow: bool,
    line: &[u16],
) -> Result<Option<Entry>, LineFault>
    ensures { Reads (λ e. e) (said root.now is_narrow line.now) result }
{
    said_by(alloc, root, is_narrow, trimmed(line))
}

/// What a line says, with those that it goes on in.
#[derive(Drop)]
struct ReadLine<'a> {
    entry: Option<Entry>,
    /// How many lines there are besides the first.
    taken: usize,
    /// The text behind them.
    rest: &'a [u16],
}

/// What a line says, with those that it goes on in, of the text behind it.
#[tactic(auto, using(crate::proofs::ValueRows::wholes))]
fn whole_said<'a>(
    alloc: Global,
    root: &[u16],
    is_narrow: bool,
    line: &'a [u16],
    behind: &'a [u16],
) -> Result<ReadLine<'a>, LineFault>
    ensures said { Reads (λ s. s.entry) (said root.now is_narrow (whole_of line.now (lines_of behind.now)).0) result }
    ensures taken { IfOk result (λ s. s.taken ≡ (whole_of line.now (lines_of behind.now)).1) }
    ensures rest { IfOk result (λ s. lines_of s.rest.now ≡ drop s.taken (lines_of behind.now)) }
    ensures within { IfOk result (λ s. s.taken + length s.rest.now ≤ length behind.now) }
{
    if !is_value_line(line) {
        let entry = said(alloc, root, is_narrow, without_return(line))?;
        return Ok(ReadLine {
            entry,
            taken: 0,
            rest: behind,
        });
    }
    let first = row_at(Place::Outside, line);
    if first.carried.is_none() {
        let entry = said(alloc, root, is_narrow, first.kept)?;
        return Ok(ReadLine {
            entry,
            taken: 0,
            rest: behind,
        });
    }
    let joined = joined(alloc, line, behind)?;
    let entry = said(alloc, root, is_narrow, &joined.units)?;
    Ok(ReadLine {
        entry,
        taken: joined.taken,
        rest: joined.rest,
    })
}

/// Appends what a line says, where it may stand there, and answers whether values may stand behind it.
#[tactic(auto, using(crate::proofs::EntrySteps::take_nothing, crate::proofs::EntrySteps::take_entry, crate::proofs::EntrySteps::take_not))]
fn take(
    entries: &mut Vec<Numbered>,
    line: u64,
    is_open: bool,
    entry: Option<Entry>,
) -> Result<bool, ReadFault>
    ensures ok { IfOk result (λ open_then. (others : Bool → Reading) →
        with_entries entries.old.items (one_read line is_open (Some entry) others) ≡ with_entries entries.new.items (others open_then)) }
    ensures err { IfErr result (λ fault. (others : Bool → Reading) → IsRefused (one_read line is_open (Some entry) others) fault) }
{
    let Some(entry) = entry else {
        return Ok(is_open);
    };
    if !entry.is_key() && !is_open {
        return Err(ReadFault::Line(line));
    }
    let open_then = entry.takes_values(is_open);
    entries.push(Numbered { line, entry })?;
    Ok(open_then)
}

/// Whether a text of that first line is narrow; `None` where the line is no title.
pub fn is_narrow_by(line: &[u16]) -> Option<bool>
    ensures { result ≡ is_narrow_by line.now }
{
    if is_word(b"Windows Registry Editor Version 5.00", line) {
        return Some(false);
    }
    if is_word(b"REGEDIT4", line) {
        return Some(true);
    }
    None
}

/// The text behind the title, and whether it is narrow.
#[tactic(auto, using(crate::proofs::WordEnds::titles))]
fn behind_title(text: &[u16]) -> Option<(bool, &[u16])>
    ensures lines { option_map (λ p. (p.0, lines_of p.1.now)) result ≡ untitled (lines_of text.now) }
    ensures within { IfSome result (λ p. length p.1.now < length text.now) }
{
    let (line, rest) = first_line(text)?;
    let is_narrow = is_narrow_by(before_blanks(without_return(line)))?;
    Some((is_narrow, rest))
}

/// The entries of the lines behind the title, of keys below a root in its long form.
#[tactic(auto, using(crate::proofs::EntrySteps::readings))]
fn entries_behind(
    alloc: Global,
    root: &[u16],
    is_narrow: bool,
    behind: &[u16],
) -> Result<Vec<Numbered>, ReadFault>
    ensures ok { IfOk result (λ entries. entries_behind root.now is_narrow (lines_of behind.now) ≡ Ok entries.items) }
    ensures err { IfErr result (λ fault. IsRefused (entries_behind root.now is_narrow (lines_of behind.now)) fault) }
{
    let mut entries = Vec::new(alloc);
    let mut rest = behind;
    let mut taken: usize = 1;
    let mut is_open = false;
    while let Some((line, behind)) = first_line(rest) {
        let number = taken as u64 + 1;
        let said = match whole_said(alloc, root, is_narrow, line, behind) {
            Ok(said) => said,
            Err(LineFault::Form) => return Err(ReadFault::Line(number)),
            Err(LineFault::Memory) => return Err(ReadFault::Memory),
        };
        is_open = take(&mut entries, number, is_open, said.entry)?;
        rest = said.rest;
        taken += 1 + said.taken;
    }
    Ok(entries)
}

/// The entries of a text in their order, of keys below a root of that name: each with the number of its line. The name is any text, as
/// `HKLM\SOFTWARE`, and stands for what the keys are below. Of it and of the keys, letters of ASCII are alike in either case, and each
/// other character is like itself alone.
///
/// `Line` tells the first line that isn't understood; `Memory` that memory was refused. It answers no other fault.
#[tactic(auto, using(crate::proofs::EntrySteps::read_titled, crate::proofs::EntrySteps::read_untitled))]
pub fn read_entries(alloc: Global, root: &[u16], text: &[u16]) -> Result<Vec<Numbered>, ReadFault>
    ensures ok { IfOk result (λ entries. entries_in root.now text.now ≡ Ok entries.items) }
    ensures err { IfErr result (λ fault. IsRefused (entries_in root.now text.now) fault) }
{
    let Some((is_narrow, behind)) = behind_title(text) else {
        return Err(ReadFault::Line(1));
    };
    let long = long_root(alloc, root)?;
    entries_behind(alloc, &long, is_narrow, behind)
}
