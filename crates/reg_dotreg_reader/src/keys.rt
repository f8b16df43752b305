//! The lines of keys.
ghost use Rattle.std.specs.Prelude.{◌≡◌, option_copied};
ghost use Rattle.reg_dotreg_reader.specs.EntryMeanings.{way_behind, without_backslash, path_behind, way_below, path_below, gone_below, bracketed, key_said};
ghost use Rattle.reg_dotreg_reader.specs.Internal.ReadSoFar.{Reads};

use crate::entry::Entry;
use crate::fault::LineFault;
use crate::quotes::narrowed;
use crate::roots::{behind_root, lengthened};
use crate::words::{before_mark, behind_word};
use reg_model::Bytes;
use reg_names::check_path;
use std::alloc::Global;

/// What stands behind the root's name: no names, or a backslash and a path.
#[tactic(auto, using(crate::proofs::EntryReadings::paths))]
fn way_behind(alloc: Global, units: &[u16]) -> Result<Vec<u8>, LineFault>
    ensures { Reads (λ v. v.items) (way_behind units.now) result }
{
    let Some((first, path)) = units.split_first() else {
        return Ok(Vec::new(alloc));
    };
    if *first != 92 || path.is_empty() {
        return Err(LineFault::Form);
    }
    let path = narrowed(alloc, path)?;
    match check_path(&path) {
        Ok(()) => Ok(path),
        Err(_) => Err(LineFault::Form),
    }
}

/// Units without the backslash at their end, if there is one.
fn without_backslash(units: &[u16]) -> &[u16]
    ensures { result.now ≡ without_backslash units.now }
{
    match before_mark(92, units) {
        Some(front) => front,
        None => units,
    }
}

/// The path behind the root's name, one backslash at its end passed over.
fn path_behind(alloc: Global, units: &[u16]) -> Result<Vec<u8>, LineFault>
    ensures { Reads (λ v. v.items) (path_behind units.now) result }
{
    way_behind(alloc, without_backslash(units))
}

/// The path of a key below the root, both in their long forms.
#[tactic(auto, using(crate::proofs::EntryReadings::below_is, crate::proofs::EntryReadings::below_not))]
fn way_below(alloc: Global, root: &[u16], units: &[u16]) -> Result<Vec<u8>, LineFault>
    ensures { Reads (λ v. v.items) (way_below root.now units.now) result }
{
    match behind_root(root, units) {
        Some(rest) => path_behind(alloc, rest),
        None => Err(LineFault::Form),
    }
}

/// The path of a key below the root, which is in its long form.
#[tactic(auto, using(crate::proofs::EntryReadings::below_long, crate::proofs::EntryReadings::below_same))]
fn path_below(alloc: Global, root: &[u16], units: &[u16]) -> Result<Vec<u8>, LineFault>
    ensures { Reads (λ v. v.items) (path_below root.now units.now) result }
{
    match lengthened(alloc, units)? {
        Some(long) => way_below(alloc, root, &long),
        None => way_below(alloc, root, units),
    }
}

/// The path of a key that goes.
#[tactic(auto, using(crate::proofs::EntryReadings::gone_is, crate::proofs::EntryReadings::gone_not))]
fn gone_below(alloc: Global, root: &[u16], units: &[u16]) -> Result<Vec<u8>, LineFault>
    ensures { Reads (λ v. v.items) (gone_below root.now units.now) result }
{
    match behind_word(b"-", units) {
        Some(rest) => path_below(alloc, root, rest),
        None => Err(LineFault::Form),
    }
}

/// What stands between brackets: a key that is made, or else one that goes.
#[tactic(auto, using(crate::proofs::EntryReadings::keys))]
fn bracketed(alloc: Global, root: &[u16], units: &[u16]) -> Result<Entry, LineFault>
    ensures { Reads (λ e. e) (bracketed root.now units.now) result }
{
    match path_below(alloc, root, units) {
        Ok(path) => Ok(Entry::Key(Bytes::from_vec(path))),
        Err(LineFault::Memory) => Err(LineFault::Memory),
        Err(LineFault::Form) => {
            let path = gone_below(alloc, root, units)?;
            Ok(Entry::GoneKey(Bytes::from_vec(path)))
        }
    }
}

/// A key's line behind the bracket that opens it.
#[tactic(auto, using(crate::proofs::EntryReadings::line_key, crate::proofs::EntryReadings::line_open))]
pub fn key_said(alloc: Global, root: &[u16], line: &[u16]) -> Result<Entry, LineFault>
    ensures { Reads (λ e. e) (key_said root.now line.now) result }
{
    match before_mark(93, line) {
        Some(units) => bracketed(alloc, root, units),
        None => Err(LineFault::Form),
    }
}
