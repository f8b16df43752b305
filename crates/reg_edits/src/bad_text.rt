//! The lines of a .reg text that aren't understood, with what its keys were expected to begin with.
ghost use Rattle.std.specs.Prelude.{◌≡◌, IfOk};
ghost use Rattle.reg_dotreg_reader.specs.EntryMeanings.{entries_in};
ghost use Rattle.reg_dotreg_reader.specs.BadLines.{bad_lines_in, told, Tells};

use reg_dotreg_reader::{BadLine, bad_lines};
use std::alloc::{AllocError, Global};

/// A text that isn't understood.
#[derive(Debug, Drop)]
pub struct BadText {
    /// What its keys were expected to begin with, in UTF-16: the root's name, or the front that was given for it.
    pub root: Vec<u16>,
    /// Its lines that aren't understood, in their order: all, or the first alone. There is at least one.
    pub lines: Vec<BadLine>,
}

/// The lines of a text that aren't understood, of keys below a root of that name: all, or the first alone.
pub fn bad_text(
    alloc: Global,
    root: &[u16],
    units: &[u16],
    tells_all: bool,
) -> Result<BadText, AllocError>
    ensures root { IfOk result (λ bad. bad.root.items ≡ root.now) }
    ensures lines { IfOk result (λ bad. bad.lines.items ≡ told tells_all (bad_lines_in root.now units.now)) }
    ensures first { IfOk result (λ bad. Tells (entries_in root.now units.now) bad.lines.items) }
{
    let root_name = Vec::from_slice(alloc, root)?;
    let lines = bad_lines(alloc, root, units, tells_all)?;
    Ok(BadText {
        root: root_name,
        lines,
    })
}
