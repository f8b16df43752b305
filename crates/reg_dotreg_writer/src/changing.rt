//! The changes from one tree to another, written as a registration file.
ghost use Rattle.std.specs.Prelude.{◌≡◌, ◌↔◌, ◌+◌, ◌++◌, true, [], not, flat_map, find, length, Some, OnOk, IfOk, IfErr, MatchResult};
ghost use Rattle.std.specs.FinMap.{get};
ghost use Rattle.std.specs.Io.KnownBytes.{Appends};
ghost use Rattle.std.specs.Option.{option_map};
ghost use Rattle.reg_text.specs.Failures.{Stays};
ghost use Rattle.reg_tree_text.specs.DumpFronts.{IsStopped, IsBlamed};
ghost use Rattle.reg_tree_text.specs.DumpTexts.{name_of};
ghost use Rattle.reg_dotreg_writer.specs.Entries.{file_bytes};
ghost use Rattle.reg_dotreg_writer.specs.Exports.{ExportBlames};
ghost use Rattle.reg_dotreg_writer.specs.Changes.{Change, changes, changes_of, rooted, changes_text, unwritable_change};
ghost use Rattle.reg_dotreg_writer.specs.ChangeExports.{AreExported, ChangesStop};
ghost use Rattle.reg_dotreg_writer.specs.Internal.Pieces.{head_pieces};
ghost use Rattle.reg_dotreg_writer.specs.Internal.ChangePieces.{change_pieces, body_pieces};
ghost use Rattle.reg_dotreg_writer.specs.Internal.Sending.{Puts};

use crate::ExportFault;
use crate::change::put_change;
use crate::exporting::push_heading;
use crate::side::Side;
use crate::unwritable::find_unwritable_change;
use reg_text::{Output, Sink};
use reg_tree::Tree;
use reg_tree_text::{DumpFault, Walk, finish};
use std::alloc::Global;

/// Tells what changes of the keys of one tree against the other one.
fn put_side<W: Sink>(
    output: &mut Output<Vec<u8>>,
    writer: &mut W,
    alloc: Global,
    is_utf8: bool,
    side: Side,
    tree: &Tree,
    other: &Tree,
    root: &[u8],
) -> Result<(), DumpFault>
    ensures { Puts output.old (W.contents writer.old, W.failures writer.old) output.new (W.contents writer.new, W.failures writer.new)
        (flat_map (change_pieces is_utf8 root.now) (changes_of side tree.now.tree other.now.tree)) result }
{
    let mut walk = Walk::new(alloc, tree.root());
    // No tree has so many keys: the bound only shows that the walk ends.
    for _key in 0..u64::MAX {
        put_change(
            output, writer, alloc, is_utf8, side, tree, walk.node, other, root, &walk.path,
        )?;
        if !walk.advance(tree)? {
            return Ok(());
        }
    }
    Err(DumpFault::Memory)
}

/// Tells all that changes.
fn put_changes<W: Sink>(
    output: &mut Output<Vec<u8>>,
    writer: &mut W,
    alloc: Global,
    is_utf8: bool,
    old: &Tree,
    new: &Tree,
) -> Result<(), DumpFault>
    ensures { Puts output.old (W.contents writer.old, W.failures writer.old) output.new (W.contents writer.new, W.failures writer.new)
        (body_pieces is_utf8 old.now.tree new.now.tree) result }
{
    let root = old.name(old.root());
    put_side(output, writer, alloc, is_utf8, Side::Old, old, new, root)?;
    put_side(output, writer, alloc, is_utf8, Side::New, new, old, root)
}

/// Whether just so many bytes were told.
fn is_so_long(output: &Output<Vec<u8>>, size: usize) -> bool
    ensures { (result ≡ true) ↔ (output.now.written + length output.now.gathered.items ≡ size) }
{
    let gathered = output.gathered.len();
    if gathered > size {
        return false;
    }
    output.written == (size - gathered) as u64
}

/// Writes the file of the changes, flushes the writer, and says whether there are none.
fn write_changes<W: Sink>(
    alloc: Global,
    is_utf8: bool,
    old: &Tree,
    new: &Tree,
    writer: &mut W,
) -> Result<bool, DumpFault>
    ensures ok { OnOk result (Appends (W.contents writer.old) (W.contents writer.new) (file_bytes is_utf8 (changes_text old.now.tree new.now.tree))) }
    ensures none { IfOk result (λ is_none. (is_none ≡ true) ↔ (changes old.now.tree new.now.tree ≡ [])) }
    ensures err { IfErr result (λ fault.
        IsStopped (W.contents writer.old) (W.contents writer.new) (file_bytes is_utf8 (changes_text old.now.tree new.now.tree)) fault) }
    ensures flushed { OnOk result (W.is_flushed writer.new) }
    ensures failures { MatchResult result (λ _. Stays (W.failures writer.old) (W.failures writer.new))
        (λ fault. IsBlamed fault (W.failures writer.old) (W.failures writer.new)) }
{
    // Names are characters of ASCII, as this call's contract says.
    let _old_root = old.root();
    let _new_root = new.root();
    let mut output = Output::new(alloc);
    push_heading(&mut output.gathered, is_utf8)?;
    let heading = output.gathered.len();
    put_changes(&mut output, writer, alloc, is_utf8, old, new)?;
    let is_none = is_so_long(&output, heading);
    finish(&mut output, writer)?;
    Ok(is_none)
}

/// Writes what changes from an old tree to a new one as a registration file ("Windows Registry Editor Version 5.00") that, imported into
/// the old tree, gives the keys and values of the new one; in UTF-16 or with `is_utf8` in UTF-8, as [`export`](crate::export) does.
/// Answers whether there are no changes: just then the file is its first line and an empty one. In the order of the old tree's dump it
/// tells which keys are gone, each by itself, and of those that both trees have which values are gone or have their name spelt otherwise;
/// then in the order of the new tree's dump which keys have come, with all their values, and of those that both have the values that have
/// come or changed. Names lead from the root as the old tree spells its name. Times, classes, marks and descriptors are passed over, as are
/// the order of values and how the name of a key is spelt that both trees have. The text goes to the writer while the keys are gone over,
/// some 64 KB at a time, and at the end the writer is flushed.
///
/// `Name` where a name that is to be written has a line break, with the names that lead to the key, and then nothing was written. Else
/// `Stopped` where a write or memory failed, after a front of the file; and nothing was written either where memory failed while the names
/// were looked at. Never `NoKey`.
pub fn export_changes<S: Sink>(
    alloc: Global,
    old: &Tree,
    new: &Tree,
    is_utf8: bool,
    writer: &mut S,
) -> Result<bool, ExportFault>
    ensures ok { IfOk result (λ is_none. AreExported old.now.tree new.now.tree is_utf8 is_none (S.contents writer.old) (S.contents writer.new)) }
    ensures err { IfErr result (λ fault. ChangesStop fault old.now.tree new.now.tree is_utf8 (S.contents writer.old) (S.contents writer.new)) }
    ensures flushed { OnOk result (S.is_flushed writer.new) }
    ensures failures { MatchResult result (λ _. Stays (S.failures writer.old) (S.failures writer.new))
        (λ fault. ExportBlames fault (S.failures writer.old) (S.failures writer.new)) }
{
    match find_unwritable_change(alloc, old, new) {
        Ok(None) => {}
        Ok(Some(key)) => return Err(ExportFault::Name(key)),
        Err(_) => return Err(ExportFault::Stopped(DumpFault::Memory)),
    }
    match write_changes(alloc, is_utf8, old, new, writer) {
        Ok(is_none) => Ok(is_none),
        Err(fault) => Err(ExportFault::Stopped(fault)),
    }
}
