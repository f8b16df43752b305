//! What `dump` and `check` do: an image loaded, and its tree told.
ghost use Rattle.std.specs.Prelude.{◌≡◌, OnOk, IfOk, IfErr, string_bytes};
ghost use Rattle.std.specs.Io.KnownBytes.{Appends};
ghost use Rattle.reg_tree_text.specs.DumpTexts.{dump_text, check_text};
ghost use Rattle.reg_command.specs.ImageRuns.{WritesTreeText, fault_line};
ghost use Rattle.reg_command.specs.Failures.{TextStops};
ghost use Rattle.reg_command.specs.Internal.Steps.{TreeTextStops, IsFaultReported};

use crate::failure::Stop;
use reg_tree::Tree;
use reg_tree_image::{LoadFault, load_tree, write_image};
use reg_tree_text::{DumpFault, check_line, count, dump};
use std::alloc::{AllocError, Global};
use std::io::{Read, Write};

/// The line that tells a load fault.
fn line_of(fault: LoadFault) -> &'static [u8]
    ensures { result.now ≡ fault_line fault }
{
    match fault {
        LoadFault::Read => b"error 1009 load 1\n",
        LoadFault::Short => b"error 1009 load 2\n",
        LoadFault::Signature => b"error 1009 load 3\n",
        LoadFault::Version => b"error 1009 load 4\n",
        LoadFault::Checksum => b"error 1009 load 5\n",
        LoadFault::Dirty => b"error 1009 load 6\n",
        LoadFault::Bins => b"error 1009 load 7\n",
        LoadFault::Cells => b"error 1009 load 8\n",
        LoadFault::Record => b"error 1009 load 9\n",
        LoadFault::Loop => b"error 1009 load 10\n",
        LoadFault::Twice => b"error 1009 load 11\n",
        LoadFault::NotInProfile => b"error 1009 load 12\n",
        LoadFault::Limit => b"error 1009 load 13\n",
        LoadFault::Memory => b"error 8\n",
    }
}

/// Writes the line of a load fault. The answer is that fault, or the failed write.
fn send_fault<W: Write>(fault: LoadFault, output: &mut W) -> Stop
    ensures { IsFaultReported fault result (W.contents output.old) (W.contents output.new) }
{
    match write_image(line_of(fault), output) {
        Ok(()) => Stop::Load(fault),
        Err(cut) => Stop::Write(cut.written),
    }
}

/// Writes the text of a tree.
fn send_dump<W: Write>(alloc: Global, tree: &Tree, output: &mut W) -> Result<(), Stop>
    ensures ok { OnOk result (Appends (W.contents output.old) (W.contents output.new) (dump_text tree.now.tree)) }
    ensures err { IfErr result (λ stop. TreeTextStops (dump_text tree.now.tree) stop (W.contents output.old) (W.contents output.new)) }
{
    match dump(alloc, tree, output) {
        Ok(()) => Ok(()),
        Err(DumpFault::Write { written }) => Err(Stop::Write(written)),
        Err(DumpFault::Memory) => Err(Stop::Memory),
    }
}

/// The line that tells how many keys and values a tree has.
fn counts_of(alloc: Global, tree: &Tree) -> Result<String, AllocError>
    ensures { IfOk result (λ text. string_bytes text ≡ check_text tree.now.tree) }
{
    let counts = count(alloc, tree)?;
    check_line(alloc, counts)
}

/// Writes how many keys and values a tree has.
fn send_counts<W: Write>(alloc: Global, tree: &Tree, output: &mut W) -> Result<(), Stop>
    ensures ok { OnOk result (Appends (W.contents output.old) (W.contents output.new) (check_text tree.now.tree)) }
    ensures err { IfErr result (λ stop. TreeTextStops (check_text tree.now.tree) stop (W.contents output.old) (W.contents output.new)) }
{
    let text = match counts_of(alloc, tree) {
        Ok(text) => text,
        Err(_) => return Err(Stop::Memory),
    };
    match write_image(text.as_bytes(), output) {
        Ok(()) => Ok(()),
        Err(cut) => Err(Stop::Write(cut.written)),
    }
}

/// Loads an image and writes its tree as text.
pub fn dump_image<R: Read, W: Write>(
    alloc: Global,
    input: &mut R,
    output: &mut W,
) -> Result<(), Stop>
    ensures ok { OnOk result (WritesTreeText dump_text (R.remaining input.old) (R.remaining input.new) (W.contents output.old)
        (W.contents output.new)) }
    ensures err { IfErr result (λ stop. TextStops dump_text stop (R.remaining input.old) (R.remaining input.new) (W.contents output.old)
        (W.contents output.new)) }
{
    match load_tree(alloc, input) {
        Ok(tree) => send_dump(alloc, &tree, output),
        Err(fault) => Err(send_fault(fault, output)),
    }
}

/// Loads an image and writes how many keys and values it has.
pub fn check_image<R: Read, W: Write>(
    alloc: Global,
    input: &mut R,
    output: &mut W,
) -> Result<(), Stop>
    ensures ok { OnOk result (WritesTreeText check_text (R.remaining input.old) (R.remaining input.new) (W.contents output.old)
        (W.contents output.new)) }
    ensures err { IfErr result (λ stop. TextStops check_text stop (R.remaining input.old) (R.remaining input.new) (W.contents output.old)
        (W.contents output.new)) }
{
    match load_tree(alloc, input) {
        Ok(tree) => send_counts(alloc, &tree, output),
        Err(fault) => Err(send_fault(fault, output)),
    }
}
