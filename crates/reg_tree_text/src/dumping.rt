//! A whole tree told.
ghost use Rattle.std.specs.Prelude.{flat_map, OnOk, IfOk, IfErr, MatchResult};
ghost use Rattle.std.specs.Io.KnownBytes.{Appends};
ghost use Rattle.reg_text.specs.Failures.{Stays};
ghost use Rattle.reg_tree_text.specs.DumpTexts.{keys_told, key_lines, dump_text};
ghost use Rattle.reg_tree_text.specs.DumpFronts.{IsStopped, IsBlamed};
ghost use Rattle.reg_tree_text.specs.DumpCounts.{IsCounted};
ghost use Rattle.reg_tree_text.specs.Internal.Gathered.{Puts};

use crate::counting::count_key;
use crate::dump_line::{put_counts, put_key, put_root};
use crate::output::finish;
use crate::walk::Walk;
use crate::{Counts, DumpFault};
use reg_text::{Output, Sink};
use reg_tree::Tree;
use std::alloc::Global;

/// Tells the lines of all keys, and counts them.
fn put_keys<W: Sink>(
    output: &mut Output<String>,
    writer: &mut W,
    alloc: Global,
    tree: &Tree,
) -> Result<Counts, DumpFault>
    ensures puts { Puts output.old (W.contents writer.old, W.failures writer.old) output.new (W.contents writer.new, W.failures writer.new)
        (flat_map key_lines (keys_told tree.now.tree)) result }
    ensures counts { IfOk result (λ counts. IsCounted tree.now.tree counts) }
{
    let mut walk = Walk::new(alloc, tree.root());
    let mut counts = Counts::none();
    loop {
        put_key(output, writer, alloc, tree, walk.node, &walk.path)?;
        counts = count_key(tree, &walk, counts)?;
        if !walk.advance(tree)? {
            return Ok(counts);
        }
    }
}

/// Tells all of a tree.
fn put_tree<W: Sink>(
    output: &mut Output<String>,
    writer: &mut W,
    alloc: Global,
    tree: &Tree,
) -> Result<(), DumpFault>
    ensures { Puts output.old (W.contents writer.old, W.failures writer.old) output.new (W.contents writer.new, W.failures writer.new) (dump_text tree.now.tree) result }
{
    put_root(output, writer, tree)?;
    let counts = put_keys(output, writer, alloc, tree)?;
    put_counts(output, writer, counts)
}

/// Writes a tree as text: its root's name, its keys with their values, and how many there are. The text goes to the writer while the
/// keys are gone over, some 64 KB at a time, and at the end the writer is flushed.
///
/// `Write` only where a write or the flush failed, after so many bytes of the text, and nothing more is asked of the writer then;
/// `Memory` only where none failed, after some front of the text.
pub fn dump<W: Sink>(alloc: Global, tree: &Tree, writer: &mut W) -> Result<(), DumpFault>
    ensures ok { OnOk result (Appends (W.contents writer.old) (W.contents writer.new) (dump_text tree.now.tree)) }
    ensures err { IfErr result (λ fault. IsStopped (W.contents writer.old) (W.contents writer.new) (dump_text tree.now.tree) fault) }
    ensures flushed { OnOk result (W.is_flushed writer.new) }
    ensures failures { MatchResult result (λ _. Stays (W.failures writer.old) (W.failures writer.new))
        (λ fault. IsBlamed fault (W.failures writer.old) (W.failures writer.new)) }
{
    let mut output = Output::new(alloc);
    put_tree(&mut output, writer, alloc, tree)?;
    finish(&mut output, writer)
}
