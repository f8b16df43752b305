//! A key listed, by itself and with all that is below it.
ghost use Rattle.std.specs.Prelude.{flat_map, OnOk, IfErr, MatchResult};
ghost use Rattle.std.specs.Io.KnownBytes.{Appends};
ghost use Rattle.reg_text.specs.Failures.{Stays};
ghost use Rattle.reg_heap.specs.Paths.{Path};
ghost use Rattle.reg_tree.specs.TreeKeys.{IsAt, IsThere};
ghost use Rattle.reg_tree_text.specs.DumpFronts.{IsStopped, IsBlamed};
ghost use Rattle.reg_tree_text.specs.Internal.Gathered.{Puts};
ghost use Rattle.reg_tree_text.specs.Listings.{told_lines, keys_below, list_text, tree_text};

use crate::list_line::{put_key, put_subkeys, put_values};
use crate::output::finish;
use crate::{DumpFault, Walk};
use reg_text::{Output, Sink};
use reg_tree::{Node, Tree};
use std::alloc::Global;

/// Tells what is listed of a key by itself.
fn put_list<W: Sink>(
    output: &mut Output<String>,
    writer: &mut W,
    tree: &Tree,
    node: Node,
) -> Result<(), DumpFault>
    requires { IsThere tree.now node }
    ensures { (p : Path) → IsAt tree.now p node →
        Puts output.old (W.contents writer.old, W.failures writer.old) output.new (W.contents writer.new, W.failures writer.new) (list_text tree.now.tree p) result }
{
    put_values(output, writer, tree, node)?;
    put_subkeys(output, writer, tree, node)
}

/// Tells the lines of all keys below a key.
fn put_below<W: Sink>(
    output: &mut Output<String>,
    writer: &mut W,
    alloc: Global,
    tree: &Tree,
    node: Node,
) -> Result<(), DumpFault>
    requires { IsThere tree.now node }
    ensures { (p : Path) → IsAt tree.now p node →
        Puts output.old (W.contents writer.old, W.failures writer.old) output.new (W.contents writer.new, W.failures writer.new)
        (flat_map told_lines (keys_below tree.now.tree p)) result }
{
    // A node is that of a key, as this call's contract says.
    let _name = tree.name(node);
    let mut walk = Walk::new(alloc, node);
    // No tree has so many keys: the bound only shows that the walk ends.
    for _key in 0..u64::MAX {
        if !walk.advance(tree)? {
            return Ok(());
        }
        put_key(output, writer, tree, walk.node, &walk.path)?;
    }
    Err(DumpFault::Memory)
}

/// Tells what is listed of a key with all that is below it.
fn put_tree<W: Sink>(
    output: &mut Output<String>,
    writer: &mut W,
    alloc: Global,
    tree: &Tree,
    node: Node,
) -> Result<(), DumpFault>
    requires { IsThere tree.now node }
    ensures { (p : Path) → IsAt tree.now p node →
        Puts output.old (W.contents writer.old, W.failures writer.old) output.new (W.contents writer.new, W.failures writer.new) (tree_text tree.now.tree p) result }
{
    put_values(output, writer, tree, node)?;
    put_below(output, writer, alloc, tree, node)
}

/// Lists a key: a line for each of its values, in their order, and then one for each key right below it, in the order of their folded
/// names. The text goes to the writer some 64 KB at a time, and at the end the writer is flushed.
///
/// `Write` only where a write or the flush failed, after so many bytes of the text, and nothing more is asked of the writer then;
/// `Memory` only where none failed, after some front of the text.
pub fn list<W: Sink>(
    alloc: Global,
    tree: &Tree,
    node: Node,
    writer: &mut W,
) -> Result<(), DumpFault>
    requires { IsThere tree.now node }
    ensures ok { (p : Path) → IsAt tree.now p node →
        OnOk result (Appends (W.contents writer.old) (W.contents writer.new) (list_text tree.now.tree p)) }
    ensures err { (p : Path) → IsAt tree.now p node →
        IfErr result (λ fault. IsStopped (W.contents writer.old) (W.contents writer.new) (list_text tree.now.tree p) fault) }
    ensures flushed { OnOk result (W.is_flushed writer.new) }
    ensures failures { MatchResult result (λ _. Stays (W.failures writer.old) (W.failures writer.new))
        (λ fault. IsBlamed fault (W.failures writer.old) (W.failures writer.new)) }
{
    let mut output = Output::new(alloc);
    put_list(&mut output, writer, tree, node)?;
    finish(&mut output, writer)
}

/// Lists a key with all that is below it: a line for each of its values, and then for each key below it, in the order of a dump, a line
/// with the names that lead there from the key, and behind it the lines of that one's values. The text goes to the writer while the
/// keys are gone over, some 64 KB at a time, and at the end the writer is flushed.
///
/// `Write` only where a write or the flush failed, after so many bytes of the text, and nothing more is asked of the writer then;
/// `Memory` only where none failed, after some front of the text, also where 64 bits can't count the keys, though no tree has so many.
pub fn list_tree<W: Sink>(
    alloc: Global,
    tree: &Tree,
    node: Node,
    writer: &mut W,
) -> Result<(), DumpFault>
    requires { IsThere tree.now node }
    ensures ok { (p : Path) → IsAt tree.now p node →
        OnOk result (Appends (W.contents writer.old) (W.contents writer.new) (tree_text tree.now.tree p)) }
    ensures err { (p : Path) → IsAt tree.now p node →
        IfErr result (λ fault. IsStopped (W.contents writer.old) (W.contents writer.new) (tree_text tree.now.tree p) fault) }
    ensures flushed { OnOk result (W.is_flushed writer.new) }
    ensures failures { MatchResult result (λ _. Stays (W.failures writer.old) (W.failures writer.new))
        (λ fault. IsBlamed fault (W.failures writer.old) (W.failures writer.new)) }
{
    let mut output = Output::new(alloc);
    put_tree(&mut output, writer, alloc, tree, node)?;
    finish(&mut output, writer)
}
