//! A key listed with what is asked for, by itself and with all that is below it.
ghost use Rattle.std.specs.Prelude.{flat_map, OnOk, IfErr, MatchResult};
ghost use Rattle.std.specs.Io.KnownBytes.{Appends};
ghost use Rattle.reg_heap.specs.Paths.{Path};
ghost use Rattle.reg_text.specs.Failures.{Stays};
ghost use Rattle.reg_tree.specs.TreeKeys.{IsAt, IsThere};
ghost use Rattle.reg_tree_text.specs.DumpFronts.{IsStopped, IsBlamed};
ghost use Rattle.reg_tree_text.specs.Internal.Gathered.{Puts};
ghost use Rattle.reg_tree_text.specs.Listings.{keys_below};
ghost use Rattle.reg_tree_text.specs.PathBlames.{PathBlames};
ghost use Rattle.reg_tree_text.specs.PathQueries.{key_at, IsTold};
ghost use Rattle.reg_tables.specs.LongListings.{told_lines, lines_below, long_text};
ghost use Rattle.reg_tables.specs.Tables.{TableStops};

use crate::Columns;
use crate::long_line::{put_key, put_subkeys, put_values};
use reg_text::{Output, Sink};
use reg_tree::{Node, Tree};
use reg_tree_text::{DumpFault, PathFault, Walk, find_key, finish};
use std::alloc::Global;

/// Tells the lines of all keys below a key, and of their values.
fn put_below<S: Sink>(
    output: &mut Output<String>,
    writer: &mut S,
    alloc: Global,
    tree: &Tree,
    node: Node,
    columns: Columns,
) -> Result<(), DumpFault>
    requires { IsThere tree.now node }
    ensures { (p : Path) → IsAt tree.now p node →
        Puts output.old (S.contents writer.old, S.failures writer.old) output.new (S.contents writer.new, S.failures writer.new)
        (flat_map (told_lines columns) (keys_below tree.now.tree p)) result }
{
    // A node is that of a key, as this call's contract says.
    let _name = tree.name(node);
    let mut walk = Walk::new(alloc, node);
    // No tree has so many keys: the bound only shows that the walk ends.
    for _key in 0..u64::MAX {
        if !walk.advance(tree)? {
            return Ok(());
        }
        put_key(output, writer, alloc, tree, walk.node, &walk.path, columns)?;
    }
    Err(DumpFault::Memory)
}

/// Tells the lines of the keys below a key, of all or of those right below.
fn put_keys<S: Sink>(
    output: &mut Output<String>,
    writer: &mut S,
    alloc: Global,
    tree: &Tree,
    node: Node,
    is_tree: bool,
    columns: Columns,
) -> Result<(), DumpFault>
    requires { IsThere tree.now node }
    ensures { (p : Path) → IsAt tree.now p node →
        Puts output.old (S.contents writer.old, S.failures writer.old) output.new (S.contents writer.new, S.failures writer.new)
        (lines_below columns is_tree tree.now.tree p) result }
{
    if is_tree {
        put_below(output, writer, alloc, tree, node, columns)
    } else {
        put_subkeys(output, writer, alloc, tree, node, columns)
    }
}

/// Tells what is listed of a key.
fn put_list<S: Sink>(
    output: &mut Output<String>,
    writer: &mut S,
    alloc: Global,
    tree: &Tree,
    node: Node,
    is_tree: bool,
    columns: Columns,
) -> Result<(), DumpFault>
    requires { IsThere tree.now node }
    ensures { (p : Path) → IsAt tree.now p node →
        Puts output.old (S.contents writer.old, S.failures writer.old) output.new (S.contents writer.new, S.failures writer.new)
        (long_text columns is_tree tree.now.tree p) result }
{
    put_values(output, writer, alloc, tree, node, columns)?;
    put_keys(output, writer, alloc, tree, node, is_tree, columns)
}

/// Lists a key.
fn write_list<S: Sink>(
    alloc: Global,
    tree: &Tree,
    node: Node,
    is_tree: bool,
    columns: Columns,
    writer: &mut S,
) -> Result<(), DumpFault>
    requires { IsThere tree.now node }
    ensures ok { (p : Path) → IsAt tree.now p node →
        OnOk result (Appends (S.contents writer.old) (S.contents writer.new) (long_text columns is_tree tree.now.tree p)) }
    ensures err { (p : Path) → IsAt tree.now p node →
        IfErr result (λ fault. IsStopped (S.contents writer.old) (S.contents writer.new) (long_text columns is_tree tree.now.tree p) fault) }
    ensures flushed { OnOk result (S.is_flushed writer.new) }
    ensures failures { MatchResult result (λ _. Stays (S.failures writer.old) (S.failures writer.new))
        (λ fault. IsBlamed fault (S.failures writer.old) (S.failures writer.new)) }
{
    let mut output = Output::new(alloc);
    put_list(&mut output, writer, alloc, tree, node, is_tree, columns)?;
    finish(&mut output, writer)
}

/// Lists the key that a path leads to from the root, names folded, as [`reg_tree_text::list_at`] does: its values and the keys right below
/// it, or with `is_tree` all keys below it and their values. What a line tells beside a name is asked for by [`Columns`]: of a key ` time `
/// and the instant, or the number of its 100 ns where that is behind the year 9999, and ` security ` and the descriptor as SDDL, or `hex:`
/// and the bytes of what is none; of a value its type, the form of its data and these ([`crate::get_typed`]), or its type's number and its
/// size. The empty path is the root's. The text goes to the writer while the keys are gone over, some 64 KB at a time, and at the end the
/// writer is flushed.
///
/// `NoKey` where the text is no path or no key is there, and then nothing was written; else `Stopped` where a write or memory failed,
/// after a front of the text. Of the writer's calls just one failed where a write is told, and else none.
pub fn list_long<S: Sink>(
    alloc: Global,
    tree: &Tree,
    path: &[u8],
    is_tree: bool,
    columns: Columns,
    writer: &mut S,
) -> Result<(), PathFault>
    ensures ok { OnOk result (IsTold (key_at tree.now.tree path.now) (long_text columns is_tree tree.now.tree)
        (S.contents writer.old) (S.contents writer.new)) }
    ensures err { IfErr result (λ fault. TableStops fault tree.now.tree path.now (long_text columns is_tree tree.now.tree)
        (S.contents writer.old) (S.contents writer.new)) }
    ensures flushed { OnOk result (S.is_flushed writer.new) }
    ensures failures { MatchResult result (λ _. Stays (S.failures writer.old) (S.failures writer.new))
        (λ fault. PathBlames fault (S.failures writer.old) (S.failures writer.new)) }
{
    let Some(node) = find_key(tree, path) else {
        return Err(PathFault::NoKey);
    };
    match write_list(alloc, tree, node, is_tree, columns, writer) {
        Ok(()) => Ok(()),
        Err(fault) => Err(PathFault::Stopped(fault)),
    }
}
