//! A tree as CSV: a row for each key and each value.
ghost use Rattle.std.specs.Prelude.{◌≡◌, flat_map, List, Some, OnOk, IfErr, MatchResult};
ghost use Rattle.std.specs.Io.KnownBytes.{Appends};
ghost use Rattle.reg_heap.specs.Paths.{Path};
ghost use Rattle.reg_tree_text.specs.DumpTexts.{Told};
ghost use Rattle.reg_text.specs.Failures.{Stays};
ghost use Rattle.reg_tree_text.specs.DumpFronts.{IsStopped, IsBlamed};
ghost use Rattle.reg_tree_text.specs.Internal.Gathered.{Puts};
ghost use Rattle.reg_tree_text.specs.Internal.Walking.{Goes, Stands};
ghost use Rattle.reg_tree_text.specs.PathQueries.{key_at, IsTold};
ghost use Rattle.reg_tree_text.specs.PathBlames.{PathBlames};
ghost use Rattle.reg_tables.specs.Tables.{key_rows, csv_text, TableStops};

use crate::keys::walk_from;
use crate::row::{put_key, put_row};
use reg_text::{Output, Sink};
use reg_tree::Tree;
use reg_tree_text::{DumpFault, PathFault, Walk, find_key, finish};
use std::alloc::Global;

/// Tells the rows of the keys behind the one at which a walk stands.
fn put_more<S: Sink>(
    output: &mut Output<String>,
    writer: &mut S,
    alloc: Global,
    tree: &Tree,
    start: Walk,
) -> Result<(), DumpFault>
    requires { (here : Told) × (rest : List Told) × Stands tree.now start here rest }
    ensures { (here : Told) → (rest : List Told) → Stands tree.now start here rest →
        Puts output.old (S.contents writer.old, S.failures writer.old) output.new (S.contents writer.new, S.failures writer.new)
        (flat_map key_rows rest) result }
{
    let mut walk = start;
    // No tree has so many keys: the bound only shows that the walk ends.
    for _key in 0..u64::MAX {
        if !walk.advance(tree)? {
            return Ok(());
        }
        put_key(output, writer, alloc, tree, walk.node, &walk.path)?;
    }
    Err(DumpFault::Memory)
}

/// Tells the rows of the keys that a walk goes over.
fn put_keys<S: Sink>(
    output: &mut Output<String>,
    writer: &mut S,
    alloc: Global,
    tree: &Tree,
    walk: Walk,
) -> Result<(), DumpFault>
    requires { (all : List Told) × Goes tree.now walk all }
    ensures { (all : List Told) → Goes tree.now walk all →
        Puts output.old (S.contents writer.old, S.failures writer.old) output.new (S.contents writer.new, S.failures writer.new)
        (flat_map key_rows all) result }
{
    put_key(output, writer, alloc, tree, walk.node, &walk.path)?;
    put_more(output, writer, alloc, tree, walk)
}

/// Tells the table of the keys from one on.
fn put_table<S: Sink>(
    output: &mut Output<String>,
    writer: &mut S,
    alloc: Global,
    tree: &Tree,
    path: &[u8],
) -> Result<(), DumpFault>
    requires { (p : Path) × (key_at tree.now.tree path.now ≡ Some p) }
    ensures { (p : Path) → key_at tree.now.tree path.now ≡ Some p →
        Puts output.old (S.contents writer.old, S.failures writer.old) output.new (S.contents writer.new, S.failures writer.new) (csv_text tree.now.tree p) result }
{
    let walk = walk_from(alloc, tree, path)?;
    put_row(
        output,
        writer,
        alloc,
        &[
            b"kind", b"path", b"time", b"name", b"type", b"form", b"data",
        ],
    )?;
    put_keys(output, writer, alloc, tree, walk)
}

/// Writes the table of the keys from one on.
fn write_table<S: Sink>(
    alloc: Global,
    tree: &Tree,
    path: &[u8],
    writer: &mut S,
) -> Result<(), DumpFault>
    requires { (p : Path) × (key_at tree.now.tree path.now ≡ Some p) }
    ensures ok { (p : Path) → key_at tree.now.tree path.now ≡ Some p →
        OnOk result (Appends (S.contents writer.old) (S.contents writer.new) (csv_text tree.now.tree p)) }
    ensures err { (p : Path) → key_at tree.now.tree path.now ≡ Some p →
        IfErr result (λ fault. IsStopped (S.contents writer.old) (S.contents writer.new) (csv_text tree.now.tree p) fault) }
    ensures flushed { OnOk result (S.is_flushed writer.new) }
    ensures failures { MatchResult result (λ _. Stays (S.failures writer.old) (S.failures writer.new))
        (λ fault. IsBlamed fault (S.failures writer.old) (S.failures writer.new)) }
{
    let mut output = Output::new(alloc);
    put_table(&mut output, writer, alloc, tree, path)?;
    finish(&mut output, writer)
}

/// Writes the key that a path leads to from the root, names folded, and all keys below it as CSV, in the order of a dump: a row with
/// the names of the columns, one for each key with its path and time, and behind it one for each of its values with the key's path
/// and the value's name, type, form and data ([`reg_tree_text::value_text`]). The form is how the data are told: `text`, `number` or
/// `hex`. The empty path is the root's. The text goes to the writer some 64 KB at a time, but that of a row in one piece, and at the end
/// the writer is flushed.
///
/// `NoKey` where the text is no path or no key is there, and then nothing was written; else `Stopped` where a write or memory failed,
/// after a front of the text. Of the writer's calls just one failed where a write is told, and else none.
pub fn export_csv<S: Sink>(
    alloc: Global,
    tree: &Tree,
    path: &[u8],
    writer: &mut S,
) -> Result<(), PathFault>
    ensures ok { OnOk result (IsTold (key_at tree.now.tree path.now) (csv_text tree.now.tree) (S.contents writer.old) (S.contents writer.new)) }
    ensures err { IfErr result (λ fault. TableStops fault tree.now.tree path.now (csv_text tree.now.tree) (S.contents writer.old) (S.contents writer.new)) }
    ensures flushed { OnOk result (S.is_flushed writer.new) }
    ensures failures { MatchResult result (λ _. Stays (S.failures writer.old) (S.failures writer.new))
        (λ fault. PathBlames fault (S.failures writer.old) (S.failures writer.new)) }
{
    let Some(_node) = find_key(tree, path) else {
        return Err(PathFault::NoKey);
    };
    match write_table(alloc, tree, path, writer) {
        Ok(()) => Ok(()),
        Err(fault) => Err(PathFault::Stopped(fault)),
    }
}
