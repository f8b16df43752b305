//! A tree as JSON: a line for each key, in an array, alone, or in the array of a page.
ghost use Rattle.std.specs.Prelude.{◌≡◌, List, flat_map, Some, OnOk, IfErr, MatchResult};
ghost use Rattle.std.specs.FinMap.{get};
ghost use Rattle.std.specs.Io.KnownBytes.{Appends};
ghost use Rattle.reg_names.specs.Names.{text_of};
ghost use Rattle.reg_heap.specs.Paths.{Path};
ghost use Rattle.reg_tree.specs.TreeKeys.{IsAt, IsThere};
ghost use Rattle.reg_tree_text.specs.DumpTexts.{Told};
ghost use Rattle.reg_text.specs.Failures.{Stays};
ghost use Rattle.reg_tree_text.specs.DumpFronts.{IsStopped, IsBlamed};
ghost use Rattle.reg_tree_text.specs.Internal.Gathered.{Puts};
ghost use Rattle.reg_tree_text.specs.Internal.Walking.{Goes, Stands};
ghost use Rattle.reg_tree_text.specs.PathQueries.{key_at, IsTold};
ghost use Rattle.reg_tree_text.specs.PathBlames.{PathBlames};
ghost use Rattle.reg_tables.specs.Tables.{key_text, json_text, jsonl_text, TableStops};
ghost use Rattle.reg_tables.specs.Pages.{html_text};
ghost use Rattle.reg_tables.specs.Internal.Layouts.{laid, more_laid, keys_laid, table_text};

use crate::entry::entry_text;
use crate::gather::key_entry;
use crate::keys::walk_from;
use crate::layout::{Layout, back, before_keys, behind_keys, between_keys, front, lay};
use crate::parts::put_text;
use reg_text::{Output, Sink};
use reg_tree::{Node, Tree};
use reg_tree_text::{DumpFault, PathFault, Walk, find_key, finish};
use std::alloc::Global;

/// Tells a key with its values.
fn put_key<S: Sink>(
    output: &mut Output<String>,
    writer: &mut S,
    alloc: Global,
    tree: &Tree,
    node: Node,
    path: &[u8],
    layout: Layout,
) -> Result<(), DumpFault>
    requires { IsThere tree.now node }
    ensures { (p : Path) → IsAt tree.now p node → (told : Told) → get tree.now.tree p ≡ Some told.key → path.now ≡ text_of told.names →
        Puts output.old (S.contents writer.old, S.failures writer.old) output.new (S.contents writer.new, S.failures writer.new) (laid layout (key_text told)) result }
{
    let entry = key_entry(alloc, tree, node, path)?;
    let text = entry_text(alloc, &entry)?;
    let shown = lay(alloc, text, layout)?;
    put_text(output, writer, &shown)
}

/// Tells a key behind another one.
fn put_next<S: Sink>(
    output: &mut Output<String>,
    writer: &mut S,
    alloc: Global,
    tree: &Tree,
    node: Node,
    path: &[u8],
    layout: Layout,
) -> Result<(), DumpFault>
    requires { IsThere tree.now node }
    ensures { (p : Path) → IsAt tree.now p node → (told : Told) → get tree.now.tree p ≡ Some told.key → path.now ≡ text_of told.names →
        Puts output.old (S.contents writer.old, S.failures writer.old) output.new (S.contents writer.new, S.failures writer.new) (more_laid layout told) result }
{
    put_text(output, writer, between_keys(layout))?;
    put_key(output, writer, alloc, tree, node, path, layout)
}

/// Tells the keys behind the one at which a walk stands.
fn put_more<S: Sink>(
    output: &mut Output<String>,
    writer: &mut S,
    alloc: Global,
    tree: &Tree,
    start: Walk,
    layout: Layout,
) -> Result<(), DumpFault>
    requires { (here : Told) × (rest : List Told) × Stands tree.now start here rest }
    ensures { (here : Told) → (rest : List Told) → Stands tree.now start here rest →
        Puts output.old (S.contents writer.old, S.failures writer.old) output.new (S.contents writer.new, S.failures writer.new)
        (flat_map (more_laid layout) rest) result }
{
    let mut walk = start;
    // No tree has so many keys: the bound only shows that the walk ends.
    for _key in 0..u64::MAX {
        if !walk.advance(tree)? {
            return Ok(());
        }
        put_next(output, writer, alloc, tree, walk.node, &walk.path, layout)?;
    }
    Err(DumpFault::Memory)
}

/// Tells the keys that a walk goes over.
fn put_keys<S: Sink>(
    output: &mut Output<String>,
    writer: &mut S,
    alloc: Global,
    tree: &Tree,
    walk: Walk,
    layout: Layout,
) -> Result<(), DumpFault>
    requires { (all : List Told) × Goes tree.now walk all }
    ensures { (all : List Told) → Goes tree.now walk all →
        Puts output.old (S.contents writer.old, S.failures writer.old) output.new (S.contents writer.new, S.failures writer.new) (keys_laid layout all) result }
{
    put_key(output, writer, alloc, tree, walk.node, &walk.path, layout)?;
    put_more(output, writer, alloc, tree, walk, layout)
}

/// Tells the table of the keys from one on.
fn put_table<S: Sink>(
    output: &mut Output<String>,
    writer: &mut S,
    alloc: Global,
    tree: &Tree,
    path: &[u8],
    layout: Layout,
) -> Result<(), DumpFault>
    requires { (p : Path) × (key_at tree.now.tree path.now ≡ Some p) }
    ensures { (p : Path) → key_at tree.now.tree path.now ≡ Some p →
        Puts output.old (S.contents writer.old, S.failures writer.old) output.new (S.contents writer.new, S.failures writer.new) (table_text layout tree.now.tree p) result }
{
    let walk = walk_from(alloc, tree, path)?;
    put_text(output, writer, front(layout))?;
    put_text(output, writer, before_keys(layout))?;
    put_keys(output, writer, alloc, tree, walk, layout)?;
    put_text(output, writer, behind_keys(layout))?;
    put_text(output, writer, back(layout))
}

/// Writes the table of the keys from one on.
fn write_table<S: Sink>(
    alloc: Global,
    tree: &Tree,
    path: &[u8],
    writer: &mut S,
    layout: Layout,
) -> Result<(), DumpFault>
    requires { (p : Path) × (key_at tree.now.tree path.now ≡ Some p) }
    ensures ok { (p : Path) → key_at tree.now.tree path.now ≡ Some p →
        OnOk result (Appends (S.contents writer.old) (S.contents writer.new) (table_text layout tree.now.tree p)) }
    ensures err { (p : Path) → key_at tree.now.tree path.now ≡ Some p →
        IfErr result (λ fault. IsStopped (S.contents writer.old) (S.contents writer.new) (table_text layout tree.now.tree p) fault) }
    ensures flushed { OnOk result (S.is_flushed writer.new) }
    ensures failures { MatchResult result (λ _. Stays (S.failures writer.old) (S.failures writer.new))
        (λ fault. IsBlamed fault (S.failures writer.old) (S.failures writer.new)) }
{
    let mut output = Output::new(alloc);
    put_table(&mut output, writer, alloc, tree, path, layout)?;
    finish(&mut output, writer)
}

/// Writes the key at a path and all below it, or answers why not.
fn export_laid<S: Sink>(
    alloc: Global,
    tree: &Tree,
    path: &[u8],
    writer: &mut S,
    layout: Layout,
) -> Result<(), PathFault>
    ensures ok { OnOk result (IsTold (key_at tree.now.tree path.now) (table_text layout tree.now.tree) (S.contents writer.old) (S.contents writer.new)) }
    ensures err { IfErr result (λ fault. TableStops fault tree.now.tree path.now (table_text layout tree.now.tree) (S.contents writer.old) (S.contents writer.new)) }
    ensures flushed { OnOk result (S.is_flushed writer.new) }
    ensures failures { MatchResult result (λ _. Stays (S.failures writer.old) (S.failures writer.new))
        (λ fault. PathBlames fault (S.failures writer.old) (S.failures writer.new)) }
{
    let Some(_node) = find_key(tree, path) else {
        return Err(PathFault::NoKey);
    };
    match write_table(alloc, tree, path, writer, layout) {
        Ok(()) => Ok(()),
        Err(fault) => Err(PathFault::Stopped(fault)),
    }
}

/// Writes the key that a path leads to from the root, names folded, and all keys below it as a JSON array, an object a key and a line
/// an object, in the order of a dump: the key's path, time, marks, class and descriptor, and its values. The empty path is the root's.
/// The text goes to the writer some 64 KB at a time, but that of a key in one piece, and at the end the writer is flushed.
///
/// `NoKey` where the text is no path or no key is there, and then nothing was written; else `Stopped` where a write or memory failed,
/// after a front of the text. Of the writer's calls just one failed where a write is told, and else none.
pub fn export_json<S: Sink>(
    alloc: Global,
    tree: &Tree,
    path: &[u8],
    writer: &mut S,
) -> Result<(), PathFault>
    ensures ok { OnOk result (IsTold (key_at tree.now.tree path.now) (json_text tree.now.tree) (S.contents writer.old) (S.contents writer.new)) }
    ensures err { IfErr result (λ fault. TableStops fault tree.now.tree path.now (json_text tree.now.tree) (S.contents writer.old) (S.contents writer.new)) }
    ensures flushed { OnOk result (S.is_flushed writer.new) }
    ensures failures { MatchResult result (λ _. Stays (S.failures writer.old) (S.failures writer.new))
        (λ fault. PathBlames fault (S.failures writer.old) (S.failures writer.new)) }
{
    export_laid(alloc, tree, path, writer, Layout::Array)
}

/// Writes the same objects as [`export_json`] does, each in a line of its own that LF ends, with no brackets and no commas between. The
/// faults are the same.
pub fn export_jsonl<S: Sink>(
    alloc: Global,
    tree: &Tree,
    path: &[u8],
    writer: &mut S,
) -> Result<(), PathFault>
    ensures ok { OnOk result (IsTold (key_at tree.now.tree path.now) (jsonl_text tree.now.tree) (S.contents writer.old) (S.contents writer.new)) }
    ensures err { IfErr result (λ fault. TableStops fault tree.now.tree path.now (jsonl_text tree.now.tree) (S.contents writer.old) (S.contents writer.new)) }
    ensures flushed { OnOk result (S.is_flushed writer.new) }
    ensures failures { MatchResult result (λ _. Stays (S.failures writer.old) (S.failures writer.new))
        (λ fault. PathBlames fault (S.failures writer.old) (S.failures writer.new)) }
{
    export_laid(alloc, tree, path, writer, Layout::Lines)
}

/// Writes a page of HTML that stands alone, with the same array as [`export_json`] has and a script that shows its keys as a tree, and the
/// chosen one with its values. In the array each `<` is `\u003c`, so nothing in it ends the script that holds it. The faults are the same.
pub fn export_html<S: Sink>(
    alloc: Global,
    tree: &Tree,
    path: &[u8],
    writer: &mut S,
) -> Result<(), PathFault>
    ensures ok { OnOk result (IsTold (key_at tree.now.tree path.now) (html_text tree.now.tree) (S.contents writer.old) (S.contents writer.new)) }
    ensures err { IfErr result (λ fault. TableStops fault tree.now.tree path.now (html_text tree.now.tree) (S.contents writer.old) (S.contents writer.new)) }
    ensures flushed { OnOk result (S.is_flushed writer.new) }
    ensures failures { MatchResult result (λ _. Stays (S.failures writer.old) (S.failures writer.new))
        (λ fault. PathBlames fault (S.failures writer.old) (S.failures writer.new)) }
{
    export_laid(alloc, tree, path, writer, Layout::Page)
}
