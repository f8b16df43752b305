//! A value looked up and told with its type.
ghost use Rattle.std.specs.Prelude.{◌≡◌, ◌++◌, ◌<◌, length, slice_get, string_bytes, Some, OnOk, IfOk, IfErr, MatchResult};
ghost use Rattle.std.specs.Io.KnownBytes.{Appends};
ghost use Rattle.reg_heap.specs.Paths.{Path, Member};
ghost use Rattle.reg_heap.specs.Edits.{values_at};
ghost use Rattle.reg_text.specs.Failures.{Stays};
ghost use Rattle.reg_text.specs.Texts.{line_feed};
ghost use Rattle.reg_tree.specs.TreeKeys.{IsAt};
ghost use Rattle.reg_tree_text.specs.DumpFronts.{IsStopped, IsBlamed};
ghost use Rattle.reg_tree_text.specs.PathBlames.{PathBlames};
ghost use Rattle.reg_tree_text.specs.PathQueries.{value_at, IsTold};
ghost use Rattle.reg_tables.specs.TypedValues.{typed_told, typed_line, TypedStops};

use crate::parts::put_text;
use crate::typed::typed_text;
use reg_text::{Output, Sink};
use reg_tree::{Node, Tree};
use reg_tree_text::{DumpFault, PathFault, find_key, finish};
use std::alloc::{AllocError, Global};

/// The line of a value of that type and with these bytes.
fn line_of(alloc: Global, kind: u32, bytes: &[u8]) -> Result<String, AllocError>
    ensures { IfOk result (λ text. string_bytes text ≡ typed_told kind bytes.now ++ line_feed) }
{
    let mut text = typed_text(alloc, kind, bytes)?;
    text.push_str("\n")?;
    Ok(text)
}

/// The line of the value of a key at an index.
fn line_at(alloc: Global, tree: &Tree, node: Node, index: u32) -> Result<String, AllocError>
    requires { (p : Path) × IsAt tree.now p node × (index < length (values_at tree.now.tree p)) }
    ensures { (p : Path) → IsAt tree.now p node → (value : Member) → slice_get (values_at tree.now.tree p) index ≡ Some value →
        IfOk result (λ text. string_bytes text ≡ typed_line value) }
{
    let bytes = tree.value_bytes(alloc, node, index)?;
    let Some(value) = tree.value(node, index) else {
        unreachable!()
    };
    line_of(alloc, value.kind, &bytes)
}

/// Writes a text and has the writer pass it on.
fn write_text<S: Sink>(alloc: Global, text: &str, writer: &mut S) -> Result<(), DumpFault>
    ensures ok { OnOk result (Appends (S.contents writer.old) (S.contents writer.new) text.now) }
    ensures err { IfErr result (λ fault. IsStopped (S.contents writer.old) (S.contents writer.new) text.now fault) }
    ensures flushed { OnOk result (S.is_flushed writer.new) }
    ensures failures { MatchResult result (λ _. Stays (S.failures writer.old) (S.failures writer.new))
        (λ fault. IsBlamed fault (S.failures writer.old) (S.failures writer.new)) }
{
    let mut output = Output::new(alloc);
    put_text(&mut output, writer, text)?;
    finish(&mut output, writer)
}

/// Tells the value of a name, folded, of the key that a path leads to from the root, in one line: its type by the word by which a change
/// names it, or by its number; the form of its data (`text`, `number` or `hex`); and the data ([`reg_tree_text::value_text`]), a number
/// in decimal and then in hexadecimal. A space is between each two. The empty name is that of the key's default value.
///
/// `NoKey` where the text is no path or no key is there, else `NoValue` where the key has none of that name, and then nothing was
/// written; else `Stopped` where a write or memory failed, after a front of the line. Of the writer's calls just one failed where a
/// write is told, and else none.
pub fn get_typed<S: Sink>(
    alloc: Global,
    tree: &Tree,
    path: &[u8],
    name: &[u8],
    writer: &mut S,
) -> Result<(), PathFault>
    ensures ok { OnOk result (IsTold (value_at tree.now.tree path.now name.now) typed_line (S.contents writer.old) (S.contents writer.new)) }
    ensures err { IfErr result (λ fault. TypedStops fault tree.now.tree path.now name.now (S.contents writer.old) (S.contents writer.new)) }
    ensures flushed { OnOk result (S.is_flushed writer.new) }
    ensures failures { MatchResult result (λ _. Stays (S.failures writer.old) (S.failures writer.new))
        (λ fault. PathBlames fault (S.failures writer.old) (S.failures writer.new)) }
{
    let Some(node) = find_key(tree, path) else {
        return Err(PathFault::NoKey);
    };
    let Some(index) = tree.value_index(node, name) else {
        return Err(PathFault::NoValue);
    };
    let text = match line_at(alloc, tree, node, index) {
        Ok(text) => text,
        Err(_) => return Err(PathFault::Stopped(DumpFault::Memory)),
    };
    match write_text(alloc, text.as_str(), writer) {
        Ok(()) => Ok(()),
        Err(fault) => Err(PathFault::Stopped(fault)),
    }
}
