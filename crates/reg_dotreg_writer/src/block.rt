//! A key's block: its line, the entries of its values, and an empty line.
ghost use Rattle.std.specs.Prelude.{◌≡◌, ◌++◌, ◌<◌, OnOk, length, slice_get, Some};
ghost use Rattle.std.specs.FinMap.{get};
ghost use Rattle.reg_names.specs.Names.{text_of};
ghost use Rattle.reg_heap.specs.Paths.{Path, Member};
ghost use Rattle.reg_heap.specs.Edits.{values_at};
ghost use Rattle.reg_tree.specs.TreeKeys.{IsAt, IsThere};
ghost use Rattle.reg_tree_text.specs.DumpTexts.{Told};
ghost use Rattle.reg_dotreg_writer.specs.EntryTexts.{line_end};
ghost use Rattle.reg_dotreg_writer.specs.Entries.{key_line};
ghost use Rattle.reg_dotreg_writer.specs.Internal.Pieces.{plain, entry_pieces, entries_pieces, block_pieces};
ghost use Rattle.reg_dotreg_writer.specs.Internal.Sending.{Puts};

use crate::encoding::{push_character, push_plain};
use crate::value::push_entry;
use reg_text::{Output, Sink};
use reg_tree::{Node, Tree};
use reg_tree_text::{DumpFault, settle};
use std::alloc::{AllocError, Global};

/// Appends the line of a key.
fn push_line(bytes: &mut Vec<u8>, is_utf8: bool, path: &[u8]) -> Result<(), AllocError>
    ensures { OnOk result (bytes.new.items ≡ bytes.old.items ++ plain is_utf8 (key_line path.now)) }
{
    push_character(bytes, is_utf8, b'[')?;
    push_plain(bytes, is_utf8, path)?;
    push_plain(bytes, is_utf8, b"]\r\n")
}

/// Tells the entry of a value of that name, type and data.
fn put_member<W: Sink>(
    output: &mut Output<Vec<u8>>,
    writer: &mut W,
    alloc: Global,
    is_utf8: bool,
    name: &[u8],
    kind: u32,
    content: &[u8],
) -> Result<(), DumpFault>
    ensures { Puts output.old (W.contents writer.old, W.failures writer.old) output.new (W.contents writer.new, W.failures writer.new)
        (entry_pieces is_utf8 name.now kind content.now) result }
{
    push_entry(alloc, &mut output.gathered, is_utf8, name, kind, content)?;
    settle(output, writer)
}

/// Tells the entry of the value of a key at an index.
fn put_value<W: Sink>(
    output: &mut Output<Vec<u8>>,
    writer: &mut W,
    alloc: Global,
    is_utf8: bool,
    tree: &Tree,
    node: Node,
    index: u32,
) -> Result<(), DumpFault>
    requires { (p : Path) × IsAt tree.now p node × (index < length (values_at tree.now.tree p)) }
    ensures { (p : Path) → IsAt tree.now p node → (member : Member) → slice_get (values_at tree.now.tree p) index ≡ Some member →
        Puts output.old (W.contents writer.old, W.failures writer.old) output.new (W.contents writer.new, W.failures writer.new)
        (entry_pieces is_utf8 member.name member.kind member.bytes) result }
{
    let Some(value) = tree.value(node, index) else {
        unreachable!()
    };
    let bytes = tree.value_bytes(alloc, node, index)?;
    put_member(
        output, writer, alloc, is_utf8, value.name, value.kind, &bytes,
    )
}

/// Tells the entries of a key's values, in their order.
fn put_values<W: Sink>(
    output: &mut Output<Vec<u8>>,
    writer: &mut W,
    alloc: Global,
    is_utf8: bool,
    tree: &Tree,
    node: Node,
) -> Result<(), DumpFault>
    requires { IsThere tree.now node }
    ensures { (p : Path) → IsAt tree.now p node →
        Puts output.old (W.contents writer.old, W.failures writer.old) output.new (W.contents writer.new, W.failures writer.new)
        (entries_pieces is_utf8 (values_at tree.now.tree p)) result }
{
    for index in 0..tree.values(node) {
        put_value(output, writer, alloc, is_utf8, tree, node, index)?;
    }
    Ok(())
}

/// Tells the block of a key, to which these names lead from the root on.
pub fn put_key<W: Sink>(
    output: &mut Output<Vec<u8>>,
    writer: &mut W,
    alloc: Global,
    is_utf8: bool,
    tree: &Tree,
    node: Node,
    path: &[u8],
) -> Result<(), DumpFault>
    requires { IsThere tree.now node }
    ensures { (p : Path) → IsAt tree.now p node → (told : Told) → get tree.now.tree p ≡ Some told.key → path.now ≡ text_of told.names →
        Puts output.old (W.contents writer.old, W.failures writer.old) output.new (W.contents writer.new, W.failures writer.new)
        (block_pieces is_utf8 told) result }
{
    push_line(&mut output.gathered, is_utf8, path)?;
    put_values(output, writer, alloc, is_utf8, tree, node)?;
    push_plain(&mut output.gathered, is_utf8, b"\r\n")?;
    settle(output, writer)
}
