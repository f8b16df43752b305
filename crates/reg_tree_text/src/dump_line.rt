//! The lines of a dump.
ghost use Rattle.std.specs.Prelude.{◌≡◌, ◌++◌, ◌<◌, string_bytes, OnOk, codes, flat_map, drop, length, slice_get, Some};
ghost use Rattle.std.specs.FinMap.{get};
ghost use Rattle.reg_names.specs.Names.{text_of};
ghost use Rattle.reg_heap.specs.Paths.{Path, Member, Rec};
ghost use Rattle.reg_heap.specs.Edits.{values_at};
ghost use Rattle.reg_tree.specs.TreeKeys.{IsAt, IsThere};
ghost use Rattle.reg_tree_text.specs.DumpTexts.{Told, root_line, key_line, key_lines, value_line, counts_line};
ghost use Rattle.reg_tree_text.specs.Internal.Gathered.{Puts};
ghost use Rattle.reg_tree_text.specs.Internal.LineParts.{marks_part, time_part, kind_part, key_in_parts, value_in_parts};

use crate::output::{put_digits, put_escaped, settle};
use crate::{Counts, DumpFault};
use reg_text::{Output, Sink};
use reg_tree::{Node, Tree};
use std::alloc::{AllocError, Global};

/// A part of a line that is the same in each.
fn write_part(text: &mut String, part: &str) -> Result<(), AllocError>
    ensures { OnOk result (string_bytes text.new ≡ string_bytes text.old ++ part.now) }
{
    text.push_str(part)
}

/// What stands between a key's path and its class.
fn write_marks(text: &mut String, marks: u16) -> Result<(), AllocError>
    ensures { OnOk result (string_bytes text.new ≡ string_bytes text.old ++ marks_part marks) }
{
    write!(text, " marks {marks} class x")
}

/// The end of a key's line.
fn write_time(text: &mut String, time: u64) -> Result<(), AllocError>
    ensures { OnOk result (string_bytes text.new ≡ string_bytes text.old ++ time_part time) }
{
    writeln!(text, " time {time}")
}

/// What stands between a value's name and its bytes.
fn write_kind(text: &mut String, kind: u32) -> Result<(), AllocError>
    ensures { OnOk result (string_bytes text.new ≡ string_bytes text.old ++ kind_part kind) }
{
    write!(text, " type {kind} x")
}

/// The line that counts the keys and the values.
pub fn write_counts(text: &mut String, counts: Counts) -> Result<(), AllocError>
    ensures { OnOk result (string_bytes text.new ≡ string_bytes text.old ++ counts_line counts.keys counts.values) }
{
    writeln!(text, "keys {} values {}", counts.keys, counts.values)
}

/// Tells the line of a value of that name, type and data.
fn put_member<W: Sink>(
    output: &mut Output<String>,
    writer: &mut W,
    name: &[u8],
    kind: u32,
    bytes: &[u8],
) -> Result<(), DumpFault>
    ensures { Puts output.old (W.contents writer.old, W.failures writer.old) output.new (W.contents writer.new, W.failures writer.new) (value_in_parts name.now kind bytes.now) result }
{
    write_part(&mut output.gathered, "value =")?;
    put_escaped(output, writer, name)?;
    write_kind(&mut output.gathered, kind)?;
    put_digits(output, writer, bytes)?;
    write_part(&mut output.gathered, "\n")?;
    settle(output, writer)
}

/// Tells the line of a key at that path, with those marks, class, descriptor and time.
fn put_fields<W: Sink>(
    output: &mut Output<String>,
    writer: &mut W,
    path: &[u8],
    marks: u16,
    class: &[u8],
    descriptor: &[u8],
    time: u64,
) -> Result<(), DumpFault>
    ensures { Puts output.old (W.contents writer.old, W.failures writer.old) output.new (W.contents writer.new, W.failures writer.new)
        (key_in_parts path.now marks class.now descriptor.now time) result }
{
    write_part(&mut output.gathered, "key =")?;
    put_escaped(output, writer, path)?;
    write_marks(&mut output.gathered, marks)?;
    put_digits(output, writer, class)?;
    write_part(&mut output.gathered, " security x")?;
    put_digits(output, writer, descriptor)?;
    write_time(&mut output.gathered, time)?;
    settle(output, writer)
}

/// Tells the line of the value of a key at an index.
fn put_value<W: Sink>(
    output: &mut Output<String>,
    writer: &mut W,
    alloc: Global,
    tree: &Tree,
    node: Node,
    index: u32,
) -> Result<(), DumpFault>
    requires { (p : Path) × IsAt tree.now p node × (index < length (values_at tree.now.tree p)) }
    ensures { (p : Path) → IsAt tree.now p node → (member : Member) → slice_get (values_at tree.now.tree p) index ≡ Some member →
        Puts output.old (W.contents writer.old, W.failures writer.old) output.new (W.contents writer.new, W.failures writer.new) (value_line member) result }
{
    let Some(value) = tree.value(node, index) else {
        unreachable!()
    };
    let bytes = tree.value_bytes(alloc, node, index)?;
    put_member(output, writer, value.name, value.kind, &bytes)
}

/// Tells the lines of a key's values, in their order.
fn put_values<W: Sink>(
    output: &mut Output<String>,
    writer: &mut W,
    alloc: Global,
    tree: &Tree,
    node: Node,
) -> Result<(), DumpFault>
    requires { IsThere tree.now node }
    ensures { (p : Path) → IsAt tree.now p node →
        Puts output.old (W.contents writer.old, W.failures writer.old) output.new (W.contents writer.new, W.failures writer.new) (flat_map value_line (values_at tree.now.tree p)) result }
{
    for index in 0..tree.values(node) {
        put_value(output, writer, alloc, tree, node, index)?;
    }
    Ok(())
}

/// Tells the line of a key.
fn put_line<W: Sink>(
    output: &mut Output<String>,
    writer: &mut W,
    tree: &Tree,
    node: Node,
    path: &[u8],
) -> Result<(), DumpFault>
    requires { IsThere tree.now node }
    ensures { (p : Path) → IsAt tree.now p node → (told : Told) → get tree.now.tree p ≡ Some told.key → path.now ≡ text_of told.names →
        Puts output.old (W.contents writer.old, W.failures writer.old) output.new (W.contents writer.new, W.failures writer.new) (key_line told) result }
{
    let marks = tree.marks(node);
    let time = tree.time(node);
    put_fields(
        output,
        writer,
        path,
        marks,
        tree.class(node),
        tree.descriptor(node),
        time,
    )
}

/// Tells the lines of a key: its own, and those of its values.
pub fn put_key<W: Sink>(
    output: &mut Output<String>,
    writer: &mut W,
    alloc: Global,
    tree: &Tree,
    node: Node,
    path: &[u8],
) -> Result<(), DumpFault>
    requires { IsThere tree.now node }
    ensures { (p : Path) → IsAt tree.now p node → (told : Told) → get tree.now.tree p ≡ Some told.key → path.now ≡ text_of told.names →
        Puts output.old (W.contents writer.old, W.failures writer.old) output.new (W.contents writer.new, W.failures writer.new) (key_lines told) result }
{
    put_line(output, writer, tree, node, path)?;
    put_values(output, writer, alloc, tree, node)
}

/// Tells the line of the root's name.
pub fn put_root<W: Sink>(
    output: &mut Output<String>,
    writer: &mut W,
    tree: &Tree,
) -> Result<(), DumpFault>
    ensures { Puts output.old (W.contents writer.old, W.failures writer.old) output.new (W.contents writer.new, W.failures writer.new) (root_line tree.now.tree) result }
{
    let name = tree.name(tree.root());
    write_part(&mut output.gathered, "root =")?;
    put_escaped(output, writer, name)?;
    write_part(&mut output.gathered, "\n")?;
    settle(output, writer)
}

/// Tells the line that counts the keys and the values.
pub fn put_counts<W: Sink>(
    output: &mut Output<String>,
    writer: &mut W,
    counts: Counts,
) -> Result<(), DumpFault>
    ensures { Puts output.old (W.contents writer.old, W.failures writer.old) output.new (W.contents writer.new, W.failures writer.new) (counts_line counts.keys counts.values) result }
{
    write_counts(&mut output.gathered, counts)?;
    settle(output, writer)
}
