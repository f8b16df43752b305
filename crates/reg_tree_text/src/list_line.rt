//! The lines of a listing.
ghost use Rattle.std.specs.Prelude.{◌≡◌, ◌++◌, ◌<◌, string_bytes, OnOk, flat_map, length, slice_get, Some};
ghost use Rattle.std.specs.FinMap.{get};
ghost use Rattle.reg_names.specs.Names.{text_of};
ghost use Rattle.reg_heap.specs.Paths.{Path, Member, children_of};
ghost use Rattle.reg_heap.specs.Edits.{values_at};
ghost use Rattle.reg_tree.specs.TreeKeys.{IsAt, IsThere};
ghost use Rattle.reg_tree_text.specs.DumpTexts.{Told, name_of};
ghost use Rattle.reg_tree_text.specs.Internal.Gathered.{Puts};
ghost use Rattle.reg_tree_text.specs.Listings.{after_name, value_line, value_lines, key_line, told_lines};

use crate::DumpFault;
use crate::output::{put_escaped, settle};
use reg_text::{Output, Sink};
use reg_tree::{Node, Tree};
use std::alloc::AllocError;

/// A part of a line that is the same in each.
fn write_part(text: &mut String, part: &str) -> Result<(), AllocError>
    ensures { OnOk result (string_bytes text.new ≡ string_bytes text.old ++ part.now) }
{
    text.push_str(part)
}

/// The end of a value's line, behind its name.
#[tactic(auto, unfolding(crate::specs::Listings::after_name))]
fn write_kind_and_size(text: &mut String, kind: u32, size: u32) -> Result<(), AllocError>
    ensures { OnOk result (string_bytes text.new ≡ string_bytes text.old ++ after_name kind size) }
{
    writeln!(text, " type {kind} size {size}")
}

/// Tells the line of a value of that name and type and of so many bytes, in a listing: it is gathered, and what was gathered is sent once
/// it is enough ([`crate::settle`]).
pub fn put_value_line<W: Sink>(
    output: &mut Output<String>,
    writer: &mut W,
    name: &[u8],
    kind: u32,
    size: u32,
) -> Result<(), DumpFault>
    ensures { Puts output.old (W.contents writer.old, W.failures writer.old) output.new (W.contents writer.new, W.failures writer.new) (value_line name.now kind size) result }
{
    write_part(&mut output.gathered, "value =")?;
    put_escaped(output, writer, name)?;
    write_kind_and_size(&mut output.gathered, kind, size)?;
    settle(output, writer)
}

/// Tells the line of the value of a key at an index.
fn put_value<W: Sink>(
    output: &mut Output<String>,
    writer: &mut W,
    tree: &Tree,
    node: Node,
    index: u32,
) -> Result<(), DumpFault>
    requires { (p : Path) × IsAt tree.now p node × (index < length (values_at tree.now.tree p)) }
    ensures { (p : Path) → IsAt tree.now p node → (member : Member) → slice_get (values_at tree.now.tree p) index ≡ Some member →
        Puts output.old (W.contents writer.old, W.failures writer.old) output.new (W.contents writer.new, W.failures writer.new)
        (value_line member.name member.kind (length member.bytes)) result }
{
    let Some(value) = tree.value(node, index) else {
        unreachable!()
    };
    put_value_line(output, writer, value.name, value.kind, value.size)
}

/// Tells the lines of a key's values, in their order.
pub fn put_values<W: Sink>(
    output: &mut Output<String>,
    writer: &mut W,
    tree: &Tree,
    node: Node,
) -> Result<(), DumpFault>
    requires { IsThere tree.now node }
    ensures { (p : Path) → IsAt tree.now p node →
        Puts output.old (W.contents writer.old, W.failures writer.old) output.new (W.contents writer.new, W.failures writer.new) (value_lines (values_at tree.now.tree p)) result }
{
    for index in 0..tree.values(node) {
        put_value(output, writer, tree, node, index)?;
    }
    Ok(())
}

/// Tells the line of a key of that name, or at the end of names joined by backslashes, in a listing, as [`put_value_line`] does.
pub fn put_key_line<W: Sink>(
    output: &mut Output<String>,
    writer: &mut W,
    name: &[u8],
) -> Result<(), DumpFault>
    ensures { Puts output.old (W.contents writer.old, W.failures writer.old) output.new (W.contents writer.new, W.failures writer.new) (key_line name.now) result }
{
    write_part(&mut output.gathered, "key =")?;
    put_escaped(output, writer, name)?;
    write_part(&mut output.gathered, "\n")?;
    settle(output, writer)
}

/// Tells the lines of the keys right below a key, in the order of their folded names.
pub fn put_subkeys<W: Sink>(
    output: &mut Output<String>,
    writer: &mut W,
    tree: &Tree,
    node: Node,
) -> Result<(), DumpFault>
    requires { IsThere tree.now node }
    ensures { (p : Path) → IsAt tree.now p node →
        Puts output.old (W.contents writer.old, W.failures writer.old) output.new (W.contents writer.new, W.failures writer.new)
        (flat_map (λ child. key_line (name_of (get tree.now.tree child))) (children_of tree.now.tree p)) result }
{
    let mut next = tree.first_subkey(node);
    for _index in 0..tree.subkeys(node) {
        let Some(subkey) = next else { unreachable!() };
        put_key_line(output, writer, tree.name(subkey.node))?;
        next = tree.next_subkey(node, subkey);
    }
    Ok(())
}

/// Tells the lines of a key below the one that is listed: its own, with its path from there, and those of its values.
pub fn put_key<W: Sink>(
    output: &mut Output<String>,
    writer: &mut W,
    tree: &Tree,
    node: Node,
    path: &[u8],
) -> Result<(), DumpFault>
    requires { IsThere tree.now node }
    ensures { (p : Path) → IsAt tree.now p node → (told : Told) → get tree.now.tree p ≡ Some told.key → path.now ≡ text_of told.names →
        Puts output.old (W.contents writer.old, W.failures writer.old) output.new (W.contents writer.new, W.failures writer.new) (told_lines told) result }
{
    put_key_line(output, writer, path)?;
    put_values(output, writer, tree, node)
}
