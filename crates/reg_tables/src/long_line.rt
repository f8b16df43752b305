//! The lines of a listing that tells what is asked for.
ghost use Rattle.std.specs.Prelude.{◌≡◌, ◌++◌, ◌<◌, Bool, IfOk, codes, flat_map, length, slice_get, string_bytes, Some};
ghost use Rattle.std.specs.Fmt.{decimal};
ghost use Rattle.std.specs.FinMap.{get};
ghost use Rattle.reg_names.specs.Names.{text_of};
ghost use Rattle.reg_heap.specs.Paths.{Path, Rec, Member, children_of};
ghost use Rattle.reg_heap.specs.Edits.{values_at};
ghost use Rattle.reg_tree.specs.TreeKeys.{IsAt, IsThere};
ghost use Rattle.reg_tree_text.specs.DumpTexts.{Told};
ghost use Rattle.reg_tree_text.specs.Internal.Gathered.{Puts};
ghost use Rattle.reg_tables.specs.TypedValues.{typed_told};
ghost use Rattle.reg_tables.specs.LongListings.{line_end as end_of, line_told, descriptor_told, time_part as time_told, security_part as security_told, key_about as about_key, key_line, child_line, value_about as about_value, value_line, value_lines, told_lines};

use crate::Columns;
use crate::parts::put_text;
use crate::sddl::sddl_text;
use crate::time::moment_text;
use crate::typed::typed_text;
use reg_text::{Output, Sink};
use reg_tree::{Node, Tree};
use reg_tree_text::{DumpFault, put_escaped};
use std::alloc::{AllocError, Global};

/// The end of a line.
fn line_end(ends_by_zero: bool) -> &'static str
    ensures { result.now ≡ end_of ends_by_zero }
{
    if ends_by_zero { "\0" } else { "\n" }
}

/// Tells a line of a name, or of names joined by backslashes.
fn put_line<S: Sink>(
    output: &mut Output<String>,
    writer: &mut S,
    head: &str,
    name: &[u8],
    about: &str,
    ends_by_zero: bool,
) -> Result<(), DumpFault>
    ensures { Puts output.old (S.contents writer.old, S.failures writer.old) output.new (S.contents writer.new, S.failures writer.new)
        (line_told head.now name.now about.now ends_by_zero) result }
{
    put_text(output, writer, head)?;
    put_escaped(output, writer, name)?;
    put_text(output, writer, about)?;
    put_text(output, writer, line_end(ends_by_zero))
}

/// A descriptor: its text, or the bytes of what is none.
#[tactic(auto, unfolding(crate::specs::LongListings::descriptor_told))]
fn descriptor_text(alloc: Global, bytes: &[u8]) -> Result<String, AllocError>
    ensures { IfOk result (λ text. string_bytes text ≡ descriptor_told bytes.now) }
{
    if let Some(text) = sddl_text(alloc, bytes)? {
        return Ok(text);
    }
    let digits = hex::encode(alloc, bytes)?;
    format!(in alloc; "hex:{digits}")
}

/// A time, where it is asked for.
fn time_part(alloc: Global, has_times: bool, ticks: u64) -> Result<String, AllocError>
    ensures { IfOk result (λ text. string_bytes text ≡ time_told has_times ticks) }
{
    if !has_times {
        return Ok(String::new(alloc));
    }
    let moment = moment_text(alloc, ticks)?;
    format!(in alloc; " time {moment}")
}

/// A descriptor, where it is asked for.
fn security_part(alloc: Global, has_securities: bool, bytes: &[u8]) -> Result<String, AllocError>
    ensures { IfOk result (λ text. string_bytes text ≡ security_told has_securities bytes.now) }
{
    if !has_securities {
        return Ok(String::new(alloc));
    }
    let descriptor = descriptor_text(alloc, bytes)?;
    format!(in alloc; " security {descriptor}")
}

/// A time and a descriptor, where they are asked for.
fn key_parts(
    alloc: Global,
    columns: Columns,
    ticks: u64,
    descriptor: &[u8],
) -> Result<String, AllocError>
    ensures { IfOk result (λ text. string_bytes text ≡
        time_told columns.has_times ticks ++ security_told columns.has_securities descriptor.now) }
{
    let time = time_part(alloc, columns.has_times, ticks)?;
    let security = security_part(alloc, columns.has_securities, descriptor)?;
    format!(in alloc; "{time}{security}")
}

/// What is told of a key.
fn key_about(alloc: Global, tree: &Tree, node: Node, columns: Columns) -> Result<String, AllocError>
    requires { IsThere tree.now node }
    ensures { (p : Path) → IsAt tree.now p node → (key : Rec) → get tree.now.tree p ≡ Some key →
        IfOk result (λ text. string_bytes text ≡ about_key columns key) }
{
    let ticks = tree.time(node);
    key_parts(alloc, columns, ticks, tree.descriptor(node))
}

/// The type's number of a value, and how many bytes it has.
fn size_text(alloc: Global, kind: u32, size: u32) -> Result<String, AllocError>
    ensures { IfOk result (λ text. string_bytes text ≡ codes " type " ++ (decimal kind ++ (codes " size " ++ decimal size))) }
{
    format!(in alloc; " type {kind} size {size}")
}

/// The type of a value, the form of its data and these.
fn data_text(alloc: Global, kind: u32, bytes: &[u8]) -> Result<String, AllocError>
    ensures { IfOk result (λ text. string_bytes text ≡ codes " " ++ typed_told kind bytes.now) }
{
    let typed = typed_text(alloc, kind, bytes)?;
    format!(in alloc; " {typed}")
}

/// What is told of the value of a key at an index.
fn value_about(
    alloc: Global,
    tree: &Tree,
    node: Node,
    index: u32,
    is_long: bool,
) -> Result<String, AllocError>
    requires { (p : Path) × IsAt tree.now p node × (index < length (values_at tree.now.tree p)) }
    ensures { (p : Path) → IsAt tree.now p node → (member : Member) → slice_get (values_at tree.now.tree p) index ≡ Some member →
        IfOk result (λ text. string_bytes text ≡ about_value is_long member) }
{
    let Some(value) = tree.value(node, index) else {
        unreachable!()
    };
    if !is_long {
        return size_text(alloc, value.kind, value.size);
    }
    let bytes = tree.value_bytes(alloc, node, index)?;
    data_text(alloc, value.kind, &bytes)
}

/// Tells the line of the value of a key at an index.
fn put_value<S: Sink>(
    output: &mut Output<String>,
    writer: &mut S,
    alloc: Global,
    tree: &Tree,
    node: Node,
    index: u32,
    columns: Columns,
) -> Result<(), DumpFault>
    requires { (p : Path) × IsAt tree.now p node × (index < length (values_at tree.now.tree p)) }
    ensures { (p : Path) → IsAt tree.now p node → (member : Member) → slice_get (values_at tree.now.tree p) index ≡ Some member →
        Puts output.old (S.contents writer.old, S.failures writer.old) output.new (S.contents writer.new, S.failures writer.new)
        (value_line columns member) result }
{
    let Some(value) = tree.value(node, index) else {
        unreachable!()
    };
    let about = value_about(alloc, tree, node, index, columns.is_long)?;
    put_line(
        output,
        writer,
        "value =",
        value.name,
        &about,
        columns.ends_by_zero,
    )
}

/// Tells the lines of a key's values, in their order.
pub fn put_values<S: Sink>(
    output: &mut Output<String>,
    writer: &mut S,
    alloc: Global,
    tree: &Tree,
    node: Node,
    columns: Columns,
) -> Result<(), DumpFault>
    requires { IsThere tree.now node }
    ensures { (p : Path) → IsAt tree.now p node →
        Puts output.old (S.contents writer.old, S.failures writer.old) output.new (S.contents writer.new, S.failures writer.new)
        (value_lines columns (values_at tree.now.tree p)) result }
{
    for index in 0..tree.values(node) {
        put_value(output, writer, alloc, tree, node, index, columns)?;
    }
    Ok(())
}

/// Tells the line of a key by a name, or by names joined by backslashes.
fn put_key_line<S: Sink>(
    output: &mut Output<String>,
    writer: &mut S,
    alloc: Global,
    tree: &Tree,
    node: Node,
    name: &[u8],
    columns: Columns,
) -> Result<(), DumpFault>
    requires { IsThere tree.now node }
    ensures { (p : Path) → IsAt tree.now p node → (key : Rec) → get tree.now.tree p ≡ Some key →
        Puts output.old (S.contents writer.old, S.failures writer.old) output.new (S.contents writer.new, S.failures writer.new)
        (key_line columns name.now key) result }
{
    let about = key_about(alloc, tree, node, columns)?;
    put_line(output, writer, "key =", name, &about, columns.ends_by_zero)
}

/// Tells the line of a key by its name.
fn put_child<S: Sink>(
    output: &mut Output<String>,
    writer: &mut S,
    alloc: Global,
    tree: &Tree,
    node: Node,
    columns: Columns,
) -> Result<(), DumpFault>
    requires { IsThere tree.now node }
    ensures { (p : Path) → IsAt tree.now p node →
        Puts output.old (S.contents writer.old, S.failures writer.old) output.new (S.contents writer.new, S.failures writer.new)
        (child_line columns (get tree.now.tree p)) result }
{
    let name = tree.name(node);
    put_key_line(output, writer, alloc, tree, node, name, columns)
}

/// Tells the lines of the keys right below a key, in the order of their folded names.
pub fn put_subkeys<S: Sink>(
    output: &mut Output<String>,
    writer: &mut S,
    alloc: Global,
    tree: &Tree,
    node: Node,
    columns: Columns,
) -> Result<(), DumpFault>
    requires { IsThere tree.now node }
    ensures { (p : Path) → IsAt tree.now p node →
        Puts output.old (S.contents writer.old, S.failures writer.old) output.new (S.contents writer.new, S.failures writer.new)
        (flat_map (λ child. child_line columns (get tree.now.tree child)) (children_of tree.now.tree p)) result }
{
    let mut next = tree.first_subkey(node);
    for _index in 0..tree.subkeys(node) {
        let Some(subkey) = next else { unreachable!() };
        put_child(output, writer, alloc, tree, subkey.node, columns)?;
        next = tree.next_subkey(node, subkey);
    }
    Ok(())
}

/// Tells the lines of a key below the one that is listed: its own, with its path from there, and those of its values.
pub fn put_key<S: Sink>(
    output: &mut Output<String>,
    writer: &mut S,
    alloc: Global,
    tree: &Tree,
    node: Node,
    path: &[u8],
    columns: Columns,
) -> Result<(), DumpFault>
    requires { IsThere tree.now node }
    ensures { (p : Path) → IsAt tree.now p node → (told : Told) → get tree.now.tree p ≡ Some told.key → path.now ≡ text_of told.names →
        Puts output.old (S.contents writer.old, S.failures writer.old) output.new (S.contents writer.new, S.failures writer.new)
        (told_lines columns told) result }
{
    put_key_line(output, writer, alloc, tree, node, path, columns)?;
    put_values(output, writer, alloc, tree, node, columns)
}
