//! The rows of a table of values.
ghost use Rattle.std.specs.Prelude.{◌≡◌, ◌<◌, ◌∷◌, [], IfOk, codes, length, map, flat_map, slice_get, string_bytes, Some};
ghost use Rattle.std.specs.FinMap.{get};
ghost use Rattle.std.specs.Fmt.{decimal};
ghost use Rattle.reg_names.specs.Names.{text_of};
ghost use Rattle.reg_heap.specs.Paths.{Path, Member};
ghost use Rattle.reg_heap.specs.Edits.{values_at};
ghost use Rattle.reg_tree.specs.TreeKeys.{IsAt, IsThere};
ghost use Rattle.reg_tree_text.specs.DumpTexts.{Told};
ghost use Rattle.reg_tree_text.specs.Internal.Gathered.{Puts};
ghost use Rattle.reg_tables.specs.Tables.{key_row, value_row, value_rows, key_rows, line_text};

use crate::parts::put_text;
use crate::time::{moment_text, number_text};
use crate::told_form::told_form;
use csv::{Error, WriterBuilder};
use reg_text::{Output, Sink};
use reg_tree::{Node, Tree};
use reg_tree_text::{DumpFault, value_text};
use std::alloc::{AllocError, Global};

/// The bytes of a row.
fn row_bytes(alloc: Global, fields: &[&[u8]]) -> Result<Vec<u8>, Error>
    ensures { IfOk result (λ v. v.items ≡ line_text (map (λ f. f.now) fields.now)) }
{
    let mut writer = WriterBuilder::new().from_writer(Vec::new(alloc));
    writer.write_fields(fields)?;
    match writer.into_inner() {
        Ok(bytes) => Ok(bytes),
        Err(fault) => Err(fault.into_error()),
    }
}

/// The text of a row. Each field is a text, so the row is one; else memory would be said to be wanting.
fn row_text(alloc: Global, fields: &[&[u8]]) -> Result<String, AllocError>
    ensures { IfOk result (λ text. string_bytes text ≡ line_text (map (λ f. f.now) fields.now)) }
{
    let Ok(bytes) = row_bytes(alloc, fields) else {
        return Err(AllocError);
    };
    match String::from_utf8(bytes) {
        Ok(text) => Ok(text),
        Err(_) => Err(AllocError),
    }
}

/// Tells a row.
pub fn put_row<S: Sink>(
    output: &mut Output<String>,
    writer: &mut S,
    alloc: Global,
    fields: &[&[u8]],
) -> Result<(), DumpFault>
    ensures { Puts output.old (S.contents writer.old, S.failures writer.old) output.new (S.contents writer.new, S.failures writer.new)
        (line_text (map (λ f. f.now) fields.now)) result }
{
    let text = row_text(alloc, fields)?;
    put_text(output, writer, &text)
}

/// Tells the row of a value of that name, with the texts of its type, form and data.
fn put_fields<S: Sink>(
    output: &mut Output<String>,
    writer: &mut S,
    alloc: Global,
    path: &[u8],
    name: &[u8],
    number: &[u8],
    form: &[u8],
    told: &[u8],
) -> Result<(), DumpFault>
    ensures { Puts output.old (S.contents writer.old, S.failures writer.old) output.new (S.contents writer.new, S.failures writer.new)
        (line_text (codes "value" ∷ path.now ∷ [] ∷ name.now ∷ number.now ∷ form.now ∷ told.now ∷ [])) result }
{
    put_row(
        output,
        writer,
        alloc,
        &[b"value", path, b"", name, number, form, told],
    )
}

/// Tells the row of a value of that name, type and data.
fn put_member<S: Sink>(
    output: &mut Output<String>,
    writer: &mut S,
    alloc: Global,
    path: &[u8],
    name: &[u8],
    kind: u32,
    bytes: &[u8],
) -> Result<(), DumpFault>
    ensures { Puts output.old (S.contents writer.old, S.failures writer.old) output.new (S.contents writer.new, S.failures writer.new)
        (line_text (value_row path.now (record { name = name.now; kind = kind; bytes = bytes.now }))) result }
{
    let number = number_text(alloc, u64::from(kind))?;
    let form = told_form(alloc, kind, bytes)?;
    let data = value_text(alloc, kind, bytes)?;
    put_fields(
        output,
        writer,
        alloc,
        path,
        name,
        number.as_bytes(),
        form.as_bytes(),
        data.as_bytes(),
    )
}

/// Tells the row of the value of a key at an index.
fn put_value<S: Sink>(
    output: &mut Output<String>,
    writer: &mut S,
    alloc: Global,
    tree: &Tree,
    node: Node,
    path: &[u8],
    index: u32,
) -> Result<(), DumpFault>
    requires { (p : Path) × IsAt tree.now p node × (index < length (values_at tree.now.tree p)) }
    ensures { (p : Path) → IsAt tree.now p node → (member : Member) → slice_get (values_at tree.now.tree p) index ≡ Some member →
        Puts output.old (S.contents writer.old, S.failures writer.old) output.new (S.contents writer.new, S.failures writer.new)
        (line_text (value_row path.now member)) result }
{
    let Some(value) = tree.value(node, index) else {
        unreachable!()
    };
    let bytes = tree.value_bytes(alloc, node, index)?;
    put_member(output, writer, alloc, path, value.name, value.kind, &bytes)
}

/// Tells the rows of a key's values, in their order.
fn put_values<S: Sink>(
    output: &mut Output<String>,
    writer: &mut S,
    alloc: Global,
    tree: &Tree,
    node: Node,
    path: &[u8],
) -> Result<(), DumpFault>
    requires { IsThere tree.now node }
    ensures { (p : Path) → IsAt tree.now p node →
        Puts output.old (S.contents writer.old, S.failures writer.old) output.new (S.contents writer.new, S.failures writer.new)
        (value_rows path.now (values_at tree.now.tree p)) result }
{
    for index in 0..tree.values(node) {
        put_value(output, writer, alloc, tree, node, path, index)?;
    }
    Ok(())
}

/// Tells the row of a key at that path, with that time.
fn put_line<S: Sink>(
    output: &mut Output<String>,
    writer: &mut S,
    alloc: Global,
    path: &[u8],
    time: u64,
) -> Result<(), DumpFault>
    ensures { Puts output.old (S.contents writer.old, S.failures writer.old) output.new (S.contents writer.new, S.failures writer.new)
        (line_text (key_row path.now time)) result }
{
    let text = moment_text(alloc, time)?;
    put_row(
        output,
        writer,
        alloc,
        &[b"key", path, text.as_bytes(), b"", b"", b"", b""],
    )
}

/// Tells the rows of a key: its own, and those of its values.
pub fn put_key<S: Sink>(
    output: &mut Output<String>,
    writer: &mut S,
    alloc: Global,
    tree: &Tree,
    node: Node,
    path: &[u8],
) -> Result<(), DumpFault>
    requires { IsThere tree.now node }
    ensures { (p : Path) → IsAt tree.now p node → (told : Told) → get tree.now.tree p ≡ Some told.key → path.now ≡ text_of told.names →
        Puts output.old (S.contents writer.old, S.failures writer.old) output.new (S.contents writer.new, S.failures writer.new) (key_rows told) result }
{
    let time = tree.time(node);
    put_line(output, writer, alloc, path, time)?;
    put_values(output, writer, alloc, tree, node, path)
}
