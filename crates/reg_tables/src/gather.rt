//! Keys and values gathered from a tree.
ghost use Rattle.std.specs.Prelude.{◌≡◌, ◌<◌, IfOk, OnOk, length, map, slice_get, Some};
ghost use Rattle.std.specs.FinMap.{get};
ghost use Rattle.reg_names.specs.Names.{text_of};
ghost use Rattle.reg_heap.specs.Paths.{Path, Member};
ghost use Rattle.reg_heap.specs.Edits.{values_at};
ghost use Rattle.reg_tree.specs.TreeKeys.{IsAt, IsThere};
ghost use Rattle.reg_tree_text.specs.DumpTexts.{Told};
ghost use Rattle.reg_tables.specs.Tables.{value_data, key_data};
ghost use Rattle.reg_tables.specs.Internal.Entries.{value_view, key_view};

use crate::entry::{KeyEntry, ValueEntry};
use crate::form::form_of;
use crate::sddl::security_text;
use crate::time::moment_text;
use reg_tree::{Node, Tree};
use std::alloc::{AllocError, Global};
use std::str;

/// A name as a text. Each is ASCII; else memory would be said to be wanting.
pub fn name_text(name: &[u8]) -> Result<&str, AllocError>
    ensures { IfOk result (λ text. text.now ≡ name.now) }
{
    match str::from_utf8(name) {
        Ok(text) => Ok(text),
        Err(_) => Err(AllocError),
    }
}

/// The value of a key at an index.
fn value_entry<'a>(
    alloc: Global,
    tree: &'a Tree,
    node: Node,
    index: u32,
) -> Result<ValueEntry<'a>, AllocError>
    requires { (p : Path) × IsAt tree.now p node × (index < length (values_at tree.now.tree p)) }
    ensures { (p : Path) → IsAt tree.now p node → (member : Member) → slice_get (values_at tree.now.tree p) index ≡ Some member →
        IfOk result (λ e. value_view e ≡ value_data member) }
{
    let Some(value) = tree.value(node, index) else {
        unreachable!()
    };
    let bytes = tree.value_bytes(alloc, node, index)?;
    Ok(ValueEntry {
        name: name_text(value.name)?,
        kind: value.kind,
        form: form_of(alloc, value.kind, &bytes)?,
    })
}

/// The values of a key, in their order.
fn value_entries<'a>(
    alloc: Global,
    tree: &'a Tree,
    node: Node,
) -> Result<Vec<ValueEntry<'a>>, AllocError>
    requires { IsThere tree.now node }
    ensures { (p : Path) → IsAt tree.now p node → IfOk result (λ v. map value_view v.items ≡ map value_data (values_at tree.now.tree p)) }
{
    let mut entries = Vec::new(alloc);
    for index in 0..tree.values(node) {
        entries.push(value_entry(alloc, tree, node, index)?)?;
    }
    Ok(entries)
}

/// A key with its values.
pub fn key_entry<'a>(
    alloc: Global,
    tree: &'a Tree,
    node: Node,
    path: &'a [u8],
) -> Result<KeyEntry<'a>, AllocError>
    requires { IsThere tree.now node }
    ensures { (p : Path) → IsAt tree.now p node → (told : Told) → get tree.now.tree p ≡ Some told.key → path.now ≡ text_of told.names →
        IfOk result (λ e. key_view e ≡ key_data told) }
{
    Ok(KeyEntry {
        path: name_text(path)?,
        time: moment_text(alloc, tree.time(node))?,
        marks: tree.marks(node),
        class: hex::encode(alloc, tree.class(node))?,
        security: security_text(alloc, tree.descriptor(node))?,
        values: value_entries(alloc, tree, node)?,
    })
}
