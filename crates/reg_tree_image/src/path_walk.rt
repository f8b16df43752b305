//! The walk of an image along one path, to a key and to one of its values.
//!
//! Suhanov, Windows registry file format specification, sections "Key node", "Subkeys list" and "Key values list".

ghost use Rattle.std.specs.Prelude.{◌≡◌, ◌∷◌, ◌*◌, ◌≤◌, ℕ, List, [], true, length, Ok, Some, IfOk, IfErr, IfSome};
ghost use Rattle.reg_names.specs.Names.{is_path, path_of};
ghost use Rattle.reg_arena.specs.Cells.{cell_at};
ghost use Rattle.reg_heap.specs.Members.{same_name as is_same};
ghost use Rattle.reg_records.specs.OffsetRows.{offsets_at};
ghost use Rattle.reg_tree_image.specs.declared.table.CellState.{CellState};
ghost use Rattle.reg_tree_image.specs.PathWalk.{key_among as among, key_in_lists as in_lists, subkey_from as subkey_step};
ghost use Rattle.reg_tree_image.specs.PathWalk.{value_among as value_step, value_from as values_step, value_reached, value_of_path};
ghost use Rattle.reg_tree_image.specs.WalkSteps.{Seen};
ghost use Rattle.reg_tree_image.specs.Images.{nothing};
ghost use Rattle.reg_tree_image.specs.Internal.CellStates.{IsTable, state_in, unnamed};
ghost use Rattle.reg_tree_image.specs.Internal.ListParts.{entries_in};
ghost use Rattle.reg_tree_image.specs.Internal.NamedRecords.{key_of, value_of};
ghost use Rattle.reg_tree_image.specs.Internal.ReaderOutcomes.{Follows, Outcome, Fails};
ghost use Rattle.reg_tree_image.specs.Internal.ReachedKeys.{reached_of, reached_in, value_found, found_in, with_data, Arrives};

use crate::LoadFault;
use crate::data::data_from;
use crate::keys::{NamedKey, named_key};
use crate::list_part::ListPart;
use crate::lists::{leaf_from, list_from};
use crate::rows::row_from;
use crate::table::CellTable;
use crate::values::{NamedValue, ReadValue, named_value};
use reg_heap::limits::VALUES_LIMIT;
use reg_names::{first_name, same_name};
use reg_records::{ListForm, offset_at};
use std::alloc::Global;

/// A key that was come to.
#[derive(Drop)]
pub struct ReachedKey<'a> {
    /// The offset of its key node.
    pub offset: u32,
    /// Its record and its name.
    pub named: NamedKey<'a>,
}

/// What stands at a path, under a value's name.
#[derive(Drop)]
pub enum FoundOnPath<'a> {
    /// The path leads to no key.
    NoKey,
    /// The key there has no value of the name.
    NoValue,
    /// That value.
    Value(ReadValue<'a>),
}

/// Whether a key has a name, after folding.
fn is_key_named(named: &NamedKey<'_>, name: &[u8]) -> bool
    ensures { result ≡ is_same (key_of named.now).1 name.now }
{
    same_name(named.name.as_slice(), name)
}

/// The first of the keys of a list whose name folds as this one.
fn key_among<'a>(
    alloc: Global,
    bins: &'a [u8],
    table: &mut CellTable,
    list: ListPart<'a>,
    name: &[u8],
) -> Result<Option<ReachedKey<'a>>, LoadFault>
    ensures follows { (path : List ℕ) → Follows (cell_at bins.now) path (reached_in path)
        (among (cell_at bins.now) path name.now (entries_in list.entry)) table.old.states.items table.new.states.items result }
    ensures named { IfOk result (λ found. IfSome found (λ key. state_in table.new.states.items key.offset ≡ CellState.Named)) }
    ensures no_more { unnamed table.new.states.items ≤ unnamed table.old.states.items }
{
    let mut rest = list;
    while let Some(offset) = rest.take() {
        let named = named_key(alloc, bins, table, offset)?;
        if is_key_named(&named, name) {
            return Ok(Some(ReachedKey { offset, named }));
        }
    }
    Ok(None)
}

/// The first key of that name in the lists of an index root, each in turn.
fn key_in_lists<'a>(
    alloc: Global,
    bins: &'a [u8],
    table: &mut CellTable,
    root_list: ListPart<'a>,
    name: &[u8],
) -> Result<Option<ReachedKey<'a>>, LoadFault>
    ensures follows { (path : List ℕ) → Follows (cell_at bins.now) path (reached_in path)
        (in_lists (cell_at bins.now) path name.now (entries_in root_list.entry)) table.old.states.items table.new.states.items result }
    ensures named { IfOk result (λ found. IfSome found (λ key. state_in table.new.states.items key.offset ≡ CellState.Named)) }
{
    let mut lists = root_list;
    while let Some(offset) = lists.take() {
        let list = leaf_from(bins, table, offset)?;
        if let Some(found) = key_among(alloc, bins, table, list, name)? {
            return Ok(Some(found));
        }
    }
    Ok(None)
}

/// The subkey of a name, from a key's number of subkeys, which is only tested for 0, and the offset of their list.
fn subkey_from<'a>(
    alloc: Global,
    bins: &'a [u8],
    table: &mut CellTable,
    count: u32,
    offset: u32,
    name: &[u8],
) -> Result<Option<ReachedKey<'a>>, LoadFault>
    ensures follows { (path : List ℕ) → Follows (cell_at bins.now) path (reached_in path)
        (subkey_step (cell_at bins.now) path name.now count offset) table.old.states.items table.new.states.items result }
    ensures named { IfOk result (λ found. IfSome found (λ key. state_in table.new.states.items key.offset ≡ CellState.Named)) }
{
    if count == 0 {
        return Ok(None);
    }
    let list = list_from(bins, table, offset)?;
    if list.form == ListForm::IndexRoot {
        return key_in_lists(alloc, bins, table, list, name);
    }
    key_among(alloc, bins, table, list, name)
}

/// Enters a key that was come to, whose offset is then on the present path, and looks for its subkey of a name.
fn key_below<'a>(
    alloc: Global,
    bins: &'a [u8],
    table: &mut CellTable,
    key: &ReachedKey<'a>,
    name: &[u8],
) -> Result<Option<ReachedKey<'a>>, LoadFault>
    requires { state_in table.old.states.items key.now.offset ≡ CellState.Named }
    ensures follows { (above : List ℕ) → (seen : Seen) → IsTable (cell_at bins.now) seen.found above table.old.states.items →
        Outcome (cell_at bins.now) (key.now.offset ∷ above) (reached_in (key.now.offset ∷ above))
        (subkey_step (cell_at bins.now) (key.now.offset ∷ above) name.now key.now.named.node.fields.subkeys key.now.named.node.fields.subkeys_list)
        table.new.states.items seen result }
    ensures named { IfOk result (λ found. IfSome found (λ key. state_in table.new.states.items key.offset ≡ CellState.Named)) }
{
    table.enter(key.offset);
    let fields = key.named.node.fields;
    subkey_from(
        alloc,
        bins,
        table,
        fields.subkeys,
        fields.subkeys_list,
        name,
    )
}

/// The key at the end of a path from the root on, if it is there; the keys above it are then on the present path. Of the cells none was
/// named yet.
pub fn key_of_path<'a>(
    alloc: Global,
    bins: &'a [u8],
    table: &mut CellTable,
    root: u32,
    path: &[u8],
) -> Result<Option<ReachedKey<'a>>, LoadFault>
    requires table { IsTable (cell_at bins.now) [] [] table.old.states.items }
    requires path { is_path path.now ≡ true }
    ensures arrives { Arrives (cell_at bins.now) (path_of path.now) root table.new.states.items result }
    ensures named { IfOk result (λ found. IfSome found (λ key. state_in table.new.states.items key.offset ≡ CellState.Named)) }
{
    let named = named_key(alloc, bins, table, root)?;
    let mut key = ReachedKey {
        offset: root,
        named,
    };
    let mut rest = path;
    while let Some((name, behind)) = first_name(rest) {
        let Some(below) = key_below(alloc, bins, table, &key, name)? else {
            return Ok(None);
        };
        key = below;
        rest = behind;
    }
    Ok(Some(key))
}

/// Whether a value has a name, after folding.
fn is_value_named(named: &NamedValue<'_>, name: &[u8]) -> bool
    ensures { result ≡ is_same (value_of named.now).1 name.now }
{
    same_name(named.name.as_slice(), name)
}

/// A value that was found, whose data is read.
fn read_found<'a>(
    alloc: Global,
    bins: &'a [u8],
    table: &mut CellTable,
    minor: u32,
    named: NamedValue<'a>,
) -> Result<Option<ReadValue<'a>>, LoadFault>
    ensures { (path : List ℕ) → Follows (cell_at bins.now) path value_found (with_data (cell_at bins.now) minor path named.entry)
        table.old.states.items table.new.states.items result }
{
    let NamedValue { value, name } = named;
    let fields = value.fields;
    let bytes = data_from(alloc, bins, table, minor, fields.size, fields.offset)?;
    Ok(Some(ReadValue {
        name,
        kind: fields.kind,
        bytes,
    }))
}

/// The first of the values at the first offsets of a row whose name folds as this one. The data of the others isn't read.
fn value_among<'a>(
    alloc: Global,
    bins: &'a [u8],
    table: &mut CellTable,
    minor: u32,
    row: &[u8],
    count: u32,
    name: &[u8],
) -> Result<Option<ReadValue<'a>>, LoadFault>
    requires { 4 * count ≤ length row.now }
    ensures { (path : List ℕ) → Follows (cell_at bins.now) path value_found
        (value_step (cell_at bins.now) minor path name.now (offsets_at count 0 row.now)) table.old.states.items table.new.states.items result }
{
    for index in 0..count {
        let offset = offset_at(row, index);
        let named = named_value(alloc, bins, table, offset)?;
        if is_value_named(&named, name) {
            return read_found(alloc, bins, table, minor, named);
        }
    }
    Ok(None)
}

/// A key's value of a name, from its number of values and the offset of their list. `Limit` is for more than 16,384, before the list is
/// named.
fn value_from<'a>(
    alloc: Global,
    bins: &'a [u8],
    table: &mut CellTable,
    minor: u32,
    count: u32,
    offset: u32,
    name: &[u8],
) -> Result<Option<ReadValue<'a>>, LoadFault>
    ensures { (path : List ℕ) → Follows (cell_at bins.now) path value_found
        (values_step (cell_at bins.now) minor path name.now count offset) table.old.states.items table.new.states.items result }
{
    if count == 0 {
        return Ok(None);
    }
    if count > VALUES_LIMIT {
        return Err(LoadFault::Limit);
    }
    let row = row_from(bins, table, offset, count)?;
    value_among(alloc, bins, table, minor, row, count, name)
}

/// What stands at the path of a key.
fn told<'a>(found: Option<ReadValue<'a>>) -> FoundOnPath<'a>
    ensures { found_in result ≡ Some (value_found found.entry) }
{
    match found {
        Some(value) => FoundOnPath::Value(value),
        None => FoundOnPath::NoValue,
    }
}

/// Enters a key that was come to, and looks for its value of a name.
fn value_below<'a>(
    alloc: Global,
    bins: &'a [u8],
    table: &mut CellTable,
    minor: u32,
    key: &ReachedKey<'_>,
    name: &[u8],
) -> Result<FoundOnPath<'a>, LoadFault>
    requires { state_in table.old.states.items key.now.offset ≡ CellState.Named }
    ensures { (above : List ℕ) → (seen : Seen) → IsTable (cell_at bins.now) seen.found above table.old.states.items →
        Outcome (cell_at bins.now) (key.now.offset ∷ above) found_in
        (value_reached (cell_at bins.now) minor name.now (Some (reached_of above key.now)))
        table.new.states.items seen result }
{
    table.enter(key.offset);
    let fields = key.named.node.fields;
    let found = value_from(
        alloc,
        bins,
        table,
        minor,
        fields.values,
        fields.values_list,
        name,
    )?;
    Ok(told(found))
}

/// The value of a name of the key at a path. Of the cells none was named yet.
///
/// Its faults are those of the walk to it: of the records beside only those are read that are passed in looking for a name. `Memory` at
/// any place.
pub fn value_on_path<'a>(
    alloc: Global,
    bins: &'a [u8],
    minor: u32,
    table: &mut CellTable,
    root: u32,
    path: &[u8],
    name: &[u8],
) -> Result<FoundOnPath<'a>, LoadFault>
    requires table { IsTable (cell_at bins.now) [] [] table.old.states.items }
    requires path { is_path path.now ≡ true }
    ensures ok { IfOk result (λ found. (after : Seen)
        × (value_of_path (cell_at bins.now) minor (path_of path.now) root name.now nothing ≡ Ok (found_in found, after))) }
    ensures err { IfErr result (λ fault. Fails fault (value_of_path (cell_at bins.now) minor (path_of path.now) root name.now) nothing) }
{
    let Some(key) = key_of_path(alloc, bins, table, root, path)? else {
        return Ok(FoundOnPath::NoKey);
    };
    value_below(alloc, bins, table, minor, &key, name)
}
