//! A key of an image as it is listed, found by its path without loading the image's tree.
//!
//! Suhanov, Windows registry file format specification, sections "Subkeys list" and "Format of primary files".

ghost use Rattle.std.specs.Prelude.{◌≡◌, ◌≤◌, ◌%◌, ◌∷◌, ◌++◌, ℕ, List, [], true, map, length, Ok, Some, IfOk, IfErr, IfSome, OnOk, MatchResult};
ghost use Rattle.reg_names.specs.Names.{is_path, path_of};
ghost use Rattle.reg_arena.specs.Cells.{cell_at};
ghost use Rattle.reg_heap.specs.declared.limits.TheConstants.{BINS_LIMIT, DATA_LIMIT};
ghost use Rattle.reg_text.specs.Failures.{Stays};
ghost use Rattle.reg_tree_image.specs.declared.LoadFault.{LoadFault};
ghost use Rattle.reg_tree_image.specs.declared.table.CellState.{CellState};
ghost use Rattle.reg_tree_image.specs.WalkSteps.{Seen};
ghost use Rattle.reg_tree_image.specs.Images.{nothing};
ghost use Rattle.reg_tree_image.specs.Loads.{IsBlamed, SparesOwn};
ghost use Rattle.reg_tree_image.specs.KeyListing.{names_each, names_in_lists as in_lists, subkey_names as names_step, reached_read};
ghost use Rattle.reg_tree_image.specs.KeyListing.{key_on_path as on_path, listed_member, AreInOrder, IsListed};
ghost use Rattle.reg_tree_image.specs.PathLoads.{Misses, bins_path, key_walk, ListsThere};
ghost use Rattle.reg_tree_image.specs.KeysAtPaths.{listed_in, names_in, listing_there};
ghost use Rattle.reg_tree_image.specs.Internal.CellStates.{IsTable, state_in, unnamed};
ghost use Rattle.reg_tree_image.specs.Internal.FitKeys.{AreFit};
ghost use Rattle.reg_tree_image.specs.Internal.KeysRead.{read_in, reading_in, HasListing};
ghost use Rattle.reg_tree_image.specs.Internal.ListParts.{entries_in};
ghost use Rattle.reg_tree_image.specs.Internal.NamedRecords.{member_in, members_in};
ghost use Rattle.reg_tree_image.specs.Internal.ReachedKeys.{reached_of};
ghost use Rattle.reg_tree_image.specs.Internal.ReaderOutcomes.{Follows, Outcome, Fails};

use crate::LoadFault;
use crate::block::{BaseBlock, read_block};
use crate::input::{fill, read_bytes};
use crate::keys::named_key;
use crate::list_part::ListPart;
use crate::lists::{leaf_from, list_from};
use crate::path_loading::copy_of;
use crate::path_walk::{ReachedKey, key_of_path};
use crate::scan::scan;
use crate::table::CellTable;
use crate::value_lists::values_from;
use crate::values::ReadValue;
use reg_names::name_order;
use reg_records::ListForm;
use reg_text::Source;
use std::alloc::Global;

/// A value as a line of a listing tells it.
#[derive(Drop)]
pub struct ListedValue {
    /// Its name, as it was given.
    pub name: Vec<u8>,
    /// The type of its data.
    pub kind: u32,
    /// How many bytes its data has.
    pub size: u32,
}

/// What is listed of the key that an image has at a path.
#[derive(Drop)]
pub enum KeyAtPath {
    /// The path leads to no key.
    NoKey,
    /// That key.
    Key {
        /// Its values, in their order.
        values: Vec<ListedValue>,
        /// The names of the keys right below it, in the order of their folded forms.
        subkeys: Vec<Vec<u8>>,
    },
}

/// A key that was come to, read.
#[derive(Drop)]
pub struct ReadKey<'a> {
    /// Its values, with their data.
    pub values: Vec<ReadValue<'a>>,
    /// The names of the keys right below it, in the order of their lists.
    pub subkeys: Vec<Vec<u8>>,
}

/// Puts a copy of a name behind others.
fn push_name(alloc: Global, names: &mut Vec<Vec<u8>>, name: &[u8]) -> Result<(), LoadFault>
    ensures ok { OnOk result (names_in names.new.items ≡ names_in names.old.items ++ name.now ∷ []) }
    ensures err { IfErr result (λ fault. fault ≡ LoadFault.Memory) }
{
    let copy = copy_of(alloc, name)?;
    if names.push(copy).is_err() {
        return Err(LoadFault::Memory);
    }
    Ok(())
}

/// Names the keys of a list, and puts their names behind others.
fn append_names(
    alloc: Global,
    bins: &[u8],
    table: &mut CellTable,
    list: ListPart<'_>,
    names: &mut Vec<Vec<u8>>,
) -> Result<(), LoadFault>
    ensures follows { (path : List ℕ) → Follows (cell_at bins.now) path (λ _. names_in names.new.items)
        (names_each (cell_at bins.now) path (names_in names.old.items) (entries_in list.entry)) table.old.states.items table.new.states.items result }
    ensures no_more { unnamed table.new.states.items ≤ unnamed table.old.states.items }
{
    let mut rest = list;
    while let Some(offset) = rest.take() {
        let named = named_key(alloc, bins, table, offset)?;
        push_name(alloc, names, named.name.as_slice())?;
    }
    Ok(())
}

/// Names the lists of an index root and their keys, each in turn, and puts the keys' names behind others.
fn append_in_lists(
    alloc: Global,
    bins: &[u8],
    table: &mut CellTable,
    root_list: ListPart<'_>,
    names: &mut Vec<Vec<u8>>,
) -> Result<(), LoadFault>
    ensures { (path : List ℕ) → Follows (cell_at bins.now) path (λ _. names_in names.new.items)
        (in_lists (cell_at bins.now) path (names_in names.old.items) (entries_in root_list.entry)) table.old.states.items table.new.states.items result }
{
    let mut lists = root_list;
    while let Some(offset) = lists.take() {
        let list = leaf_from(bins, table, offset)?;
        append_names(alloc, bins, table, list, names)?;
    }
    Ok(())
}

/// Names a key's subkeys, from their number, which is only tested for 0, and the offset of their list, and puts their names behind
/// others.
fn append_subkeys(
    alloc: Global,
    bins: &[u8],
    table: &mut CellTable,
    count: u32,
    offset: u32,
    names: &mut Vec<Vec<u8>>,
) -> Result<(), LoadFault>
    ensures { (path : List ℕ) → Follows (cell_at bins.now) path (λ _. names_in names.new.items)
        (names_step (cell_at bins.now) path (names_in names.old.items) count offset) table.old.states.items table.new.states.items result }
{
    if count == 0 {
        return Ok(());
    }
    let list = list_from(bins, table, offset)?;
    if list.form == ListForm::IndexRoot {
        return append_in_lists(alloc, bins, table, list, names);
    }
    append_names(alloc, bins, table, list, names)
}

/// The names of a key's subkeys, in the order of their lists.
fn subkey_names(
    alloc: Global,
    bins: &[u8],
    table: &mut CellTable,
    count: u32,
    offset: u32,
) -> Result<Vec<Vec<u8>>, LoadFault>
    ensures { (path : List ℕ) → Follows (cell_at bins.now) path (λ names. names_in names.items)
        (names_step (cell_at bins.now) path [] count offset) table.old.states.items table.new.states.items result }
{
    let mut names = Vec::new(alloc);
    append_subkeys(alloc, bins, table, count, offset, &mut names)?;
    Ok(names)
}

/// Enters a key that was come to, and reads its values and the names of the keys right below it.
fn listed_below<'a>(
    alloc: Global,
    bins: &'a [u8],
    table: &mut CellTable,
    minor: u32,
    key: &ReachedKey<'_>,
) -> Result<Option<ReadKey<'a>>, LoadFault>
    requires { state_in table.old.states.items key.now.offset ≡ CellState.Named }
    ensures reads { (above : List ℕ) → (seen : Seen) → IsTable (cell_at bins.now) seen.found above table.old.states.items →
        Outcome (cell_at bins.now) (key.now.offset ∷ above) reading_in (reached_read (cell_at bins.now) minor (Some (reached_of above key.now)))
        table.new.states.items seen result }
    ensures fit { IfOk result (λ found. IfSome found (λ key. AreFit (members_in key.values.items))) }
{
    table.enter(key.offset);
    let fields = key.named.node.fields;
    let mut failed = 0;
    let values = values_from(
        alloc,
        bins,
        table,
        minor,
        fields.values,
        fields.values_list,
        &mut failed,
    )?;
    let subkeys = subkey_names(alloc, bins, table, fields.subkeys, fields.subkeys_list)?;
    Ok(Some(ReadKey { values, subkeys }))
}

/// The key at a path, read. Of the cells none was named yet.
fn key_on_path<'a>(
    alloc: Global,
    bins: &'a [u8],
    minor: u32,
    table: &mut CellTable,
    root: u32,
    path: &[u8],
) -> Result<Option<ReadKey<'a>>, LoadFault>
    requires table { IsTable (cell_at bins.now) [] [] table.old.states.items }
    requires path { is_path path.now ≡ true }
    ensures ok { IfOk result (λ found. (after : Seen)
        × (on_path (cell_at bins.now) minor (path_of path.now) root nothing ≡ Ok (reading_in found, after))) }
    ensures err { IfErr result (λ fault. Fails fault (on_path (cell_at bins.now) minor (path_of path.now) root) nothing) }
    ensures fit { IfOk result (λ found. IfSome found (λ key. AreFit (members_in key.values.items))) }
{
    let Some(key) = key_of_path(alloc, bins, table, root, path)? else {
        return Ok(None);
    };
    listed_below(alloc, bins, table, minor, &key)
}

/// Puts names into the order of their folded forms.
fn put_in_order(names: &mut Vec<Vec<u8>>)
    ensures { AreInOrder (names_in names.old.items) (names_in names.new.items) }
{
    names.sort_unstable_by(|one, other| name_order(one.as_slice(), other.as_slice()));
}

/// Tells a value behind others.
fn push_value(
    alloc: Global,
    listed: &mut Vec<ListedValue>,
    value: &ReadValue<'_>,
) -> Result<(), LoadFault>
    requires { length (member_in value.now).bytes ≤ DATA_LIMIT }
    ensures ok { OnOk result (map listed_in listed.new.items ≡ map listed_in listed.old.items ++ listed_member (member_in value.now) ∷ []) }
    ensures err { IfErr result (λ fault. fault ≡ LoadFault.Memory) }
{
    let name = copy_of(alloc, value.name.as_slice())?;
    let size = value.bytes.as_slice().len() as u32;
    let one = ListedValue {
        name,
        kind: value.kind,
        size,
    };
    if listed.push(one).is_err() {
        return Err(LoadFault::Memory);
    }
    Ok(())
}

/// The values of a key, as they are listed.
fn listed_values(alloc: Global, values: &[ReadValue<'_>]) -> Result<Vec<ListedValue>, LoadFault>
    requires { AreFit (members_in values.now) }
    ensures ok { IfOk result (λ listed. map listed_in listed.items ≡ map listed_member (members_in values.now)) }
    ensures err { IfErr result (λ fault. fault ≡ LoadFault.Memory) }
{
    let mut listed = Vec::new(alloc);
    for value in values {
        push_value(alloc, &mut listed, value)?;
    }
    Ok(listed)
}

/// A key that was read, as it is listed; it needs the image no more.
fn listing(alloc: Global, key: ReadKey<'_>) -> Result<KeyAtPath, LoadFault>
    requires { AreFit (members_in key.values.items) }
    ensures ok { IfOk result (λ listing. IsListed (Some (read_in key.entry)) (listing_there listing)) }
    ensures err { IfErr result (λ fault. fault ≡ LoadFault.Memory) }
{
    let ReadKey {
        values,
        mut subkeys,
    } = key;
    put_in_order(&mut subkeys);
    let values = listed_values(alloc, values.as_slice())?;
    Ok(KeyAtPath::Key { values, subkeys })
}

/// What was found, as it is listed.
fn listed(alloc: Global, found: Option<ReadKey<'_>>) -> Result<KeyAtPath, LoadFault>
    requires { IfSome found (λ key. AreFit (members_in key.values.items)) }
    ensures ok { IfOk result (λ listing. IsListed (reading_in found.entry) (listing_there listing)) }
    ensures err { IfErr result (λ fault. fault ≡ LoadFault.Memory) }
{
    match found {
        None => Ok(KeyAtPath::NoKey),
        Some(key) => listing(alloc, key),
    }
}

/// What is listed of the key that foreign bins have at a path.
fn key_in_bins(
    alloc: Global,
    bins: &[u8],
    block: BaseBlock,
    path: &[u8],
) -> Result<KeyAtPath, LoadFault>
    requires pages { length bins.now % 4096 ≡ 0 }
    requires small { length bins.now ≤ BINS_LIMIT }
    requires path { is_path path.now ≡ true }
    ensures ok { IfOk result (λ key. HasListing bins.now block.minor block.root (path_of path.now) (listing_there key)) }
    ensures err { IfErr result (λ fault. Fails fault (bins_path (key_walk (path_of path.now)) bins.now block.minor block.root) nothing) }
{
    let mut table = scan(alloc, bins)?;
    let found = key_on_path(alloc, bins, block.minor, &mut table, block.root, path)?;
    listed(alloc, found)
}

/// What is listed of the key that an image has at a path: its values, and the names of the keys right below it in the order of their
/// folded forms. Reads its base block, then the bins behind it and no byte more, and tests the bins and the cells; of the records only
/// those are read that are passed in looking for the key, its values and their data, and the key nodes right below it. Names are
/// compared after folding.
///
/// The first test that fails is the fault, as for loading, but names of subkeys aren't compared, nor are subkeys and levels counted. Where
/// the image would load, it is what its tree has there, and only `Memory`
/// can be lacking: so whoever loaded the image gets the same answer from it. Of an image that doesn't load there may be an answer, since
/// not all is read.
pub fn key_at_path<R: Source>(
    alloc: Global,
    input: &mut R,
    path: &[u8],
) -> Result<KeyAtPath, LoadFault>
    requires path { is_path path.now ≡ true }
    ensures ok { IfOk result (λ key. ListsThere (R.remaining input.old) (R.remaining input.new) (path_of path.now) (listing_there key)) }
    ensures err { IfErr result (λ fault. Misses fault (key_walk (path_of path.now)) (R.remaining input.old) (R.remaining input.new)) }
    ensures failures { MatchResult result (λ _. Stays (R.failures input.old) (R.failures input.new))
        (λ fault. IsBlamed fault (R.failures input.old) (R.failures input.new)) }
    ensures own { IfErr result (λ fault. SparesOwn fault (R.remaining input.old)) }
{
    let mut head = [0u8; 4096];
    fill(input, &mut head)?;
    let block = read_block(&head)?;
    let bins = read_bytes(alloc, input, block.size as usize)?;
    key_in_bins(alloc, bins.as_slice(), block, path)
}
