//! A key's subkeys and values, many by one call, by the key's path from the root and without a handle.
//!
//! Win32 registry reference, `RegEnumKeyEx`, `RegEnumValue`.
ghost use Rattle.std.specs.Prelude.{◌≡◌, ◌+◌, ◌++◌, ◌≤◌, ◌<◌, length, take, drop, map, slice_get, Some, IfOk, IfErr};
ghost use Rattle.reg_heap.specs.Paths.{Path, Member, Tree as KeyTree, children_of};
ghost use Rattle.reg_heap.specs.Edits.{values_at};
ghost use Rattle.reg_values.specs.ValueLists.{Tells};
ghost use Rattle.reg_tree.specs.TreeKeys.{IsAt, IsThere};
ghost use Rattle.zugmeled.specs.Lists.{TellsItems, TellsKeyAt, no_row as nothing_told, AreTold, AreMost, AreListed, AreListedIn, IsFoundAt, IsKeyTold, IsNotFound, key_name, key_row, value_bytes, value_row as value_row_of, subkeys_from, values_from};

use crate::hive::ZugHive;
use reg_model::statuses::{
    FILE_NOT_FOUND, INVALID_HANDLE, INVALID_PARAMETER, MORE_DATA, NO_MORE_ITEMS,
};
use reg_names::check_path;
use reg_tree::{Node, Tree, Value};
use std::alloc::Global;

/// A subkey: when it was last written, in units of 100 ns since 1601, how many bytes its name has, how many subkeys and values it has, and
/// its marks.
#[repr(C)]
#[derive(Clone, Copy)]
pub struct ZugSubkey {
    pub time: u64,
    pub name_size: u32,
    pub subkeys: u32,
    pub values: u32,
    pub marks: u32,
}

/// A value: how many bytes its name has, its type, and how many bytes its data has.
#[repr(C)]
#[derive(Clone, Copy)]
pub struct ZugValue {
    pub name_size: u32,
    pub kind: u32,
    pub size: u32,
}

/// A status, with how many items were told.
#[derive(Clone, Copy)]
pub(crate) struct Counted {
    pub(crate) status: u32,
    pub(crate) count: u32,
}

/// The key at the end of a path from the root, or the status of a path that leads to none.
pub(crate) fn key_at(tree: &Tree, path: &[u8]) -> Result<Node, u32>
    ensures found { IfOk result (λ node. IsFoundAt tree.now path.now node) }
    ensures absent { IfErr result (λ status. IsNotFound tree.now.tree path.now status) }
{
    if check_path(path).is_err() {
        return Err(INVALID_PARAMETER);
    }
    match tree.resolve(tree.root(), path) {
        Some(node) => Ok(node),
        None => Err(FILE_NOT_FOUND),
    }
}

/// Copies bytes behind the first so many of a room, which has place for them.
pub(crate) fn fill_at(room: &mut [u8], at: usize, bytes: &[u8])
    requires { at + length bytes.now ≤ length room.old }
    ensures { room.new ≡ take at room.old ++ bytes.now ++ drop (at + length bytes.now) room.old }
{
    room[at..at + bytes.len()].copy_from_slice(bytes);
}

/// What is told of a key.
pub(crate) fn subkey_row(tree: &Tree, node: Node) -> ZugSubkey
    requires { IsThere tree.now node }
    ensures { (p : Path) → IsAt tree.now p node → result ≡ key_row tree.now.tree p }
{
    ZugSubkey {
        time: tree.time(node),
        name_size: tree.name(node).len() as u32,
        subkeys: tree.subkeys(node),
        values: tree.values(node),
        marks: u32::from(tree.marks(node)),
    }
}

/// Tells a key's subkeys from an index on, as many as have place. Returns how many.
fn tell_subkeys(tree: &Tree, node: Node, index: u32, rows: &mut [ZugSubkey], room: &mut [u8]) -> u32
    requires { IsThere tree.now node }
    ensures told { (p : Path) → IsAt tree.now p node →
        AreTold (key_row tree.now.tree) (key_name tree.now.tree) (subkeys_from index tree.now.tree p) result rows.old rows.new room.old room.new }
    ensures most { (p : Path) → IsAt tree.now p node →
        AreMost (key_name tree.now.tree) (subkeys_from index tree.now.tree p) result rows.old room.old }
{
    let left = tree.subkeys(node).saturating_sub(index);
    let mut next = tree.subkey_from(node, index);
    let mut count = 0;
    let mut used = 0;
    while count < left && (count as usize) < rows.len() {
        let Some(subkey) = next else { unreachable!() };
        let name = tree.name(subkey.node);
        if name.len() > room.len() - used {
            return count;
        }
        fill_at(room, used, name);
        rows[count as usize] = subkey_row(tree, subkey.node);
        used += name.len();
        count += 1;
        next = tree.next_subkey(node, subkey);
    }
    count
}

/// Tells the subkey at an index without its name, where there is a row for it.
fn tell_first(tree: &Tree, node: Node, index: u32, rows: &mut [ZugSubkey])
    requires node { IsThere tree.now node }
    requires index { (p : Path) → IsAt tree.now p node → index < length (children_of tree.now.tree p) }
    ensures { (p : Path) → IsAt tree.now p node →
        rows.new ≡ take (length rows.old) (map (key_row tree.now.tree) (take 1 (subkeys_from index tree.now.tree p))) ++ drop 1 rows.old }
{
    let Some(child) = tree.subkey(node, index) else {
        unreachable!()
    };
    if rows.len() > 0 {
        rows[0] = subkey_row(tree, child);
    }
}

/// Tells the subkeys of a key.
fn subkeys_of(
    tree: &Tree,
    node: Node,
    index: u32,
    rows: &mut [ZugSubkey],
    room: &mut [u8],
) -> Counted
    requires { IsThere tree.now node }
    ensures { (p : Path) → IsAt tree.now p node →
        AreListed (key_row tree.now.tree) (key_name tree.now.tree) (subkeys_from index tree.now.tree p) result.status result.count
        rows.old rows.new room.old room.new }
{
    if index >= tree.subkeys(node) {
        return Counted {
            status: NO_MORE_ITEMS,
            count: 0,
        };
    }
    let count = tell_subkeys(tree, node, index, rows, room);
    if count == 0 {
        tell_first(tree, node, index, rows);
        return Counted {
            status: MORE_DATA,
            count: 0,
        };
    }
    Counted { status: 0, count }
}

/// Tells the subkeys of the key at the end of a path.
fn subkeys_of_path(
    tree: &Tree,
    path: &[u8],
    index: u32,
    rows: &mut [ZugSubkey],
    room: &mut [u8],
) -> Counted
    ensures { AreListedIn key_row key_name (subkeys_from index) tree.now.tree path.now result.status result.count rows.old rows.new room.old room.new }
{
    match key_at(tree, path) {
        Ok(node) => subkeys_of(tree, node, index, rows, room),
        Err(status) => Counted { status, count: 0 },
    }
}

/// Nothing of a key.
fn no_row() -> ZugSubkey
    ensures { result ≡ nothing_told }
{
    ZugSubkey {
        time: 0,
        name_size: 0,
        subkeys: 0,
        values: 0,
        marks: 0,
    }
}

/// A status, with what is told of a key.
#[derive(Clone, Copy)]
struct Looked {
    status: u32,
    row: ZugSubkey,
}

/// Tells the key at the end of a path, with its name at the front of a room.
fn key_of_path(tree: &Tree, path: &[u8], room: &mut [u8]) -> Looked
    ensures { IsKeyTold tree.now.tree path.now result.status result.row room.old room.new }
{
    let node = match key_at(tree, path) {
        Ok(node) => node,
        Err(status) => {
            return Looked {
                status,
                row: no_row(),
            };
        }
    };
    let row = subkey_row(tree, node);
    let name = tree.name(node);
    if room.len() < name.len() {
        return Looked {
            status: MORE_DATA,
            row,
        };
    }
    fill_at(room, 0, name);
    Looked { status: 0, row }
}

/// What is told of a value.
pub(crate) fn value_row(value: Value<'_>) -> ZugValue
    requires { length value.name.now < 4294967296 }
    ensures { (m : Member) → Tells m value.entry.name.now value.entry.kind value.entry.size → (t : KeyTree) → result ≡ value_row_of t m }
{
    ZugValue {
        name_size: value.name.len() as u32,
        kind: value.kind,
        size: value.size,
    }
}

/// Copies a value's data behind the first bytes of a room, which has place for it.
fn fill_value_at(tree: &Tree, node: Node, index: u32, room: &mut [u8], at: usize)
    requires value { (p : Path) × IsAt tree.now p node × (index < length (values_at tree.now.tree p)) }
    requires at { at ≤ length room.old }
    requires room { (p : Path) → IsAt tree.now p node → (m : Member) → slice_get (values_at tree.now.tree p) index ≡ Some m →
        at + length m.bytes ≤ length room.old }
    ensures { (p : Path) → IsAt tree.now p node → (m : Member) × (slice_get (values_at tree.now.tree p) index ≡ Some m)
        × (room.new ≡ take at room.old ++ (m.bytes ++ drop (length m.bytes) (drop at room.old))) }
{
    tree.fill_value(node, index, &mut room[at..]);
}

/// Copies a value's name behind the first bytes of a room, and its data behind that. The room has place for both.
pub(crate) fn put_value(
    tree: &Tree,
    node: Node,
    index: u32,
    value: Value<'_>,
    room: &mut [u8],
    at: usize,
)
    requires there { (p : Path) × IsAt tree.now p node × (index < length (values_at tree.now.tree p)) }
    requires told { (p : Path) → IsAt tree.now p node → (m : Member) → slice_get (values_at tree.now.tree p) index ≡ Some m →
        Tells m value.name.now value.kind value.size }
    requires room { at + length value.name.now + value.size ≤ length room.old }
    ensures { (p : Path) → IsAt tree.now p node → (m : Member) × (slice_get (values_at tree.now.tree p) index ≡ Some m)
        × (room.new ≡ take at room.old ++ (m.name ++ m.bytes) ++ drop (at + length (m.name ++ m.bytes)) room.old) }
{
    fill_at(room, at, value.name);
    fill_value_at(tree, node, index, room, at + value.name.len());
}

/// Tells a key's values from an index on, as many as have place. Returns how many.
fn tell_values(tree: &Tree, node: Node, index: u32, rows: &mut [ZugValue], room: &mut [u8]) -> u32
    requires { IsThere tree.now node }
    ensures told { (p : Path) → IsAt tree.now p node →
        AreTold (value_row_of tree.now.tree) (value_bytes tree.now.tree) (values_from index tree.now.tree p) result rows.old rows.new room.old room.new }
    ensures most { (p : Path) → IsAt tree.now p node → AreMost (value_bytes tree.now.tree) (values_from index tree.now.tree p) result rows.old room.old }
{
    let left = tree.values(node).saturating_sub(index);
    let mut count = 0;
    let mut used = 0;
    while count < left && (count as usize) < rows.len() {
        let Some(value) = tree.value(node, index + count) else {
            unreachable!()
        };
        let size = value.name.len() + value.size as usize;
        if size > room.len() - used {
            return count;
        }
        put_value(tree, node, index + count, value, room, used);
        rows[count as usize] = value_row(value);
        used += size;
        count += 1;
    }
    count
}

/// Tells the value at an index without its name and data, where there is a row for it.
fn tell_first_value(tree: &Tree, node: Node, index: u32, rows: &mut [ZugValue])
    requires node { IsThere tree.now node }
    requires index { (p : Path) → IsAt tree.now p node → index < length (values_at tree.now.tree p) }
    ensures { (p : Path) → IsAt tree.now p node →
        rows.new ≡ take (length rows.old) (map (value_row_of tree.now.tree) (take 1 (values_from index tree.now.tree p))) ++ drop 1 rows.old }
{
    let Some(value) = tree.value(node, index) else {
        unreachable!()
    };
    if rows.len() > 0 {
        rows[0] = value_row(value);
    }
}

/// Tells the values of a key.
fn values_of(tree: &Tree, node: Node, index: u32, rows: &mut [ZugValue], room: &mut [u8]) -> Counted
    requires { IsThere tree.now node }
    ensures { (p : Path) → IsAt tree.now p node →
        AreListed (value_row_of tree.now.tree) (value_bytes tree.now.tree) (values_from index tree.now.tree p) result.status result.count rows.old rows.new room.old room.new }
{
    if index >= tree.values(node) {
        return Counted {
            status: NO_MORE_ITEMS,
            count: 0,
        };
    }
    let count = tell_values(tree, node, index, rows, room);
    if count == 0 {
        tell_first_value(tree, node, index, rows);
        return Counted {
            status: MORE_DATA,
            count: 0,
        };
    }
    Counted { status: 0, count }
}

/// Tells the values of the key at the end of a path.
fn values_of_path(
    tree: &Tree,
    path: &[u8],
    index: u32,
    rows: &mut [ZugValue],
    room: &mut [u8],
) -> Counted
    ensures { AreListedIn value_row_of value_bytes (values_from index) tree.now.tree path.now result.status result.count rows.old rows.new room.old room.new }
{
    match key_at(tree, path) {
        Ok(node) => values_of(tree, node, index, rows, room),
        Err(status) => Counted { status, count: 0 },
    }
}

/// Tells the key at the end of a path from the root, with its name.
#[unsafe(no_mangle)]
pub extern "C" fn zug_key_at(
    alloc: Global,
    hive: &mut ZugHive,
    path: &[u8],
    key: &mut ZugSubkey,
    name_room: &mut [u8],
) -> u32
    ensures same { hive.new.held.value ≡ hive.old.held.value }
    ensures told { TellsKeyAt hive.old.held.value path.now result key.new name_room.old name_room.new }
{
    let Some(held) = hive.take(alloc) else {
        *key = no_row();
        return INVALID_HANDLE;
    };
    let told = key_of_path(held.hive.tree(), path, name_room);
    hive.put(held);
    *key = told.row;
    told.status
}

/// Tells subkeys of the key at the end of a path from the root, from an index on, as many as have place.
#[unsafe(no_mangle)]
pub extern "C" fn zug_subkeys_at(
    alloc: Global,
    hive: &mut ZugHive,
    path: &[u8],
    index: u32,
    subkeys: &mut [ZugSubkey],
    name_room: &mut [u8],
    count: &mut u32,
) -> u32
    ensures same { hive.new.held.value ≡ hive.old.held.value }
    ensures told { TellsItems key_row key_name (subkeys_from index) hive.old.held.value path.now result count.new
        subkeys.old subkeys.new name_room.old name_room.new }
{
    let Some(held) = hive.take(alloc) else {
        *count = 0;
        return INVALID_HANDLE;
    };
    let told = subkeys_of_path(held.hive.tree(), path, index, subkeys, name_room);
    hive.put(held);
    *count = told.count;
    told.status
}

/// Tells values of the key at the end of a path from the root, from an index on, as many as have place.
#[unsafe(no_mangle)]
pub extern "C" fn zug_values_at(
    alloc: Global,
    hive: &mut ZugHive,
    path: &[u8],
    index: u32,
    values: &mut [ZugValue],
    room: &mut [u8],
    count: &mut u32,
) -> u32
    ensures same { hive.new.held.value ≡ hive.old.held.value }
    ensures told { TellsItems value_row_of value_bytes (values_from index) hive.old.held.value path.now result count.new
        values.old values.new room.old room.new }
{
    let Some(held) = hive.take(alloc) else {
        *count = 0;
        return INVALID_HANDLE;
    };
    let told = values_of_path(held.hive.tree(), path, index, values, room);
    hive.put(held);
    *count = told.count;
    told.status
}
