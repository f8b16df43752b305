//! A key's subkeys, each with all its values, many by one call, by the key's path from the root and without a handle.
//!
//! Win32 registry reference, `RegEnumKeyEx`, `RegEnumValue`.
ghost use Rattle.std.specs.Prelude.{◌≡◌, ◌-◌, ◌≤◌, true, false, length, flat_map, MatchOption};
ghost use Rattle.reg_heap.specs.Paths.{Path};
ghost use Rattle.reg_heap.specs.Edits.{values_at};
ghost use Rattle.reg_tree.specs.TreeKeys.{IsAt, IsThere};
ghost use Rattle.zugmeled.specs.Lists.{subkeys_from, value_bytes};
ghost use Rattle.zugmeled.specs.WithValues.{AreToldWithValues, AreListedWithValues, AreListedWithValuesAt, TellsWithValues};
ghost use Rattle.zugmeled.specs.Internal.ValuesBehind.{FitIn, FitNotIn, IsToldBehind, IsToldWithValues, HasNoPlace};

use crate::hive::ZugHive;
use crate::lists::{
    Counted, ZugSubkey, ZugValue, fill_at, key_at, put_value, subkey_row, value_row,
};
use reg_model::statuses::{INVALID_HANDLE, MORE_DATA, NO_MORE_ITEMS};
use reg_tree::{Node, Tree};
use std::alloc::Global;

/// How many values were told, and how many bytes of the room are used.
#[derive(Clone, Copy)]
struct Told {
    count: usize,
    used: usize,
}

/// Whether all values of a key have place in so many rows and so many bytes.
fn have_place(tree: &Tree, node: Node, rows: usize, room: usize) -> bool
    requires { IsThere tree.now node }
    ensures place { (p : Path) → IsAt tree.now p node → result ≡ true → FitIn tree.now.tree (values_at tree.now.tree p) rows room }
    ensures none { (p : Path) → IsAt tree.now p node → result ≡ false → FitNotIn tree.now.tree (values_at tree.now.tree p) rows room }
{
    let values = tree.values(node);
    if values as usize > rows {
        return false;
    }
    let mut left = room;
    for index in 0..values {
        let Some(value) = tree.value(node, index) else {
            unreachable!()
        };
        let size = value.name.len() + value.size as usize;
        if size > left {
            return false;
        }
        left -= size;
    }
    true
}

/// Tells all values of a key behind those that were told. They have place.
fn tell_all(tree: &Tree, node: Node, rows: &mut [ZugValue], room: &mut [u8], told: Told) -> Told
    requires node { IsThere tree.now node }
    requires told { (told.count ≤ length rows.old) × (told.used ≤ length room.old) }
    requires place { (p : Path) → IsAt tree.now p node →
        FitIn tree.now.tree (values_at tree.now.tree p) (length rows.old - told.count) (length room.old - told.used) }
    ensures { (p : Path) → IsAt tree.now p node → IsToldBehind tree.now.tree (values_at tree.now.tree p)
        (flat_map (value_bytes tree.now.tree) (values_at tree.now.tree p)) told result rows.old rows.new room.old room.new }
{
    let mut after = told;
    for index in 0..tree.values(node) {
        let Some(value) = tree.value(node, index) else {
            unreachable!()
        };
        put_value(tree, node, index, value, room, after.used);
        prove!(after.count < rows.len());
        rows[after.count] = value_row(value);
        after.used += value.name.len() + value.size as usize;
        after.count += 1;
    }
    after
}

/// Tells a key's name and all its values behind what was told, if they have place.
fn tell_with_values(
    tree: &Tree,
    node: Node,
    rows: &mut [ZugValue],
    room: &mut [u8],
    told: Told,
) -> Option<Told>
    requires node { IsThere tree.now node }
    requires told { (told.count ≤ length rows.old) × (told.used ≤ length room.old) }
    ensures { (p : Path) → IsAt tree.now p node → MatchOption result
        ((rows.new ≡ rows.old) × (room.new ≡ room.old) × HasNoPlace tree.now.tree p told rows.old room.old)
        (λ after. IsToldWithValues tree.now.tree p told after rows.old rows.new room.old room.new) }
{
    let name = tree.name(node);
    let left = room.len() - told.used;
    if name.len() > left || !have_place(tree, node, rows.len() - told.count, left - name.len()) {
        return None;
    }
    fill_at(room, told.used, name);
    let behind = Told {
        count: told.count,
        used: told.used + name.len(),
    };
    Some(tell_all(tree, node, rows, room, behind))
}

/// Tells a key's subkeys from an index on, each with all its values, as many as have place. Returns how many.
fn tell_subkeys_with_values(
    tree: &Tree,
    node: Node,
    index: u32,
    subkeys: &mut [ZugSubkey],
    values: &mut [ZugValue],
    room: &mut [u8],
) -> u32
    requires { IsThere tree.now node }
    ensures { (p : Path) → IsAt tree.now p node →
        AreToldWithValues tree.now.tree (subkeys_from index tree.now.tree p) result subkeys.old subkeys.new values.old values.new room.old room.new }
{
    let left = tree.subkeys(node).saturating_sub(index);
    let mut next = tree.subkey_from(node, index);
    let mut count = 0;
    let mut told = Told { count: 0, used: 0 };
    while count < left && (count as usize) < subkeys.len() {
        let Some(subkey) = next else { unreachable!() };
        let Some(after) = tell_with_values(tree, subkey.node, values, room, told) else {
            return count;
        };
        subkeys[count as usize] = subkey_row(tree, subkey.node);
        told = after;
        count += 1;
        next = tree.next_subkey(node, subkey);
    }
    count
}

/// Tells the subkeys of a key, each with all its values.
fn subkeys_with_values_of(
    tree: &Tree,
    node: Node,
    index: u32,
    subkeys: &mut [ZugSubkey],
    values: &mut [ZugValue],
    room: &mut [u8],
) -> Counted
    requires { IsThere tree.now node }
    ensures { (p : Path) → IsAt tree.now p node → AreListedWithValues tree.now.tree (subkeys_from index tree.now.tree p) result.status result.count
        subkeys.old subkeys.new values.old values.new room.old room.new }
{
    if index >= tree.subkeys(node) {
        return Counted {
            status: NO_MORE_ITEMS,
            count: 0,
        };
    }
    let count = tell_subkeys_with_values(tree, node, index, subkeys, values, room);
    let status = if count == 0 { MORE_DATA } else { 0 };
    Counted { status, count }
}

/// Tells the subkeys of the key at the end of a path, each with all its values.
fn subkeys_with_values(
    tree: &Tree,
    path: &[u8],
    index: u32,
    subkeys: &mut [ZugSubkey],
    values: &mut [ZugValue],
    room: &mut [u8],
) -> Counted
    ensures { AreListedWithValuesAt tree.now.tree path.now index result.status result.count subkeys.old subkeys.new values.old values.new room.old room.new }
{
    match key_at(tree, path) {
        Ok(node) => subkeys_with_values_of(tree, node, index, subkeys, values, room),
        Err(status) => Counted { status, count: 0 },
    }
}

/// Tells subkeys of the key at the end of a path from the root, from an index on, each with all its values, as many as have place.
#[unsafe(no_mangle)]
pub extern "C" fn zug_subkeys_with_values_at(
    alloc: Global,
    hive: &mut ZugHive,
    path: &[u8],
    index: u32,
    subkeys: &mut [ZugSubkey],
    values: &mut [ZugValue],
    room: &mut [u8],
    count: &mut u32,
) -> u32
    ensures same { hive.new.held.value ≡ hive.old.held.value }
    ensures told { TellsWithValues hive.old.held.value path.now index result count.new subkeys.old subkeys.new values.old values.new room.old room.new }
{
    let Some(held) = hive.take(alloc) else {
        *count = 0;
        return INVALID_HANDLE;
    };
    let told = subkeys_with_values(held.hive.tree(), path, index, subkeys, values, room);
    hive.put(held);
    *count = told.count;
    told.status
}
