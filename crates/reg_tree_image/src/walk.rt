//! The walk that loads the keys of an image, over an explicit stack of the keys on the present path.
//!
//! Suhanov, Windows registry file format specification, sections "Format of primary files" and "Subkeys list".

ghost use Rattle.std.specs.Prelude.{◌≡◌, ◌+◌, ◌*◌, ◌≤◌, ◌++◌, ℕ, List, [], ◌∷◌, length, reverse, suc, Result, Ok, OnOk, IfOk, IfErr};
ghost use Rattle.reg_names.specs.declared.TheConstants.{PATH_LIMIT};
ghost use Rattle.reg_arena.specs.Cells.{cell_at};
ghost use Rattle.reg_tree.specs.TreeKeys.{IsThere};
ghost use Rattle.reg_tree_image.specs.declared.LoadFault.{LoadFault};
ghost use Rattle.reg_tree_image.specs.WalkSteps.{Seen};
ghost use Rattle.reg_tree_image.specs.LoadingWalk.{key_from, root_path};
ghost use Rattle.reg_tree_image.specs.Images.{nothing, tree_told};
ghost use Rattle.reg_tree_image.specs.Internal.CellStates.{IsTable, unnamed};
ghost use Rattle.reg_tree_image.specs.Internal.FirstUses.{AreFirst};
ghost use Rattle.reg_tree_image.specs.Internal.Stacks.{IsWalking, IsBegun, IsRootCrowded, FailsAs};

use crate::LoadFault;
use crate::begin::{BegunRoot, begin_key, begin_root};
use crate::first_keys::FirstKeys;
use crate::frames::KeyFrame;
use crate::lists::leaf_from;
use crate::room::{Building, Room, bytes_to_build};
use crate::table::CellTable;
use reg_heap::limits::SUBKEYS_LIMIT;
use reg_tree::Tree;

/// Puts a key at the end of the path.
fn push<'a>(keys: &mut Vec<KeyFrame<'a>>, key: KeyFrame<'a>) -> Result<(), LoadFault>
    ensures ok { OnOk result (keys.new.items ≡ keys.old.items ++ key.entry ∷ []) }
    ensures err { IfErr result (λ fault. fault ≡ LoadFault.Memory) }
{
    if keys.push(key).is_err() {
        return Err(LoadFault::Memory);
    }
    Ok(())
}

/// Goes on from the lowest key of the path, which was taken from the others: begins its next subkey, reads its next list of keys, or
/// leaves it.
fn step<'a>(
    building: Building,
    bins: &'a [u8],
    minor: u32,
    table: &mut CellTable,
    tree: &mut Tree,
    keys: &mut Vec<KeyFrame<'a>>,
    lowest: KeyFrame<'a>,
    firsts: &mut FirstKeys,
    room: &mut Room,
) -> Result<(), LoadFault>
    requires node { IsThere tree.old lowest.node }
    requires walks { (root : ℕ) × (whole : Result (Unit {0} × Seen) LoadFault)
        × IsWalking building.ahead (cell_at bins.now) minor root whole (lowest ∷ reverse keys.old.items) table.old.states.items tree.old }
    requires firsts { AreFirst (cell_at bins.now) tree.old firsts.old }
    ensures ok { (root : ℕ) → (whole : Result (Unit {0} × Seen) LoadFault) →
        IsWalking building.ahead (cell_at bins.now) minor root whole (lowest.entry ∷ reverse keys.old.items) table.old.states.items tree.old →
        OnOk result (IsWalking building.ahead (cell_at bins.now) minor root whole (reverse keys.new.items) table.new.states.items tree.new) }
    ensures err { (root : ℕ) → (whole : Result (Unit {0} × Seen) LoadFault) →
        IsWalking building.ahead (cell_at bins.now) minor root whole (lowest.entry ∷ reverse keys.old.items) table.old.states.items tree.old →
        IfErr result (λ fault. FailsAs (IsRootCrowded building.ahead (cell_at bins.now) minor root) fault whole) }
    ensures firsts { OnOk result (AreFirst (cell_at bins.now) tree.new firsts.new) }
    ensures less { OnOk result
        (2 * unnamed table.new.states.items + length keys.new.items ≤ 2 * unnamed table.old.states.items + length keys.old.items) }
{
    let mut key = lowest;
    if let Some(offset) = key.leaf.take() {
        if key.count >= SUBKEYS_LIMIT {
            return Err(LoadFault::Limit);
        }
        key.count += 1;
        let below = begin_key(
            building, bins, minor, table, tree, key, offset, firsts, room,
        )?;
        push(keys, key)?;
        return push(keys, below);
    }
    if let Some(offset) = key.lists.take() {
        key.leaf = leaf_from(bins, table, offset)?;
        return push(keys, key);
    }
    table.leave(key.offset);
    Ok(())
}

/// Walks all keys below the root, which was begun, and builds them in its tree.
fn walk_below<'a>(
    building: Building,
    bins: &'a [u8],
    minor: u32,
    table: &mut CellTable,
    tree: &mut Tree,
    root: KeyFrame<'a>,
    room: &mut Room,
) -> Result<(), LoadFault>
    requires begun { IsBegun building.ahead (cell_at bins.now) minor (suc PATH_LIMIT) [] root_path root.offset nothing
        table.old.states.items tree.old root }
    ensures ok { OnOk result ((seen : Seen)
        × (key_from (cell_at bins.now) minor (suc PATH_LIMIT) [] root_path root.entry.offset nothing ≡ Ok (tt, seen))
        × (tree.new.tree ≡ tree_told seen)) }
    ensures err { IfErr result
        (λ fault. FailsAs (IsRootCrowded building.ahead (cell_at bins.now) minor root.entry.offset) fault
        (key_from (cell_at bins.now) minor (suc PATH_LIMIT) [] root_path root.entry.offset nothing)) }
{
    let mut keys = Vec::new(building.alloc);
    let mut firsts = FirstKeys::new(building.alloc);
    push(&mut keys, root)?;
    while let Some(key) = keys.pop() {
        step(
            building,
            bins,
            minor,
            table,
            tree,
            &mut keys,
            key,
            &mut firsts,
            room,
        )?;
    }
    Ok(())
}

/// The room for what is to be built of foreign bins.
fn room_for(building: Building, bins: &[u8], table: &CellTable) -> Room {
    match building.to_build {
        Some(to_build) => Room::new(to_build),
        None => Room::new(bytes_to_build(bins, table)),
    }
}

/// Walks the keys of foreign bins from the root's key node on, and builds them in a new tree. Of the cells none was named yet.
///
/// Its faults are the walk's, the first that is met; `Limit` also where the new bins have no room for the key that was told last;
/// `Memory` at any place.
pub fn walk(
    building: Building,
    bins: &[u8],
    minor: u32,
    table: &mut CellTable,
    root: u32,
) -> Result<Tree, LoadFault>
    requires { IsTable (cell_at bins.now) [] [] table.old.states.items }
    ensures ok { IfOk result (λ tree. (seen : Seen)
        × (key_from (cell_at bins.now) minor (suc PATH_LIMIT) [] root_path root nothing ≡ Ok (tt, seen))
        × (tree.tree ≡ tree_told seen)) }
    ensures err { IfErr result (λ fault. FailsAs (IsRootCrowded building.ahead (cell_at bins.now) minor root) fault
        (key_from (cell_at bins.now) minor (suc PATH_LIMIT) [] root_path root nothing)) }
{
    let mut room = room_for(building, bins, table);
    let BegunRoot { mut tree, key } = begin_root(building, bins, minor, table, root, &mut room)?;
    walk_below(building, bins, minor, table, &mut tree, key, &mut room)?;
    Ok(tree)
}
