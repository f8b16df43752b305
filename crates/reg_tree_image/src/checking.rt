//! The walk of an image's keys where none of them is built: which fault it meets, once the new bins had no room for one.
//!
//! It makes the tests of [`crate::walk`] in the same order. Whether a key's name was met among its siblings is asked of the names
//! themselves, since no tree has them.

ghost use Rattle.std.specs.Prelude.{◌≡◌, ◌<◌, ◌+◌, ◌*◌, ◌==◌, ◌≤◌, ◌++◌, ◌∷◌, ℕ, false, List, [], length, reverse, suc, Option, Result, Ok, OnOk, IfErr, MatchResult};
ghost use Rattle.reg_names.specs.declared.TheConstants.{PATH_LIMIT};
ghost use Rattle.reg_heap.specs.Paths.{Path};
ghost use Rattle.reg_arena.specs.Cells.{cell_at};
ghost use Rattle.reg_tree_image.specs.declared.LoadFault.{LoadFault};
ghost use Rattle.reg_tree_image.specs.WalkSteps.{Seen};
ghost use Rattle.reg_tree_image.specs.LoadingWalk.{key_from, root_path};
ghost use Rattle.reg_tree_image.specs.Images.{nothing};
ghost use Rattle.reg_tree_image.specs.FaultPlaces.{Spot, key_spot};
ghost use Rattle.reg_tree_image.specs.Internal.CellStates.{IsTable, unnamed};
ghost use Rattle.reg_tree_image.specs.Internal.KeysNamed.{key_offsets};
ghost use Rattle.reg_tree_image.specs.Internal.FaultSpots.{IsMetAt, spot_in};
ghost use Rattle.reg_tree_image.specs.Internal.CheckedStacks.{AreSiblings, IsChecked, IsChecking, Meets};

use crate::LoadFault;
use crate::key_parts::enter_key;
use crate::keys::named_key;
use crate::list_part::ListPart;
use crate::lists::leaf_from;
use crate::sibling_names::SiblingNames;
use crate::spots::{WalkSpot, enter_spot, first_spot, leave_spot};
use crate::subkeys::subkeys_from;
use crate::table::CellTable;
use reg_heap::limits::SUBKEYS_LIMIT;
use reg_names::PATH_LIMIT;
use std::alloc::Global;

/// A key on the present path, with the names of its subkeys that were met.
#[derive(Drop)]
pub struct CheckedKey<'a> {
    /// The offset of its key node in the bins that are loaded.
    pub offset: u32,
    /// How many levels of keys may come below it.
    pub levels: u32,
    /// How many of its subkeys were named.
    pub count: u32,
    /// The names of these.
    pub names: SiblingNames<'a>,
    /// What is left of the present list of keys.
    pub leaf: ListPart<'a>,
    /// What is left of the index root's lists, if it has one.
    pub lists: ListPart<'a>,
}

/// Puts a key at the end of the path.
fn push<'a>(keys: &mut Vec<CheckedKey<'a>>, key: CheckedKey<'a>) -> Result<(), LoadFault>
    ensures ok { OnOk result (keys.new.items ≡ keys.old.items ++ key.entry ∷ []) }
    ensures err { IfErr result (λ fault. fault ≡ LoadFault.Memory) }
{
    if keys.push(key).is_err() {
        return Err(LoadFault::Memory);
    }
    Ok(())
}

/// Names a key, whose name joins those of its siblings, and reads its record, class, security and values; then the list of its subkeys.
/// There are so many levels for it and the keys below it. Its offset is noted. Where it meets a fault, `spot` says where; else the key is
/// one of the present path's.
fn check_key<'a>(
    alloc: Global,
    bins: &'a [u8],
    minor: u32,
    table: &mut CellTable,
    levels: u32,
    siblings: &mut SiblingNames<'a>,
    noted: &mut Vec<u32>,
    spot: &mut WalkSpot,
    offset: u32,
) -> Result<CheckedKey<'a>, LoadFault>
    ensures checks { (path : List ℕ) → (here : List ℕ → Path) → (seen : Seen) → IsTable (cell_at bins.now) seen.found path table.old.states.items →
        AreSiblings here seen.told siblings.old → MatchResult result
        (λ key. IsChecked (cell_at bins.now) minor levels path here offset seen table.new.states.items siblings.old siblings.new key)
        (λ fault. Meets fault (key_from (cell_at bins.now) minor levels path here offset seen)) }
    ensures spots { (path : List ℕ) → (here : List ℕ → Path) → (seen : Seen) → IsTable (cell_at bins.now) seen.found path table.old.states.items →
        AreSiblings here seen.told siblings.old → reverse spot.old.path.items ≡ path → IfErr result
        (λ fault. IsMetAt fault (spot_in spot.new) (key_spot (cell_at bins.now) minor levels path here offset seen)) }
    ensures trail { OnOk result (spot.new.path.items ≡ spot.old.path.items ++ offset ∷ []) }
    ensures noted { OnOk result (noted.new.items ≡ noted.old.items ++ offset ∷ []) }
    ensures fewer { OnOk result (unnamed table.new.states.items < unnamed table.old.states.items) }
{
    spot.offset = offset;
    let named = named_key(alloc, bins, table, offset)?;
    let fields = named.node.fields;
    siblings.put(alloc, named.name)?;
    if levels == 0 {
        return Err(LoadFault::Limit);
    }
    enter_spot(spot, offset)?;
    let _parts = enter_key(alloc, bins, table, minor, offset, &fields, &mut spot.offset)?;
    spot.offset = fields.subkeys_list;
    let subkeys = subkeys_from(bins, table, fields.subkeys, fields.subkeys_list)?;
    if noted.push(offset).is_err() {
        return Err(LoadFault::Memory);
    }
    Ok(CheckedKey {
        offset,
        levels: levels - 1,
        count: 0,
        names: SiblingNames::new(alloc),
        leaf: subkeys.leaf,
        lists: subkeys.lists,
    })
}

/// Goes on from the lowest key of the path, which was taken from the others: checks its next subkey, reads its next list of keys, or
/// leaves it. Where it meets a fault, `spot` says where.
fn step<'a>(
    alloc: Global,
    bins: &'a [u8],
    minor: u32,
    table: &mut CellTable,
    keys: &mut Vec<CheckedKey<'a>>,
    noted: &mut Vec<u32>,
    spot: &mut WalkSpot,
    lowest: CheckedKey<'a>,
) -> Result<(), LoadFault>
    ensures ok { (whole : Result (Unit {0} × Seen) LoadFault) → (there : Option Spot) →
        IsChecking (cell_at bins.now) minor whole there (lowest.entry ∷ reverse keys.old.items) table.old.states.items noted.old.items spot.old.path.items →
        OnOk result (IsChecking (cell_at bins.now) minor whole there (reverse keys.new.items) table.new.states.items noted.new.items spot.new.path.items) }
    ensures err { (whole : Result (Unit {0} × Seen) LoadFault) → (there : Option Spot) →
        IsChecking (cell_at bins.now) minor whole there (lowest.entry ∷ reverse keys.old.items) table.old.states.items noted.old.items spot.old.path.items →
        IfErr result (λ fault. Meets fault whole) }
    ensures spots { (whole : Result (Unit {0} × Seen) LoadFault) → (there : Option Spot) →
        IsChecking (cell_at bins.now) minor whole there (lowest.entry ∷ reverse keys.old.items) table.old.states.items noted.old.items spot.old.path.items →
        IfErr result (λ fault. IsMetAt fault (spot_in spot.new) there) }
    ensures less { OnOk result
        (2 * unnamed table.new.states.items + length keys.new.items ≤ 2 * unnamed table.old.states.items + length keys.old.items) }
{
    let mut key = lowest;
    if let Some(offset) = key.leaf.take() {
        spot.offset = offset;
        if key.count >= SUBKEYS_LIMIT {
            return Err(LoadFault::Limit);
        }
        key.count += 1;
        let levels = key.levels;
        let below = check_key(
            alloc,
            bins,
            minor,
            table,
            levels,
            &mut key.names,
            noted,
            spot,
            offset,
        )?;
        push(keys, key)?;
        return push(keys, below);
    }
    if let Some(offset) = key.lists.take() {
        spot.offset = offset;
        key.leaf = leaf_from(bins, table, offset)?;
        return push(keys, key);
    }
    leave_spot(spot);
    table.leave(key.offset);
    Ok(())
}

/// Walks the keys of foreign bins from the root's key node on, of which none is built, and notes their offsets. Of the cells none was named
/// yet, nothing was noted, and no key is on the path.
///
/// Its fault is the first that the walk meets, and `spot` says where; `Memory` at any place.
pub fn walk_keys(
    alloc: Global,
    bins: &[u8],
    minor: u32,
    table: &mut CellTable,
    noted: &mut Vec<u32>,
    spot: &mut WalkSpot,
    root: u32,
) -> Result<(), LoadFault>
    requires table { IsTable (cell_at bins.now) [] [] table.old.states.items }
    requires none { noted.old.items ≡ [] }
    requires start { spot.old.path.items ≡ [] }
    ensures ok { OnOk result ((seen : Seen)
        × (key_from (cell_at bins.now) minor (suc PATH_LIMIT) [] root_path root nothing ≡ Ok (tt, seen))
        × IsTable (cell_at bins.now) seen.found [] table.new.states.items
        × ((minor == 3) ≡ false → noted.new.items ≡ key_offsets seen.found)) }
    ensures err { IfErr result (λ fault. Meets fault (key_from (cell_at bins.now) minor (suc PATH_LIMIT) [] root_path root nothing)) }
    ensures spots { IfErr result (λ fault. IsMetAt fault (spot_in spot.new)
        (key_spot (cell_at bins.now) minor (suc PATH_LIMIT) [] root_path root nothing)) }
{
    let mut siblings = SiblingNames::new(alloc);
    let levels = PATH_LIMIT as u32 + 1;
    let first = check_key(
        alloc,
        bins,
        minor,
        table,
        levels,
        &mut siblings,
        noted,
        spot,
        root,
    )?;
    let mut keys = Vec::new(alloc);
    push(&mut keys, first)?;
    while let Some(key) = keys.pop() {
        step(alloc, bins, minor, table, &mut keys, noted, spot, key)?;
    }
    Ok(())
}

/// Walks the keys of foreign bins as [`walk_keys`] does, and doesn't tell where a fault is met.
pub fn check_keys(
    alloc: Global,
    bins: &[u8],
    minor: u32,
    table: &mut CellTable,
    noted: &mut Vec<u32>,
    root: u32,
) -> Result<(), LoadFault>
    requires table { IsTable (cell_at bins.now) [] [] table.old.states.items }
    requires none { noted.old.items ≡ [] }
    ensures ok { OnOk result ((seen : Seen)
        × (key_from (cell_at bins.now) minor (suc PATH_LIMIT) [] root_path root nothing ≡ Ok (tt, seen))
        × IsTable (cell_at bins.now) seen.found [] table.new.states.items
        × ((minor == 3) ≡ false → noted.new.items ≡ key_offsets seen.found)) }
    ensures err { IfErr result (λ fault. Meets fault (key_from (cell_at bins.now) minor (suc PATH_LIMIT) [] root_path root nothing)) }
{
    let mut spot = first_spot(alloc);
    walk_keys(alloc, bins, minor, table, noted, &mut spot, root)
}
