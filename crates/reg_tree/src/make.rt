//! Keys made.
//!
//! Win32 registry reference, `RegCreateKeyEx`.
ghost use Rattle.std.specs.Prelude.{◌≡◌, ◌≢◌, ◌↔◌, ◌⊎◌, ◌≤◌, ◌<◌, ◌+◌, ◌-◌, ◌++◌, ◌∷◌, [], true, false, ℕ, List, Some, Err, IsSome, IfOk, IfErr, OnOk, OnErr};
ghost use Rattle.std.specs.Prelude.{None, IfSome, length, map, drop, get_or, option_map};
ghost use Rattle.reg_names.specs.declared.TheConstants.{KEY_NAME_LIMIT};
ghost use Rattle.reg_names.specs.Names.{is_key_name, is_path, path_of};
ghost use Rattle.reg_heap.specs.declared.limits.TheConstants.{BINS_LIMIT, DESCRIPTOR_LIMIT, GROWTH_BOUND};
ghost use Rattle.reg_heap.specs.Paths.{children_of};
ghost use Rattle.reg_heap.specs.Edits.{missing, are_too_many};
ghost use Rattle.reg_heap.specs.Kinds.{times};
ghost use Rattle.reg_arena.specs.Arena.{heap_of};
ghost use Rattle.reg_arena.specs.EachCell.{GrowsFor};
ghost use Rattle.reg_records.specs.RecordCells.{HasRoom};
ghost use Rattle.reg_records.specs.KeyNodes.{KeyRecord, key_at};
ghost use Rattle.reg_index.specs.declared.Place.{Place};
ghost use Rattle.reg_index.specs.Subkeys.{IsReady, KeepsCells, each_of, own, taken};
ghost use Rattle.reg_values.specs.ValueLists.{KeepsSizes, Makes};
ghost use Rattle.reg_tree.specs.TreeKeys.{tree_in};
ghost use Rattle.reg_tree.specs.CellSizes.{BelongsThere, create_sizes, first_cells, made_sizes, own_sizes, planned, planned_sizes, sizes_of, LacksRoom};
ghost use Rattle.reg_tree.specs.Internal.KeyNodeChanges.{LeavesOthers};
ghost use Rattle.reg_tree.specs.Internal.TreeInvariant.{IsHere};
ghost use Rattle.reg_tree.specs.Internal.SpareCells.{MayGrow, Grows, AreReady, HaveSizes, MayGrowAll, GrowsAll, IsClassSize, IsSecuritySize, IsSpared};
ghost use Rattle.reg_tree.specs.Internal.DescriptorChange.{KeepsFinds, class_of, last_of};
ghost use Rattle.reg_tree.specs.Internal.KeyCreation.{IsCreated, IsGrownAll, AreTooMany, LeadsTo};
ghost use Rattle.reg_tree.specs.Internal.ReachedPlaces.{BelongsAt, BelongsFirst};

use crate::find::reach;
use crate::key::{fields, new_key, note_subkeys, subkeys_list};
use crate::security::{describe, expect, forget};
use crate::{Created, Node, Place, Reached, TreeFault};
use reg_arena::{Arena, ArenaFault, cell_size};
use reg_heap::limits::{MADE_LIMIT, SUBKEYS_LIMIT};
use reg_index::{FIRST_LIST_SIZE, IndexCells, SubkeysIndex, insert, len, plan_insert};
use reg_names::{PATH_LIMIT, first_name};
use reg_records::put_nk;
use reg_security::{SecurityTable, share};
use std::alloc::{AllocError, Global};

/// Where a key's first subkey belongs.
const FIRST_PLACE: Place = Place { list: 0, index: 0 };

/// The sizes of the cells that a key's first subkey takes.
const FIRST_CELLS: IndexCells = IndexCells {
    list: Some(FIRST_LIST_SIZE),
    second: None,
    root: None,
};

/// Makes a key below another in cells carved for it: its key node's, and those that its parent's subkeys take with one more. It comes
/// to the place among its parent's subkeys where its name belongs. What its parent says of it is noted, with the time.
fn make(
    arena: &mut Arena,
    parent: u32,
    place: Place,
    cells: IndexCells,
    key: u32,
    name: &[u8],
    moment: u64,
)
    requires grow { (left : List ℕ) × MayGrow arena.old.bytes parent (each_of cells ++ key ∷ left) name.now }
    requires place { BelongsAt (heap_of arena.old) parent name.now place }
    requires ready { IsReady (heap_of arena.old) (planned (heap_of arena.old) parent place) cells }
    requires room { HasRoom (heap_of arena.old) key (76 + length name.now) }
    requires name { (is_key_name name.now ≡ true) × (length name.now ≤ KEY_NAME_LIMIT) }
    ensures grows { (left : List ℕ) →
        (m : MayGrow arena.old.bytes parent (each_of cells ++ key ∷ left) name.now) →
        Grows (heap_of arena.old)
        (heap_of arena.new) m.growing.root m.growing.path m.growing.keys m.growing.ring key left name.now moment }
    ensures long { length arena.new.bytes ≡ length arena.old.bytes }
    ensures keeps { KeepsCells (heap_of arena.old) (heap_of arena.new) }
    ensures leaves { (k : KeyRecord) → key_at (heap_of arena.old) parent ≡ Some k →
        LeavesOthers (heap_of arena.old) (heap_of arena.new) (own (heap_of arena.old) k.fields.subkeys k.fields.subkeys_list) }
{
    let above = fields(arena, parent);
    let list = SubkeysIndex {
        count: above.subkeys,
        offset: above.subkeys_list,
    };
    put_nk(arena, key, &new_key(parent, above.security, moment), name);
    let list = insert(arena, list, place, cells, key);
    note_subkeys(arena, parent, list, name.len() as u32, moment);
    share(arena, above.security);
}

/// Of some spare cells, the one at an index, where a size is planned.
fn cell_if(plan: Option<u32>, spare: &[u32], index: usize) -> Option<u32>
    requires { IsSome plan → index < length spare.now }
    ensures { result ≡ option_map (λ _. get_or spare.now index 0) plan }
{
    match plan {
        None => None,
        Some(_) => Some(spare[index]),
    }
}

/// How many cells are planned by one size: one, or none.
fn count_if(plan: Option<u32>) -> usize
    ensures { result ≡ length (taken plan) }
{
    match plan {
        None => 0,
        Some(_) => 1,
    }
}

/// Makes a key below another, at the place where its name belongs, in the first of some spare cells, and answers how many it took;
/// the last of these is the key's. The plan says what cells its parent's subkeys take.
fn make_in(
    arena: &mut Arena,
    parent: u32,
    place: Place,
    plan: IndexCells,
    spare: &[u32],
    name: &[u8],
    moment: u64,
) -> usize
    requires grow { MayGrow arena.old.bytes parent spare.now name.now }
    requires place { BelongsAt (heap_of arena.old) parent name.now place }
    requires plan { plan ≡ planned (heap_of arena.old) parent place }
    requires ready { (left : List ℕ) × (more : List (List ℕ))
        × AreReady (heap_of arena.old) left (planned (heap_of arena.old) parent place) (own_sizes name.now ∷ more) spare.now }
    requires name { (is_key_name name.now ≡ true) × (length name.now ≤ KEY_NAME_LIMIT) }
    ensures taken { (1 ≤ result) × (result ≤ 4) × (result ≤ length spare.now) }
    ensures grows { (m : MayGrow arena.old.bytes parent spare.now name.now) →
        Grows (heap_of arena.old)
        (heap_of arena.new) m.growing.root m.growing.path m.growing.keys m.growing.ring
        (get_or spare.now (result - 1) 0) (drop result spare.now) name.now moment }
    ensures ready { (left : List ℕ) → (more : List (List ℕ)) →
        AreReady (heap_of arena.old) left (planned (heap_of arena.old) parent place) (own_sizes name.now ∷ more) spare.now →
        AreReady (heap_of arena.old) left first_cells more (drop result spare.now) }
    ensures long { length arena.new.bytes ≡ length arena.old.bytes }
    ensures keeps { KeepsCells (heap_of arena.old) (heap_of arena.new) }
    ensures leaves { (k : KeyRecord) → key_at (heap_of arena.old) parent ≡ Some k →
        LeavesOthers (heap_of arena.old) (heap_of arena.new) (own (heap_of arena.old) k.fields.subkeys k.fields.subkeys_list) }
{
    let second = count_if(plan.list);
    let root = second + count_if(plan.second);
    let own = root + count_if(plan.root);
    let cells = IndexCells {
        list: cell_if(plan.list, spare, 0),
        second: cell_if(plan.second, spare, second),
        root: cell_if(plan.root, spare, root),
    };
    make(arena, parent, place, cells, spare[own], name, moment);
    own + 1
}

/// Makes the keys of a path, one below the other, in the first of some spare cells, and answers the last. The first belongs at a
/// place among the subkeys that are there; each other one is the only subkey of the one before, and begins its list.
fn make_all(
    arena: &mut Arena,
    from: Node,
    place: Place,
    plan: IndexCells,
    path: &[u8],
    spare: &[u32],
    moment: u64,
) -> Node
    requires grow { (left : List ℕ) × MayGrowAll arena.old.bytes from (path_of path.now) place left spare.now }
    requires place { BelongsFirst (heap_of arena.old) from.offset (path_of path.now) place }
    requires plan { plan ≡ planned (heap_of arena.old) from.offset place }
    requires depth { from.depth ≤ PATH_LIMIT }
    requires path { is_path path.now ≡ true }
    ensures grows { (left : List ℕ) → (m : MayGrowAll arena.old.bytes from (path_of path.now) place left spare.now) →
        GrowsAll (heap_of arena.old)
        (heap_of arena.new) m.growing.root m.growing.path m.growing.keys m.growing.ring left from result
        (path_of path.now) moment }
    ensures long { length arena.new.bytes ≡ length arena.old.bytes }
    ensures keeps { KeepsCells (heap_of arena.old) (heap_of arena.new) }
    ensures stay { (z : ℕ) → 0 < times z spare.now → IsSome (heap_of arena.new z) }
{
    let mut node = from;
    let mut place = place;
    let mut plan = plan;
    let mut rest = path;
    let mut spare = spare;
    while let Some((name, behind)) = first_name(rest) {
        let taken = make_in(arena, node.offset, place, plan, spare, name, moment);
        node = Node {
            offset: spare[taken - 1],
            depth: node.depth + 1,
        };
        place = FIRST_PLACE;
        plan = FIRST_CELLS;
        spare = &spare[taken..];
        rest = behind;
    }
    node
}

/// How many names a path has.
fn count_names(path: &[u8]) -> u32
    requires { is_path path.now ≡ true }
    ensures { result ≡ length (path_of path.now) }
{
    let mut rest = path;
    let mut count = 0;
    while let Some((_, behind)) = first_name(rest) {
        count += 1;
        rest = behind;
    }
    count
}

/// Whether the names of a path, all of them missing, are too many to be made below a key.
fn pass_limits(arena: &Arena, parent: Node, path: &[u8]) -> bool
    requires here { IsHere arena.now.bytes parent.offset }
    requires depth { parent.depth ≤ 1024 }
    requires path { is_path path.now ≡ true }
    ensures many { (t : IsHere arena.now.bytes parent.offset) →
        ((result ≡ true) ↔ ((MADE_LIMIT < length (path_of path.now))
        ⊎ ((PATH_LIMIT < parent.depth + length (path_of path.now))
        ⊎ (SUBKEYS_LIMIT ≤ length (children_of (tree_in arena.now.bytes t.root) t.path))))) }
    ensures room { result ≡ false → (length (path_of path.now) ≤ MADE_LIMIT)
        × (parent.depth + length (path_of path.now) ≤ PATH_LIMIT)
        × ((k : KeyRecord) → key_at (heap_of arena.now) parent.offset ≡ Some k → k.fields.subkeys < SUBKEYS_LIMIT) }
{
    let count = count_names(path);
    if count > MADE_LIMIT {
        return true;
    }
    if parent.depth + count > PATH_LIMIT as u32 {
        return true;
    }
    len(subkeys_list(arena, parent.offset)) >= SUBKEYS_LIMIT
}

/// Whether keys were found missing on a path, and are too many to be made.
pub fn is_limited(arena: &Arena, reached: Reached<'_>) -> bool
    requires { (from : Node) × (path : List ℕ) × LeadsTo arena.now.bytes from path reached.node reached.missing.now }
    ensures { (from : Node) → (path : List ℕ) → (l : LeadsTo arena.now.bytes from path reached.entry.node reached.entry.missing.now) →
        result ≡ are_too_many (tree_in arena.now.bytes l.here.root) l.here.path (path_of path) }
{
    if reached.missing.is_empty() {
        return false;
    }
    pass_limits(arena, reached.node, reached.missing)
}

/// One size more, where there is one.
fn push_if(sizes: &mut Vec<u32>, size: Option<u32>) -> Result<(), AllocError>
    ensures { OnOk result (sizes.new.items ≡ sizes.old.items ++ taken size) }
{
    if let Some(size) = size {
        sizes.push(size)?;
    }
    Ok(())
}

/// The sizes of the cells that making keys takes, in order: for each, those that its parent's subkeys take with one more, and that of
/// its key node. The first parent's are planned; those made have no list yet. Behind them are a class's size and a descriptor's, where
/// there is one.
fn sizes_for(
    alloc: Global,
    planned: IndexCells,
    path: &[u8],
    class: Option<u32>,
    more: Option<u32>,
) -> Result<Vec<u32>, AllocError>
    requires { is_path path.now ≡ true }
    ensures { IfOk result (λ sizes. sizes.items ≡ sizes_of planned (map own_sizes (path_of path.now)) ++ (planned_sizes class ++ planned_sizes more)) }
{
    let mut sizes = Vec::new(alloc);
    let mut plan = planned;
    let mut rest = path;
    while let Some((name, behind)) = first_name(rest) {
        push_if(&mut sizes, plan.list)?;
        push_if(&mut sizes, plan.second)?;
        push_if(&mut sizes, plan.root)?;
        sizes.push(cell_size(76 + name.len() as u32))?;
        plan = FIRST_CELLS;
        rest = behind;
    }
    push_if(&mut sizes, class)?;
    push_if(&mut sizes, more)?;
    Ok(sizes)
}

/// Carves the cells that keys of a path's names take below a key at a place where they were planned; behind them one for a class, and
/// last one for a descriptor, where their sizes are given.
fn carve_for(
    alloc: Global,
    arena: &mut Arena,
    plan: IndexCells,
    path: &[u8],
    class: Option<u32>,
    more: Option<u32>,
) -> Result<Vec<u32>, ArenaFault>
    requires plan { (parent : ℕ) × (place : Place) × IsHere arena.old.bytes parent × (plan ≡ planned (heap_of arena.old) parent place) }
    requires path { is_path path.now ≡ true }
    requires few { length (path_of path.now) ≤ MADE_LIMIT }
    requires class { IsClassSize class }
    requires more { IsSecuritySize more }
    ensures ok { (parent : ℕ) → (place : Place) → IsHere arena.old.bytes parent → plan ≡ planned (heap_of arena.old) parent place →
        IfOk result (λ cells. IsSpared arena.old.bytes arena.new.bytes parent place (path_of path.now)
        (planned_sizes class ++ planned_sizes more) (taken (class_of class more cells.items) ++ taken (last_of more cells.items)) cells.items) }
    ensures full { (result ≡ Err ArenaFault.Full) → BINS_LIMIT < length arena.old.bytes + GROWTH_BOUND }
    ensures space { IfErr result (λ fault. fault ≡ ArenaFault.Full → LacksRoom arena.old
        (sizes_of plan (map own_sizes (path_of path.now)) ++ (planned_sizes class ++ planned_sizes more))) }
    ensures err { OnErr result (arena.new ≡ arena.old) }
    ensures grows { OnOk result (length arena.new.bytes ≤ length arena.old.bytes + GROWTH_BOUND) }
    ensures growth { OnOk result (GrowsFor arena.old.bytes arena.new.bytes
        (sizes_of plan (map own_sizes (path_of path.now)) ++ (planned_sizes class ++ planned_sizes more))) }
    ensures kept { OnOk result (length arena.old.bytes ≤ length arena.new.bytes) }
{
    let sizes = match sizes_for(alloc, plan, path, class, more) {
        Ok(sizes) => sizes,
        Err(AllocError) => return Err(ArenaFault::Memory),
    };
    let mut cells = Vec::new(alloc);
    match arena.carve_change(&sizes, &mut cells) {
        Ok(()) => Ok(cells),
        Err(fault) => Err(fault),
    }
}

/// Of the cells that were carved for keys, the one for a descriptor, where it takes one: the last.
fn last_cell(more: Option<u32>, cells: &[u32]) -> Option<u32>
    requires { IsSome more → 0 < length cells.now }
    ensures { result ≡ last_of more cells.now }
{
    match more {
        None => None,
        Some(_) => Some(cells[cells.len() - 1]),
    }
}

/// The one for a class, where it takes one: the last, or the one before a descriptor's.
fn class_cell(class: Option<u32>, more: Option<u32>, cells: &[u32]) -> Option<u32>
    requires { IsSome class → length (taken more) < length cells.now }
    ensures { result ≡ class_of class more cells.now }
{
    match class {
        None => None,
        Some(_) => Some(cells[cells.len() - 1 - count_if(more)]),
    }
}

/// The last of some keys that were made, and the cells that were carved beside theirs.
#[derive(Clone, Copy, Debug)]
pub struct MadeKeys {
    /// The key.
    pub node: Node,
    /// The cell for a class, if its size was given.
    pub class: Option<u32>,
    /// The cell for a descriptor, if its size was given.
    pub security: Option<u32>,
}

/// Makes the keys that were found missing on a path, each with its parent's descriptor, and answers the last; and carves a cell for a
/// class and one for a descriptor, where their sizes are given. All cells are carved before the first key is made, so that only that can
/// fail, for want of room: `Full`, `Memory`. After a fault the arena is as before.
pub fn make_keys(
    alloc: Global,
    arena: &mut Arena,
    reached: Reached<'_>,
    moment: u64,
    class: Option<u32>,
    more: Option<u32>,
) -> Result<MadeKeys, ArenaFault>
    requires reached { (from : Node) × (path : List ℕ) × (l : LeadsTo arena.old.bytes from path reached.node reached.missing.now)
        × (are_too_many (tree_in arena.old.bytes l.here.root) l.here.path (path_of path) ≡ false) }
    requires place { BelongsFirst (heap_of arena.old) reached.node.offset (path_of reached.missing.now) reached.place }
    requires missing { reached.missing.now ≢ [] }
    requires class { IsClassSize class }
    requires more { IsSecuritySize more }
    ensures ok { (from : Node) → (path : List ℕ) → (l : LeadsTo arena.old.bytes from path reached.entry.node reached.entry.missing.now) →
        IfOk result (λ made. IsGrownAll arena.old.bytes arena.new.bytes l.here.root l.here.path (path_of path) moment l.here.holds.ring
        (taken made.class ++ taken made.security) from made.node) }
    ensures room { IfOk result (λ made. HaveSizes (heap_of arena.new) (taken made.class) (planned_sizes class)
        × HaveSizes (heap_of arena.new) (taken made.security) (planned_sizes more)) }
    ensures cells { (from : Node) → (path : List ℕ) → (l : LeadsTo arena.old.bytes from path reached.entry.node reached.entry.missing.now) →
        OnOk result (Makes (heap_of arena.old) (heap_of arena.new)
        (made_sizes (record { bins = arena.old; root = l.here.root; tree = tree_in arena.old.bytes l.here.root }) l.here.path (path_of path)
        reached.entry.place ++ (planned_sizes class ++ planned_sizes more))) }
    ensures full { (result ≡ Err ArenaFault.Full) → BINS_LIMIT < length arena.old.bytes + GROWTH_BOUND }
    ensures space { (from : Node) → (path : List ℕ) → (l : LeadsTo arena.old.bytes from path reached.entry.node reached.entry.missing.now) →
        IfErr result (λ fault. fault ≡ ArenaFault.Full → LacksRoom arena.old
        (made_sizes (record { bins = arena.old; root = l.here.root; tree = tree_in arena.old.bytes l.here.root }) l.here.path (path_of path)
        reached.entry.place ++ (planned_sizes class ++ planned_sizes more))) }
    ensures err { OnErr result (arena.new ≡ arena.old) }
    ensures grows { OnOk result (length arena.new.bytes ≤ length arena.old.bytes + GROWTH_BOUND) }
    ensures stay { OnOk result (KeepsSizes (heap_of arena.old) (heap_of arena.new)) }
    ensures growth { (from : Node) → (path : List ℕ) → (l : LeadsTo arena.old.bytes from path reached.entry.node reached.entry.missing.now) →
        OnOk result (GrowsFor arena.old.bytes arena.new.bytes (made_sizes
        (record { bins = arena.old; root = l.here.root; tree = tree_in arena.old.bytes l.here.root }) l.here.path (path_of path)
        reached.entry.place ++ (planned_sizes class ++ planned_sizes more))) }
    ensures kept { OnOk result (length arena.old.bytes ≤ length arena.new.bytes) }
{
    let list = subkeys_list(arena, reached.node.offset);
    let plan = plan_insert(arena, list, reached.place);
    let cells = match carve_for(alloc, arena, plan, reached.missing, class, more) {
        Ok(cells) => cells,
        Err(fault) => return Err(fault),
    };
    let node = make_all(
        arena,
        reached.node,
        reached.place,
        plan,
        reached.missing,
        &cells,
        moment,
    );
    Ok(MadeKeys {
        node,
        class: class_cell(class, more, &cells),
        security: last_cell(more, &cells),
    })
}

/// Makes the keys that were found missing on a path, each with its parent's descriptor, and answers the last. `Full`, `Memory`: then the
/// arena is as before.
fn make_sharing(
    alloc: Global,
    arena: &mut Arena,
    reached: Reached<'_>,
    moment: u64,
) -> Result<Node, ArenaFault>
    requires reached { (from : Node) × (path : List ℕ) × (l : LeadsTo arena.old.bytes from path reached.node reached.missing.now)
        × (are_too_many (tree_in arena.old.bytes l.here.root) l.here.path (path_of path) ≡ false) }
    requires place { BelongsFirst (heap_of arena.old) reached.node.offset (path_of reached.missing.now) reached.place }
    requires missing { reached.missing.now ≢ [] }
    ensures ok { (from : Node) → (path : List ℕ) → (l : LeadsTo arena.old.bytes from path reached.entry.node reached.entry.missing.now) →
        IfOk result (λ made. IsCreated arena.old.bytes arena.new.bytes l.here.root l.here.table l.here.path from (path_of path) None moment made) }
    ensures cells { (from : Node) → (path : List ℕ) → (l : LeadsTo arena.old.bytes from path reached.entry.node reached.entry.missing.now) →
        OnOk result (Makes (heap_of arena.old) (heap_of arena.new)
        (made_sizes (record { bins = arena.old; root = l.here.root; tree = tree_in arena.old.bytes l.here.root }) l.here.path (path_of path)
        reached.entry.place)) }
    ensures full { (result ≡ Err ArenaFault.Full) → BINS_LIMIT < length arena.old.bytes + GROWTH_BOUND }
    ensures space { (from : Node) → (path : List ℕ) → (l : LeadsTo arena.old.bytes from path reached.entry.node reached.entry.missing.now) →
        IfErr result (λ fault. fault ≡ ArenaFault.Full → LacksRoom arena.old
        (made_sizes (record { bins = arena.old; root = l.here.root; tree = tree_in arena.old.bytes l.here.root }) l.here.path (path_of path)
        reached.entry.place)) }
    ensures err { OnErr result (arena.new ≡ arena.old) }
    ensures grows { OnOk result (length arena.new.bytes ≤ length arena.old.bytes + GROWTH_BOUND) }
    ensures stay { OnOk result (KeepsSizes (heap_of arena.old) (heap_of arena.new)) }
    ensures growth { (from : Node) → (path : List ℕ) → (l : LeadsTo arena.old.bytes from path reached.entry.node reached.entry.missing.now) →
        OnOk result (GrowsFor arena.old.bytes arena.new.bytes (made_sizes
        (record { bins = arena.old; root = l.here.root; tree = tree_in arena.old.bytes l.here.root }) l.here.path (path_of path)
        reached.entry.place)) }
    ensures kept { OnOk result (length arena.old.bytes ≤ length arena.new.bytes) }
{
    match make_keys(alloc, arena, reached, moment, None, None) {
        Ok(made) => Ok(made.node),
        Err(fault) => Err(fault),
    }
}

/// Makes the keys that were found missing on a path, the last with a descriptor of its own and each other one with its parent's, and
/// answers the last. It is first made as the others are, and then described. All cells are carved before the first key is made:
/// `Full`, `Memory`. After a fault the arena is as before, and the table finds what it found.
fn make_described(
    alloc: Global,
    arena: &mut Arena,
    securities: &mut SecurityTable,
    reached: Reached<'_>,
    descriptor: &[u8],
    moment: u64,
) -> Result<Node, ArenaFault>
    requires reached { (from : Node) × (path : List ℕ) × (l : LeadsTo arena.old.bytes from path reached.node reached.missing.now)
        × (l.here.table ≡ securities.old) × (are_too_many (tree_in arena.old.bytes l.here.root) l.here.path (path_of path) ≡ false) }
    requires place { BelongsFirst (heap_of arena.old) reached.node.offset (path_of reached.missing.now) reached.place }
    requires missing { reached.missing.now ≢ [] }
    requires descriptor { (1 ≤ length descriptor.now) × (length descriptor.now ≤ DESCRIPTOR_LIMIT) }
    ensures ok { (from : Node) → (path : List ℕ) → (l : LeadsTo arena.old.bytes from path reached.entry.node reached.entry.missing.now) →
        l.here.table ≡ securities.old → IfOk result (λ made.
        IsCreated arena.old.bytes arena.new.bytes l.here.root securities.new l.here.path from (path_of path) (Some descriptor.now) moment made) }
    ensures cells { (from : Node) → (path : List ℕ) → (l : LeadsTo arena.old.bytes from path reached.entry.node reached.entry.missing.now) →
        l.here.table ≡ securities.old → OnOk result (Makes (heap_of arena.old) (heap_of arena.new) (create_sizes
        (record { bins = arena.old; root = l.here.root; tree = tree_in arena.old.bytes l.here.root }) l.here.path (path_of path)
        reached.entry.place (Some descriptor.now))) }
    ensures table { OnErr result (KeepsFinds securities.old securities.new) }
    ensures full { (result ≡ Err ArenaFault.Full) → BINS_LIMIT < length arena.old.bytes + GROWTH_BOUND }
    ensures space { (from : Node) → (path : List ℕ) → (l : LeadsTo arena.old.bytes from path reached.entry.node reached.entry.missing.now) →
        l.here.table ≡ securities.old → IfErr result (λ fault. fault ≡ ArenaFault.Full → LacksRoom arena.old (create_sizes
        (record { bins = arena.old; root = l.here.root; tree = tree_in arena.old.bytes l.here.root }) l.here.path (path_of path)
        reached.entry.place (Some descriptor.now))) }
    ensures err { OnErr result (arena.new ≡ arena.old) }
    ensures grows { OnOk result (length arena.new.bytes ≤ length arena.old.bytes + GROWTH_BOUND) }
    ensures stay { OnOk result (KeepsSizes (heap_of arena.old) (heap_of arena.new)) }
    ensures growth { (from : Node) → (path : List ℕ) → (l : LeadsTo arena.old.bytes from path reached.entry.node reached.entry.missing.now) →
        l.here.table ≡ securities.old → OnOk result (GrowsFor arena.old.bytes arena.new.bytes (create_sizes
        (record { bins = arena.old; root = l.here.root; tree = tree_in arena.old.bytes l.here.root }) l.here.path (path_of path)
        reached.entry.place (Some descriptor.now))) }
    ensures kept { OnOk result (length arena.old.bytes ≤ length arena.new.bytes) }
{
    let Ok(size) = expect(alloc, securities, descriptor, None) else {
        return Err(ArenaFault::Memory);
    };
    let made = match make_keys(alloc, arena, reached, moment, None, size) {
        Ok(made) => made,
        Err(fault) => {
            forget(securities, size, descriptor);
            return Err(fault);
        }
    };
    describe(
        arena,
        securities,
        made.node.offset,
        made.security,
        descriptor,
        moment,
        None,
    );
    Ok(made.node)
}

/// Makes the keys that were found missing on a path, which are some and not too many, and answers the last: with the descriptor that
/// is given, or else with its parent's, as each other one. `Full`, `Memory`: then the arena is as before, and the table finds what it
/// found.
pub fn create_at(
    alloc: Global,
    arena: &mut Arena,
    securities: &mut SecurityTable,
    reached: Reached<'_>,
    given: Option<&[u8]>,
    moment: u64,
) -> Result<Node, ArenaFault>
    requires reached { (from : Node) × (path : List ℕ) × (l : LeadsTo arena.old.bytes from path reached.node reached.missing.now)
        × (l.here.table ≡ securities.old) × (are_too_many (tree_in arena.old.bytes l.here.root) l.here.path (path_of path) ≡ false) }
    requires place { BelongsFirst (heap_of arena.old) reached.node.offset (path_of reached.missing.now) reached.place }
    requires missing { reached.missing.now ≢ [] }
    requires given { IfSome given (λ descriptor. (1 ≤ length descriptor.now) × (length descriptor.now ≤ DESCRIPTOR_LIMIT)) }
    ensures ok { (from : Node) → (path : List ℕ) → (l : LeadsTo arena.old.bytes from path reached.entry.node reached.entry.missing.now) →
        l.here.table ≡ securities.old → IfOk result (λ made.
        IsCreated arena.old.bytes arena.new.bytes l.here.root securities.new l.here.path from (path_of path)
        (option_map (λ descriptor. descriptor.now) given.entry) moment made) }
    ensures cells { (from : Node) → (path : List ℕ) → (l : LeadsTo arena.old.bytes from path reached.entry.node reached.entry.missing.now) →
        l.here.table ≡ securities.old → OnOk result (Makes (heap_of arena.old) (heap_of arena.new) (create_sizes
        (record { bins = arena.old; root = l.here.root; tree = tree_in arena.old.bytes l.here.root }) l.here.path (path_of path)
        reached.entry.place (option_map (λ descriptor. descriptor.now) given.entry))) }
    ensures table { OnErr result (KeepsFinds securities.old securities.new) }
    ensures full { (result ≡ Err ArenaFault.Full) → BINS_LIMIT < length arena.old.bytes + GROWTH_BOUND }
    ensures space { (from : Node) → (path : List ℕ) → (l : LeadsTo arena.old.bytes from path reached.entry.node reached.entry.missing.now) →
        l.here.table ≡ securities.old → IfErr result (λ fault. fault ≡ ArenaFault.Full → LacksRoom arena.old (create_sizes
        (record { bins = arena.old; root = l.here.root; tree = tree_in arena.old.bytes l.here.root }) l.here.path (path_of path)
        reached.entry.place (option_map (λ descriptor. descriptor.now) given.entry))) }
    ensures err { OnErr result (arena.new ≡ arena.old) }
    ensures grows { OnOk result (length arena.new.bytes ≤ length arena.old.bytes + GROWTH_BOUND) }
    ensures stay { OnOk result (KeepsSizes (heap_of arena.old) (heap_of arena.new)) }
    ensures growth { (from : Node) → (path : List ℕ) → (l : LeadsTo arena.old.bytes from path reached.entry.node reached.entry.missing.now) →
        l.here.table ≡ securities.old → OnOk result (GrowsFor arena.old.bytes arena.new.bytes (create_sizes
        (record { bins = arena.old; root = l.here.root; tree = tree_in arena.old.bytes l.here.root }) l.here.path (path_of path)
        reached.entry.place (option_map (λ descriptor. descriptor.now) given.entry))) }
    ensures kept { OnOk result (length arena.old.bytes ≤ length arena.new.bytes) }
{
    match given {
        None => make_sharing(alloc, arena, reached, moment),
        Some(descriptor) => {
            make_described(alloc, arena, securities, reached, descriptor, moment)
        }
    }
}

/// Makes the keys of a path from a key on that are missing, and answers the last key and whether one was made; the last one made gets
/// the descriptor that is given, if one is: `Limit` by `is_limited`, `Full`, `Memory`. After a fault the arena is as before, and the
/// table finds what it found.
pub fn create(
    alloc: Global,
    arena: &mut Arena,
    securities: &mut SecurityTable,
    from: Node,
    path: &[u8],
    given: Option<&[u8]>,
    moment: u64,
) -> Result<Created, TreeFault>
    requires here { (t : IsHere arena.old.bytes from.offset) × (t.table ≡ securities.old) × (from.depth ≡ length t.path) }
    requires path { is_path path.now ≡ true }
    requires given { IfSome given (λ descriptor. (1 ≤ length descriptor.now) × (length descriptor.now ≤ DESCRIPTOR_LIMIT)) }
    ensures ok { (t : IsHere arena.old.bytes from.offset) → t.table ≡ securities.old → from.depth ≡ length t.path →
        IfOk result (λ made. IsCreated arena.old.bytes arena.new.bytes t.root securities.new t.path from
        (path_of path.now) (option_map (λ descriptor. descriptor.now) given.entry) moment made.node) }
    ensures new { (t : IsHere arena.old.bytes from.offset) →
        IfOk result (λ made. (made.is_new ≡ true)
        ↔ (missing (tree_in arena.old.bytes t.root) t.path (path_of path.now) ≢ [])) }
    ensures cells { (t : IsHere arena.old.bytes from.offset) → t.table ≡ securities.old → from.depth ≡ length t.path →
        OnOk result ((place : Place)
        × BelongsThere (record { bins = arena.old; root = t.root; tree = tree_in arena.old.bytes t.root }) t.path (path_of path.now) place
        × Makes (heap_of arena.old) (heap_of arena.new)
        (create_sizes (record { bins = arena.old; root = t.root; tree = tree_in arena.old.bytes t.root }) t.path (path_of path.now) place
        (option_map (λ descriptor. descriptor.now) given.entry))
        × GrowsFor arena.old.bytes arena.new.bytes
        (create_sizes (record { bins = arena.old; root = t.root; tree = tree_in arena.old.bytes t.root }) t.path (path_of path.now) place
        (option_map (λ descriptor. descriptor.now) given.entry))) }
    ensures same { IfOk result (λ made. made.is_new ≡ false → arena.new ≡ arena.old) }
    ensures limit { (t : IsHere arena.old.bytes from.offset) → from.depth ≡ length t.path →
        ((result ≡ Err TreeFault.Limit) ↔ AreTooMany (tree_in arena.old.bytes t.root) t.path (path_of path.now)) }
    ensures full { (result ≡ Err TreeFault.Full) → BINS_LIMIT < length arena.old.bytes + GROWTH_BOUND }
    ensures space { (t : IsHere arena.old.bytes from.offset) → t.table ≡ securities.old → from.depth ≡ length t.path →
        IfErr result (λ fault. fault ≡ TreeFault.Full → (place : Place)
        × BelongsThere (record { bins = arena.old; root = t.root; tree = tree_in arena.old.bytes t.root }) t.path (path_of path.now) place
        × LacksRoom arena.old
        (create_sizes (record { bins = arena.old; root = t.root; tree = tree_in arena.old.bytes t.root }) t.path (path_of path.now) place
        (option_map (λ descriptor. descriptor.now) given.entry))) }
    ensures others { IfErr result (λ fault. (fault ≡ TreeFault.Limit) ⊎ ((fault ≡ TreeFault.Full) ⊎ (fault ≡ TreeFault.Memory))) }
    ensures err { OnErr result (arena.new ≡ arena.old) }
    ensures table { OnErr result (KeepsFinds securities.old securities.new) }
    ensures grows { OnOk result (length arena.new.bytes ≤ length arena.old.bytes + GROWTH_BOUND) }
    ensures kept { OnOk result (length arena.old.bytes ≤ length arena.new.bytes) }
{
    let reached = reach(arena, from, path);
    if reached.missing.is_empty() {
        return Ok(Created {
            node: reached.node,
            is_new: false,
        });
    }
    if is_limited(arena, reached) {
        return Err(TreeFault::Limit);
    }
    match create_at(alloc, arena, securities, reached, given, moment) {
        Ok(node) => Ok(Created { node, is_new: true }),
        Err(fault) => Err(TreeFault::from(fault)),
    }
}
