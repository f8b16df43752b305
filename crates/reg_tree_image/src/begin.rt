//! A key that the walk comes to: named and read, and built in the new tree.
//!
//! Suhanov, Windows registry file format specification, section "Key node".

ghost use Rattle.std.specs.Prelude.{◌≡◌, ◌+◌, ◌<◌, ℕ, List, [], length, None, OnOk, IfOk, MatchResult, suc};
ghost use Rattle.std.specs.Cow.{cow_slice_items};
ghost use Rattle.std.specs.FinMap.{get};
ghost use Rattle.reg_names.specs.declared.TheConstants.{PATH_LIMIT};
ghost use Rattle.reg_heap.specs.declared.limits.TheConstants.{SUBKEYS_LIMIT};
ghost use Rattle.reg_heap.specs.Paths.{Path, children_of};
ghost use Rattle.reg_heap.specs.Edits.{child_path};
ghost use Rattle.reg_arena.specs.Cells.{cell_at};
ghost use Rattle.reg_heap.specs.Heaps.{Heap};
ghost use Rattle.reg_tree.specs.Reaching.{IsWalkedTo};
ghost use Rattle.reg_tree.specs.TreeKeys.{IsAt, IsThere, KeepsNodes};
ghost use Rattle.reg_tree_image.specs.WalkSteps.{Seen};
ghost use Rattle.reg_tree_image.specs.LoadingWalk.{head_from, key_from, named_key as named_step, root_path};
ghost use Rattle.reg_tree_image.specs.Images.{nothing, tree_told};
ghost use Rattle.reg_tree_image.specs.declared.table.CellState.{CellState};
ghost use Rattle.reg_tree_image.specs.Internal.CellStates.{IsTable, unnamed};
ghost use Rattle.reg_tree_image.specs.Internal.FitKeys.{IsFitName};
ghost use Rattle.reg_tree_image.specs.Internal.BegunKeys.{Stops};
ghost use Rattle.reg_tree_image.specs.Internal.NamedRecords.{key_of};
ghost use Rattle.reg_tree_image.specs.Internal.ReaderOutcomes.{IsDone};
ghost use Rattle.reg_tree_image.specs.CrowdedBins.{BuildsAll};
ghost use Rattle.reg_tree_image.specs.Internal.FirstUses.{AreFirst};
ghost use Rattle.reg_tree_image.specs.Internal.Stacks.{Begins, IsBegun, IsReadAt, IsRootCrowded, FailsAs};

use crate::LoadFault;
use crate::built_keys::build_root;
use crate::first_keys::{FirstKeys, build_sharing};
use crate::frames::KeyFrame;
use crate::key_parts::enter_key;
use crate::keys::{NamedKey, named_key};
use crate::room::{Building, Room, make_list_room};
use crate::subkeys::subkeys_from;
use crate::table::{CellState, CellTable};
use reg_names::PATH_LIMIT;
use reg_tree::{Node, Reached, Tree};

/// A tree of the root alone, and the root on the present path.
#[derive(Drop)]
pub struct BegunRoot<'a> {
    pub tree: Tree,
    pub key: KeyFrame<'a>,
}

/// Where a key that was named belongs below another one, which has none of its name: `Twice` where it has one, `Limit` where 512 names
/// lead to the other one. The tree has the keys that were told so far.
fn reach_below<'n>(
    tree: &Tree,
    above: Node,
    named: &'n NamedKey<'_>,
) -> Result<Reached<'n>, LoadFault>
    requires above { IsThere tree.now above }
    requires named { IsFitName named.now }
    ensures heads { (heap : Heap) → (levels : ℕ) → (path : List ℕ) → (at : Path) → (offset : ℕ) → (seen : Seen) → (states : List CellState) →
        IsDone heap path (named_step heap path offset) seen (key_of named.now) states →
        tree.now.tree ≡ tree_told seen → IsAt tree.now at above → levels + above.depth ≡ PATH_LIMIT →
        MatchResult result (λ _. IsDone heap path (head_from heap path (child_path at) offset) seen (key_of named.now) states)
        (λ fault. Stops levels fault (head_from heap path (child_path at) offset seen)) }
    ensures walked { IfOk result (λ reached. IsWalkedTo tree.now above (cow_slice_items named.now.name) reached) }
    ensures free { OnOk result ((p : Path) → IsAt tree.now p above → get tree.now.tree (child_path p (cow_slice_items named.now.name)) ≡ None) }
    ensures shallow { OnOk result (above.depth < PATH_LIMIT) }
{
    let reached = tree.reach(above, named.name.as_slice());
    if reached.missing.is_empty() {
        return Err(LoadFault::Twice);
    }
    if above.depth as usize >= PATH_LIMIT {
        return Err(LoadFault::Limit);
    }
    Ok(reached)
}

/// Names the root and reads its record, class, security and values, of which a tree is built; then the list of its subkeys.
pub fn begin_root<'a>(
    building: Building,
    bins: &'a [u8],
    minor: u32,
    table: &mut CellTable,
    offset: u32,
    room: &mut Room,
) -> Result<BegunRoot<'a>, LoadFault>
    requires { IsTable (cell_at bins.now) nothing.found [] table.old.states.items }
    ensures begins { MatchResult result
        (λ root. IsBegun building.ahead (cell_at bins.now) minor (suc PATH_LIMIT) [] root_path offset nothing table.new.states.items root.tree root.key)
        (λ fault. FailsAs (IsRootCrowded building.ahead (cell_at bins.now) minor offset) fault
        (key_from (cell_at bins.now) minor (suc PATH_LIMIT) [] root_path offset nothing)) }
    ensures fewer { OnOk result (unnamed table.new.states.items < unnamed table.old.states.items) }
{
    let named = named_key(building.alloc, bins, table, offset)?;
    let mut failed = 0;
    let parts = enter_key(
        building.alloc,
        bins,
        table,
        minor,
        offset,
        &named.node.fields,
        &mut failed,
    )?;
    let tree = build_root(building, &named, &parts, room)?;
    let fields = named.node.fields;
    let subkeys = subkeys_from(bins, table, fields.subkeys, fields.subkeys_list)?;
    let key = KeyFrame {
        offset,
        node: tree.root(),
        count: 0,
        leaf: subkeys.leaf,
        lists: subkeys.lists,
    };
    Ok(BegunRoot { tree, key })
}

/// Names a key below another one and reads its record, class, security and values, of which it is built in the tree; then the list of
/// its subkeys. The tree has the keys that were told so far, and the first of them with each security are known.
pub fn begin_key<'a>(
    building: Building,
    bins: &'a [u8],
    minor: u32,
    table: &mut CellTable,
    tree: &mut Tree,
    above: KeyFrame<'a>,
    offset: u32,
    firsts: &mut FirstKeys,
    room: &mut Room,
) -> Result<KeyFrame<'a>, LoadFault>
    requires above { IsThere tree.old above.node }
    requires few { (p : Path) × IsAt tree.old p above.node × (length (children_of tree.old.tree p) < SUBKEYS_LIMIT) }
    requires read { IsReadAt (cell_at bins.now) table.old.states.items tree.old above.node }
    requires firsts { AreFirst (cell_at bins.now) tree.old firsts.old }
    ensures begins { (levels : ℕ) → (path : List ℕ) → (at : Path) → (seen : Seen) → IsTable (cell_at bins.now) seen.found path table.old.states.items →
        tree.old.tree ≡ tree_told seen → BuildsAll building.ahead seen.told tree.old → IsAt tree.old at above.entry.node → levels + above.entry.node.depth ≡ PATH_LIMIT →
        Begins building.ahead (cell_at bins.now) minor levels path (child_path at) offset seen table.new.states.items tree.new result }
    ensures nodes { OnOk result (KeepsNodes tree.old tree.new) }
    ensures firsts { OnOk result (AreFirst (cell_at bins.now) tree.new firsts.new) }
    ensures fewer { OnOk result (unnamed table.new.states.items < unnamed table.old.states.items) }
{
    // This one and those that are left of its list.
    let more = above.leaf.left().saturating_add(1);
    let begins = above.leaf.taken == 1;
    make_list_room(building, tree, room, above.node, more, begins);
    // Only for its clauses `tree` and `one_path`: what isn't there has nothing below it, and the node is that of one key.
    let _ = tree.root();
    let named = named_key(building.alloc, bins, table, offset)?;
    let reached = reach_below(tree, above.node, &named)?;
    let met = table.state(named.node.fields.security) == CellState::NamedSecurity;
    let mut failed = 0;
    let parts = enter_key(
        building.alloc,
        bins,
        table,
        minor,
        offset,
        &named.node.fields,
        &mut failed,
    )?;
    let node = build_sharing(
        building, tree, above.node, reached, &named, &parts, met, firsts, room,
    )?;
    let fields = named.node.fields;
    let subkeys = subkeys_from(bins, table, fields.subkeys, fields.subkeys_list)?;
    Ok(KeyFrame {
        offset,
        node,
        count: 0,
        leaf: subkeys.leaf,
        lists: subkeys.lists,
    })
}
