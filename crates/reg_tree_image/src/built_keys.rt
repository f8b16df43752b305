//! Keys that were read, built in the new tree.

ghost use Rattle.std.specs.Prelude.{◌≡◌, ◌<◌, ◌≤◌, ◌++◌, None, bit_and, ℕ, List, [], length, OnOk, IfOk, IfErr, IfSome};
ghost use Rattle.std.specs.Cow.{cow_slice_items};
ghost use Rattle.std.specs.FinMap.{empty, get, insert};
ghost use Rattle.reg_names.specs.declared.TheConstants.{PATH_LIMIT};
ghost use Rattle.reg_heap.specs.declared.limits.TheConstants.{SUBKEYS_LIMIT, VALUES_LIMIT};
ghost use Rattle.reg_heap.specs.Paths.{Path, Tree as KeyTree, Rec, Member, children_of};
ghost use Rattle.reg_heap.specs.Edits.{child_path, descriptor_of, edited, values_at};
ghost use Rattle.reg_heap.specs.Trees.{IsSmallKey};
ghost use Rattle.reg_arena.specs.declared.TheConstants.{CARVE_LIMIT};
ghost use Rattle.reg_arena.specs.Arena.{heap_of};
ghost use Rattle.reg_shape.specs.Spelt.{marks_of};
ghost use Rattle.reg_values.specs.NewValues.{all_told, all_value_sizes, each_value_sizes};
ghost use Rattle.reg_tree.specs.BuiltKeys.{built_key};
ghost use Rattle.reg_tree.specs.CellSizes.{LacksRoom};
ghost use Rattle.reg_tree.specs.MoreValues.{with_more_values, HasListRoom, MayExtend};
ghost use Rattle.reg_tree.specs.Reaching.{IsWalkedTo};
ghost use Rattle.reg_tree.specs.TreeKeys.{IsAt, IsThere, KeepsNodes};
ghost use Rattle.reg_tree_image.specs.Internal.NamedRecords.{members_in};
ghost use Rattle.reg_tree_image.specs.Internal.FitKeys.{IsFitName, AreFit, AreFitParts};
ghost use Rattle.reg_tree_image.specs.CrowdedBins.{BuildsFirst, BuildsHere, CrowdsInRoom, CrowdsRoot};
ghost use Rattle.reg_tree_image.specs.CrowdedBins.{bytes_taken, more_bytes_taken, CrowdsGroups, CrowdsValues, PutsAll, PutsGroups, PutsMore, PutsValues};
ghost use Rattle.reg_tree_image.specs.Internal.BegunKeys.{IsBare, IsBegun, IsLack, lack_of, told_as};

use crate::LoadFault;
use crate::key_parts::KeyParts;
use crate::keys::NamedKey;
use crate::room::{Building, Room, key_bytes, make_key_room, make_root_room, values_bytes};
use crate::values::ReadValue;
use reg_arena::ArenaFault;
use reg_tree::{NewKey, NewValue, Node, Reached, Tree};
use reg_values::{front_of_one_carve, front_of_one_more_carve};
use std::alloc::{AllocError, Global};

/// What was lacking.
fn lack(fault: ArenaFault) -> LoadFault
    ensures { result ≡ lack_of fault }
{
    match fault {
        ArenaFault::Full => LoadFault::Limit,
        ArenaFault::Memory => LoadFault::Memory,
    }
}

/// The marks among a key node's flags: all but volatile, hive exit, hive entry and the form of the name.
fn marks(flags: u16) -> u16
    requires { bit_and flags 64 ≡ 0 }
    ensures is { result ≡ marks_of flags }
    ensures free { bit_and result 103 ≡ 0 }
{
    flags & 0xFFD8
}

/// A key without its values, as it is to be built.
fn new_key<'a>(named: &'a NamedKey<'_>, parts: &'a KeyParts<'_>) -> NewKey<'a>
    requires named { IsFitName named.now }
    requires parts { AreFitParts parts.now }
    ensures built { built_key result ≡ record (told_as named.now parts.now) { values = [] } }
    ensures small { IsSmallKey (built_key result) }
{
    NewKey {
        name: named.name.as_slice(),
        marks: marks(named.node.fields.flags),
        class: parts.class,
        descriptor: parts.descriptor,
        time: named.node.fields.time,
    }
}

/// Puts values behind those that a key has, in their order, all at once. The key's list has room for them, and the key keeps its
/// time, which is given.
fn put_more(
    alloc: Global,
    tree: &mut Tree,
    node: Node,
    values: &[NewValue<'_>],
    time: u64,
) -> Result<(), LoadFault>
    requires more { (p : Path) × IsAt tree.old p node
        × MayExtend (heap_of tree.old.bins) node.offset (values_at tree.old.tree p) (all_told values.now) }
    requires fits { more_bytes_taken (all_told values.now) ≤ CARVE_LIMIT }
    ensures ok { (p : Path) → IsAt tree.old p node →
        OnOk result (tree.new.tree ≡ edited tree.old.tree p (with_more_values (all_told values.now) time)) }
    ensures nodes { OnOk result (KeepsNodes tree.old tree.new) }
    ensures room { (room : ℕ) → HasListRoom (heap_of tree.old.bins) node.offset room →
        OnOk result (HasListRoom (heap_of tree.new.bins) node.offset room) }
    ensures puts { (p : Path) → IsAt tree.old p node → OnOk result (PutsMore tree.old tree.new p time (all_told values.now)) }
    ensures err { IfErr result (IsLack (LacksRoom tree.old.bins (each_value_sizes (all_told values.now)))) }
{
    // Only for its clause `one_path`: the node is that of one key.
    let _ = tree.root();
    match tree.extend_values(alloc, node, values, time) {
        Ok(()) => {
            // Only for its clauses `whole` and `sound`.
            let _ = tree.arena();
            Ok(())
        }
        Err(fault) => Err(lack(fault)),
    }
}

/// Puts values behind those that a key has, in their order, in groups, each as large as one carve may take the cells of. The key's
/// list has room for all of them, and the key keeps its time, which is given.
fn put_groups(
    alloc: Global,
    tree: &mut Tree,
    node: Node,
    values: &[NewValue<'_>],
    time: u64,
) -> Result<(), LoadFault>
    requires begun { IsBegun tree.old node time (all_told values.now) }
    ensures ok { (p : Path) → IsAt tree.old p node → (base : KeyTree) → (r : Rec) → tree.old.tree ≡ insert base p r →
        r.time ≡ time → OnOk result (tree.new.tree ≡ insert base p (record r { values = r.values ++ all_told values.now })) }
    ensures nodes { OnOk result (KeepsNodes tree.old tree.new) }
    ensures puts { (p : Path) → IsAt tree.old p node →
        OnOk result ((groups : List (List Member)) × PutsGroups p time groups (all_told values.now) [] tree.old tree.new) }
    ensures err { (p : Path) → IsAt tree.old p node → IfErr result (IsLack (CrowdsGroups tree.old p time (all_told values.now))) }
{
    let mut from = 0;
    while from < values.len() {
        let rest = &values[from..];
        let count = front_of_one_more_carve(rest);
        put_more(alloc, tree, node, &rest[..count], time)?;
        from += count;
    }
    Ok(())
}

/// Puts values as all that a key has that was built with none, in their order, all at once and with a list that has room for so many.
/// The key keeps its time, which is given.
fn put_all(
    alloc: Global,
    tree: &mut Tree,
    node: Node,
    values: &[NewValue<'_>],
    room: usize,
    time: u64,
) -> Result<(), LoadFault>
    requires values { AreFit (all_told values.now) }
    requires room { length values.now ≤ room }
    requires few { room ≤ VALUES_LIMIT }
    requires fits { bytes_taken room (all_told values.now) ≤ CARVE_LIMIT }
    requires bare { IsBare tree.old node time }
    ensures ok { (p : Path) → IsAt tree.old p node → (base : KeyTree) → (r : Rec) → tree.old.tree ≡ insert base p r →
        r.values ≡ [] → r.time ≡ time → OnOk result (tree.new.tree ≡ insert base p (record r { values = all_told values.now })) }
    ensures nodes { OnOk result (KeepsNodes tree.old tree.new) }
    ensures room { OnOk result (0 < length values.now → HasListRoom (heap_of tree.new.bins) node.offset room) }
    ensures puts { (p : Path) → IsAt tree.old p node → OnOk result (PutsAll tree.old tree.new p time room (all_told values.now)) }
    ensures err { IfErr result (IsLack (LacksRoom tree.old.bins (all_value_sizes room (all_told values.now)))) }
{
    // Only for its clause `one_path`: the node is that of one key.
    let _ = tree.root();
    match tree.build_values(alloc, node, values, room, time) {
        Ok(()) => {
            // Only for its clauses `whole` and `sound`.
            let _ = tree.arena();
            Ok(())
        }
        Err(fault) => Err(lack(fault)),
    }
}

/// Values that were read, as they are to be built.
fn new_values<'a>(alloc: Global, values: &'a [ReadValue]) -> Result<Vec<NewValue<'a>>, AllocError>
    ensures { IfOk result (λ told. all_told told.items ≡ members_in values.now) }
{
    let mut told = Vec::with_capacity(alloc, values.len())?;
    for value in values {
        told.push(NewValue {
            name: value.name.as_slice(),
            kind: value.kind,
            bytes: value.bytes.as_slice(),
        })?;
    }
    Ok(told)
}

/// Puts the values of a key that was built with none, in their order: at once as many as one carve may take the cells of, with a list
/// that has room for all, and the others in groups, so that the list never moves. The key keeps its time, which is given.
fn put_values(
    alloc: Global,
    tree: &mut Tree,
    node: Node,
    values: &[ReadValue<'_>],
    time: u64,
) -> Result<(), LoadFault>
    requires values { AreFit (members_in values.now) }
    requires bare { IsBare tree.old node time }
    ensures ok { (p : Path) → IsAt tree.old p node → (base : KeyTree) → (r : Rec) → tree.old.tree ≡ insert base p r →
        r.values ≡ [] → r.time ≡ time → OnOk result (tree.new.tree ≡ insert base p (record r { values = members_in values.now })) }
    ensures nodes { OnOk result (KeepsNodes tree.old tree.new) }
    ensures puts { (p : Path) → IsAt tree.old p node → OnOk result (PutsValues p time (members_in values.now) tree.old tree.new) }
    ensures err { (p : Path) → IsAt tree.old p node → IfErr result (IsLack (CrowdsValues tree.old p time (members_in values.now))) }
{
    if values.is_empty() {
        return Ok(());
    }
    let Ok(told) = new_values(alloc, values) else {
        return Err(LoadFault::Memory);
    };
    let all = told.as_slice();
    let count = front_of_one_carve(all);
    put_all(alloc, tree, node, &all[..count], all.len(), time)?;
    put_groups(alloc, tree, node, &all[count..], time)
}

/// Builds a tree of a root that was read.
pub fn build_root(
    building: Building,
    named: &NamedKey<'_>,
    parts: &KeyParts<'_>,
    room: &mut Room,
) -> Result<Tree, LoadFault>
    requires named { IsFitName named.now }
    requires parts { AreFitParts parts.now }
    ensures ok { IfOk result (λ tree. tree.tree ≡ insert empty [] (told_as named.now parts.now)) }
    ensures builds { IfOk result (λ tree. BuildsFirst building.ahead tree (told_as named.now parts.now)) }
    ensures err { IfErr result (IsLack (CrowdsRoot building.ahead (told_as named.now parts.now))) }
{
    let Ok(mut tree) = Tree::build(building.alloc, new_key(named, parts)) else {
        return Err(LoadFault::Memory);
    };
    // The call of `arena` is also for its clauses `whole` and `sound`.
    room.begin(key_bytes(named, parts, false), tree.arena());
    let values = parts.values.as_slice();
    make_root_room(building, &mut tree, room, values);
    let root = tree.root();
    put_values(
        building.alloc,
        &mut tree,
        root,
        values,
        named.node.fields.time,
    )?;
    Ok(tree)
}

/// Builds a key that was read below another one, which has none of its name, as was found from there on, and fewer than 60,000 subkeys. A
/// key that is there and has the same descriptor may be told, whose security it shares.
pub fn build_below(
    building: Building,
    tree: &mut Tree,
    above: Node,
    reached: Reached<'_>,
    named: &NamedKey<'_>,
    parts: &KeyParts<'_>,
    like: Option<Node>,
    room: &mut Room,
) -> Result<Node, LoadFault>
    requires above { IsThere tree.old above }
    requires reached { IsWalkedTo tree.old above (cow_slice_items named.now.name) reached }
    requires named { IsFitName named.now }
    requires parts { AreFitParts parts.now }
    requires free { (p : Path) → IsAt tree.old p above → get tree.old.tree (child_path p (cow_slice_items named.now.name)) ≡ None }
    requires shallow { above.depth < PATH_LIMIT }
    requires few { (p : Path) → IsAt tree.old p above → length (children_of tree.old.tree p) < SUBKEYS_LIMIT }
    requires like { IfSome like (λ node. (q : Path) × IsAt tree.old q node
        × (descriptor_of (get tree.old.tree q) ≡ parts.now.descriptor.now)) }
    ensures ok { (p : Path) → IsAt tree.old p above → IfOk result (λ node.
        (tree.new.tree ≡ insert tree.old.tree (child_path p (cow_slice_items named.now.name)) (told_as named.now parts.now))
        × IsAt tree.new (child_path p (cow_slice_items named.now.name)) node) }
    ensures nodes { OnOk result (KeepsNodes tree.old tree.new) }
    ensures builds { (p : Path) → IsAt tree.old p above → OnOk result (BuildsHere building.ahead tree.old tree.new p (told_as named.now parts.now)) }
    ensures err { (p : Path) → IsAt tree.old p above → IfErr result (IsLack (CrowdsInRoom building.ahead tree.old p (told_as named.now parts.now))) }
{
    let values = parts.values.as_slice();
    let own = key_bytes(named, parts, like.is_some());
    make_key_room(building, tree, room, above, own, values_bytes(values));
    let time = named.node.fields.time;
    match tree.build_key(building.alloc, above, reached, new_key(named, parts), like) {
        Ok(node) => {
            // Only for its clauses `whole` and `sound`.
            let _ = tree.arena();
            put_values(building.alloc, tree, node, values, time)?;
            Ok(node)
        }
        Err(fault) => Err(lack(fault)),
    }
}
