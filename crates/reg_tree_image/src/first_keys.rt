//! The first keys that are built with the securities of an image, so that later ones share these without a search.

ghost use Rattle.std.specs.Prelude.{◌≡◌, ◌<◌, ℕ, None, Some, length, OnOk, IfOk, IfErr, if◌then◌else◌};
ghost use Rattle.std.specs.Cow.{cow_slice_items};
ghost use Rattle.std.specs.FinMap.{get, insert};
ghost use Rattle.reg_names.specs.declared.TheConstants.{PATH_LIMIT};
ghost use Rattle.reg_heap.specs.declared.limits.TheConstants.{SUBKEYS_LIMIT};
ghost use Rattle.reg_heap.specs.Paths.{Path, children_of};
ghost use Rattle.reg_heap.specs.Heaps.{Heap};
ghost use Rattle.reg_heap.specs.Edits.{child_path};
ghost use Rattle.reg_shape.specs.Whole.{descriptor_at};
ghost use Rattle.reg_tree.specs.Reaching.{IsWalkedTo};
ghost use Rattle.reg_tree.specs.TreeKeys.{IsAt, IsThere, KeepsNodes};
ghost use Rattle.reg_tree_image.specs.CrowdedBins.{BuildsHere, CrowdsInRoom};
ghost use Rattle.reg_tree_image.specs.Internal.FitKeys.{IsFitName, AreFitParts};
ghost use Rattle.reg_tree_image.specs.Internal.BegunKeys.{IsLack, told_as};
ghost use Rattle.reg_tree_image.specs.Internal.FirstUses.{AreFirst, Notes, first_with};

use crate::LoadFault;
use crate::built_keys::build_below;
use crate::key_parts::KeyParts;
use crate::keys::NamedKey;
use crate::room::{Building, Room};
use reg_tree::{Node, Reached, Tree};
use std::alloc::Global;
use std::collections::BTreeMap;

/// For the securities of an image, by their offsets: the first key below the root that was built with each.
#[derive(Drop)]
pub struct FirstKeys {
    pub nodes: BTreeMap<u32, Node>,
}

impl FirstKeys {
    /// No keys.
    pub fn new(alloc: Global) -> FirstKeys
        ensures { (security : ℕ) → first_with result security ≡ None }
    {
        FirstKeys {
            nodes: BTreeMap::new(alloc),
        }
    }

    /// The first key with the security at an offset, if one is noted and the security was met before; else none is looked for.
    pub fn find(&self, security: u32, met: bool) -> Option<Node>
        ensures { result ≡ (if met then first_with self.now security else None) }
    {
        if !met {
            return None;
        }
        match self.nodes.get(&security) {
            Some(node) => Some(*node),
            None => None,
        }
    }

    /// Notes a key as the first with the security at an offset. Its one fault is `Memory`.
    pub fn note(&mut self, security: u32, node: Node) -> Result<(), LoadFault>
        ensures ok { OnOk result (Notes self.old security node self.new) }
        ensures err { IfErr result (λ fault. fault ≡ LoadFault.Memory) }
    {
        match self.nodes.insert(security, node) {
            Ok(_) => Ok(()),
            Err(_) => Err(LoadFault::Memory),
        }
    }
}

/// Builds a key that was read below another one, as `build_below` does. The first key that was built with its security shares that with
/// it, so that the descriptor isn't looked for again; where none was, it is the first. It is told whether the security was met before.
pub fn build_sharing(
    building: Building,
    tree: &mut Tree,
    above: Node,
    reached: Reached<'_>,
    named: &NamedKey<'_>,
    parts: &KeyParts<'_>,
    met: bool,
    firsts: &mut FirstKeys,
    room: &mut Room,
) -> Result<Node, LoadFault>
    requires above { IsThere tree.old above }
    requires reached { IsWalkedTo tree.old above (cow_slice_items named.now.name) reached }
    requires named { IsFitName named.now }
    requires parts { AreFitParts parts.now }
    requires free { (p : Path) → IsAt tree.old p above → get tree.old.tree (child_path p (cow_slice_items named.now.name)) ≡ None }
    requires shallow { above.depth < PATH_LIMIT }
    requires few { (p : Path) → IsAt tree.old p above → length (children_of tree.old.tree p) < SUBKEYS_LIMIT }
    requires firsts { (heap : Heap) × AreFirst heap tree.old firsts.old
        × (descriptor_at heap named.now.node.fields.security ≡ Some parts.now.descriptor.now) }
    ensures ok { (p : Path) → IsAt tree.old p above → IfOk result (λ node.
        (tree.new.tree ≡ insert tree.old.tree (child_path p (cow_slice_items named.now.name)) (told_as named.now parts.now))
        × IsAt tree.new (child_path p (cow_slice_items named.now.name)) node) }
    ensures nodes { OnOk result (KeepsNodes tree.old tree.new) }
    ensures builds { (p : Path) → IsAt tree.old p above → OnOk result (BuildsHere building.ahead tree.old tree.new p (told_as named.now parts.now)) }
    ensures err { (p : Path) → IsAt tree.old p above → IfErr result (IsLack (CrowdsInRoom building.ahead tree.old p (told_as named.now parts.now))) }
    ensures firsts { (heap : Heap) → AreFirst heap tree.old firsts.old →
        descriptor_at heap named.now.node.fields.security ≡ Some parts.now.descriptor.now → OnOk result (AreFirst heap tree.new firsts.new) }
{
    let security = named.node.fields.security;
    let like = firsts.find(security, met);
    let node = build_below(building, tree, above, reached, named, parts, like, room)?;
    if like.is_some() {
        return Ok(node);
    }
    firsts.note(security, node)?;
    Ok(node)
}
