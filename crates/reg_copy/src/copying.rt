//! A key with all below it, gone over and copied.
ghost use Rattle.std.specs.Prelude.{◌≡◌, ◌⊎◌, ◌+◌, ◌∷◌, [], ℕ, true, reverse, bit_and, is_some, length, ◌<◌, Some, Err, OnOk, IfErr};
ghost use Rattle.std.specs.FinMap.{get};
ghost use Rattle.reg_names.specs.Names.{is_key_name};
ghost use Rattle.reg_heap.specs.declared.limits.TheConstants.{BINS_LIMIT, GROWTH_BOUND};
ghost use Rattle.reg_heap.specs.Paths.{Path, Tree as Map, Rec};
ghost use Rattle.reg_heap.specs.Edits.{child_path, edited, at_time};
ghost use Rattle.reg_tree.specs.TreeKeys.{IsAt, IsThere, KeepsNodes};
ghost use Rattle.reg_tree.specs.SubkeyWalk.{IsSubkeyAt};
ghost use Rattle.reg_copy.specs.Copies.{copy_of, IsCopied, CopyStops, IsEarly};
ghost use Rattle.reg_copy.specs.Internal.Copying.{IsAmid, IsNoted, IsStopped, IsHalted};

use crate::CopyFault;
use crate::keys::{copy_key, fault_of};
use reg_tree::{Node, Subkey, Tree};
use reg_tree_text::find_key;
use std::alloc::{AllocError, Global};

/// A key of the source and its copy; its subkeys from one on are still to be copied.
#[derive(Clone, Copy, Debug)]
pub struct Pending {
    /// The key.
    pub source: Node,
    /// Its copy.
    pub copy: Node,
    /// The next of its subkeys.
    pub subkey: Subkey,
}

/// Notes the first subkey of a key as pending, if there is one.
fn note_first(
    source: &Tree,
    node: Node,
    copy: Node,
    pending: &mut Vec<Pending>,
) -> Result<(), AllocError>
    requires { IsThere source.now node }
    ensures { (p : Path) → IsAt source.now p node → OnOk result (IsNoted source.now p node copy 0 pending.old.items pending.new.items) }
{
    if let Some(subkey) = source.first_subkey(node) {
        let source = node;
        pending.push(Pending {
            source,
            copy,
            subkey,
        })?;
    }
    Ok(())
}

/// Notes the subkey behind a pending one as pending, if there is one.
fn note_next(source: &Tree, last: Pending, pending: &mut Vec<Pending>) -> Result<(), AllocError>
    requires { (p : Path) × (index : ℕ) × IsAt source.now p last.source × IsSubkeyAt source.now p last.source index last.subkey }
    ensures { (p : Path) → (index : ℕ) → IsAt source.now p last.source → IsSubkeyAt source.now p last.source index last.subkey →
        OnOk result (IsNoted source.now p last.source last.copy (index + 1) pending.old.items pending.new.items) }
{
    if let Some(subkey) = source.next_subkey(last.source, last.subkey) {
        pending.push(Pending { subkey, ..last })?;
    }
    Ok(())
}

/// Copies a pending subkey, and notes those behind it and those below it as pending.
fn step(
    alloc: Global,
    source: &Tree,
    target: &mut Tree,
    pending: &mut Vec<Pending>,
    next: Pending,
) -> Result<(), CopyFault>
    requires { (from to : Path) × (old : Map) × IsAmid source.now target.old from to old (next ∷ reverse pending.old.items) }
    ensures ok { (from to : Path) → (old : Map) → IsAmid source.now target.old from to old (next ∷ reverse pending.old.items) →
        OnOk result (IsAmid source.now target.new from to old (reverse pending.new.items)) }
    ensures nodes { OnOk result (KeepsNodes target.old target.new) }
    ensures err { (from to : Path) → (old : Map) → IsAmid source.now target.old from to old (next ∷ reverse pending.old.items) →
        IfErr result (λ fault. IsStopped fault source.now.tree from to) }
    ensures full { (result ≡ Err CopyFault.Full) → BINS_LIMIT < length target.new.bins.bytes + GROWTH_BOUND }
{
    // What is true of both trees' keys, as this call's contract says.
    let _roots = (source.root(), target.root());
    note_next(source, next, pending)?;
    let node = next.subkey.node;
    let marks = source.marks(node);
    let copy = copy_key(alloc, source, node, marks, target, next.copy)?;
    note_first(source, node, copy, pending)?;
    Ok(())
}

/// Copies all that is pending.
fn copy_pending(
    alloc: Global,
    source: &Tree,
    target: &mut Tree,
    pending: &mut Vec<Pending>,
) -> Result<(), CopyFault>
    requires { (from to : Path) × (old : Map) × IsAmid source.now target.old from to old (reverse pending.old.items) }
    ensures ok { (from to : Path) → (old : Map) → IsAmid source.now target.old from to old (reverse pending.old.items) →
        OnOk result (IsAmid source.now target.new from to old []) }
    ensures nodes { OnOk result (KeepsNodes target.old target.new) }
    ensures err { (from to : Path) → (old : Map) → IsAmid source.now target.old from to old (reverse pending.old.items) →
        IfErr result (λ fault. IsStopped fault source.now.tree from to) }
    ensures full { (result ≡ Err CopyFault.Full) → BINS_LIMIT < length target.new.bins.bytes + GROWTH_BOUND }
{
    // No tree has so many keys: the bound only shows that this ends.
    for _key in 0..u64::MAX {
        let Some(next) = pending.pop() else {
            return Ok(());
        };
        step(alloc, source, target, pending, next)?;
    }
    Err(CopyFault::Memory)
}

/// The marks of a key that its copy has: none of the root's.
fn marks_of(source: &Tree, node: Node) -> u16
    requires { IsThere source.now node }
    ensures small { bit_and result 103 ≡ 0 }
    ensures same { (p : Path) → (r : Rec) → IsAt source.now p node → get source.now.tree p ≡ Some r → copy_of p r ≡ record r { marks = result } }
{
    // What is true of a tree's keys, and that there is this one, as these calls' contracts say.
    let _root = source.root();
    let _name = source.name(node);
    if node.depth == 0 {
        return 0;
    }
    source.marks(node)
}

/// Copies a key with all below it right below a key that has none of its name.
fn copy_below(
    alloc: Global,
    source: &Tree,
    node: Node,
    target: &mut Tree,
    parent: Node,
) -> Result<(), CopyFault>
    requires there { IsThere source.now node }
    requires parent { IsThere target.old parent }
    requires free { (p q : Path) → (r : Rec) → IsAt source.now p node → get source.now.tree p ≡ Some r → IsAt target.old q parent →
        get target.old.tree (child_path q r.name) ≡ None }
    ensures ok { (p q : Path) → (r : Rec) → IsAt source.now p node → get source.now.tree p ≡ Some r → IsAt target.old q parent →
        OnOk result (IsAmid source.now target.new p (child_path q r.name) target.old.tree []) }
    ensures nodes { OnOk result (KeepsNodes target.old target.new) }
    ensures err { (p q : Path) → (r : Rec) → IsAt source.now p node → get source.now.tree p ≡ Some r → IsAt target.old q parent →
        IfErr result (λ fault. IsHalted fault source.now.tree target.old.tree p q (child_path q r.name)) }
    ensures full { (result ≡ Err CopyFault.Full) → BINS_LIMIT < length target.new.bins.bytes + GROWTH_BOUND }
{
    // What is true of both trees' keys, and that there is this one, as these calls' contracts say.
    let _roots = (source.root(), target.root());
    let _name = source.name(node);
    let marks = marks_of(source, node);
    let copy = copy_key(alloc, source, node, marks, target, parent)?;
    let mut pending = Vec::new(alloc);
    note_first(source, node, copy, &mut pending)?;
    copy_pending(alloc, source, target, &mut pending)
}

/// Gives a key a time, and changes nothing else.
fn set_time(alloc: Global, tree: &mut Tree, node: Node, moment: u64) -> Result<(), CopyFault>
    requires { IsThere tree.old node }
    ensures ok { (p : Path) → IsAt tree.old p node → OnOk result (tree.new.tree ≡ edited tree.old.tree p (at_time moment)) }
    ensures nodes { OnOk result (KeepsNodes tree.old tree.new) }
    ensures err { IfErr result (λ fault. (fault ≡ CopyFault.Full) ⊎ (fault ≡ CopyFault.Memory)) }
    ensures full { (result ≡ Err CopyFault.Full) → BINS_LIMIT < length tree.new.bins.bytes + GROWTH_BOUND }
{
    // What is true of a tree's keys, and that there is this one, as these calls' contracts say.
    let _root = tree.root();
    let _name = tree.name(node);
    let descriptor = tree.descriptor(node).to_vec(alloc)?;
    match tree.set_security(alloc, node, descriptor.as_slice(), moment) {
        Ok(()) => Ok(()),
        Err(fault) => Err(fault_of(fault)),
    }
}

/// Whether there is a key of a name right below one.
fn has_child(tree: &Tree, parent: Node, name: &[u8]) -> bool
    requires parent { IsThere tree.now parent }
    requires name { is_key_name name.now ≡ true }
    ensures { (p : Path) → IsAt tree.now p parent → result ≡ is_some (get tree.now.tree (child_path p name.now)) }
{
    tree.resolve(parent, name).is_some()
}

/// Copies the key at a path of a tree, with all that is below it, into another tree: right below the key at a path there, under its own
/// name. Each copied key has the name, marks, class, descriptor, time and values of its own; only the marks of a root aren't copied. The
/// key below which the copy stands gets a time, in units of 100 ns since 1601, and all else stays as it is. Names of both paths are folded;
/// the empty path is the root's.
///
/// `NoKey` where the first path leads to no key, else `NoPlace` where the second one doesn't, else `Taken` where a key of that name is
/// there; nothing has changed then. `Limit` only where a copied key would have more than 512 names on its path, or the key to copy into
/// has 60,000 subkeys; `Full` only where 1,310,720 bytes more would pass the bins' limit of 268,435,456; `Memory`. Behind these no clause
/// says what the tree holds, and it is to be thrown away.
pub fn copy(
    alloc: Global,
    source: &Tree,
    from: &[u8],
    target: &mut Tree,
    into: &[u8],
    moment: u64,
) -> Result<(), CopyFault>
    ensures ok { OnOk result (IsCopied source.now.tree from.now target.old.tree into.now moment target.new.tree) }
    ensures err { IfErr result (λ fault. CopyStops fault source.now.tree from.now target.old.tree into.now) }
    ensures nodes { OnOk result (KeepsNodes target.old target.new) }
    ensures stays { IfErr result (λ fault. IsEarly fault → target.new ≡ target.old) }
    ensures full { (result ≡ Err CopyFault.Full) → BINS_LIMIT < length target.new.bins.bytes + GROWTH_BOUND }
{
    let Some(node) = find_key(source, from) else {
        return Err(CopyFault::NoKey);
    };
    let Some(parent) = find_key(target, into) else {
        return Err(CopyFault::NoPlace);
    };
    // What is true of a tree's keys, as this call's contract says.
    let _root = source.root();
    let name = source.name(node);
    if has_child(target, parent, name) {
        return Err(CopyFault::Taken);
    }
    copy_below(alloc, source, node, target, parent)?;
    set_time(alloc, target, parent, moment)
}
