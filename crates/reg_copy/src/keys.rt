//! A single key copied, with its values.
ghost use Rattle.std.specs.Prelude.{◌≡◌, ◌⊎◌, ◌<◌, ◌+◌, ℕ, length, bit_and, None, Some, Err, OnOk, IfOk, IfErr};
ghost use Rattle.std.specs.FinMap.{get, insert};
ghost use Rattle.reg_heap.specs.declared.limits.TheConstants.{BINS_LIMIT, GROWTH_BOUND};
ghost use Rattle.reg_heap.specs.Paths.{Path, Rec};
ghost use Rattle.reg_heap.specs.Edits.{child_path, values_at};
ghost use Rattle.reg_tree.specs.TreeKeys.{IsAt, IsThere, KeepsNodes};
ghost use Rattle.reg_copy.specs.Internal.Copying.{front_copy, IsFront, IsKeyCopied, IsRefused};

use crate::CopyFault;
use reg_arena::ArenaFault;
use reg_diff::read_value;
use reg_tree::{NewKey, Node, Tree};
use std::alloc::Global;

/// Why a key or a value wasn't made.
pub fn fault_of(fault: ArenaFault) -> CopyFault
    ensures either { (result ≡ CopyFault.Full) ⊎ (result ≡ CopyFault.Memory) }
    ensures full { result ≡ CopyFault.Full → fault ≡ ArenaFault.Full }
{
    match fault {
        ArenaFault::Full => CopyFault::Full,
        ArenaFault::Memory => CopyFault::Memory,
    }
}

/// Builds a key as another tree's, with these marks and without values, right below a key that has none of its name.
fn build(
    alloc: Global,
    source: &Tree,
    node: Node,
    marks: u16,
    target: &mut Tree,
    parent: Node,
) -> Result<Node, CopyFault>
    requires there { IsThere source.now node }
    requires parent { IsThere target.old parent }
    requires marks { bit_and marks 103 ≡ 0 }
    requires free { (p q : Path) → (r : Rec) → IsAt source.now p node → get source.now.tree p ≡ Some r → IsAt target.old q parent →
        get target.old.tree (child_path q r.name) ≡ None }
    ensures ok { (p q : Path) → (r : Rec) → IsAt source.now p node → get source.now.tree p ≡ Some r → IsAt target.old q parent →
        IfOk result (λ copy. IsKeyCopied target.old target.new q r.name (front_copy marks 0 r) copy) }
    ensures err { (q : Path) → IsAt target.old q parent → IfErr result (λ fault. IsRefused fault target.old.tree q) }
    ensures full { (result ≡ Err CopyFault.Full) → BINS_LIMIT < length target.new.bins.bytes + GROWTH_BOUND }
{
    // What is true of a tree's keys, as this call's contract says.
    let _root = source.root();
    let name = source.name(node);
    let reached = target.reach(parent, name);
    if target.is_limited(reached) {
        return Err(CopyFault::Limit);
    }
    let key = NewKey {
        name,
        marks,
        class: source.class(node),
        descriptor: source.descriptor(node),
        time: source.time(node),
    };
    match target.build_key(alloc, parent, reached, key, None) {
        Ok(copy) => Ok(copy),
        Err(fault) => Err(fault_of(fault)),
    }
}

/// Puts the value at an index of a key behind those of its copy, which has all before it.
fn copy_value(
    alloc: Global,
    source: &Tree,
    node: Node,
    index: u32,
    target: &mut Tree,
    copy: Node,
) -> Result<(), CopyFault>
    requires value { (p : Path) × IsAt source.now p node × (index < length (values_at source.now.tree p)) }
    requires front { (p q : Path) × (r : Rec) × IsAt source.now p node × (get source.now.tree p ≡ Some r) × IsAt target.old q copy
        × IsFront index r (get target.old.tree q) }
    ensures ok { (p q : Path) → (r : Rec) → (marks : ℕ) → IsAt source.now p node → get source.now.tree p ≡ Some r → IsAt target.old q copy →
        get target.old.tree q ≡ Some (front_copy marks index r) →
        OnOk result (target.new.tree ≡ insert target.old.tree q (front_copy marks (index + 1) r)) }
    ensures nodes { OnOk result (KeepsNodes target.old target.new) }
    ensures err { IfErr result (λ fault. (fault ≡ CopyFault.Full) ⊎ (fault ≡ CopyFault.Memory)) }
    ensures full { (result ≡ Err CopyFault.Full) → BINS_LIMIT < length target.new.bins.bytes + GROWTH_BOUND }
{
    // What is true of both trees' keys, as this call's contract says: no two of a key's values have one name.
    let _roots = (source.root(), target.root());
    let value = read_value(alloc, source, node, index)?;
    let moment = source.time(node);
    let bytes = value.bytes.as_slice();
    match target.set_at(alloc, copy, None, value.name, value.kind, bytes, moment) {
        Ok(()) => Ok(()),
        Err(fault) => Err(fault_of(fault)),
    }
}

/// Puts all values of a key into its copy, which has none.
fn copy_values(
    alloc: Global,
    source: &Tree,
    node: Node,
    target: &mut Tree,
    copy: Node,
) -> Result<(), CopyFault>
    requires bare { (p q : Path) × (r : Rec) × IsAt source.now p node × (get source.now.tree p ≡ Some r) × IsAt target.old q copy
        × IsFront 0 r (get target.old.tree q) }
    ensures ok { (p q : Path) → (r : Rec) → (marks : ℕ) → IsAt source.now p node → get source.now.tree p ≡ Some r → IsAt target.old q copy →
        get target.old.tree q ≡ Some (front_copy marks 0 r) →
        OnOk result (target.new.tree ≡ insert target.old.tree q (record r { marks = marks })) }
    ensures nodes { OnOk result (KeepsNodes target.old target.new) }
    ensures err { IfErr result (λ fault. (fault ≡ CopyFault.Full) ⊎ (fault ≡ CopyFault.Memory)) }
    ensures full { (result ≡ Err CopyFault.Full) → BINS_LIMIT < length target.new.bins.bytes + GROWTH_BOUND }
{
    for index in 0..source.values(node) {
        copy_value(alloc, source, node, index, target, copy)?;
    }
    Ok(())
}

/// Copies a key with its values, and with these marks, right below a key of another tree that has none of its name.
pub fn copy_key(
    alloc: Global,
    source: &Tree,
    node: Node,
    marks: u16,
    target: &mut Tree,
    parent: Node,
) -> Result<Node, CopyFault>
    requires there { IsThere source.now node }
    requires parent { IsThere target.old parent }
    requires marks { bit_and marks 103 ≡ 0 }
    requires free { (p q : Path) → (r : Rec) → IsAt source.now p node → get source.now.tree p ≡ Some r → IsAt target.old q parent →
        get target.old.tree (child_path q r.name) ≡ None }
    ensures ok { (p q : Path) → (r : Rec) → IsAt source.now p node → get source.now.tree p ≡ Some r → IsAt target.old q parent →
        IfOk result (λ copy. IsKeyCopied target.old target.new q r.name (record r { marks = marks }) copy) }
    ensures err { (q : Path) → IsAt target.old q parent → IfErr result (λ fault. IsRefused fault target.old.tree q) }
    ensures full { (result ≡ Err CopyFault.Full) → BINS_LIMIT < length target.new.bins.bytes + GROWTH_BOUND }
{
    // There is this key, as this call's contract says.
    let _name = source.name(node);
    let copy = build(alloc, source, node, marks, target, parent)?;
    copy_values(alloc, source, node, target, copy)?;
    Ok(copy)
}
