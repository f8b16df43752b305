//! A key's security: how a descriptor comes to it.
//!
//! A descriptor that a security of the ring has is shared; else it gets a cell. Either is done before the key gives its old
//! security back, so that one that is set again isn't freed between.
//!
//! Win32 registry reference, `RegSetKeySecurity`.

ghost use Rattle.std.specs.Prelude.{◌≡◌, ◌≤◌, ◌<◌, ◌+◌, ℕ, List, [], ◌∷◌, Err, None, length, option_map, OnOk, OnErr, IfOk, IfErr};
ghost use Rattle.reg_heap.specs.declared.limits.TheConstants.{BINS_LIMIT, DESCRIPTOR_LIMIT, GROWTH_BOUND};
ghost use Rattle.reg_heap.specs.Edits.{with_descriptor};
ghost use Rattle.reg_heap.specs.Kinds.{times};
ghost use Rattle.reg_arena.specs.Arena.{heap_of};
ghost use Rattle.reg_arena.specs.EachCell.{GrowsFor};
ghost use Rattle.reg_arena.specs.NewCells.{cell_size};
ghost use Rattle.reg_values.specs.ValueLists.{Makes};
ghost use Rattle.reg_security.specs.Rings.{DescriptorCells, Finds, cell_of};
ghost use Rattle.reg_tree.specs.TreeKeys.{tree_in};
ghost use Rattle.reg_tree.specs.CellSizes.{planned_sizes, security_sizes, LacksRoom};
ghost use Rattle.reg_tree.specs.Internal.TreeInvariant.{IsHere, IsChanged, TreeInvariant};
ghost use Rattle.reg_tree.specs.Internal.KeyNodeChanges.{SameSizes};
ghost use Rattle.reg_tree.specs.Internal.LengthChanges.{LengthsStay};
ghost use Rattle.reg_tree.specs.Internal.DescriptorChange.{IsCarvedFor, IsDescribable, IsDescribed, IsExpected, IsKnown, IsLike, Joins, KeepsFinds};

use crate::Node;
use crate::key::{fields, note_security};
use reg_arena::{Arena, ArenaFault};
use reg_security::{SecurityTable, plan_add, share};
use std::alloc::{AllocError, Global};

/// The cell of the security that a key has, if one is told: a table finds that key's descriptor there, without a search.
pub fn security_like(arena: &Arena, like: Option<Node>) -> Option<u32>
    requires { (root : ℕ) × (table : DescriptorCells) × TreeInvariant arena.now.bytes root table
        × (descriptor : List ℕ) × IsLike arena.now.bytes root descriptor like }
    ensures { (root : ℕ) → (table : DescriptorCells) → TreeInvariant arena.now.bytes root table →
        (descriptor : List ℕ) → IsLike arena.now.bytes root descriptor like → IsKnown table descriptor result }
{
    match like {
        None => None,
        Some(node) => Some(fields(arena, node.offset).security),
    }
}

/// The cell that a table notes for a descriptor, if it does: a search finds it where it isn't known.
fn found(securities: &SecurityTable, descriptor: &[u8], known: Option<u32>) -> Option<u32>
    requires { IsKnown securities.now descriptor.now known }
    ensures { result ≡ cell_of securities.now descriptor.now }
{
    match known {
        None => securities.find_equal(descriptor),
        Some(cell) => Some(cell),
    }
}

/// Makes a table ready for a descriptor, whose cell may be known, and answers the size of the cell that it takes: none where a
/// security has it. Where memory is short, the table is as before.
pub fn expect(
    alloc: Global,
    securities: &mut SecurityTable,
    descriptor: &[u8],
    known: Option<u32>,
) -> Result<Option<u32>, AllocError>
    requires short { length descriptor.now ≤ DESCRIPTOR_LIMIT }
    requires known { IsKnown securities.old descriptor.now known }
    ensures ok { IfOk result (λ size. IsExpected securities.old securities.new descriptor.now size) }
    ensures err { OnErr result (securities.new ≡ securities.old) }
{
    if known.is_some() || !securities.expect(alloc, descriptor)? {
        return Ok(None);
    }
    Ok(Some(plan_add(descriptor)))
}

/// Gives up what `expect` made ready, by the size that it answered.
pub fn forget(securities: &mut SecurityTable, size: Option<u32>, descriptor: &[u8])
    ensures { (before : DescriptorCells) → IsExpected before securities.old descriptor.now size → KeepsFinds before securities.new }
{
    if size.is_some() {
        securities.forget(descriptor);
    }
}

/// Carves the cell that a descriptor takes, if it takes one. After a fault the table finds what it found, and the arena is as
/// before.
fn carve_for(
    alloc: Global,
    arena: &mut Arena,
    securities: &mut SecurityTable,
    descriptor: &[u8],
) -> Result<Option<u32>, ArenaFault>
    requires { (1 ≤ length descriptor.now) × (length descriptor.now ≤ DESCRIPTOR_LIMIT) }
    ensures ok { IfOk result (λ cell. IsCarvedFor arena.old arena.new securities.old securities.new descriptor.now cell) }
    ensures table { OnErr result (KeepsFinds securities.old securities.new) }
    ensures full { (result ≡ Err ArenaFault.Full) → BINS_LIMIT < length arena.old.bytes + GROWTH_BOUND }
    ensures space { IfErr result (λ fault. fault ≡ ArenaFault.Full → (cell_of securities.old descriptor.now ≡ None)
        × LacksRoom arena.old (cell_size (20 + length descriptor.now) ∷ [])) }
    ensures err { OnErr result (arena.new ≡ arena.old) }
    ensures grows { OnOk result (length arena.new.bytes ≤ length arena.old.bytes + GROWTH_BOUND) }
    ensures growth { IfOk result (λ cell. GrowsFor arena.old.bytes arena.new.bytes
        (planned_sizes (option_map (λ _. cell_size (20 + length descriptor.now)) cell))) }
    ensures kept { OnOk result (length arena.old.bytes ≤ length arena.new.bytes) }
{
    let Ok(size) = expect(alloc, securities, descriptor, None) else {
        return Err(ArenaFault::Memory);
    };
    let Some(bytes) = size else {
        return Ok(None);
    };
    let mut cells = Vec::new(alloc);
    match arena.carve_change(&[bytes], &mut cells) {
        Ok(()) => Ok(Some(cells[0])),
        Err(fault) => {
            forget(securities, size, descriptor);
            Err(fault)
        }
    }
}

/// Has a security of the ring with a descriptor for one key more: the one that has it, whose cell may be known, or a new one in the
/// cell that was carved for it, behind another one. It takes no memory.
fn join(
    arena: &mut Arena,
    securities: &mut SecurityTable,
    near: u32,
    cell: Option<u32>,
    descriptor: &[u8],
    known: Option<u32>,
) -> u32
    requires ring { (key : ℕ) × (d : IsDescribable arena.old.bytes key securities.old descriptor.now cell) × (0 < times near d.ring) }
    requires descriptor { (1 ≤ length descriptor.now) × (length descriptor.now ≤ DESCRIPTOR_LIMIT) }
    requires known { IsKnown securities.old descriptor.now known }
    ensures joins { (key : ℕ) → (d : IsDescribable arena.old.bytes key securities.old descriptor.now cell) → 0 < times near d.ring →
        (after : List ℕ) × Joins (heap_of arena.old) (heap_of arena.new) d.ring after cell result descriptor.now
        × Finds securities.new (heap_of arena.new) after }
    ensures sizes { SameSizes (heap_of arena.old) (heap_of arena.new) }
    ensures long { length arena.new.bytes ≡ length arena.old.bytes }
{
    if let Some(cell) = cell {
        securities.add(arena, Some(near), cell, descriptor);
        return cell;
    }
    let Some(cell) = found(securities, descriptor, known) else {
        unreachable!()
    };
    share(arena, cell);
    cell
}

/// Describes a key by another descriptor, for which a cell was carved if it takes one, and sets the key's time. The cell of a security
/// that has it may be known. The key gives its old security back. It takes no memory.
pub fn describe(
    arena: &mut Arena,
    securities: &mut SecurityTable,
    key: u32,
    cell: Option<u32>,
    descriptor: &[u8],
    moment: u64,
    known: Option<u32>,
)
    requires here { IsDescribable arena.old.bytes key securities.old descriptor.now cell }
    requires descriptor { (1 ≤ length descriptor.now) × (length descriptor.now ≤ DESCRIPTOR_LIMIT) }
    requires known { IsKnown securities.old descriptor.now known }
    ensures described { (d : IsDescribable arena.old.bytes key securities.old descriptor.now cell) →
        IsDescribed arena.old.bytes arena.new.bytes d.root d.path d.keys d.ring securities.new descriptor.now moment }
    ensures long { length arena.new.bytes ≡ length arena.old.bytes }
{
    let before = fields(arena, key).security;
    let security = join(arena, securities, before, cell, descriptor, known);
    note_security(arena, key, security, moment);
    securities.release(arena, before);
}

/// Sets a key's descriptor, and its time. `Full`, `Memory`: then the arena is as before, and the table finds what it found.
pub fn set(
    alloc: Global,
    arena: &mut Arena,
    securities: &mut SecurityTable,
    key: u32,
    descriptor: &[u8],
    moment: u64,
) -> Result<(), ArenaFault>
    requires here { (t : IsHere arena.old.bytes key) × (t.table ≡ securities.old) }
    requires descriptor { (1 ≤ length descriptor.now) × (length descriptor.now ≤ DESCRIPTOR_LIMIT) }
    ensures ok { (t : IsHere arena.old.bytes key) → t.table ≡ securities.old →
        OnOk result (IsChanged arena.old.bytes arena.new.bytes t.root securities.new t.path (with_descriptor descriptor.now moment)) }
    ensures lengths { (t : IsHere arena.old.bytes key) → t.table ≡ securities.old →
        OnOk result (LengthsStay (heap_of arena.old) (heap_of arena.new) t.root) }
    ensures cells { (t : IsHere arena.old.bytes key) → t.table ≡ securities.old →
        OnOk result (Makes (heap_of arena.old) (heap_of arena.new) (security_sizes (tree_in arena.old.bytes t.root) descriptor.now)) }
    ensures table { OnErr result (KeepsFinds securities.old securities.new) }
    ensures full { (result ≡ Err ArenaFault.Full) → BINS_LIMIT < length arena.old.bytes + GROWTH_BOUND }
    ensures space { (t : IsHere arena.old.bytes key) → t.table ≡ securities.old →
        IfErr result (λ fault. fault ≡ ArenaFault.Full → LacksRoom arena.old (security_sizes (tree_in arena.old.bytes t.root) descriptor.now)) }
    ensures err { OnErr result (arena.new ≡ arena.old) }
    ensures grows { OnOk result (length arena.new.bytes ≤ length arena.old.bytes + GROWTH_BOUND) }
    ensures growth { (t : IsHere arena.old.bytes key) → t.table ≡ securities.old →
        OnOk result (GrowsFor arena.old.bytes arena.new.bytes (security_sizes (tree_in arena.old.bytes t.root) descriptor.now)) }
    ensures kept { OnOk result (length arena.old.bytes ≤ length arena.new.bytes) }
{
    let cell = match carve_for(alloc, arena, securities, descriptor) {
        Ok(cell) => cell,
        Err(fault) => return Err(fault),
    };
    describe(arena, securities, key, cell, descriptor, moment, None);
    Ok(())
}
