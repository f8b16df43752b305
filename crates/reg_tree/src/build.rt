//! Keys built as they are told, with marks and a class, where no other key's time changes.
//!
//! All its cells are carved at once, so that only that can fail. Then the key is made as `create` makes one, at the time that the key
//! above has; that one notes a class that is longer than those of its other subkeys; and last the key gets its marks, its class, its
//! descriptor and its time.
//!
//! Suhanov, Windows registry file format specification, "Key node".
ghost use Rattle.std.specs.Prelude.{◌≡◌, ◌≤◌, ◌<◌, ◌+◌, ◌^◌, ℕ, List, [], ◌∷◌, bit_and, Err, Some, IsSome, MatchOption, length, OnOk, OnErr, IfOk, IfErr};
ghost use Rattle.reg_names.specs.Names.{path_of};
ghost use Rattle.byteorder.specs.Endian.{little_bytes};
ghost use Rattle.reg_heap.specs.declared.limits.TheConstants.{BINS_LIMIT, GROWTH_BOUND};
ghost use Rattle.reg_heap.specs.Edits.{edited};
ghost use Rattle.reg_heap.specs.Trees.{IsSmallKey};
ghost use Rattle.reg_arena.specs.Arena.{heap_of};
ghost use Rattle.reg_arena.specs.Cells.{cells_of};
ghost use Rattle.reg_arena.specs.EachCell.{GrowsFor};
ghost use Rattle.reg_arena.specs.NewCells.{cell_size as cell_size_of};
ghost use Rattle.reg_records.specs.KeyNodes.{KeyRecord, key_at};
ghost use Rattle.reg_values.specs.ValueLists.{KeepsSizes, Makes};
ghost use Rattle.reg_tree.specs.BuiltKeys.{MayBuild, BuildsKey, LacksKeyRoom, built_key, class_sizes};
ghost use Rattle.reg_shape.specs.Internal.Shapes.{tree_of};
ghost use Rattle.reg_tree.specs.CellSizes.{LacksRoom};
ghost use Rattle.reg_tree.specs.KeyLengths.{with_key_lengths};
ghost use Rattle.reg_tree.specs.TreeKeys.{tree_in};
ghost use Rattle.reg_tree.specs.Internal.DescriptorChange.{IsKnown, KeepsFinds};
ghost use Rattle.reg_tree.specs.Internal.PathWalks.{Reaches};
ghost use Rattle.reg_tree.specs.Internal.ReachedPlaces.{BelongsFirst};
ghost use Rattle.reg_tree.specs.Internal.LengthChanges.{LengthsChange, LengthsStay, MadeLengths};
ghost use Rattle.reg_tree.specs.Internal.TreeInvariant.{IsHere, IsChanged};
ghost use Rattle.reg_tree.specs.Internal.KeyNodeChanges.{Notes};
ghost use Rattle.reg_tree.specs.Internal.KeyBuilding.{HasNoClass, IsBuilt, IsCarvedForClass, IsClassCell, IsMarkable, MayHaveClass};
ghost use Rattle.reg_tree.specs.Internal.KeyBuilding.{PutsClass, marked, noted_class, noted_marks, with_class_length};
ghost use Rattle.reg_tree.specs.Internal.SpareCells.{IsGrowing, StillStand};

use crate::key::fields;
use crate::make::make_keys;
use crate::security::{describe, expect, forget};
use crate::{Node, Reached};
use reg_arena::{Arena, ArenaFault, cell_size};
use reg_heap::limits::NONE;
use reg_records::{KeyFields, put_nk};
use reg_security::SecurityTable;
use std::alloc::Global;

/// A key to be built: all of it but its subkeys and values.
#[derive(Clone, Copy, Debug)]
pub struct NewKey<'a> {
    /// Its name.
    pub name: &'a [u8],
    /// Its marks, of which 0x08 says that it is never deleted; without 0x67.
    pub marks: u16,
    /// The bytes of its class, at most 65,535.
    pub class: &'a [u8],
    /// The bytes of its security descriptor, 1 to 65,535.
    pub descriptor: &'a [u8],
    /// Its last write time, in 100 ns ticks since 1601.
    pub time: u64,
}

/// The flags of a key node that are no marks: volatile, hive exit, hive entry, the form of the name, and a predefined handle.
const FORM: u16 = 0x67;

/// Where a key node has the largest length of a subkey's class.
const LARGEST_SUBKEY_CLASS: u32 = 56;

/// The bytes of a number, the lowest first.
fn word_bytes(number: u32) -> [u8; 4]
    ensures bytes { result ≡ little_bytes 4 number }
    ensures fits { number < 2 ^ 32 }
{
    number.to_le_bytes()
}

/// Writes the largest length of a subkey's class, in bytes.
fn set_largest_subkey_class(arena: &mut Arena, key: u32, largest: u32)
    requires { IsSome (key_at (heap_of arena.old) key) }
    ensures notes { Notes (heap_of arena.old) (heap_of arena.new) key (λ r. record r { fields = record r.fields { largest_subkey_class = largest } }) }
    ensures cells { cells_of arena.new.bytes ≡ cells_of arena.old.bytes }
    ensures long { length arena.new.bytes ≡ length arena.old.bytes }
{
    arena.write(key, LARGEST_SUBKEY_CLASS, &word_bytes(largest));
}

/// Notes in a key's key node that a key below has a class of a length, in bytes.
fn note_class(arena: &mut Arena, key: u32, size: u32)
    requires { IsSome (key_at (heap_of arena.old) key) }
    ensures notes { Notes (heap_of arena.old) (heap_of arena.new) key (noted_class size) }
    ensures cells { cells_of arena.new.bytes ≡ cells_of arena.old.bytes }
    ensures long { length arena.new.bytes ≡ length arena.old.bytes }
{
    let old = fields(arena, key);
    set_largest_subkey_class(arena, key, old.largest_subkey_class.max(size));
}

/// Makes room in a key's key node for a class of a length, in bytes, of a key below it.
fn raise_class(arena: &mut Arena, key: u32, size: u32)
    requires { (spare : List ℕ) × IsGrowing arena.old.bytes key spare }
    ensures stands { (spare : List ℕ) → (g : IsGrowing arena.old.bytes key spare) →
        StillStand (heap_of arena.old) (heap_of arena.new) g.root g.ring spare (tree_of (heap_of arena.old) g.keys) }
    ensures lengths { (spare : List ℕ) → (g : IsGrowing arena.old.bytes key spare) →
        LengthsChange (heap_of arena.old) (heap_of arena.new) g.root g.path (with_class_length size) }
    ensures roomy { (k : KeyRecord) → key_at (heap_of arena.new) key ≡ Some k → size ≤ k.fields.largest_subkey_class }
    ensures cells { cells_of arena.new.bytes ≡ cells_of arena.old.bytes }
    ensures long { length arena.new.bytes ≡ length arena.old.bytes }
{
    note_class(arena, key, size);
}

/// Writes a class into its cell, if it has one.
fn put_class(arena: &mut Arena, cell: Option<u32>, class: &[u8])
    requires { IsClassCell (heap_of arena.old) cell class.now }
    ensures puts { PutsClass (heap_of arena.old) (heap_of arena.new) cell class.now }
    ensures cells { cells_of arena.new.bytes ≡ cells_of arena.old.bytes }
    ensures long { length arena.new.bytes ≡ length arena.old.bytes }
{
    if let Some(cell) = cell {
        arena.write(cell, 0, class);
    }
}

/// Writes a key's key node anew, with marks and a class of a length, in bytes, in a cell, if it takes one.
fn note_marks(arena: &mut Arena, key: u32, name: &[u8], marks: u16, cell: Option<u32>, size: u16)
    requires here { IsSome (key_at (heap_of arena.old) key) }
    requires name { (k : KeyRecord) → key_at (heap_of arena.old) key ≡ Some k → k.name ≡ name.now }
    requires short { length name.now < 2 ^ 16 }
    requires marks { bit_and marks 103 ≡ 0 }
    ensures notes { Notes (heap_of arena.old) (heap_of arena.new) key (noted_marks marks cell size) }
    ensures cells { cells_of arena.new.bytes ≡ cells_of arena.old.bytes }
    ensures long { length arena.new.bytes ≡ length arena.old.bytes }
{
    let old = fields(arena, key);
    let new = KeyFields {
        flags: old.flags & FORM | marks,
        class: cell.unwrap_or(NONE),
        class_length: size,
        ..old
    };
    put_nk(arena, key, &new, name);
}

/// Gives a key marks and a class, for which a cell was carved if it takes one; others that were carved stay spare. It takes no memory.
fn mark(arena: &mut Arena, key: u32, name: &[u8], marks: u16, cell: Option<u32>, class: &[u8])
    requires here { (left : List ℕ) × IsMarkable arena.old.bytes key name.now cell class.now left }
    requires name { length name.now < 2 ^ 16 }
    requires marks { bit_and marks 103 ≡ 0 }
    requires class { length class.now < 2 ^ 16 }
    ensures marked { (left : List ℕ) → (m : IsMarkable arena.old.bytes key name.now cell class.now left) →
        StillStand (heap_of arena.old) (heap_of arena.new) m.root m.ring left (edited (tree_of (heap_of arena.old) m.keys) m.path (marked marks class.now)) }
    ensures lengths { (left : List ℕ) → (m : IsMarkable arena.old.bytes key name.now cell class.now left) →
        LengthsStay (heap_of arena.old) (heap_of arena.new) m.root }
    ensures cells { cells_of arena.new.bytes ≡ cells_of arena.old.bytes }
    ensures long { length arena.new.bytes ≡ length arena.old.bytes }
{
    put_class(arena, cell, class);
    note_marks(arena, key, name, marks, cell, class.len() as u16);
}

/// The size of the cell that a class takes, if it takes one.
fn class_size(class: &[u8]) -> Option<u32>
    requires { length class.now < 2 ^ 16 }
    ensures { MatchOption result (class.now ≡ []) (λ size. (1 ≤ length class.now) × (size ≡ cell_size_of (length class.now))) }
{
    if class.is_empty() {
        return None;
    }
    Some(cell_size(class.len() as u32))
}

/// Carves the cell that a class takes, if it takes one. After a fault the arena is as before.
fn carve_for(alloc: Global, arena: &mut Arena, class: &[u8]) -> Result<Option<u32>, ArenaFault>
    requires { length class.now < 2 ^ 16 }
    ensures ok { IfOk result (λ cell. IsCarvedForClass arena.old arena.new class.now cell) }
    ensures full { (result ≡ Err ArenaFault.Full) → BINS_LIMIT < length arena.old.bytes + GROWTH_BOUND }
    ensures growth { OnOk result (GrowsFor arena.old.bytes arena.new.bytes (class_sizes class.now)) }
    ensures space { IfErr result (λ fault. fault ≡ ArenaFault.Full → LacksRoom arena.old (class_sizes class.now)) }
    ensures err { OnErr result (arena.new ≡ arena.old) }
    ensures grows { OnOk result (length arena.new.bytes ≤ length arena.old.bytes + GROWTH_BOUND) }
    ensures kept { OnOk result (length arena.old.bytes ≤ length arena.new.bytes) }
{
    let Some(size) = class_size(class) else {
        return Ok(None);
    };
    let mut cells = Vec::new(alloc);
    match arena.carve_change(&[size], &mut cells) {
        Ok(()) => Ok(Some(cells[0])),
        Err(fault) => Err(fault),
    }
}

/// Gives marks and a class to a key of a name that has no class: the key above, if there is one, notes a class that is no shorter.
/// `Full`, `Memory`: then the arena is as before.
pub fn dress(
    alloc: Global,
    arena: &mut Arena,
    key: u32,
    name: &[u8],
    marks: u16,
    class: &[u8],
) -> Result<(), ArenaFault>
    requires here { (t : IsHere arena.old.bytes key) × MayHaveClass (heap_of arena.old) t.root t.path (length class.now) }
    requires bare { HasNoClass (heap_of arena.old) key name.now }
    requires name { length name.now < 2 ^ 16 }
    requires marks { bit_and marks 103 ≡ 0 }
    requires class { length class.now < 2 ^ 16 }
    ensures ok { (t : IsHere arena.old.bytes key) → MayHaveClass (heap_of arena.old) t.root t.path (length class.now) →
        OnOk result (IsChanged arena.old.bytes arena.new.bytes t.root t.table t.path (marked marks class.now)) }
    ensures lengths { (t : IsHere arena.old.bytes key) → MayHaveClass (heap_of arena.old) t.root t.path (length class.now) →
        OnOk result (LengthsStay (heap_of arena.old) (heap_of arena.new) t.root) }
    ensures cells { OnOk result (Makes (heap_of arena.old) (heap_of arena.new) (class_sizes class.now)) }
    ensures stay { OnOk result (KeepsSizes (heap_of arena.old) (heap_of arena.new)) }
    ensures growth { OnOk result (GrowsFor arena.old.bytes arena.new.bytes (class_sizes class.now)) }
    ensures space { IfErr result (λ fault. fault ≡ ArenaFault.Full → LacksRoom arena.old (class_sizes class.now)) }
    ensures full { (result ≡ Err ArenaFault.Full) → BINS_LIMIT < length arena.old.bytes + GROWTH_BOUND }
    ensures err { OnErr result (arena.new ≡ arena.old) }
    ensures grows { OnOk result (length arena.new.bytes ≤ length arena.old.bytes + GROWTH_BOUND) }
    ensures kept { OnOk result (length arena.old.bytes ≤ length arena.new.bytes) }
{
    let cell = match carve_for(alloc, arena, class) {
        Ok(cell) => cell,
        Err(fault) => return Err(fault),
    };
    mark(arena, key, name, marks, cell, class);
    Ok(())
}

/// Builds a key below another that has none of its name, which was walked from that one on. The cell of a security that has its
/// descriptor may be known. `Full`, `Memory`: then the arena is as before, and the table finds what it found.
pub fn build_below(
    alloc: Global,
    arena: &mut Arena,
    securities: &mut SecurityTable,
    parent: Node,
    reached: Reached<'_>,
    key: NewKey<'_>,
    known: Option<u32>,
) -> Result<Node, ArenaFault>
    requires here { (t : IsHere arena.old.bytes parent.offset) × (t.table ≡ securities.old) × (parent.depth ≡ length t.path)
        × MayBuild (tree_in arena.old.bytes t.root) t.path key.name.now }
    requires reached { Reaches (heap_of arena.old) parent key.name.now reached.node reached.missing.now }
    requires place { BelongsFirst (heap_of arena.old) reached.node.offset (path_of reached.missing.now) reached.place }
    requires key { IsSmallKey (built_key key) }
    requires known { IsKnown securities.old key.descriptor.now known }
    ensures ok { (t : IsHere arena.old.bytes parent.offset) → t.table ≡ securities.old → parent.depth ≡ length t.path →
        MayBuild (tree_in arena.old.bytes t.root) t.path key.entry.name.now →
        IfOk result (λ node. IsBuilt arena.old.bytes arena.new.bytes t.root securities.new t.path key.entry node) }
    ensures lengths { (t : IsHere arena.old.bytes parent.offset) → t.table ≡ securities.old → parent.depth ≡ length t.path →
        MayBuild (tree_in arena.old.bytes t.root) t.path key.entry.name.now →
        OnOk result (LengthsChange (heap_of arena.old) (heap_of arena.new) t.root t.path
        (with_key_lengths (length key.entry.name.now) (length key.entry.class.now))) }
    ensures made { (t : IsHere arena.old.bytes parent.offset) → t.table ≡ securities.old → parent.depth ≡ length t.path →
        MayBuild (tree_in arena.old.bytes t.root) t.path key.entry.name.now →
        OnOk result (MadeLengths (heap_of arena.new) t.root t.path (key.entry.name.now ∷ [])) }
    ensures builds { (t : IsHere arena.old.bytes parent.offset) → t.table ≡ securities.old → parent.depth ≡ length t.path →
        MayBuild (tree_in arena.old.bytes t.root) t.path key.entry.name.now →
        OnOk result (BuildsKey (record { bins = arena.old; root = t.root; tree = tree_in arena.old.bytes t.root })
        (record { bins = arena.new; root = t.root; tree = tree_in arena.new.bytes t.root }) t.path (built_key key.entry)) }
    ensures space { (t : IsHere arena.old.bytes parent.offset) → t.table ≡ securities.old → parent.depth ≡ length t.path →
        MayBuild (tree_in arena.old.bytes t.root) t.path key.entry.name.now → IfErr result (λ fault. fault ≡ ArenaFault.Full →
        LacksKeyRoom (record { bins = arena.old; root = t.root; tree = tree_in arena.old.bytes t.root }) t.path (built_key key.entry)) }
    ensures err { OnErr result (arena.new ≡ arena.old) }
    ensures table { OnErr result (KeepsFinds securities.old securities.new) }
    ensures full { (result ≡ Err ArenaFault.Full) → BINS_LIMIT < length arena.old.bytes + GROWTH_BOUND }
    ensures grows { length arena.new.bytes ≤ length arena.old.bytes + GROWTH_BOUND }
    ensures kept { length arena.old.bytes ≤ length arena.new.bytes }
{
    let Ok(size) = expect(alloc, securities, key.descriptor, known) else {
        return Err(ArenaFault::Memory);
    };
    // Making a key sets the time of the one above: to that which it has.
    let time = fields(arena, parent.offset).time;
    let class = class_size(key.class);
    let made = match make_keys(alloc, arena, reached, time, class, size) {
        Ok(made) => made,
        Err(fault) => {
            forget(securities, size, key.descriptor);
            return Err(fault);
        }
    };
    let node = made.node;
    raise_class(arena, parent.offset, key.class.len() as u32);
    mark(
        arena,
        node.offset,
        key.name,
        key.marks,
        made.class,
        key.class,
    );
    describe(
        arena,
        securities,
        node.offset,
        made.security,
        key.descriptor,
        key.time,
        known,
    );
    Ok(node)
}
