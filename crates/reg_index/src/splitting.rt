//! A full list that gives way to two.

ghost use Rattle.std.specs.Prelude.{◌≡◌, ◌≢◌, ◌+◌, ◌-◌, ◌*◌, ◌<◌, ◌≤◌, ℕ, suc, ◌∷◌, [], List, length, take, drop};
ghost use Rattle.reg_heap.specs.declared.limits.TheConstants.{LEAF_LIMIT};
ghost use Rattle.reg_arena.specs.Arena.{heap_of};
ghost use Rattle.reg_records.specs.RecordCells.{HasRoom, held};
ghost use Rattle.reg_records.specs.SubkeyLists.{Entry};
ghost use Rattle.reg_index.specs.declared.plan.TheConstants.{FIRST_HALF, SECOND_HALF};
ghost use Rattle.reg_index.specs.Subkeys.{KeepsCells, Moves, with_one};
ghost use Rattle.reg_index.specs.Internal.HashLeaves.{IsLeaf};
ghost use Rattle.reg_index.specs.Internal.IndexLists.{IsOnce};

use crate::leaf::{copy_entries, put_in_leaf};
use crate::plan::FIRST_HALF;
use reg_arena::Arena;
use reg_heap::limits::LEAF_LIMIT;
use reg_records::ListEntry;

/// A full leaf gives way to two in other cells, of its first entries, so many, and of the others.
fn split_at(arena: &mut Arena, cell: u32, count: u32, first: u32, second: u32)
    requires leaf { (entries : List Entry) × IsLeaf (heap_of arena.old) cell entries × (length entries ≡ LEAF_LIMIT) }
    requires count { count ≤ LEAF_LIMIT }
    requires first { HasRoom (heap_of arena.old) first (4 + 8 * count) }
    requires second { HasRoom (heap_of arena.old) second (4 + 8 * (LEAF_LIMIT - count)) }
    requires once { IsOnce (cell ∷ first ∷ second ∷ []) }
    ensures first { (entries : List Entry) → IsLeaf (heap_of arena.old) cell entries → length entries ≡ LEAF_LIMIT →
        IsLeaf (heap_of arena.new) first (take count entries) }
    ensures second { (entries : List Entry) → IsLeaf (heap_of arena.old) cell entries → length entries ≡ LEAF_LIMIT →
        IsLeaf (heap_of arena.new) second (drop count entries) }
    ensures moves { Moves (heap_of arena.old) (heap_of arena.new) (cell ∷ first ∷ second ∷ []) (first ∷ second ∷ []) }
    ensures first_room { length (held (heap_of arena.new) first) ≡ length (held (heap_of arena.old) first) }
    ensures second_room { length (held (heap_of arena.new) second) ≡ length (held (heap_of arena.old) second) }
    ensures long { length arena.new.bytes ≡ length arena.old.bytes }
    ensures keeps { KeepsCells (heap_of arena.old) (heap_of arena.new) }
{
    copy_entries(arena, cell, 0, count, first);
    copy_entries(arena, cell, count, LEAF_LIMIT - count, second);
    arena.free(cell);
}

/// Puts an entry in at an index of a full leaf, which gives way to two: of the first 250 entries, and of the last 251.
pub(crate) fn split(
    arena: &mut Arena,
    cell: u32,
    first: u32,
    second: u32,
    index: u32,
    entry: ListEntry,
)
    requires leaf { (entries : List Entry) × IsLeaf (heap_of arena.old) cell entries × (length entries ≡ LEAF_LIMIT) }
    requires index { index ≤ LEAF_LIMIT }
    requires first { HasRoom (heap_of arena.old) first (4 + 8 * FIRST_HALF) }
    requires second { HasRoom (heap_of arena.old) second (4 + 8 * SECOND_HALF) }
    requires once { IsOnce (cell ∷ first ∷ second ∷ []) }
    ensures first { (entries : List Entry) → IsLeaf (heap_of arena.old) cell entries → length entries ≡ LEAF_LIMIT →
        IsLeaf (heap_of arena.new) first (take FIRST_HALF (with_one index entry entries)) }
    ensures second { (entries : List Entry) → IsLeaf (heap_of arena.old) cell entries → length entries ≡ LEAF_LIMIT →
        IsLeaf (heap_of arena.new) second (drop FIRST_HALF (with_one index entry entries)) }
    ensures moves { Moves (heap_of arena.old) (heap_of arena.new) (cell ∷ first ∷ second ∷ []) (first ∷ second ∷ []) }
    ensures long { length arena.new.bytes ≡ length arena.old.bytes }
    ensures keeps { KeepsCells (heap_of arena.old) (heap_of arena.new) }
{
    if index < FIRST_HALF {
        split_at(arena, cell, FIRST_HALF - 1, first, second);
        put_in_leaf(arena, first, None, index, entry);
        return;
    }
    split_at(arena, cell, FIRST_HALF, first, second);
    put_in_leaf(arena, second, None, index - FIRST_HALF, entry);
}
