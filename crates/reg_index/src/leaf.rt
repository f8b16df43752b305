//! A hash leaf in its cell: entries moved, an entry put in or taken out, the head written.

ghost use Rattle.std.specs.Prelude.{◌≡◌, ◌≢◌, ◌+◌, ◌*◌, ◌<◌, ◌≤◌, ℕ, suc, ◌∷◌, [], List, length, take, drop, unwrap_or};
ghost use Rattle.reg_heap.specs.declared.limits.TheConstants.{LEAF_LIMIT};
ghost use Rattle.reg_heap.specs.Heaps.{Writes, CellFrame};
ghost use Rattle.reg_heap.specs.Kinds.{times};
ghost use Rattle.reg_arena.specs.Arena.{heap_of};
ghost use Rattle.reg_records.specs.declared.lists.ListForm.TheVariants.{HashLeaf};
ghost use Rattle.reg_records.specs.RecordCells.{HasRoom, WritesPart, held};
ghost use Rattle.reg_records.specs.SubkeyLists.{Entry, head_bytes};
ghost use Rattle.reg_index.specs.Subkeys.{KeepsCells, Moves, taken, with_one, without};
ghost use Rattle.reg_index.specs.Internal.HashLeaves.{IsLeaf, HasGap};
ghost use Rattle.reg_index.specs.Internal.IndexLists.{HasRoomFor};

use crate::finding::count_entries;
use reg_arena::Arena;
use reg_records::{ListEntry, ListForm, ListHead, put_entry, put_head};

/// Writes the head of a hash leaf of so many entries.
fn put_leaf_head(arena: &mut Arena, cell: u32, count: u32)
    requires room { HasRoom (heap_of arena.old) cell 4 }
    requires few { count ≤ LEAF_LIMIT }
    ensures { WritesPart arena.old arena.new cell 0 (head_bytes HashLeaf count) }
{
    put_head(
        arena,
        cell,
        ListHead {
            form: ListForm::HashLeaf,
            count: count as u16,
        },
    );
}

/// Makes a gap of one entry at an index of the leaf of so many entries.
fn open_within(arena: &mut Arena, cell: u32, count: u32, index: u32)
    requires leaf { (entries : List Entry) × IsLeaf (heap_of arena.old) cell entries × (length entries ≡ count) }
    requires few { count ≤ LEAF_LIMIT }
    requires index { index ≤ count }
    requires room { 4 + 8 * (count + 1) ≤ length (held (heap_of arena.old) cell) }
    ensures gap { (entries : List Entry) → IsLeaf (heap_of arena.old) cell entries → length entries ≡ count →
        HasGap (heap_of arena.new) cell index entries }
    ensures writes { Writes (heap_of arena.old) (heap_of arena.new) (cell ∷ []) }
    ensures long { length arena.new.bytes ≡ length arena.old.bytes }
    ensures keeps { KeepsCells (heap_of arena.old) (heap_of arena.new) }
{
    arena.shift(cell, 4 + 8 * index, 12 + 8 * index, 8 * (count - index));
}

/// Moves the entries of the leaf of so many entries to another cell, with a gap of one entry at an index, and frees the
/// leaf's cell.
fn move_open(arena: &mut Arena, cell: u32, fresh: u32, count: u32, index: u32)
    requires leaf { (entries : List Entry) × IsLeaf (heap_of arena.old) cell entries × (length entries ≡ count) }
    requires few { count ≤ LEAF_LIMIT }
    requires index { index ≤ count }
    requires room { HasRoom (heap_of arena.old) fresh (4 + 8 * (count + 1)) }
    requires apart { fresh ≢ cell }
    ensures gap { (entries : List Entry) → IsLeaf (heap_of arena.old) cell entries → length entries ≡ count →
        HasGap (heap_of arena.new) fresh index entries }
    ensures moves { CellFrame (heap_of arena.old) (heap_of arena.new) (λ z. times z (cell ∷ fresh ∷ [])) (λ z. times z (fresh ∷ [])) }
    ensures long { length arena.new.bytes ≡ length arena.old.bytes }
    ensures keeps { KeepsCells (heap_of arena.old) (heap_of arena.new) }
{
    arena.copy(cell, 4, fresh, 4, 8 * index);
    arena.copy(
        cell,
        4 + 8 * index,
        fresh,
        12 + 8 * index,
        8 * (count - index),
    );
    arena.free(cell);
}

/// Puts an entry into the gap at an index, and the head of a leaf of so many entries.
pub(crate) fn fill(arena: &mut Arena, cell: u32, index: u32, count: u32, entry: ListEntry)
    requires gap { (entries : List Entry) × HasGap (heap_of arena.old) cell index entries × (length entries + 1 ≡ count) × (index ≤ length entries) }
    requires few { count ≤ LEAF_LIMIT }
    ensures leaf { (entries : List Entry) → HasGap (heap_of arena.old) cell index entries → length entries + 1 ≡ count →
        index ≤ length entries → IsLeaf (heap_of arena.new) cell (with_one index entry entries) }
    ensures writes { Writes (heap_of arena.old) (heap_of arena.new) (cell ∷ []) }
    ensures long { length arena.new.bytes ≡ length arena.old.bytes }
    ensures keeps { KeepsCells (heap_of arena.old) (heap_of arena.new) }
{
    put_entry(arena, cell, ListForm::HashLeaf, index as u16, entry);
    put_leaf_head(arena, cell, count);
}

/// Takes the entry at an index out of a leaf, of which so many are left; the later ones close up.
pub(crate) fn close(arena: &mut Arena, cell: u32, left: u32, index: u32)
    requires leaf { (entries : List Entry) × IsLeaf (heap_of arena.old) cell entries × (length entries ≡ left + 1) }
    requires few { left ≤ LEAF_LIMIT }
    requires index { index ≤ left }
    ensures leaf { (entries : List Entry) → IsLeaf (heap_of arena.old) cell entries → length entries ≡ left + 1 →
        IsLeaf (heap_of arena.new) cell (without index entries) }
    ensures writes { Writes (heap_of arena.old) (heap_of arena.new) (cell ∷ []) }
    ensures long { length arena.new.bytes ≡ length arena.old.bytes }
    ensures keeps { KeepsCells (heap_of arena.old) (heap_of arena.new) }
{
    arena.shift(cell, 12 + 8 * index, 4 + 8 * index, 8 * (left - index));
    put_leaf_head(arena, cell, left);
}

/// Makes a gap of one entry at an index of the leaf of so many entries, in the cell that was carved for it or, without one, in its own,
/// and answers which.
fn open(arena: &mut Arena, cell: u32, fresh: Option<u32>, count: u32, index: u32) -> u32
    requires leaf { (entries : List Entry) × IsLeaf (heap_of arena.old) cell entries × (length entries ≡ count) }
    requires few { count ≤ LEAF_LIMIT }
    requires index { index ≤ count }
    requires room { HasRoomFor (heap_of arena.old) cell fresh (4 + 8 * (count + 1)) }
    ensures gap { (entries : List Entry) → IsLeaf (heap_of arena.old) cell entries → length entries ≡ count →
        HasGap (heap_of arena.new) result index entries }
    ensures moves { Moves (heap_of arena.old) (heap_of arena.new) (cell ∷ taken fresh) (result ∷ []) }
    ensures long { length arena.new.bytes ≡ length arena.old.bytes }
    ensures keeps { KeepsCells (heap_of arena.old) (heap_of arena.new) }
    ensures place { result ≡ unwrap_or fresh cell }
{
    let Some(other) = fresh else {
        open_within(arena, cell, count, index);
        return cell;
    };
    move_open(arena, cell, other, count, index);
    other
}

/// Puts an entry in at an index of a leaf, in the cell that was carved for it or, without one, in its own, which has room. The leaf's
/// cell is freed where it moves. Answers where the leaf is now.
pub(crate) fn put_in_leaf(
    arena: &mut Arena,
    cell: u32,
    fresh: Option<u32>,
    index: u32,
    entry: ListEntry,
) -> u32
    requires { (entries : List Entry) × IsLeaf (heap_of arena.old) cell entries × (length entries < LEAF_LIMIT)
        × (index ≤ length entries) × HasRoomFor (heap_of arena.old) cell fresh (4 + 8 * suc (length entries)) }
    ensures leaf { (entries : List Entry) → IsLeaf (heap_of arena.old) cell entries → index ≤ length entries →
        IsLeaf (heap_of arena.new) result (with_one index entry entries) }
    ensures moves { Moves (heap_of arena.old) (heap_of arena.new) (cell ∷ taken fresh) (result ∷ []) }
    ensures long { length arena.new.bytes ≡ length arena.old.bytes }
    ensures keeps { KeepsCells (heap_of arena.old) (heap_of arena.new) }
    ensures place { result ≡ unwrap_or fresh cell }
{
    let count = count_entries(arena, cell);
    let leaf = open(arena, cell, fresh, count, index);
    fill(arena, leaf, index, count + 1, entry);
    leaf
}

/// Writes the first entry into a cell, as a leaf.
pub(crate) fn put_first(arena: &mut Arena, cell: u32, entry: ListEntry)
    requires room { HasRoom (heap_of arena.old) cell 12 }
    ensures leaf { IsLeaf (heap_of arena.new) cell (entry ∷ []) }
    ensures writes { Writes (heap_of arena.old) (heap_of arena.new) (cell ∷ []) }
    ensures long { length arena.new.bytes ≡ length arena.old.bytes }
    ensures keeps { KeepsCells (heap_of arena.old) (heap_of arena.new) }
{
    fill(arena, cell, 0, 1, entry);
}

/// Copies so many entries of a leaf, from an index on, into another cell, as a leaf.
pub(crate) fn copy_entries(arena: &mut Arena, cell: u32, from: u32, count: u32, other: u32)
    requires leaf { (entries : List Entry) × IsLeaf (heap_of arena.old) cell entries × (from + count ≤ length entries) }
    requires from { from ≤ LEAF_LIMIT }
    requires few { count ≤ LEAF_LIMIT }
    requires room { HasRoom (heap_of arena.old) other (4 + 8 * count) }
    requires apart { other ≢ cell }
    ensures leaf { (entries : List Entry) → IsLeaf (heap_of arena.old) cell entries → from + count ≤ length entries →
        IsLeaf (heap_of arena.new) other (take count (drop from entries)) }
    ensures writes { Writes (heap_of arena.old) (heap_of arena.new) (other ∷ []) }
    ensures long { length arena.new.bytes ≡ length arena.old.bytes }
    ensures keeps { KeepsCells (heap_of arena.old) (heap_of arena.new) }
{
    arena.copy(cell, 4 + 8 * from, other, 4, 8 * count);
    put_leaf_head(arena, other, count);
}
