//! An index root in its cell: an offset set, one put in, one taken out, and the root moved to another cell.

ghost use Rattle.std.specs.Prelude.{◌≡◌, ◌≢◌, ◌+◌, ◌*◌, ◌<◌, ◌≤◌, ◌++◌, ℕ, suc, ◌∷◌, [], List, length, take, drop, unwrap_or};
ghost use Rattle.reg_heap.specs.Heaps.{Writes};
ghost use Rattle.reg_arena.specs.Arena.{heap_of};
ghost use Rattle.reg_records.specs.declared.lists.ListForm.TheVariants.{IndexRoot};
ghost use Rattle.reg_records.specs.RecordCells.{HasRoom, WritesPart, held};
ghost use Rattle.reg_records.specs.SubkeyLists.{head_bytes};
ghost use Rattle.reg_index.specs.Subkeys.{KeepsCells, Moves, taken};
ghost use Rattle.reg_index.specs.Internal.IndexLists.{HasRoomFor, IsRoot};

use reg_arena::Arena;
use reg_records::{ListEntry, ListForm, ListHead, put_entry, put_head, put_list};

/// An index root's entry for the list at an offset.
fn plain(offset: u32) -> ListEntry
    ensures { result ≡ record { offset = offset; hint = 0 } }
{
    ListEntry { offset, hint: 0 }
}

/// Writes an index root of two lists into a cell.
pub(crate) fn put_two(arena: &mut Arena, cell: u32, first: u32, second: u32)
    requires { HasRoom (heap_of arena.old) cell 12 }
    ensures root { IsRoot (heap_of arena.new) cell (first ∷ second ∷ []) }
    ensures writes { Writes (heap_of arena.old) (heap_of arena.new) (cell ∷ []) }
    ensures long { length arena.new.bytes ≡ length arena.old.bytes }
    ensures keeps { KeepsCells (heap_of arena.old) (heap_of arena.new) }
{
    let entries = [plain(first), plain(second)];
    put_list(arena, cell, ListForm::IndexRoot, &entries);
}

/// Writes the offset of a number, counted from 0, over the one that is there.
pub(crate) fn put_over(arena: &mut Arena, root: u32, number: u32, offset: u32)
    requires root { (offsets : List ℕ) × IsRoot (heap_of arena.old) root offsets × (number < length offsets) }
    requires few { number < 65536 }
    ensures root { (offsets : List ℕ) → IsRoot (heap_of arena.old) root offsets → number < length offsets →
        IsRoot (heap_of arena.new) root (take number offsets ++ offset ∷ drop (suc number) offsets) }
    ensures writes { Writes (heap_of arena.old) (heap_of arena.new) (root ∷ []) }
    ensures long { length arena.new.bytes ≡ length arena.old.bytes }
    ensures keeps { KeepsCells (heap_of arena.old) (heap_of arena.new) }
{
    put_entry(
        arena,
        root,
        ListForm::IndexRoot,
        number as u16,
        plain(offset),
    );
}

/// Writes the head of an index root of so many lists.
fn put_root_head(arena: &mut Arena, root: u32, lists: u32)
    requires room { HasRoom (heap_of arena.old) root 4 }
    requires few { lists < 65536 }
    ensures { WritesPart arena.old arena.new root 0 (head_bytes IndexRoot lists) }
{
    put_head(
        arena,
        root,
        ListHead {
            form: ListForm::IndexRoot,
            count: lists as u16,
        },
    );
}

/// Puts an offset in at a number of the index root of so many lists, which has room for it; the later ones move up.
fn put_in(arena: &mut Arena, root: u32, lists: u32, number: u32, offset: u32)
    requires root { (offsets : List ℕ) × IsRoot (heap_of arena.old) root offsets × (length offsets ≡ lists) }
    requires number { number ≤ lists }
    requires few { lists + 1 < 65536 }
    requires room { 4 + 4 * (lists + 1) ≤ length (held (heap_of arena.old) root) }
    ensures root { (offsets : List ℕ) → IsRoot (heap_of arena.old) root offsets → length offsets ≡ lists →
        IsRoot (heap_of arena.new) root (take number offsets ++ offset ∷ drop number offsets) }
    ensures writes { Writes (heap_of arena.old) (heap_of arena.new) (root ∷ []) }
    ensures long { length arena.new.bytes ≡ length arena.old.bytes }
    ensures keeps { KeepsCells (heap_of arena.old) (heap_of arena.new) }
{
    arena.shift(root, 4 + 4 * number, 8 + 4 * number, 4 * (lists - number));
    put_entry(
        arena,
        root,
        ListForm::IndexRoot,
        number as u16,
        plain(offset),
    );
    put_root_head(arena, root, lists + 1);
}

/// Takes the offset of a number out of an index root, of which so many are left; the later ones close up.
pub(crate) fn take_out(arena: &mut Arena, root: u32, left: u32, number: u32)
    requires root { (offsets : List ℕ) × IsRoot (heap_of arena.old) root offsets × (length offsets ≡ left + 1) }
    requires number { number ≤ left }
    requires few { left < 65536 }
    ensures root { (offsets : List ℕ) → IsRoot (heap_of arena.old) root offsets → length offsets ≡ left + 1 →
        IsRoot (heap_of arena.new) root (take number offsets ++ drop (suc number) offsets) }
    ensures writes { Writes (heap_of arena.old) (heap_of arena.new) (root ∷ []) }
    ensures long { length arena.new.bytes ≡ length arena.old.bytes }
    ensures keeps { KeepsCells (heap_of arena.old) (heap_of arena.new) }
{
    arena.shift(root, 8 + 4 * number, 4 + 4 * number, 4 * (left - number));
    put_root_head(arena, root, left);
}

/// Moves an index root of so many lists to the cell that was carved for it and frees its own, or leaves it where there is none.
/// Answers where it is now.
fn move_to(arena: &mut Arena, root: u32, lists: u32, fresh: Option<u32>) -> u32
    requires root { (offsets : List ℕ) × IsRoot (heap_of arena.old) root offsets × (length offsets ≡ lists) }
    requires few { lists < 65536 }
    requires room { HasRoomFor (heap_of arena.old) root fresh (4 + 4 * (lists + 1)) }
    ensures root { (offsets : List ℕ) → IsRoot (heap_of arena.old) root offsets → IsRoot (heap_of arena.new) result offsets }
    ensures moves { Moves (heap_of arena.old) (heap_of arena.new) (root ∷ taken fresh) (result ∷ []) }
    ensures room { 4 + 4 * (lists + 1) ≤ length (held (heap_of arena.new) result) }
    ensures long { length arena.new.bytes ≡ length arena.old.bytes }
    ensures keeps { KeepsCells (heap_of arena.old) (heap_of arena.new) }
    ensures place { result ≡ unwrap_or fresh root }
{
    let Some(cell) = fresh else {
        return root;
    };
    arena.copy(root, 0, cell, 0, 4 + 4 * lists);
    arena.free(root);
    cell
}

/// Puts the offsets of two lists in the stead of the one of a number, into an index root of so many lists: in the cell that was carved
/// for it, or, without one, in its own, which has room. Answers where it is now.
pub(crate) fn put_halves(
    arena: &mut Arena,
    root: u32,
    lists: u32,
    number: u32,
    first: u32,
    second: u32,
    fresh: Option<u32>,
) -> u32
    requires root { (offsets : List ℕ) × IsRoot (heap_of arena.old) root offsets × (length offsets ≡ lists) }
    requires number { number < lists }
    requires few { lists + 1 < 65536 }
    requires room { HasRoomFor (heap_of arena.old) root fresh (4 + 4 * (lists + 1)) }
    ensures root { (offsets : List ℕ) → IsRoot (heap_of arena.old) root offsets → length offsets ≡ lists →
        IsRoot (heap_of arena.new) result (take number offsets ++ first ∷ second ∷ drop (suc number) offsets) }
    ensures moves { Moves (heap_of arena.old) (heap_of arena.new) (root ∷ taken fresh) (result ∷ []) }
    ensures long { length arena.new.bytes ≡ length arena.old.bytes }
    ensures keeps { KeepsCells (heap_of arena.old) (heap_of arena.new) }
    ensures place { result ≡ unwrap_or fresh root }
{
    let root = move_to(arena, root, lists, fresh);
    put_over(arena, root, number, first);
    put_in(arena, root, lists, number + 1, second);
    root
}
