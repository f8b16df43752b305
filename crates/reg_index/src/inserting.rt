//! A subkey added.

ghost use Rattle.std.specs.Prelude.{◌≡◌, ◌≢◌, ◌+◌, ◌*◌, ◌<◌, ◌≤◌, ◌++◌, ◌∷◌, [], ℕ, suc, List, Some, None, IsSome, Err, length, unwrap_or};
ghost use Rattle.reg_names.specs.Names.{folded};
ghost use Rattle.reg_heap.specs.declared.limits.TheConstants.{SUBKEYS_LIMIT};
ghost use Rattle.reg_heap.specs.Kinds.{times};
ghost use Rattle.reg_arena.specs.Arena.{heap_of};
ghost use Rattle.reg_records.specs.KeyNodes.{key_at};
ghost use Rattle.reg_records.specs.RecordCells.{HasRoom};
ghost use Rattle.reg_records.specs.SubkeyLists.{Entry};
ghost use Rattle.reg_shape.specs.Nodes.{KeyList, lists_of};
ghost use Rattle.reg_index.specs.Subkeys.{AreSubkeys, IsIndexFor, IsPlaceIn, IsReady, KeepsCells, Moves, each_of, entry_for, flat, index_of, insert_sizes};
ghost use Rattle.reg_index.specs.Subkeys.{exchanged, index_under, lists_with, name_at, names_in, numbered, own, taken, with_one};
ghost use Rattle.reg_index.specs.Internal.IndexLists.{AreExchanged, HasOneMore, HasRoomAt, HasRoomForTwo, IsOnce, grown, halves};

use crate::finding::{count_lists, leaf_at, name_of};
use crate::leaf::{put_first, put_in_leaf};
use crate::root::{put_halves, put_over, put_two};
use crate::splitting::split;
use crate::{IndexCells, Place, SubkeysIndex};
use reg_arena::Arena;
use reg_names::name_hash;
use reg_records::ListEntry;

/// Puts an entry in at a place whose list is not full, in the list's cell or in the one that was carved for it, and then its new
/// offset into the index root. Answers what the key names now.
fn insert_within(
    arena: &mut Arena,
    offset: u32,
    place: Place,
    fresh: Option<u32>,
    entry: ListEntry,
) -> u32
    requires { (lists : List KeyList) × HasRoomAt (heap_of arena.old) offset lists place fresh }
    ensures lists { (lists : List KeyList) → HasRoomAt (heap_of arena.old) offset lists place fresh →
        AreExchanged (heap_of arena.old) (heap_of arena.new) offset lists result
        (exchanged place.list (grown (numbered place.list lists) fresh place.index entry ∷ []) lists) (taken fresh) }
    ensures place { (lists : List KeyList) → HasRoomAt (heap_of arena.old) offset lists place fresh → 1 < length lists → result ≡ offset }
    ensures long { length arena.new.bytes ≡ length arena.old.bytes }
    ensures keeps { KeepsCells (heap_of arena.old) (heap_of arena.new) }
{
    let lists = count_lists(arena, offset);
    let leaf = leaf_at(arena, offset, place.list);
    let leaf = put_in_leaf(arena, leaf, fresh, place.index, entry);
    if lists == 1 {
        return leaf;
    }
    put_over(arena, offset, place.list, leaf);
    offset
}

/// Puts an entry in at a place whose list is full, which gives way to two in cells that were carved for them. Answers what the key
/// names now: the index root, which is new, moved to the cell that was carved for it, or where it was.
fn insert_splitting(
    arena: &mut Arena,
    offset: u32,
    place: Place,
    first: u32,
    second: u32,
    root: Option<u32>,
    entry: ListEntry,
) -> u32
    requires { (lists : List KeyList) × HasRoomForTwo (heap_of arena.old) offset lists place first second root }
    ensures lists { (lists : List KeyList) → HasRoomForTwo (heap_of arena.old) offset lists place first second root →
        AreExchanged (heap_of arena.old) (heap_of arena.new) offset lists result
        (exchanged place.list (halves first second (with_one place.index entry (numbered place.list lists).list.entries)) lists)
        (first ∷ second ∷ taken root) }
    ensures place { result ≡ unwrap_or root offset }
    ensures long { length arena.new.bytes ≡ length arena.old.bytes }
    ensures keeps { KeepsCells (heap_of arena.old) (heap_of arena.new) }
{
    let lists = count_lists(arena, offset);
    let leaf = leaf_at(arena, offset, place.list);
    split(arena, leaf, first, second, place.index, entry);
    if lists == 1 {
        let Some(cell) = root else { unreachable!() };
        put_two(arena, cell, first, second);
        return cell;
    }
    put_halves(arena, offset, lists, place.list, first, second, root)
}

/// Puts an entry in at a place, in the cells that were carved for it. Answers what the key names now.
fn insert_entry(
    arena: &mut Arena,
    list: SubkeysIndex,
    place: Place,
    cells: IndexCells,
    entry: ListEntry,
) -> u32
    requires subkeys { (entries : List Entry) × AreSubkeys (heap_of arena.old) list.count list.offset entries }
    requires place { IsPlaceIn (index_of (heap_of arena.old) list.count list.offset) place }
    requires few { list.count < SUBKEYS_LIMIT }
    requires ready { IsReady (heap_of arena.old) (insert_sizes (heap_of arena.old) list.count list.offset place) cells }
    requires once { IsOnce (own (heap_of arena.old) list.count list.offset ++ each_of cells) }
    ensures lists { (entries : List Entry) → AreSubkeys (heap_of arena.old) list.count list.offset entries →
        HasOneMore (heap_of arena.old) (heap_of arena.new) list.count list.offset place entry entries cells result }
    ensures long { length arena.new.bytes ≡ length arena.old.bytes }
    ensures keeps { KeepsCells (heap_of arena.old) (heap_of arena.new) }
{
    if list.count == 0 {
        let Some(cell) = cells.list else {
            unreachable!()
        };
        put_first(arena, cell, entry);
        return cell;
    }
    let Some(second) = cells.second else {
        return insert_within(arena, list.offset, place, cells.list, entry);
    };
    let Some(first) = cells.list else {
        unreachable!()
    };
    insert_splitting(arena, list.offset, place, first, second, cells.root, entry)
}

/// Puts a key among the subkeys, at the place that `find` gave as an `Err`, in the cells that were carved as `plan_insert` gave their
/// sizes. A list of 500 subkeys gives way to two, of the first 250 and the last 251; each other list stays in its cell. Answers where
/// the subkeys are now.
pub fn insert(
    arena: &mut Arena,
    list: SubkeysIndex,
    place: Place,
    cells: IndexCells,
    key: u32,
) -> SubkeysIndex
    requires subkeys { (entries : List Entry) × AreSubkeys (heap_of arena.old) list.count list.offset entries
        × IsIndexFor (names_in (heap_of arena.old) entries) (folded (name_at (heap_of arena.old) key))
        (Err (flat (heap_of arena.old) list.count list.offset place)) }
    requires place { IsPlaceIn (index_of (heap_of arena.old) list.count list.offset) place }
    requires few { list.count < SUBKEYS_LIMIT }
    requires key { IsSome (key_at (heap_of arena.old) key) }
    requires ready { IsReady (heap_of arena.old) (insert_sizes (heap_of arena.old) list.count list.offset place) cells }
    requires once { (z : ℕ) → times z (own (heap_of arena.old) list.count list.offset ++ each_of cells) ≤ 1 }
    ensures subkeys { (entries : List Entry) → AreSubkeys (heap_of arena.old) list.count list.offset entries →
        AreSubkeys (heap_of arena.new) result.count result.offset
        (with_one (flat (heap_of arena.old) list.count list.offset place) (entry_for (heap_of arena.old) key) entries) }
    ensures count { result.count ≡ list.count + 1 }
    ensures index { index_of (heap_of arena.new) result.count result.offset ≡ index_under (unwrap_or cells.root list.offset)
        (lists_with place (entry_for (heap_of arena.old) key) cells (lists_of (index_of (heap_of arena.old) list.count list.offset))) }
    ensures moves { Moves (heap_of arena.old) (heap_of arena.new)
        (own (heap_of arena.old) list.count list.offset ++ each_of cells)
        (own (heap_of arena.new) result.count result.offset) }
    ensures long { length arena.new.bytes ≡ length arena.old.bytes }
    ensures keeps { KeepsCells (heap_of arena.old) (heap_of arena.new) }
    ensures stay { (z : ℕ) → 0 < times z (each_of cells) → IsSome (heap_of arena.new z) }
{
    let hint = name_hash(name_of(arena, key));
    let offset = insert_entry(arena, list, place, cells, ListEntry { offset: key, hint });
    SubkeysIndex {
        count: list.count + 1,
        offset,
    }
}
