//! The last list of a key's subkeys, given room for more of them.

ghost use Rattle.std.specs.Prelude.{◌≡◌, ◌≢◌, ◌+◌, ◌*◌, ◌<◌, ◌≤◌, ◌++◌, ◌∷◌, [], ℕ, List, None, IsSome, min, length};
ghost use Rattle.reg_heap.specs.declared.limits.TheConstants.{LEAF_LIMIT};
ghost use Rattle.reg_heap.specs.Kinds.{times};
ghost use Rattle.reg_arena.specs.Arena.{heap_of};
ghost use Rattle.reg_records.specs.KeyNodes.{key_at};
ghost use Rattle.reg_records.specs.RecordCells.{HasRoom};
ghost use Rattle.reg_records.specs.SubkeyLists.{Entry};
ghost use Rattle.reg_shape.specs.Nodes.{KeyList, lists_of};
ghost use Rattle.reg_index.specs.Lengthening.{last_list, last_moved, last_of, longer_in, longer_size};
ghost use Rattle.reg_index.specs.Subkeys.{AreSubkeys, KeepsCells, Moves, index_of, index_under, own};
ghost use Rattle.reg_index.specs.Internal.HashLeaves.{IsLeaf};
ghost use Rattle.reg_index.specs.Internal.IndexLists.{AreExchanged, HasLists, HasRoomForLast};

use crate::SubkeysIndex;
use crate::finding::{count_entries, count_lists, leaf_at};
use crate::leaf::copy_entries;
use crate::root::put_over;
use reg_arena::Arena;
use reg_heap::limits::LEAF_LIMIT;

/// How many entries a list of so many is to have room for: so many more, and at most 500.
fn entries_wanted(count: u32, more: u32) -> u32
    requires { count ≤ LEAF_LIMIT }
    ensures { result ≡ min LEAF_LIMIT (count + more) }
{
    if more >= LEAF_LIMIT - count {
        return LEAF_LIMIT;
    }
    count + more
}

/// The size of the cell that a list of so many subkeys takes with so many more, or with 500; `None` where its cell has room.
fn plan_longer_leaf(arena: &Arena, leaf: u32, count: u32, more: u32) -> Option<u32>
    requires leaf { (entries : List Entry) × IsLeaf (heap_of arena.now) leaf entries × (length entries ≡ count) }
    requires few { count ≤ LEAF_LIMIT }
    ensures { (list : KeyList) → list.offset ≡ leaf → length list.list.entries ≡ count →
        result ≡ longer_in (heap_of arena.now) list more }
{
    let needed = 4 + 8 * entries_wanted(count, more);
    if arena.content(leaf).len() >= needed as usize {
        return None;
    }
    Some(needed + 4)
}

/// The offset of the last list.
fn last_leaf(arena: &Arena, offset: u32) -> u32
    requires { (lists : List KeyList) × HasLists (heap_of arena.now) offset lists × (0 < length lists) }
    ensures { (lists : List KeyList) → HasLists (heap_of arena.now) offset lists → 0 < length lists → (last_of lists).offset ≡ result }
{
    leaf_at(arena, offset, count_lists(arena, offset) - 1)
}

/// The size of the cell that the last list of a key's subkeys takes to have room for so many more, or for 500 in all, its size field
/// counted; `None` where its cell has the room. There are subkeys. `more` may be any number.
pub fn plan_longer(arena: &Arena, list: SubkeysIndex, more: u32) -> Option<u32>
    requires subkeys { (entries : List Entry) × AreSubkeys (heap_of arena.now) list.count list.offset entries }
    requires some { 0 < list.count }
    ensures { result ≡ longer_size (heap_of arena.now) list.count list.offset more }
{
    let leaf = last_leaf(arena, list.offset);
    plan_longer_leaf(arena, leaf, count_entries(arena, leaf), more)
}

/// Moves a leaf to another cell, which has room for its entries, and frees its own.
fn move_leaf(arena: &mut Arena, leaf: u32, cell: u32)
    requires leaf { (entries : List Entry) × IsLeaf (heap_of arena.old) leaf entries × (length entries ≤ LEAF_LIMIT)
        × HasRoom (heap_of arena.old) cell (4 + 8 * length entries) }
    requires apart { cell ≢ leaf }
    ensures leaf { (entries : List Entry) → IsLeaf (heap_of arena.old) leaf entries → IsLeaf (heap_of arena.new) cell entries }
    ensures moves { Moves (heap_of arena.old) (heap_of arena.new) (leaf ∷ cell ∷ []) (cell ∷ []) }
    ensures long { length arena.new.bytes ≡ length arena.old.bytes }
    ensures keeps { KeepsCells (heap_of arena.old) (heap_of arena.new) }
{
    let count = count_entries(arena, leaf);
    copy_entries(arena, leaf, 0, count, cell);
    arena.free(leaf);
}

/// Moves the last list to the cell that was carved for it, and writes its new offset into the index root where there is one. Answers
/// what the key names now.
fn move_last(arena: &mut Arena, offset: u32, cell: u32) -> u32
    requires { (lists : List KeyList) × HasRoomForLast (heap_of arena.old) offset lists cell }
    ensures lists { (lists : List KeyList) → HasRoomForLast (heap_of arena.old) offset lists cell →
        AreExchanged (heap_of arena.old) (heap_of arena.new) offset lists result (last_moved cell lists) (cell ∷ []) }
    ensures place { (lists : List KeyList) → HasRoomForLast (heap_of arena.old) offset lists cell → 1 < length lists → result ≡ offset }
    ensures long { length arena.new.bytes ≡ length arena.old.bytes }
    ensures keeps { KeepsCells (heap_of arena.old) (heap_of arena.new) }
{
    let lists = count_lists(arena, offset);
    let leaf = leaf_at(arena, offset, lists - 1);
    move_leaf(arena, leaf, cell);
    if lists == 1 {
        return cell;
    }
    put_over(arena, offset, lists - 1, cell);
    offset
}

/// Moves the last list of a key's subkeys to a cell that was carved for it, of the size that `plan_longer` gave or of any other that has
/// room for its entries, and frees its own. The entries stay as they are, and so does each other list. Answers where the subkeys are now.
pub fn lengthen(arena: &mut Arena, list: SubkeysIndex, cell: u32) -> SubkeysIndex
    requires subkeys { (entries : List Entry) × AreSubkeys (heap_of arena.old) list.count list.offset entries }
    requires some { 0 < list.count }
    requires ready { HasRoom (heap_of arena.old) cell (4 + 8 * length (last_list (index_of (heap_of arena.old) list.count list.offset)).list.entries) }
    requires bare { key_at (heap_of arena.old) cell ≡ None }
    requires once { (z : ℕ) → times z (own (heap_of arena.old) list.count list.offset ++ cell ∷ []) ≤ 1 }
    ensures subkeys { (entries : List Entry) → AreSubkeys (heap_of arena.old) list.count list.offset entries →
        AreSubkeys (heap_of arena.new) result.count result.offset entries }
    ensures count { result.count ≡ list.count }
    ensures index { index_of (heap_of arena.new) result.count result.offset ≡
        index_under list.offset (last_moved cell (lists_of (index_of (heap_of arena.old) list.count list.offset))) }
    ensures moves { Moves (heap_of arena.old) (heap_of arena.new)
        (own (heap_of arena.old) list.count list.offset ++ cell ∷ []) (own (heap_of arena.new) result.count result.offset) }
    ensures long { length arena.new.bytes ≡ length arena.old.bytes }
    ensures keeps { KeepsCells (heap_of arena.old) (heap_of arena.new) }
    ensures stay { IsSome (heap_of arena.new cell) }
{
    let offset = move_last(arena, list.offset, cell);
    SubkeysIndex {
        count: list.count,
        offset,
    }
}
