//! The sizes of the cells that a subkey more takes.

ghost use Rattle.std.specs.Prelude.{◌≡◌, ◌≤◌, ◌<◌, List, length};
ghost use Rattle.reg_heap.specs.declared.limits.TheConstants.{LEAF_LIMIT};
ghost use Rattle.reg_arena.specs.Arena.{heap_of};
ghost use Rattle.reg_records.specs.SubkeyLists.{Entry};
ghost use Rattle.reg_shape.specs.Nodes.{KeyList};
ghost use Rattle.reg_index.specs.Subkeys.{AreSubkeys, IsPlaceIn, grown_size, index_of, index_under, insert_sizes, root_sizes};
ghost use Rattle.reg_index.specs.Internal.HashLeaves.{IsLeaf};
ghost use Rattle.reg_index.specs.Internal.IndexLists.{HasLists};

use crate::finding::{count_entries, count_lists, leaf_at};
use crate::{IndexCells, Place, SubkeysIndex};
use reg_arena::{Arena, cell_size};
use reg_heap::limits::LEAF_LIMIT;

/// The size of the cell of a list of one subkey, in bytes, its size field counted.
pub const FIRST_LIST_SIZE: u32 = 16;

/// How many subkeys the first of two lists gets where a full one gives way to them.
pub const FIRST_HALF: u32 = 250;

/// How many subkeys the second gets, the one that comes counted.
pub const SECOND_HALF: u32 = 251;

/// The size of the cell that an index root takes with one list more than there are; `None` where its cell has room.
fn plan_root(arena: &Arena, offset: u32) -> Option<u32>
    requires { (lists : List KeyList) × HasLists (heap_of arena.now) offset lists × (0 < length lists) }
    ensures { (lists : List KeyList) → HasLists (heap_of arena.now) offset lists → 0 < length lists →
        result ≡ root_sizes (heap_of arena.now) (index_under offset lists) }
{
    let lists = count_lists(arena, offset);
    if lists == 1 {
        return Some(cell_size(12));
    }
    let needed = 4 + 4 * (lists + 1);
    if arena.content(offset).len() >= needed as usize {
        return None;
    }
    Some(cell_size(needed))
}

/// The size of the cell that a list of so many subkeys takes with one more; `None` where its cell has room.
fn plan_leaf(arena: &Arena, leaf: u32, count: u32) -> Option<u32>
    requires leaf { (entries : List Entry) × IsLeaf (heap_of arena.now) leaf entries × (length entries ≡ count) }
    requires few { count ≤ LEAF_LIMIT }
    ensures { (list : KeyList) → list.offset ≡ leaf → length list.list.entries ≡ count →
        result ≡ grown_size (heap_of arena.now) list }
{
    let needed = 4 + 8 * (count + 1);
    if arena.content(leaf).len() >= needed as usize {
        return None;
    }
    Some(needed + 4)
}

/// The sizes of the cells that one subkey more takes at a place, their size fields counted; none where the cells that are there have
/// room. A list of 500 subkeys gives way to two.
pub fn plan_insert(arena: &Arena, list: SubkeysIndex, place: Place) -> IndexCells
    requires subkeys { (entries : List Entry) × AreSubkeys (heap_of arena.now) list.count list.offset entries }
    requires place { IsPlaceIn (index_of (heap_of arena.now) list.count list.offset) place }
    ensures { result ≡ insert_sizes (heap_of arena.now) list.count list.offset place }
{
    if list.count == 0 {
        return IndexCells {
            list: Some(FIRST_LIST_SIZE),
            second: None,
            root: None,
        };
    }
    let leaf = leaf_at(arena, list.offset, place.list);
    let count = count_entries(arena, leaf);
    if count == LEAF_LIMIT {
        return IndexCells {
            list: Some(8 + 8 * FIRST_HALF),
            second: Some(8 + 8 * SECOND_HALF),
            root: plan_root(arena, list.offset),
        };
    }
    IndexCells {
        list: plan_leaf(arena, leaf, count),
        second: None,
        root: None,
    }
}
