//! A subkey removed.

ghost use Rattle.std.specs.Prelude.{◌≡◌, ◌+◌, ◌<◌, [], List, length};
ghost use Rattle.reg_arena.specs.Arena.{heap_of};
ghost use Rattle.reg_records.specs.SubkeyLists.{Entry};
ghost use Rattle.reg_shape.specs.Nodes.{KeyList, lists_of};
ghost use Rattle.reg_index.specs.Subkeys.{AreSubkeys, KeepsCells, Moves, StandsIn, exchanged, flat, index_of, index_under, lists_without, own, without};
ghost use Rattle.reg_index.specs.Internal.IndexLists.{AreExchanged, HasLists, IsOnce, StandsAmong, cells_under};

use crate::finding::{count_entries, count_lists, leaf_at};
use crate::leaf::close;
use crate::root::take_out;
use crate::{Place, SubkeysIndex};
use reg_arena::Arena;
use reg_heap::limits::NONE;

/// Frees the list of a number, which is empty. An index root loses its offset, and one left with one list is freed and gives way to
/// that. Answers what the key names now.
fn drop_list(arena: &mut Arena, offset: u32, number: u32) -> u32
    requires { (lists : List KeyList) × HasLists (heap_of arena.old) offset lists × (number < length lists)
        × IsOnce (cells_under offset lists) }
    ensures lists { (lists : List KeyList) → HasLists (heap_of arena.old) offset lists → number < length lists →
        IsOnce (cells_under offset lists) →
        AreExchanged (heap_of arena.old) (heap_of arena.new) offset lists result (exchanged number [] lists) [] }
    ensures place { (lists : List KeyList) → HasLists (heap_of arena.old) offset lists → number < length lists → 2 < length lists →
        result ≡ offset }
    ensures long { length arena.new.bytes ≡ length arena.old.bytes }
    ensures keeps { KeepsCells (heap_of arena.old) (heap_of arena.new) }
{
    let lists = count_lists(arena, offset);
    let leaf = leaf_at(arena, offset, number);
    if lists == 1 {
        arena.free(leaf);
        return NONE;
    }
    if lists == 2 {
        let other = leaf_at(arena, offset, 1 - number);
        arena.free(leaf);
        arena.free(offset);
        return other;
    }
    arena.free(leaf);
    take_out(arena, offset, lists - 1, number);
    offset
}

/// Takes an entry out of the lists; the later ones of its list close up. Answers what the key names now.
fn remove_entry(arena: &mut Arena, offset: u32, place: Place) -> u32
    requires { (lists : List KeyList) × HasLists (heap_of arena.old) offset lists × StandsAmong lists place
        × IsOnce (cells_under offset lists) }
    ensures lists { (lists : List KeyList) → HasLists (heap_of arena.old) offset lists → StandsAmong lists place →
        IsOnce (cells_under offset lists) →
        AreExchanged (heap_of arena.old) (heap_of arena.new) offset lists result (lists_without place lists) [] }
    ensures place { (lists : List KeyList) → HasLists (heap_of arena.old) offset lists → StandsAmong lists place →
        1 < length (lists_without place lists) → result ≡ offset }
    ensures long { length arena.new.bytes ≡ length arena.old.bytes }
    ensures keeps { KeepsCells (heap_of arena.old) (heap_of arena.new) }
{
    let leaf = leaf_at(arena, offset, place.list);
    let left = count_entries(arena, leaf) - 1;
    if left == 0 {
        return drop_list(arena, offset, place.list);
    }
    close(arena, leaf, left, place.index);
    offset
}

/// Takes the key at a place out of the subkeys; the later ones of its list close up in the list's cell. A list left empty is freed, and
/// so is an index root left with one list; each other list stays in its cell. Answers where the subkeys are now.
pub fn remove(arena: &mut Arena, list: SubkeysIndex, place: Place) -> SubkeysIndex
    requires subkeys { (entries : List Entry) × AreSubkeys (heap_of arena.old) list.count list.offset entries }
    requires place { StandsIn (index_of (heap_of arena.old) list.count list.offset) place }
    ensures subkeys { (entries : List Entry) → AreSubkeys (heap_of arena.old) list.count list.offset entries →
        AreSubkeys (heap_of arena.new) result.count result.offset
        (without (flat (heap_of arena.old) list.count list.offset place) entries) }
    ensures count { result.count + 1 ≡ list.count }
    ensures index { index_of (heap_of arena.new) result.count result.offset ≡
        index_under list.offset (lists_without place (lists_of (index_of (heap_of arena.old) list.count list.offset))) }
    ensures moves { Moves (heap_of arena.old) (heap_of arena.new)
        (own (heap_of arena.old) list.count list.offset) (own (heap_of arena.new) result.count result.offset) }
    ensures long { length arena.new.bytes ≡ length arena.old.bytes }
    ensures keeps { KeepsCells (heap_of arena.old) (heap_of arena.new) }
{
    let offset = remove_entry(arena, list.offset, place);
    SubkeysIndex {
        count: list.count - 1,
        offset,
    }
}
