//! Subkeys, found and read.

ghost use Rattle.std.specs.Prelude.{◌≡◌, ◌+◌, ◌<◌, ◌≤◌, ◌↔◌, ℕ, List, true, Some, IsSome, IfSome, Err, MatchOption, MatchResult, max, length, get_or};
ghost use Rattle.std.specs.List.{fold};
ghost use Rattle.reg_names.specs.Names.{folded, hash};
ghost use Rattle.reg_heap.specs.declared.limits.TheConstants.{LEAF_LIMIT};
ghost use Rattle.reg_heap.specs.ByteWords.{half};
ghost use Rattle.reg_heap.specs.Heaps.{Heap};
ghost use Rattle.reg_arena.specs.Arena.{heap_of};
ghost use Rattle.reg_records.specs.KeyNodes.{key_at};
ghost use Rattle.reg_records.specs.SubkeyLists.{Entry, SubkeysList};
ghost use Rattle.reg_shape.specs.Nodes.{KeyList, list_at};
ghost use Rattle.reg_index.specs.Subkeys.{AreSubkeys, IsIndexFor, IsKeyNamed, IsPlaceIn, StandsIn, entries_in, flat, flat_among, flat_found, index_of, name_at, names_in, numbered};
ghost use Rattle.reg_index.specs.Internal.HashLeaves.{IsLeaf};
ghost use Rattle.reg_index.specs.Internal.IndexLists.{AreKeys, HasLists, StandsAmong};
ghost use Rattle.reg_index.specs.Internal.NameSearches.{Between, IsListFor};

use crate::order::order;
use crate::{Place, PlacedKey, SubkeysIndex};
use byteorder::{ByteOrder, LittleEndian};
use reg_arena::Arena;
use reg_names::name_hash;
use reg_records::{ListEntry, ListForm, ListHead, entry_at, nk_name, nk_name_length, read_list};
use std::cmp::Ordering;

/// How many entries of a leaf are looked along by their hashes, at most. Sixteen stand side by side in two or three lines of a
/// processor's cache. To halve them would be to read four or five key nodes more, each somewhere else.
const FEW_ENTRIES: u32 = 16;

/// The name of the key at an offset.
pub(crate) fn name_of(arena: &Arena, key: u32) -> &[u8]
    requires { IsSome (key_at (heap_of arena.now) key) }
    ensures { result.now ≡ name_at (heap_of arena.now) key }
{
    nk_name(arena.content(key))
}

/// The head of a list, by what its cell holds.
fn head_in(content: &[u8]) -> ListHead
    requires { (heap : Heap) × (cell : ℕ) × (l : SubkeysList) × (heap cell ≡ Some content.now) × (list_at heap cell ≡ Some l) }
    ensures form { (heap : Heap) → (cell : ℕ) → heap cell ≡ Some content.now →
        (l : SubkeysList) → list_at heap cell ≡ Some l → result.form ≡ l.form }
    ensures count { (heap : Heap) → (cell : ℕ) → heap cell ≡ Some content.now →
        (l : SubkeysList) → list_at heap cell ≡ Some l → result.count ≡ length l.entries }
    ensures fits { result.count < 65536 }
{
    let Ok(head) = read_list(content) else {
        unreachable!()
    };
    head
}

/// How many entries the list has that a cell holds: its second 16-bit number.
#[tactic(auto, unfolding(reg_heap::specs::ByteWords::half))]
fn count_at(content: &[u8]) -> u16
    requires { 4 ≤ length content.now }
    ensures { result ≡ half content.now 2 }
{
    LittleEndian::read_u16(&content[2..])
}

/// How many entries a leaf has, by what its cell holds. It reads no more than their number.
fn count_in(leaf: &[u8]) -> u32
    requires { (heap : Heap) × (offset : ℕ) × (entries : List Entry) × IsLeaf heap offset entries × (heap offset ≡ Some leaf.now) }
    ensures { (heap : Heap) → (offset : ℕ) → (entries : List Entry) → IsLeaf heap offset entries → heap offset ≡ Some leaf.now →
        result ≡ length entries }
{
    u32::from(count_at(leaf))
}

/// How many entries the leaf at an offset has.
pub(crate) fn count_entries(arena: &Arena, leaf: u32) -> u32
    requires { (entries : List Entry) × IsLeaf (heap_of arena.now) leaf entries }
    ensures { (entries : List Entry) → IsLeaf (heap_of arena.now) leaf entries → result ≡ length entries }
{
    count_in(arena.content(leaf))
}

/// How many lists there are, one leaf or those of an index root, by what the cell holds that the key names.
fn lists_in(root: &[u8]) -> u32
    requires { (heap : Heap) × (offset : ℕ) × (lists : List KeyList) × HasLists heap offset lists × (heap offset ≡ Some root.now)
        × (0 < length lists) }
    ensures count { (heap : Heap) → (offset : ℕ) → (lists : List KeyList) → HasLists heap offset lists → heap offset ≡ Some root.now →
        0 < length lists → result ≡ length lists }
    ensures fits { result < 65536 }
{
    let head = head_in(root);
    match head.form {
        ListForm::IndexRoot => u32::from(head.count),
        _ => 1,
    }
}

/// How many lists there are: one leaf, or those of an index root.
pub(crate) fn count_lists(arena: &Arena, offset: u32) -> u32
    requires { (lists : List KeyList) × HasLists (heap_of arena.now) offset lists × (0 < length lists) }
    ensures count { (lists : List KeyList) → HasLists (heap_of arena.now) offset lists → 0 < length lists → result ≡ length lists }
    ensures fits { result < 65536 }
{
    lists_in(arena.content(offset))
}

/// The offset of the list of a number, counted from 0.
pub(crate) fn leaf_at(arena: &Arena, offset: u32, number: u32) -> u32
    requires { (lists : List KeyList) × HasLists (heap_of arena.now) offset lists × (number < length lists) }
    ensures { (lists : List KeyList) → HasLists (heap_of arena.now) offset lists → number < length lists →
        (numbered number lists).offset ≡ result }
{
    let content = arena.content(offset);
    match head_in(content).form {
        ListForm::IndexRoot => { entry_at(content, ListForm::IndexRoot, number as u16).offset }
        _ => offset,
    }
}

/// What the cell of the list of a number holds, by what the cell holds that the key names. Where there is one list, that is its cell.
fn leaf_under<'a>(arena: &'a Arena, root: &'a [u8], number: u32) -> &'a [u8]
    requires { (offset : ℕ) × (lists : List KeyList) × HasLists (heap_of arena.now) offset lists × (heap_of arena.now offset ≡ Some root.now)
        × (number < length lists) }
    ensures { (offset : ℕ) → (lists : List KeyList) → HasLists (heap_of arena.now) offset lists → heap_of arena.now offset ≡ Some root.now →
        number < length lists → heap_of arena.now (numbered number lists).offset ≡ Some result.now }
{
    match head_in(root).form {
        ListForm::IndexRoot => {
            arena.content(entry_at(root, ListForm::IndexRoot, number as u16).offset)
        }
        _ => root,
    }
}

/// The entry at an index of a leaf, by what the leaf's cell holds.
fn entry_in(leaf: &[u8], index: u32) -> ListEntry
    requires leaf { (heap : Heap) × (offset : ℕ) × (entries : List Entry) × IsLeaf heap offset entries × (heap offset ≡ Some leaf.now)
        × (index < length entries) }
    requires few { index < LEAF_LIMIT }
    ensures { (heap : Heap) → (offset : ℕ) → (entries : List Entry) → IsLeaf heap offset entries → heap offset ≡ Some leaf.now →
        index < length entries → get_or entries index (record { offset = 0; hint = 0 }) ≡ result }
{
    entry_at(leaf, ListForm::HashLeaf, index as u16)
}

/// The offset of the key at an index of a leaf, by what the leaf's cell holds.
fn offset_in(leaf: &[u8], index: u32) -> u32
    requires leaf { (heap : Heap) × (offset : ℕ) × (entries : List Entry) × IsLeaf heap offset entries × (heap offset ≡ Some leaf.now)
        × (index < length entries) }
    requires few { index < LEAF_LIMIT }
    ensures { (heap : Heap) → (offset : ℕ) → (entries : List Entry) → IsLeaf heap offset entries → heap offset ≡ Some leaf.now →
        index < length entries → (get_or entries index (record { offset = 0; hint = 0 })).offset ≡ result }
{
    entry_in(leaf, index).offset
}

/// The offset of the key at an index of the leaf at an offset.
fn key_in(arena: &Arena, leaf: u32, index: u32) -> u32
    requires leaf { (entries : List Entry) × IsLeaf (heap_of arena.now) leaf entries × (index < length entries) }
    requires few { index < LEAF_LIMIT }
    ensures { (entries : List Entry) → IsLeaf (heap_of arena.now) leaf entries → index < length entries →
        (get_or entries index (record { offset = 0; hint = 0 })).offset ≡ result }
{
    offset_in(arena.content(leaf), index)
}

/// Where the entry at an index among those of all lists stands. It reads the numbers of entries of the lists before, and no more of them.
fn place_of(arena: &Arena, offset: u32, index: u32) -> Place
    requires { (lists : List KeyList) × HasLists (heap_of arena.now) offset lists × (index < length (entries_in lists)) }
    ensures { (lists : List KeyList) → HasLists (heap_of arena.now) offset lists → index < length (entries_in lists) →
        StandsAmong lists result × (flat_among lists result ≡ index) }
{
    let mut place = Place { list: 0, index };
    if count_lists(arena, offset) == 1 {
        return place;
    }
    let root = arena.content(offset);
    loop {
        let leaf = entry_at(root, ListForm::IndexRoot, place.list as u16).offset;
        let count = count_entries(arena, leaf);
        if place.index < count {
            return place;
        }
        place = Place {
            list: place.list + 1,
            index: place.index - count,
        };
    }
}

/// The offset of the key at an index, counted from 0 in the order of folded names. Of each list before it reads one word.
pub fn at(arena: &Arena, list: SubkeysIndex, index: u32) -> u32
    requires subkeys { (entries : List Entry) × AreSubkeys (heap_of arena.now) list.count list.offset entries }
    requires index { index < list.count }
    ensures { (entries : List Entry) → AreSubkeys (heap_of arena.now) list.count list.offset entries →
        (get_or entries index (record { offset = 0; hint = 0 })).offset ≡ result }
{
    let place = place_of(arena, list.offset, index);
    let row = leaf_under(arena, arena.content(list.offset), place.list);
    offset_in(row, place.index)
}

/// The place of the subkey at an index, counted from 0 in the order of folded names. Of each list before it reads one word.
pub fn place_at(arena: &Arena, list: SubkeysIndex, index: u32) -> Place
    requires subkeys { (entries : List Entry) × AreSubkeys (heap_of arena.now) list.count list.offset entries }
    requires index { index < list.count }
    ensures { StandsIn (index_of (heap_of arena.now) list.count list.offset) result
        × (flat (heap_of arena.now) list.count list.offset result ≡ index) }
{
    place_of(arena, list.offset, index)
}

/// The offset of the key at a place.
pub fn at_place(arena: &Arena, list: SubkeysIndex, place: Place) -> u32
    requires subkeys { (entries : List Entry) × AreSubkeys (heap_of arena.now) list.count list.offset entries }
    requires place { StandsIn (index_of (heap_of arena.now) list.count list.offset) place }
    ensures { (entries : List Entry) → AreSubkeys (heap_of arena.now) list.count list.offset entries →
        (get_or entries (flat (heap_of arena.now) list.count list.offset place) (record { offset = 0; hint = 0 })).offset ≡ result }
{
    let leaf = leaf_under(arena, arena.content(list.offset), place.list);
    offset_in(leaf, place.index)
}

/// The place of the subkey behind the one at a place, in the order of folded names, if there is one. It reads two numbers: how many
/// entries the place's list has and, where that was its last, how many lists there are.
pub fn place_behind(arena: &Arena, list: SubkeysIndex, place: Place) -> Option<Place>
    requires subkeys { (entries : List Entry) × AreSubkeys (heap_of arena.now) list.count list.offset entries }
    requires place { StandsIn (index_of (heap_of arena.now) list.count list.offset) place }
    ensures { (entries : List Entry) → AreSubkeys (heap_of arena.now) list.count list.offset entries →
        MatchOption result (length entries ≤ flat (heap_of arena.now) list.count list.offset place + 1)
        (λ next. StandsIn (index_of (heap_of arena.now) list.count list.offset) next
        × (flat (heap_of arena.now) list.count list.offset next ≡ flat (heap_of arena.now) list.count list.offset place + 1)) }
{
    let leaf = leaf_under(arena, arena.content(list.offset), place.list);
    let index = place.index + 1;
    if index < count_in(leaf) {
        return Some(Place {
            list: place.list,
            index,
        });
    }
    let lists = count_lists(arena, list.offset);
    let number = place.list + 1;
    if number < lists {
        return Some(Place {
            list: number,
            index: 0,
        });
    }
    None
}

/// The subkey behind the one at a place, in the order of folded names, if there is one. In the place's list the list's cell is looked up
/// once.
pub fn key_behind(arena: &Arena, list: SubkeysIndex, place: Place) -> Option<PlacedKey>
    requires subkeys { (entries : List Entry) × AreSubkeys (heap_of arena.now) list.count list.offset entries }
    requires place { StandsIn (index_of (heap_of arena.now) list.count list.offset) place }
    ensures place { (entries : List Entry) → AreSubkeys (heap_of arena.now) list.count list.offset entries →
        MatchOption result (length entries ≤ flat (heap_of arena.now) list.count list.offset place + 1)
        (λ next. StandsIn (index_of (heap_of arena.now) list.count list.offset) next.place
        × (flat (heap_of arena.now) list.count list.offset next.place ≡ flat (heap_of arena.now) list.count list.offset place + 1)) }
    ensures key { (entries : List Entry) → AreSubkeys (heap_of arena.now) list.count list.offset entries →
        IfSome result (λ next. (get_or entries (flat (heap_of arena.now) list.count list.offset next.place) (record { offset = 0; hint = 0 })).offset
        ≡ next.key) }
{
    let leaf = leaf_under(arena, arena.content(list.offset), place.list);
    let next = Place {
        list: place.list,
        index: place.index + 1,
    };
    if next.index < count_in(leaf) {
        return Some(PlacedKey {
            place: next,
            key: offset_in(leaf, next.index),
        });
    }
    let first = place_behind(arena, list, place)?;
    Some(PlacedKey {
        place: first,
        key: at_place(arena, list, first),
    })
}

/// The offset of the key behind the one at a place, in the order of folded names, if there is one.
pub fn behind(arena: &Arena, list: SubkeysIndex, place: Place) -> Option<u32>
    requires subkeys { (entries : List Entry) × AreSubkeys (heap_of arena.now) list.count list.offset entries }
    requires place { StandsIn (index_of (heap_of arena.now) list.count list.offset) place }
    ensures { (entries : List Entry) → AreSubkeys (heap_of arena.now) list.count list.offset entries →
        MatchOption result (length entries ≤ flat (heap_of arena.now) list.count list.offset place + 1)
        (λ key. (flat (heap_of arena.now) list.count list.offset place + 1 < length entries)
        × ((get_or entries (flat (heap_of arena.now) list.count list.offset place + 1) (record { offset = 0; hint = 0 })).offset ≡ key)) }
{
    let next = place_behind(arena, list, place)?;
    Some(at_place(arena, list, next))
}

/// The offset of the list of a number of an index root, by what the root's cell holds.
fn leaf_in(root: &[u8], number: u32) -> u32
    requires root { (heap : Heap) × (offset : ℕ) × (lists : List KeyList) × HasLists heap offset lists × (heap offset ≡ Some root.now)
        × (1 < length lists) × (number < length lists) }
    requires few { number < 65536 }
    ensures { (heap : Heap) → (offset : ℕ) → (lists : List KeyList) → HasLists heap offset lists → heap offset ≡ Some root.now →
        1 < length lists → number < length lists → (numbered number lists).offset ≡ result }
{
    entry_at(root, ListForm::IndexRoot, number as u16).offset
}

/// The number of the list in which a name stands or belongs: of the last one that begins with it or a name before it, or else of
/// the first one. It is told what the cell holds that the key names.
fn list_for(arena: &Arena, root: &[u8], name: &[u8]) -> u32
    requires { (offset : ℕ) × (lists : List KeyList) × HasLists (heap_of arena.now) offset lists × (heap_of arena.now offset ≡ Some root.now)
        × (0 < length lists) × AreKeys (heap_of arena.now) (entries_in lists) }
    ensures { (offset : ℕ) → (lists : List KeyList) → HasLists (heap_of arena.now) offset lists → heap_of arena.now offset ≡ Some root.now →
        0 < length lists → AreKeys (heap_of arena.now) (entries_in lists) → IsListFor (heap_of arena.now) lists (folded name.now) result }
{
    let mut low = 1;
    let mut high = lists_in(root);
    while low < high {
        let middle = low + (high - low) / 2;
        let first = key_in(arena, leaf_in(root, middle), 0);
        match order(name_of(arena, first), name) {
            Ordering::Less | Ordering::Equal => low = middle + 1,
            Ordering::Greater => high = middle,
        }
    }
    low - 1
}

/// Where a name stands in a leaf, by what the leaf's cell holds, or as an `Err` where it belongs there: a binary search that reads
/// names in their cells.
fn find_in(arena: &Arena, leaf: &[u8], name: &[u8]) -> Result<u32, u32>
    requires { (offset : ℕ) × (entries : List Entry) × IsLeaf (heap_of arena.now) offset entries
        × (heap_of arena.now offset ≡ Some leaf.now) × AreKeys (heap_of arena.now) entries × (length entries ≤ LEAF_LIMIT) }
    ensures { (offset : ℕ) → (entries : List Entry) → IsLeaf (heap_of arena.now) offset entries →
        heap_of arena.now offset ≡ Some leaf.now → AreKeys (heap_of arena.now) entries →
        IsIndexFor (names_in (heap_of arena.now) entries) (folded name.now) result }
{
    let mut low = 0;
    let mut high = count_in(leaf);
    while low < high {
        let middle = low + (high - low) / 2;
        match order(name_of(arena, offset_in(leaf, middle)), name) {
            Ordering::Less => low = middle + 1,
            Ordering::Equal => return Ok(middle),
            Ordering::Greater => high = middle,
        }
    }
    Err(low)
}

/// The entries of a leaf among which a name stands or belongs, by what the leaf's cell holds: those from the first index up to the
/// second. It halves by names that it reads in their cells, but only until few entries are left: the names that the last halvings would
/// read are other ones at each look-up, so that the processor's caches seldom have them.
fn narrow(arena: &Arena, leaf: &[u8], name: &[u8]) -> (u32, u32)
    requires { (offset : ℕ) × (entries : List Entry) × IsLeaf (heap_of arena.now) offset entries
        × (heap_of arena.now offset ≡ Some leaf.now) × AreKeys (heap_of arena.now) entries × (length entries ≤ LEAF_LIMIT) }
    ensures { (offset : ℕ) → (entries : List Entry) → IsLeaf (heap_of arena.now) offset entries →
        heap_of arena.now offset ≡ Some leaf.now → AreKeys (heap_of arena.now) entries →
        Between (names_in (heap_of arena.now) entries) (folded name.now) result.0 result.1 }
{
    let mut low = 0;
    let mut high = count_in(leaf);
    while high - low > FEW_ENTRIES {
        let middle = low + (high - low) / 2;
        let key = offset_in(leaf, middle);
        match order(name_of(arena, key), name) {
            Ordering::Less | Ordering::Equal => low = middle,
            Ordering::Greater => high = middle,
        }
    }
    (low, high)
}

/// Whether an entry is that of a name, by the name's hash and the name. It reads the key's name only where the hashes are equal. Names
/// that differ may have one hash, so the names decide.
fn is_of(arena: &Arena, entry: ListEntry, name: &[u8], sought: u32) -> bool
    requires key { IsSome (key_at (heap_of arena.now) entry.offset) }
    requires hint { entry.hint ≡ hash (name_at (heap_of arena.now) entry.offset) }
    requires sought { sought ≡ hash name.now }
    ensures { (result ≡ true) ↔ (folded (name_at (heap_of arena.now) entry.offset) ≡ folded name.now) }
{
    entry.hint == sought && order(name_of(arena, entry.offset), name) == Ordering::Equal
}

/// The offset of the key of a name that stands or belongs among the entries of a leaf from one index up to another, if there is one: a
/// look along their hashes. It is told what the leaf's cell holds.
fn find_between(arena: &Arena, leaf: &[u8], name: &[u8], low: u32, high: u32) -> Option<u32>
    requires { (offset : ℕ) × (entries : List Entry) × IsLeaf (heap_of arena.now) offset entries
        × (heap_of arena.now offset ≡ Some leaf.now) × AreKeys (heap_of arena.now) entries × (length entries ≤ LEAF_LIMIT)
        × Between (names_in (heap_of arena.now) entries) (folded name.now) low high }
    ensures { (offset : ℕ) → (entries : List Entry) → IsLeaf (heap_of arena.now) offset entries →
        heap_of arena.now offset ≡ Some leaf.now → AreKeys (heap_of arena.now) entries →
        Between (names_in (heap_of arena.now) entries) (folded name.now) low high →
        IsKeyNamed (heap_of arena.now) entries (folded name.now) result }
{
    let sought = name_hash(name);
    for index in low..high {
        let entry = entry_in(leaf, index);
        if is_of(arena, entry, name, sought) {
            return Some(entry.offset);
        }
    }
    None
}

/// The offset of the key of a name in a leaf, if there is one, by what the leaf's cell holds: halvings by names until few entries are
/// left, and then a look along their hashes. Of 500 entries it reads five key nodes, and the one that is found; halvings alone would
/// read up to nine.
fn find_by_hash(arena: &Arena, leaf: &[u8], name: &[u8]) -> Option<u32>
    requires { (offset : ℕ) × (entries : List Entry) × IsLeaf (heap_of arena.now) offset entries
        × (heap_of arena.now offset ≡ Some leaf.now) × AreKeys (heap_of arena.now) entries × (length entries ≤ LEAF_LIMIT) }
    ensures { (offset : ℕ) → (entries : List Entry) → IsLeaf (heap_of arena.now) offset entries →
        heap_of arena.now offset ≡ Some leaf.now → AreKeys (heap_of arena.now) entries →
        IsKeyNamed (heap_of arena.now) entries (folded name.now) result }
{
    let (low, high) = narrow(arena, leaf, name);
    find_between(arena, leaf, name, low, high)
}

/// The place behind all subkeys, of which there are some, where a name belongs that comes after the last one's. It looks at that one
/// alone, so that keys that come in the order of their names, as those of an image do, are put in without a search. It is told what the
/// cell holds that the key names.
fn place_behind_all(arena: &Arena, root: &[u8], name: &[u8]) -> Option<Place>
    requires { (offset : ℕ) × (lists : List KeyList) × HasLists (heap_of arena.now) offset lists × (heap_of arena.now offset ≡ Some root.now)
        × (0 < length lists) × AreKeys (heap_of arena.now) (entries_in lists) }
    ensures { (offset : ℕ) → (lists : List KeyList) → HasLists (heap_of arena.now) offset lists → heap_of arena.now offset ≡ Some root.now →
        0 < length lists → AreKeys (heap_of arena.now) (entries_in lists) →
        IfSome result (λ place. IsListFor (heap_of arena.now) lists (folded name.now) place.list
        × IsIndexFor (names_in (heap_of arena.now) (numbered place.list lists).list.entries) (folded name.now) (Err place.index)) }
{
    let list = lists_in(root) - 1;
    let leaf = leaf_under(arena, root, list);
    let index = count_in(leaf);
    let last = offset_in(leaf, index - 1);
    match order(name_of(arena, last), name) {
        Ordering::Less => Some(Place { list, index }),
        Ordering::Equal | Ordering::Greater => None,
    }
}

/// Where a name stands among the subkeys, or as an `Err` where it belongs: behind all others, by the last one alone, or else by a
/// binary search among the lists, and one in a list.
pub fn find(arena: &Arena, list: SubkeysIndex, name: &[u8]) -> Result<Place, Place>
    requires { (entries : List Entry) × AreSubkeys (heap_of arena.now) list.count list.offset entries }
    ensures index { (entries : List Entry) → AreSubkeys (heap_of arena.now) list.count list.offset entries →
        IsIndexFor (names_in (heap_of arena.now) entries) (folded name.now)
        (flat_found (heap_of arena.now) list.count list.offset result) }
    ensures place { MatchResult result
        (λ place. StandsIn (index_of (heap_of arena.now) list.count list.offset) place)
        (λ place. IsPlaceIn (index_of (heap_of arena.now) list.count list.offset) place) }
{
    if list.count == 0 {
        return Err(Place { list: 0, index: 0 });
    }
    let root = arena.content(list.offset);
    if let Some(place) = place_behind_all(arena, root, name) {
        return Err(place);
    }
    let number = list_for(arena, root, name);
    match find_in(arena, leaf_under(arena, root, number), name) {
        Ok(index) => Ok(Place {
            list: number,
            index,
        }),
        Err(index) => Err(Place {
            list: number,
            index,
        }),
    }
}

/// The offset of the key of a name, if there is one: a binary search among the lists, and in one list halvings by names until few entries
/// are left, of which their hashes tell the key. It tells no place, and doesn't look at the last name first, since a name that is asked
/// for is seldom behind all others.
pub fn find_key(arena: &Arena, list: SubkeysIndex, name: &[u8]) -> Option<u32>
    requires { (entries : List Entry) × AreSubkeys (heap_of arena.now) list.count list.offset entries }
    ensures { (entries : List Entry) → AreSubkeys (heap_of arena.now) list.count list.offset entries →
        IsKeyNamed (heap_of arena.now) entries (folded name.now) result }
{
    if list.count == 0 {
        return None;
    }
    let root = arena.content(list.offset);
    let number = list_for(arena, root, name);
    find_by_hash(arena, leaf_under(arena, root, number), name)
}

/// How long the name of the key at an offset is. It reads no more of the key than this number.
fn name_length(arena: &Arena, key: u32) -> u32
    requires { IsSome (key_at (heap_of arena.now) key) }
    ensures { result ≡ length (name_at (heap_of arena.now) key) }
{
    u32::from(nk_name_length(arena.content(key)))
}

/// The length of the longest name among the keys of a leaf, by what the leaf's cell holds, or a length that is greater.
fn longest_in(arena: &Arena, leaf: &[u8], least: u32) -> u32
    requires { (offset : ℕ) × (entries : List Entry) × IsLeaf (heap_of arena.now) offset entries
        × (heap_of arena.now offset ≡ Some leaf.now) × AreKeys (heap_of arena.now) entries × (length entries ≤ LEAF_LIMIT) }
    ensures { (offset : ℕ) → (entries : List Entry) → IsLeaf (heap_of arena.now) offset entries →
        heap_of arena.now offset ≡ Some leaf.now → AreKeys (heap_of arena.now) entries →
        result ≡ fold (λ a (e : Entry). max a (length (name_at (heap_of arena.now) e.offset))) least entries }
{
    let mut longest = least;
    for index in 0..count_in(leaf) {
        longest = longest.max(name_length(arena, offset_in(leaf, index)));
    }
    longest
}

/// The length of the longest name among the subkeys, in bytes; 0 of none. It goes once over the lists and reads one number of each key.
pub fn longest_name(arena: &Arena, list: SubkeysIndex) -> u32
    requires { (entries : List Entry) × AreSubkeys (heap_of arena.now) list.count list.offset entries }
    ensures { (entries : List Entry) → AreSubkeys (heap_of arena.now) list.count list.offset entries →
        result ≡ fold (λ a (e : Entry). max a (length (name_at (heap_of arena.now) e.offset))) 0 entries }
{
    let mut longest = 0;
    if list.count == 0 {
        return longest;
    }
    let root = arena.content(list.offset);
    for number in 0..lists_in(root) {
        longest = longest_in(arena, leaf_under(arena, root, number), longest);
    }
    longest
}
