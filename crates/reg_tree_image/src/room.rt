//! Room for the cells of keys that are built anew: it is made for many keys at once, so that little of the bins stays free.
//!
//! A bin for each key would be a number of whole pages, of which nearly a half may stay free. Room for many has one rest alone.

ghost use Rattle.std.specs.Prelude.{◌≡◌, ◌≤◌, ◌<◌, ◌%◌, IfSome};
ghost use Rattle.reg_tree.specs.TreeKeys.{IsThere};
ghost use Rattle.reg_tree_image.specs.CrowdedBins.{IsReserved, IsListRoomier};

use crate::cells::content;
use crate::free_cells::free_bytes;
use crate::key_parts::KeyParts;
use crate::keys::NamedKey;
use crate::table::{CellState, CellTable};
use crate::values::ReadValue;
use reg_arena::Arena;
use reg_heap::limits::{LEAF_LIMIT, SUBKEYS_LIMIT, VALUES_LIMIT};
use reg_records::{KeyNode, ValueRecord, read_nk, read_sk, read_vk};
use reg_tree::{Node, Tree};
use std::alloc::Global;

/// For how many bytes of cells room is made at once, at most.
pub const MOST_ROOM: u32 = 524_288;

/// Cells of so many bytes have a bin of their own: less than a tenth of it stays free.
const OWN_BIN: u32 = 40_960;

/// How many subkeys the first of two lists gets where a full one gives way to them.
const HALF: u32 = 250;

/// The most bytes that are counted of one text.
const MOST_COUNTED: usize = 16_777_216;

/// The bit of a value's size that says that its data stands in the record.
const INLINE: u32 = 0x8000_0000;

/// How a tree is built.
#[derive(Clone, Copy)]
pub struct Building {
    /// What its memory comes from.
    pub alloc: Global,
    /// Whether room is made ahead. Where it isn't, each key takes just its cells.
    pub ahead: bool,
    /// How many bytes of cells are to be built, where that is known.
    pub to_build: Option<u32>,
}

/// How many bytes of cells are to be built, and for how many of them there is room. Both are estimates: what is built by them is the
/// same tree whatever they say.
#[derive(Drop)]
pub struct Room {
    /// The bytes of the cells that are still to come.
    left: u32,
    /// For how many of them a free cell is kept.
    kept: u32,
    /// The size of the bins when room was made last.
    bins: u32,
    /// Whether what comes has a bin of its own.
    beside: bool,
}

impl Room {
    /// No room yet, for cells of so many bytes.
    pub fn new(left: u32) -> Room {
        Room {
            left,
            kept: 0,
            bins: 0,
            beside: false,
        }
    }

    /// Notes the bins of one root, whose cells have so many bytes.
    pub fn begin(&mut self, size: u32, arena: &Arena) {
        self.left = self.left.saturating_sub(size);
        self.kept = free_bytes(arena);
        self.bins = arena.bins_size();
    }

    /// Looks at the size of the bins. Where they grew, and not by a bin of its own for what came, that didn't fit in what was kept, which
    /// is used up.
    fn look(&mut self, bins: u32) {
        if self.bins < bins && !self.beside {
            self.kept = 0;
        }
        self.bins = bins;
        self.beside = false;
    }

    /// Notes that cells of a size come, and answers the size that room is to be made for, if what is kept is too little.
    fn take(&mut self, size: u32) -> Option<u32>
        ensures { IfSome result (λ size. (size % 8 ≡ 0) × (0 < size) × (size ≤ MOST_ROOM)) }
    {
        let left = self.left;
        self.left = left.saturating_sub(size);
        if size <= self.kept {
            self.kept -= size;
            return None;
        }
        if size >= OWN_BIN {
            self.beside = true;
            return room_size(size);
        }
        let wanted = size.max(left.min(MOST_ROOM));
        self.kept = wanted - size;
        room_size(wanted)
    }
}

/// A size as that of a cell for which room is made, if it isn't too large.
fn room_size(size: u32) -> Option<u32>
    ensures { IfSome result (λ size. (size % 8 ≡ 0) × (0 < size) × (size ≤ MOST_ROOM)) }
{
    if size == 0 || size > MOST_ROOM {
        return None;
    }
    Some((size + 7) / 8 * 8)
}

/// How many bytes the cell of so many has, at most.
fn cell_bytes(count: usize) -> u32
    ensures { result ≤ 16777240 }
{
    (count.min(MOST_COUNTED) as u32 + 11) / 8 * 8
}

/// How many bytes the cell has that is taken for so many, if there are some.
fn cell_bytes_if_some(count: usize) -> u32
    ensures { result ≤ 16777240 }
{
    if count == 0 { 0 } else { cell_bytes(count) }
}

/// How many bytes the cells of a key have without its values: its key node, its class, and its security unless it shares one.
pub fn key_bytes(named: &NamedKey<'_>, parts: &KeyParts<'_>, shares: bool) -> u32 {
    let node = cell_bytes(76 + named.name.as_slice().len().min(MOST_COUNTED));
    let security = if shares {
        0
    } else {
        cell_bytes(20 + parts.descriptor.len().min(MOST_COUNTED))
    };
    node + cell_bytes_if_some(parts.class.len()) + security
}

/// How many bytes the cells of a value have, of a name and data of so many. Data of up to four bytes stands in the record; such of more
/// than 16,344 bytes has a cell for each so many, and a list of these.
fn value_bytes(name: usize, size: usize) -> u32
    ensures { result ≤ 50331720 }
{
    let record = cell_bytes(20 + name.min(MOST_COUNTED));
    if size <= 4 {
        return record;
    }
    let data = cell_bytes(size);
    if size <= 16_344 {
        return record + data;
    }
    record + data + 24 + data / 16_344 * 16
}

/// How many bytes the cells of all values of a key have.
pub fn values_bytes(values: &[ReadValue<'_>]) -> u32 {
    let mut all = cell_bytes_if_some(values.len().min(MOST_COUNTED / 4) * 4);
    for value in values {
        all = all.saturating_add(value_bytes(
            value.name.as_slice().len(),
            value.bytes.as_slice().len(),
        ));
    }
    all
}

/// How many bytes the cells have that are built of a key node: its own, those of its lists of subkeys and of values, and its class's.
fn built_of_key(node: &KeyNode<'_>) -> u32 {
    let subkeys = 8 * node.fields.subkeys.min(SUBKEYS_LIMIT) as usize;
    let values = 4 * node.fields.values.min(VALUES_LIMIT) as usize;
    cell_bytes(76 + node.name.len().min(MOST_COUNTED))
        + cell_bytes_if_some(subkeys)
        + cell_bytes_if_some(values)
        + cell_bytes_if_some(usize::from(node.fields.class_length))
}

/// The same of a value's record: its own, and those of its data.
fn built_of_value(value: &ValueRecord<'_>) -> u32 {
    let size = value.fields.size;
    let outside = if size < INLINE { size as usize } else { 0 };
    value_bytes(value.name.len(), outside)
}

/// About how many bytes the cells have that are built of what a cell holds. What is no record of a key, a value or a security is a part of
/// one.
fn bytes_built_of(content: &[u8]) -> u32 {
    if let Ok(node) = read_nk(content) {
        return built_of_key(&node);
    }
    if let Ok(value) = read_vk(content) {
        return built_of_value(&value);
    }
    match read_sk(content) {
        Ok(security) => cell_bytes(20 + security.descriptor.len().min(MOST_COUNTED)),
        Err(_) => 0,
    }
}

/// About how many bytes the cells have that are built of the allocated ones of foreign bins.
pub fn bytes_to_build(bins: &[u8], table: &CellTable) -> u32 {
    let mut to_build = 0u32;
    let mut offset = 0u32;
    for state in table.states.as_slice() {
        if *state != CellState::Unallocated {
            to_build = to_build.saturating_add(bytes_built_of(content(bins, offset)));
        }
        offset = offset.wrapping_add(8);
    }
    to_build
}

/// How many bytes the lists have that come with one subkey more of a key that has so many, where they are built in their order: the first
/// list has 16, and one of 500 subkeys gives way to two, below an index root.
fn list_bytes(subkeys: u32) -> u32
    ensures { result ≤ 5000 }
{
    if subkeys == 0 {
        return 16;
    }
    if subkeys < LEAF_LIMIT || subkeys % HALF != 0 {
        return 0;
    }
    16 * HALF + 24 + 8 * (subkeys / HALF).min(64)
}

/// Makes room for cells of a size that come. Where it can't be had, the tree stays as it is: what comes tells what it lacks.
fn make_room(building: Building, tree: &mut Tree, room: &mut Room, size: u32)
    ensures { IsReserved building.ahead tree.old tree.new }
{
    if !building.ahead {
        return;
    }
    room.look(tree.arena().bins_size());
    let Some(wanted) = room.take(size) else {
        return;
    };
    if tree.reserve(building.alloc, wanted).is_ok() {
        room.bins = tree.arena().bins_size();
    }
}

/// Makes room for the values of a root that was built.
pub fn make_root_room(
    building: Building,
    tree: &mut Tree,
    room: &mut Room,
    values: &[ReadValue<'_>],
)
    ensures { IsReserved building.ahead tree.old tree.new }
{
    make_room(building, tree, room, values_bytes(values))
}

/// Makes room for a key that is built below another one, with its values.
pub fn make_key_room(
    building: Building,
    tree: &mut Tree,
    room: &mut Room,
    above: Node,
    own: u32,
    values: u32,
)
    requires { IsThere tree.old above }
    ensures { IsReserved building.ahead tree.old tree.new }
{
    let list = list_bytes(tree.subkeys(above));
    make_room(
        building,
        tree,
        room,
        own.saturating_add(list).saturating_add(values),
    )
}

/// How many subkeys the last list has of a key that has so many, where they are built in their order.
fn listed_last(subkeys: u32) -> u32
    ensures { result ≤ 500 }
{
    if subkeys <= LEAF_LIMIT {
        return subkeys;
    }
    HALF + 1 + (subkeys - LEAF_LIMIT - 1) % HALF
}

/// Whether the last list of a key that has so many subkeys was just made.
fn is_new_list(subkeys: u32) -> bool {
    subkeys == 1 || subkeys > LEAF_LIMIT && subkeys % HALF == 1
}

/// Gives the last list of a key's subkeys room for so many more, where it was just made, or where these begin a list of the image: each of
/// them would move it. Where room can't be had, the tree stays as it is.
pub fn make_list_room(
    building: Building,
    tree: &mut Tree,
    room: &mut Room,
    above: Node,
    more: u16,
    begins: bool,
)
    requires { IsThere tree.old above }
    ensures { IsListRoomier building.ahead tree.old tree.new }
{
    let subkeys = tree.subkeys(above);
    if !building.ahead || subkeys == 0 {
        return;
    }
    if !begins && !is_new_list(subkeys) {
        return;
    }
    let entries = LEAF_LIMIT.min(listed_last(subkeys) + u32::from(more));
    make_room(building, tree, room, 8 + 8 * entries);
    if let Ok(()) = tree.lengthen_list(building.alloc, above, u32::from(more)) {
        // Only for its clauses `whole` and `sound`.
        let _ = tree.arena();
    }
}
