//! A value set.
//!
//! Win32 registry reference, `RegSetValueEx`; Suhanov, Windows registry file format specification, section "Key values list".

ghost use Rattle.std.specs.Prelude.{◌≡◌, ◌≢◌, true, ◌≤◌, ◌<◌, ◌+◌, ◌⊎◌, ℕ, List, Some, None, Err, length, IfOk, OnOk, OnErr};
ghost use Rattle.reg_names.specs.Names.{is_value_name};
ghost use Rattle.reg_heap.specs.declared.limits.TheConstants.{BINS_LIMIT, DATA_LIMIT, GROWTH_BOUND, VALUES_LIMIT};
ghost use Rattle.reg_heap.specs.Paths.{Member};
ghost use Rattle.reg_heap.specs.Kinds.{Found};
ghost use Rattle.reg_heap.specs.Members.{values_with, index_named};
ghost use Rattle.reg_arena.specs.Arena.{heap_of};
ghost use Rattle.reg_arena.specs.NewCells.{total_of};
ghost use Rattle.reg_arena.specs.Carves.{NoFit};
ghost use Rattle.reg_arena.specs.EachCell.{GrowsFor};
ghost use Rattle.reg_arena.specs.NewBin.{PassesLimit};
ghost use Rattle.reg_shape.specs.Nodes.{members_at};
ghost use Rattle.reg_values.specs.ValueLists.{AreValues, IsNamed, Became, KeepsSizes, Makes, OfRead, UnusedAreZero};
ghost use Rattle.reg_values.specs.ValueSizes.{set_sizes};

use crate::ValuesList;
use crate::add::add;
use crate::finding::{cell_of, find};
use crate::replace::replace;
use reg_arena::{Arena, ArenaFault};
use std::alloc::Global;

/// Sets a value at the place that [`find`] told for its name: the value at that index keeps its place and its name and gets
/// the type and the data; without a place, a new one goes to the end, for which there must be room below 16,384 values. No
/// name is searched for. Answers the list as it is then; what falls away is freed, and data that needs a cell of the old one's
/// size is written there. A list that moved has 0 for each offset that its cell has room for and no value uses.
///
/// All cells of the change are carved before anything is written, by
/// [`carve_change`](reg_arena::Arena::carve_change) and with the sizes of [`plan_set`](crate::plan_set).
/// [`ArenaFault::Full`]: no free cell has room for them, and with a bin more there would be more than 268,435,456 bytes of
/// bins. [`ArenaFault::Memory`]: a growth was refused. After either the arena is as before. The bins grow only where no free
/// cell has room for all of the cells, and by at most 1,310,720 bytes.
pub fn set_at(
    alloc: Global,
    arena: &mut Arena,
    list: ValuesList,
    place: Option<u32>,
    name: &[u8],
    kind: u32,
    bytes: &[u8],
) -> Result<ValuesList, ArenaFault>
    requires values { AreValues (heap_of arena.old) list.count list.offset }
    requires place { OfRead (members_at list.count list.offset) (heap_of arena.old) (λ members met. place ≡ index_named name.now members) }
    requires name { is_value_name name.now ≡ true }
    requires bytes { length bytes.now ≤ DATA_LIMIT }
    requires room { place ≡ None → list.count < VALUES_LIMIT }
    ensures ok { IfOk result (λ after. OfRead (members_at list.count list.offset) (heap_of arena.old)
        (λ members met. Became (heap_of arena.old) (heap_of arena.new) met after.count after.offset
        (values_with name.now kind bytes.now members))) }
    ensures unused { IfOk result (λ after. after.offset ≢ list.offset → UnusedAreZero (heap_of arena.new) after.count after.offset) }
    ensures cells { OnOk result (Makes (heap_of arena.old) (heap_of arena.new)
        (set_sizes (heap_of arena.old) list.count list.offset name.now (length bytes.now))) }
    ensures stay { OnOk result (KeepsSizes (heap_of arena.old) (heap_of arena.new)) }
    ensures err { OnErr result (arena.new ≡ arena.old) }
    ensures some { result ≡ Err ArenaFault.Full →
        0 < length (set_sizes (heap_of arena.old) list.count list.offset name.now (length bytes.now)) }
    ensures full { result ≡ Err ArenaFault.Full →
        NoFit arena.old.bytes (total_of (set_sizes (heap_of arena.old) list.count list.offset name.now (length bytes.now))) }
    ensures limit { result ≡ Err ArenaFault.Full →
        PassesLimit arena.old.bytes
        (total_of (set_sizes (heap_of arena.old) list.count list.offset name.now (length bytes.now))) }
    ensures near { result ≡ Err ArenaFault.Full → BINS_LIMIT < length arena.old.bytes + GROWTH_BOUND }
    ensures grows { OnOk result (length arena.new.bytes ≤ length arena.old.bytes + GROWTH_BOUND) }
    ensures growth { OnOk result (GrowsFor arena.old.bytes arena.new.bytes
        (set_sizes (heap_of arena.old) list.count list.offset name.now (length bytes.now))) }
    ensures kept { OnOk result (length arena.old.bytes ≤ length arena.new.bytes) }
{
    let Some(index) = place else {
        return add(alloc, arena, list, name, kind, bytes);
    };
    let cell = cell_of(arena, list, index);
    replace(alloc, arena, cell, kind, bytes)?;
    Ok(list)
}

/// Sets a value: one of that name, after folding, keeps its place and its name and gets the type and the data; a new one
/// goes to the end, where there is room below 16,384 values. It is a search for the name and then [`set_at`]. Answers the list
/// as it is then.
///
/// [`ArenaFault::Full`] and [`ArenaFault::Memory`] as `set_at` has them. After either the arena is as before. The bins grow only
/// where no free cell has room for all of the cells, and by at most 1,310,720 bytes.
pub fn set(
    alloc: Global,
    arena: &mut Arena,
    list: ValuesList,
    name: &[u8],
    kind: u32,
    bytes: &[u8],
) -> Result<ValuesList, ArenaFault>
    requires values { AreValues (heap_of arena.old) list.count list.offset }
    requires name { is_value_name name.now ≡ true }
    requires bytes { length bytes.now ≤ DATA_LIMIT }
    requires room { (list.count < VALUES_LIMIT) ⊎ IsNamed (heap_of arena.old) list.count list.offset name.now }
    ensures ok { IfOk result (λ after. OfRead (members_at list.count list.offset) (heap_of arena.old)
        (λ members met. Became (heap_of arena.old) (heap_of arena.new) met after.count after.offset
        (values_with name.now kind bytes.now members))) }
    ensures unused { IfOk result (λ after. after.offset ≢ list.offset → UnusedAreZero (heap_of arena.new) after.count after.offset) }
    ensures cells { OnOk result (Makes (heap_of arena.old) (heap_of arena.new)
        (set_sizes (heap_of arena.old) list.count list.offset name.now (length bytes.now))) }
    ensures stay { OnOk result (KeepsSizes (heap_of arena.old) (heap_of arena.new)) }
    ensures err { OnErr result (arena.new ≡ arena.old) }
    ensures some { result ≡ Err ArenaFault.Full →
        0 < length (set_sizes (heap_of arena.old) list.count list.offset name.now (length bytes.now)) }
    ensures full { result ≡ Err ArenaFault.Full →
        NoFit arena.old.bytes (total_of (set_sizes (heap_of arena.old) list.count list.offset name.now (length bytes.now))) }
    ensures limit { result ≡ Err ArenaFault.Full →
        PassesLimit arena.old.bytes
        (total_of (set_sizes (heap_of arena.old) list.count list.offset name.now (length bytes.now))) }
    ensures near { result ≡ Err ArenaFault.Full → BINS_LIMIT < length arena.old.bytes + GROWTH_BOUND }
    ensures grows { OnOk result (length arena.new.bytes ≤ length arena.old.bytes + GROWTH_BOUND) }
    ensures growth { OnOk result (GrowsFor arena.old.bytes arena.new.bytes
        (set_sizes (heap_of arena.old) list.count list.offset name.now (length bytes.now))) }
    ensures kept { OnOk result (length arena.old.bytes ≤ length arena.new.bytes) }
{
    let place = find(arena, list, name);
    set_at(alloc, arena, list, place, name, kind, bytes)
}
