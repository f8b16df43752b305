//! Values put at once behind those that a key has.
//!
//! Suhanov, Windows registry file format specification, sections "Cell", "Key values list", "Key value" and "Big data".

ghost use Rattle.std.specs.Prelude.{◌≡◌, ◌≤◌, ◌<◌, ◌+◌, ◌*◌, ◌++◌, ℕ, List, Err, length, IfOk, OnOk, OnErr};
ghost use Rattle.reg_heap.specs.declared.limits.TheConstants.{VALUES_LIMIT};
ghost use Rattle.reg_heap.specs.Paths.{Member};
ghost use Rattle.reg_arena.specs.declared.TheConstants.{CARVE_LIMIT};
ghost use Rattle.reg_arena.specs.Arena.{heap_of};
ghost use Rattle.reg_arena.specs.NewCells.{total_of};
ghost use Rattle.reg_arena.specs.Carves.{NoFit};
ghost use Rattle.reg_arena.specs.EachCell.{GrowsFor};
ghost use Rattle.reg_arena.specs.NewBin.{PassesLimit};
ghost use Rattle.reg_records.specs.RecordCells.{HasRoom};
ghost use Rattle.reg_shape.specs.Nodes.{members_at};
ghost use Rattle.reg_values.specs.ValueLists.{AreValues, Became, KeepsSizes, Makes, OfRead, UnusedAreZero};
ghost use Rattle.reg_values.specs.NewValues.{all_told, MayFollow, each_value_sizes};

use crate::ValuesList;
use crate::making::{NewValue, fill};
use crate::plan::plan_more;
use reg_arena::{Arena, ArenaFault};
use std::alloc::Global;

/// Adds values, one or more, in cells of these sizes.
fn extend_sized(
    alloc: Global,
    arena: &mut Arena,
    list: ValuesList,
    values: &[NewValue<'_>],
    sizes: &[u32],
) -> Result<ValuesList, ArenaFault>
    requires some { 0 < length values.now }
    requires values { AreValues (heap_of arena.old) list.count list.offset }
    requires there { 0 < list.count }
    requires room { HasRoom (heap_of arena.old) list.offset (4 * (list.count + length values.now)) }
    requires few { list.count + length values.now ≤ VALUES_LIMIT }
    requires new { OfRead (members_at list.count list.offset) (heap_of arena.old) (λ members met. MayFollow members (all_told values.now)) }
    requires sizes { sizes.now ≡ each_value_sizes (all_told values.now) }
    requires fits { total_of sizes.now ≤ CARVE_LIMIT }
    ensures ok { IfOk result (λ after. OfRead (members_at list.count list.offset) (heap_of arena.old)
        (λ members met. Became (heap_of arena.old) (heap_of arena.new) met after.count after.offset (members ++ all_told values.now))) }
    ensures same { IfOk result (λ after. after.offset ≡ list.offset) }
    ensures cells { OnOk result (Makes (heap_of arena.old) (heap_of arena.new) sizes.now) }
    ensures stay { OnOk result (KeepsSizes (heap_of arena.old) (heap_of arena.new)) }
    ensures room { (n : ℕ) → HasRoom (heap_of arena.old) list.offset n → OnOk result (HasRoom (heap_of arena.new) list.offset n) }
    ensures unused { UnusedAreZero (heap_of arena.old) list.count list.offset →
        IfOk result (λ after. UnusedAreZero (heap_of arena.new) after.count after.offset) }
    ensures growth { OnOk result (GrowsFor arena.old.bytes arena.new.bytes sizes.now) }
    ensures err { OnErr result (arena.new ≡ arena.old) }
    ensures space { result ≡ Err ArenaFault.Full →
        (0 < length sizes.now) × NoFit arena.old.bytes (total_of sizes.now) × PassesLimit arena.old.bytes (total_of sizes.now) }
    ensures grows { OnOk result (length arena.new.bytes ≤ length arena.old.bytes + 4127 + total_of sizes.now) }
    ensures kept { OnOk result (length arena.old.bytes ≤ length arena.new.bytes) }
{
    let Ok(mut cells) = Vec::with_capacity(alloc, sizes.len()) else {
        return Err(ArenaFault::Memory);
    };
    arena.carve(sizes, &mut cells)?;
    fill(arena, list.offset, list.count, &cells, values);
    Ok(ValuesList {
        count: list.count + values.len() as u32,
        offset: list.offset,
    })
}

/// Adds values, in their order, behind those of a list whose cell has room for all of them, and answers the list, which stays in
/// its cell. Of none the arena is as before. Where each offset that no value uses was 0, it still is. One
/// [`carve`](reg_arena::Arena::carve) takes all cells side by side, so that they may have at most 16,777,216 bytes together, as
/// [`front_of_one_more_carve`](crate::front_of_one_more_carve) tells. The time that it takes grows with how much there is to
/// write. The bins grow by at most 4,127 bytes and those of the cells, and only where no free cell has room for all of them.
///
/// [`ArenaFault::Full`]: no free cell has room for all cells together, and with a bin more for them there would be more than
/// 268,435,456 bytes of bins. [`ArenaFault::Memory`]: a growth was refused. After either the arena is as before.
pub fn extend(
    alloc: Global,
    arena: &mut Arena,
    list: ValuesList,
    values: &[NewValue<'_>],
) -> Result<ValuesList, ArenaFault>
    requires values { AreValues (heap_of arena.old) list.count list.offset }
    requires there { 0 < list.count }
    requires room { HasRoom (heap_of arena.old) list.offset (4 * (list.count + length values.now)) }
    requires few { list.count + length values.now ≤ VALUES_LIMIT }
    requires new { OfRead (members_at list.count list.offset) (heap_of arena.old) (λ members met. MayFollow members (all_told values.now)) }
    requires fits { total_of (each_value_sizes (all_told values.now)) ≤ CARVE_LIMIT }
    ensures ok { IfOk result (λ after. OfRead (members_at list.count list.offset) (heap_of arena.old)
        (λ members met. Became (heap_of arena.old) (heap_of arena.new) met after.count after.offset (members ++ all_told values.now))) }
    ensures same { IfOk result (λ after. after.offset ≡ list.offset) }
    ensures cells { OnOk result (Makes (heap_of arena.old) (heap_of arena.new) (each_value_sizes (all_told values.now))) }
    ensures stay { OnOk result (KeepsSizes (heap_of arena.old) (heap_of arena.new)) }
    ensures room { (n : ℕ) → HasRoom (heap_of arena.old) list.offset n → OnOk result (HasRoom (heap_of arena.new) list.offset n) }
    ensures unused { UnusedAreZero (heap_of arena.old) list.count list.offset →
        IfOk result (λ after. UnusedAreZero (heap_of arena.new) after.count after.offset) }
    ensures growth { OnOk result (GrowsFor arena.old.bytes arena.new.bytes (each_value_sizes (all_told values.now))) }
    ensures err { OnErr result (arena.new ≡ arena.old) }
    ensures space { result ≡ Err ArenaFault.Full →
        (0 < length (each_value_sizes (all_told values.now)))
        × NoFit arena.old.bytes (total_of (each_value_sizes (all_told values.now)))
        × PassesLimit arena.old.bytes (total_of (each_value_sizes (all_told values.now))) }
    ensures grows { OnOk result (length arena.new.bytes ≤ length arena.old.bytes + 4127 + total_of (each_value_sizes (all_told values.now))) }
    ensures kept { OnOk result (length arena.old.bytes ≤ length arena.new.bytes) }
{
    if values.is_empty() {
        return Ok(list);
    }
    let Ok(sizes) = plan_more(alloc, values) else {
        return Err(ArenaFault::Memory);
    };
    extend_sized(alloc, arena, list, values, &sizes)
}
