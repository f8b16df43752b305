//! The values of a key, as the walk reads them.
//!
//! Suhanov, Windows registry file format specification, section "Key values list".

ghost use Rattle.std.specs.Prelude.{◌≤◌, ◌*◌, ℕ, List, [], length, IfOk, IfErr};
ghost use Rattle.reg_arena.specs.Cells.{cell_at};
ghost use Rattle.reg_records.specs.OffsetRows.{offsets_at};
ghost use Rattle.reg_tree_image.specs.LoadingWalk.{values_each as each_step, values_from as values_step};
ghost use Rattle.reg_tree_image.specs.WalkSteps.{Seen};
ghost use Rattle.reg_tree_image.specs.FaultPlaces.{values_spot, value_list_spot};
ghost use Rattle.reg_tree_image.specs.Internal.CellStates.{IsTable, unnamed};
ghost use Rattle.reg_tree_image.specs.Internal.FaultSpots.{IsMetAt};
ghost use Rattle.reg_tree_image.specs.Internal.ReaderOutcomes.{Follows};
ghost use Rattle.reg_tree_image.specs.Internal.NamedRecords.{members_in};
ghost use Rattle.reg_tree_image.specs.Internal.FitKeys.{AreNew, AreFit};

use crate::LoadFault;
use crate::met_names::MetNames;
use crate::rows::row_from;
use crate::table::CellTable;
use crate::values::{ReadValue, value_from};
use reg_heap::limits::VALUES_LIMIT;
use reg_records::offset_at;
use std::alloc::Global;

/// Reads the values at the first offsets of a row, in their order. Where one meets a fault, the offset of its
/// record or of its data is in `failed`.
fn values_each<'a>(
    alloc: Global,
    bins: &'a [u8],
    table: &mut CellTable,
    minor: u32,
    row: &[u8],
    count: u32,
    failed: &mut u32,
) -> Result<Vec<ReadValue<'a>>, LoadFault>
    requires { 4 * count ≤ length row.now }
    ensures follows { (path : List ℕ) →
        Follows (cell_at bins.now) path (λ values. members_in values.items)
        (each_step (cell_at bins.now) minor path [] (offsets_at count 0 row.now)) table.old.states.items table.new.states.items result }
    ensures spots { (path : List ℕ) → (seen : Seen) → IsTable (cell_at bins.now) seen.found path table.old.states.items → IfErr result
        (λ fault. IsMetAt fault (record { offset = failed.new; path = path })
        (values_spot (cell_at bins.now) minor path [] (offsets_at count 0 row.now) seen)) }
    ensures new { IfOk result (λ values. AreNew [] (members_in values.items)) }
    ensures few { IfOk result (λ values. length (members_in values.items) ≤ count) }
    ensures no_more { unnamed table.new.states.items ≤ unnamed table.old.states.items }
{
    let mut met = MetNames::new(alloc);
    // The row has all these offsets, so that no more is asked for than its cell accounts for.
    let Ok(mut values) = Vec::with_capacity(alloc, count as usize) else {
        return Err(LoadFault::Memory);
    };
    for index in 0..count {
        let offset = offset_at(row, index);
        let value = value_from(
            alloc,
            bins,
            table,
            minor,
            &mut met,
            values.as_slice(),
            offset,
            failed,
        )?;
        if values.push(value).is_err() {
            return Err(LoadFault::Memory);
        }
    }
    Ok(values)
}

/// Names a key's list of values, unless it has none, and reads its first values, as many as are counted. `Limit` is for more than
/// 16,384, before the list is named. Where it meets a fault, the offset of the list or of the value is in `failed`.
pub fn values_from<'a>(
    alloc: Global,
    bins: &'a [u8],
    table: &mut CellTable,
    minor: u32,
    count: u32,
    offset: u32,
    failed: &mut u32,
) -> Result<Vec<ReadValue<'a>>, LoadFault>
    ensures follows { (path : List ℕ) →
        Follows (cell_at bins.now) path (λ values. members_in values.items) (values_step (cell_at bins.now) minor path count offset)
        table.old.states.items table.new.states.items result }
    ensures spots { (path : List ℕ) → (seen : Seen) → IsTable (cell_at bins.now) seen.found path table.old.states.items → IfErr result
        (λ fault. IsMetAt fault (record { offset = failed.new; path = path })
        (value_list_spot (cell_at bins.now) minor path count offset seen)) }
    ensures fit { IfOk result (λ values. AreFit (members_in values.items)) }
    ensures no_more { unnamed table.new.states.items ≤ unnamed table.old.states.items }
{
    if count == 0 {
        return Ok(Vec::new(alloc));
    }
    *failed = offset;
    if count > VALUES_LIMIT {
        return Err(LoadFault::Limit);
    }
    let row = row_from(bins, table, offset, count)?;
    values_each(alloc, bins, table, minor, row, count, failed)
}
