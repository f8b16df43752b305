//! Rows of offsets, as the walk names them.

ghost use Rattle.std.specs.Prelude.{◌≡◌, ◌≢◌, ◌≤◌, ◌*◌, ℕ, List, IfOk, IfErr, false, length};
ghost use Rattle.reg_heap.specs.Kinds.{Kind, is_security};
ghost use Rattle.reg_arena.specs.Cells.{cell_at};
ghost use Rattle.reg_records.specs.OffsetRows.{offsets_at};
ghost use Rattle.reg_tree_image.specs.LoadingWalk.{row_from as row_step};
ghost use Rattle.reg_tree_image.specs.Internal.CellStates.{unnamed};
ghost use Rattle.reg_tree_image.specs.Internal.ReaderOutcomes.{Follows};

use crate::LoadFault;
use crate::cells::cell;
use crate::table::CellTable;

/// Names a row of offsets, which has at least so many.
pub fn row_from<'a>(
    bins: &'a [u8],
    table: &mut CellTable,
    offset: u32,
    count: u32,
) -> Result<&'a [u8], LoadFault>
    ensures follows { (path : List ℕ) → (kind : Kind) → is_security kind ≡ false →
        Follows (cell_at bins.now) path (λ held. offsets_at count 0 held.now) (row_step (cell_at bins.now) path kind count offset)
        table.old.states.items table.new.states.items result }
    ensures long { IfOk result (λ held. 4 * count ≤ length held.now) }
    ensures no_more { unnamed table.new.states.items ≤ unnamed table.old.states.items }
    ensures ample { IfErr result (λ fault. fault ≢ LoadFault.Memory) }
{
    let held = cell(bins, table, offset, false)?;
    if held.len() < 4 * count as usize {
        return Err(LoadFault::Record);
    }
    Ok(held)
}
