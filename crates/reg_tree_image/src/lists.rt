//! Lists of subkeys, as the walk names them.

ghost use Rattle.std.specs.Prelude.{◌≢◌, ◌<◌, ◌≤◌, ℕ, List, OnOk, IfErr};
ghost use Rattle.reg_arena.specs.Cells.{cell_at};
ghost use Rattle.reg_records.specs.SubkeyLists.{list_of};
ghost use Rattle.reg_tree_image.specs.declared.LoadFault.{LoadFault};
ghost use Rattle.reg_tree_image.specs.WalkSteps.{given};
ghost use Rattle.reg_tree_image.specs.LoadingWalk.{leaf_from as leaf_step, list_from as list_step};
ghost use Rattle.reg_tree_image.specs.Internal.CellStates.{unnamed};
ghost use Rattle.reg_tree_image.specs.Internal.ReaderOutcomes.{Gives, Follows};
ghost use Rattle.reg_tree_image.specs.Internal.ListParts.{list_in};

use crate::LoadFault;
use crate::cells::cell;
use crate::list_part::ListPart;
use crate::table::CellTable;
use reg_records::{ListForm, read_list};

/// Reads a list of subkeys, of any form, from what its cell holds.
fn read_part<'a>(content: &'a [u8]) -> Result<ListPart<'a>, LoadFault>
    ensures gives { Gives list_in (given LoadFault.Record (list_of content.now)) result }
    ensures ample { IfErr result (λ fault. fault ≢ LoadFault.Memory) }
{
    let Ok(head) = read_list(content) else {
        return Err(LoadFault::Record);
    };
    Ok(ListPart {
        content,
        form: head.form,
        count: head.count,
        taken: 0,
    })
}

/// Names a key's list of subkeys, a list of keys or an index root, and reads it.
pub fn list_from<'a>(
    bins: &'a [u8],
    table: &mut CellTable,
    offset: u32,
) -> Result<ListPart<'a>, LoadFault>
    ensures follows { (path : List ℕ) →
        Follows (cell_at bins.now) path list_in (list_step (cell_at bins.now) path offset) table.old.states.items table.new.states.items result }
    ensures fewer { OnOk result (unnamed table.new.states.items < unnamed table.old.states.items) }
    ensures no_more { unnamed table.new.states.items ≤ unnamed table.old.states.items }
    ensures ample { IfErr result (λ fault. fault ≢ LoadFault.Memory) }
{
    let content = cell(bins, table, offset, false)?;
    read_part(content)
}

/// Names a list of keys that an index root names, and reads it.
pub fn leaf_from<'a>(
    bins: &'a [u8],
    table: &mut CellTable,
    offset: u32,
) -> Result<ListPart<'a>, LoadFault>
    ensures follows { (path : List ℕ) →
        Follows (cell_at bins.now) path list_in (leaf_step (cell_at bins.now) path offset) table.old.states.items table.new.states.items result }
    ensures fewer { OnOk result (unnamed table.new.states.items < unnamed table.old.states.items) }
    ensures no_more { unnamed table.new.states.items ≤ unnamed table.old.states.items }
    ensures ample { IfErr result (λ fault. fault ≢ LoadFault.Memory) }
{
    let content = cell(bins, table, offset, false)?;
    let Ok(head) = read_list(content) else {
        return Err(LoadFault::Record);
    };
    if head.form == ListForm::IndexRoot {
        return Err(LoadFault::Record);
    }
    Ok(ListPart {
        content,
        form: head.form,
        count: head.count,
        taken: 0,
    })
}
