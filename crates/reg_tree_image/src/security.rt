//! A security's descriptor, as the walk reads it.

ghost use Rattle.std.specs.Prelude.{◌≡◌, ◌≢◌, ◌≤◌, ℕ, List, IfErr, length, IfOk};
ghost use Rattle.reg_heap.specs.declared.limits.TheConstants.{DESCRIPTOR_LIMIT};
ghost use Rattle.reg_arena.specs.Cells.{cell_at};
ghost use Rattle.reg_tree_image.specs.LoadingWalk.{descriptor_from as descriptor_step, fault_of_record};
ghost use Rattle.reg_tree_image.specs.Internal.ReaderOutcomes.{Follows};
ghost use Rattle.reg_tree_image.specs.Internal.CellStates.{unnamed};

use crate::LoadFault;
use crate::cells::cell;
use crate::table::CellTable;
use reg_heap::limits::DESCRIPTOR_LIMIT;
use reg_records::{RecordFault, read_sk};

/// The fault of a record that can't be read.
pub fn fault_of(fault: RecordFault) -> LoadFault
    ensures { result ≡ fault_of_record fault }
{
    match fault {
        RecordFault::Short => LoadFault::Record,
        RecordFault::Signature => LoadFault::Record,
        RecordFault::Length => LoadFault::Record,
        RecordFault::NotInProfile => LoadFault::NotInProfile,
    }
}

/// Names a security, and reads its descriptor.
pub fn descriptor_from<'a>(
    bins: &'a [u8],
    table: &mut CellTable,
    offset: u32,
) -> Result<&'a [u8], LoadFault>
    ensures follows { (path : List ℕ) →
        Follows (cell_at bins.now) path (λ bytes. bytes.now) (descriptor_step (cell_at bins.now) path offset)
        table.old.states.items table.new.states.items result }
    ensures fit { IfOk result (λ bytes. (1 ≤ length bytes.now) × (length bytes.now ≤ DESCRIPTOR_LIMIT)) }
    ensures no_more { unnamed table.new.states.items ≤ unnamed table.old.states.items }
    ensures ample { IfErr result (λ fault. fault ≢ LoadFault.Memory) }
{
    let content = cell(bins, table, offset, true)?;
    match read_sk(content) {
        Ok(security) => {
            if security.descriptor.len() == 0 {
                return Err(LoadFault::Record);
            }
            if security.descriptor.len() > DESCRIPTOR_LIMIT {
                return Err(LoadFault::Limit);
            }
            Ok(security.descriptor)
        }
        Err(fault) => Err(fault_of(fault)),
    }
}
