//! Keys, as the walk names them: a record and its name.

ghost use Rattle.std.specs.Prelude.{◌≡◌, ◌<◌, ◌≤◌, ℕ, List, IfOk, OnOk};
ghost use Rattle.std.specs.Cow.{cow_slice_items};
ghost use Rattle.reg_arena.specs.Cells.{cell_at};
ghost use Rattle.reg_tree_image.specs.LoadingWalk.{key_name as name_step, named_key as key_step};
ghost use Rattle.reg_tree_image.specs.declared.table.CellState.{CellState};
ghost use Rattle.reg_tree_image.specs.Internal.CellStates.{state_in, unnamed};
ghost use Rattle.reg_tree_image.specs.Internal.FitKeys.{IsFitName};
ghost use Rattle.reg_tree_image.specs.Internal.ReaderOutcomes.{Gives, Follows};
ghost use Rattle.reg_tree_image.specs.Internal.NameReadings.{key_in};
ghost use Rattle.reg_tree_image.specs.Internal.NamedRecords.{key_of};

use crate::LoadFault;
use crate::cells::cell;
use crate::names::name_from;
use crate::security::fault_of;
use crate::table::CellTable;
use reg_names::KEY_NAME_LIMIT;
use reg_records::{KeyNode, read_nk};
use std::alloc::Global;
use std::borrow::CowSlice;

/// A key's record, and the characters of its name.
#[derive(Drop)]
pub struct NamedKey<'a> {
    pub node: KeyNode<'a>,
    pub name: CowSlice<'a, u8>,
}

/// The characters of a key's name.
fn key_name<'a>(alloc: Global, node: KeyNode<'a>) -> Result<CowSlice<'a, u8>, LoadFault>
    ensures { Gives cow_slice_items (name_step (record { fields = node.entry.fields; name = node.entry.name.now })) result }
{
    if node.name.len() == 0 {
        return Err(LoadFault::Record);
    }
    name_from(
        alloc,
        node.name,
        node.fields.flags & 0x20 != 0,
        KEY_NAME_LIMIT,
        true,
    )
}

/// Reads a key's record and its name from what its cell holds.
pub fn read_key<'a>(alloc: Global, content: &'a [u8]) -> Result<NamedKey<'a>, LoadFault>
    ensures gives { Gives key_of (key_in content.now) result }
    ensures fit { IfOk result IsFitName }
{
    match read_nk(content) {
        Ok(node) => {
            let name = key_name(alloc, node)?;
            Ok(NamedKey { node, name })
        }
        Err(fault) => Err(fault_of(fault)),
    }
}

/// Names a key, and reads its record and its name.
pub fn named_key<'a>(
    alloc: Global,
    bins: &'a [u8],
    table: &mut CellTable,
    offset: u32,
) -> Result<NamedKey<'a>, LoadFault>
    ensures follows { (path : List ℕ) →
        Follows (cell_at bins.now) path key_of (key_step (cell_at bins.now) path offset) table.old.states.items table.new.states.items result }
    ensures fit { IfOk result IsFitName }
    ensures named { OnOk result (state_in table.new.states.items offset ≡ CellState.Named) }
    ensures fewer { OnOk result (unnamed table.new.states.items < unnamed table.old.states.items) }
    ensures no_more { unnamed table.new.states.items ≤ unnamed table.old.states.items }
{
    let content = cell(bins, table, offset, false)?;
    read_key(alloc, content)
}
