//! Values, as the walk names them: a record and its name, and then the data.

ghost use Rattle.std.specs.Prelude.{◌≡◌, ◌<◌, ◌≤◌, ℕ, true, List, [], ◌∷◌, ◌++◌, IfOk, IfErr, OnOk};
ghost use Rattle.std.specs.Cow.{cow_slice_items};
ghost use Rattle.reg_names.specs.Names.{is_value_name};
ghost use Rattle.reg_heap.specs.Trees.{IsSmallValue};
ghost use Rattle.reg_arena.specs.Cells.{cell_at};
ghost use Rattle.reg_tree_image.specs.LoadingWalk.{value_name as name_step, named_value as named_step, value_from as value_step};
ghost use Rattle.reg_tree_image.specs.WalkSteps.{Seen};
ghost use Rattle.reg_tree_image.specs.FaultPlaces.{data_offset, value_spot};
ghost use Rattle.reg_tree_image.specs.Internal.CellStates.{IsTable, unnamed};
ghost use Rattle.reg_tree_image.specs.Internal.FaultSpots.{IsMetAt};
ghost use Rattle.reg_tree_image.specs.Internal.ReaderOutcomes.{Gives, Follows};
ghost use Rattle.reg_tree_image.specs.Internal.NameReadings.{value_in};
ghost use Rattle.reg_tree_image.specs.Internal.NamedRecords.{value_of, member_in, members_in};
ghost use Rattle.reg_tree_image.specs.Internal.NamesMet.{AreKnown};
ghost use Rattle.reg_tree_image.specs.Internal.FitKeys.{IsOther};

use crate::LoadFault;
use crate::cells::cell;
use crate::data::{INLINE, ReadData, data_from};
use crate::met_names::MetNames;
use crate::names::name_from;
use crate::security::fault_of;
use crate::table::CellTable;
use reg_heap::limits::DATA_LIMIT;
use reg_names::VALUE_NAME_LIMIT;
use reg_records::{ValueRecord, read_vk};
use std::alloc::Global;
use std::borrow::CowSlice;

/// A value's record, and the characters of its name.
#[derive(Drop)]
pub struct NamedValue<'a> {
    pub value: ValueRecord<'a>,
    pub name: CowSlice<'a, u8>,
}

/// A value with its data. What stands in one piece in the image isn't copied.
#[derive(Drop)]
pub struct ReadValue<'a> {
    /// The characters of its name, as they are given.
    pub name: CowSlice<'a, u8>,
    /// The type of its data.
    pub kind: u32,
    /// Its data.
    pub bytes: ReadData<'a>,
}

/// The characters of a value's name.
fn value_name<'a>(alloc: Global, value: ValueRecord<'a>) -> Result<CowSlice<'a, u8>, LoadFault>
    ensures { Gives cow_slice_items (name_step (record { fields = value.entry.fields; name = value.entry.name.now })) result }
{
    name_from(
        alloc,
        value.name,
        value.fields.flags & 1 != 0,
        VALUE_NAME_LIMIT,
        false,
    )
}

/// Reads a value's record and its name from what its cell holds.
fn read_value<'a>(alloc: Global, content: &'a [u8]) -> Result<NamedValue<'a>, LoadFault>
    ensures gives { Gives value_of (value_in content.now) result }
    ensures name { IfOk result (λ value. is_value_name (cow_slice_items value.name) ≡ true) }
{
    match read_vk(content) {
        Ok(value) => {
            let name = value_name(alloc, value)?;
            Ok(NamedValue { value, name })
        }
        Err(fault) => Err(fault_of(fault)),
    }
}

/// Names a value, and reads its record and its name.
pub fn named_value<'a>(
    alloc: Global,
    bins: &'a [u8],
    table: &mut CellTable,
    offset: u32,
) -> Result<NamedValue<'a>, LoadFault>
    ensures follows { (path : List ℕ) →
        Follows (cell_at bins.now) path value_of (named_step (cell_at bins.now) path offset) table.old.states.items table.new.states.items result }
    ensures name { IfOk result (λ value. is_value_name (cow_slice_items value.name) ≡ true) }
    ensures fewer { OnOk result (unnamed table.new.states.items < unnamed table.old.states.items) }
    ensures no_more { unnamed table.new.states.items ≤ unnamed table.old.states.items }
{
    let content = cell(bins, table, offset, false)?;
    read_value(alloc, content)
}

/// Where data stands, of a size and an offset as a value's record has them, which stands at `held`.
fn offset_of_data(held: u32, size: u32, offset: u32) -> u32
    ensures { result ≡ data_offset held size offset }
{
    if size >= INLINE || size as usize > DATA_LIMIT {
        return held;
    }
    offset
}

/// Names the value of a key behind these, meets its name among theirs, and reads its data, in this order. `Twice` is also for a name
/// that folds as one of theirs. Where it meets a fault, the offset of the record or of the data is in `failed`.
pub fn value_from<'a>(
    alloc: Global,
    bins: &'a [u8],
    table: &mut CellTable,
    minor: u32,
    met: &mut MetNames,
    before: &[ReadValue<'_>],
    offset: u32,
    failed: &mut u32,
) -> Result<ReadValue<'a>, LoadFault>
    requires { AreKnown (members_in before.now) met.old.folded.keys }
    ensures follows { (path : List ℕ) →
        Follows (cell_at bins.now) path member_in (value_step (cell_at bins.now) minor path (members_in before.now) offset)
        table.old.states.items table.new.states.items result }
    ensures spots { (path : List ℕ) → (seen : Seen) → IsTable (cell_at bins.now) seen.found path table.old.states.items → IfErr result
        (λ fault. IsMetAt fault (record { offset = failed.new; path = path })
        (value_spot (cell_at bins.now) minor path (members_in before.now) offset seen)) }
    ensures small { IfOk result (λ value. IsSmallValue (member_in value)) }
    ensures other { IfOk result (λ value. IsOther (members_in before.now) (cow_slice_items value.name)) }
    ensures met { IfOk result (λ value. AreKnown (members_in before.now ++ member_in value ∷ []) met.new.folded.keys) }
    ensures no_more { unnamed table.new.states.items ≤ unnamed table.old.states.items }
{
    *failed = offset;
    let NamedValue { value, name } = named_value(alloc, bins, table, offset)?;
    met.meet(alloc, before, name.as_slice())?;
    let fields = value.fields;
    *failed = offset_of_data(offset, fields.size, fields.offset);
    let bytes = data_from(alloc, bins, table, minor, fields.size, fields.offset)?;
    Ok(ReadValue {
        name,
        kind: fields.kind,
        bytes,
    })
}
