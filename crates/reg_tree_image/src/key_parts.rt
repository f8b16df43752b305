//! What is a key's own but its record and its subkeys.
//!
//! Suhanov, Windows registry file format specification, section "Key node".

ghost use Rattle.std.specs.Prelude.{◌≡◌, ◌≤◌, ℕ, List, ◌∷◌, IfOk, IfErr};
ghost use Rattle.reg_arena.specs.Cells.{cell_at};
ghost use Rattle.reg_tree_image.specs.LoadingWalk.{parts_from as parts_step};
ghost use Rattle.reg_tree_image.specs.declared.table.CellState.{CellState};
ghost use Rattle.reg_tree_image.specs.WalkSteps.{Seen};
ghost use Rattle.reg_tree_image.specs.Internal.CellStates.{state_in, unnamed, IsTable};
ghost use Rattle.reg_tree_image.specs.Internal.ReaderOutcomes.{Follows, Outcome};
ghost use Rattle.reg_tree_image.specs.Internal.NamedRecords.{parts_in};
ghost use Rattle.reg_tree_image.specs.FaultPlaces.{parts_spot};
ghost use Rattle.reg_tree_image.specs.Internal.FaultSpots.{IsMetAt};
ghost use Rattle.reg_tree_image.specs.Internal.FitKeys.{AreFitParts};

use crate::LoadFault;
use crate::data::class_from;
use crate::security::descriptor_from;
use crate::table::CellTable;
use crate::value_lists::values_from;
use crate::values::ReadValue;
use reg_records::KeyFields;
use std::alloc::Global;

/// A key's class, descriptor and values.
#[derive(Drop)]
pub struct KeyParts<'a> {
    /// The bytes of its class, none where it has no class.
    pub class: &'a [u8],
    /// The bytes of its security's descriptor.
    pub descriptor: &'a [u8],
    /// Its values, in the order of their list.
    pub values: Vec<ReadValue<'a>>,
}

/// Names a key's class, security and values, in this order, and reads them. Where one of them meets a fault, its offset is in `failed`.
fn parts_from<'a>(
    alloc: Global,
    bins: &'a [u8],
    table: &mut CellTable,
    minor: u32,
    key: &KeyFields,
    failed: &mut u32,
) -> Result<KeyParts<'a>, LoadFault>
    ensures follows { (path : List ℕ) →
        Follows (cell_at bins.now) path parts_in (parts_step (cell_at bins.now) minor path key.now)
        table.old.states.items table.new.states.items result }
    ensures spots { (path : List ℕ) → (seen : Seen) → IsTable (cell_at bins.now) seen.found path table.old.states.items → IfErr result
        (λ fault. IsMetAt fault (record { offset = failed.new; path = path }) (parts_spot (cell_at bins.now) minor path key.now seen)) }
    ensures fit { IfOk result AreFitParts }
    ensures no_more { unnamed table.new.states.items ≤ unnamed table.old.states.items }
{
    *failed = key.class;
    let class = class_from(bins, table, key.class_length, key.class)?;
    *failed = key.security;
    let descriptor = descriptor_from(bins, table, key.security)?;
    let values = values_from(
        alloc,
        bins,
        table,
        minor,
        key.values,
        key.values_list,
        failed,
    )?;
    Ok(KeyParts {
        class,
        descriptor,
        values,
    })
}

/// Enters a key that was named, whose offset is then on the present path, and reads its parts. Where one of them meets a fault, its offset
/// is in `failed`.
pub fn enter_key<'a>(
    alloc: Global,
    bins: &'a [u8],
    table: &mut CellTable,
    minor: u32,
    offset: u32,
    key: &KeyFields,
    failed: &mut u32,
) -> Result<KeyParts<'a>, LoadFault>
    requires { state_in table.old.states.items offset ≡ CellState.Named }
    ensures follows { (path : List ℕ) → (seen : Seen) → IsTable (cell_at bins.now) seen.found path table.old.states.items →
        Outcome (cell_at bins.now) (offset ∷ path) parts_in (parts_step (cell_at bins.now) minor (offset ∷ path) key.now)
        table.new.states.items seen result }
    ensures spots { (path : List ℕ) → (seen : Seen) → IsTable (cell_at bins.now) seen.found path table.old.states.items → IfErr result
        (λ fault. IsMetAt fault (record { offset = failed.new; path = offset ∷ path })
        (parts_spot (cell_at bins.now) minor (offset ∷ path) key.now seen)) }
    ensures fit { IfOk result AreFitParts }
    ensures no_more { unnamed table.new.states.items ≤ unnamed table.old.states.items }
{
    table.enter(offset);
    parts_from(alloc, bins, table, minor, key, failed)
}
