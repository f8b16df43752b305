//! Cells of foreign bins, as the walk names them.

ghost use Rattle.std.specs.Prelude.{◌≡◌, ◌≢◌, ◌+◌, ◌<◌, ◌≤◌, ℕ, List, false, length, Some, OnOk, IfErr, IfOk};
ghost use Rattle.reg_heap.specs.ByteWords.{word};
ghost use Rattle.reg_heap.specs.Kinds.{Kind, is_security};
ghost use Rattle.reg_arena.specs.Cells.{cell_at, size_in};
ghost use Rattle.reg_records.specs.BigData.{named};
ghost use Rattle.reg_tree_image.specs.WalkSteps.{cell as cell_step};
ghost use Rattle.reg_tree_image.specs.LoadingWalk.{bytes_from as bytes_step};
ghost use Rattle.reg_tree_image.specs.Internal.ReaderOutcomes.{Follows};
ghost use Rattle.reg_tree_image.specs.declared.table.CellState.{CellState};
ghost use Rattle.reg_tree_image.specs.Internal.CellStates.{state_in, unnamed};

use crate::LoadFault;
use crate::table::CellTable;
use byteorder::{ByteOrder, LittleEndian};

#[tactic(auto, unfolding(reg_heap::specs::ByteWords::word))]
pub fn word_at(bins: &[u8], at: usize) -> u32
    requires { at + 4 ≤ length bins.now }
    ensures { result ≡ word bins.now at }
{
    LittleEndian::read_u32(&bins[at..])
}

/// The size of the cell at a place.
pub fn size_at(bins: &[u8], at: usize) -> u32
    requires { at + 4 ≤ length bins.now }
    ensures { result ≡ size_in (word bins.now at) }
{
    let field = word_at(bins, at);
    if field < 0x8000_0000 {
        field
    } else {
        0xFFFF_FFFF - field + 1
    }
}

/// What the allocated cell at an offset holds.
pub fn content(bins: &[u8], offset: u32) -> &[u8]
    ensures { (held : List ℕ) → cell_at bins.now offset ≡ Some held → result.now ≡ held }
{
    let at = offset as usize;
    if at + 8 > bins.len() {
        return &[];
    }
    let size = size_at(bins, at) as usize;
    if size < 8 || at + size > bins.len() {
        return &[];
    }
    &bins[at + 4..at + size]
}

/// Names a cell, and reads what it holds.
pub fn cell<'a>(
    bins: &'a [u8],
    table: &mut CellTable,
    offset: u32,
    security: bool,
) -> Result<&'a [u8], LoadFault>
    ensures follows { (path : List ℕ) → (kind : List ℕ → Kind) → ((held : List ℕ) → is_security (kind held) ≡ security) →
        Follows (cell_at bins.now) path (λ held. held.now) (cell_step (cell_at bins.now) path kind offset)
        table.old.states.items table.new.states.items result }
    ensures no_more { unnamed table.new.states.items ≤ unnamed table.old.states.items }
    ensures fewer { OnOk result (security ≡ false → unnamed table.new.states.items < unnamed table.old.states.items) }
    ensures ample { IfErr result (λ fault. fault ≢ LoadFault.Memory) }
    ensures named { OnOk result (security ≡ false → state_in table.new.states.items offset ≡ CellState.Named) }
{
    table.name(offset, security)?;
    Ok(content(bins, offset))
}

/// Names a cell, and reads its first bytes.
pub fn bytes_from<'a>(
    bins: &'a [u8],
    table: &mut CellTable,
    offset: u32,
    size: usize,
) -> Result<&'a [u8], LoadFault>
    ensures follows { (path : List ℕ) → (kind : Kind) → is_security kind ≡ false →
        Follows (cell_at bins.now) path (λ held. held.now) (bytes_step (cell_at bins.now) path (named kind size offset))
        table.old.states.items table.new.states.items result }
    ensures sized { IfOk result (λ held. length held.now ≡ size) }
    ensures no_more { unnamed table.new.states.items ≤ unnamed table.old.states.items }
    ensures ample { IfErr result (λ fault. fault ≢ LoadFault.Memory) }
{
    let held = cell(bins, table, offset, false)?;
    if held.len() < size {
        return Err(LoadFault::Record);
    }
    Ok(&held[..size])
}
