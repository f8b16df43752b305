//! Foreign bins, read for the first time: the headers of all, and then the sizes of all cells.
//!
//! Suhanov, Windows registry file format specification, sections "Hive bin" and "Cell".

ghost use Rattle.std.specs.Prelude.{◌≡◌, ◌+◌, ◌*◌, ◌<◌, ◌≤◌, ◌%◌, ℕ, true, false, is_some, Some, None, length, List, [], ◌∷◌};
ghost use Rattle.reg_heap.specs.declared.limits.TheConstants.{BINS_LIMIT};
ghost use Rattle.reg_arena.specs.declared.Cell.{Cell};
ghost use Rattle.reg_arena.specs.Cells.{bins_of, cells_from};
ghost use Rattle.reg_tree_image.specs.Internal.CellScans.{is_header_in, is_size_in, cell_there, Marks, Scans};

use crate::LoadFault;
use crate::cells::{size_at, word_at};
use crate::table::{CellState, CellTable};
use std::alloc::Global;

/// Whether a bin's header stands at a place, and the bin ends within the bytes.
pub fn is_header(bins: &[u8], at: usize) -> bool
    requires { at + 12 ≤ length bins.now }
    ensures { result ≡ is_header_in bins.now at }
{
    let size = word_at(bins, at + 8) as usize;
    word_at(bins, at) == 0x6E69_6268
        && word_at(bins, at + 4) as usize == at
        && size > 0
        && size % 4096 == 0
        && at + size <= bins.len()
}

/// Whether all headers are good.
fn are_headers(bins: &[u8]) -> bool
    requires pages { length bins.now % 4096 ≡ 0 }
    ensures { result ≡ is_some (bins_of bins.now) }
{
    let mut at = 0;
    while at < bins.len() {
        if !is_header(bins, at) {
            return false;
        }
        at += word_at(bins, at + 8) as usize;
    }
    true
}

/// Whether the size of the cell at a place is good, in a bin that ends at `stop`.
pub fn is_size(size: u32, at: usize, stop: usize) -> bool
    requires { at + 4294967296 < 9223372036854775808 }
    ensures { result ≡ is_size_in size at stop }
{
    size > 0 && size % 8 == 0 && at + size as usize <= stop
}

/// Notes the cell at a place, where it is allocated.
fn note_cell(bins: &[u8], table: &mut CellTable, at: usize)
    requires eight { at % 8 ≡ 0 }
    requires within { at + 8 ≤ length bins.now }
    requires small { length bins.now ≤ BINS_LIMIT }
    requires room { length bins.now ≤ 8 * length table.old.states.items }
    ensures marks { Marks bins.now (cell_there bins.now at ∷ []) table.old.states.items table.new.states.items }
    ensures long { length table.new.states.items ≡ length table.old.states.items }
{
    if word_at(bins, at) < 0x8000_0000 {
        return;
    }
    table.allocate(at as u32);
}

/// Notes the allocated cells of a bin, from behind its header to its end. Where a size is bad the answer is no.
fn mark_cells(bins: &[u8], table: &mut CellTable, from: usize, stop: usize) -> bool
    requires eights { (from % 8 ≡ 0) × (stop % 8 ≡ 0) }
    requires within { (from ≤ stop) × (stop ≤ length bins.now) }
    requires small { length bins.now ≤ BINS_LIMIT }
    requires room { length bins.now ≤ 8 * length table.old.states.items }
    ensures good { result ≡ true → (steps : ℕ) → stop < from + steps →
        (cells : List Cell) × (cells_from steps bins.now from stop ≡ Some cells) × Marks bins.now cells table.old.states.items table.new.states.items }
    ensures bad { result ≡ false → (steps : ℕ) → stop < from + steps → cells_from steps bins.now from stop ≡ None }
    ensures long { length table.new.states.items ≡ length table.old.states.items }
{
    let mut at = from;
    while at < stop {
        let size = size_at(bins, at);
        if !is_size(size, at, stop) {
            return false;
        }
        note_cell(bins, table, at);
        at += size as usize;
    }
    true
}

/// Reads the headers of all bins, and then the sizes of all cells, of which none was named yet.
pub fn scan(alloc: Global, bins: &[u8]) -> Result<CellTable, LoadFault>
    requires pages { length bins.now % 4096 ≡ 0 }
    requires small { length bins.now ≤ BINS_LIMIT }
    ensures { Scans bins.now result }
{
    if !are_headers(bins) {
        return Err(LoadFault::Bins);
    }
    let mut states = Vec::new(alloc);
    if states
        .resize(bins.len() / 8, CellState::Unallocated)
        .is_err()
    {
        return Err(LoadFault::Memory);
    }
    let mut table = CellTable { states };
    let mut at = 0;
    while at < bins.len() {
        let size = word_at(bins, at + 8) as usize;
        if !mark_cells(bins, &mut table, at + 32, at + size) {
            return Err(LoadFault::Cells);
        }
        at += size;
    }
    Ok(table)
}
