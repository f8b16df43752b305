//! A walk over the cells, bin after bin.
ghost use Rattle.std.specs.Prelude.{◌≡◌, ◌+◌, ◌≤◌, length, IfErr, IfOk, OnOk, Some};
ghost use Rattle.reg_heap.specs.declared.limits.TheConstants.{BINS_LIMIT};
ghost use Rattle.reg_heap.specs.ByteWords.{word};
ghost use Rattle.reg_arena.specs.Cells.{cells_of, is_allocated_in};
ghost use Rattle.reg_arena.specs.Internal.CellWalks.{IsRowOfBins, IsTiled, PushesCells};

use crate::bin::HEADER_SIZE;
use crate::words::size_at;
use crate::{ArenaFault, Cell};
use reg_bins::BinRow;
use std::alloc::Global;

fn is_allocated_at(bins: &BinRow, at: usize) -> bool
    requires { at + 4 ≤ length bins.now.items }
    ensures { result ≡ is_allocated_in (word bins.now.items at) }
{
    bins.word_at(at) >= 0x8000_0000
}

// Puts the cells from `from` to `stop` behind those of `cells`.
fn list_bin(
    bins: &BinRow,
    from: usize,
    stop: usize,
    cells: &mut Vec<Cell>,
) -> Result<(), ArenaFault>
    requires tiled { IsTiled bins.now.items from stop }
    requires within { stop ≤ length bins.now.items }
    requires small { length bins.now.items ≤ BINS_LIMIT }
    ensures ok { OnOk result (PushesCells bins.now.items from stop cells.old.items cells.new.items) }
    ensures fault { IfErr result (λ fault. fault ≡ ArenaFault.Memory) }
{
    let mut at = from;
    while at < stop {
        let size = size_at(bins, at);
        let cell = Cell {
            offset: at as u32,
            size,
            allocated: is_allocated_at(bins, at),
        };
        if cells.push(cell).is_err() {
            return Err(ArenaFault::Memory);
        }
        at += size as usize;
    }
    Ok(())
}

// The cells of all bins.
pub fn list_cells(alloc: Global, bins: &BinRow) -> Result<Vec<Cell>, ArenaFault>
    requires bins { IsRowOfBins bins.now.items }
    requires small { length bins.now.items ≤ BINS_LIMIT }
    ensures ok { IfOk result (λ cells. cells_of bins.now.items ≡ Some cells.items) }
    ensures fault { IfErr result (λ fault. fault ≡ ArenaFault.Memory) }
{
    let mut cells = Vec::new(alloc);
    let mut at = 0;
    while at < bins.len() {
        let size = bins.word_at(at + 8) as usize;
        list_bin(bins, at + HEADER_SIZE as usize, at + size, &mut cells)?;
        at += size;
    }
    Ok(cells)
}
