//! A cell given back.
ghost use Rattle.std.specs.Prelude.{◌≡◌, ◌==◌, ◌+◌, ◌≤◌, ◌<◌, ℕ, length, IsSome, None, if◌then◌else◌};
ghost use Rattle.reg_arena.specs.Cells.{cell_at};
ghost use Rattle.reg_arena.specs.Internal.ListedCells.{IsIndexed};
ghost use Rattle.reg_arena.specs.Internal.BinParts.{IsSplit};
ghost use Rattle.reg_arena.specs.Frees.{Frees, IsRight, start_of};

use crate::free_lists::FreeLists;
use crate::words::size_at;
use reg_bins::BinRow;
use reg_heap::limits::BINS_LIMIT;

// The size of the free cell that stands at a place, or 0. What stands there is the end of the bins, a bin's header, or a
// cell; the header's letters and an allocated cell's negative size are above the limit.
fn free_size_at(bins: &BinRow, at: u32) -> u32
    requires inside { at < length bins.now.items → at + 4 ≤ length bins.now.items }
    ensures { IsRight bins.now.items at result }
{
    if at as usize >= bins.len() {
        return 0;
    }
    let field = bins.word_at(at as usize);
    if field > BINS_LIMIT {
        return 0;
    }
    field
}

// Where a cell begins once the free cell on its left, if there is one, is part of it.
fn start(left: u32, cell: u32) -> u32
    ensures { result ≡ start_of left cell }
{
    if left == 0 {
        return cell;
    }
    left
}

// Makes an allocated cell and the free cells beside it one free cell.
pub fn free_cell(bins: &mut BinRow, lists: &mut FreeLists, cell: u32)
    requires arena { IsIndexed bins.old.items lists.old }
    requires exists { IsSome (cell_at bins.old.items cell) }
    requires split { IsSplit bins.old.items bins.old.parts }
    ensures arena { IsIndexed bins.new.items lists.new }
    ensures split { IsSplit bins.new.items bins.new.parts }
    ensures frees { Frees bins.old.items bins.new.items cell }
    ensures contents { (offset : ℕ) → cell_at bins.new.items offset ≡ (if offset == cell then None else cell_at bins.old.items offset) }
{
    let end = cell + size_at(bins, cell as usize);
    let right = free_size_at(bins, end);
    let lo = start(lists.ending_at(cell), cell);
    lists.remove(bins, end, right);
    lists.remove(bins, lo, cell - lo);
    lists.insert(bins, lo, end + right - lo);
}
