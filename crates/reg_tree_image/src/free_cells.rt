//! How many bytes of the bins are free.
//!
//! Suhanov, Windows registry file format specification, sections "Hive bin" and "Cell".

ghost use Rattle.std.specs.Prelude.{◌≡◌, ◌+◌, ◌≤◌, ℕ, List, length, if◌then◌else◌};
ghost use Rattle.reg_heap.specs.ByteWords.{word};
ghost use Rattle.reg_arena.specs.declared.Cell.{Cell};
ghost use Rattle.reg_arena.specs.Cells.{IsInBin, Tiles, size_in, is_allocated_in};
ghost use Rattle.reg_tree_image.specs.FreeBytes.{free_in, free_size, are_sparse};
ghost use Rattle.reg_tree_image.specs.Internal.FreeCells.{AreCellsOfBin};

use crate::cells::{size_at, word_at};
use crate::tree_writing::bin_size;
use reg_arena::{Arena, Cell};
use reg_tree::Tree;

/// The size of a bin's header in bytes.
const HEADER_SIZE: u32 = 32;

/// The cell that begins at an offset.
fn cell_from(arena: &Arena, at: u32) -> Cell
    requires { IsInBin arena.now.bytes at 4 }
    ensures offset { result.offset ≡ at }
    ensures size { result.size ≡ size_in (word arena.now.bytes at) }
    ensures allocated { result.allocated ≡ is_allocated_in (word arena.now.bytes at) }
{
    let field = arena.bytes(at, 4);
    Cell {
        offset: at,
        size: size_at(field, 0),
        allocated: word_at(field, 0) >= 0x8000_0000,
    }
}

/// How many bytes of a cell are free: all or none.
fn free_part(cell: Cell) -> u32
    ensures { result ≡ (if cell.allocated then 0 else cell.size) }
{
    if cell.allocated { 0 } else { cell.size }
}

/// How many bytes of the cells of a bin are free, from the one at an offset to the bin's end.
fn free_to(arena: &Arena, from: u32, stop: u32) -> u32
    requires { AreCellsOfBin arena.now.bytes from stop }
    ensures free { (cells : List Cell) → Tiles arena.now.bytes from stop cells → result ≡ free_in cells }
    ensures within { from + result ≤ stop }
{
    let mut free = 0;
    let mut at = from;
    while at < stop {
        let cell = cell_from(arena, at);
        free += free_part(cell);
        at += cell.size;
    }
    free
}

/// How many bytes of the bins are free: the sizes of all cells that aren't allocated, with their size fields. It takes no memory, and time
/// that grows with the number of cells.
pub fn free_bytes(arena: &Arena) -> u32
    ensures free { result ≡ free_size arena.now.bytes }
    ensures within { result ≤ length arena.now.bytes }
{
    let end = arena.bins_size();
    let mut free = 0;
    let mut at = 0;
    while at < end {
        let size = bin_size(arena, at);
        free += free_to(arena, at + HEADER_SIZE, at + size);
        at += size;
    }
    free
}

/// How many bytes of the bins aren't free: the cells that are allocated, and the headers of bins.
pub fn live_bytes(arena: &Arena) -> u32
    ensures { result ≤ length arena.now.bytes }
{
    arena.bins_size() - free_bytes(arena)
}

/// Whether bins of a size have more than 1.1 times so many bytes, and a page.
pub fn is_loose(size: u32, live: u32) -> bool {
    size.saturating_sub(live) > live / 10 + 4096
}

/// Whether more than half of the bytes of a tree's bins are free.
pub fn is_sparse(tree: &Tree) -> bool
    ensures { result ≡ are_sparse tree.now.bins.bytes }
{
    let arena = tree.arena();
    arena.bins_size() < 2 * free_bytes(arena)
}
