//! The cells of an arena: which are allocated, and their sizes.
use crate::FixtureFault;
use reg_arena::{Arena, ArenaFault, Cell};
use std::alloc::Global;

/// The cells of an arena.
fn all_cells(alloc: Global, arena: &Arena) -> Result<Vec<Cell>, FixtureFault> {
    match arena.cells(alloc) {
        Ok(cells) => Ok(cells),
        Err(ArenaFault::Full | ArenaFault::Memory) => Err(FixtureFault::Memory),
    }
}

/// The sizes of the allocated cells but of those of one size, from the least.
pub fn sizes_but(alloc: Global, arena: &Arena, size: u32) -> Result<Vec<u32>, FixtureFault> {
    let mut sizes = Vec::new(alloc);
    for cell in &all_cells(alloc, arena)? {
        if cell.allocated && cell.size != size {
            sizes.push(cell.size)?;
        }
    }
    sizes.sort_unstable();
    Ok(sizes)
}
