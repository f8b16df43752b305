//! The rules' worked rows of cells, row 17 and that of fifteen bins: where they are carved, what is left of freed ones, and how many there is room for. No text can say
//! them, since no script carves a cell. Whoever owns an arena lends it once, and does nothing else.
ghost use Rattle.std.specs.Prelude.{◌≡◌, true, Some, IsSome, IfOk, List, ℕ};
ghost use Rattle.reg_arena.specs.Arena.{heap_of};
ghost use Rattle.reg_arena.specs.Cells.{cells_of, cell_at};

use crate::support::assert_report;
use reg_arena::{Arena, ArenaFault, Cell};
use std::alloc::Global;
use std::test::Fail;

/// Writes a line of all cells: offsets, sizes, and a star for an allocated one.
fn tell_cells(alloc: Global, arena: &Arena, text: &mut String) -> Result<(), Fail> {
    for cell in &arena.cells(alloc)? {
        let mark = if cell.allocated { "*" } else { "" };
        write!(text, " {}+{}{mark}", cell.offset, cell.size)?;
    }
    Ok(text.push_str("\n")?)
}

/// Whether one of these cells is allocated and stands at an offset.
fn is_among(cells: &[Cell], offset: u32) -> bool
    ensures { (bytes : List ℕ) → cells_of bytes ≡ Some cells.now → result ≡ true → IsSome (cell_at bytes offset) }
{
    for cell in cells {
        if cell.offset == offset && cell.allocated {
            return true;
        }
    }
    false
}

/// Whether an allocated cell stands at an offset.
fn has_cell(alloc: Global, arena: &Arena, offset: u32) -> Result<bool, Fail>
    ensures { IfOk result (λ found. found ≡ true → IsSome (heap_of arena.now offset)) }
{
    let cells = arena.cells(alloc)?;
    Ok(is_among(&cells, offset))
}

/// Frees the allocated cells that there are at these offsets, in this order.
fn free_each(alloc: Global, arena: &mut Arena, offsets: &[u32]) -> Result<(), Fail> {
    for offset in offsets {
        if has_cell(alloc, arena, *offset)? {
            arena.free(*offset);
        }
    }
    Ok(())
}

/// Four cells carved together, and three of them freed.
fn tell_four(alloc: Global, arena: &mut Arena, text: &mut String) -> Result<(), Fail> {
    let mut offsets = Vec::new(alloc);
    arena.carve(&[16, 24, 32, 16], &mut offsets)?;
    write!(text, "carved {offsets:?}:")?;
    tell_cells(alloc, arena, text)?;
    free_each(alloc, arena, &[48, 32, 72])?;
    text.push_str("freed:")?;
    tell_cells(alloc, arena, text)
}

/// Two cells that fill a bin each, both freed, and a larger one carved then.
fn tell_bins(alloc: Global, arena: &mut Arena, text: &mut String) -> Result<(), Fail> {
    let mut offsets = Vec::new(alloc);
    arena.carve(&[4064], &mut offsets)?;
    arena.carve(&[4064], &mut offsets)?;
    free_each(alloc, arena, &[32, 4128])?;
    text.push_str("freed:")?;
    tell_cells(alloc, arena, text)?;
    arena.carve(&[4072], &mut offsets)?;
    write!(text, "carved {offsets:?}:")?;
    tell_cells(alloc, arena, text)
}

/// The two arenas of row 17.
fn told(alloc: Global) -> Result<String, Fail> {
    let mut text = String::new(alloc);
    let mut first = Arena::new(alloc);
    tell_four(alloc, &mut first, &mut text)?;
    let mut second = Arena::new(alloc);
    tell_bins(alloc, &mut second, &mut text)?;
    Ok(text)
}

#[test]
fn cells_carved_and_freed(rt: HostRuntime) -> Result<(), Fail> {
    let wanted = "\
carved [32, 48, 72, 104]: 32+16* 48+24* 72+32* 104+16* 120+3976
freed: 32+72 104+16* 120+3976
freed: 32+4064 4128+4064
carved [32, 4128, 8224]: 32+4064 4128+4064 8224+4072* 12296+4088
";
    assert_report(told(rt.alloc()), wanted)
}

/// Sixteen cells of the largest size: what the last is answered.
fn fill(arena: &mut Arena, offsets: &mut Vec<u32>) -> Result<(), ArenaFault> {
    let mut last = Ok(());
    for _cell in 0..16 {
        last = arena.carve(&[16_777_216], offsets);
    }
    last
}

/// How many such cells a new arena has room for, how many bytes its bins have then, and what is answered to one more.
fn filled(alloc: Global) -> Result<String, Fail> {
    let mut arena = Arena::new(alloc);
    let mut offsets = Vec::new(alloc);
    let last = fill(&mut arena, &mut offsets);
    let (cells, bytes) = (offsets.len(), arena.bins_size());
    Ok(format!(in alloc; "{cells} cells, {bytes} bytes, {last:?}")?)
}

#[test]
fn fifteen_of_the_largest_cells(rt: HostRuntime) -> Result<(), Fail> {
    assert_report(filled(rt.alloc()), "15 cells, 251719680 bytes, Err(Full)")
}
