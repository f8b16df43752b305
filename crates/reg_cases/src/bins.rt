//! What stands in the bins of an image, read byte by byte as the format's tables have it: the code of the libraries isn't asked.

use anyhow::{Result, bail};
use std::alloc::Global;
use std::collections::BTreeMap;

/// How many bytes stand before the bins.
const BLOCK: usize = 4096;

/// How many bytes a bin's header has.
const HEADER: usize = 32;

/// Where a base block has the offset of the root's key node.
const ROOT: usize = 36;

/// A cell.
#[derive(Clone, Copy)]
struct Cell {
    /// Where it begins in the bins.
    offset: usize,
    /// How many bytes it has, its size field included.
    size: u32,
    /// Whether it is allocated.
    is_allocated: bool,
}

/// The number of 16 bits at a place.
fn half_at(bytes: &[u8], at: usize) -> Result<u16> {
    match bytes.get(at..) {
        Some([low, high, ..]) => Ok(u16::from_le_bytes([*low, *high])),
        _ => bail!("the image ends before byte {at}"),
    }
}

/// The number of 32 bits at a place.
fn word_at(bytes: &[u8], at: usize) -> Result<u32> {
    match bytes.get(at..) {
        Some([a, b, c, d, ..]) => Ok(u32::from_le_bytes([*a, *b, *c, *d])),
        _ => bail!("the image ends before byte {at}"),
    }
}

/// The bins of an image.
fn bins_of(image: &[u8]) -> Result<&[u8]> {
    match image.get(BLOCK..) {
        Some(bins) => Ok(bins),
        None => bail!("the image has no bins"),
    }
}

/// The cell at a place. The top bit of its size field says that it is allocated.
fn cell_at(bins: &[u8], offset: usize) -> Result<Cell> {
    let field = word_at(bins, offset)?;
    let is_allocated = field >= 0x8000_0000;
    let size = if is_allocated {
        0u32.wrapping_sub(field)
    } else {
        field
    };
    if size == 0 {
        bail!("the cell at {offset} has no bytes");
    }
    Ok(Cell {
        offset,
        size,
        is_allocated,
    })
}

/// All cells of an image's bins, in their order.
fn cells_of(alloc: Global, image: &[u8]) -> Result<Vec<Cell>> {
    let bins = bins_of(image)?;
    let mut cells = Vec::new(alloc);
    let (mut at, mut end) = (0usize, 0usize);
    for _turn in 0..bins.len() {
        if at >= bins.len() {
            break;
        }
        if at == end {
            let size = word_at(bins, at.saturating_add(8))?;
            end = at.saturating_add(size as usize);
            at = at.saturating_add(HEADER);
        }
        let cell = cell_at(bins, at)?;
        at = at.saturating_add(cell.size as usize);
        cells.push(cell)?;
    }
    Ok(cells)
}

/// A line for each cell: its offset, its size, and whether it is free or allocated.
pub fn cells_told(alloc: Global, image: &[u8]) -> Result<String> {
    let mut text = String::new(alloc);
    for cell in &cells_of(alloc, image)? {
        let state = if cell.is_allocated {
            "allocated"
        } else {
            "free"
        };
        write!(text, "{} size {} {state}\n", cell.offset, cell.size)?;
    }
    Ok(text)
}

/// A line for each size of allocated cells, from the least: the size, and how many have it.
pub fn sizes_told(alloc: Global, image: &[u8]) -> Result<String> {
    let mut counts: BTreeMap<u32, u32> = BTreeMap::new(alloc);
    for cell in &cells_of(alloc, image)? {
        if cell.is_allocated {
            let count = counts.get(&cell.size).copied().unwrap_or(0);
            counts.insert(cell.size, count.saturating_add(1))?;
        }
    }
    let mut text = String::new(alloc);
    for (size, count) in &counts {
        write!(text, "size {size} times {count}\n")?;
    }
    Ok(text)
}

/// What a cell holds, from its offset on.
fn content_at(bins: &[u8], offset: u32) -> Result<&[u8]> {
    match bins.get((offset as usize).saturating_add(4)..) {
        Some(content) => Ok(content),
        None => bail!("there is no cell at {offset}"),
    }
}

/// Appends a line for a list of subkeys: its letters, and how many keys it has. An index root's lists have lines behind its own.
fn push_list(text: &mut String, bins: &[u8], list: u32) -> Result<()> {
    let content = content_at(bins, list)?;
    let count = half_at(content, 2)?;
    let letters = if content.starts_with(b"ri") {
        "ri"
    } else {
        "lh"
    };
    if !content.starts_with(letters.as_bytes()) {
        bail!("the list at {list} has other letters");
    }
    write!(text, "{letters} {count}\n")?;
    Ok(())
}

/// A line for each list of the root's subkeys.
pub fn lists_told(alloc: Global, image: &[u8]) -> Result<String> {
    let bins = bins_of(image)?;
    let mut text = String::new(alloc);
    let root = content_at(bins, word_at(image, ROOT)?)?;
    if word_at(root, 20)? == 0 {
        return Ok(text);
    }
    let list = word_at(root, 28)?;
    push_list(&mut text, bins, list)?;
    let content = content_at(bins, list)?;
    if content.starts_with(b"ri") {
        for number in 0..half_at(content, 2)? {
            let at = usize::from(number).saturating_mul(4).saturating_add(4);
            push_list(&mut text, bins, word_at(content, at)?)?;
        }
    }
    Ok(text)
}
