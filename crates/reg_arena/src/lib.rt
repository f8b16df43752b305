//! The arena: allocated and free cells in bins, as a hive file holds them.
//!
//! A hive's data is a row of bins, and a bin is a header and a row of cells that fill it. An [`Arena`] keeps the bins'
//! bytes, and 24 lists of the free cells by their sizes, which are threaded through them: the four bytes behind a free cell's size
//! field are the offset of the next one of its list. Offsets count from the first bin. Sizes and offsets are in bytes.
//!
//! Its one contract: the cells fill the bins and the lists have just the free ones (`IsSound`, of every arena); `carve` and `free`
//! change which cells there are, exactly as the rules say, and the writers what one cell holds. Crates above need only `heap_of`,
//! what the allocated cell at each offset holds. It stands on reg_bins, which has the bytes, and on reg_heap. Its types
//! are [`Arena`], [`Cell`], [`ArenaFault`] and [`Stretch`], by which whoever reads many cells looks a bin up once.
//!
//! `carve` takes cells from a free one, or from a bin that `bin` appends, and `cut` cuts them; `each` carves those of one change each by
//! itself; `free` merges a cell with its free neighbours. `free_lists` finds a cell's list and its neighbours: `classes` says which list a
//! size has, `firsts` with `bitmap` which cell is the first of a size, `links` threads the lists, and `large` walks the last one. `walk`
//! goes over all cells, and `adopt` takes bins as they stand.
//!
//! Suhanov, Windows registry file format specification, sections "Hive bin" and "Cell".
#![tactic(auto)]

mod adopt;
mod arena;
mod bin;
mod bitmap;
mod carve;
mod classes;
mod cut;
mod each;
mod firsts;
mod free;
mod free_lists;
mod large;
pub mod laws;
mod links;
mod size;
mod stretch;
mod tables;
mod walk;
mod words;

pub use arena::Arena;
pub use classes::list_of;
pub use size::cell_size;
pub use stretch::{Stretch, StretchedCell};
use thiserror::Error;

/// The most bytes of cells that one carve may be asked for, their size fields too: 16 MiB, this project's own limit.
pub const CARVE_LIMIT: u32 = 16_777_216;

/// How many lists of free cells there are, by size ([`list_of`]).
pub const LISTS: u32 = 24;

/// A cell as it stands in the bins.
///
/// Suhanov, Windows registry file format specification, section "Cell".
#[derive(Clone, Copy, Debug, PartialEq, Eq)]
pub struct Cell {
    /// Where its size field is: a multiple of 8, counted from the first bin.
    pub offset: u32,
    /// Its bytes, the four of the size field too: a multiple of 8, at least 8.
    pub size: u32,
    /// Whether it is in use; else it is free.
    pub allocated: bool,
}

/// Why a call failed. The arena is as it was before.
#[derive(Clone, Copy, Debug, PartialEq, Eq, Error)]
pub enum ArenaFault {
    /// There may be no further bin for the cells.
    #[error("the bins have no room")]
    Full,
    /// Memory was refused.
    #[error("no memory")]
    Memory,
}
