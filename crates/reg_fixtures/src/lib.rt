//! What tests and benches share: readers that fail, images written out cell by cell, changes of bytes, cells that come and go at random,
//! and the numbers by which they draw at random.
//!
//! Its contracts are those of the changes: which bytes a change leaves; of [`LiveCells`]: which cells are live is exactly as told, so that
//! what is measured is what was meant; and of [`Registry`], a bound of what answers calls, which a hive meets. It stands on reg_arena, on
//! reg_tree_image for the checksum, and on reg_calls. Its other types are [`FakeReader`], [`PlainHive`] and [`Chance`], what numbers are
//! drawn from; `FixtureFault` says what was wrong with a table or a place, or that memory was wanting.
//!
//! `bytes` changes bytes of an image, `drafts` writes one out cell by cell from a table, and `bins` tells of an arena's cells.
#![tactic(auto)]

mod bins;
mod bytes;
mod chance;
mod drafts;
mod fakes;
mod fault;
mod live_cells;
mod registry;

pub use crate::bins::sizes_but;
pub use crate::bytes::{put_changes, put_line};
pub use crate::chance::Chance;
pub use crate::drafts::drafted;
pub use crate::fakes::FakeReader;
pub use crate::fault::FixtureFault;
pub use crate::live_cells::LiveCells;
pub use crate::registry::{PlainHive, Registry};
