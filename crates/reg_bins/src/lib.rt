//! The bytes of a hive's bins, each bin in a vector of its own, and the tables of their pages.
//!
//! To those above the bins stand in a row: a byte is named by its offset from the first bin. A [`BinRow`] finds the bin of an
//! offset at once, by a table with an entry for each page of 4096 bytes, since a bin is of whole pages and begins with one: its
//! first page has its bytes, and the others know where it begins. So another bin copies none of those that there are. A
//! [`PageTables`] keeps a number for each eight bytes, each page's in a table of its own, so that it grows in the same way.
//!
//! It knows nothing of headers and cells: these are reg_arena's.
//!
//! Suhanov, Windows registry file format specification, section "Hive bin".
#![tactic(auto)]

mod row;
mod tables;

pub use row::BinRow;
pub use tables::PageTables;
