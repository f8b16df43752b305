//! Images of hives: a base block, and the bins behind it.
//!
//! Its one contract: what loading makes of any bytes is one walk, a definition (`loaded`), which says the tree that an image holds
//! or the first test that fails; the image of a whole hive loads, and gives the tree that the hive spells (`laws`); and each reader
//! here is one step of that walk, over bytes that nobody vouches for.
//!
//! The definitions right in `specs/` are the rules' own: `WalkSteps` (a step meets a fault, or gives what it read), `LoadingWalk`
//! (the walk, record by record), `BaseBlock` (the first 4,096 bytes), `Images` (an image as it is written, and as it is loaded),
//! `WalkedKeys` with `CrowdedBins` (the keys that the walk comes to, and that the new bins have no room for one), and `PathWalk` with
//! `KeyListing` and `PathLoads` (the walk along one path, to a key's value, or to a key that is listed), and `FaultPlaces` (where in the
//! bins the walk fails).
//! The readers keep a table of what is known of each cell (`CellTable`): whether it is allocated, and how it was named.
//!
//! It stands on reg_shape, whose readings and trees the walk spells, and on reg_records for the records. Its main type is
//! [`LoadFault`].
//!
//! `loading` reads an image (`input`), tests its base block (`block`) and cells (`scan`), and then its keys, by `walk` over a stack of
//! `frames`, or by `checking`, which builds none and keeps the names of siblings (`sibling_names`). `begin` reads a key and builds it
//! (`built_keys`, `first_keys`) where `room` was made for it, each record by a reader of its own, over `cells`, which names a cell in the
//! `table`. `writing` makes an image, `tree_writing` writes one bin by bin, and `parts` copies a part of one.
//! `path_loading` finds a value of an image by its path, by `path_walk`, which reads no more keys than it passes, and `path_listing` a
//! key with its values and the names right below it.
//! `places` tells where a fault is met (`FaultPlaces`): a bin or a size by `bad_bins`, all else by `checking`, which keeps where it is
//! (`spots`).
//! `free_cells` counts what of the bins is free, and `rebuilding` builds a tree anew in bins of its own.
//!
//! Suhanov, Windows registry file format specification, sections "Format of primary files", "Base block", "Hive bin" and "Cell".
#![tactic(auto)]

mod bad_bins;
mod begin;
mod big_data;
mod block;
mod built_keys;
mod cells;
mod checking;
mod data;
mod first_keys;
mod frames;
mod free_cells;
mod input;
mod key_parts;
mod keys;
pub mod laws;
mod list_part;
mod lists;
mod loading;
mod met_names;
mod names;
mod parts;
mod path_listing;
mod path_loading;
mod path_walk;
mod places;
mod rebuilding;
mod room;
mod rows;
mod scan;
mod security;
mod sibling_names;
mod spots;
mod subkeys;
mod table;
mod tree_writing;
mod value_lists;
mod values;
mod walk;
mod whole;
mod writing;

pub use block::checksum;
pub use free_cells::{free_bytes, is_sparse};
pub use loading::{NumberedTree, load_anew, load_numbered, load_tree};
pub use parts::{fill, image_part};
pub use path_listing::{KeyAtPath, ListedValue, key_at_path};
pub use path_loading::{ValueAtPath, value_at_path};
pub use places::{FaultPlace, fault_place};
pub use rebuilding::rebuild;
use thiserror::Error;
pub use tree_writing::write_tree;
pub use writing::{ImageFault, WriteFault, make_image, write_image};

/// Why bytes are no image that is loaded: the first test that fails.
#[derive(Clone, Copy, Debug, PartialEq, Eq, Error)]
pub enum LoadFault {
    /// The reader failed.
    #[error("the image can't be read")]
    Read,
    /// The image ends too early.
    #[error("the image ends too early")]
    Short,
    /// The image doesn't begin with `regf`.
    #[error("the image has another signature")]
    Signature,
    /// A version, a file type or a file format that isn't read.
    #[error("the image has a version that isn't supported")]
    Version,
    /// The checksum of the base block is another.
    #[error("the checksum of the base block is wrong")]
    Checksum,
    /// The two sequence numbers differ: the image wasn't written to its end.
    #[error("the image wasn't written to its end")]
    Dirty,
    /// The size of the bins, or the header of a bin, is bad.
    #[error("a bin is bad")]
    Bins,
    /// The size of a cell is bad.
    #[error("a cell is bad")]
    Cells,
    /// A record is bad, or stands in no allocated cell.
    #[error("a record is bad")]
    Record,
    /// A key is below itself.
    #[error("a key is below itself")]
    Loop,
    /// A cell is named twice, or a name stands twice in one key.
    #[error("a cell or a name comes twice")]
    Twice,
    /// Something that isn't supported: a predefined handle, or a character.
    #[error("the image has something that isn't supported")]
    NotInProfile,
    /// More than a hive may have.
    #[error("a limit is passed")]
    Limit,
    /// Memory runs out.
    #[error("memory runs out")]
    Memory,
}
