//! Queries of an image: it is read as a tree, and something of the tree written.
//!
//! Its one contract: each call writes just what a crate below does of a tree, of the tree that the image loads as; or it answers why the
//! image doesn't load, and then nothing was written. But [`get`] reads only what leads to a value, and [`list`] what it lists of a key by
//! itself, unless they are asked to load the whole: so they may answer of an image that doesn't load. [`list`] and [`get`] write what
//! reg_tree_text does, [`find`] what reg_find does, [`export`] what reg_dotreg_writer does, [`export_json`], [`export_jsonl`],
//! [`export_html`], [`export_csv`], [`list_long`] and [`get_typed`] what reg_tables does, and of two trees [`diff`] what reg_diff does, and
//! [`export_changes`] what reg_dotreg_writer does. No image is read past its bins.
//!
//! It stands on these and on reg_tree_image, which loads. Its types are the calls' faults.
#![tactic(auto)]

mod changing;
mod detailing;
mod differing;
mod exporting;
mod fault;
mod finding;
mod listing;
mod querying;
mod tabling;

pub use changing::export_changes;
pub use detailing::{get_typed, list_long};
pub use differing::diff;
pub use exporting::export;
pub use fault::{ChangesEnd, DiffFault, ExportEnd, FindFault, QueryFault};
pub use finding::find;
pub use listing::list;
pub use querying::get;
pub use tabling::{export_csv, export_html, export_json, export_jsonl};
