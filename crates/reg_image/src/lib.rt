//! Images of hives: the image of what a hive holds, and a hive of what an image holds.
//!
//! Its one contract: a hive that is loaded has the tree that a read prefix of its input spells, and nothing was done to it yet; and
//! the image that a hive makes or writes has, by the rules of loading, the tree of its journal's replay. A checkpoint makes the image,
//! and has the hive's journal begin anew with that tree.
//!
//! It stands on reg_tree_image, which reads and writes the image of a tree, and on reg_calls, whose hive has that tree. Its types
//! are the faults of reg_tree_image, [`CheckpointFault`] and [`NumberedHive`].
//!
//! Suhanov, Windows registry file format specification, section "Format of primary files".
#![tactic(auto)]

mod checkpoints;
mod loading;
mod writing;

pub use checkpoints::{CheckpointFault, checkpoint};
pub use loading::{NumberedHive, load, load_numbered};
pub use reg_tree_image::{ImageFault, LoadFault, WriteFault, checksum, write_image};
pub use writing::{image, write_hive};
