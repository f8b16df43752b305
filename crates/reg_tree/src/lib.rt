//! The tree of a hive's keys, in the cells of an arena.
//!
//! Its one contract: contracts see the finite map from paths to keys, and each change is one step of it, or a fault that changes
//! nothing; and the cells of every tree are a whole hive's that spells the map (`Tree::arena`, clause `whole`). Above this crate
//! nobody speaks of a cell, save who reads the bytes by [`Tree::arena`].
//!
//! It stands on reg_values and reg_index for a key's lists, and on reg_shape for what a whole hive is. Its types are [`Tree`], which
//! owns its arena; [`Node`], a key of it; [`NewKey`], one to be built, and [`NewValue`], a value to be built; [`Subkey`], one of those
//! below a key, with its place; [`Reached`], how far a path leads; [`ValueFound`] and [`TreeFault`].
//!
//! `tree` is the type, and its `building` has the calls by which images are built; the other modules work on its arena and a key's
//! offset. `find` walks paths, `read` tells of a key, `values` has its values, and `key` reads and writes key nodes. `make` makes the
//! missing keys of a path, `unmake` deletes a key, `prune` a key with all below it, and `security` gives a key a descriptor. `build` and
//! `build_values` build a key of an image, with marks and a class; `room` and `lengthening` see to room for cells and for subkeys to come.
//! `names_seen` spares a search where many values are set on one key.
//!
//! Win32 registry reference, "Structure of the Registry"; Suhanov, Windows registry file format specification.
#![tactic(auto)]

mod build;
mod build_values;
mod cells;
mod fault;
mod find;
mod held_bytes;
mod key;
mod lengthening;
mod make;
mod names_seen;
mod node;
mod prune;
mod read;
mod room;
mod security;
mod tree;
mod unmake;
mod value;
mod values;

pub use build::NewKey;
pub use fault::TreeFault;
pub use held_bytes::{bytes_spell_bytes, hold_bytes};
pub use node::{Created, Node, Reached, Subkey};
pub use reg_index::Place;
pub use reg_values::{LargestValues, NewValue, Value};
pub use tree::Tree;
pub use value::ValueFound;
