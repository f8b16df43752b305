//! Whole hives: which cells a hive's records lead to, when nothing is left over or counted wrongly, and which tree they spell.
//!
//! The crate has no code but laws. Its one contract: a shape that stands in the cells and has all of them makes a whole hive, and
//! spells the shape's tree. It stands on `reg_records`, whose readers say what one cell holds; `reg_values`, `reg_index` and
//! `reg_tree` stand on it. Its main types are `Node`, a key with all that is its own, and `Branch`, a key with all below it.
//!
//! The definitions right in `specs/` are the rules' own: `Walk` (the records met from the root), `Nodes` (a key with all that is
//! its own), `Spelt` (the tree), `Written` and `Whole` (when a hive is whole), over `Readings` (what is read, with what is met).
//! Those in `specs/Internal/` are the words of the contracts between crates and of proofs: forests, shapes, and a key that gave
//! way to another.
//!
//! Suhanov, Windows registry file format specification, sections "Key node", "Key value", "Key security", "Subkeys list",
//! "Key values list" and "Big data".
#![tactic(auto)]

pub mod laws;
