//! Words that the contracts of several crates cite: numbers in bytes, paths, trees of keys and their changes, and the limits of a
//! hive. The constants are all of its code, and so it has no contract.
//!
//! `ByteWords`, `Paths`, `Members` (a key's values) and `Edits` (keys changed in a tree) are the rules' words, `Heaps` (a store of
//! cells, and what changes in it) and `Kinds` (records met, and counted) those of the layers between cells and tree. `proofs/` has
//! lemmas on them.
//!
//! It stands on reg_names: values are found by folded names. Its main types are `Path`, `Tree`, `Rec`, `Member` and `Heap`.
#![tactic(auto)]

pub mod limits;
pub mod marks;
