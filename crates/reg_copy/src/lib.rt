//! A key copied from one tree of keys to another, with all that is below it.
//!
//! Its one contract: [`copy`] makes the tree that `specs/Copies.antt` says: the copy right below the key that was named, each key of it
//! with the name, marks, class, descriptor, time and values that it has, and all else as it was. It stands on reg_tree, whose trees it
//! reads and builds, on reg_tree_text, which finds keys by their paths, and on reg_diff, which reads values.
//!
//! `copying` goes over the keys, `keys` copies one with its values, and `fault` says why nothing was copied.
#![tactic(auto)]

mod copying;
mod fault;
mod keys;

pub use copying::copy;
pub use fault::CopyFault;
