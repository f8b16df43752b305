//! The table of the open handles of a hive.
//!
//! Its one contract: it is a map from numbers to session, rights and the folded path of a key, or to nowhere once that key was
//! deleted; a key made later under the same path is another one. For each path that handles lead to it keeps a payload of its owner's,
//! of which it knows nothing. It stands on reg_model, which says what handles are.
//!
//! A look-up takes no longer with more handles open. A handle added, the last one on a key closed and a key deleted find a path
//! among the open keys, in logarithmic time; a whole tree deleted does so for each open key in it. A table that is full is copied
//! to one of twice its size.
//!
//! Its types are [`Handles`], [`Found`], a handle as it was found, and [`Target`], the key that it leads to.
//!
//! `rows` finds a row by its handle's number, by hash. `keys` has the open keys in a slab, in which a row names its key by a slot, and a
//! map from the paths of those that weren't deleted to their slots.
#![tactic(auto)]

mod handles;
mod keys;
mod rows;

pub use handles::{Found, Handles};
pub use keys::Target;
