//! The key securities of a hive: each descriptor stands in one cell, which counts the key nodes that use it, and the cells form a
//! ring.
//!
//! Its one contract: a ring before and a ring after each change, without two equal descriptors; a count moves by one and nothing
//! else, and a cell whose count falls to 0 leaves the ring and is freed. The functions work on an arena that they are lent and on
//! offsets in it; the key nodes that name a security are the caller's, and nothing of them is read or written here.
//!
//! It stands on reg_records and on reg_shape, which says what a ring is. Its type is [`SecurityTable`], by which a descriptor is
//! found without a walk over the ring.
//!
//! `reading` reads a security, `counts` moves its count, and `ring` puts one in and takes one out; `table` does so in ring and map
//! together. The map is `cells`: by hash in `hashed`, which has one descriptor of each hash, and the others by their bytes.
//!
//! Suhanov, Windows registry file format specification, section "Key security".
#![tactic(auto)]

mod cells;
mod counts;
mod hashed;
mod reading;
mod ring;
mod table;

pub use counts::share;
pub use reading::{descriptor, plan_add};
pub use table::SecurityTable;
