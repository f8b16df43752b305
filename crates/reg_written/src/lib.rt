//! Whether foreign bins are as this project writes them, so that they may be taken as they stand.
//!
//! Its one contract: of bins whose headers and sizes of cells are good, these functions say exactly whether they are as an arena has
//! them (`is_arena`). Of keys that the walk of an image has read, they say exactly whether each is as `Written` of reg_shape has it
//! (`are_written`), and which ring their securities form, if they form one (`ring_of`).
//!
//! The definitions right in `specs/` are `ReadKeys` (what the walk tells of a key that it met) and `SecurityRings` (the ring of the
//! securities that keys use). Those in `specs/Internal/` are the tests and steps that the code makes, one by one.
//!
//! `arena` tests the bins. `keys` tests a key by its `node`, its `values` and its `subkeys`, each read where it stands by `content`.
//! `securities` reads those of keys, `uses` counts them, and `walk` goes round the ring, over the `descriptors` that it met.
//!
//! Suhanov, Windows registry file format specification, sections "Hive bin", "Cell", "Key node", "Key value", "Key security", "Subkeys
//! list" and "Big data".
#![tactic(auto)]

mod arena;
mod content;
mod descriptors;
mod keys;
mod node;
mod ring;
mod securities;
mod subkeys;
mod uses;
mod values;
mod walk;

pub use arena::is_arena;
pub use keys::{are_written, securities_of};
pub use ring::ring_of;
