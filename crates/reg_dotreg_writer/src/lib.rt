//! A tree of keys, from one of them on, as a registration file ("Windows Registry Editor Version 5.00").
//!
//! Its one contract: [`export`] writes just the bytes that `specs/Entries.antt` says, or a front of them where a write or memory fails;
//! where no key is there, or a name can't be written, it says so and writes nothing. So does [`export_changes`] with what changes from one
//! tree to another, as `specs/Changes.antt` says. It stands on reg_tree, whose trees it reads, on reg_tree_text, whose walk and meaning of
//! a path it takes, and on reg_diff, which reads and compares values.
//!
//! `encoding` appends characters and units in UTF-8 or UTF-16, `units` reads strings, `value` tells a value's entry, `block` a key's,
//! `start` begins a walk with the names that lead to a key, and `writable` looks at the names. Of changes, `side` says which tree one is
//! of, `telling` which values are told, `change` tells a key's block, `changing` the file, and `unwritable` looks at the names. Its type is
//! [`ExportFault`].
#![tactic(auto)]

mod block;
mod change;
mod changing;
mod encoding;
mod exporting;
mod fault;
mod side;
mod start;
mod telling;
mod units;
mod unwritable;
mod value;
mod writable;

pub use changing::export_changes;
pub use exporting::export;
pub use fault::ExportFault;
