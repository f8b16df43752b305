//! The entries of a .reg text applied to a hive.
//!
//! Its one contract: [`import`] leaves the tree that `specs/Imports.antt` says of the entries, by just the calls that
//! `specs/ImportCalls.antt` lists, each accepted, or stops at the first that the hive refuses, with the number of its line and the
//! status, and says which were accepted before it. It stands on reg_calls, whose calls it makes, and on reg_dotreg_reader, which has the
//! entries. Its fault is [`ImportFault`].
//!
//! `entries` makes the calls of each entry, in session 0; `made` makes one change, and `lookup` says what is there already.
#![tactic(auto)]

mod entries;
mod fault;
mod lookup;
mod made;

pub use entries::import;
pub use fault::ImportFault;
