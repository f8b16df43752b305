//! The notifications that were asked for and not sent yet, and those that were sent (Win32 registry reference,
//! `RegNotifyChangeKeyValue`).
//!
//! Its one contract: a table of pending watches, and for each session the notices that it was told, in order, with how many of
//! them it took. What ends a watch is told by an entry's events, the keys that it removes and the handle that it closes; a firing
//! looks at the paths of the events and those above them, and at each only for watches that it ends. Sending takes no memory: a
//! notice has its room since its watch was added. It stands on reg_model, whose definitions say what a watch is and what ends it, on
//! reg_heap for paths and which keys are below others, and on reg_names for how a path is written.
//!
//! Its types are [`Watches`], the table, and what is asked of it: [`Registration`], [`Event`], [`Removed`] and [`Place`].
//!
//! `table` has a row for each watch, which `index` finds by two texts, each with its number at the end: one of its key's path and kinds of
//! events, so that watches of a key and of those below it stand side by side, and one of its handle. `marks` says which keys may be
//! watched, so that most events look for no text. `adding` takes all memory that a watch will need; `queues` has the notices.
#![tactic(auto)]

mod adding;
mod asked;
mod index;
mod marks;
mod place;
mod queues;
mod table;
mod watches;

pub use asked::{Event, Registration, Removed};
pub use place::Place;
pub use watches::Watches;
