//! One change of a hive, as it is typed.
//!
//! Its contract: [`read_path`], [`read_name`] and [`read_value`] answer just the path, the name, and the type and data that
//! `specs/ChangeWords.antt` says of some words, and [`told`] just the line that tells a change, as `specs/ChangeLines.antt` has it.
//!
//! `change` has the types, `names` reads paths and names, `kinds` types, `numbers` numbers, `wide` texts, and `contents` data; `faults`
//! says of words which of them isn't understood, and `lines` tells a change.
//!
//! The encoding of texts is UTF-16, the low byte first, with a zero at the end, as regedit writes them; the words are this project's own.

mod change;
mod contents;
mod faults;
mod kinds;
mod lines;
mod names;
mod numbers;
mod wide;

pub use change::{Contents, KeyChange};
pub use contents::read_value;
pub use faults::value_fault;
pub use lines::told;
pub use names::{read_name, read_path};
