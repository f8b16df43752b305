//! The entries of a .reg text: keys to be made and taken away, and values to be set and taken away.
//!
//! Its one contract: [`units_in`] answers just the units that `specs/FileUnits.antt` says of a file's bytes, and [`read_entries`] just
//! the entries that `specs/EntryMeanings.antt` says of a text, or the number of its first line that isn't understood. What the keys of a
//! text are below is given in units too, as [`front_units`] and [`widened`] make them. It stands on reg_names, which says what is a name
//! and a path, and on reg_model for its bytes.
//!
//! [`bad_lines`] answers just the lines of a text that `specs/BadLines.antt` says aren't understood: each with its place and with what
//! was expected there, which [`told`] tells.
//!
//! Its types are [`Entry`], [`Numbered`], [`ReadFault`] and [`BadLine`] with [`Expected`] and [`Units`].
//!
//! `encoding` makes units of bytes, `lines` cuts them, `rows` joins those of a value, `reading` goes over the lines once, and `keys`,
//! `roots`, `values`, `quotes`, `numbers` and `words` read what one says. `checking` goes over the lines once more: `line_stops`,
//! `path_stops`, `quote_stops` and `number_stops` find where one stops, `places` which character of which line that is, and `telling`
//! tells it.
//!
//! The forms are those of regedit, version 5.00 and REGEDIT4; names of characters 0x01 to 0x7F alone are this project's own.
#![tactic(auto)]

mod checking;
mod encoding;
mod entry;
mod expected;
mod fault;
mod keys;
mod line_stops;
mod lines;
mod number_stops;
mod numbers;
mod path_stops;
mod places;
mod quote_stops;
mod quotes;
mod reading;
mod roots;
mod rows;
mod telling;
mod units;
mod values;
mod words;

pub use checking::bad_lines;
pub use encoding::{front_units, units_in};
pub use entry::{Entry, Numbered};
pub use expected::{BadLine, Expected};
pub use fault::ReadFault;
pub use reading::read_entries;
pub use roots::widened;
pub use telling::told;
pub use units::Units;
