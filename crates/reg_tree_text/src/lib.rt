//! What is said of a tree of keys as text: its dump, its keys listed, and a key or a value by its path.
//!
//! Its one contract: each call writes just the text that its definition says, byte for byte, or a front of it where a write or memory
//! fails. [`dump`] tells all keys (`specs/DumpTexts.antt`), [`count`] and [`check_line`] how many keys and values there are, [`list`] and
//! [`list_tree`] a key (`specs/Listings.antt`), and [`value_text`] is a value's data as one line (`specs/ValueTexts.antt`), which
//! [`tell_value`] writes. [`list_at`] and [`get_at`] find the key or the value first, by a path and a name (`specs/PathQueries.antt`);
//! where there is none, they say so and write nothing. It stands on reg_tree, whose trees it reads, and on reg_text.
//!
//! `walk` goes from key to key with a stack of those on the present path, `dump_line` and `list_line` tell a key ([`put_value_line`] and
//! [`put_key_line`] its lines, one by one), and `output` sends what was gathered ([`settle`], [`finish`]), and names and data piece by
//! piece ([`put_escaped`], [`put_digits`]). Its types are [`Counts`], [`DumpFault`] and [`PathFault`], and [`Walk`], by which other texts
//! of a tree are told.
#![tactic(auto)]

mod counting;
mod counts;
mod dump_line;
mod dumping;
mod fault;
mod key_queries;
mod list_line;
mod listing;
mod output;
mod path_fault;
mod units;
mod value;
mod value_queries;
mod walk;

pub use counting::{check_line, count};
pub use counts::Counts;
pub use dumping::dump;
pub use fault::DumpFault;
pub use key_queries::{find_key, list_at};
pub use list_line::{put_key_line, put_value_line};
pub use listing::{list, list_tree};
pub use output::{finish, put_digits, put_escaped, settle};
pub use path_fault::PathFault;
pub use value::value_text;
pub use value_queries::{get_at, tell_value};
pub use walk::{Pending, Walk};
