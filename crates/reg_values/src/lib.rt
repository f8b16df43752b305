//! A key's values: a list of offsets, a record for each value, and its data.
//!
//! Its one contract: a list reads as the values that the rules give it, before and after each change, and gives up and takes just
//! its own cells. The functions work on an arena that they are lent and on a list's offset in it; the key node that names the list
//! is the caller's, and nothing of it is read or written here.
//!
//! It stands on reg_records and on reg_shape, by whose readings a list reads. Its types are [`ValuesList`], a list as its key node
//! names it, [`Value`], a value as it is told, [`LargestValues`], what is largest among them, and [`NewValue`], one to be made.
//!
//! `finding`, `data` and `big` read. `plan` says which cells a set takes; `setting` is a set, by `add` for a new name and by `replace` for
//! one that is there. `removing` removes, `making` makes all values of a key that has none, in cells of one carve, and `extending` puts
//! more behind them.
//!
//! Suhanov, Windows registry file format specification, sections "Key values list", "Key value" and "Big data".
#![tactic(auto)]

mod add;
mod big;
mod data;
mod extending;
mod finding;
pub mod laws;
mod making;
mod plan;
mod removing;
mod replace;
mod setting;

pub use data::{at_into, bytes_of, fill_bytes};
pub use extending::extend;
pub use finding::{LargestValues, Value, at, find, largest};
pub use making::{NewValue, front_of_one_carve, front_of_one_more_carve, make};
pub use plan::plan_set;
pub use removing::{clear, remove, remove_at};
pub use setting::{set, set_at};

/// The bit of a size field that says that the data stands in the record itself.
const INLINE: u32 = 0x8000_0000;

/// How many bytes of data stand in the record itself at most.
const INLINE_LIMIT: usize = 4;

/// A key's list of values, as its key node names it.
#[derive(Clone, Copy, Debug, PartialEq, Eq)]
pub struct ValuesList {
    /// How many values there are, at most 16,384.
    pub count: u32,
    /// The offset of the list's cell; 0xFFFFFFFF where there are no values.
    pub offset: u32,
}
