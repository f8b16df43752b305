//! The keys and values of a tree as JSON, as lines of JSON, as a page of HTML and as CSV, and listed with what is asked for.
//!
//! Its one contract: [`export_json`], [`export_jsonl`], [`export_html`] and [`export_csv`] write just the text that `specs/Tables.antt` and
//! `specs/Pages.antt` say of the key that is there and of all below it, or a front of it where a write or memory fails; where there is
//! none, they say so and write nothing. So does [`list_long`] of a key and what is below it (`specs/LongListings.antt`), and [`get_typed`]
//! of a value (`specs/TypedValues.antt`). It stands on reg_tree_text, whose walk, gathered output and texts of data it takes, and on
//! serde_json, csv and jiff, whose own words the texts are. Its types are [`Columns`] and [`Timeline`], which writes the keys of several
//! trees by the time of their last write (`specs/Timelines.antt`), with [`TimelineForm`].
//!
//! `keys` begins a walk at a key, with the names that lead to it. `gather` makes of a key a struct of `entry`, which `json_table` writes
//! between the texts of `layout`, for a page those of `page`; `comma_table` writes the rows of `row`. `form` and `units` say what data are
//! in JSON, `told_form` what a row says of their form, `sddl` how a security descriptor is told, `shield` how JSON stands in a page, and
//! `time` how an instant is written. `typed` tells a value with its type, and `long_line` the lines of a listing.
#![tactic(auto)]

mod columns;
mod comma_table;
mod entry;
mod form;
mod gather;
mod json_table;
mod keys;
mod layout;
mod long_line;
mod long_listing;
mod page;
mod parts;
mod row;
mod sddl;
mod shield;
mod time;
mod timeline;
mod told_form;
mod typed;
mod typed_value;
mod units;

pub use columns::Columns;
pub use comma_table::export_csv;
pub use json_table::{export_html, export_json, export_jsonl};
pub use long_listing::list_long;
pub use timeline::{Timeline, TimelineForm};
pub use typed_value::get_typed;
