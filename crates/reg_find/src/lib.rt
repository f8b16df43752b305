//! Keys and values of a tree found by a pattern.
//!
//! Its one contract: [`find`] writes just the text that `specs/Findings.antt` says, byte for byte, or a front of it where a write or
//! memory fails; what a pattern matches is its [`Pattern`]'s own word, which for a regular expression is the regex crate's. It stands
//! on reg_tree_text, whose lines, texts of data, walk and gathered output it takes, and on reg_tree.
//!
//! Its types are [`Scope`], where is searched, and [`PatternFault`], why a text is no pattern ([`compile`]).
#![tactic(auto)]

mod fault;
mod finding;
mod line;
mod pattern;
mod scope;
mod search;
mod wide;

pub use fault::PatternFault;
pub use finding::find;
pub use pattern::{Pattern, compile};
pub use scope::Scope;
