//! How two trees of keys differ, or two branches of them, told as text, a line for each difference.
//!
//! Its one contract: [`diff`] writes just the text that `specs/Differences.antt` says, byte for byte, or a front of it where a write or
//! memory fails, and says whether the keys are the same but for what is ignored. It stands on reg_tree, whose trees it reads, on
//! reg_tree_text, whose walk and gathered output it takes, and on reg_text.
//!
//! `diffing` goes over the keys of both trees, which `branch` has at a path, `fields` and `values` tell how a key differs that both have,
//! `value` reads values and compares them, and `line` tells a line part by part. Its types are what [`Ignored`] says, [`diff`]'s fault, and
//! [`Copied`], a value that was read, with which reg_dotreg_writer tells changes too.
#![tactic(auto)]

mod branch;
mod diffing;
mod fault;
mod fields;
mod ignored;
mod line;
mod side;
mod value;
mod values;

pub use diffing::diff;
pub use fault::BranchFault;
pub use ignored::Ignored;
pub use value::{Copied, index_near, is_same, read_value};
