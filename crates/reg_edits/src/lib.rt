//! What an edit makes of a file's hive: a script run on it, the entries of a .reg text or one change made in it, or a key of another file's
//! copied into it, and what it is to be saved with.
//!
//! Its one contract: [`edit`] answers just the hive that a script leaves of a file's, with its moment, the next sequence number and whether
//! it is to be saved; [`import`] the same of the entries of a .reg text, and [`change`] of one change; [`copy`] answers just the tree that
//! a copied key leaves of a file's, with moment and sequence number; and [`fresh_hive`] makes a hive of one root. It stands on reg_script,
//! which runs scripts, on reg_dotreg_reader and reg_dotreg_import, on reg_words, which has what a change asks for, on reg_copy, which
//! copies keys, and on reg_image and reg_tree_image, which load hives and trees. Its types are [`Edited`], [`EditFault`], [`ImportEnd`]
//! with [`BadText`], [`ChangeEnd`] with [`Hindrance`], [`CopiedTree`], [`CopyEnd`], and [`FreshFault`].
//!
//! `loading` loads a file's hive and seats its sessions, `edits` has the edit and `importing` the import, with `bad_text`; `changing` has
//! the change, and `hindrances` what hinders it; `copying` has the copy.
#![tactic(auto)]

mod bad_text;
mod changing;
mod copying;
mod edits;
mod hindrances;
mod importing;
mod loading;

pub use bad_text::BadText;
pub use changing::{ChangeEnd, change};
pub use copying::{CopiedTree, CopyEnd, copy};
pub use edits::{EditFault, Edited, FreshFault, edit, fresh_hive};
pub use hindrances::Hindrance;
pub use importing::{ImportEnd, import};
