//! The callbacks of a hive (the pre-notifications of `CmRegisterCallbackEx`): who may refuse a call before it is answered.
//!
//! Its one contract: a list of boxed callbacks, each at an altitude of its own and with a cookie that was given once. They are asked
//! from the highest altitude down, and the first status that isn't 0 is the answer. It stands on reg_model, whose calls they are
//! shown.
//!
//! Its types are [`Callback`], what a caller writes and hands in as a box; [`CallView`] with [`Seen`], the call that callbacks are
//! asked of; [`Callbacks`], the list; [`Cookie`] and [`CallbackFault`]. A list is of boxes where nothing else is said. Its functions
//! take callbacks of any type, as those of the crates above do that hand a list on: their contracts then name what the callbacks
//! answer by the bound. [`NoCallback`] is the type where none is ever registered.
#![tactic(auto)]

mod callback;
mod callbacks;
mod row;
mod view;

pub use callback::{Callback, NoCallback};
pub use callbacks::{CallbackFault, Callbacks, Cookie, REGISTRATIONS_LIMIT};
pub use view::{CallView, Seen};
