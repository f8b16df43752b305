//! Calls on a hive and their replies, as plain values, and the definitions of what each call means.
//!
//! Its one contract: a copy equals its source, and what is the same is told to be. What a call means stands in `specs/`, for the contracts
//! of the crates above: worlds and what a change makes of them, causes of refusals, replies, legal journals, notifications; [`laws`] says
//! what holds of these. It stands on reg_names and reg_heap.
//!
//! Its types are [`Change`] and [`Query`], which are [`Call`]s; [`ChangeReply`] and [`Answer`]; [`Entry`], an accepted change, and its
//! [`Receipt`]; [`Step`] and [`Outcome`], a call made and told; [`Notice`], a notification; and [`Bytes`].
//!
//! In `specs/`, `Worlds` says what an accepted change makes of a world, `Causes` why a call is refused, `Callbacks` what callbacks
//! answer, `Replies` the reply to an accepted call, `Watches` which watches a change ends, `Calls` one call whole, and `Histories` what
//! a journal replays.
//!
//! Win32 registry reference, of each call the function that its variant names; the journal of accepted changes is this project's
//! own.
#![tactic(auto)]

mod answer;
mod bytes;
mod call;
pub mod dispositions;
pub mod filters;
pub mod laws;
pub mod limits;
mod notice;
mod reply;
pub mod rights;
pub mod statuses;
mod step;

pub use answer::{Answer, AnswerBody};
pub use bytes::{Bytes, INLINE_BYTES};
pub use call::{Call, Change, Query};
pub use notice::{Notice, Reason};
pub use reply::{ChangeReply, Entry, Receipt};
pub use step::{Outcome, Step};
