//! The script: one registry call a line, one reply a line.
//!
//! Its one contract: [`run`] without a fault has written just the replies of the script's lines, byte for byte; after a fault those
//! of the lines before it, or just as many bytes of them as the writer took, and the hive is as these lines left it. It stands on
//! reg_calls, whose hive it works on, on reg_journal, whose shares it calls by, and on reg_model.
//!
//! A line fails where it has no form of a line, or asks for a change that isn't made. [`run_counted`] tells how many did, and
//! [`run_strictly`] stops at the first.
//!
//! `parsing` understands a line by the readers of `words`; `reply` writes a reply; `output` gathers replies and counts what the writer
//! took; `failed` tells how a line went; `engine` goes over the bytes. Its public types are [`ScriptFault`], [`Ran`], [`StrictFault`]
//! and [`FailedLine`]. For scripts that aren't run line by line [`parse`] reads one [`Line`], and [`write_changed`], [`write_answered`]
//! and [`write_notice`] write its reply.
#![tactic(auto)]

mod engine;
mod failed;
mod fresh;
pub mod laws;
mod line;
mod output;
mod parsing;
mod reply;
mod words;

pub use engine::{
    LINE_LIMIT, LINES_LIMIT, ScriptFault, first_feed, run, run_counted, run_strictly, run_to,
};
pub use failed::{FailedLine, Ran, StrictFault};
pub use fresh::FRESH_DESCRIPTOR;
pub use line::{Line, Session, Setting};
pub use parsing::parse;
pub use reply::{
    CHANGE_REPLY_LIMIT, NOTICE_REPLY_LIMIT, is_notify, write_answered, write_changed, write_notice,
};
