//! Notices on their way out of a hive: a ring of 64 between a hive, which stands behind a lock, and a session, which takes its notices
//! without the lock.
//!
//! Its one contract: what a ring was sent, followed by what the hive keeps back for the session, is all that the session was told
//! (`IsAhead` in `specs/Rings.antt`), and moving notices on keeps this. Notices move from the front, in order, each once. It stands on
//! reg_calls, whose hive keeps back what isn't moved on yet, and on `rtrb`, whose ring lets one thread push while another pops.
//!
//! [`outbox`] makes a ring with its two ends: the [`Outbox`], which stands beside the hive under its lock, and the [`Inbox`], which
//! stands in the session.
#![tactic(auto)]

mod ends;
mod making;

pub use ends::{Inbox, Outbox, RING_ROOM};
pub use making::{OutboxFault, outbox};
