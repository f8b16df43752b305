//! Sessions on threads of their own: up to 64 sessions call up to 16 hives, each of which stands behind a lock.
//!
//! Its one contract: whenever a hive's lock is free, the hive is whole, its book counts each of its entries (`IsAdmitted` in
//! `specs/Locked.antt`, the property of the [`Locked`] type), and what its rings were sent is what its sessions were told first
//! (`AreAhead`). A session keeps a receipt of each accepted change since the hive's last checkpoint. When all sessions are gathered, each
//! journal holds just these changes, each once; those before were compared by the checkpoint. It stands on reg_calls, which answers the
//! calls, on reg_image, which makes the image of a checkpoint, and on reg_outbox, whose rings bring notices to sessions.
//!
//! [`start`] puts hives behind locks, and makes a [`Registry`] and the [`Session`]s. A session goes to the thread that calls by it.
//! Each call names its hive, waits for that hive's lock, and lets it go once it is answered. No call holds two locks. [`drive`] runs
//! [`Job`]s, each a session and its work, on threads of their own. [`gather`] takes the hives out of their locks, compares each journal
//! with the receipts, and answers an [`Audit`]. A [`HiveGate`] is told where each call stands, for tests and measures.
//!
//! A ring is a queue of 64 notices between one hive and one session. A call moves notices into it under the hive's lock, and
//! [`Session::take_notice`] takes the next one out of it without that lock.
//!
//! In `locked` is what is done while a lock is held, in `place` what a session has at one hive. Its share, its receipts and its mark
//! there change together. What takes memory comes before the lock is taken, so that a change that was accepted always gets its receipt.
#![tactic(auto)]

mod checkpoints;
mod compare;
mod driving;
mod gate;
mod gathering;
mod job;
mod lines;
mod locked;
mod place;
mod registry;
mod session;
mod starting;

pub use checkpoints::RegistryCutFault;
pub use driving::{DriveFault, drive};
pub use gate::{HiveGate, OpenGate};
pub use gathering::{Audit, GatherFault, Kept, gather};
pub use job::{Ask, Done, Job, Work, are_ready};
pub use locked::Locked;
pub use registry::{HIVES_LIMIT, Registry};
pub use session::Session;
pub use starting::{StartFault, start};
