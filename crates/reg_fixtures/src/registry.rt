//! What answers registry calls, as a bound: a hive, for those who only ask it.
//!
//! A program or a test that takes a type of this bound is checked without all that a hive is made of.
//! Its one contract: a change that is answered 0 is an entry more, and what is counted are the entries. What else a call does only
//! the hive's own contracts say. It stands on reg_calls. Its trait is [`Registry`], and [`PlainHive`] the type that programs choose.
ghost use Rattle.std.specs.Prelude.{◌≡◌, ◌+◌, ◌<◌, ℕ, IfOk};
ghost use Rattle.reg_model.specs.declared.limits.TheConstants.{SESSIONS_LIMIT};
ghost use Rattle.reg_calls.specs.HiveView.{view_of};
ghost use Rattle.reg_calls.specs.Views.{next_of};

use reg_arena::Arena;
use reg_callbacks::{Callback, NoCallback};
use reg_calls::{Hive, NewFault, SeatedHive};
use reg_model::{Answer, Change, ChangeReply, Notice, Query};
use reg_tree::Tree;
use std::alloc::Global;

/// A hive with the shares of its sessions, on which no callback is ever registered.
pub type PlainHive = SeatedHive<NoCallback>;

/// What answers the calls of sessions. Each method is the one of that name of [`SeatedHive`], or of its [`Hive`].
pub trait Registry: Drop {
    /// How many entries it has had: the number of the next.
    ghost entries: { Self → ℕ };

    /// One of one root, with no entry, whose sessions have seats: [`Hive::new`], whose faults these are. `Memory` comes also where it
    /// lacks for the seats.
    fn fresh(
        alloc: Global,
        root_name: &[u8],
        descriptor: &[u8],
        moment: u64,
    ) -> Result<Self, NewFault>
        ensures { IfOk result (λ registry. entries registry ≡ 0) };

    /// Answers a change of a session, below 64, at a moment (100 ns units since 1601): an entry more where the status is 0.
    fn apply(&mut self, session: u8, moment: u64, change: Change) -> ChangeReply
        requires { session < SESSIONS_LIMIT }
        ensures { result.status ≡ 0 → entries self.new ≡ entries self.old + 1 };

    /// Answers a question of a session, below 64.
    fn read(&self, session: u8, query: &Query) -> Answer
        requires { session < SESSIONS_LIMIT };

    /// How many entries it has had.
    fn len(&self) -> usize
        ensures { result ≡ entries self.now };

    /// How many handles are open, of all sessions.
    fn open_handles(&self) -> usize;

    /// How many watches are pending, of all sessions.
    fn pending(&self) -> usize;

    /// Hands a session its next notice, if there is one. No entry comes by it.
    fn take_notice(&mut self, session: u8) -> Option<Notice>
        ensures { entries self.new ≡ entries self.old };

    /// The bins with all their cells.
    fn arena(&self) -> &Arena;

    /// The keys.
    fn tree(&self) -> &Tree;
}

impl<C: Callback> Registry for SeatedHive<C> {
    ghost entries = { λ seated. next_of (view_of seated.hive) };

    fn fresh(
        alloc: Global,
        root_name: &[u8],
        descriptor: &[u8],
        moment: u64,
    ) -> Result<SeatedHive<C>, NewFault> {
        let hive = Hive::new(alloc, root_name, descriptor, moment)?;
        match SeatedHive::new(hive) {
            Ok(seated) => Ok(seated),
            Err(_) => Err(NewFault::Memory),
        }
    }

    #[tactic(auto, using(reg_calls::proofs::AcceptedChanges::accepted))]
    fn apply(&mut self, session: u8, moment: u64, change: Change) -> ChangeReply {
        self.apply(session, moment, change)
    }

    fn read(&self, session: u8, query: &Query) -> Answer {
        self.read(session, query)
    }

    fn len(&self) -> usize {
        self.hive.len()
    }

    fn open_handles(&self) -> usize {
        self.hive.open_handles()
    }

    fn pending(&self) -> usize {
        self.hive.pending()
    }

    fn take_notice(&mut self, session: u8) -> Option<Notice> {
        self.take_notice(session)
    }

    fn arena(&self) -> &Arena {
        self.hive.arena()
    }

    fn tree(&self) -> &Tree {
        self.hive.tree()
    }
}
