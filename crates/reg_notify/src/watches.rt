//! The table of watches as its callers see it.
ghost use Rattle.std.specs.Prelude.{◌≡◌, ◌+◌, ◌-◌, ◌<◌, ◌≤◌, ◌==◌, ◌&&◌, ℕ, [], All, IfOk, OnOk, OnErr, if◌then◌else◌, is_some, length, slice_get};
ghost use Rattle.reg_model.specs.declared.filters.TheConstants.{EVENTS};
ghost use Rattle.reg_model.specs.declared.limits.TheConstants.{SESSIONS_LIMIT, WATCHES_LIMIT};
ghost use Rattle.reg_model.specs.Causes.{watches_of};
ghost use Rattle.reg_notify.specs.Tables.{told_to, taken_by};
ghost use Rattle.reg_notify.specs.Asked.{watch_in, ending_by, closing_by, Fires, Adds};

use crate::asked::{Event, Registration, Removed};
use crate::queues::{first_in, kept_in, take_from, told_in};
use crate::table::{Table, start_with};
use reg_model::{Notice, Reason};
use std::alloc::{AllocError, Global};
use std::marker::Model;

/// The watches of a hive that are pending, in the order of their numbers, and for each of the 64 sessions all notices that it was
/// told, in order, with how many of them it took. Each watch has the room for its notice from the beginning, so that only adding
/// one takes memory.
#[derive(Drop)]
pub struct Watches {
    table: Table,
    /// A text with room for a handle's eight bytes.
    start: Vec<u8>,
}

impl Model for Watches {
    ghost use Rattle.reg_notify.specs.Tables.{Table as Shown, coded_table};
    ghost use Rattle.reg_notify.specs.Internal.Settled.{shown, IsKept};

    ghost Value = { Shown };

    ghost coded = { coded_table };

    ghost view = { λ w. shown w.table };

    ghost invariant = { λ w. IsKept w.table w.start };
}

impl Watches {
    /// A table with no watch, of which no session was told anything. Its one fault is that memory was refused.
    pub fn new(alloc: Global) -> Result<Watches, AllocError>
        ensures pending { IfOk result (λ watches. watches.pending ≡ []) }
        ensures told { IfOk result (λ watches. (s : ℕ) → told_to watches s ≡ []) }
        ensures taken { IfOk result (λ watches. (s : ℕ) → taken_by watches s ≡ 0) }
    {
        let mut start = Vec::new(alloc);
        start.reserve(8)?;
        let table = Table::new(alloc)?;
        Ok(Watches { table, start })
    }

    /// How many watches are pending.
    pub fn len(&self) -> usize
        ensures { result ≡ length self.now.pending }
    {
        self.table.rows.len()
    }

    /// How many watches of the session are pending.
    pub fn count(&self, session: u8) -> u32
        requires { session < SESSIONS_LIMIT }
        ensures { result ≡ watches_of session self.now.pending }
    {
        self.table.count(session)
    }

    /// Adds a watch, whose number is above all others. Where memory is refused, the table is as before.
    pub fn add(&mut self, alloc: Global, asked: Registration) -> Result<(), AllocError>
        requires above { All (λ v. v.number < asked.number) self.old.pending }
        requires session { asked.session < SESSIONS_LIMIT }
        requires room { watches_of asked.session self.old.pending < WATCHES_LIMIT }
        ensures ok { OnOk result (Adds (watch_in asked) self.old self.new) }
        ensures err { OnErr result (self.new ≡ self.old) }
    {
        self.table.add(alloc, asked)
    }

    /// Ends the watches that an entry of that number ends, by its events and the keys that it removes: those of removed keys are
    /// told that their key is gone, and the others that an event hits that they matched. Each session is told of its own, in the
    /// order of their numbers. Takes no memory.
    pub fn fire(&mut self, events: Vec<Event>, removed: Removed, by: u64)
        requires kinds { All (λ x. x.bits ≤ EVENTS) events.items }
        ensures { Fires (ending_by events.items removed by) self.old self.new }
    {
        self.table.end_all(events, removed, by);
        self.table.hand_out();
    }

    /// Ends the watches of a handle that an entry of that number closes, and tells their session, in the order of their numbers.
    /// Takes no memory.
    pub fn drop_handle(&mut self, handle: u64, by: u64)
        ensures { Fires (closing_by handle by) self.old self.new }
    {
        start_with(&mut self.start, handle);
        self.table.end_past_handle(&self.start, by, Reason::Closed);
        self.table.hand_out();
    }

    /// All notices that the session was told, in order. A number that is no session's was told none.
    pub fn told(&self, session: u8) -> &[Notice]
        ensures { result.now ≡ told_to self.now session }
    {
        told_in(&self.table.queues, session)
    }

    /// How many of these the session didn't take yet.
    pub fn kept(&self, session: u8) -> u64
        ensures { result ≡ length (told_to self.now session) - taken_by self.now session }
    {
        kept_in(&self.table.queues, session)
    }

    /// The first that the session didn't take yet, which [`Watches::take`] hands out.
    pub fn first(&self, session: u8) -> Option<Notice>
        ensures { result ≡ slice_get (told_to self.now session) (taken_by self.now session) }
    {
        first_in(&self.table.queues, session)
    }

    /// The session's next notice, if it was told one more than it took. Takes no memory.
    pub fn take(&mut self, session: u8) -> Option<Notice>
        ensures notice { result ≡ slice_get (told_to self.old session) (taken_by self.old session) }
        ensures taken { (s : ℕ) → taken_by self.new s ≡
            (if s == session && is_some result then taken_by self.old s + 1 else taken_by self.old s) }
        ensures told { self.new.told ≡ self.old.told }
        ensures pending { self.new.pending ≡ self.old.pending }
    {
        take_from(&mut self.table.queues, session)
    }
}
