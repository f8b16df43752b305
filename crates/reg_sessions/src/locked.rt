//! What stands behind a hive's lock, and what is done while it is held.
ghost use Rattle.std.specs.Prelude.{◌≡◌, ◌≢◌, ◌+◌, ◌<◌, ◌≤◌, ◌↔◌, ◌⊎◌, ℕ, Some, false, true, IfErr, IfOk, IsErrOf, IsTrue, OnErr, OnOk, unwrap_or};
ghost use Rattle.reg_callbacks.specs.Rows.{is_among};
ghost use Rattle.reg_callbacks.specs.declared.callbacks.TheConstants.{REGISTRATIONS_LIMIT};
ghost use Rattle.reg_model.specs.declared.answer.AnswerBody.TheVariants.{Refused};
ghost use Rattle.reg_model.specs.declared.statuses.TheConstants.{BAD_DATABASE, NOT_ENOUGH_MEMORY};
ghost use Rattle.reg_model.specs.Replies.{refusal};
ghost use Rattle.reg_model.specs.declared.limits.TheConstants.{JOURNAL_LIMIT, NUMBERS_LIMIT};
ghost use Rattle.reg_calls.specs.HiveView.{asks_of, callbacks_of};
ghost use Rattle.reg_calls.specs.Views.{View, next_of, IsAccepted};
ghost use Rattle.reg_sessions.specs.Locked.{book_of, booked_of, held_of, AreDelivered, IsAdmitted, IsLawfulReply, IsLawfulOrLacks, IsLawfulAnswer, HaveSameCallbacks, IsRegistered, IsUnregistered};
ghost use Rattle.reg_sessions.specs.Sessions.{closes};
ghost use Rattle.reg_sessions.specs.Internal.Answered.{IsAnswered, IsCauseOf, IsAsked};
ghost use Rattle.reg_sessions.specs.Internal.Moved.{AreHandedOut, AreMoved};

use crate::lines::{Line, push_told, refill_of};
use reg_callbacks::{Callback, CallbackFault, Cookie};
use reg_calls::Hive;
use reg_journal::Share;
use reg_model::statuses::{BAD_DATABASE, NOT_ENOUGH_MEMORY};
use reg_model::{Answer, AnswerBody, Change, ChangeReply, Query};
use std::marker::Model;

/// What stands behind a hive's lock: the hive, and for each session that has a seat an end of its ring. What is true of each value of this
/// type (`IsAdmitted`, `AreDelivered`) is true whenever the lock is free.
#[derive(Drop)]
pub struct Locked<C = Box<dyn Callback + Send>> {
    pub(crate) hive: Hive<C>,
    pub(crate) lines: Vec<Line>,
}

impl<C> Model for Locked<C> {
    ghost use Rattle.std.specs.Prelude.{◌≡◌, length};
    ghost use Rattle.reg_calls.specs.HiveView.{view_of, noted_of};
    ghost use Rattle.reg_sessions.specs.Locked.{Held, coded_held, booked_of, held_of, AreAhead, IsAdmitted};

    ghost Value = { Held };

    ghost coded = { coded_held };

    ghost view = { λ l. held_of l.lines.items l.hive };

    ghost invariant = { λ l. IsAdmitted (booked_of l.hive) × AreAhead l.lines.items (view_of l.hive)
        × (length l.lines.items ≡ length (noted_of l.hive)) };
}

/// A reply that refuses.
fn refused(status: u32) -> ChangeReply
    ensures { result ≡ refusal status }
{
    ChangeReply {
        status,
        number: None,
        handle: None,
        disposition: None,
    }
}

/// The reply to a change for which there is no memory: its first cause, or else 8.
fn lacking(cause: Option<u32>) -> ChangeReply
    ensures { result ≡ refusal (unwrap_or cause NOT_ENOUGH_MEMORY) }
{
    refused(cause.unwrap_or(NOT_ENOUGH_MEMORY))
}

/// Answers a change at a hive.
fn apply<C: Callback>(
    hive: &mut Hive<C>,
    share: &mut Share,
    moment: u64,
    change: Change,
) -> ChangeReply
    ensures answered { IsAnswered (asks_of C.answers hive.old) (booked_of hive.old) (booked_of hive.new) share.old share.new moment change result }
    ensures callbacks { callbacks_of hive.new ≡ callbacks_of hive.old }
{
    hive.apply(share, moment, change)
}

/// The cause of a change at a hive.
fn cause<C: Callback>(hive: &Hive<C>, share: &Share, moment: u64, change: &Change) -> Option<u32>
    ensures { IsCauseOf (asks_of C.answers hive.now) (booked_of hive.now) share.now moment change.now result }
{
    hive.cause(share, moment, change)
}

/// Answers a question at a hive.
fn read<C: Callback>(hive: &Hive<C>, share: &Share, query: &Query) -> Answer
    ensures { IsAsked (asks_of C.answers hive.now) (booked_of hive.now) share.now query.now result }
{
    hive.read(share, query)
}

impl<C: Callback> Locked<C> {
    /// The hive.
    pub(crate) fn hive(&self) -> &Hive<C>
        ensures hive { held_of self.now.lines result.now ≡ self.now }
        ensures admitted { IsAdmitted (booked_of result.now) }
        ensures delivered { AreDelivered self.now }
    {
        &self.hive
    }

    /// Moves on what is kept back for a session, as far as its ring has room.
    pub(crate) fn refill(&mut self, session: u8)
        ensures moved { AreHandedOut session self.old.view self.new.view }
        ensures noted { self.new.noted ≡ self.old.noted }
        ensures callbacks { HaveSameCallbacks self.old self.new }
    {
        refill_of(&mut self.hive, &mut self.lines, session);
    }

    /// Whether the hive has had fewer entries than a mark.
    fn is_behind(&self, mark: u64) -> bool
        ensures behind { IsTrue result ↔ (next_of self.now.view < mark) }
        ensures few { next_of self.now.view ≤ NUMBERS_LIMIT + JOURNAL_LIMIT }
    {
        (self.hive.len() as u64) < mark
    }

    /// Answers a change of a session whose mark on the hive this is. 1009 where the hive is behind the mark, or as of [`Hive::apply`].
    pub(crate) fn change(
        &mut self,
        share: &mut Share,
        mark: u64,
        moment: u64,
        change: Change,
    ) -> ChangeReply
        ensures noted { self.new.noted ≡ self.old.noted }
        ensures callbacks { HaveSameCallbacks self.old self.new }
        ensures session { share.new.session ≡ share.old.session }
        ensures accepted { result.status ≡ 0 →
            (mid : View) × IsAccepted self.old.view mid share.old.session moment change result × AreMoved mid self.new.view }
        ensures number { result.status ≡ 0 → result.number ≡ Some (next_of self.old.view) }
        ensures later { result.status ≡ 0 → (share.old.count ≤ next_of self.old.view) × (mark ≤ next_of self.old.view) }
        ensures few { next_of self.old.view ≤ NUMBERS_LIMIT + JOURNAL_LIMIT }
        ensures counted { result.status ≡ 0 → share.new.count ≡ share.old.count + 1 }
        ensures refused { result.status ≢ 0 → (self.new ≡ self.old) × (share.new ≡ share.old) }
        ensures lawful { result.status ≢ BAD_DATABASE → IsLawfulReply C.answers share.old mark moment change result }
    {
        if self.is_behind(mark) {
            return refused(BAD_DATABASE);
        }
        let pending = self.hive.pending();
        let reply = apply(&mut self.hive, share, moment, change);
        push_told(&mut self.hive, &mut self.lines, pending);
        reply
    }

    /// Answers a change for whose receipt there is no memory: 1009 as of `change`, else its first cause, or else 8. Takes no memory. That
    /// is lawful of a Close only where its session has no open handle.
    pub(crate) fn lack(&self, share: &Share, mark: u64, moment: u64, change: &Change) -> ChangeReply
        ensures refused { result.status ≢ 0 }
        ensures lawful { result.status ≢ BAD_DATABASE → (handles : ℕ) → (closes change.now ≡ true → handles ≡ 0) →
            IsLawfulOrLacks C.answers share.now mark handles moment change.now result }
    {
        if self.is_behind(mark) {
            return refused(BAD_DATABASE);
        }
        lacking(cause(&self.hive, share, moment, change))
    }

    /// Answers a question of a session whose mark on the hive this is. 1009 as of `change`.
    pub(crate) fn ask(&self, share: &Share, mark: u64, query: &Query) -> Answer
        ensures later { result.body ≢ Refused BAD_DATABASE → (share.now.count ≤ result.at) × (mark ≤ result.at) }
        ensures lawful { result.body ≢ Refused BAD_DATABASE → IsLawfulAnswer C.answers share.now mark query.now result }
    {
        if self.is_behind(mark) {
            return Answer {
                at: self.hive.len() as u64,
                body: AnswerBody::Refused {
                    status: BAD_DATABASE,
                },
            };
        }
        read(&self.hive, share, query)
    }

    /// Registers a callback on the hive.
    pub(crate) fn register(
        &mut self,
        callback: C,
        altitude: u32,
    ) -> Result<Cookie, CallbackFault<C>>
        ensures added { IfOk result (λ cookie. IsRegistered altitude cookie.number self.old self.new) }
        ensures err { OnErr result (self.new ≡ self.old) }
        ensures full { IsErrOf result (CallbackFault.Full callback) ↔ (self.old.made ≡ REGISTRATIONS_LIMIT) }
        ensures altitude_taken { IsErrOf result (CallbackFault.AltitudeTaken callback)
            ↔ ((self.old.made < REGISTRATIONS_LIMIT) × (is_among altitude self.old.altitudes ≡ true)) }
        ensures returned { IfErr result (λ fault. (fault ≡ CallbackFault.Full callback)
            ⊎ (fault ≡ CallbackFault.AltitudeTaken callback)
            ⊎ (fault ≡ CallbackFault.Memory callback)) }
    {
        self.hive.register(callback, altitude)
    }

    /// Takes a callback out of the hive.
    pub(crate) fn unregister(&mut self, cookie: Cookie) -> Result<C, CallbackFault<C>>
        ensures taken { OnOk result (IsUnregistered cookie.number self.old self.new) }
        ensures err { OnErr result (self.new ≡ self.old) }
        ensures no_such_cookie { IsErrOf result CallbackFault.NoSuchCookie ↔ (is_among cookie.number self.old.cookies ≡ false) }
        ensures fault { IfErr result (λ fault. fault ≡ CallbackFault.NoSuchCookie) }
    {
        self.hive.unregister(cookie)
    }
}
