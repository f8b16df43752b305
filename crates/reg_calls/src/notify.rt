//! Notify: a notification asked for.
//!
//! Win32 registry reference, `RegNotifyChangeKeyValue`.
ghost use Rattle.std.specs.Prelude.{ℕ, ◌≡◌, ◌<◌, Some, IfErr, IfOk, None, OnOk};
ghost use Rattle.reg_model.specs.declared.limits.TheConstants.{SESSIONS_LIMIT};
ghost use Rattle.reg_model.specs.Causes.{change_cause, no_watch_room, is_filter as is_filter_of, asked};
ghost use Rattle.reg_calls.specs.Internal.Askings.{status_by};
ghost use Rattle.reg_calls.specs.Internal.Stores.{at, IsReady, IsMade};
ghost use Rattle.reg_calls.specs.Internal.Admissions.{AdmitsNotify};

use crate::asking::Asking;
use crate::lack::Lack;
use crate::replies::accepted;
use crate::store::{JournalEnd, Store};
use reg_callbacks::Callback;
use reg_model::ChangeReply;
use reg_model::filters::{EVENTS, NO_FILTER};
use reg_model::limits::WATCHES_LIMIT;
use reg_model::rights::NOTIFY;
use reg_model::statuses::{ACCESS_DENIED, INVALID_PARAMETER, NO_SYSTEM_RESOURCES};
use reg_notify::Registration;
use std::alloc::Global;

/// What a Notify was admitted with.
#[derive(Clone, Copy)]
pub struct Notify {
    /// The handle whose key is watched.
    pub handle: u64,
    /// The kinds of events that are waited for.
    pub filter: u32,
    /// Whether the keys below are watched, too.
    pub subtree: bool,
}

/// Whether a filter has one at least of the bits 1, 2, 4 and 8, and no other but 0x10000000.
fn is_filter(filter: u32) -> bool
    ensures { result ≡ is_filter_of filter }
{
    filter & NO_FILTER == 0 && filter & EVENTS != 0
}

impl Store {
    /// Whether the session has as many pending watches as there may be, or the journal is full.
    fn has_no_watch_room(&self, end: JournalEnd, session: u8) -> bool
        requires session { session < SESSIONS_LIMIT }
        requires ready { IsReady end self.now }
        ensures { result ≡ no_watch_room session (at end self.now) }
    {
        self.watches.count(session) >= WATCHES_LIMIT || self.is_full(end)
    }
}

impl Notify {
    ghost use Rattle.reg_model.specs.declared.call.Change.TheVariants.{Notify as Notified};

    /// Admits it, or tells the status of its refusal: 6 and 1018 for the handle, 87 for the filter, 5 without the right, 1450
    /// where the session has 4,096 pending watches or the journal is full, and what a callback answers.
    pub fn admit<C: Callback>(
        store: &Store,
        asking: &Asking<'_, C>,
        end: JournalEnd,
        session: u8,
        handle: u64,
        filter: u32,
        subtree: bool,
    ) -> Result<Notify, u32>
        requires session { session < SESSIONS_LIMIT }
        requires ready { IsReady end store.now }
        ensures refused { IfErr result (λ status.
            change_cause (at end store.now) session (Notified handle filter subtree) (status_by C.answers asking.now store.now session handle) ≡ Some status) }
        ensures admitted { IfOk result (λ found. AdmitsNotify end store.now session found) }
        ensures asked { OnOk result (asked (status_by C.answers asking.now store.now session handle) ≡ None) }
        ensures handle { IfOk result (λ found. found.handle ≡ handle) }
        ensures filter { IfOk result (λ found. found.filter ≡ filter) }
        ensures subtree { IfOk result (λ found. found.subtree ≡ subtree) }
    {
        let key = match store.key_of(session, handle) {
            Ok(key) => key,
            Err(status) => return Err(status),
        };
        if !is_filter(filter) {
            return Err(INVALID_PARAMETER);
        }
        if key.mask & NOTIFY != NOTIFY {
            return Err(ACCESS_DENIED);
        }
        if store.has_no_watch_room(end, session) {
            return Err(NO_SYSTEM_RESOURCES);
        }
        match asking.ask(key.path) {
            Ok(()) => {}
            Err(status) => return Err(status),
        }
        Ok(Notify {
            handle,
            filter,
            subtree,
        })
    }

    /// Adds the watch, under the entry's number. `Err` says that memory was lacking; then the watches are as they were.
    pub fn commit(
        self,
        store: &mut Store,
        alloc: Global,
        session: u8,
        end: JournalEnd,
    ) -> Result<ChangeReply, Lack>
        requires session { session < SESSIONS_LIMIT }
        requires ready { IsReady end store.old }
        requires admitted { AdmitsNotify end store.old session self }
        ensures { (moment : ℕ) → AdmitsNotify end store.old session self →
            IsMade store.old store.new session moment end (Notified self.handle self.filter self.subtree) result }
    {
        let place = match store.place_of(alloc, session, self.handle) {
            Ok(place) => place,
            Err(_) => return Err(Lack::Memory),
        };
        let asked = Registration {
            number: end.next,
            session,
            handle: self.handle,
            place,
            filter: self.filter,
            subtree: self.subtree,
        };
        match store.watches.add(alloc, asked) {
            Ok(()) => Ok(accepted(end.next)),
            Err(_) => Err(Lack::Memory),
        }
    }
}
