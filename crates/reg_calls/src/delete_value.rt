//! DeleteValue: a value of a key removed.
//!
//! Win32 registry reference, `RegDeleteValue`.
ghost use Rattle.std.specs.Prelude.{ℕ, List, ◌≡◌, Some, Ok, IfErr, IfOk, None, OnOk};
ghost use Rattle.reg_model.specs.Causes.{change_cause, asked};
ghost use Rattle.reg_calls.specs.Internal.Askings.{status_by};
ghost use Rattle.reg_calls.specs.Internal.Stores.{at, IsReady, IsMade};
ghost use Rattle.reg_calls.specs.Internal.Admissions.{AdmitsDeleteValue};
ghost use Rattle.reg_calls.specs.Internal.Announcements.{IsAnnounced};
ghost use Rattle.reg_calls.specs.declared.store.JournalEnd.{JournalEnd};

use crate::announced::Announced;
use crate::asking::Asking;
use crate::replies::accepted;
use crate::store::{JournalEnd, Store};
use reg_callbacks::Callback;
use reg_model::ChangeReply;
use reg_model::filters::LAST_SET;
use reg_model::rights::SET_VALUE;
use reg_model::statuses::{ACCESS_DENIED, FILE_NOT_FOUND, INVALID_PARAMETER, NO_SYSTEM_RESOURCES};
use reg_names::check_value_name;
use reg_tree::Node;
use std::alloc::{AllocError, Global};

/// What a DeleteValue was admitted with.
#[derive(Clone, Copy)]
pub struct DeleteValue {
    /// The handle.
    pub handle: u64,
    /// Its key.
    pub node: Node,
    /// The value's index among the key's, counted from 0.
    pub index: u32,
}

impl DeleteValue {
    ghost use Rattle.reg_model.specs.declared.call.Change.TheVariants.{DeleteValue as ValueDeleted};

    /// Finds the value. Refused by 6 and 1018 for the handle, 87 for the name, 5 without the right, 1450 where the journal is full,
    /// by a callback, and 2 where there is no such value.
    pub fn admit<C: Callback>(
        store: &Store,
        asking: &Asking<'_, C>,
        end: JournalEnd,
        session: u8,
        handle: u64,
        name: &[u8],
    ) -> Result<DeleteValue, u32>
        requires { IsReady end store.now }
        ensures refused { IfErr result (λ status.
            change_cause (at end store.now) session (ValueDeleted handle name.now) (status_by C.answers asking.now store.now session handle) ≡ Some status) }
        ensures admitted { IfOk result (λ found. AdmitsDeleteValue end store.now session handle name.now found) }
        ensures asked { OnOk result (asked (status_by C.answers asking.now store.now session handle) ≡ None) }
    {
        let key = match store.key_of(session, handle) {
            Ok(key) => key,
            Err(status) => return Err(status),
        };
        if check_value_name(name).is_err() {
            return Err(INVALID_PARAMETER);
        }
        if key.mask & SET_VALUE != SET_VALUE {
            return Err(ACCESS_DENIED);
        }
        if store.is_full(end) {
            return Err(NO_SYSTEM_RESOURCES);
        }
        match asking.ask(key.path) {
            Ok(()) => {}
            Err(refused) => return Err(refused),
        }
        match store.tree.value_index(key.node, name) {
            Some(index) => Ok(DeleteValue {
                handle,
                node: key.node,
                index,
            }),
            None => Err(FILE_NOT_FOUND),
        }
    }

    /// What it does to the watches: an event of the key. Its one fault is that memory was refused.
    pub fn announce(
        &self,
        store: &Store,
        alloc: Global,
        session: u8,
    ) -> Result<Announced, AllocError>
        requires { (end : JournalEnd) × (handle : ℕ) × (name : List ℕ) × AdmitsDeleteValue end store.now session handle name self.now }
        ensures { (end : JournalEnd) → (handle : ℕ) → (name : List ℕ) → AdmitsDeleteValue end store.now session handle name self.now →
            IfOk result (λ announced. IsAnnounced end store.now session (ValueDeleted handle name) announced) }
    {
        store.event_of(alloc, session, self.handle, LAST_SET)
    }

    /// Removes the value.
    pub fn commit(self, store: &mut Store, moment: u64, end: JournalEnd) -> ChangeReply
        requires ready { IsReady end store.old }
        requires admitted { (session handle : ℕ) × (name : List ℕ) × AdmitsDeleteValue end store.old session handle name self }
        ensures { (session handle : ℕ) → (name : List ℕ) → AdmitsDeleteValue end store.old session handle name self →
            IsMade store.old store.new session moment end (ValueDeleted handle name) (Ok result) }
    {
        store.tree.remove_at(self.node, self.index, moment);
        accepted(end.next)
    }
}
