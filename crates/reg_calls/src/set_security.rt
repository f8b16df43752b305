//! SetSecurity: a key's security descriptor set.
//!
//! Win32 registry reference, `RegSetKeySecurity`.
ghost use Rattle.std.specs.Prelude.{ℕ, ◌≡◌, Some, IfErr, IfOk, None, OnOk};
ghost use Rattle.reg_model.specs.Causes.{change_cause, asked};
ghost use Rattle.reg_calls.specs.Internal.Askings.{status_by};
ghost use Rattle.reg_calls.specs.Internal.Stores.{at, IsReady, IsMade};
ghost use Rattle.reg_calls.specs.Internal.Admissions.{AdmitsSetSecurity};
ghost use Rattle.reg_calls.specs.Internal.Announcements.{IsAnnounced};
ghost use Rattle.reg_calls.specs.declared.store.JournalEnd.{JournalEnd};

use crate::announced::Announced;
use crate::asking::Asking;
use crate::lack::Lack;
use crate::replies::accepted;
use crate::store::{JournalEnd, Store, is_bad_descriptor};
use reg_callbacks::Callback;
use reg_model::ChangeReply;
use reg_model::filters::SECURITY;
use reg_model::rights::WRITE_DAC;
use reg_model::statuses::{ACCESS_DENIED, INVALID_PARAMETER, NO_SYSTEM_RESOURCES};
use reg_tree::Node;
use std::alloc::{AllocError, Global};

/// What a SetSecurity was admitted with.
#[derive(Clone, Copy)]
pub struct SetSecurity<'a> {
    /// The handle.
    pub handle: u64,
    /// Its key.
    pub node: Node,
    /// The security descriptor.
    pub descriptor: &'a [u8],
}

impl<'a> SetSecurity<'a> {
    ghost use Rattle.reg_model.specs.declared.call.Change.TheVariants.{SetSecurity as SecuritySet};

    /// Finds the key. Refused by 6 and 1018 for the handle, 87 for a descriptor that isn't of 1 to 65,535 bytes, 5 without the right,
    /// 1450 where the journal is full, and by a callback.
    pub fn admit<C: Callback>(
        store: &Store,
        asking: &Asking<'_, C>,
        end: JournalEnd,
        session: u8,
        handle: u64,
        descriptor: &'a [u8],
    ) -> Result<SetSecurity<'a>, u32>
        requires { IsReady end store.now }
        ensures refused { IfErr result (λ status.
            change_cause (at end store.now) session (SecuritySet handle descriptor.now) (status_by C.answers asking.now store.now session handle) ≡ Some status) }
        ensures admitted { IfOk result (λ found. AdmitsSetSecurity end store.now session handle found) }
        ensures asked { OnOk result (asked (status_by C.answers asking.now store.now session handle) ≡ None) }
        ensures descriptor { IfOk result (λ found. found.descriptor.now ≡ descriptor.now) }
    {
        let key = match store.key_of(session, handle) {
            Ok(key) => key,
            Err(status) => return Err(status),
        };
        if is_bad_descriptor(descriptor) {
            return Err(INVALID_PARAMETER);
        }
        if key.mask & WRITE_DAC != WRITE_DAC {
            return Err(ACCESS_DENIED);
        }
        if store.is_full(end) {
            return Err(NO_SYSTEM_RESOURCES);
        }
        match asking.ask(key.path) {
            Ok(()) => {}
            Err(status) => return Err(status),
        }
        Ok(SetSecurity {
            handle,
            node: key.node,
            descriptor,
        })
    }

    /// What it does to the watches: an event of the key. Its one fault is that memory was refused.
    pub fn announce(
        &self,
        store: &Store,
        alloc: Global,
        session: u8,
    ) -> Result<Announced, AllocError>
        requires { (end : JournalEnd) × (handle : ℕ) × AdmitsSetSecurity end store.now session handle self.now }
        ensures { (end : JournalEnd) → (handle : ℕ) → AdmitsSetSecurity end store.now session handle self.now →
            IfOk result (λ announced. IsAnnounced end store.now session (SecuritySet handle self.now.descriptor.now) announced) }
    {
        store.event_of(alloc, session, self.handle, SECURITY)
    }

    /// Sets the descriptor, and the key's time. `Err` says what was lacking, memory or space in the bins; then keys and handles are as
    /// they were.
    pub fn commit(
        self,
        store: &mut Store,
        alloc: Global,
        moment: u64,
        end: JournalEnd,
    ) -> Result<ChangeReply, Lack>
        requires ready { IsReady end store.old }
        requires admitted { (session handle : ℕ) × AdmitsSetSecurity end store.old session handle self }
        ensures { (session handle : ℕ) → AdmitsSetSecurity end store.old session handle self.entry →
            IsMade store.old store.new session moment end (SecuritySet handle self.entry.descriptor.now) result }
    {
        match store
            .tree
            .set_security(alloc, self.node, self.descriptor, moment)
        {
            Ok(()) => Ok(accepted(end.next)),
            Err(fault) => Err(Lack::from(fault)),
        }
    }
}
