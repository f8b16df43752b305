//! Changes, admitted and then carried out, each by the file that has its name.
ghost use Rattle.std.specs.Prelude.{◌≡◌, ◌<◌, option_copied};
ghost use Rattle.reg_model.specs.declared.limits.TheConstants.{SESSIONS_LIMIT};
ghost use Rattle.reg_model.specs.Callbacks.{change_status};
ghost use Rattle.reg_model.specs.declared.call.Change.{Change as TheChange};
ghost use Rattle.reg_callbacks.specs.Asking.{asks};
ghost use Rattle.reg_callbacks.specs.Lists.{answers_of};
ghost use Rattle.reg_calls.specs.Internal.Stores.{world_of, IsReady, IsMade};
ghost use Rattle.reg_calls.specs.Internal.Admissions.{Admits, IsAdmission};

use crate::asking::Asking;
use crate::close::Close;
use crate::create_key::CreateKey;
use crate::delete_key::DeleteKey;
use crate::delete_tree::DeleteTree;
use crate::delete_value::DeleteValue;
use crate::lack::Lack;
use crate::notify::Notify;
use crate::open_key::OpenKey;
use crate::open_root::OpenRoot;
use crate::refusal::Refusal;
use crate::set_security::SetSecurity;
use crate::set_value::SetValue;
use crate::store::{JournalEnd, Store};
use reg_callbacks::{Callback, Callbacks, Seen};
use reg_model::{Bytes, Change, ChangeReply};
use std::alloc::Global;

/// A change that was admitted, with what its commit takes. It is good as long as the store is as it was.
#[derive(Drop)]
pub enum Admitted<'a> {
    OpenRoot(OpenRoot),
    OpenKey(OpenKey),
    CreateKey(CreateKey<'a>),
    SetValue(SetValue<'a>),
    DeleteValue(DeleteValue),
    DeleteKey(DeleteKey<'a>),
    DeleteTree(DeleteTree<'a>),
    SetSecurity(SetSecurity<'a>),
    Notify(Notify),
    Close(Close),
}

/// The bytes of a descriptor, if one is given.
pub fn slice_given(descriptor: &Option<Bytes>) -> Option<&[u8]>
    ensures { option_copied result ≡ descriptor.now }
{
    match descriptor {
        Some(bytes) => Some(bytes.as_slice()),
        None => None,
    }
}

impl Store {
    /// Admits a change, where the journal ends so: what its commit takes, or why it is refused, by the first cause in
    /// the order of the rules, in which the callbacks are asked. Where nothing refuses it, memory may yet be wanting for its path's text.
    pub fn admit<'a, C: Callback>(
        &self,
        callbacks: &Callbacks<C>,
        alloc: Global,
        end: JournalEnd,
        session: u8,
        moment: u64,
        change: &'a Change,
    ) -> Result<Admitted<'a>, Refusal>
        requires session { session < SESSIONS_LIMIT }
        requires ready { IsReady end self.now }
        ensures { IsAdmission (change_status (asks (answers_of C.answers callbacks.now)) (world_of self.now) session moment change.now)
            end self.now session change.now result }
    {
        let asking = Asking {
            callbacks,
            session,
            moment,
            seen: Seen::Change(change),
        };
        match change {
            Change::OpenRoot { mask } => {
                match OpenRoot::admit(self, &asking, end, session, *mask) {
                    Ok(found) => Ok(Admitted::OpenRoot(found)),
                    Err(status) => Err(Refusal::Cause(status)),
                }
            }
            Change::OpenKey { handle, path, mask } => {
                match OpenKey::admit(
                    self,
                    &asking,
                    alloc,
                    end,
                    session,
                    *handle,
                    path.as_slice(),
                    *mask,
                ) {
                    Ok(found) => Ok(Admitted::OpenKey(found)),
                    Err(refusal) => Err(refusal),
                }
            }
            Change::CreateKey {
                handle,
                path,
                mask,
                descriptor,
            } => {
                match CreateKey::admit(
                    self,
                    &asking,
                    alloc,
                    end,
                    session,
                    *handle,
                    path.as_slice(),
                    *mask,
                    slice_given(descriptor),
                ) {
                    Ok(found) => Ok(Admitted::CreateKey(found)),
                    Err(refusal) => Err(refusal),
                }
            }
            Change::SetValue {
                handle,
                name,
                kind,
                bytes,
            } => {
                match SetValue::admit(
                    self,
                    &asking,
                    end,
                    session,
                    *handle,
                    name.as_slice(),
                    *kind,
                    bytes.as_slice(),
                ) {
                    Ok(found) => Ok(Admitted::SetValue(found)),
                    Err(status) => Err(Refusal::Cause(status)),
                }
            }
            Change::DeleteValue { handle, name } => {
                match DeleteValue::admit(self, &asking, end, session, *handle, name.as_slice()) {
                    Ok(found) => Ok(Admitted::DeleteValue(found)),
                    Err(status) => Err(Refusal::Cause(status)),
                }
            }
            Change::DeleteKey { handle, path } => {
                match DeleteKey::admit(
                    self,
                    &asking,
                    alloc,
                    end,
                    session,
                    *handle,
                    path.as_slice(),
                ) {
                    Ok(found) => Ok(Admitted::DeleteKey(found)),
                    Err(refusal) => Err(refusal),
                }
            }
            Change::DeleteTree { handle, path } => {
                match DeleteTree::admit(
                    self,
                    &asking,
                    alloc,
                    end,
                    session,
                    *handle,
                    path.as_slice(),
                ) {
                    Ok(found) => Ok(Admitted::DeleteTree(found)),
                    Err(refusal) => Err(refusal),
                }
            }
            Change::SetSecurity { handle, descriptor } => {
                match SetSecurity::admit(
                    self,
                    &asking,
                    end,
                    session,
                    *handle,
                    descriptor.as_slice(),
                ) {
                    Ok(found) => Ok(Admitted::SetSecurity(found)),
                    Err(status) => Err(Refusal::Cause(status)),
                }
            }
            Change::Notify {
                handle,
                filter,
                subtree,
            } => {
                match Notify::admit(self, &asking, end, session, *handle, *filter, *subtree) {
                    Ok(found) => Ok(Admitted::Notify(found)),
                    Err(status) => Err(Refusal::Cause(status)),
                }
            }
            Change::Close { handle } => {
                match Close::admit(self, session, *handle) {
                    Ok(found) => Ok(Admitted::Close(found)),
                    Err(status) => Err(Refusal::Cause(status)),
                }
            }
        }
    }

    /// Carries out a change that was admitted, and tells the reply that is due for it as the journal's entry of that number. `Err`
    /// says what was lacking, memory or space in the bins; then all is as it was. No watch is ended yet.
    pub fn commit(
        &mut self,
        alloc: Global,
        session: u8,
        moment: u64,
        end: JournalEnd,
        admitted: Admitted<'_>,
    ) -> Result<ChangeReply, Lack>
        requires session { session < SESSIONS_LIMIT }
        requires ready { IsReady end self.old }
        requires admitted { (change : TheChange) × Admits end self.old session change admitted }
        ensures { (change : TheChange) → Admits end self.old session change admitted.entry →
            IsMade self.old self.new session moment end change result }
    {
        match admitted {
            Admitted::OpenRoot(found) => found.commit(self, alloc, session, end),
            Admitted::OpenKey(found) => found.commit(self, session, end),
            Admitted::CreateKey(found) => found.commit(self, alloc, session, moment, end),
            Admitted::SetValue(found) => found.commit(self, alloc, moment, end),
            Admitted::DeleteValue(found) => Ok(found.commit(self, moment, end)),
            Admitted::DeleteKey(found) => Ok(found.commit(self, moment, end)),
            Admitted::DeleteTree(found) => Ok(found.commit(self, moment, end)),
            Admitted::SetSecurity(found) => found.commit(self, alloc, moment, end),
            Admitted::Notify(found) => found.commit(self, alloc, session, end),
            Admitted::Close(found) => Ok(found.commit(self, session, end)),
        }
    }
}
