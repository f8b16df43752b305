//! The cause for which a change would be refused, which takes no memory.
ghost use Rattle.std.specs.Prelude.{◌≡◌, ◌<◌};
ghost use Rattle.reg_model.specs.declared.limits.TheConstants.{SESSIONS_LIMIT};
ghost use Rattle.reg_model.specs.Causes.{change_cause};
ghost use Rattle.reg_model.specs.Callbacks.{change_status};
ghost use Rattle.reg_callbacks.specs.Asking.{asks};
ghost use Rattle.reg_callbacks.specs.Lists.{answers_of};
ghost use Rattle.reg_calls.specs.Internal.Stores.{at, world_of, IsReady};

use crate::asking::Asking;
use crate::changes::slice_given;
use crate::close::Close;
use crate::create_key::CreateKey;
use crate::delete_key::DeleteKey;
use crate::delete_tree::DeleteTree;
use crate::delete_value::DeleteValue;
use crate::notify::Notify;
use crate::open_key::OpenKey;
use crate::open_root::OpenRoot;
use crate::set_security::SetSecurity;
use crate::set_value::SetValue;
use crate::store::{JournalEnd, Store};
use reg_callbacks::{Callback, Callbacks, Seen};
use reg_model::Change;

impl Store {
    /// The first cause for which a change is refused, if there is one, in the order of the rules, in which the callbacks are asked.
    /// Takes no memory: nothing of the change is copied. Where it answers `None`, admitting and making the change may yet lack memory
    /// or space.
    pub fn cause<C: Callback>(
        &self,
        callbacks: &Callbacks<C>,
        end: JournalEnd,
        session: u8,
        moment: u64,
        change: &Change,
    ) -> Option<u32>
        requires session { session < SESSIONS_LIMIT }
        requires ready { IsReady end self.now }
        ensures { result ≡ change_cause (at end self.now) session change.now
            (change_status (asks (answers_of C.answers callbacks.now)) (world_of self.now) session moment change.now) }
    {
        let asking = Asking {
            callbacks,
            session,
            moment,
            seen: Seen::Change(change),
        };
        match change {
            Change::OpenRoot { mask } => OpenRoot::admit(self, &asking, end, session, *mask).err(),
            Change::OpenKey { handle, path, mask } => {
                OpenKey::find(self, &asking, end, session, *handle, path.as_slice(), *mask).err()
            }
            Change::CreateKey {
                handle,
                path,
                mask,
                descriptor,
            } => CreateKey::find(
                self,
                &asking,
                end,
                session,
                *handle,
                path.as_slice(),
                *mask,
                slice_given(descriptor),
            )
            .err(),
            Change::SetValue {
                handle,
                name,
                kind,
                bytes,
            } => SetValue::admit(
                self,
                &asking,
                end,
                session,
                *handle,
                name.as_slice(),
                *kind,
                bytes.as_slice(),
            )
            .err(),
            Change::DeleteValue { handle, name } => {
                DeleteValue::admit(self, &asking, end, session, *handle, name.as_slice()).err()
            }
            Change::DeleteKey { handle, path } => {
                DeleteKey::find(self, &asking, end, session, *handle, path.as_slice()).err()
            }
            Change::DeleteTree { handle, path } => {
                DeleteTree::find(self, &asking, end, session, *handle, path.as_slice()).err()
            }
            Change::SetSecurity { handle, descriptor } => {
                SetSecurity::admit(
                    self,
                    &asking,
                    end,
                    session,
                    *handle,
                    descriptor.as_slice(),
                ).err()
            }
            Change::Notify {
                handle,
                filter,
                subtree,
            } => Notify::admit(self, &asking, end, session, *handle, *filter, *subtree).err(),
            Change::Close { handle } => Close::admit(self, session, *handle).err(),
        }
    }
}
