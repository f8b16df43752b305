//! OpenRoot: a handle to the root.
//!
//! Win32 registry reference, `RegOpenKeyEx`.
ghost use Rattle.std.specs.Prelude.{ℕ, ◌≡◌, ◌<◌, [], Some, None, IfErr, IfOk, OnOk};
ghost use Rattle.reg_model.specs.declared.limits.TheConstants.{SESSIONS_LIMIT};
ghost use Rattle.reg_model.specs.Causes.{change_cause, asked};
ghost use Rattle.reg_calls.specs.Internal.Askings.{status_at};
ghost use Rattle.reg_calls.specs.Internal.Stores.{at, IsReady, IsMade};
ghost use Rattle.reg_calls.specs.Internal.Admissions.{IsClear};

use crate::asking::Asking;
use crate::lack::Lack;
use crate::replies::opened;
use crate::store::{JournalEnd, Store};
use reg_callbacks::Callback;
use reg_model::ChangeReply;
use reg_model::rights::NO_RIGHTS;
use reg_model::statuses::{INVALID_PARAMETER, NO_SYSTEM_RESOURCES};
use std::alloc::Global;

/// What an OpenRoot was admitted with.
#[derive(Clone, Copy)]
pub struct OpenRoot {
    /// The rights that are asked.
    pub mask: u32,
}

impl OpenRoot {
    ghost use Rattle.reg_model.specs.declared.call.Change.TheVariants.{OpenRoot as RootOpened};

    /// Admits it, or tells the status of its refusal: 87 for the mask, 1450 where the session has 16,384 handles or the journal is
    /// full, and else what a callback answers.
    pub fn admit<C: Callback>(
        store: &Store,
        asking: &Asking<'_, C>,
        end: JournalEnd,
        session: u8,
        mask: u32,
    ) -> Result<OpenRoot, u32>
        requires session { session < SESSIONS_LIMIT }
        requires ready { IsReady end store.now }
        ensures refused { IfErr result (λ status. change_cause (at end store.now) session (RootOpened mask) (status_at C.answers asking.now []) ≡ Some status) }
        ensures clear { IfOk result (λ found. IsClear end store.now session (RootOpened mask)) }
        ensures asked { OnOk result (asked (status_at C.answers asking.now []) ≡ None) }
        ensures mask { IfOk result (λ found. found.mask ≡ mask) }
    {
        if mask & NO_RIGHTS != 0 {
            return Err(INVALID_PARAMETER);
        }
        if store.has_no_handle_room(end, session) {
            return Err(NO_SYSTEM_RESOURCES);
        }
        match asking.ask(b"") {
            Ok(()) => {}
            Err(status) => return Err(status),
        }
        Ok(OpenRoot { mask })
    }

    /// Opens the root as the handle of a number. `Err` says that memory was lacking; then keys and handles are as they were.
    pub fn commit(
        self,
        store: &mut Store,
        alloc: Global,
        session: u8,
        end: JournalEnd,
    ) -> Result<ChangeReply, Lack>
        requires session { session < SESSIONS_LIMIT }
        requires ready { IsReady end store.old }
        requires clear { IsClear end store.old session (RootOpened self.mask) }
        ensures { (moment : ℕ) → IsMade store.old store.new session moment end (RootOpened self.mask) result }
    {
        let root = store.tree.root();
        match store
            .handles
            .add(session, end.next, self.mask, Vec::new(alloc), root)
        {
            Ok(()) => Ok(opened(end.next, None)),
            Err(_) => Err(Lack::Memory),
        }
    }
}
