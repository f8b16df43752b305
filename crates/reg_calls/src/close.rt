//! Close: a handle closed.
//!
//! Win32 registry reference, `RegCloseKey`.
ghost use Rattle.std.specs.Prelude.{ℕ, ◌≡◌, Some, Ok, IfErr, IfOk};
ghost use Rattle.reg_model.specs.Causes.{change_cause};
ghost use Rattle.reg_calls.specs.Internal.Stores.{at, IsReady, IsMade};
ghost use Rattle.reg_calls.specs.Internal.Admissions.{IsClear};
ghost use Rattle.reg_calls.specs.declared.store.JournalEnd.{JournalEnd};

use crate::replies::accepted;
use crate::store::{JournalEnd, Store};
use reg_model::ChangeReply;
use reg_model::statuses::INVALID_HANDLE;

/// What a Close was admitted with.
#[derive(Clone, Copy)]
pub struct Close {
    /// The handle's number.
    pub handle: u64,
}

impl Close {
    ghost use Rattle.reg_model.specs.declared.call.Change.TheVariants.{Close as Closed};

    /// Finds the handle. Refused by 6 where the session has none of that number. Callbacks are never asked.
    pub fn admit(store: &Store, session: u8, handle: u64) -> Result<Close, u32>
        ensures refused { IfErr result (λ status. (end : JournalEnd) → (c : ℕ) → change_cause (at end store.now) session (Closed handle) c ≡ Some status) }
        ensures clear { IfOk result (λ found. (end : JournalEnd) → IsClear end store.now session (Closed handle)) }
        ensures handle { IfOk result (λ found. found.handle ≡ handle) }
    {
        match store.handles.look(session, handle) {
            Some(_) => Ok(Close { handle }),
            None => Err(INVALID_HANDLE),
        }
    }

    /// Closes the handle.
    pub fn commit(self, store: &mut Store, session: u8, end: JournalEnd) -> ChangeReply
        requires ready { IsReady end store.old }
        requires clear { IsClear end store.old session (Closed self.handle) }
        ensures { (moment : ℕ) → IsMade store.old store.new session moment end (Closed self.handle) (Ok result) }
    {
        store.handles.close(session, self.handle);
        accepted(end.next)
    }
}
