//! One registration.
ghost use Rattle.std.specs.Prelude.{◌≡◌};
ghost use Rattle.reg_callbacks.specs.Asking.{status_seen};

use crate::{CallView, Callback, Seen};

/// A callback at its altitude, with the cookie that its registration was given.
#[derive(Drop)]
pub struct Row<C> {
    pub altitude: u32,
    pub cookie: u32,
    pub callback: C,
}

impl<C: Callback> Row<C> {
    /// Asks the callback: it is handed what is seen by the method of its kind.
    pub fn ask(&self, view: &CallView) -> u32
        ensures { result ≡ status_seen view.now (C.answers self.now.callback) }
    {
        match view.seen {
            Seen::Change(change) => {
                self.callback
                    .pre_change(view.session, view.moment, view.path, change)
            }
            Seen::Query(query) => self.callback.pre_query(view.session, view.path, query),
        }
    }
}
