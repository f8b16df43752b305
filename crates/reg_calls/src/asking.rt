//! A call on its way to the callbacks of its hive.
ghost use Rattle.std.specs.Prelude.{◌≡◌, Some, None, OnOk, IfErr};
ghost use Rattle.reg_names.specs.Names.{text_of};
ghost use Rattle.reg_heap.specs.Paths.{Path};
ghost use Rattle.reg_model.specs.Causes.{asked};
ghost use Rattle.reg_calls.specs.Internal.Askings.{status_at};

use reg_callbacks::{CallView, Callback, Callbacks, Seen};

/// A call that callbacks are asked of, with all that they are shown but the path.
#[derive(Clone, Copy)]
pub struct Asking<'a, C> {
    pub callbacks: &'a Callbacks<C>,
    /// Whose call it is.
    pub session: u8,
    /// In units of 100 ns since 1601; 0 for a question.
    pub moment: u64,
    pub seen: Seen<'a>,
}

impl<'a, C: Callback> Asking<'a, C> {
    /// Asks the callbacks, which are shown the folded path text of the handle's key. `Err` is the status of the first that refuses.
    pub fn ask(&self, path: &[u8]) -> Result<(), u32>
        ensures ok { (p : Path) → text_of p ≡ path.now → OnOk result (asked (status_at C.answers self.now p) ≡ None) }
        ensures err { (p : Path) → text_of p ≡ path.now → IfErr result (λ status. asked (status_at C.answers self.now p) ≡ Some status) }
    {
        let view = CallView {
            session: self.session,
            moment: self.moment,
            path,
            seen: self.seen,
        };
        let status = self.callbacks.ask(&view);
        if status != 0 {
            return Err(status);
        }
        Ok(())
    }
}
