ghost use Rattle.std.specs.Prelude.{◌≡◌};

use reg_model::{Change, Query};

/// Decides on the calls of a hive before they are answered: 0 lets a call go on, and any other status refuses it and is the
/// caller's answer, as it is.
///
/// A callback decides by what it is shown alone, and calls nothing of the registry. What it decides is its `answers`: a function of
/// the session, the moment, the path and the call, which a callback states beside its code.
pub trait Callback: Drop {
    ghost use Rattle.std.specs.Prelude.{ℕ, List};
    ghost use Rattle.reg_model.specs.declared.call.Call.{Call};
    ghost use Rattle.reg_model.specs.declared.call.Call.TheVariants as call;

    /// What it answers: of a session, at a moment (0 for a question), for the path text of the handle's key, a call.
    ghost answers: { Self → ℕ → ℕ → List ℕ → Call → ℕ };

    /// Decides on a change of a session at a moment (100 ns units since 1601). `path` is the folded path text of the handle's key,
    /// empty for the root and for OpenRoot.
    fn pre_change(&self, session: u8, moment: u64, path: &[u8], change: &Change) -> u32
        ensures { result ≡ answers self.now session moment path.now (call.Change change.now) };

    /// Decides on a question of a session. `path` is the folded path text of the handle's key, empty for the root.
    fn pre_query(&self, session: u8, path: &[u8], query: &Query) -> u32
        ensures { result ≡ answers self.now session 0 path.now (call.Query query.now) };
}

/// A callback in a box, which decides as the one inside.
impl Callback for Box<dyn Callback + Send> {
    ghost answers = { λ b. (Callback-box b).answers b.value };

    fn pre_change(&self, session: u8, moment: u64, path: &[u8], change: &Change) -> u32 {
        (**self).pre_change(session, moment, path, change)
    }

    fn pre_query(&self, session: u8, path: &[u8], query: &Query) -> u32 {
        (**self).pre_query(session, path, query)
    }
}

/// Lets every call go on, as if it weren't there: the type of a hive's callbacks where none is ever registered.
#[derive(Clone, Copy, Debug)]
pub struct NoCallback;

impl Callback for NoCallback {
    ghost answers = { λ callback session moment path seen. 0 };

    fn pre_change(&self, _: u8, _: u64, _: &[u8], _: &Change) -> u32 {
        0
    }

    fn pre_query(&self, _: u8, _: &[u8], _: &Query) -> u32 {
        0
    }
}
