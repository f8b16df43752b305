//! A session's seat at a hive.

use std::marker::Model;

/// A session's seat at a hive, with how many of its calls were accepted there. Only seating makes one.
#[derive(Debug, Drop)]
pub struct Share {
    pub(crate) session: u8,
    pub(crate) count: u64,
}

impl Model for Share {
    ghost use Rattle.std.specs.Prelude.{◌<◌};
    ghost use Rattle.reg_journal.specs.Kept.{Seat};
    ghost use Rattle.reg_model.specs.declared.limits.TheConstants.{SESSIONS_LIMIT};

    ghost Value = { Seat };

    ghost view = { λ s. record { session = s.session; count = s.count } };

    ghost invariant = { λ s. s.session < SESSIONS_LIMIT };
}

impl Share {
    ghost use Rattle.std.specs.Prelude.{◌≡◌, ◌<◌};
    ghost use Rattle.reg_model.specs.declared.limits.TheConstants.{SESSIONS_LIMIT};

    /// Whose seat it is: a number below 64.
    pub fn session(&self) -> u8
        ensures session { result ≡ self.now.session }
        ensures below { result < SESSIONS_LIMIT }
    {
        self.session
    }

    /// How many calls of the session were accepted at the hive.
    pub fn count(&self) -> u64
        ensures { result ≡ self.now.count }
    {
        self.count
    }
}
