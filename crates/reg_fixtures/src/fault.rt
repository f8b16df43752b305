use std::alloc::{AllocError, AllocFailed};
use thiserror::Error;

/// Why a fixture can't be made.
#[derive(Clone, Copy, Debug, PartialEq, Eq, Error)]
pub enum FixtureFault {
    /// A line of a table has another form than its kind asks for.
    #[error("a line of a table is bad")]
    Line,
    /// A number of a table isn't one, or what it stands for is too large.
    #[error("a number is bad")]
    Number,
    /// There are no such bytes: a place is past the end.
    #[error("a place is past the end")]
    Place,
    /// A growth was refused.
    #[error("no memory")]
    Memory,
}

impl From<AllocError> for FixtureFault {
    ghost use Rattle.std.specs.Prelude.{◌≡◌};
    ghost use Rattle.reg_fixtures.specs.declared.fault.FixtureFault.{FixtureFault};

    ghost from_gives = { λ _ e. e ≡ FixtureFault.Memory };

    fn from(_fault: AllocError) -> FixtureFault {
        FixtureFault::Memory
    }
}

impl<T: Drop> From<AllocFailed<T>> for FixtureFault {
    ghost use Rattle.std.specs.Prelude.{◌≡◌};
    ghost use Rattle.reg_fixtures.specs.declared.fault.FixtureFault.{FixtureFault};

    ghost from_gives = { λ _ e. e ≡ FixtureFault.Memory };

    fn from(_fault: AllocFailed<T>) -> FixtureFault {
        FixtureFault::Memory
    }
}
