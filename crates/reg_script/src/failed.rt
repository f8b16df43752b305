//! Lines that failed: how a line went, and what ends a script that stops at one.
ghost use Rattle.std.specs.Prelude.{◌≡◌};
ghost use Rattle.reg_script.specs.Internal.Progress.{went_by};

use crate::engine::ScriptFault;
use std::alloc::AllocError;

/// What a script did that ran to its end.
#[derive(Clone, Copy, Debug, PartialEq, Eq)]
pub struct Ran {
    /// The moment of its last `at`, in units of 100 ns since 1601; the one it began at where it has none.
    pub moment: u64,
    /// How many lines failed: those that have no form of a line, and those whose change wasn't made.
    pub failed: u32,
}

/// A line that failed.
#[derive(Debug, Drop)]
pub struct FailedLine {
    /// Counted from 1.
    pub number: u32,
    /// The line without its LF.
    pub text: Vec<u8>,
    /// The status of its reply; `None` where it has no form of a line.
    pub status: Option<u32>,
}

/// What ended a script early that stops at the first line that failed.
#[derive(Debug, Drop)]
pub enum StrictFault {
    /// What ends other scripts too.
    Script(ScriptFault),
    /// A line failed.
    Line(FailedLine),
}

impl From<ScriptFault> for StrictFault {
    ghost use Rattle.reg_script.specs.declared.failed.StrictFault.{StrictFault};

    ghost from_gives = { λ fault e. e ≡ StrictFault.Script fault };

    fn from(fault: ScriptFault) -> StrictFault {
        StrictFault::Script(fault)
    }
}

impl From<AllocError> for StrictFault {
    ghost use Rattle.reg_script.specs.declared.engine.ScriptFault.{ScriptFault};
    ghost use Rattle.reg_script.specs.declared.failed.StrictFault.{StrictFault};

    ghost from_gives = { λ _ e. e ≡ StrictFault.Script ScriptFault.Memory };

    fn from(_fault: AllocError) -> StrictFault {
        StrictFault::Script(ScriptFault::Memory)
    }
}

/// How a line went.
#[derive(Clone, Copy)]
pub enum Went {
    /// It didn't fail.
    Well,
    /// It failed. The status is that of its reply; `None` where it has no form of a line.
    Wrong { status: Option<u32> },
}

/// How a change went that was told this status.
pub fn went_with(status: u32) -> Went
    ensures { result ≡ went_by status }
{
    if status == 0 {
        return Went::Well;
    }
    Went::Wrong {
        status: Some(status),
    }
}
