ghost use Rattle.std.specs.Prelude.{◌≡◌};

use crate::DumpFault;
use std::alloc::AllocError;
use thiserror::Error;

/// Why something wasn't told.
#[derive(Clone, Copy, Debug, PartialEq, Eq, Error)]
pub enum PathFault {
    /// No key is there, or the text is no path.
    #[error("there is no such key")]
    NoKey,
    /// The key has no value of that name.
    #[error("there is no such value")]
    NoValue,
    /// A write or memory failed on the way.
    #[error("{0}")]
    Stopped(DumpFault),
}

impl From<DumpFault> for PathFault {
    ghost use Rattle.reg_tree_text.specs.declared.path_fault.PathFault.{PathFault};

    ghost from_gives = { λ fault e. e ≡ PathFault.Stopped fault };

    fn from(fault: DumpFault) -> PathFault {
        PathFault::Stopped(fault)
    }
}

impl From<AllocError> for PathFault {
    ghost use Rattle.reg_tree_text.specs.declared.path_fault.PathFault.{PathFault};
    ghost use Rattle.reg_tree_text.specs.declared.fault.DumpFault.{DumpFault};

    ghost from_gives = { λ _ e. e ≡ PathFault.Stopped DumpFault.Memory };

    fn from(_fault: AllocError) -> PathFault {
        PathFault::Stopped(DumpFault::Memory)
    }
}
