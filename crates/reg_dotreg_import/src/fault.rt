//! Why entries weren't applied.
ghost use Rattle.std.specs.Prelude.{◌≡◌};

use std::alloc::AllocError;
use thiserror::Error;

/// Why entries weren't applied.
#[derive(Clone, Copy, Debug, PartialEq, Eq, Error)]
pub enum ImportFault {
    /// The hive refused the entry of a line, counted from 1, with a status; of line 0, the handle to the root.
    #[error("line {line} was refused with status {status}")]
    Refused { line: u64, status: u32 },
    /// Memory was refused.
    #[error("no memory")]
    Memory,
}

impl From<AllocError> for ImportFault {
    ghost use Rattle.reg_dotreg_import.specs.declared.fault.ImportFault.{ImportFault};

    ghost from_gives = { λ _ e. e ≡ ImportFault.Memory };

    fn from(_fault: AllocError) -> ImportFault {
        ImportFault::Memory
    }
}
