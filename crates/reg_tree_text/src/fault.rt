ghost use Rattle.std.specs.Prelude.{◌≡◌};

use reg_text::OutputFault;
use std::alloc::AllocError;
use thiserror::Error;

/// What ended a dump early.
#[derive(Clone, Copy, Debug, PartialEq, Eq, Error)]
pub enum DumpFault {
    /// A write or the flush failed, or a write took no byte. So many bytes of the text were written.
    #[error("a write failed after {written} bytes")]
    Write { written: u64 },
    /// A growth was refused; or 64 bits can't count the text, its keys or its values.
    #[error("no memory")]
    Memory,
}

impl From<AllocError> for DumpFault {
    ghost use Rattle.reg_tree_text.specs.declared.fault.DumpFault.{DumpFault};

    ghost from_gives = { λ _ e. e ≡ DumpFault.Memory };

    fn from(_fault: AllocError) -> DumpFault {
        DumpFault::Memory
    }
}

impl From<OutputFault> for DumpFault {
    ghost use Rattle.reg_tree_text.specs.declared.fault.DumpFault.{DumpFault};

    ghost from_gives = { λ fault e. e ≡ DumpFault.Write fault.written };

    fn from(fault: OutputFault) -> DumpFault {
        DumpFault::Write {
            written: fault.written,
        }
    }
}
