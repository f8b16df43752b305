//! Why a text isn't read.
ghost use Rattle.std.specs.Prelude.{◌≡◌};

use std::alloc::{AllocError, AllocFailed};
use thiserror::Error;

/// Why a text isn't read.
#[derive(Clone, Copy, Debug, PartialEq, Eq, Error)]
pub enum ReadFault {
    /// The first line that isn't understood, counted from 1; of a value that goes on over several lines the first one.
    #[error("line {0} isn't understood")]
    Line(u64),
    /// The bytes are no UTF-8, or behind the mark of UTF-16 their number is odd.
    #[error("the text is neither UTF-8 nor UTF-16 behind its mark")]
    Encoding,
    /// Memory was refused.
    #[error("no memory")]
    Memory,
}

impl From<AllocError> for ReadFault {
    ghost use Rattle.reg_dotreg_reader.specs.declared.fault.ReadFault.TheVariants.{Memory as NoMemory};

    ghost from_gives = { λ _ fault. fault ≡ NoMemory };

    fn from(_fault: AllocError) -> ReadFault {
        ReadFault::Memory
    }
}

impl<T: Drop> From<AllocFailed<T>> for ReadFault {
    ghost use Rattle.reg_dotreg_reader.specs.declared.fault.ReadFault.TheVariants.{Memory as NoMemory};

    ghost from_gives = { λ _ fault. fault ≡ NoMemory };

    fn from(_fault: AllocFailed<T>) -> ReadFault {
        ReadFault::Memory
    }
}

/// Why a line isn't read.
#[derive(Drop)]
pub enum LineFault {
    /// It isn't understood.
    Form,
    /// Memory was refused.
    Memory,
}

impl From<AllocError> for LineFault {
    ghost use Rattle.reg_dotreg_reader.specs.declared.fault.LineFault.TheVariants.{Memory};

    ghost from_gives = { λ _ fault. fault ≡ Memory };

    fn from(_fault: AllocError) -> LineFault {
        LineFault::Memory
    }
}

impl<T: Drop> From<AllocFailed<T>> for LineFault {
    ghost use Rattle.reg_dotreg_reader.specs.declared.fault.LineFault.TheVariants.{Memory};

    ghost from_gives = { λ _ fault. fault ≡ Memory };

    fn from(_fault: AllocFailed<T>) -> LineFault {
        LineFault::Memory
    }
}
