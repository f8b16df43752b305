//! Why a key wasn't copied.
ghost use Rattle.std.specs.Prelude.{◌≡◌};

use std::alloc::AllocError;
use thiserror::Error;

/// Why a key wasn't copied. Of `NoKey`, `NoPlace` and `Taken` the first that holds is told, before all others.
#[derive(Clone, Copy, Debug, PartialEq, Eq, Error)]
pub enum CopyFault {
    /// There is no key to be copied, or the text is no path.
    #[error("there is no such key")]
    NoKey,
    /// There is no key below which it would stand, or the text is no path.
    #[error("there is no key to copy into")]
    NoPlace,
    /// A key of its name stands there.
    #[error("a key of that name is there")]
    Taken,
    /// A copied key would have more than 512 names on its path, or there are 60,000 keys where the copy would stand.
    #[error("there would be too many keys below one another or beside each other")]
    Limit,
    /// The bins have no room for the copy.
    #[error("the bins have no room")]
    Full,
    /// Memory was refused.
    #[error("no memory")]
    Memory,
}

impl From<AllocError> for CopyFault {
    ghost use Rattle.reg_copy.specs.declared.fault.CopyFault.{CopyFault};

    ghost from_gives = { λ _ e. e ≡ CopyFault.Memory };

    fn from(_fault: AllocError) -> CopyFault {
        CopyFault::Memory
    }
}
