//! Why words ask for nothing.

use clap::Error;
use std::alloc::AllocError;

/// Why words ask for nothing that is served.
#[derive(Debug, Drop, thiserror::Error)]
pub enum WordsFault {
    /// `run` is asked for an image and for workers.
    #[error("the options exclude each other")]
    Options,
    /// What `clap` tells of them; or that memory is wanting.
    #[error("{0}")]
    Unread(Error),
}

impl From<Error> for WordsFault {
    ghost use Rattle.std.specs.Prelude.{◌≡◌};
    ghost use Rattle.reg_words.specs.declared.fault.WordsFault.TheVariants.{Unread};

    ghost from_gives = { λ error fault. fault ≡ Unread error };

    fn from(error: Error) -> WordsFault {
        WordsFault::Unread(error)
    }
}

impl From<AllocError> for WordsFault {
    ghost use Rattle.reg_words.specs.WordsFaults.{WantsMemory};

    ghost from_gives = { λ _ fault. WantsMemory fault };

    fn from(error: AllocError) -> WordsFault {
        WordsFault::Unread(Error::from(error))
    }
}
