use reg_arena::ArenaFault;
use thiserror::Error;

/// Why a tree didn't change; the first that holds.
#[derive(Clone, Copy, Debug, PartialEq, Eq, Error)]
pub enum TreeFault {
    /// There is no value of that name.
    #[error("there is no value of that name")]
    NotFound,
    /// The key has subkeys, and can't be deleted.
    #[error("the key has subkeys")]
    HasChildren,
    /// The key is the root, or is marked as one that may not be deleted.
    #[error("the key may not be deleted")]
    NoDelete,
    /// The key has 16,384 values and none of that name; or more than 32 keys would be made, a path would have more than 512
    /// names, or a key more than 60,000 subkeys.
    #[error("there would be too many keys or values")]
    Limit,
    /// The bins have no room for the new cells.
    #[error("the bins have no room")]
    Full,
    /// A growth was refused.
    #[error("no memory")]
    Memory,
}

impl From<ArenaFault> for TreeFault {
    ghost use Rattle.std.specs.Prelude.{◌≡◌};
    ghost use Rattle.reg_tree.specs.Internal.TreeFaults.{of_arena};

    ghost from_gives = { λ fault e. e ≡ of_arena fault };

    fn from(fault: ArenaFault) -> TreeFault {
        match fault {
            ArenaFault::Full => TreeFault::Full,
            ArenaFault::Memory => TreeFault::Memory,
        }
    }
}
