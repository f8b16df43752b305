ghost use Rattle.std.specs.Prelude.{◌≡◌};
ghost use Rattle.reg_calls.specs.Views.{status_of};

use reg_arena::ArenaFault;
use reg_model::statuses::{NO_SYSTEM_RESOURCES, NOT_ENOUGH_MEMORY};

/// Why an acceptable change isn't made.
#[derive(Clone, Copy)]
pub enum Lack {
    /// The bins have no space for it.
    Space,
    /// A growth was refused.
    Memory,
}

impl Lack {
    /// 1450 for space, 8 for memory.
    pub fn status(self) -> u32
        ensures { result ≡ status_of self }
    {
        match self {
            Lack::Space => NO_SYSTEM_RESOURCES,
            Lack::Memory => NOT_ENOUGH_MEMORY,
        }
    }
}

impl From<ArenaFault> for Lack {
    ghost use Rattle.reg_calls.specs.Internal.Lacks.{lack_of};

    ghost from_gives = { λ fault lack. lack ≡ lack_of fault };

    fn from(fault: ArenaFault) -> Lack {
        match fault {
            ArenaFault::Full => Lack::Space,
            ArenaFault::Memory => Lack::Memory,
        }
    }
}
