//! Why a change isn't admitted.
ghost use Rattle.std.specs.Prelude.{◌≡◌};
ghost use Rattle.reg_calls.specs.Internal.Admissions.{status_told};

use reg_model::statuses::NOT_ENOUGH_MEMORY;

/// Why a change isn't admitted.
#[derive(Clone, Copy)]
pub enum Refusal {
    /// The rules refuse it: the status of its first cause.
    Cause(u32),
    /// Nothing refuses it, but memory was refused.
    Memory,
}

impl Refusal {
    /// What the caller is told: the cause's status, or 8 for memory.
    pub fn status(self) -> u32
        ensures { result ≡ status_told self }
    {
        match self {
            Refusal::Cause(status) => status,
            Refusal::Memory => NOT_ENOUGH_MEMORY,
        }
    }
}
