/// Why a notification was sent.
#[derive(Clone, Copy, Debug, PartialEq, Eq)]
pub enum Reason {
    /// The key changed in a way that the registration waits for.
    Matched,
    /// The key was deleted.
    Gone,
    /// The handle was closed by which it was asked for.
    Closed,
}

/// A notification that was sent: one for each registration, which it ends.
#[derive(Clone, Copy, Debug, PartialEq, Eq)]
pub struct Notice {
    /// The number of the registration's entry.
    pub watch: u64,
    /// The number of the entry that ended it.
    pub by: u64,
    pub reason: Reason,
}
