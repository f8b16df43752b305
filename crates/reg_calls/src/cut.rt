//! Why a hive's journal can't begin anew.

use thiserror::Error;

/// Why the journal didn't begin anew; the first that holds.
#[derive(Clone, Copy, Debug, PartialEq, Eq, Error)]
pub enum CutFault {
    /// Handles are open; the number is that of open handles.
    #[error("{count} handles are open")]
    HandlesOpen { count: u32 },
    /// The hive has had more than 10^18 entries.
    #[error("more than 10^18 entries")]
    Numbers,
}
