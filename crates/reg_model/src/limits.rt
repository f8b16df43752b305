//! How much a hive keeps of what was called. The limits are this project's own.

/// How many sessions there are: a session's number is below it.
pub const SESSIONS_LIMIT: usize = 64;

/// The most handles that a session has on a hive, those on deleted keys among them.
pub const HANDLES_LIMIT: u32 = 16_384;

/// The most notifications that a session waits for on a hive.
pub const WATCHES_LIMIT: u32 = 4_096;

/// The most entries of the journal and open handles that a hive has, together: each open handle's closing has its room.
pub const JOURNAL_LIMIT: usize = 16_777_216;

/// The greatest count of entries at which a journal may begin anew: 10^18.
pub const NUMBERS_LIMIT: u64 = 1_000_000_000_000_000_000;
