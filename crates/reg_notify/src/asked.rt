//! What is asked of a table of watches.
use crate::place::Place;

/// A notification that a session asks for.
#[derive(Drop)]
pub struct Registration {
    /// The number of the entry that asks.
    pub number: u64,
    /// The session that asks, below 64.
    pub session: u8,
    /// The handle by which it asks.
    pub handle: u64,
    /// The key that the handle leads to.
    pub place: Place,
    /// The bits of the kinds of events that it waits for; other bits than 1, 2, 4 and 8 mean nothing.
    pub filter: u32,
    /// Whether it waits for events of the keys below, too.
    pub subtree: bool,
}

/// What happened to a key.
#[derive(Drop)]
pub struct Event {
    /// The bits of its kinds: 1, 2, 4 and 8.
    pub bits: u32,
    /// The key.
    pub place: Place,
}

/// The keys that an entry removes.
#[derive(Drop)]
pub enum Removed {
    Nothing,
    /// One key.
    Key(Place),
    /// A key and all keys below it.
    Within(Place),
    /// All keys below one.
    Under(Place),
}
