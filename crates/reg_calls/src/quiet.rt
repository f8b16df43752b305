//! Which changes ended no watch: what is remembered, so that the same is not looked up again.
//!
//! A change of a key's values or descriptor is an event of the key that its handle leads to. Where it ended no watch, the next one by
//! that handle and of that kind ends none either, until a watch is asked for: handles lead where they led, and watches only go.
ghost use Rattle.std.specs.Prelude.{ℕ, ◌≡◌, ◌<◌, ◌≤◌, ◌⊎◌, true, vec_len, IfOk};
ghost use Rattle.reg_calls.specs.Internal.QuietKeys.{Remembers};

use std::alloc::{AllocError, Global};

/// How many handles are remembered at most: one for each remainder of their numbers by this one.
pub const REMEMBERED: u64 = 1024;

/// An event of the key that a handle leads to: the handle's number, and the bits of the event's kinds, of which there are none where
/// a change is no such event.
#[derive(Clone, Copy)]
pub struct OwnEvent {
    pub handle: u64,
    pub bits: u32,
}

/// An event that hit no pending watch, and the number of its entry.
#[derive(Clone, Copy)]
pub struct Unhit {
    pub handle: u64,
    pub bits: u32,
    pub at: u64,
}

/// A row for an event that was none.
const NOTHING: Unhit = Unhit {
    handle: 0,
    bits: 0,
    at: 0,
};

/// Events that hit no pending watch, and a number of an entry before which none is remembered any more.
#[derive(Drop)]
pub struct Quiet {
    pub rows: Vec<Unhit>,
    pub since: u64,
}

impl Quiet {
    /// Nothing is remembered. Its one fault is that memory was refused.
    pub fn new(alloc: Global) -> Result<Quiet, AllocError>
        ensures rows { IfOk result (λ quiet. vec_len quiet.rows ≡ REMEMBERED) }
        ensures none { IfOk result (λ quiet. (handle bits at : ℕ) → Remembers quiet handle bits at → ⊥) }
    {
        let mut rows = Vec::with_capacity(alloc, REMEMBERED as usize)?;
        for _row in 0..REMEMBERED {
            rows.push(NOTHING)?;
        }
        Ok(Quiet { rows, since: 0 })
    }

    /// Whether it is remembered that an event hit no watch.
    pub fn has(&self, event: OwnEvent) -> bool
        requires { vec_len self.now.rows ≡ REMEMBERED }
        ensures { result ≡ true → (at : ℕ) × Remembers self.now event.handle event.bits at }
    {
        let row = self.rows[(event.handle % REMEMBERED) as usize];
        // Not `&&`: without branches the proof has one equation for all four.
        (event.bits > 0)
            & (row.handle == event.handle)
            & (row.bits == event.bits)
            & (row.at >= self.since)
    }

    /// Remembers that an event, of the entry of that number, hit no watch.
    fn remember(&mut self, event: OwnEvent, at: u64)
        requires { vec_len self.old.rows ≡ REMEMBERED }
        ensures rows { vec_len self.new.rows ≡ REMEMBERED }
        ensures more { (handle bits number : ℕ) → Remembers self.new handle bits number →
            Remembers self.old handle bits number ⊎ ((0 < bits) × (handle ≡ event.handle) × (bits ≡ event.bits) × (number ≡ at)) }
    {
        self.rows[(event.handle % REMEMBERED) as usize] = Unhit {
            handle: event.handle,
            bits: event.bits,
            at,
        };
    }

    /// Forgets all events of entries before the one of that number.
    fn forget(&mut self, number: u64)
        requires { vec_len self.old.rows ≡ REMEMBERED }
        ensures rows { vec_len self.new.rows ≡ REMEMBERED }
        ensures later { (handle bits at : ℕ) → Remembers self.new handle bits at → Remembers self.old handle bits at × (number ≤ at) }
    {
        self.since = self.since.max(number);
    }

    /// Follows the entry of a number, an event of that kind: how many watches were pending before it and after it. One more was asked
    /// for, or some were ended, or none was hit. An entry that is no such event leaves what is remembered, unless it asks for a watch.
    pub fn follow(&mut self, event: OwnEvent, number: u64, before: usize, after: usize)
        requires { vec_len self.old.rows ≡ REMEMBERED }
        ensures rows { vec_len self.new.rows ≡ REMEMBERED }
        ensures follows { (handle bits at : ℕ) → Remembers self.new handle bits at →
            (Remembers self.old handle bits at × ((after ≤ before) ⊎ (number ≤ at)))
            ⊎ ((before ≡ after) × (0 < bits) × (handle ≡ event.handle) × (bits ≡ event.bits) × (at ≡ number)) }
    {
        if after > before {
            self.forget(number);
        } else if after == before && event.bits > 0 {
            self.remember(event, number);
        }
    }
}
