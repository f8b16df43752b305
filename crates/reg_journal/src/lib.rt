//! The journal of a hive: its accepted changes, in order, and the book of its sessions.
//!
//! Its one contract: a list of entries that only grows, until it is cut and begins anew; their numbers go on from a base, which is how many
//! entries were cut. For each session that has a seat there is a row: how many entries it has had, those that were cut among them. A
//! [`Share`] is a session's seat, with the count of its entries: an append raises the share that it is lent and its row together, and a cut
//! leaves both. Room for entries is kept beforehand, so that an append can't fail. It stands on reg_model.
//!
//! Appending an entry and finding one by its number take no longer with more entries; a list that is full is copied to one of
//! twice its size.
#![tactic(auto)]

mod share;

ghost use Rattle.std.specs.Prelude.{ℕ, ◌≡◌, ◌≢◌, ◌+◌, ◌-◌, ◌*◌, ◌^◌, ◌<◌, ◌≤◌, ◌↔◌, ◌⊎◌, ◌++◌, ◌∷◌, [], None, Some, IfNone, IfOk, IsErrOf, IsOk, IsTrue, OnErr, OnOk, length, map, nat_lt, replicate, slice_get, slice_index, slice_set, vec_len, if◌then◌else◌, option_copied};
ghost use Rattle.std.specs.List.{range_with_len};
ghost use Rattle.reg_model.specs.declared.limits.TheConstants.{NUMBERS_LIMIT, SESSIONS_LIMIT};
ghost use Rattle.reg_model.specs.Histories.{count_of};
ghost use Rattle.reg_journal.specs.Kept.{Kept, Seat, seat, row_of, total_of, IsCurrent};

use reg_model::Entry;
use reg_model::limits::SESSIONS_LIMIT;
pub use share::Share;
use std::alloc::{AllocError, Global};
use std::marker::Model;
use std::snapshot::Snapshot;
use thiserror::Error;

/// Why no seats were given; the first that holds.
#[derive(Clone, Copy, Debug, PartialEq, Eq, Error)]
pub enum SeatFault {
    /// Seats were given before.
    #[error("seats were given before")]
    Seated,
    /// Seats were asked for no session, or for more than 64.
    #[error("no session, or more than 64")]
    Count,
    /// A growth was refused.
    #[error("no memory")]
    Memory,
}

impl From<AllocError> for SeatFault {
    ghost use Rattle.reg_journal.specs.declared.SeatFault.TheVariants.{Memory};

    ghost from_gives = { λ _ fault. fault ≡ Memory };

    fn from(_fault: AllocError) -> SeatFault {
        SeatFault::Memory
    }
}

/// The accepted changes of a hive that are kept, in order, with room for more; and of each session that has a seat, how many it made.
#[derive(Drop)]
pub struct Journal {
    alloc: Global,
    base: usize,
    entries: Vec<Entry>,
    rows: Vec<u64>,
    /// The rows as the entries from the base on found them.
    noted: Snapshot<Vec<u64>>,
}

impl Model for Journal {
    ghost use Rattle.std.specs.Prelude.{◌-◌, vec_len, vec_capacity};
    ghost use Rattle.reg_journal.specs.Kept.{Kept, IsBook};

    ghost Value = { Kept };

    ghost view = { λ j. record {
      noted = j.noted.value.items;
      base = j.base;
      entries = j.entries.items;
      room = vec_capacity j.entries - vec_len j.entries;
    } };

    ghost invariant = { λ j. IsBook j.base j.noted.value.items j.rows.items j.entries.items };
}

/// The seats of the sessions below `n`.
fn shares(alloc: Global, n: u8) -> Result<Vec<Share>, AllocError>
    requires { n ≤ SESSIONS_LIMIT }
    ensures { IfOk result (λ shares. shares.items ≡ map (λ s. seat s 0) (range_with_len 0 n)) }
{
    let mut all = Vec::with_capacity(alloc, n as usize)?;
    for session in 0..n {
        all.push(Share { session, count: 0 })?;
    }
    Ok(all)
}

/// Counts one more in a row.
fn raise(rows: &mut Vec<u64>, at: usize)
    requires { (at < vec_len rows.old) × (slice_index rows.old.items at < 2 ^ 64 - 1) }
    ensures { rows.new.items ≡ slice_set rows.old.items at (slice_index rows.old.items at + 1) }
{
    rows[at] += 1;
}

impl Journal {
    /// A journal with no entry, whose first one has the number 0, and at which no session has a seat.
    pub fn new(alloc: Global) -> Journal
        ensures noted { result.noted ≡ [] }
        ensures base { result.base ≡ 0 }
        ensures entries { result.entries ≡ [] }
    {
        let rows = Vec::new(alloc);
        let noted = Snapshot::of(&rows);
        Journal {
            alloc,
            base: 0,
            entries: Vec::new(alloc),
            rows,
            noted,
        }
    }

    /// Gives the sessions below `n` their seats, once: a share of each, in order, that has counted no call. That is before the first entry
    /// of all (clauses `never` and `first`). `Seated` where seats were given before, else `Count` where `n` is 0 or above 64, else
    /// `Memory`; then nothing changed.
    pub fn seat(&mut self, n: u8) -> Result<Vec<Share>, SeatFault>
        ensures shares { IfOk result (λ shares. shares.items ≡ map (λ s. seat s 0) (range_with_len 0 n)) }
        ensures seated { OnOk result (self.new ≡ record self.old { noted = replicate n 0 }) }
        ensures never { OnOk result (self.old.base ≡ 0) }
        ensures first { OnOk result (self.old.entries ≡ []) }
        ensures base { self.new.base ≡ self.old.base }
        ensures entries { self.new.entries ≡ self.old.entries }
        ensures room { self.new.room ≡ self.old.room }
        ensures err { OnErr result (self.new ≡ self.old) }
        ensures again { IsErrOf result SeatFault.Seated ↔ (self.old.noted ≢ []) }
        ensures count { IsErrOf result SeatFault.Count ↔ ((self.old.noted ≡ []) × ((n ≡ 0) ⊎ (SESSIONS_LIMIT < n))) }
    {
        if self.rows.len() > 0 {
            return Err(SeatFault::Seated);
        }
        if n == 0 || n as usize > SESSIONS_LIMIT {
            return Err(SeatFault::Count);
        }
        let rows = vec![in self.alloc; 0u64; n as usize]?;
        let shares = shares(self.alloc, n)?;
        self.noted = Snapshot::of(&rows);
        self.rows = rows;
        Ok(shares)
    }

    /// How many entries a session has had, those that were cut among them; `None` where it has no seat, and then it has had none (clause
    /// `unseated`).
    pub fn row(&self, session: u8) -> Option<u64>
        ensures row { result ≡ (if nat_lt session (length self.now.noted) then Some (row_of self.now.noted self.now.entries session) else None) }
        ensures unseated { IfNone result (count_of session self.now.entries ≡ 0) }
    {
        self.rows.get(session as usize).copied()
    }

    /// How many sessions have seats: at most 64.
    pub fn seats(&self) -> usize
        ensures seats { result ≡ length self.now.noted }
        ensures few { result ≤ SESSIONS_LIMIT }
    {
        self.rows.len()
    }

    /// Whether the share's session has a seat whose row is the share's count.
    pub fn is_current(&self, share: &Share) -> bool
        ensures { IsTrue result ↔ IsCurrent self.now.noted self.now.entries share.now }
    {
        let at = share.session as usize;
        at < self.rows.len() && self.rows[at] == share.count
    }

    /// How many entries were ever appended: the number of the next one. All rows of the book together are as many (clause `rows`). The
    /// first one that is kept has a number of 10^18 at most (clause `first`).
    pub fn len(&self) -> usize
        ensures len { result ≡ self.now.base + length self.now.entries }
        ensures first { self.now.base ≤ NUMBERS_LIMIT }
        ensures rows { result ≡ total_of self.now.noted self.now.entries }
    {
        self.base + self.entries.len()
    }

    /// How many entries are kept.
    pub fn kept(&self) -> usize
        ensures { result ≡ length self.now.entries }
    {
        self.entries.len()
    }

    /// The entry of that number; `None` where no such entry is kept.
    pub fn entry(&self, number: usize) -> Option<&Entry>
        ensures { option_copied result ≡ (if nat_lt number self.now.base then None else slice_get self.now.entries (number - self.now.base)) }
    {
        if number < self.base {
            return None;
        }
        self.entries.get(number - self.base)
    }

    /// The entries that are kept, in order.
    pub fn entries(&self) -> &[Entry]
        ensures { result.now ≡ self.now.entries }
    {
        self.entries.as_slice()
    }

    /// Keeps room for so many more entries. Where there is less yet, the list becomes one of twice its size or of what is needed, the
    /// larger of the two: so it has at most twice the size that is needed. Its one fault is that memory was refused; then the entries
    /// and the room are as before.
    pub fn reserve(&mut self, more: usize) -> Result<(), AllocError>
        ensures noted { self.new.noted ≡ self.old.noted }
        ensures base { self.new.base ≡ self.old.base }
        ensures entries { self.new.entries ≡ self.old.entries }
        ensures room { self.old.room ≤ self.new.room }
        ensures ok { OnOk result (more ≤ self.new.room) }
        ensures most { (self.new.room ≡ self.old.room) ⊎ (length self.old.entries + self.new.room ≤ 2 * (length self.old.entries + more)) }
        ensures succeeds { more ≤ self.old.room → IsOk result }
        ensures err { OnErr result (self.new.room ≡ self.old.room) }
    {
        let size = self.entries.capacity();
        let room = size - self.entries.len();
        if more <= room {
            return Ok(());
        }
        let growth = more.max(room.saturating_add(size));
        self.entries.reserve_exact(growth)
    }

    /// Appends an entry of a session in room that was kept, and counts it in the session's row and in its share.
    pub fn append(&mut self, share: &mut Share, entry: Entry)
        requires room { 0 < self.old.room }
        requires current { IsCurrent self.old.noted self.old.entries share.old }
        requires own { entry.session ≡ share.old.session }
        ensures noted { self.new.noted ≡ self.old.noted }
        ensures base { self.new.base ≡ self.old.base }
        ensures entries { self.new.entries ≡ self.old.entries ++ entry ∷ [] }
        ensures room { self.old.room ≤ self.new.room + 1 }
        ensures share { share.new ≡ record share.old { count = share.old.count + 1 } }
    {
        raise(&mut self.rows, share.session as usize);
        match self.entries.push(entry) {
            Ok(()) => {}
            Err(_) => unreachable!(),
        }
        share.count += 1;
    }

    /// Begins anew at the number of the next entry: no entry is kept, and what the rows tell is noted. Answers how many entries were cut.
    /// Each share whose count is its row stays so (clause `current`). The room of the entries is given back (clause `room`). Takes no
    /// memory.
    pub fn cut(&mut self) -> usize
        requires { self.old.base + length self.old.entries ≤ NUMBERS_LIMIT }
        ensures cut { result ≡ length self.old.entries }
        ensures base { self.new.base ≡ self.old.base + length self.old.entries }
        ensures entries { self.new.entries ≡ [] }
        ensures seats { length self.new.noted ≡ length self.old.noted }
        ensures noted { (session : ℕ) → slice_index self.new.noted session ≡ row_of self.old.noted self.old.entries session }
        ensures current { (share : Seat) → IsCurrent self.old.noted self.old.entries share → IsCurrent self.new.noted self.new.entries share }
        ensures room { self.new.room ≡ 0 }
    {
        let count = self.entries.len();
        self.base += count;
        self.entries = Vec::new(self.alloc);
        self.noted = Snapshot::of(&self.rows);
        count
    }
}
