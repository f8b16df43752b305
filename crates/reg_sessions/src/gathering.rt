ghost use Rattle.std.specs.Prelude.{◌≡◌, ◌≤◌, ◌<◌, ◌↔◌, ℕ, length, IfErr, IfNone, IfOk, IfSome, IsTrue, Some, slice_get};
ghost use Rattle.reg_model.specs.declared.limits.TheConstants.{SESSIONS_LIMIT};
ghost use Rattle.reg_sessions.specs.declared.registry.TheConstants.{HIVES_LIMIT};
ghost use Rattle.reg_sessions.specs.Locked.{booked_of, held_of, AreDelivered, IsAdmitted};
ghost use Rattle.reg_sessions.specs.Sessions.{AreInOrder};
ghost use Rattle.reg_sessions.specs.Gathering.{IsAudited, IsDue, IsMismatch, lines_at, made_at, rows_at};

use crate::compare::{Gap, first_gap, first_stray};
use crate::locked::Locked;
use crate::registry::Registry;
use crate::session::Session;
use reg_callbacks::Callback;
use reg_calls::Hive;
use std::marker::Model;

/// The hives, out of their locks, once all sessions were gathered.
#[derive(Drop)]
pub struct Audit<C = Box<dyn Callback + Send>> {
    hives: Vec<Locked<C>>,
}

impl<C> Model for Audit<C> {
    ghost use Rattle.std.specs.Prelude.{◌≤◌, List, vec_len};
    ghost use Rattle.std.specs.Coded.{coded_list};
    ghost use Rattle.reg_sessions.specs.Locked.{Held, coded_held};
    ghost use Rattle.reg_sessions.specs.declared.registry.TheConstants.{HIVES_LIMIT};

    ghost Value = { List Held };

    ghost coded = { coded_list coded_held };

    ghost view = { λ a. a.hives.items };

    ghost invariant = { λ a. vec_len a.hives ≤ HIVES_LIMIT };
}

/// What a session keeps of a hive.
#[derive(Clone, Copy, Debug, PartialEq, Eq)]
pub enum Kept {
    /// The receipt of an accepted change.
    Receipt,
    /// A notice that it took.
    Notice,
}

/// Why the sessions weren't gathered; the first that holds, `Sessions` before the other.
#[derive(Drop)]
pub enum GatherFault<C = Box<dyn Callback + Send>> {
    /// A session's receipt at this place (from 0 on) and the entry at the same place among the session's entries in the hive's journal
    /// differ, or one of them is missing. Or the notice that it took at this place isn't the one that the hive told it there, or the hive
    /// told it fewer.
    Mismatch {
        hive: u8,
        session: u8,
        place: u64,
        kept: Kept,
        audit: Audit<C>,
    },
    /// The list isn't that of all sessions that were started, in order. Nothing was gathered.
    Sessions {
        registry: Registry<C>,
        sessions: Vec<Session>,
    },
}

/// Where a receipt and an entry differ.
#[derive(Clone, Copy)]
struct Spot {
    hive: u8,
    session: u8,
    place: u64,
    kept: Kept,
}

impl<C: Callback> Audit<C> {
    /// How many hives there are.
    pub fn hives(&self) -> usize
        ensures hives { result ≡ length self.now }
        ensures few { result ≤ HIVES_LIMIT }
    {
        self.hives.len()
    }

    /// A hive, as its lock held it: whole, with a legal journal of which it is the replay, and with as many entries as its sessions' rows
    /// count together (clause `admitted`). What each session's ring was sent there, followed by what the hive keeps back for the session,
    /// is all that the session was told (clause `delivered`).
    pub fn hive(&self, hive: u8) -> &Hive<C>
        requires { hive < length self.now }
        ensures hive { slice_get self.now hive ≡ Some (held_of (lines_at self.now hive) result.now) }
        ensures admitted { IsAdmitted (booked_of result.now) }
        ensures delivered { AreDelivered (held_of (lines_at self.now hive) result.now) }
    {
        self.hives[hive as usize].hive()
    }

    /// How many changes a hive accepted, before its last checkpoint and since: the sum of its book's rows (clause `rows`).
    pub fn entries(&self, hive: u8) -> u64
        requires { hive < length self.now }
        ensures made { result ≡ made_at self.now hive }
        ensures rows { result ≡ rows_at self.now hive }
    {
        self.hive(hive).len() as u64
    }
}

/// Whether the sessions are those below `n`, in order.
pub(crate) fn are_in_order(sessions: &[Session], n: u8) -> bool
    ensures { IsTrue result ↔ AreInOrder n sessions.now }
{
    if sessions.len() != n as usize {
        return false;
    }
    for s in 0..sessions.len() {
        if sessions[s].number() as usize != s {
            return false;
        }
    }
    true
}

/// Takes the hives out of their locks.
fn opened<C: Callback>(registry: Registry<C>) -> Audit<C>
    ensures hives { length result ≡ registry.hives }
    ensures few { length result ≤ HIVES_LIMIT }
    ensures sessions { registry.sessions ≤ SESSIONS_LIMIT }
{
    let Registry {
        hives: locks,
        room,
        sessions: _,
    } = registry;
    let mut hives = room.into_inner().into_hives();
    for lock in locks {
        hives.push_reserved(lock.into_inner().into_inner());
    }
    Audit { hives }
}

/// A difference at a hive.
fn spot_of(hive: u8, gap: Gap, kept: Kept) -> Spot
    ensures { result ≡ record { hive = hive; session = gap.session; place = gap.place; kept = kept } }
{
    Spot {
        hive,
        session: gap.session,
        place: gap.place as u64,
        kept,
    }
}

/// The first difference at a hive.
#[tactic(auto, using(crate::proofs::Totals::audited))]
fn first_at<C: Callback>(audit: &Audit<C>, hive: u8, sessions: &[Session]) -> Option<Spot>
    requires few { length sessions.now ≤ SESSIONS_LIMIT }
    requires hive { hive < length audit.now }
    ensures some { IfSome result (λ spot. IsMismatch audit.now sessions.now spot.hive spot.session spot.place spot.kept) }
    ensures none { IfNone result (IsAudited audit.now sessions.now hive) }
{
    if let Some(gap) = first_gap(audit.hive(hive), hive, sessions) {
        return Some(spot_of(hive, gap, Kept::Receipt));
    }
    let gap = first_stray(audit.hive(hive), hive, sessions)?;
    Some(spot_of(hive, gap, Kept::Notice))
}

/// The first difference.
fn first_spot<C: Callback>(audit: &Audit<C>, sessions: &[Session]) -> Option<Spot>
    requires sessions { length sessions.now ≤ SESSIONS_LIMIT }
    requires hives { length audit.now ≤ HIVES_LIMIT }
    ensures some { IfSome result (λ spot. IsMismatch audit.now sessions.now spot.hive spot.session spot.place spot.kept) }
    ensures none { IfNone result ((h : ℕ) → h < length audit.now → IsAudited audit.now sessions.now h) }
{
    for h in 0..audit.hives() {
        if let Some(spot) = first_at(audit, h as u8, sessions) {
            return Some(spot);
        }
    }
    None
}

/// Takes the hives out of their locks, and compares each journal with the receipts of all sessions. Where it is Ok, each journal holds of
/// each session just the accepted changes since the last checkpoint that the session has receipts of, in order, and no others. `Sessions`
/// exactly where the list isn't that of the sessions that were started, in order; it hands all back. Else `Mismatch` where a receipt and
/// its entry differ, or one is missing, or where a notice that was taken isn't the one that was told. Where it is Ok, each session took the
/// first of the notices that each hive told it, in order. Takes no memory.
pub fn gather<C: Callback>(
    registry: Registry<C>,
    sessions: Vec<Session>,
) -> Result<Audit<C>, GatherFault<C>>
    ensures ok { IfOk result (λ audit. (length audit ≡ registry.hives) × ((h : ℕ) → h < length audit → IsAudited audit sessions.items h)) }
    ensures order { IfOk result (λ audit. AreInOrder registry.sessions sessions.items) }
    ensures err { IfErr result (IsDue registry sessions.items) }
{
    if !are_in_order(sessions.as_slice(), registry.sessions) {
        return Err(GatherFault::Sessions { registry, sessions });
    }
    let audit = opened(registry);
    match first_spot(&audit, sessions.as_slice()) {
        None => Ok(audit),
        Some(spot) => Err(GatherFault::Mismatch {
            hive: spot.hive,
            session: spot.session,
            place: spot.place,
            kept: spot.kept,
            audit,
        }),
    }
}
