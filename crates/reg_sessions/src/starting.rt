ghost use Rattle.std.specs.Prelude.{◌≡◌, ◌+◌, ◌<◌, ◌≤◌, ◌↔◌, ◌⊎◌, ℕ, [], map, length, IfOk, IsErrOf, IsTrue, OnOk, vec_len};
ghost use Rattle.reg_model.specs.declared.limits.TheConstants.{SESSIONS_LIMIT};
ghost use Rattle.reg_sessions.specs.declared.registry.TheConstants.{HIVES_LIMIT};
ghost use Rattle.std.specs.List.{range_with_len};
ghost use Rattle.reg_journal.specs.Kept.{seat};
ghost use Rattle.reg_calls.specs.HiveView.{view_of};
ghost use Rattle.reg_calls.specs.Views.{told_in};
ghost use Rattle.reg_sessions.specs.Internal.Moved.{AreSilent, HasSeats};
ghost use Rattle.reg_sessions.specs.Locked.{booked_of, IsAdmitted, IsUnused, AreUnused};
ghost use Rattle.reg_sessions.specs.Sessions.{IsFresh, AreFresh, AreInOrder, session_of};

use crate::lines::Line;
use crate::locked::Locked;
use crate::place::Place;
use crate::registry::{HIVES_LIMIT, Registry, Room};
use crate::session::Session;
use crossbeam_utils::CachePadded;
use reg_callbacks::Callback;
use reg_calls::Hive;
use reg_journal::Share;
use reg_model::limits::SESSIONS_LIMIT;
use reg_outbox::{Inbox, OutboxFault, outbox};
use std::alloc::{AllocError, Global};
use std::sync::Mutex;
use thiserror::Error;

/// Why no sessions were started; the first that holds.
#[derive(Clone, Copy, Debug, PartialEq, Eq, Error)]
pub enum StartFault {
    /// There is no hive, or there are more than 16.
    #[error("no hive, or more than 16")]
    Hives,
    /// No session was asked for, or more than 64 were.
    #[error("no session, or more than 64")]
    Sessions,
    /// A hive gave seats before, or has an entry.
    #[error("a hive was used before")]
    Used,
    /// A growth was refused.
    #[error("no memory")]
    Memory,
}

impl From<AllocError> for StartFault {
    ghost use Rattle.reg_sessions.specs.declared.starting.StartFault.TheVariants.{Memory};

    ghost from_gives = { λ _ fault. fault ≡ Memory };

    fn from(_fault: AllocError) -> StartFault {
        StartFault::Memory
    }
}

/// The sessions below `n`, which have no seat yet.
#[tactic(auto, using(crate::proofs::Starts::fresh_more, crate::proofs::Starts::fresh_new))]
fn fresh_sessions(alloc: Global, n: u8) -> Result<Vec<Session>, AllocError>
    ensures { IfOk result (λ v. (vec_len v ≡ n) × AreFresh 0 0 v.items) }
{
    let mut all = Vec::with_capacity(alloc, n as usize)?;
    for number in 0..n {
        all.push(Session::new(alloc, number))?;
    }
    Ok(all)
}

/// Gives the sessions below `n` seats at a hive, which has told nobody anything.
#[tactic(auto, using(crate::proofs::Admitted::admitted_new, crate::proofs::Admitted::has_seats, crate::proofs::Rings::nothing_told))]
fn seats<C: Callback>(hive: &mut Hive<C>, n: u8) -> Result<Vec<Share>, AllocError>
    ensures shares { IfOk result (λ shares. shares.items ≡ map (λ s. seat s 0) (range_with_len 0 n)) }
    ensures admitted { OnOk result (IsAdmitted (booked_of hive.new)) }
    ensures silent { OnOk result ((s : ℕ) → told_in (view_of hive.new) s ≡ []) }
    ensures seats { OnOk result (HasSeats hive.new n) }
{
    // Only for its clauses: what is true of every hive, and that no session was told anything before its first entry of all.
    let _ = hive.len();
    match hive.seat(n) {
        Ok(shares) => Ok(shares),
        Err(_) => Err(AllocError),
    }
}

/// A ring, with its two ends.
fn ring(alloc: Global) -> Result<(Line, Inbox), AllocError>
    ensures line { IfOk result (λ ends. ends.0.sent ≡ []) }
    ensures kept { IfOk result (λ ends. ends.0.kept ≡ 0) }
    ensures inbox { IfOk result (λ ends. ends.1 ≡ record { received = []; waiting = [] }) }
{
    match outbox(alloc) {
        Ok((outbox, inbox)) => Ok((Line::new(outbox), inbox)),
        Err(OutboxFault::Memory) => Err(AllocError),
    }
}

/// Gives each of so many sessions its seat at a hive, which gets this number, with its end of a ring. Answers the other ends, in order.
fn rings(
    alloc: Global,
    shares: Vec<Share>,
    n: usize,
    number: u8,
    sessions: &mut Vec<Session>,
) -> Result<Vec<Line>, AllocError>
    requires len { vec_len sessions.old ≡ n }
    requires shares { shares.items ≡ map (λ s. seat s 0) (range_with_len 0 n) }
    requires fresh { AreFresh number 0 sessions.old.items }
    ensures len { vec_len sessions.new ≡ n }
    ensures fresh { OnOk result (AreFresh (number + 1) 0 sessions.new.items) }
    ensures silent { IfOk result (λ lines. AreSilent lines.items) }
    ensures lines { IfOk result (λ lines. length lines.items ≡ n) }
{
    let mut lines = Vec::with_capacity(alloc, n)?;
    let mut at = 0;
    for share in shares {
        let (line, inbox) = ring(alloc)?;
        sessions[at].add(Place::new(alloc, share, inbox))?;
        lines.push(line)?;
        at += 1;
    }
    Ok(lines)
}

/// Seats all sessions at a hive, which gets this number, with a ring for each.
fn seated<C: Callback>(
    alloc: Global,
    hive: Hive<C>,
    number: u8,
    sessions: &mut Vec<Session>,
) -> Result<Locked<C>, AllocError>
    requires few { vec_len sessions.old ≤ SESSIONS_LIMIT }
    requires fresh { AreFresh number 0 sessions.old.items }
    ensures len { vec_len sessions.new ≡ vec_len sessions.old }
    ensures fresh { OnOk result (AreFresh (number + 1) 0 sessions.new.items) }
{
    let mut hive = hive;
    let n = sessions.len();
    let shares = seats(&mut hive, n as u8)?;
    let lines = rings(alloc, shares, n, number, sessions)?;
    Ok(Locked { hive, lines })
}

/// Whether a hive has no entry, and has given no seats.
fn is_unused<C: Callback>(hive: &Hive<C>) -> bool
    ensures { IsTrue result ↔ IsUnused hive.now }
{
    hive.len() == 0 && hive.seats() == 0
}

/// Whether all hives are so.
fn are_unused<C: Callback>(hives: &[Hive<C>]) -> bool
    ensures { IsTrue result ↔ AreUnused hives.now }
{
    for i in 0..hives.len() {
        if !is_unused(&hives[i]) {
            return false;
        }
    }
    true
}

/// Puts each hive behind a lock, and seats all sessions there.
fn locked<C: Callback>(
    alloc: Global,
    hives: Vec<Hive<C>>,
    sessions: &mut Vec<Session>,
) -> Result<Vec<CachePadded<Mutex<Locked<C>>>>, AllocError>
    requires few { (vec_len sessions.old ≤ SESSIONS_LIMIT) × (vec_len hives ≤ HIVES_LIMIT) }
    requires fresh { AreFresh 0 0 sessions.old.items }
    ensures len { vec_len sessions.new ≡ vec_len sessions.old }
    ensures locks { IfOk result (λ v. vec_len v ≡ vec_len hives) }
    ensures fresh { OnOk result (AreFresh (vec_len hives) 0 sessions.new.items) }
{
    let mut locks = Vec::new(alloc);
    locks.reserve(hives.len())?;
    let mut number = 0u8;
    for hive in hives {
        let locked = seated(alloc, hive, number, sessions)?;
        locks.push_reserved(CachePadded::new(Mutex::new(locked)));
        number += 1;
    }
    Ok(locks)
}

/// Puts hives behind locks, and starts the sessions below `n`, each with a seat and a ring at each hive, no receipt, and marks of 0. The
/// hives get the numbers from 0 on, in order. `Hives` where there is none or more than 16, else `Sessions` where `n` is 0 or above 64, else
/// `Used` where a hive gave seats before or has an entry, else `Memory`; the hives are dropped then.
#[tactic(auto, using(crate::proofs::Starts::in_order, crate::proofs::Starts::each_fresh))]
pub fn start<C: Callback>(
    alloc: Global,
    hives: Vec<Hive<C>>,
    n: u8,
) -> Result<(Registry<C>, Vec<Session>), StartFault>
    ensures registry { IfOk result (λ r. r.0 ≡ record { hives = vec_len hives; sessions = n }) }
    ensures sessions { IfOk result (λ r. AreInOrder n r.1.items) }
    ensures fresh { IfOk result (λ r. (s : ℕ) → s < n → IsFresh s (vec_len hives) (session_of r.1.items s)) }
    ensures hives { IsErrOf result StartFault.Hives ↔ ((vec_len hives ≡ 0) ⊎ (HIVES_LIMIT < vec_len hives)) }
    ensures count { IsErrOf result StartFault.Sessions ↔ ((0 < vec_len hives) × (vec_len hives ≤ HIVES_LIMIT) × ((n ≡ 0) ⊎ (SESSIONS_LIMIT < n))) }
    ensures used { IsErrOf result StartFault.Used
        ↔ ((0 < vec_len hives) × (vec_len hives ≤ HIVES_LIMIT) × (0 < n) × (n ≤ SESSIONS_LIMIT) × (AreUnused hives.items → ⊥)) }
{
    if hives.is_empty() || hives.len() > HIVES_LIMIT {
        return Err(StartFault::Hives);
    }
    if n == 0 || n as usize > SESSIONS_LIMIT {
        return Err(StartFault::Sessions);
    }
    if !are_unused(hives.as_slice()) {
        return Err(StartFault::Used);
    }
    let room = Room::new(alloc)?;
    let mut sessions = fresh_sessions(alloc, n)?;
    let hives = locked(alloc, hives, &mut sessions)?;
    let registry = Registry {
        hives,
        room: Mutex::new(room),
        sessions: n,
    };
    Ok((registry, sessions))
}
