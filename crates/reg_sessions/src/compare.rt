//! A hive's journal beside the receipts of all sessions, and what it told them beside the notices that they took.
ghost use Rattle.std.specs.Prelude.{◌≡◌, ◌<◌, ◌≤◌, ◌↔◌, ℕ, length, take, IfNone, IfSome, IsTrue, Some, slice_get};
ghost use Rattle.reg_model.specs.Histories.{receipt_of};
ghost use Rattle.reg_model.specs.declared.limits.TheConstants.{SESSIONS_LIMIT};
ghost use Rattle.reg_calls.specs.HiveView.{view_of};
ghost use Rattle.reg_calls.specs.Views.{told_in};
ghost use Rattle.reg_sessions.specs.Gathering.{IsGathered, IsStray, Differ, taken_by};

use crate::session::Session;
use reg_callbacks::Callback;
use reg_calls::Hive;
use reg_model::limits::SESSIONS_LIMIT;
use reg_model::{Entry, Notice, Receipt};

/// Where a session's receipts and its entries differ first.
#[derive(Clone, Copy, Debug, PartialEq, Eq)]
pub struct Gap {
    pub session: u8,
    pub place: usize,
}

/// The entry at a place of a hive's journal.
fn entry_at<C: Callback>(hive: &Hive<C>, place: usize) -> &Entry
    requires { place < length (view_of hive.now).journal }
    ensures { Some result.now ≡ slice_get (view_of hive.now).journal place }
{
    &hive.entries()[place]
}

/// Whether the receipt at a place is that of an entry.
fn is_receipt(entry: &Entry, receipts: &[Receipt], place: usize) -> bool
    ensures { IsTrue result ↔ (slice_get receipts.now place ≡ Some (receipt_of entry.now)) }
{
    match receipts.get(place) {
        Some(receipt) => receipt.is_of(entry),
        None => false,
    }
}

/// Compares a hive's journal with the receipts of all sessions, in one pass with a place in each session's receipts.
#[tactic(auto, using(crate::proofs::Compared::small, crate::proofs::Compared::found, crate::proofs::Compared::starts, crate::proofs::Compared::goes_on, crate::proofs::Compared::stray, crate::proofs::Compared::differs, crate::proofs::Compared::is_short, crate::proofs::Compared::gathered))]
pub fn first_gap<C: Callback>(hive: &Hive<C>, number: u8, sessions: &[Session]) -> Option<Gap>
    requires { length sessions.now ≤ SESSIONS_LIMIT }
    ensures some { IfSome result (λ g. Differ (view_of hive.now).journal number sessions.now g.session g.place) }
    ensures none { IfNone result (IsGathered (view_of hive.now).journal number sessions.now) }
{
    let mut places = [0usize; SESSIONS_LIMIT];
    for i in 0..hive.entries().len() {
        let entry = entry_at(hive, i);
        let s = entry.session as usize;
        if s >= sessions.len() {
            return Some(Gap {
                session: entry.session,
                place: 0,
            });
        }
        if !is_receipt(entry, sessions[s].receipts(number), places[s]) {
            return Some(Gap {
                session: entry.session,
                place: places[s],
            });
        }
        places[s] += 1;
    }
    for s in 0..sessions.len() {
        if places[s] < sessions[s].receipts(number).len() {
            return Some(Gap {
                session: s as u8,
                place: places[s],
            });
        }
    }
    None
}

/// The first place at which the notices that a session took aren't those that it was told.
fn stray_in(taken: &[Notice], told: &[Notice]) -> Option<usize>
    ensures some { IfSome result (λ place. IsStray taken.now told.now place) }
    ensures none { IfNone result (take (length taken.now) told.now ≡ taken.now) }
{
    for place in 0..taken.len() {
        if told.get(place) != taken.get(place) {
            return Some(place);
        }
    }
    None
}

/// Compares the notices that the sessions took of a hive with those that it told them.
pub fn first_stray<C: Callback>(hive: &Hive<C>, number: u8, sessions: &[Session]) -> Option<Gap>
    requires { length sessions.now ≤ SESSIONS_LIMIT }
    ensures some { IfSome result (λ g. IsStray (taken_by sessions.now number g.session) (told_in (view_of hive.now) g.session) g.place) }
    ensures none { IfNone result ((s : ℕ) → s < length sessions.now →
        take (length (taken_by sessions.now number s)) (told_in (view_of hive.now) s) ≡ taken_by sessions.now number s) }
{
    for s in 0..sessions.len() {
        let session = s as u8;
        if let Some(place) = stray_in(sessions[s].taken(number), hive.fired(session)) {
            return Some(Gap { session, place });
        }
    }
    None
}
