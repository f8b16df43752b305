//! A hive's image, behind which its journal begins anew: it is compared with the receipts of all sessions, and these are dropped.
ghost use Rattle.std.specs.Prelude.{◌≡◌, ◌<◌, ◌≤◌, ℕ, Some, List, IfErr, IfOk, OnErr, OnOk, length, slice_index};
ghost use Rattle.reg_model.specs.declared.limits.TheConstants.{SESSIONS_LIMIT};
ghost use Rattle.reg_journal.specs.Kept.{row_of};
ghost use Rattle.reg_calls.specs.Cuts.{fault_of_cut, IsCut};
ghost use Rattle.reg_calls.specs.Views.{Booked};
ghost use Rattle.reg_sessions.specs.Checkpoints.{IsCheckpoint, IsCheckpointAt, IsCutDue, IsRefused};
ghost use Rattle.reg_sessions.specs.Locked.{IsAdmitted, HaveSameCallbacks, book_of};
ghost use Rattle.reg_sessions.specs.Sessions.{SessionState, IsDropped, session_of};

use crate::compare::first_gap;
use crate::gathering::are_in_order;
use crate::locked::Locked;
use crate::registry::Registry;
use crate::session::Session;
use reg_callbacks::Callback;
use reg_calls::CutFault;
use reg_image::checkpoint;
use std::alloc::Global;
use std::sync::Wait;
use thiserror::Error;

/// Why no checkpoint was made; the first that holds.
#[derive(Clone, Copy, Debug, PartialEq, Eq, Error)]
pub enum RegistryCutFault {
    /// The list isn't that of all sessions that were started, in order.
    #[error("not all sessions, in order")]
    Sessions,
    /// So many handles are open at the hive.
    #[error("{count} handles are open")]
    HandlesOpen { count: u32 },
    /// The hive has had more than 10^18 entries.
    #[error("more than 10^18 entries")]
    Numbers,
    /// A session's receipt at this place (from 0 on) and the entry at the same place among the session's entries in the hive's journal
    /// differ, or one of them is missing.
    #[error("session {session}: its receipt {place} differs")]
    Mismatch { session: u8, place: u64 },
    /// There is no memory for the image.
    #[error("no memory")]
    Memory,
}

/// The fault where a journal can't begin anew.
fn told(fault: CutFault) -> RegistryCutFault
    ensures { (hive : Booked) (h : ℕ) (sessions : List SessionState) → fault_of_cut hive.view ≡ Some fault → IsCutDue hive h sessions result }
{
    match fault {
        CutFault::HandlesOpen { count } => RegistryCutFault::HandlesOpen { count },
        CutFault::Numbers => RegistryCutFault::Numbers,
    }
}

impl<C: Callback> Locked<C> {
    /// The image of the hive, which has this number, once its journal was compared with the sessions' receipts; the journal begins anew.
    fn checkpoint(
        &mut self,
        alloc: Global,
        number: u8,
        sessions: &[Session],
        moment: u64,
        sequence: u32,
    ) -> Result<Vec<u8>, RegistryCutFault>
        requires { length sessions.now ≤ SESSIONS_LIMIT }
        ensures admitted { IsAdmitted (book_of self.old) }
        ensures ok { IfOk result (λ image. IsCheckpoint (book_of self.old) number sessions.now moment sequence image.items) }
        ensures cut { OnOk result (IsCut self.old.view self.new.view) }
        ensures rows { OnOk result ((session : ℕ) → slice_index self.new.noted session ≡ row_of self.old.noted self.old.view.journal session) }
        ensures callbacks { HaveSameCallbacks self.old self.new }
        ensures err { IfErr result (IsCutDue (book_of self.old) number sessions.now) }
        ensures still { OnErr result (self.new ≡ self.old) }
    {
        match self.hive.cut_fault() {
            Some(fault) => return Err(told(fault)),
            None => {}
        }
        if let Some(gap) = first_gap(&self.hive, number, sessions) {
            return Err(RegistryCutFault::Mismatch {
                session: gap.session,
                place: gap.place as u64,
            });
        }
        let Ok(image) = checkpoint(alloc, &mut self.hive, moment, sequence) else {
            return Err(RegistryCutFault::Memory);
        };
        Ok(image)
    }
}

/// Drops the receipts of all sessions at a hive.
fn drop_receipts(sessions: &mut [Session], hive: u8)
    ensures count { length sessions.new ≡ length sessions.old }
    ensures dropped { (s : ℕ) → s < length sessions.old → IsDropped hive (session_of sessions.old s) (session_of sessions.new s) }
{
    for s in 0..sessions.len() {
        sessions[s].drop_receipts(hive);
    }
}

impl<C: Callback> Registry<C> {
    /// The image of a hive, with a moment (100 ns units since 1601) and a sequence number, as `image` of reg_image makes it; and the hive's
    /// journal begins anew with the tree as it stands, as `Hive::cut` of reg_calls says. It waits for the hive's lock, and holds it until
    /// the image is made. Before, the journal is compared with the receipts of all sessions, as [`gather`](crate::gather) does; these
    /// are dropped. Numbers, marks and shares go on, and notices that weren't taken still come.
    ///
    /// `Sessions` where the list isn't that of all sessions that were started, in order; else `HandlesOpen` where handles are open at the
    /// hive; else `Numbers` where it has had more than 10^18 entries; else `Mismatch` where a receipt and its entry differ, or one is
    /// missing; else `Memory`. Then nothing changed.
    pub fn checkpoint<Rt: Wait>(
        &self,
        rt: &Rt,
        alloc: Global,
        hive: u8,
        sessions: &mut [Session],
        moment: u64,
        sequence: u32,
    ) -> Result<Vec<u8>, RegistryCutFault>
        requires { hive < self.now.hives }
        ensures ok { IfOk result (λ image. IsCheckpointAt self.now hive sessions.old moment sequence image.items) }
        ensures count { length sessions.new ≡ length sessions.old }
        ensures dropped { OnOk result ((s : ℕ) → s < length sessions.old → IsDropped hive (session_of sessions.old s) (session_of sessions.new s)) }
        ensures err { IfErr result (IsRefused self.now hive sessions.old) }
        ensures still { OnErr result (sessions.new ≡ sessions.old) }
    {
        if !are_in_order(sessions, self.sessions) {
            return Err(RegistryCutFault::Sessions);
        }
        let mut guard = self.lock(hive).lock(rt);
        let image = guard.checkpoint(alloc, hive, sessions, moment, sequence)?;
        drop(guard);
        drop_receipts(sessions, hive);
        Ok(image)
    }
}
