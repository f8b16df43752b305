//! A hive with the shares of all its sessions, for those who call it by a session's number.
ghost use Rattle.std.specs.Prelude.{◌≡◌, ◌≢◌, ◌⊎◌, ◌↔◌, ◌<◌, ◌-◌, [], ℕ, true, length, replicate, slice_index, IfErr, IfOk, IsErrOf, OnErr, OnOk, None, Some};
ghost use Rattle.reg_model.specs.declared.limits.TheConstants.{SESSIONS_LIMIT};
ghost use Rattle.reg_callbacks.specs.Rows.{is_falling};
ghost use Rattle.reg_callbacks.specs.Lists.{altitudes_of};
ghost use Rattle.reg_calls.specs.HiveView.{view_of, noted_of, callbacks_of, asks_of};
ghost use Rattle.reg_journal.specs.Kept.{row_of};
ghost use Rattle.reg_calls.specs.Cuts.{fault_of_cut, IsCut};
ghost use Rattle.reg_calls.specs.Views.{next_of, state, IsApplied, IsNoticeTaken, IsRead};
ghost use Rattle.reg_calls.specs.Rooms.{IsValueRead, IsKeyRead};
ghost use Rattle.reg_calls.specs.Seats.{AreSeated};

use crate::cut::CutFault;
use crate::enum_key::KeyTold;
use crate::hive::Hive;
use crate::query_value::ValueTold;
use reg_callbacks::Callback;
use reg_journal::{SeatFault, Share};
use reg_model::{Answer, Bytes, Change, ChangeReply, Notice, Query};

/// Answers a change of a session, below 64, as [`Hive::apply`] does, by its share among those of all sessions. The share is current: 1009
/// comes only where a callback answers it.
pub fn apply_by<C: Callback>(
    hive: &mut Hive<C>,
    shares: &mut Vec<Share>,
    session: u8,
    moment: u64,
    change: Change,
) -> ChangeReply
    requires seated { AreSeated (noted_of hive.old) (view_of hive.old).journal shares.old.items }
    requires session { session < SESSIONS_LIMIT }
    ensures order { is_falling (altitudes_of (callbacks_of hive.old)) ≡ true }
    ensures callbacks { callbacks_of hive.new ≡ callbacks_of hive.old }
    ensures noted { noted_of hive.new ≡ noted_of hive.old }
    ensures applied { IsApplied (asks_of C.answers hive.old) (view_of hive.old) (view_of hive.new) session moment change result }
    ensures seated { AreSeated (noted_of hive.new) (view_of hive.new).journal shares.new.items }
{
    hive.apply(&mut shares[session as usize], moment, change)
}

/// Answers a question of a session, below 64, as [`Hive::read`] does, by its share among those of all sessions.
pub fn read_by<C: Callback>(
    hive: &Hive<C>,
    shares: &Vec<Share>,
    session: u8,
    query: &Query,
) -> Answer
    requires seated { AreSeated (noted_of hive.now) (view_of hive.now).journal shares.now.items }
    requires session { session < SESSIONS_LIMIT }
    ensures order { is_falling (altitudes_of (callbacks_of hive.now)) ≡ true }
    ensures at { result.at ≡ next_of (view_of hive.now) }
    ensures body { IsRead (asks_of C.answers hive.now) (state (view_of hive.now)) session query.now result.body }
{
    hive.read(&shares[session as usize], query)
}

/// Answers a question for a value of a session, below 64, as [`Hive::read_value`] does, by its share among those of all sessions.
fn read_value_by<C: Callback>(
    hive: &Hive<C>,
    shares: &Vec<Share>,
    session: u8,
    handle: u64,
    name: Bytes,
    room: &mut [u8],
) -> ValueTold
    requires seated { AreSeated (noted_of hive.now) (view_of hive.now).journal shares.now.items }
    requires session { session < SESSIONS_LIMIT }
    ensures { IsValueRead (asks_of C.answers hive.now) (state (view_of hive.now)) session handle name result room.old room.new }
{
    hive.read_value(&shares[session as usize], handle, name, room)
}

/// Answers a question for a subkey of a session, below 64, as [`Hive::read_subkey`] does, by its share among those of all sessions.
fn read_subkey_by<C: Callback>(
    hive: &Hive<C>,
    shares: &Vec<Share>,
    session: u8,
    handle: u64,
    index: u32,
    room: &mut [u8],
) -> KeyTold
    requires seated { AreSeated (noted_of hive.now) (view_of hive.now).journal shares.now.items }
    requires session { session < SESSIONS_LIMIT }
    ensures { IsKeyRead (asks_of C.answers hive.now) (state (view_of hive.now)) session handle index result room.old room.new }
{
    hive.read_subkey(&shares[session as usize], handle, index, room)
}

/// A hive with the shares of its 64 sessions: their calls name the session, whose share is current.
#[derive(Drop)]
pub struct SeatedHive<C = Box<dyn Callback + Send>> {
    pub hive: Hive<C>,
    /// Each session's share in its place.
    pub shares: Vec<Share>,
    ghost seated: { AreSeated (noted_of hive) (view_of hive).journal shares.items },
}

impl<C: Callback> SeatedHive<C> {
    /// Seats all 64 sessions at a hive. `Seated` exactly where it gave seats before, else `Memory`; the hive is dropped then.
    pub fn new(hive: Hive<C>) -> Result<SeatedHive<C>, SeatFault>
        ensures hive { IfOk result (λ seated. view_of seated.hive ≡ view_of hive) }
        ensures noted { IfOk result (λ seated. noted_of seated.hive ≡ replicate SESSIONS_LIMIT 0) }
        ensures callbacks { IfOk result (λ seated. callbacks_of seated.hive ≡ callbacks_of hive) }
        ensures again { IsErrOf result SeatFault.Seated ↔ (noted_of hive ≢ []) }
        ensures err { IfErr result (λ fault. (fault ≡ SeatFault.Seated) ⊎ (fault ≡ SeatFault.Memory)) }
    {
        let mut hive = hive;
        let shares = hive.seat(64)?;
        Ok(SeatedHive { hive, shares })
    }

    /// Answers a change of a session, below 64, at a moment (100 ns units since 1601), as [`Hive::apply`] does.
    pub fn apply(&mut self, session: u8, moment: u64, change: Change) -> ChangeReply
        requires { session < SESSIONS_LIMIT }
        ensures order { is_falling (altitudes_of (callbacks_of self.old.hive)) ≡ true }
        ensures callbacks { callbacks_of self.new.hive ≡ callbacks_of self.old.hive }
        ensures noted { noted_of self.new.hive ≡ noted_of self.old.hive }
        ensures applied { IsApplied (asks_of C.answers self.old.hive) (view_of self.old.hive) (view_of self.new.hive) session moment change result }
    {
        apply_by(&mut self.hive, &mut self.shares, session, moment, change)
    }

    /// Answers a question of a session, below 64, as [`Hive::read`] does.
    pub fn read(&self, session: u8, query: &Query) -> Answer
        requires { session < SESSIONS_LIMIT }
        ensures order { is_falling (altitudes_of (callbacks_of self.now.hive)) ≡ true }
        ensures at { result.at ≡ next_of (view_of self.now.hive) }
        ensures body { IsRead (asks_of C.answers self.now.hive) (state (view_of self.now.hive)) session query.now result.body }
    {
        read_by(&self.hive, &self.shares, session, query)
    }

    /// Answers a QueryValue of a session, below 64, for a value of that name, as [`Hive::read_value`] does.
    pub fn read_value(&self, session: u8, handle: u64, name: Bytes, room: &mut [u8]) -> ValueTold
        requires { session < SESSIONS_LIMIT }
        ensures told { IsValueRead (asks_of C.answers self.now.hive) (state (view_of self.now.hive)) session handle name result room.old room.new }
    {
        read_value_by(&self.hive, &self.shares, session, handle, name, room)
    }

    /// Answers an EnumKey of a session, below 64, for the subkey at an index, as [`Hive::read_subkey`] does.
    pub fn read_subkey(&self, session: u8, handle: u64, index: u32, room: &mut [u8]) -> KeyTold
        requires { session < SESSIONS_LIMIT }
        ensures told { IsKeyRead (asks_of C.answers self.now.hive) (state (view_of self.now.hive)) session handle index result room.old room.new }
    {
        read_subkey_by(&self.hive, &self.shares, session, handle, index, room)
    }

    /// Hands a session its next notice, as [`Hive::take_notice`] does.
    pub fn take_notice(&mut self, session: u8) -> Option<Notice>
        ensures notice { IsNoticeTaken (view_of self.old.hive) (view_of self.new.hive) session result }
        ensures noted { noted_of self.new.hive ≡ noted_of self.old.hive }
        ensures callbacks { callbacks_of self.new.hive ≡ callbacks_of self.old.hive }
    {
        self.hive.take_notice(session)
    }

    /// Has the journal begin anew, as [`Hive::cut`] does. Each session's share stays current.
    pub fn cut(&mut self) -> Result<u64, CutFault>
        ensures count { IfOk result (λ count. count ≡ length (view_of self.old.hive).journal) }
        ensures cut { OnOk result (IsCut (view_of self.old.hive) (view_of self.new.hive)) }
        ensures seats { length (noted_of self.new.hive) ≡ length (noted_of self.old.hive) }
        ensures noted { OnOk result ((session : ℕ) →
            slice_index (noted_of self.new.hive) session ≡ row_of (noted_of self.old.hive) (view_of self.old.hive).journal session) }
        ensures callbacks { callbacks_of self.new.hive ≡ callbacks_of self.old.hive }
        ensures clear { OnOk result (fault_of_cut (view_of self.old.hive) ≡ None) }
        ensures fault { IfErr result (λ fault. fault_of_cut (view_of self.old.hive) ≡ Some fault) }
        ensures err { OnErr result (self.new.hive ≡ self.old.hive) }
    {
        self.hive.cut()
    }
}
