//! The rings by which what a hive tells its sessions goes to them.
ghost use Rattle.std.specs.Prelude.{◌≡◌, ◌≢◌, ◌≤◌, [], length, IfOk};
ghost use Rattle.reg_calls.specs.HiveView.{view_of, noted_of, callbacks_of};
ghost use Rattle.reg_outbox.specs.Rings.{IsAhead};
ghost use Rattle.reg_sessions.specs.Locked.{AreAhead, IsLine};
ghost use Rattle.reg_sessions.specs.Internal.Moved.{AreHandedOut, AreMoved, AreSentFrom, IsSent};

use reg_callbacks::Callback;
use reg_calls::Hive;
use reg_outbox::Outbox;
use std::marker::Model;

/// The end of a session's ring that stands with the hive, and how many notices the hive kept back for the session when the ring was
/// last filled.
#[derive(Drop)]
pub struct Line {
    outbox: Outbox,
    kept: u64,
}

impl Model for Line {
    ghost use Rattle.reg_sessions.specs.Locked.{LineState};

    ghost Value = { LineState };

    ghost view = { λ l. record { sent = l.outbox.sent; free = l.outbox.free; kept = l.kept } };
}

impl Line {
    /// The line of a ring into which nothing was sent.
    pub fn new(outbox: Outbox) -> Line
        ensures { result ≡ record { sent = outbox.sent; free = outbox.free; kept = 0 } }
    {
        Line { outbox, kept: 0 }
    }

    /// Moves on what the hive keeps back for the session, as far as the ring has room.
    pub fn refill<C: Callback>(&mut self, hive: &mut Hive<C>, session: u8)
        requires ahead { IsAhead self.old.sent session (view_of hive.old) }
        ensures moved { AreHandedOut session (view_of hive.old) (view_of hive.new) }
        ensures line { IsLine self.new session (view_of hive.new) }
        ensures noted { noted_of hive.new ≡ noted_of hive.old }
        ensures callbacks { callbacks_of hive.new ≡ callbacks_of hive.old }
    {
        let _ = self.outbox.refill(hive, session);
        self.kept = hive.kept(session);
    }

    /// Moves on what a call told the session, if nothing was kept back for it before.
    pub fn push<C: Callback>(&mut self, hive: &mut Hive<C>, session: u8)
        requires sent { IsSent self.old session (view_of hive.old) }
        ensures moved { AreHandedOut session (view_of hive.old) (view_of hive.new) }
        ensures still { self.old.kept ≢ 0 → (view_of hive.new ≡ view_of hive.old) × (self.new.sent ≡ self.old.sent) }
        ensures line { IsLine self.new session (view_of hive.new) }
        ensures noted { noted_of hive.new ≡ noted_of hive.old }
        ensures callbacks { callbacks_of hive.new ≡ callbacks_of hive.old }
    {
        let _ = self.outbox.push_or_keep(hive, session, self.kept);
        self.kept = hive.kept(session);
    }
}

/// Moves on what a call told any session.
fn push_all<C: Callback>(hive: &mut Hive<C>, lines: &mut Vec<Line>)
    requires { AreSentFrom 0 lines.old.items (view_of hive.old) }
    ensures moved { AreMoved (view_of hive.old) (view_of hive.new) }
    ensures ahead { AreAhead lines.new.items (view_of hive.new) }
    ensures lines { length lines.new.items ≡ length lines.old.items }
    ensures noted { noted_of hive.new ≡ noted_of hive.old }
    ensures callbacks { callbacks_of hive.new ≡ callbacks_of hive.old }
{
    for s in 0..lines.len() {
        lines[s].push(hive, s as u8);
    }
}

/// Moves on what a call told any session, where so many watches were pending before it. A call tells sessions something exactly where it
/// ends some of these, so that otherwise no ring is looked at.
pub fn push_told<C: Callback>(hive: &mut Hive<C>, lines: &mut Vec<Line>, before: usize)
    requires sent { AreSentFrom 0 lines.old.items (view_of hive.old) }
    requires quiet { before ≤ length (view_of hive.old).watches.pending → AreAhead lines.old.items (view_of hive.old) }
    ensures moved { AreMoved (view_of hive.old) (view_of hive.new) }
    ensures ahead { AreAhead lines.new.items (view_of hive.new) }
    ensures lines { length lines.new.items ≡ length lines.old.items }
    ensures still { before ≤ length (view_of hive.old).watches.pending → (view_of hive.new ≡ view_of hive.old) × (lines.new.items ≡ lines.old.items) }
    ensures noted { noted_of hive.new ≡ noted_of hive.old }
    ensures callbacks { callbacks_of hive.new ≡ callbacks_of hive.old }
{
    if hive.pending() < before {
        push_all(hive, lines);
    }
}

/// Moves on what a hive keeps back for one session, if it has a ring.
pub fn refill_of<C: Callback>(hive: &mut Hive<C>, lines: &mut Vec<Line>, session: u8)
    requires { AreAhead lines.old.items (view_of hive.old) }
    ensures moved { AreHandedOut session (view_of hive.old) (view_of hive.new) }
    ensures ahead { AreAhead lines.new.items (view_of hive.new) }
    ensures lines { length lines.new.items ≡ length lines.old.items }
    ensures noted { noted_of hive.new ≡ noted_of hive.old }
    ensures callbacks { callbacks_of hive.new ≡ callbacks_of hive.old }
{
    let at = session as usize;
    if at < lines.len() {
        lines[at].refill(hive, session);
    }
}
