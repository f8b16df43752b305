//! The two ends of a ring.
ghost use Rattle.std.specs.Prelude.{◌≡◌, ◌≢◌, ◌⊎◌, ℕ, [], ◌∷◌, ◌++◌, IfSome, IfNone};
ghost use mathlib.Core.List.{IsPrefix};
ghost use Rattle.rtrb.specs.Ring.{sent, known_free, received, known_items};
ghost use Rattle.reg_calls.specs.HiveView.{view_of, noted_of, callbacks_of};
ghost use Rattle.reg_outbox.specs.Rings.{IsAhead, IsHandedOut, backlog_of};

use reg_callbacks::Callback;
use reg_calls::Hive;
use reg_model::Notice;
use rtrb::{Consumer, Producer};
use std::marker::Model;

/// How many notices a ring has room for.
pub const RING_ROOM: usize = 64;

/// The end under the hive's lock: notices are sent into it.
#[derive(Drop)]
pub struct Outbox {
    producer: Producer<Notice>,
}

impl Model for Outbox {
    ghost use Rattle.rtrb.specs.Ring.{sent, known_free};
    ghost use Rattle.reg_outbox.specs.Rings.{RingState};

    ghost Value = { RingState };

    ghost view = { λ o. record { sent = sent o.producer; free = known_free o.producer } };
}

/// The end in the session: notices are taken from it, in the order in which they were sent.
#[derive(Drop)]
pub struct Inbox {
    consumer: Consumer<Notice>,
}

impl Model for Inbox {
    ghost use Rattle.rtrb.specs.Ring.{received, known_items};
    ghost use Rattle.reg_outbox.specs.Rings.{InboxState};

    ghost Value = { InboxState };

    ghost view = { λ i. record { received = received i.consumer; waiting = known_items i.consumer } };
}

impl Outbox {
    /// The end of a ring.
    pub(crate) fn new(producer: Producer<Notice>) -> Outbox
        ensures { result ≡ record { sent = sent producer; free = known_free producer } }
    {
        Outbox { producer }
    }

    /// Moves what a hive keeps back for a session into the ring, from the front, until nothing is left or the ring is full. Answers how
    /// many notices were moved. Takes no memory.
    pub fn refill<C: Callback>(&mut self, hive: &mut Hive<C>, session: u8) -> u64
        ensures moved { IsHandedOut session result (view_of hive.old) (view_of hive.new) }
        ensures front { self.new.sent ++ backlog_of session (view_of hive.new) ≡ self.old.sent ++ backlog_of session (view_of hive.old) }
        ensures ahead { IsAhead self.old.sent session (view_of hive.old) → IsAhead self.new.sent session (view_of hive.new) }
        ensures stops { (backlog_of session (view_of hive.new) ≡ []) ⊎ (self.new.free ≡ 0) }
        ensures noted { noted_of hive.new ≡ noted_of hive.old }
        ensures callbacks { callbacks_of hive.new ≡ callbacks_of hive.old }
    {
        let kept = hive.kept(session);
        let mut moved = 0;
        while moved < kept {
            if self.producer.is_full() {
                return moved;
            }
            let Some(notice) = hive.take_notice(session) else {
                return moved;
            };
            self.producer.push_reserved(notice);
            moved += 1;
        }
        moved
    }

    /// Moves what a call told a session, where nothing was kept back for it before that call: what [`Outbox::refill`] moves. Where `kept`
    /// notices were kept back, it moves none and answers 0, since those come first. Takes no memory.
    pub fn push_or_keep<C: Callback>(&mut self, hive: &mut Hive<C>, session: u8, kept: u64) -> u64
        ensures moved { IsHandedOut session result (view_of hive.old) (view_of hive.new) }
        ensures front { self.new.sent ++ backlog_of session (view_of hive.new) ≡ self.old.sent ++ backlog_of session (view_of hive.old) }
        ensures ahead { IsAhead self.old.sent session (view_of hive.old) → IsAhead self.new.sent session (view_of hive.new) }
        ensures stops { kept ≡ 0 → (backlog_of session (view_of hive.new) ≡ []) ⊎ (self.new.free ≡ 0) }
        ensures still { kept ≢ 0 → (result ≡ 0) × (hive.new ≡ hive.old) × (self.new ≡ self.old) }
        ensures noted { noted_of hive.new ≡ noted_of hive.old }
        ensures callbacks { callbacks_of hive.new ≡ callbacks_of hive.old }
    {
        if kept == 0 {
            self.refill(hive, session)
        } else {
            0
        }
    }
}

impl Inbox {
    /// The end of a ring.
    pub(crate) fn new(consumer: Consumer<Notice>) -> Inbox
        ensures { result ≡ record { received = received consumer; waiting = known_items consumer } }
    {
        Inbox { consumer }
    }

    /// The oldest notice in the ring; `None` where it is empty, and so never where one is known to wait. Takes no lock and no memory.
    pub fn pop(&mut self) -> Option<Notice>
        ensures some { IfSome result (λ notice. self.new.received ≡ self.old.received ++ notice ∷ []) }
        ensures next { IfSome result (λ notice. IsPrefix self.old.waiting (notice ∷ self.new.waiting)) }
        ensures none { IfNone result ((self.new ≡ self.old) × (self.old.waiting ≡ [])) }
    {
        self.consumer.pop().ok()
    }
}
