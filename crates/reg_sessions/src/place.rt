//! What a session has at one hive.
ghost use Rattle.std.specs.Prelude.{◌≡◌, ◌≢◌, ◌+◌, ◌-◌, ◌^◌, ◌<◌, ◌≤◌, ◌==◌, ◌⊎◌, [], ◌∷◌, ◌++◌, ℕ, length, max, Some, false, true, IfNone, IfOk, IfSome, OnErr, OnOk, vec_len, vec_capacity, if◌then◌else◌};
ghost use Rattle.reg_model.specs.declared.answer.AnswerBody.TheVariants.{Refused};
ghost use Rattle.reg_model.specs.declared.statuses.TheConstants.{BAD_DATABASE, NOT_ENOUGH_MEMORY};
ghost use Rattle.reg_sessions.specs.Locked.{IsLawfulOrLacks, IsLawfulAnswer};
ghost use Rattle.reg_sessions.specs.Sessions.{PlaceState, notice_of, receipt_of, mark_after, mark_told, seat_of, status_told, closes as closes_of, watches as watches_of, notifies_after as notifies_told, handles_after as handles_told, without_receipts};
ghost use Rattle.std.specs.Option.{is_some};
ghost use mathlib.Core.List.{IsPrefix};

use crate::gate::HiveGate;
use crate::locked::Locked;
use reg_callbacks::Callback;
use reg_journal::Share;
use reg_model::{Answer, AnswerBody, Change, ChangeReply, Notice, Query, Receipt};
use reg_outbox::Inbox;
use std::alloc::{AllocError, Global};
use std::marker::Model;
use std::sync::{Mutex, Wait};

/// What a session has at one hive: its seat, a receipt of each of its accepted changes there since the last checkpoint, and its mark; its
/// end of the ring by which the hive's notices come, and those that it took. For the closing of each handle that it has open there is room
/// for the receipt, so that a Close takes no memory; for the notice of each accepted Notify there is room, so that to take it takes none.
#[derive(Drop)]
pub struct Place {
    share: Share,
    receipts: Vec<Receipt>,
    mark: u64,
    // How many handles of the session are open there.
    handles: usize,
    inbox: Inbox,
    taken: Vec<Notice>,
    // How many Notify calls of the session were accepted there: there is room for a notice of each.
    notifies: usize,
}

impl Model for Place {
    ghost use Rattle.std.specs.Prelude.{◌≤◌, ◌+◌, ◌-◌, length, vec_len, vec_capacity};
    ghost use Rattle.reg_sessions.specs.Sessions.{PlaceState};

    ghost Value = { PlaceState };

    ghost view = { λ p. record {
      seat = p.share;
      receipts = p.receipts.items;
      dropped = p.share.count - length p.receipts.items;
      mark = p.mark;
      taken = p.taken.items;
      popped = p.inbox.received;
      waiting = p.inbox.waiting;
      handles = p.handles;
      notifies = p.notifies;
    } };

    ghost invariant = { λ p. (length p.receipts.items ≤ p.share.count) × (vec_len p.receipts + p.handles ≤ vec_capacity p.receipts)
        × (p.notifies ≤ vec_capacity p.taken) };
}

/// Whether a change closes a handle.
fn closes(change: &Change) -> bool
    ensures { result ≡ closes_of change.now }
{
    matches!(change, Change::Close { .. })
}

/// Makes room for a receipt, beside that for the closing of each open handle, and of one more that the change may open. A Close has its
/// room already, if any handle is open.
fn make_room(receipts: &mut Vec<Receipt>, handles: usize, is_close: bool) -> Result<(), AllocError>
    requires { vec_len receipts.old + handles ≤ vec_capacity receipts.old }
    ensures receipts { receipts.new.items ≡ receipts.old.items }
    ensures kept { vec_len receipts.new + handles ≤ vec_capacity receipts.new }
    ensures room { OnOk result (vec_len receipts.new < vec_capacity receipts.new) }
    ensures more { OnOk result (is_close ≡ false → vec_len receipts.new + handles + 2 ≤ vec_capacity receipts.new) }
    ensures spared { OnErr result (is_close ≡ true → handles ≡ 0) }
{
    if is_close {
        if handles == 0 {
            receipts.reserve(1)?;
        }
        return Ok(());
    }
    receipts.reserve(handles + 2)
}

/// How many handles are open after an accepted change.
fn handles_after(handles: usize, is_close: bool, reply: &ChangeReply) -> usize
    requires { handles < 2 ^ 64 - 1 }
    ensures count { result ≡ (if is_close then handles - 1 else if is_some reply.now.handle then handles + 1 else handles) }
    ensures closes { is_close ≡ true → result + 1 ≤ max handles 1 }
    ensures opens { is_close ≡ false → result ≤ handles + 1 }
{
    if is_close {
        return handles.saturating_sub(1);
    }
    if reply.handle.is_some() {
        handles + 1
    } else {
        handles
    }
}

/// Two copies of a change: for the entry and for the receipt. Those of a Close take no memory.
fn two_copies(alloc: Global, change: &Change) -> Result<(Change, Change), AllocError>
    ensures copies { IfOk result (λ both. (both.0 ≡ change.now) × (both.1 ≡ change.now)) }
    ensures spared { OnErr result (closes_of change.now ≡ false) }
{
    if let Change::Close { handle } = change {
        let handle = *handle;
        return Ok((Change::Close { handle }, Change::Close { handle }));
    }
    let entered = change.try_clone(alloc)?;
    let kept = change.try_clone(alloc)?;
    Ok((entered, kept))
}

/// Whether a change sets a watch.
fn watches(change: &Change) -> bool
    ensures { result ≡ watches_of change.now }
{
    matches!(change, Change::Notify { .. })
}

/// Makes room for the notice of a Notify, beside those of the accepted ones, so many.
fn make_notice_room(
    taken: &mut Vec<Notice>,
    notifies: usize,
    is_notify: bool,
) -> Result<(), AllocError>
    requires { notifies ≤ vec_capacity taken.old }
    ensures taken { taken.new.items ≡ taken.old.items }
    ensures kept { notifies ≤ vec_capacity taken.new }
    ensures more { OnOk result (is_notify ≡ true → notifies + 1 ≤ vec_capacity taken.new) }
    ensures spared { OnErr result (is_notify ≡ true) }
{
    if !is_notify {
        return Ok(());
    }
    taken.reserve(notifies.saturating_sub(taken.len()) + 1)
}

/// How many Notify calls were accepted after an accepted change.
fn notifies_after(notifies: usize, is_notify: bool) -> usize
    requires { notifies < 2 ^ 64 - 1 }
    ensures { result ≡ (if is_notify then notifies + 1 else notifies) }
{
    if is_notify { notifies + 1 } else { notifies }
}

/// All that a change takes of memory here: room and copies. A Close takes none, if any handle is open.
fn prepared(
    alloc: Global,
    receipts: &mut Vec<Receipt>,
    handles: usize,
    taken: &mut Vec<Notice>,
    notifies: usize,
    change: &Change,
) -> Result<(Change, Change), AllocError>
    requires room { vec_len receipts.old + handles ≤ vec_capacity receipts.old }
    requires notices { notifies ≤ vec_capacity taken.old }
    ensures receipts { receipts.new.items ≡ receipts.old.items }
    ensures taken { taken.new.items ≡ taken.old.items }
    ensures kept { vec_len receipts.new + handles ≤ vec_capacity receipts.new }
    ensures notices { notifies ≤ vec_capacity taken.new }
    ensures notice { OnOk result (watches_of change.now ≡ true → notifies + 1 ≤ vec_capacity taken.new) }
    ensures room { OnOk result (vec_len receipts.new < vec_capacity receipts.new) }
    ensures more { OnOk result (closes_of change.now ≡ false → vec_len receipts.new + handles + 2 ≤ vec_capacity receipts.new) }
    ensures copies { IfOk result (λ both. (both.0 ≡ change.now) × (both.1 ≡ change.now)) }
    ensures spared { OnErr result (closes_of change.now ≡ true → handles ≡ 0) }
{
    make_room(receipts, handles, closes(change))?;
    make_notice_room(taken, notifies, watches(change))?;
    two_copies(alloc, change)
}

/// The status of an answer: 0 where it isn't refused, and the room isn't short.
fn status_of(body: &AnswerBody) -> u32
    ensures { result ≡ status_told body.now }
{
    match body {
        AnswerBody::Refused { status } => *status,
        AnswerBody::Short { status, .. } => *status,
        AnswerBody::Value { .. }
        | AnswerBody::Key { .. }
        | AnswerBody::Member { .. }
        | AnswerBody::Info { .. }
        | AnswerBody::Security { .. } => 0,
    }
}

impl Place {
    /// A seat at a hive at which nothing was called yet.
    pub fn new(alloc: Global, share: Share, inbox: Inbox) -> Place
        requires count { share.count ≡ 0 }
        requires empty { inbox ≡ record { received = []; waiting = [] } }
        ensures { result ≡ record { seat = share; receipts = []; dropped = 0; mark = 0; taken = []; popped = []; waiting = []; handles = 0; notifies = 0 } }
    {
        Place {
            share,
            receipts: Vec::new(alloc),
            mark: 0,
            handles: 0,
            inbox,
            taken: Vec::new(alloc),
            notifies: 0,
        }
    }

    /// The receipts, as many as the share has counted since the last checkpoint.
    pub fn receipts(&self) -> &[Receipt]
        ensures receipts { result.now ≡ self.now.receipts }
        ensures counted { self.now.dropped + length self.now.receipts ≡ self.now.seat.count }
    {
        self.receipts.as_slice()
    }

    /// Drops the receipts, which a checkpoint compared, and gives their room back: no handle is open then. Takes no memory.
    pub fn drop_receipts(&mut self, alloc: Global)
        ensures { self.new ≡ without_receipts self.old }
    {
        self.receipts = Vec::new(alloc);
        self.handles = 0;
    }

    /// The notices that were taken, in order.
    pub fn taken(&self) -> &[Notice]
        ensures { result.now ≡ self.now.taken }
    {
        self.taken.as_slice()
    }

    /// Takes the next notice out of the ring. `None` where the ring is empty, and where there is no room for a notice more, as there is
    /// while fewer were taken than Notify calls were accepted. Takes no memory and no lock.
    pub fn take_notice(&mut self) -> Option<Notice>
        ensures taken { self.new.taken ≡ self.old.taken ++ notice_of result }
        ensures popped { self.new.popped ≡ self.old.popped ++ notice_of result }
        ensures next { IfSome result (λ notice. IsPrefix self.old.waiting (notice ∷ self.new.waiting)) }
        ensures none { IfNone result ((self.new ≡ self.old)
            × ((self.old.waiting ≡ []) ⊎ (self.old.notifies ≤ length self.old.taken))) }
        ensures kept { (self.new.seat ≡ self.old.seat) × (self.new.receipts ≡ self.old.receipts) × (self.new.mark ≡ self.old.mark) }
        ensures dropped { self.new.dropped ≡ self.old.dropped }
        ensures counts { (self.new.handles ≡ self.old.handles) × (self.new.notifies ≡ self.old.notifies) }
    {
        if self.taken.len() >= self.taken.capacity() {
            return None;
        }
        let notice = self.inbox.pop()?;
        self.taken.push_reserved(notice);
        Some(notice)
    }

    /// Makes a change at the hive behind a lock. What takes memory comes first; where that is refused, the first cause is told, or 8. It
    /// isn't refused to a Close, if any handle is open.
    pub fn change<Rt: Wait, G: HiveGate, C: Callback>(
        &mut self,
        rt: &Rt,
        alloc: Global,
        lock: &Mutex<Locked<C>>,
        gate: &G,
        hive: u8,
        moment: u64,
        change: &Change,
    ) -> ChangeReply
        ensures receipts { self.new.receipts ≡ self.old.receipts ++ receipt_of moment change.now result }
        ensures dropped { self.new.dropped ≡ self.old.dropped }
        ensures notifies { self.new.notifies ≡ notifies_told self.old.notifies change.now result }
        ensures handles { self.new.handles ≡ handles_told self.old.handles change.now result }
        ensures mark { self.new.mark ≡ mark_after self.old.mark result }
        ensures session { self.new.seat.session ≡ self.old.seat.session }
        ensures notices { (self.new.taken ≡ self.old.taken) × (self.new.popped ≡ self.old.popped) × (self.new.waiting ≡ self.old.waiting) }
        ensures accepted { result.status ≡ 0 → (n : ℕ) × (result.number ≡ Some n) × (self.old.seat.count ≤ n) × (self.old.mark ≤ n) }
        ensures refused { result.status ≢ 0 → self.new ≡ self.old }
        ensures lawful { result.status ≢ BAD_DATABASE →
            IsLawfulOrLacks C.answers (seat_of self.old) self.old.mark self.old.handles moment change.now result }
        ensures spared { closes_of change.now ≡ true → self.old.handles ≢ 0 → result.status ≢ NOT_ENOUGH_MEMORY }
    {
        let copies = prepared(
            alloc,
            &mut self.receipts,
            self.handles,
            &mut self.taken,
            self.notifies,
            change,
        );
        let is_close = closes(change);
        let is_notify = watches(change);
        let session = self.share.session();
        let mut guard = lock.lock(rt);
        gate.inside(session, hive);
        guard.refill(session);
        let Ok((entered, kept)) = copies else {
            let reply = guard.lack(&self.share, self.mark, moment, change);
            drop(guard);
            gate.answered(session, hive);
            return reply;
        };
        let reply = guard.change(&mut self.share, self.mark, moment, entered);
        drop(guard);
        gate.answered(session, hive);
        if reply.status != 0 {
            drop(kept);
            return reply;
        }
        let Some(number) = reply.number else {
            unreachable!();
        };
        self.handles = handles_after(self.handles, is_close, &reply);
        self.notifies = notifies_after(self.notifies, is_notify);
        self.receipts.push_reserved(Receipt {
            number,
            moment,
            change: kept,
            reply,
        });
        self.mark = number + 1;
        reply
    }

    /// Asks a question at the hive behind a lock.
    pub fn ask<Rt: Wait, G: HiveGate, C: Callback>(
        &mut self,
        rt: &Rt,
        lock: &Mutex<Locked<C>>,
        gate: &G,
        hive: u8,
        query: &Query,
    ) -> Answer
        ensures kept { (self.new.receipts ≡ self.old.receipts) × (self.new.dropped ≡ self.old.dropped) × (self.new.seat ≡ self.old.seat) }
        ensures notices { (self.new.taken ≡ self.old.taken) × (self.new.popped ≡ self.old.popped) × (self.new.waiting ≡ self.old.waiting) }
        ensures counts { (self.new.handles ≡ self.old.handles) × (self.new.notifies ≡ self.old.notifies) }
        ensures mark { self.new.mark ≡ mark_told self.old.mark result }
        ensures refused { status_told result.body ≢ 0 → self.new ≡ self.old }
        ensures later { result.body ≢ Refused BAD_DATABASE → (self.old.seat.count ≤ result.at) × (self.old.mark ≤ result.at) }
        ensures lawful { result.body ≢ Refused BAD_DATABASE → IsLawfulAnswer C.answers (seat_of self.old) self.old.mark query.now result }
    {
        let session = self.share.session();
        let mut guard = lock.lock(rt);
        gate.inside(session, hive);
        guard.refill(session);
        let answer = guard.ask(&self.share, self.mark, query);
        drop(guard);
        gate.answered(session, hive);
        if status_of(&answer.body) == 0 {
            self.mark = answer.at;
        }
        answer
    }
}
