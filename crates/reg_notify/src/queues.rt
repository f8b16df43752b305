//! What each session was told.
ghost use Rattle.std.specs.Prelude.{◌≡◌, ◌+◌, ◌-◌, ◌<◌, ◌≤◌, ◌++◌, ◌∷◌, ◌==◌, ◌&&◌, ℕ, [], All, IfOk, OnOk, if◌then◌else◌, vec_len, vec_capacity, length, is_some, slice_get};
ghost use Rattle.reg_model.specs.declared.limits.TheConstants.{SESSIONS_LIMIT, WATCHES_LIMIT};
ghost use Rattle.reg_notify.specs.Internal.Firing.{sent_to, notices_to};
ghost use Rattle.reg_notify.specs.Internal.Queues.{told_at, taken_at, room_at, pending_at, HaveRoom};

use reg_model::Notice;
use reg_model::limits::SESSIONS_LIMIT;
use std::alloc::{AllocError, Global};

/// A notice, and whom it is for.
#[derive(Clone, Copy)]
pub struct Sent {
    pub session: u8,
    pub notice: Notice,
}

/// The notices that a session was told, how many of them it took, and how many of its watches are pending.
#[derive(Drop)]
pub struct Queue {
    pub told: Vec<Notice>,
    pub taken: usize,
    pub pending: u32,
}

/// A queue for each session, with nothing in it.
pub fn new_queues(alloc: Global) -> Result<Vec<Queue>, AllocError>
    ensures told { IfOk result (λ queues. (s : ℕ) → told_at queues.items s ≡ []) }
    ensures taken { IfOk result (λ queues. (s : ℕ) → taken_at queues.items s ≡ 0) }
    ensures pending { IfOk result (λ queues. (s : ℕ) → pending_at queues.items s ≡ 0) }
    ensures len { IfOk result (λ queues. vec_len queues ≡ SESSIONS_LIMIT) }
{
    let mut queues = Vec::new(alloc);
    for _session in 0..SESSIONS_LIMIT {
        queues.push(Queue {
            told: Vec::new(alloc),
            taken: 0,
            pending: 0,
        })?;
    }
    Ok(queues)
}

/// Makes room for the notices of a session's pending watches and of one more.
pub fn reserve_in(queues: &mut Vec<Queue>, session: u8) -> Result<(), AllocError>
    requires session { session < vec_len queues.old }
    requires few { pending_at queues.old.items session < WATCHES_LIMIT }
    ensures room { OnOk result (length (told_at queues.new.items session) + (pending_at queues.new.items session + 1) ≤ room_at queues.new.items session) }
    ensures rooms { (s : ℕ) → room_at queues.old.items s ≤ room_at queues.new.items s }
    ensures told { (s : ℕ) → told_at queues.new.items s ≡ told_at queues.old.items s }
    ensures taken { (s : ℕ) → taken_at queues.new.items s ≡ taken_at queues.old.items s }
    ensures pending { (s : ℕ) → pending_at queues.new.items s ≡ pending_at queues.old.items s }
    ensures len { vec_len queues.new ≡ vec_len queues.old }
{
    let queue = &mut queues[session as usize];
    queue.told.reserve(queue.pending as usize + 1)
}

/// Counts one pending watch more of a session.
pub fn count_up(queues: &mut Vec<Queue>, session: u8)
    requires session { session < vec_len queues.old }
    requires few { pending_at queues.old.items session < WATCHES_LIMIT }
    ensures pending { (s : ℕ) → pending_at queues.new.items s ≡
        (if s == session then pending_at queues.old.items s + 1 else pending_at queues.old.items s) }
    ensures rooms { (s : ℕ) → room_at queues.new.items s ≡ room_at queues.old.items s }
    ensures told { (s : ℕ) → told_at queues.new.items s ≡ told_at queues.old.items s }
    ensures taken { (s : ℕ) → taken_at queues.new.items s ≡ taken_at queues.old.items s }
    ensures len { vec_len queues.new ≡ vec_len queues.old }
{
    let queue = &mut queues[session as usize];
    queue.pending += 1;
}

/// How many of a session's watches are pending.
pub fn pending_in(queues: &Vec<Queue>, session: u8) -> u32
    requires { session < vec_len queues.now }
    ensures { result ≡ pending_at queues.now.items session }
{
    let queue = &queues[session as usize];
    queue.pending
}

/// Tells a session a notice, for which there is room: one of its watches is pending no more.
pub fn push_to(queues: &mut Vec<Queue>, session: u8, notice: Notice)
    requires session { session < vec_len queues.old }
    requires pending { 0 < pending_at queues.old.items session }
    requires room { length (told_at queues.old.items session) < room_at queues.old.items session }
    ensures told { (s : ℕ) → told_at queues.new.items s ≡
        (if s == session then told_at queues.old.items s ++ notice ∷ [] else told_at queues.old.items s) }
    ensures pending { (s : ℕ) → pending_at queues.new.items s ≡
        (if s == session then pending_at queues.old.items s - 1 else pending_at queues.old.items s) }
    ensures rooms { (s : ℕ) → room_at queues.old.items s ≤ room_at queues.new.items s }
    ensures taken { (s : ℕ) → taken_at queues.new.items s ≡ taken_at queues.old.items s }
    ensures len { vec_len queues.new ≡ vec_len queues.old }
{
    let queue = &mut queues[session as usize];
    queue.pending -= 1;
    match queue.told.push(notice) {
        Ok(()) => {}
        Err(_) => unreachable!(),
    }
}

/// Hands out some notices, in their order, to sessions of which so many watches were pending.
pub fn push_all(queues: &mut Vec<Queue>, sent: &[Sent])
    requires sessions { All (λ x. x.session < vec_len queues.old) sent.now }
    requires pending { (s : ℕ) → sent_to s sent.now ≤ pending_at queues.old.items s }
    requires rooms { HaveRoom queues.old.items }
    ensures told { (s : ℕ) → told_at queues.new.items s ≡ told_at queues.old.items s ++ notices_to s sent.now }
    ensures pending { (s : ℕ) → pending_at queues.new.items s + sent_to s sent.now ≡ pending_at queues.old.items s }
    ensures rooms { (s : ℕ) → room_at queues.old.items s ≤ room_at queues.new.items s }
    ensures taken { (s : ℕ) → taken_at queues.new.items s ≡ taken_at queues.old.items s }
    ensures len { vec_len queues.new ≡ vec_len queues.old }
{
    for one in sent {
        push_to(queues, one.session, one.notice);
    }
}

/// All notices that a session was told, in order.
pub fn told_in(queues: &Vec<Queue>, session: u8) -> &[Notice]
    ensures { result.now ≡ told_at queues.now.items session }
{
    match queues.get(session as usize) {
        Some(queue) => queue.told.as_slice(),
        None => &[],
    }
}

/// How many of them it didn't take yet.
pub fn kept_in(queues: &Vec<Queue>, session: u8) -> u64
    ensures { result ≡ length (told_at queues.now.items session) - taken_at queues.now.items session }
{
    match queues.get(session as usize) {
        Some(queue) => queue.told.len().saturating_sub(queue.taken) as u64,
        None => 0,
    }
}

/// The first of those, which [`take_from`] takes.
pub fn first_in(queues: &Vec<Queue>, session: u8) -> Option<Notice>
    ensures { result ≡ slice_get (told_at queues.now.items session) (taken_at queues.now.items session) }
{
    match queues.get(session as usize) {
        Some(queue) => queue.told.get(queue.taken).copied(),
        None => None,
    }
}

/// The session's next notice, if it was told one more than it took.
pub fn take_from(queues: &mut Vec<Queue>, session: u8) -> Option<Notice>
    ensures notice { result ≡ slice_get (told_at queues.old.items session) (taken_at queues.old.items session) }
    ensures taken { (s : ℕ) → taken_at queues.new.items s ≡
        (if s == session && is_some result then taken_at queues.old.items s + 1 else taken_at queues.old.items s) }
    ensures told { (s : ℕ) → told_at queues.new.items s ≡ told_at queues.old.items s }
    ensures pending { (s : ℕ) → pending_at queues.new.items s ≡ pending_at queues.old.items s }
    ensures rooms { (s : ℕ) → room_at queues.new.items s ≡ room_at queues.old.items s }
    ensures len { vec_len queues.new ≡ vec_len queues.old }
{
    if queues.len() <= session as usize {
        return None;
    }
    take_of(&mut queues[session as usize])
}

/// The next notice of a queue, if more of them were told than taken.
fn take_of(queue: &mut Queue) -> Option<Notice>
    ensures notice { result ≡ slice_get queue.old.told.items queue.old.taken }
    ensures taken { queue.new.taken ≡ (if is_some result then queue.old.taken + 1 else queue.old.taken) }
    ensures told { queue.new.told ≡ queue.old.told }
    ensures pending { queue.new.pending ≡ queue.old.pending }
{
    if queue.told.len() <= queue.taken {
        return None;
    }
    let notice = queue.told[queue.taken];
    queue.taken += 1;
    Some(notice)
}
