//! The pending watches, and the texts by which they are found.
ghost use Rattle.std.specs.Prelude.{◌≡◌, ◌+◌, ◌==◌, true, false, ◌<◌, ◌≤◌, ◌++◌, ◌∷◌, [], ℕ, List, None, Some, IfOk, IsPermutation, vec_len, vec_capacity, length};
ghost use Rattle.std.specs.Int.{to_be_bytes, w64};
ghost use Rattle.std.specs.Ordering.{nat_cmp};
ghost use Rattle.std.specs.BTreeMap.{btree_map_len, is_at};
ghost use Rattle.std.specs.Map.{remove_entry};
ghost use Rattle.reg_notify.specs.Internal.Indexes.{UpdatesText};
ghost use Rattle.reg_model.specs.Internal.TextNumbers.{number_at, goes_on};
ghost use Rattle.reg_notify.specs.Internal.Keys.{handle_text, is_met};
ghost use Rattle.reg_notify.specs.Internal.Hits.{of_class, any_class, is_event_hit, any_event, is_gone};
ghost use Rattle.reg_notify.specs.Internal.Rows.{row_at, watches_at, place_of, holder_of, IsTable};
ghost use Rattle.reg_notify.specs.Internal.Firing.{if_passes, then_why, notices_to, AreInOrder};
ghost use Rattle.reg_notify.specs.Internal.Queues.{told_at, taken_at};
ghost use Rattle.reg_heap.specs.Edits.{is_within, is_under};
ghost use Rattle.reg_model.specs.Worlds.{same_path};
ghost use Rattle.reg_model.specs.Causes.{watches_of};
ghost use Rattle.reg_model.specs.declared.limits.TheConstants.{SESSIONS_LIMIT};
ghost use Rattle.reg_notify.specs.declared.queues.Sent.{Sent};
ghost use Rattle.reg_notify.specs.Internal.Settled.{IsSettled, IsHanding};
ghost use Rattle.reg_notify.specs.Internal.States.{IsReady, IsGone, Ends};

use crate::adding::class_of;
use crate::asked::{Event, Removed};
use crate::index::Index;
use crate::marks::Marks;
use crate::place::Place;
use crate::queues::{Queue, Sent, new_queues, pending_in, push_all};
use reg_model::{Notice, Reason};
use std::alloc::{AllocError, Global};
use std::collections::BTreeMap;

/// A pending watch: the session and handle that asked, the key, the filter, and whether the keys below are watched too.
#[derive(Drop)]
pub struct Row {
    pub session: u8,
    pub handle: u64,
    pub place: Place,
    pub filter: u32,
    pub subtree: bool,
}

/// The watches by number, the number of each by its place and by its handle, a mark for each key that is watched, the notices of the
/// firing that goes on, and those that each session was told.
#[derive(Drop)]
pub struct Table {
    pub rows: BTreeMap<u64, Row>,
    pub places: Index,
    pub handles: Index,
    pub marks: Marks,
    pub sent: Vec<Sent>,
    pub queues: Vec<Queue>,
}

impl Table {
    /// A table with no watches.
    pub fn new(alloc: Global) -> Result<Table, AllocError>
        ensures settled { IfOk result IsSettled }
        ensures rows { IfOk result (λ table. table.rows.entries ≡ []) }
        ensures told { IfOk result (λ table. (s : ℕ) → told_at table.queues.items s ≡ []) }
        ensures taken { IfOk result (λ table. (s : ℕ) → taken_at table.queues.items s ≡ 0) }
    {
        let queues = new_queues(alloc)?;
        Ok(Table {
            rows: BTreeMap::new(alloc),
            places: Index::new(alloc),
            handles: Index::new(alloc),
            marks: Marks::new(alloc),
            sent: Vec::new(alloc),
            queues,
        })
    }

    /// How many watches of a session are pending.
    pub fn count(&self, session: u8) -> u32
        requires settled { IsSettled self.now }
        requires session { session < SESSIONS_LIMIT }
        ensures { result ≡ watches_of session (watches_at self.now.rows.entries) }
    {
        pending_in(&self.queues, session)
    }

    /// Hands out the notices that were noted, in the order of their watches.
    pub fn hand_out(&mut self)
        requires ready { IsReady self.old }
        requires few { IsHanding self.old }
        ensures settled { IsSettled self.new }
        ensures rows { self.new.rows ≡ self.old.rows }
        ensures told { (sent : List Sent) → AreInOrder sent → IsPermutation sent self.old.sent.items →
            (s : ℕ) → told_at self.new.queues.items s ≡ told_at self.old.queues.items s ++ notices_to s sent }
        ensures taken { (s : ℕ) → taken_at self.new.queues.items s ≡ taken_at self.old.queues.items s }
    {
        self.sent.sort_unstable_by_key(|one| one.notice.watch);
        push_all(&mut self.queues, self.sent.as_slice());
        self.sent.clear();
    }

    /// Ends a watch: takes out its row, and notes its notice.
    fn end(&mut self, number: u64, by: u64, reason: Reason)
        requires ready { IsReady self.old }
        requires found { (row : Row) × (row_at number self.old.rows.entries ≡ Some row) }
        ensures ready { IsReady self.new }
        ensures gone { (row : Row) → row_at number self.old.rows.entries ≡ Some row → IsGone self.old self.new number row by reason }
        ensures queues { self.new.queues ≡ self.old.queues }
        ensures fewer { btree_map_len self.new.rows < btree_map_len self.old.rows }
    {
        if let Some(row) = self.rows.remove(&number) {
            let class = class_of(row.filter, row.subtree);
            let mut key = row.place.into_text();
            append_key(&mut key, class, number);
            self.places.remove(key.as_slice());
            self.handles.remove(&handle_text(row.handle, number));
            let notice = Notice {
                watch: number,
                by,
                reason,
            };
            let session = row.session;
            match self.sent.push(Sent { session, notice }) {
                Ok(()) => {}
                Err(_) => unreachable!(),
            }
        }
    }

    /// Ends all watches whose texts by place begin with another.
    fn end_past(&mut self, start: &Vec<u8>, by: u64, reason: Reason)
        requires { IsReady self.old }
        ensures { Ends by (if_passes (λ e. goes_on start.now.items (place_of e.0 e.1)) reason) self.old self.new }
    {
        while let Some(number) = self.places.first_past(start) {
            self.end(number, by, reason);
        }
    }

    /// Ends all watches whose texts by handle begin with another.
    pub fn end_past_handle(&mut self, start: &Vec<u8>, by: u64, reason: Reason)
        requires { IsReady self.old }
        ensures { Ends by (if_passes (λ e. goes_on start.now.items (holder_of e.0 e.1)) reason) self.old self.new }
    {
        while let Some(number) = self.handles.first_past(start) {
            self.end(number, by, reason);
        }
    }

    /// Ends the watches of a class at a place, if events of these kinds hit it there or below. The place's text has room for two
    /// bytes more.
    fn end_class(&mut self, text: &mut Vec<u8>, class: u8, bits: u32, itself: bool, by: u64)
        requires ready { IsReady self.old }
        requires room { vec_len text.old + 2 ≤ vec_capacity text.old }
        ensures ends { Ends by (if_passes (of_class text.old.items bits itself class) Reason.Matched) self.old self.new }
        ensures text { text.new.items ≡ text.old.items }
        ensures room { vec_len text.new + 2 ≤ vec_capacity text.new }
    {
        if !is_met(class, bits, itself) {
            return;
        }
        let length = text.len();
        append(text, class);
        self.end_past(text, by, Reason::Matched);
        text.truncate(length);
    }

    /// Ends the watches at a place that events of these kinds hit there or below.
    fn end_hit(&mut self, text: &mut Vec<u8>, bits: u32, itself: bool, by: u64)
        requires ready { IsReady self.old }
        requires room { vec_len text.old + 2 ≤ vec_capacity text.old }
        ensures ends { Ends by (if_passes (any_class CLASSES text.old.items bits itself) Reason.Matched) self.old self.new }
        ensures text { text.new.items ≡ text.old.items }
        ensures room { vec_len text.new + 2 ≤ vec_capacity text.new }
    {
        if !self.has_watch(text) {
            return;
        }
        for class in 0..CLASSES {
            self.end_class(text, class, bits, itself, by);
        }
    }

    /// Whether there is a watch at a place: most places above a changed key have none, and then no class is looked for. The place's
    /// text has room for a byte more.
    fn has_watch(&self, text: &mut Vec<u8>) -> bool
        requires room { vec_len text.old + 2 ≤ vec_capacity text.old }
        ensures none { result ≡ false → (other : List ℕ) → goes_on (text.old.items ++ 0 ∷ []) other ≡ true →
            number_at self.now.places.by_text.entries other ≡ None }
        ensures text { text.new.items ≡ text.old.items }
        ensures room { vec_len text.new + 2 ≤ vec_capacity text.new }
    {
        let length = text.len();
        append_byte(text, 0);
        let found = self.places.first_past(text).is_some();
        text.truncate(length);
        found
    }

    /// Ends the watches that an event at a place hits: there, and above it where the keys below are watched. Mostly none of these keys
    /// has a mark, and then no text is looked for.
    fn end_event(&mut self, place: Place, bits: u32, by: u64)
        requires { IsReady self.old }
        ensures { Ends by (if_passes (is_event_hit place bits) Reason.Matched) self.old self.new }
    {
        let mut text = place.into_text();
        if !self.marks.any_above(text.as_slice()) {
            return;
        }
        self.end_hit(&mut text, bits, true, by);
        while let Some(byte) = text.pop() {
            self.end_above(byte, &mut text, bits, by);
        }
    }

    /// Ends the watches at a place that an event below it hits, where its text ended before that byte: at a backslash.
    fn end_above(&mut self, byte: u8, text: &mut Vec<u8>, bits: u32, by: u64)
        requires ready { IsReady self.old }
        requires room { vec_len text.old + 2 ≤ vec_capacity text.old }
        ensures above { (byte == 92) ≡ true → Ends by (if_passes (any_class CLASSES text.old.items bits false) Reason.Matched) self.old self.new }
        ensures elsewhere { (byte == 92) ≡ false → self.new ≡ self.old }
        ensures text { text.new.items ≡ text.old.items }
        ensures room { vec_len text.new + 2 ≤ vec_capacity text.new }
    {
        if byte == b'\\' {
            self.end_hit(text, bits, false, by);
        }
    }

    /// Ends the watches that one of some events hits.
    fn end_events(&mut self, mut events: Vec<Event>, by: u64)
        requires { IsReady self.old }
        ensures { Ends by (if_passes (any_event events.items) Reason.Matched) self.old self.new }
    {
        while let Some(event) = events.pop() {
            self.end_event(event.place, event.bits, by);
        }
    }

    /// Ends the watches whose texts go on with that byte from a place's: 0 for those there, a backslash for those below.
    fn end_gone(&mut self, text: &mut Vec<u8>, byte: u8, by: u64)
        requires ready { IsReady self.old }
        requires room { vec_len text.old + 2 ≤ vec_capacity text.old }
        ensures ends { Ends by (if_passes (λ e. goes_on (text.old.items ++ byte ∷ []) (place_of e.0 e.1)) Reason.Gone) self.old self.new }
        ensures text { text.new.items ≡ text.old.items }
        ensures room { vec_len text.new + 2 ≤ vec_capacity text.new }
    {
        let length = text.len();
        append_byte(text, byte);
        self.end_past(text, by, Reason::Gone);
        text.truncate(length);
    }

    /// The key at a place was removed: ends the watches there.
    fn end_key(&mut self, place: Place, by: u64)
        requires { IsReady self.old }
        ensures { Ends by (if_passes (λ e. same_path e.1.place place) Reason.Gone) self.old self.new }
    {
        let mut text = place.into_text();
        self.end_gone(&mut text, 0, by);
    }

    /// All keys below a place were removed: ends the watches there.
    fn end_under(&mut self, place: Place, by: u64)
        requires { IsReady self.old }
        ensures { Ends by (if_passes (λ e. is_under place e.1.place) Reason.Gone) self.old self.new }
    {
        let mut text = place.into_text();
        self.end_gone(&mut text, b'\\', by);
    }

    /// The key at a place was removed and all keys below it: ends the watches there.
    fn end_within(&mut self, place: Place, by: u64)
        requires { IsReady self.old }
        ensures { Ends by (if_passes (λ e. is_within place e.1.place) Reason.Gone) self.old self.new }
    {
        let mut text = place.into_text();
        self.end_gone(&mut text, 0, by);
        self.end_gone(&mut text, b'\\', by);
    }

    /// Ends the watches whose keys are removed.
    fn end_removed(&mut self, removed: Removed, by: u64)
        requires { IsReady self.old }
        ensures { Ends by (if_passes (is_gone removed) Reason.Gone) self.old self.new }
    {
        match removed {
            Removed::Nothing => {}
            Removed::Key(place) => self.end_key(place, by),
            Removed::Within(place) => self.end_within(place, by),
            Removed::Under(place) => self.end_under(place, by),
        }
    }

    /// Ends the watches that an entry ends by its events and the keys that it removes, those of removed keys first.
    pub fn end_all(&mut self, events: Vec<Event>, removed: Removed, by: u64)
        requires { IsReady self.old }
        ensures { Ends by (then_why (if_passes (is_gone removed) Reason.Gone) (if_passes (any_event events.items) Reason.Matched)) self.old self.new }
    {
        self.end_removed(removed, by);
        self.end_events(events, by);
    }
}

/// The classes of watches: which of the four kinds of events they wait for, and whether below their keys too.
const CLASSES: u8 = 32;

/// Whether watches of a class are hit by events of these kinds, at their key or below it.
fn is_met(class: u8, bits: u32, itself: bool) -> bool
    ensures { result ≡ is_met bits itself class }
{
    u32::from(class % 16) & bits != 0 && (itself || 16 <= class)
}

/// Ends a place's text, with a class behind it.
fn append(text: &mut Vec<u8>, class: u8)
    requires { vec_len text.old + 2 ≤ vec_capacity text.old }
    ensures text { text.new.items ≡ text.old.items ++ 0 ∷ class ∷ [] }
    ensures room { vec_capacity text.old ≤ vec_capacity text.new }
{
    append_byte(text, 0);
    append_byte(text, class);
}

/// Ends a place's text, with a class and a number behind it.
fn append_key(text: &mut Vec<u8>, class: u8, number: u64)
    requires { vec_len text.old + 10 ≤ vec_capacity text.old }
    ensures { text.new.items ≡ text.old.items ++ 0 ∷ class ∷ to_be_bytes w64 number }
{
    append(text, class);
    match text.extend_from_slice(&number.to_be_bytes()) {
        Ok(()) => {}
        Err(_) => unreachable!(),
    }
}

/// Puts a byte behind a text that has room for it.
fn append_byte(text: &mut Vec<u8>, byte: u8)
    requires { vec_len text.old < vec_capacity text.old }
    ensures text { text.new.items ≡ text.old.items ++ byte ∷ [] }
    ensures room { vec_capacity text.old ≤ vec_capacity text.new }
{
    match text.push(byte) {
        Ok(()) => {}
        Err(_) => unreachable!(),
    }
}

/// The text by which a watch is found with those of its handle.
pub fn handle_text(handle: u64, number: u64) -> [u8; 16]
    ensures { result ≡ handle_text handle number }
{
    let h = handle.to_be_bytes();
    let n = number.to_be_bytes();
    [
        h[0], h[1], h[2], h[3], h[4], h[5], h[6], h[7], n[0], n[1], n[2], n[3], n[4], n[5], n[6],
        n[7],
    ]
}

/// Makes a text that of a handle, in the room that it has.
pub fn start_with(text: &mut Vec<u8>, handle: u64)
    requires { 8 ≤ vec_capacity text.old }
    ensures text { text.new.items ≡ to_be_bytes w64 handle }
    ensures room { 8 ≤ vec_capacity text.new }
{
    text.clear();
    match text.extend_from_slice(&handle.to_be_bytes()) {
        Ok(()) => {}
        Err(_) => unreachable!(),
    }
}
