//! How a watch comes into the table.
ghost use Rattle.std.specs.Prelude.{◌≡◌, ◌+◌, ◌<◌, ◌≤◌, ◌++◌, ◌∷◌, [], ℕ, List, All, true, OnOk, OnErr, IfOk, None, Some, length, vec_len, vec_capacity};
ghost use Rattle.reg_model.specs.declared.limits.TheConstants.{SESSIONS_LIMIT, WATCHES_LIMIT};
ghost use Rattle.reg_model.specs.Causes.{watches_of};
ghost use Rattle.reg_notify.specs.Asked.{watch_in, Adds};
ghost use Rattle.reg_notify.specs.Internal.Indexes.{UpdatesText};
ghost use Rattle.reg_model.specs.Internal.TextNumbers.{number_at};
ghost use Rattle.reg_notify.specs.Internal.Keys.{class_of, handle_text, key_text, IsClean};
ghost use Rattle.reg_notify.specs.Internal.Marks.{is_marked};
ghost use Rattle.reg_notify.specs.Internal.Queues.{told_at, taken_at, room_at, pending_at};
ghost use Rattle.reg_notify.specs.Internal.Rows.{watches_at, IsRow};
ghost use Rattle.reg_notify.specs.Internal.Settled.{shown, IsSettled, IsRowOf};

use crate::asked::Registration;
use crate::index::Index;
use crate::place::Place;
use crate::queues::{count_up, reserve_in};
use crate::table::{Row, Table, handle_text};
use reg_model::filters::EVENTS;
use std::alloc::{AllocError, Global};

impl Table {
    /// Adds a watch under a number above all others. Where memory is refused, the table shows what it did.
    pub fn add(&mut self, alloc: Global, asked: Registration) -> Result<(), AllocError>
        requires settled { IsSettled self.old }
        requires above { All (λ v. v.number < asked.number) (watches_at self.old.rows.entries) }
        requires session { asked.session < SESSIONS_LIMIT }
        requires room { watches_of asked.session (watches_at self.old.rows.entries) < WATCHES_LIMIT }
        ensures settled { IsSettled self.new }
        ensures ok { OnOk result (Adds (watch_in asked) (shown self.old) (shown self.new)) }
        ensures err { OnErr result (shown self.new ≡ shown self.old) }
    {
        let number = asked.number;
        let session = asked.session;
        let handle = asked.handle;
        let class = class_of(asked.filter, asked.subtree);
        let key = asked.place.key(class, number)?;
        let row = new_row(asked);
        let holder = holder_text(alloc, handle, number)?;
        self.make_room(session, row.place.text())?;
        self.rows.insert(number, row)?;
        match index_both(
            &mut self.places,
            &mut self.handles,
            key,
            holder,
            handle,
            number,
        ) {
            Ok(()) => {
                count_up(&mut self.queues, session);
                Ok(())
            }
            Err(fault) => {
                self.rows.remove(&number);
                Err(fault)
            }
        }
    }

    /// Makes room for one watch more of a session: to note its notice, and to tell the session; and marks its key, by its text.
    fn make_room(&mut self, session: u8, text: &[u8]) -> Result<(), AllocError>
        requires settled { IsSettled self.old }
        requires session { session < SESSIONS_LIMIT }
        requires room { watches_of session (watches_at self.old.rows.entries) < WATCHES_LIMIT }
        ensures settled { IsSettled self.new }
        ensures rows { self.new.rows ≡ self.old.rows }
        ensures places { self.new.places ≡ self.old.places }
        ensures handles { self.new.handles ≡ self.old.handles }
        ensures marked { OnOk result (is_marked self.new.marks.slots.items text.now ≡ true) }
        ensures shown { shown self.new ≡ shown self.old }
        ensures sent { OnOk result (vec_len self.new.sent + (length self.new.rows.entries + 1) ≤ vec_capacity self.new.sent) }
        ensures queue { OnOk result (length (told_at self.new.queues.items session) + (pending_at self.new.queues.items session + 1) ≤ room_at self.new.queues.items session) }
    {
        reserve_in(&mut self.queues, session)?;
        self.marks.set(text)?;
        let rows = self.rows.len();
        prove!(rows < usize::MAX);
        self.sent.reserve(rows + 1)
    }
}

/// The row of a watch.
fn new_row(asked: Registration) -> Row
    requires session { asked.session < SESSIONS_LIMIT }
    requires clean { IsClean asked.place }
    ensures row { IsRow asked.number result }
    ensures asked { IsRowOf asked result }
{
    Row {
        session: asked.session,
        handle: asked.handle,
        place: asked.place,
        filter: asked.filter,
        subtree: asked.subtree,
    }
}

/// Puts a number at both of its texts. Where memory is refused, it is at none of them.
fn index_both(
    places: &mut Index,
    handles: &mut Index,
    key: Vec<u8>,
    holder: Vec<u8>,
    handle: u64,
    number: u64,
) -> Result<(), AllocError>
    requires holder { holder.items ≡ handle_text handle number }
    requires new { number_at handles.old.by_text.entries holder.items ≡ None }
    ensures places { OnOk result (UpdatesText (number_at places.old.by_text.entries) key.items (Some number) (number_at places.new.by_text.entries)) }
    ensures handles { OnOk result (UpdatesText (number_at handles.old.by_text.entries) holder.items (Some number) (number_at handles.new.by_text.entries)) }
    ensures places_stay { OnErr result (places.new.by_text.entries ≡ places.old.by_text.entries) }
    ensures handles_stay { OnErr result ((text : List ℕ) → number_at handles.new.by_text.entries text ≡ number_at handles.old.by_text.entries text) }
{
    handles.insert(holder, number)?;
    match places.insert(key, number) {
        Ok(()) => Ok(()),
        Err(fault) => {
            handles.remove(&handle_text(handle, number));
            Err(fault)
        }
    }
}

/// The text by which a watch is found with those of its handle.
fn holder_text(alloc: Global, handle: u64, number: u64) -> Result<Vec<u8>, AllocError>
    ensures { IfOk result (λ text. text.items ≡ handle_text handle number) }
{
    let mut text = Vec::new(alloc);
    text.extend_from_slice(&handle_text(handle, number))?;
    Ok(text)
}

/// The kinds of events that a watch waits for, and 16 where the keys below are watched too.
pub fn class_of(filter: u32, subtree: bool) -> u8
    ensures { result ≡ class_of filter subtree }
{
    let kinds = (filter & EVENTS) as u8;
    if subtree { kinds + 16 } else { kinds }
}
