//! What admitted changes do to the watches: found before anything changes, and told once it has.
ghost use Rattle.std.specs.Prelude.{◌≡◌, ◌<◌, ◌≤◌, ◌+◌, ℕ, [], ◌∷◌, None, Ok, Err, false, IfOk, OnOk, OnErr, vec_len};
ghost use Rattle.reg_model.specs.declared.limits.TheConstants.{SESSIONS_LIMIT};
ghost use Rattle.reg_model.specs.declared.filters.TheConstants.{EVENTS};
ghost use Rattle.reg_model.specs.declared.call.Change.{Change as TheChange};
ghost use Rattle.reg_model.specs.Worlds.{path_at};
ghost use Rattle.reg_model.specs.Watches.{event_at};
ghost use Rattle.reg_notify.specs.Asked.{Fires, removed_by};
ghost use Rattle.reg_calls.specs.Shortages.{is_closing};
ghost use Rattle.reg_calls.specs.Internal.Stores.{IsReady, IsTarget, IsCarried};
ghost use Rattle.reg_calls.specs.Internal.Admissions.{Admits};
ghost use Rattle.reg_calls.specs.Internal.Announcements.{ending_in, HasKinds, IsAnnounced};
ghost use Rattle.reg_calls.specs.Internal.QuietKeys.{AreUnhit, IsOwnEvent};
ghost use Rattle.reg_calls.specs.declared.store.Store.{Store as StoreOf};
ghost use Rattle.reg_calls.specs.declared.store.JournalEnd.{JournalEnd};

use crate::changes::Admitted;
use crate::lack::Lack;
use crate::quiet::{OwnEvent, Quiet, REMEMBERED};
use crate::store::{JournalEnd, Store};
use reg_model::ChangeReply;
use reg_model::filters::{LAST_SET, SECURITY};
use reg_notify::{Event, Place, Removed};
use std::alloc::{AllocError, Global};

/// What an admitted change does to the watches.
#[derive(Drop)]
pub enum Announced {
    /// It ends none.
    Nothing,
    /// It is events, and removes keys.
    Changes {
        events: Vec<Event>,
        removed: Removed,
    },
    /// It closes the handle of that number.
    Closes(u64),
}

/// One event, with the keys that are removed.
pub fn one_event(
    alloc: Global,
    bits: u32,
    place: Place,
    removed: Removed,
) -> Result<Announced, AllocError>
    requires { bits ≤ EVENTS }
    ensures kinds { IfOk result HasKinds }
    ensures ends { IfOk result (λ announced. (by : ℕ) →
        ending_in announced by ≡ record { by = by; events = event_at bits place ∷ []; removes = removed_by removed; closed = None }) }
{
    let mut events = Vec::with_capacity(alloc, 1)?;
    events.push(Event { bits, place })?;
    Ok(Announced::Changes { events, removed })
}

/// The event of the key of its handle that an admitted change is; of no kind where it is none, or not that alone.
fn own_event(admitted: &Admitted<'_>) -> OwnEvent
    ensures { (end : JournalEnd) → (session : ℕ) → (store : StoreOf) → (change : TheChange) → Admits end store session change admitted.now →
        0 < result.bits → IsOwnEvent end store session change result }
{
    match admitted {
        Admitted::SetValue(found) => OwnEvent {
            handle: found.handle,
            bits: LAST_SET,
        },
        Admitted::DeleteValue(found) => OwnEvent {
            handle: found.handle,
            bits: LAST_SET,
        },
        Admitted::SetSecurity(found) => OwnEvent {
            handle: found.handle,
            bits: SECURITY,
        },
        Admitted::OpenRoot(_)
        | Admitted::OpenKey(_)
        | Admitted::CreateKey(_)
        | Admitted::DeleteKey(_)
        | Admitted::DeleteTree(_)
        | Admitted::Notify(_)
        | Admitted::Close(_) => OwnEvent { handle: 0, bits: 0 },
    }
}

impl Store {
    /// The place of the key that a handle leads to. Its one fault is that memory was refused.
    pub fn place_of(&self, alloc: Global, session: u8, handle: u64) -> Result<Place, AllocError>
        requires { IsTarget self.now session handle }
        ensures { IfOk result (λ place. place ≡ path_at session handle self.now.handles.handles) }
    {
        let Some(found) = self.handles.look(session, handle) else {
            unreachable!();
        };
        let Some(target) = found.target else {
            unreachable!();
        };
        Place::new(alloc, target.path)
    }

    /// An event of the key that a handle leads to. Its one fault is that memory was refused.
    pub fn event_of(
        &self,
        alloc: Global,
        session: u8,
        handle: u64,
        bits: u32,
    ) -> Result<Announced, AllocError>
        requires target { IsTarget self.now session handle }
        requires bits { bits ≤ EVENTS }
        ensures kinds { IfOk result HasKinds }
        ensures ends { IfOk result (λ announced. (by : ℕ) → ending_in announced by ≡
            record { by = by; events = event_at bits (path_at session handle self.now.handles.handles) ∷ []; removes = λ q. false; closed = None }) }
    {
        let place = self.place_of(alloc, session, handle)?;
        one_event(alloc, bits, place, Removed::Nothing)
    }

    /// What an admitted change does to the watches. Where none is pending, or it is remembered that such an event hit none, nothing is
    /// looked up. Its one fault is that memory was refused, which it never is for a Close.
    pub fn announce(
        &self,
        quiet: &Quiet,
        alloc: Global,
        session: u8,
        admitted: &Admitted<'_>,
    ) -> Result<Announced, AllocError>
        requires admitted { (end : JournalEnd) × (change : TheChange) × Admits end self.now session change admitted.now }
        requires rows { vec_len quiet.now.rows ≡ REMEMBERED }
        ensures ok { (end : JournalEnd) → (change : TheChange) → Admits end self.now session change admitted.now →
            AreUnhit end.next self.now quiet.now → IfOk result (λ announced. IsAnnounced end self.now session change announced) }
        ensures err { (end : JournalEnd) → (change : TheChange) → Admits end self.now session change admitted.now →
            OnErr result (is_closing change ≡ false) }
    {
        if self.watches.len() == 0 {
            return Ok(Announced::Nothing);
        }
        if quiet.has(own_event(admitted)) {
            return Ok(Announced::Nothing);
        }
        match admitted {
            Admitted::OpenRoot(_) | Admitted::OpenKey(_) | Admitted::Notify(_) => {
                Ok(Announced::Nothing)
            }
            Admitted::CreateKey(found) => found.announce(self, alloc),
            Admitted::SetValue(found) => found.announce(self, alloc, session),
            Admitted::DeleteValue(found) => found.announce(self, alloc, session),
            Admitted::DeleteKey(found) => found.announce(self, alloc),
            Admitted::DeleteTree(found) => found.announce(self, alloc),
            Admitted::SetSecurity(found) => found.announce(self, alloc, session),
            Admitted::Close(found) => Ok(Announced::Closes(found.handle)),
        }
    }

    /// Ends the watches that a change ends, by what was announced of it, as the journal's entry of that number. Takes no memory.
    fn tell(&mut self, announced: Announced, by: u64)
        requires { HasKinds announced }
        ensures watches { Fires (ending_in announced by) self.old.watches self.new.watches }
        ensures tree { self.new.tree ≡ self.old.tree }
        ensures handles { self.new.handles ≡ self.old.handles }
    {
        match announced {
            Announced::Nothing => {}
            Announced::Changes { events, removed } => self.watches.fire(events, removed, by),
            Announced::Closes(handle) => self.watches.drop_handle(handle, by),
        }
    }

    /// Carries out a change that was admitted, ends the watches that it ends, and tells the reply that is due for it as the journal's
    /// entry of that number. `Err` says what was lacking, memory or space in the bins; then all is as it was.
    pub fn carry_out(
        &mut self,
        quiet: &mut Quiet,
        alloc: Global,
        session: u8,
        moment: u64,
        end: JournalEnd,
        admitted: Admitted<'_>,
    ) -> Result<ChangeReply, Lack>
        requires session { session < SESSIONS_LIMIT }
        requires ready { IsReady end self.old }
        requires admitted { (change : TheChange) × Admits end self.old session change admitted }
        requires rows { vec_len quiet.old.rows ≡ REMEMBERED }
        requires unhit { AreUnhit end.next self.old quiet.old }
        ensures rows { vec_len quiet.new.rows ≡ REMEMBERED }
        ensures unhit { OnOk result (AreUnhit (end.next + 1) self.new quiet.new) }
        ensures quiet { OnErr result (quiet.new ≡ quiet.old) }
        ensures carried { (change : TheChange) → Admits end self.old session change admitted.entry →
            IsCarried self.old self.new session moment end change result }
    {
        let announced = match self.announce(quiet, alloc, session, &admitted) {
            Ok(announced) => announced,
            Err(_) => return Err(Lack::Memory),
        };
        let event = own_event(&admitted);
        let before = self.watches.len();
        match self.commit(alloc, session, moment, end, admitted) {
            Ok(reply) => {
                self.tell(announced, end.next);
                quiet.follow(event, end.next, before, self.watches.len());
                Ok(reply)
            }
            Err(lack) => Err(lack),
        }
    }
}
