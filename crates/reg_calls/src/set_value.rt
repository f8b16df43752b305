//! SetValue: a value of a key set, or added.
//!
//! Win32 registry reference, `RegSetValueEx`.
ghost use Rattle.std.specs.Prelude.{ℕ, List, ◌≡◌, Some, IfErr, IfOk, None, OnOk};
ghost use Rattle.reg_heap.specs.Paths.{Path};
ghost use Rattle.reg_heap.specs.Edits.{values_at};
ghost use Rattle.reg_heap.specs.Members.{index_named};
ghost use Rattle.reg_model.specs.Causes.{change_cause, no_value_room, is_bad_value as is_bad_value_of, asked};
ghost use Rattle.reg_tree.specs.TreeKeys.{IsAt, IsThere};
ghost use Rattle.reg_calls.specs.Internal.Askings.{status_by};
ghost use Rattle.reg_calls.specs.Internal.Stores.{at, IsReady, IsMade};
ghost use Rattle.reg_calls.specs.Internal.Admissions.{AdmitsSetValue};
ghost use Rattle.reg_calls.specs.Internal.Announcements.{IsAnnounced};
ghost use Rattle.reg_calls.specs.declared.store.JournalEnd.{JournalEnd};

use crate::announced::Announced;
use crate::asking::Asking;
use crate::lack::Lack;
use crate::replies::accepted;
use crate::store::{JournalEnd, Store};
use reg_callbacks::Callback;
use reg_heap::limits::{DATA_LIMIT, VALUES_LIMIT};
use reg_model::ChangeReply;
use reg_model::filters::LAST_SET;
use reg_model::rights::SET_VALUE;
use reg_model::statuses::{ACCESS_DENIED, INVALID_PARAMETER, NO_SYSTEM_RESOURCES};
use reg_names::check_value_name;
use reg_tree::{Node, Tree};
use std::alloc::{AllocError, Global};

/// What a SetValue was admitted with.
#[derive(Clone, Copy)]
pub struct SetValue<'a> {
    /// The handle.
    pub handle: u64,
    /// Its key.
    pub node: Node,
    /// Where it has a value of the name; `None` where it has none.
    pub place: Option<u32>,
    /// The name as given.
    pub name: &'a [u8],
    /// The type of the data.
    pub kind: u32,
    /// The data.
    pub bytes: &'a [u8],
}

fn is_bad_value(name: &[u8], bytes: &[u8]) -> bool
    ensures { result ≡ is_bad_value_of name.now bytes.now }
{
    check_value_name(name).is_err() || bytes.len() > DATA_LIMIT
}

/// Whether a key has as many values as there may be, and none of the name for which it has this place.
fn has_no_value_room(tree: &Tree, node: Node, place: Option<u32>) -> bool
    requires { IsThere tree.now node }
    ensures { (p : Path) → IsAt tree.now p node → (name : List ℕ) → place ≡ index_named name (values_at tree.now.tree p) →
        result ≡ no_value_room name (values_at tree.now.tree p) }
{
    place.is_none() && tree.values(node) >= VALUES_LIMIT
}

impl<'a> SetValue<'a> {
    ghost use Rattle.reg_model.specs.declared.call.Change.TheVariants.{SetValue as ValueSet};

    /// Finds the value's place. Refused by 6 and 1018 for the handle, 87 for the name or the data, 5 without the right, 1450
    /// where the journal is full or a new value would be too many, and by a callback.
    pub fn admit<C: Callback>(
        store: &Store,
        asking: &Asking<'_, C>,
        end: JournalEnd,
        session: u8,
        handle: u64,
        name: &'a [u8],
        kind: u32,
        bytes: &'a [u8],
    ) -> Result<SetValue<'a>, u32>
        requires { IsReady end store.now }
        ensures refused { IfErr result (λ status.
            change_cause (at end store.now) session (ValueSet handle name.now kind bytes.now) (status_by C.answers asking.now store.now session handle) ≡ Some status) }
        ensures admitted { IfOk result (λ found. AdmitsSetValue end store.now session handle found) }
        ensures asked { OnOk result (asked (status_by C.answers asking.now store.now session handle) ≡ None) }
        ensures name { IfOk result (λ found. found.name.now ≡ name.now) }
        ensures kind { IfOk result (λ found. found.kind ≡ kind) }
        ensures bytes { IfOk result (λ found. found.bytes.now ≡ bytes.now) }
    {
        let key = match store.key_of(session, handle) {
            Ok(key) => key,
            Err(status) => return Err(status),
        };
        if is_bad_value(name, bytes) {
            return Err(INVALID_PARAMETER);
        }
        if key.mask & SET_VALUE != SET_VALUE {
            return Err(ACCESS_DENIED);
        }
        let place = store.tree.value_index(key.node, name);
        // Not `||`: the rules name both limits as one cause, and without a branch the proof has one equation for it.
        if store.is_full(end) | has_no_value_room(&store.tree, key.node, place) {
            return Err(NO_SYSTEM_RESOURCES);
        }
        match asking.ask(key.path) {
            Ok(()) => {}
            Err(status) => return Err(status),
        }
        Ok(SetValue {
            handle,
            node: key.node,
            place,
            name,
            kind,
            bytes,
        })
    }

    /// What it does to the watches: an event of the key. Its one fault is that memory was refused.
    pub fn announce(
        &self,
        store: &Store,
        alloc: Global,
        session: u8,
    ) -> Result<Announced, AllocError>
        requires { (end : JournalEnd) × (handle : ℕ) × AdmitsSetValue end store.now session handle self.now }
        ensures { (end : JournalEnd) → (handle : ℕ) → AdmitsSetValue end store.now session handle self.now →
            IfOk result (λ announced. IsAnnounced end store.now session (ValueSet handle self.now.name.now self.now.kind self.now.bytes.now) announced) }
    {
        store.event_of(alloc, session, self.handle, LAST_SET)
    }

    /// Sets the value. `Err` says what was lacking, memory or space in the bins; then keys and handles are as they were.
    pub fn commit(
        self,
        store: &mut Store,
        alloc: Global,
        moment: u64,
        end: JournalEnd,
    ) -> Result<ChangeReply, Lack>
        requires ready { IsReady end store.old }
        requires admitted { (session handle : ℕ) × AdmitsSetValue end store.old session handle self }
        ensures { (session handle : ℕ) → AdmitsSetValue end store.old session handle self.entry →
            IsMade store.old store.new session moment end (ValueSet handle self.entry.name.now self.entry.kind self.entry.bytes.now) result }
    {
        match store.tree.set_at(
            alloc, self.node, self.place, self.name, self.kind, self.bytes, moment,
        ) {
            Ok(()) => Ok(accepted(end.next)),
            Err(fault) => Err(Lack::from(fault)),
        }
    }
}
