//! DeleteKey: a key without subkeys deleted.
//!
//! Win32 registry reference, `RegDeleteKey`.
ghost use Rattle.std.specs.Prelude.{ℕ, List, ◌≡◌, true, Some, None, Ok, IfErr, IfOk, OnOk};
ghost use Rattle.reg_names.specs.Names.{is_path};
ghost use Rattle.reg_heap.specs.Paths.{Path};
ghost use Rattle.reg_heap.specs.Edits.{may_not_go as may_not_go_of};
ghost use Rattle.reg_model.specs.Causes.{is_bad_target as is_bad_target_of, change_cause, asked};
ghost use Rattle.reg_tree.specs.TreeKeys.{IsAt, IsThere};
ghost use Rattle.reg_calls.specs.Internal.Askings.{status_by};
ghost use Rattle.reg_calls.specs.Internal.Stores.{at, IsReady, IsOpened, IsMade};
ghost use Rattle.reg_calls.specs.Internal.Admissions.{IsClear, IsDeletionFound, AdmitsDeleteKey, IsNotAdmitted};
ghost use Rattle.reg_calls.specs.Internal.Announcements.{IsAnnounced};
ghost use Rattle.reg_calls.specs.declared.store.JournalEnd.{JournalEnd};

use crate::announced::{Announced, one_event};
use crate::asking::Asking;
use crate::fronts::without_last;
use crate::refusal::Refusal;
use crate::replies::accepted;
use crate::store::{JournalEnd, KeyHandle, Store, path_below};
use reg_callbacks::Callback;
use reg_heap::marks::NO_DELETE;
use reg_model::ChangeReply;
use reg_model::filters::NAME;
use reg_model::statuses::{ACCESS_DENIED, FILE_NOT_FOUND, INVALID_PARAMETER, NO_SYSTEM_RESOURCES};
use reg_names::check_path;
use reg_notify::{Place, Removed};
use reg_tree::{Node, Reached, Tree};
use std::alloc::{AllocError, Global};

/// What a DeleteKey was admitted with.
#[derive(Drop)]
pub struct DeleteKey<'a> {
    /// The path of the key, as folded text.
    pub text: Vec<u8>,
    /// The key, and where it stands below its parent.
    pub reached: Reached<'a>,
}

fn is_bad_target(path: &[u8]) -> bool
    ensures { result ≡ is_bad_target_of path.now }
{
    check_path(path).is_err() || path.is_empty()
}

/// Whether a key has subkeys, or is never deleted.
fn may_not_go(tree: &Tree, node: Node) -> bool
    requires { IsThere tree.now node }
    ensures { (p : Path) → IsAt tree.now p node → result ≡ may_not_go_of tree.now.tree p }
{
    // Only for its clause `key`: the node's key is in the tree, of which the clauses of what follows speak.
    let _ = tree.name(node);
    tree.subkeys(node) > 0 || tree.marks(node) & NO_DELETE != 0
}

impl<'a> DeleteKey<'a> {
    ghost use Rattle.reg_model.specs.declared.call.Change.TheVariants.{DeleteKey as KeyDeleted};

    /// Finds the key, without memory: the handle's key, and the key at the end of the path from it, with where it stands below its
    /// parent. Refused by 6 and 1018 for the handle, 87 for the path or an empty one, 1450 where the journal is full, by a callback, 2
    /// where there is no such key, and 5 where it has subkeys or mark 0x08.
    pub fn find<'s, C: Callback>(
        store: &'s Store,
        asking: &Asking<'_, C>,
        end: JournalEnd,
        session: u8,
        handle: u64,
        path: &'a [u8],
    ) -> Result<(KeyHandle<'s>, Reached<'a>), u32>
        requires { IsReady end store.now }
        ensures refused { IfErr result (λ status.
            change_cause (at end store.now) session (KeyDeleted handle path.now) (status_by C.answers asking.now store.now session handle) ≡ Some status) }
        ensures clear { OnOk result (IsClear end store.now session (KeyDeleted handle path.now)) }
        ensures asked { OnOk result (asked (status_by C.answers asking.now store.now session handle) ≡ None) }
        ensures path { OnOk result (is_path path.now ≡ true) }
        ensures key { IfOk result (λ found. IsOpened store.now session handle found.0) }
        ensures found { IfOk result (λ found. IsDeletionFound store.now.tree found.0.node path.now found.1) }
    {
        let key = match store.key_of(session, handle) {
            Ok(key) => key,
            Err(status) => return Err(status),
        };
        if is_bad_target(path) {
            return Err(INVALID_PARAMETER);
        }
        if store.is_full(end) {
            return Err(NO_SYSTEM_RESOURCES);
        }
        match asking.ask(key.path) {
            Ok(()) => {}
            Err(status) => return Err(status),
        }
        let reached = store.tree.reach(key.node, path);
        if !reached.missing.is_empty() {
            return Err(FILE_NOT_FOUND);
        }
        if may_not_go(&store.tree, reached.node) {
            return Err(ACCESS_DENIED);
        }
        Ok((key, reached))
    }

    /// Finds the key and keeps its path as text. Refused as by `find`; or for want of memory.
    pub fn admit<C: Callback>(
        store: &Store,
        asking: &Asking<'_, C>,
        alloc: Global,
        end: JournalEnd,
        session: u8,
        handle: u64,
        path: &'a [u8],
    ) -> Result<DeleteKey<'a>, Refusal>
        requires { IsReady end store.now }
        ensures refused { IfErr result (λ refusal. IsNotAdmitted (status_by C.answers asking.now store.now session handle) end store.now session (KeyDeleted handle path.now) refusal) }
        ensures admitted { IfOk result (λ found. AdmitsDeleteKey end store.now session handle path.now found) }
        ensures asked { OnOk result (asked (status_by C.answers asking.now store.now session handle) ≡ None) }
    {
        let (key, reached) = match DeleteKey::find(store, asking, end, session, handle, path) {
            Ok(found) => found,
            Err(status) => return Err(Refusal::Cause(status)),
        };
        // Only for its clause `shallow`: no key is deeper than 512 names, so that the text is a path.
        let _ = store.tree.root();
        match path_below(alloc, key.path, path) {
            Ok(text) => Ok(DeleteKey { text, reached }),
            Err(_) => Err(Refusal::Memory),
        }
    }

    /// What it does to the watches: an event of the key above, and the key removed. Its one fault is that memory was refused.
    pub fn announce(&self, store: &Store, alloc: Global) -> Result<Announced, AllocError>
        requires { (end : JournalEnd) × (session handle : ℕ) × (path : List ℕ) × AdmitsDeleteKey end store.now session handle path self.now }
        ensures { (end : JournalEnd) → (session handle : ℕ) → (path : List ℕ) → AdmitsDeleteKey end store.now session handle path self.now →
            IfOk result (λ announced. IsAnnounced end store.now session (KeyDeleted handle path) announced) }
    {
        let key = Place::new(alloc, self.text.as_slice())?;
        let above = Place::new(alloc, without_last(self.text.as_slice()))?;
        one_event(alloc, NAME, above, Removed::Key(key))
    }

    /// Deletes the key, and turns the handles off that lead to it.
    pub fn commit(self, store: &mut Store, moment: u64, end: JournalEnd) -> ChangeReply
        requires ready { IsReady end store.old }
        requires admitted { (session handle : ℕ) × (path : List ℕ) × AdmitsDeleteKey end store.old session handle path self }
        ensures { (session handle : ℕ) → (path : List ℕ) → AdmitsDeleteKey end store.old session handle path self.entry →
            IsMade store.old store.new session moment end (KeyDeleted handle path) (Ok result) }
    {
        store.tree.delete_at(self.reached, moment);
        store.handles.mark_deleted(self.text.as_slice());
        accepted(end.next)
    }
}
