//! OpenKey: a handle to a key that is there.
//!
//! Win32 registry reference, `RegOpenKeyEx`.
ghost use Rattle.std.specs.Prelude.{ℕ, List, ◌≡◌, ◌<◌, true, Some, None, IfErr, IfOk, OnOk};
ghost use Rattle.reg_names.specs.Names.{is_path};
ghost use Rattle.reg_model.specs.declared.limits.TheConstants.{SESSIONS_LIMIT};
ghost use Rattle.reg_model.specs.Causes.{change_cause, asked};
ghost use Rattle.reg_calls.specs.Internal.Askings.{status_by};
ghost use Rattle.reg_calls.specs.Internal.Stores.{at, IsReady, IsOpened, IsMade};
ghost use Rattle.reg_calls.specs.Internal.Admissions.{IsClear, IsKeyFound, AdmitsOpenKey, IsNotAdmitted};

use crate::asking::Asking;
use crate::lack::Lack;
use crate::refusal::Refusal;
use crate::replies::opened;
use crate::store::{JournalEnd, KeyHandle, Store, is_bad_open, path_below};
use reg_callbacks::Callback;
use reg_model::ChangeReply;
use reg_model::statuses::FILE_NOT_FOUND;
use reg_tree::Node;
use std::alloc::Global;

/// What an OpenKey was admitted with.
#[derive(Drop)]
pub struct OpenKey {
    /// The rights that are asked.
    pub mask: u32,
    /// The handle by whose key it was found.
    pub by: u64,
    /// The path of the key, as folded text; `None` where it is that handle's own key, so that its path is not copied.
    pub text: Option<Vec<u8>>,
    /// The key.
    pub node: Node,
}

impl OpenKey {
    ghost use Rattle.reg_model.specs.declared.call.Change.TheVariants.{OpenKey as KeyOpened};

    /// Finds the key, without memory: the handle's key, and the key at the end of the path from it. Refused by 6 and 1018 for the
    /// handle, 87 for the path or the mask, 1450 where the session has 16,384 handles or the journal is full, by a callback, and 2
    /// where there is no such key.
    pub fn find<'s, C: Callback>(
        store: &'s Store,
        asking: &Asking<'_, C>,
        end: JournalEnd,
        session: u8,
        handle: u64,
        path: &[u8],
        mask: u32,
    ) -> Result<(KeyHandle<'s>, Node), u32>
        requires session { session < SESSIONS_LIMIT }
        requires ready { IsReady end store.now }
        ensures refused { IfErr result (λ status.
            change_cause (at end store.now) session (KeyOpened handle path.now mask) (status_by C.answers asking.now store.now session handle) ≡ Some status) }
        ensures clear { OnOk result (IsClear end store.now session (KeyOpened handle path.now mask)) }
        ensures asked { OnOk result (asked (status_by C.answers asking.now store.now session handle) ≡ None) }
        ensures path { OnOk result (is_path path.now ≡ true) }
        ensures key { IfOk result (λ found. IsOpened store.now session handle found.0) }
        ensures found { IfOk result (λ found. IsKeyFound store.now.tree found.0.node path.now found.1) }
    {
        let key = match store.key_to_open_at(end, session, handle, is_bad_open(path, mask)) {
            Ok(key) => key,
            Err(status) => return Err(status),
        };
        match asking.ask(key.path) {
            Ok(()) => {}
            Err(status) => return Err(status),
        }
        let Some(node) = store.tree.resolve(key.node, path) else {
            return Err(FILE_NOT_FOUND);
        };
        Ok((key, node))
    }

    /// Finds the key and keeps its path as text. Refused as by `find`; or for want of memory.
    pub fn admit<C: Callback>(
        store: &Store,
        asking: &Asking<'_, C>,
        alloc: Global,
        end: JournalEnd,
        session: u8,
        handle: u64,
        path: &[u8],
        mask: u32,
    ) -> Result<OpenKey, Refusal>
        requires session { session < SESSIONS_LIMIT }
        requires ready { IsReady end store.now }
        ensures refused { IfErr result (λ refusal. IsNotAdmitted (status_by C.answers asking.now store.now session handle) end store.now session (KeyOpened handle path.now mask) refusal) }
        ensures admitted { IfOk result (λ found. AdmitsOpenKey end store.now session handle path.now found) }
        ensures asked { OnOk result (asked (status_by C.answers asking.now store.now session handle) ≡ None) }
        ensures mask { IfOk result (λ found. found.mask ≡ mask) }
    {
        let (key, node) = match OpenKey::find(store, asking, end, session, handle, path, mask) {
            Ok(found) => found,
            Err(status) => return Err(Refusal::Cause(status)),
        };
        if path.is_empty() {
            return Ok(OpenKey {
                mask,
                by: handle,
                text: None,
                node,
            });
        }
        // Only for its clause `shallow`: no key is deeper than 512 names, so that the path's text is one that the table takes.
        let _ = store.tree.root();
        match path_below(alloc, key.path, path) {
            Ok(text) => Ok(OpenKey {
                mask,
                by: handle,
                text: Some(text),
                node,
            }),
            Err(_) => Err(Refusal::Memory),
        }
    }

    /// Opens the key as the handle of a number. `Err` says that memory was lacking; then keys and handles are as they were.
    pub fn commit(
        self,
        store: &mut Store,
        session: u8,
        end: JournalEnd,
    ) -> Result<ChangeReply, Lack>
        requires session { session < SESSIONS_LIMIT }
        requires ready { IsReady end store.old }
        requires admitted { (handle : ℕ) × (path : List ℕ) × AdmitsOpenKey end store.old session handle path self }
        ensures { (moment handle : ℕ) → (path : List ℕ) → AdmitsOpenKey end store.old session handle path self →
            IsMade store.old store.new session moment end (KeyOpened handle path self.mask) result }
    {
        let OpenKey {
            mask,
            by,
            text,
            node,
        } = self;
        let Some(text) = text else {
            return match store.handles.add_beside(session, end.next, mask, by) {
                Ok(()) => Ok(opened(end.next, None)),
                Err(_) => Err(Lack::Memory),
            };
        };
        match store.handles.add(session, end.next, mask, text, node) {
            Ok(()) => Ok(opened(end.next, None)),
            Err(_) => Err(Lack::Memory),
        }
    }
}
