//! The keys of a hive, the open handles on them and the watches: what every call looks up, and the counts that several ask.
ghost use Rattle.std.specs.Prelude.{◌≡◌, ◌<◌, ◌≤◌, ◌+◌, ◌++◌, ◌||◌, ℕ, List, Option, true, false, length, map, IfOk, IfErr, OnOk, Some};
ghost use Rattle.reg_names.specs.declared.TheConstants.{PATH_LIMIT};
ghost use Rattle.reg_names.specs.Names.{is_path, path_of, folded};
ghost use Rattle.reg_heap.specs.Edits.{folded_path};
ghost use Rattle.reg_model.specs.declared.limits.TheConstants.{JOURNAL_LIMIT, SESSIONS_LIMIT};
ghost use Rattle.reg_model.specs.Causes.{change_cause, is_full as is_full_of, no_handle_room, is_bad_given};
ghost use Rattle.reg_model.specs.Causes.{is_bad_open as is_bad_open_of, is_bad_descriptor as is_bad_descriptor_of};
ghost use Rattle.reg_handles.specs.HandleTables.{IsFoldedPath};
ghost use Rattle.reg_calls.specs.Internal.Stores.{at, IsReady, IsLooked, IsOpened, KnowsKeys};

use reg_handles::Handles;
use reg_heap::limits::DESCRIPTOR_LIMIT;
use reg_model::limits::{HANDLES_LIMIT, JOURNAL_LIMIT};
use reg_model::rights::NO_RIGHTS;
use reg_model::statuses::{INVALID_HANDLE, INVALID_PARAMETER, KEY_DELETED, NO_SYSTEM_RESOURCES};
use reg_names::{check_path, join_paths};
use reg_notify::Watches;
use reg_tree::{Node, Tree};
use std::alloc::{AllocError, Global};

/// The keys of a hive, the open handles on them and the watches. For each path that handles lead to the table keeps the node of its key.
#[derive(Drop)]
pub struct Store {
    pub tree: Tree,
    pub handles: Handles<Node>,
    pub watches: Watches,
}

/// Where the journal ends: how many entries it keeps, and the number of the next one.
#[derive(Clone, Copy)]
pub struct JournalEnd {
    pub kept: usize,
    pub next: u64,
}

/// An open handle that leads to a key.
#[derive(Clone, Copy)]
pub struct KeyHandle<'a> {
    /// Its rights.
    pub mask: u32,
    /// The path of its key, as folded text.
    pub path: &'a [u8],
    /// Its key.
    pub node: Node,
}

/// The path from the root to the end of a path from a key, as folded text, by that key's own. Its one fault is that memory was
/// refused.
pub fn path_below(alloc: Global, above: &[u8], path: &[u8]) -> Result<Vec<u8>, AllocError>
    requires above { IsFoldedPath above.now }
    requires path { is_path path.now ≡ true }
    ensures names { IfOk result (λ text. path_of text.items ≡ path_of above.now ++ folded_path path.now) }
    ensures valid { length (path_of above.now ++ folded_path path.now) ≤ PATH_LIMIT → IfOk result (λ text. is_path text.items ≡ true) }
    ensures folded { IfOk result (λ text. map folded (path_of text.items) ≡ path_of text.items) }
{
    join_paths(alloc, above, path)
}

/// Whether a path or a mask is none with which a handle may be opened.
pub fn is_bad_open(path: &[u8], mask: u32) -> bool
    ensures { result ≡ is_bad_open_of path.now mask }
{
    check_path(path).is_err() || mask & NO_RIGHTS != 0
}

/// Whether a descriptor has no bytes, or more than 65,535.
pub fn is_bad_descriptor(descriptor: &[u8]) -> bool
    ensures { result ≡ is_bad_descriptor_of descriptor.now }
{
    descriptor.is_empty() || descriptor.len() > DESCRIPTOR_LIMIT
}

impl Store {
    ghost use Rattle.reg_model.specs.declared.call.Change.TheVariants.{OpenKey, CreateKey};

    /// The session's handle of that number, or the status of the refusal: 6 where there is none, 1018 where its key was
    /// deleted.
    pub fn key_of(&self, session: u8, handle: u64) -> Result<KeyHandle<'_>, u32>
        requires { KnowsKeys self.now }
        ensures { IsLooked self.now session handle result }
    {
        let Some(found) = self.handles.look(session, handle) else {
            return Err(INVALID_HANDLE);
        };
        let Some(target) = found.target else {
            return Err(KEY_DELETED);
        };
        Ok(KeyHandle {
            mask: found.mask,
            path: target.path,
            node: target.payload,
        })
    }

    /// Whether the journal has no room for one more entry beside the closings of the open handles.
    pub fn is_full(&self, end: JournalEnd) -> bool
        requires { end.kept + length self.now.handles.handles ≤ JOURNAL_LIMIT }
        ensures { result ≡ is_full_of 1 (at end self.now) }
    {
        end.kept + 1 + self.handles.len() > JOURNAL_LIMIT
    }

    /// Whether the session has as many handles as there may be, or the journal has no room for an entry and the closing of
    /// the handle that it opens.
    pub fn has_no_handle_room(&self, end: JournalEnd, session: u8) -> bool
        requires session { session < SESSIONS_LIMIT }
        requires small { end.kept + length self.now.handles.handles ≤ JOURNAL_LIMIT }
        ensures { result ≡ no_handle_room session (at end self.now) }
    {
        self.handles.count(session) >= HANDLES_LIMIT
            || end.kept + 2 + self.handles.len() > JOURNAL_LIMIT
    }

    /// What is asked first by the two calls that open a handle by another: that handle's key, or why both are refused, whatever the
    /// callbacks would answer: for the handle, for bad arguments (`is_bad` says whether some are), or for want of room for one more handle.
    pub fn key_to_open_at(
        &self,
        end: JournalEnd,
        session: u8,
        handle: u64,
        is_bad: bool,
    ) -> Result<KeyHandle<'_>, u32>
        requires session { session < SESSIONS_LIMIT }
        requires ready { IsReady end self.now }
        ensures open { (path : List ℕ) → (mask c : ℕ) → is_bad ≡ is_bad_open_of path mask →
            IfErr result (λ status. change_cause (at end self.now) session (OpenKey handle path mask) c ≡ Some status) }
        ensures create { (path : List ℕ) → (mask c : ℕ) → (given : Option (List ℕ)) → is_bad ≡ (is_bad_open_of path mask || is_bad_given given) →
            IfErr result (λ status. change_cause (at end self.now) session (CreateKey handle path mask given) c ≡ Some status) }
        ensures key { IfOk result (λ key. IsOpened self.now session handle key) }
        ensures good { OnOk result (is_bad ≡ false) }
        ensures room { OnOk result (no_handle_room session (at end self.now) ≡ false) }
    {
        let key = match self.key_of(session, handle) {
            Ok(key) => key,
            Err(status) => return Err(status),
        };
        if is_bad {
            return Err(INVALID_PARAMETER);
        }
        if self.has_no_handle_room(end, session) {
            return Err(NO_SYSTEM_RESOURCES);
        }
        Ok(key)
    }
}
