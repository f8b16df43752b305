//! DeleteTree: a key deleted with all keys below it, or with the empty path all that a key holds.
//!
//! Win32 registry reference, `RegDeleteTree`.
ghost use Rattle.std.specs.Prelude.{ℕ, List, ◌≡◌, ◌<◌, ◌≤◌, ◌++◌, ◌∷◌, [], true, length, map};
ghost use Rattle.std.specs.Prelude.{Ok, Some, None, IfErr, IfOk, OnOk, vec_len, vec_capacity, if◌then◌else◌};
ghost use Rattle.reg_names.specs.declared.TheConstants.{PATH_LIMIT};
ghost use Rattle.reg_names.specs.Names.{is_path, path_of, folded};
ghost use Rattle.reg_heap.specs.Paths.{Path};
ghost use Rattle.reg_heap.specs.Edits.{folded_path, is_under};
ghost use Rattle.reg_model.specs.Causes.{tree_rights, change_cause, asked};
ghost use Rattle.reg_model.specs.Watches.{event_at, few_removals, cleared};
ghost use Rattle.reg_tree.specs.TreeKeys.{IsAt, IsThere};
ghost use Rattle.reg_handles.specs.HandleTables.{IsFoldedPath};
ghost use Rattle.reg_notify.specs.Asked.{events_in};
ghost use Rattle.reg_calls.specs.Internal.Askings.{status_by};
ghost use Rattle.reg_calls.specs.Internal.Stores.{at, IsReady, IsOpened, IsMade};
ghost use Rattle.reg_calls.specs.Internal.Admissions.{IsClear, AdmitsDeleteTree, IsNotAdmitted};
ghost use Rattle.reg_calls.specs.Internal.Announcements.{ending_in, HasKinds, IsAnnounced};
ghost use Rattle.reg_calls.specs.Internal.DeletedTrees.{keeps_tree, IsTreeFound};
ghost use Rattle.reg_calls.specs.declared.store.JournalEnd.{JournalEnd};

use crate::announced::{Announced, one_event};
use crate::asking::Asking;
use crate::fronts::without_last;
use crate::refusal::Refusal;
use crate::replies::accepted;
use crate::store::{JournalEnd, KeyHandle, Store, path_below};
use reg_callbacks::Callback;
use reg_model::ChangeReply;
use reg_model::filters::{LAST_SET, NAME};
use reg_model::rights::{DELETE_CONTENTS, DELETE_TREE};
use reg_model::statuses::{ACCESS_DENIED, FILE_NOT_FOUND, INVALID_PARAMETER, NO_SYSTEM_RESOURCES};
use reg_names::check_path;
use reg_notify::{Event, Place, Removed};
use reg_tree::{Node, Reached, Tree};
use std::alloc::{AllocError, Global};

/// What goes of a tree.
#[derive(Clone, Copy)]
pub enum Target<'a> {
    /// A key, and where it stands below its parent, with all keys below it.
    Branch(Reached<'a>),
    /// All keys below a key, and the key's values; the key stays.
    Contents(Node),
}

/// What a DeleteTree was admitted with.
#[derive(Drop)]
pub struct DeleteTree<'a> {
    /// The path of the key that goes, or of the one that stays, as folded text, with room for a byte more.
    pub text: Vec<u8>,
    /// What goes.
    pub target: Target<'a>,
}

/// The rights that are asked: 0x1000B with the empty path, and else 0x10009.
fn rights(path: &[u8]) -> u32
    ensures { result ≡ tree_rights path.now }
{
    if path.is_empty() {
        DELETE_CONTENTS
    } else {
        DELETE_TREE
    }
}

/// What goes by a path from a key. The status of the refusal is 2 where the path isn't empty and there is no such key, and 5 where a
/// key that would go has mark 0x08.
fn find_target<'a>(tree: &Tree, from: Node, path: &'a [u8]) -> Result<Target<'a>, u32>
    requires from { IsThere tree.now from }
    requires path { is_path path.now ≡ true }
    ensures refused { (p : Path) → IsAt tree.now p from → IfErr result (λ status. keeps_tree tree.now.tree p path.now ≡ Some status) }
    ensures clear { (p : Path) → IsAt tree.now p from → OnOk result (keeps_tree tree.now.tree p path.now ≡ None) }
    ensures found { IfOk result (λ target. IsTreeFound tree.now from path.now target) }
{
    if path.is_empty() {
        if tree.is_kept_under(from) {
            return Err(ACCESS_DENIED);
        }
        return Ok(Target::Contents(from));
    }
    let reached = tree.reach(from, path);
    if !reached.missing.is_empty() {
        return Err(FILE_NOT_FOUND);
    }
    if tree.is_kept_within(reached.node) {
        return Err(ACCESS_DENIED);
    }
    Ok(Target::Branch(reached))
}

/// The path from the root to the end of a path from a key, as folded text, by that key's own, with room for a byte more, by which the
/// table of handles finds the paths below it. Its one fault is that memory was refused.
fn roomy_path_below(alloc: Global, above: &[u8], path: &[u8]) -> Result<Vec<u8>, AllocError>
    requires above { IsFoldedPath above.now }
    requires path { is_path path.now ≡ true }
    ensures names { IfOk result (λ text. path_of text.items ≡ path_of above.now ++ folded_path path.now) }
    ensures valid { length (path_of above.now ++ folded_path path.now) ≤ PATH_LIMIT → IfOk result (λ text. is_path text.items ≡ true) }
    ensures folded { IfOk result (λ text. map folded (path_of text.items) ≡ path_of text.items) }
    ensures room { IfOk result (λ text. vec_len text < vec_capacity text) }
{
    let mut text = path_below(alloc, above, path)?;
    text.reserve(1)?;
    Ok(text)
}

/// One event more of the key at a path, if there is one. Its one fault is that memory was refused.
fn push_if(
    events: &mut Vec<Event>,
    is_one: bool,
    alloc: Global,
    bits: u32,
    path: &[u8],
) -> Result<(), AllocError>
    requires { is_path path.now ≡ true }
    ensures { OnOk result (events_in events.new.items ≡ events_in events.old.items ++ (if is_one then event_at bits (path_of path.now) ∷ [] else [])) }
{
    if is_one {
        let place = Place::new(alloc, path)?;
        events.push(Event { bits, place })?;
    }
    Ok(())
}

/// What it does to the watches that all keys below a key are removed, and its values: an event of the key where it has subkeys, and
/// one where it has values. Its one fault is that memory was refused.
fn announce_contents(
    tree: &Tree,
    alloc: Global,
    node: Node,
    path: &[u8],
) -> Result<Announced, AllocError>
    requires there { IsAt tree.now (path_of path.now) node }
    requires path { is_path path.now ≡ true }
    ensures kinds { IfOk result HasKinds }
    ensures ends { IfOk result (λ announced. (by : ℕ) → ending_in announced by ≡ record {
      by = by;
      events = few_removals tree.now.tree (path_of path.now) ++ cleared tree.now.tree (path_of path.now);
      removes = is_under (path_of path.now);
      closed = None;
    }) }
{
    // Only for its clause `tree`: with each key there is the one above it, so that a key with a key below it has a subkey.
    let _ = tree.root();
    let mut events = Vec::with_capacity(alloc, 2)?;
    push_if(&mut events, tree.subkeys(node) > 0, alloc, NAME, path)?;
    push_if(&mut events, tree.values(node) > 0, alloc, LAST_SET, path)?;
    let removed = Removed::Under(Place::new(alloc, path)?);
    Ok(Announced::Changes { events, removed })
}

impl<'a> DeleteTree<'a> {
    ghost use Rattle.reg_model.specs.declared.call.Change.TheVariants.{DeleteTree as TreeDeleted};

    /// Finds what goes, without memory: the handle's key, and what goes by the path from it. Refused by 6 and 1018 for the handle, 87
    /// for the path, 5 without the rights, 1450 where the journal is full, by a callback, 2 where the path isn't empty and there is no
    /// such key, and 5 where a key that would go has mark 0x08.
    pub fn find<'s, C: Callback>(
        store: &'s Store,
        asking: &Asking<'_, C>,
        end: JournalEnd,
        session: u8,
        handle: u64,
        path: &'a [u8],
    ) -> Result<(KeyHandle<'s>, Target<'a>), u32>
        requires { IsReady end store.now }
        ensures refused { IfErr result (λ status.
            change_cause (at end store.now) session (TreeDeleted handle path.now) (status_by C.answers asking.now store.now session handle) ≡ Some status) }
        ensures clear { OnOk result (IsClear end store.now session (TreeDeleted handle path.now)) }
        ensures asked { OnOk result (asked (status_by C.answers asking.now store.now session handle) ≡ None) }
        ensures path { OnOk result (is_path path.now ≡ true) }
        ensures key { IfOk result (λ found. IsOpened store.now session handle found.0) }
        ensures goes { IfOk result (λ found. (p : Path) → IsAt store.now.tree p found.0.node → keeps_tree store.now.tree.tree p path.now ≡ None) }
        ensures found { IfOk result (λ found. IsTreeFound store.now.tree found.0.node path.now found.1) }
    {
        let key = match store.key_of(session, handle) {
            Ok(key) => key,
            Err(status) => return Err(status),
        };
        if check_path(path).is_err() {
            return Err(INVALID_PARAMETER);
        }
        let asked = rights(path);
        if key.mask & asked != asked {
            return Err(ACCESS_DENIED);
        }
        if store.is_full(end) {
            return Err(NO_SYSTEM_RESOURCES);
        }
        match asking.ask(key.path) {
            Ok(()) => {}
            Err(status) => return Err(status),
        }
        match find_target(&store.tree, key.node, path) {
            Ok(target) => Ok((key, target)),
            Err(status) => Err(status),
        }
    }

    /// Finds what goes and keeps the path as text. Refused as by `find`; or for want of memory.
    pub fn admit<C: Callback>(
        store: &Store,
        asking: &Asking<'_, C>,
        alloc: Global,
        end: JournalEnd,
        session: u8,
        handle: u64,
        path: &'a [u8],
    ) -> Result<DeleteTree<'a>, Refusal>
        requires { IsReady end store.now }
        ensures refused { IfErr result (λ refusal. IsNotAdmitted (status_by C.answers asking.now store.now session handle) end store.now session (TreeDeleted handle path.now) refusal) }
        ensures admitted { IfOk result (λ found. AdmitsDeleteTree end store.now session handle path.now found) }
        ensures asked { OnOk result (asked (status_by C.answers asking.now store.now session handle) ≡ None) }
    {
        let (key, target) = match DeleteTree::find(store, asking, end, session, handle, path) {
            Ok(found) => found,
            Err(status) => return Err(Refusal::Cause(status)),
        };
        // Only for its clause `shallow`: no key is deeper than 512 names, so that the text is a path.
        let _ = store.tree.root();
        match roomy_path_below(alloc, key.path, path) {
            Ok(text) => Ok(DeleteTree { text, target }),
            Err(_) => Err(Refusal::Memory),
        }
    }

    /// What it does to the watches: where a key goes, an event of the key above it; where it stays, one of that key for the keys below
    /// it and one for its values; and these keys removed. Its one fault is that memory was refused.
    pub fn announce(&self, store: &Store, alloc: Global) -> Result<Announced, AllocError>
        requires { (end : JournalEnd) × (session handle : ℕ) × (path : List ℕ) × AdmitsDeleteTree end store.now session handle path self.now }
        ensures { (end : JournalEnd) → (session handle : ℕ) → (path : List ℕ) → AdmitsDeleteTree end store.now session handle path self.now →
            IfOk result (λ announced. IsAnnounced end store.now session (TreeDeleted handle path) announced) }
    {
        let text = self.text.as_slice();
        match self.target {
            Target::Branch(_) => {
                let key = Place::new(alloc, text)?;
                let above = Place::new(alloc, without_last(text))?;
                one_event(alloc, NAME, above, Removed::Within(key))
            }
            Target::Contents(node) => announce_contents(&store.tree, alloc, node, text),
        }
    }

    /// Deletes what goes, and turns the handles off that lead to a key of it.
    pub fn commit(self, store: &mut Store, moment: u64, end: JournalEnd) -> ChangeReply
        requires ready { IsReady end store.old }
        requires admitted { (session handle : ℕ) × (path : List ℕ) × AdmitsDeleteTree end store.old session handle path self }
        ensures { (session handle : ℕ) → (path : List ℕ) → AdmitsDeleteTree end store.old session handle path self.entry →
            IsMade store.old store.new session moment end (TreeDeleted handle path) (Ok result) }
    {
        let DeleteTree { text, target } = self;
        match target {
            Target::Branch(reached) => {
                store.tree.delete_tree_at(reached, moment);
                store.handles.mark_deleted_within(text);
                accepted(end.next)
            }
            Target::Contents(node) => {
                store.tree.empty(node, moment);
                store.handles.mark_deleted_under(text);
                accepted(end.next)
            }
        }
    }
}
