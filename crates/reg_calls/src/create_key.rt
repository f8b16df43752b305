//! CreateKey: a handle to a key, which is made where it isn't there, with those above it.
//!
//! Win32 registry reference, `RegCreateKeyEx`.
ghost use Rattle.std.specs.Prelude.{ℕ, List, ◌≡◌, ◌<◌, ◌||◌, true, Some, None, option_copied, IfErr, IfOk, OnOk};
ghost use Rattle.reg_names.specs.Names.{is_path};
ghost use Rattle.reg_model.specs.declared.limits.TheConstants.{SESSIONS_LIMIT};
ghost use Rattle.reg_model.specs.Causes.{is_bad_open as is_bad_open_of, is_bad_given as is_bad_given_of, change_cause, asked};
ghost use Rattle.reg_calls.specs.Internal.Askings.{status_by};
ghost use Rattle.reg_calls.specs.Internal.Stores.{at, IsReady, IsOpened, IsMade};
ghost use Rattle.reg_calls.specs.Internal.Admissions.{IsClear, IsReachFound, AdmitsCreateKey, IsNotAdmitted};
ghost use Rattle.reg_calls.specs.Internal.Announcements.{IsAnnounced};
ghost use Rattle.reg_calls.specs.declared.store.JournalEnd.{JournalEnd};

use crate::announced::{Announced, one_event};
use crate::asking::Asking;
use crate::fronts::without_names;
use crate::lack::Lack;
use crate::refusal::Refusal;
use crate::replies::opened;
use crate::store::{JournalEnd, KeyHandle, Store, is_bad_descriptor, is_bad_open, path_below};
use reg_callbacks::Callback;
use reg_model::ChangeReply;
use reg_model::dispositions::{MADE, THERE};
use reg_model::filters::NAME;
use reg_model::statuses::NO_SYSTEM_RESOURCES;
use reg_notify::{Place, Removed};
use reg_tree::Reached;
use std::alloc::{AllocError, Global};

/// What a CreateKey was admitted with.
#[derive(Drop)]
pub struct CreateKey<'a> {
    /// The rights that are asked.
    pub mask: u32,
    /// The path of the key, as folded text.
    pub text: Vec<u8>,
    /// How far the path leads, which names are missing and where they belong.
    pub reached: Reached<'a>,
    /// The security descriptor of the last key that is made, if one is given.
    pub descriptor: Option<&'a [u8]>,
}

/// Whether a descriptor is given that no key may have.
fn is_bad_given(descriptor: Option<&[u8]>) -> bool
    ensures { result ≡ is_bad_given_of (option_copied descriptor.entry) }
{
    match descriptor {
        Some(descriptor) => is_bad_descriptor(descriptor),
        None => false,
    }
}

fn is_bad_create(path: &[u8], mask: u32, descriptor: Option<&[u8]>) -> bool
    ensures { result ≡ (is_bad_open_of path.now mask || is_bad_given_of (option_copied descriptor.entry)) }
{
    is_bad_open(path, mask) || is_bad_given(descriptor)
}

impl<'a> CreateKey<'a> {
    ghost use Rattle.reg_model.specs.declared.call.Change.TheVariants.{CreateKey as KeyCreated};

    /// Finds how far the path leads, without memory: the handle's key, and how far it leads from there. Refused by 6 and 1018 for the
    /// handle, 87 for the path, the mask or a descriptor that isn't of 1 to 65,535 bytes, also where no key is missing, 1450 where the
    /// session has 16,384 handles, the journal is full, or the missing keys would be too many; and by a callback.
    pub fn find<'s, C: Callback>(
        store: &'s Store,
        asking: &Asking<'_, C>,
        end: JournalEnd,
        session: u8,
        handle: u64,
        path: &'a [u8],
        mask: u32,
        descriptor: Option<&[u8]>,
    ) -> Result<(KeyHandle<'s>, Reached<'a>), u32>
        requires session { session < SESSIONS_LIMIT }
        requires ready { IsReady end store.now }
        ensures refused { IfErr result (λ status. change_cause (at end store.now) session (KeyCreated handle path.now mask (option_copied descriptor.entry))
            (status_by C.answers asking.now store.now session handle) ≡ Some status) }
        ensures clear { OnOk result (IsClear end store.now session (KeyCreated handle path.now mask (option_copied descriptor.entry))) }
        ensures asked { OnOk result (asked (status_by C.answers asking.now store.now session handle) ≡ None) }
        ensures path { OnOk result (is_path path.now ≡ true) }
        ensures key { IfOk result (λ found. IsOpened store.now session handle found.0) }
        ensures found { IfOk result (λ found. IsReachFound store.now.tree found.0.node path.now found.1) }
    {
        let is_bad = is_bad_create(path, mask, descriptor);
        let key = match store.key_to_open_at(end, session, handle, is_bad) {
            Ok(key) => key,
            Err(status) => return Err(status),
        };
        let reached = store.tree.reach(key.node, path);
        if store.tree.is_limited(reached) {
            return Err(NO_SYSTEM_RESOURCES);
        }
        match asking.ask(key.path) {
            Ok(()) => {}
            Err(status) => return Err(status),
        }
        Ok((key, reached))
    }

    /// Finds how far the path leads and keeps the path as text. Refused as by `find`; or for want of memory.
    pub fn admit<C: Callback>(
        store: &Store,
        asking: &Asking<'_, C>,
        alloc: Global,
        end: JournalEnd,
        session: u8,
        handle: u64,
        path: &'a [u8],
        mask: u32,
        descriptor: Option<&'a [u8]>,
    ) -> Result<CreateKey<'a>, Refusal>
        requires session { session < SESSIONS_LIMIT }
        requires ready { IsReady end store.now }
        ensures refused { IfErr result (λ refusal.
            IsNotAdmitted (status_by C.answers asking.now store.now session handle) end store.now session
            (KeyCreated handle path.now mask (option_copied descriptor.entry)) refusal) }
        ensures admitted { IfOk result (λ found. AdmitsCreateKey end store.now session handle path.now found) }
        ensures asked { OnOk result (asked (status_by C.answers asking.now store.now session handle) ≡ None) }
        ensures mask { IfOk result (λ found. found.mask ≡ mask) }
        ensures descriptor { IfOk result (λ found. option_copied found.descriptor ≡ option_copied descriptor.entry) }
    {
        let (key, reached) = match CreateKey::find(
            store, asking, end, session, handle, path, mask, descriptor,
        ) {
            Ok(found) => found,
            Err(status) => return Err(Refusal::Cause(status)),
        };
        // Only for its clause `shallow`: no key is deeper than 512 names, so that the path's text is one that the table takes.
        let _ = store.tree.root();
        match path_below(alloc, key.path, path) {
            Ok(text) => Ok(CreateKey {
                mask,
                text,
                reached,
                descriptor,
            }),
            Err(_) => Err(Refusal::Memory),
        }
    }

    /// What it does to the watches: an event of the key above the first that is made, if one is. Its one fault is that memory was
    /// refused.
    pub fn announce(&self, store: &Store, alloc: Global) -> Result<Announced, AllocError>
        requires { (end : JournalEnd) × (session handle : ℕ) × (path : List ℕ) × AdmitsCreateKey end store.now session handle path self.now }
        ensures { (end : JournalEnd) → (session handle : ℕ) → (path : List ℕ) → AdmitsCreateKey end store.now session handle path self.now →
            IfOk result (λ announced. IsAnnounced end store.now session
            (KeyCreated handle path self.now.mask (option_copied self.now.descriptor)) announced) }
    {
        let missing = self.reached.missing;
        if missing.is_empty() {
            return Ok(Announced::Nothing);
        }
        let above = Place::new(alloc, without_names(self.text.as_slice(), missing))?;
        one_event(alloc, NAME, above, Removed::Nothing)
    }

    /// Makes the keys that are missing, the last with the descriptor if one is given, and opens the last key of the path as the handle
    /// of a number. `Err` says what was lacking, memory or space in the bins; then keys and handles are as they were.
    pub fn commit(
        self,
        store: &mut Store,
        alloc: Global,
        session: u8,
        moment: u64,
        end: JournalEnd,
    ) -> Result<ChangeReply, Lack>
        requires session { session < SESSIONS_LIMIT }
        requires ready { IsReady end store.old }
        requires admitted { (handle : ℕ) × (path : List ℕ) × AdmitsCreateKey end store.old session handle path self }
        ensures { (handle : ℕ) → (path : List ℕ) → AdmitsCreateKey end store.old session handle path self.entry →
            IsMade store.old store.new session moment end (KeyCreated handle path self.entry.mask (option_copied self.entry.descriptor)) result }
    {
        let CreateKey {
            mask,
            text,
            reached,
            descriptor,
        } = self;
        // Only for its clause `payloads`: no payload is kept for a path that no handle leads to.
        let _ = store.handles.len();
        // The handle first: it can be taken back, and keys that are made can't. Where the key is there, its node is known; where it
        // is made, that is put in afterwards, and until then the last key that is there holds its place.
        match store
            .handles
            .add(session, end.next, mask, text, reached.node)
        {
            Ok(()) => {}
            Err(_) => return Err(Lack::Memory),
        }
        if reached.missing.is_empty() {
            return Ok(opened(end.next, Some(THERE)));
        }
        match store.tree.create_at(alloc, reached, descriptor, moment) {
            Ok(node) => {
                store.handles.set_payload(end.next, node);
                Ok(opened(end.next, Some(MADE)))
            }
            Err(fault) => {
                store.handles.close(session, end.next);
                Err(Lack::from(fault))
            }
        }
    }
}
