//! The open handles by their numbers.
ghost use Rattle.std.specs.Prelude.{◌≡◌, ◌<◌, ◌++◌, ◌∷◌, ℕ, List, [], Some, None, OnOk, OnErr, All, length, map, is_some, true};
ghost use Rattle.std.specs.Prelude.{bytes_eq, unwrap_or, if◌then◌else◌, vec_len, vec_capacity};
ghost use Rattle.reg_names.specs.Names.{folded as folded_name, path_of, is_path};
ghost use Rattle.reg_heap.specs.Paths.{Path};
ghost use Rattle.reg_heap.specs.Edits.{is_within, is_under};
ghost use Rattle.reg_model.specs.declared.limits.TheConstants.{HANDLES_LIMIT};
ghost use Rattle.reg_model.specs.Worlds.{look, numbered, closed, turned, turned_past, At};
ghost use Rattle.reg_model.specs.Causes.{handles_of as count_of};
ghost use Rattle.reg_handles.specs.FoundHandles.{shown, IfLeads, HasPayload};
ghost use Rattle.reg_handles.specs.HandleTables.{IsFoldedPath, IsLeadingTo, payload_on, leads_there, is_open};

use crate::keys::{OpenKeys, Target};
use crate::rows::{Row, Rows};
use reg_model::limits::SESSIONS_LIMIT;
use std::alloc::{AllocError, Global};
use std::marker::Model;

/// A handle that was found.
#[derive(Clone, Copy)]
pub struct Found<'a, K> {
    /// Its rights.
    pub mask: u32,
    /// The key that it leads to, or `None` where that key was deleted.
    pub target: Option<Target<'a, K>>,
}

/// The open handles of a hive by number, with the keys that they lead to and a count for each session. For each path that handles
/// lead to it keeps a payload of its owner's, a small `Copy` value, and hands it back.
#[derive(Drop)]
pub struct Handles<K> {
    rows: Rows,
    keys: OpenKeys<K>,
    counts: [u32; SESSIONS_LIMIT],
}

impl<K> Model for Handles<K> {
    ghost use Rattle.reg_handles.specs.HandleTables.{Table, coded_table};

    ghost Value = { Table K };

    ghost coded = { coded_table K.code };

    ghost use Rattle.reg_handles.specs.Internal.OrderedRows.{ordered};
    ghost use Rattle.reg_handles.specs.Internal.OpenKeySlab.{key_at, payloads_of};
    ghost use Rattle.reg_handles.specs.Internal.HandleRows.{handles_of, IsTable};

    ghost view = { λ h. record {
      handles = handles_of h.keys.slots (ordered h.rows.by_number.entries);
      payloads = payloads_of h.keys.slots h.keys.by_path.entries;
    } };

    ghost invariant = { λ h. IsTable h.keys.slots (key_at h.keys.by_path.entries) (ordered h.rows.by_number.entries) h.counts };
}

impl<K: Copy> Handles<K> {
    /// A table with no handle.
    pub fn new(alloc: Global) -> Handles<K>
        ensures handles { result.handles ≡ [] }
        ensures payloads { (text : List ℕ) → payload_on result text ≡ None }
    {
        Handles {
            rows: Rows::new(alloc),
            keys: OpenKeys::new(alloc),
            counts: [0; SESSIONS_LIMIT],
        }
    }

    /// How many handles are open. It also tells (clause `payloads`) that a payload is kept for just the paths that handles lead to.
    pub fn len(&self) -> usize
        ensures len { result ≡ length self.now.handles }
        ensures payloads { (text : List ℕ) → is_some (payload_on self.now text) ≡ is_open (path_of text) self.now.handles }
    {
        self.rows.len()
    }

    /// How many handles the session has.
    pub fn count(&self, session: u8) -> u32
        requires { session < SESSIONS_LIMIT }
        ensures { result ≡ count_of session self.now.handles }
    {
        let place = session as usize;
        self.counts[place]
    }

    /// Finds the handle of that number, if it is the session's. Lends the folded path of its key as text, with its payload, or
    /// `None` where the key was deleted.
    pub fn look(&self, session: u8, number: u64) -> Option<Found<'_, K>>
        ensures handle { shown session number result ≡ look session number self.now.handles }
        ensures path { IfLeads result IsFoldedPath }
        ensures payload { HasPayload self.now result }
    {
        match self.rows.get(number) {
            Some(row) if row.session == session => Some(Found {
                mask: row.mask,
                target: self.keys.target(row.key),
            }),
            _ => None,
        }
    }

    /// Adds a handle to the key at a path under a number above all others. A path that handles lead to keeps its payload, and any
    /// other one gets this. Where memory is short, the table is as before.
    pub fn add(
        &mut self,
        session: u8,
        number: u64,
        mask: u32,
        path: Vec<u8>,
        payload: K,
    ) -> Result<(), AllocError>
        requires above { All (λ h. h.number < number) self.old.handles }
        requires session { session < SESSIONS_LIMIT }
        requires room { count_of session self.old.handles < HANDLES_LIMIT }
        requires path { is_path path.items ≡ true }
        requires folded { map folded_name (path_of path.items) ≡ path_of path.items }
        ensures ok { OnOk result
            (self.new.handles ≡ self.old.handles
            ++ record { number = number; session = session; mask = mask; destination = At (path_of path.items) } ∷ []) }
        ensures payloads { OnOk result ((text : List ℕ) →
            payload_on self.new text ≡
            (if bytes_eq path.items text then Some (unwrap_or (payload_on self.old path.items) payload) else payload_on self.old text)) }
        ensures err { OnErr result (self.new ≡ self.old) }
    {
        // A key has no more rows than the table, so that its count has room for one more.
        let rows = self.rows.len();
        prove!(rows < usize::MAX);
        self.rows.reserve()?;
        let key = self.keys.hold(path, payload)?;
        let row = Row { session, mask, key };
        self.rows.push(number, row);
        self.counts[session as usize] += 1;
        Ok(())
    }

    /// Adds a handle to the key that another handle leads to, under a number above all others. That key's path is neither copied nor
    /// looked for, so that it takes as long whatever the path. Where memory is short, the table is as before.
    pub fn add_beside(
        &mut self,
        session: u8,
        number: u64,
        mask: u32,
        other: u64,
    ) -> Result<(), AllocError>
        requires above { All (λ h. h.number < number) self.old.handles }
        requires session { session < SESSIONS_LIMIT }
        requires room { count_of session self.old.handles < HANDLES_LIMIT }
        requires leads { (p : Path) × IsLeadingTo p (numbered other self.old.handles) }
        ensures ok { (p : Path) → IsLeadingTo p (numbered other self.old.handles) → OnOk result
            (self.new.handles ≡ self.old.handles ++ record { number = number; session = session; mask = mask; destination = At p } ∷ []) }
        ensures payloads { OnOk result ((text : List ℕ) → payload_on self.new text ≡ payload_on self.old text) }
        ensures err { OnErr result (self.new ≡ self.old) }
    {
        // A key has no more rows than the table, so that its count has room for one more.
        let rows = self.rows.len();
        prove!(rows < usize::MAX);
        let Some(beside) = self.rows.get(other) else {
            unreachable!()
        };
        let key = beside.key;
        self.rows.reserve()?;
        self.keys.count_up(key);
        self.rows.push(number, Row { session, mask, key });
        self.counts[session as usize] += 1;
        Ok(())
    }

    /// Keeps another payload for the path that a handle leads to, if it leads to one.
    pub fn set_payload(&mut self, number: u64, payload: K)
        ensures handles { self.new.handles ≡ self.old.handles }
        ensures payloads { (text : List ℕ) →
            payload_on self.new text ≡
            (if leads_there (path_of text) (numbered number self.old.handles) then Some payload else payload_on self.old text) }
    {
        if let Some(row) = self.rows.get(number) {
            self.keys.set_payload(row.key, payload);
        }
    }

    /// Closes a handle of the session, which has it. A path's payload goes with the last handle that leads there.
    pub fn close(&mut self, session: u8, number: u64)
        requires { is_some (look session number self.old.handles) ≡ true }
        ensures handles { self.new.handles ≡ closed number self.old.handles }
        ensures payloads { (text : List ℕ) →
            payload_on self.new text ≡ (if is_open (path_of text) self.new.handles then payload_on self.old text else None) }
    {
        if let Some(row) = self.rows.remove(number) {
            self.keys.release(row.key);
            self.counts[session as usize] -= 1;
        }
    }

    /// The key at a path was deleted: the handles on it lead nowhere any more, and its payload is gone.
    pub fn mark_deleted(&mut self, path: &[u8])
        ensures handles { self.new.handles ≡ turned (path_of path.now) self.old.handles }
        ensures payloads { (text : List ℕ) → payload_on self.new text ≡ (if bytes_eq path.now text then None else payload_on self.old text) }
    {
        self.keys.mark_deleted(path);
    }

    /// All keys below a path were deleted: the handles on them lead nowhere any more, and their payloads are gone. The path's text
    /// has room for a byte more, so that no memory is taken. The time follows the keys that handles led to there.
    pub fn mark_deleted_under(&mut self, path: Vec<u8>)
        requires room { vec_len path < vec_capacity path }
        ensures handles { self.new.handles ≡ turned_past (is_under (path_of path.items)) self.old.handles }
        ensures payloads { (text : List ℕ) →
            payload_on self.new text ≡ (if is_under (path_of path.items) (path_of text) then None else payload_on self.old text) }
    {
        self.keys.mark_deleted_under(path);
    }

    /// The key at a path was deleted and all keys below it: the handles on them lead nowhere any more, and their payloads are gone.
    /// The path's text has room for a byte more, so that no memory is taken. The time follows the keys that handles led to there.
    pub fn mark_deleted_within(&mut self, path: Vec<u8>)
        requires room { vec_len path < vec_capacity path }
        ensures handles { self.new.handles ≡ turned_past (is_within (path_of path.items)) self.old.handles }
        ensures payloads { (text : List ℕ) →
            payload_on self.new text ≡ (if is_within (path_of path.items) (path_of text) then None else payload_on self.old text) }
    {
        self.keys.mark_deleted(path.as_slice());
        self.keys.mark_deleted_under(path);
    }
}
