//! The keys that handles lead to, and those that were deleted under a handle.
ghost use Rattle.std.specs.Prelude.{◌≡◌, ◌+◌, ◌^◌, ◌<◌, List, [], ℕ, None, Some, OnErr, IfOk, if◌then◌else◌, IfSome, IfNone, option_map, true, false};
ghost use Rattle.std.specs.Prelude.{vec_len, vec_capacity, nat_eq};
ghost use Rattle.std.specs.List.{starts_with};
ghost use Rattle.std.specs.BTreeMap.{btree_map_len};
ghost use Rattle.slab.specs.Slab.{get, Updates};
ghost use Rattle.reg_handles.specs.FoundHandles.{destination_shown};
ghost use Rattle.reg_handles.specs.Internal.OpenKeySlab.{key_at, rows_of, destination_of, is_freed, leads_to, with_one_more, with_one_less};
ghost use Rattle.reg_handles.specs.Internal.OpenKeySlab.{with_payload, without_key, without_key_past, payload_of, start_below};
ghost use Rattle.reg_model.specs.Internal.TextNumbers.{goes_on};
ghost use Rattle.reg_handles.specs.Internal.OpenKeySlab.{UpdatesPath, IsHeld, IsOpenAt};

use slab::Slab;
use std::alloc::{AllocError, Global};
use std::collections::BTreeMap;
use std::ops::Bound;

/// The key that a handle leads to.
#[derive(Clone, Copy)]
pub struct Target<'a, K> {
    /// Its folded path as text.
    pub path: &'a [u8],
    /// What the table's owner keeps for it.
    pub payload: K,
}

/// A key that handles lead to: its folded path as text, what the table's owner keeps for it, how many rows have it, and whether it
/// was deleted.
#[derive(Drop)]
pub struct OpenKey<K> {
    pub path: Vec<u8>,
    pub payload: K,
    pub rows: u64,
    pub is_deleted: bool,
}

/// The keys with rows, in a slab, and where each key stands there that was not deleted, by its path's text.
#[derive(Drop)]
pub struct OpenKeys<K> {
    slots: Slab<OpenKey<K>>,
    by_path: BTreeMap<Vec<u8>, usize>,
}

impl<K: Copy> OpenKeys<K> {
    /// No keys.
    pub fn new(alloc: Global) -> OpenKeys<K>
        ensures slots { (key : ℕ) → get result.slots key ≡ None }
        ensures paths { (text : List ℕ) → key_at result.by_path.entries text ≡ None }
    {
        OpenKeys {
            slots: Slab::new(alloc),
            by_path: BTreeMap::new(alloc),
        }
    }

    /// A key with its path as text, or `None` where the key was deleted.
    pub fn target(&self, key: usize) -> Option<Target<'_, K>>
        ensures destination { destination_shown result ≡ destination_of (get self.now.slots key) }
        ensures text { IfSome result (λ target. IsOpenAt (get self.now.slots key) target.path.now) }
        ensures payload { IfSome result (λ target. payload_of (get self.now.slots key) ≡ Some target.payload) }
    {
        match self.slots.get(key) {
            Some(held) if !held.is_deleted => Some(Target {
                path: held.path.as_slice(),
                payload: held.payload,
            }),
            _ => None,
        }
    }

    /// Counts one row more of the key at a path, which a first row brings with that payload; a key that stands keeps its own.
    /// Answers where the key stands. Where memory is short, no key has changed.
    pub fn hold(&mut self, path: Vec<u8>, payload: K) -> Result<usize, AllocError>
        requires found { (text : List ℕ) (key : ℕ) → key_at self.old.by_path.entries text ≡ Some key → IsOpenAt (get self.old.slots key) text }
        requires room { (key : ℕ) → rows_of (get self.old.slots key) + 1 < 2 ^ 64 }
        ensures ok { IfOk result (IsHeld self.old.slots self.new.slots (key_at self.old.by_path.entries) (key_at self.new.by_path.entries) path.items payload) }
        ensures slots { OnErr result (self.new.slots.slots ≡ self.old.slots.slots) }
        ensures paths { OnErr result (self.new.by_path.entries ≡ self.old.by_path.entries) }
    {
        match self.find(path.as_slice()) {
            Some(key) => {
                self.count_up(key);
                Ok(key)
            }
            None => self.push(path, payload),
        }
    }

    /// Where the key at a path stands.
    fn find(&self, path: &[u8]) -> Option<usize>
        ensures { result ≡ key_at self.now.by_path.entries path.now }
    {
        match self.by_path.get(path) {
            Some(key) => Some(*key),
            None => None,
        }
    }

    /// Brings the key at a path, with one row. Where memory is short, no key has changed.
    fn push(&mut self, path: Vec<u8>, payload: K) -> Result<usize, AllocError>
        ensures vacant { IfOk result (λ key. get self.old.slots key ≡ None) }
        ensures slots { IfOk result (λ key. Updates self.old.slots self.new.slots key
            (Some (record { path = path; payload = payload; rows = 1; is_deleted = false }))) }
        ensures paths { IfOk result (λ key. UpdatesPath (key_at self.old.by_path.entries) path.items (Some key) (key_at self.new.by_path.entries)) }
        ensures slots_stay { OnErr result (self.new.slots.slots ≡ self.old.slots.slots) }
        ensures paths_stay { OnErr result (self.new.by_path.entries ≡ self.old.by_path.entries) }
    {
        let text = path.clone()?;
        self.slots.reserve(1)?;
        let key = self.slots.vacant_key();
        match self.by_path.insert(text, key) {
            Ok(_) => {
                self.slots.insert_reserved(OpenKey {
                    path,
                    payload,
                    rows: 1,
                    is_deleted: false,
                });
                Ok(key)
            }
            Err(_) => Err(AllocError),
        }
    }

    /// Counts one row more of a key.
    pub fn count_up(&mut self, key: usize)
        requires { rows_of (get self.old.slots key) + 1 < 2 ^ 64 }
        ensures slots { Updates self.old.slots self.new.slots key (option_map with_one_more (get self.old.slots key)) }
        ensures paths { self.new.by_path.entries ≡ self.old.by_path.entries }
    {
        if let Some(held) = self.slots.get_mut(key) {
            held.rows += 1;
        }
    }

    /// Keeps another payload for a key.
    pub fn set_payload(&mut self, key: usize, payload: K)
        ensures slots { Updates self.old.slots self.new.slots key (option_map (with_payload payload) (get self.old.slots key)) }
        ensures paths { self.new.by_path.entries ≡ self.old.by_path.entries }
    {
        if let Some(held) = self.slots.get_mut(key) {
            held.payload = payload;
        }
    }

    /// Counts one row less of a key, which has one. A key goes with its last row.
    pub fn release(&mut self, key: usize)
        requires { 0 < rows_of (get self.old.slots key) }
        ensures slots { Updates self.old.slots self.new.slots key (with_one_less (get self.old.slots key)) }
        ensures paths { (text : List ℕ) →
            key_at self.new.by_path.entries text ≡
            (if is_freed (get self.old.slots key) text then None else key_at self.old.by_path.entries text) }
    {
        if self.rows(key) == 1 {
            self.remove(key);
        } else {
            self.count_down(key);
        }
    }

    /// How many rows have a key.
    fn rows(&self, key: usize) -> u64
        ensures { result ≡ rows_of (get self.now.slots key) }
    {
        match self.slots.get(key) {
            Some(held) => held.rows,
            None => 0,
        }
    }

    /// Takes out a key, which has its last row.
    fn remove(&mut self, key: usize)
        requires { rows_of (get self.old.slots key) ≡ 1 }
        ensures slots { Updates self.old.slots self.new.slots key None }
        ensures paths { (text : List ℕ) →
            key_at self.new.by_path.entries text ≡
            (if is_freed (get self.old.slots key) text then None else key_at self.old.by_path.entries text) }
    {
        if let Some(held) = self.slots.try_remove(key) {
            if !held.is_deleted {
                self.by_path.remove(held.path.as_slice());
            }
        }
    }

    /// Counts one row less of a key, which has several.
    fn count_down(&mut self, key: usize)
        requires { 1 < rows_of (get self.old.slots key) }
        ensures slots { Updates self.old.slots self.new.slots key (with_one_less (get self.old.slots key)) }
        ensures paths { self.new.by_path.entries ≡ self.old.by_path.entries }
    {
        if let Some(held) = self.slots.get_mut(key) {
            held.rows -= 1;
        }
    }

    /// The key at a path was deleted, so that a key made later at the same path is another one.
    pub fn mark_deleted(&mut self, path: &[u8])
        ensures slots { (key : ℕ) →
            get self.new.slots key ≡
            (if leads_to (key_at self.old.by_path.entries path.now) key then option_map without_key (get self.old.slots key)
            else get self.old.slots key) }
        ensures paths { UpdatesPath (key_at self.old.by_path.entries) path.now None (key_at self.new.by_path.entries) }
    {
        if let Some(key) = self.by_path.remove(path) {
            if let Some(held) = self.slots.get_mut(key) {
                held.is_deleted = true;
            }
        }
    }

    /// All keys below a path were deleted. The path's text has room for a byte more, and no other memory is taken; the time follows
    /// the keys that are found.
    pub fn mark_deleted_under(&mut self, path: Vec<u8>)
        requires found { (text : List ℕ) (key : ℕ) → key_at self.old.by_path.entries text ≡ Some key → IsOpenAt (get self.old.slots key) text }
        requires listed { (text : List ℕ) (key : ℕ) → IsOpenAt (get self.old.slots key) text → key_at self.old.by_path.entries text ≡ Some key }
        requires room { vec_len path < vec_capacity path }
        ensures slots { (key : ℕ) → get self.new.slots key ≡ option_map (without_key_past (goes_on (start_below path.items))) (get self.old.slots key) }
        ensures paths { (text : List ℕ) →
            key_at self.new.by_path.entries text ≡
            (if goes_on (start_below path.items) text then None else key_at self.old.by_path.entries text) }
    {
        let start = start_below(path);
        while let Some(key) = self.first_past(&start) {
            self.delete(key);
        }
    }

    /// Where the first of the keys stands whose paths begin with a text and are longer.
    fn first_past(&self, start: &Vec<u8>) -> Option<usize>
        ensures some { IfSome result (λ key. (text : List ℕ) × (goes_on start.now.items text ≡ true) × (key_at self.now.by_path.entries text ≡ Some key)) }
        ensures none { IfNone result ((text : List ℕ) → goes_on start.now.items text ≡ true → key_at self.now.by_path.entries text ≡ None) }
    {
        let mut behind = self
            .by_path
            .range((Bound::Excluded(start), Bound::Unbounded));
        match behind.next() {
            Some((text, key)) if begins(text, start) => Some(*key),
            _ => None,
        }
    }

    /// A key was deleted.
    fn delete(&mut self, key: usize)
        requires { (text : List ℕ) × IsOpenAt (get self.old.slots key) text × (key_at self.old.by_path.entries text ≡ Some key) }
        ensures slots { Updates self.old.slots self.new.slots key (option_map without_key (get self.old.slots key)) }
        ensures paths { (text : List ℕ) → IsOpenAt (get self.old.slots key) text →
            UpdatesPath (key_at self.old.by_path.entries) text None (key_at self.new.by_path.entries) }
        ensures fewer { btree_map_len self.new.by_path < btree_map_len self.old.by_path }
    {
        if let Some(held) = self.slots.get_mut(key) {
            held.is_deleted = true;
            self.by_path.remove(held.path.as_slice());
        }
    }
}

/// Whether a text begins with another.
fn begins(text: &Vec<u8>, start: &Vec<u8>) -> bool
    ensures { result ≡ starts_with nat_eq text.now.items start.now.items }
{
    text.as_slice().starts_with(start.as_slice())
}

/// The text with which the paths below a path begin, all of which are longer.
fn start_below(path: Vec<u8>) -> Vec<u8>
    requires room { vec_len path < vec_capacity path }
    ensures { result.items ≡ start_below path.items }
{
    let mut start = path;
    if !start.is_empty() {
        match start.push(b'\\') {
            Ok(()) => {}
            Err(_) => unreachable!(),
        }
    }
    start
}
