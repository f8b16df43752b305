//! Entries applied, one after another.
ghost use Rattle.std.specs.Prelude.{◌≡◌, ℕ, List, OnOk, IfErr};
ghost use Rattle.reg_calls.specs.HiveView.{view_of, callbacks_of, asks_of};
ghost use Rattle.reg_dotreg_reader.specs.declared.entry.Entry.{Entry};
ghost use Rattle.reg_dotreg_import.specs.Imports.{Stand, after_entry, after_entries, imported, entries_of, numbers_of};
ghost use Rattle.reg_dotreg_import.specs.ImportCalls.{Accepts, leaving, import_calls};
ghost use Rattle.reg_dotreg_import.specs.ImportStops.{ImportStops, IsStoppedAt, StopsAmong};
ghost use Rattle.reg_dotreg_import.specs.Internal.Standing.{IsImporting, IsRooted, IsEntryMade, AreEntriesMade, hands_of};

use crate::ImportFault;
use crate::lookup::{lacks_key, lacks_value};
use crate::made::{close, make};
use reg_callbacks::Callback;
use reg_calls::SeatedHive;
use reg_dotreg_reader::{Entry, Numbered};
use reg_model::{Bytes, Change};
use std::alloc::Global;

/// All rights that a handle may have.
const ALL_RIGHTS: u32 = 0xF_003F;

/// The handles of session 0 by which entries are applied.
#[derive(Drop)]
struct Handles {
    alloc: Global,
    moment: u64,
    /// Leads to the root.
    root: u64,
    /// Leads to the key that values go to; before the first key it is the root's.
    key: u64,
    /// The path of that key, as it was given.
    path: Bytes,
}

impl Handles {
    /// Closes the handle that values went to, unless it is the root's.
    fn leave<C: Callback>(&self, hive: &mut SeatedHive<C>)
        ensures callbacks { callbacks_of hive.new.hive ≡ callbacks_of hive.old.hive }
        ensures rooted { (before : List ℕ) → (s : Stand) → IsImporting before self.now (view_of hive.old.hive) s →
            IsRooted before self.now.root self.now.root (view_of hive.new.hive) s.tree }
        ensures led { (before : List ℕ) → (s : Stand) → IsImporting before self.now (view_of hive.old.hive) s →
            Accepts self.now.moment (view_of hive.old.hive) (leaving (hands_of self.now (view_of hive.old.hive) s)) (view_of hive.new.hive) }
    {
        if self.key != self.root {
            close(hive, self.moment, self.key);
        }
    }

    /// Makes a key where it isn't there, and goes on with its values.
    fn key<C: Callback>(
        &mut self,
        hive: &mut SeatedHive<C>,
        line: u64,
        path: Bytes,
    ) -> Result<(), ImportFault>
        ensures callbacks { callbacks_of hive.new.hive ≡ callbacks_of hive.old.hive }
        ensures moment { self.new.moment ≡ self.old.moment }
        ensures ok { (before : List ℕ) → (s : Stand) → IsImporting before self.old (view_of hive.old.hive) s →
            OnOk result (IsImporting before self.new (view_of hive.new.hive) (after_entry self.old.moment s (Entry.Key path))) }
        ensures led { (before : List ℕ) → (s : Stand) → IsImporting before self.old (view_of hive.old.hive) s →
            OnOk result (IsEntryMade self.old.moment (hands_of self.old (view_of hive.old.hive) s) (Entry.Key path) (view_of hive.old.hive) (view_of hive.new.hive)
            (hands_of self.new (view_of hive.new.hive) (after_entry self.old.moment s (Entry.Key path)))) }
        ensures err { (before : List ℕ) → (s : Stand) → IsImporting before self.old (view_of hive.old.hive) s →
            IfErr result (IsStoppedAt (asks_of C.answers hive.old.hive) self.old.moment line (hands_of self.old (view_of hive.old.hive) s) (Entry.Key path)
            (view_of hive.old.hive) (view_of hive.new.hive)) }
    {
        let copy = path.try_clone(self.alloc)?;
        self.leave(hive);
        let change = Change::CreateKey {
            handle: self.root,
            path,
            mask: ALL_RIGHTS,
            descriptor: None,
        };
        let Some(key) = make(hive, self.moment, line, change)? else {
            unreachable!()
        };
        self.key = key;
        self.path = copy;
        Ok(())
    }

    /// Takes a key away with all that is below it, where it is there.
    fn gone_key<C: Callback>(
        &self,
        hive: &mut SeatedHive<C>,
        line: u64,
        path: Bytes,
    ) -> Result<(), ImportFault>
        ensures callbacks { callbacks_of hive.new.hive ≡ callbacks_of hive.old.hive }
        ensures ok { (before : List ℕ) → (s : Stand) → IsImporting before self.now (view_of hive.old.hive) s →
            OnOk result (IsImporting before self.now (view_of hive.new.hive) (after_entry self.now.moment s (Entry.GoneKey path))) }
        ensures led { (before : List ℕ) → (s : Stand) → IsImporting before self.now (view_of hive.old.hive) s →
            OnOk result (IsEntryMade self.now.moment (hands_of self.now (view_of hive.old.hive) s) (Entry.GoneKey path) (view_of hive.old.hive) (view_of hive.new.hive)
            (hands_of self.now (view_of hive.new.hive) (after_entry self.now.moment s (Entry.GoneKey path)))) }
        ensures err { (before : List ℕ) → (s : Stand) → IsImporting before self.now (view_of hive.old.hive) s →
            IfErr result (IsStoppedAt (asks_of C.answers hive.old.hive) self.now.moment line (hands_of self.now (view_of hive.old.hive) s) (Entry.GoneKey path)
            (view_of hive.old.hive) (view_of hive.new.hive)) }
    {
        if lacks_key(hive.hive.tree(), path.as_slice()) {
            return Ok(());
        }
        let change = Change::DeleteTree {
            handle: self.root,
            path,
        };
        make(hive, self.moment, line, change)?;
        Ok(())
    }

    /// Sets a value of the key that values go to.
    fn value<C: Callback>(
        &self,
        hive: &mut SeatedHive<C>,
        line: u64,
        name: Bytes,
        kind: u32,
        bytes: Bytes,
    ) -> Result<(), ImportFault>
        ensures callbacks { callbacks_of hive.new.hive ≡ callbacks_of hive.old.hive }
        ensures ok { (before : List ℕ) → (s : Stand) → IsImporting before self.now (view_of hive.old.hive) s →
            OnOk result (IsImporting before self.now (view_of hive.new.hive) (after_entry self.now.moment s (Entry.Value name kind bytes))) }
        ensures led { (before : List ℕ) → (s : Stand) → IsImporting before self.now (view_of hive.old.hive) s →
            OnOk result (IsEntryMade self.now.moment (hands_of self.now (view_of hive.old.hive) s) (Entry.Value name kind bytes) (view_of hive.old.hive) (view_of hive.new.hive)
            (hands_of self.now (view_of hive.new.hive) (after_entry self.now.moment s (Entry.Value name kind bytes)))) }
        ensures err { (before : List ℕ) → (s : Stand) → IsImporting before self.now (view_of hive.old.hive) s →
            IfErr result (IsStoppedAt (asks_of C.answers hive.old.hive) self.now.moment line (hands_of self.now (view_of hive.old.hive) s) (Entry.Value name kind bytes)
            (view_of hive.old.hive) (view_of hive.new.hive)) }
    {
        let change = Change::SetValue {
            handle: self.key,
            name,
            kind,
            bytes,
        };
        make(hive, self.moment, line, change)?;
        Ok(())
    }

    /// Takes a value of that key away, where it has one of that name.
    fn gone_value<C: Callback>(
        &self,
        hive: &mut SeatedHive<C>,
        line: u64,
        name: Bytes,
    ) -> Result<(), ImportFault>
        ensures callbacks { callbacks_of hive.new.hive ≡ callbacks_of hive.old.hive }
        ensures ok { (before : List ℕ) → (s : Stand) → IsImporting before self.now (view_of hive.old.hive) s →
            OnOk result (IsImporting before self.now (view_of hive.new.hive) (after_entry self.now.moment s (Entry.GoneValue name))) }
        ensures led { (before : List ℕ) → (s : Stand) → IsImporting before self.now (view_of hive.old.hive) s →
            OnOk result (IsEntryMade self.now.moment (hands_of self.now (view_of hive.old.hive) s) (Entry.GoneValue name) (view_of hive.old.hive) (view_of hive.new.hive)
            (hands_of self.now (view_of hive.new.hive) (after_entry self.now.moment s (Entry.GoneValue name)))) }
        ensures err { (before : List ℕ) → (s : Stand) → IsImporting before self.now (view_of hive.old.hive) s →
            IfErr result (IsStoppedAt (asks_of C.answers hive.old.hive) self.now.moment line (hands_of self.now (view_of hive.old.hive) s) (Entry.GoneValue name)
            (view_of hive.old.hive) (view_of hive.new.hive)) }
    {
        if lacks_value(hive.hive.tree(), self.path.as_slice(), name.as_slice()) {
            return Ok(());
        }
        let change = Change::DeleteValue {
            handle: self.key,
            name,
        };
        make(hive, self.moment, line, change)?;
        Ok(())
    }

    fn apply<C: Callback>(
        &mut self,
        hive: &mut SeatedHive<C>,
        numbered: Numbered,
    ) -> Result<(), ImportFault>
        ensures callbacks { callbacks_of hive.new.hive ≡ callbacks_of hive.old.hive }
        ensures moment { self.new.moment ≡ self.old.moment }
        ensures ok { (before : List ℕ) → (s : Stand) → IsImporting before self.old (view_of hive.old.hive) s →
            OnOk result (IsImporting before self.new (view_of hive.new.hive) (after_entry self.old.moment s numbered.entry)) }
        ensures led { (before : List ℕ) → (s : Stand) → IsImporting before self.old (view_of hive.old.hive) s →
            OnOk result (IsEntryMade self.old.moment (hands_of self.old (view_of hive.old.hive) s) numbered.entry (view_of hive.old.hive) (view_of hive.new.hive)
            (hands_of self.new (view_of hive.new.hive) (after_entry self.old.moment s numbered.entry))) }
        ensures err { (before : List ℕ) → (s : Stand) → IsImporting before self.old (view_of hive.old.hive) s →
            IfErr result (IsStoppedAt (asks_of C.answers hive.old.hive) self.old.moment numbered.line (hands_of self.old (view_of hive.old.hive) s) numbered.entry
            (view_of hive.old.hive) (view_of hive.new.hive)) }
    {
        let Numbered { line, entry } = numbered;
        match entry {
            Entry::Key(path) => self.key(hive, line, path),
            Entry::GoneKey(path) => self.gone_key(hive, line, path),
            Entry::Value { name, kind, bytes } => self.value(hive, line, name, kind, bytes),
            Entry::GoneValue(name) => self.gone_value(hive, line, name),
        }
    }

    fn apply_all<C: Callback>(
        &mut self,
        hive: &mut SeatedHive<C>,
        entries: Vec<Numbered>,
    ) -> Result<(), ImportFault>
        ensures callbacks { callbacks_of hive.new.hive ≡ callbacks_of hive.old.hive }
        ensures moment { self.new.moment ≡ self.old.moment }
        ensures ok { (before : List ℕ) → (s : Stand) → IsImporting before self.old (view_of hive.old.hive) s →
            OnOk result (IsImporting before self.new (view_of hive.new.hive) (after_entries self.old.moment s (entries_of entries.items))) }
        ensures led { (before : List ℕ) → (s : Stand) → IsImporting before self.old (view_of hive.old.hive) s →
            OnOk result (AreEntriesMade self.old.moment (hands_of self.old (view_of hive.old.hive) s) (entries_of entries.items) (view_of hive.old.hive)
            (view_of hive.new.hive) (hands_of self.new (view_of hive.new.hive) (after_entries self.old.moment s (entries_of entries.items)))) }
        ensures err { (before : List ℕ) → (s : Stand) → IsImporting before self.old (view_of hive.old.hive) s →
            IfErr result (λ fault. StopsAmong (asks_of C.answers hive.old.hive) self.old.moment fault (hands_of self.old (view_of hive.old.hive) s) entries.items
            (view_of hive.old.hive) (view_of hive.new.hive)) }
    {
        for numbered in entries {
            self.apply(hive, numbered)?;
        }
        Ok(())
    }
}

/// Applies the entries of a .reg text to a hive, one after another, all at one moment (100 ns units since 1601), as calls of
/// session 0: a key is made with all that are missing on the way, and the values behind it are its own; a key that goes takes along all
/// that is below it; what isn't there to go is passed over. Values before the first key are the root's. Of the empty path the root is
/// meant: it stays, and loses all keys below it and its values. The handles that this opens are closed at the end, and callbacks are
/// asked as of every call.
///
/// `Refused` tells the line of the first entry that the hive refuses, and its status: 87 for a name, path or data that none may be, 5 where
/// a key to go has mark 8, 1018 where the key of a value went, 1450 where there is no room, or what a callback answers. With line 0 it
/// tells why the root wasn't opened. `Memory` tells that memory was refused. After a fault the entries before it are applied, handles may
/// be open, and the hive is of use to nobody: drop it.
pub fn import<C: Callback>(
    alloc: Global,
    hive: &mut SeatedHive<C>,
    moment: u64,
    entries: Vec<Numbered>,
) -> Result<(), ImportFault>
    ensures callbacks { callbacks_of hive.new.hive ≡ callbacks_of hive.old.hive }
    ensures ok { OnOk result ((view_of hive.new.hive).keys.tree ≡ imported moment (view_of hive.old.hive).keys.tree (entries_of entries.items)) }
    ensures calls { OnOk result (Accepts moment (view_of hive.old.hive) (import_calls moment (view_of hive.old.hive) (entries_of entries.items)) (view_of hive.new.hive)) }
    ensures handles { OnOk result (numbers_of (view_of hive.new.hive).handles ≡ numbers_of (view_of hive.old.hive).handles) }
    ensures err { IfErr result (λ fault. ImportStops (asks_of C.answers hive.old.hive) moment fault (view_of hive.old.hive) entries.items (view_of hive.new.hive)) }
{
    // Only for its clauses: what is true of every hive.
    let _ = hive.hive.len();
    let change = Change::OpenRoot { mask: ALL_RIGHTS };
    let Some(root) = make(hive, moment, 0, change)? else {
        unreachable!()
    };
    let mut handles = Handles {
        alloc,
        moment,
        root,
        key: root,
        path: Bytes::from_vec(Vec::new(alloc)),
    };
    handles.apply_all(hive, entries)?;
    handles.leave(hive);
    close(hive, moment, handles.root);
    Ok(())
}
