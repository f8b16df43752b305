//! What one change makes of a file's hive: a hive loaded, the change made in it, and what its image is to be saved with.

ghost use Rattle.std.specs.Prelude.{◌≡◌, [], ◌∷◌, None, IfOk, IfErr, OnOk, MatchResult};
ghost use Rattle.reg_text.specs.Failures.{Stays};
ghost use Rattle.reg_callbacks.specs.Lists.{rows_of};
ghost use Rattle.reg_calls.specs.HiveView.{view_of, callbacks_of};
ghost use Rattle.reg_dotreg_import.specs.Imports.{entries_of};
ghost use Rattle.reg_edits.specs.KeyChanges.{hindrance_of, entries_for as entries_for_change, Alters, AlterStops, Changes, ChangeEnds, ChangeBlames};

use crate::edits::{Edited, is_changed, next_sequence};
use crate::hindrances::{Hindrance, what_hinders};
use crate::loading::{LoadedHive, load_seated};
use reg_callbacks::Callback;
use reg_calls::{Hive, SeatedHive};
use reg_dotreg_import::ImportFault;
use reg_dotreg_reader::{Entry, Numbered};
use reg_image::LoadFault;
use reg_model::Bytes;
use reg_text::Source;
use reg_words::KeyChange;
use std::alloc::{AllocError, Global};

/// What ended a change before there was anything to save.
#[derive(Debug, Drop)]
pub enum ChangeEnd {
    /// The image doesn't load, or there is no memory for its hive.
    Load(LoadFault),
    /// Something hinders the change.
    Hindered(Hindrance),
    /// A call was refused, or memory was refused for it. Its line says nothing.
    Call(ImportFault),
    /// There is no memory for the change.
    Memory,
}

impl From<LoadFault> for ChangeEnd {
    ghost use Rattle.reg_edits.specs.declared.changing.ChangeEnd.{ChangeEnd};

    ghost from_gives = { λ f e. e ≡ ChangeEnd.Load f };

    fn from(fault: LoadFault) -> ChangeEnd {
        ChangeEnd::Load(fault)
    }
}

impl From<AllocError> for ChangeEnd {
    ghost use Rattle.reg_edits.specs.declared.changing.ChangeEnd.{ChangeEnd};

    ghost from_gives = { λ _ e. e ≡ ChangeEnd.Memory };

    fn from(_fault: AllocError) -> ChangeEnd {
        ChangeEnd::Memory
    }
}

/// An entry by itself.
fn one(alloc: Global, entry: Entry) -> Result<Vec<Numbered>, AllocError>
    ensures { IfOk result (λ entries. entries_of entries.items ≡ entry ∷ []) }
{
    let mut entries = Vec::new(alloc);
    entries.push(Numbered { line: 1, entry })?;
    Ok(entries)
}

/// An entry of a key, and one behind it.
fn two(alloc: Global, path: Vec<u8>, entry: Entry) -> Result<Vec<Numbered>, AllocError>
    ensures { IfOk result (λ entries. entries_of entries.items ≡ Entry.Key path.items ∷ entry ∷ []) }
{
    let mut entries = one(alloc, Entry::Key(Bytes::from_vec(path)))?;
    entries.push(Numbered { line: 1, entry })?;
    Ok(entries)
}

/// The entries of a .reg text that make a change.
fn entries_for(alloc: Global, change: KeyChange) -> Result<Vec<Numbered>, AllocError>
    ensures { IfOk result (λ entries. entries_of entries.items ≡ entries_for_change change) }
{
    match change {
        KeyChange::CreateKey { path, .. } => one(alloc, Entry::Key(Bytes::from_vec(path))),
        KeyChange::SetValue {
            path,
            name,
            contents,
            ..
        } => {
            let entry = Entry::Value {
                name: Bytes::from_vec(name),
                kind: contents.kind,
                bytes: Bytes::from_vec(contents.bytes),
            };
            two(alloc, path, entry)
        }
        KeyChange::DeleteValue { path, name } => {
            two(alloc, path, Entry::GoneValue(Bytes::from_vec(name)))
        }
        KeyChange::DeleteKey { path, .. } => one(alloc, Entry::GoneKey(Bytes::from_vec(path))),
    }
}

/// What hinders a change of a hive.
fn hindrance_in<C: Callback>(hive: &Hive<C>, change: &KeyChange) -> Option<Hindrance>
    ensures { result ≡ hindrance_of (view_of hive.now).keys.tree change.now }
{
    what_hinders(hive.tree(), change)
}

/// Makes the entries of a change in a hive on which no callback is registered.
fn apply_entries<C: Callback>(
    alloc: Global,
    moment: u64,
    hive: &mut SeatedHive<C>,
    change: KeyChange,
) -> Result<(), ChangeEnd>
    requires callbacks { rows_of (callbacks_of hive.old.hive) ≡ [] }
    requires free { hindrance_of (view_of hive.old.hive).keys.tree change ≡ None }
    ensures ok { OnOk result (Alters moment change (view_of hive.old.hive) (view_of hive.new.hive)) }
    ensures err { IfErr result (λ fault. AlterStops fault moment change (view_of hive.old.hive)) }
{
    let entries = entries_for(alloc, change)?;
    match reg_dotreg_import::import(alloc, hive, moment, entries) {
        Ok(()) => Ok(()),
        Err(fault) => {
            // Only for its clauses: what stopped it met a hive.
            let _ = hive.hive.len();
            Err(ChangeEnd::Call(fault))
        }
    }
}

/// Makes a change in a hive on which no callback is registered, if nothing hinders it.
fn apply_change<C: Callback>(
    alloc: Global,
    moment: u64,
    hive: &mut SeatedHive<C>,
    change: KeyChange,
) -> Result<(), ChangeEnd>
    requires { rows_of (callbacks_of hive.old.hive) ≡ [] }
    ensures ok { OnOk result (Alters moment change (view_of hive.old.hive) (view_of hive.new.hive)) }
    ensures err { IfErr result (λ fault. AlterStops fault moment change (view_of hive.old.hive)) }
{
    match hindrance_in(&hive.hive, &change) {
        Some(why) => Err(ChangeEnd::Hindered(why)),
        None => apply_entries(alloc, moment, hive, change),
    }
}

/// Loads a hive from the image at the front of a file, makes one change in it at a moment, and answers the hive that it left, with that
/// moment and the next sequence number.
///
/// The change is made by the calls of an import of a .reg text that says it. It is hindered, and nothing is made: where the path is none,
/// or the value's name, or the data are too long; where the key isn't there of which a value is set or goes, or the key above the one that
/// is made, unless missing keys are made; where a value that goes isn't there; and where the key that goes isn't there, is the root, or has
/// keys below it that aren't to go.
pub fn change<F: Source>(
    alloc: Global,
    file: &mut F,
    moment: u64,
    change: KeyChange,
) -> Result<Edited, ChangeEnd>
    ensures ok { IfOk result (λ edited. Changes moment change edited (F.remaining file.old) (F.remaining file.new)) }
    ensures err { IfErr result (λ fault. ChangeEnds fault moment change (F.remaining file.old) (F.remaining file.new)) }
    ensures failures { MatchResult result (λ _. Stays (F.failures file.old) (F.failures file.new))
        (λ fault. ChangeBlames fault (F.failures file.old) (F.failures file.new)) }
{
    let LoadedHive {
        mut seated,
        sequence,
    } = load_seated(alloc, file)?;
    apply_change(alloc, moment, &mut seated, change)?;
    let is_changed = is_changed(&seated.hive);
    Ok(Edited {
        seated,
        moment,
        sequence: next_sequence(sequence),
        is_changed,
        failed: 0,
    })
}
