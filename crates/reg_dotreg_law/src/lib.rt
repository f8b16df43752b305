//! The laws of .reg texts: what is written of a tree is read as that tree's keys and values, and makes the tree again.
//!
//! Each function is one law: it does nothing, and its contract says what holds of the definitions of reg_dotreg_writer, which writes, of
//! reg_dotreg_reader, which reads, and of reg_dotreg_import, which applies what was read. [`entries_make_the_branch`],
//! [`entries_make_the_tree`] and [`changes_make_the_new_tree`] speak of entries and trees, [`values_are_read_back`],
//! [`text_is_read_back`], [`file_is_read_back`], [`changes_are_read_back`] and [`file_of_changes_is_read_back`] of texts,
//! [`import_of_an_export_is_the_branch`], [`import_of_an_export_is_the_tree`] and [`import_of_changes_is_the_new_tree`] of files, and
//! [`what_an_export_wrote_an_import_makes`] and [`what_changes_wrote_an_import_makes`] of hives, in the words of the calls that export
//! and import.
#![tactic(auto)]

ghost use Rattle.std.specs.Prelude.{◌≡◌, ℕ, [], IsSome, Bool, List, ◌∷◌, Option, Some, None, true, ◌++◌};
ghost use Rattle.std.specs.FinMap.{get};
ghost use Rattle.reg_heap.specs.Paths.{Path, Tree, Member};
ghost use Rattle.reg_heap.specs.Trees.{IsTree, IsWithinLimits};
ghost use Rattle.reg_tree_text.specs.DumpTexts.{name_of};
ghost use Rattle.reg_dotreg_import.specs.Imports.{imported, entries_of};
ghost use Rattle.reg_dotreg_law.specs.EntriesDue.{entries_below, entries_due};
ghost use Rattle.reg_dotreg_law.specs.MadeAgain.{IsBare, HasSame, HasSameBelow, HasAlike};
ghost use Rattle.reg_names.specs.Names.{folded};
ghost use Rattle.reg_dotreg_writer.specs.EntryTexts.{value_entry};
ghost use Rattle.reg_dotreg_writer.specs.Entries.{CanWrite, root_shown, can_stand, entries_text, file_bytes};
ghost use Rattle.reg_dotreg_reader.specs.FileUnits.{units_of};
ghost use Rattle.reg_dotreg_reader.specs.declared.entry.Entry.TheVariants.{Value};
ghost use Rattle.reg_tree.specs.ValueBytes.{IsOfBytes};
ghost use Rattle.reg_dotreg_law.specs.MadeOfFiles.{IsBranchOfFile, IsMadeOfFile, IsChangedByFile};
ghost use Rattle.reg_dotreg_law.specs.ReadBack.{IsKept, Says, IsReadBack};
ghost use Rattle.reg_dotreg_law.specs.ChangesDue.{changes_due, AreReadBack};
ghost use Rattle.reg_dotreg_writer.specs.Changes.{changes_text, CanWriteChanges};
ghost use Rattle.reg_heap.specs.Edits.{folded_path};
ghost use Rattle.reg_calls.specs.Views.{View};
ghost use Rattle.reg_queries.specs.ImageExports.{Exports};
ghost use Rattle.reg_queries.specs.ImageChanges.{ExportsChanges};
ghost use Rattle.reg_dotreg_reader.specs.declared.entry.Numbered.{Numbered};
ghost use Rattle.reg_edits.specs.TextImports.{root_name, front_of, Applies, IsText};

/// The entries of the keys from one on make, at any moment, of a tree with the root alone one that has just that key, those below it and
/// those on the way to it: below the root with the same names, at and below that key with the same values, on the way without values. It
/// is a tree, and its root keeps the name that it had.
pub fn entries_make_the_branch()
    ensures same { (tree bare : Tree) → (path : Path) → (moment : ℕ) → IsTree tree → IsWithinLimits tree → IsSome (get tree path) →
        IsBare bare → HasSameBelow (imported moment bare (entries_below tree path)) tree path }
    ensures is_tree { (tree bare : Tree) → (path : Path) → (moment : ℕ) → IsTree tree → IsWithinLimits tree → IsSome (get tree path) →
        IsBare bare → IsTree (imported moment bare (entries_below tree path)) }
    ensures root { (tree bare : Tree) → (path : Path) → (moment : ℕ) → IsTree tree → IsWithinLimits tree → IsSome (get tree path) →
        IsBare bare → name_of (get (imported moment bare (entries_below tree path)) []) ≡ name_of (get bare []) }
{}

/// The entries of a tree's keys make, at any moment, of a tree with the root alone one that has the same keys, with the same values, and
/// below the root with the same names. It is a tree, and its root keeps the name that it had.
pub fn entries_make_the_tree()
    ensures same { (tree bare : Tree) → (moment : ℕ) → IsTree tree → IsWithinLimits tree → IsBare bare →
        HasSame (imported moment bare (entries_due tree)) tree }
    ensures is_tree { (tree bare : Tree) → (moment : ℕ) → IsTree tree → IsWithinLimits tree → IsBare bare →
        IsTree (imported moment bare (entries_due tree)) }
    ensures root { (tree bare : Tree) → (moment : ℕ) → IsTree tree → IsWithinLimits tree → IsBare bare →
        name_of (get (imported moment bare (entries_due tree)) []) ≡ name_of (get bare []) }
{}

/// The entries of what changes from one tree to another, imported at any moment into the old one, make a tree with the same keys as the new
/// one, and in each key with the same value of each name, as it is spelt, in whatever order. It is a tree.
pub fn changes_make_the_new_tree()
    ensures same { (old new : Tree) → (moment : ℕ) → IsTree old → IsWithinLimits old → IsTree new → IsWithinLimits new →
        HasAlike (imported moment old (changes_due old new)) new }
    ensures is_tree { (old new : Tree) → (moment : ℕ) → IsTree old → IsWithinLimits old → IsTree new → IsWithinLimits new →
        IsTree (imported moment old (changes_due old new)) }
{}

/// The entry of a value, whatever text stands behind it, is read as that value, where values may stand: its name, its type, its bytes.
pub fn values_are_read_back()
    ensures { (root : List ℕ) → (value : Member) → IsKept value →
        Says root true (value_entry value.name value.kind value.bytes) (Value value.name value.kind value.bytes ∷ []) true }
{}

/// The text of a tree's keys from one on, whose names it can hold, is read, of keys below a root of the name that stands for the tree's
/// root in it, folded, as those keys and their values in their order: below the root's own name, or a front.
pub fn text_is_read_back()
    ensures { (name shown : List ℕ) → (tree : Tree) → (path : Path) → folded name ≡ folded shown → IsTree tree →
        IsWithinLimits tree → IsOfBytes tree → IsSome (get tree path) → CanWrite shown tree path → IsReadBack name shown tree path }
{}

/// The file of that text, in either encoding, has the units of the text: with the root's own name, or with a front.
pub fn file_is_read_back()
    ensures { (is_utf8 : Bool) → (tree : Tree) → (path : Path) → (front : Option (List ℕ)) → IsTree tree → IsWithinLimits tree → IsOfBytes tree →
        IsSome (get tree path) → can_stand front ≡ true → CanWrite (root_shown front tree) tree path →
        units_of (file_bytes is_utf8 (entries_text (root_shown front tree) tree path)) ≡ Some (entries_text (root_shown front tree) tree path) }
{}

/// The text of what changes from one tree to another, whose names it can hold, is read, of keys below a root of the old tree's name,
/// folded, as the entries that the changes stand for, in their order.
pub fn changes_are_read_back()
    ensures { (name : List ℕ) → (old new : Tree) → folded name ≡ folded (name_of (get old [])) → IsTree old → IsWithinLimits old →
        IsTree new → IsWithinLimits new → IsOfBytes new → CanWriteChanges old new → AreReadBack name old new }
{}

/// The file of that text, in either encoding, has the units of the text.
pub fn file_of_changes_is_read_back()
    ensures { (is_utf8 : Bool) → (old new : Tree) → IsTree old → IsWithinLimits old → IsTree new → IsWithinLimits new → IsOfBytes new →
        CanWriteChanges old new → units_of (file_bytes is_utf8 (changes_text old new)) ≡ Some (changes_text old new) }
{}

/// The file that is written of a tree's keys from one on, in either encoding, with a front for the root's name or without, read of keys
/// below the same name, folded, and applied at any moment to a tree of the root alone, makes that key and all below it again, and the keys
/// on the way to it without values.
pub fn import_of_an_export_is_the_branch()
    ensures { (is_utf8 : Bool) → (tree bare : Tree) → (path : Path) → (front : Option (List ℕ)) → (name : List ℕ) → (moment : ℕ) →
        IsTree tree → IsWithinLimits tree → IsOfBytes tree → IsSome (get tree path) → can_stand front ≡ true →
        CanWrite (root_shown front tree) tree path → IsBare bare → folded name ≡ folded (root_shown front tree) →
        IsBranchOfFile is_utf8 tree path front name bare moment }
{}

/// The file that is written of a tree, in either encoding, with a front for the root's name or without, read of keys below the same name,
/// folded, and applied at any moment to a tree of the root alone, makes that tree again: the same keys, the same values, and below the
/// root the same names.
pub fn import_of_an_export_is_the_tree()
    ensures { (is_utf8 : Bool) → (tree bare : Tree) → (front : Option (List ℕ)) → (name : List ℕ) → (moment : ℕ) → IsTree tree →
        IsWithinLimits tree → IsOfBytes tree → can_stand front ≡ true → CanWrite (root_shown front tree) tree [] → IsBare bare →
        folded name ≡ folded (root_shown front tree) → IsMadeOfFile is_utf8 tree front name bare moment }
{}

/// The file that is written of what changes from one tree to another, in either encoding, read and applied at any moment to the old one,
/// makes a tree with the same keys as the new one, and in each key with the same value of each name, as it is spelt, in whatever order.
pub fn import_of_changes_is_the_new_tree()
    ensures { (is_utf8 : Bool) → (old new : Tree) → (moment : ℕ) → IsTree old → IsWithinLimits old → IsTree new → IsWithinLimits new →
        IsOfBytes new → CanWriteChanges old new → IsChangedByFile is_utf8 old new moment }
{}

/// An export of the tree in an image was written to a writer that held some bytes, and appended a file to them: with a front for the
/// root's name, or without. That file is understood for a hive that has a root alone, without values, where the same stands for its root's
/// name, folded: a front, or the name (clause `read`). Where its entries are made there, at any
/// moment, that hive has, of the keys of the image's tree, just the exported one, those below it and those on the way to it: with the same
/// names below the root, with the same values at and below the exported one, and without values on the way (clause `branch`). Where the
/// root was exported, it has the same keys, with the same values, and below the root the same names (clause `whole`). What the hive may
/// still refuse are its calls: for memory or space, and by 1450 the exported key where it is more than 32 names below the root, since its
/// call would make them all.
pub fn what_an_export_wrote_an_import_makes()
    ensures read { (unread left : Option (List ℕ)) → (path file held : List ℕ) → (front given : Option (List ℕ)) → (is_utf8 : Bool) →
        (old : View) → (export : Exports unread left path front is_utf8 (Some held) (Some (held ++ file))) → IsBare old.keys.tree →
        folded (front_of given old) ≡ folded (root_shown front export.tree) → (entries : List Numbered) × IsText (front_of given old) file entries }
    ensures branch { (unread left : Option (List ℕ)) → (path file held : List ℕ) → (front given : Option (List ℕ)) → (is_utf8 : Bool) →
        (moment : ℕ) → (old last : View) → (export : Exports unread left path front is_utf8 (Some held) (Some (held ++ file))) →
        Applies given moment file old last → IsBare old.keys.tree → folded (front_of given old) ≡ folded (root_shown front export.tree) →
        HasSameBelow last.keys.tree export.tree (folded_path path) }
    ensures whole { (unread left : Option (List ℕ)) → (file held : List ℕ) → (front given : Option (List ℕ)) → (is_utf8 : Bool) →
        (moment : ℕ) → (old last : View) → (export : Exports unread left [] front is_utf8 (Some held) (Some (held ++ file))) →
        Applies given moment file old last → IsBare old.keys.tree → folded (front_of given old) ≡ folded (root_shown front export.tree) →
        HasSame last.keys.tree export.tree }
{}

/// What changes from the tree of an old image to that of a new one was written to a writer that held some bytes, and appended a file to
/// them. That file is understood for a hive whose root has the old tree's name, folded, as just the entries that the changes stand for
/// (clause `read`). Where its entries are made, at any moment, in a hive with the old tree, that hive has the same keys as the new one, and
/// in each the same value of each name, as it is spelt, in whatever order (clause `same`). What the hive may still refuse are its calls.
pub fn what_changes_wrote_an_import_makes()
    ensures read { (unread_old left_old unread_new left_new : Option (List ℕ)) → (file held : List ℕ) → (is_utf8 is_none : Bool) → (hive : View) →
        (export : ExportsChanges unread_old left_old unread_new left_new is_utf8 is_none (Some held) (Some (held ++ file))) →
        folded (root_name hive) ≡ folded (name_of (get export.old [])) →
        (entries : List Numbered) × IsText (root_name hive) file entries × (entries_of entries ≡ changes_due export.old export.new.tree) }
    ensures same { (unread_old left_old unread_new left_new : Option (List ℕ)) → (file held : List ℕ) → (is_utf8 is_none : Bool) →
        (moment : ℕ) → (hive last : View) →
        (export : ExportsChanges unread_old left_old unread_new left_new is_utf8 is_none (Some held) (Some (held ++ file))) →
        Applies None moment file hive last → hive.keys.tree ≡ export.old → HasAlike last.keys.tree export.new.tree }
{}
