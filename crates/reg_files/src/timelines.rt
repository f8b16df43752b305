//! `timeline`: the keys of several files by the time of their last write.

ghost use Rattle.std.specs.Prelude.{◌≡◌, ◌≤◌, ◌++◌, ◌∷◌, [], ℕ, true, false, map, List, OnOk, OnErr, IfErr};
ghost use Rattle.reg_heap.specs.Paths.{Tree as KeyTree};
ghost use Rattle.reg_tree_image.specs.Loads.{ReadsImage};
ghost use Rattle.reg_tables.specs.Timelines.{IsGathered, timeline_text};
ghost use Rattle.std.specs.Io.KnownBytes.{Appends};
ghost use Rattle.reg_files.specs.Gathering.{IsTimelineCut, IsUngathered, MissesOne, MissesTree, ReadsEach, ReadsFile, TellsTimes, TimesFail};
ghost use Rattle.reg_files.specs.Gathering.{table_form as form_asked};
ghost use Rattle.reg_files.specs.Internal.Cuts.{is_cut};
ghost use Rattle.reg_files.specs.Internal.Fronts.{bytes_of};

use crate::device::Output;
use crate::fault::Fault;
use crate::images::{Image, open_image};
use crate::reports::{settle, settle_output};
use reg_tables::Timeline;
use reg_text::Sink;
use reg_tree::Tree;
use reg_tree_image::load_tree;
use reg_words::{HiveFile, TimelineForm};
use std::alloc::Global;
use std::io::{Read, Write};
use std::rt::Files;

/// How a timeline is written, as reg_tables has it.
fn table_form(form: TimelineForm) -> reg_tables::TimelineForm
    ensures { result ≡ form_asked form }
{
    match form {
        TimelineForm::Text => reg_tables::TimelineForm::Text,
        TimelineForm::Csv => reg_tables::TimelineForm::Csv,
        TimelineForm::Bodyfile => reg_tables::TimelineForm::Bodyfile,
    }
}

/// Gathers the keys of a tree.
fn gather_tree(timeline: &mut Timeline, tree: &Tree, from: u64, to: u64) -> Result<(), Fault>
    ensures ok { (trees : List KeyTree) → IsGathered timeline.old trees from to →
        OnOk result (IsGathered timeline.new (trees ++ tree.now.tree ∷ []) from to) }
    ensures err { IfErr result (λ fault. is_cut fault ≡ false) }
{
    match timeline.gather(tree, from, to) {
        Ok(()) => Ok(()),
        Err(_) => Err(Fault::Memory),
    }
}

/// Reads an image as a tree and gathers its keys.
fn gather_image<F: Read>(
    alloc: Global,
    image: &mut Image<F>,
    timeline: &mut Timeline,
    from: u64,
    to: u64,
) -> Result<(), Fault>
    ensures ok { (trees : List KeyTree) → IsGathered timeline.old trees from to →
        OnOk result ((tree : KeyTree) × ReadsImage (bytes_of F.remaining image.old) (bytes_of F.remaining image.new) tree
        × IsGathered timeline.new (trees ++ tree ∷ []) from to) }
    ensures missed { OnErr result (IsUngathered (bytes_of F.remaining image.old)) }
    ensures err { IfErr result (λ fault. is_cut fault ≡ false) }
{
    match load_tree(alloc, image) {
        Ok(tree) => gather_tree(timeline, &tree, from, to),
        Err(fault) => Err(Fault::Load(fault).of_image(image)),
    }
}

/// Reads a file as a tree and gathers its keys, and answers whether it did; what hindered it is reported.
fn gather_file<H: Files, E: Sink>(
    alloc: Global,
    host: &H,
    hive: HiveFile<'_>,
    timeline: &mut Timeline,
    from: u64,
    to: u64,
    errors: &mut E,
) -> bool
    ensures gathered { (trees : List KeyTree) → IsGathered timeline.old trees from to → result ≡ true →
        (tree : KeyTree) × ReadsFile hive.entry.is_dirty hive.entry.file.now tree (E.contents errors.old) (E.contents errors.new)
        (E.failures errors.old) (E.failures errors.new)
        × IsGathered timeline.new (trees ++ tree ∷ []) from to }
    ensures missed { result ≡ false → MissesTree hive.entry.is_dirty hive.entry.file.now (E.contents errors.old) (E.contents errors.new)
        (E.failures errors.old) (E.failures errors.new) }
{
    match open_image(alloc, host, hive.file, hive.is_dirty, errors) {
        Ok(mut image) => match gather_image(alloc, &mut image, timeline, from, to) {
            Ok(()) => true,
            Err(fault) => {
                settle(alloc, errors, hive.file, Err(fault));
                false
            }
        },
        Err(fault) => {
            settle(alloc, errors, hive.file, Err(fault));
            false
        }
    }
}

/// Reads files as trees, one after another, and gathers their keys, and answers whether it did; it ends with the first that it didn't.
fn gather_files<H: Files, E: Sink>(
    alloc: Global,
    host: &H,
    files: &[&str],
    is_dirty: bool,
    timeline: &mut Timeline,
    from: u64,
    to: u64,
    errors: &mut E,
) -> bool
    requires { IsGathered timeline.old [] from to }
    ensures gathered { result ≡ true → (trees : List KeyTree) × ReadsEach is_dirty (map (λ file. file.now) files.now) trees
        (E.contents errors.old) (E.contents errors.new) (E.failures errors.old) (E.failures errors.new) × IsGathered timeline.new trees from to }
    ensures missed { result ≡ false → MissesOne is_dirty (map (λ file. file.now) files.now) (E.contents errors.old) (E.contents errors.new)
        (E.failures errors.old) (E.failures errors.new) }
{
    for file in files {
        let hive = HiveFile {
            file: *file,
            is_dirty,
        };
        if !gather_file(alloc, host, hive, timeline, from, to, errors) {
            return false;
        }
    }
    true
}

/// Writes what was gathered of some files.
fn write_timeline<W: Write>(
    timeline: Timeline,
    form: TimelineForm,
    files: &[&str],
    output: &mut W,
) -> Result<(), Fault>
    ensures ok { (trees : List KeyTree) → (from to : ℕ) → IsGathered timeline trees from to → OnOk result (Appends (W.contents output.old)
        (W.contents output.new) (timeline_text (form_asked form) (map (λ file. file.now) files.now) trees from to)) }
    ensures err { (trees : List KeyTree) → (from to : ℕ) → IsGathered timeline trees from to → IfErr result (λ fault.
        IsTimelineCut (is_cut fault) (timeline_text (form_asked form) (map (λ file. file.now) files.now) trees from to)
        (W.contents output.old) (W.contents output.new)) }
{
    match timeline.write(table_form(form), files, output) {
        Ok(()) => Ok(()),
        Err(fault) => Err(Fault::from(fault)),
    }
}

/// Writes the keys of some files by the time of their last write, and answers the status.
pub fn tell_timeline<H: Files, W: Output, E: Sink>(
    alloc: Global,
    host: &H,
    files: &[&str],
    is_dirty: bool,
    from: u64,
    to: u64,
    form: TimelineForm,
    output: &mut W,
    errors: &mut E,
) -> u8
    ensures status { result ≤ 1 }
    ensures tells { result ≡ 0 → TellsTimes is_dirty (map (λ file. file.now) files.now) from to form (W.contents output.old) (W.contents output.new)
        (E.contents errors.old) (E.contents errors.new) (E.failures errors.old) }
    ensures fails { result ≡ 1 → TimesFail is_dirty (map (λ file. file.now) files.now) from to form (W.closed output.new)
        (W.contents output.old) (W.contents output.new) (E.contents errors.old) (E.contents errors.new) (E.failures errors.old)
        (E.failures errors.new) }
{
    let mut timeline = Timeline::new(alloc);
    if !gather_files(
        alloc,
        host,
        files,
        is_dirty,
        &mut timeline,
        from,
        to,
        errors,
    ) {
        return 1;
    }
    let done = write_timeline(timeline, form, files, output);
    settle_output(alloc, errors, output, "", done)
}
