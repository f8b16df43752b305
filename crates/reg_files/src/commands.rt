//! The commands that save files.

ghost use Rattle.std.specs.Prelude.{◌≡◌, ◌⊎◌, ◌&&◌, true, false, is_some, option_copied, string_bytes, OnOk, OnErr, IfOk, IfErr};
ghost use Rattle.reg_calls.specs.HiveView.{view_of};
ghost use Rattle.reg_tree_image.specs.FreeBytes.{are_sparse};
ghost use Rattle.reg_files.specs.Saves.{is_saved, IsToSave, IsToMake, IsNotRebuilt};
ghost use Rattle.reg_words.specs.ChangeLines.{told as told_of};
ghost use Rattle.reg_files.specs.Editing.{IsGiven, IsNone, OfFile, OfText, EditsFile, StopsEditing, Enters, StopsImporting};
ghost use Rattle.reg_files.specs.Looking.{IsCutShort};
ghost use Rattle.reg_files.specs.Editing.{Tells, ChangesFile, StopsChanging};
ghost use Rattle.reg_files.specs.Internal.Cuts.{is_save_end_cut, IsUntold};

use crate::device::Device;
use crate::fault::{Fault, SaveEnd, Step, import_fault, taken};
use crate::locks::{Lockable, open_waiting, real_path};
use crate::moments::moment_at;
use crate::saved::{Saved, SavedTree, tree_to_save};
use crate::saving::{create, replace};
use crate::streams::write_text;
use reg_callbacks::NoCallback;
use reg_calls::Hive;
use reg_edits::{Edited, change, edit, fresh_hive, import};
use reg_words::{Begin, EditRequest, KeyChange, told};
use std::alloc::Global;
use std::fs::File;
use std::io::{Read, Write};
use std::rt::{Clock, Files};

/// The sequence number of a new file's image.
const FIRST_SEQUENCE: u32 = 1;

/// The moment at which an edit begins.
pub fn begin_at<H: Clock>(host: &H, begin: Begin) -> Result<u64, Fault>
    ensures { IfOk result (λ moment. IsGiven begin moment) }
{
    match begin {
        Begin::At(moment) => Ok(moment),
        Begin::Now => Ok(moment_at(taken(Step::Clock, host.since_1970())?)),
    }
}

/// What is to be saved of an edited hive: nothing where no call may have changed a key, or where the words ask for a dry run.
fn to_save<'a>(
    alloc: Global,
    request: EditRequest<'_>,
    edited: &'a Edited,
) -> Result<Option<Saved<'a>>, Fault>
    ensures ok { IfOk result (λ saved. IsToSave request.entry edited.now saved) }
    ensures err { IfErr result (λ fault. (is_saved request.entry edited.now ≡ true)
        × (are_sparse (view_of edited.now.seated.hive).keys.bins.bytes ≡ true) × IsNotRebuilt fault) }
{
    if !edited.is_changed || request.dry_run {
        return Ok(None);
    }
    Ok(Some(Saved {
        tree: tree_to_save(alloc, edited.seated.hive.tree())?,
        moment: edited.moment,
        sequence: edited.sequence,
    }))
}

/// A new file's hive as it is saved: its bins as they stand, at moment 0, with the first sequence number.
fn to_make(hive: &Hive<NoCallback>) -> Saved<'_>
    ensures { IsToMake hive.now result }
{
    Saved {
        tree: SavedTree::Own(hive.tree()),
        moment: 0,
        sequence: FIRST_SEQUENCE,
    }
}

/// Saves what there is to save: in the place of the file at a path, or in another file, which is made anew.
pub fn put<H: Files>(
    alloc: Global,
    host: &H,
    request: EditRequest<'_>,
    path: &str,
    saved: &Saved<'_>,
) -> Result<(), Fault> {
    match request.output {
        Some(target) => create(host, target, saved),
        None => replace(alloc, host, path, saved),
    }
}

/// What ended a step on the files.
fn of_files(done: Result<(), Fault>) -> Result<(), SaveEnd>
    ensures { IfErr result (λ end. is_save_end_cut end ≡ false) }
{
    match done {
        Ok(()) => Ok(()),
        Err(fault) => Err(SaveEnd::Files(fault)),
    }
}

/// Saves what a command made of a file's hive, if it is to be saved.
fn save<H: Files>(
    alloc: Global,
    host: &H,
    request: EditRequest<'_>,
    path: &str,
    edited: &Edited,
) -> Result<(), SaveEnd>
    ensures { IfErr result (λ end. is_save_end_cut end ≡ false) }
{
    match to_save(alloc, request, edited) {
        Ok(Some(saved)) => of_files(put(alloc, host, request, path, &saved)),
        Ok(None) => Ok(()),
        Err(fault) => Err(SaveEnd::Files(fault)),
    }
}

/// A file that is opened for a command that saves it, and locked until it is let go.
#[derive(Drop)]
pub struct Opened<F> {
    pub path: String,
    pub file: Device<F>,
}

/// Opens the file of a command that saves, with leave to write where it is saved in its place, and takes its lock.
pub fn open_for<H: Files + Clock>(
    alloc: Global,
    host: &H,
    request: EditRequest<'_>,
) -> Result<Opened<H::File>, Fault>
where
    H::File: Lockable,
{
    let path = real_path(alloc, host, request.file)?;
    let saves_here = request.output.is_none() && !request.dry_run;
    let file = open_waiting(host, path.as_str(), saves_here, request.wait)?;
    Ok(Opened {
        path,
        file: Device::new(file),
    })
}

/// Saves what a script left of a file's hive, as [`save`] does, and tells how many of its lines failed.
fn save_script<H: Files>(
    alloc: Global,
    host: &H,
    request: EditRequest<'_>,
    path: &str,
    edited: &Edited,
) -> Result<(), SaveEnd>
    ensures ok { OnOk result (edited.now.failed ≡ 0) }
    ensures err { IfErr result (λ end. is_save_end_cut end ≡ false) }
{
    save(alloc, host, request, path, edited)?;
    if edited.failed > 0 {
        return Err(SaveEnd::Hive(Fault::Failed(edited.failed)));
    }
    Ok(())
}

/// Runs a script on the hive of a file that is open, and saves it, as [`edit_file`] says.
fn edit_opened<H: Files + Clock, R: Read, W: Write>(
    alloc: Global,
    host: &H,
    request: EditRequest<'_>,
    keeps_going: bool,
    opened: &mut Opened<H::File>,
    input: &mut R,
    output: &mut W,
) -> Result<(), SaveEnd>
    ensures ok { OnOk result (EditsFile request.entry keeps_going IsNone (R.remaining input.old) (R.remaining input.new)
        (W.contents output.old) (W.contents output.new)) }
    ensures err { IfErr result (λ end. StopsEditing request.entry keeps_going (is_save_end_cut end) (R.remaining input.old) (R.remaining input.new)
        (W.contents output.old) (W.contents output.new)) }
{
    let begin = begin_at(host, request.begin)?;
    match edit(alloc, &mut opened.file, begin, keeps_going, input, output) {
        Ok(edited) => save_script(alloc, host, request, opened.path.as_str(), &edited),
        Err(fault) => {
            let fault = Fault::from(fault).of_file(&mut opened.file);
            Err(SaveEnd::Hive(fault))
        }
    }
}

/// Runs a script on the hive of a file and saves it where a call that was accepted may have changed a key: in its place, or in another
/// file, which is made anew. The file's lock is held until then. A line that fails ends it, and nothing is saved; with `keeps_going` it is
/// passed over, and told behind the save.
pub fn edit_file<H: Files + Clock, R: Read, W: Write>(
    alloc: Global,
    host: &H,
    request: EditRequest<'_>,
    keeps_going: bool,
    input: &mut R,
    output: &mut W,
) -> Result<(), SaveEnd>
where
    H::File: Lockable,
    ensures ok { OnOk result (EditsFile request.entry keeps_going IsNone (R.remaining input.old) (R.remaining input.new)
        (W.contents output.old) (W.contents output.new)) }
    ensures err { IfErr result (λ end. StopsEditing request.entry keeps_going (is_save_end_cut end) (R.remaining input.old) (R.remaining input.new)
        (W.contents output.old) (W.contents output.new)) }
{
    // The file is owned here, and the hive below: so each has few ways out.
    let mut opened = open_for(alloc, host, request)?;
    edit_opened(
        alloc,
        host,
        request,
        keeps_going,
        &mut opened,
        input,
        output,
    )
}

/// Makes the entries of the .reg text on an input in the hive of a file that is open, and saves it, as an edit does.
fn import_opened<H: Files + Clock, R: Read>(
    alloc: Global,
    host: &H,
    request: EditRequest<'_>,
    front: Option<&[u8]>,
    tells_all: bool,
    opened: &mut Opened<H::File>,
    input: &mut R,
) -> Result<(), SaveEnd>
    ensures ok { OnOk result (Enters request.entry (option_copied front.entry) (R.remaining input.old) (R.remaining input.new)) }
    ensures err { OnErr result ((R.remaining input.new ≡ R.remaining input.old)
        ⊎ StopsImporting request.entry (option_copied front.entry) tells_all (R.remaining input.old) (R.remaining input.new)) }
{
    let begin = begin_at(host, request.begin)?;
    match import(alloc, &mut opened.file, front, tells_all, begin, input) {
        Ok(imported) => save(alloc, host, request, opened.path.as_str(), &imported),
        Err(fault) => {
            let fault = import_fault(fault, front.is_some()).of_file(&mut opened.file);
            Err(SaveEnd::Hive(fault))
        }
    }
}

/// Makes the entries of the .reg text on an input in the hive of a file and saves it, as an edit does.
fn import_from<H: Files + Clock, R: Read>(
    alloc: Global,
    host: &H,
    request: EditRequest<'_>,
    front: Option<&[u8]>,
    tells_all: bool,
    input: &mut R,
) -> Result<(), SaveEnd>
where
    H::File: Lockable,
    ensures ok { OnOk result (Enters request.entry (option_copied front.entry) (R.remaining input.old) (R.remaining input.new)) }
    ensures err { OnErr result ((R.remaining input.new ≡ R.remaining input.old)
        ⊎ StopsImporting request.entry (option_copied front.entry) tells_all (R.remaining input.old) (R.remaining input.new)) }
{
    let mut opened = open_for(alloc, host, request)?;
    import_opened(alloc, host, request, front, tells_all, &mut opened, input)
}

/// Makes the entries of the .reg text in a file in the hive of another.
fn import_file<H: Files + Clock>(
    alloc: Global,
    host: &H,
    request: EditRequest<'_>,
    text: &str,
    front: Option<&[u8]>,
    tells_all: bool,
) -> Result<(), SaveEnd>
where
    H::File: Lockable,
    ensures { OnOk result (OfFile (Enters request.entry (option_copied front.entry))) }
{
    match taken(Step::Open, File::open(host, text)) {
        Ok(mut input) => import_from(alloc, host, request, front, tells_all, &mut input),
        Err(fault) => Err(SaveEnd::Text(fault)),
    }
}

/// Makes the entries of a .reg text, of a file or of the input, in the hive of a file and saves it, as an edit does.
pub fn import_text<H: Files + Clock, R: Read>(
    alloc: Global,
    host: &H,
    request: EditRequest<'_>,
    text: Option<&str>,
    front: Option<&[u8]>,
    tells_all: bool,
    input: &mut R,
) -> Result<(), SaveEnd>
where
    H::File: Lockable,
    ensures ok { OnOk result (OfText (is_some text.entry) (R.remaining input.old) (R.remaining input.new)
        (Enters request.entry (option_copied front.entry))) }
    ensures err { OnErr result ((R.remaining input.new ≡ R.remaining input.old)
        ⊎ OfText (is_some text.entry) (R.remaining input.old) (R.remaining input.new)
        (StopsImporting request.entry (option_copied front.entry) tells_all)) }
{
    match text {
        Some(text) => import_file(alloc, host, request, text, front, tells_all),
        None => import_from(alloc, host, request, front, tells_all, input),
    }
}

/// The line of a change.
fn line_of(alloc: Global, asked: &KeyChange) -> Result<String, Fault>
    ensures { IfOk result (λ line. string_bytes line ≡ told_of asked.now) }
{
    Ok(told(alloc, asked)?)
}

/// Tells a change in its line, where it would be saved if this weren't a dry run.
pub fn tell_change<W: Write>(
    is_dry: bool,
    is_changed: bool,
    line: &str,
    output: &mut W,
) -> Result<(), SaveEnd>
    ensures ok { OnOk result (Tells (is_dry && is_changed) line.now (W.contents output.old) (W.contents output.new)) }
    ensures err { IfErr result (λ end. (is_save_end_cut end ≡ true) × IsCutShort line.now (W.contents output.old) (W.contents output.new)) }
{
    if !is_dry || !is_changed {
        return Ok(());
    }
    match write_text(line.as_bytes(), output) {
        Ok(()) => Ok(()),
        Err(fault) => Err(SaveEnd::Hive(fault)),
    }
}

/// Saves what a change left of a file's hive, and tells it, where it is to be told.
fn save_change<H: Files, W: Write>(
    alloc: Global,
    host: &H,
    request: EditRequest<'_>,
    path: &str,
    changed: &Edited,
    line: &str,
    output: &mut W,
) -> Result<(), SaveEnd>
    ensures ok { OnOk result (Tells (request.entry.dry_run && changed.now.is_changed) line.now (W.contents output.old) (W.contents output.new)) }
    ensures err { IfErr result (λ end. IsUntold line.now (is_save_end_cut end) (W.contents output.old) (W.contents output.new)) }
{
    save(alloc, host, request, path, changed)?;
    tell_change(request.dry_run, changed.is_changed, line, output)
}

/// Makes one change in the hive of a file that is open, and saves it, as [`change_file`] says. `line` is its line.
fn change_opened<H: Files + Clock, W: Write>(
    alloc: Global,
    host: &H,
    request: EditRequest<'_>,
    opened: &mut Opened<H::File>,
    asked: KeyChange,
    line: &str,
    output: &mut W,
) -> Result<(), SaveEnd>
    requires { line.now ≡ told_of asked }
    ensures ok { OnOk result (ChangesFile request.entry asked (W.contents output.old) (W.contents output.new)) }
    ensures err { IfErr result (λ end. StopsChanging asked (is_save_end_cut end) (W.contents output.old) (W.contents output.new)) }
{
    let begin = begin_at(host, request.begin)?;
    match change(alloc, &mut opened.file, begin, asked) {
        Ok(changed) => {
            let path = opened.path.as_str();
            save_change(alloc, host, request, path, &changed, line, output)
        }
        Err(fault) => {
            let fault = Fault::from(fault).of_file(&mut opened.file);
            Err(SaveEnd::Hive(fault))
        }
    }
}

/// Makes one change in the hive of a file and saves it, as an edit does; or, of a dry run, tells what would have been saved.
pub fn change_file<H: Files + Clock, W: Write>(
    alloc: Global,
    host: &H,
    request: EditRequest<'_>,
    asked: KeyChange,
    output: &mut W,
) -> Result<(), SaveEnd>
where
    H::File: Lockable,
    ensures ok { OnOk result (ChangesFile request.entry asked (W.contents output.old) (W.contents output.new)) }
    ensures err { IfErr result (λ end. StopsChanging asked (is_save_end_cut end) (W.contents output.old) (W.contents output.new)) }
{
    let line = line_of(alloc, &asked)?;
    let mut opened = open_for(alloc, host, request)?;
    change_opened(
        alloc,
        host,
        request,
        &mut opened,
        asked,
        line.as_str(),
        output,
    )
}

/// Makes a file with a hive.
fn make<H: Files>(host: &H, file: &str, hive: &Hive<NoCallback>) -> Result<(), Fault> {
    create(host, file, &to_make(hive))
}

/// Makes a file with a fresh hive.
pub fn new_file<H: Files>(alloc: Global, host: &H, file: &str, name: &str) -> Result<(), Fault> {
    match fresh_hive(alloc, name.as_bytes()) {
        Ok(hive) => make(host, file, &hive),
        Err(fault) => Err(Fault::from(fault)),
    }
}
