//! A key of one hive file copied to another, which is saved.

ghost use Rattle.std.specs.Prelude.{◌≡◌, ℕ, List, Option, true, false, IfOk, IfErr, OnOk, string_bytes};
ghost use Rattle.reg_tree_image.specs.FreeBytes.{are_sparse};
ghost use Rattle.reg_files.specs.Copying.{copy_line, CopiesInto, StopsCopying};
ghost use Rattle.reg_files.specs.Saves.{IsCopyToSave, IsNotRebuilt};
ghost use Rattle.reg_files.specs.Internal.Cuts.{is_copy_stop_cut};
ghost use Rattle.reg_files.specs.Internal.Fronts.{bytes_of};

use crate::commands::{Opened, begin_at, put, tell_change};
use crate::device::Device;
use crate::fault::{CopyStop, Fault, SaveEnd};
use crate::images::Image;
use crate::locks::Lockable;
use crate::saved::{Saved, tree_to_save};
use reg_copy::CopyFault;
use reg_edits::{CopiedTree, CopyEnd, copy};
use reg_text::write_escaped;
use reg_words::EditRequest;
use std::alloc::{AllocError, Global};
use std::io::{Read, Write};
use std::rt::{Clock, Files};

/// The line of a copy, by the paths of the key that is copied and of the one to copy into.
fn line_of(alloc: Global, path: &[u8], into: &[u8]) -> Result<String, AllocError>
    ensures { IfOk result (λ line. string_bytes line ≡ copy_line path.now into.now) }
{
    let mut line = format!(in alloc; "copy key =")?;
    write_escaped(&mut line, path)?;
    line.push_str(" to =")?;
    write_escaped(&mut line, into)?;
    line.push_str("\n")?;
    Ok(line)
}

/// What is to be saved of a tree with a copy: nothing where the words ask for a dry run.
fn to_save<'a>(
    alloc: Global,
    request: EditRequest<'_>,
    copied: &'a CopiedTree,
) -> Result<Option<Saved<'a>>, Fault>
    ensures ok { IfOk result (λ saved. IsCopyToSave request.entry copied.now saved) }
    ensures err { IfErr result (λ fault. (request.entry.dry_run ≡ false) × (are_sparse copied.now.tree.bins.bytes ≡ true) × IsNotRebuilt fault) }
{
    if request.dry_run {
        return Ok(None);
    }
    Ok(Some(Saved {
        tree: tree_to_save(alloc, &copied.tree)?,
        moment: copied.moment,
        sequence: copied.sequence,
    }))
}

/// Saves the tree with a copy, if it is to be saved.
fn save<H: Files>(
    alloc: Global,
    host: &H,
    request: EditRequest<'_>,
    path: &str,
    copied: &CopiedTree,
) -> Result<(), Fault> {
    match to_save(alloc, request, copied)? {
        Some(saved) => put(alloc, host, request, path, &saved),
        None => Ok(()),
    }
}

/// What ended a copy, by the file that it is about.
fn stop_of<F, D>(end: CopyEnd, image: &mut Image<F>, file: &mut Device<D>) -> CopyStop
    ensures { is_copy_stop_cut result ≡ false }
{
    match end {
        CopyEnd::Source(fault) => CopyStop::Source(Fault::Load(fault).of_image(image)),
        CopyEnd::Target(fault) => {
            CopyStop::Target(SaveEnd::Hive(Fault::Load(fault).of_file(file)))
        }
        CopyEnd::Copy(CopyFault::NoKey) => CopyStop::Source(Fault::NoKey),
        CopyEnd::Copy(CopyFault::Memory) => CopyStop::Target(SaveEnd::Hive(Fault::Memory)),
        CopyEnd::Copy(fault) => CopyStop::Target(SaveEnd::Hive(Fault::NoCopy(fault))),
    }
}

/// Copies a key of a file that is open, with all that is below it, to right below a key of the hive of another file, and saves that, as an
/// edit does; or, of a dry run, tells what would have been saved. The other file is open and locked, and its lock is held until then.
pub fn copy_file<H: Files + Clock, F: Read, W: Write>(
    alloc: Global,
    host: &H,
    request: EditRequest<'_>,
    mut opened: Opened<H::File>,
    image: &mut Image<F>,
    path: &[u8],
    into: &[u8],
    output: &mut W,
) -> Result<(), CopyStop>
where
    H::File: Lockable,
    ensures ok { OnOk result (CopiesInto request.entry path.now into.now (bytes_of F.remaining image.old) (bytes_of F.remaining image.new)
        (W.contents output.old) (W.contents output.new)) }
    ensures err { IfErr result (λ end. (left : Option (List ℕ)) × StopsCopying request.entry path.now into.now
        (W.contents output.old) (W.contents output.new) (is_copy_stop_cut end) (bytes_of F.remaining image.old) left) }
{
    let line = line_of(alloc, path, into)?;
    let begin = begin_at(host, request.begin)?;
    let copied = match copy(alloc, image, path, &mut opened.file, into, begin) {
        Ok(copied) => copied,
        Err(end) => return Err(stop_of(end, image, &mut opened.file)),
    };
    save(alloc, host, request, opened.path.as_str(), &copied)?;
    match tell_change(request.dry_run, true, line.as_str(), output) {
        Ok(()) => Ok(()),
        Err(end) => Err(CopyStop::Target(end)),
    }
}
