//! A request answered: it is done, or what hinders that is reported.

ghost use Rattle.std.specs.Prelude.{◌≡◌, ◌≤◌, ℕ, Bool, List, Option};
ghost use Rattle.reg_words.specs.declared.request.Request.{Request};
ghost use Rattle.reg_files.specs.Internal.Fronts.{bytes_of};
ghost use Rattle.reg_files.specs.Internal.Outcomes.{Outcome, IsSameBehind, IsOtherBehind, IsTextTold, TextStops};

use crate::commands::{change_file, edit_file, import_text, new_file, open_for};
use crate::copying::copy_file;
use crate::device::Output;
use crate::differing::diff_images;
use crate::fault::Fault;
use crate::images::{Image, open_image};
use crate::locks::Lockable;
use crate::queries::{export_key, find_in, front_of, get_value, list_key};
use crate::reports::{
    settle, settle_copy, settle_diff, settle_find, settle_import, settle_output, settle_save,
};
use crate::streams::{check_files, dump_file, write_text};
use crate::timelines::tell_timeline;
use reg_command::serve_stream;
use reg_text::Sink;
use reg_words::{
    DiffForm, EditRequest, FindRequest, Form, GetRequest, HiveFile, KeyChange, ListRequest,
    Request, Shell, StreamRequest, TimelineRequest, completions, manual,
};
use std::alloc::{AllocError, Global};
use std::io::Read;
use std::rt::{Clock, Files};
use std::sync::Wait;
use std::thread::Threads;

/// What `version` writes: the tool's version, and that of the kit that proves and builds it.
const VERSION: &[u8] = b"regtool 1.0.0\nrattle-kit-13f logic dac8208d650f15bf\n";

/// `run`, and `dump` and `check` without files.
fn stream_asked<Rt: Threads + Wait + Sync, R: Read, W: Output, E: Sink>(
    rt: &Rt,
    alloc: Global,
    request: StreamRequest,
    input: &mut R,
    output: &mut W,
    errors: &mut E,
) -> u8
    ensures { Outcome (Request.Stream request) result (W.closed output.new) (R.remaining input.old) (R.remaining input.new)
        (W.contents output.old) (W.contents output.new)
        (E.contents errors.old) (E.contents errors.new) (E.failures errors.old) (E.failures errors.new) }
{
    serve_stream(rt, alloc, request, input, output, errors)
}

/// `dump FILE`.
fn dump_asked<H: Files, W: Output, E: Sink>(
    alloc: Global,
    host: &H,
    hive: HiveFile<'_>,
    output: &mut W,
    errors: &mut E,
) -> u8
    ensures { (unread : Option (List ℕ)) → Outcome (Request.Dump hive.entry) result (W.closed output.new) unread unread
        (W.contents output.old) (W.contents output.new)
        (E.contents errors.old) (E.contents errors.new) (E.failures errors.old) (E.failures errors.new) }
{
    dump_file(alloc, host, hive, output, errors)
}

/// `check FILE..`.
fn check_asked<H: Files, W: Output, E: Sink>(
    alloc: Global,
    host: &H,
    files: Vec<&str>,
    is_dirty: bool,
    is_verbose: bool,
    output: &mut W,
    errors: &mut E,
) -> u8
    ensures { (unread : Option (List ℕ)) → Outcome (Request.Check files.entry is_dirty is_verbose) result (W.closed output.new) unread unread
        (W.contents output.old) (W.contents output.new)
        (E.contents errors.old) (E.contents errors.new) (E.failures errors.old) (E.failures errors.new) }
{
    check_files(
        alloc,
        host,
        files.as_slice(),
        is_dirty,
        is_verbose,
        output,
        errors,
    )
}

/// `ls`.
fn list_asked<H: Files, W: Output, E: Sink>(
    alloc: Global,
    host: &H,
    asked: ListRequest<'_>,
    output: &mut W,
    errors: &mut E,
) -> u8
    ensures { (unread : Option (List ℕ)) → Outcome (Request.Listing asked.entry) result (W.closed output.new) unread unread
        (W.contents output.old) (W.contents output.new)
        (E.contents errors.old) (E.contents errors.new) (E.failures errors.old) (E.failures errors.new) }
{
    let hive = asked.hive;
    match open_image(alloc, host, hive.file, hive.is_dirty, errors) {
        Ok(mut image) => {
            let done = list_key(
                alloc,
                &mut image,
                asked.path.as_slice(),
                asked.is_tree,
                asked.is_whole,
                asked.columns,
                output,
            );
            settle_output(alloc, errors, output, hive.file, done)
        }
        Err(fault) => settle(alloc, errors, hive.file, Err(fault)),
    }
}

/// `get`.
fn get_asked<H: Files, W: Output, E: Sink>(
    alloc: Global,
    host: &H,
    asked: GetRequest<'_>,
    output: &mut W,
    errors: &mut E,
) -> u8
    ensures { (unread : Option (List ℕ)) → Outcome (Request.Get asked.entry) result (W.closed output.new) unread unread
        (W.contents output.old) (W.contents output.new)
        (E.contents errors.old) (E.contents errors.new) (E.failures errors.old) (E.failures errors.new) }
{
    let hive = asked.hive;
    match open_image(alloc, host, hive.file, hive.is_dirty, errors) {
        Ok(mut image) => {
            let done = get_value(
                alloc,
                &mut image,
                asked.path.as_slice(),
                asked.name.as_slice(),
                asked.form,
                asked.is_whole,
                output,
            );
            settle_output(alloc, errors, output, hive.file, done)
        }
        Err(fault) => settle(alloc, errors, hive.file, Err(fault)),
    }
}

/// `find`.
fn find_asked<H: Files, W: Output, E: Sink>(
    alloc: Global,
    host: &H,
    asked: FindRequest<'_>,
    output: &mut W,
    errors: &mut E,
) -> u8
    ensures { (unread : Option (List ℕ)) → Outcome (Request.Find asked.entry) result (W.closed output.new) unread unread
        (W.contents output.old) (W.contents output.new)
        (E.contents errors.old) (E.contents errors.new) (E.failures errors.old) (E.failures errors.new) }
{
    let hive = asked.hive;
    match open_image(alloc, host, hive.file, hive.is_dirty, errors) {
        Ok(mut image) => {
            let done = find_in(
                alloc,
                &mut image,
                asked.pattern,
                asked.ignores_case,
                asked.places,
                output,
            );
            settle_find(alloc, errors, output, hive.file, done)
        }
        Err(fault) => settle(alloc, errors, hive.file, Err(fault)),
    }
}

/// `export`.
fn export_asked<H: Files, W: Output, E: Sink>(
    alloc: Global,
    host: &H,
    hive: HiveFile<'_>,
    path: Vec<u8>,
    form: Form<'_>,
    output: &mut W,
    errors: &mut E,
) -> u8
    ensures { (unread : Option (List ℕ)) → Outcome (Request.Export hive.entry path form.entry) result (W.closed output.new) unread unread
        (W.contents output.old) (W.contents output.new)
        (E.contents errors.old) (E.contents errors.new) (E.failures errors.old) (E.failures errors.new) }
{
    match open_image(alloc, host, hive.file, hive.is_dirty, errors) {
        Ok(mut image) => {
            let done = export_key(alloc, &mut image, path.as_slice(), form, output);
            settle_output(alloc, errors, output, hive.file, done)
        }
        Err(fault) => settle(alloc, errors, hive.file, Err(fault)),
    }
}

/// `diff`, with the old file open.
fn diff_behind<H: Files, W: Output, E: Sink>(
    alloc: Global,
    host: &H,
    old: &str,
    image: &mut Image<H::File>,
    new: HiveFile<'_>,
    form: &DiffForm,
    output: &mut W,
    errors: &mut E,
) -> u8
    ensures status { result ≤ 1 }
    ensures same { result ≡ 0 → IsSameBehind form.now new.entry (bytes_of H.File.remaining image.old) (bytes_of H.File.remaining image.new)
        (W.contents output.old) (W.contents output.new) (E.contents errors.old) (E.contents errors.new) (E.failures errors.old) }
    ensures other { result ≡ 1 → IsOtherBehind form.now new.entry (W.closed output.new)
        (bytes_of H.File.remaining image.old) (bytes_of H.File.remaining image.new)
        (W.contents output.old) (W.contents output.new)
        (E.contents errors.old) (E.contents errors.new) (E.failures errors.old) (E.failures errors.new) }
{
    match open_image(alloc, host, new.file, new.is_dirty, errors) {
        Ok(mut other) => {
            let done = diff_images(alloc, image, &mut other, form, output);
            settle_diff(alloc, errors, output, old, new.file, done)
        }
        Err(fault) => settle(alloc, errors, new.file, Err(fault)),
    }
}

/// `diff`.
fn diff_asked<H: Files, W: Output, E: Sink>(
    alloc: Global,
    host: &H,
    old: &str,
    new: &str,
    is_dirty: bool,
    form: DiffForm,
    output: &mut W,
    errors: &mut E,
) -> u8
    ensures { (unread : Option (List ℕ)) → Outcome (Request.Diff old.entry new.entry is_dirty form) result (W.closed output.new) unread unread
        (W.contents output.old) (W.contents output.new)
        (E.contents errors.old) (E.contents errors.new) (E.failures errors.old) (E.failures errors.new) }
{
    let behind = HiveFile {
        file: new,
        is_dirty,
    };
    match open_image(alloc, host, old, is_dirty, errors) {
        Ok(mut image) => diff_behind(alloc, host, old, &mut image, behind, &form, output, errors),
        Err(fault) => settle(alloc, errors, old, Err(fault)),
    }
}

/// `new`.
fn new_asked<H: Files, E: Sink>(
    alloc: Global,
    host: &H,
    file: &str,
    name: &str,
    errors: &mut E,
) -> u8
    ensures { (closed : Bool) → (unread before : Option (List ℕ)) → Outcome (Request.New file.entry name.entry) result closed unread unread
        before before (E.contents errors.old) (E.contents errors.new) (E.failures errors.old) (E.failures errors.new) }
{
    let done = new_file(alloc, host, file, name);
    settle(alloc, errors, file, done)
}

/// `edit`.
fn edit_asked<H: Files + Clock, R: Read, W: Output, E: Sink>(
    alloc: Global,
    host: &H,
    edit: EditRequest<'_>,
    keeps_going: bool,
    input: &mut R,
    output: &mut W,
    errors: &mut E,
) -> u8
where
    H::File: Lockable,
    ensures { Outcome (Request.Edit edit.entry keeps_going) result (W.closed output.new) (R.remaining input.old) (R.remaining input.new)
        (W.contents output.old) (W.contents output.new)
        (E.contents errors.old) (E.contents errors.new) (E.failures errors.old) (E.failures errors.new) }
{
    let done = edit_file(alloc, host, edit, keeps_going, input, output);
    settle_save(alloc, errors, output, &edit, done)
}

/// `import`.
fn import_asked<H: Files + Clock, R: Read, E: Sink>(
    alloc: Global,
    host: &H,
    edit: EditRequest<'_>,
    text: Option<&str>,
    prefix: Option<&str>,
    tells_all: bool,
    input: &mut R,
    errors: &mut E,
) -> u8
where
    H::File: Lockable,
    ensures { (closed : Bool) → (before : Option (List ℕ)) → Outcome (Request.Import edit.entry text.entry prefix.entry tells_all) result closed
        (R.remaining input.old) (R.remaining input.new) before before (E.contents errors.old) (E.contents errors.new)
        (E.failures errors.old) (E.failures errors.new) }
{
    let done = import_text(alloc, host, edit, text, front_of(prefix), tells_all, input);
    settle_import(alloc, errors, &edit, text, done)
}

/// `set`, `create` and `delete`.
fn change_asked<H: Files + Clock, W: Output, E: Sink>(
    alloc: Global,
    host: &H,
    edit: EditRequest<'_>,
    change: KeyChange,
    output: &mut W,
    errors: &mut E,
) -> u8
where
    H::File: Lockable,
    ensures { (unread : Option (List ℕ)) → Outcome (Request.Change edit.entry change) result (W.closed output.new) unread unread
        (W.contents output.old) (W.contents output.new)
        (E.contents errors.old) (E.contents errors.new) (E.failures errors.old) (E.failures errors.new) }
{
    let done = change_file(alloc, host, edit, change, output);
    settle_save(alloc, errors, output, &edit, done)
}

/// `copy`.
fn copy_asked<H: Files + Clock, W: Output, E: Sink>(
    alloc: Global,
    host: &H,
    edit: EditRequest<'_>,
    source: HiveFile<'_>,
    path: Vec<u8>,
    into: Vec<u8>,
    output: &mut W,
    errors: &mut E,
) -> u8
where
    H::File: Lockable,
    ensures { (unread : Option (List ℕ)) → Outcome (Request.Copy edit.entry source.entry path into) result (W.closed output.new) unread unread
        (W.contents output.old) (W.contents output.new)
        (E.contents errors.old) (E.contents errors.new) (E.failures errors.old) (E.failures errors.new) }
{
    // The source is opened once the lock is held: it may be the same file, and another one may have changed it until then.
    let opened = match open_for(alloc, host, edit) {
        Ok(opened) => opened,
        Err(fault) => return settle(alloc, errors, edit.file, Err(fault)),
    };
    match open_image(alloc, host, source.file, source.is_dirty, errors) {
        Ok(mut image) => {
            let path = path.as_slice();
            let into = into.as_slice();
            let done = copy_file(alloc, host, edit, opened, &mut image, path, into, output);
            settle_copy(alloc, errors, output, source.file, &edit, done)
        }
        Err(fault) => settle(alloc, errors, source.file, Err(fault)),
    }
}

/// `timeline`.
fn timeline_asked<H: Files, W: Output, E: Sink>(
    alloc: Global,
    host: &H,
    asked: TimelineRequest<'_>,
    output: &mut W,
    errors: &mut E,
) -> u8
    ensures { (unread : Option (List ℕ)) → Outcome (Request.Timeline asked.entry) result (W.closed output.new) unread unread
        (W.contents output.old) (W.contents output.new)
        (E.contents errors.old) (E.contents errors.new) (E.failures errors.old) (E.failures errors.new) }
{
    tell_timeline(
        alloc,
        host,
        asked.files.as_slice(),
        asked.is_dirty,
        asked.from,
        asked.to,
        asked.form,
        output,
        errors,
    )
}

/// A text of the tool's own, written.
fn tell_text<W: Output, E: Sink>(
    alloc: Global,
    text: Result<String, AllocError>,
    output: &mut W,
    errors: &mut E,
) -> u8
    ensures status { result ≤ 1 }
    ensures told { result ≡ 0 → IsTextTold text (W.contents output.old) (W.contents output.new) × (E.contents errors.new ≡ E.contents errors.old) }
    ensures stops { result ≡ 1 → TextStops text (W.closed output.new) (W.contents output.old) (W.contents output.new) (E.contents errors.old)
        (E.contents errors.new) (E.failures errors.old) (E.failures errors.new) }
{
    match text {
        Ok(text) => {
            let done = write_text(text.as_bytes(), output);
            settle_output(alloc, errors, output, "", done)
        }
        Err(fault) => settle(alloc, errors, "", Err(Fault::from(fault))),
    }
}

/// `manual`.
fn manual_asked<W: Output, E: Sink>(alloc: Global, output: &mut W, errors: &mut E) -> u8
    ensures { (unread : Option (List ℕ)) → Outcome Request.Manual result (W.closed output.new) unread unread
        (W.contents output.old) (W.contents output.new)
        (E.contents errors.old) (E.contents errors.new) (E.failures errors.old) (E.failures errors.new) }
{
    tell_text(alloc, manual(alloc), output, errors)
}

/// `completions`.
fn completions_asked<W: Output, E: Sink>(
    alloc: Global,
    shell: Shell,
    output: &mut W,
    errors: &mut E,
) -> u8
    ensures { (unread : Option (List ℕ)) → Outcome (Request.Completions shell) result (W.closed output.new) unread unread
        (W.contents output.old) (W.contents output.new)
        (E.contents errors.old) (E.contents errors.new) (E.failures errors.old) (E.failures errors.new) }
{
    tell_text(alloc, completions(alloc, shell), output, errors)
}

/// `version`.
fn version_asked<W: Output, E: Sink>(alloc: Global, output: &mut W, errors: &mut E) -> u8
    ensures { (unread : Option (List ℕ)) → Outcome Request.Version result (W.closed output.new) unread unread
        (W.contents output.old) (W.contents output.new)
        (E.contents errors.old) (E.contents errors.new) (E.failures errors.old) (E.failures errors.new) }
{
    let done = write_text(VERSION, output);
    settle_output(alloc, errors, output, "", done)
}

/// Does what was asked for, and answers the status.
pub fn answer<Rt: Threads + Wait + Sync, H: Files + Clock, R: Read, W: Output, E: Sink>(
    rt: &Rt,
    alloc: Global,
    host: &H,
    request: Request<'_>,
    input: &mut R,
    output: &mut W,
    errors: &mut E,
) -> u8
where
    H::File: Lockable,
    ensures { Outcome request.entry result (W.closed output.new) (R.remaining input.old) (R.remaining input.new)
        (W.contents output.old) (W.contents output.new)
        (E.contents errors.old) (E.contents errors.new) (E.failures errors.old) (E.failures errors.new) }
{
    match request {
        Request::Stream(stream) => stream_asked(rt, alloc, stream, input, output, errors),
        Request::Dump(hive) => dump_asked(alloc, host, hive, output, errors),
        Request::Check {
            files,
            is_dirty,
            is_verbose,
        } => check_asked(alloc, host, files, is_dirty, is_verbose, output, errors),
        Request::Listing(asked) => list_asked(alloc, host, asked, output, errors),
        Request::Get(asked) => get_asked(alloc, host, asked, output, errors),
        Request::Find(asked) => find_asked(alloc, host, asked, output, errors),
        Request::Diff {
            old,
            new,
            is_dirty,
            form,
        } => diff_asked(alloc, host, old, new, is_dirty, form, output, errors),
        Request::Export { hive, path, form } => {
            export_asked(alloc, host, hive, path, form, output, errors)
        }
        Request::Timeline(asked) => timeline_asked(alloc, host, asked, output, errors),
        Request::New { file, name } => new_asked(alloc, host, file, name, errors),
        Request::Edit { edit, keeps_going } => {
            edit_asked(alloc, host, edit, keeps_going, input, output, errors)
        }
        Request::Import {
            edit,
            text,
            prefix,
            tells_all,
        } => import_asked(alloc, host, edit, text, prefix, tells_all, input, errors),
        Request::Change { edit, change } => {
            change_asked(alloc, host, edit, change, output, errors)
        }
        Request::Copy {
            edit,
            source,
            path,
            into,
        } => copy_asked(alloc, host, edit, source, path, into, output, errors),
        Request::Manual => manual_asked(alloc, output, errors),
        Request::Completions(shell) => completions_asked(alloc, shell, output, errors),
        Request::Version => version_asked(alloc, output, errors),
    }
}
