//! What ended a command on a file, reported.

ghost use Rattle.std.specs.Prelude.{◌≡◌, ◌++◌, false, ◌&&◌, IfOk, MatchResult, codes, option_map, string_bytes, vec_items, List, ℕ};
ghost use Rattle.reg_text.specs.Texts.{line_feed};
ghost use Rattle.reg_tree_image.specs.FaultPlaces.{place_in};
ghost use Rattle.reg_files.specs.Counting.{key_told, place_told, place_line as line_of_place, IsPlaceSaid};
ghost use Rattle.reg_files.specs.Looking.{IsReported, IsCutReported, told_cut};
ghost use Rattle.reg_files.specs.Internal.Cuts.{is_copy_stop_cut, is_cut, is_diff_end_cut, is_save_end_cut};
ghost use Rattle.reg_files.specs.Internal.Outcomes.{status_of, Settles};

use crate::device::Output;
use crate::fault::{CopyStop, DiffEnd, Fault, SaveEnd};
use reg_command::say;
use reg_copy::CopyFault;
use reg_dotreg_reader::told;
use reg_edits::BadText;
use reg_model::statuses::{
    ACCESS_DENIED, FILE_NOT_FOUND, INVALID_HANDLE, INVALID_PARAMETER, KEY_DELETED,
    NO_SYSTEM_RESOURCES, NOT_ENOUGH_MEMORY,
};
use reg_script::{FailedLine, ScriptFault};
use reg_text::{Sink, write_escaped};
use reg_tree_image::{FaultPlace, LoadFault};
use reg_words::EditRequest;
use std::alloc::{AllocError, Global};
use std::fmt::Display;
use std::slice::from_ref;

/// How standard input is named.
const STANDARD_INPUT: &str = "standard input";

/// How many bytes of a line of a script are reported.
const LINE_FRONT: usize = 100;

/// What is reported where a name of a key, or of one of its values, can't be written.
fn line_break_text(alloc: Global, file: &str, key: &[u8]) -> Result<String, AllocError> {
    let mut text = format!(in alloc; "name {file}: a name has a line break: of the key =")?;
    write_escaped(&mut text, key)?;
    text.push_str(" or of one of its values")?;
    Ok(text)
}

/// The name of a status by which a call that changes something is refused.
fn status_name(status: u32) -> &'static str {
    match status {
        FILE_NOT_FOUND => " (file not found)",
        ACCESS_DENIED => " (access denied)",
        INVALID_HANDLE => " (invalid handle)",
        NOT_ENOUGH_MEMORY => " (not enough memory)",
        INVALID_PARAMETER => " (invalid parameter)",
        KEY_DELETED => " (key deleted)",
        NO_SYSTEM_RESOURCES => " (no system resources)",
        _ => "",
    }
}

/// Appends the front of a line of a script as it stands, with `%` and two digits in the place of what isn't printable.
fn push_front(text: &mut String, line: &[u8]) -> Result<(), AllocError> {
    for byte in line {
        if byte.is_ascii_graphic() || *byte == b' ' {
            text.push(char::from(*byte))?;
        } else {
            write_escaped(text, from_ref(byte))?;
        }
    }
    Ok(())
}

/// What is reported of a line of a script that failed: its number, its call, and why.
fn failed_line_text(alloc: Global, input: &str, line: &FailedLine) -> Result<String, AllocError> {
    let number = line.number;
    let mut text = format!(in alloc; "line {number} of {input}: ")?;
    let front = LINE_FRONT.min(line.text.len());
    push_front(&mut text, &line.text.as_slice()[..front])?;
    text.push_str(if front < line.text.len() { " .. " } else { " " })?;
    let reason = match line.status {
        Some(status) => {
            let name = status_name(status);
            format!(in alloc; "was refused with status {status}{name}")?
        }
        None => format!(in alloc; "is no line of a script")?,
    };
    text.push_str(reason.as_str())?;
    Ok(text)
}

/// What is reported of the lines of a text that aren't understood, each but the first behind `error`.
fn lines_text(
    alloc: Global,
    input: &str,
    bad: &BadText,
    is_front: bool,
) -> Result<String, AllocError> {
    let mut text = String::new(alloc);
    for line in &bad.lines {
        if !text.is_empty() {
            text.push_str("\nerror ")?;
        }
        let number = line.at;
        let start = format!(in alloc; "line {number} of {input}: ")?;
        text.push_str(start.as_str())?;
        let reason = told(alloc, bad.root.as_slice(), is_front, line)?;
        text.push_str(reason.as_str())?;
    }
    Ok(text)
}

/// What is told, behind what it is of.
fn told_of<T: Display>(alloc: Global, what: &str, told: &T) -> Result<String, AllocError> {
    format!(in alloc; "{what}: {told}")
}

/// The same of a file or an input.
fn told_of_file<T: Display>(
    alloc: Global,
    what: &str,
    file: &str,
    told: &T,
) -> Result<String, AllocError> {
    format!(in alloc; "{what} {file}: {told}")
}

/// What is reported where an image doesn't load.
fn load_text(alloc: Global, file: &str, fault: LoadFault) -> Result<String, AllocError> {
    let number = fault.number();
    format!(in alloc; "1009 load {number} {file}: {fault}")
}

/// What is reported where a script ends early.
fn script_text(alloc: Global, fault: &ScriptFault) -> Result<String, AllocError> {
    let number = fault.number();
    format!(in alloc; "script {number}: {fault}")
}

/// What is reported where a change is refused.
fn no_change_text(alloc: Global, file: &str, status: u32) -> Result<String, AllocError> {
    let name = status_name(status);
    format!(in alloc; "change {file}: refused with status {status}{name}")
}

/// What is reported where the entry of a line is refused.
fn refused_text(alloc: Global, input: &str, line: u64, status: u32) -> Result<String, AllocError> {
    let name = status_name(status);
    format!(in alloc; "line {line} of {input}: refused with status {status}{name}")
}

/// What is reported of what ended a command on a file, which read an input, without its `error`.
fn fault_text(alloc: Global, file: &str, input: &str, fault: &Fault) -> Result<String, AllocError> {
    match fault {
        Fault::Load(LoadFault::Memory) | Fault::Memory => "8".to_string(alloc),
        Fault::Busy => format!(in alloc; "busy {file}"),
        Fault::NoFile => told_of_file(alloc, "file", file, fault),
        Fault::Name | Fault::NoPath | Fault::NoName => told_of_file(alloc, "name", file, fault),
        Fault::Step { step, error } => format!(in alloc; "{step} {file}: {error}"),
        Fault::Load(fault) => load_text(alloc, file, *fault),
        Fault::Rebuild(_) => told_of_file(alloc, "rebuild", file, fault),
        Fault::Script(fault) => script_text(alloc, fault),
        Fault::Line(line) => failed_line_text(alloc, input, line),
        Fault::Failed(count) => format!(in alloc; "lines of {input} that failed: {count}"),
        Fault::NoKey | Fault::NoValue | Fault::NoParent | Fault::NoCopy(CopyFault::NoPlace) => {
            told_of_file(alloc, "missing", file, fault)
        }
        Fault::TooLong | Fault::HasSubkeys | Fault::IsRoot | Fault::NoCopy(_) => {
            told_of_file(alloc, "change", file, fault)
        }
        Fault::NoChange { status } => no_change_text(alloc, file, *status),
        Fault::Front => told_of(alloc, "prefix", fault),
        Fault::LineBreak(key) => line_break_text(alloc, file, key.as_slice()),
        Fault::Input(error) => told_of_file(alloc, "read", input, error),
        Fault::Text(fault) => told_of(alloc, input, fault),
        Fault::Lines { bad, is_front } => lines_text(alloc, input, bad, *is_front),
        Fault::Refused { line, status } => refused_text(alloc, input, *line, *status),
        Fault::Pattern(fault) => told_of(alloc, "pattern", fault),
        Fault::Cut(written) => format!(in alloc; "1013 written {written}"),
    }
}

/// The line that reports what ended a command on a file.
fn fault_line(alloc: Global, file: &str, input: &str, fault: &Fault) -> Result<String, AllocError>
    ensures { IfOk result (λ line. (what : List ℕ) × (string_bytes line ≡ codes "error " ++ (what ++ line_feed))) }
{
    let what = fault_text(alloc, file, input, fault)?;
    format!(in alloc; "error {what}\n")
}

/// In which key of a hive a fault is met, told behind where in the bins.
fn key_text(alloc: Global, key: &Option<Vec<u8>>) -> Result<String, AllocError>
    ensures { IfOk result (λ text. string_bytes text ≡ key_told (option_map vec_items key.now)) }
{
    let mut text = String::new(alloc);
    if let Some(path) = key {
        text.push_str(", in the key =")?;
        write_escaped(&mut text, path.as_slice())?;
    }
    Ok(text)
}

/// Where in the bins of a hive a fault is met, told behind it.
fn place_text(alloc: Global, place: &Option<FaultPlace>) -> Result<String, AllocError>
    ensures { IfOk result (λ text. string_bytes text ≡ place_told (option_map place_in place.now)) }
{
    let Some(place) = place else {
        return Ok(String::new(alloc));
    };
    let offset = place.offset;
    let key = key_text(alloc, &place.key)?;
    format!(in alloc; ", at {offset} of its bins{key}")
}

/// The line that reports why a file doesn't load, and where that is met.
fn place_line(
    alloc: Global,
    file: &str,
    fault: LoadFault,
    place: &Option<FaultPlace>,
) -> Result<String, AllocError>
    ensures { IfOk result (λ line. (words : List ℕ) × (string_bytes line ≡ line_of_place file.now fault (option_map place_in place.now) words)) }
{
    let number = fault.number();
    let words = format!(in alloc; "{fault}")?;
    let place = place_text(alloc, place)?;
    format!(in alloc; "error 1009 load {number} {file}{place}: {words}\n")
}

/// Reports why a file doesn't load, and where that is met.
pub fn report_place<E: Sink>(
    alloc: Global,
    errors: &mut E,
    file: &str,
    fault: LoadFault,
    place: &Option<FaultPlace>,
)
    ensures { IsPlaceSaid file.now fault (option_map place_in place.now) (E.contents errors.old) (E.contents errors.new) (E.failures errors.old) (E.failures errors.new) }
{
    if fault == LoadFault::Memory {
        say(errors, b"error 8\n");
        return;
    }
    match place_line(alloc, file, fault, place) {
        Ok(line) => say(errors, line.as_bytes()),
        Err(_) => say(errors, b"error 8\n"),
    }
}

/// Reports what ended a command on a file, which read an input.
fn report<E: Sink>(alloc: Global, errors: &mut E, file: &str, input: &str, fault: &Fault)
    ensures { IsReported false (E.contents errors.old) (E.contents errors.new) (E.failures errors.old) (E.failures errors.new) }
{
    match fault_line(alloc, file, input, fault) {
        Ok(line) => say(errors, line.as_bytes()),
        Err(_) => say(errors, b"error 8\n"),
    }
}

/// Why the last write of the output failed.
fn reason_of<W: Output>(alloc: Global, output: &W) -> Result<String, AllocError> {
    match output.last_error() {
        Some(error) => format!(in alloc; "{error}"),
        None => format!(in alloc; "no byte was taken"),
    }
}

/// The line that reports what a failed write of the output ended, and why it failed.
fn cut_line<W: Output>(alloc: Global, output: &W, what: &str) -> Result<String, AllocError>
    ensures { IfOk result (λ line. (reason : List ℕ) × (string_bytes line ≡ told_cut what.now reason)) }
{
    let reason = reason_of(alloc, output)?;
    format!(in alloc; "error {what}: {reason}\n")
}

/// Reports what a failed write of the output ended, and why it failed, save where nobody reads that any more.
pub fn report_cut<W: Output, E: Sink>(alloc: Global, errors: &mut E, output: &W, what: &str)
    ensures { IsCutReported (W.closed output.now) what.now (E.contents errors.old) (E.contents errors.new)
        (E.failures errors.old) (E.failures errors.new) }
{
    if output.is_closed() {
        return;
    }
    match cut_line(alloc, output, what) {
        Ok(text) => say(errors, text.as_bytes()),
        Err(_) => say(errors, b"error 8\n"),
    }
}

/// Ends a command on a file that didn't come to its output, and answers its status. What ended it early is reported.
pub fn settle<E: Sink>(alloc: Global, errors: &mut E, file: &str, done: Result<(), Fault>) -> u8
    ensures { Settles is_cut false done result (E.contents errors.old) (E.contents errors.new) (E.failures errors.old) (E.failures errors.new) }
{
    match done {
        Ok(()) => 0,
        Err(fault) => {
            report(alloc, errors, file, STANDARD_INPUT, &fault);
            1
        }
    }
}

/// Reports a fault of a command on a file, which a failed write of the output ended, and why that failed, save where nobody reads it any
/// more.
fn report_cut_fault<W: Output, E: Sink>(
    alloc: Global,
    errors: &mut E,
    output: &W,
    file: &str,
    fault: &Fault,
)
    ensures { IsReported (W.closed output.now) (E.contents errors.old) (E.contents errors.new) (E.failures errors.old) (E.failures errors.new) }
{
    match fault_text(alloc, file, STANDARD_INPUT, fault) {
        Ok(what) => report_cut(alloc, errors, output, what.as_str()),
        Err(_) => say(errors, b"error 8\n"),
    }
}

/// Ends a command on a file that writes to the output, and answers its status. What ended it early is reported: of a write that failed why,
/// and nothing where that was since nobody reads the output any more.
pub fn settle_output<W: Output, E: Sink>(
    alloc: Global,
    errors: &mut E,
    output: &W,
    file: &str,
    done: Result<(), Fault>,
) -> u8
    ensures { Settles is_cut (W.closed output.now) done result (E.contents errors.old) (E.contents errors.new)
        (E.failures errors.old) (E.failures errors.new) }
{
    match done {
        Ok(()) => 0,
        Err(fault) => {
            if fault.is_failed_write() {
                report_cut_fault(alloc, errors, output, file, &fault);
                return 1;
            }
            report(alloc, errors, file, STANDARD_INPUT, &fault);
            1
        }
    }
}

/// The file that a fault of an edit is about: the one that is saved, or the one that is read.
fn blamed<'a>(edit: &EditRequest<'a>, fault: &Fault) -> &'a str {
    match fault {
        Fault::Step { step, .. } if step.saves() => edit.output.unwrap_or(edit.file),
        _ => edit.file,
    }
}

/// Ends a command that saves a file, and answers its status. What ended it early is reported of the file that it is about, as
/// [`settle_output`] does.
pub fn settle_save<W: Output, E: Sink>(
    alloc: Global,
    errors: &mut E,
    output: &W,
    edit: &EditRequest<'_>,
    done: Result<(), SaveEnd>,
) -> u8
    ensures { Settles is_save_end_cut (W.closed output.now) done result (E.contents errors.old) (E.contents errors.new)
        (E.failures errors.old) (E.failures errors.new) }
{
    match done {
        Ok(()) => 0,
        Err(SaveEnd::Hive(fault)) => {
            let file = blamed(edit, &fault);
            settle_output(alloc, errors, output, file, Err(fault))
        }
        Err(SaveEnd::Text(fault)) | Err(SaveEnd::Files(fault)) => {
            let file = blamed(edit, &fault);
            settle(alloc, errors, file, Err(fault))
        }
    }
}

/// Ends a copy from a file to another, and answers its status. What ended it early is reported of the file that it is about, as
/// [`settle_output`] does.
pub fn settle_copy<W: Output, E: Sink>(
    alloc: Global,
    errors: &mut E,
    output: &W,
    source: &str,
    edit: &EditRequest<'_>,
    done: Result<(), CopyStop>,
) -> u8
    ensures { Settles is_copy_stop_cut (W.closed output.now) done result (E.contents errors.old) (E.contents errors.new)
        (E.failures errors.old) (E.failures errors.new) }
{
    match done {
        Ok(()) => 0,
        Err(CopyStop::Source(fault)) => settle(alloc, errors, source, Err(fault)),
        Err(CopyStop::Target(end)) => settle_save(alloc, errors, output, edit, Err(end)),
    }
}

/// Ends an import, and answers its status. What ended it early is reported of the file that it is about: the text's, where that can't be
/// opened, or else the hive's; the text is named by its file, or as standard input.
pub fn settle_import<E: Sink>(
    alloc: Global,
    errors: &mut E,
    edit: &EditRequest<'_>,
    text: Option<&str>,
    done: Result<(), SaveEnd>,
) -> u8
    ensures { Settles is_save_end_cut false done result (E.contents errors.old) (E.contents errors.new)
        (E.failures errors.old) (E.failures errors.new) }
{
    let input = text.unwrap_or(STANDARD_INPUT);
    match done {
        Ok(()) => 0,
        Err(SaveEnd::Text(fault)) => {
            report(alloc, errors, input, input, &fault);
            1
        }
        Err(SaveEnd::Hive(fault)) | Err(SaveEnd::Files(fault)) => {
            report(alloc, errors, blamed(edit, &fault), input, &fault);
            1
        }
    }
}

/// Ends a comparison of two files, and answers its status. What ended it early is reported of the file that it is about, as
/// [`settle_output`] does.
pub fn settle_diff<W: Output, E: Sink>(
    alloc: Global,
    errors: &mut E,
    output: &W,
    old: &str,
    new: &str,
    done: Result<u8, DiffEnd>,
) -> u8
    ensures { MatchResult done (λ status. (result ≡ status) × (E.contents errors.new ≡ E.contents errors.old))
        (λ end. (result ≡ 1) × IsReported (W.closed output.now && is_diff_end_cut end) (E.contents errors.old) (E.contents errors.new)
        (E.failures errors.old) (E.failures errors.new)) }
{
    match done {
        Ok(status) => status,
        Err(DiffEnd::Old(fault)) => settle_output(alloc, errors, output, old, Err(fault)),
        Err(DiffEnd::New(fault)) => settle_output(alloc, errors, output, new, Err(fault)),
    }
}

/// Ends a search of a file, and answers its status, which is 1 where nothing was found. What ended it early is reported, as
/// [`settle_output`] does.
pub fn settle_find<W: Output, E: Sink>(
    alloc: Global,
    errors: &mut E,
    output: &W,
    file: &str,
    done: Result<bool, Fault>,
) -> u8
    ensures { MatchResult done (λ is_found. (result ≡ status_of is_found) × (E.contents errors.new ≡ E.contents errors.old))
        (λ fault. (result ≡ 1) × IsReported (W.closed output.now && is_cut fault) (E.contents errors.old) (E.contents errors.new)
        (E.failures errors.old) (E.failures errors.new)) }
{
    match done {
        Ok(true) => 0,
        Ok(false) => 1,
        Err(fault) => settle_output(alloc, errors, output, file, Err(fault)),
    }
}
