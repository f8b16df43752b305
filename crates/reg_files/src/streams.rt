//! What is asked of the standard streams, asked of files.

ghost use Rattle.std.specs.Prelude.{◌≡◌, ◌≤◌, true, MatchResult, map, option_map};
ghost use Rattle.std.specs.Io.KnownBytes.{Appends};
ghost use Rattle.reg_command.specs.Failures.{Does, Stops};
ghost use Rattle.reg_tree_image.specs.FaultPlaces.{place_in};
ghost use Rattle.reg_files.specs.Looking.{IsCutShort, AnswerStops, StopReported, DumpStops};
ghost use Rattle.reg_files.specs.Counting.{name_before, NameStops, CountStops};
ghost use Rattle.reg_files.specs.Looking.{Looks};
ghost use Rattle.reg_files.specs.Counting.{CheckReported, Checks, ChecksEach, ChecksFiles, IsPlaced, IsPlaceTold};
ghost use Rattle.reg_text.specs.Failures.{Stays, Fails};
ghost use Rattle.reg_files.specs.Internal.Counted.{IsCounted};
ghost use Rattle.reg_files.specs.Internal.Cuts.{is_cut, CutBlames};
ghost use Rattle.reg_files.specs.Internal.Fronts.{bytes_of};
ghost use Rattle.reg_words.specs.declared.request.StreamRequest.{StreamRequest};

use crate::device::Output;
use crate::fault::Fault;
use crate::images::{Image, open_image};
use crate::reports::{report_cut, report_place, settle, settle_output};
use reg_command::{Stop, check_image, dump_image, report_stop, say};
use reg_text::{Sink, write_counted};
use reg_tree_image::{FaultPlace, LoadFault, fault_place};
use reg_words::HiveFile;
use std::alloc::Global;
use std::io::{self, Read};
use std::rt::Files;

/// Reports that a write failed after so many bytes, and why, save where nobody reads the output any more.
fn report_written<W: Output, E: Sink>(alloc: Global, errors: &mut E, output: &W, written: u64)
    ensures { StopReported (W.closed output.now) (Stop.Write written) (E.contents errors.old) (E.contents errors.new)
        (E.failures errors.old) (E.failures errors.new) }
{
    match format!(in alloc; "1013 written {written}") {
        Ok(what) => report_cut(alloc, errors, output, what.as_str()),
        Err(_) => say(errors, b"error 8\n"),
    }
}

/// Reports what ended a request early, as [`report_written`] does where a write failed.
fn settle_stop<W: Output, E: Sink>(alloc: Global, errors: &mut E, output: &W, stop: Stop)
    ensures { StopReported (W.closed output.now) stop (E.contents errors.old) (E.contents errors.new)
        (E.failures errors.old) (E.failures errors.new) }
{
    match stop {
        Stop::Write(written) => report_written(alloc, errors, output, written),
        stop => report_stop(alloc, errors, stop),
    }
}

/// Writes the text of the tree of an open file, and answers the status.
fn dump_in<F: Read, W: Output, E: Sink>(
    alloc: Global,
    image: &mut Image<F>,
    output: &mut W,
    errors: &mut E,
) -> u8
    ensures status { result ≤ 1 }
    ensures answers { result ≡ 0 → Does StreamRequest.Dump (bytes_of F.remaining image.old) (bytes_of F.remaining image.new)
        (W.contents output.old) (W.contents output.new) × (E.contents errors.new ≡ E.contents errors.old) }
    ensures stops { result ≡ 1 → AnswerStops StreamRequest.Dump (W.closed output.new) (W.contents output.old) (W.contents output.new)
        (E.contents errors.new) (E.failures errors.new) (bytes_of F.remaining image.old) (bytes_of F.remaining image.new)
        (E.contents errors.old) (E.failures errors.old) }
{
    match dump_image(alloc, image, output) {
        Ok(()) => 0,
        Err(stop) => {
            settle_stop(alloc, errors, output, stop);
            1
        }
    }
}

/// Reads a file that doesn't load again, and answers where in its bins the fault is met: nowhere where a read failed, or memory, and where
/// it can't be read again.
fn located<H: Files>(
    alloc: Global,
    host: &H,
    hive: HiveFile<'_>,
    fault: LoadFault,
) -> Option<FaultPlace>
    ensures { IsPlaced hive.entry.is_dirty (option_map place_in result) }
{
    if fault == LoadFault::Read || fault == LoadFault::Memory {
        return None;
    }
    // What is told of the file was told as it was read first.
    let mut nowhere = io::sink();
    let Ok(mut image) = open_image(alloc, host, hive.file, hive.is_dirty, &mut nowhere) else {
        return None;
    };
    match fault_place(alloc, &mut image) {
        Ok(place) => place,
        Err(_) => None,
    }
}

/// Tells of a file that doesn't load what it is refused for, and where that is met.
fn tell_place<H: Files, E: Sink>(
    alloc: Global,
    host: &H,
    hive: HiveFile<'_>,
    fault: LoadFault,
    errors: &mut E,
)
    ensures { IsPlaceTold hive.entry.is_dirty hive.entry.file.now fault (E.contents errors.old) (E.contents errors.new)
        (E.failures errors.old) (E.failures errors.new) }
{
    let place = located(alloc, host, hive, fault);
    report_place(alloc, errors, hive.file, fault, &place);
}

/// Reports what ended a count, and of a file that doesn't load with `is_verbose` where that is met.
fn settle_check<H: Files, W: Output, E: Sink>(
    alloc: Global,
    host: &H,
    hive: HiveFile<'_>,
    is_verbose: bool,
    stop: Stop,
    output: &W,
    errors: &mut E,
)
    ensures { CheckReported is_verbose hive.entry.is_dirty hive.entry.file.now (W.closed output.now) stop (E.contents errors.old) (E.contents errors.new)
        (E.failures errors.old) (E.failures errors.new) }
{
    if !is_verbose {
        settle_stop(alloc, errors, output, stop);
        return;
    }
    match stop {
        Stop::Load(fault) => tell_place(alloc, host, hive, fault, errors),
        stop => settle_stop(alloc, errors, output, stop),
    }
}

/// Writes how many keys and values an open file has, and answers the status.
fn check_in<H: Files, W: Output, E: Sink>(
    alloc: Global,
    host: &H,
    hive: HiveFile<'_>,
    is_verbose: bool,
    image: &mut Image<H::File>,
    output: &mut W,
    errors: &mut E,
) -> u8
    ensures status { result ≤ 1 }
    ensures answers { result ≡ 0 → Does StreamRequest.Check (bytes_of H.File.remaining image.old) (bytes_of H.File.remaining image.new)
        (W.contents output.old) (W.contents output.new) × (E.contents errors.new ≡ E.contents errors.old) }
    ensures stops { result ≡ 1 → (ended : Stop)
        × Stops StreamRequest.Check ended (bytes_of H.File.remaining image.old) (bytes_of H.File.remaining image.new)
        (W.contents output.old) (W.contents output.new)
        × CheckReported is_verbose hive.entry.is_dirty hive.entry.file.now (W.closed output.new) ended (E.contents errors.old) (E.contents errors.new)
        (E.failures errors.old) (E.failures errors.new) }
{
    match check_image(alloc, image, output) {
        Ok(()) => 0,
        Err(stop) => {
            settle_check(alloc, host, hive, is_verbose, stop, output, errors);
            1
        }
    }
}

/// Writes the text of a file's tree, and answers the status.
pub fn dump_file<H: Files, W: Output, E: Sink>(
    alloc: Global,
    host: &H,
    hive: HiveFile<'_>,
    output: &mut W,
    errors: &mut E,
) -> u8
    ensures status { result ≤ 1 }
    ensures answers { result ≡ 0 → Looks hive.entry.is_dirty hive.entry.file.now (E.contents errors.old) (E.contents errors.new)
        (E.failures errors.old)
        (λ unread left. Does StreamRequest.Dump unread left (W.contents output.old) (W.contents output.new)) }
    ensures stops { result ≡ 1 → DumpStops hive.entry.is_dirty hive.entry.file.now (W.closed output.new)
        (W.contents output.old) (W.contents output.new)
        (E.contents errors.old) (E.contents errors.new) (E.failures errors.old) (E.failures errors.new) }
{
    match open_image(alloc, host, hive.file, hive.is_dirty, errors) {
        Ok(mut image) => dump_in(alloc, &mut image, output, errors),
        Err(fault) => settle(alloc, errors, hive.file, Err(fault)),
    }
}

/// Writes a text; `Cut` after a front of it, where a write failed.
pub fn write_text<W: Sink>(text: &[u8], output: &mut W) -> Result<(), Fault>
    ensures written { MatchResult result (λ _. Appends (W.contents output.old) (W.contents output.new) text.now)
        (λ fault. (is_cut fault ≡ true) × IsCutShort text.now (W.contents output.old) (W.contents output.new)) }
    ensures failures { MatchResult result (λ _. Stays (W.failures output.old) (W.failures output.new))
        (λ _. Fails (W.failures output.old) (W.failures output.new)) }
{
    let written = write_counted(output, text);
    if written < text.len() {
        return Err(Fault::Cut(written as u64));
    }
    Ok(())
}

/// Writes what stands before what is written of a file: its name, where it is named.
fn write_name<W: Sink>(
    alloc: Global,
    file: &str,
    is_named: bool,
    output: &mut W,
) -> Result<(), Fault>
    ensures written { MatchResult result (λ _. Appends (W.contents output.old) (W.contents output.new) (name_before is_named file.now))
        (λ fault. NameStops (is_cut fault) (name_before is_named file.now) (W.contents output.old) (W.contents output.new)) }
    ensures failures { MatchResult result (λ _. Stays (W.failures output.old) (W.failures output.new))
        (λ fault. CutBlames (is_cut fault) (W.failures output.old) (W.failures output.new)) }
{
    if !is_named {
        return Ok(());
    }
    match format!(in alloc; "{file}: ") {
        Ok(text) => write_text(text.as_bytes(), output),
        Err(_) => Err(Fault::Memory),
    }
}

/// Writes how many keys and values an open file has, behind its name where it is named, and answers the status.
fn count_in<H: Files, W: Output, E: Sink>(
    alloc: Global,
    host: &H,
    hive: HiveFile<'_>,
    is_verbose: bool,
    is_named: bool,
    image: &mut Image<H::File>,
    output: &mut W,
    errors: &mut E,
) -> u8
    ensures status { result ≤ 1 }
    ensures counted { result ≡ 0 → IsCounted is_named hive.entry.file.now (W.contents output.old) (W.contents output.new)
        (bytes_of H.File.remaining image.old) (bytes_of H.File.remaining image.new) (E.contents errors.old) (E.contents errors.new) }
    ensures stops { result ≡ 1 → CountStops hive.entry.is_dirty is_verbose is_named hive.entry.file.now (W.closed output.new)
        (W.contents output.old) (W.contents output.new)
        (E.contents errors.new) (E.failures errors.new) (bytes_of H.File.remaining image.old) (bytes_of H.File.remaining image.new)
        (E.contents errors.old) (E.failures errors.old) }
{
    match write_name(alloc, hive.file, is_named, output) {
        Ok(()) => check_in(alloc, host, hive, is_verbose, image, output, errors),
        Err(fault) => settle_output(alloc, errors, output, hive.file, Err(fault)),
    }
}

/// Writes how many keys and values a file has, behind its name where it is named, and answers the status.
fn count_file<H: Files, W: Output, E: Sink>(
    alloc: Global,
    host: &H,
    hive: HiveFile<'_>,
    is_verbose: bool,
    is_named: bool,
    output: &mut W,
    errors: &mut E,
) -> u8
    ensures status { result ≤ 1 }
    ensures checks { Checks hive.entry.is_dirty is_verbose is_named hive.entry.file.now result (W.closed output.new)
        (W.contents output.old) (W.contents output.new)
        (E.contents errors.old) (E.contents errors.new) (E.failures errors.old) (E.failures errors.new) }
{
    match open_image(alloc, host, hive.file, hive.is_dirty, errors) {
        Ok(mut image) => count_in(
            alloc, host, hive, is_verbose, is_named, &mut image, output, errors,
        ),
        Err(fault) => settle(alloc, errors, hive.file, Err(fault)),
    }
}

/// Counts some files, one after another, and answers the larger status; where nobody reads the output any more it ends with 1.
fn count_all<H: Files, W: Output, E: Sink>(
    alloc: Global,
    host: &H,
    files: &[&str],
    is_dirty: bool,
    is_verbose: bool,
    is_named: bool,
    output: &mut W,
    errors: &mut E,
) -> u8
    ensures status { result ≤ 1 }
    ensures checks { ChecksEach is_dirty is_verbose is_named (map (λ file. file.now) files.now) result (W.closed output.new) (W.contents output.old)
        (W.contents output.new) (E.contents errors.old) (E.contents errors.new) (E.failures errors.old) (E.failures errors.new) }
{
    let mut status = 0;
    for file in files {
        let hive = HiveFile {
            file: *file,
            is_dirty,
        };
        status = count_file(alloc, host, hive, is_verbose, is_named, output, errors).max(status);
        if output.is_closed() {
            return 1;
        }
    }
    status
}

/// Writes the counts of some files, a line each: behind the file's name where there are several. With `is_verbose` it is told of one that
/// doesn't load where that is met.
pub fn check_files<H: Files, W: Output, E: Sink>(
    alloc: Global,
    host: &H,
    files: &[&str],
    is_dirty: bool,
    is_verbose: bool,
    output: &mut W,
    errors: &mut E,
) -> u8
    ensures status { result ≤ 1 }
    ensures checks { ChecksFiles is_dirty is_verbose (map (λ file. file.now) files.now) result (W.closed output.new) (W.contents output.old)
        (W.contents output.new) (E.contents errors.old) (E.contents errors.new) (E.failures errors.old) (E.failures errors.new) }
{
    count_all(
        alloc,
        host,
        files,
        is_dirty,
        is_verbose,
        files.len() > 1,
        output,
        errors,
    )
}
