//! What the matches of a command line ask for.

ghost use Rattle.std.specs.Prelude.{◌≡◌, ◌≤◌, ◌↔◌, true, codes, Some, None, IfOk, MatchOption, map};
ghost use Rattle.clap.specs.Words.{all_of, first_of, found_of, rows_of, subcommand_rows_of};
ghost use Rattle.reg_words.specs.StreamLines.{IsGiven, IsSet, AreBothGiven, GivesBoth};
ghost use Rattle.reg_words.specs.CommandLines.{AsksToBegin, AsksToSave, AsksForPlaces, AsksForHive, AsksForPath, AsksForValue, AsksForDifferences};
ghost use Rattle.reg_words.specs.CommandLines.{AsksForMoment, AsksForTimeline, Asks, AsksIn};
ghost use Rattle.reg_words.specs.declared.request.Request.TheVariants.{Stream};
ghost use Rattle.reg_words.specs.Internal.Commands.{IsFound, IsNoLook, IsNoQuery, IsNoSave, IsNoStream};

use crate::changes::{change_asked, copy_asked};
use crate::forms::{
    columns_asked, data_asked, differences_asked, form_asked, moment_asked, shell_asked,
    timeline_form, wait_asked,
};
use crate::places::read_places;
use crate::typed::{read_name, read_path};
use crate::{
    Begin, DiffForm, EditRequest, FindRequest, GetRequest, HiveCount, HiveFile, ListRequest,
    Places, Request, StreamRequest, TimelineForm, TimelineRequest,
};
use clap::ArgMatches;
use std::alloc::{AllocError, Global};

/// Whether an option was given.
fn is_given(matches: &ArgMatches<'_>, name: &str) -> bool
    ensures { (result ≡ true) ↔ IsGiven name.now (rows_of (found_of matches.now)) }
{
    match matches.get_str(name) {
        Some(_) => true,
        None => false,
    }
}

/// Whether `run` was given both its options.
pub fn has_both_options(matches: &ArgMatches<'_>) -> bool
    ensures { (result ≡ true) ↔ GivesBoth (subcommand_rows_of matches.now) }
{
    match matches.subcommand() {
        Some((name, found)) => are_both_given(name, found),
        None => false,
    }
}

/// Whether a subcommand is `run`, and was given both its options.
fn are_both_given(name: &str, matches: &ArgMatches<'_>) -> bool
    ensures { (result ≡ true) ↔ AreBothGiven (name.now, rows_of (found_of matches.now)) }
{
    name == "run" && is_given(matches, "image") && is_given(matches, "workers")
}

/// A number of hives; `None` where it is none from 1 to 16.
fn hive_count(number: u8) -> Option<HiveCount>
    ensures { MatchOption result (1 ≤ number → number ≤ 16 → ⊥) (λ count. count.number ≡ number) }
{
    if number < 1 {
        return None;
    }
    if number > 16 {
        return None;
    }
    Some(HiveCount { number })
}

/// What `run` is asked for that was given `--workers`; `None` where it was given `--image` too, or where the number is none from 1 to 16,
/// which `clap` doesn't let through.
fn workers_asked<'a>(matches: &ArgMatches<'a>) -> Option<Request<'a>>
    requires { IsGiven (codes "workers") (rows_of (found_of matches.now)) }
    ensures { IsFound (Asks (codes "run", rows_of (found_of matches.now))) result }
{
    if is_given(matches, "image") {
        return None;
    }
    match matches.try_get_one::<u8>("workers") {
        Ok(Some(number)) => match hive_count(number) {
            Some(count) => Some(Request::Stream(StreamRequest::Workers(count))),
            None => None,
        },
        Ok(None) => None,
        Err(_) => None,
    }
}

/// What `run` is asked for; `None` where [`workers_asked`] says so, or where its number is none of 32 bits, which `clap` doesn't let
/// through.
fn run_asked<'a>(matches: &ArgMatches<'a>) -> Option<Request<'a>>
    ensures { IsFound (Asks (codes "run", rows_of (found_of matches.now))) result }
{
    if is_given(matches, "workers") {
        return workers_asked(matches);
    }
    match matches.try_get_one::<u32>("image") {
        Ok(None) => Some(Request::Stream(StreamRequest::Run)),
        Ok(Some(sequence)) => Some(Request::Stream(StreamRequest::Image(sequence))),
        Err(_) => None,
    }
}

/// What is asked of a file that is only looked into; `None` where there is none.
pub fn hive_asked<'a>(matches: &ArgMatches<'a>) -> Option<HiveFile<'a>>
    ensures { MatchOption result (first_of (codes "file") (rows_of (found_of matches.now)) ≡ None)
        (λ hive. AsksForHive (rows_of (found_of matches.now)) hive) }
{
    match matches.get_str("file") {
        Some(file) => Some(HiveFile {
            file,
            is_dirty: is_set(matches, "dirty"),
        }),
        None => None,
    }
}

/// What is asked of standard input, where it isn't to be one that wasn't written to its end.
fn stream_asked<'a>(stream: StreamRequest, matches: &ArgMatches<'a>) -> Option<Request<'a>>
    ensures { MatchOption result (IsSet (codes "dirty") (rows_of (found_of matches.now)))
        (λ request. (request ≡ Stream stream) × (IsSet (codes "dirty") (rows_of (found_of matches.now)) → ⊥)) }
{
    if is_set(matches, "dirty") {
        return None;
    }
    Some(Request::Stream(stream))
}

/// What `dump` is asked for: a file, or standard input where there is none; `None` where that is to be one that wasn't written to its end.
fn dump_asked<'a>(matches: &ArgMatches<'a>) -> Option<Request<'a>>
    ensures { IsFound (Asks (codes "dump", rows_of (found_of matches.now))) result }
{
    match hive_asked(matches) {
        Some(hive) => Some(Request::Dump(hive)),
        None => stream_asked(StreamRequest::Dump, matches),
    }
}

/// What `check` is asked for of standard input; `None` where that is to be one that wasn't written to its end, or where more is to be told
/// of it.
fn check_of_stream<'a>(matches: &ArgMatches<'a>) -> Option<Request<'a>>
    requires { all_of (codes "files") (rows_of (found_of matches.now)) ≡ None }
    ensures { IsFound (Asks (codes "check", rows_of (found_of matches.now))) result }
{
    if is_set(matches, "verbose") {
        return None;
    }
    stream_asked(StreamRequest::Check, matches)
}

/// What `check` is asked for: some files, or standard input where there are none; `None` where [`check_of_stream`] says so.
fn check_asked<'a>(
    alloc: Global,
    matches: &ArgMatches<'a>,
) -> Result<Option<Request<'a>>, AllocError>
    ensures { IfOk result (λ request. IsFound (Asks (codes "check", rows_of (found_of matches.now))) request) }
{
    match matches.get_strs("files") {
        Some(files) => {
            let mut names = Vec::new(alloc);
            names.extend_from_slice(files)?;
            Ok(Some(Request::Check {
                files: names,
                is_dirty: is_set(matches, "dirty"),
                is_verbose: is_set(matches, "verbose"),
            }))
        }
        None => Ok(check_of_stream(matches)),
    }
}

/// The path of the key that is looked for; the root's where there is none.
pub fn path_asked(alloc: Global, matches: &ArgMatches<'_>) -> Result<Vec<u8>, AllocError>
    ensures { IfOk result (λ path. AsksForPath (rows_of (found_of matches.now)) path.items) }
{
    let word = matches.get_str("path").unwrap_or("");
    read_path(alloc, word, is_set(matches, "slash"))
}

/// The name of the value that is looked for; the default value's where there is none.
fn value_asked(alloc: Global, matches: &ArgMatches<'_>) -> Result<Vec<u8>, AllocError>
    ensures { IfOk result (λ name. AsksForValue (rows_of (found_of matches.now)) name.items) }
{
    let word = matches.get_str("value").unwrap_or("");
    read_name(alloc, word)
}

/// Whether a flag was given.
pub fn is_set(matches: &ArgMatches<'_>, name: &str) -> bool
    ensures { (result ≡ true) ↔ IsSet name.now (rows_of (found_of matches.now)) }
{
    match matches.get_str(name) {
        Some(text) => text == "true",
        None => false,
    }
}

/// The moment to begin at, that of the clock where none is given; `None` where two are.
pub fn begin_asked(matches: &ArgMatches<'_>) -> Option<Begin>
    ensures { IsFound (AsksToBegin (rows_of (found_of matches.now))) result }
{
    let is_now = is_set(matches, "now");
    match matches.try_get_one::<u64>("at") {
        Ok(None) => Some(Begin::Now),
        Ok(Some(moment)) if !is_now => Some(Begin::At(moment)),
        _ => None,
    }
}

/// What is asked of a file that is saved, which the word of some name tells; `None` where it is to begin at two moments, or where its wait
/// is none.
fn edit_of<'a>(word: &str, file: &'a str, matches: &ArgMatches<'a>) -> Option<EditRequest<'a>>
    requires { first_of word.now (rows_of (found_of matches.now)) ≡ Some file.now }
    ensures { IsFound (AsksToSave word.now (rows_of (found_of matches.now))) result }
{
    let begin = begin_asked(matches)?;
    let wait = wait_asked(matches)?;
    Some(EditRequest {
        file,
        output: matches.get_str("output"),
        begin,
        wait,
        dry_run: is_set(matches, "dry-run"),
    })
}

/// What is asked of the file that is to be saved, which the word of that name tells; `None`, too, where there is none.
pub fn edit_request<'a>(word: &str, matches: &ArgMatches<'a>) -> Option<EditRequest<'a>>
    ensures { IsFound (AsksToSave word.now (rows_of (found_of matches.now))) result }
{
    match matches.get_str(word) {
        Some(file) => edit_of(word, file, matches),
        None => None,
    }
}

fn edit_asked<'a>(matches: &ArgMatches<'a>) -> Option<Request<'a>>
    ensures { IsFound (Asks (codes "edit", rows_of (found_of matches.now))) result }
{
    match edit_request("file", matches) {
        Some(edit) => Some(Request::Edit {
            edit,
            keeps_going: is_set(matches, "keep-going"),
        }),
        None => None,
    }
}

fn import_asked<'a>(matches: &ArgMatches<'a>) -> Option<Request<'a>>
    ensures { IsFound (Asks (codes "import", rows_of (found_of matches.now))) result }
{
    match edit_request("file", matches) {
        Some(edit) => Some(Request::Import {
            edit,
            text: matches.get_str("text"),
            prefix: matches.get_str("prefix"),
            tells_all: is_set(matches, "all-errors"),
        }),
        None => None,
    }
}

/// Where `find` is asked to search: in all names and data, where nothing is said; `None` where what is said names no places.
fn places_asked(matches: &ArgMatches<'_>) -> Option<Places>
    ensures { IsFound (AsksForPlaces (rows_of (found_of matches.now))) result }
{
    match matches.get_str("in") {
        Some(text) => read_places(text.as_bytes()),
        None => Some(Places {
            keys: true,
            names: true,
            texts: true,
            paths: false,
            bytes: false,
        }),
    }
}

/// What `find` is asked for of a file and a pattern; `None` where the places are none.
fn find_of<'a>(
    hive: HiveFile<'a>,
    pattern: &'a str,
    matches: &ArgMatches<'a>,
) -> Option<Request<'a>>
    requires hive { AsksForHive (rows_of (found_of matches.now)) hive }
    requires pattern { first_of (codes "pattern") (rows_of (found_of matches.now)) ≡ Some pattern.now }
    ensures { IsFound (Asks (codes "find", rows_of (found_of matches.now))) result }
{
    match places_asked(matches) {
        Some(places) => Some(Request::Find(FindRequest {
            hive,
            pattern,
            ignores_case: is_set(matches, "ignore-case"),
            places,
        })),
        None => None,
    }
}

/// What `find` is asked for of a file; `None`, too, where it has no pattern.
fn find_in<'a>(hive: HiveFile<'a>, matches: &ArgMatches<'a>) -> Option<Request<'a>>
    requires { AsksForHive (rows_of (found_of matches.now)) hive }
    ensures { IsFound (Asks (codes "find", rows_of (found_of matches.now))) result }
{
    match matches.get_str("pattern") {
        Some(pattern) => find_of(hive, pattern, matches),
        None => None,
    }
}

fn find_asked<'a>(matches: &ArgMatches<'a>) -> Option<Request<'a>>
    ensures { IsFound (Asks (codes "find", rows_of (found_of matches.now))) result }
{
    match hive_asked(matches) {
        Some(hive) => find_in(hive, matches),
        None => None,
    }
}

/// What `diff` is asked for of a file in some form; `None` where there is no other one.
fn diff_of<'a>(old: &'a str, form: DiffForm, matches: &ArgMatches<'a>) -> Option<Request<'a>>
    requires old { first_of (codes "old") (rows_of (found_of matches.now)) ≡ Some old.now }
    requires form { AsksForDifferences (rows_of (found_of matches.now)) form }
    ensures { IsFound (Asks (codes "diff", rows_of (found_of matches.now))) result }
{
    match matches.get_str("new") {
        Some(new) => Some(Request::Diff {
            old,
            new,
            is_dirty: is_set(matches, "dirty"),
            form,
        }),
        None => None,
    }
}

/// What `diff` is asked for of a file; `None` where the form isn't understood, or where there is no other file.
fn diff_in<'a>(
    alloc: Global,
    old: &'a str,
    matches: &ArgMatches<'a>,
) -> Result<Option<Request<'a>>, AllocError>
    requires { first_of (codes "old") (rows_of (found_of matches.now)) ≡ Some old.now }
    ensures { IfOk result (λ request. IsFound (Asks (codes "diff", rows_of (found_of matches.now))) request) }
{
    match differences_asked(alloc, matches)? {
        Some(form) => Ok(diff_of(old, form, matches)),
        None => Ok(None),
    }
}

fn diff_asked<'a>(
    alloc: Global,
    matches: &ArgMatches<'a>,
) -> Result<Option<Request<'a>>, AllocError>
    ensures { IfOk result (λ request. IsFound (Asks (codes "diff", rows_of (found_of matches.now))) request) }
{
    match matches.get_str("old") {
        Some(old) => diff_in(alloc, old, matches),
        None => Ok(None),
    }
}

/// What `timeline` is asked for of some files from a moment on, in some form; `None` where the last moment isn't understood.
fn timeline_from<'a>(
    alloc: Global,
    files: Vec<&'a str>,
    form: TimelineForm,
    from: u64,
    matches: &ArgMatches<'a>,
) -> Result<Option<Request<'a>>, AllocError>
    requires files { all_of (codes "files") (rows_of (found_of matches.now)) ≡ Some (map (λ file. file.now) files.items) }
    requires form { AsksForTimeline (rows_of (found_of matches.now)) form }
    requires from { AsksForMoment (codes "from") 0 (rows_of (found_of matches.now)) from }
    ensures { IfOk result (λ request. IsFound (Asks (codes "timeline", rows_of (found_of matches.now))) request) }
{
    match moment_asked(alloc, "to", u64::MAX, matches)? {
        Some(to) => Ok(Some(Request::Timeline(TimelineRequest {
            files,
            is_dirty: is_set(matches, "dirty"),
            from,
            to,
            form,
        }))),
        None => Ok(None),
    }
}

/// What `timeline` is asked for of some files in some form; `None` where a moment isn't understood.
fn timeline_of<'a>(
    alloc: Global,
    files: &[&'a str],
    form: TimelineForm,
    matches: &ArgMatches<'a>,
) -> Result<Option<Request<'a>>, AllocError>
    requires files { all_of (codes "files") (rows_of (found_of matches.now)) ≡ Some (map (λ file. file.now) files.now) }
    requires form { AsksForTimeline (rows_of (found_of matches.now)) form }
    ensures { IfOk result (λ request. IsFound (Asks (codes "timeline", rows_of (found_of matches.now))) request) }
{
    let mut names = Vec::new(alloc);
    names.extend_from_slice(files)?;
    match moment_asked(alloc, "from", 0, matches)? {
        Some(from) => timeline_from(alloc, names, form, from, matches),
        None => Ok(None),
    }
}

/// What `timeline` is asked for of some files; `None` where the form isn't understood, or a moment.
fn timeline_in<'a>(
    alloc: Global,
    files: &[&'a str],
    matches: &ArgMatches<'a>,
) -> Result<Option<Request<'a>>, AllocError>
    requires { all_of (codes "files") (rows_of (found_of matches.now)) ≡ Some (map (λ file. file.now) files.now) }
    ensures { IfOk result (λ request. IsFound (Asks (codes "timeline", rows_of (found_of matches.now))) request) }
{
    match timeline_form(matches) {
        Some(form) => timeline_of(alloc, files, form, matches),
        None => Ok(None),
    }
}

fn timeline_asked<'a>(
    alloc: Global,
    matches: &ArgMatches<'a>,
) -> Result<Option<Request<'a>>, AllocError>
    ensures { IfOk result (λ request. IsFound (Asks (codes "timeline", rows_of (found_of matches.now))) request) }
{
    match matches.get_strs("files") {
        Some(files) => timeline_in(alloc, files, matches),
        None => Ok(None),
    }
}

fn completions_asked<'a>(matches: &ArgMatches<'a>) -> Option<Request<'a>>
    ensures { IsFound (Asks (codes "completions", rows_of (found_of matches.now))) result }
{
    match shell_asked(matches) {
        Some(shell) => Some(Request::Completions(shell)),
        None => None,
    }
}

/// What `export` is asked for of a key of a file; `None` where the form is none.
fn export_of<'a>(hive: HiveFile<'a>, path: Vec<u8>, matches: &ArgMatches<'a>) -> Option<Request<'a>>
    requires hive { AsksForHive (rows_of (found_of matches.now)) hive }
    requires path { AsksForPath (rows_of (found_of matches.now)) path.items }
    ensures { IsFound (Asks (codes "export", rows_of (found_of matches.now))) result }
{
    match form_asked(matches) {
        Some(form) => Some(Request::Export { hive, path, form }),
        None => None,
    }
}

fn export_asked<'a>(
    alloc: Global,
    matches: &ArgMatches<'a>,
) -> Result<Option<Request<'a>>, AllocError>
    ensures { IfOk result (λ request. IsFound (Asks (codes "export", rows_of (found_of matches.now))) request) }
{
    match hive_asked(matches) {
        Some(hive) => {
            let path = path_asked(alloc, matches)?;
            Ok(export_of(hive, path, matches))
        }
        None => Ok(None),
    }
}

fn list_asked<'a>(
    alloc: Global,
    matches: &ArgMatches<'a>,
) -> Result<Option<Request<'a>>, AllocError>
    ensures { IfOk result (λ request. IsFound (Asks (codes "ls", rows_of (found_of matches.now))) request) }
{
    match hive_asked(matches) {
        Some(hive) => Ok(Some(Request::Listing(ListRequest {
            hive,
            path: path_asked(alloc, matches)?,
            is_tree: is_set(matches, "tree"),
            is_whole: is_set(matches, "whole"),
            columns: columns_asked(matches),
        }))),
        None => Ok(None),
    }
}

/// What `get` is asked for of a file; `None` where its data are asked for in two ways.
fn get_in<'a>(
    alloc: Global,
    hive: HiveFile<'a>,
    matches: &ArgMatches<'a>,
) -> Result<Option<Request<'a>>, AllocError>
    requires { AsksForHive (rows_of (found_of matches.now)) hive }
    ensures { IfOk result (λ request. IsFound (Asks (codes "get", rows_of (found_of matches.now))) request) }
{
    match data_asked(matches) {
        Some(form) => Ok(Some(Request::Get(GetRequest {
            hive,
            path: path_asked(alloc, matches)?,
            name: value_asked(alloc, matches)?,
            form,
            is_whole: is_set(matches, "whole"),
        }))),
        None => Ok(None),
    }
}

fn get_asked<'a>(alloc: Global, matches: &ArgMatches<'a>) -> Result<Option<Request<'a>>, AllocError>
    ensures { IfOk result (λ request. IsFound (Asks (codes "get", rows_of (found_of matches.now))) request) }
{
    match hive_asked(matches) {
        Some(hive) => get_in(alloc, hive, matches),
        None => Ok(None),
    }
}

fn new_asked<'a>(matches: &ArgMatches<'a>) -> Option<Request<'a>>
    ensures { IsFound (Asks (codes "new", rows_of (found_of matches.now))) result }
{
    match matches.get_str("file") {
        Some(file) => Some(Request::New {
            file,
            name: matches.get_str("name").unwrap_or("ROOT"),
        }),
        None => None,
    }
}

/// What a subcommand that writes a text of the tool's own, or changes a key, is asked for; `None` where it is asked for nothing.
fn text_asked<'a>(
    alloc: Global,
    name: &str,
    matches: &ArgMatches<'a>,
) -> Result<Option<Request<'a>>, AllocError>
    requires { IsNoSave name.now }
    ensures { IfOk result (λ request. IsFound (Asks (name.now, rows_of (found_of matches.now))) request) }
{
    if name == "manual" {
        return Ok(Some(Request::Manual));
    }
    if name == "completions" {
        return Ok(completions_asked(matches));
    }
    if name == "version" {
        return Ok(Some(Request::Version));
    }
    change_asked(alloc, name, matches)
}

/// What a subcommand is asked for that neither works on the standard streams nor looks into a file; `None` where it is asked for nothing.
fn other_asked<'a>(
    alloc: Global,
    name: &str,
    matches: &ArgMatches<'a>,
) -> Result<Option<Request<'a>>, AllocError>
    requires { IsNoQuery name.now }
    ensures { IfOk result (λ request. IsFound (Asks (name.now, rows_of (found_of matches.now))) request) }
{
    if name == "new" {
        return Ok(new_asked(matches));
    }
    if name == "edit" {
        return Ok(edit_asked(matches));
    }
    if name == "import" {
        return Ok(import_asked(matches));
    }
    if name == "copy" {
        return copy_asked(alloc, matches);
    }
    text_asked(alloc, name, matches)
}

/// What `diff`, `export`, `timeline` or a subcommand behind them is asked for; `None` where it is asked for nothing.
fn telling_asked<'a>(
    alloc: Global,
    name: &str,
    matches: &ArgMatches<'a>,
) -> Result<Option<Request<'a>>, AllocError>
    requires { IsNoLook name.now }
    ensures { IfOk result (λ request. IsFound (Asks (name.now, rows_of (found_of matches.now))) request) }
{
    if name == "diff" {
        return diff_asked(alloc, matches);
    }
    if name == "export" {
        return export_asked(alloc, matches);
    }
    if name == "timeline" {
        return timeline_asked(alloc, matches);
    }
    other_asked(alloc, name, matches)
}

/// What `ls`, `get`, `find` or a subcommand behind them is asked for; `None` where it is asked for nothing.
fn looking_asked<'a>(
    alloc: Global,
    name: &str,
    matches: &ArgMatches<'a>,
) -> Result<Option<Request<'a>>, AllocError>
    requires { IsNoStream name.now }
    ensures { IfOk result (λ request. IsFound (Asks (name.now, rows_of (found_of matches.now))) request) }
{
    if name == "ls" {
        return list_asked(alloc, matches);
    }
    if name == "get" {
        return get_asked(alloc, matches);
    }
    if name == "find" {
        return Ok(find_asked(matches));
    }
    telling_asked(alloc, name, matches)
}

/// What a subcommand is asked for; `None` where it is asked for nothing.
fn command_asked<'a>(
    alloc: Global,
    name: &str,
    matches: &ArgMatches<'a>,
) -> Result<Option<Request<'a>>, AllocError>
    ensures { IfOk result (λ request. IsFound (Asks (name.now, rows_of (found_of matches.now))) request) }
{
    if name == "run" {
        return Ok(run_asked(matches));
    }
    if name == "dump" {
        return Ok(dump_asked(matches));
    }
    if name == "check" {
        return check_asked(alloc, matches);
    }
    looking_asked(alloc, name, matches)
}

/// What the whole command line is asked for.
pub fn asked<'a>(alloc: Global, matches: &ArgMatches<'a>) -> Result<Option<Request<'a>>, AllocError>
    ensures { IfOk result (λ request. IsFound (AsksIn (subcommand_rows_of matches.now)) request) }
{
    match matches.subcommand() {
        Some((name, found)) => command_asked(alloc, name, found),
        None => Ok(None),
    }
}
