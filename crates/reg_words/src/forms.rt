//! In which form something is asked for, as the matches of a command line tell it.

ghost use Rattle.std.specs.Prelude.{◌≡◌, codes, None, Some, IfOk, MatchOption, string_bytes};
ghost use Rattle.clap.specs.Words.{first_of, found_of, rows_of};
ghost use Rattle.reg_words.specs.FieldLists.{ignored_in};
ghost use Rattle.reg_words.specs.StreamLines.{IsSet};
ghost use Rattle.reg_words.specs.CommandLines.{AsksForColumns, AsksForData, AsksForForm, AsksForPath, AsksForDifferences, AsksForTimeline};
ghost use Rattle.reg_words.specs.CommandLines.{ignored_asked};
ghost use Rattle.reg_words.specs.CommandLines.{AsksForMoment, AsksToWait, shell_word};
ghost use Rattle.reg_words.specs.Internal.Commands.{IsFound};

use crate::asked::{is_set, path_asked};
use crate::fields::{NOTHING, read_ignored};
use crate::moments::read_moment;
use crate::{Columns, DataForm, DiffForm, Form, Ignored, Shell, TimelineForm};
use clap::ArgMatches;
use std::alloc::{AllocError, Global};

/// What `ls` is asked to tell beside names.
pub fn columns_asked(matches: &ArgMatches<'_>) -> Columns
    ensures { AsksForColumns (rows_of (found_of matches.now)) result }
{
    Columns {
        data: is_set(matches, "long"),
        times: is_set(matches, "time"),
        securities: is_set(matches, "security"),
        ends_by_zero: is_set(matches, "null"),
    }
}

/// How `get` is asked for data; `None` where it is in two ways.
pub fn data_asked(matches: &ArgMatches<'_>) -> Option<DataForm>
    ensures { IsFound (AsksForData (rows_of (found_of matches.now))) result }
{
    let is_raw = is_set(matches, "raw");
    if is_set(matches, "type") {
        return if is_raw { None } else { Some(DataForm::Typed) };
    }
    if is_raw {
        return Some(DataForm::Raw);
    }
    Some(DataForm::Told)
}

/// The form of that name, which is no .reg text, where neither a front nor an encoding is given; `None` where there is none.
fn table_of<'a>(name: &str, matches: &ArgMatches<'a>) -> Option<Form<'a>>
    requires form { first_of (codes "as") (rows_of (found_of matches.now)) ≡ Some name.now }
    requires table { name.now ≡ codes "reg" → ⊥ }
    requires plain { first_of (codes "prefix") (rows_of (found_of matches.now)) ≡ None }
    requires encoded { IsSet (codes "utf8") (rows_of (found_of matches.now)) → ⊥ }
    ensures { IsFound (AsksForForm (rows_of (found_of matches.now))) result }
{
    if name == "json" {
        return Some(Form::Json);
    }
    if name == "jsonl" {
        return Some(Form::JsonLines);
    }
    if name == "csv" {
        return Some(Form::Csv);
    }
    if name == "html" {
        return Some(Form::Html);
    }
    None
}

/// The form of that name, which is no .reg text; `None` where there is none, or where a front or an encoding is given, which such texts
/// alone have.
fn table_asked<'a>(name: &str, matches: &ArgMatches<'a>) -> Option<Form<'a>>
    requires form { first_of (codes "as") (rows_of (found_of matches.now)) ≡ Some name.now }
    requires table { name.now ≡ codes "reg" → ⊥ }
    ensures { IsFound (AsksForForm (rows_of (found_of matches.now))) result }
{
    let is_encoded = is_set(matches, "utf8");
    if is_encoded {
        return None;
    }
    match matches.get_str("prefix") {
        Some(_) => None,
        None => table_of(name, matches),
    }
}

/// The form of that name; `None` where [`table_asked`] says so.
fn form_of<'a>(name: &str, matches: &ArgMatches<'a>) -> Option<Form<'a>>
    requires { first_of (codes "as") (rows_of (found_of matches.now)) ≡ Some name.now }
    ensures { IsFound (AsksForForm (rows_of (found_of matches.now))) result }
{
    if name == "reg" {
        let is_utf8 = is_set(matches, "utf8");
        let prefix = matches.get_str("prefix");
        return Some(Form::Reg { is_utf8, prefix });
    }
    table_asked(name, matches)
}

/// The form that `export` is asked for; `None` where it has no name, or one of none, or where [`table_asked`] says so.
pub fn form_asked<'a>(matches: &ArgMatches<'a>) -> Option<Form<'a>>
    ensures { IsFound (AsksForForm (rows_of (found_of matches.now))) result }
{
    match matches.get_str("as") {
        Some(name) => form_of(name, matches),
        None => None,
    }
}

/// What `diff` passes over; `None` where what is said names something else.
fn ignored_of(matches: &ArgMatches<'_>) -> Option<Ignored>
    ensures { result ≡ ignored_asked (first_of (codes "ignore") (rows_of (found_of matches.now))) }
{
    match matches.get_str("ignore") {
        Some(text) => read_ignored(text.as_bytes()),
        None => Some(NOTHING),
    }
}

/// The .reg text that `diff` is asked for, of all keys; `None` where it is to pass something over.
fn text_of_all(matches: &ArgMatches<'_>) -> Option<DiffForm>
    requires form { first_of (codes "as") (rows_of (found_of matches.now)) ≡ Some (codes "reg") }
    requires all { first_of (codes "path") (rows_of (found_of matches.now)) ≡ None }
    ensures { IsFound (AsksForDifferences (rows_of (found_of matches.now))) result }
{
    match matches.get_str("ignore") {
        Some(_) => None,
        None => Some(DiffForm::Reg {
            is_utf8: is_set(matches, "utf8"),
        }),
    }
}

/// The .reg text that `diff` is asked for; `None` where it is to be of some keys alone, or to pass something over.
fn text_of(matches: &ArgMatches<'_>) -> Option<DiffForm>
    requires { first_of (codes "as") (rows_of (found_of matches.now)) ≡ Some (codes "reg") }
    ensures { IsFound (AsksForDifferences (rows_of (found_of matches.now))) result }
{
    match matches.get_str("path") {
        Some(_) => None,
        None => text_of_all(matches),
    }
}

/// The form of a text that `diff` is asked for by that name; `None` where it is none, or where [`text_of`] says so.
fn text_asked(name: &str, matches: &ArgMatches<'_>) -> Option<DiffForm>
    requires { first_of (codes "as") (rows_of (found_of matches.now)) ≡ Some name.now }
    ensures { IsFound (AsksForDifferences (rows_of (found_of matches.now))) result }
{
    if name == "reg" {
        return text_of(matches);
    }
    None
}

/// The lines that `diff` is asked for; `None` where what it passes over isn't understood, or where they are to be in UTF-8, which .reg
/// texts alone are asked to be in.
fn lines_asked(alloc: Global, matches: &ArgMatches<'_>) -> Result<Option<DiffForm>, AllocError>
    requires { first_of (codes "as") (rows_of (found_of matches.now)) ≡ None }
    ensures { IfOk result (λ form. IsFound (AsksForDifferences (rows_of (found_of matches.now))) form) }
{
    if is_set(matches, "utf8") {
        return Ok(None);
    }
    match ignored_of(matches) {
        Some(ignored) => Ok(Some(DiffForm::Lines {
            path: path_asked(alloc, matches)?,
            ignored,
        })),
        None => Ok(None),
    }
}

/// How `diff` is asked for what differs; `None` where that isn't understood.
pub fn differences_asked(
    alloc: Global,
    matches: &ArgMatches<'_>,
) -> Result<Option<DiffForm>, AllocError>
    ensures { IfOk result (λ form. IsFound (AsksForDifferences (rows_of (found_of matches.now))) form) }
{
    match matches.get_str("as") {
        Some(name) => Ok(text_asked(name, matches)),
        None => lines_asked(alloc, matches),
    }
}

/// The form that `timeline` is asked for; `None` where it has the name of none.
pub fn timeline_form(matches: &ArgMatches<'_>) -> Option<TimelineForm>
    ensures { IsFound (AsksForTimeline (rows_of (found_of matches.now))) result }
{
    let name = matches.get_str("as").unwrap_or("text");
    if name == "text" {
        return Some(TimelineForm::Text);
    }
    if name == "csv" {
        return Some(TimelineForm::Csv);
    }
    if name == "bodyfile" {
        return Some(TimelineForm::Bodyfile);
    }
    None
}

/// The moment that an option tells, in units of 100 ns since 1601, another where it isn't given; `None` where it tells none.
pub fn moment_asked(
    alloc: Global,
    name: &str,
    other: u64,
    matches: &ArgMatches<'_>,
) -> Result<Option<u64>, AllocError>
    ensures { IfOk result (λ moment. IsFound (AsksForMoment name.now other (rows_of (found_of matches.now))) moment) }
{
    match matches.get_str(name) {
        Some(text) => read_moment(alloc, text),
        None => Ok(Some(other)),
    }
}

/// How many seconds to wait for a file; `None` where that is no number of 32 bits, which `clap` doesn't let through.
pub fn wait_asked(matches: &ArgMatches<'_>) -> Option<u32>
    ensures { IsFound (AsksToWait (rows_of (found_of matches.now))) result }
{
    match matches.try_get_one::<u32>("wait") {
        Ok(None) => Some(0),
        Ok(Some(seconds)) => Some(seconds),
        Err(_) => None,
    }
}

/// The shell of that name; `None` where there is none.
fn shell_of(name: &str, matches: &ArgMatches<'_>) -> Option<Shell>
    requires { first_of (codes "shell") (rows_of (found_of matches.now)) ≡ Some name.now }
    ensures { IsFound (λ shell. first_of (codes "shell") (rows_of (found_of matches.now)) ≡ Some (shell_word shell)) result }
{
    if name == "bash" {
        return Some(Shell::Bash);
    }
    if name == "zsh" {
        return Some(Shell::Zsh);
    }
    if name == "fish" {
        return Some(Shell::Fish);
    }
    None
}

/// The shell whose completions are asked for; `None` where it is none.
pub fn shell_asked(matches: &ArgMatches<'_>) -> Option<Shell>
    ensures { IsFound (λ shell. first_of (codes "shell") (rows_of (found_of matches.now)) ≡ Some (shell_word shell)) result }
{
    match matches.get_str("shell") {
        Some(name) => shell_of(name, matches),
        None => None,
    }
}
