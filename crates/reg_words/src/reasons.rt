//! Which of the words isn't understood, where `clap` takes them though they ask for nothing.

use crate::asked::{begin_asked, is_set};
use crate::fields::wrong_field;
use crate::forms::timeline_form;
use crate::moments::read_moment;
use crate::places::wrong_word;
use crate::typed::value_fault;
use clap::ArgMatches;
use std::alloc::{AllocError, Global};

/// Of `set`: what is wrong with the type and the data.
fn contents_reason(alloc: Global, matches: &ArgMatches<'_>) -> Result<String, AllocError> {
    let kind = matches.get_str("type").unwrap_or("");
    match matches.get_strs("data") {
        Some(words) => value_fault(alloc, kind, words),
        None => value_fault(alloc, kind, &[]),
    }
}

/// Of a subcommand that saves a file.
fn saving_reason(
    alloc: Global,
    name: &str,
    matches: &ArgMatches<'_>,
) -> Result<String, AllocError> {
    if begin_asked(matches).is_none() {
        return format!(in alloc; "--now and --at ask for two moments");
    }
    if name == "set" {
        return contents_reason(alloc, matches);
    }
    format!(in alloc; "a value has no keys below it: --tree goes with a key alone")
}

/// Of `diff` without a form.
fn lines_reason(alloc: Global, matches: &ArgMatches<'_>) -> Result<String, AllocError> {
    if is_set(matches, "utf8") {
        return format!(in alloc; "--utf8 is of a .reg text, and goes with --as reg alone");
    }
    let word = wrong_field(matches.get_str("ignore").unwrap_or(""));
    format!(in alloc; "'{word}' is not one of time, security, order, class, marks")
}

/// Of `diff`.
fn diff_reason(alloc: Global, matches: &ArgMatches<'_>) -> Result<String, AllocError> {
    let Some(form) = matches.get_str("as") else {
        return lines_reason(alloc, matches);
    };
    if form != "reg" {
        return format!(in alloc; "'{form}' is no form: reg");
    }
    format!(in alloc; "--as reg tells all that differs: neither PATH nor --ignore goes with it")
}

/// Of `export`.
fn export_reason(alloc: Global, matches: &ArgMatches<'_>) -> Result<String, AllocError> {
    let form = matches.get_str("as").unwrap_or("");
    if ["json", "jsonl", "csv", "html"].contains(&form) {
        if is_set(matches, "utf8") {
            return format!(in alloc; "--utf8 is of a .reg text, and goes with --as reg alone");
        }
        return format!(in alloc; "--prefix is of a .reg text, and goes with --as reg alone");
    }
    format!(in alloc; "'{form}' is no form: reg, json, jsonl, csv or html")
}

/// Of `dump` and `check` without a file.
fn stream_reason(alloc: Global, matches: &ArgMatches<'_>) -> Result<String, AllocError> {
    let flag = if is_set(matches, "dirty") {
        "--dirty"
    } else {
        "--verbose"
    };
    format!(in alloc; "{flag} goes with a file, and none is named")
}

/// Of `timeline`.
fn timeline_reason(alloc: Global, matches: &ArgMatches<'_>) -> Result<String, AllocError> {
    if timeline_form(matches).is_none() {
        let form = matches.get_str("as").unwrap_or("");
        return format!(in alloc; "'{form}' is no form: text, csv or bodyfile");
    }
    let from = matches.get_str("from").unwrap_or("0");
    let word = match read_moment(alloc, from)? {
        Some(_) => matches.get_str("to").unwrap_or(""),
        None => from,
    };
    format!(in alloc;
        "'{word}' is no moment: 2022-06-18T04:26:40Z, 2022-06-18 or a number of 100 ns since 1601"
    )
}

/// Of a subcommand.
fn command_reason(
    alloc: Global,
    name: &str,
    matches: &ArgMatches<'_>,
) -> Result<String, AllocError> {
    if name == "find" {
        let word = wrong_word(matches.get_str("in").unwrap_or(""));
        return format!(in alloc; "'{word}' is not one of keys, names, data, paths, bytes");
    }
    if name == "export" {
        return export_reason(alloc, matches);
    }
    if name == "get" {
        return format!(in alloc; "--raw and --type ask for data in two ways");
    }
    if name == "diff" {
        return diff_reason(alloc, matches);
    }
    if name == "timeline" {
        return timeline_reason(alloc, matches);
    }
    if name == "completions" {
        let shell = matches.get_str("shell").unwrap_or("");
        return format!(in alloc; "'{shell}' is no shell: bash, zsh or fish");
    }
    if name == "dump" || name == "check" {
        return stream_reason(alloc, matches);
    }
    saving_reason(alloc, name, matches)
}

/// What is told of words that `clap` takes though they ask for nothing: which of them isn't understood.
pub fn reason(alloc: Global, matches: &ArgMatches<'_>) -> Result<String, AllocError> {
    match matches.subcommand() {
        Some((name, found)) => command_reason(alloc, name, found),
        None => format!(in alloc; "the words name no command"),
    }
}
