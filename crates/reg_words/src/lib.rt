//! The tool's command line.
//!
//! Its contract: [`read_words`] tells of words exactly what they ask for, as `specs/CommandLines.antt` says it by `clap`'s own
//! words, or that they ask for nothing, with the cause ([`WordsFault`]); [`read_stream_words`] does so for what is asked of the standard
//! streams alone; [`told`] is just the line that tells a change, as `specs/ChangeLines.antt` has it. It stands on `clap`, and on reg_text,
//! which writes names and data. Its types are [`Request`] and what that holds: [`StreamRequest`] with [`HiveCount`], [`HiveFile`],
//! [`ListRequest`] with [`Columns`], [`GetRequest`] with [`DataForm`], [`FindRequest`] with [`Places`], [`DiffForm`] with [`Ignored`],
//! [`Form`], [`TimelineRequest`] with [`TimelineForm`], [`EditRequest`] with [`Begin`], [`KeyChange`] with [`Contents`], and [`Shell`].
//!
//! `commands` has the commands in rows, and `command` makes that of them which `clap` reads; `asked`, `forms` and `changes` say what its
//! matches ask for, `places` reads where a pattern is searched for, `fields` what `diff` passes over, `moments` a moment, `typed` a change,
//! and `reasons` says which word isn't understood.
#![tactic(auto)]

mod asked;
mod builder;
mod changes;
mod command;
mod commands;
mod fault;
mod fields;
mod forms;
mod moments;
mod page;
mod places;
mod reasons;
mod request;
mod scripts;
mod settings;
mod typed;

ghost use Rattle.std.specs.Prelude.{◌≡◌, IfOk, IfErr};
ghost use Rattle.clap.specs.Words.{app_of};
ghost use Rattle.reg_words.specs.CommandShapes.{regtool};
ghost use Rattle.reg_words.specs.CommandLines.{texts, AsksNothing, AsksNoStream, IsCommandLine};
ghost use Rattle.reg_words.specs.WordsFaults.{WantsMemory, TellsOptions};
ghost use Rattle.reg_words.specs.declared.request.Request.TheVariants.{Stream};
ghost use Rattle.reg_words.specs.Internal.Commands.{stream_of as stream_asked};

use crate::asked::{asked, has_both_options};
use crate::command::whole_command;
use crate::reasons::reason;
use clap::error::ErrorKind;
use clap::{ArgMatches, Command, Error};
pub use fault::WordsFault;
pub use page::manual;
pub use request::{
    Begin, Columns, DataForm, DiffForm, EditRequest, FindRequest, Form, GetRequest, HiveCount,
    HiveFile, Ignored, ListRequest, Places, Request, Shell, StreamRequest, TimelineForm,
    TimelineRequest,
};
pub use scripts::completions;
use std::alloc::Global;
pub use typed::{Contents, KeyChange, told};

/// The error of words that `clap` takes though they ask for nothing that is served, told in its own manner.
fn refusal(command: &mut Command<'_>, text: &str) -> Error {
    match command.error(ErrorKind::ArgumentConflict, text) {
        Ok(error) => error,
        Err(error) => Error::from(error),
    }
}

/// The error of words that `clap` takes though they ask for nothing: it says what isn't understood.
fn nothing_asked(alloc: Global, command: &mut Command<'_>, matches: &ArgMatches<'_>) -> Error {
    match reason(alloc, matches) {
        Ok(text) => refusal(command, text.as_str()),
        Err(error) => Error::from(error),
    }
}

/// Reads a command line by the tool's command.
fn read_by<'a>(
    alloc: Global,
    command: &mut Command<'a>,
    words: &'a [String],
) -> Result<Request<'a>, WordsFault>
    requires { app_of command.old ≡ regtool }
    ensures asks { IfOk result (λ request. IsCommandLine (texts words.now) request) }
    ensures refuses { IfErr result (λ fault. (WantsMemory fault → ⊥) → AsksNothing (texts words.now)) }
    ensures options { IfErr result (λ fault. TellsOptions fault (texts words.now)) }
{
    let matches = command.try_get_matches_from_mut(words)?;
    if has_both_options(&matches) {
        return Err(WordsFault::Options);
    }
    match asked(alloc, &matches)? {
        Some(request) => Ok(request),
        None => Err(WordsFault::Unread(nothing_asked(alloc, command, &matches))),
    }
}

/// Reads a command line: what it asks for, or why it asks for nothing. `Options` only where `clap` takes the words and `run` has both
/// its options; else `clap`'s error, which is want of memory or tells what is wrong.
pub fn read_words<'a>(alloc: Global, words: &'a [String]) -> Result<Request<'a>, WordsFault>
    ensures asks { IfOk result (λ request. IsCommandLine (texts words.now) request) }
    ensures refuses { IfErr result (λ fault. (WantsMemory fault → ⊥) → AsksNothing (texts words.now)) }
    ensures options { IfErr result (λ fault. TellsOptions fault (texts words.now)) }
{
    let mut command = whole_command(alloc)?;
    read_by(alloc, &mut command, words)
}

/// What is asked of the standard streams; `None` where files are named.
fn stream_of(request: &Request<'_>) -> Option<StreamRequest>
    ensures { result ≡ stream_asked request.now }
{
    match request {
        Request::Stream(stream) => Some(*stream),
        _ => None,
    }
}

/// Reads a command line that asks for something of the standard streams alone, by the tool's command.
fn read_stream_by<'a>(
    alloc: Global,
    command: &mut Command<'a>,
    words: &'a [String],
) -> Result<StreamRequest, WordsFault>
    requires { app_of command.old ≡ regtool }
    ensures asks { IfOk result (λ request. IsCommandLine (texts words.now) (Stream request)) }
    ensures refuses { IfErr result (λ fault. (WantsMemory fault → ⊥) → AsksNoStream (texts words.now)) }
    ensures options { IfErr result (λ fault. TellsOptions fault (texts words.now)) }
{
    let request = read_by(alloc, command, words)?;
    match stream_of(&request) {
        Some(stream) => Ok(stream),
        None => Err(WordsFault::Unread(refusal(
            command,
            "the words name files, and only standard input is read here",
        ))),
    }
}

/// Reads a command line that asks for something of the standard streams alone. The fault is that of [`read_words`]; or it tells that the
/// words name files.
pub fn read_stream_words<'a>(
    alloc: Global,
    words: &'a [String],
) -> Result<StreamRequest, WordsFault>
    ensures asks { IfOk result (λ request. IsCommandLine (texts words.now) (Stream request)) }
    ensures refuses { IfErr result (λ fault. (WantsMemory fault → ⊥) → AsksNoStream (texts words.now)) }
    ensures options { IfErr result (λ fault. TellsOptions fault (texts words.now)) }
{
    let mut command = whole_command(alloc)?;
    read_stream_by(alloc, &mut command, words)
}
