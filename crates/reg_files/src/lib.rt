//! Hive files by path: dumped, counted, queried, compared, made, edited, changed, exported and imported.
//!
//! Its one contract is that of [`file_tool`]: the status is 0 only where the words are a command line and what it asks for was done; 1
//! where something was refused or faulty, which is reported, or where `diff` wrote a difference; 2 for any other words, and then nothing is
//! touched, and of both options of `run` that is told. It stands on reg_words, which reads the words, on reg_command for the standard
//! streams, on reg_queries and reg_edits, and on reg_tree_image, by which it saves. What is to be saved has clauses (`specs/Saves.antt`);
//! what files hold no clause can say.
//!
//! `answers` answers a request, by `streams`, `queries`, `differing`, `timelines`, `commands` and `copying`; `images` opens what is looked
//! into, `saved` is what is saved, `locks` and `saving` have the steps on files, `device` keeps why one failed, and `reports` says it. Its
//! types are [`Device`] and the bounds [`Output`] and [`Lockable`].
#![tactic(auto)]

mod answers;
mod commands;
mod copying;
mod device;
mod differing;
mod fault;
mod images;
mod locks;
mod moments;
mod queries;
mod reports;
mod saved;
mod saving;
mod streams;
mod timelines;

ghost use Rattle.std.specs.Prelude.{◌≡◌, ◌≤◌, ◌⊎◌, codes};
ghost use Rattle.reg_words.specs.CommandLines.{texts, HasBothOptions};
ghost use Rattle.reg_command.specs.Failures.{IsSaid};
ghost use Rattle.reg_files.specs.Serving.{IsServed, IsFailed, IsRefused, WantsMemory};

use crate::answers::answer;
pub use device::{Device, Output};
pub use locks::Lockable;
use reg_command::refuse_words;
use reg_text::Sink;
use reg_words::read_words;
use std::alloc::Global;
use std::io::Read;
use std::rt::{Clock, Files};
use std::sync::Wait;
use std::thread::Threads;

/// Runs the tool on a command line, whose first word is the program's name, and answers the exit status.
///
/// `run`, whose sessions may work on threads, and `dump` and `check` without files, do with the standard streams what
/// [`reg_command::serve_stream`] says. `dump FILE` and `check FILE..` do with files what these do with `input`; several are counted a line
/// each, behind their names; with `-v` a line on `errors` says of one that doesn't load where that is met, as it is read again. `ls FILE
/// [PATH]` lists a key's values and subkeys, `get FILE PATH [NAME]` writes a value's data, `find FILE PATTERN` the keys and values that a
/// pattern matches, `diff OLD NEW` what differs between two hives, and `export FILE [PATH] --as FORM` writes a key with all below it in a
/// form of text. `new FILE` makes a file with a fresh hive, never over one that is there. `edit FILE` runs a script from `input` on the
/// hive of a file, writes the replies to `output`, and saves the hive where a call that was accepted may have changed a key, while it holds
/// the file's lock. A line that fails ends it, and then nothing is saved; with `--keep-going` it is passed over. `import FILE [TEXT]` does
/// so with the entries of a .reg text, from `input` where no file is named, and `set FILE PATH NAME TYPE DATA..`, `create FILE PATH` and
/// `delete FILE PATH [NAME]` with one change, and `copy FILE PATH TO-FILE TO-PATH` with a key of another file; of these `--dry-run` tells a
/// line. With `--dirty` a file that wasn't written to its end is looked into as if it had been, and a line on `errors` says so. `version`
/// writes the tool's version.
///
/// The status is 0 where that was done, 1 where something was refused or faulty, with a line on `errors` that says what and where (save
/// that a write to `output` failed since nobody reads it any more), or where `diff` wrote a difference, and 2 for words that aren't
/// understood, of which `error options` says that `run` has both its options.
pub fn file_tool<Rt: Threads + Wait + Sync, H: Files + Clock, R: Read, W: Output, E: Sink>(
    rt: &Rt,
    alloc: Global,
    host: &H,
    words: Vec<String>,
    input: &mut R,
    output: &mut W,
    errors: &mut E,
) -> u8
where
    H::File: Lockable,
    ensures status { result ≤ 2 }
    ensures done { result ≡ 0 → IsServed (texts words.items) (R.remaining input.old) (R.remaining input.new) (W.contents output.old)
        (W.contents output.new) (E.contents errors.old) (E.contents errors.new) (E.failures errors.old) }
    ensures failed { result ≡ 1 →
        IsFailed (texts words.items) (W.closed output.new) (R.remaining input.old) (R.remaining input.new) (W.contents output.old)
        (W.contents output.new) (E.contents errors.old) (E.contents errors.new) (E.failures errors.old) (E.failures errors.new)
        ⊎ WantsMemory (R.remaining input.old) (R.remaining input.new) (W.contents output.old) (W.contents output.new)
        (E.contents errors.old) (E.contents errors.new) (E.failures errors.old) (E.failures errors.new) }
    ensures refused { result ≡ 2 → IsRefused (texts words.items) (R.remaining input.old) (R.remaining input.new) (W.contents output.old)
        (W.contents output.new) }
    ensures options { HasBothOptions (texts words.items) → result ≡ 2 → IsSaid (codes "error options\n") (E.contents errors.old)
        (E.contents errors.new) (E.failures errors.old) (E.failures errors.new) }
{
    match read_words(alloc, words.as_slice()) {
        Ok(request) => answer(rt, alloc, host, request, input, output, errors),
        Err(fault) => refuse_words(alloc, errors, &fault),
    }
}
