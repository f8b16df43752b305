//! The tool on its standard streams, as a library: the exit status and the texts of a run. The program is the crate regtool, which only
//! passes on what it is started with: nothing can stand on a program, no test of another crate either.
//!
//! Its contracts are those of [`serve_stream`], which does what is asked of standard input (the status is 0 only where that was done,
//! and 1 where a script's fault, a load fault, a failed write or want of memory ended it), and of [`tool`], which reads a command line
//! before, and answers 2 for words that ask for nothing of the kind, and then nothing is touched. [`refuse_words`] tells these words'
//! fault: `error options` where `run` has both its options. [`dump_image`] and [`check_image`] do what is asked of an image, and
//! [`report_stop`] tells what ended that; [`say`] tells a line on the side. It stands on reg_words, which reads the words by `clap`, and
//! on reg_script, reg_workers, reg_image, reg_tree_text and reg_calls. Its one type is [`Stop`], what ended a request early.
//!
//! `scripts` has what `run` does, `images` what `dump` and `check` do, and `reports` what is told on the side.
#![tactic(auto)]

mod failure;
mod images;
mod reports;
mod scripts;

ghost use Rattle.std.specs.Prelude.{◌≡◌, ◌≤◌, OnOk, IfErr, codes};
ghost use Rattle.reg_words.specs.CommandLines.{texts, HasBothOptions};
ghost use Rattle.reg_command.specs.Failures.{Does, Stops, EndsEarly, IsDone, IsRefused, IsSaid, IsStopped};

use crate::scripts::{run_script, run_sessions, run_to_image};
pub use failure::Stop;
pub use images::{check_image, dump_image};
use reg_text::Sink;
use reg_words::{StreamRequest, read_stream_words};
pub use reports::{refuse_words, report_stop, say};
use std::alloc::Global;
use std::io::{Read, Write};
use std::sync::Wait;
use std::thread::Threads;

/// Does what [`serve_stream`] does, but leaves it to the caller to say what ended it early ([`report_stop`]).
fn perform<Rt: Threads + Wait + Sync, R: Read, W: Write>(
    rt: &Rt,
    alloc: Global,
    request: StreamRequest,
    input: &mut R,
    output: &mut W,
) -> Result<(), Stop>
    ensures ok { OnOk result
        (Does request (R.remaining input.old) (R.remaining input.new) (W.contents output.old) (W.contents output.new)) }
    ensures err { IfErr result (λ stop. Stops request stop (R.remaining input.old) (R.remaining input.new) (W.contents output.old)
        (W.contents output.new)) }
{
    match request {
        StreamRequest::Run => run_script(alloc, input, output),
        StreamRequest::Image(sequence) => run_to_image(alloc, sequence, input, output),
        StreamRequest::Workers(count) => run_sessions(rt, alloc, count, input, output),
        StreamRequest::Dump => dump_image(alloc, input, output),
        StreamRequest::Check => check_image(alloc, input, output),
    }
}

/// Does what is asked of `input`, and answers the exit status.
///
/// `Run` runs a script and writes its replies to `output`; `Image` writes no replies but, at the script's end, the image of its hive at the
/// moment of the last `at`, with that sequence number. `Workers` reads a whole script, has its sessions work side by side on so many hives,
/// each on a thread of its own, and then writes each session's replies and how many entries each hive has. `Dump` reads an image and writes
/// its tree as text, `Check` how many keys and values it has.
///
/// The status is 0 where all that was done. It is 1 after a script's fault (`error script N` on `errors`; no image is written, and of
/// sessions side by side no reply, or a front of their text where its write failed), after a load fault (`error 1009 load N` on `output`,
/// `error 8` where memory was wanting), after a failed write of an image or of the text of a tree (`error 1013 written N` on `errors`), and
/// for any other want of memory (`error 8` on `errors`). A failed write to `errors` changes nothing.
pub fn serve_stream<Rt: Threads + Wait + Sync, R: Read, W: Write, E: Sink>(
    rt: &Rt,
    alloc: Global,
    request: StreamRequest,
    input: &mut R,
    output: &mut W,
    errors: &mut E,
) -> u8
    ensures status { result ≤ 1 }
    ensures done { result ≡ 0 → Does request (R.remaining input.old) (R.remaining input.new) (W.contents output.old) (W.contents output.new)
        × (E.contents errors.new ≡ E.contents errors.old) }
    ensures stopped { result ≡ 1 → EndsEarly request (R.remaining input.old) (R.remaining input.new) (W.contents output.old)
        (W.contents output.new) (E.contents errors.old) (E.contents errors.new) (E.failures errors.old) (E.failures errors.new) }
{
    match perform(rt, alloc, request, input, output) {
        Ok(()) => 0,
        Err(stop) => {
            report_stop(alloc, errors, stop);
            1
        }
    }
}

/// Runs the tool on a command line, whose first word is the program's name, and answers the exit status: that of [`serve_stream`] for
/// what the words ask for.
///
/// It is 2 for a command line that asks for nothing of the standard streams, or for help (the text on `errors`; `error options` where
/// `run` has both its options), and then nothing was read or written; and 1 (`error 8` on `errors`) where there is no memory to read it.
pub fn tool<Rt: Threads + Wait + Sync, R: Read, W: Write, E: Sink>(
    rt: &Rt,
    alloc: Global,
    words: Vec<String>,
    input: &mut R,
    output: &mut W,
    errors: &mut E,
) -> u8
    ensures status { result ≤ 2 }
    ensures answered { result ≡ 0 →
        IsDone (texts words.items) (R.remaining input.old) (R.remaining input.new) (W.contents output.old) (W.contents output.new)
        (E.contents errors.old) (E.contents errors.new) }
    ensures stopped { result ≡ 1 →
        IsStopped (texts words.items) (R.remaining input.old) (R.remaining input.new) (W.contents output.old)
        (W.contents output.new) (E.contents errors.old) (E.contents errors.new) (E.failures errors.old) (E.failures errors.new) }
    ensures usage { result ≡ 2 →
        IsRefused (texts words.items) (R.remaining input.old) (R.remaining input.new) (W.contents output.old) (W.contents output.new) }
    ensures options { HasBothOptions (texts words.items) → result ≡ 2 → IsSaid (codes "error options\n") (E.contents errors.old)
        (E.contents errors.new) (E.failures errors.old) (E.failures errors.new) }
{
    match read_stream_words(alloc, words.as_slice()) {
        Ok(request) => serve_stream(rt, alloc, request, input, output, errors),
        Err(fault) => refuse_words(alloc, errors, &fault),
    }
}
