//! What is told beside the output: what ended a request, or why words are no command line.

ghost use Rattle.std.specs.Prelude.{◌≡◌, ◌≤◌, IfOk, codes, string_bytes};
ghost use Rattle.clap.specs.Values.{kind_of};
ghost use Rattle.clap.specs.declared.error.kind.ErrorKind.TheVariants.{OutOfMemory};
ghost use Rattle.reg_words.specs.WordsFaults.{WantsMemory};
ghost use Rattle.reg_words.specs.declared.fault.WordsFault.{WordsFault};
ghost use Rattle.reg_command.specs.Failures.{IsSaid, IsStopSaid, script_line, cut_line};
ghost use Rattle.reg_command.specs.declared.failure.Stop.{Stop};

use crate::failure::Stop;
use clap::Error;
use clap::error::ErrorKind;
use reg_script::ScriptFault;
use reg_text::{Sink, write_counted};
use reg_words::WordsFault;
use std::alloc::{AllocError, Global};

/// Tells a line. What a writer doesn't take is lost.
pub fn say<E: Sink>(errors: &mut E, line: &[u8])
    ensures { IsSaid line.now (E.contents errors.old) (E.contents errors.new) (E.failures errors.old) (E.failures errors.new) }
{
    let _ = write_counted(errors, line);
}

/// The line that tells a script's fault.
fn line_of(fault: ScriptFault) -> &'static [u8]
    ensures { result.now ≡ script_line fault }
{
    match fault {
        ScriptFault::Read => b"error script 1\n",
        ScriptFault::Write { .. } => b"error script 2\n",
        ScriptFault::TooLong => b"error script 3\n",
        ScriptFault::Memory => b"error script 4\n",
    }
}

/// The line that tells after how many bytes a write failed.
fn line_after(alloc: Global, written: u64) -> Result<String, AllocError>
    ensures { IfOk result (λ line. string_bytes line ≡ cut_line written) }
{
    format!(in alloc; "error 1013 written {written}\n")
}

/// Tells after how many bytes a write failed, or that there was no memory for the line.
fn say_cut<E: Sink>(alloc: Global, errors: &mut E, written: u64)
    ensures { IsStopSaid (Stop.Write written) (E.contents errors.old) (E.contents errors.new) (E.failures errors.old) (E.failures errors.new) }
{
    match line_after(alloc, written) {
        Ok(line) => say(errors, line.as_bytes()),
        Err(_) => say(errors, b"error 8\n"),
    }
}

/// Tells what ended a request.
pub fn report_stop<E: Sink>(alloc: Global, errors: &mut E, stop: Stop)
    ensures { IsStopSaid stop (E.contents errors.old) (E.contents errors.new) (E.failures errors.old) (E.failures errors.new) }
{
    match stop {
        Stop::Script(fault) => say(errors, line_of(fault)),
        Stop::Load(_) => {}
        Stop::Write(written) => say_cut(alloc, errors, written),
        Stop::Memory => say(errors, b"error 8\n"),
    }
}

/// Tells what `clap` tells of words that are no command line, and answers the status: 2, or 1 where memory is wanting.
fn refuse_unread<E: Sink>(alloc: Global, errors: &mut E, error: &Error) -> u8
    ensures status { (1 ≤ result) × (result ≤ 2) }
    ensures memory { kind_of error.now ≡ OutOfMemory → result ≡ 1 }
    ensures said { result ≡ 1 →
        IsSaid (codes "error 8\n") (E.contents errors.old) (E.contents errors.new) (E.failures errors.old) (E.failures errors.new) }
{
    if error.kind() == ErrorKind::OutOfMemory {
        say(errors, b"error 8\n");
        return 1;
    }
    match format!(in alloc; "{error}") {
        Ok(text) => {
            say(errors, text.as_bytes());
            2
        }
        Err(_) => {
            say(errors, b"error 8\n");
            1
        }
    }
}

/// Tells that `run` has both its options, and answers the status.
fn refuse_options<E: Sink>(errors: &mut E) -> u8
    ensures status { result ≡ 2 }
    ensures said { IsSaid (codes "error options\n") (E.contents errors.old) (E.contents errors.new) (E.failures errors.old)
        (E.failures errors.new) }
{
    say(errors, b"error options\n");
    2
}

/// Tells why words are no command line, and answers the status: 2, or 1 where memory is wanting.
pub fn refuse_words<E: Sink>(alloc: Global, errors: &mut E, fault: &WordsFault) -> u8
    ensures status { (1 ≤ result) × (result ≤ 2) }
    ensures memory { WantsMemory fault.now → result ≡ 1 }
    ensures said { result ≡ 1 →
        IsSaid (codes "error 8\n") (E.contents errors.old) (E.contents errors.new) (E.failures errors.old) (E.failures errors.new) }
    ensures options { fault.now ≡ WordsFault.Options → (result ≡ 2) × IsSaid (codes "error options\n") (E.contents errors.old)
        (E.contents errors.new) (E.failures errors.old) (E.failures errors.new) }
{
    match fault {
        WordsFault::Options => refuse_options(errors),
        WordsFault::Unread(error) => refuse_unread(alloc, errors, error),
    }
}
