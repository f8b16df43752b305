//! The command-line tool: `regtool run` reads a script of registry calls on standard input and writes the replies.
//!
//! It stands on reg_files and does nothing but pass on what it is started with: its arguments, its input and its outputs go to
//! [`file_tool`], whose answer is its exit status. Where standard error is a terminal a second thread tells there, a line a second, how
//! long that takes and how much was written ([`reg_progress`]). Arguments that can't be read it tells itself. What a program is given
//! and prints no clause can say; its one contract is that of what it tells of such arguments.
#![tactic(auto)]

ghost use Rattle.std.specs.Prelude.{◌≡◌, ◌≢◌, codes};

use reg_files::{Device, file_tool};
use reg_progress::{Awaited, Counted, Work, tell_each_second};
use std::io::{ErrorKind, IsTerminal};
use std::process::ExitCode;
use std::{env, io, thread};

/// What is told of arguments that can't be read, and the exit status: 1 for want of memory, and 2 where one is not text.
fn unread(kind: ErrorKind) -> (&'static str, u8)
    ensures memory { kind ≡ ErrorKind.OutOfMemory → (result.0.now ≡ codes "error 8") × (result.1 ≡ 1) }
    ensures no_text { kind ≢ ErrorKind.OutOfMemory → (result.0.now ≡ codes "error: an argument is not text") × (result.1 ≡ 2) }
{
    if kind == ErrorKind::OutOfMemory {
        ("error 8", 1)
    } else {
        ("error: an argument is not text", 2)
    }
}

fn main(rt: HostRuntime) -> ExitCode {
    let alloc = rt.alloc();
    let read = match env::args(&rt) {
        Ok(args) => args.collect(alloc).map_err(|_| ErrorKind::OutOfMemory),
        Err(error) => Err(error.kind()),
    };
    let words = match read {
        Ok(words) => words,
        Err(kind) => {
            let (text, status) = unread(kind);
            let _ = rt.eprintln(text);
            return ExitCode::from(status);
        }
    };
    let work = Work::new();
    let mut input = Awaited::new(rt.reader(), &work);
    let mut output = Device::new(Counted::new(io::writer(&rt), &work));
    let mut errors = rt.stderr();
    if !errors.is_terminal() {
        let status = file_tool(&rt, alloc, &rt, words, &mut input, &mut output, &mut errors);
        return ExitCode::from(status);
    }
    let is_mixed = rt.stdout().is_terminal();
    let (_, status) = thread::join(
        &rt,
        || tell_each_second(&work, &mut rt.stderr(), &rt, is_mixed),
        || {
            let status = file_tool(&rt, alloc, &rt, words, &mut input, &mut output, &mut errors);
            work.end();
            status
        },
    );
    ExitCode::from(status)
}
