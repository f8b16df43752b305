//! A script whose sessions work side by side: each on a thread of its own, on several fresh hives.
//!
//! Its one contract: [`run_workers`] without a fault has read its input to the end, and written a text that the sessions of these lines
//! may write together (`WritesWorkers` in `specs/Workers.antt`). After a fault nothing was written, or just as many bytes of such a text
//! as the writer took. It stands on reg_script, which understands the lines and writes the replies, and on reg_sessions, which drives the
//! sessions.
//!
//! `reading` goes over the bytes; `plan` keeps what each line gives its session to do, in a `part` for each; `working` has the sessions do
//! it; `replies` writes what came of it.
#![tactic(auto)]

mod part;
mod plan;
mod reading;
mod replies;
mod working;

ghost use Rattle.std.specs.Prelude.{◌≤◌, OnOk, IfErr};
ghost use Rattle.reg_workers.specs.Workers.{RunsWorkers, WorkersStop};

use crate::reading::read_plan;
use crate::working::work;
use reg_script::ScriptFault;
use reg_text::Output;
use std::alloc::Global;
use std::io::{Read, Write};
use std::sync::Wait;
use std::thread::Threads;

/// Reads a whole script, and has its sessions work side by side on so many fresh hives, from 1 to 16: each session does what its lines say
/// on a thread of its own, in their order. Where the system gives no thread, sessions work one after another. There is one session more
/// than the greatest number that a line names. Settings hold for all later lines, whatever session these belong to.
///
/// Then it writes, for each session that has a reply, the line `session S` and its replies in order; `entries` and how many entries each
/// hive has; and `gathered` where each hive's journal holds just the changes that its sessions were told were accepted, else `mismatch`.
///
/// `Read`, `TooLong` and `Memory` come before anything is written. After `Write` just so many of the text's first bytes were written.
pub fn run_workers<Rt: Threads + Wait + Sync, R: Read, W: Write>(
    rt: &Rt,
    alloc: Global,
    input: &mut R,
    output: &mut W,
    hives: u8,
) -> Result<(), ScriptFault>
    requires some { 1 ≤ hives }
    requires few { hives ≤ 16 }
    ensures ok { OnOk result (RunsWorkers hives (R.remaining input.old) (R.remaining input.new) (W.contents output.old) (W.contents output.new)) }
    ensures err { IfErr result (λ fault. WorkersStop hives fault (R.remaining input.old) (R.remaining input.new) (W.contents output.old)
        (W.contents output.new)) }
{
    let plan = read_plan(alloc, hives, input)?;
    let mut text: Output<String> = Output::new(alloc);
    work(rt, alloc, hives, plan, &mut text.gathered)?;
    text.finish(output)?;
    Ok(())
}
