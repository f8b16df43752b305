//! What `run` does: a script on a fresh hive, and its replies or the hive's image; or its sessions side by side on several.
ghost use Rattle.std.specs.Prelude.{◌≡◌, ℕ, OnOk, IfOk, IfErr};
ghost use Rattle.std.specs.Io.KnownBytes.{Appends};
ghost use Rattle.reg_calls.specs.HiveView.{view_of};
ghost use Rattle.reg_command.specs.ScriptRuns.{RunsScript, WritesImage, image_at};
ghost use Rattle.reg_workers.specs.Workers.{RunsWorkers};
ghost use Rattle.reg_command.specs.Failures.{RunStops, ImageStops, SessionsStop};
ghost use Rattle.reg_command.specs.Internal.Steps.{IsScriptHive, SendStops};

use crate::failure::Stop;
use reg_callbacks::{Callback, NoCallback};
use reg_calls::{Hive, NewFault, SeatedHive};
use reg_image::write_hive;
use reg_script::{FRESH_DESCRIPTOR, run, run_to};
use reg_words::HiveCount;
use reg_workers::run_workers;
use std::alloc::Global;
use std::io;
use std::io::{Read, Write};
use std::sync::Wait;
use std::thread::Threads;

/// The name of a script's hive's root.
const ROOT_NAME: &[u8; 4] = b"ROOT";

/// A script's hive: a root of that name at moment 0, and nothing else. `Memory` is its one fault.
fn fresh_hive(alloc: Global) -> Result<Hive<NoCallback>, NewFault>
    ensures { IfOk result (λ hive. IsScriptHive hive) }
{
    Hive::new(alloc, ROOT_NAME, &FRESH_DESCRIPTOR, 0)
}

/// A script's hive with all its sessions seated.
fn seated_hive(alloc: Global) -> Result<SeatedHive<NoCallback>, NewFault>
    ensures { IfOk result (λ seated. IsScriptHive seated.hive) }
{
    let hive = fresh_hive(alloc)?;
    match SeatedHive::new(hive) {
        Ok(seated) => Ok(seated),
        Err(_) => Err(NewFault::Memory),
    }
}

/// Runs a script on a hive and writes its replies.
fn run_on<R: Read, W: Write, C: Callback>(
    alloc: Global,
    seated: &mut SeatedHive<C>,
    input: &mut R,
    output: &mut W,
) -> Result<(), Stop>
    ensures ok { OnOk result (IsScriptHive seated.old.hive →
        RunsScript (R.remaining input.old) (R.remaining input.new) (W.contents output.old) (W.contents output.new)) }
    ensures err { IfErr result (λ stop. IsScriptHive seated.old.hive →
        RunStops stop (R.remaining input.old) (R.remaining input.new) (W.contents output.old) (W.contents output.new)) }
{
    match run(alloc, input, output, &mut seated.hive, &mut seated.shares) {
        Ok(()) => Ok(()),
        Err(ended) => Err(Stop::Script(ended)),
    }
}

/// Runs a script and writes its replies.
pub fn run_script<R: Read, W: Write>(
    alloc: Global,
    input: &mut R,
    output: &mut W,
) -> Result<(), Stop>
    ensures ok { OnOk result (RunsScript (R.remaining input.old) (R.remaining input.new) (W.contents output.old) (W.contents output.new)) }
    ensures err { IfErr result (λ stop. RunStops stop (R.remaining input.old) (R.remaining input.new) (W.contents output.old)
        (W.contents output.new)) }
{
    match seated_hive(alloc) {
        Ok(mut seated) => run_on(alloc, &mut seated, input, output),
        Err(_) => Err(Stop::Memory),
    }
}

/// Writes the image of a hive.
fn send_image<W: Write, C: Callback>(
    hive: &Hive<C>,
    moment: u64,
    sequence: u32,
    output: &mut W,
) -> Result<(), Stop>
    ensures ok { OnOk result (Appends (W.contents output.old) (W.contents output.new) (image_at (view_of hive.now) moment sequence)) }
    ensures err { IfErr result (λ stop. SendStops (image_at (view_of hive.now) moment sequence) stop (W.contents output.old)
        (W.contents output.new)) }
{
    match write_hive(hive, moment, sequence, output) {
        Ok(()) => Ok(()),
        Err(cut) => Err(Stop::Write(cut.written)),
    }
}

/// Runs a script on a hive, without its replies, and writes the image of what it leaves.
fn image_after<R: Read, W: Write, C: Callback>(
    alloc: Global,
    seated: &mut SeatedHive<C>,
    sequence: u32,
    input: &mut R,
    output: &mut W,
) -> Result<(), Stop>
    ensures ok { OnOk result (IsScriptHive seated.old.hive →
        WritesImage sequence (R.remaining input.old) (R.remaining input.new) (W.contents output.old) (W.contents output.new)) }
    ensures err { IfErr result (λ stop. IsScriptHive seated.old.hive →
        ImageStops sequence stop (R.remaining input.old) (R.remaining input.new) (W.contents output.old) (W.contents output.new)) }
{
    let mut replies = io::sink();
    match run_to(
        alloc,
        input,
        &mut replies,
        &mut seated.hive,
        &mut seated.shares,
    ) {
        Ok(moment) => send_image(&seated.hive, moment, sequence, output),
        Err(fault) => Err(Stop::Script(fault)),
    }
}

/// Runs a script and writes the image of the hive that it leaves, at the moment of its last `at`, with a sequence number.
pub fn run_to_image<R: Read, W: Write>(
    alloc: Global,
    sequence: u32,
    input: &mut R,
    output: &mut W,
) -> Result<(), Stop>
    ensures ok { OnOk result (WritesImage sequence (R.remaining input.old) (R.remaining input.new) (W.contents output.old)
        (W.contents output.new)) }
    ensures err { IfErr result (λ stop. ImageStops sequence stop (R.remaining input.old) (R.remaining input.new) (W.contents output.old)
        (W.contents output.new)) }
{
    match seated_hive(alloc) {
        Ok(mut seated) => image_after(alloc, &mut seated, sequence, input, output),
        Err(_) => Err(Stop::Memory),
    }
}

/// Runs a script's sessions side by side on so many hives, and writes their replies and how many entries each hive has.
pub fn run_sessions<Rt: Threads + Wait + Sync, R: Read, W: Write>(
    rt: &Rt,
    alloc: Global,
    count: HiveCount,
    input: &mut R,
    output: &mut W,
) -> Result<(), Stop>
    ensures ok { OnOk result (RunsWorkers count.number (R.remaining input.old) (R.remaining input.new) (W.contents output.old)
        (W.contents output.new)) }
    ensures err { IfErr result (λ stop. SessionsStop count.number stop (R.remaining input.old) (R.remaining input.new) (W.contents output.old)
        (W.contents output.new)) }
{
    match run_workers(rt, alloc, input, output, count.number) {
        Ok(()) => Ok(()),
        Err(met) => Err(Stop::Script(met)),
    }
}
