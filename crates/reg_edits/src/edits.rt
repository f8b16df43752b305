//! What an edit makes of a file's hive: a hive loaded, a script run on it, and what its image is to be saved with.

ghost use Rattle.std.specs.Prelude.{◌≡◌, ◌↔◌, [], IfOk, IfErr, IsErrOf, MatchResult, false};
ghost use Rattle.reg_names.specs.Names.{is_key_name};
ghost use Rattle.reg_text.specs.Failures.{Stays};
ghost use Rattle.reg_callbacks.specs.Lists.{rows_of};
ghost use Rattle.reg_calls.specs.HiveView.{view_of, noted_of, callbacks_of};
ghost use Rattle.reg_edits.specs.Edits.{next_sequence as following, are_changed, Leads, RunStops, Edits, EditStops, EditBlames, IsFreshHive};

use crate::loading::{LoadedHive, load_seated};
use reg_callbacks::{Callback, NoCallback};
use reg_calls::{Hive, NewFault, SeatedHive};
use reg_image::LoadFault;
use reg_script::{
    FRESH_DESCRIPTOR, FailedLine, Ran, ScriptFault, StrictFault, run_counted, run_strictly,
};
use reg_text::Source;
use std::alloc::Global;
use std::io::{Read, Write};

/// A file's hive after an edit, with the shares of all its sessions, and what its image is to be saved with.
#[derive(Drop)]
pub struct Edited {
    pub seated: SeatedHive<NoCallback>,
    /// The moment of the image, in units of 100 ns since 1601.
    pub moment: u64,
    /// The sequence number of the image: that of the file's image, and one more.
    pub sequence: u32,
    /// Whether a call that was accepted may have changed a key. Where none may, the bins are as they were loaded.
    pub is_changed: bool,
    /// How many lines of the script failed.
    pub failed: u32,
}

/// What ended an edit before there was anything to save.
#[derive(Debug, Drop)]
pub enum EditFault {
    /// The image doesn't load, or there is no memory for its hive; nothing was read of the script.
    Load(LoadFault),
    /// The script ended early.
    Script(ScriptFault),
    /// A line of the script failed: it has no form of a line, or asks for a change that was refused.
    Line(FailedLine),
}

impl From<LoadFault> for EditFault {
    ghost use Rattle.reg_edits.specs.declared.edits.EditFault.{EditFault};

    ghost from_gives = { λ f e. e ≡ EditFault.Load f };

    fn from(fault: LoadFault) -> EditFault {
        EditFault::Load(fault)
    }
}

/// The sequence number of the next image: one more, and 0 after the greatest.
pub fn next_sequence(sequence: u32) -> u32
    ensures { result ≡ following sequence }
{
    sequence.wrapping_add(1)
}

/// Whether a call that a hive accepted may have changed a key.
pub fn is_changed<C: Callback>(hive: &Hive<C>) -> bool
    ensures { result ≡ are_changed (view_of hive.now).journal }
{
    for number in 0..hive.len() {
        if let Some(entry) = hive.entry(number) {
            if entry.changes_keys() {
                return true;
            }
        }
    }
    false
}

/// Runs a script on a hive from a moment on. Where a line fails it is passed over and counted, or ends the script.
fn run_on<R: Read, W: Write, C: Callback>(
    alloc: Global,
    begin: u64,
    keeps_going: bool,
    seated: &mut SeatedHive<C>,
    input: &mut R,
    output: &mut W,
) -> Result<Ran, EditFault>
    requires { rows_of (callbacks_of seated.old.hive) ≡ [] }
    ensures ok { IfOk result (λ ran. Leads keeps_going begin (view_of seated.old.hive) (view_of seated.new.hive) ran.moment ran.failed
        (R.remaining input.old) (R.remaining input.new) (W.contents output.old) (W.contents output.new)) }
    ensures err { IfErr result (λ fault. RunStops fault keeps_going begin (view_of seated.old.hive) (R.remaining input.old) (R.remaining input.new)
        (W.contents output.old) (W.contents output.new)) }
{
    if keeps_going {
        return match run_counted(
            alloc,
            begin,
            input,
            output,
            &mut seated.hive,
            &mut seated.shares,
        ) {
            Ok(ran) => Ok(ran),
            Err(fault) => Err(EditFault::Script(fault)),
        };
    }
    match run_strictly(
        alloc,
        begin,
        input,
        output,
        &mut seated.hive,
        &mut seated.shares,
    ) {
        Ok(moment) => Ok(Ran { moment, failed: 0 }),
        Err(StrictFault::Script(fault)) => Err(EditFault::Script(fault)),
        Err(StrictFault::Line(line)) => Err(EditFault::Line(line)),
    }
}

/// Loads a hive from the image at the front of a file, runs a script on it from a moment on, and answers the hive that it left, with the
/// script's last moment and the next sequence number.
///
/// The first line that fails ends the script, and is the fault: it has no form of a line, or asks for a change whose status isn't 0. Its
/// reply is the last that is written. With `keeps_going` such lines are passed over and counted.
pub fn edit<F: Source, R: Read, W: Write>(
    alloc: Global,
    file: &mut F,
    begin: u64,
    keeps_going: bool,
    input: &mut R,
    output: &mut W,
) -> Result<Edited, EditFault>
    ensures ok { IfOk result (λ edited. Edits keeps_going begin edited (F.remaining file.old) (F.remaining file.new)
        (R.remaining input.old) (R.remaining input.new) (W.contents output.old) (W.contents output.new)) }
    ensures err { IfErr result (λ fault. EditStops fault keeps_going begin (F.remaining file.old) (F.remaining file.new)
        (R.remaining input.old) (R.remaining input.new) (W.contents output.old) (W.contents output.new)) }
    ensures failures { MatchResult result (λ _. Stays (F.failures file.old) (F.failures file.new))
        (λ fault. EditBlames fault (F.failures file.old) (F.failures file.new)) }
{
    let LoadedHive {
        mut seated,
        sequence,
    } = load_seated(alloc, file)?;
    let ran = run_on(alloc, begin, keeps_going, &mut seated, input, output)?;
    let is_changed = is_changed(&seated.hive);
    Ok(Edited {
        seated,
        moment: ran.moment,
        sequence: next_sequence(sequence),
        is_changed,
        failed: ran.failed,
    })
}

/// Why there is no fresh hive.
#[derive(Clone, Copy, Debug, PartialEq, Eq)]
pub enum FreshFault {
    /// The root's name is no key name.
    Name,
    /// There is no memory.
    Memory,
}

/// A hive of one root of that name at moment 0, with the descriptor of a script's root. No session has a seat, and no callback is
/// registered.
pub fn fresh_hive(alloc: Global, name: &[u8]) -> Result<Hive<NoCallback>, FreshFault>
    ensures ok { IfOk result (λ hive. IsFreshHive name.now (view_of hive)) }
    ensures noted { IfOk result (λ hive. noted_of hive ≡ []) }
    ensures callbacks { IfOk result (λ hive. rows_of (callbacks_of hive) ≡ []) }
    ensures name { IsErrOf result FreshFault.Name ↔ (is_key_name name.now ≡ false) }
{
    match Hive::new(alloc, name, &FRESH_DESCRIPTOR, 0) {
        Ok(hive) => Ok(hive),
        Err(NewFault::Name) => Err(FreshFault::Name),
        Err(_) => Err(FreshFault::Memory),
    }
}
