//! What an import makes of a file's hive: a hive loaded, the entries of a .reg text made in it, and what its image is to be saved with.

ghost use Rattle.std.specs.Prelude.{◌≡◌, ℕ, ◌<◌, List, [], length, Some, Err, option_copied, IfOk, IfErr, OnOk, MatchResult};
ghost use Rattle.std.specs.Io.KnownBytes.{Consumes, IsAtEnd};
ghost use Rattle.reg_text.specs.Failures.{Stays};
ghost use Rattle.reg_callbacks.specs.Lists.{rows_of};
ghost use Rattle.reg_calls.specs.HiveView.{view_of, callbacks_of};
ghost use Rattle.reg_dotreg_reader.specs.FileUnits.{units_of};
ghost use Rattle.reg_dotreg_reader.specs.EntryMeanings.{entries_in};
ghost use Rattle.reg_edits.specs.TextImports.{IsText, TextStops, front_of, Applies, ApplyStops, Imports, ImportEnds, ReadStops, TextBlames, ImportBlames};

use crate::bad_text::{BadText, bad_text};
use crate::edits::{Edited, is_changed, next_sequence};
use crate::loading::{LoadedHive, load_seated};
use reg_callbacks::Callback;
use reg_calls::{Hive, SeatedHive};
use reg_dotreg_import::ImportFault;
use reg_dotreg_reader::{Numbered, ReadFault, front_units, read_entries, units_in, widened};
use reg_image::LoadFault;
use reg_text::Source;
use std::alloc::{AllocError, Global};
use std::io;

/// How many bytes of a text are asked for at once.
const PART: usize = 65_536;

/// What ended an import before there was anything to save.
#[derive(Debug, Drop)]
pub enum ImportEnd {
    /// The image doesn't load, or there is no memory for its hive; nothing was read of the text.
    Load(LoadFault),
    /// A read of the text failed.
    Input(io::Error),
    /// The text is in no encoding that is read, or memory was refused for it.
    Text(ReadFault),
    /// Lines of the text aren't understood.
    Lines(BadText),
    /// An entry was refused, or memory was refused for it.
    Entry(ImportFault),
    /// There is no memory for the text.
    Memory,
}

impl From<LoadFault> for ImportEnd {
    ghost use Rattle.reg_edits.specs.declared.importing.ImportEnd.{ImportEnd};

    ghost from_gives = { λ f e. e ≡ ImportEnd.Load f };

    fn from(fault: LoadFault) -> ImportEnd {
        ImportEnd::Load(fault)
    }
}

impl From<ReadFault> for ImportEnd {
    ghost use Rattle.reg_edits.specs.declared.importing.ImportEnd.{ImportEnd};

    ghost from_gives = { λ f e. e ≡ ImportEnd.Text f };

    fn from(fault: ReadFault) -> ImportEnd {
        ImportEnd::Text(fault)
    }
}

/// What is told of a text that isn't understood.
#[tactic(auto, using(crate::proofs::TextFaults::bad_read))]
fn no_entries(alloc: Global, root: &[u16], units: &[u16], tells_all: bool) -> ImportEnd
    ensures { (number : ℕ) → entries_in root.now units.now ≡ Err number → (text : List ℕ) → units_of text ≡ Some units.now →
        TextStops result root.now tells_all text }
{
    match bad_text(alloc, root, units, tells_all) {
        Ok(bad) => ImportEnd::Lines(bad),
        Err(AllocError) => ImportEnd::Text(ReadFault::Memory),
    }
}

/// The entries of the bytes of a .reg text, of keys below a root of that name.
#[tactic(auto, using(crate::proofs::TextFaults::line_stops))]
fn read_text(
    alloc: Global,
    root: &[u16],
    tells_all: bool,
    text: &[u8],
) -> Result<Vec<Numbered>, ImportEnd>
    ensures ok { IfOk result (λ entries. IsText root.now text.now entries.items) }
    ensures err { IfErr result (λ fault. TextStops fault root.now tells_all text.now) }
{
    let units = units_in(alloc, text)?;
    match read_entries(alloc, root, units.as_slice()) {
        Ok(entries) => Ok(entries),
        Err(ReadFault::Line(_)) => Err(no_entries(alloc, root, units.as_slice(), tells_all)),
        Err(ReadFault::Encoding) | Err(ReadFault::Memory) => {
            Err(ImportEnd::Text(ReadFault::Memory))
        }
    }
}

/// What stands in a text for a hive's root: a front that is given in UTF-8, or the root's name.
fn root_units<C: Callback>(
    alloc: Global,
    hive: &Hive<C>,
    front: Option<&[u8]>,
) -> Result<Vec<u16>, AllocError>
    ensures { IfOk result (λ units. units.items ≡ front_of (option_copied front.entry) (view_of hive.now)) }
{
    let tree = hive.tree();
    match front {
        Some(front) => front_units(alloc, front),
        None => widened(alloc, tree.name(tree.root())),
    }
}

/// The entries of the bytes of a .reg text, of keys of a hive, for whose root a front stands, or its name.
fn read_text_for<C: Callback>(
    alloc: Global,
    hive: &Hive<C>,
    front: Option<&[u8]>,
    tells_all: bool,
    text: &[u8],
) -> Result<Vec<Numbered>, ImportEnd>
    ensures ok { IfOk result (λ entries. IsText (front_of (option_copied front.entry) (view_of hive.now)) text.now entries.items) }
    ensures err { IfErr result (λ fault. TextStops fault (front_of (option_copied front.entry) (view_of hive.now)) tells_all text.now) }
{
    match root_units(alloc, hive, front) {
        Ok(root) => read_text(alloc, root.as_slice(), tells_all, text),
        Err(AllocError) => Err(ImportEnd::Text(ReadFault::Memory)),
    }
}

/// Makes the entries of a text in a hive on which no callback is registered.
fn apply_text<C: Callback>(
    alloc: Global,
    front: Option<&[u8]>,
    tells_all: bool,
    moment: u64,
    hive: &mut SeatedHive<C>,
    text: &[u8],
) -> Result<(), ImportEnd>
    requires { rows_of (callbacks_of hive.old.hive) ≡ [] }
    ensures ok { OnOk result (Applies (option_copied front.entry) moment text.now (view_of hive.old.hive) (view_of hive.new.hive)) }
    ensures err { IfErr result (λ fault. ApplyStops fault (option_copied front.entry) tells_all moment text.now (view_of hive.old.hive)) }
{
    let entries = read_text_for(alloc, &hive.hive, front, tells_all, text)?;
    match reg_dotreg_import::import(alloc, hive, moment, entries) {
        Ok(()) => Ok(()),
        Err(fault) => {
            // Only for its clauses: what stopped it met a hive.
            let _ = hive.hive.len();
            Err(ImportEnd::Entry(fault))
        }
    }
}

/// Reads an input to its end, `part` by `part`.
fn read_parts<R: Source>(
    alloc: Global,
    input: &mut R,
    part: &mut [u8],
) -> Result<Vec<u8>, ImportEnd>
    requires { 0 < length part.old }
    ensures ok { IfOk result (λ bytes. IsAtEnd (R.remaining input.new) × Consumes (R.remaining input.old) (R.remaining input.new) bytes.items) }
    ensures err { IfErr result (λ fault. ReadStops fault (R.remaining input.old) (R.remaining input.new)) }
    ensures failures { MatchResult result (λ _. Stays (R.failures input.old) (R.failures input.new))
        (λ fault. TextBlames fault (R.failures input.old) (R.failures input.new)) }
{
    let mut bytes = Vec::new(alloc);
    loop {
        let count = match input.receive(part) {
            Ok(0) => return Ok(bytes),
            Ok(count) => count,
            Err(error) => return Err(ImportEnd::Input(error)),
        };
        if bytes.extend_from_slice(&part[..count]).is_err() {
            return Err(ImportEnd::Memory);
        }
    }
}

/// Reads an input to its end. A read that fails, or is interrupted, isn't tried again.
fn read_whole<R: Source>(alloc: Global, input: &mut R) -> Result<Vec<u8>, ImportEnd>
    ensures ok { IfOk result (λ bytes. IsAtEnd (R.remaining input.new) × Consumes (R.remaining input.old) (R.remaining input.new) bytes.items) }
    ensures err { IfErr result (λ fault. ReadStops fault (R.remaining input.old) (R.remaining input.new)) }
    ensures failures { MatchResult result (λ _. Stays (R.failures input.old) (R.failures input.new))
        (λ fault. TextBlames fault (R.failures input.old) (R.failures input.new)) }
{
    let Ok(mut part) = vec![in alloc; 0; PART] else {
        return Err(ImportEnd::Memory);
    };
    read_parts(alloc, input, part.as_mut_slice())
}

/// Loads a hive from the image at the front of a file, makes in it the entries of the .reg text on an input, all at one moment, and answers
/// the hive that they left, with that moment and the next sequence number. In the text a front stands for the hive's root, where one is
/// given, in UTF-8, else the root's name. Where lines of the text aren't understood, it tells all of them, or the first alone, and no entry
/// is made.
///
/// The input is read to its end before an entry is made; a read of it that fails, or is interrupted, isn't tried again.
pub fn import<F: Source, R: Source>(
    alloc: Global,
    file: &mut F,
    front: Option<&[u8]>,
    tells_all: bool,
    moment: u64,
    input: &mut R,
) -> Result<Edited, ImportEnd>
    ensures ok { IfOk result (λ edited. Imports (option_copied front.entry) moment edited (F.remaining file.old) (F.remaining file.new)
        (R.remaining input.old) (R.remaining input.new)) }
    ensures err { IfErr result (λ fault. ImportEnds fault (option_copied front.entry) tells_all moment (F.remaining file.old) (F.remaining file.new)
        (R.remaining input.old) (R.remaining input.new)) }
    ensures failures { MatchResult result
        (λ _. Stays (F.failures file.old) (F.failures file.new) × Stays (R.failures input.old) (R.failures input.new))
        (λ fault. ImportBlames fault (F.failures file.old) (F.failures file.new) (R.failures input.old) (R.failures input.new)) }
{
    let LoadedHive {
        mut seated,
        sequence,
    } = load_seated(alloc, file)?;
    let text = read_whole(alloc, input)?;
    apply_text(
        alloc,
        front,
        tells_all,
        moment,
        &mut seated,
        text.as_slice(),
    )?;
    let is_changed = is_changed(&seated.hive);
    Ok(Edited {
        seated,
        moment,
        sequence: next_sequence(sequence),
        is_changed,
        failed: 0,
    })
}
