//! `diff`: two files compared.

ghost use Rattle.std.specs.Prelude.{◌≡◌, ◌≤◌, ℕ, true, false, List, Option, IfOk, IfErr};
ghost use Rattle.reg_queries.specs.Differs.{Differs};
ghost use Rattle.reg_queries.specs.ImageChanges.{ExportsChanges};
ghost use Rattle.reg_files.specs.Differing.{AreSame, AreSameLines, AreOther, StopsDiffing, StopsLines, StopsChanges, ignored_of as passed_over};
ghost use Rattle.reg_files.specs.Internal.Cuts.{is_diff_end_cut};
ghost use Rattle.reg_files.specs.Internal.Fronts.{bytes_of};

use crate::fault::DiffEnd;
use crate::images::Image;
use crate::streams::write_text;
use reg_queries::{diff, export_changes};
use reg_text::Source;
use reg_words::{DiffForm, Ignored};
use std::alloc::Global;
use std::io::{Read, Write};

/// What `diff` writes where two hives are the same.
const SAME: &[u8] = b"same\n";

/// What is passed over, as reg_diff has it.
fn ignored_of(ignored: Ignored) -> reg_diff::Ignored
    ensures { result ≡ passed_over ignored }
{
    reg_diff::Ignored {
        time: ignored.time,
        security: ignored.security,
        order: ignored.order,
        class: ignored.class,
        marks: ignored.marks,
    }
}

/// Writes how the hives in two images differ, a line for each difference, or that they are the same, and answers which: 0 where they are,
/// else 1.
fn compare_lines<R: Source, S: Source, W: Write>(
    alloc: Global,
    old: &mut R,
    new: &mut S,
    path: &[u8],
    ignored: Ignored,
    output: &mut W,
) -> Result<u8, DiffEnd>
    ensures status { IfOk result (λ status. status ≤ 1) }
    ensures same { IfOk result (λ status. status ≡ 0 → AreSameLines path.now (passed_over ignored) (R.remaining old.old) (R.remaining old.new)
        (S.remaining new.old) (S.remaining new.new) (W.contents output.old) (W.contents output.new)) }
    ensures other { IfOk result (λ status. status ≡ 1 → Differs path.now (passed_over ignored) (R.remaining old.old) (R.remaining old.new)
        (S.remaining new.old) (S.remaining new.new) false (W.contents output.old) (W.contents output.new)) }
    ensures err { IfErr result (λ end. StopsLines path.now (passed_over ignored) (W.contents output.old) (W.contents output.new)
        (is_diff_end_cut end) (R.remaining old.old) (R.remaining old.new) (S.remaining new.old) (S.remaining new.new)) }
{
    match diff(alloc, old, new, path, ignored_of(ignored), output) {
        Ok(true) => match write_text(SAME, output) {
            Ok(()) => Ok(0),
            Err(fault) => Err(DiffEnd::Old(fault)),
        },
        Ok(false) => Ok(1),
        Err(fault) => Err(DiffEnd::from(fault)),
    }
}

/// Writes what changes from the hive in an image to that in another as a .reg text, and answers whether anything does: 0 where nothing
/// does, else 1.
fn write_changes<R: Source, S: Source, W: Write>(
    alloc: Global,
    old: &mut R,
    new: &mut S,
    is_utf8: bool,
    output: &mut W,
) -> Result<u8, DiffEnd>
    ensures status { IfOk result (λ status. status ≤ 1) }
    ensures same { IfOk result (λ status. status ≡ 0 → ExportsChanges (R.remaining old.old) (R.remaining old.new)
        (S.remaining new.old) (S.remaining new.new) is_utf8 true (W.contents output.old) (W.contents output.new)) }
    ensures other { IfOk result (λ status. status ≡ 1 → ExportsChanges (R.remaining old.old) (R.remaining old.new)
        (S.remaining new.old) (S.remaining new.new) is_utf8 false (W.contents output.old) (W.contents output.new)) }
    ensures err { IfErr result (λ end. StopsChanges is_utf8 (W.contents output.old) (W.contents output.new) (is_diff_end_cut end)
        (R.remaining old.old) (R.remaining old.new) (S.remaining new.old) (S.remaining new.new)) }
{
    match export_changes(alloc, old, new, is_utf8, output) {
        Ok(true) => Ok(0),
        Ok(false) => Ok(1),
        Err(fault) => Err(DiffEnd::from(fault)),
    }
}

/// Writes how the hives in two images differ, and answers whether they do: 0 where they are the same, else 1.
fn compare<R: Source, S: Source, W: Write>(
    alloc: Global,
    old: &mut R,
    new: &mut S,
    form: &DiffForm,
    output: &mut W,
) -> Result<u8, DiffEnd>
    ensures status { IfOk result (λ status. status ≤ 1) }
    ensures same { IfOk result (λ status. status ≡ 0 → AreSame form.now (R.remaining old.old) (R.remaining old.new) (S.remaining new.old)
        (S.remaining new.new) (W.contents output.old) (W.contents output.new)) }
    ensures other { IfOk result (λ status. status ≡ 1 → AreOther form.now (R.remaining old.old) (R.remaining old.new) (S.remaining new.old)
        (S.remaining new.new) (W.contents output.old) (W.contents output.new)) }
    ensures err { IfErr result (λ end. StopsDiffing form.now (W.contents output.old) (W.contents output.new) (is_diff_end_cut end)
        (R.remaining old.old) (R.remaining old.new) (S.remaining new.old) (S.remaining new.new)) }
{
    match form {
        DiffForm::Lines { path, ignored } => {
            compare_lines(alloc, old, new, path.as_slice(), *ignored, output)
        }
        DiffForm::Reg { is_utf8 } => write_changes(alloc, old, new, *is_utf8, output),
    }
}

/// Writes how the hives of two files differ, and answers whether they do: 0 where they are the same, else 1.
pub fn diff_images<F: Read, W: Write>(
    alloc: Global,
    old: &mut Image<F>,
    new: &mut Image<F>,
    form: &DiffForm,
    output: &mut W,
) -> Result<u8, DiffEnd>
    ensures status { IfOk result (λ status. status ≤ 1) }
    ensures same { IfOk result (λ status. status ≡ 0 → AreSame form.now (bytes_of F.remaining old.old) (bytes_of F.remaining old.new)
        (bytes_of F.remaining new.old) (bytes_of F.remaining new.new) (W.contents output.old) (W.contents output.new)) }
    ensures other { IfOk result (λ status. status ≡ 1 → AreOther form.now (bytes_of F.remaining old.old) (bytes_of F.remaining old.new)
        (bytes_of F.remaining new.old) (bytes_of F.remaining new.new) (W.contents output.old) (W.contents output.new)) }
    ensures err { IfErr result (λ end. (left : Option (List ℕ)) × (other_left : Option (List ℕ)) × StopsDiffing form.now
        (W.contents output.old) (W.contents output.new) (is_diff_end_cut end) (bytes_of F.remaining old.old) left
        (bytes_of F.remaining new.old) other_left) }
{
    match compare(alloc, old, new, form, output) {
        Ok(status) => Ok(status),
        Err(DiffEnd::Old(fault)) => Err(DiffEnd::Old(fault.of_image(old))),
        Err(DiffEnd::New(fault)) => Err(DiffEnd::New(fault.of_image(new))),
    }
}
