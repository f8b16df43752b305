//! The commands that look into one file.

ghost use Rattle.std.specs.Prelude.{◌≡◌, ◌||◌, ℕ, List, Option, option_copied, false, IfOk, IfErr, OnOk};
ghost use Rattle.reg_queries.specs.Finds.{Finds};
ghost use Rattle.reg_queries.specs.ImageExports.{Exports, ExportEnds};
ghost use Rattle.reg_files.specs.Detailed.{ListsKey, ListingEnds, GetsAs, GettingEnds, is_detailed as asks_for_more, table_columns as columns_asked};
ghost use Rattle.reg_files.specs.Serving.{scope_of, WritesAs, StopsListing, StopsGetting, StopsFinding, WriteStops};
ghost use Rattle.reg_files.specs.Internal.Cuts.{is_cut};
ghost use Rattle.reg_files.specs.Internal.Fronts.{bytes_of};

use crate::device::Device;
use crate::fault::{Fault, Step, taken};
use crate::images::Image;
use reg_find::Scope;
use reg_queries::{
    ExportEnd, QueryFault, export, export_csv, export_html, export_json, export_jsonl, find, get,
    get_typed, list, list_long,
};
use reg_text::Source;
use reg_words::{Columns, DataForm, Form, Places};
use std::alloc::Global;
use std::fs::File;
use std::io::{Read, Write};
use std::rt::Files;

/// Opens a file to be read.
pub fn open<H: Files>(host: &H, file: &str) -> Result<Device<H::File>, Fault>
    ensures err { IfErr result (λ fault. is_cut fault ≡ false) }
{
    Ok(Device::new(taken(Step::Open, File::open(host, file))?))
}

/// Whether a listing tells something beside names, or ends its lines otherwise.
fn is_detailed(columns: Columns) -> bool
    ensures { result ≡ asks_for_more columns }
{
    columns.data || columns.times || columns.securities || columns.ends_by_zero
}

/// What a listing tells, as reg_tables has it.
fn table_columns(columns: Columns) -> reg_tables::Columns
    ensures { result ≡ columns_asked columns }
{
    reg_tables::Columns {
        is_long: columns.data,
        has_times: columns.times,
        has_securities: columns.securities,
        ends_by_zero: columns.ends_by_zero,
    }
}

/// Lists a key of an image's hive, by its path: in short, or with what is asked for beside names.
fn list_as<R: Source, W: Write>(
    alloc: Global,
    image: &mut R,
    path: &[u8],
    is_tree: bool,
    is_whole: bool,
    columns: Columns,
    output: &mut W,
) -> Result<(), QueryFault>
    ensures ok { OnOk result (ListsKey columns is_tree is_whole path.now (R.remaining image.old) (R.remaining image.new)
        (W.contents output.old) (W.contents output.new)) }
    ensures err { IfErr result (λ fault. ListingEnds fault columns is_tree is_whole path.now (R.remaining image.old) (R.remaining image.new)
        (W.contents output.old) (W.contents output.new)) }
{
    if is_detailed(columns) {
        return list_long(alloc, image, path, is_tree, table_columns(columns), output);
    }
    list(alloc, image, path, is_tree, is_whole, output)
}

/// Lists a key of a file's hive, by its path, with all below it or without; with `is_whole` the hive is loaded first.
pub fn list_key<F: Read, W: Write>(
    alloc: Global,
    image: &mut Image<F>,
    path: &[u8],
    is_tree: bool,
    is_whole: bool,
    columns: Columns,
    output: &mut W,
) -> Result<(), Fault>
    ensures ok { OnOk result (ListsKey columns is_tree is_whole path.now (bytes_of F.remaining image.old) (bytes_of F.remaining image.new)
        (W.contents output.old) (W.contents output.new)) }
    ensures err { IfErr result (λ fault. (left : Option (List ℕ)) × StopsListing columns is_tree is_whole path.now
        (W.contents output.old) (W.contents output.new) (is_cut fault) (bytes_of F.remaining image.old) left) }
{
    match list_as(alloc, image, path, is_tree, is_whole, columns, output) {
        Ok(()) => Ok(()),
        Err(fault) => Err(Fault::from(fault).of_image(image)),
    }
}

/// Writes a value of an image's hive, by its key's path and its name, as it is asked for.
fn get_as<R: Source, W: Write>(
    alloc: Global,
    image: &mut R,
    path: &[u8],
    name: &[u8],
    form: DataForm,
    is_whole: bool,
    output: &mut W,
) -> Result<(), QueryFault>
    ensures ok { OnOk result (GetsAs form is_whole path.now name.now (R.remaining image.old) (R.remaining image.new)
        (W.contents output.old) (W.contents output.new)) }
    ensures err { IfErr result (λ fault. GettingEnds form fault is_whole path.now name.now (R.remaining image.old) (R.remaining image.new)
        (W.contents output.old) (W.contents output.new)) }
{
    match form {
        DataForm::Told => get(alloc, image, path, name, false, is_whole, output),
        DataForm::Typed => get_typed(alloc, image, path, name, output),
        DataForm::Raw => get(alloc, image, path, name, true, is_whole, output),
    }
}

/// Writes a value of a file's hive, by its key's path and its name; with `is_whole` the hive is loaded first.
pub fn get_value<F: Read, W: Write>(
    alloc: Global,
    image: &mut Image<F>,
    path: &[u8],
    name: &[u8],
    form: DataForm,
    is_whole: bool,
    output: &mut W,
) -> Result<(), Fault>
    ensures ok { OnOk result (GetsAs form is_whole path.now name.now (bytes_of F.remaining image.old) (bytes_of F.remaining image.new)
        (W.contents output.old) (W.contents output.new)) }
    ensures err { IfErr result (λ fault. (left : Option (List ℕ)) × StopsGetting form is_whole path.now name.now
        (W.contents output.old) (W.contents output.new) (is_cut fault) (bytes_of F.remaining image.old) left) }
{
    match get_as(alloc, image, path, name, form, is_whole, output) {
        Ok(()) => Ok(()),
        Err(fault) => Err(Fault::from(fault).of_image(image)),
    }
}

/// Writes what a pattern finds in a file's hive, and answers whether it finds anything.
pub fn find_in<F: Read, W: Write>(
    alloc: Global,
    image: &mut Image<F>,
    pattern: &str,
    ignores_case: bool,
    places: Places,
    output: &mut W,
) -> Result<bool, Fault>
    ensures ok { IfOk result (λ is_found. Finds (bytes_of F.remaining image.old) (bytes_of F.remaining image.new) pattern.now ignores_case
        (scope_of places) is_found (W.contents output.old) (W.contents output.new)) }
    ensures err { IfErr result (λ fault. (left : Option (List ℕ)) × StopsFinding pattern.now ignores_case (scope_of places)
        (W.contents output.old) (W.contents output.new) (is_cut fault) (bytes_of F.remaining image.old) left) }
{
    let scope = Scope {
        keys: places.keys,
        names: places.names,
        texts: places.texts,
        paths: places.paths,
        bytes: places.bytes,
    };
    match find(alloc, image, pattern, ignores_case, scope, output) {
        Ok(is_found) => Ok(is_found),
        Err(fault) => Err(Fault::from(fault).of_image(image)),
    }
}

/// The bytes of a front that stands for a hive's root.
pub fn front_of<'a>(prefix: Option<&'a str>) -> Option<&'a [u8]>
    ensures { option_copied result ≡ option_copied prefix.entry }
{
    match prefix {
        Some(text) => Some(text.as_bytes()),
        None => None,
    }
}

/// Writes a key of an image's hive with all below it as a .reg text.
fn export_reg<R: Source, W: Write>(
    alloc: Global,
    image: &mut R,
    path: &[u8],
    prefix: Option<&str>,
    is_utf8: bool,
    output: &mut W,
) -> Result<(), ExportEnd>
    ensures ok { OnOk result (Exports (R.remaining image.old) (R.remaining image.new) path.now (option_copied prefix.entry) is_utf8
        (W.contents output.old) (W.contents output.new)) }
    ensures err { IfErr result (λ fault. ExportEnds fault (R.remaining image.old) (R.remaining image.new) path.now
        (option_copied prefix.entry) is_utf8 (W.contents output.old) (W.contents output.new)) }
{
    export(alloc, image, path, front_of(prefix), is_utf8, output)
}

/// Writes a key of an image's hive with all below it in another form of text.
fn export_as<R: Source, W: Write>(
    alloc: Global,
    image: &mut R,
    path: &[u8],
    form: Form<'_>,
    output: &mut W,
) -> Result<(), Fault>
    ensures ok { OnOk result (WritesAs form.entry (R.remaining image.old) (R.remaining image.new) path.now (W.contents output.old)
        (W.contents output.new)) }
    ensures err { IfErr result (λ fault. WriteStops form.entry path.now (W.contents output.old) (W.contents output.new) (is_cut fault)
        (R.remaining image.old) (R.remaining image.new)) }
{
    match form {
        Form::Reg { is_utf8, prefix } => export_reg(alloc, image, path, prefix, is_utf8, output)?,
        Form::Json => export_json(alloc, image, path, output)?,
        Form::JsonLines => export_jsonl(alloc, image, path, output)?,
        Form::Csv => export_csv(alloc, image, path, output)?,
        Form::Html => export_html(alloc, image, path, output)?,
    }
    Ok(())
}

/// Writes a key of a file's hive with all below it in another form of text.
pub fn export_key<F: Read, W: Write>(
    alloc: Global,
    image: &mut Image<F>,
    path: &[u8],
    form: Form<'_>,
    output: &mut W,
) -> Result<(), Fault>
    ensures ok { OnOk result (WritesAs form.entry (bytes_of F.remaining image.old) (bytes_of F.remaining image.new) path.now (W.contents output.old)
        (W.contents output.new)) }
    ensures err { IfErr result (λ fault. (left : Option (List ℕ)) × WriteStops form.entry path.now (W.contents output.old) (W.contents output.new)
        (is_cut fault) (bytes_of F.remaining image.old) left) }
{
    match export_as(alloc, image, path, form, output) {
        Ok(()) => Ok(()),
        Err(fault) => Err(fault.of_image(image)),
    }
}
