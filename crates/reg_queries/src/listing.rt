//! A key of an image listed.

ghost use Rattle.std.specs.Prelude.{◌≡◌, ◌++◌, ◌||◌, true, map, flat_map, OnOk, IfErr, MatchResult};
ghost use Rattle.std.specs.Io.KnownBytes.{Appends};
ghost use Rattle.reg_names.specs.Names.{is_path};
ghost use Rattle.reg_text.specs.Failures.{Stays};
ghost use Rattle.reg_tree_image.specs.KeysAtPaths.{listed_in, names_in, listing_there};
ghost use Rattle.reg_tree_text.specs.DumpFronts.{IsStopped, IsBlamed};
ghost use Rattle.reg_tree_text.specs.Internal.Gathered.{Puts};
ghost use Rattle.reg_tree_text.specs.Listings.{key_line};
ghost use Rattle.reg_tree_text.specs.PathBlames.{PathBlames};
ghost use Rattle.reg_tree_text.specs.PathQueries.{ListStops};
ghost use Rattle.reg_queries.specs.Blames.{NoneFailed, QueryBlames};
ghost use Rattle.reg_queries.specs.Queries.{is_look, QueryStops};
ghost use Rattle.reg_queries.specs.KeyQueries.{member_line, listing_lines, IsKeyTold, IsKeyUntold, Lists, ListsOfTree, ListsUp, ListEnds, ListLookStops};

use crate::QueryFault;
use reg_names::check_path;
use reg_text::{Output, Sink, Source};
use reg_tree_image::{KeyAtPath, ListedValue, key_at_path, load_tree};
use reg_tree_text::{DumpFault, PathFault, finish, list_at, put_key_line, put_value_line};
use std::alloc::Global;

/// Loads a tree from an image and lists the key at a path, with all that is below it or without.
fn list_of_tree<R: Source, W: Sink>(
    alloc: Global,
    image: &mut R,
    path: &[u8],
    is_tree: bool,
    output: &mut W,
) -> Result<(), QueryFault>
    ensures ok { OnOk result (ListsOfTree (R.remaining image.old) (R.remaining image.new) path.now is_tree
        (W.contents output.old) (W.contents output.new)) }
    ensures err { IfErr result (λ fault. QueryStops fault (R.remaining image.old) (R.remaining image.new)
        (λ tree ended. ListStops ended tree path.now is_tree (W.contents output.old) (W.contents output.new))
        (W.contents output.old) (W.contents output.new)) }
    ensures flushed { OnOk result (W.is_flushed output.new) }
    ensures failures { MatchResult result
        (λ _. NoneFailed (R.failures image.old) (R.failures image.new) (W.failures output.old) (W.failures output.new))
        (λ fault. QueryBlames fault (R.failures image.old) (R.failures image.new) (W.failures output.old) (W.failures output.new)) }
{
    let tree = match load_tree(alloc, image) {
        Ok(tree) => tree,
        Err(fault) => return Err(QueryFault::Load(fault)),
    };
    match list_at(alloc, &tree, path, is_tree, output) {
        Ok(()) => Ok(()),
        Err(fault) => Err(QueryFault::Query(fault)),
    }
}

/// Tells the lines of values, in their order.
fn put_values<W: Sink>(
    output: &mut Output<String>,
    writer: &mut W,
    values: &[ListedValue],
) -> Result<(), DumpFault>
    ensures { Puts output.old (W.contents writer.old, W.failures writer.old) output.new (W.contents writer.new, W.failures writer.new)
        (flat_map member_line (map listed_in values.now)) result }
{
    for value in values {
        put_value_line(
            output,
            writer,
            value.name.as_slice(),
            value.kind,
            value.size,
        )?;
    }
    Ok(())
}

/// Tells the lines of keys of some names, in their order.
fn put_subkeys<W: Sink>(
    output: &mut Output<String>,
    writer: &mut W,
    names: &[Vec<u8>],
) -> Result<(), DumpFault>
    ensures { Puts output.old (W.contents writer.old, W.failures writer.old) output.new (W.contents writer.new, W.failures writer.new)
        (flat_map key_line (names_in names.now)) result }
{
    for name in names {
        put_key_line(output, writer, name.as_slice())?;
    }
    Ok(())
}

/// Tells what is listed of a key.
fn put_listing<W: Sink>(
    output: &mut Output<String>,
    writer: &mut W,
    values: &[ListedValue],
    subkeys: &[Vec<u8>],
) -> Result<(), DumpFault>
    ensures { Puts output.old (W.contents writer.old, W.failures writer.old) output.new (W.contents writer.new, W.failures writer.new)
        (listing_lines (map listed_in values.now) (names_in subkeys.now)) result }
{
    put_values(output, writer, values)?;
    put_subkeys(output, writer, subkeys)
}

/// Tells what is listed of a key, and has the writer pass it on.
fn tell_listing<W: Sink>(
    alloc: Global,
    values: &[ListedValue],
    subkeys: &[Vec<u8>],
    writer: &mut W,
) -> Result<(), DumpFault>
    ensures ok { OnOk result (Appends (W.contents writer.old) (W.contents writer.new)
        (listing_lines (map listed_in values.now) (names_in subkeys.now))) }
    ensures err { IfErr result (λ fault. IsStopped (W.contents writer.old) (W.contents writer.new)
        (listing_lines (map listed_in values.now) (names_in subkeys.now)) fault) }
    ensures flushed { OnOk result (W.is_flushed writer.new) }
    ensures failures { MatchResult result (λ _. Stays (W.failures writer.old) (W.failures writer.new))
        (λ fault. IsBlamed fault (W.failures writer.old) (W.failures writer.new)) }
{
    let mut output = Output::new(alloc);
    put_listing(&mut output, writer, values, subkeys)?;
    finish(&mut output, writer)
}

/// Lists what was found at a path.
fn tell_key<W: Sink>(alloc: Global, found: KeyAtPath, output: &mut W) -> Result<(), PathFault>
    ensures ok { OnOk result (IsKeyTold (listing_there found) (W.contents output.old) (W.contents output.new)) }
    ensures err { IfErr result (λ fault. IsKeyUntold fault (listing_there found) (W.contents output.old) (W.contents output.new)) }
    ensures flushed { OnOk result (W.is_flushed output.new) }
    ensures failures { MatchResult result (λ _. Stays (W.failures output.old) (W.failures output.new))
        (λ fault. PathBlames fault (W.failures output.old) (W.failures output.new)) }
{
    match found {
        KeyAtPath::NoKey => Err(PathFault::NoKey),
        KeyAtPath::Key { values, subkeys } => match tell_listing(alloc, &values, &subkeys, output) {
            Ok(()) => Ok(()),
            Err(fault) => Err(PathFault::Stopped(fault)),
        },
    }
}

/// Lists the key at a path of an image, of which only what leads there is read, with its values and the nodes of the keys right below it.
fn look_up_key<R: Source, W: Sink>(
    alloc: Global,
    image: &mut R,
    path: &[u8],
    output: &mut W,
) -> Result<(), QueryFault>
    requires path { is_path path.now ≡ true }
    ensures ok { OnOk result (ListsUp (R.remaining image.old) (R.remaining image.new) path.now (W.contents output.old) (W.contents output.new)) }
    ensures err { IfErr result (λ fault. ListLookStops fault (R.remaining image.old) (R.remaining image.new) path.now
        (W.contents output.old) (W.contents output.new)) }
    ensures flushed { OnOk result (W.is_flushed output.new) }
    ensures failures { MatchResult result
        (λ _. NoneFailed (R.failures image.old) (R.failures image.new) (W.failures output.old) (W.failures output.new))
        (λ fault. QueryBlames fault (R.failures image.old) (R.failures image.new) (W.failures output.old) (W.failures output.new)) }
{
    let found = match key_at_path(alloc, image, path) {
        Ok(found) => found,
        Err(fault) => return Err(QueryFault::Load(fault)),
    };
    match tell_key(alloc, found, output) {
        Ok(()) => Ok(()),
        Err(fault) => Err(QueryFault::Query(fault)),
    }
}

/// Lists the key at a path of an image: its values and the keys right below it, or with `is_tree` all keys below it and their values. Where
/// not all below it is listed, just the bins and cells of the image are tested, and of the records those that are passed on the way to the
/// key, its values and their data, and the nodes of the keys right below it, whose names aren't compared and which aren't counted: where
/// the image loads, the text is that of its tree; where it doesn't, the first fault on the way is told, if there is one. With `is_tree` or
/// `is_whole` the image is loaded first, and so it is where the text is no path.
pub fn list<R: Source, W: Sink>(
    alloc: Global,
    image: &mut R,
    path: &[u8],
    is_tree: bool,
    is_whole: bool,
    output: &mut W,
) -> Result<(), QueryFault>
    ensures ok { OnOk result (Lists (is_look (is_tree || is_whole) path.now) (R.remaining image.old) (R.remaining image.new) path.now is_tree
        (W.contents output.old) (W.contents output.new)) }
    ensures err { IfErr result (λ fault. ListEnds (is_look (is_tree || is_whole) path.now) fault (R.remaining image.old) (R.remaining image.new)
        path.now is_tree (W.contents output.old) (W.contents output.new)) }
    ensures flushed { OnOk result (W.is_flushed output.new) }
    ensures failures { MatchResult result
        (λ _. NoneFailed (R.failures image.old) (R.failures image.new) (W.failures output.old) (W.failures output.new))
        (λ fault. QueryBlames fault (R.failures image.old) (R.failures image.new) (W.failures output.old) (W.failures output.new)) }
{
    if !(is_tree || is_whole) && check_path(path).is_ok() {
        return look_up_key(alloc, image, path, output);
    }
    list_of_tree(alloc, image, path, is_tree, output)
}
