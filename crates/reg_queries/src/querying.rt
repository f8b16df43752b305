//! A value of a key of an image written.

ghost use Rattle.std.specs.Prelude.{◌≡◌, true, OnOk, IfErr, MatchResult};
ghost use Rattle.reg_names.specs.Names.{is_path};
ghost use Rattle.reg_text.specs.Failures.{Stays};
ghost use Rattle.reg_tree_image.specs.ValuesAtPaths.{value_there};
ghost use Rattle.reg_tree_text.specs.PathBlames.{PathBlames};
ghost use Rattle.reg_tree_text.specs.PathQueries.{GetStops};
ghost use Rattle.reg_queries.specs.Queries.{is_look, Gets, GetsOfTree, GetEnds, LooksUp, LookStops, IsFoundTold, IsFoundUntold, QueryStops};
ghost use Rattle.reg_queries.specs.Blames.{NoneFailed, QueryBlames};

use crate::QueryFault;
use reg_names::check_path;
use reg_text::{Sink, Source};
use reg_tree_image::{ValueAtPath, load_tree, value_at_path};
use reg_tree_text::{PathFault, get_at, tell_value};
use std::alloc::Global;

/// Loads a tree from an image and writes the value of a name of the key at a path.
fn get_of_tree<R: Source, W: Sink>(
    alloc: Global,
    image: &mut R,
    path: &[u8],
    name: &[u8],
    is_raw: bool,
    output: &mut W,
) -> Result<(), QueryFault>
    ensures ok { OnOk result (GetsOfTree (R.remaining image.old) (R.remaining image.new) path.now name.now is_raw
        (W.contents output.old) (W.contents output.new)) }
    ensures err { IfErr result (λ fault. QueryStops fault (R.remaining image.old) (R.remaining image.new)
        (λ tree ended. GetStops ended tree path.now name.now is_raw (W.contents output.old) (W.contents output.new))
        (W.contents output.old) (W.contents output.new)) }
    ensures flushed { OnOk result (W.is_flushed output.new) }
    ensures failures { MatchResult result
        (λ _. NoneFailed (R.failures image.old) (R.failures image.new) (W.failures output.old) (W.failures output.new))
        (λ fault. QueryBlames fault (R.failures image.old) (R.failures image.new) (W.failures output.old) (W.failures output.new)) }
{
    let tree = match load_tree(alloc, image) {
        Ok(tree) => tree,
        Err(fault) => return Err(QueryFault::Load(fault)),
    };
    match get_at(alloc, &tree, path, name, is_raw, output) {
        Ok(()) => Ok(()),
        Err(fault) => Err(QueryFault::Query(fault)),
    }
}

/// Writes what was found at a path under a value's name.
fn tell_found<W: Sink>(
    alloc: Global,
    found: ValueAtPath,
    is_raw: bool,
    output: &mut W,
) -> Result<(), PathFault>
    ensures ok { OnOk result (IsFoundTold (value_there found) is_raw (W.contents output.old) (W.contents output.new)) }
    ensures err { IfErr result (λ fault. IsFoundUntold fault (value_there found) is_raw (W.contents output.old) (W.contents output.new)) }
    ensures flushed { OnOk result (W.is_flushed output.new) }
    ensures failures { MatchResult result (λ _. Stays (W.failures output.old) (W.failures output.new))
        (λ fault. PathBlames fault (W.failures output.old) (W.failures output.new)) }
{
    match found {
        ValueAtPath::NoKey => Err(PathFault::NoKey),
        ValueAtPath::NoValue => Err(PathFault::NoValue),
        ValueAtPath::Value { kind, bytes, .. } => match tell_value(
            alloc, kind, bytes, is_raw, output,
        ) {
            Ok(()) => Ok(()),
            Err(fault) => Err(PathFault::Stopped(fault)),
        },
    }
}

/// Writes the value of a name of the key at a path of an image, of which only what leads there is read.
fn look_up<R: Source, W: Sink>(
    alloc: Global,
    image: &mut R,
    path: &[u8],
    name: &[u8],
    is_raw: bool,
    output: &mut W,
) -> Result<(), QueryFault>
    requires path { is_path path.now ≡ true }
    ensures ok { OnOk result (LooksUp (R.remaining image.old) (R.remaining image.new) path.now name.now is_raw
        (W.contents output.old) (W.contents output.new)) }
    ensures err { IfErr result (λ fault. LookStops fault (R.remaining image.old) (R.remaining image.new) path.now name.now is_raw
        (W.contents output.old) (W.contents output.new)) }
    ensures flushed { OnOk result (W.is_flushed output.new) }
    ensures failures { MatchResult result
        (λ _. NoneFailed (R.failures image.old) (R.failures image.new) (W.failures output.old) (W.failures output.new))
        (λ fault. QueryBlames fault (R.failures image.old) (R.failures image.new) (W.failures output.old) (W.failures output.new)) }
{
    let found = match value_at_path(alloc, image, path, name) {
        Ok(found) => found,
        Err(fault) => return Err(QueryFault::Load(fault)),
    };
    match tell_found(alloc, found, is_raw, output) {
        Ok(()) => Ok(()),
        Err(fault) => Err(QueryFault::Query(fault)),
    }
}

/// Writes the value of a name of the key at a path of an image. Of the image just the bins and cells are tested, and of the records those
/// that are passed on the way to the value: where the image loads, it is that of its tree; where it doesn't, the first fault on the way is
/// told, if there is one. With `is_whole` the image is loaded first, and so it is where the text is no path.
pub fn get<R: Source, W: Sink>(
    alloc: Global,
    image: &mut R,
    path: &[u8],
    name: &[u8],
    is_raw: bool,
    is_whole: bool,
    output: &mut W,
) -> Result<(), QueryFault>
    ensures ok { OnOk result (Gets (is_look is_whole path.now) (R.remaining image.old) (R.remaining image.new) path.now name.now is_raw
        (W.contents output.old) (W.contents output.new)) }
    ensures err { IfErr result (λ fault. GetEnds (is_look is_whole path.now) fault (R.remaining image.old) (R.remaining image.new)
        path.now name.now is_raw (W.contents output.old) (W.contents output.new)) }
    ensures flushed { OnOk result (W.is_flushed output.new) }
    ensures failures { MatchResult result
        (λ _. NoneFailed (R.failures image.old) (R.failures image.new) (W.failures output.old) (W.failures output.new))
        (λ fault. QueryBlames fault (R.failures image.old) (R.failures image.new) (W.failures output.old) (W.failures output.new)) }
{
    if !is_whole && check_path(path).is_ok() {
        return look_up(alloc, image, path, name, is_raw, output);
    }
    get_of_tree(alloc, image, path, name, is_raw, output)
}
