//! A tree loaded from an image, and a key of it listed with what is asked for, or a value told with its type.

ghost use Rattle.std.specs.Prelude.{OnOk, IfErr, MatchResult};
ghost use Rattle.reg_tables.specs.LongListings.{long_text};
ghost use Rattle.reg_tables.specs.Tables.{TableStops};
ghost use Rattle.reg_tables.specs.TypedValues.{TypedStops};
ghost use Rattle.reg_queries.specs.Queries.{Tabulates, QueryStops};
ghost use Rattle.reg_queries.specs.TypedQueries.{TellsTyped};
ghost use Rattle.reg_queries.specs.Blames.{NoneFailed, QueryBlames};

use crate::QueryFault;
use reg_tables::Columns;
use reg_text::{Sink, Source};
use reg_tree_image::load_tree;
use std::alloc::Global;

/// Loads a tree from an image and lists the key at a path, with all that is below it or without, and with what is asked for beside names
/// ([`reg_tables::list_long`]).
pub fn list_long<R: Source, W: Sink>(
    alloc: Global,
    image: &mut R,
    path: &[u8],
    is_tree: bool,
    columns: Columns,
    output: &mut W,
) -> Result<(), QueryFault>
    ensures ok { OnOk result (Tabulates (R.remaining image.old) (R.remaining image.new) path.now (long_text columns is_tree)
        (W.contents output.old) (W.contents output.new)) }
    ensures err { IfErr result (λ fault. QueryStops fault (R.remaining image.old) (R.remaining image.new)
        (λ tree ended. TableStops ended tree path.now (long_text columns is_tree tree) (W.contents output.old) (W.contents output.new))
        (W.contents output.old) (W.contents output.new)) }
    ensures flushed { OnOk result (W.is_flushed output.new) }
    ensures failures { MatchResult result
        (λ _. NoneFailed (R.failures image.old) (R.failures image.new) (W.failures output.old) (W.failures output.new))
        (λ fault. QueryBlames fault (R.failures image.old) (R.failures image.new) (W.failures output.old) (W.failures output.new)) }
{
    let tree = match load_tree(alloc, image) {
        Ok(tree) => tree,
        Err(fault) => return Err(QueryFault::Load(fault)),
    };
    match reg_tables::list_long(alloc, &tree, path, is_tree, columns, output) {
        Ok(()) => Ok(()),
        Err(fault) => Err(QueryFault::Query(fault)),
    }
}

/// Loads a tree from an image and tells the value of a name of the key at a path with its type, in one line ([`reg_tables::get_typed`]).
pub fn get_typed<R: Source, W: Sink>(
    alloc: Global,
    image: &mut R,
    path: &[u8],
    name: &[u8],
    output: &mut W,
) -> Result<(), QueryFault>
    ensures ok { OnOk result (TellsTyped (R.remaining image.old) (R.remaining image.new) path.now name.now
        (W.contents output.old) (W.contents output.new)) }
    ensures err { IfErr result (λ fault. QueryStops fault (R.remaining image.old) (R.remaining image.new)
        (λ tree ended. TypedStops ended tree path.now name.now (W.contents output.old) (W.contents output.new))
        (W.contents output.old) (W.contents output.new)) }
    ensures flushed { OnOk result (W.is_flushed output.new) }
    ensures failures { MatchResult result
        (λ _. NoneFailed (R.failures image.old) (R.failures image.new) (W.failures output.old) (W.failures output.new))
        (λ fault. QueryBlames fault (R.failures image.old) (R.failures image.new) (W.failures output.old) (W.failures output.new)) }
{
    let tree = match load_tree(alloc, image) {
        Ok(tree) => tree,
        Err(fault) => return Err(QueryFault::Load(fault)),
    };
    match reg_tables::get_typed(alloc, &tree, path, name, output) {
        Ok(()) => Ok(()),
        Err(fault) => Err(QueryFault::Query(fault)),
    }
}
