//! A tree loaded from an image, and a key of it written as JSON, as lines of JSON, as a page of HTML or as CSV.

ghost use Rattle.std.specs.Prelude.{OnOk, IfErr, MatchResult};
ghost use Rattle.reg_tables.specs.Tables.{json_text, jsonl_text, csv_text, TableStops};
ghost use Rattle.reg_tables.specs.Pages.{html_text};
ghost use Rattle.reg_queries.specs.Queries.{Tabulates, QueryStops};
ghost use Rattle.reg_queries.specs.Blames.{NoneFailed, QueryBlames};

use crate::QueryFault;
use reg_text::{Sink, Source};
use reg_tree_image::load_tree;
use std::alloc::Global;

/// Loads a tree from an image and writes the key at a path with all below it as JSON ([`reg_tables::export_json`]).
pub fn export_json<R: Source, W: Sink>(
    alloc: Global,
    image: &mut R,
    path: &[u8],
    output: &mut W,
) -> Result<(), QueryFault>
    ensures ok { OnOk result (Tabulates (R.remaining image.old) (R.remaining image.new) path.now json_text
        (W.contents output.old) (W.contents output.new)) }
    ensures err { IfErr result (λ fault. QueryStops fault (R.remaining image.old) (R.remaining image.new)
        (λ tree ended. TableStops ended tree path.now (json_text tree) (W.contents output.old) (W.contents output.new))
        (W.contents output.old) (W.contents output.new)) }
    ensures flushed { OnOk result (W.is_flushed output.new) }
    ensures failures { MatchResult result
        (λ _. NoneFailed (R.failures image.old) (R.failures image.new) (W.failures output.old) (W.failures output.new))
        (λ fault. QueryBlames fault (R.failures image.old) (R.failures image.new) (W.failures output.old) (W.failures output.new)) }
{
    let tree = match load_tree(alloc, image) {
        Ok(tree) => tree,
        Err(fault) => return Err(QueryFault::Load(fault)),
    };
    match reg_tables::export_json(alloc, &tree, path, output) {
        Ok(()) => Ok(()),
        Err(fault) => Err(QueryFault::Query(fault)),
    }
}

/// Loads a tree from an image and writes the key at a path with all below it as lines of JSON ([`reg_tables::export_jsonl`]).
pub fn export_jsonl<R: Source, W: Sink>(
    alloc: Global,
    image: &mut R,
    path: &[u8],
    output: &mut W,
) -> Result<(), QueryFault>
    ensures ok { OnOk result (Tabulates (R.remaining image.old) (R.remaining image.new) path.now jsonl_text
        (W.contents output.old) (W.contents output.new)) }
    ensures err { IfErr result (λ fault. QueryStops fault (R.remaining image.old) (R.remaining image.new)
        (λ tree ended. TableStops ended tree path.now (jsonl_text tree) (W.contents output.old) (W.contents output.new))
        (W.contents output.old) (W.contents output.new)) }
    ensures flushed { OnOk result (W.is_flushed output.new) }
    ensures failures { MatchResult result
        (λ _. NoneFailed (R.failures image.old) (R.failures image.new) (W.failures output.old) (W.failures output.new))
        (λ fault. QueryBlames fault (R.failures image.old) (R.failures image.new) (W.failures output.old) (W.failures output.new)) }
{
    let tree = match load_tree(alloc, image) {
        Ok(tree) => tree,
        Err(fault) => return Err(QueryFault::Load(fault)),
    };
    match reg_tables::export_jsonl(alloc, &tree, path, output) {
        Ok(()) => Ok(()),
        Err(fault) => Err(QueryFault::Query(fault)),
    }
}

/// Loads a tree from an image and writes the key at a path with all below it as a page of HTML ([`reg_tables::export_html`]).
pub fn export_html<R: Source, W: Sink>(
    alloc: Global,
    image: &mut R,
    path: &[u8],
    output: &mut W,
) -> Result<(), QueryFault>
    ensures ok { OnOk result (Tabulates (R.remaining image.old) (R.remaining image.new) path.now html_text
        (W.contents output.old) (W.contents output.new)) }
    ensures err { IfErr result (λ fault. QueryStops fault (R.remaining image.old) (R.remaining image.new)
        (λ tree ended. TableStops ended tree path.now (html_text tree) (W.contents output.old) (W.contents output.new))
        (W.contents output.old) (W.contents output.new)) }
    ensures flushed { OnOk result (W.is_flushed output.new) }
    ensures failures { MatchResult result
        (λ _. NoneFailed (R.failures image.old) (R.failures image.new) (W.failures output.old) (W.failures output.new))
        (λ fault. QueryBlames fault (R.failures image.old) (R.failures image.new) (W.failures output.old) (W.failures output.new)) }
{
    let tree = match load_tree(alloc, image) {
        Ok(tree) => tree,
        Err(fault) => return Err(QueryFault::Load(fault)),
    };
    match reg_tables::export_html(alloc, &tree, path, output) {
        Ok(()) => Ok(()),
        Err(fault) => Err(QueryFault::Query(fault)),
    }
}

/// Loads a tree from an image and writes the key at a path with all below it as CSV ([`reg_tables::export_csv`]).
pub fn export_csv<R: Source, W: Sink>(
    alloc: Global,
    image: &mut R,
    path: &[u8],
    output: &mut W,
) -> Result<(), QueryFault>
    ensures ok { OnOk result (Tabulates (R.remaining image.old) (R.remaining image.new) path.now csv_text
        (W.contents output.old) (W.contents output.new)) }
    ensures err { IfErr result (λ fault. QueryStops fault (R.remaining image.old) (R.remaining image.new)
        (λ tree ended. TableStops ended tree path.now (csv_text tree) (W.contents output.old) (W.contents output.new))
        (W.contents output.old) (W.contents output.new)) }
    ensures flushed { OnOk result (W.is_flushed output.new) }
    ensures failures { MatchResult result
        (λ _. NoneFailed (R.failures image.old) (R.failures image.new) (W.failures output.old) (W.failures output.new))
        (λ fault. QueryBlames fault (R.failures image.old) (R.failures image.new) (W.failures output.old) (W.failures output.new)) }
{
    let tree = match load_tree(alloc, image) {
        Ok(tree) => tree,
        Err(fault) => return Err(QueryFault::Load(fault)),
    };
    match reg_tables::export_csv(alloc, &tree, path, output) {
        Ok(()) => Ok(()),
        Err(fault) => Err(QueryFault::Query(fault)),
    }
}
