//! A tree loaded from an image, and what a pattern finds in it written.

ghost use Rattle.std.specs.Prelude.{OnOk, IfOk, IfErr, MatchResult};
ghost use Rattle.reg_queries.specs.Finds.{Finds, FindsBy, FindStops, SearchStops};
ghost use Rattle.reg_queries.specs.Blames.{NoneFailed, FindBlames};

use crate::FindFault;
use reg_find::{Pattern, PatternFault, Scope, compile};
use reg_text::{Sink, Source};
use reg_tree_image::load_tree;
use std::alloc::Global;

/// Loads a tree from an image, writes what a pattern finds in it, and answers whether anything was found.
fn search<R: Source, P: Pattern, W: Sink>(
    alloc: Global,
    image: &mut R,
    pattern: &mut P,
    scope: Scope,
    output: &mut W,
) -> Result<bool, FindFault>
    ensures ok { IfOk result (λ is_found. FindsBy (R.remaining image.old) (R.remaining image.new) (P.matches pattern.old) scope is_found
        (W.contents output.old) (W.contents output.new)) }
    ensures err { IfErr result (λ fault. SearchStops fault (R.remaining image.old) (R.remaining image.new) (P.matches pattern.old) scope
        (W.contents output.old) (W.contents output.new)) }
    ensures flushed { OnOk result (W.is_flushed output.new) }
    ensures failures { MatchResult result
        (λ _. NoneFailed (R.failures image.old) (R.failures image.new) (W.failures output.old) (W.failures output.new))
        (λ fault. FindBlames fault (R.failures image.old) (R.failures image.new) (W.failures output.old) (W.failures output.new)) }
{
    let tree = match load_tree(alloc, image) {
        Ok(tree) => tree,
        Err(fault) => return Err(FindFault::Load(fault)),
    };
    match reg_find::find(alloc, &tree, pattern, scope, output) {
        Ok(is_found) => Ok(is_found),
        Err(fault) => Err(FindFault::Stopped(fault)),
    }
}

/// Loads a tree from an image, writes what a regular expression finds in it ([`reg_find::find`]), which may pass over upper and lower case,
/// and answers whether anything was found.
///
/// `Pattern` where the text is none, or too large a one, or memory was refused for it, and then nothing was read; else `Load` where
/// the image doesn't load. With either nothing was written. Else `Stopped` after a front of the text.
pub fn find<R: Source, W: Sink>(
    alloc: Global,
    image: &mut R,
    pattern: &str,
    ignores_case: bool,
    scope: Scope,
    output: &mut W,
) -> Result<bool, FindFault>
    ensures ok { IfOk result (λ is_found. Finds (R.remaining image.old) (R.remaining image.new) pattern.now ignores_case scope is_found
        (W.contents output.old) (W.contents output.new)) }
    ensures err { IfErr result (λ fault. FindStops fault (R.remaining image.old) (R.remaining image.new) pattern.now ignores_case scope
        (W.contents output.old) (W.contents output.new)) }
    ensures flushed { OnOk result (W.is_flushed output.new) }
    ensures failures { MatchResult result
        (λ _. NoneFailed (R.failures image.old) (R.failures image.new) (W.failures output.old) (W.failures output.new))
        (λ fault. FindBlames fault (R.failures image.old) (R.failures image.new) (W.failures output.old) (W.failures output.new)) }
{
    let regex = match compile(alloc, pattern, ignores_case) {
        Ok(regex) => regex,
        Err(fault) => return Err(FindFault::Pattern(fault)),
    };
    match regex.matcher(alloc) {
        Ok(mut matcher) => search(alloc, image, &mut matcher, scope, output),
        Err(_) => Err(FindFault::Pattern(PatternFault::Memory)),
    }
}
