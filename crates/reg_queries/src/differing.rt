//! Two trees loaded from images, and how they differ written.

ghost use Rattle.std.specs.Prelude.{IfOk, OnOk, IfErr, MatchResult};
ghost use Rattle.reg_text.specs.Failures.{Stays};
ghost use Rattle.reg_queries.specs.Blames.{NoneFailed, DiffFromBlames, DiffBlames};
ghost use Rattle.reg_queries.specs.Differs.{Differs, DiffersFrom, DiffStops, DiffFromStops};

use crate::DiffFault;
use reg_diff::{BranchFault, Ignored};
use reg_text::{Sink, Source};
use reg_tree::Tree;
use reg_tree_image::load_tree;
use std::alloc::Global;

/// Loads a new tree from an image and writes how it differs from an old one at a path and below it.
fn diff_from<R: Source, W: Sink>(
    alloc: Global,
    old: &Tree,
    new: &mut R,
    path: &[u8],
    ignored: Ignored,
    output: &mut W,
) -> Result<bool, DiffFault>
    ensures ok { IfOk result (λ is_same. DiffersFrom old.now.tree path.now ignored (R.remaining new.old) (R.remaining new.new) is_same
        (W.contents output.old) (W.contents output.new)) }
    ensures err { IfErr result (λ fault. DiffFromStops fault old.now.tree path.now ignored (R.remaining new.old) (R.remaining new.new)
        (W.contents output.old) (W.contents output.new)) }
    ensures flushed { OnOk result (W.is_flushed output.new) }
    ensures failures { MatchResult result
        (λ _. NoneFailed (R.failures new.old) (R.failures new.new) (W.failures output.old) (W.failures output.new))
        (λ fault. DiffFromBlames fault (R.failures new.old) (R.failures new.new) (W.failures output.old) (W.failures output.new)) }
{
    let tree = match load_tree(alloc, new) {
        Ok(tree) => tree,
        Err(fault) => return Err(DiffFault::New(fault)),
    };
    match reg_diff::diff(alloc, old, &tree, path, ignored, output) {
        Ok(is_same) => Ok(is_same),
        Err(BranchFault::NoOldKey) => Err(DiffFault::NoOldKey),
        Err(BranchFault::NoNewKey) => Err(DiffFault::NoNewKey),
        Err(BranchFault::Stopped(fault)) => Err(DiffFault::Stopped(fault)),
    }
}

/// Loads two trees from images, the old one first, writes how the new one differs from the old one at a path and below it, but for what is
/// ignored ([`reg_diff::diff`]), and answers whether they are the same there but for that; then nothing was written. At the empty path
/// these are whole hives.
///
/// `Old` where the old image doesn't load, and then nothing was read of the new one; else `New` where the new one doesn't; else `NoOldKey`
/// where the text is no path or the old hive has no key there, and else `NoNewKey` where the new one has none. With any of these nothing
/// was written. Else `Stopped` after a front of the text.
pub fn diff<R: Source, S: Source, W: Sink>(
    alloc: Global,
    old: &mut R,
    new: &mut S,
    path: &[u8],
    ignored: Ignored,
    output: &mut W,
) -> Result<bool, DiffFault>
    ensures ok { IfOk result (λ is_same. Differs path.now ignored (R.remaining old.old) (R.remaining old.new) (S.remaining new.old) (S.remaining new.new)
        is_same (W.contents output.old) (W.contents output.new)) }
    ensures err { IfErr result (λ fault. DiffStops fault path.now ignored (R.remaining old.old) (R.remaining old.new)
        (S.remaining new.old) (S.remaining new.new) (W.contents output.old) (W.contents output.new)) }
    ensures flushed { OnOk result (W.is_flushed output.new) }
    ensures failures { MatchResult result
        (λ _. Stays (R.failures old.old) (R.failures old.new)
        × NoneFailed (S.failures new.old) (S.failures new.new) (W.failures output.old) (W.failures output.new))
        (λ fault. DiffBlames fault (R.failures old.old) (R.failures old.new) (S.failures new.old) (S.failures new.new)
        (W.failures output.old) (W.failures output.new)) }
{
    let tree = match load_tree(alloc, old) {
        Ok(tree) => tree,
        Err(fault) => return Err(DiffFault::Old(fault)),
    };
    diff_from(alloc, &tree, new, path, ignored, output)
}
