//! Two trees loaded from images, and what changes from the one to the other written as a .reg text.

ghost use Rattle.std.specs.Prelude.{IfOk, OnOk, IfErr, MatchResult};
ghost use Rattle.reg_text.specs.Failures.{Stays};
ghost use Rattle.reg_queries.specs.Blames.{NoneFailed};
ghost use Rattle.reg_queries.specs.ImageChanges.{ExportsChanges, ExportsChangesFrom, ChangesStop, ChangesFromStop, ChangesBlame, ChangesFromBlame};

use crate::ChangesEnd;
use reg_text::{Sink, Source};
use reg_tree::{Tree, hold_bytes};
use reg_tree_image::load_tree;
use std::alloc::Global;

/// Loads a new tree from an image and writes what changes from an old one to it as a .reg text.
fn export_from<R: Source, W: Sink>(
    alloc: Global,
    old: &Tree,
    new: &mut R,
    is_utf8: bool,
    output: &mut W,
) -> Result<bool, ChangesEnd>
    ensures ok { IfOk result (λ is_none. ExportsChangesFrom old.now.tree (R.remaining new.old) (R.remaining new.new) is_utf8 is_none
        (W.contents output.old) (W.contents output.new)) }
    ensures err { IfErr result (λ fault. ChangesFromStop fault old.now.tree (R.remaining new.old) (R.remaining new.new) is_utf8
        (W.contents output.old) (W.contents output.new)) }
    ensures flushed { OnOk result (W.is_flushed output.new) }
    ensures failures { MatchResult result
        (λ _. NoneFailed (R.failures new.old) (R.failures new.new) (W.failures output.old) (W.failures output.new))
        (λ fault. ChangesFromBlame fault (R.failures new.old) (R.failures new.new) (W.failures output.old) (W.failures output.new)) }
{
    let tree = match load_tree(alloc, new) {
        Ok(tree) => tree,
        Err(fault) => return Err(ChangesEnd::New(fault)),
    };
    // Only for their clauses: what is written of such a tree can be read back.
    let _ = tree.root();
    hold_bytes(&tree);
    match reg_dotreg_writer::export_changes(alloc, old, &tree, is_utf8, output) {
        Ok(is_none) => Ok(is_none),
        Err(fault) => Err(ChangesEnd::Export(fault)),
    }
}

/// Loads two trees from images, the old one first, writes what changes from the old one to the new one as a .reg text
/// ([`reg_dotreg_writer::export_changes`]), and answers whether there are no changes; then the text has its heading alone.
///
/// `Old` where the old image doesn't load, and then nothing was read of the new one; else `New` where the new one doesn't. With either
/// nothing was written. Else `Export`: where a name has a line break that is to be written, and nothing was written; or after a front of
/// the text.
pub fn export_changes<R: Source, S: Source, W: Sink>(
    alloc: Global,
    old: &mut R,
    new: &mut S,
    is_utf8: bool,
    output: &mut W,
) -> Result<bool, ChangesEnd>
    ensures ok { IfOk result (λ is_none. ExportsChanges (R.remaining old.old) (R.remaining old.new) (S.remaining new.old) (S.remaining new.new)
        is_utf8 is_none (W.contents output.old) (W.contents output.new)) }
    ensures err { IfErr result (λ fault. ChangesStop fault (R.remaining old.old) (R.remaining old.new)
        (S.remaining new.old) (S.remaining new.new) is_utf8 (W.contents output.old) (W.contents output.new)) }
    ensures flushed { OnOk result (W.is_flushed output.new) }
    ensures failures { MatchResult result
        (λ _. Stays (R.failures old.old) (R.failures old.new)
        × NoneFailed (S.failures new.old) (S.failures new.new) (W.failures output.old) (W.failures output.new))
        (λ fault. ChangesBlame fault (R.failures old.old) (R.failures old.new) (S.failures new.old) (S.failures new.new)
        (W.failures output.old) (W.failures output.new)) }
{
    let tree = match load_tree(alloc, old) {
        Ok(tree) => tree,
        Err(fault) => return Err(ChangesEnd::Old(fault)),
    };
    // Only for its clauses: what is written against such a tree makes the new one of it.
    let _ = tree.root();
    export_from(alloc, &tree, new, is_utf8, output)
}
