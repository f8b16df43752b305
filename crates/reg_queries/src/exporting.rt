//! A tree loaded from an image, and a key of it written as a .reg text.

ghost use Rattle.std.specs.Prelude.{option_copied, OnOk, IfErr, MatchResult};
ghost use Rattle.reg_queries.specs.ImageExports.{Exports, ExportEnds};
ghost use Rattle.reg_queries.specs.Blames.{NoneFailed, EndBlames};

use crate::ExportEnd;
use reg_text::{Sink, Source};
use reg_tree::hold_bytes;
use reg_tree_image::load_tree;
use std::alloc::Global;

/// Loads a tree from an image and writes the key at a path with all below it as a .reg text ([`reg_dotreg_writer::export`]). A front that
/// is given stands there for the root's name.
pub fn export<R: Source, W: Sink>(
    alloc: Global,
    image: &mut R,
    path: &[u8],
    front: Option<&[u8]>,
    is_utf8: bool,
    output: &mut W,
) -> Result<(), ExportEnd>
    ensures ok { OnOk result (Exports (R.remaining image.old) (R.remaining image.new) path.now (option_copied front.entry) is_utf8
        (W.contents output.old) (W.contents output.new)) }
    ensures err { IfErr result (λ fault. ExportEnds fault (R.remaining image.old) (R.remaining image.new) path.now (option_copied front.entry) is_utf8
        (W.contents output.old) (W.contents output.new)) }
    ensures flushed { OnOk result (W.is_flushed output.new) }
    ensures failures { MatchResult result
        (λ _. NoneFailed (R.failures image.old) (R.failures image.new) (W.failures output.old) (W.failures output.new))
        (λ fault. EndBlames fault (R.failures image.old) (R.failures image.new) (W.failures output.old) (W.failures output.new)) }
{
    let tree = match load_tree(alloc, image) {
        Ok(tree) => tree,
        Err(fault) => return Err(ExportEnd::Load(fault)),
    };
    // Only for their clauses: what is written of such a tree can be read back.
    let _ = tree.root();
    hold_bytes(&tree);
    match reg_dotreg_writer::export(alloc, &tree, path, front, is_utf8, output) {
        Ok(()) => Ok(()),
        Err(fault) => Err(ExportEnd::Export(fault)),
    }
}
