//! How many keys and values a tree has.
ghost use Rattle.std.specs.Prelude.{◌≡◌, List, IfOk, string_bytes};
ghost use Rattle.reg_heap.specs.Paths.{Tree as Keys};
ghost use Rattle.reg_tree.specs.TreeKeys.{IsThere};
ghost use Rattle.reg_tree_text.specs.DumpTexts.{Told, check_text};
ghost use Rattle.reg_tree_text.specs.DumpCounts.{IsCounted};
ghost use Rattle.reg_tree_text.specs.Internal.Walking.{Stands, CountsKey};

use crate::Counts;
use crate::dump_line::write_counts;
use crate::walk::Walk;
use reg_tree::Tree;
use std::alloc::{AllocError, Global};

/// Counts the key at which a walk stands, with its values. A number that 64 bits can't hold is a fault, though no tree has so many.
pub fn count_key(tree: &Tree, walk: &Walk, counts: Counts) -> Result<Counts, AllocError>
    requires { IsThere tree.now walk.now.node }
    ensures { (here : Told) → (rest : List Told) → Stands tree.now walk.now here rest → IfOk result (λ more. CountsKey here counts more) }
{
    match counts.with_key(tree.values(walk.node)) {
        Some(more) => Ok(more),
        None => Err(AllocError),
    }
}

/// Counts a tree's keys and values. Memory is taken for a stack of the keys on the present path and for that path's text; want of it is
/// the fault, or that 64 bits can't hold a number.
pub fn count(alloc: Global, tree: &Tree) -> Result<Counts, AllocError>
    ensures { IfOk result (λ counts. IsCounted tree.now.tree counts) }
{
    let mut walk = Walk::new(alloc, tree.root());
    let mut counts = Counts::none();
    loop {
        counts = count_key(tree, &walk, counts)?;
        if !walk.advance(tree)? {
            return Ok(counts);
        }
    }
}

/// The line that tells how many keys and values a tree without a fault has.
pub fn check_line(alloc: Global, counts: Counts) -> Result<String, AllocError>
    ensures { (tree : Keys) → IsCounted tree counts → IfOk result (λ text. string_bytes text ≡ check_text tree) }
{
    let mut text = String::new(alloc);
    text.push_str("ok ")?;
    write_counts(&mut text, counts)?;
    Ok(text)
}
