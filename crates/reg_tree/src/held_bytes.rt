//! That a tree's values hold bytes: types of 32 bits, and data of numbers below 256.
//!
//! What is known of a tree's bins speaks of numbers, and only a slice of Rattle's tells that its elements have eight bits; so each page
//! of the bins is looked at as a slice, and nothing of it is read. The law [`bytes_spell_bytes`] then carries it from the bins to the
//! values that they spell.

ghost use Rattle.std.specs.Prelude.{ℕ, List};
ghost use Rattle.reg_heap.specs.Paths.{Tree as KeyTree};
ghost use Rattle.reg_tree.specs.TreeKeys.{IsWholeTree};
ghost use Rattle.reg_tree.specs.ValueBytes.{AreBytes, IsOfBytes};

use crate::Tree;
use reg_arena::Arena;

/// The tree that whole bins spell is of bytes, where the bins are: each value's type and data are read of them.
pub fn bytes_spell_bytes()
    ensures { (bytes : List ℕ) → (root : ℕ) → (tree : KeyTree) → AreBytes bytes → IsWholeTree bytes root tree → IsOfBytes tree }
{}

/// Looks at all pages of a tree's bins. It changes nothing and answers nothing: its contract tells callers that the tree is of bytes.
pub fn hold_bytes(tree: &Tree)
    ensures { IsOfBytes tree.now.tree }
{
    look_at_pages(tree.arena());
}

/// Looks at each page of the bins.
fn look_at_pages(arena: &Arena)
    ensures { AreBytes arena.now.bytes }
{
    for page in 0..arena.bins_size() / 4096 {
        look_at(arena.bytes(page * 4096, 4096));
    }
}

/// Looks at a slice, whose elements have eight bits.
fn look_at(bytes: &[u8])
    ensures { AreBytes bytes.now }
{}
