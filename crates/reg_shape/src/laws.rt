//! Laws of walks, whole hives and the trees that they spell. Each function is one law: it does nothing, and its contract says
//! what holds of the definitions in `specs/`.
//!
//! Suhanov, Windows registry file format specification.
ghost use Rattle.std.specs.Prelude.{◌≡◌, ◌≢◌, ◌<◌, ℕ, List, [], ◌∷◌, ◌++◌, map, length, Some, IsSome};
ghost use Rattle.std.specs.List.{AllByRecursion};
ghost use Rattle.std.specs.FinMap.{get, insert};
ghost use Rattle.reg_names.specs.Names.{folded};
ghost use Rattle.reg_heap.specs.Paths.{Path, Tree};
ghost use Rattle.reg_heap.specs.Heaps.{Heap};
ghost use Rattle.reg_heap.specs.Kinds.{Found, owned};
ghost use Rattle.reg_heap.specs.Kinds.Kind.{Key};
ghost use Rattle.reg_shape.specs.Internal.Forests.{Branch};
ghost use Rattle.reg_arena.specs.declared.Cell.{Cell};
ghost use Rattle.reg_arena.specs.Cells.{cells_of, cell_at};
ghost use Rattle.reg_records.specs.SubkeyLists.{offsets_in};
ghost use Rattle.reg_records.specs.BigData.{Named};
ghost use Rattle.reg_shape.specs.Walk.{walk};
ghost use Rattle.reg_shape.specs.Nodes.{Node, entries_of, look};
ghost use Rattle.reg_shape.specs.Spelt.{spelt, name_of, rec_of};
ghost use Rattle.reg_shape.specs.Written.{Pairwise};
ghost use Rattle.reg_shape.specs.Whole.{IsWhole, Whole, IsAllocatedIn, HasSubkeys};
ghost use Rattle.reg_shape.specs.Internal.Shapes.{IsWholeShape, IsSeen, cells_of as own_cells_of, descriptor_in, tree_of};
ghost use Rattle.reg_shape.specs.Internal.Exchanges.{found_at, edit_at, IsExchanged};

/// Only allocated cells are walked, and so no free one.
pub fn only_allocated_cells_are_walked()
    ensures { (bytes : List ℕ) → (cells : List Cell) → (fuel : ℕ) → (named : Named) → (found : List Found) →
        cells_of bytes ≡ Some cells → walk fuel (cell_at bytes) named ≡ Some found →
        AllByRecursion (λ (f : Found). IsAllocatedIn cells f.offset) found }
{}

/// A tree that records spell holds its root, and with each path its parent.
pub fn tree_holds_each_parent()
    ensures root { (fuel : ℕ) → (heap : Heap) → (root : ℕ) → (tree : Tree) → spelt fuel heap root ≡ Some tree → IsSome (get tree []) }
    ensures parent { (fuel : ℕ) → (heap : Heap) → (root : ℕ) → (tree : Tree) → spelt fuel heap root ≡ Some tree →
        (path : Path) → (name : List ℕ) → IsSome (get tree (path ++ name ∷ [])) → IsSome (get tree path) }
{}

/// No two subkeys of one key have names that fold alike.
pub fn siblings_fold_apart()
    ensures { (heap : Heap) → (cells root : ℕ) → (whole : IsWhole heap cells root) →
        AllByRecursion (λ (f : Found). f.kind ≡ Key → (below : List (ℕ × Node)) → HasSubkeys heap f.offset below →
        Pairwise (λ (a b : ℕ × Node). folded a.1.key.name ≢ folded b.1.key.name) below) whole.found }
{}

/// A shape that stands in the cells and has all of them makes a whole hive, which spells the shape's tree.
pub fn whole_shape_is_whole()
    ensures whole { (bytes : List ℕ) → (root : ℕ) → (keys : Branch Node) → (ring : List ℕ) →
        (cells : List Cell) → cells_of bytes ≡ Some cells → IsWholeShape (cell_at bytes) root keys ring → Whole bytes root }
    ensures spelt { (bytes : List ℕ) → (root : ℕ) → (keys : Branch Node) → (ring : List ℕ) →
        (cells : List Cell) → cells_of bytes ≡ Some cells → IsWholeShape (cell_at bytes) root keys ring →
        spelt (length cells) (cell_at bytes) root ≡ Some (tree_of (cell_at bytes) keys) }
{}

/// A key whose own cells hold what they held reads as it did, and is as it was written, whatever changed elsewhere.
pub fn key_stays_where_its_cells_stay()
    ensures { (old new : Heap) → (root offset : ℕ) → (node : Node) → IsSeen old root offset node →
        ((offset : ℕ) → 0 < owned offset (own_cells_of node) → new offset ≡ old offset) → IsSeen new root offset node }
{}

/// Where one key's own cells are exchanged for others, the hive stays whole, and its tree has the key's new record at its path
/// and no other change.
pub fn one_keys_cells_are_exchanged()
    ensures whole { (old new : Heap) → (root offset : ℕ) → (before after : Node) → (path : Path) → (keys : Branch Node) →
        (ring : List ℕ) → found_at path keys ≡ Some (offset, before) →
        IsExchanged old new root offset before after → IsWholeShape old root keys ring →
        IsWholeShape new root (edit_at path after keys) ring }
    ensures tree { (old new : Heap) → ((offset : ℕ) → descriptor_in new offset ≡ descriptor_in old offset) → (offset : ℕ) →
        (before after : Node) → name_of after.key ≡ name_of before.key → (path : Path) → (keys : Branch Node) →
        found_at path keys ≡ Some (offset, before) →
        tree_of new (edit_at path after keys) ≡ insert (tree_of old keys) path
        (rec_of after (descriptor_in old after.key.fields.security)) }
{}
