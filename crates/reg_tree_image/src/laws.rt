//! Laws of images. Each function is one law: it does nothing, and its contract says what holds of the definitions in `specs/`.
//!
//! Suhanov, Windows registry file format specification, section "Format of primary files".
ghost use Rattle.std.specs.Prelude.{◌≡◌, ◌≤◌, ℕ, List, length, is_some, Some, None, IsSome, Ok};
ghost use Rattle.reg_heap.specs.declared.limits.TheConstants.{BINS_LIMIT};
ghost use Rattle.reg_heap.specs.Paths.{Tree};
ghost use Rattle.reg_arena.specs.Cells.{cell_at};
ghost use Rattle.reg_shape.specs.Spelt.{spelt};
ghost use Rattle.reg_shape.specs.Whole.{Whole};
ghost use Rattle.reg_tree_image.specs.Images.{image_of, loaded, fault_of};
ghost use Rattle.reg_tree_image.specs.FaultPlaces.{HasBins, place_of};

/// The image of a whole hive loads, and gives the tree that the hive spells, whatever moment and sequence number are written.
pub fn image_of_a_whole_hive_loads()
    ensures spells { (bins : List ℕ) → (root : ℕ) → (whole : Whole bins root) →
        IsSome (spelt (length whole.cells) (cell_at bins) root) }
    ensures loads { (bins : List ℕ) → (root : ℕ) → (whole : Whole bins root) → length bins ≤ BINS_LIMIT → (moment sequence : ℕ) →
        (tree : Tree) → spelt (length whole.cells) (cell_at bins) root ≡ Some tree →
        loaded (image_of bins root moment sequence) ≡ Ok tree }
{}

/// A fault of an image has a place just where a test fails in the bins: where the base block passes and all bins are there, each fault has
/// one, and otherwise none has.
pub fn a_fault_in_the_bins_has_a_place()
    ensures there { (image : List ℕ) → HasBins image → is_some (place_of image) ≡ is_some (fault_of image) }
    ensures nowhere { (image : List ℕ) → (HasBins image → ⊥) → place_of image ≡ None }
{}
