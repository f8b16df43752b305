//! Laws of lists of values. Each function is one law: it does nothing, and its contract says what holds of the definitions
//! in `specs/`.
//!
//! Suhanov, Windows registry file format specification, section "Key values list".
ghost use Rattle.std.specs.Prelude.{◌≡◌, ℕ, List, Option, length, slice_get};
ghost use Rattle.std.specs.Option.{option_and_then};
ghost use Rattle.reg_heap.specs.declared.limits.TheConstants.{NONE};
ghost use Rattle.reg_heap.specs.Paths.{Member};
ghost use Rattle.reg_heap.specs.Members.{value_named, index_named};
ghost use Rattle.reg_heap.specs.Heaps.{Heap};
ghost use Rattle.reg_values.specs.ValueLists.{AreValues, Became};

/// A key without values has no list.
pub fn no_values_are_no_list()
    ensures { (heap : Heap) → AreValues heap 0 NONE }
{}

/// There are as many values as the list counts.
pub fn list_has_its_number_of_values()
    ensures { (heap : Heap) → (count offset : ℕ) → (values : AreValues heap count offset) → length values.members ≡ count }
{}

/// A list that a change left is a list of values again.
pub fn changed_list_is_a_list()
    ensures { (old new : Heap) → (count offset : ℕ) → (values : AreValues old count offset) → (after_count after_offset : ℕ) →
        (members : List Member) → Became old new values.met after_count after_offset members →
        AreValues new after_count after_offset }
{}

/// The value of a name stands at that name's index.
pub fn value_of_a_name_is_at_its_index()
    ensures { (name : List ℕ) → (members : List Member) → value_named name members ≡ option_and_then (slice_get members) (index_named name members) }
{}
