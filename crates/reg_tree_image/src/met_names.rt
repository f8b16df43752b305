//! The names that were met in one key, of its values or of its subkeys.

ghost use Rattle.std.specs.Prelude.{◌≡◌, ◌≢◌, ◌↔◌, ◌≤◌, ◌<◌, ◌||◌, ◌++◌, ◌∷◌, ℕ, List, [], IsTrue, true, false, not, length, IfOk, IfErr, OnOk};
ghost use Rattle.std.specs.List.{list_any};
ghost use Rattle.reg_names.specs.Names.{folded};
ghost use Rattle.reg_heap.specs.Paths.{Member};
ghost use Rattle.reg_heap.specs.Members.{same_name as is_same};
ghost use Rattle.reg_tree_image.specs.declared.LoadFault.{LoadFault};
ghost use Rattle.reg_tree_image.specs.WalkSteps.{check};
ghost use Rattle.reg_tree_image.specs.Internal.NamesMet.{is_among, is_met, is_one_of, text_hash, AreMet, AreKnown};
ghost use Rattle.reg_tree_image.specs.Internal.NamedRecords.{member_in, members_in};
ghost use Rattle.reg_tree_image.specs.Internal.ReaderOutcomes.{Gives};

use crate::LoadFault;
use crate::values::ReadValue;
use reg_names::{fold, same_name};
use std::alloc::{AllocError, Global};
use std::borrow::CowSlice;
use std::collections::BTreeSet;
use std::hash::{FoldHasher, Hasher};

/// Of so many values at most the names are compared one by one.
pub const FEW: usize = 8;

/// The names of more than a few values, folded, each behind its hash, in a tree by their order: whether one was met takes a number of
/// comparisons that grows as the logarithm of theirs, whatever they are, and mostly of hashes alone, which stand in the tree's nodes.
/// Of a few values it has none, so that no copies are made of most names.
#[derive(Drop)]
pub struct MetNames {
    folded: BTreeSet<(u64, Vec<u8>)>,
}

/// A copy of a name, folded.
fn folded_name(alloc: Global, name: &[u8]) -> Result<Vec<u8>, AllocError>
    ensures { IfOk result (λ copy. copy.items ≡ folded name.now) }
{
    name.iter().map(|byte| fold(*byte)).collect(alloc)
}

/// The hash of a folded name. It has no seed, so strangers may choose names with equal hashes, which are told apart by themselves.
fn hash_of(name: &[u8]) -> u64
    ensures { result ≡ text_hash name.now }
{
    let mut hasher = FoldHasher::default();
    hasher.write(name);
    hasher.finish()
}

/// Whether two names may be the same after folding, by their lengths and their last characters.
fn end_alike(one: &[u8], other: &[u8]) -> bool
    ensures { result ≡ false → folded one.now ≢ folded other.now }
{
    if one.len() != other.len() {
        return false;
    }
    if one.is_empty() {
        return true;
    }
    let last = one.len() - 1;
    fold(one[last]) == fold(other[last])
}

/// Whether two names are the same after folding. Those of one key's values differ at their ends mostly, which are compared first.
fn are_same(one: &[u8], other: &[u8]) -> bool
    ensures { IsTrue result ↔ (folded one.now ≡ folded other.now) }
{
    if !end_alike(one, other) {
        return false;
    }
    same_name(one, other)
}

/// Whether a value has a name, after folding.
fn is_named(value: &ReadValue<'_>, name: &[u8]) -> bool
    ensures { result ≡ is_same (member_in value.now).name name.now }
{
    are_same(value.name.as_slice(), name)
}

/// Whether one of these values has a name, after folding.
fn is_one_named(values: &[ReadValue<'_>], name: &[u8]) -> bool
    ensures { result ≡ is_among name.now (members_in values.now) }
{
    for value in values {
        if is_named(value, name) {
            return true;
        }
    }
    false
}

/// Compares a name with those of a few values.
fn compare(values: &[ReadValue<'_>], name: &[u8]) -> Result<(), LoadFault>
    ensures { Gives (λ _. tt) (check LoadFault.Twice (not (is_among name.now (members_in values.now)))) result }
{
    if is_one_named(values, name) {
        return Err(LoadFault::Twice);
    }
    Ok(())
}

impl MetNames {
    /// No names.
    pub fn new(alloc: Global) -> MetNames
        ensures { AreKnown [] result.folded.keys }
    {
        MetNames {
            folded: BTreeSet::new(alloc),
        }
    }

    /// Puts a name into the tree, however few there are. `Twice` is for one that folds as a name in it, `Memory` where memory runs out.
    pub fn put(&mut self, alloc: Global, name: &[u8]) -> Result<(), LoadFault>
        ensures new { Gives (λ _. tt) (check LoadFault.Twice (not (is_met self.old.folded.keys name.now))) result }
        ensures met { OnOk result ((other : List ℕ) →
            is_met self.new.folded.keys other ≡ (is_met self.old.folded.keys other || is_same name.now other)) }
    {
        let Ok(copy) = folded_name(alloc, name) else {
            return Err(LoadFault::Memory);
        };
        let hash = hash_of(copy.as_slice());
        let Ok(is_new) = self.folded.insert((hash, copy)) else {
            return Err(LoadFault::Memory);
        };
        if !is_new {
            return Err(LoadFault::Twice);
        }
        Ok(())
    }

    /// Whether the tree has no names.
    pub fn is_empty(&self) -> bool
        ensures { result ≡ true → self.now.folded.keys ≡ [] }
    {
        self.folded.is_empty()
    }

    /// Puts names into the tree, of which no two are the same and none is in it, so that it is memory alone that may be lacking.
    pub fn put_all(&mut self, alloc: Global, names: &[CowSlice<'_, u8>]) -> Result<(), LoadFault>
        ensures met { OnOk result ((other : List ℕ) →
            is_met self.new.folded.keys other ≡ (is_met self.old.folded.keys other || is_one_of other names.now)) }
        ensures err { IfErr result (λ fault. fault ≡ LoadFault.Memory) }
    {
        for name in names {
            match self.put(alloc, name.as_slice()) {
                Ok(()) => {}
                Err(_) => return Err(LoadFault::Memory),
            }
        }
        Ok(())
    }

    /// Puts the names of the values before the first that is one too many for a few into the tree.
    fn gather(&mut self, alloc: Global, before: &[ReadValue<'_>]) -> Result<(), LoadFault>
        requires known { AreKnown (members_in before.now) self.old.folded.keys }
        requires many { FEW ≤ length before.now }
        ensures met { OnOk result (AreMet (members_in before.now) self.new.folded.keys) }
        ensures err { IfErr result (λ fault. fault ≡ LoadFault.Memory) }
    {
        if before.len() != FEW {
            return Ok(());
        }
        for value in before {
            // No two of them have one name, so that it is memory alone that may be lacking.
            match self.put(alloc, value.name.as_slice()) {
                Ok(()) => {}
                Err(_) => return Err(LoadFault::Memory),
            }
        }
        Ok(())
    }

    /// Meets the name of the value behind these, whose names were met. `Twice` is for one that folds as the name of one of them,
    /// `Memory` where memory runs out.
    pub fn meet(
        &mut self,
        alloc: Global,
        before: &[ReadValue<'_>],
        name: &[u8],
    ) -> Result<(), LoadFault>
        requires { AreKnown (members_in before.now) self.old.folded.keys }
        ensures new { Gives (λ _. tt) (check LoadFault.Twice (not (is_among name.now (members_in before.now)))) result }
        ensures met { OnOk result ((m : Member) → m.name ≡ name.now → AreKnown (members_in before.now ++ m ∷ []) self.new.folded.keys) }
    {
        if before.len() < FEW {
            return compare(before, name);
        }
        self.gather(alloc, before)?;
        self.put(alloc, name)
    }
}
