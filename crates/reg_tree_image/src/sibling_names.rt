//! The names that were met among the subkeys of one key.

ghost use Rattle.reg_tree_image.specs.Internal.NamesMet.{AreRising};

use crate::LoadFault;
use crate::met_names::MetNames;
use reg_names::name_order;
use std::alloc::Global;
use std::borrow::CowSlice;
use std::cmp::Ordering;
use std::mem;

/// The names of a key's subkeys that were met. While each comes behind the last one in the order of names, as where the lists are in
/// order, they are kept as they are: one behind the last is none of those before. Once one doesn't, all go into a set.
#[derive(Drop)]
pub struct SiblingNames<'a> {
    rising: Vec<CowSlice<'a, u8>>,
    met: MetNames,
    ghost in_order: { AreRising rising.items },
}

impl<'a> SiblingNames<'a> {
    ghost use Rattle.std.specs.Prelude.{◌≡◌, ◌||◌, ℕ, List, true, false, not, IfErr, OnOk};
    ghost use Rattle.std.specs.Cow.{cow_slice_items};
    ghost use Rattle.reg_heap.specs.Members.{same_name as is_same};
    ghost use Rattle.reg_tree_image.specs.declared.LoadFault.{LoadFault};
    ghost use Rattle.reg_tree_image.specs.WalkSteps.{check};
    ghost use Rattle.reg_tree_image.specs.Internal.NamesMet.{IsBehind};
    ghost use Rattle.reg_tree_image.specs.Internal.CheckedStacks.{has_met};
    ghost use Rattle.reg_tree_image.specs.Internal.ReaderOutcomes.{Gives};

    /// No names.
    pub fn new(alloc: Global) -> SiblingNames<'a>
        ensures { (name : List ℕ) → has_met result name ≡ false }
    {
        SiblingNames {
            rising: Vec::new(alloc),
            met: MetNames::new(alloc),
        }
    }

    /// Whether a name comes behind the last one, if there is one.
    fn is_behind(&self, name: &[u8]) -> bool
        ensures { result ≡ true → IsBehind self.now.rising.items name.now }
    {
        match self.rising.as_slice().last() {
            Some(last) => name_order(last.as_slice(), name) == Ordering::Less,
            None => true,
        }
    }

    /// Keeps a name as it is, which comes behind all others.
    fn keep(&mut self, name: CowSlice<'a, u8>) -> Result<(), LoadFault>
        requires { IsBehind self.old.rising.items (cow_slice_items name) }
        ensures met { OnOk result ((other : List ℕ) →
            has_met self.new other ≡ (has_met self.old other || is_same (cow_slice_items name.entry) other)) }
        ensures err { IfErr result (λ fault. fault ≡ LoadFault.Memory) }
    {
        if self.rising.push(name).is_err() {
            return Err(LoadFault::Memory);
        }
        Ok(())
    }

    /// Puts a name into the set, behind those that were kept as they are.
    fn put_in_set(&mut self, alloc: Global, name: &[u8]) -> Result<(), LoadFault>
        ensures new { Gives (λ _. tt) (check LoadFault.Twice (not (has_met self.old name.now))) result }
        ensures met { OnOk result ((other : List ℕ) → has_met self.new other ≡ (has_met self.old other || is_same name.now other)) }
    {
        let rising = mem::replace(&mut self.rising, Vec::new(alloc));
        self.met.put_all(alloc, rising.as_slice())?;
        self.met.put(alloc, name)
    }

    /// Meets a name. `Twice` is for one that folds as a name that was met, `Memory` where memory runs out.
    pub fn put(&mut self, alloc: Global, name: CowSlice<'a, u8>) -> Result<(), LoadFault>
        ensures new { Gives (λ _. tt) (check LoadFault.Twice (not (has_met self.old (cow_slice_items name.entry)))) result }
        ensures met { OnOk result ((other : List ℕ) →
            has_met self.new other ≡ (has_met self.old other || is_same (cow_slice_items name.entry) other)) }
    {
        // Once the set has names, it is used for all that come.
        if self.met.is_empty() && self.is_behind(name.as_slice()) {
            return self.keep(name);
        }
        self.put_in_set(alloc, name.as_slice())
    }
}
