//! The descriptors that were met.

ghost use Rattle.std.specs.Prelude.{◌≡◌, ◌||◌, ℕ, List, true, false, bytes_eq, IfOk, MatchBool};
ghost use Rattle.reg_written.specs.Internal.MetDescriptors.{descriptor_hash, is_met};

use std::alloc::{AllocError, Global};
use std::collections::BTreeSet;
use std::hash::{FoldHasher, Hasher};

/// The descriptors that were met, each behind its hash, in a tree by their order: whether one was met takes a number of comparisons
/// that grows as the logarithm of theirs, whatever they are, and mostly of hashes alone. It keeps a copy of each.
#[derive(Drop)]
pub struct MetDescriptors {
    hashed: BTreeSet<(u64, Vec<u8>)>,
}

/// The hash of a descriptor. It has no seed, so strangers may choose descriptors with equal hashes, which are told apart by themselves.
fn hash_of(descriptor: &[u8]) -> u64
    ensures { result ≡ descriptor_hash descriptor.now }
{
    let mut hasher = FoldHasher::default();
    hasher.write(descriptor);
    hasher.finish()
}

impl MetDescriptors {
    /// No descriptors.
    pub fn new(alloc: Global) -> MetDescriptors
        ensures { (descriptor : List ℕ) → is_met result.hashed.keys descriptor ≡ false }
    {
        MetDescriptors {
            hashed: BTreeSet::new(alloc),
        }
    }

    /// Meets a descriptor, and tells whether it is a new one. It fails where memory runs out.
    pub fn meet(&mut self, alloc: Global, descriptor: &[u8]) -> Result<bool, AllocError>
        ensures { IfOk result (λ new. MatchBool new
            ((is_met self.old.hashed.keys descriptor.now ≡ false)
            × ((other : List ℕ) → is_met self.new.hashed.keys other ≡ (is_met self.old.hashed.keys other || bytes_eq descriptor.now other)))
            (is_met self.old.hashed.keys descriptor.now ≡ true)) }
    {
        let hash = hash_of(descriptor);
        let copy = descriptor.to_vec(alloc)?;
        let Ok(is_new) = self.hashed.insert((hash, copy)) else {
            return Err(AllocError);
        };
        Ok(is_new)
    }
}
