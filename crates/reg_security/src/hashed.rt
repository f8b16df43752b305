//! Descriptors by their hashes, one of each hash.

ghost use Rattle.std.specs.Prelude.{◌≡◌, ℕ, List, None, Some, OnOk, OnErr, MatchBool};
ghost use Rattle.std.specs.Ordering.{nat_cmp};
ghost use Rattle.std.specs.BTreeMap.{IsOrdered, UpdatesBy, is_at};
ghost use Rattle.std.specs.Map.{lookup};
ghost use Rattle.reg_security.specs.Rings.{Notes, cell_of};

use std::alloc::{AllocError, Global};
use std::collections::BTreeMap;
use std::hash::{FoldHasher, Hasher};
use std::marker::Model;

/// A descriptor and the cell of its security.
#[derive(Drop)]
struct DescriptorCell {
    descriptor: Vec<u8>,
    cell: u32,
}

/// What stands by the hash of a descriptor.
pub enum Standing {
    /// Nothing.
    Nothing,
    /// The descriptor itself.
    This,
    /// Another descriptor with its hash.
    Another,
}

/// Cells by the hashes of their securities' descriptors. Of descriptors with equal hashes it takes only the first.
#[derive(Drop)]
pub struct HashedCells {
    by_hash: BTreeMap<u64, DescriptorCell>,
}

impl Model for HashedCells {
    ghost use Rattle.reg_security.specs.Rings.{DescriptorCells, coded_cells};

    ghost Value = { DescriptorCells };

    ghost coded = { coded_cells };

    ghost use Rattle.reg_security.specs.Internal.Hashes.{shown_hashed, AreByHash};

    ghost view = { λ h. shown_hashed h.by_hash.entries };

    ghost invariant = { λ h. AreByHash h.by_hash.entries };
}

impl HashedCells {
    ghost use Rattle.reg_security.specs.Internal.Hashes.{IsHashFree, IsStanding, descriptor_hash, is_this};

    /// No cells.
    pub fn new(alloc: Global) -> HashedCells
        ensures { (descriptor : List ℕ) → cell_of result descriptor ≡ None }
    {
        HashedCells {
            by_hash: BTreeMap::new(alloc),
        }
    }

    /// The cell of a descriptor.
    pub fn find(&self, descriptor: &[u8]) -> Option<u32>
        ensures { result ≡ cell_of self.now descriptor.now }
    {
        match self.by_hash.get(&HashedCells::hash_of(descriptor)) {
            Some(first) => {
                if descriptor == first.descriptor.as_slice() {
                    Some(first.cell)
                } else {
                    None
                }
            }
            None => None,
        }
    }

    /// What stands by the hash of a descriptor.
    pub fn standing(&self, descriptor: &[u8]) -> Standing
        ensures { IsStanding self.now descriptor.now result }
    {
        let hash = HashedCells::hash_of(descriptor);
        match self.by_hash.get(&hash) {
            Some(first) => {
                if descriptor == first.descriptor.as_slice() {
                    Standing::This
                } else {
                    Standing::Another
                }
            }
            None => Standing::Nothing,
        }
    }

    /// Makes room for a descriptor, by whose hash nothing stands.
    pub fn expect(&mut self, alloc: Global, descriptor: &[u8]) -> Result<(), AllocError>
        requires { IsHashFree self.old descriptor.now }
        ensures ok { OnOk result (Notes (cell_of self.old) descriptor.now (Some 0) (cell_of self.new)) }
        ensures err { OnErr result (self.new ≡ self.old) }
    {
        let hash = HashedCells::hash_of(descriptor);
        let first = DescriptorCell {
            descriptor: descriptor.to_vec(alloc)?,
            cell: 0,
        };
        match self.by_hash.insert(hash, first) {
            Ok(_) => Ok(()),
            Err(_) => Err(AllocError),
        }
    }

    /// Sets the cell of a descriptor if there is room for it, and tells whether there is.
    pub fn set(&mut self, descriptor: &[u8], cell: u32) -> bool
        ensures set { MatchBool result (Notes (cell_of self.old) descriptor.now (Some cell) (cell_of self.new))
            ((self.new ≡ self.old) × (cell_of self.old descriptor.now ≡ None)) }
    {
        if let Some(first) = self.by_hash.get_mut(&HashedCells::hash_of(descriptor)) {
            if descriptor == first.descriptor.as_slice() {
                first.cell = cell;
                return true;
            }
        }
        false
    }

    /// Takes out a descriptor.
    pub fn remove(&mut self, descriptor: &[u8])
        ensures { Notes (cell_of self.old) descriptor.now None (cell_of self.new) }
    {
        let hash = HashedCells::hash_of(descriptor);
        if HashedCells::is_here(&self.by_hash, hash, descriptor) {
            HashedCells::take(&mut self.by_hash, hash);
        }
    }

    /// Whether this descriptor stands by a hash.
    fn is_here(by_hash: &BTreeMap<u64, DescriptorCell>, hash: u64, descriptor: &[u8]) -> bool
        ensures { result ≡ is_this descriptor.now (lookup (is_at (nat_cmp hash)) by_hash.now.entries) }
    {
        match by_hash.get(&hash) {
            Some(first) => descriptor == first.descriptor.as_slice(),
            None => false,
        }
    }

    /// Takes out what stands by a hash.
    fn take(by_hash: &mut BTreeMap<u64, DescriptorCell>, hash: u64)
        ensures updates { UpdatesBy nat_cmp (nat_cmp hash) by_hash.old by_hash.new None }
        ensures ordered { IsOrdered nat_cmp by_hash.new }
    {
        by_hash.remove(&hash);
    }

    /// The hash of a descriptor. It has no seed, so strangers may choose descriptors with equal hashes.
    fn hash_of(descriptor: &[u8]) -> u64
        ensures { result ≡ descriptor_hash descriptor.now }
    {
        let mut hasher = FoldHasher::default();
        hasher.write(descriptor);
        hasher.finish()
    }
}
