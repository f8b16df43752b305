//! The map from descriptors to the cells of their securities.

ghost use Rattle.std.specs.Prelude.{◌≡◌, ℕ, List, Some, None, IsSome, true, false, IfOk, OnErr};
ghost use Rattle.std.specs.Ordering.{nat_cmp};
ghost use Rattle.std.specs.Cmp.Lexicographic.{slice_cmp};
ghost use Rattle.std.specs.BTreeMap.{is_at};
ghost use Rattle.std.specs.Map.{set_value};
ghost use Rattle.reg_security.specs.Rings.{MakesReady, Notes, cell_of};
ghost use Rattle.reg_security.specs.Internal.MapEntries.{found_for, MakesRoom};

use crate::hashed::{HashedCells, Standing};
use std::alloc::{AllocError, Global};
use std::collections::BTreeMap;
use std::marker::Model;

/// Cells by their securities' descriptors: by a hash, so that a search compares numbers that stand in the nodes of a map and then
/// the bytes of one descriptor. Where the hash is another descriptor's, in the order of the bytes, so that no choice of descriptors
/// makes a search linear.
#[derive(Drop)]
pub struct CellMap {
    by_hash: HashedCells,
    others: BTreeMap<Vec<u8>, u32>,
}

impl Model for CellMap {
    ghost use Rattle.reg_security.specs.Rings.{DescriptorCells, coded_cells};

    ghost Value = { DescriptorCells };

    ghost coded = { coded_cells };

    ghost use Rattle.reg_security.specs.Internal.MapEntries.{shown};

    ghost view = { λ m. shown m.by_hash m.others.entries };
}

impl CellMap {
    /// No cells.
    pub fn new(alloc: Global) -> CellMap
        ensures { (descriptor : List ℕ) → cell_of result descriptor ≡ None }
    {
        CellMap {
            by_hash: HashedCells::new(alloc),
            others: BTreeMap::new(alloc),
        }
    }

    /// The cell of a descriptor.
    pub fn find(&self, descriptor: &[u8]) -> Option<u32>
        ensures { result ≡ cell_of self.now descriptor.now }
    {
        match self.by_hash.find(descriptor) {
            Some(cell) => Some(cell),
            None => match self.others.get(descriptor) {
                Some(held) => Some(*held),
                None => None,
            },
        }
    }

    /// Makes room for a descriptor that has none, and tells whether it did. Where memory is short, no cell has changed.
    pub fn expect(&mut self, alloc: Global, descriptor: &[u8]) -> Result<bool, AllocError>
        ensures ok { IfOk result (λ made. MakesReady self.old descriptor.now made self.new) }
        ensures err { OnErr result (self.new ≡ self.old) }
    {
        match self.by_hash.standing(descriptor) {
            Standing::This => Ok(false),
            Standing::Another => CellMap::expect_among(&mut self.others, alloc, descriptor),
            Standing::Nothing => {
                if self.others.get(descriptor).is_some() {
                    return Ok(false);
                }
                self.by_hash.expect(alloc, descriptor)?;
                Ok(true)
            }
        }
    }

    /// Makes room among the others.
    fn expect_among(
        others: &mut BTreeMap<Vec<u8>, u32>,
        alloc: Global,
        descriptor: &[u8],
    ) -> Result<bool, AllocError>
        ensures ok { IfOk result (λ made. MakesRoom others.old.entries descriptor.now made others.new.entries) }
        ensures err { OnErr result (others.new.entries ≡ others.old.entries) }
    {
        let copy = descriptor.to_vec(alloc)?;
        let Ok(before) = others.insert(copy, 0) else {
            return Err(AllocError);
        };
        let Some(held) = before else {
            return Ok(true);
        };
        CellMap::set_among(others, descriptor, held);
        Ok(false)
    }

    /// Sets the cell of a descriptor that is among the others.
    fn set_among(others: &mut BTreeMap<Vec<u8>, u32>, descriptor: &[u8], cell: u32)
        requires { IsSome (found_for others.old.entries descriptor.now) }
        ensures written { others.new.entries ≡ set_value (is_at (λ k. slice_cmp nat_cmp descriptor.now k.items)) others.old.entries cell }
        ensures notes { Notes (found_for others.old.entries) descriptor.now (Some cell) (found_for others.new.entries) }
    {
        if let Some(held) = others.get_mut(descriptor) {
            *held = cell;
        }
    }

    /// Sets the cell of a descriptor for which there is room.
    pub fn set(&mut self, descriptor: &[u8], cell: u32)
        requires { IsSome (cell_of self.old descriptor.now) }
        ensures { Notes (cell_of self.old) descriptor.now (Some cell) (cell_of self.new) }
    {
        if self.by_hash.set(descriptor, cell) {
            return;
        }
        CellMap::set_among(&mut self.others, descriptor, cell);
    }

    /// Takes out a descriptor, wherever it stands.
    pub fn remove(&mut self, descriptor: &[u8])
        ensures { Notes (cell_of self.old) descriptor.now None (cell_of self.new) }
    {
        self.by_hash.remove(descriptor);
        self.others.remove(descriptor);
    }
}
