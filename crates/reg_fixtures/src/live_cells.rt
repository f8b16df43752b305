//! An arena with cells that come and go at random.
ghost use Rattle.std.specs.Prelude.{◌≡◌, ◌+◌, ◌-◌, [], length, OnOk};
ghost use Rattle.reg_fixtures.specs.LiveCells.{AreLive, FreesChosen};

use crate::Chance;
use reg_arena::{Arena, ArenaFault};
use std::alloc::{AllocError, Global};

/// Allocated cells of an arena, of 16 to 256 bytes, some of them chosen to be freed, and the random numbers by which sizes
/// and cells are chosen. The numbers are the same on every run.
#[derive(Drop)]
pub struct LiveCells {
    arena: Arena,
    offsets: Vec<u32>,
    chosen: Vec<u32>,
    chance: Chance,
    ghost live: { AreLive arena.bytes offsets.items chosen.items },
}

impl LiveCells {
    /// An arena with no cells.
    pub fn new(alloc: Global) -> Self
        ensures { result.offsets.items ≡ [] }
    {
        LiveCells {
            arena: Arena::new(alloc),
            offsets: Vec::new(alloc),
            chosen: Vec::new(alloc),
            chance: Chance::new(42),
        }
    }

    /// How many cells are allocated and not chosen.
    pub fn len(&self) -> usize
        ensures { result ≡ length self.now.offsets.items }
    {
        self.offsets.len()
    }

    /// How many bytes the bins have.
    pub fn bins_size(&self) -> u32
        ensures { result ≡ length self.now.arena.bytes }
    {
        self.arena.bins_size()
    }

    /// Carves cells of random sizes, a multiple of 8 from 16 to 256, one in a call of the arena.
    pub fn carve_some(&mut self, calls: usize) -> Result<(), ArenaFault>
        ensures { OnOk result (length self.new.offsets.items ≡ length self.old.offsets.items + calls) }
    {
        for _i in 0..calls {
            self.carve_one()?;
        }
        Ok(())
    }

    /// Chooses cells at random, to be freed. Where there are fewer, all are chosen.
    pub fn choose_some(&mut self, cells: usize) -> Result<(), AllocError>
        ensures left { OnOk result (length self.new.offsets.items ≡ length self.old.offsets.items - cells) }
        ensures chosen { OnOk result
            (length self.new.chosen.items + length self.new.offsets.items ≡ length self.old.chosen.items
            + length self.old.offsets.items) }
        ensures arena { self.new.arena ≡ self.old.arena }
    {
        for _i in 0..cells {
            self.choose_one()?;
        }
        Ok(())
    }

    /// Frees all chosen cells, one in a call of the arena, and gives how many calls there were.
    pub fn free_chosen(&mut self) -> usize
        ensures calls { result ≡ length self.old.chosen.items }
        ensures none { length self.new.chosen.items ≡ 0 }
        ensures freed { FreesChosen self.old.arena.bytes self.new.arena.bytes self.old.chosen.items self.new.chosen.items }
    {
        let calls = self.chosen.len();
        for _i in 0..calls {
            self.free_last();
        }
        calls
    }

    fn carve_one(&mut self) -> Result<(), ArenaFault>
        ensures { OnOk result (length self.new.offsets.items ≡ length self.old.offsets.items + 1) }
    {
        let size = 16 + self.chance.word() % 31 * 8;
        self.arena.carve(&[size], &mut self.offsets)
    }

    fn choose_one(&mut self) -> Result<(), AllocError>
        ensures left { length self.new.offsets.items ≡ length self.old.offsets.items - 1 }
        ensures chosen { OnOk result
            (length self.new.chosen.items + length self.new.offsets.items ≡ length self.old.chosen.items
            + length self.old.offsets.items) }
        ensures arena { self.new.arena ≡ self.old.arena }
    {
        if self.offsets.is_empty() {
            return Ok(());
        }
        let index = self.chance.below(self.offsets.len());
        let cell = self.offsets.swap_remove(index);
        self.chosen.push(cell)?;
        Ok(())
    }

    // Frees the cell that was chosen last.
    fn free_last(&mut self)
        ensures fewer { length self.new.chosen.items ≡ length self.old.chosen.items - 1 }
        ensures freed { FreesChosen self.old.arena.bytes self.new.arena.bytes self.old.chosen.items self.new.chosen.items }
    {
        let Some(cell) = self.chosen.pop() else {
            return;
        };
        self.arena.free(cell);
    }
}
