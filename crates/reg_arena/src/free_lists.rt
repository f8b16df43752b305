//! The lists of the free cells, and what finds a cell's list and its neighbours at once.
//!
//! The cells of one size below 16,384 bytes stand side by side in their list. For each such size there is its first cell, and
//! a bit that says whether there is one: so their best fit is found without a walk. From 16,384 bytes on the list is walked.
ghost use Rattle.std.specs.Prelude.{◌≡◌, ℕ, ◌-◌, ◌/◌, ◌%◌, ◌≤◌, ◌<◌, ◌⊎◌, List, [], replicate, length, MatchOption, OnErr, OnOk, IsOk, vec_capacity};
ghost use Rattle.reg_heap.specs.declared.limits.TheConstants.{NONE};
ghost use Rattle.reg_arena.specs.Internal.SizeTables.{bit_in, start_in, IsLeast, counted};
ghost use Rattle.reg_arena.specs.Internal.Reserved.{KeepsTables};
ghost use Rattle.reg_arena.specs.Internal.ListedCells.{IsListed, HasLists, HasCell, HasPlace, HasRoom, IsFreeOf, Drops, Adds, IsBestFit, NoneFits};

use crate::bitmap::least_bit;
use crate::classes::list_of;
use crate::firsts::{LARGE, first_of, note_put, note_taken};
use crate::large::find_large;
use crate::links::{link_in, unlink};
use crate::tables::{lengthen, lengthen_words, mark_last};
use reg_bins::{BinRow, PageTables};
use reg_heap::limits::NONE;
use std::alloc::{AllocError, Global};
use std::marker::Model;

/// The last list, of the sizes from 16,384 on.
const LAST: usize = 23;

/// How many sizes there are below 16,384, in eights, with 0.
const SIZES: usize = 2048;

/// How many words of bits these sizes take.
const WORDS: usize = 32;

// A free cell.
#[derive(Clone, Copy)]
pub struct Fit {
    pub cell: u32,
    pub size: u32,
}

// The free cells in lists by size.
#[derive(Drop)]
pub struct FreeLists {
    // The first cell of each list, or `NONE`.
    heads: [u32; 24],
    // For each size below 16,384, in eights, its first cell, or `NONE`.
    firsts: Vec<u32>,
    // For each such size a bit: whether there is a cell.
    words: Vec<u64>,
    // For each eight bytes a number. At a free cell's first it is the cell before it in its list, or `NONE`, with the lowest bit
    // set; at its last, where those are not its first, the offset of its first; elsewhere 0. Offsets are even, so that both have
    // one table.
    marks: PageTables,
    // How many cells the last list has.
    large: usize,
    // All free cells have fewer bytes.
    top: u32,
}

impl Model for FreeLists {
    ghost use Rattle.reg_arena.specs.Internal.SizeTables.{Tables, AreSizeTables};

    ghost Value = { Tables };

    ghost view = { λ l. record {
      heads = l.heads;
      firsts = l.firsts.items;
      words = l.words.items;
      marks = l.marks.items;
      large = l.large;
      top = l.top;
    } };

    ghost invariant = { λ l. AreSizeTables l.firsts.items l.words.items };
}

impl FreeLists {
    // No free cell, and no table.
    pub fn new(alloc: Global) -> Self
        ensures heads { result.heads ≡ replicate 24 NONE }
        ensures listed { IsListed [] (λ x. 0) result }
    {
        FreeLists {
            heads: [NONE; 24],
            firsts: Vec::new(alloc),
            words: Vec::new(alloc),
            marks: PageTables::new(alloc),
            large: 0,
            top: 0,
        }
    }

    // Room in the tables for `units` times eight bytes. The lists stay as they are. Where memory is refused, so do the marks.
    pub fn make_room(&mut self, units: usize) -> Result<(), AllocError>
        requires { units ≤ 33554432 }
        ensures listed { (bytes : List ℕ) → (sizes : ℕ → ℕ) → IsListed bytes sizes self.old → IsListed bytes sizes self.new }
        ensures heads { self.new.heads ≡ self.old.heads }
        ensures ok { OnOk result (HasRoom units self.new) }
        ensures succeeds { HasRoom units self.old → IsOk result }
        ensures err { OnErr result (self.new.marks ≡ self.old.marks) }
        ensures keeps { KeepsTables self.old self.new }
    {
        lengthen(&mut self.firsts, SIZES, NONE)?;
        lengthen_words(&mut self.words, WORDS)?;
        self.marks.lengthen(units)
    }

    // The free cell that ends where a cell begins, or 0.
    pub fn ending_at(&self, cell: u32) -> u32
        requires some { 8 ≤ cell }
        requires inside { (cell - 8) / 8 < length self.now.marks }
        ensures { result ≡ start_in self.now.marks (cell - 8) }
    {
        let last = cell - 8;
        let mark = self.marks.get(last as usize / 8);
        // A free cell of eight bytes begins and ends there.
        if mark % 2 == 1 { last } else { mark }
    }

    // Makes bytes a free cell, unless `size` is 0. It takes no memory, and constant time.
    pub fn insert(&mut self, bins: &mut BinRow, cell: u32, size: u32)
        requires { HasPlace bins.old.items self.old cell size }
        ensures adds { (sizes : ℕ → ℕ) → IsListed bins.old.items sizes self.old → IsFreeOf sizes cell size →
            Adds sizes cell size bins.old.items bins.new.items self.new }
        ensures room { bins.new.room ≡ bins.old.room }
        ensures parts { bins.new.parts ≡ bins.old.parts }
        ensures keeps { KeepsTables self.old self.new }
    {
        if size == 0 {
            return;
        }
        let class = list_of(size);
        let previous = first_of(&self.firsts, size);
        link_in(
            bins,
            &mut self.heads,
            &mut self.marks,
            class,
            previous,
            cell,
            size,
        );
        note_put(&mut self.firsts, &mut self.words, previous, cell, size);
        mark_last(&mut self.marks, cell, size, cell);
        self.top = larger(self.top, size + 1);
        self.large += one_if_large(size);
    }

    // Takes a free cell out of its list, unless `size` is 0. It takes no memory, and constant time.
    pub fn remove(&mut self, bins: &mut BinRow, cell: u32, size: u32)
        requires { HasCell bins.old.items self.old cell size }
        ensures drops { (sizes : ℕ → ℕ) → IsListed bins.old.items sizes self.old → sizes cell ≡ size →
            Drops sizes cell bins.old.items bins.new.items self.new }
        ensures room { bins.new.room ≡ bins.old.room }
        ensures parts { bins.new.parts ≡ bins.old.parts }
        ensures keeps { KeepsTables self.old self.new }
    {
        if size == 0 {
            return;
        }
        let class = list_of(size);
        let next = unlink(bins, &mut self.heads, &mut self.marks, class, cell);
        note_taken(bins, &mut self.firsts, &mut self.words, cell, size, next);
        mark_last(&mut self.marks, cell, size, 0);
        self.large -= one_if_large(size);
    }

    // A free cell that has room for `total` bytes: below 16,384 bytes one of the smallest that have, else the first that has.
    // It walks no list but the last one, and that only where no smaller cell has room.
    pub fn best_fit(&mut self, bins: &BinRow, total: u32) -> Option<Fit>
        requires lists { HasLists bins.now.items self.old }
        requires some { 0 < total }
        requires eights { total % 8 ≡ 0 }
        ensures fit { (sizes : ℕ → ℕ) → IsListed bins.now.items sizes self.old →
            MatchOption result (NoneFits sizes total) (λ fit. IsBestFit sizes total fit) }
        ensures listed { (sizes : ℕ → ℕ) → IsListed bins.now.items sizes self.old → IsListed bins.now.items sizes self.new }
        ensures heads { self.new.heads ≡ self.old.heads }
        ensures keeps { KeepsTables self.old self.new }
    {
        if total >= self.top {
            return None;
        }
        let Some(fit) = self.fit_in_lists(bins, total) else {
            self.top = total;
            return None;
        };
        Some(fit)
    }

    // The best fit by the lists alone: `top`, which may tell without them that nothing fits, is not asked.
    fn fit_in_lists(&self, bins: &BinRow, total: u32) -> Option<Fit>
        requires lists { HasLists bins.now.items self.now }
        requires some { 0 < total }
        requires eights { total % 8 ≡ 0 }
        ensures { (sizes : ℕ → ℕ) → IsListed bins.now.items sizes self.now →
            MatchOption result (NoneFits sizes total) (λ fit. IsBestFit sizes total fit) }
    {
        if let Some(place) = least_place(&self.words, total) {
            return Some(Fit {
                cell: self.firsts[place],
                size: 8 * place as u32,
            });
        }
        let Some(cell) = find_large(bins, self.heads[LAST], self.large, total) else {
            return None;
        };
        Some(Fit {
            cell,
            size: bins.word_at(cell as usize),
        })
    }
}

// The least size below 16,384 of which there is a cell with room, in eights.
fn least_place(words: &Vec<u64>, size: u32) -> Option<usize>
    requires { length words.now.items ≤ 32 }
    ensures { MatchOption result ((j : ℕ) → size / 8 ≤ j → j < 2048 → bit_in words.now.items j ≡ 0) (λ i. IsLeast words.now.items (size / 8) i) }
{
    if size >= LARGE {
        return None;
    }
    least_bit(words, size as usize / 8)
}

fn larger(x: u32, y: u32) -> u32
    ensures one { x ≤ result }
    ensures other { y ≤ result }
    ensures least { (result ≡ x) ⊎ (result ≡ y) }
{
    if x < y { y } else { x }
}

// How many cells of the last list a cell is.
fn one_if_large(size: u32) -> usize
    ensures { result ≡ counted size }
{
    if size < LARGE { 0 } else { 1 }
}
