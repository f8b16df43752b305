//! A number for each eight bytes of bins, those of each page in a table of their own.
ghost use Rattle.std.specs.Prelude.{◌≡◌, ℕ, ◌+◌, ◌*◌, ◌/◌, ◌≤◌, ◌<◌, ◌⊎◌, [], length, take, max, get_or, set, OnOk, OnErr, IsOk};
ghost use Rattle.reg_bins.specs.Internal.{numbers_of, AreWhole};

use std::alloc::{AllocError, Global};
use std::marker::Model;

/// How many numbers a page has: one for each eight of its 4096 bytes.
const PAGE: usize = 512;

/// From so many pages on tables are made several at a time.
const MANY: usize = 256;

/// How many tables are made at a time then.
const STEP: usize = 16;

// The numbers of one page.
#[derive(Drop)]
struct PageTable {
    numbers: Vec<u32>,
}

/// Numbers in a row, one for each eight bytes of bins, at most 33,554,432 of them.
///
/// Each page of 4096 bytes has a table of its own, so that more of them copy none of those that there are.
#[derive(Drop)]
pub struct PageTables {
    alloc: Global,
    /// The tables of the pages, of 512 numbers each.
    pages: Vec<PageTable>,
}

impl Model for PageTables {
    ghost use Rattle.reg_bins.specs.Rows.{Table};
    ghost use Rattle.reg_bins.specs.Internal.{numbers_of, AreWhole};

    ghost Value = { Table };

    ghost view = { λ t. record { items = numbers_of t.pages.items } };

    ghost invariant = { λ t. AreWhole t.pages.items };
}

impl PageTables {
    /// No number.
    pub fn new(alloc: Global) -> Self
        ensures { result.items ≡ [] }
    {
        PageTables {
            alloc,
            pages: Vec::new(alloc),
        }
    }

    /// The number at a place.
    pub fn get(&self, place: usize) -> u32
        requires { place < length self.now.items }
        ensures { result ≡ get_or self.now.items place 0 }
    {
        let page = &self.pages[place / PAGE];
        page.numbers[place % PAGE]
    }

    /// Sets the number at a place.
    pub fn set(&mut self, place: usize, number: u32)
        requires { place < length self.old.items }
        ensures items { self.new.items ≡ set self.old.items place number }
        ensures long { length self.new.items ≡ length self.old.items }
    {
        self.pages[place / PAGE].numbers[place % PAGE] = number;
    }

    /// At least so many numbers, at most 511 and a sixteenth more, and never more than 8,191 more, the new ones all 0; or as many as
    /// there were, where those are more. What was there stays. Where memory is refused, there are as many as before.
    pub fn lengthen(&mut self, long: usize) -> Result<(), AllocError>
        requires { long ≤ 33554432 }
        ensures same { (place : ℕ) → get_or self.new.items place 0 ≡ get_or self.old.items place 0 }
        ensures longer { length self.old.items ≤ length self.new.items }
        ensures most { (length self.new.items ≡ length self.old.items) ⊎ (length self.new.items ≤ long + long / 16 + 511) }
        ensures few { (length self.new.items ≡ length self.old.items) ⊎ (length self.new.items ≤ long + 8191) }
        ensures ok { OnOk result (long ≤ length self.new.items) }
        ensures succeeds { long ≤ length self.old.items → IsOk result }
        ensures err { OnErr result (self.new.items ≡ self.old.items) }
    {
        let before = self.pages.len();
        if (long + PAGE - 1) / PAGE <= before {
            return Ok(());
        }
        let pages = pages_for(long);
        if add_tables(&mut self.pages, self.alloc, pages).is_err() {
            self.pages.truncate(before);
            return Err(AllocError);
        }
        Ok(())
    }
}

// Tables of zeros behind those that there are, until there are so many. Where memory is refused, some of them may be there.
fn add_tables(pages: &mut Vec<PageTable>, alloc: Global, long: usize) -> Result<(), AllocError>
    requires { AreWhole pages.old.items }
    ensures front { take (length pages.old.items) pages.new.items ≡ pages.old.items }
    ensures whole { AreWhole pages.new.items }
    ensures same { (place : ℕ) → get_or (numbers_of pages.new.items) place 0 ≡ get_or (numbers_of pages.old.items) place 0 }
    ensures longer { length pages.old.items ≤ length pages.new.items }
    ensures most { length pages.new.items ≤ max (length pages.old.items) long }
    ensures ok { OnOk result (long ≤ length pages.new.items) }
{
    while pages.len() < long {
        let mut numbers = Vec::new(alloc);
        numbers.resize(PAGE, 0)?;
        pages.push(PageTable { numbers })?;
    }
    Ok(())
}

// For how many pages tables are made, so that there are so many numbers. Where there are many pages, tables are made several at a time:
// then the bins that come between stand close to one another, and reads of them need fewer pages of the system.
fn pages_for(long: usize) -> usize
    requires { long ≤ 33554432 }
    ensures enough { long ≤ 512 * result }
    ensures most { 512 * result ≤ long + long / 16 + 511 }
    ensures few { 512 * result ≤ long + 8191 }
{
    let pages = (long + PAGE - 1) / PAGE;
    if pages < MANY {
        return pages;
    }
    (pages + STEP - 1) / STEP * STEP
}
