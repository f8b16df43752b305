//! Bins in a row, each in a vector of its own.
ghost use Rattle.std.specs.Prelude.{◌≡◌, ◌+◌, ◌-◌, ◌≤◌, ◌<◌, ◌%◌, ◌/◌, ◌*◌, ◌++◌, ℕ, List, ◌∷◌, [], length, get_or, take, drop, replicate, OnOk, OnErr, IfOk, vec_len, vec_capacity};
ghost use Rattle.byteorder.specs.Endian.{little_bytes};
ghost use Rattle.reg_heap.specs.ByteWords.{splice, word};
ghost use Rattle.reg_heap.specs.declared.limits.TheConstants.{BINS_LIMIT};
ghost use Rattle.reg_bins.specs.Rows.{end_from, IsInPart};
ghost use Rattle.reg_bins.specs.declared.row.Page.{Page};
ghost use Rattle.reg_bins.specs.Internal.{bytes_of, ArePlaced, AreWithin, IsBin};

use byteorder::{ByteOrder, LittleEndian};
use std::alloc::{AllocError, Global};
use std::marker::Model;
use std::mem;

/// The bytes of a page. A bin is of whole pages.
const PAGE: usize = 4096;

// A page of the bins.
#[derive(Drop)]
struct Page {
    // Where the bin begins in which it lies, counted from the first bin.
    start: usize,
    // All bytes of that bin where this is its first page; else none.
    bytes: Vec<u8>,
}

/// The bytes of bins in a row, at most 268,435,456 of them, each bin in a vector of its own.
///
/// Suhanov, Windows registry file format specification, section "Hive bin".
#[derive(Drop)]
pub struct BinRow {
    alloc: Global,
    /// The pages of all bins, in order. A bin stands at its first page, so that a byte there is read by one look.
    pages: Vec<Page>,
    /// For how many pages there is room.
    room: usize,
}

impl Model for BinRow {
    ghost use Rattle.std.specs.Prelude.{◌*◌, ◌≤◌, length, vec_capacity};
    ghost use Rattle.reg_heap.specs.declared.limits.TheConstants.{BINS_LIMIT};
    ghost use Rattle.reg_bins.specs.Rows.{Row};
    ghost use Rattle.reg_bins.specs.Internal.{bytes_of, sizes_of, ArePlaced};

    ghost Value = { Row };

    ghost view = { λ r. record {
      items = bytes_of r.pages.items;
      parts = sizes_of r.pages.items;
      room = 4096 * r.room;
    } };

    ghost invariant = { λ r. ArePlaced 0 0 0 r.pages.items × (length (bytes_of r.pages.items) ≤ BINS_LIMIT) × (r.room ≤ vec_capacity r.pages) };
}

impl BinRow {
    /// No bin.
    pub fn new(alloc: Global) -> Self
        ensures items { result.items ≡ [] }
        ensures parts { result.parts ≡ [] }
    {
        BinRow {
            alloc,
            pages: Vec::new(alloc),
            room: 0,
        }
    }

    /// How many bytes all bins have together.
    pub fn len(&self) -> usize
        ensures long { result ≡ length self.now.items }
        ensures small { length self.now.items ≤ BINS_LIMIT }
    {
        self.pages.len() * PAGE
    }

    /// The bytes from `at` on to the end of the bin in which it lies.
    pub fn rest(&self, at: usize) -> &[u8]
        requires { at < length self.now.items }
        ensures within { at < end_from 0 self.now.parts at }
        ensures end { end_from 0 self.now.parts at ≤ length self.now.items }
        ensures bytes { result.now ≡ take (end_from 0 self.now.parts at - at) (drop at self.now.items) }
    {
        let bin = bin_of(&self.pages, at);
        &bin.bytes[at - bin.start..]
    }

    /// `len` bytes from `at` on, which lie in one bin.
    pub fn slice(&self, at: usize, len: usize) -> &[u8]
        requires { IsInPart self.now.parts at len }
        ensures { result.now ≡ take len (drop at self.now.items) }
    {
        if len == 0 {
            return &[];
        }
        bin_slice(bin_of(&self.pages, at), at, len)
    }

    /// The number of four bytes at `at`, the lowest first. They may lie in two bins.
    pub fn word_at(&self, at: usize) -> u32
        requires { at + 4 ≤ length self.now.items }
        ensures { result ≡ word self.now.items at }
    {
        let bin = bin_of(&self.pages, at);
        let from = at - bin.start;
        if bin.bytes.len() - from >= 4 {
            return LittleEndian::read_u32(&bin.bytes[from..]);
        }
        u32::from_le_bytes([
            self.byte_at(at),
            self.byte_at(at + 1),
            self.byte_at(at + 2),
            self.byte_at(at + 3),
        ])
    }

    fn byte_at(&self, at: usize) -> u8
        requires { at < length self.now.items }
        ensures { result ≡ get_or self.now.items at 0 }
    {
        self.rest(at)[0]
    }

    /// Writes `bytes` over those from `at` on, which lie in one bin.
    pub fn write(&mut self, at: usize, bytes: &[u8])
        requires { IsInPart self.old.parts at (length bytes.now) }
        ensures items { self.new.items ≡ splice at bytes.now self.old.items }
        ensures parts { self.new.parts ≡ self.old.parts }
        ensures room { self.new.room ≡ self.old.room }
    {
        if bytes.is_empty() {
            return;
        }
        let number = first_page(&self.pages, at);
        write_bin(&mut self.pages[number], at, bytes);
    }

    /// Writes a number of four bytes at `at`, the lowest first. They may lie in two bins.
    pub fn put_word(&mut self, at: usize, n: u32)
        requires { at + 4 ≤ length self.old.items }
        ensures items { self.new.items ≡ splice at (little_bytes 4 n) self.old.items }
        ensures parts { self.new.parts ≡ self.old.parts }
        ensures room { self.new.room ≡ self.old.room }
    {
        let bytes = n.to_le_bytes();
        let number = first_page(&self.pages, at);
        let bin = &mut self.pages[number];
        if bin.bytes.len() - (at - bin.start) >= 4 {
            write_bin(bin, at, &bytes);
            return;
        }
        self.put_byte(at, bytes[0]);
        self.put_byte(at + 1, bytes[1]);
        self.put_byte(at + 2, bytes[2]);
        self.put_byte(at + 3, bytes[3]);
    }

    fn put_byte(&mut self, at: usize, byte: u8)
        requires { at < length self.old.items }
        ensures items { self.new.items ≡ splice at (byte ∷ []) self.old.items }
        ensures long { length self.new.items ≡ length self.old.items }
        ensures parts { self.new.parts ≡ self.old.parts }
        ensures room { self.new.room ≡ self.old.room }
    {
        let number = first_page(&self.pages, at);
        write_bin(&mut self.pages[number], at, &[byte]);
    }

    /// Writes zeros over `len` bytes from `at` on, which lie in one bin.
    pub fn zero(&mut self, at: usize, len: usize)
        requires { IsInPart self.old.parts at len }
        ensures items { self.new.items ≡ splice at (replicate len 0) self.old.items }
        ensures parts { self.new.parts ≡ self.old.parts }
        ensures room { self.new.room ≡ self.old.room }
    {
        if len == 0 {
            return;
        }
        let number = first_page(&self.pages, at);
        zero_bin(&mut self.pages[number], at, len);
    }

    /// Copies `len` bytes from `from` on, which lie in one bin, to those from `to` on, which lie in one bin too, the same or
    /// another. The two ranges may overlap. It takes no memory.
    pub fn copy(&mut self, from: usize, to: usize, len: usize)
        requires source { IsInPart self.old.parts from len }
        requires fits { IsInPart self.old.parts to len }
        ensures items { self.new.items ≡ splice to (take len (drop from self.old.items)) self.old.items }
        ensures parts { self.new.parts ≡ self.old.parts }
        ensures room { self.new.room ≡ self.old.room }
    {
        if len == 0 {
            return;
        }
        let source = first_page(&self.pages, from);
        let target = first_page(&self.pages, to);
        if source == target {
            move_in_bin(&mut self.pages[source], from, to, len);
            return;
        }
        // The target is taken out for the copy, since both bins are of one vector.
        let none = Page {
            start: 0,
            bytes: Vec::new(self.alloc),
        };
        let mut bin = mem::replace(&mut self.pages[target], none);
        write_bin(&mut bin, to, bin_slice(&self.pages[source], from, len));
        self.pages[target] = bin;
    }

    /// The bytes of a bin to come, all zeros.
    pub fn blank(&self, size: usize) -> Result<Vec<u8>, AllocError>
        ensures { IfOk result (λ bytes. bytes.items ≡ replicate size 0) }
    {
        let mut bytes = Vec::new(self.alloc);
        bytes.resize(size, 0)?;
        Ok(bytes)
    }

    /// Room in the table of pages for bins of `more` bytes.
    pub fn reserve(&mut self, more: usize) -> Result<(), AllocError>
        requires { length self.old.items + more ≤ BINS_LIMIT }
        ensures items { self.new.items ≡ self.old.items }
        ensures parts { self.new.parts ≡ self.old.parts }
        ensures keeps { self.old.room ≤ self.new.room }
        ensures ok { OnOk result (length self.old.items + more / 4096 * 4096 ≤ self.new.room) }
    {
        self.pages.reserve(more / PAGE)?;
        self.room = self.pages.capacity();
        Ok(())
    }

    /// Appends a bin. There is room for it.
    pub fn push(&mut self, bytes: Vec<u8>)
        requires some { 0 < length bytes.items }
        requires pages { length bytes.items % 4096 ≡ 0 }
        requires limit { length self.old.items + length bytes.items ≤ BINS_LIMIT }
        requires room { length self.old.items + length bytes.items ≤ self.old.room }
        ensures items { self.new.items ≡ self.old.items ++ bytes.items }
        ensures parts { self.new.parts ≡ self.old.parts ++ length bytes.items ∷ [] }
        ensures room { self.new.room ≡ self.old.room }
    {
        let start = self.len();
        let more = bytes.len() / PAGE - 1;
        add_page(&mut self.pages, Page { start, bytes });
        add_pages(&mut self.pages, self.alloc, start, more);
    }
}

// There is room, so it can't fail.
fn add_page(pages: &mut Vec<Page>, page: Page)
    requires { vec_len pages.old < vec_capacity pages.old }
    ensures items { pages.new.items ≡ pages.old.items ++ page ∷ [] }
    ensures room { vec_capacity pages.old ≤ vec_capacity pages.new }
{
    let _ = pages.push(page);
}

// So many pages more of the bin that begins at `start`. There is room for them.
fn add_pages(pages: &mut Vec<Page>, alloc: Global, start: usize, more: usize)
    requires { vec_len pages.old + more ≤ vec_capacity pages.old }
    ensures items { (rest : List Page) × (pages.new.items ≡ pages.old.items ++ rest) × AreWithin start more rest }
    ensures room { vec_capacity pages.old ≤ vec_capacity pages.new }
{
    for _page in 0..more {
        add_page(
            pages,
            Page {
                start,
                bytes: Vec::new(alloc),
            },
        );
    }
}

// The number of the first page of the bin in which the byte at `at` lies.
fn first_page(pages: &[Page], at: usize) -> usize
    requires placed { ArePlaced 0 0 0 pages.now }
    requires inside { at < length (bytes_of pages.now) }
    ensures within { result < length pages.now }
    ensures bin { (bin : Page) → bin ≡ get_or pages.now result bin → IsBin pages.now at result bin }
{
    pages[at / PAGE].start / PAGE
}

// The bin in which the byte at `at` lies.
fn bin_of(pages: &[Page], at: usize) -> &Page
    requires placed { ArePlaced 0 0 0 pages.now }
    requires inside { at < length (bytes_of pages.now) }
    ensures { (number : ℕ) × IsBin pages.now at number result.now }
{
    let page = &pages[at / PAGE];
    if page.bytes.is_empty() {
        return &pages[page.start / PAGE];
    }
    page
}

fn bin_slice(bin: &Page, at: usize, len: usize) -> &[u8]
    requires from { bin.now.start ≤ at }
    requires to { at - bin.now.start + len ≤ length bin.now.bytes.items }
    ensures { result.now ≡ take len (drop (at - bin.now.start) bin.now.bytes.items) }
{
    let from = at - bin.start;
    &bin.bytes[from..from + len]
}

#[tactic(auto, unfolding(reg_heap::specs::ByteWords::splice))]
fn write_bin(bin: &mut Page, at: usize, bytes: &[u8])
    requires from { bin.old.start ≤ at }
    requires to { at - bin.old.start + length bytes.now ≤ length bin.old.bytes.items }
    ensures bytes { bin.new.bytes.items ≡ splice (at - bin.old.start) bytes.now bin.old.bytes.items }
    ensures start { bin.new.start ≡ bin.old.start }
{
    let from = at - bin.start;
    bin.bytes[from..from + bytes.len()].copy_from_slice(bytes);
}

#[tactic(auto, unfolding(reg_heap::specs::ByteWords::splice))]
fn zero_bin(bin: &mut Page, at: usize, len: usize)
    requires from { bin.old.start ≤ at }
    requires to { at - bin.old.start + len ≤ length bin.old.bytes.items }
    ensures bytes { bin.new.bytes.items ≡ splice (at - bin.old.start) (replicate len 0) bin.old.bytes.items }
    ensures start { bin.new.start ≡ bin.old.start }
{
    let from = at - bin.start;
    bin.bytes[from..from + len].fill(0);
}

#[tactic(auto, unfolding(reg_heap::specs::ByteWords::splice))]
fn move_in_bin(bin: &mut Page, from: usize, to: usize, len: usize)
    requires from { bin.old.start ≤ from }
    requires source { from - bin.old.start + len ≤ length bin.old.bytes.items }
    requires to { bin.old.start ≤ to }
    requires fits { to - bin.old.start + len ≤ length bin.old.bytes.items }
    ensures bytes { bin.new.bytes.items ≡ splice (to - bin.old.start) (take len (drop (from - bin.old.start) bin.old.bytes.items)) bin.old.bytes.items }
    ensures start { bin.new.start ≡ bin.old.start }
{
    let first = from - bin.start;
    bin.bytes.copy_within(first..first + len, to - bin.start);
}
