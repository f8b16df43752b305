//! Which keys may be watched: a mark for each key that is.
ghost use Rattle.std.specs.Prelude.{◌≡◌, ◌<◌, ◌≤◌, ◌==◌, ◌&&◌, ℕ, List, [], true, OnOk, vec_len};
ghost use Rattle.reg_notify.specs.declared.marks.TheConstants.{MARKS};
ghost use Rattle.reg_notify.specs.Internal.Marks.{slot_past, slot_from, slot_of, mark_in, is_marked, any_from};

use std::alloc::{AllocError, Global};

/// How many marks there are; keys share them.
pub const MARKS: usize = 262_144;

/// For each key that is watched the mark at its slot, a number that is made of its text byte by byte. A key whose slot has no mark is
/// not watched; one whose slot has a mark may share it with a key that is, or was.
#[derive(Drop)]
pub struct Marks {
    pub slots: Vec<bool>,
}

impl Marks {
    /// No marks, and no memory for them yet.
    pub fn new(alloc: Global) -> Marks
        ensures { result.slots.items ≡ [] }
    {
        Marks {
            slots: Vec::new(alloc),
        }
    }

    /// Marks a key, by its text. Where memory is refused, no mark is gone.
    pub fn set(&mut self, text: &[u8]) -> Result<(), AllocError>
        ensures ok { OnOk result (is_marked self.new.slots.items text.now ≡ true) }
        ensures kept { (other : List ℕ) → is_marked self.old.slots.items other ≡ true → is_marked self.new.slots.items other ≡ true }
    {
        let slot = slot_of(text);
        lengthen(&mut self.slots)?;
        self.slots[slot] = true;
        Ok(())
    }

    /// Whether a key has a mark, or one above it has.
    pub fn any_above(&self, text: &[u8]) -> bool
        ensures { result ≡ any_from text.now self.now.slots.items 0 }
    {
        let mut slot = 0;
        for byte in text {
            if self.has_before(slot, *byte) {
                return true;
            }
            slot = slot_past(slot, *byte);
        }
        self.has(slot)
    }

    /// Whether a slot has a mark, and its text ends before that byte: at a backslash.
    fn has_before(&self, slot: usize, byte: u8) -> bool
        ensures { result ≡ (byte == 92 && mark_in self.now.slots.items slot) }
    {
        byte == b'\\' && self.has(slot)
    }

    /// Whether a slot has a mark.
    fn has(&self, slot: usize) -> bool
        ensures { result ≡ mark_in self.now.slots.items slot }
    {
        match self.slots.get(slot) {
            Some(mark) => *mark,
            None => false,
        }
    }
}

/// Makes room for all marks; those that are new say nothing.
fn lengthen(slots: &mut Vec<bool>) -> Result<(), AllocError>
    ensures same { (slot : ℕ) → mark_in slots.new.items slot ≡ mark_in slots.old.items slot }
    ensures ok { OnOk result (MARKS ≤ vec_len slots.new) }
{
    if MARKS <= slots.len() {
        return Ok(());
    }
    slots.resize(MARKS, false)
}

/// The slot of a text.
fn slot_of(text: &[u8]) -> usize
    ensures slot { result ≡ slot_of text.now }
    ensures below { result < MARKS }
{
    let mut slot = 0;
    for byte in text {
        slot = slot_past(slot, *byte);
    }
    slot
}

/// The slot of a text with a byte more.
fn slot_past(slot: usize, byte: u8) -> usize
    requires { slot < MARKS }
    ensures slot { result ≡ slot_past slot byte }
    ensures below { result < MARKS }
{
    (slot * 31 + byte as usize) % MARKS
}
