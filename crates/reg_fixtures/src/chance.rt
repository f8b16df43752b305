//! Numbers taken at random, the same ones for a seed on each run.
ghost use Rattle.std.specs.Prelude.{◌≡◌, ◌<◌};

use rand_core::utils::NextWord;
use rand_pcg::Pcg32;

/// What numbers are taken from.
#[derive(Drop)]
pub struct Chance {
    words: Pcg32,
}

impl Chance {
    /// The numbers of a seed.
    pub fn new(seed: u64) -> Chance {
        Chance {
            words: Pcg32::new(seed, 54),
        }
    }

    /// A number of 32 bits.
    pub fn word(&mut self) -> u32 {
        self.words.next_word()
    }

    /// A number below a bound, 0 below 0.
    pub fn below(&mut self, bound: usize) -> usize
        ensures { 0 < bound → result < bound }
    {
        match (self.word() as usize).checked_rem(bound) {
            Some(number) => number,
            None => 0,
        }
    }

    /// One of these items; `None` of none.
    pub fn item_of<T: Copy>(&mut self, items: &[T]) -> Option<T> {
        let index = self.below(items.len());
        items.get(index).copied()
    }

    /// One of these bytes, 0 of none.
    pub fn byte_of(&mut self, bytes: &[u8]) -> u8 {
        self.item_of(bytes).unwrap_or(0)
    }

    /// A byte.
    pub fn byte(&mut self) -> u8 {
        self.word().to_le_bytes()[0]
    }
}
