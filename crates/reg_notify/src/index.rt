//! Texts, each with the number of a watch.
ghost use Rattle.std.specs.Prelude.{◌≡◌, ◌<◌, ℕ, List, None, Some, OnOk, OnErr, IfSome, IfNone, true};
ghost use Rattle.std.specs.BTreeMap.{btree_map_len};
ghost use Rattle.std.specs.List.{starts_with};
ghost use Rattle.std.specs.Prelude.{nat_eq};
ghost use Rattle.reg_notify.specs.Internal.Indexes.{UpdatesText};
ghost use Rattle.reg_model.specs.Internal.TextNumbers.{number_at, goes_on};

use std::alloc::{AllocError, Global};
use std::collections::BTreeMap;
use std::ops::Bound;

/// The number at each text.
#[derive(Drop)]
pub struct Index {
    pub by_text: BTreeMap<Vec<u8>, u64>,
}

impl Index {
    /// No texts.
    pub fn new(alloc: Global) -> Index
        ensures { (text : List ℕ) → number_at result.by_text.entries text ≡ None }
    {
        Index {
            by_text: BTreeMap::new(alloc),
        }
    }

    /// Puts a number at a text. Where memory is short, nothing has changed.
    pub fn insert(&mut self, text: Vec<u8>, number: u64) -> Result<(), AllocError>
        ensures ok { OnOk result (UpdatesText (number_at self.old.by_text.entries) text.items (Some number) (number_at self.new.by_text.entries)) }
        ensures err { OnErr result (self.new.by_text.entries ≡ self.old.by_text.entries) }
    {
        self.by_text.insert(text, number)?;
        Ok(())
    }

    /// Takes out a text.
    pub fn remove(&mut self, text: &[u8])
        ensures { UpdatesText (number_at self.old.by_text.entries) text.now None (number_at self.new.by_text.entries) }
    {
        self.by_text.remove(text);
    }

    /// The number at the first of the texts that begin with another and are longer.
    pub fn first_past(&self, start: &Vec<u8>) -> Option<u64>
        ensures some { IfSome result (λ number. (text : List ℕ) × (goes_on start.now.items text ≡ true) × (number_at self.now.by_text.entries text ≡ Some number)) }
        ensures none { IfNone result ((text : List ℕ) → goes_on start.now.items text ≡ true → number_at self.now.by_text.entries text ≡ None) }
    {
        let mut behind = self
            .by_text
            .range((Bound::Excluded(start), Bound::Unbounded));
        match behind.next() {
            Some((text, number)) if begins(text, start) => Some(*number),
            _ => None,
        }
    }
}

/// Whether a text begins with another.
fn begins(text: &Vec<u8>, start: &Vec<u8>) -> bool
    ensures { result ≡ starts_with nat_eq text.now.items start.now.items }
{
    text.as_slice().starts_with(start.as_slice())
}
