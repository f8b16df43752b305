//! The rows of the table by their handles' numbers.
ghost use Rattle.std.specs.Prelude.{◌≡◌, ◌+◌, ◌^◌, ◌<◌, ◌++◌, ◌∷◌, [], length, All, OnOk, option_copied};
ghost use Rattle.std.specs.Ordering.{nat_cmp};
ghost use Rattle.std.specs.BTreeMap.{is_at};
ghost use Rattle.std.specs.HashMap.{spare};
ghost use Rattle.std.specs.Map.{lookup, remove_entry};
ghost use Rattle.reg_handles.specs.Internal.OrderedRows.{ordered};

use std::alloc::{AllocError, Global};
use std::collections::HashMap;

/// An open handle: its session, its rights, and where its key stands among the open keys.
#[derive(Clone, Copy, Drop)]
pub struct Row {
    pub session: u8,
    pub mask: u32,
    pub key: usize,
}

/// The rows by number. Clauses see them in the order of their numbers, which the map leaves open.
#[derive(Drop)]
pub struct Rows {
    by_number: HashMap<u64, Row>,
}

impl Rows {
    /// No rows.
    pub fn new(alloc: Global) -> Rows
        ensures { ordered result.by_number.entries ≡ [] }
    {
        Rows {
            by_number: HashMap::new(alloc),
        }
    }

    /// How many rows there are.
    pub fn len(&self) -> usize
        ensures len { result ≡ length (ordered self.now.by_number.entries) }
        ensures small { result < 2 ^ 63 }
    {
        self.by_number.len()
    }

    /// The row of a number.
    pub fn get(&self, number: u64) -> Option<&Row>
        ensures { option_copied result ≡ lookup (is_at (nat_cmp number)) (ordered self.now.by_number.entries) }
    {
        self.by_number.get(&number)
    }

    /// Makes room for a row more. Where memory is short, the rows are as before.
    pub fn reserve(&mut self) -> Result<(), AllocError>
        ensures room { OnOk result (0 < spare self.new.by_number) }
        ensures rows { ordered self.new.by_number.entries ≡ ordered self.old.by_number.entries }
    {
        self.by_number.reserve(1)
    }

    /// Puts a row behind all others.
    pub fn push(&mut self, number: u64, row: Row)
        requires room { 0 < spare self.old.by_number }
        requires above { All (λ e. e.0 < number) (ordered self.old.by_number.entries) }
        ensures { ordered self.new.by_number.entries ≡ ordered self.old.by_number.entries ++ (number, row) ∷ [] }
    {
        match self.by_number.insert(number, row) {
            Ok(_) => {}
            Err(_) => unreachable!(),
        }
    }

    /// Takes out the row of a number.
    pub fn remove(&mut self, number: u64) -> Option<Row>
        ensures row { result ≡ lookup (is_at (nat_cmp number)) (ordered self.old.by_number.entries) }
        ensures rest { ordered self.new.by_number.entries ≡ remove_entry (is_at (nat_cmp number)) (ordered self.old.by_number.entries) }
    {
        self.by_number.remove(&number)
    }
}
