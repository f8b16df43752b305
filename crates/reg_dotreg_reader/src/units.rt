//! Units that contracts see as a list.
ghost use Rattle.std.specs.Prelude.{◌≡◌, IfOk};

use std::alloc::{AllocError, Global};
use std::marker::Model;

/// Units of UTF-16 that contracts see as a list.
#[derive(Debug, Drop)]
pub struct Units {
    items: Vec<u16>,
}

impl Model for Units {
    ghost use Rattle.std.specs.Prelude.{List, ℕ};

    ghost Value = { List ℕ };

    ghost view = { λ u. u.items.items };
}

impl Units {
    /// A copy of a slice's units. Its one fault is that memory was refused.
    pub fn from_slice(alloc: Global, units: &[u16]) -> Result<Units, AllocError>
        ensures { IfOk result (λ copy. copy ≡ units.now) }
    {
        if units.is_empty() {
            return Ok(Units {
                items: Vec::new(alloc),
            });
        }
        let items = Vec::from_slice(alloc, units)?;
        Ok(Units { items })
    }

    /// The units, lent.
    pub fn as_slice(&self) -> &[u16]
        ensures { result.now ≡ self.now }
    {
        self.items.as_slice()
    }
}
