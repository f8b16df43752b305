//! The ring of securities.

ghost use Rattle.std.specs.Prelude.{◌≡◌, ℕ, List, IsSome, IfOk, MatchOption};
ghost use Rattle.std.specs.List.{AllByRecursion};
ghost use Rattle.reg_arena.specs.Cells.{cell_at};
ghost use Rattle.reg_records.specs.KeySecurities.{security_at};
ghost use Rattle.reg_written.specs.SecurityRings.{IsRingOf};

use crate::uses::uses_of;
use crate::walk::RingWalk;
use std::alloc::{AllocError, Global};

/// The ring of the securities that are used, each once for each time, from the first of them on: each leads to the next and back, none is
/// left out, no two have equal descriptors, each is as this project writes it and counts how often it is used. `None` where there is no
/// such ring. It fails where memory runs out.
pub fn ring_of(alloc: Global, bins: &[u8], used: &[u32]) -> Result<Option<Vec<u32>>, AllocError>
    requires { AllByRecursion (λ offset. IsSome (security_at (cell_at bins.now) offset)) used.now }
    ensures { IfOk result (λ found. MatchOption found ((ring : List ℕ) → IsRingOf (cell_at bins.now) used.now ring → ⊥)
        (λ ring. IsRingOf (cell_at bins.now) used.now ring.items)) }
{
    if used.is_empty() {
        return Ok(Some(Vec::new(alloc)));
    }
    let mut walk = RingWalk::start(alloc, bins, used[0], uses_of(alloc, used)?);
    if !walk.go_round(alloc, bins)? {
        return Ok(None);
    }
    Ok(Some(walk.into_ring()))
}
