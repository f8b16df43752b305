//! How often each security is used.

ghost use Rattle.std.specs.Prelude.{◌≡◌, ◌+◌, ◌-◌, ◌<◌, ◌≤◌, ◌^◌, ℕ, Some, unwrap_or, cond, eqb, length, take, slice_index, IfOk, OnOk};
ghost use Rattle.std.specs.Ordering.{nat_cmp};
ghost use Rattle.std.specs.BTreeMap.{get};
ghost use Rattle.reg_heap.specs.Kinds.{times};
ghost use Rattle.reg_written.specs.Internal.RingWalks.{AreUses};

use std::alloc::{AllocError, Global};
use std::collections::BTreeMap;

/// Where those that are equal to one in a row with it end.
fn run_end(used: &[u32], start: usize) -> usize
    requires { start < length used.now }
    ensures within { (start < result) × (result ≤ length used.now) }
    ensures run { (offset : ℕ) → times offset (take result used.now)
        ≡ times offset (take start used.now) + cond (eqb (slice_index used.now start) offset) (result - start) 0 }
{
    let first = used[start];
    for end in start + 1..used.len() {
        if used[end] != first {
            return end;
        }
    }
    used.len()
}

/// Adds to how often an offset is used. It fails where memory runs out.
fn add(uses: &mut BTreeMap<u32, u64>, offset: u32, more: u64) -> Result<(), AllocError>
    requires { unwrap_or (get nat_cmp uses.old offset) 0 + more < 2 ^ 64 }
    ensures { OnOk result ((other : ℕ) → get nat_cmp uses.new other
        ≡ cond (eqb offset other) (Some (unwrap_or (get nat_cmp uses.old offset) 0 + more)) (get nat_cmp uses.old other)) }
{
    if let Some(held) = uses.get_mut(&offset) {
        *held += more;
        return Ok(());
    }
    let Ok(_) = uses.insert(offset, more) else {
        return Err(AllocError);
    };
    Ok(())
}

/// How often each of these offsets is used. One that is used many times in a row is looked up once. It fails where memory runs out.
pub fn uses_of(alloc: Global, used: &[u32]) -> Result<BTreeMap<u32, u64>, AllocError>
    ensures { IfOk result (λ uses. AreUses (get nat_cmp uses) used.now) }
{
    let mut uses = BTreeMap::new(alloc);
    let mut start = 0;
    while start < used.len() {
        let end = run_end(used, start);
        add(&mut uses, used[start], (end - start) as u64)?;
        start = end;
    }
    Ok(uses)
}
