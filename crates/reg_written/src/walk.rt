//! The walk over the ring of securities.

ghost use Rattle.std.specs.Prelude.{◌≡◌, ◌↔◌, ℕ, List, None, IsSome, IsTrue, IfOk, MatchBool};
ghost use Rattle.std.specs.List.{AllByRecursion};
ghost use Rattle.std.specs.Ordering.{nat_cmp};
ghost use Rattle.std.specs.BTreeMap.{get};
ghost use Rattle.reg_arena.specs.Cells.{cell_at};
ghost use Rattle.reg_records.specs.KeySecurities.{security_at};
ghost use Rattle.reg_written.specs.SecurityRings.{IsRingOf};
ghost use Rattle.reg_written.specs.Internal.RingWalks.{AreUses, IsFit, IsNext, IsRound, IsWay};
ghost use Rattle.reg_written.specs.Internal.WalkStates.{way_of};

use crate::descriptors::MetDescriptors;
use crate::securities::{is_standing, read};
use std::alloc::{AllocError, Global};
use std::collections::BTreeMap;

/// How far a walk over a ring of securities has come, which goes from each one to that which it names as the next.
#[derive(Drop)]
pub struct RingWalk {
    /// How often each of the securities is used that the walk hasn't gone through.
    left: BTreeMap<u32, u64>,
    /// The descriptors of those that it has gone through.
    met: MetDescriptors,
    /// Those that it has gone through.
    ring: Vec<u32>,
    /// The last of these; at the start the one that the first names as the one before it.
    before: u32,
    /// The next.
    at: u32,
}

impl RingWalk {
    /// At the first of the securities that are used so often.
    pub fn start(alloc: Global, bins: &[u8], first: u32, uses: BTreeMap<u32, u64>) -> RingWalk
        requires { IsSome (security_at (cell_at bins.now) first) }
        ensures first { result.at ≡ first }
        ensures way { (used : List ℕ) → AreUses (get nat_cmp uses) used →
            IsWay (cell_at bins.now) used result.at result.before (way_of result) }
    {
        RingWalk {
            left: uses,
            met: MetDescriptors::new(alloc),
            ring: Vec::new(alloc),
            before: read(bins, first).fields.blink,
            at: first,
        }
    }

    /// Goes through the next security, which is used so often, and tells whether the ring may go on with it: it is as this project
    /// writes it, names the last one as the one before it, counts how often it is used, and none has had its descriptor. It fails where
    /// memory runs out.
    fn go_on(&mut self, alloc: Global, bins: &[u8], count: u64) -> Result<bool, AllocError>
        requires { IsSome (security_at (cell_at bins.now) self.old.at) }
        ensures next { IfOk result (λ fit. MatchBool fit (IsNext (cell_at bins.now) count (way_of self.old) (way_of self.new))
            (IsFit (cell_at bins.now) self.old.at self.old.before count (way_of self.old).met → ⊥)) }
        ensures left { self.new.left ≡ self.old.left }
    {
        let security = read(bins, self.at);
        if !is_standing(bins, self.at, self.before, count) {
            return Ok(false);
        }
        if !self.met.meet(alloc, security.descriptor)? {
            return Ok(false);
        }
        self.ring.push(self.at)?;
        self.before = self.at;
        self.at = security.fields.flink;
        Ok(true)
    }

    /// Whether the walk is back at the first, from the last, and has gone through all.
    fn is_closed(&self, first: u32, last: u32) -> bool
        ensures { IsTrue result ↔ ((self.now.at ≡ first) × (self.now.before ≡ last)
            × ((offset : ℕ) → get nat_cmp self.now.left offset ≡ None)) }
    {
        if self.at != first || self.before != last {
            return false;
        }
        self.left.is_empty()
    }

    /// Goes round, from the start on, and tells whether this is a ring of just the securities that are used. It fails where memory runs
    /// out.
    pub fn go_round(&mut self, alloc: Global, bins: &[u8]) -> Result<bool, AllocError>
        requires { (used : List ℕ) × AllByRecursion (λ offset. IsSome (security_at (cell_at bins.now) offset)) used
            × IsWay (cell_at bins.now) used self.old.at self.old.before (way_of self.old) }
        ensures { IfOk result (λ round. (used : List ℕ) →
            IsWay (cell_at bins.now) used self.old.at self.old.before (way_of self.old) →
            MatchBool round (IsRingOf (cell_at bins.now) used self.new.ring.items)
            ((whole : List ℕ) → IsRound (cell_at bins.now) used self.old.at self.old.before whole → ⊥)) }
    {
        let first = self.at;
        let last = self.before;
        while let Some(count) = self.left.remove(&self.at) {
            if !self.go_on(alloc, bins, count)? {
                return Ok(false);
            }
        }
        Ok(self.is_closed(first, last))
    }

    /// What the walk has gone through.
    pub fn into_ring(self) -> Vec<u32>
        ensures { result.items ≡ self.ring.items }
    {
        self.ring
    }
}
