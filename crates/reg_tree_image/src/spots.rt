//! Where a walk of an image's keys is, so that the place of a fault can be told.

ghost use Rattle.std.specs.Prelude.{◌≡◌, ◌++◌, ◌∷◌, [], OnOk, IfErr, length, ◌<◌, ◌≤◌, ℕ, List, reverse};
ghost use Rattle.reg_tree_image.specs.declared.LoadFault.{LoadFault};

use crate::LoadFault;
use std::alloc::Global;

/// Where a walk is: what it reads, and of which key.
#[derive(Drop)]
pub struct WalkSpot {
    /// The offset of what is read.
    pub offset: u32,
    /// The offsets of the keys on the present path, from the root on. A key is one of them once its node was read.
    pub path: Vec<u32>,
}

/// Where a walk begins.
pub fn first_spot(alloc: Global) -> WalkSpot
    ensures { result.path.items ≡ [] }
{
    WalkSpot {
        offset: 0,
        path: Vec::new(alloc),
    }
}

/// A key whose node was read is on the present path.
pub fn enter_spot(spot: &mut WalkSpot, offset: u32) -> Result<(), LoadFault>
    ensures ok { OnOk result (spot.new.path.items ≡ spot.old.path.items ++ offset ∷ []) }
    ensures err { IfErr result (λ fault. fault ≡ LoadFault.Memory) }
{
    if spot.path.push(offset).is_err() {
        return Err(LoadFault::Memory);
    }
    Ok(())
}

/// The lowest key of the present path is left.
pub fn leave_spot(spot: &mut WalkSpot)
    ensures { (key : ℕ) → (above : List ℕ) → reverse spot.old.path.items ≡ key ∷ above → reverse spot.new.path.items ≡ above }
{
    let _ = spot.path.pop();
}
