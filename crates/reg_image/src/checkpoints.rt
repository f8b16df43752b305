//! A hive's image, behind which its journal begins anew.

ghost use Rattle.std.specs.Prelude.{◌≡◌, ℕ, None, Ok, OnOk, OnErr, IfOk, IfErr, Some, length, slice_index};
ghost use Rattle.reg_journal.specs.Kept.{Seat, IsCurrent, row_of};
ghost use Rattle.reg_calls.specs.Cuts.{fault_of_cut, IsCut};
ghost use Rattle.reg_calls.specs.HiveView.{view_of, noted_of, callbacks_of};
ghost use Rattle.reg_calls.specs.Views.{View};
ghost use Rattle.reg_image.specs.Checkpoints.{fault_of_checkpoint};
ghost use Rattle.reg_tree_image.specs.Images.{image_of, loaded};
ghost use Rattle.reg_tree_image.specs.Loads.{HoldsOwn};

use crate::writing::image;
use reg_callbacks::Callback;
use reg_calls::{CutFault, Hive};
use std::alloc::Global;
use thiserror::Error;

/// Why no checkpoint was made; the first that holds.
#[derive(Clone, Copy, Debug, PartialEq, Eq, Error)]
pub enum CheckpointFault {
    /// Handles are open; the number is that of open handles.
    #[error("{count} handles are open")]
    HandlesOpen { count: u32 },
    /// The hive has had more than 10^18 entries.
    #[error("more than 10^18 entries")]
    Numbers,
    /// A growth was refused.
    #[error("no memory")]
    Memory,
}

/// The fault of a checkpoint, where the journal can't begin anew.
fn told(fault: CutFault) -> CheckpointFault
    ensures { (v : View) → fault_of_cut v ≡ Some fault → result ≡ fault_of_checkpoint v }
{
    match fault {
        CutFault::HandlesOpen { count } => CheckpointFault::HandlesOpen { count },
        CutFault::Numbers => CheckpointFault::Numbers,
    }
}

/// The image of a hive, with a moment (100 ns units since 1601) and a sequence number, as [`image`](crate::image) makes it; and its
/// journal begins anew, as [`Hive::cut`] says. What the image loads as is the new journal's origin (clauses `loads`, `cut`),
/// and a load of it may lack memory, and nothing else (clause `own`).
///
/// `HandlesOpen` where handles are open, with how many; else `Numbers` where the hive has had more than 10^18 entries; else `Memory` where
/// there is none for the image (clauses `fault`, `clear`). Then nothing changed.
pub fn checkpoint<C: Callback>(
    alloc: Global,
    hive: &mut Hive<C>,
    moment: u64,
    sequence: u32,
) -> Result<Vec<u8>, CheckpointFault>
    ensures is { IfOk result (λ bytes. bytes.items
        ≡ image_of (view_of hive.old).keys.bins.bytes (view_of hive.old).keys.root moment sequence) }
    ensures loads { IfOk result (λ bytes. loaded bytes.items ≡ Ok (view_of hive.old).keys.tree) }
    ensures own { IfOk result (λ bytes. HoldsOwn bytes.items) }
    ensures cut { OnOk result (IsCut (view_of hive.old) (view_of hive.new)) }
    ensures seats { length (noted_of hive.new) ≡ length (noted_of hive.old) }
    ensures noted { OnOk result ((session : ℕ) →
        slice_index (noted_of hive.new) session ≡ row_of (noted_of hive.old) (view_of hive.old).journal session) }
    ensures current { (share : Seat) → IsCurrent (noted_of hive.old) (view_of hive.old).journal share →
        IsCurrent (noted_of hive.new) (view_of hive.new).journal share }
    ensures callbacks { callbacks_of hive.new ≡ callbacks_of hive.old }
    ensures clear { OnOk result (fault_of_cut (view_of hive.old) ≡ None) }
    ensures fault { IfErr result (λ fault. fault ≡ fault_of_checkpoint (view_of hive.old)) }
    ensures err { OnErr result (hive.new ≡ hive.old) }
{
    match hive.cut_fault() {
        Some(fault) => return Err(told(fault)),
        None => {}
    }
    let Ok(bytes) = image(alloc, hive, moment, sequence) else {
        return Err(CheckpointFault::Memory);
    };
    match hive.cut() {
        Ok(_) => Ok(bytes),
        Err(_) => unreachable!(),
    }
}
