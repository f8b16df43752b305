//! How many entries a hive had, and a journal that begins anew.
ghost use Rattle.std.specs.Prelude.{◌≡◌};
ghost use Rattle.zugmeled.specs.Journals.{IsCounted, IsCutTold, cut_status};

use crate::hive::ZugHive;
use crate::statuses::BUSY;
use reg_calls::CutFault;
use reg_model::statuses::{INVALID_HANDLE, NO_SYSTEM_RESOURCES};
use std::alloc::Global;

/// How many entries the hive has had, and how many of them its journal keeps.
#[unsafe(no_mangle)]
pub extern "C" fn zug_entries(
    alloc: Global,
    hive: &mut ZugHive,
    entries: &mut u64,
    kept: &mut u64,
) -> u32
    ensures same { hive.new.held.value ≡ hive.old.held.value }
    ensures counted { IsCounted hive.old.held.value result entries.new kept.new }
{
    let Some(held) = hive.take(alloc) else {
        *entries = 0;
        *kept = 0;
        return INVALID_HANDLE;
    };
    *entries = held.hive.len() as u64;
    *kept = held.hive.entries().len() as u64;
    hive.put(held);
    0
}

/// The status of a cut that wasn't made.
fn told(fault: CutFault) -> u32
    ensures { result ≡ cut_status fault }
{
    match fault {
        CutFault::HandlesOpen { count: _ } => BUSY,
        CutFault::Numbers => NO_SYSTEM_RESOURCES,
    }
}

/// Has the hive's journal begin anew; `cut` is how many entries it kept.
#[unsafe(no_mangle)]
pub extern "C" fn zug_hive_cut(alloc: Global, hive: &mut ZugHive, cut: &mut u64) -> u32
    ensures { IsCutTold hive.old.held.value hive.new.held.value result cut.new }
{
    *cut = 0;
    let Some(mut held) = hive.take(alloc) else {
        return INVALID_HANDLE;
    };
    let done = held.cut();
    hive.put(held);
    match done {
        Ok(count) => {
            *cut = count;
            0
        }
        Err(fault) => told(fault),
    }
}
