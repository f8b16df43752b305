//! How a hive begins and ends.
ghost use Rattle.std.specs.Prelude.{◌≡◌, None, IfOk, IfErr, IfSome};
ghost use Rattle.reg_calls.specs.HiveView.{view_of};
ghost use Rattle.zugmeled.specs.Calls.{seen};
ghost use Rattle.zugmeled.specs.Lives.{IsFresh, IsNewRefused, IsNewTold, IsLoadedFrom, IsLoadRefused, IsFaultTold, IsLoadTold};
ghost use Rattle.zugmeled.specs.declared.lives.TheConstants.{VERSION as version_number};

use crate::hive::ZugHive;
use crate::input::Input;
use crate::statuses::{ALREADY_EXISTS, NOT_REGISTRY_FILE};
use reg_callbacks::NoCallback;
use reg_calls::{Hive, NewFault, SeatedHive};
use reg_image::{LoadFault, load};
use reg_model::statuses::{INVALID_PARAMETER, NOT_ENOUGH_MEMORY};
use std::alloc::Global;

/// This library's version, 1.0.0: 10,000 a version, 100 a lower one, and 1 a patch.
pub const VERSION: u32 = 10_000;

/// The version of the library that was linked.
#[unsafe(no_mangle)]
pub extern "C" fn zug_version() -> u32
    ensures { result ≡ version_number }
{
    VERSION
}

/// Seats all sessions at a hive, and puts it in a box. Nothing where there is no memory.
fn boxed(alloc: Global, hive: Hive<NoCallback>) -> Option<Box<SeatedHive<NoCallback>>>
    ensures { IfSome result (λ held. seen held.value ≡ view_of hive) }
{
    let Ok(seated) = SeatedHive::new(hive) else {
        return None;
    };
    match Box::new(alloc, seated) {
        Ok(held) => Some(held),
        Err(_) => None,
    }
}

/// A hive of one root, or 87 or 8.
fn fresh(
    alloc: Global,
    root_name: &[u8],
    descriptor: &[u8],
    moment: u64,
) -> Result<Box<SeatedHive<NoCallback>>, u32>
    ensures fresh { IfOk result (λ held. IsFresh root_name.now descriptor.now moment held.value) }
    ensures fault { IfErr result (λ status. IsNewRefused root_name.now descriptor.now status) }
{
    match Hive::new(alloc, root_name, descriptor, moment) {
        Ok(hive) => match boxed(alloc, hive) {
            Some(held) => Ok(held),
            None => Err(NOT_ENOUGH_MEMORY),
        },
        Err(NewFault::Memory) => Err(NOT_ENOUGH_MEMORY),
        Err(_) => Err(INVALID_PARAMETER),
    }
}

/// Makes a hive of one root.
#[unsafe(no_mangle)]
pub extern "C" fn zug_hive_new(
    alloc: Global,
    hive: &mut ZugHive,
    root_name: &[u8],
    descriptor: &[u8],
    moment: u64,
) -> u32
    ensures { IsNewTold root_name.now descriptor.now moment hive.old.held.value hive.new.held.value result }
{
    if hive.is_held() {
        return ALREADY_EXISTS;
    }
    match fresh(alloc, root_name, descriptor, moment) {
        Ok(held) => {
            hive.put(held);
            0
        }
        Err(status) => status,
    }
}

/// A hive of the image at the front of some bytes, or the fault.
fn loaded_from(alloc: Global, bytes: &[u8]) -> Result<Box<SeatedHive<NoCallback>>, LoadFault>
    ensures loaded { IfOk result (λ held. IsLoadedFrom bytes.now held.value) }
    ensures fault { IfErr result (λ fault. IsLoadRefused bytes.now fault) }
{
    let mut input = Input { bytes };
    match load(alloc, &mut input) {
        Ok(hive) => match boxed(alloc, hive) {
            Some(held) => Ok(held),
            None => Err(LoadFault::Memory),
        },
        Err(fault) => Err(fault),
    }
}

/// The status of a load that failed, and the number of its fault.
#[derive(Clone, Copy)]
struct Fault {
    status: u32,
    number: u8,
}

fn told(met: LoadFault) -> Fault
    ensures { IsFaultTold met result.status result.number }
{
    match met {
        LoadFault::Memory => Fault {
            status: NOT_ENOUGH_MEMORY,
            number: 0,
        },
        _ => Fault {
            status: NOT_REGISTRY_FILE,
            number: met.number(),
        },
    }
}

/// Loads a hive from the image at the front of some bytes.
#[unsafe(no_mangle)]
pub extern "C" fn zug_hive_load(
    alloc: Global,
    hive: &mut ZugHive,
    bytes: &[u8],
    fault: &mut u8,
) -> u32
    ensures { IsLoadTold bytes.now hive.old.held.value hive.new.held.value result fault.new }
{
    *fault = 0;
    if hive.is_held() {
        return ALREADY_EXISTS;
    }
    match loaded_from(alloc, bytes) {
        Ok(held) => {
            hive.put(held);
            0
        }
        Err(met) => {
            let told = told(met);
            *fault = told.number;
            told.status
        }
    }
}

/// Ends a hive: nothing where there is none.
#[unsafe(no_mangle)]
pub extern "C" fn zug_hive_close(alloc: Global, hive: &mut ZugHive)
    ensures { hive.new.held.value ≡ None }
{
    drop(hive.take(alloc));
}
