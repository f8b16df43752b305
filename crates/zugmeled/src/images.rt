//! A hive's image, a part at a time.
ghost use Rattle.std.specs.Prelude.{◌≡◌};
ghost use Rattle.zugmeled.specs.Images.{IsSizeTold, IsPartTold};

use crate::hive::ZugHive;
use reg_model::statuses::{INVALID_HANDLE, INVALID_PARAMETER};
use reg_tree_image::image_part;
use std::alloc::Global;

/// How many bytes the hive's image has, and how many entries the hive has had.
#[unsafe(no_mangle)]
pub extern "C" fn zug_image_size(
    alloc: Global,
    hive: &mut ZugHive,
    size: &mut u64,
    entries: &mut u64,
) -> u32
    ensures same { hive.new.held.value ≡ hive.old.held.value }
    ensures told { IsSizeTold hive.old.held.value result size.new entries.new }
{
    let Some(held) = hive.take(alloc) else {
        *size = 0;
        *entries = 0;
        return INVALID_HANDLE;
    };
    *size = 4096 + held.hive.arena().bins_size() as u64;
    *entries = held.hive.len() as u64;
    hive.put(held);
    0
}

/// Copies the bytes of the hive's image from an offset on to a room.
#[unsafe(no_mangle)]
pub extern "C" fn zug_image_part(
    alloc: Global,
    hive: &mut ZugHive,
    moment: u64,
    sequence: u32,
    entries: u64,
    offset: u64,
    room: &mut [u8],
) -> u32
    ensures same { hive.new.held.value ≡ hive.old.held.value }
    ensures told { IsPartTold hive.old.held.value moment sequence entries offset result room.old room.new }
{
    let Some(held) = hive.take(alloc) else {
        return INVALID_HANDLE;
    };
    if held.hive.len() as u64 != entries {
        hive.put(held);
        return INVALID_PARAMETER;
    }
    image_part(held.hive.tree(), moment, sequence, offset, room);
    hive.put(held);
    0
}
