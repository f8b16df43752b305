//! Notices, handed out.
ghost use Rattle.std.specs.Prelude.{◌≡◌};
ghost use Rattle.zugmeled.specs.Notices.{IsNoticeTold};

use crate::hive::ZugHive;
use crate::told::reason_told;
use reg_model::limits::SESSIONS_LIMIT;
use reg_model::statuses::{INVALID_HANDLE, INVALID_PARAMETER, NO_MORE_ITEMS};
use std::alloc::Global;

/// Hands out a session's next notice: of which watch it is, the number of the entry that ended the watch, and why.
#[unsafe(no_mangle)]
pub extern "C" fn zug_take_notice(
    alloc: Global,
    hive: &mut ZugHive,
    session: u8,
    watch: &mut u64,
    entry: &mut u64,
    reason: &mut u32,
) -> u32
    ensures { IsNoticeTold hive.old.held.value hive.new.held.value session result watch.new entry.new reason.new }
{
    *watch = 0;
    *entry = 0;
    *reason = 0;
    let Some(mut held) = hive.take(alloc) else {
        return INVALID_HANDLE;
    };
    if session as usize >= SESSIONS_LIMIT {
        hive.put(held);
        return INVALID_PARAMETER;
    }
    let notice = held.take_notice(session);
    hive.put(held);
    let Some(notice) = notice else {
        return NO_MORE_ITEMS;
    };
    *watch = notice.watch;
    *entry = notice.by;
    *reason = reason_told(notice.reason);
    0
}
