//! The refusal that a change would meet.
ghost use Rattle.std.specs.Prelude.{◌≡◌, ◌⊎◌, ◌<◌, Ok, Some, IfOk, OnErr, IsErr};
ghost use Rattle.reg_model.specs.declared.limits.TheConstants.{SESSIONS_LIMIT};
ghost use Rattle.zugmeled.specs.Calls.{IsLack};
ghost use Rattle.zugmeled.specs.Causes.{cause_at, IsCause, IsCauseOf, MayTakeMemory};
ghost use Rattle.zugmeled.specs.Makers.{change_of};
ghost use Rattle.zugmeled.specs.Told.{or_zero};

use crate::calls::lack;
use crate::hive::ZugHive;
use crate::makers;
use reg_callbacks::NoCallback;
use reg_calls::SeatedHive;
use reg_model::Change;
use reg_model::limits::SESSIONS_LIMIT;
use reg_model::statuses::{INVALID_HANDLE, INVALID_PARAMETER};
use std::alloc::{AllocError, Global};

fn some(made: Result<Change, AllocError>) -> Result<Option<Change>, AllocError>
    ensures made { IfOk made (λ change. result ≡ Ok (Some change)) }
    ensures lack { OnErr made (IsErr result) }
{
    match made {
        Ok(change) => Ok(Some(change)),
        Err(lack) => Err(lack),
    }
}

/// The change of a number, with a copy of what it needs.
fn made(
    alloc: Global,
    change: u32,
    handle: u64,
    text: &[u8],
    number: u32,
    bytes: &[u8],
    below: bool,
) -> Result<Option<Change>, AllocError>
    ensures made { IfOk result (λ made. made ≡ change_of change handle text.now number bytes.now below) }
    ensures lack { OnErr result (MayTakeMemory (change_of change handle text.now number bytes.now below)) }
{
    if change == 0 {
        return Ok(Some(Change::OpenRoot { mask: number }));
    }
    if change == 1 {
        return some(makers::open_key(alloc, handle, text, number));
    }
    if change == 2 {
        return some(makers::create_key(alloc, handle, text, number, bytes));
    }
    if change == 3 {
        return some(makers::set_value(alloc, handle, text, number, bytes));
    }
    if change == 4 {
        return some(makers::delete_value(alloc, handle, text));
    }
    if change == 5 {
        return some(makers::delete_key(alloc, handle, text));
    }
    if change == 6 {
        return some(makers::delete_tree(alloc, handle, text));
    }
    if change == 7 {
        return some(makers::set_security(alloc, handle, bytes));
    }
    if change == 8 {
        return Ok(Some(Change::Notify {
            handle,
            filter: number,
            subtree: below,
        }));
    }
    if change == 9 {
        return Ok(Some(Change::Close { handle }));
    }
    Ok(None)
}

/// What a change of a session, below 64, would be refused with, or 0.
fn refusal_of(held: &SeatedHive<NoCallback>, session: u8, moment: u64, change: &Change) -> u32
    requires { session < SESSIONS_LIMIT }
    ensures { result ≡ or_zero (cause_at held.now session moment change.now) }
{
    held.hive
        .cause(&held.shares[session as usize], moment, change)
        .unwrap_or(0)
}

/// The same of a session and a change that may be none.
fn refusal_if(
    held: &SeatedHive<NoCallback>,
    session: u8,
    moment: u64,
    change: Option<Change>,
) -> u32
    ensures { IsCauseOf held.now session moment change result }
{
    if session as usize >= SESSIONS_LIMIT {
        return INVALID_PARAMETER;
    }
    match change {
        Some(change) => refusal_of(held, session, moment, &change),
        None => INVALID_PARAMETER,
    }
}

/// The same of the hive that C holds.
fn cause(alloc: Global, hive: &mut ZugHive, session: u8, moment: u64, change: Option<Change>) -> u32
    ensures same { hive.new.held.value ≡ hive.old.held.value }
    ensures cause { IsCause hive.old.held.value session moment change result }
{
    let Some(held) = hive.take(alloc) else {
        return INVALID_HANDLE;
    };
    let status = refusal_if(&*held, session, moment, change);
    hive.put(held);
    status
}

/// What a change would be refused with, or 0 where it wouldn't. `change` is its number, in the order of [`Change`]; `text` is its path or
/// name, `number` its mask, type or filter, `bytes` its descriptor or data, and `below` whether a watch is of the keys below too.
#[unsafe(no_mangle)]
pub extern "C" fn zug_cause(
    alloc: Global,
    hive: &mut ZugHive,
    session: u8,
    moment: u64,
    change: u32,
    handle: u64,
    text: &[u8],
    number: u32,
    bytes: &[u8],
    below: bool,
) -> u32
    ensures same { hive.new.held.value ≡ hive.old.held.value }
    ensures told { (MayTakeMemory (change_of change handle text.now number bytes.now below) × IsLack hive.old.held.value session result)
        ⊎ IsCause hive.old.held.value session moment (change_of change handle text.now number bytes.now below) result }
{
    match made(alloc, change, handle, text, number, bytes, below) {
        Ok(made) => cause(alloc, hive, session, moment, made),
        Err(_) => lack(alloc, hive, session),
    }
}
