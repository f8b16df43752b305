//! The calls of the rules, answered by the hive that C holds.
ghost use Rattle.std.specs.Prelude.{◌≡◌, ℕ, IfOk, OnErr};
ghost use Rattle.reg_model.specs.Replies.{refusal};
ghost use Rattle.reg_model.specs.declared.call.Query.TheVariants.{QueryValue, EnumKey};
ghost use Rattle.reg_calls.specs.Rooms.{size_of, asked_of, TellsValue, TellsKey};
ghost use Rattle.zugmeled.specs.Calls.{IsChanged, IsAsked, IsLack, due_of};

use crate::hive::ZugHive;
use reg_calls::{KeyTold, ValueTold};
use reg_model::limits::SESSIONS_LIMIT;
use reg_model::statuses::{INVALID_HANDLE, INVALID_PARAMETER, NOT_ENOUGH_MEMORY};
use reg_model::{AnswerBody, Bytes, Change, ChangeReply, Query};
use std::alloc::{AllocError, Global};

/// A refusal.
fn refused(status: u32) -> ChangeReply
    ensures { result ≡ refusal status }
{
    ChangeReply {
        status,
        number: None,
        handle: None,
        disposition: None,
    }
}

/// Answers a change of a session.
pub(crate) fn change(
    alloc: Global,
    hive: &mut ZugHive,
    session: u8,
    moment: u64,
    change: Change,
) -> ChangeReply
    ensures { IsChanged hive.old.held.value hive.new.held.value session moment change result }
{
    let Some(mut held) = hive.take(alloc) else {
        return refused(INVALID_HANDLE);
    };
    if session as usize >= SESSIONS_LIMIT {
        hive.put(held);
        return refused(INVALID_PARAMETER);
    }
    let reply = held.apply(session, moment, change);
    hive.put(held);
    reply
}

/// The status by which a call is refused where a copy of what it was given lacks memory.
pub(crate) fn lack(alloc: Global, hive: &mut ZugHive, session: u8) -> u32
    ensures same { hive.new.held.value ≡ hive.old.held.value }
    ensures lack { IsLack hive.old.held.value session result }
{
    let Some(held) = hive.take(alloc) else {
        return INVALID_HANDLE;
    };
    hive.put(held);
    if session as usize >= SESSIONS_LIMIT {
        return INVALID_PARAMETER;
    }
    NOT_ENOUGH_MEMORY
}

/// Answers a change that was made, or refuses one for want of memory.
pub(crate) fn change_if(
    alloc: Global,
    hive: &mut ZugHive,
    session: u8,
    moment: u64,
    made: Result<Change, AllocError>,
) -> ChangeReply
    ensures made { IfOk made (λ change. IsChanged hive.old.held.value hive.new.held.value session moment change result) }
    ensures lack { OnErr made ((status : ℕ) × IsLack hive.old.held.value session status × (result ≡ refusal status)
        × (hive.new.held.value ≡ hive.old.held.value)) }
{
    match made {
        Ok(made) => change(alloc, hive, session, moment, made),
        Err(_) => refused(lack(alloc, hive, session)),
    }
}

/// Answers a question of a session.
pub(crate) fn ask(alloc: Global, hive: &mut ZugHive, session: u8, query: &Query) -> AnswerBody
    ensures same { hive.new.held.value ≡ hive.old.held.value }
    ensures asked { IsAsked hive.old.held.value session query.now result }
{
    let Some(held) = hive.take(alloc) else {
        return AnswerBody::Refused {
            status: INVALID_HANDLE,
        };
    };
    if session as usize >= SESSIONS_LIMIT {
        hive.put(held);
        return AnswerBody::Refused {
            status: INVALID_PARAMETER,
        };
    }
    let answer = held.read(session, query);
    hive.put(held);
    answer.body
}

/// Answers a question of a session for a value, whose data goes over the front of a room.
pub(crate) fn ask_value(
    alloc: Global,
    hive: &mut ZugHive,
    session: u8,
    handle: u64,
    name: Bytes,
    room: &mut [u8],
) -> ValueTold
    ensures same { hive.new.held.value ≡ hive.old.held.value }
    ensures told { TellsValue (due_of hive.old.held.value session (QueryValue handle name (asked_of room.old))) result room.old room.new }
{
    let Some(held) = hive.take(alloc) else {
        return ValueTold::refused(INVALID_HANDLE);
    };
    if session as usize >= SESSIONS_LIMIT {
        hive.put(held);
        return ValueTold::refused(INVALID_PARAMETER);
    }
    let told = held.read_value(session, handle, name, room);
    hive.put(held);
    told
}

/// Answers a question of a session for a subkey, whose name goes over the front of a room.
pub(crate) fn ask_subkey(
    alloc: Global,
    hive: &mut ZugHive,
    session: u8,
    handle: u64,
    index: u32,
    room: &mut [u8],
) -> KeyTold
    ensures same { hive.new.held.value ≡ hive.old.held.value }
    ensures told { TellsKey (due_of hive.old.held.value session (EnumKey handle index (size_of room.old))) result room.old room.new }
{
    let Some(held) = hive.take(alloc) else {
        return KeyTold::refused(INVALID_HANDLE);
    };
    if session as usize >= SESSIONS_LIMIT {
        hive.put(held);
        return KeyTold::refused(INVALID_PARAMETER);
    }
    let told = held.read_subkey(session, handle, index, room);
    hive.put(held);
    told
}
