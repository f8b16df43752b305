//! The calls that ask a hive.
ghost use Rattle.std.specs.Prelude.{◌≡◌, []};
ghost use Rattle.reg_model.specs.declared.call.Query.TheVariants.{QueryValue, EnumKey, EnumValue, QueryInfo, GetSecurity};
ghost use Rattle.zugmeled.specs.Calls.{Answers, IsDueTold, due_of};
ghost use Rattle.reg_calls.specs.Rooms.{size_of, asked_of, TellsValue, TellsKey};
ghost use Rattle.zugmeled.specs.Told.{TellsMember, TellsInfo, TellsSecurity};

use crate::calls::{ask, ask_subkey, ask_value, lack};
use crate::hive::ZugHive;
use crate::told;
use crate::told::ZugInfo;
use reg_calls::{ValueTold, asked_room, size_in_32_bits};
use reg_model::{Bytes, Query};
use std::alloc::Global;

/// Tells a value by its name, of which it makes a copy.
fn value_told(
    alloc: Global,
    hive: &mut ZugHive,
    session: u8,
    handle: u64,
    name: &[u8],
    room: &mut [u8],
) -> ValueTold
    ensures same { hive.new.held.value ≡ hive.old.held.value }
    ensures told { IsDueTold hive.old.held.value session (QueryValue handle name.now (asked_of room.old)) (λ body. TellsValue body result room.old room.new) }
{
    match Bytes::from_slice(alloc, name) {
        Ok(name) => ask_value(alloc, hive, session, handle, name, room),
        Err(_) => ValueTold::refused(lack(alloc, hive, session)),
    }
}

/// Asks for a value by its name. A room of no byte asks for the size alone.
#[unsafe(no_mangle)]
pub extern "C" fn zug_query_value(
    alloc: Global,
    hive: &mut ZugHive,
    session: u8,
    handle: u64,
    name: &[u8],
    room: &mut [u8],
    kind: &mut u32,
    size: &mut u32,
) -> u32
    ensures same { hive.new.held.value ≡ hive.old.held.value }
    ensures told { IsDueTold hive.old.held.value session (QueryValue handle name.now (asked_of room.old))
        (λ body. TellsValue body (record { status = result; kind = kind.new; size = size.new }) room.old room.new) }
{
    let value = value_told(alloc, hive, session, handle, name, room);
    *kind = value.kind;
    *size = value.size;
    value.status
}

/// Asks for a subkey's name and time by its place.
#[unsafe(no_mangle)]
pub extern "C" fn zug_enum_key(
    alloc: Global,
    hive: &mut ZugHive,
    session: u8,
    handle: u64,
    index: u32,
    name_room: &mut [u8],
    name_size: &mut u32,
    time: &mut u64,
) -> u32
    ensures same { hive.new.held.value ≡ hive.old.held.value }
    ensures told { TellsKey (due_of hive.old.held.value session (EnumKey handle index (size_of name_room.old)))
        (record { status = result; size = name_size.new; time = time.new }) name_room.old name_room.new }
{
    let key = ask_subkey(alloc, hive, session, handle, index, name_room);
    *name_size = key.size;
    *time = key.time;
    key.status
}

/// Asks for a value by its place. A room of no byte asks for the size of the data alone.
#[unsafe(no_mangle)]
pub extern "C" fn zug_enum_value(
    alloc: Global,
    hive: &mut ZugHive,
    session: u8,
    handle: u64,
    index: u32,
    name_room: &mut [u8],
    name_size: &mut u32,
    room: &mut [u8],
    kind: &mut u32,
    size: &mut u32,
) -> u32
    ensures same { hive.new.held.value ≡ hive.old.held.value }
    ensures told { Answers hive.old.held.value session (EnumValue handle index (size_of name_room.old) (asked_of room.old))
        (λ body. TellsMember body result name_size.new kind.new size.new name_room.old name_room.new room.old room.new) }
{
    let query = Query::EnumValue {
        handle,
        index,
        name_room: size_in_32_bits(name_room),
        room: asked_room(room),
    };
    let member = told::tell_member(ask(alloc, hive, session, &query), name_room, room);
    *name_size = member.name_size;
    *kind = member.kind;
    *size = member.size;
    member.status
}

/// Asks for a key's numbers.
#[unsafe(no_mangle)]
pub extern "C" fn zug_query_info(
    alloc: Global,
    hive: &mut ZugHive,
    session: u8,
    handle: u64,
    info: &mut ZugInfo,
) -> u32
    ensures same { hive.new.held.value ≡ hive.old.held.value }
    ensures told { Answers hive.old.held.value session (QueryInfo handle) (λ body. TellsInfo body result info.new) }
{
    let told = told::tell_info(ask(alloc, hive, session, &Query::QueryInfo { handle }));
    *info = told.info;
    told.status
}

/// Asks for a key's security descriptor.
#[unsafe(no_mangle)]
pub extern "C" fn zug_get_security(
    alloc: Global,
    hive: &mut ZugHive,
    session: u8,
    handle: u64,
    room: &mut [u8],
    size: &mut u32,
) -> u32
    ensures same { hive.new.held.value ≡ hive.old.held.value }
    ensures told { Answers hive.old.held.value session (GetSecurity handle (size_of room.old))
        (λ body. TellsSecurity body result size.new room.old room.new) }
{
    let query = Query::GetSecurity {
        handle,
        room: size_in_32_bits(room),
    };
    let told = told::tell_security(ask(alloc, hive, session, &query), room);
    *size = told.size;
    told.status
}
