//! The calls that change a hive.
ghost use Rattle.std.specs.Prelude.{◌≡◌};
ghost use Rattle.reg_model.specs.declared.call.Change.TheVariants.{OpenRoot, OpenKey, CreateKey, SetValue, DeleteValue, DeleteKey, DeleteTree, SetSecurity, Notify, Close};
ghost use Rattle.zugmeled.specs.Calls.{Replies};
ghost use Rattle.zugmeled.specs.Makers.{given_of};
ghost use Rattle.zugmeled.specs.Told.{or_zero};

use crate::calls::{change, change_if};
use crate::hive::ZugHive;
use crate::makers;
use reg_model::Change;
use std::alloc::Global;

/// Opens a handle to the root.
#[unsafe(no_mangle)]
pub extern "C" fn zug_open_root(
    alloc: Global,
    hive: &mut ZugHive,
    session: u8,
    moment: u64,
    mask: u32,
    opened: &mut u64,
) -> u32
    ensures { Replies hive.old.held.value hive.new.held.value session moment (OpenRoot mask)
        (λ reply. (result ≡ reply.status) × (opened.new ≡ or_zero reply.handle)) }
{
    let reply = change(alloc, hive, session, moment, Change::OpenRoot { mask });
    *opened = reply.handle.unwrap_or(0);
    reply.status
}

/// Opens a handle to a key that is there.
#[unsafe(no_mangle)]
pub extern "C" fn zug_open_key(
    alloc: Global,
    hive: &mut ZugHive,
    session: u8,
    moment: u64,
    handle: u64,
    path: &[u8],
    mask: u32,
    opened: &mut u64,
) -> u32
    ensures { Replies hive.old.held.value hive.new.held.value session moment (OpenKey handle path.now mask)
        (λ reply. (result ≡ reply.status) × (opened.new ≡ or_zero reply.handle)) }
{
    let made = makers::open_key(alloc, handle, path, mask);
    let reply = change_if(alloc, hive, session, moment, made);
    *opened = reply.handle.unwrap_or(0);
    reply.status
}

/// Makes the keys of a path that are missing, and opens a handle to the last. A descriptor of no byte is none.
#[unsafe(no_mangle)]
pub extern "C" fn zug_create_key(
    alloc: Global,
    hive: &mut ZugHive,
    session: u8,
    moment: u64,
    handle: u64,
    path: &[u8],
    mask: u32,
    descriptor: &[u8],
    opened: &mut u64,
    disposition: &mut u32,
) -> u32
    ensures { Replies hive.old.held.value hive.new.held.value session moment
        (CreateKey handle path.now mask (given_of descriptor.now))
        (λ reply. (result ≡ reply.status) × (opened.new ≡ or_zero reply.handle) × (disposition.new ≡ or_zero reply.disposition)) }
{
    let made = makers::create_key(alloc, handle, path, mask, descriptor);
    let reply = change_if(alloc, hive, session, moment, made);
    *opened = reply.handle.unwrap_or(0);
    *disposition = reply.disposition.unwrap_or(0);
    reply.status
}

/// Sets a value.
#[unsafe(no_mangle)]
pub extern "C" fn zug_set_value(
    alloc: Global,
    hive: &mut ZugHive,
    session: u8,
    moment: u64,
    handle: u64,
    name: &[u8],
    kind: u32,
    bytes: &[u8],
) -> u32
    ensures { Replies hive.old.held.value hive.new.held.value session moment
        (SetValue handle name.now kind bytes.now) (λ reply. result ≡ reply.status) }
{
    let made = makers::set_value(alloc, handle, name, kind, bytes);
    change_if(alloc, hive, session, moment, made).status
}

/// Removes a value.
#[unsafe(no_mangle)]
pub extern "C" fn zug_delete_value(
    alloc: Global,
    hive: &mut ZugHive,
    session: u8,
    moment: u64,
    handle: u64,
    name: &[u8],
) -> u32
    ensures { Replies hive.old.held.value hive.new.held.value session moment (DeleteValue handle name.now)
        (λ reply. result ≡ reply.status) }
{
    let made = makers::delete_value(alloc, handle, name);
    change_if(alloc, hive, session, moment, made).status
}

/// Deletes a key without subkeys.
#[unsafe(no_mangle)]
pub extern "C" fn zug_delete_key(
    alloc: Global,
    hive: &mut ZugHive,
    session: u8,
    moment: u64,
    handle: u64,
    path: &[u8],
) -> u32
    ensures { Replies hive.old.held.value hive.new.held.value session moment (DeleteKey handle path.now)
        (λ reply. result ≡ reply.status) }
{
    let made = makers::delete_key(alloc, handle, path);
    change_if(alloc, hive, session, moment, made).status
}

/// Deletes a key with all keys below it.
#[unsafe(no_mangle)]
pub extern "C" fn zug_delete_tree(
    alloc: Global,
    hive: &mut ZugHive,
    session: u8,
    moment: u64,
    handle: u64,
    path: &[u8],
) -> u32
    ensures { Replies hive.old.held.value hive.new.held.value session moment (DeleteTree handle path.now)
        (λ reply. result ≡ reply.status) }
{
    let made = makers::delete_tree(alloc, handle, path);
    change_if(alloc, hive, session, moment, made).status
}

/// Gives a key a security descriptor.
#[unsafe(no_mangle)]
pub extern "C" fn zug_set_security(
    alloc: Global,
    hive: &mut ZugHive,
    session: u8,
    moment: u64,
    handle: u64,
    descriptor: &[u8],
) -> u32
    ensures { Replies hive.old.held.value hive.new.held.value session moment (SetSecurity handle descriptor.now)
        (λ reply. result ≡ reply.status) }
{
    let made = makers::set_security(alloc, handle, descriptor);
    change_if(alloc, hive, session, moment, made).status
}

/// Asks for one notification; `watch` is its number.
#[unsafe(no_mangle)]
pub extern "C" fn zug_notify(
    alloc: Global,
    hive: &mut ZugHive,
    session: u8,
    moment: u64,
    handle: u64,
    filter: u32,
    subtree: bool,
    watch: &mut u64,
) -> u32
    ensures { Replies hive.old.held.value hive.new.held.value session moment (Notify handle filter subtree)
        (λ reply. (result ≡ reply.status) × (watch.new ≡ or_zero reply.number)) }
{
    let asked = Change::Notify {
        handle,
        filter,
        subtree,
    };
    let reply = change(alloc, hive, session, moment, asked);
    *watch = reply.number.unwrap_or(0);
    reply.status
}

/// Closes a handle.
#[unsafe(no_mangle)]
pub extern "C" fn zug_close(
    alloc: Global,
    hive: &mut ZugHive,
    session: u8,
    moment: u64,
    handle: u64,
) -> u32
    ensures { Replies hive.old.held.value hive.new.held.value session moment (Close handle) (λ reply. result ≡ reply.status) }
{
    change(alloc, hive, session, moment, Change::Close { handle }).status
}
