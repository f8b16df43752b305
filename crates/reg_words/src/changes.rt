//! What the matches of a command that changes a key, or copies one, ask for.

ghost use Rattle.std.specs.Prelude.{◌≡◌, codes, Some, None, IfOk, MatchOption};
ghost use Rattle.clap.specs.Words.{first_of, found_of, rows_of};
ghost use Rattle.reg_words.specs.CommandLines.{AsksForHive, AsksForKey, AsksForName, AsksForContents, AsksToChange, AsksToSave, Asks};
ghost use Rattle.reg_words.specs.Internal.Commands.{IsFound, IsOther};

use crate::asked::{edit_request, hive_asked, is_set};
use crate::typed::{Contents, KeyChange, read_name, read_path, read_value};
use crate::{EditRequest, HiveFile, Request};
use clap::ArgMatches;
use std::alloc::{AllocError, Global};

/// The path of a key, which the word of that name tells; `None` where there is none, which `clap` doesn't take.
fn path_asked(
    alloc: Global,
    name: &str,
    matches: &ArgMatches<'_>,
) -> Result<Option<Vec<u8>>, AllocError>
    ensures { IfOk result (λ path. MatchOption path (first_of name.now (rows_of (found_of matches.now)) ≡ None)
        (λ bytes. AsksForKey name.now (rows_of (found_of matches.now)) bytes.items)) }
{
    match matches.get_str(name) {
        Some(word) => Ok(Some(read_path(alloc, word, is_set(matches, "slash"))?)),
        None => Ok(None),
    }
}

/// The name of the value that is changed, if one is.
fn name_asked(alloc: Global, matches: &ArgMatches<'_>) -> Result<Option<Vec<u8>>, AllocError>
    ensures { IfOk result (λ name. MatchOption name (first_of (codes "value") (rows_of (found_of matches.now)) ≡ None)
        (λ bytes. AsksForName (rows_of (found_of matches.now)) bytes.items)) }
{
    match matches.get_str("value") {
        Some(word) => Ok(Some(read_name(alloc, word)?)),
        None => Ok(None),
    }
}

/// The type and the data of a value whose type has that word; `None` where they aren't understood.
fn contents_of(
    alloc: Global,
    kind: &str,
    matches: &ArgMatches<'_>,
) -> Result<Option<Contents>, AllocError>
    requires { first_of (codes "type") (rows_of (found_of matches.now)) ≡ Some kind.now }
    ensures { IfOk result (λ contents. IsFound (λ c. AsksForContents (rows_of (found_of matches.now)) c.kind c.bytes.items) contents) }
{
    match matches.get_strs("data") {
        Some(words) => read_value(alloc, kind, words),
        None => read_value(alloc, kind, &[]),
    }
}

/// The type and the data of a value; `None`, too, where it has no type, which `clap` doesn't take.
fn contents_asked(alloc: Global, matches: &ArgMatches<'_>) -> Result<Option<Contents>, AllocError>
    ensures { IfOk result (λ contents. IsFound (λ c. AsksForContents (rows_of (found_of matches.now)) c.kind c.bytes.items) contents) }
{
    match matches.get_str("type") {
        Some(kind) => contents_of(alloc, kind, matches),
        None => Ok(None),
    }
}

/// The change that `create` asks for.
fn create_asked(alloc: Global, matches: &ArgMatches<'_>) -> Result<Option<KeyChange>, AllocError>
    ensures { IfOk result (λ change. IsFound (AsksToChange (codes "create", rows_of (found_of matches.now))) change) }
{
    match path_asked(alloc, "path", matches)? {
        Some(path) => Ok(Some(KeyChange::CreateKey {
            path,
            makes_parents: is_set(matches, "parents"),
        })),
        None => Ok(None),
    }
}

/// The change that `set` asks for of a key and a value; `None` where the type and the data aren't understood.
fn set_of(
    alloc: Global,
    path: Vec<u8>,
    name: Vec<u8>,
    matches: &ArgMatches<'_>,
) -> Result<Option<KeyChange>, AllocError>
    requires path { AsksForKey (codes "path") (rows_of (found_of matches.now)) path.items }
    requires name { AsksForName (rows_of (found_of matches.now)) name.items }
    ensures { IfOk result (λ change. IsFound (AsksToChange (codes "set", rows_of (found_of matches.now))) change) }
{
    match contents_asked(alloc, matches)? {
        Some(contents) => Ok(Some(KeyChange::SetValue {
            path,
            makes_parents: is_set(matches, "parents"),
            name,
            contents,
        })),
        None => Ok(None),
    }
}

/// The change that `set` asks for of a key; `None`, too, where it names no value, which `clap` doesn't take.
fn set_in(
    alloc: Global,
    path: Vec<u8>,
    matches: &ArgMatches<'_>,
) -> Result<Option<KeyChange>, AllocError>
    requires { AsksForKey (codes "path") (rows_of (found_of matches.now)) path.items }
    ensures { IfOk result (λ change. IsFound (AsksToChange (codes "set", rows_of (found_of matches.now))) change) }
{
    match name_asked(alloc, matches)? {
        Some(name) => set_of(alloc, path, name, matches),
        None => Ok(None),
    }
}

/// The change that `set` asks for.
fn set_asked(alloc: Global, matches: &ArgMatches<'_>) -> Result<Option<KeyChange>, AllocError>
    ensures { IfOk result (λ change. IsFound (AsksToChange (codes "set", rows_of (found_of matches.now))) change) }
{
    match path_asked(alloc, "path", matches)? {
        Some(path) => set_in(alloc, path, matches),
        None => Ok(None),
    }
}

/// The change that `delete` asks for of a key and maybe a value; `None` where it is a value, with all keys below it.
fn delete_of(path: Vec<u8>, name: Option<Vec<u8>>, matches: &ArgMatches<'_>) -> Option<KeyChange>
    requires path { AsksForKey (codes "path") (rows_of (found_of matches.now)) path.items }
    requires name { MatchOption name (first_of (codes "value") (rows_of (found_of matches.now)) ≡ None)
        (λ bytes. AsksForName (rows_of (found_of matches.now)) bytes.items) }
    ensures { IsFound (AsksToChange (codes "delete", rows_of (found_of matches.now))) result }
{
    let is_tree = is_set(matches, "tree");
    match name {
        None => Some(KeyChange::DeleteKey { path, is_tree }),
        Some(name) => {
            if is_tree {
                return None;
            }
            Some(KeyChange::DeleteValue { path, name })
        }
    }
}

/// The change that `delete` asks for.
fn delete_asked(alloc: Global, matches: &ArgMatches<'_>) -> Result<Option<KeyChange>, AllocError>
    ensures { IfOk result (λ change. IsFound (AsksToChange (codes "delete", rows_of (found_of matches.now))) change) }
{
    match path_asked(alloc, "path", matches)? {
        Some(path) => {
            let name = name_asked(alloc, matches)?;
            Ok(delete_of(path, name, matches))
        }
        None => Ok(None),
    }
}

/// The change that a subcommand asks for; `None` where it asks for none.
fn key_change(
    alloc: Global,
    name: &str,
    matches: &ArgMatches<'_>,
) -> Result<Option<KeyChange>, AllocError>
    ensures { IfOk result (λ change. IsFound (AsksToChange (name.now, rows_of (found_of matches.now))) change) }
{
    if name == "set" {
        return set_asked(alloc, matches);
    }
    if name == "create" {
        return create_asked(alloc, matches);
    }
    if name == "delete" {
        return delete_asked(alloc, matches);
    }
    Ok(None)
}

/// A change of the file that is to be saved; `None` where there is none, or where it is to begin at two moments.
fn change_of<'a>(name: &str, change: KeyChange, matches: &ArgMatches<'a>) -> Option<Request<'a>>
    requires other { IsOther name.now }
    requires change { AsksToChange (name.now, rows_of (found_of matches.now)) change }
    ensures { IsFound (Asks (name.now, rows_of (found_of matches.now))) result }
{
    match edit_request("file", matches) {
        Some(edit) => Some(Request::Change { edit, change }),
        None => None,
    }
}

/// What a subcommand that asks for nothing but a change is asked for; `None` where it asks for nothing.
pub fn change_asked<'a>(
    alloc: Global,
    name: &str,
    matches: &ArgMatches<'a>,
) -> Result<Option<Request<'a>>, AllocError>
    requires { IsOther name.now }
    ensures { IfOk result (λ request. IsFound (Asks (name.now, rows_of (found_of matches.now))) request) }
{
    match key_change(alloc, name, matches)? {
        Some(change) => Ok(change_of(name, change, matches)),
        None => Ok(None),
    }
}

/// What `copy` is asked for of a key of a file, and of the file that is saved; `None` where it names no key there, which `clap` doesn't
/// take.
fn copy_of<'a>(
    alloc: Global,
    source: HiveFile<'a>,
    edit: EditRequest<'a>,
    path: Vec<u8>,
    matches: &ArgMatches<'a>,
) -> Result<Option<Request<'a>>, AllocError>
    requires source { AsksForHive (rows_of (found_of matches.now)) source }
    requires edit { AsksToSave (codes "to-file") (rows_of (found_of matches.now)) edit }
    requires path { AsksForKey (codes "path") (rows_of (found_of matches.now)) path.items }
    ensures { IfOk result (λ request. IsFound (Asks (codes "copy", rows_of (found_of matches.now))) request) }
{
    match path_asked(alloc, "to-path", matches)? {
        Some(into) => Ok(Some(Request::Copy {
            edit,
            source,
            path,
            into,
        })),
        None => Ok(None),
    }
}

/// What `copy` is asked for of a file, and of the one that is saved; `None`, too, where it names no key of the first.
fn copy_in<'a>(
    alloc: Global,
    source: HiveFile<'a>,
    edit: EditRequest<'a>,
    matches: &ArgMatches<'a>,
) -> Result<Option<Request<'a>>, AllocError>
    requires source { AsksForHive (rows_of (found_of matches.now)) source }
    requires edit { AsksToSave (codes "to-file") (rows_of (found_of matches.now)) edit }
    ensures { IfOk result (λ request. IsFound (Asks (codes "copy", rows_of (found_of matches.now))) request) }
{
    match path_asked(alloc, "path", matches)? {
        Some(path) => copy_of(alloc, source, edit, path, matches),
        None => Ok(None),
    }
}

/// What `copy` is asked for of a file; `None`, too, where no other one is saved, or where that is to begin at two moments.
fn copy_from<'a>(
    alloc: Global,
    source: HiveFile<'a>,
    matches: &ArgMatches<'a>,
) -> Result<Option<Request<'a>>, AllocError>
    requires { AsksForHive (rows_of (found_of matches.now)) source }
    ensures { IfOk result (λ request. IsFound (Asks (codes "copy", rows_of (found_of matches.now))) request) }
{
    match edit_request("to-file", matches) {
        Some(edit) => copy_in(alloc, source, edit, matches),
        None => Ok(None),
    }
}

/// What `copy` is asked for; `None` where [`copy_from`] says so, or where it names no file.
pub fn copy_asked<'a>(
    alloc: Global,
    matches: &ArgMatches<'a>,
) -> Result<Option<Request<'a>>, AllocError>
    ensures { IfOk result (λ request. IsFound (Asks (codes "copy", rows_of (found_of matches.now))) request) }
{
    match hive_asked(matches) {
        Some(source) => copy_from(alloc, source, matches),
        None => Ok(None),
    }
}
