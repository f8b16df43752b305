//! Hives written to files, whole or not at all.

ghost use Rattle.std.specs.Prelude.{◌≡◌, Ok, OnOk, OnErr, IfErr};
ghost use Rattle.std.specs.Io.KnownBytes.{Appends};
ghost use Rattle.reg_command.specs.Failures.{IsFront};
ghost use Rattle.reg_tree_image.specs.Images.{loaded};
ghost use Rattle.reg_files.specs.Internal.Cuts.{IsOfStep};
ghost use Rattle.reg_files.specs.Saves.{saved_keys, image_to_save};

use crate::device::Device;
use crate::fault::{Fault, Step, refused, taken};
use crate::saved::Saved;
use reg_tree_image::write_tree;
use std::alloc::Global;
use std::fs;
use std::fs::{File, Metadata, OpenFile, OpenOptions};
use std::io::{ErrorKind, Write};
use std::os::unix::fs::{MetadataExt, OpenOptionsExt, PermissionsExt, lchown};
use std::path::Path;
use std::rt::Files;

/// The mode of a file that nobody but its owner may open.
const OWN_MODE: u32 = 0o600;

/// The bits of a mode by which a program that is run has its file's owner or group.
const RUNNER_BITS: u32 = 0o6000;

/// The bits of a mode that are a group's.
const GROUP_BITS: u32 = 0o070;

/// Makes a file beside a path, anew, and answers it with its name: never one that is there, whoever left it. Nobody but its owner may
/// open it.
fn create_beside<H: Files>(
    alloc: Global,
    host: &H,
    path: &str,
) -> Result<(H::File, String), Fault> {
    for number in 0..u32::MAX {
        let name = format!(in alloc; "{path}.regtool-{number}")?;
        let made = OpenOptions::new()
            .write(true)
            .create_new(true)
            .mode(OWN_MODE)
            .open(host, name.as_str());
        match made {
            Ok(file) => return Ok((file, name)),
            Err(error) if error.kind() == ErrorKind::AlreadyExists => {}
            Err(error) => return Err(refused(Step::Create, error)),
        }
    }
    Err(refused(Step::Create, ErrorKind::AlreadyExists.into()))
}

/// Gives a new file the owner and the group of another one, as far as the system allows it, and answers the bits of that one's mode
/// which would give rights to somebody else. A link in the file's place is not followed.
fn give_owner<H: Files>(host: &H, name: &str, own: &Metadata, standing: &Metadata) -> u32 {
    if own.uid() == standing.uid() && own.gid() == standing.gid() {
        return 0;
    }
    let group = Some(standing.gid());
    if lchown(host, name, Some(standing.uid()), group).is_ok() {
        return 0;
    }
    if lchown(host, name, None, group).is_ok() {
        return RUNNER_BITS;
    }
    RUNNER_BITS | GROUP_BITS
}

/// Gives a new file what another one has: its owner and its group, as far as the system allows it, and its permissions.
fn permit<H: Files>(
    host: &H,
    name: &str,
    file: &H::File,
    standing: &Metadata,
) -> Result<(), Fault> {
    let own = taken(Step::Permit, file.metadata())?;
    let others = give_owner(host, name, &own, standing);
    let mut permissions = standing.permissions();
    permissions.set_mode(permissions.mode() & !others);
    taken(Step::Permit, file.set_permissions(permissions))
}

/// Writes an image to a file, or a front of it where a write is refused. By the rules of loading the image has no fault, and the keys that
/// are saved (clause `loads`).
fn write_image<F: Write>(device: &mut Device<F>, saved: &Saved<'_>) -> Result<(), Fault>
    ensures ok { OnOk result (Appends (F.contents device.old.device) (F.contents device.new.device) (image_to_save saved.now)) }
    ensures err { OnErr result (IsFront (image_to_save saved.now) (F.contents device.old.device) (F.contents device.new.device)) }
    ensures of_step { IfErr result (λ fault. IsOfStep Step.Write fault) }
    ensures loads { loaded (image_to_save saved.now) ≡ Ok (saved_keys saved.now.tree).tree }
{
    match write_tree(saved.tree.tree(), saved.moment, saved.sequence, device) {
        Ok(()) => Ok(()),
        Err(_) => Err(refused(Step::Write, device.take_error())),
    }
}

/// Writes an image to a new file, and has the system keep it.
fn fill<F: Write + OpenFile + Drop>(file: F, saved: &Saved<'_>) -> Result<(), Fault> {
    let mut device = Device::new(file);
    write_image(&mut device, saved)?;
    taken(Step::Sync, device.inner().sync_all())
}

/// Has the system keep the names in the folder of a path.
fn sync_folder<H: Files>(host: &H, path: &str) -> Result<(), Fault> {
    let folder = match Path::new(path).parent() {
        Some(folder) if !folder.as_str().is_empty() => folder.as_str(),
        _ => ".",
    };
    let opened = taken(Step::SyncFolder, File::open(host, folder))?;
    taken(Step::SyncFolder, opened.sync_all())
}

/// Takes away a file that was begun; that it can't be is told nowhere, since what was refused before is.
fn undo<H: Files>(host: &H, path: &str, fault: Fault) -> Fault {
    let _ = fs::remove_file(host, path);
    fault
}

/// Writes a hive to a new file that is to take the place of another one.
fn fill_like<H: Files>(
    host: &H,
    name: &str,
    file: H::File,
    standing: &Metadata,
    saved: &Saved<'_>,
) -> Result<(), Fault> {
    permit(host, name, &file, standing)?;
    fill(file, saved)
}

/// Puts a hive in the place of a file, whose lock is held, with that one's permissions, owner and group: a temporary file beside it is
/// written, synced and renamed over it. After a fault the file is as it was, but for `SyncFolder`: then the new one stands there, and may
/// be lost where the machine stops.
pub fn replace<H: Files>(
    alloc: Global,
    host: &H,
    path: &str,
    saved: &Saved<'_>,
) -> Result<(), Fault> {
    let standing = taken(Step::Permit, fs::metadata(host, path))?;
    let (file, name) = create_beside(alloc, host, path)?;
    if let Err(fault) = fill_like(host, name.as_str(), file, &standing, saved) {
        return Err(undo(host, name.as_str(), fault));
    }
    if let Err(fault) = taken(Step::Rename, fs::rename(host, name.as_str(), path)) {
        return Err(undo(host, name.as_str(), fault));
    }
    sync_folder(host, path)
}

/// Makes a file with a hive, anew: never over one that is there. After a fault there is none, but for `SyncFolder`.
pub fn create<H: Files>(host: &H, path: &str, saved: &Saved<'_>) -> Result<(), Fault> {
    let file = taken(Step::Create, File::create_new(host, path))?;
    if let Err(fault) = fill(file, saved) {
        return Err(undo(host, path, fault));
    }
    sync_folder(host, path)
}
