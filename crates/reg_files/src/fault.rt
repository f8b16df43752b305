//! What ends a command on a file, and its text.

ghost use Rattle.std.specs.Prelude.{◌≡◌, ◌≢◌, false, Ok, IfErr, IsErr, MatchResult};
ghost use Rattle.std.specs.IoError.{error_kind};
ghost use Rattle.std.specs.declared.io.ErrorKind.TheVariants.{OutOfMemory};
ghost use Rattle.reg_files.specs.Saves.{is_of_saving};
ghost use Rattle.reg_files.specs.Cuts.{is_dump_cut, is_path_cut, is_query_cut, is_find_cut, is_diff_cut, is_export_cut, is_end_cut};
ghost use Rattle.reg_files.specs.Cuts.{is_changes_cut, is_edit_cut};
ghost use Rattle.reg_files.specs.Internal.Cuts.{is_cut, is_diff_end_cut, IsOfStep};
ghost use Rattle.reg_files.specs.Internal.Faults.{hindered, change_ended, fresh_ended};

use crate::device::Device;
use crate::images::Image;
use reg_copy::CopyFault;
use reg_dotreg_import::ImportFault;
use reg_dotreg_reader::ReadFault;
use reg_dotreg_writer::ExportFault;
use reg_edits::{BadText, ChangeEnd, EditFault, FreshFault, Hindrance, ImportEnd};
use reg_find::PatternFault;
use reg_queries::{ChangesEnd, DiffFault, ExportEnd, FindFault, QueryFault};
use reg_script::{FailedLine, ScriptFault};
use reg_tree_image::LoadFault;
use reg_tree_text::{DumpFault, PathFault};
use std::alloc::AllocError;
use std::fmt::{Display, Formatter};
use std::io::ErrorKind;
use std::{fmt, io};
use thiserror::Error;

/// A step on a file that the system can refuse.
#[derive(Clone, Copy, Debug, PartialEq, Eq)]
pub enum Step {
    /// The host's clock is asked.
    Clock,
    /// The file is looked for, through links.
    Find,
    Open,
    Lock,
    Read,
    /// A file is made anew: `new`'s own, or the temporary one beside the file that is saved.
    Create,
    /// The new file gets the permissions of the one that it takes the place of.
    Permit,
    Write,
    Sync,
    Rename,
    /// The folder is synced, after the rename.
    SyncFolder,
}

impl Step {
    /// Whether it is a step of saving, on the file that is written.
    pub fn saves(self) -> bool
        ensures { result ≡ is_of_saving self }
    {
        match self {
            Step::Clock | Step::Find | Step::Open | Step::Lock | Step::Read => false,
            Step::Create
            | Step::Permit
            | Step::Write
            | Step::Sync
            | Step::Rename
            | Step::SyncFolder => true,
        }
    }
}

impl Display for Step {
    fn fmt<W: fmt::Write>(&self, f: &mut Formatter<W>) -> fmt::Result {
        f.pad(match self {
            Step::Clock => "clock",
            Step::Find => "find",
            Step::Open => "open",
            Step::Lock => "lock",
            Step::Read => "read",
            Step::Create => "create",
            Step::Permit => "permit",
            Step::Write => "write",
            Step::Sync => "sync",
            Step::Rename => "rename",
            Step::SyncFolder => "sync folder of",
        })
    }
}

/// What ended a command on a file early, with status 1.
#[derive(Debug, Drop, Error)]
pub enum Fault {
    /// The system refused a step.
    #[error("{step}: {error}")]
    Step { step: Step, error: io::Error },
    /// What is to be edited is a device, a pipe or a folder.
    #[error("it is no regular file")]
    NoFile,
    /// Another one holds the file's lock, or took its place since it was opened.
    #[error("the file is locked")]
    Busy,
    /// The script ended early.
    #[error("{0}")]
    Script(ScriptFault),
    /// A line of the script failed, and ended it.
    #[error("a line failed")]
    Line(FailedLine),
    /// So many lines of the script failed, and were passed over.
    #[error("{0} lines failed")]
    Failed(u32),
    /// The pattern is none, or too large.
    #[error("the pattern can't be searched for")]
    Pattern(PatternFault),
    /// An image doesn't load.
    #[error("the image doesn't load")]
    Load(LoadFault),
    /// A hive that is to be saved can't be built anew: memory runs out, or the new bins have no room.
    #[error("the hive can't be built anew: {0}")]
    Rebuild(LoadFault),
    /// The path of a change is none.
    #[error("the path is none: it may have up to 512 names of 1 to 255 characters 0x01 to 0x7F, with a backslash between each two")]
    NoPath,
    /// The name of a value in a change is none.
    #[error("the value's name is none: it may have up to 16,383 characters 0x01 to 0x7F")]
    NoName,
    /// The data of a change are more than a value may have.
    #[error("the data has more than 1,048,576 bytes")]
    TooLong,
    /// There is no such key.
    #[error("there is no such key")]
    NoKey,
    /// The key has no such value.
    #[error("there is no such value")]
    NoValue,
    /// The key above the one that is to be made isn't there.
    #[error("the key above it isn't there; --parents makes it")]
    NoParent,
    /// The key that is to go has keys below it.
    #[error("the key has others below it; --tree takes them along")]
    HasSubkeys,
    /// The root is to go.
    #[error("the root stays")]
    IsRoot,
    /// A key can't be copied: there is no key to copy into, one of its name is there, there would be too many keys, or the bins have no
    /// room.
    #[error("{0}")]
    NoCopy(CopyFault),
    /// A change was refused, with this status.
    #[error("refused with status {status}")]
    NoChange { status: u32 },
    /// A name can't be written: of the key to which these names lead, or of one of its values.
    #[error("a name has a line break")]
    LineBreak(Vec<u8>),
    /// A front that is given for the root's name has no character, or one that a .reg text can't have there.
    #[error("a front is one line of characters 0x01 to 0x7F, one or more, without `-` first or a backslash last")]
    Front,
    /// The input, or a text's file, can't be read.
    #[error("{0}")]
    Input(io::Error),
    /// A text isn't read.
    #[error("{0}")]
    Text(ReadFault),
    /// Lines of a text aren't understood, of keys below the root's name, or below a front that was given for it.
    #[error("lines aren't understood")]
    Lines { bad: BadText, is_front: bool },
    /// The entry of a line of a text was refused, with this status.
    #[error("refused with status {status}")]
    Refused { line: u64, status: u32 },
    /// The root's name is no key name.
    #[error("the root's name is no key name")]
    Name,
    /// A write to the output failed after so many bytes.
    #[error("a write failed after {0} bytes")]
    Cut(u64),
    /// Memory runs out.
    #[error("memory runs out")]
    Memory,
}

impl From<EditFault> for Fault {
    ghost from_gives = { λ fault made. is_cut made ≡ is_edit_cut fault };

    fn from(fault: EditFault) -> Fault {
        match fault {
            EditFault::Load(fault) => Fault::Load(fault),
            EditFault::Script(fault) => Fault::Script(fault),
            EditFault::Line(line) => Fault::Line(line),
        }
    }
}

impl From<PathFault> for Fault {
    ghost from_gives = { λ fault made. is_cut made ≡ is_path_cut fault };

    fn from(fault: PathFault) -> Fault {
        match fault {
            PathFault::NoKey => Fault::NoKey,
            PathFault::NoValue => Fault::NoValue,
            PathFault::Stopped(fault) => Fault::from(fault),
        }
    }
}

impl From<QueryFault> for Fault {
    ghost from_gives = { λ fault made. is_cut made ≡ is_query_cut fault };

    fn from(fault: QueryFault) -> Fault {
        match fault {
            QueryFault::Load(fault) => Fault::Load(fault),
            QueryFault::Query(fault) => Fault::from(fault),
        }
    }
}

impl From<DumpFault> for Fault {
    ghost from_gives = { λ fault made. is_cut made ≡ is_dump_cut fault };

    fn from(fault: DumpFault) -> Fault {
        match fault {
            DumpFault::Write { written } => Fault::Cut(written),
            DumpFault::Memory => Fault::Memory,
        }
    }
}

impl From<FindFault> for Fault {
    ghost from_gives = { λ fault made. is_cut made ≡ is_find_cut fault };

    fn from(fault: FindFault) -> Fault {
        match fault {
            FindFault::Pattern(PatternFault::Memory) => Fault::Memory,
            FindFault::Pattern(fault) => Fault::Pattern(fault),
            FindFault::Load(fault) => Fault::Load(fault),
            FindFault::Stopped(fault) => Fault::from(fault),
        }
    }
}

impl From<ExportFault> for Fault {
    ghost from_gives = { λ fault made. is_cut made ≡ is_export_cut fault };

    fn from(fault: ExportFault) -> Fault {
        match fault {
            ExportFault::Front => Fault::Front,
            ExportFault::NoKey => Fault::NoKey,
            ExportFault::Name(key) => Fault::LineBreak(key),
            ExportFault::Stopped(fault) => Fault::from(fault),
        }
    }
}

impl From<ExportEnd> for Fault {
    ghost from_gives = { λ fault made. is_cut made ≡ is_end_cut fault };

    fn from(fault: ExportEnd) -> Fault {
        match fault {
            ExportEnd::Load(fault) => Fault::Load(fault),
            ExportEnd::Export(fault) => Fault::from(fault),
        }
    }
}

/// What ended an import of a text whose keys stand below the root's name, or below a front that was given for it.
pub fn import_fault(end: ImportEnd, is_front: bool) -> Fault {
    match end {
        ImportEnd::Load(fault) => Fault::Load(fault),
        ImportEnd::Input(error) if error.kind() == ErrorKind::OutOfMemory => Fault::Memory,
        ImportEnd::Input(error) => Fault::Input(error),
        ImportEnd::Text(ReadFault::Memory) => Fault::Memory,
        ImportEnd::Text(fault) => Fault::Text(fault),
        ImportEnd::Lines(bad) => Fault::Lines { bad, is_front },
        ImportEnd::Entry(ImportFault::Refused { line, status }) => Fault::Refused { line, status },
        ImportEnd::Entry(ImportFault::Memory) | ImportEnd::Memory => Fault::Memory,
    }
}

impl From<Hindrance> for Fault {
    ghost from_gives = { λ why made. made ≡ hindered why };

    fn from(why: Hindrance) -> Fault {
        match why {
            Hindrance::NoPath => Fault::NoPath,
            Hindrance::NoName => Fault::NoName,
            Hindrance::TooLong => Fault::TooLong,
            Hindrance::NoKey => Fault::NoKey,
            Hindrance::NoParent => Fault::NoParent,
            Hindrance::NoValue => Fault::NoValue,
            Hindrance::HasSubkeys => Fault::HasSubkeys,
            Hindrance::IsRoot => Fault::IsRoot,
        }
    }
}

impl From<ChangeEnd> for Fault {
    ghost from_gives = { λ end made. made ≡ change_ended end };

    fn from(fault: ChangeEnd) -> Fault {
        match fault {
            ChangeEnd::Load(fault) => Fault::Load(fault),
            ChangeEnd::Hindered(why) => Fault::from(why),
            ChangeEnd::Call(ImportFault::Refused { status, .. }) => Fault::NoChange { status },
            ChangeEnd::Call(ImportFault::Memory) | ChangeEnd::Memory => Fault::Memory,
        }
    }
}

/// What ended the comparison of two files early, by the file that it is about.
#[derive(Debug, Drop)]
pub enum DiffEnd {
    Old(Fault),
    New(Fault),
}

impl From<DiffFault> for DiffEnd {
    ghost from_gives = { λ fault made. is_diff_end_cut made ≡ is_diff_cut fault };

    fn from(fault: DiffFault) -> DiffEnd {
        match fault {
            DiffFault::Old(fault) => DiffEnd::Old(Fault::Load(fault)),
            DiffFault::New(fault) => DiffEnd::New(Fault::Load(fault)),
            DiffFault::NoOldKey => DiffEnd::Old(Fault::NoKey),
            DiffFault::NoNewKey => DiffEnd::New(Fault::NoKey),
            DiffFault::Stopped(fault) => DiffEnd::Old(Fault::from(fault)),
        }
    }
}

impl From<ChangesEnd> for DiffEnd {
    ghost from_gives = { λ fault made. is_diff_end_cut made ≡ is_changes_cut fault };

    fn from(fault: ChangesEnd) -> DiffEnd {
        match fault {
            ChangesEnd::Old(fault) => DiffEnd::Old(Fault::Load(fault)),
            ChangesEnd::New(fault) => DiffEnd::New(Fault::Load(fault)),
            ChangesEnd::Export(fault) => DiffEnd::New(Fault::from(fault)),
        }
    }
}

/// What ended a command that saves a file early. A script on the hive writes to the output, and a step on the files doesn't.
#[derive(Debug, Drop)]
pub enum SaveEnd {
    /// The image doesn't load, or what was to be made of its hive was ended, or lines of the script failed.
    Hive(Fault),
    /// The file of a text can't be opened.
    Text(Fault),
    /// A step on the files, or the clock, was refused, or memory for it: before the image was read, or as it was saved; or the hive can't
    /// be built anew.
    Files(Fault),
}

impl From<Fault> for SaveEnd {
    ghost use Rattle.reg_files.specs.declared.fault.SaveEnd.{SaveEnd};

    ghost from_gives = { λ fault made. made ≡ SaveEnd.Files fault };

    fn from(fault: Fault) -> SaveEnd {
        SaveEnd::Files(fault)
    }
}

/// What ended a copy from one file to another early, by the file that it is about.
#[derive(Debug, Drop)]
pub enum CopyStop {
    /// The file that is copied from can't be read, doesn't load, or hasn't the key.
    Source(Fault),
    /// The other one can't be changed so, or saved.
    Target(SaveEnd),
}

impl From<Fault> for CopyStop {
    ghost use Rattle.reg_files.specs.declared.fault.CopyStop.{CopyStop};
    ghost use Rattle.reg_files.specs.declared.fault.SaveEnd.{SaveEnd};

    ghost from_gives = { λ fault made. made ≡ CopyStop.Target (SaveEnd.Files fault) };

    fn from(fault: Fault) -> CopyStop {
        CopyStop::Target(SaveEnd::Files(fault))
    }
}

impl From<AllocError> for CopyStop {
    ghost use Rattle.reg_files.specs.declared.fault.CopyStop.{CopyStop};
    ghost use Rattle.reg_files.specs.declared.fault.Fault.{Fault};
    ghost use Rattle.reg_files.specs.declared.fault.SaveEnd.{SaveEnd};

    ghost from_gives = { λ _ made. made ≡ CopyStop.Target (SaveEnd.Files Fault.Memory) };

    fn from(_fault: AllocError) -> CopyStop {
        CopyStop::Target(SaveEnd::Files(Fault::Memory))
    }
}

impl From<FreshFault> for Fault {
    ghost from_gives = { λ end made. made ≡ fresh_ended end };

    fn from(fault: FreshFault) -> Fault {
        match fault {
            FreshFault::Name => Fault::Name,
            FreshFault::Memory => Fault::Memory,
        }
    }
}

impl From<AllocError> for Fault {
    fn from(_fault: AllocError) -> Fault {
        Fault::Memory
    }
}

/// The fault of a step that the system refused.
pub fn refused(step: Step, error: io::Error) -> Fault
    ensures memory { error_kind error ≡ OutOfMemory → result ≡ Fault.Memory }
    ensures step { error_kind error ≢ OutOfMemory → result ≡ Fault.Step step error }
    ensures of_step { IsOfStep step result }
    ensures cut { is_cut result ≡ false }
{
    if error.kind() == ErrorKind::OutOfMemory {
        return Fault::Memory;
    }
    Fault::Step { step, error }
}

/// What a step gave, or the fault that it is refused.
pub fn taken<T>(step: Step, answer: io::Result<T>) -> Result<T, Fault>
    ensures given { MatchResult answer (λ value. result ≡ Ok value) (λ _. IsErr result) }
    ensures of_step { IfErr result (λ fault. IsOfStep step fault) }
    ensures err { IfErr result (λ fault. is_cut fault ≡ false) }
{
    match answer {
        Ok(value) => Ok(value),
        Err(error) => Err(refused(step, error)),
    }
}

impl Fault {
    /// Whether it is a failed write of the output: of a text, or of a script's replies.
    pub fn is_failed_write(&self) -> bool
        ensures { result ≡ is_cut self.now }
    {
        match self {
            Fault::Cut(_) | Fault::Script(ScriptFault::Write { .. }) => true,
            _ => false,
        }
    }

    /// The fault of a call that read a file: where a read failed, with the system's error.
    pub fn of_file<D>(self, file: &mut Device<D>) -> Fault
        ensures other { self ≢ Fault.Load LoadFault.Read → result ≡ self }
        ensures cut { is_cut result ≡ is_cut self }
    {
        match self {
            Fault::Load(LoadFault::Read) => Fault::Step {
                step: Step::Read,
                error: file.take_error(),
            },
            fault => fault,
        }
    }

    /// The fault of a call that looked into a file: where a read failed, with the system's error.
    pub fn of_image<F>(self, image: &mut Image<F>) -> Fault
        ensures other { self ≢ Fault.Load LoadFault.Read → result ≡ self }
        ensures cut { is_cut result ≡ is_cut self }
    {
        match self {
            Fault::Load(LoadFault::Read) => Fault::Step {
                step: Step::Read,
                error: image.take_error(),
            },
            other => other,
        }
    }
}
