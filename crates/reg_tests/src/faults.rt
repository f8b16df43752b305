//! The words that faults are told in, which no clause says.
use crate::support::assert_report;
use reg_arena::ArenaFault;
use reg_calls::{NewFault, RunFault};
use reg_copy::CopyFault;
use reg_journal::SeatFault;
use reg_names::NameFault;
use reg_records::RecordFault;
use reg_script::ScriptFault;
use reg_tree::TreeFault;
use reg_tree_image::{ImageFault, LoadFault, WriteFault};
use reg_tree_text::DumpFault;
use std::alloc::AllocError;
use std::fmt::Display;
use std::test::Fail;

/// A line for each of these faults.
fn tell<F: Display>(text: &mut String, faults: &[F]) -> Result<(), AllocError> {
    for fault in faults {
        write!(text, "{fault}\n")?;
    }
    Ok(())
}

/// The faults of what is loaded and written, and of scripts.
fn tell_devices(text: &mut String) -> Result<(), AllocError> {
    tell(
        text,
        &[
            LoadFault::Read,
            LoadFault::Short,
            LoadFault::Signature,
            LoadFault::Version,
            LoadFault::Checksum,
            LoadFault::Dirty,
            LoadFault::Bins,
            LoadFault::Cells,
            LoadFault::Record,
            LoadFault::Loop,
            LoadFault::Twice,
            LoadFault::NotInProfile,
            LoadFault::Limit,
            LoadFault::Memory,
        ],
    )?;
    tell(text, &[ImageFault::Memory])?;
    tell(text, &[WriteFault { written: 4096 }])?;
    tell(text, &[DumpFault::Write { written: 7 }])?;
    tell(
        text,
        &[
            ScriptFault::Write { written: 0 },
            ScriptFault::Read,
            ScriptFault::TooLong,
            ScriptFault::Memory,
        ],
    )
}

/// The faults of names, records, arenas, trees and hives.
fn tell_keys(text: &mut String) -> Result<(), AllocError> {
    tell(
        text,
        &[
            NameFault::Empty,
            NameFault::BadByte,
            NameFault::NameTooLong,
            NameFault::TooManyLevels,
        ],
    )?;
    tell(
        text,
        &[
            RecordFault::Short,
            RecordFault::Signature,
            RecordFault::Length,
            RecordFault::NotInProfile,
        ],
    )?;
    tell(text, &[ArenaFault::Full, ArenaFault::Memory])?;
    tell(
        text,
        &[
            TreeFault::NotFound,
            TreeFault::HasChildren,
            TreeFault::NoDelete,
            TreeFault::Limit,
            TreeFault::Full,
            TreeFault::Memory,
        ],
    )?;
    tell(
        text,
        &[NewFault::Name, NewFault::Descriptor, NewFault::Memory],
    )?;
    tell(
        text,
        &[SeatFault::Seated, SeatFault::Count, SeatFault::Memory],
    )?;
    tell(text, &[RunFault::Session, RunFault::Memory])?;
    tell(
        text,
        &[
            CopyFault::NoKey,
            CopyFault::NoPlace,
            CopyFault::Taken,
            CopyFault::Limit,
            CopyFault::Full,
            CopyFault::Memory,
        ],
    )
}

#[test]
fn each_fault_has_its_words(rt: HostRuntime) -> Result<(), Fail> {
    let wanted = "\
the image can't be read
the image ends too early
the image has another signature
the image has a version that isn't supported
the checksum of the base block is wrong
the image wasn't written to its end
a bin is bad
a cell is bad
a record is bad
a key is below itself
a cell or a name comes twice
the image has something that isn't supported
a limit is passed
memory runs out
no memory for the image
a write failed after 4096 bytes
a write failed after 7 bytes
a write failed after 0 bytes
a read failed
a line is too long, or there are too many
no memory
the name is empty
the name has a byte that names may not have
the name is too long
the path has too many names
the cell is too short for the record
the record has another signature
a length in the record passes the end of its cell
the key node has a flag that is not supported
the bins have no room
no memory
there is no value of that name
the key has subkeys
the key may not be deleted
there would be too many keys or values
the bins have no room
no memory
the root's name is no key name
the descriptor is empty or too long
no memory
seats were given before
no session, or more than 64
no memory
a session of the steps has no share in its place, or one that isn't current
no memory for the outcomes
there is no such key
there is no key to copy into
a key of that name is there
there would be too many keys below one another or beside each other
the bins have no room
no memory
";
    let mut text = String::new(rt.alloc());
    tell_devices(&mut text)?;
    tell_keys(&mut text)?;
    assert_report(Ok(text), wanted)
}
