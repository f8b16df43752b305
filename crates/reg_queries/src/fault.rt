//! Why a query of an image wasn't answered.

use reg_dotreg_writer::ExportFault;
use reg_find::PatternFault;
use reg_tree_image::LoadFault;
use reg_tree_text::{DumpFault, PathFault};

/// Why a key or a value of an image wasn't written, or not to the end.
#[derive(Clone, Copy, Debug, PartialEq, Eq)]
pub enum QueryFault {
    /// The image doesn't load.
    Load(LoadFault),
    /// There is none, or a write or memory failed.
    Query(PathFault),
}

/// Why a pattern wasn't searched for in an image, or not to the end.
#[derive(Clone, Copy, Debug, PartialEq, Eq)]
pub enum FindFault {
    /// The text is no pattern, or none that is compiled.
    Pattern(PatternFault),
    /// The image doesn't load.
    Load(LoadFault),
    /// A write or memory failed.
    Stopped(DumpFault),
}

/// Why it wasn't written how two images differ, or not to the end.
#[derive(Clone, Copy, Debug, PartialEq, Eq)]
pub enum DiffFault {
    /// The old image doesn't load.
    Old(LoadFault),
    /// The new image doesn't load.
    New(LoadFault),
    /// The old hive has no key at the path, or the text is no path.
    NoOldKey,
    /// The new hive has no key at the path, and the old one has.
    NoNewKey,
    /// A write or memory failed.
    Stopped(DumpFault),
}

/// Why a key of an image wasn't written as a .reg text, or not to the end.
#[derive(Debug, Drop)]
pub enum ExportEnd {
    /// The image doesn't load.
    Load(LoadFault),
    /// The front can't stand in a .reg text, there is no such key, a name can't be written, or a write or memory failed.
    Export(ExportFault),
}

/// Why it wasn't written as a .reg text what changes from one image to another, or not to the end.
#[derive(Debug, Drop)]
pub enum ChangesEnd {
    /// The old image doesn't load.
    Old(LoadFault),
    /// The new image doesn't load.
    New(LoadFault),
    /// A name can't be written, or a write or memory failed.
    Export(ExportFault),
}
