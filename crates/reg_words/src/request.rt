//! What a command line asks for.

ghost use Rattle.std.specs.Prelude.{◌≤◌};

use crate::typed::KeyChange;

/// A number of hives.
#[derive(Clone, Copy)]
pub struct HiveCount {
    /// From 1 to 16.
    pub number: u8,
    ghost some: { 1 ≤ number },
    ghost few: { number ≤ 16 },
}

/// What is asked of standard input, and is answered on standard output.
#[derive(Clone, Copy)]
pub enum StreamRequest {
    /// The replies to a script.
    Run,
    /// The image, with that sequence number, of the hive that a script leaves.
    Image(u32),
    /// The replies to the sessions of a script, which work side by side on so many hives.
    Workers(HiveCount),
    /// The text of an image's tree.
    Dump,
    /// How many keys and values an image has.
    Check,
}

/// The moment at which an edit begins.
#[derive(Clone, Copy)]
pub enum Begin {
    /// That of the host's clock.
    Now,
    /// This one, in units of 100 ns since 1601.
    At(u64),
}

/// Where a pattern is searched for.
#[derive(Clone, Copy)]
pub struct Places {
    /// In the names of keys.
    pub keys: bool,
    /// In the names of values.
    pub names: bool,
    /// In the data of values, as they are told.
    pub texts: bool,
    /// In the paths of keys.
    pub paths: bool,
    /// In the bytes of values' data.
    pub bytes: bool,
}

/// A form of text in which keys and values are written.
#[derive(Clone, Copy)]
pub enum Form<'a> {
    /// A .reg text.
    Reg {
        /// Whether it is in UTF-8, and not in UTF-16LE.
        is_utf8: bool,
        /// What stands in it for the hive's root, in place of the root's name.
        prefix: Option<&'a str>,
    },
    /// JSON: an array with an object for each key.
    Json,
    /// JSON lines: an object for each key, in a line of its own.
    JsonLines,
    /// CSV: a row for each key and each value.
    Csv,
    /// HTML: a page that shows keys and values.
    Html,
}

/// How the keys of a timeline are written.
#[derive(Clone, Copy)]
pub enum TimelineForm {
    /// A line for each key.
    Text,
    /// CSV: a row for each key.
    Csv,
    /// A body file of The Sleuth Kit.
    Bodyfile,
}

/// What a listing tells of keys and values beside their names.
#[derive(Clone, Copy)]
pub struct Columns {
    /// The data of values.
    pub data: bool,
    /// When keys were last written.
    pub times: bool,
    /// The descriptors of keys.
    pub securities: bool,
    /// Whether each line ends by a zero, in place of a line feed.
    pub ends_by_zero: bool,
}

/// How a value's data are written.
#[derive(Clone, Copy)]
pub enum DataForm {
    /// As text.
    Told,
    /// As text, behind the type and which form of text it is.
    Typed,
    /// Its bytes as they are.
    Raw,
}

/// What `diff` passes over of a key that both hives have.
#[derive(Clone, Copy)]
pub struct Ignored {
    /// When it was last written.
    pub time: bool,
    /// Its descriptor.
    pub security: bool,
    /// The order of its values.
    pub order: bool,
    /// Its class.
    pub class: bool,
    /// Its marks.
    pub marks: bool,
}

/// How `diff` writes what differs.
#[derive(Drop)]
pub enum DiffForm {
    /// A line for each difference of a key and of those below it.
    Lines {
        /// The key's path; the empty one is the root's.
        path: Vec<u8>,
        ignored: Ignored,
    },
    /// A .reg text that makes the new hive's keys and values of the old one's, in UTF-16LE or in UTF-8.
    Reg {
        is_utf8: bool,
    },
}

/// A shell whose completions are written.
#[derive(Clone, Copy)]
pub enum Shell {
    Bash,
    Zsh,
    Fish,
}

/// A hive file that is only looked into.
#[derive(Clone, Copy)]
pub struct HiveFile<'a> {
    pub file: &'a str,
    /// Whether it is read as it stands, too, where it wasn't written to its end.
    pub is_dirty: bool,
}

/// What a listing is asked for.
#[derive(Drop)]
pub struct ListRequest<'a> {
    pub hive: HiveFile<'a>,
    /// The key's path; the empty one is the root's.
    pub path: Vec<u8>,
    /// Whether all that is below it is listed, and not only what is right below.
    pub is_tree: bool,
    /// Whether the whole hive is tested first, and not only what is read on the way.
    pub is_whole: bool,
    pub columns: Columns,
}

/// Which value is asked for, and how.
#[derive(Drop)]
pub struct GetRequest<'a> {
    pub hive: HiveFile<'a>,
    /// Its key's path; the empty one is the root's.
    pub path: Vec<u8>,
    /// Its name; the empty one is that of the default value.
    pub name: Vec<u8>,
    pub form: DataForm,
    /// Whether the whole hive is tested first, and not only what is read on the way.
    pub is_whole: bool,
}

/// What is searched for.
#[derive(Clone, Copy)]
pub struct FindRequest<'a> {
    pub hive: HiveFile<'a>,
    /// A regular expression.
    pub pattern: &'a str,
    /// Whether upper and lower case are the same.
    pub ignores_case: bool,
    pub places: Places,
}

/// What a timeline is asked for.
#[derive(Drop)]
pub struct TimelineRequest<'a> {
    pub files: Vec<&'a str>,
    /// Whether they are read as they stand, too, where they weren't written to their end.
    pub is_dirty: bool,
    /// The first moment, in units of 100 ns since 1601.
    pub from: u64,
    /// The last one.
    pub to: u64,
    pub form: TimelineForm,
}

/// What a command that saves a file is asked for of it.
#[derive(Clone, Copy)]
pub struct EditRequest<'a> {
    pub file: &'a str,
    /// A file to be made, in which to save in place of that one.
    pub output: Option<&'a str>,
    pub begin: Begin,
    /// How many seconds to wait for a file that is locked.
    pub wait: u32,
    /// Whether nothing is to be saved.
    pub dry_run: bool,
}

/// What a command line asks for.
#[derive(Drop)]
pub enum Request<'a> {
    /// What is done with the standard streams alone.
    Stream(StreamRequest),
    /// The text of a file's tree.
    Dump(HiveFile<'a>),
    /// How many keys and values each of some files has.
    Check {
        files: Vec<&'a str>,
        /// Whether they are read as they stand, too, where they weren't written to their end.
        is_dirty: bool,
        /// Whether more is told of each than that.
        is_verbose: bool,
    },
    /// What is below a key of a file.
    Listing(ListRequest<'a>),
    /// A value of a file.
    Get(GetRequest<'a>),
    /// The keys and values of a file that a pattern matches.
    Find(FindRequest<'a>),
    /// What differs between the trees of two files.
    Diff {
        old: &'a str,
        new: &'a str,
        /// Whether they are read as they stand, too, where they weren't written to their end.
        is_dirty: bool,
        form: DiffForm,
    },
    /// A key of a file with all that is below it, in another form of text.
    Export {
        hive: HiveFile<'a>,
        /// The key's path; the empty one is the root's.
        path: Vec<u8>,
        form: Form<'a>,
    },
    /// The keys of some files, by when they were last written.
    Timeline(TimelineRequest<'a>),
    /// A fresh hive in a new file.
    New {
        file: &'a str,
        /// The root's name.
        name: &'a str,
    },
    /// A script on the hive of a file.
    Edit {
        edit: EditRequest<'a>,
        /// Whether it goes on after a line that fails.
        keeps_going: bool,
    },
    /// The entries of a .reg text made in the hive of a file.
    Import {
        edit: EditRequest<'a>,
        /// The text's file, in place of standard input.
        text: Option<&'a str>,
        /// What stands in the text for the hive's root, in place of the root's name.
        prefix: Option<&'a str>,
        /// Whether all lines that aren't understood are told, and then nothing is made.
        tells_all: bool,
    },
    /// One change made in the hive of a file.
    Change {
        edit: EditRequest<'a>,
        change: KeyChange,
    },
    /// A key of a file, with all that is below it, copied to right below a key of the hive of another file, which is saved.
    Copy {
        /// Of the other file.
        edit: EditRequest<'a>,
        source: HiveFile<'a>,
        /// The path of the key that is copied; the empty one is the root's.
        path: Vec<u8>,
        /// The path of the key in the other file; the empty one is the root's.
        into: Vec<u8>,
    },
    /// The tool's manual page.
    Manual,
    /// The completions of a shell.
    Completions(Shell),
    /// The tool's version.
    Version,
}
