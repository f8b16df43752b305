//! The tool's commands, and what each takes.

/// How an argument is given.
#[derive(Clone, Copy)]
pub enum ArgForm {
    /// By its name, without a value.
    Flag,
    /// The same, and also by a letter.
    Letter(char),
    /// By its name, with one value.
    Valued { is_required: bool },
    /// By its name, with a number of 32 bits.
    Half,
    /// By its name, with a number of 64 bits.
    Whole,
    /// By its name, with a number from 1 to 16.
    Count,
    /// By its place.
    Place { is_required: bool },
    /// By their places: one or more where any is given.
    Places { is_required: bool },
}

/// An argument.
#[derive(Clone, Copy)]
pub struct ArgRow {
    pub name: &'static str,
    pub form: ArgForm,
    /// What stands for its value in the help; nothing where it has none.
    pub value: &'static str,
    pub help: &'static str,
}

/// A command, with its arguments in their order.
#[derive(Clone, Copy)]
pub struct CommandRow {
    pub name: &'static str,
    pub about: &'static str,
    pub args: &'static [ArgRow],
}

/// A hive that a command looks into.
const HIVE: ArgRow = ArgRow {
    name: "file",
    form: ArgForm::Place { is_required: true },
    value: "FILE",
    help: "The hive",
};

/// One that it saves.
const SAVED: ArgRow = ArgRow {
    name: "file",
    form: ArgForm::Place { is_required: true },
    value: "FILE",
    help: "The hive, which is saved in place",
};

const DIRTY: ArgRow = ArgRow {
    name: "dirty",
    form: ArgForm::Flag,
    value: "",
    help: "Read a file as it stands, too, that wasn't written to its end",
};

/// A key, by its path.
const PATH: ArgRow = ArgRow {
    name: "path",
    form: ArgForm::Place { is_required: true },
    value: "PATH",
    help: "The key, as it is typed: %HH stands for that byte; '' is the root",
};

/// The same where the root is meant without it.
const ANY_PATH: ArgRow = ArgRow {
    name: "path",
    form: ArgForm::Place { is_required: false },
    value: "PATH",
    help: "The key, as it is typed: %HH stands for that byte; '' is the root",
};

const SLASH: ArgRow = ArgRow {
    name: "slash",
    form: ArgForm::Flag,
    value: "",
    help: "Read / in PATH as a backslash",
};

const WHOLE: ArgRow = ArgRow {
    name: "whole",
    form: ArgForm::Flag,
    value: "",
    help: "Test the whole hive first",
};

const UTF8: ArgRow = ArgRow {
    name: "utf8",
    form: ArgForm::Flag,
    value: "",
    help: "Write a .reg text in UTF-8",
};

const OUTPUT: ArgRow = ArgRow {
    name: "output",
    form: ArgForm::Valued { is_required: false },
    value: "FILE",
    help: "Save in this new file instead",
};

const NOW: ArgRow = ArgRow {
    name: "now",
    form: ArgForm::Flag,
    value: "",
    help: "Begin at the moment of the clock, as without --at",
};

const AT: ArgRow = ArgRow {
    name: "at",
    form: ArgForm::Whole,
    value: "MOMENT",
    help: "Begin at this moment, in units of 100 ns since 1601",
};

const DRY_RUN: ArgRow = ArgRow {
    name: "dry-run",
    form: ArgForm::Flag,
    value: "",
    help: "Save nothing",
};

const WAIT: ArgRow = ArgRow {
    name: "wait",
    form: ArgForm::Half,
    value: "SECONDS",
    help: "Wait so long for a file that somebody else edits",
};

/// `run`.
pub const RUN: CommandRow = CommandRow {
    name: "run",
    about: "Runs a script of registry calls from standard input on a fresh hive",
    args: &[
        ArgRow {
            name: "image",
            form: ArgForm::Half,
            value: "SEQ",
            help: "Write the hive's image with this sequence number, and no replies",
        },
        ArgRow {
            name: "workers",
            form: ArgForm::Count,
            value: "N",
            help: "Run each session on a thread of its own, on N fresh hives",
        },
    ],
};

/// `dump`.
pub const DUMP: CommandRow = CommandRow {
    name: "dump",
    about: "Tells the keys of a hive",
    args: &[
        ArgRow {
            name: "file",
            form: ArgForm::Place { is_required: false },
            value: "FILE",
            help: "The hive, in place of standard input",
        },
        DIRTY,
    ],
};

/// `check`.
pub const CHECK: CommandRow = CommandRow {
    name: "check",
    about: "Loads hives and counts their keys",
    args: &[
        ArgRow {
            name: "files",
            form: ArgForm::Places { is_required: false },
            value: "FILE",
            help: "The hives, in place of standard input",
        },
        DIRTY,
        ArgRow {
            name: "verbose",
            form: ArgForm::Letter('v'),
            value: "",
            help: "Tell of a faulty file why, at which offset of its bins, and in which key",
        },
    ],
};

/// `ls`.
pub const LIST: CommandRow = CommandRow {
    name: "ls",
    about: "Lists the values and subkeys of a key",
    args: &[
        HIVE,
        DIRTY,
        ANY_PATH,
        SLASH,
        ArgRow {
            name: "tree",
            form: ArgForm::Flag,
            value: "",
            help: "List all that is below it",
        },
        WHOLE,
        ArgRow {
            name: "long",
            form: ArgForm::Letter('l'),
            value: "",
            help: "Tell the data of values, too",
        },
        ArgRow {
            name: "time",
            form: ArgForm::Flag,
            value: "",
            help: "Tell when keys were last written",
        },
        ArgRow {
            name: "security",
            form: ArgForm::Flag,
            value: "",
            help: "Tell the descriptors of keys",
        },
        ArgRow {
            name: "null",
            form: ArgForm::Flag,
            value: "",
            help: "End each line by a zero",
        },
    ],
};

/// `get`.
pub const GET: CommandRow = CommandRow {
    name: "get",
    about: "Tells the data of a value",
    args: &[
        HIVE,
        DIRTY,
        PATH,
        SLASH,
        ArgRow {
            name: "value",
            form: ArgForm::Place { is_required: false },
            value: "NAME",
            help: "The value, as it is typed; @, or nothing, for the default one",
        },
        ArgRow {
            name: "raw",
            form: ArgForm::Flag,
            value: "",
            help: "Write its bytes",
        },
        ArgRow {
            name: "type",
            form: ArgForm::Flag,
            value: "",
            help: "Tell its type, and the form of its data, too",
        },
        WHOLE,
    ],
};

/// `find`.
pub const FIND: CommandRow = CommandRow {
    name: "find",
    about: "Tells the keys and values that a pattern matches",
    args: &[
        HIVE,
        DIRTY,
        ArgRow {
            name: "pattern",
            form: ArgForm::Place { is_required: true },
            value: "PATTERN",
            help: "A regular expression",
        },
        ArgRow {
            name: "in",
            form: ArgForm::Valued { is_required: false },
            value: "PLACES",
            help: "Search in these, parted by commas: keys, names, data, paths, bytes",
        },
        ArgRow {
            name: "ignore-case",
            form: ArgForm::Letter('i'),
            value: "",
            help: "Pass over upper and lower case",
        },
    ],
};

/// `diff`.
pub const DIFF: CommandRow = CommandRow {
    name: "diff",
    about: "Tells what differs between two hives",
    args: &[
        ArgRow {
            name: "old",
            form: ArgForm::Place { is_required: true },
            value: "OLD",
            help: "A hive",
        },
        ArgRow {
            name: "new",
            form: ArgForm::Place { is_required: true },
            value: "NEW",
            help: "Another one",
        },
        DIRTY,
        ANY_PATH,
        SLASH,
        ArgRow {
            name: "ignore",
            form: ArgForm::Valued { is_required: false },
            value: "FIELDS",
            help: "Pass over these, parted by commas: time, security, order, class, marks",
        },
        ArgRow {
            name: "as",
            form: ArgForm::Valued { is_required: false },
            value: "FORM",
            help: "reg: write a .reg text that makes NEW of OLD",
        },
        UTF8,
    ],
};

/// `export`.
pub const EXPORT: CommandRow = CommandRow {
    name: "export",
    about: "Writes a key with all below it as text",
    args: &[
        HIVE,
        DIRTY,
        ANY_PATH,
        SLASH,
        ArgRow {
            name: "as",
            form: ArgForm::Valued { is_required: true },
            value: "FORM",
            help: "The form of the text: reg, json, jsonl, csv or html",
        },
        UTF8,
        ArgRow {
            name: "prefix",
            form: ArgForm::Valued { is_required: false },
            value: "FRONT",
            help: "What stands in a .reg text for the hive's root, its name where none is given",
        },
    ],
};

/// `timeline`.
pub const TIMELINE: CommandRow = CommandRow {
    name: "timeline",
    about: "Tells keys by when they were last written",
    args: &[
        ArgRow {
            name: "files",
            form: ArgForm::Places { is_required: true },
            value: "FILE",
            help: "The hives",
        },
        DIRTY,
        ArgRow {
            name: "from",
            form: ArgForm::Valued { is_required: false },
            value: "TIME",
            help: "From this moment on: 2022-06-18T04:26:40Z, a date, or units of 100 ns since 1601",
        },
        ArgRow {
            name: "to",
            form: ArgForm::Valued { is_required: false },
            value: "TIME",
            help: "Up to this moment",
        },
        ArgRow {
            name: "as",
            form: ArgForm::Valued { is_required: false },
            value: "FORM",
            help: "The form of the text: text, csv or bodyfile",
        },
    ],
};

/// `new`.
pub const NEW: CommandRow = CommandRow {
    name: "new",
    about: "Makes a file with a fresh hive",
    args: &[
        ArgRow {
            name: "file",
            form: ArgForm::Place { is_required: true },
            value: "FILE",
            help: "The file, which must not be there yet",
        },
        ArgRow {
            name: "name",
            form: ArgForm::Valued { is_required: false },
            value: "NAME",
            help: "The root's name, ROOT where none is given",
        },
    ],
};

/// `edit`.
pub const EDIT: CommandRow = CommandRow {
    name: "edit",
    about: "Runs a script from standard input on a hive, and saves what it changed",
    args: &[
        SAVED,
        OUTPUT,
        NOW,
        AT,
        DRY_RUN,
        WAIT,
        ArgRow {
            name: "keep-going",
            form: ArgForm::Flag,
            value: "",
            help: "Go on after a line that fails, and save what the others changed",
        },
    ],
};

/// `import`.
pub const IMPORT: CommandRow = CommandRow {
    name: "import",
    about: "Makes the entries of a .reg text in a hive, and saves it",
    args: &[
        SAVED,
        OUTPUT,
        NOW,
        AT,
        DRY_RUN,
        WAIT,
        ArgRow {
            name: "text",
            form: ArgForm::Place { is_required: false },
            value: "TEXT",
            help: "The .reg text, standard input where none is given",
        },
        ArgRow {
            name: "prefix",
            form: ArgForm::Valued { is_required: false },
            value: "FRONT",
            help: "What stands in the text for the hive's root, its name where none is given",
        },
        ArgRow {
            name: "all-errors",
            form: ArgForm::Flag,
            value: "",
            help: "Tell all lines that aren't understood, and save nothing where there are any",
        },
    ],
};

/// `set`.
pub const SET: CommandRow = CommandRow {
    name: "set",
    about: "Sets a value of a key, and saves the hive",
    args: &[
        SAVED,
        OUTPUT,
        NOW,
        AT,
        DRY_RUN,
        WAIT,
        PATH,
        SLASH,
        ArgRow {
            name: "value",
            form: ArgForm::Place { is_required: true },
            value: "NAME",
            help: "The value, @ for the default one",
        },
        ArgRow {
            name: "type",
            form: ArgForm::Place { is_required: true },
            value: "TYPE",
            help: "sz, expand, multi, dword, qword, binary, none or a number",
        },
        ArgRow {
            name: "data",
            form: ArgForm::Places { is_required: false },
            value: "DATA",
            help: "Its data: a text, texts, a number, or bytes as digits",
        },
        ArgRow {
            name: "parents",
            form: ArgForm::Flag,
            value: "",
            help: "Make the key and those above it where they are missing",
        },
    ],
};

/// `create`.
pub const CREATE: CommandRow = CommandRow {
    name: "create",
    about: "Makes a key, and saves the hive",
    args: &[
        SAVED,
        OUTPUT,
        NOW,
        AT,
        DRY_RUN,
        WAIT,
        PATH,
        SLASH,
        ArgRow {
            name: "parents",
            form: ArgForm::Flag,
            value: "",
            help: "Make the keys above it where they are missing",
        },
    ],
};

/// `delete`.
pub const DELETE: CommandRow = CommandRow {
    name: "delete",
    about: "Takes a value or a key away, and saves the hive",
    args: &[
        SAVED,
        OUTPUT,
        NOW,
        AT,
        DRY_RUN,
        WAIT,
        PATH,
        SLASH,
        ArgRow {
            name: "value",
            form: ArgForm::Place { is_required: false },
            value: "NAME",
            help: "The value, @ for the default one; the key where none is given",
        },
        ArgRow {
            name: "tree",
            form: ArgForm::Flag,
            value: "",
            help: "Take all keys below it away, too",
        },
    ],
};

/// `copy`.
pub const COPY: CommandRow = CommandRow {
    name: "copy",
    about: "Copies a key with all below it to another hive, and saves that",
    args: &[
        HIVE,
        DIRTY,
        PATH,
        SLASH,
        ArgRow {
            name: "to-file",
            form: ArgForm::Place { is_required: true },
            value: "TO-FILE",
            help: "The hive to copy to, which is saved in place",
        },
        ArgRow {
            name: "to-path",
            form: ArgForm::Place { is_required: true },
            value: "TO-PATH",
            help: "The key there, right below which the copy stands, as it is typed",
        },
        OUTPUT,
        NOW,
        AT,
        DRY_RUN,
        WAIT,
    ],
};

/// `manual`.
pub const MANUAL: CommandRow = CommandRow {
    name: "manual",
    about: "Writes the manual page",
    args: &[],
};

/// `completions`.
pub const COMPLETIONS: CommandRow = CommandRow {
    name: "completions",
    about: "Writes the completions of a shell",
    args: &[ArgRow {
        name: "shell",
        form: ArgForm::Place { is_required: true },
        value: "SHELL",
        help: "bash, zsh or fish",
    }],
};

/// `version`.
pub const VERSION: CommandRow = CommandRow {
    name: "version",
    about: "Tells the tool's version",
    args: &[],
};
