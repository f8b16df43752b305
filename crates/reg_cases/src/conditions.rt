//! What stands between a command and the system, as the lines of its step say: devices that stop or fail, and a step that is refused.

/// What the system refuses.
#[derive(Clone, Copy)]
pub enum Refused {
    Nothing,
    Clock,
    Create,
    Permit,
    /// To give a file to another owner.
    Owner,
    /// To give a file to another owner or to another group.
    Group,
    /// Writes past so many bytes of a file.
    Write(usize),
    Sync,
    Rename,
    /// To rename over a file whose lock nobody has.
    Unlocked,
    /// To open a folder.
    Folder,
    /// Reads past so many bytes of a file.
    Read(usize),
    /// The lock, as where another one has it.
    Lock,
}

/// How a call of a device fails.
#[derive(Clone, Copy)]
pub enum Failing {
    /// It answers 0, as at an end.
    Nothing,
    /// By an error, as a pipe that broke; a flush doesn't fail.
    Broken,
    /// As a pipe whose reader closed it. A flush fails, too.
    Closed,
    /// As a device that is full. A flush fails, too.
    Full,
    /// By an error that says that the call may be made again.
    Interrupted,
    /// A flush fails, and nothing else.
    Flush,
}

/// How a device works.
#[derive(Clone, Copy)]
pub struct Habits {
    /// How many bytes a call gives or takes at most.
    pub step: usize,
    /// How many bytes it takes in all.
    pub room: usize,
    /// Which call fails, from 1; 0 for none. Those behind it don't.
    pub call: usize,
    /// How a call fails: that one, one past the room, or one at the input's end.
    pub failing: Failing,
}

/// What stands between a command and the system.
#[derive(Clone, Copy)]
pub struct Conditions {
    /// What the system refuses.
    pub refused: Refused,
    /// The second since 1970 at which its clock stands, if it does.
    pub clock: Option<u64>,
    /// How standard input works.
    pub reads: Habits,
    /// How standard output works.
    pub writes: Habits,
    /// Whether a line of input comes only once the replies to those before it were passed on.
    pub in_turns: bool,
    /// Whether the output is a front of what is wanted.
    pub is_front: bool,
}

/// What the system refuses, by a word alone.
const REFUSED: [(&str, Refused); 11] = [
    ("nothing", Refused::Nothing),
    ("clock", Refused::Clock),
    ("create", Refused::Create),
    ("permit", Refused::Permit),
    ("owner", Refused::Owner),
    ("group", Refused::Group),
    ("sync", Refused::Sync),
    ("rename", Refused::Rename),
    ("unlocked", Refused::Unlocked),
    ("folder", Refused::Folder),
    ("lock", Refused::Lock),
];

/// How a call of a device fails, by a word.
const FAILING: [(&str, Failing); 6] = [
    ("nothing", Failing::Nothing),
    ("broken", Failing::Broken),
    ("closed", Failing::Closed),
    ("full", Failing::Full),
    ("interrupted", Failing::Interrupted),
    ("flush", Failing::Flush),
];

impl Habits {
    /// A device that gives or takes all at once.
    const WIDE: Habits = Habits {
        step: usize::MAX,
        room: usize::MAX,
        call: 0,
        failing: Failing::Nothing,
    };

    /// The same with room for so many bytes in all, and how a call fails past them.
    fn with_room(self, words: &[&str]) -> Option<Habits> {
        let [room, how] = words else {
            return None;
        };
        Some(Habits {
            room: number_in(room)?,
            failing: named(&FAILING, how)?,
            ..self
        })
    }
}

impl Conditions {
    /// Nothing stands between them.
    pub const NONE: Conditions = Conditions {
        refused: Refused::Nothing,
        clock: None,
        reads: Habits::WIDE,
        writes: Habits::WIDE,
        in_turns: false,
        is_front: false,
    };

    /// Takes in what the words of a line say; `None` where they are no condition.
    pub fn add(&mut self, words: &[&str]) -> Option<()> {
        let (what, rest) = words.split_first()?;
        match *what {
            "refused" => self.refused = refused_in(rest)?,
            "clock" => self.clock = Some(clock_in(rest)?),
            "reads" => self.reads = habits_in(rest)?,
            "writes" => self.writes = habits_in(rest)?,
            "takes" => self.writes = self.writes.with_room(rest)?,
            _ => self.add_manner(words)?,
        }
        Some(())
    }

    /// Takes in how input comes, or what of the output is wanted.
    fn add_manner(&mut self, words: &[&str]) -> Option<()> {
        match words {
            ["in", "turns"] => self.in_turns = true,
            ["front"] => self.is_front = true,
            _ => return None,
        }
        Some(())
    }
}

/// The number that a word is.
fn number_in(word: &str) -> Option<usize> {
    word.parse::<usize>().ok()
}

/// The second at which a clock stands.
fn clock_in(words: &[&str]) -> Option<u64> {
    match words {
        [second] => second.parse::<u64>().ok(),
        _ => None,
    }
}

/// What words say that the system refuses.
fn refused_in(words: &[&str]) -> Option<Refused> {
    match words {
        [word] => named(&REFUSED, word),
        ["write", past] => Some(Refused::Write(number_in(past)?)),
        ["read", past] => Some(Refused::Read(number_in(past)?)),
        _ => None,
    }
}

/// What a word names in a table.
fn named<T: Copy>(table: &[(&str, T)], word: &str) -> Option<T> {
    for (name, what) in table {
        if *name == word {
            return Some(*what);
        }
    }
    None
}

/// How a device works, by words: how many bytes a call, and which call fails, if one does, and how.
fn habits_in(words: &[&str]) -> Option<Habits> {
    let mut habits = Habits::WIDE;
    match words {
        [step] => habits.step = number_in(step)?,
        [step, "call", call, how] => {
            habits.step = number_in(step)?;
            habits.call = number_in(call)?;
            habits.failing = named(&FAILING, how)?;
        }
        [step, "end", how] => {
            habits.step = number_in(step)?;
            habits.failing = named(&FAILING, how)?;
        }
        _ => return None,
    }
    Some(habits)
}
