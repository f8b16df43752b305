//! A gate at which sessions wait for one another, and not for ever; of hive 0 it tells whether two calls were inside at once.
use reg_sessions::HiveGate;
use std::alloc::AllocError;
use std::sync::atomic::{AtomicBool, AtomicU64, Ordering};

/// How often a flag is looked at before a wait is given up: so many turns, of so many reads.
const TURNS: u32 = 1_000_000;

const READS: u32 = 1_000;

/// How long a call stays inside hive 0: so many reads of a flag.
const STAY: u32 = 1_000;

/// Where the gate is told of a call: inside the lock, or once it is answered.
pub const INSIDE: bool = true;

pub const ANSWERED: bool = false;

/// What it does there with a flag.
pub const RAISES: bool = true;

pub const AWAITS: bool = false;

/// Where it does something: inside or answered, of which session at which hive; and what it does, with the flag 0 or 1.
pub type Rule = (bool, u8, u8, bool, u8);

/// A gate, what it does, and what it saw.
#[derive(Drop)]
pub struct Gate {
    rules: &'static [Rule],
    first: AtomicBool,
    second: AtomicBool,
    failed: AtomicBool,
    busy: AtomicBool,
    crowded: AtomicBool,
    inside: AtomicU64,
    answered: AtomicU64,
}

/// Whether a flag is raised before long.
fn is_raised(flag: &AtomicBool) -> bool {
    for _turn in 0..TURNS {
        for _read in 0..READS {
            if flag.load(Ordering::SeqCst) {
                return true;
            }
        }
    }
    false
}

impl Gate {
    pub fn new(rules: &'static [Rule]) -> Gate {
        Gate {
            rules,
            first: AtomicBool::new(false),
            second: AtomicBool::new(false),
            failed: AtomicBool::new(false),
            busy: AtomicBool::new(false),
            crowded: AtomicBool::new(false),
            inside: AtomicU64::new(0),
            answered: AtomicU64::new(0),
        }
    }

    /// Raises a flag, or waits for it.
    fn act(&self, raises: bool, flag: u8) {
        let flag = if flag == 0 { &self.first } else { &self.second };
        if raises {
            flag.store(true, Ordering::SeqCst);
        } else if !is_raised(flag) {
            self.failed.store(true, Ordering::SeqCst);
        }
    }

    /// Does what the rules say of a place.
    fn obey(&self, place: bool, session: u8, hive: u8) {
        for (at, by, of, raises, flag) in self.rules {
            if *at == place && *by == session && *of == hive {
                self.act(*raises, *flag);
            }
        }
    }

    /// Notes whether another call is inside hive 0 meanwhile.
    fn stay(&self) {
        if self.busy.swap(true, Ordering::SeqCst) {
            self.crowded.store(true, Ordering::SeqCst);
        }
        for _read in 0..STAY {
            let _ = self.busy.load(Ordering::SeqCst);
        }
        self.inside.fetch_add(1, Ordering::SeqCst);
        self.busy.store(false, Ordering::SeqCst);
    }

    /// Writes what it saw of hive 0, which flags were raised, and whether somebody waited in vain.
    pub fn tell(&self, text: &mut String) -> Result<(), AllocError> {
        write!(
            text,
            "crowded {}, {} inside, {} answered, flags {} {}, failed {}\n",
            self.crowded.load(Ordering::SeqCst),
            self.inside.load(Ordering::SeqCst),
            self.answered.load(Ordering::SeqCst),
            self.first.load(Ordering::SeqCst),
            self.second.load(Ordering::SeqCst),
            self.failed.load(Ordering::SeqCst)
        )
    }
}

impl HiveGate for Gate {
    fn inside(&self, session: u8, hive: u8) {
        if hive == 0 {
            self.stay();
        }
        self.obey(INSIDE, session, hive);
    }

    fn answered(&self, session: u8, hive: u8) {
        if hive == 0 {
            self.answered.fetch_add(1, Ordering::SeqCst);
        }
        self.obey(ANSWERED, session, hive);
    }
}
