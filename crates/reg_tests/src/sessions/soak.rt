//! Sixty-four sessions on threads of their own at sixteen hives, with calls taken at random. When all are gathered, each hive's journal,
//! run again on one thread, is answered as it was, and leaves the same tree.
use crate::sessions::stage::{Cast, started};
use crate::support::{assert_report, seated};
use reg_callbacks::NoCallback;
use reg_calls::{Hive, SeatedHive};
use reg_fixtures::Chance;
use reg_sessions::Audit;
use reg_tree::Tree;
use reg_tree_text::dump;
use std::alloc::{AllocError, Global};
use std::env;
use std::sync::Wait;
use std::test::Fail;
use std::thread::Threads;

const HIVES: usize = 16;

/// The most sessions that there may be.
const SESSIONS: u8 = 64;

/// The numbers of a soak. `tools/soak` and `tools/refuse-memory` give others than the gate's, by variables of the environment.
#[derive(Clone, Copy)]
struct Numbers {
    /// The first seed: session 0 has it, and each other session the one after that of the session before.
    seed: u64,
    /// How often all is done, with seeds of its own each time.
    rounds: u64,
    sessions: u8,
    /// How many calls each session makes.
    calls: u32,
    /// More entries than these are many.
    many: u64,
}

/// The number that a variable has, or else the gate's.
fn number(rt: &HostRuntime, name: &str, gates: u64) -> u64 {
    match env::var(rt, name) {
        Ok(text) => text.as_str().parse::<u64>().unwrap_or(gates),
        Err(_) => gates,
    }
}

fn given_numbers(rt: &HostRuntime) -> Numbers {
    Numbers {
        seed: number(rt, "SOAK_SEED", 0),
        rounds: number(rt, "SOAK_ROUNDS", 1),
        sessions: u8::try_from(number(rt, "SOAK_SESSIONS", 64)).unwrap_or(SESSIONS),
        calls: u32::try_from(number(rt, "SOAK_CALLS", 100)).unwrap_or(u32::MAX),
        many: number(rt, "SOAK_MANY", 1_500),
    }
}

/// What is told where all is well.
const WELL: &str = "16 hives, many entries true";

/// The names of keys.
const NAMES: [&str; 6] = [
    "Alpha",
    "beta",
    "Beta\\Gamma",
    "Delta\\e\\f",
    "G",
    "alpha\\h",
];

/// Sizes of data, some of it of more than one segment.
const SIZES: [usize; 7] = [0, 3, 4, 5, 100, 2_000, 17_000];

/// Writes a line of a value that is set, of a size and with a byte at random.
fn push_set(
    alloc: Global,
    chance: &mut Chance,
    handle: u8,
    text: &mut String,
) -> Result<(), AllocError> {
    let digits = format!(in alloc; "{:02x}", chance.byte())?;
    let size = chance.item_of(&SIZES).unwrap_or(4);
    let digits = digits.as_str().repeat(alloc, size)?;
    write!(text, "set {handle} =v 3 x{}", digits.as_str())
}

/// Writes a line with the name of a key at random.
fn push_named(chance: &mut Chance, handle: u8, text: &mut String) -> Result<(), AllocError> {
    let name = chance.item_of(&NAMES).unwrap_or("Alpha");
    match chance.below(4) {
        0 => write!(text, "open {handle} ={name} 983103"),
        1 => write!(text, "create {handle} ={name} 983103"),
        2 => write!(text, "delkey {handle} ={name}"),
        _ => write!(text, "deltree {handle} ={name}"),
    }
}

/// Writes a line at random by a handle.
fn push_line(
    alloc: Global,
    chance: &mut Chance,
    handle: u8,
    text: &mut String,
) -> Result<(), AllocError> {
    match chance.below(15) {
        0 => write!(text, "query {handle} =V 4000"),
        1 => write!(text, "enumkey {handle} 0 255"),
        2 => write!(text, "info {handle}"),
        3..=6 => push_named(chance, handle, text),
        7 => write!(text, "delvalue {handle} =v"),
        8 => write!(text, "setsec {handle} x{:02x}01", chance.byte()),
        9 => write!(text, "notify {handle} 5 1"),
        10 => write!(text, "close {}", chance.below(400)),
        11 => push_set(alloc, chance, handle, text),
        _ => text.push_str("notice"),
    }
}

/// Writes the lines of a session with its seed. Its handle has its number at each hive.
fn push_session(
    alloc: Global,
    numbers: Numbers,
    session: u8,
    text: &mut String,
) -> Result<(), AllocError> {
    let mut chance = Chance::new(numbers.seed.wrapping_add(u64::from(session)));
    write!(text, "as {session}, ")?;
    for call in 0..numbers.calls {
        write!(text, "hive {}, at {call}, ", chance.below(HIVES))?;
        push_line(alloc, &mut chance, session, text)?;
        text.push_str(", ")?;
    }
    Ok(())
}

/// Writes lines that open the root of each hive by each session. The first handle of a hive has the number 0, and each other one the next
/// number.
fn push_openings(sessions: u8, text: &mut String) -> Result<(), AllocError> {
    for session in 0..sessions {
        for hive in 0..HIVES {
            write!(text, "as {session}\nhive {hive}\nroot 983103\n")?;
        }
    }
    Ok(())
}

/// The lines of all sessions.
fn lines(alloc: Global, numbers: Numbers) -> Result<String, AllocError> {
    let mut text = String::new(alloc);
    push_openings(numbers.sessions, &mut text)?;
    text.push_str("drive ")?;
    for session in 0..numbers.sessions {
        push_session(alloc, numbers, session, &mut text)?;
    }
    Ok(text)
}

/// Runs a hive's journal again. Tells whether each change is answered as it was.
fn is_run_again(
    alloc: Global,
    hive: &Hive,
    again: &mut SeatedHive<NoCallback>,
) -> Result<bool, Fail> {
    for number in 0..hive.len() {
        let Some(entry) = hive.entry(number) else {
            return Err("there is no such entry".into());
        };
        if entry.session >= SESSIONS {
            return Err("there is no such session".into());
        }
        let reply = again.apply(entry.session, entry.moment, entry.change.try_clone(alloc)?);
        if !reply.is_same(&entry.reply) {
            return Ok(false);
        }
    }
    Ok(true)
}

fn text_of(alloc: Global, tree: &Tree) -> Result<Vec<u8>, Fail> {
    let mut output = Vec::new(alloc);
    dump(alloc, tree, &mut output)?;
    Ok(output)
}

/// Whether two hives told each session the same, and have as many handles open and watches pending.
fn is_told_alike(hive: &Hive, again: &Hive<NoCallback>) -> bool {
    let mut same = hive.open_handles() == again.open_handles() && hive.pending() == again.pending();
    for session in 0..SESSIONS {
        same = same && hive.fired(session) == again.fired(session);
    }
    same
}

/// Whether a hive's journal, run again, leaves its tree, its notices, and as many handles and watches.
fn is_its_journals(
    alloc: Global,
    hive: &Hive,
    again: &mut SeatedHive<NoCallback>,
) -> Result<bool, Fail> {
    if !is_run_again(alloc, hive, again)? {
        return Ok(false);
    }
    let tree = text_of(alloc, hive.tree())?;
    let run = text_of(alloc, again.hive.tree())?;
    Ok(tree.as_slice() == run.as_slice() && is_told_alike(hive, &again.hive))
}

/// Whether a hive is that of its journal.
fn is_well(alloc: Global, hive: &Hive) -> Result<bool, Fail> {
    let mut again = seated(alloc, "")?;
    is_its_journals(alloc, hive, &mut again)
}

/// How many hives are those of their journals, and whether there are more entries than so many.
fn tell(alloc: Global, audit: &Audit, many: u64) -> Result<String, Fail> {
    let mut same = 0u64;
    let mut entries = 0u64;
    for hive in 0..audit.hives() {
        if is_well(alloc, audit.hive(hive as u8))? {
            same = same.saturating_add(1);
        }
        entries = entries.saturating_add(audit.entries(hive as u8));
    }
    Ok(format!(in alloc; "{same} hives, many entries {}", entries > many)?)
}

fn told<Rt: Print + Threads + Wait + Sync>(
    rt: &Rt,
    alloc: Global,
    numbers: Numbers,
) -> Result<String, Fail> {
    let lines = lines(alloc, numbers)?;
    let mut stage = started(rt, alloc, &Cast("", HIVES, numbers.sessions, &[]))?;
    let _statuses = stage.take_all(rt, lines.as_str())?;
    tell(alloc, &stage.gathered()?, numbers.many)
}

/// What a round tells in which not all is well, with its seed, or else that all is.
fn told_of_rounds<Rt: Print + Threads + Wait + Sync>(
    rt: &Rt,
    alloc: Global,
    numbers: Numbers,
) -> Result<String, Fail> {
    let each = u64::from(numbers.sessions);
    for round in 0..numbers.rounds {
        let seed = numbers.seed.wrapping_add(round.wrapping_mul(each));
        let text = told(rt, alloc, Numbers { seed, ..numbers })?;
        if text.as_str() != WELL {
            return Ok(format!(in alloc; "{}, of seed {seed}", text.as_str())?);
        }
    }
    println!(rt;
        "{} rounds of {} sessions with {} calls, from seed {} on, each of more than {} entries",
        numbers.rounds, numbers.sessions, numbers.calls, numbers.seed, numbers.many
    )?;
    Ok(WELL.to_string(alloc)?)
}

#[test]
fn sessions_at_random_are_gathered_and_each_hive_is_its_journals(
    rt: HostRuntime,
) -> Result<(), Fail> {
    assert_report(told_of_rounds(&rt, rt.alloc(), given_numbers(&rt)), WELL)
}
