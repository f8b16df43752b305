//! Measures what only a caller of the libraries can: cells, calls that callbacks are asked of, calls and notices of sessions, and what
//! changes leave of memory in one. tools/bench runs it, and makes means, rates and ratios of the numbers that it prints.
//!
//! The words `arena`, `callbacks` and `sessions` take times: of each row how many calls were accepted in how many nanoseconds, on both
//! sides. `session` makes a session of many changes, of which the system tells the memory. Without a word all is done with a few keys and
//! calls, and counts are printed alone, which are the same on every run.
//!
//! The calls are on one value, by sessions ([`seats`], [`crew`]) or on a hive without a lock ([`callbacks`]). Who makes a hive or an arena
//! lends it once and does nothing else, so that all is soon checked.
#![tactic(auto)]

mod callbacks;
mod calls;
mod cells;
mod crew;
mod memory;
mod notices;
mod seats;

use crate::calls::Bench;
use anyhow::{Result, bail};
use reg_fixtures::PlainHive;
use std::env;
use std::rt::Clock;
use std::sync::Wait;
use std::thread::Threads;

/// All that is done.
const WORDS: &str = "session arena callbacks sessions";

fn run<Rt: Print + Clock + Threads + Wait + Sync>(bench: Bench<'_, Rt>, what: &str) -> Result<()> {
    match what {
        "session" => memory::fill_session(bench),
        "arena" => cells::run(bench),
        "callbacks" => callbacks::run(bench),
        "sessions" => {
            seats::run::<_, PlainHive>(bench)?;
            notices::run(bench)?;
            crew::run(bench)
        }
        _ => bail!("the words are: {WORDS}"),
    }
}

fn main(rt: HostRuntime) -> Result<()> {
    let alloc = rt.alloc();
    let mut words = env::args(&rt)?;
    let _program = words.next();
    let word = words.next();
    let bench = Bench {
        rt: &rt,
        alloc,
        is_small: word.is_none(),
    };
    if let Some(what) = word {
        return run(bench, what.as_str());
    }
    for what in WORDS.split(' ') {
        run(bench, what)?;
    }
    Ok(())
}
