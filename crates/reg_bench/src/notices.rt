//! Notices of sessions: how long it takes to find none, also while another session is inside the hive's lock; and how soon one is taken on
//! another thread once the change that tells it was begun.

use crate::calls::{Bench, Took, set_value};
use crate::seats::{Host, started};
use anyhow::{Result, bail};
use reg_model::Change;
use reg_model::filters::LAST_SET;
use reg_sessions::{HiveGate, OpenGate, Session};
use std::rt::Clock;
use std::sync::atomic::{AtomicU64, Ordering};
use std::sync::{Mutex, Wait};
use std::thread::Threads;
use std::time::Instant;
use std::{hint, thread};

/// How many turns a thread waits for the other before it gives up.
const TURNS: u64 = 100_000_000_000;

/// What two sessions do on threads of their own, and what they tell each other.
#[derive(Drop)]
struct Exchange {
    looks: u64,
    notices: u32,
    /// How far they are: 1 that the other one is ready, 2 that one is inside the lock, 3 that the other has looked, and one more for each
    /// watch.
    step: AtomicU64,
    /// When the last change was begun, in nanoseconds since the start.
    begun: AtomicU64,
    start: Instant,
    told: Mutex<Told>,
}

/// How long looks took while the hive was locked, and the nanoseconds from the begin of each change until its notice was taken.
#[derive(Drop)]
struct Told {
    locked: Took,
    times: Vec<u64>,
}

impl HiveGate for Exchange {
    fn inside(&self, _: u8, _: u8) {
        self.step.store(2, Ordering::SeqCst);
        self.wait_for(3);
    }

    fn answered(&self, _: u8, _: u8) {}
}

impl Exchange {
    /// Waits for a step. False where it doesn't come before long.
    fn wait_for(&self, step: u64) -> bool {
        for _turn in 0..TURNS {
            if self.step.load(Ordering::SeqCst) >= step {
                return true;
            }
            hint::spin_loop();
        }
        false
    }

    /// How many nanoseconds went by since the start; 0 where the clock can't be read.
    fn now(&self, rt: &impl Clock) -> u64 {
        match self.start.elapsed(rt) {
            Ok(time) => u64::try_from(time.as_nanos()).unwrap_or(0),
            Err(_) => 0,
        }
    }

    /// Has the first session make changes, and the other one take their notices. What isn't told didn't go well.
    fn run<Rt: Clock + Threads + Wait + Sync>(&self, host: Host<'_, Rt>, sessions: &mut [Session]) {
        let part = |at: usize, session: &mut Session| {
            let _ = if at == 0 {
                self.set_all(host, session)
            } else {
                self.take_all(host, session)
            };
        };
        thread::for_each_mut(host.bench.rt, sessions, 2, &part);
    }

    /// Stays inside the lock until the other session has looked, and then makes a change each time that it watches.
    fn set_all<Rt: Clock + Wait>(&self, host: Host<'_, Rt>, session: &mut Session) -> Result<()> {
        let set = set_value(host.bench.alloc, host.prepare(session, 0)?)?;
        if !self.wait_for(1) {
            bail!("the other session isn't ready");
        }
        host.change(self, session, 0, &set);
        for round in 0..self.notices {
            if !self.wait_for(u64::from(round) + 4) {
                bail!("the other session isn't ready");
            }
            self.begun.store(self.now(host.bench.rt), Ordering::SeqCst);
            host.change(&OpenGate, session, 0, &set);
        }
        Ok(())
    }

    /// Looks, and then watches and takes the notice, over and over.
    fn take_all<Rt: Clock + Wait>(&self, host: Host<'_, Rt>, session: &mut Session) -> Result<()> {
        let handle = host.prepare(session, 0)?;
        let mut told = self.told.lock(host.bench.rt);
        self.step.store(1, Ordering::SeqCst);
        if !self.wait_for(2) {
            bail!("no session is inside the lock");
        }
        let looked = look(host, session, self.looks, &mut told.locked);
        self.step.store(3, Ordering::SeqCst);
        looked?;
        for round in 0..self.notices {
            watch(host, session, handle);
            self.step.store(u64::from(round) + 4, Ordering::SeqCst);
            let mut waited = host.bench.took();
            look(host, session, TURNS, &mut waited)?;
            if waited.calls == TURNS {
                bail!("no notice came");
            }
            let (begun, taken) = (self.begun.load(Ordering::SeqCst), self.now(host.bench.rt));
            told.times.push(taken.saturating_sub(begun))?;
        }
        Ok(())
    }
}

/// An exchange of so many looks and notices, which has told nothing yet.
fn begun<Rt: Clock>(bench: Bench<'_, Rt>, looks: u64, notices: u32) -> Result<Exchange> {
    let times = Vec::with_capacity(bench.alloc, notices as usize)?;
    let locked = bench.took();
    Ok(Exchange {
        looks,
        notices,
        step: AtomicU64::new(0),
        begun: AtomicU64::new(0),
        start: Instant::now(bench.rt)?,
        told: Mutex::new(Told { locked, times }),
    })
}

/// Has two sessions of one hive tell each other.
pub fn run<Rt: Print + Clock + Threads + Wait + Sync>(bench: Bench<'_, Rt>) -> Result<()> {
    let (registry, mut sessions) = started(bench.alloc, 1, 2)?;
    measure(Host::new(bench, &registry), sessions.as_mut_slice())
}

/// Prints how long looks take, and how soon each notice is taken; where there are few, that it is.
fn measure<Rt: Print + Clock + Threads + Wait + Sync>(
    host: Host<'_, Rt>,
    sessions: &mut [Session],
) -> Result<()> {
    let (rt, is_small) = (host.bench.rt, host.bench.is_small);
    let Some(session) = sessions.get_mut(0) else {
        bail!("there is no session");
    };
    let looks = if is_small { 6 } else { 1_000_000 };
    let notices = if is_small { 6 } else { 2_000 };
    let mut free = host.bench.took();
    look(host, session, looks, &mut free)?;
    let exchange = begun(host.bench, looks, notices)?;
    exchange.run(host, sessions);
    let told = exchange.told.lock(rt);
    tell(host.bench, notices, &free, &told)
}

fn tell<Rt: Print>(bench: Bench<'_, Rt>, notices: u32, free: &Took, told: &Told) -> Result<()> {
    println!(bench.rt; "TakeNotice that finds none, 1: {free}")?;
    println!(bench.rt; "TakeNotice while the hive is locked, 1: {}", told.locked)?;
    print!(bench.rt; "a notice on another thread, {notices}: taken")?;
    for time in told.times.iter() {
        print!(bench.rt; " {}", if bench.is_small { 0 } else { *time })?;
    }
    println!(bench.rt; "")?;
    Ok(())
}

/// Asks for a notice of the next change of a value.
fn watch<Rt: Wait>(host: Host<'_, Rt>, session: &mut Session, handle: u64) {
    let asked = Change::Notify {
        handle,
        filter: LAST_SET,
        subtree: false,
    };
    host.change(&OpenGate, session, 0, &asked);
    drop(asked);
}

/// Looks for notices until one is there, so often at most. The calls are the looks that find none.
fn look<Rt: Clock>(
    host: Host<'_, Rt>,
    session: &mut Session,
    most: u64,
    took: &mut Took,
) -> Result<()> {
    let mut calls: u64 = 0;
    let start = Instant::now(host.bench.rt)?;
    for _look in 0..most {
        if session.hives() == 0 || session.take_notice(host.registry, 0).is_some() {
            break;
        }
        calls = calls.saturating_add(1);
    }
    took.add(calls, start.elapsed(host.bench.rt)?);
    Ok(())
}
