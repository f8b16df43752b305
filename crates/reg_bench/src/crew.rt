//! Calls of several sessions at once, each on a thread of its own, beside those of one.

use crate::calls::{Act, Bench, Took, is_answered};
use crate::seats::{Host, started};
use anyhow::{Result, bail};
use reg_model::Outcome;
use reg_sessions::{Ask, Done, Job, OpenGate, Session, Work, are_ready, drive};
use std::rt::Clock;
use std::sync::Wait;
use std::thread::Threads;
use std::time::Instant;

/// Has four sessions ask and set values, on a hive each and all on one, beside one session alone.
pub fn run<Rt: Print + Clock + Threads + Wait + Sync>(bench: Bench<'_, Rt>) -> Result<()> {
    let calls = if bench.is_small { 6 } else { 200_000 };
    for (what, act, hives) in [
        ("questions of 4 sessions on 4 hives", Act::Ask, 4),
        ("changes of 4 sessions on 4 hives", Act::Set, 4),
        ("questions of 4 sessions on one hive", Act::Ask, 1),
        ("changes of 4 sessions on one hive", Act::Set, 1),
    ] {
        let ours = measure(bench, act, calls, hives, 4)?;
        let beside = measure(bench, act, calls, 1, 1)?;
        println!(bench.rt; "{what}, {calls}: {ours}, one session {beside}")?;
    }
    Ok(())
}

/// Has each of some sessions make so many calls. The time is with the start of the threads.
fn measure<Rt: Clock + Threads + Wait + Sync>(
    bench: Bench<'_, Rt>,
    act: Act,
    calls: u32,
    hives: u8,
    sessions: u8,
) -> Result<Took> {
    let (registry, sessions) = started(bench.alloc, hives, sessions)?;
    let host = Host::new(bench, &registry);
    let mut jobs = jobs(host, sessions, act, calls)?;
    drive_all(host, &mut jobs)
}

fn jobs<Rt: Wait>(
    host: Host<'_, Rt>,
    sessions: Vec<Session>,
    act: Act,
    calls: u32,
) -> Result<Vec<Job>> {
    let mut jobs = Vec::new(host.bench.alloc);
    for session in sessions {
        let mut session = session;
        let work = work(host, &mut session, act, calls)?;
        let outcomes = Vec::new(host.bench.alloc);
        jobs.push(Job {
            session,
            work,
            outcomes,
        })?;
    }
    Ok(jobs)
}

/// The work of a session at its hive, where its value is made.
fn work<Rt: Wait>(
    host: Host<'_, Rt>,
    session: &mut Session,
    act: Act,
    calls: u32,
) -> Result<Vec<Work>> {
    let is_shared = host.registry.hives() == 1;
    let hive = if is_shared { 0 } else { session.number() };
    let handle = host.prepare(session, hive)?;
    let mut work = Vec::new(host.bench.alloc);
    for call in host.bench.calls(act, handle, calls)? {
        work.push(Work {
            hive,
            moment: 1,
            ask: Ask::Call(call),
        })?;
    }
    Ok(work)
}

/// Runs the jobs, each on a thread of its own.
fn drive_all<Rt: Clock + Threads + Wait + Sync>(
    host: Host<'_, Rt>,
    jobs: &mut Vec<Job>,
) -> Result<Took> {
    if !are_ready(jobs.as_slice(), host.registry.hives()) {
        bail!("the jobs are not ready");
    }
    let start = Instant::now(host.bench.rt)?;
    drive(host.bench.rt, host.registry, jobs.as_mut_slice(), &OpenGate)?;
    let mut took = host.bench.took();
    took.add(accepted(jobs.as_slice()), start.elapsed(host.bench.rt)?);
    Ok(took)
}

/// How many calls of the jobs were accepted.
fn accepted(jobs: &[Job]) -> u64 {
    let mut count: u64 = 0;
    for job in jobs {
        for done in job.outcomes.iter() {
            let is_accepted = match done {
                Done::Outcome(Outcome::Changed(reply)) => reply.status == 0,
                Done::Outcome(Outcome::Answered(answer)) => is_answered(&answer.body),
                Done::Notice(_) => false,
            };
            count = count.saturating_add(u64::from(is_accepted));
        }
    }
    count
}
