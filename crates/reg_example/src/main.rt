//! The library's example: two sessions, each on a thread of its own, set a value in a hive each.
#![tactic(auto)]

mod one_thread;
mod service;

use anyhow::{Result, bail};
use reg_calls::Hive;
use reg_model::{Bytes, Call, Change};
use reg_sessions::{Ask, Job, OpenGate, Registry, Session, Work, are_ready, drive, gather, start};
use std::alloc::Global;
use std::sync::Wait;
use std::thread::Threads;

fn hives(alloc: Global) -> Result<Vec<Hive>> {
    let mut hives = Vec::new(alloc);
    for _hive in 0..2 {
        hives.push(Hive::new(alloc, b"ROOT", &[1], 0)?)?;
    }
    Ok(hives)
}

fn job(alloc: Global, session: Session) -> Result<Job> {
    let hive = session.number();
    let set = Change::SetValue {
        handle: 0,
        name: Bytes::from_slice(alloc, b"Version")?,
        kind: 4,
        bytes: Bytes::from_slice(alloc, &[1, 0, 0, 0])?,
    };
    let mut work = Vec::new(alloc);
    for change in [Change::OpenRoot { mask: 983_103 }, set] {
        let ask = Ask::Call(Call::Change(change));
        work.push(Work {
            hive,
            moment: 0,
            ask,
        })?;
    }
    let outcomes = Vec::new(alloc);
    Ok(Job {
        session,
        work,
        outcomes,
    })
}

fn run<Rt: Threads + Wait + Sync>(rt: &Rt, registry: &Registry, jobs: &mut Vec<Job>) -> Result<()> {
    if !are_ready(jobs.as_slice(), registry.hives()) {
        bail!("a job names no hive");
    }
    drive(rt, registry, jobs.as_mut_slice(), &OpenGate)?;
    Ok(())
}

fn sessions(alloc: Global, jobs: Vec<Job>) -> Result<Vec<Session>> {
    let mut sessions = Vec::new(alloc);
    for job in jobs {
        sessions.push(job.session)?;
    }
    Ok(sessions)
}

fn main(rt: HostRuntime) -> Result<()> {
    let alloc = rt.alloc();
    one_thread::run(&rt, alloc)?;
    service::run(&rt, alloc)?;
    let (registry, sessions_started) = start(alloc, hives(alloc)?, 2)?;
    let mut jobs = Vec::new(alloc);
    for session in sessions_started {
        jobs.push(job(alloc, session)?)?;
    }
    run(&rt, &registry, &mut jobs)?;
    let Ok(audit) = gather(registry, sessions(alloc, jobs)?) else {
        bail!("a journal differs");
    };
    for hive in 0..audit.hives() {
        println!(&rt; "hive {hive} has {} entries", audit.entries(hive as u8))?;
    }
    Ok(())
}
