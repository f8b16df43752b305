//! Sessions that work side by side.
ghost use Rattle.std.specs.Prelude.{◌≡◌, ◌<◌, ◌≤◌, ◌++◌, ℕ, List, length, slice_index_or, string_bytes, vec_len, IfOk, OnOk};
ghost use Rattle.reg_model.specs.declared.limits.TheConstants.{SESSIONS_LIMIT};
ghost use Rattle.reg_sessions.specs.Jobs.{AreReady, AreWithin, IsDone};
ghost use Rattle.reg_sessions.specs.Locked.{IsUnused, AreUnused};
ghost use Rattle.reg_sessions.specs.Sessions.{AreInOrder, IsFresh, session_of};
ghost use Rattle.reg_workers.specs.Workers.{WritesWorkers};
ghost use Rattle.reg_workers.specs.Internal.Parts.{part_at};
ghost use Rattle.reg_workers.specs.Internal.Plans.{IsPlanOf};
ghost use Rattle.reg_workers.specs.Internal.Working.{IsJob, AreJobs, AreWorked, HaveReplies, IsWorkedOn, works_among};

use crate::part::Part;
use crate::plan::Plan;
use crate::replies::write_all;
use reg_callbacks::{Callback, NoCallback};
use reg_calls::Hive;
use reg_script::FRESH_DESCRIPTOR;
use reg_sessions::{DriveFault, Job, OpenGate, Registry, Session, StartFault, drive, start};
use std::alloc::{AllocError, Global};
use std::sync::Wait;
use std::thread::Threads;

/// A script's hive before its first line: a root of that name at moment 0.
fn fresh_hive(alloc: Global) -> Result<Hive<NoCallback>, AllocError>
    ensures { IfOk result (λ hive. IsUnused hive) }
{
    match Hive::new(alloc, b"ROOT", &FRESH_DESCRIPTOR, 0) {
        Ok(hive) => Ok(hive),
        Err(_) => Err(AllocError),
    }
}

/// So many of them.
fn fresh_hives(alloc: Global, count: u8) -> Result<Vec<Hive<NoCallback>>, AllocError>
    ensures count { IfOk result (λ v. vec_len v ≡ count) }
    ensures unused { IfOk result (λ v. AreUnused v.items) }
{
    let mut hives = Vec::with_capacity(alloc, count as usize)?;
    for _number in 0..count {
        hives.push(fresh_hive(alloc)?)?;
    }
    Ok(hives)
}

/// So many sessions on so many fresh hives.
fn started(
    alloc: Global,
    hives: u8,
    n: u8,
) -> Result<(Registry<NoCallback>, Vec<Session>), AllocError>
    requires hives { (1 ≤ hives) × (hives ≤ 16) }
    requires sessions { (1 ≤ n) × (n ≤ SESSIONS_LIMIT) }
    ensures registry { IfOk result (λ r. r.0 ≡ record { hives = hives; sessions = n }) }
    ensures sessions { IfOk result (λ r. AreInOrder n r.1.items) }
    ensures fresh { IfOk result (λ r. (s : ℕ) → s < n → IsFresh s hives (session_of r.1.items s)) }
{
    let hives = fresh_hives(alloc, hives)?;
    match start(alloc, hives, n) {
        Ok(started) => Ok(started),
        Err(StartFault::Memory) => Err(AllocError),
        Err(StartFault::Hives | StartFault::Sessions | StartFault::Used) => unreachable!(),
    }
}

/// The job of a session: the works of its part, which keeps the replies.
fn job_of(alloc: Global, session: Session, part: &mut Part) -> Job
    ensures job { IsJob session part.old result }
    ensures replies { part.new.replies ≡ part.old.replies }
{
    Job {
        session,
        work: part.take_work(alloc),
        outcomes: Vec::new(alloc),
    }
}

/// A job for each session: the works of its part, which keeps the replies.
fn jobs_of(
    alloc: Global,
    sessions: Vec<Session>,
    parts: &mut Vec<Part>,
) -> Result<Vec<Job>, AllocError>
    requires { length sessions.items ≤ length parts.old.items }
    ensures jobs { IfOk result (λ jobs. AreJobs sessions.items parts.old.items jobs.items) }
    ensures replies { HaveReplies parts.old.items parts.new.items }
    ensures len { length parts.new.items ≡ length parts.old.items }
{
    let mut jobs = Vec::with_capacity(alloc, sessions.len())?;
    let mut at = 0;
    for session in sessions {
        let job = job_of(alloc, session, &mut parts[at]);
        jobs.push(job)?;
        at += 1;
    }
    Ok(jobs)
}

/// Runs the jobs.
fn run_jobs<Rt: Threads + Wait + Sync, C: Callback + Send>(
    rt: &Rt,
    registry: &Registry<C>,
    jobs: &mut Vec<Job>,
) -> Result<(), AllocError>
    requires ready { AreReady registry.now.hives jobs.old.items }
    ensures len { length jobs.new.items ≡ length jobs.old.items }
    ensures done { OnOk result ((s : ℕ) (d : Job) → s < length jobs.old.items →
        IsDone C.answers (slice_index_or jobs.old.items s d) (slice_index_or jobs.new.items s d)) }
{
    match drive(rt, registry, jobs.as_mut_slice(), &OpenGate) {
        Ok(()) => Ok(()),
        Err(DriveFault::Memory) => Err(AllocError),
    }
}

/// Has each session do the works of its part.
fn do_parts<Rt: Threads + Wait + Sync, C: Callback + Send>(
    rt: &Rt,
    alloc: Global,
    registry: &Registry<C>,
    sessions: Vec<Session>,
    parts: &mut Vec<Part>,
) -> Result<Vec<Job>, AllocError>
    requires count { length sessions.items ≡ length parts.old.items }
    requires fresh { (s : ℕ) → s < length parts.old.items → IsFresh s registry.now.hives (session_of sessions.items s) }
    requires within { (s : ℕ) → AreWithin registry.now.hives (part_at s parts.old.items).work }
    ensures jobs { IfOk result (λ jobs. AreWorked C.answers parts.old.items jobs.items) }
    ensures replies { HaveReplies parts.old.items parts.new.items }
    ensures len { length parts.new.items ≡ length parts.old.items }
{
    let mut jobs = jobs_of(alloc, sessions, parts)?;
    run_jobs(rt, registry, &mut jobs)?;
    Ok(jobs)
}

/// Has the sessions do the works of their parts, and writes what they were told, how many entries each hive has, and whether all agrees.
fn work_on<Rt: Threads + Wait + Sync, C: Callback + Send>(
    rt: &Rt,
    alloc: Global,
    registry: Registry<C>,
    sessions: Vec<Session>,
    parts: &mut Vec<Part>,
    text: &mut String,
) -> Result<(), AllocError>
    requires count { length sessions.items ≡ length parts.old.items }
    requires all { length parts.old.items ≡ registry.sessions }
    requires fresh { (s : ℕ) → s < length parts.old.items → IsFresh s registry.hives (session_of sessions.items s) }
    requires within { (s : ℕ) → AreWithin registry.hives (part_at s parts.old.items).work }
    requires counted { (s : ℕ) → works_among (part_at s parts.old.items).replies ≡ length (part_at s parts.old.items).work }
    ensures { OnOk result (IsWorkedOn C.answers registry.hives parts.old.items (string_bytes text.old) (string_bytes text.new)) }
{
    let jobs = do_parts(rt, alloc, &registry, sessions, parts)?;
    write_all(alloc, text, parts.as_slice(), jobs, registry)?;
    Ok(())
}

/// Has the sessions of a plan work on so many fresh hives, and writes what they were told, how many entries each hive has, and whether all
/// agrees.
pub fn work<Rt: Threads + Wait + Sync>(
    rt: &Rt,
    alloc: Global,
    hives: u8,
    plan: Plan,
    text: &mut String,
) -> Result<(), AllocError>
    requires hives { (1 ≤ hives) × (hives ≤ 16) }
    requires planned { (lines : List (List ℕ)) × IsPlanOf hives lines plan }
    ensures { OnOk result ((lines : List (List ℕ)) → IsPlanOf hives lines plan →
        (told : List ℕ) × WritesWorkers hives lines told × (string_bytes text.new ≡ string_bytes text.old ++ told)) }
{
    let mut parts = plan.into_parts();
    let started = started(alloc, hives, parts.len() as u8)?;
    work_on(rt, alloc, started.0, started.1, &mut parts, text)?;
    Ok(())
}
