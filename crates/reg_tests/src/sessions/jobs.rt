//! What lines give sessions to do, on threads of their own, and what came of it.
use crate::sessions::gate::Gate;
use reg_model::{Call, Change, Notice, Outcome};
use reg_script::{Line, Setting, parse};
use reg_sessions::{Ask, Done, Job, Registry, Session, Work, are_ready, drive};
use std::alloc::{AllocError, Global};
use std::sync::Wait;
use std::test::Fail;
use std::thread::Threads;

/// The status of a call for which there is no memory.
pub const NO_MEMORY: u32 = 8;

/// What lines go by: the session, the hive and the moment that were set last.
#[derive(Drop)]
pub struct Place {
    pub session: u8,
    pub hive: u8,
    pub moment: u64,
}

/// The place of a first line.
pub const FIRST: Place = Place {
    session: 0,
    hive: 0,
    moment: 0,
};

/// What a line of a script asks for; nothing where it is empty, or a setting, by which later lines go.
pub fn read(alloc: Global, place: &mut Place, line: &str) -> Result<Option<Ask>, Fail> {
    match parse(alloc, 16, line.as_bytes())? {
        Line::Call(call) => return Ok(Some(Ask::Call(call))),
        Line::Notice => return Ok(Some(Ask::TakeNotice)),
        Line::Setting(Setting::At(moment)) => place.moment = moment,
        Line::Setting(Setting::As(session)) => place.session = session.number,
        Line::Setting(Setting::Hive(hive)) => place.hive = hive,
        Line::Nothing => {}
        Line::Bad => return Err("no line of a script".into()),
    }
    Ok(None)
}

/// A job of each session, without work.
pub fn jobs_of(alloc: Global, sessions: Vec<Session>) -> Result<Vec<Job>, AllocError> {
    let mut jobs = Vec::new(alloc);
    for session in sessions {
        jobs.push(Job {
            session,
            work: Vec::new(alloc),
            outcomes: Vec::new(alloc),
        })?;
    }
    Ok(jobs)
}

/// Gives a job more work.
fn add_work(jobs: &mut [Job], place: &Place, ask: Ask) -> Result<(), Fail> {
    let Some(job) = jobs.get_mut(place.session as usize) else {
        return Err("no such session".into());
    };
    job.work.push(Work {
        hive: place.hive,
        moment: place.moment,
        ask,
    })?;
    Ok(())
}

/// Gives jobs the work of lines that are parted by `, `.
pub fn add_works(alloc: Global, jobs: &mut [Job], lines: &str) -> Result<(), Fail> {
    let mut place = FIRST;
    for line in lines.split(", ") {
        if let Some(ask) = read(alloc, &mut place, line)? {
            add_work(jobs, &place, ask)?;
        }
    }
    Ok(())
}

/// Runs jobs at a gate, each on a thread of its own. False where there is no memory for their outcomes.
pub fn ran<Rt: Threads + Wait + Sync>(
    rt: &Rt,
    registry: &Registry,
    jobs: &mut Vec<Job>,
    gate: &Gate,
) -> Result<bool, Fail> {
    if !are_ready(jobs.as_slice(), registry.hives()) {
        return Err("the jobs are not ready".into());
    }
    Ok(drive(rt, registry, jobs.as_mut_slice(), gate).is_ok())
}

/// Whether a Close among a job's work was answered 8: it takes no memory.
fn is_close_refused(job: &Job) -> bool {
    job.work.iter().zip(job.outcomes.iter()).any(|(work, done)| match (&work.ask, done) {
        (Ask::Call(Call::Change(Change::Close { .. })), Done::Outcome(Outcome::Changed(reply))) =>
            reply.status == NO_MEMORY,
        _ => false,
    })
}

/// Writes an outcome: the status of a change, that a question was answered, or a notice. Answers that status, or 0.
fn tell_outcome(done: &Done, text: &mut String) -> Result<u32, AllocError> {
    match done {
        Done::Outcome(Outcome::Changed(reply)) => {
            write!(text, " {}", reply.status)?;
            return Ok(reply.status);
        }
        Done::Outcome(Outcome::Answered(_)) => text.push_str(" answered")?,
        Done::Notice(Some(Notice { watch, by, .. })) => write!(text, " notice {watch} {by}")?,
        Done::Notice(None) => text.push_str(" no notice")?,
    }
    Ok(0)
}

/// Writes a line of a job's outcomes. Answers 8 where a change was answered so, or else 0.
pub fn tell_outcomes(job: &Job, text: &mut String) -> Result<u32, Fail> {
    if is_close_refused(job) {
        return Err("a Close was answered 8".into());
    }
    let mut status = 0;
    write!(text, "{}:", job.session.number())?;
    for done in &job.outcomes {
        if tell_outcome(done, text)? == NO_MEMORY {
            status = NO_MEMORY;
        }
    }
    text.push_str("\n")?;
    Ok(status)
}
