//! What is written of sessions that worked, and of the hives.
ghost use Rattle.std.specs.Prelude.{◌≡◌, ◌+◌, ◌<◌, ◌≤◌, ◌↔◌, ℕ, true, IsTrue, [], ◌∷◌, ◌++◌, codes, drop, length, map, slice_index_or, string_bytes, IfOk, OnOk};
ghost use Rattle.std.specs.Fmt.{decimal};
ghost use Rattle.reg_sessions.specs.Jobs.{is_of_kind, are_of_kinds};
ghost use Rattle.reg_sessions.specs.Sessions.{AreInOrder};
ghost use Rattle.reg_workers.specs.Texts.{reply_text, entries_text, end_text};
ghost use Rattle.reg_workers.specs.Internal.Parts.{part_at};
ghost use Rattle.reg_workers.specs.Internal.Working.{works_among, replies_by, session_by, sessions_by, IsWritable, IsWritten, IsTold, IsToldOf};
ghost use Rattle.reg_workers.specs.Workers.{entries_of, AreAdmitted, AreWhole};

use crate::part::{Part, Reply};
use reg_callbacks::Callback;
use reg_model::{Answer, Call, ChangeReply, Notice, Outcome};
use reg_script::{
    CHANGE_REPLY_LIMIT, NOTICE_REPLY_LIMIT, is_notify, write_answered, write_changed, write_notice,
};
use reg_sessions::{Ask, Audit, Done, GatherFault, Job, Registry, Session, Work, gather};
use std::alloc::{AllocError, Global};

/// The reply to a change.
fn write_change(text: &mut String, ask: &Ask, reply: &ChangeReply) -> Result<(), AllocError>
    requires { is_of_kind ask.now (Done.Outcome (Outcome.Changed reply.now)) ≡ true }
    ensures { OnOk result (string_bytes text.new ≡ string_bytes text.old ++ reply_text ask.now (Done.Outcome (Outcome.Changed reply.now))) }
{
    match ask {
        Ask::Call(Call::Change(change)) => {
            text.reserve(CHANGE_REPLY_LIMIT)?;
            write_changed(text, is_notify(change), reply);
            Ok(())
        }
        Ask::Call(Call::Query(_)) | Ask::TakeNotice => unreachable!(),
    }
}

/// The answer to a question.
fn write_answer(
    alloc: Global,
    text: &mut String,
    ask: &Ask,
    answer: &Answer,
) -> Result<(), AllocError>
    requires { is_of_kind ask.now (Done.Outcome (Outcome.Answered answer.now)) ≡ true }
    ensures { OnOk result (string_bytes text.new ≡ string_bytes text.old ++ reply_text ask.now (Done.Outcome (Outcome.Answered answer.now))) }
{
    match ask {
        Ask::Call(Call::Query(query)) => write_answered(alloc, text, query, answer),
        Ask::Call(Call::Change(_)) | Ask::TakeNotice => unreachable!(),
    }
}

/// The notice that was taken, or none.
fn write_taken(text: &mut String, ask: &Ask, notice: Option<Notice>) -> Result<(), AllocError>
    requires { is_of_kind ask.now (Done.Notice notice) ≡ true }
    ensures { OnOk result (string_bytes text.new ≡ string_bytes text.old ++ reply_text ask.now (Done.Notice notice)) }
{
    match ask {
        Ask::TakeNotice => {
            text.reserve(NOTICE_REPLY_LIMIT)?;
            write_notice(text, notice);
            Ok(())
        }
        Ask::Call(_) => unreachable!(),
    }
}

/// What came of what was asked.
fn write_reply(alloc: Global, text: &mut String, ask: &Ask, done: &Done) -> Result<(), AllocError>
    requires { is_of_kind ask.now done.now ≡ true }
    ensures { OnOk result (string_bytes text.new ≡ string_bytes text.old ++ reply_text ask.now done.now) }
{
    match done {
        Done::Outcome(Outcome::Changed(reply)) => write_change(text, ask, reply),
        Done::Outcome(Outcome::Answered(answer)) => write_answer(alloc, text, ask, answer),
        Done::Notice(notice) => write_taken(text, ask, *notice),
    }
}

/// The reply to one line, where so many works were told of before. Answers how many were told of then.
fn write_line(
    alloc: Global,
    text: &mut String,
    reply: Reply,
    work: &[Work],
    done: &[Done],
    at: usize,
) -> Result<usize, AllocError>
    requires kinds { are_of_kinds (drop at work.now) (drop at done.now) ≡ true }
    requires within { at + works_among (reply ∷ []) ≤ length work.now }
    ensures written { IfOk result (λ next. IsWritten reply (drop at work.now) (drop at done.now) (string_bytes text.old) (string_bytes text.new)
        (drop next work.now) (drop next done.now)) }
    ensures next { IfOk result (λ next. next ≡ at + works_among (reply ∷ [])) }
{
    match reply {
        Reply::Bad => {
            text.push_str("bad\n")?;
            Ok(at)
        }
        Reply::Worked => {
            write_reply(alloc, text, &work[at].ask, &done[at])?;
            Ok(at + 1)
        }
    }
}

/// The replies of one session, in order.
fn write_replies(
    alloc: Global,
    text: &mut String,
    replies: &[Reply],
    work: &[Work],
    done: &[Done],
) -> Result<(), AllocError>
    requires kinds { are_of_kinds work.now done.now ≡ true }
    requires count { works_among replies.now ≡ length work.now }
    ensures { OnOk result (string_bytes text.new ≡ string_bytes text.old ++ replies_by replies.now work.now done.now) }
{
    let mut at = 0;
    for reply in replies {
        at = write_line(alloc, text, *reply, work, done, at)?;
    }
    Ok(())
}

/// A session's number and its replies, if it has any.
fn write_session(
    alloc: Global,
    text: &mut String,
    number: usize,
    replies: &[Reply],
    job: &Job,
) -> Result<(), AllocError>
    requires kinds { are_of_kinds job.now.work.items job.now.outcomes.items ≡ true }
    requires count { works_among replies.now ≡ length job.now.work.items }
    ensures { OnOk result (string_bytes text.new ≡ string_bytes text.old ++ session_by number replies.now job.now.work.items job.now.outcomes.items) }
{
    if replies.is_empty() {
        return Ok(());
    }
    writeln!(text, "session {number}")?;
    write_replies(
        alloc,
        text,
        replies,
        job.work.as_slice(),
        job.outcomes.as_slice(),
    )
}

/// The replies of all sessions.
fn write_sessions(
    alloc: Global,
    text: &mut String,
    parts: &[Part],
    jobs: &[Job],
) -> Result<(), AllocError>
    requires parts { length parts.now ≡ length jobs.now }
    requires ready { (s : ℕ) (d : Job) → s < length jobs.now → IsWritable (part_at s parts.now) (slice_index_or jobs.now s d) }
    ensures { OnOk result (string_bytes text.new ≡ string_bytes text.old ++ sessions_by parts.now jobs.now (length jobs.now)) }
{
    for s in 0..jobs.len() {
        write_session(alloc, text, s, parts[s].replies(), &jobs[s])?;
    }
    Ok(())
}

/// A number behind a space.
fn write_number(text: &mut String, number: u64) -> Result<(), AllocError>
    ensures { OnOk result (string_bytes text.new ≡ string_bytes text.old ++ (codes " " ++ decimal number)) }
{
    write!(text, " {number}")
}

/// How many entries each hive has.
fn write_entries<C: Callback>(text: &mut String, audit: &Audit<C>) -> Result<(), AllocError>
    ensures text { OnOk result (string_bytes text.new ≡ string_bytes text.old ++ entries_text (entries_of audit.now)) }
    ensures admitted { OnOk result (AreAdmitted audit.now) }
{
    text.push_str("entries")?;
    for hive in 0..audit.hives() {
        let entries = audit.hive(hive as u8).entries();
        write_number(text, entries.len() as u64)?;
    }
    writeln!(text)?;
    Ok(())
}

/// Whether each hive's journal begins with its first entry of all. It does unless a checkpoint cut entries, and these aren't compared.
fn are_whole<C: Callback>(audit: &Audit<C>) -> bool
    ensures { IsTrue result ↔ AreWhole audit.now }
{
    for hive in 0..audit.hives() {
        let hive = audit.hive(hive as u8);
        if hive.entries().len() < hive.len() {
            return false;
        }
    }
    true
}

/// How many entries each hive has, and whether all agrees.
fn write_end<C: Callback>(
    text: &mut String,
    audit: &Audit<C>,
    is_gathered: bool,
) -> Result<(), AllocError>
    ensures text { OnOk result (string_bytes text.new ≡ string_bytes text.old ++ (entries_text (entries_of audit.now) ++ end_text is_gathered)) }
    ensures admitted { OnOk result (AreAdmitted audit.now) }
{
    write_entries(text, audit)?;
    text.push_str(if is_gathered {
        "gathered\n"
    } else {
        "mismatch\n"
    })?;
    Ok(())
}

/// Gathers all sessions, and writes what that answers.
fn write_gathered<C: Callback>(
    text: &mut String,
    registry: Registry<C>,
    sessions: Vec<Session>,
) -> Result<(), AllocError>
    requires order { AreInOrder registry.sessions sessions.items }
    ensures { OnOk result (IsTold registry.hives sessions.items (string_bytes text.old) (string_bytes text.new)) }
{
    match gather(registry, sessions) {
        Ok(audit) => {
            write_end(text, &audit, are_whole(&audit))?;
            Ok(())
        }
        Err(
            GatherFault::Mismatch {
                hive: _,
                session: _,
                place: _,
                kept: _,
                audit,
            },
        ) => write_end(text, &audit, false),
        Err(
            GatherFault::Sessions {
                registry: _,
                sessions: _,
            },
        ) => unreachable!(),
    }
}

/// The sessions of jobs.
fn sessions_of(alloc: Global, jobs: Vec<Job>) -> Result<Vec<Session>, AllocError>
    ensures { IfOk result (λ v. v.items ≡ map (λ (j : Job). j.session) jobs.items) }
{
    let mut sessions = Vec::with_capacity(alloc, jobs.len())?;
    for job in jobs {
        let Job {
            session,
            work: _,
            outcomes: _,
        } = job;
        sessions.push(session)?;
    }
    Ok(sessions)
}

/// Writes what came of all jobs, gathers their sessions, and writes what that answers.
pub fn write_all<C: Callback>(
    alloc: Global,
    text: &mut String,
    parts: &[Part],
    jobs: Vec<Job>,
    registry: Registry<C>,
) -> Result<(), AllocError>
    requires parts { length parts.now ≡ length jobs.items }
    requires ready { (s : ℕ) (d : Job) → s < length jobs.items → IsWritable (part_at s parts.now) (slice_index_or jobs.items s d) }
    requires numbers { (s : ℕ) (d : Job) → s < length jobs.items → (slice_index_or jobs.items s d).session.number ≡ s }
    requires count { length jobs.items ≡ registry.sessions }
    ensures { OnOk result (IsToldOf registry.hives parts.now jobs.items (string_bytes text.old) (string_bytes text.new)) }
{
    write_sessions(alloc, text, parts, jobs.as_slice())?;
    let sessions = sessions_of(alloc, jobs)?;
    write_gathered(text, registry, sessions)
}
