//! Sessions at hives, and what comes of lines that they carry out one after another. Each line goes by the session, the hive and the moment
//! that were set last:
//!
//! | Line | What it does, and what is replied |
//! |---|---|
//! | one of a script | as the rules say; first `#` and the number of an accepted change, or `@` and how many entries an answer tells |
//! | `register ALTITUDE STATUS KIND` | a callback of `guard` comes to the hive: its cookie, or that the altitude is taken |
//! | `unregister COOKIE` | it goes: what it answers to an OpenRoot |
//! | `checkpoint` | a checkpoint of the hive: how many bytes its image has, or the fault |
//! | `receipts`, `taken` | how many receipts the session has there; the watches of the notices that it took |
//! | `drive LINE, LINE ..` | lines that sessions carry out on threads of their own: for each session what came of its lines |
//! | `gate` | what the gate saw |
use crate::sessions::gate::{Gate, Rule};
use crate::sessions::guard::boxed;
use crate::sessions::jobs::{
    FIRST, NO_MEMORY, Place, add_works, jobs_of, ran, read, tell_outcomes,
};
use crate::support::{hive, lines_of};
use reg_callbacks::{Callback, CallbackFault, Cookie};
use reg_calls::Hive;
use reg_image::image;
use reg_model::{Answer, AnswerBody, Call, Change, ChangeReply, Notice, Query};
use reg_script::{
    CHANGE_REPLY_LIMIT, NOTICE_REPLY_LIMIT, is_notify, write_answered, write_changed, write_notice,
};
use reg_sessions::{
    Ask, Audit, GatherFault, Job, OpenGate, Registry, RegistryCutFault, Session, StartFault,
    gather, start,
};
use std::alloc::{AllocError, Global};
use std::mem;
use std::sync::Wait;
use std::test::Fail;
use std::thread::Threads;

/// Who is on a stage: the draft of the first hive, or nothing, where that is a fresh one as all others are; how many hives and sessions
/// there are; and what the gate does.
#[derive(Drop)]
pub struct Cast(pub &'static str, pub usize, pub u8, pub &'static [Rule]);

/// The sessions and the hives, and what lines go by.
#[derive(Drop)]
pub struct Stage {
    alloc: Global,
    registry: Registry,
    sessions: Vec<Session>,
    gate: Gate,
    place: Place,
}

/// The hives of a cast.
fn hives(alloc: Global, cast: &Cast) -> Result<Vec<Hive>, Fail> {
    let mut hives = Vec::new(alloc);
    for number in 0..cast.1 {
        let table = if number == 0 { cast.0 } else { "" };
        hives.push(hive(alloc, table)?)?;
    }
    Ok(hives)
}

/// Starts the sessions; `None` where that was refused its memory.
fn begin(alloc: Global, cast: &Cast) -> Result<Option<Stage>, Fail> {
    match start(alloc, hives(alloc, cast)?, cast.2) {
        Ok((registry, sessions)) => Ok(Some(Stage {
            alloc,
            registry,
            sessions,
            gate: Gate::new(cast.3),
            place: FIRST,
        })),
        Err(StartFault::Memory) => Ok(None),
        Err(fault) => Err(Fail::new(format_args!("{fault}"))),
    }
}

/// Starts the sessions, and again where that was refused its memory, which it says.
pub fn started<Rt: Print>(rt: &Rt, alloc: Global, cast: &Cast) -> Result<Stage, Fail> {
    for _time in 0..2 {
        if let Some(stage) = begin(alloc, cast)? {
            return Ok(stage);
        }
        println!(rt; "start: no memory")?;
    }
    Err("refused twice".into())
}

/// Writes the reply to a change, and answers its status.
fn tell_reply(change: &Change, reply: &ChangeReply, text: &mut String) -> Result<u32, Fail> {
    if let Some(number) = reply.number {
        write!(text, "#{number} ")?;
    }
    text.reserve(CHANGE_REPLY_LIMIT)?;
    write_changed(text, is_notify(change), reply);
    Ok(reply.status)
}

/// Writes the answer to a question, and answers the status of a refusal, or 0.
fn tell_answer(
    alloc: Global,
    query: &Query,
    answer: &Answer,
    text: &mut String,
) -> Result<u32, Fail> {
    write!(text, "@{} ", answer.at)?;
    write_answered(alloc, text, query, answer)?;
    match &answer.body {
        AnswerBody::Refused { status } => Ok(*status),
        _ => Ok(0),
    }
}

/// Writes a notice that was taken, or that there was none.
fn tell_notice(notice: Option<Notice>, text: &mut String) -> Result<u32, Fail> {
    text.reserve(NOTICE_REPLY_LIMIT)?;
    write_notice(text, notice);
    Ok(0)
}

/// The numbers of a text.
fn numbers(alloc: Global, text: &str) -> Result<Vec<u32>, Fail> {
    let mut numbers = Vec::new(alloc);
    for word in text.split(' ') {
        numbers.push(word.parse::<u32>()?)?;
    }
    Ok(numbers)
}

/// Writes what a callback answers to an OpenRoot.
fn tell_callback(callback: Box<dyn Callback + Send>, text: &mut String) -> Result<u32, Fail> {
    let status = callback.pre_change(0, 0, b"", &Change::OpenRoot { mask: 0 });
    write!(text, "the box answers {status}\n")?;
    Ok(0)
}

/// Writes the cookie of a callback that was registered, or that its altitude is taken.
fn tell_registered(
    registered: Result<Cookie, CallbackFault<Box<dyn Callback + Send>>>,
    text: &mut String,
) -> Result<u32, Fail> {
    match registered {
        Ok(cookie) => {
            write!(text, "cookie {}\n", cookie.number)?;
            Ok(0)
        }
        Err(CallbackFault::AltitudeTaken(callback)) => {
            text.push_str("taken, ")?;
            tell_callback(callback, text)
        }
        Err(CallbackFault::Memory(_)) => Ok(NO_MEMORY),
        Err(_) => Err("a callback was refused".into()),
    }
}

/// Fails where a reply, with ` / ` between its lines, isn't what a step wants.
fn check_reply(alloc: Global, step: &str, wanted: &str, text: &str) -> Result<(), Fail> {
    let reply = text.trim_end().replace(alloc, '\n', " / ")?;
    if wanted == ".." || reply.as_str() == wanted {
        return Ok(());
    }
    Err(Fail::new(format_args!("{step}: {}", reply.as_str())))
}

impl Stage {
    /// Has the session that is set ask for something at the hive that is set. Answers the status.
    fn ask<Rt: Wait>(&mut self, rt: &Rt, ask: &Ask, text: &mut String) -> Result<u32, Fail> {
        let (hive, moment) = (self.place.hive, self.place.moment);
        let Some(session) = self.sessions.get_mut(self.place.session as usize) else {
            return Err("no such session".into());
        };
        if hive as usize >= self.registry.hives() || hive as usize >= session.hives() {
            return Err("no such hive".into());
        }
        match ask {
            Ask::Call(Call::Change(change)) => {
                let reply = session.change(rt, &self.registry, &OpenGate, hive, moment, change);
                tell_reply(change, &reply, text)
            }
            Ask::Call(Call::Query(query)) => {
                let answer = session.ask(rt, &self.registry, &OpenGate, hive, query);
                tell_answer(self.alloc, query, &answer, text)
            }
            Ask::TakeNotice => tell_notice(session.take_notice(&self.registry, hive), text),
        }
    }

    /// Carries out a line of a script.
    fn say<Rt: Wait>(&mut self, rt: &Rt, line: &str, text: &mut String) -> Result<u32, Fail> {
        match read(self.alloc, &mut self.place, line)? {
            Some(ask) => self.ask(rt, &ask, text),
            None => Ok(0),
        }
    }

    /// Registers a callback.
    fn register<Rt: Wait>(&self, rt: &Rt, words: &str, text: &mut String) -> Result<u32, Fail> {
        let numbers = numbers(self.alloc, words)?;
        let [altitude, status, kind] = numbers.as_slice() else {
            return Err("no altitude, status and kind".into());
        };
        let callback = boxed(self.alloc, *status, *kind)?;
        if self.place.hive as usize >= self.registry.hives() {
            return Err("no such hive".into());
        }
        let registered = self
            .registry
            .register(rt, self.place.hive, callback, *altitude);
        tell_registered(registered, text)
    }

    /// Takes a callback out.
    fn unregister<Rt: Wait>(&self, rt: &Rt, word: &str, text: &mut String) -> Result<u32, Fail> {
        let number = word.parse::<u32>()?;
        if self.place.hive as usize >= self.registry.hives() {
            return Err("no such hive".into());
        }
        match self
            .registry
            .unregister(rt, self.place.hive, Cookie { number })
        {
            Ok(callback) => tell_callback(callback, text),
            Err(_) => Err("a callback was not taken out".into()),
        }
    }

    /// A checkpoint of the hive.
    fn checkpoint<Rt: Wait>(&mut self, rt: &Rt, text: &mut String) -> Result<u32, Fail> {
        let hive = self.place.hive;
        if hive as usize >= self.registry.hives() {
            return Err("no such hive".into());
        }
        let sessions = self.sessions.as_mut_slice();
        match self
            .registry
            .checkpoint(rt, self.alloc, hive, sessions, 1, 1)
        {
            Ok(image) => write!(text, "{} bytes\n", image.len())?,
            Err(RegistryCutFault::Memory) => return Ok(NO_MEMORY),
            Err(fault) => write!(text, "{fault}\n")?,
        }
        Ok(0)
    }

    /// Writes how many receipts the session has at the hive, or else which notices it took.
    fn tell_kept(&self, word: &str, text: &mut String) -> Result<u32, Fail> {
        let Some(session) = self.sessions.get(self.place.session as usize) else {
            return Err("no such session".into());
        };
        if word == "receipts" {
            write!(text, "{}\n", session.receipts(self.place.hive).len())?;
            return Ok(0);
        }
        for notice in session.taken(self.place.hive) {
            write!(text, "{} ", notice.watch)?;
        }
        Ok(0)
    }

    /// Takes the sessions back out of jobs, and writes what came of these.
    fn end(&mut self, jobs: Vec<Job>, text: &mut String) -> Result<u32, Fail> {
        let mut status = 0;
        for job in jobs {
            status = status.max(tell_outcomes(&job, text)?);
            let Job { session, .. } = job;
            self.sessions.push(session)?;
        }
        Ok(status)
    }

    /// Has sessions carry out lines, that are parted by `, `, on threads of their own.
    fn drive<Rt: Threads + Wait + Sync>(
        &mut self,
        rt: &Rt,
        lines: &str,
        text: &mut String,
    ) -> Result<u32, Fail> {
        let sessions = mem::replace(&mut self.sessions, Vec::new(self.alloc));
        let mut jobs = jobs_of(self.alloc, sessions)?;
        add_works(self.alloc, jobs.as_mut_slice(), lines)?;
        let is_run = ran(rt, &self.registry, &mut jobs, &self.gate)?;
        let status = self.end(jobs, text)?;
        Ok(if is_run { status } else { NO_MEMORY })
    }

    /// Carries out a line, and writes what came of it. Answers the status: 8 where memory was refused.
    pub fn take<Rt: Threads + Wait + Sync>(
        &mut self,
        rt: &Rt,
        line: &str,
        text: &mut String,
    ) -> Result<u32, Fail> {
        let (word, rest) = line.split_once(' ').unwrap_or((line, ""));
        match word {
            "register" => self.register(rt, rest, text),
            "unregister" => self.unregister(rt, rest, text),
            "checkpoint" => self.checkpoint(rt, text),
            "receipts" => self.tell_kept(word, text),
            "taken" => self.tell_kept(word, text),
            "drive" => self.drive(rt, rest, text),
            "gate" => {
                self.gate.tell(text)?;
                Ok(0)
            }
            _ => self.say(rt, line, text),
        }
    }

    /// Carries out lines. Answers the statuses, each with a space behind it.
    pub fn take_all<Rt: Threads + Wait + Sync>(
        &mut self,
        rt: &Rt,
        lines: &str,
    ) -> Result<String, Fail> {
        let mut statuses = String::new(self.alloc);
        let mut replies = String::new(self.alloc);
        for line in lines.lines() {
            let status = self.take(rt, line, &mut replies)?;
            write!(statuses, "{status} ")?;
        }
        Ok(statuses)
    }

    /// Carries out the line of a step, whose first word this is. Whether it was answered: else it was refused its memory, which it says.
    fn answers<Rt: Print + Threads + Wait + Sync>(
        &mut self,
        rt: &Rt,
        word: &str,
        line: &str,
        text: &mut String,
    ) -> Result<bool, Fail> {
        if word == "drive" {
            println!(rt; "drive")?;
        }
        let status = self.take(rt, line, text)?;
        if status == NO_MEMORY && word != "close" {
            println!(rt; "{word}: no memory")?;
            return Ok(false);
        }
        if word == "drive" {
            println!(rt; "drive: answered")?;
        }
        Ok(true)
    }

    /// Carries out a step, a line and ` -> ` and what is replied, with ` / ` between lines, or `..` where that may be anything; a line
    /// without has no reply. Fails where something else is replied. Says of a step that it was refused its memory; then it answers false.
    /// Of a `drive`, which may be answered all the same, it says where it begins, and that it was answered.
    pub fn step<Rt: Print + Threads + Wait + Sync>(
        &mut self,
        rt: &Rt,
        step: &str,
    ) -> Result<bool, Fail> {
        let (line, wanted) = step.split_once(" -> ").unwrap_or((step, ""));
        let (word, _) = line.split_once(' ').unwrap_or((line, ""));
        let mut text = String::new(self.alloc);
        let is_answered = self.answers(rt, word, line, &mut text)?;
        if is_answered {
            check_reply(self.alloc, step, wanted, text.as_str())?;
        }
        Ok(is_answered)
    }

    /// Takes a step, again where it was refused its memory, so many times in all. Whether it was answered.
    fn take_often<Rt: Print + Threads + Wait + Sync>(
        &mut self,
        rt: &Rt,
        step: &str,
        times: u32,
    ) -> Result<bool, Fail> {
        for _time in 0..times {
            if self.step(rt, step)? {
                return Ok(true);
            }
        }
        if times > 1 {
            return Err("refused twice".into());
        }
        Ok(false)
    }

    /// Takes steps, so many at most, up to one that isn't answered though it is taken so many times. Answers how many were.
    pub fn play<Rt: Print + Threads + Wait + Sync>(
        &mut self,
        rt: &Rt,
        steps: &str,
        most: usize,
        times: u32,
    ) -> Result<usize, Fail> {
        let mut count = 0usize;
        let lines = lines_of(self.alloc, steps)?;
        for step in lines.as_str().lines().take(most) {
            if !self.take_often(rt, step, times)? {
                break;
            }
            count = count.saturating_add(1);
        }
        Ok(count)
    }

    /// Writes each session's receipts and the notices that it took.
    fn tell_all_kept(&self, text: &mut String) -> Result<(), AllocError> {
        for session in &self.sessions {
            for hive in 0..2 {
                write!(
                    text,
                    "{:?} {:?}\n",
                    session.receipts(hive),
                    session.taken(hive)
                )?;
            }
        }
        Ok(())
    }

    /// Gathers the sessions: in another order, in which they come back where there are several, and then in their own.
    pub fn gathered(self) -> Result<Audit, Fail> {
        let Stage {
            registry,
            sessions,
            ..
        } = self;
        let mut sessions = sessions;
        sessions.reverse();
        match gather(registry, sessions) {
            Ok(audit) => Ok(audit),
            Err(fault) => gathered_again(fault),
        }
    }

    /// What the steps left: each session's receipts and notices, and of each hive its image, and how many entries it had and how many
    /// handles and watches it has.
    pub fn left(self) -> Result<String, Fail> {
        let alloc = self.alloc;
        let mut text = String::with_capacity(alloc, 262_144)?;
        self.tell_all_kept(&mut text)?;
        tell_hives(alloc, &self.gathered()?, &mut text)?;
        Ok(text)
    }
}

/// Gathers sessions that came back in another order.
fn gathered_again(fault: GatherFault) -> Result<Audit, Fail> {
    let GatherFault::Sessions { registry, sessions } = fault else {
        return Err("a mismatch".into());
    };
    let mut sessions = sessions;
    sessions.reverse();
    match gather(registry, sessions) {
        Ok(audit) => Ok(audit),
        Err(_) => Err("not gathered".into()),
    }
}

/// Writes what hives hold.
fn tell_hives(alloc: Global, audit: &Audit, text: &mut String) -> Result<(), Fail> {
    for number in 0..audit.hives() {
        let hive = audit.hive(number as u8);
        let image = image(alloc, hive, 0, 0)?;
        let (handles, watches) = (hive.open_handles(), hive.pending());
        write!(text, "{image:?} {} {handles} {watches}\n", hive.len())?;
    }
    Ok(())
}
