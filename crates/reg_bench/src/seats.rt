//! Calls of sessions at hives behind locks, and those of one session beside the same on a hive without a lock.

use crate::callbacks;
use crate::calls::{ALL_RIGHTS, Act, BATCH, Bench, Took, is_answered, set_value};
use anyhow::{Result, bail};
use reg_callbacks::NoCallback;
use reg_calls::Hive;
use reg_fixtures as fixtures;
use reg_model::{Call, Change, ChangeReply, Query};
use reg_sessions::{HiveGate, OpenGate, Registry, Session, start};
use std::alloc::Global;
use std::rt::Clock;
use std::sync::Wait;
use std::time::Instant;

/// So many sessions on so many hives of one root each, in which nothing was changed.
pub fn started(
    alloc: Global,
    hives: u8,
    sessions: u8,
) -> Result<(Registry<NoCallback>, Vec<Session>)> {
    let mut all = Vec::new(alloc);
    for _hive in 0..hives {
        all.push(Hive::new(alloc, b"ROOT", &[1], 0)?)?;
    }
    Ok(start(alloc, all, sessions)?)
}

/// Where sessions call. At a hive that isn't there no call is made.
#[derive_where(Clone, Copy)]
pub struct Host<'a, Rt> {
    pub bench: Bench<'a, Rt>,
    pub registry: &'a Registry<NoCallback>,
}

impl<'a, Rt: Wait> Host<'a, Rt> {
    pub fn new(bench: Bench<'a, Rt>, registry: &'a Registry<NoCallback>) -> Host<'a, Rt> {
        Host { bench, registry }
    }

    /// Makes a change of a session at a hive.
    pub fn change<G: HiveGate>(
        self,
        gate: &G,
        session: &mut Session,
        hive: u8,
        change: &Change,
    ) -> Option<ChangeReply> {
        if hive as usize >= self.registry.hives() || hive as usize >= session.hives() {
            return None;
        }
        Some(session.change(self.bench.rt, self.registry, gate, hive, 1, change))
    }

    /// Whether a session's question is answered by the first hive.
    fn asks(self, session: &mut Session, query: &Query) -> bool {
        if self.registry.hives() == 0 || session.hives() == 0 {
            return false;
        }
        let answer = session.ask(self.bench.rt, self.registry, &OpenGate, 0, query);
        let is_told = is_answered(&answer.body);
        drop(answer);
        is_told
    }

    /// Opens the root of a hive in a session, and sets its value. Answers the handle.
    pub fn prepare(self, session: &mut Session, hive: u8) -> Result<u64> {
        let open = Change::OpenRoot { mask: ALL_RIGHTS };
        let opened = self.change(&OpenGate, session, hive, &open);
        drop(open);
        let Some(handle) = opened.and_then(|reply| reply.handle) else {
            bail!("the root was not opened");
        };
        let set = set_value(self.bench.alloc, handle)?;
        self.change(&OpenGate, session, hive, &set);
        drop(set);
        Ok(handle)
    }
}

impl<Rt: Clock + Wait> Host<'_, Rt> {
    /// Makes calls of a session at the first hive, and adds how many were accepted and how long all took.
    fn play(self, session: &mut Session, calls: Vec<Call>, took: &mut Took) -> Result<()> {
        let mut accepted: u64 = 0;
        let start = Instant::now(self.bench.rt)?;
        for call in calls {
            let is_accepted = match call {
                Call::Change(made) => self
                    .change(&OpenGate, session, 0, &made)
                    .is_some_and(|reply| reply.status == 0),
                Call::Query(query) => self.asks(session, &query),
            };
            accepted = accepted.saturating_add(u64::from(is_accepted));
        }
        took.add(accepted, start.elapsed(self.bench.rt)?);
        Ok(())
    }
}

/// Asks and sets a value, by the first of so many sessions of one hive.
pub fn run<Rt: Print + Clock + Wait, H: fixtures::Registry>(bench: Bench<'_, Rt>) -> Result<()> {
    for (what, act, count) in [
        ("QueryValue by a session", Act::Ask, 1),
        ("SetValue by a session", Act::Set, 1),
        ("SetValue by one of 64 sessions", Act::Set, 64),
    ] {
        let (ours, beside) = measure::<Rt, H>(bench, act, count)?;
        println!(bench.rt; "{what}, 1: {ours}, a hive {beside}")?;
    }
    Ok(())
}

fn measure<Rt: Clock + Wait, H: fixtures::Registry>(
    bench: Bench<'_, Rt>,
    act: Act,
    count: u8,
) -> Result<(Took, Took)> {
    let (registry, mut sessions) = started(bench.alloc, 1, count)?;
    let Some(session) = sessions.get_mut(0) else {
        bail!("there is no session");
    };
    let mut hive = H::fresh(bench.alloc, b"ROOT", &[1], 0)?;
    by_turns(Host::new(bench, &registry), act, session, &mut hive)
}

fn by_turns<Rt: Clock + Wait, H: fixtures::Registry>(
    host: Host<'_, Rt>,
    act: Act,
    session: &mut Session,
    hive: &mut H,
) -> Result<(Took, Took)> {
    let bench = host.bench;
    let handle = host.prepare(session, 0)?;
    hive.apply(0, 1, Change::OpenRoot { mask: ALL_RIGHTS });
    hive.apply(0, 1, set_value(bench.alloc, 0)?);
    let (mut ours, mut beside) = (bench.took(), bench.took());
    let rounds = if bench.is_small { 1 } else { 320 };
    for _round in 0..rounds {
        host.play(session, bench.calls(act, handle, BATCH)?, &mut ours)?;
        callbacks::play(bench.rt, hive, bench.calls(act, 0, BATCH)?, &mut beside)?;
    }
    Ok((ours, beside))
}
