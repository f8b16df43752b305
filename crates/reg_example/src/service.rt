//! A service: it answers requests, and makes a checkpoint of its hive once the journal is long.
use anyhow::{Result, bail};
use reg_calls::Hive;
use reg_model::{Bytes, Change};
use reg_sessions::{OpenGate, Registry, Session, start};
use std::alloc::Global;
use std::fs;
use std::fs::Files;
use std::sync::Wait;

/// How many changes a service makes between two checkpoints. Each takes some 400 bytes until then: a real one may take a million.
const CHANGES: usize = 6;

/// Makes a change at hive 0, and answers the handle that it opens, if it opens one.
fn make<Rt: Wait>(
    rt: &Rt,
    registry: &Registry,
    session: &mut Session,
    change: &Change,
) -> Result<Option<u64>> {
    if registry.hives() == 0 || session.hives() == 0 {
        bail!("there is no hive");
    }
    let reply = session.change(rt, registry, &OpenGate, 0, 0, change);
    if reply.status != 0 {
        bail!("refused by {}", reply.status);
    }
    Ok(reply.handle)
}

/// Answers a request. It closes its handle again: while one is open there is no checkpoint.
fn serve<Rt: Wait>(
    rt: &Rt,
    alloc: Global,
    registry: &Registry,
    session: &mut Session,
    number: u8,
) -> Result<()> {
    let Some(handle) = make(rt, registry, session, &Change::OpenRoot { mask: 983_103 })? else {
        bail!("the root was not opened");
    };
    let set = Change::SetValue {
        handle,
        name: Bytes::from_slice(alloc, b"Requests")?,
        kind: 4,
        bytes: Bytes::from_slice(alloc, &[number, 0, 0, 0])?,
    };
    make(rt, registry, session, &set)?;
    make(rt, registry, session, &Change::Close { handle })?;
    Ok(())
}

/// Makes a checkpoint where the journal is long, and saves its image under another name first: whoever opens the file finds the old hive
/// or the new one.
fn save<Rt: Wait + Files + Print>(
    rt: &Rt,
    alloc: Global,
    registry: &Registry,
    sessions: &mut [Session],
    sequence: u32,
) -> Result<()> {
    if registry.hives() == 0
        || sessions
            .first()
            .is_none_or(|it| it.receipts(0).len() < CHANGES)
    {
        return Ok(());
    }
    let image = registry.checkpoint(rt, alloc, 0, sessions, 0, sequence)?;
    fs::write(rt, "service.hive.new", image.as_slice())?;
    fs::rename(rt, "service.hive.new", "service.hive")?;
    println!(rt; "saved {} bytes", image.len())?;
    Ok(())
}

pub fn run<Rt: Wait + Files + Print>(rt: &Rt, alloc: Global) -> Result<()> {
    let mut hives = Vec::new(alloc);
    hives.push(Hive::new(alloc, b"ROOT", &[1], 0)?)?;
    let (registry, mut sessions) = start(alloc, hives, 1)?;
    for number in 1..6u8 {
        let Some(session) = sessions.get_mut(0) else {
            bail!("there is no session");
        };
        serve(rt, alloc, &registry, session, number)?;
        save(
            rt,
            alloc,
            &registry,
            sessions.as_mut_slice(),
            u32::from(number),
        )?;
    }
    Ok(())
}
