//! Calls on a hive without a lock that 64 callbacks are asked of, beside the same where there is none.

use crate::calls::{ALL_RIGHTS, Act, BATCH, Bench, Took, is_answered, set_value};
use anyhow::{Result, bail};
use reg_callbacks::{Callback, NoCallback};
use reg_calls::{Hive, SeatedHive};
use reg_fixtures::Registry;
use reg_model::{Bytes, Call, Change, Query};
use std::alloc::Global;
use std::rt::Clock;
use std::time::Instant;

/// The handle of the key whose value is asked for and set.
const KEY: u64 = 1;

/// Asks and sets a value of a key.
pub fn run<Rt: Print + Clock>(bench: Bench<'_, Rt>) -> Result<()> {
    for (what, act) in [
        ("SetValue, 64 callbacks", Act::Set),
        ("QueryValue, 64 callbacks", Act::Ask),
    ] {
        let mut callbacks: Vec<Box<dyn Callback + Send>> = Vec::new(bench.alloc);
        for _callback in 0..64 {
            callbacks.push(Box::new(bench.alloc, NoCallback)?)?;
        }
        let (ours, beside) = measure(bench, act, callbacks)?;
        println!(bench.rt; "{what}, 1: {ours}, none {beside}")?;
    }
    Ok(())
}

fn measure<Rt: Clock, C: Callback>(
    bench: Bench<'_, Rt>,
    act: Act,
    callbacks: Vec<C>,
) -> Result<(Took, Took)> {
    let mut hive = asking(bench.alloc, callbacks)?;
    measure_beside(bench, act, &mut hive)
}

/// The same beside a hive without callbacks.
fn measure_beside<Rt: Clock, C: Callback>(
    bench: Bench<'_, Rt>,
    act: Act,
    hive: &mut SeatedHive<C>,
) -> Result<(Took, Took)> {
    let mut other = asking(bench.alloc, Vec::<C>::new(bench.alloc))?;
    by_turns(bench, act, hive, &mut other)
}

/// A hive that asks these callbacks, each at an altitude of its own.
fn asking<C: Callback>(alloc: Global, callbacks: Vec<C>) -> Result<SeatedHive<C>> {
    let mut hive = Hive::new(alloc, b"ROOT", &[1], 0)?;
    register_all(&mut hive, callbacks)?;
    Ok(SeatedHive::new(hive)?)
}

fn register_all<C: Callback>(hive: &mut Hive<C>, callbacks: Vec<C>) -> Result<()> {
    let mut altitude: u32 = 0;
    for callback in callbacks {
        if hive.register(callback, altitude).is_err() {
            bail!("a callback was not registered");
        }
        altitude = altitude.saturating_add(1);
    }
    Ok(())
}

fn by_turns<Rt: Clock, H: Registry>(
    bench: Bench<'_, Rt>,
    act: Act,
    hive: &mut H,
    other: &mut H,
) -> Result<(Took, Took)> {
    prepare(bench.alloc, hive)?;
    prepare(bench.alloc, other)?;
    let (mut ours, mut beside) = (bench.took(), bench.took());
    let rounds = if bench.is_small { 1 } else { 320 };
    for _round in 0..rounds {
        play(bench.rt, hive, bench.calls(act, KEY, BATCH)?, &mut ours)?;
        play(bench.rt, other, bench.calls(act, KEY, BATCH)?, &mut beside)?;
    }
    Ok((ours, beside))
}

/// Makes a key with a value two levels down, so that there is a path to show. Its handle is [`KEY`].
fn prepare<H: Registry>(alloc: Global, hive: &mut H) -> Result<()> {
    hive.apply(0, 1, Change::OpenRoot { mask: ALL_RIGHTS });
    let create = Change::CreateKey {
        handle: 0,
        path: Bytes::from_slice(alloc, b"Parent\\Key")?,
        mask: ALL_RIGHTS,
        descriptor: None,
    };
    hive.apply(0, 1, create);
    hive.apply(0, 1, set_value(alloc, KEY)?);
    Ok(())
}

/// Whether a question is answered.
fn asks<H: Registry>(hive: &mut H, query: &Query) -> bool {
    let answer = hive.read(0, query);
    let is_told = is_answered(&answer.body);
    drop(answer);
    is_told
}

/// Makes calls, and adds how many were accepted and how long all took.
pub fn play<H: Registry>(
    rt: &impl Clock,
    hive: &mut H,
    calls: Vec<Call>,
    took: &mut Took,
) -> Result<()> {
    let mut accepted: u64 = 0;
    let start = Instant::now(rt)?;
    for call in calls {
        let is_accepted = match call {
            Call::Change(change) => hive.apply(0, 1, change).status == 0,
            Call::Query(query) => asks(hive, &query),
        };
        accepted = accepted.saturating_add(u64::from(is_accepted));
    }
    took.add(accepted, start.elapsed(rt)?);
    Ok(())
}
