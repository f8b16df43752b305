//! What changes leave of memory in a session. It is counted from outside.

use crate::calls::{Bench, set_value};
use crate::seats::{Host, started};
use anyhow::{Result, bail};
use reg_model::{Entry, Receipt};
use reg_sessions::{OpenGate, Session};
use std::mem::size_of;
use std::sync::Wait;

/// Has a session set a value of four bytes over and over.
pub fn fill_session<Rt: Print + Wait>(bench: Bench<'_, Rt>) -> Result<()> {
    let (registry, mut sessions) = started(bench.alloc, 1, 1)?;
    let Some(session) = sessions.get_mut(0) else {
        bail!("there is no session");
    };
    fill(
        Host::new(bench, &registry),
        session,
        if bench.is_small { 12 } else { 1_000_000 },
    )
}

/// Prints how many receipts there are then; of many also how many bytes a receipt and an entry have, without the texts that they own.
fn fill<Rt: Print + Wait>(host: Host<'_, Rt>, session: &mut Session, changes: u32) -> Result<()> {
    let set = set_value(host.bench.alloc, host.prepare(session, 0)?)?;
    for _change in 0..changes {
        host.change(&OpenGate, session, 0, &set);
    }
    drop(set);
    let receipts = session.receipts(0).len();
    println!(host.bench.rt; "session of {changes} changes: {receipts} receipts")?;
    if !host.bench.is_small {
        let (receipt, entry) = (size_of::<Receipt>(), size_of::<Entry>());
        println!(host.bench.rt; "a receipt has {receipt} bytes, an entry {entry}")?;
    }
    Ok(())
}
