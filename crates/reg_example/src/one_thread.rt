//! One hive on one thread: it is made, a value is set, the root asked for.
use anyhow::{Result, bail};
use reg_calls::{Hive, SeatedHive};
use reg_model::{Bytes, Change, Query};
use std::alloc::Global;

fn set_and_ask(rt: &impl Print, alloc: Global, hive: &mut SeatedHive) -> Result<()> {
    let opened = hive.apply(0, 0, Change::OpenRoot { mask: 983_103 });
    let Some(handle) = opened.handle else {
        bail!("the root was not opened");
    };
    let set = Change::SetValue {
        handle,
        name: Bytes::from_slice(alloc, b"Version")?,
        kind: 4,
        bytes: Bytes::from_slice(alloc, &[1, 0, 0, 0])?,
    };
    println!(rt; "{}", hive.apply(0, 0, set).status)?;
    println!(rt; "{:?}", hive.read(0, &Query::QueryInfo { handle }).body)?;
    Ok(())
}

pub fn run(rt: &impl Print, alloc: Global) -> Result<()> {
    let mut hive = SeatedHive::new(Hive::new(alloc, b"ROOT", &[1], 0)?)?;
    set_and_ask(rt, alloc, &mut hive)
}
