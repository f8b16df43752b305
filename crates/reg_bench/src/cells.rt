//! Carves and frees of an arena.

use crate::calls::{Bench, Took};
use anyhow::Result;
use reg_fixtures::LiveCells;
use std::rt::Clock;
use std::time::{Duration, Instant};

/// Carves cells of 16 to 256 bytes and frees a sixth of them.
pub fn run<Rt: Print + Clock>(bench: Bench<'_, Rt>) -> Result<()> {
    let mut cells = LiveCells::new(bench.alloc);
    let count = if bench.is_small { 240 } else { 1_000_000 };
    come_and_go(bench, &mut cells, count)
}

/// Prints how long that takes, and how many carves took above a millisecond; of few cells how many stay in how many bytes.
fn come_and_go<Rt: Print + Clock>(
    bench: Bench<'_, Rt>,
    cells: &mut LiveCells,
    count: u32,
) -> Result<()> {
    let (carved, long) = carve_all(bench, cells, count)?;
    let freed = free_some(bench, cells, (count / 6) as usize)?;
    if bench.is_small {
        let (stay, bytes) = (cells.len(), cells.bins_size());
        println!(bench.rt; "arena: {stay} cells stay in {bytes} bytes")?;
        return Ok(());
    }
    println!(bench.rt; "carve, {count}: {carved}, {long} above a millisecond")?;
    println!(bench.rt; "free, {count}: {freed}")?;
    Ok(())
}

/// Carves so many cells. Answers how long that took, and how many of them took above a millisecond.
fn carve_all<Rt: Clock>(
    bench: Bench<'_, Rt>,
    cells: &mut LiveCells,
    count: u32,
) -> Result<(Took, u32)> {
    let mut took = bench.took();
    let mut long: u32 = 0;
    for _cell in 0..count {
        let start = Instant::now(bench.rt)?;
        cells.carve_some(1)?;
        let time = start.elapsed(bench.rt)?;
        took.add(1, time);
        long = long.saturating_add(u32::from(time > Duration::from_millis(1)));
    }
    Ok((took, long))
}

/// Frees so many cells, and answers how long that took.
fn free_some<Rt: Clock>(bench: Bench<'_, Rt>, cells: &mut LiveCells, count: usize) -> Result<Took> {
    let mut took = bench.took();
    cells.choose_some(count)?;
    let start = Instant::now(bench.rt)?;
    let calls = cells.free_chosen() as u64;
    took.add(calls, start.elapsed(bench.rt)?);
    Ok(took)
}
