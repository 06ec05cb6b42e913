//! How fast a table is, and the maps that it hands out.
//!
//! `map_bench N` puts N entries into a table, in two orders of keys, gets, shares, walks and cuts
//! them. It prints what it found, and on standard error how long each part took.
#![tactic(auto)]

mod key;
mod work;

use crate::key::{Key, Order, Value};
use crate::work::{cut_all, get_all, put_all, put_some, queue_all, walk};
use frs_pmap::Table;
use std::env;
use std::process::ExitCode;
use std::time::Instant;

/// How often a share after a few changes is timed.
const ROUNDS: u64 = 200;

/// Tells how long one of so many calls took.
fn tell(rt: &HostRuntime, what: &str, calls: u64, start: Instant) -> anyhow::Result<()> {
    let nanos = start.elapsed(rt)?.as_nanos();
    let each = nanos / u128::from(calls.max(1));
    eprintln!(rt; "{what}: {each} ns")?;
    Ok(())
}

/// Times shares of which each comes after so many changes: the median.
fn share_after(
    rt: &HostRuntime,
    table: &mut Table<Key, Value>,
    order: Order,
    entries: u64,
    changes: u64,
) -> anyhow::Result<()> {
    let mut times = Vec::new(rt.alloc());
    for round in 0..ROUNDS {
        put_some(rt.alloc(), table, order, entries, round, changes)?;
        let start = Instant::now(rt)?;
        let map = table.share(rt.alloc())?;
        times.push(start.elapsed(rt)?.as_nanos())?;
        drop(map);
    }
    times.sort()?;
    if let Some(median) = times.get(times.len() / 2) {
        eprintln!(rt; "share after {changes} changes: {median} ns")?;
    }
    Ok(())
}

/// Times each part of the work on a table of so many entries.
fn time_parts(
    rt: &HostRuntime,
    table: &mut Table<Key, Value>,
    order: Order,
    entries: u64,
) -> anyhow::Result<()> {
    let alloc = rt.alloc();
    let start = Instant::now(rt)?;
    put_all(alloc, table, order, entries)?;
    tell(rt, "put new", entries, start)?;
    let start = Instant::now(rt)?;
    put_all(alloc, table, order, entries)?;
    tell(rt, "put over", entries, start)?;
    let start = Instant::now(rt)?;
    let found = get_all(table, order, entries);
    tell(rt, "get", entries, start)?;
    let start = Instant::now(rt)?;
    let map = table.share(alloc)?;
    tell(rt, "share first", 1, start)?;
    let start = Instant::now(rt)?;
    let walked = walk(&map, entries);
    tell(rt, "walk", entries, start)?;
    drop(map);
    share_after(rt, table, order, entries, 10)?;
    share_after(rt, table, order, entries, 1)?;
    let start = Instant::now(rt)?;
    queue_all(alloc, table, order, entries)?;
    tell(rt, "cut and put", entries, start)?;
    let queued = table.share(alloc)?.len();
    let start = Instant::now(rt)?;
    cut_all(table, order, entries);
    tell(rt, "cut", entries, start)?;
    let left = table.share(alloc)?.len();
    println!(rt; "found {found}, walked {walked}, queued {queued}, left {left}")?;
    Ok(())
}

fn main(rt: HostRuntime) -> anyhow::Result<ExitCode> {
    let Some(word) = env::args(&rt)?.nth(1) else {
        eprintln!(rt; "usage: map_bench N")?;
        return Ok(ExitCode::from(2));
    };
    let entries = word.as_str().parse::<u64>()?;
    for order in [Order::Random, Order::Rising] {
        eprintln!(rt; "{entries} entries, keys {}", order.name())?;
        time_parts(&rt, &mut Table::empty(), order, entries)?;
    }
    Ok(ExitCode::SUCCESS)
}
