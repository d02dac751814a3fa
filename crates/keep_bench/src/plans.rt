//! Plans of a round. The input is a configuration's line; for each device the length of an index in bytes, as a line, and the index; and then one wanted
//! digest a line, and whatever follows it there. A hundred of these make a row of the table, and two copies are wanted of each.
use crate::{print_line, read_config, split_line};
use anyhow::Result;
use keep_config::Config;
use keep_event::ScanRow;
use keep_gather::Gather;
use keep_lists::read_index;
use keep_plan::Plan;
use keep_spec::{Digest, Items};
use std::alloc::Global;
use std::str::from_utf8;

const ROW: usize = 100;

const STARTED: u64 = 1_700_000_000_000_000_000;

// The text whose length is the first line, and what follows it.
fn next_text(input: &[u8]) -> Option<(&[u8], &[u8])> {
    let (line, rest) = split_line(input)?;
    let size = from_utf8(line).ok()?.parse::<usize>().ok()?;
    rest.split_at_checked(size)
}

// A page of each device, and what follows the indexes.
fn take_pages<'a>(
    alloc: Global,
    gather: &mut Gather,
    devices: usize,
    input: &'a [u8],
) -> Option<&'a [u8]> {
    let mut rest = input;
    for device in 0..devices {
        let (text, later) = next_text(rest)?;
        let entries = read_index(alloc, text).ok()?;
        let number = u32::try_from(device).ok()?;
        gather.take_page(number, entries).ok()?;
        rest = later;
    }
    Some(rest)
}

fn rows_of(alloc: Global, input: &[u8]) -> Result<Vec<ScanRow>> {
    let mut rows = Vec::new(alloc);
    let mut digests = Vec::new(alloc);
    for line in input.split(|byte| *byte == b'\n') {
        if let Some(digest) = Digest::read(line.get(..32).unwrap_or(b"")) {
            digests.push(digest)?;
        }
        if digests.len() == ROW || line.is_empty() {
            rows.push(ScanRow {
                revision: 1,
                digests: Items::of(digests),
                want: 2,
            })?;
            digests = Vec::new(alloc);
        }
    }
    Ok(rows)
}

fn gathered(alloc: Global, config: &Config, input: &[u8]) -> Result<Option<Gather>> {
    let mut gather = Gather::new(alloc, 1, STARTED);
    let Some(rest) = take_pages(alloc, &mut gather, config.devices.len(), input) else {
        return Ok(None);
    };
    let rows = rows_of(alloc, rest)?;
    if gather.scanned() || gather.take_scan(rows, true).is_err() {
        return Ok(None);
    }
    Ok(Some(gather))
}

// How many items and lost digests a plan has.
fn print_plan(rt: &HostRuntime, plan: &Plan) -> Result<()> {
    let mut trash: u64 = 0;
    let mut pull: u64 = 0;
    for lists in &plan.lists {
        trash = trash.saturating_add(lists.trash.len() as u64);
        pull = pull.saturating_add(lists.pull.len() as u64);
    }
    let lost = plan.lost.len();
    println!(rt; "{trash} trash, {pull} pull, {lost} lost")?;
    Ok(())
}

fn plan_gathered(rt: &HostRuntime, config: &Config, gather: &Gather) -> Result<()> {
    match Plan::of(rt.alloc(), gather, config) {
        Ok(plan) => print_plan(rt, &plan),
        Err(_) => print_line(rt, "no memory"),
    }
}

fn gather_and_plan(rt: &HostRuntime, config: &Config, rest: &[u8], is_planned: bool) -> Result<()> {
    match gathered(rt.alloc(), config, rest)? {
        Some(gather) if is_planned => plan_gathered(rt, config, &gather),
        Some(_) => print_line(rt, "gathered"),
        None => print_line(rt, "no pages"),
    }
}

// Gathers what the input has, and plans it.
pub fn plan(rt: &HostRuntime, input: &[u8], is_planned: bool) -> Result<()> {
    match read_config(rt.alloc(), input) {
        Some((config, rest)) => gather_and_plan(rt, &config, rest, is_planned),
        None => print_line(rt, "no configuration"),
    }
}
