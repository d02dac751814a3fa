//! Times what a library does alone: takes the name of a task, reads its input from standard input, and prints a few counts.
#![tactic(auto)]

ghost use Rattle.keep_spec.specs.Manifest.{IsGood};

mod files;
mod histories;
mod plans;
mod scripts;
mod tables;
mod wire;

use anyhow::Result;
use keep_config::Config;
use keep_event::{Block, DeviceAnswer, DeviceRules};
use keep_lists::{read_index, read_lists, write_index, write_lists};
use keep_locator::Locator;
use keep_manifest::{BadManifest, Manifest, read, write};
use keep_normal::{NormalError, normalize};
use keep_order::order;
use keep_sign::sign_manifest;
use keep_spec::{Bytes, Digest, NoMemory, Uuid};
use keep_store::MemoryStore;
use keep_volume::Volume;
use std::alloc::Global;
use std::env;
use std::io::{Read, Write, writer};

/// Prints a line.
pub fn print_line(rt: &HostRuntime, line: &str) -> Result<()> {
    Ok(println!(rt; "{line}")?)
}

// How many streams, locators and segments a manifest has.
fn counts(manifest: &Manifest) -> (u64, u64, u64) {
    let mut locators: u64 = 0;
    let mut segments: u64 = 0;
    let mut streams: u64 = 0;
    for stream in manifest.streams.as_slice() {
        streams = streams.saturating_add(1);
        locators = locators.saturating_add(stream.locators.len() as u64);
        segments = segments.saturating_add(stream.segments.len() as u64);
    }
    (streams, locators, segments)
}

fn print_counts(rt: &HostRuntime, manifest: &Manifest) -> Result<()> {
    let (streams, locators, segments) = counts(manifest);
    Ok(println!(rt; "{streams} streams, {locators} locators, {segments} segments")?)
}

fn print_bad_manifest(rt: &HostRuntime, bad: &BadManifest) -> Result<()> {
    match bad {
        BadManifest::Refused(refusal) => {
            let at = refusal.at;
            Ok(println!(rt; "refused at {at}")?)
        }
        BadManifest::NoMemory => print_line(rt, "no memory"),
    }
}

fn read_manifest(rt: &HostRuntime, input: &[u8]) -> Result<()> {
    match read(rt.alloc(), input) {
        Ok(manifest) => print_counts(rt, &manifest),
        Err(bad) => print_bad_manifest(rt, &bad),
    }
}

// One locator a line.
fn read_locators(rt: &HostRuntime, input: &[u8]) -> Result<()> {
    let mut locators: u64 = 0;
    for line in input.split(|byte| *byte == b'\n') {
        if Locator::read(line).is_ok() {
            locators = locators.saturating_add(1);
        }
    }
    println!(rt; "{locators} locators")?;
    Ok(())
}

// One configuration a line.
fn read_configurations(rt: &HostRuntime, input: &[u8]) -> Result<()> {
    let mut configurations: u64 = 0;
    for line in input.split(|byte| *byte == b'\n') {
        if Config::read(rt.alloc(), line).is_ok() {
            configurations = configurations.saturating_add(1);
        }
    }
    println!(rt; "{configurations} configurations")?;
    Ok(())
}

fn sign(rt: &HostRuntime, input: &[u8]) -> Result<()> {
    match sign_manifest(rt.alloc(), input, b"alice", 1700000000, 1209600, b"sesame") {
        Ok(text) => {
            let size = text.len();
            Ok(println!(rt; "{size} bytes signed")?)
        }
        Err(bad) => print_bad_manifest(rt, &bad),
    }
}

fn device(alloc: Global) -> Option<Volume<MemoryStore>> {
    let rules = DeviceRules {
        capacity: u64::MAX,
        read_only: false,
        ttl: 0,
        skew: 0,
        trash_life: 0,
    };
    Volume::open(alloc, MemoryStore::new(alloc, Vec::new(alloc)), rules).ok()
}

// Puts a block as a client does, and says whether it was written.
fn is_written(device: &mut Volume<MemoryStore>, block: &Block) -> bool {
    let Ok(DeviceAnswer::Absent) = device.compare_touch(1, block, None) else {
        return false;
    };
    matches!(
        device.write(1, block, None),
        Ok(DeviceAnswer::Written { .. })
    )
}

// How many blocks were written of these, one a line.
fn count_written(
    alloc: Global,
    device: &mut Volume<MemoryStore>,
    input: &[u8],
) -> std::result::Result<u64, NoMemory> {
    let mut written: u64 = 0;
    for line in input.split(|byte| *byte == b'\n') {
        let bytes = Bytes::of(Vec::from_slice(alloc, line)?);
        let Ok(block) = Block::of(bytes) else {
            continue;
        };
        if is_written(device, &block) {
            written = written.saturating_add(1);
        }
    }
    Ok(written)
}

// One block a line, put into a device that keeps them in memory.
fn put_blocks(rt: &HostRuntime, input: &[u8]) -> Result<()> {
    let Some(mut device) = device(rt.alloc()) else {
        return print_line(rt, "no device");
    };
    match count_written(rt.alloc(), &mut device, input) {
        Ok(written) => Ok(println!(rt; "{written} blocks")?),
        Err(_) => print_line(rt, "no memory"),
    }
}

// The normal form of a manifest, written.
fn normal(rt: &HostRuntime, input: &[u8]) -> Result<()> {
    match read(rt.alloc(), input) {
        Ok(manifest) => print_normal(rt, &manifest),
        Err(_) => print_line(rt, "no manifest"),
    }
}

fn print_normal(rt: &HostRuntime, manifest: &Manifest) -> Result<()>
    requires { IsGood manifest.now }
{
    match normalize(rt.alloc(), manifest) {
        Ok(normal) => print_text(rt, write(rt.alloc(), &normal)),
        Err(NormalError::TooLarge) => print_line(rt, "too large"),
        Err(NormalError::NoMemory) => print_line(rt, "no memory"),
    }
}

fn print_text(rt: &HostRuntime, text: std::result::Result<Bytes, NoMemory>) -> Result<()> {
    match text {
        Ok(text) => Ok(writer(rt).write_all(text.as_slice())?),
        Err(_) => print_line(rt, "no memory"),
    }
}

// The first line is a configuration, the rest a text; none where there is no newline.
fn split_line(input: &[u8]) -> Option<(&[u8], &[u8])> {
    let end = input.iter().position(|byte| *byte == b'\n')?;
    let (line, rest) = input.split_at_checked(end)?;
    Some((line, rest.get(1..).unwrap_or(b"")))
}

// How many blocks have an order, one block's digits a line, and how many of them begin with server 0.
fn count_orders(
    alloc: Global,
    services: &[Uuid],
    input: &[u8],
) -> std::result::Result<(u64, u64), NoMemory> {
    let mut first: u64 = 0;
    let mut blocks: u64 = 0;
    for text in input.split(|byte| *byte == b'\n') {
        let Some(digest) = Digest::read(text) else {
            continue;
        };
        let places = order(alloc, &digest, services)?;
        blocks = blocks.saturating_add(1);
        if places.first() == Some(&0) {
            first = first.saturating_add(1);
        }
    }
    Ok((blocks, first))
}

fn services_of(alloc: Global, config: &Config) -> Result<Vec<Uuid>> {
    let mut services = Vec::new(alloc);
    for server in config.servers.as_slice() {
        services.push(server.uuid)?;
    }
    Ok(services)
}

fn print_orders(rt: &HostRuntime, services: &[Uuid], input: &[u8]) -> Result<()> {
    match count_orders(rt.alloc(), services, input) {
        Ok((blocks, first)) => Ok(println!(rt; "{blocks} blocks, {first} on server 0")?),
        Err(_) => print_line(rt, "no memory"),
    }
}

// The configuration of the first line, and what follows it.
fn read_config(alloc: Global, input: &[u8]) -> Option<(Config, &[u8])> {
    let (line, rest) = split_line(input)?;
    let config = Config::read(alloc, line).ok()?;
    Some((config, rest))
}

// One block's digits a line: the order of the configuration's servers for each.
fn orders(rt: &HostRuntime, input: &[u8]) -> Result<()> {
    let Some((config, rest)) = read_config(rt.alloc(), input) else {
        return print_line(rt, "no configuration");
    };
    let services = services_of(rt.alloc(), &config)?;
    print_orders(rt, &services, rest)
}

// What is said of a text that was written again.
fn compared(text: std::result::Result<Bytes, NoMemory>, input: &[u8]) -> &'static str {
    match text {
        Ok(text) if text.as_slice() == input => "written again",
        Ok(_) => "written otherwise",
        Err(_) => "no memory",
    }
}

// An index, read and written again.
fn index(rt: &HostRuntime, input: &[u8], is_written: bool) -> Result<()> {
    let Ok(entries) = read_index(rt.alloc(), input) else {
        return print_line(rt, "no index");
    };
    let count = entries.len();
    if !is_written {
        return Ok(println!(rt; "{count} entries")?);
    }
    let again = compared(write_index(rt.alloc(), &entries), input);
    Ok(println!(rt; "{count} entries, {again}")?)
}

// The lists of device 0, read and written again.
fn print_lists(rt: &HostRuntime, config: &Config, text: &[u8]) -> Result<()> {
    let Ok(lists) = read_lists(rt.alloc(), text, config, 0) else {
        return print_line(rt, "no lists");
    };
    let trash = lists.trash.len();
    let pull = lists.pull.len();
    let again = compared(write_lists(rt.alloc(), &lists, config, 0), text);
    Ok(println!(rt; "{trash} trash, {pull} pull, {again}")?)
}

// A configuration's line, and the lists of its device 0.
fn lists(rt: &HostRuntime, input: &[u8]) -> Result<()> {
    match read_config(rt.alloc(), input) {
        Some((config, text)) => print_lists(rt, &config, text),
        None => print_line(rt, "no configuration"),
    }
}

// Does the task of a name.
fn run_task(rt: &HostRuntime, task: &str, input: &[u8]) -> Result<()> {
    match task {
        "manifest" => read_manifest(rt, input),
        "locators" => read_locators(rt, input),
        "sign" => sign(rt, input),
        "config" => read_configurations(rt, input),
        "volume" => put_blocks(rt, input),
        "normal" => normal(rt, input),
        "requests" => wire::read_requests(rt, input, 65536),
        "requests-by-byte" => wire::read_requests(rt, input, 1),
        "heads" => wire::parse_heads(rt, input),
        "order" => orders(rt, input),
        "index" => index(rt, input, true),
        "read-index" => index(rt, input, false),
        "lists" => lists(rt, input),
        "make-files" => files::make(rt, input),
        "pack" => files::pack(rt, input),
        "unpack" => files::pack_and_unpack(rt, input),
        "histories" => histories::ask(rt, input),
        "gather" => plans::plan(rt, input, false),
        "plan" => plans::plan(rt, input, true),
        "script" => scripts::read_script(rt, input),
        "read" => scripts::measure_input(rt, input),
        "split-lines" => scripts::split_lines(rt, input),
        "lend-lines" => scripts::lend_lines(rt, input),
        "parse-lines" => scripts::parse_lines(rt, input),
        "decode-lines" => scripts::decode_lines(rt, input),
        "table" => tables::time_table(rt, input),
        "versions" => tables::time_versions(rt, input),
        _ => Ok(println!(rt; "no task {task}")?),
    }
}

fn main(rt: HostRuntime) -> Result<()> {
    let mut input = Vec::new(rt.alloc());
    rt.reader().read_to_end(&mut input)?;
    for task in env::args(&rt)?.skip(1) {
        run_task(&rt, task.as_str(), &input)?;
    }
    Ok(())
}
