//! Asks the servers of a configuration over TCP: puts the block on standard input, gets a block, or fetches the index of a mount, and prints a line for what came of it.
#![tactic(auto)]

mod told;

use crate::told::tell;
use keep_client::{
    ClientError, TcpLink, fetch_index, get_block, is_index_prefix, put_block, server_of,
};
use keep_config::Config;
use keep_event::Block;
use keep_spec::{Bytes, Uuid};
use std::io::Read;
use std::process::ExitCode;
use std::{env, fs, io};

const USAGE: &str =
    "keep_ask put CONFIG TOKEN COPIES | get CONFIG TOKEN LOCATOR | index CONFIG MOUNT ROUND PREFIX";

// How a call ended.
#[derive(Clone, Copy, Debug, PartialEq, Eq)]
enum End {
    Done,
    // What was asked wasn't got.
    Missed,
    // The words are of no call.
    BadWords,
}

impl End {
    fn exit_code(self) -> u8 {
        match self {
            End::Done => 0,
            End::Missed => 1,
            End::BadWords => 2,
        }
    }
}

// Tells why a call has no result.
fn miss(rt: &HostRuntime, error: ClientError) -> io::Result<End> {
    tell(rt, error)?;
    Ok(End::Missed)
}

// Puts the block on standard input, and prints the locators by which servers acknowledged it.
fn put(rt: &HostRuntime, config: &Config, token: &str, copies: &str) -> io::Result<End> {
    let Ok(copies) = copies.parse::<u32>() else {
        return Ok(End::BadWords);
    };
    let mut bytes = Vec::new(rt.alloc());
    rt.reader().read_to_end(&mut bytes)?;
    let Ok(block) = Block::of(Bytes::of(bytes)) else {
        println!(rt; "TooLong")?;
        return Ok(End::Missed);
    };
    let mut link = TcpLink::new(rt.alloc(), rt, config);
    match put_block(
        rt.alloc(),
        &mut link,
        config,
        token.as_bytes(),
        &block,
        copies,
    ) {
        Ok(done) => {
            println!(rt; "Stored")?;
            for locator in done.locators.as_slice() {
                let text = std::str::from_utf8(locator.as_slice()).unwrap_or("");
                println!(rt; "{text}")?;
            }
            Ok(End::Done)
        }
        Err(error) => miss(rt, error),
    }
}

// Gets a block, and prints its bytes in hexadecimal digits.
fn get(rt: &HostRuntime, config: &Config, token: &str, locator: &str) -> io::Result<End> {
    let mut link = TcpLink::new(rt.alloc(), rt, config);
    match get_block(
        rt.alloc(),
        &mut link,
        config,
        token.as_bytes(),
        locator.as_bytes(),
    ) {
        Ok(bytes) => {
            let digits = hex::encode(rt.alloc(), bytes.as_slice())?;
            println!(rt; "Bytes {digits}")?;
            Ok(End::Done)
        }
        Err(error) => miss(rt, error),
    }
}

// Fetches the index of a mount, and prints a line for each entry: digest, size and mtime.
fn index(
    rt: &HostRuntime,
    config: &Config,
    mount: &str,
    round: &str,
    prefix: &str,
) -> io::Result<End> {
    let (Ok(mount), Ok(round)) = (Uuid::read(mount.as_bytes()), round.parse::<u64>()) else {
        return Ok(End::BadWords);
    };
    if server_of(config, &mount).is_none() || !is_index_prefix(prefix.as_bytes()) {
        return Ok(End::BadWords);
    }
    let mut link = TcpLink::new(rt.alloc(), rt, config);
    match fetch_index(
        rt.alloc(),
        &mut link,
        config,
        &mount,
        round,
        prefix.as_bytes(),
    ) {
        Ok(entries) => {
            for entry in &entries {
                let digits = entry.digest.write();
                let digest = std::str::from_utf8(&digits).unwrap_or("");
                let size = entry.size;
                let mtime = entry.mtime;
                println!(rt; "{digest} {size} {mtime}")?;
            }
            println!(rt; "Index")?;
            Ok(End::Done)
        }
        Err(error) => miss(rt, error),
    }
}

fn run(rt: &HostRuntime, words: &[&str]) -> io::Result<End> {
    let Some(file) = words.get(1) else {
        return Ok(End::BadWords);
    };
    let text = fs::read(rt, *file)?;
    let line = text.split(|byte| *byte == b'\n').next().unwrap_or(b"");
    let Ok(config) = Config::read(rt.alloc(), line) else {
        println!(rt; "bad configuration")?;
        return Ok(End::Missed);
    };
    match words {
        ["put", _, token, copies] => put(rt, &config, token, copies),
        ["get", _, token, locator] => get(rt, &config, token, locator),
        ["index", _, mount, round, prefix] => index(rt, &config, mount, round, prefix),
        _ => Ok(End::BadWords),
    }
}

fn main(rt: HostRuntime) -> io::Result<ExitCode> {
    let mut owned = Vec::new(rt.alloc());
    for word in env::args(&rt)?.skip(1) {
        owned.push(word)?;
    }
    let mut words: Vec<&str> = Vec::new(rt.alloc());
    for word in &owned {
        words.push(word.as_str())?;
    }
    let end = run(&rt, &words)?;
    if end == End::BadWords {
        eprintln!(rt; "{USAGE}")?;
    }
    Ok(ExitCode::from(end.exit_code()))
}
